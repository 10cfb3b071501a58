//! Reader search: what is printed of one reader.

use crate::fault::{Fault, read, written};
use crate::pages::{PageReader, bytes_of, page_len, read_pages};
use grep_files::Identity;
use grep_lines::{Extent, Touched, print_selected, print_touched};
use grep_options::filter::{Options, Report};
use grep_output::{MatchFinder, Output, Printer, Recorder, Style, Template};
use memchr::memchr;
use std::alloc::Global;
use std::io;
use std::io::{BufRead, BufReader, ErrorKind, Read, Write};
use std::time::{Duration, Instant};

/// Whether a file is binary: its first page has a NUL byte.
fn is_binary<R: BufRead>(reader: &mut R) -> bool {
    match reader.fill_buf() {
        Ok(page) => memchr(0, page).is_some(),
        Err(_) => false,
    }
}

/// How lines are searched and printed, and where to.
#[derive(Clone, Copy)]
pub struct Job<'o, 't, 'w> {
    pub alloc: Global,
    pub options: &'o Options<'w>,
    pub template: Option<&'t Template<'w>>,
    /// The file to which lines are written, if they are written to a file.
    pub output: Option<Identity>,
    pub is_colored: bool,
    /// Whether each line is written at once.
    pub is_line_buffered: bool,
}

impl Job<'_, '_, '_> {
    /// How the lines of a file are printed.
    fn style<'o>(&'o self, name: &'o str, report: Report) -> Style<'o> {
        let options = self.options;
        let is_quiet = report != Report::Lines;
        Style {
            name: if options.shows_names() {
                Some(name)
            } else {
                None
            },
            numbers: options.numbers,
            places: options.places && !is_quiet,
            columns: options.columns,
            null: options.null,
            only_matching: options.only_matching,
            template: self.template,
            is_inverted: options.invert,
            is_colored: self.is_colored,
            line_buffered: self.is_line_buffered,
            separates: options.context().is_some() && !is_quiet,
            is_quiet,
            is_text: options.text || options.null_data,
            terminator: options.terminator(),
        }
    }

    /// How many lines are printed around a selected one, and how many are selected.
    fn extent(&self) -> Extent {
        let (before, after) = self.options.context().unwrap_or((0, 0));
        Extent {
            before: usize::try_from(before).unwrap_or(usize::MAX),
            after,
            most: self.options.most,
        }
    }

    /// The greatest number of lines that are selected. One is enough if nothing else is printed.
    fn most(&self, report: Report) -> u64 {
        match report {
            Report::Lines | Report::Count => self.options.most,
            _ => self.options.most.min(1),
        }
    }

    /// Whether the first match in a text decides: it is asked if a line is touched. No match begins
    /// before it, so if it touches no line, the others don't either.
    fn asks_first(&self, report: Report) -> bool {
        report != Report::Lines && !self.options.invert && self.most(report) <= 1
    }

    /// How many lines are printed around a selected one, and how many are selected. If no line is
    /// printed, there are none around it.
    fn extent_for(&self, report: Report) -> Extent {
        if report == Report::Lines {
            return self.extent();
        }
        Extent {
            before: 0,
            after: 0,
            most: self.most(report),
        }
    }

    /// Prints the lines of a reader, with those around them if that is asked for, and returns how
    /// many were selected. If something else is printed, the lines are only counted. The text is read
    /// by lines, unless a match may go on across them.
    fn put_lines<R: BufRead, F: MatchFinder, W: Write + Drop>(
        &self,
        finder: &mut F,
        reader: &mut R,
        out: &mut Output<W>,
        name: &str,
        report: Report,
    ) -> Result<u64, Fault> {
        if self.options.multiline && !finder.keeps_to_lines() {
            return self.put_touched(finder, reader, out, name, report);
        }
        let style = self.style(name, report);
        let terminator = style.terminator;
        let mut printer = Printer::new(self.alloc, out, style);
        let extent = self.extent_for(report);
        let printed = print_selected(self.alloc, reader, finder, &mut printer, terminator, extent);
        Ok(printed?)
    }

    /// Prints the lines of a reader that a match touches, or the others, with those around them if
    /// that is asked for, and returns how many were selected. If something else is printed, the lines
    /// are only counted. The text is in memory as a whole, in pages.
    fn put_touched<R: BufRead, F: MatchFinder, W: Write + Drop>(
        &self,
        finder: &mut F,
        reader: &mut R,
        out: &mut Output<W>,
        name: &str,
        report: Report,
    ) -> Result<u64, Fault> {
        let pages = read(read_pages(self.alloc, reader))?;
        let chunks = read(bytes_of(self.alloc, &pages))?;
        let mut spans = Vec::new(self.alloc);
        read(finder.find_in_text(&chunks, self.asks_first(report), &mut spans))?;
        let Some(touched) = Touched::new(&spans, self.options.invert) else {
            return Err(Fault::Read(io::Error::from(ErrorKind::Other)));
        };
        let mut lines = PageReader::new(&chunks);
        let style = self.style(name, report);
        let terminator = style.terminator;
        let mut printer = Printer::new(self.alloc, out, style).with_spans(&spans);
        let printed = print_touched(
            self.alloc,
            &mut lines,
            &touched,
            finder,
            &mut printer,
            terminator,
            self.extent_for(report),
        );
        Ok(printed?)
    }

    /// Prints the records of a reader's lines, and returns how many were selected. The last one is
    /// left to the end of the file.
    fn put_records<R: BufRead, F: MatchFinder, W: Write + Drop>(
        &self,
        finder: &mut F,
        reader: &mut R,
        out: &mut Output<W>,
        name: &str,
    ) -> Result<u64, Fault> {
        let terminator = self.options.terminator();
        let mut recorder = Recorder {
            alloc: self.alloc,
            out,
            name,
            terminator,
            is_inverted: self.options.invert,
        };
        let extent = self.extent();
        let printed = print_selected(
            self.alloc,
            reader,
            finder,
            &mut recorder,
            terminator,
            extent,
        );
        Ok(printed?)
    }

    /// Prints the number of selected lines of a file, or its name, if that is asked for.
    fn put_count_or_name<W: Write>(
        &self,
        out: &mut W,
        name: &str,
        report: Report,
        count: u64,
    ) -> io::Result<()> {
        let (mark, end) = if self.options.null {
            ('\0', '\0')
        } else {
            (':', '\n')
        };
        match report {
            Report::Count if self.options.shows_names() => writeln!(out, "{name}{mark}{count}"),
            Report::Count => writeln!(out, "{count}"),
            Report::NameIfAny if count > 0 => write!(out, "{name}{end}"),
            Report::NameIfNone if count == 0 => write!(out, "{name}{end}"),
            _ => Ok(()),
        }
    }

    /// What is printed of a reader, or `None` if it isn't searched. A binary file is passed over in
    /// a folder, and else its lines aren't printed.
    fn report_of<R: BufRead>(&self, reader: &mut R, is_in_folder: bool) -> Option<Report> {
        let report = self.options.report();
        if self.options.text || self.options.null_data || !is_binary(reader) {
            return Some(report);
        }
        if is_in_folder || self.options.no_binary {
            return None;
        }
        Some(match report {
            Report::Lines => Report::Binary,
            report => report,
        })
    }

    /// Prints what is asked for of a reader, and returns whether a line was selected. That one is in a
    /// binary file is told on the standard error.
    fn put_report<R: BufRead, F: MatchFinder, W: Write + Drop>(
        &self,
        rt: &HostRuntime,
        finder: &mut F,
        reader: &mut R,
        out: &mut Output<W>,
        file: SearchedFile<'_>,
    ) -> Result<bool, Fault> {
        let name = file.name;
        let Some(report) = self.report_of(reader, file.is_in_folder) else {
            if !file.is_in_folder {
                let report = self.options.report();
                written(self.put_count_or_name(&mut out.writer.inner, name, report, 0))?;
            }
            return Ok(false);
        };
        if report == Report::Lines && self.options.json {
            return Ok(self.put_records(finder, reader, out, name)? > 0);
        }
        let count = self.put_lines(finder, reader, out, name, report)?;
        written(self.put_count_or_name(&mut out.writer.inner, name, report, count))?;
        let is_binary = report == Report::Binary || (out.is_binary && !self.options.no_binary);
        if count > 0 && is_binary {
            let _ = writeln!(rt.stderr(), "rcgrep: {name}: binary file matches");
        }
        Ok(count > 0)
    }

    /// Whether times and lines are counted.
    pub fn counts(&self) -> bool {
        self.options.stats || self.options.json
    }

    /// The time, if times are counted.
    pub fn now(&self, rt: &HostRuntime) -> Option<Instant> {
        if self.counts() {
            Instant::now(rt).ok()
        } else {
            None
        }
    }

    /// Searches one reader, in pages, and returns whether a line was selected. It counts what was
    /// searched, if that is asked for.
    pub fn search<R: Read + Drop, F: MatchFinder, W: Write + Drop>(
        &self,
        rt: &HostRuntime,
        finder: &mut F,
        inner: R,
        out: &mut Output<W>,
        file: SearchedFile<'_>,
    ) -> Result<bool, Fault> {
        let begun = self.now(rt);
        out.begin_file();
        let page = page_len(file.size);
        let made = BufReader::with_capacity(self.alloc, page, inner.take(u64::MAX));
        let mut reader = read(made)?;
        let found = self.put_report(rt, finder, &mut reader, out, file);
        let size = u64::MAX - reader.get_ref().limit();
        drop(reader);
        let is_any = matches!(found, Ok(true));
        written(out.end_file(file.name, size, is_any, elapsed(rt, begun)))?;
        found
    }
}

/// A file that is searched.
#[derive(Clone, Copy)]
pub struct SearchedFile<'f> {
    /// Its name, in what is printed.
    pub name: &'f str,
    /// Whether it was found in a folder.
    pub is_in_folder: bool,
    /// How many bytes it has, if that is known.
    pub size: Option<u64>,
}

/// How long it is since then, or nothing if that isn't known.
pub fn elapsed(rt: &HostRuntime, begun: Option<Instant>) -> Duration {
    match begun {
        Some(begun) => begun.elapsed(rt).unwrap_or(Duration::ZERO),
        None => Duration::ZERO,
    }
}
