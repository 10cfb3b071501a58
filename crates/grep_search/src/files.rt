//! Searched files: those of the command line and of folders, or the standard input.

use crate::fault::{Fault, read, written};
use crate::job::{Job, SearchedFile, elapsed};
use crate::prompt::{PromptReader, SharedStdout};
use grep_files::{Choice, FoundFile, Identity, Walk};
use grep_options::filter::{Options, Report};
use grep_output::{MatchFinder, Output, Template};
use std::alloc::Global;
use std::cell::RefCell;
use std::fs::File;
use std::io;
use std::io::{BufWriter, IsTerminal, Read, Write};

/// The name of the standard input, in what is printed.
const STDIN: &str = "(standard input)";

/// Its name in records.
const STDIN_RECORD: &str = "<stdin>";

/// The message for a file that is searched and written to.
const IS_OUTPUT: &str = "input file is also the output";

impl Job<'_, '_, '_> {
    /// Refuses a file to which its own lines would be written.
    fn check_output(&self, file: Option<Identity>) -> Result<(), Fault> {
        if self.output.is_some() && self.output == file {
            return Err(Fault::IsOutput);
        }
        Ok(())
    }

    /// Searches an open input. What was printed is written before each read, if the input isn't a
    /// regular file: its error shows in the flush behind a read that failed. `identity` is that of the
    /// file.
    fn search_input<R: Read + Drop, F: MatchFinder>(
        &self,
        rt: &HostRuntime,
        finder: &mut F,
        inner: R,
        identity: Option<Identity>,
        out: &mut Output<SharedStdout<'_>>,
        file: SearchedFile<'_>,
    ) -> Result<bool, Fault> {
        self.check_output(identity)?;
        let reader = PromptReader {
            inner,
            output: out.writer.inner,
            may_wait: identity.is_none(),
            is_over: false,
        };
        match self.search(rt, finder, reader, out, file) {
            Err(Fault::Read(fault)) => {
                written(out.writer.flush())?;
                Err(Fault::Read(fault))
            }
            found => found,
        }
    }

    /// The name of the standard input: in records, or else in what is printed.
    fn stdin_name(&self, in_records: bool) -> &str {
        match self.options.label {
            Some(label) => label,
            None if in_records => STDIN_RECORD,
            None => STDIN,
        }
    }

    /// The name of a file in messages.
    fn name_of<'p>(&'p self, path: &'p str) -> &'p str {
        if path == "-" {
            self.stdin_name(false)
        } else {
            path
        }
    }

    /// Searches the standard input.
    fn search_stdin<F: MatchFinder>(
        &self,
        rt: &HostRuntime,
        finder: &mut F,
        out: &mut Output<SharedStdout<'_>>,
    ) -> Result<bool, Fault> {
        let file = SearchedFile {
            name: self.stdin_name(self.options.json),
            is_in_folder: false,
            size: None,
        };
        self.search_input(rt, finder, rt.stdin(), Identity::of_stdin(rt), out, file)
    }

    /// Searches a file, or the standard input.
    fn search_file<F: MatchFinder>(
        &self,
        rt: &HostRuntime,
        finder: &mut F,
        out: &mut Output<SharedStdout<'_>>,
        found: &FoundFile,
    ) -> Result<bool, Fault> {
        let name = found.path.as_str();
        if name == "-" {
            return self.search_stdin(rt, finder, out);
        }
        let opened = read(File::open(rt, name))?;
        let known = Identity::with_size(&opened);
        let file = SearchedFile {
            name,
            is_in_folder: found.is_in_folder,
            size: known.map(|(_, size)| size),
        };
        let identity = known.map(|(identity, _)| identity);
        self.search_input(rt, finder, opened, identity, out, file)
    }

    /// Reports a file that couldn't be searched, unless messages are off.
    fn report_fault(&self, rt: &HostRuntime, path: &str, fault: &io::Error) {
        if !self.options.no_messages {
            let name = self.name_of(path);
            let _ = writeln!(rt.stderr(), "rcgrep: {name}: {fault}");
        }
    }

    /// Searches the next file of a walk, and returns whether a line was selected, or `None` if the
    /// file couldn't be searched, which is reported. An `Err` is an error of the output.
    fn search_found<F: MatchFinder>(
        &self,
        rt: &HostRuntime,
        finder: &mut F,
        out: &mut Output<SharedStdout<'_>>,
        found: &FoundFile,
    ) -> io::Result<Option<bool>> {
        match self.search_file(rt, finder, out, found) {
            Ok(is_any) => return Ok(Some(is_any)),
            Err(Fault::Read(fault)) => self.report_fault(rt, found.path.as_str(), &fault),
            Err(Fault::IsOutput) => {
                let name = self.name_of(found.path.as_str());
                let _ = writeln!(rt.stderr(), "rcgrep: {name}: {IS_OUTPUT}");
            }
            Err(Fault::Write(fault)) => return Err(fault),
        }
        Ok(None)
    }

    /// Searches the files of a walk, and returns the status.
    fn search_walk<F: MatchFinder>(
        &self,
        rt: &HostRuntime,
        finder: &mut F,
        out: &mut Output<SharedStdout<'_>>,
        walk: &mut Walk<'_>,
    ) -> io::Result<u8> {
        let mut is_any = false;
        let mut has_failed = false;
        for _ in 0..u64::MAX {
            let searched = match walk.next_file(rt) {
                Ok(Some(found)) => self.search_found(rt, finder, out, &found)?,
                Ok(None) => break,
                Err(refused) => {
                    self.report_fault(rt, refused.path.as_str(), &refused.fault);
                    None
                }
            };
            has_failed |= searched.is_none();
            is_any |= searched == Some(true);
            if is_any && self.options.quiet {
                return Ok(0);
            }
        }
        Ok(status_of(is_any, has_failed))
    }

    /// Searches the files of a walk, and writes to the standard output.
    fn print_walk<F: MatchFinder>(
        &self,
        rt: &HostRuntime,
        finder: &mut F,
        walk: &mut Walk<'_>,
    ) -> io::Result<u8> {
        let begun = self.now(rt);
        let buffer = RefCell::new(BufWriter::new(self.alloc, rt.stdout())?);
        let writer = SharedStdout { buffer: &buffer };
        let mut out = Output::new(self.alloc, writer, self.counts(), self.options.json);
        let status = self.search_walk(rt, finder, &mut out, walk)?;
        out.put_total(elapsed(rt, begun))?;
        out.writer.flush()?;
        Ok(status)
    }
}

/// The status of a search.
fn status_of(is_any: bool, has_failed: bool) -> u8 {
    if has_failed {
        2
    } else if is_any {
        0
    } else {
        1
    }
}

/// The file to which lines are written, if lines are written and it is a regular file.
fn output_of(rt: &HostRuntime, options: &Options<'_>) -> Option<Identity> {
    if options.report() != Report::Lines {
        return None;
    }
    Identity::of_stdout(rt)
}

/// Which files of folders are searched, by the options.
fn choice_of<'w>(alloc: Global, options: &Options<'w>) -> io::Result<Choice<'w>> {
    Ok(Choice {
        is_recursive: options.recursive,
        include: Vec::from_slice(alloc, &options.include)?,
        exclude: Vec::from_slice(alloc, &options.exclude)?,
        exclude_dir: Vec::from_slice(alloc, &options.exclude_dir)?,
        follows_links: options.follows_links,
        hidden: options.hidden,
    })
}

/// Searches all files, one after another, or the standard input, and returns the status: 0 if a
/// line was selected, 1 if none was, and 2 if a file couldn't be read, or lines would be written to
/// it. Such a file is reported on the standard error, and the next file is searched. An `Err` is an
/// error of the standard output, or out of memory.
pub fn search_all<F: MatchFinder>(
    rt: &HostRuntime,
    finder: &mut F,
    options: &Options<'_>,
    is_colored: bool,
) -> io::Result<u8> {
    if options.most == 0 && options.report() != Report::NameIfNone {
        return Ok(status_of(false, false));
    }
    let alloc = rt.alloc();
    let template = match options.template {
        Some(text) => Some(Template::new(alloc, text)?),
        None => None,
    };
    let job = Job {
        alloc,
        options,
        template: template.as_ref(),
        output: output_of(rt, options),
        is_colored,
        is_line_buffered: options.line_buffered || rt.stdout().is_terminal(),
    };
    let mut walk = Walk::new(alloc, &options.files, choice_of(alloc, options)?)?;
    let status = job.print_walk(rt, finder, &mut walk);
    drop(walk);
    status
}
