//! Files: the replaced text of each is printed, takes its place, or is compared with it.

use crate::diff::put_diff;
use crate::faults::report_file;
use crate::files::change;
use crate::options::{Effect, Options};
use crate::replacer::Replacer;
use crate::rewrite::Fault;
use grep_files::Identity;
use grep_options::{FAULT, RCSUB};
use std::fs::File;
use std::io::{BufWriter, ErrorKind, Read, Write};
use std::{fs, io};

/// The status if something was replaced.
const REPLACED: u8 = 0;

/// The status if nothing was.
const UNREPLACED: u8 = 1;

/// What was done so far.
#[derive(Clone, Copy)]
struct Tally {
    any: bool,
    has_failed: bool,
}

impl Tally {
    fn new() -> Tally {
        Tally {
            any: false,
            has_failed: false,
        }
    }

    /// Counts a file, and reports its fault.
    fn add(&mut self, rt: &HostRuntime, path: &str, done: Result<bool, Fault>) {
        match done {
            Ok(any) => self.any = self.any || any,
            Err(fault) => {
                self.has_failed = true;
                report_file(rt, path, &fault);
            }
        }
    }

    /// The status of the program.
    fn status(self) -> u8 {
        if self.has_failed {
            FAULT
        } else if self.any {
            REPLACED
        } else {
            UNREPLACED
        }
    }
}

/// Opens a file that isn't the standard output.
fn open(rt: &HostRuntime, path: &str) -> io::Result<File> {
    let file = File::open(rt, path)?;
    let output = Identity::of_stdout(rt);
    if output.is_some() && output == Identity::of_file(&file) {
        return Err(io::Error::from(ErrorKind::ResourceBusy));
    }
    Ok(file)
}

/// The bytes of a file, or of the standard input.
fn read_file(rt: &HostRuntime, path: &str) -> io::Result<Vec<u8>> {
    if path == "-" {
        let mut bytes = Vec::new(rt.alloc());
        rt.stdin().read_to_end(&mut bytes)?;
        return Ok(bytes);
    }
    fs::read(rt, path)
}

/// Whether the standard input is the file to which the standard output goes. What is written would
/// be read again then, without end.
fn reads_output(rt: &HostRuntime) -> bool {
    let output = Identity::of_stdout(rt);
    output.is_some() && output == Identity::of_stdin(rt)
}

/// Writes the replaced text of a file, or of the standard input, to the standard output.
fn print_file(
    rt: &HostRuntime,
    replacer: &Replacer<'_>,
    by_line: bool,
    path: &str,
) -> Result<bool, Fault> {
    let (any, _) = if path != "-" {
        let file = open(rt, path)?;
        replacer.rewrite_over(rt.alloc(), by_line, file, rt.stdout())?
    } else if reads_output(rt) {
        let text = read_file(rt, path)?;
        replacer.rewrite_over(rt.alloc(), by_line, text.as_slice(), rt.stdout())?
    } else {
        replacer.rewrite_over(rt.alloc(), by_line, rt.stdin(), rt.stdout())?
    };
    Ok(any)
}

/// Writes the replaced texts of files to the standard output, one after another.
fn print_files(rt: &HostRuntime, replacer: &Replacer<'_>, options: &Options<'_>) -> u8 {
    let mut tally = Tally::new();
    for path in &options.files {
        match print_file(rt, replacer, options.by_line, path) {
            Err(Fault::Write(fault)) => return RCSUB.report_output(rt, &fault),
            done => tally.add(rt, path, done),
        }
    }
    tally.status()
}

/// Writes a diff of a file and its replaced text, and returns whether there was a match.
fn compare_file<W: Write>(
    rt: &HostRuntime,
    replacer: &Replacer<'_>,
    by_line: bool,
    path: &str,
    out: &mut W,
) -> Result<bool, Fault> {
    let old = read_file(rt, path)?;
    let alloc = rt.alloc();
    let (any, new) = replacer.rewrite_over(alloc, by_line, old.as_slice(), Vec::new(alloc))?;
    match put_diff(alloc, out, path, &old, &new) {
        Ok(()) => Ok(any),
        Err(fault) if fault.kind() == ErrorKind::OutOfMemory => Err(Fault::Memory),
        Err(fault) => Err(Fault::Write(fault)),
    }
}

/// Writes diffs of files and their replaced texts.
fn compare_files(rt: &HostRuntime, replacer: &Replacer<'_>, options: &Options<'_>) -> u8 {
    let Ok(mut out) = BufWriter::new(rt.alloc(), rt.stdout()) else {
        return RCSUB.report(rt, "out of memory");
    };
    let mut tally = Tally::new();
    for path in &options.files {
        match compare_file(rt, replacer, options.by_line, path, &mut out) {
            Err(Fault::Write(fault)) => return RCSUB.report_output(rt, &fault),
            done => tally.add(rt, path, done),
        }
    }
    match out.flush() {
        Ok(()) => tally.status(),
        Err(fault) => RCSUB.report_output(rt, &fault),
    }
}

/// Changes files.
fn change_files(
    rt: &HostRuntime,
    replacer: &Replacer<'_>,
    options: &Options<'_>,
    suffix: Option<&str>,
) -> u8 {
    let mut tally = Tally::new();
    for path in &options.files {
        let done = change(rt, replacer, options.by_line, path, suffix);
        tally.add(rt, path, done);
    }
    tally.status()
}

/// Does what is asked for with the replaced texts of all files, and returns the status: 0 if
/// something was replaced, 1 if nothing was, and 2 at a fault. A file that can't be read or changed
/// is reported on the standard error, and the next one is taken.
pub fn replace_files(rt: &HostRuntime, replacer: &Replacer<'_>, options: &Options<'_>) -> u8 {
    match options.effect {
        Effect::Print => print_files(rt, replacer, options),
        Effect::Change(suffix) => change_files(rt, replacer, options, suffix),
        Effect::Diff => compare_files(rt, replacer, options),
    }
}
