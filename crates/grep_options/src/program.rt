//! Programs: the words of their command lines, their messages, and their status.

use crate::faults::put_usage;
use crate::help::put_text;
use crate::table::{Entry, Program};
use std::alloc::{AllocError, Global};
use std::io;
use std::io::{ErrorKind, Write};

/// The status of an error.
pub const FAULT: u8 = 2;

/// The arguments of the program. An error means out of memory, or an argument that isn't text.
pub fn words_of(rt: &HostRuntime) -> io::Result<Vec<String>> {
    let words = std::env::args(rt)?.skip(1).collect(rt.alloc())?;
    Ok(words)
}

/// The words, borrowed.
pub fn lent(alloc: Global, words: &[String]) -> Result<Vec<&str>, AllocError> {
    words.iter().map(|word| word.as_str()).collect(alloc)
}

impl Program {
    /// Reports an error, and returns the status of one. An error of the standard error is ignored.
    pub fn report(&self, rt: &HostRuntime, line: &str) -> u8 {
        let name = self.name;
        let _ = writeln!(rt.stderr(), "{name}: {line}");
        FAULT
    }

    /// Reports that the output failed. That its reader is gone is no fault.
    pub fn report_output(&self, rt: &HostRuntime, fault: &io::Error) -> u8 {
        if fault.kind() == ErrorKind::BrokenPipe {
            return 0;
        }
        let name = self.name;
        let _ = writeln!(rt.stderr(), "{name}: write error: {fault}");
        FAULT
    }

    /// Reports that the arguments weren't read.
    pub fn report_words(&self, rt: &HostRuntime, fault: &io::Error) -> u8 {
        self.report(
            rt,
            if fault.kind() == ErrorKind::OutOfMemory {
                "out of memory"
            } else {
                "a word is no text"
            },
        )
    }

    /// Reports a fault of the command line, the word at fault if it isn't empty, and the usage.
    pub fn report_usage(&self, rt: &HostRuntime, fault: &str, word: &str) -> u8 {
        let _ = put_usage(&mut rt.stderr(), self, fault, word);
        FAULT
    }

    /// The status after a text was written to the standard output, or not.
    pub fn status_of(&self, rt: &HostRuntime, written: io::Result<()>) -> u8 {
        match written {
            Ok(()) => 0,
            Err(fault) => self.report_output(rt, &fault),
        }
    }

    /// Writes a text that is made of the options.
    pub fn generate(&self, rt: &HostRuntime, options: &[Entry], kind: &str) -> u8 {
        match put_text(&mut rt.stdout(), self, options, kind) {
            Ok(true) => 0,
            Ok(false) => self.report_usage(rt, "no such text:", kind),
            Err(fault) => self.report_output(rt, &fault),
        }
    }
}
