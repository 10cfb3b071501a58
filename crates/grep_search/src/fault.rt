//! Faults: why the search of a file stopped.

use grep_lines::PrintError;
use std::io;

/// Why the search of a file stopped.
#[derive(Drop)]
pub enum Fault {
    /// The file couldn't be read, or there was no memory.
    Read(io::Error),
    /// Lines of the file would be written to its own end, and found there again.
    IsOutput,
    /// A line couldn't be written.
    Write(io::Error),
}

impl From<PrintError> for Fault {
    fn from(fault: PrintError) -> Fault {
        match fault {
            PrintError::Read(fault) => Fault::Read(fault),
            PrintError::Print(fault) => Fault::Write(fault),
        }
    }
}

/// The value, or the error as one of a file.
pub fn read<T: Drop>(done: io::Result<T>) -> Result<T, Fault> {
    match done {
        Ok(value) => Ok(value),
        Err(fault) => Err(Fault::Read(fault)),
    }
}

/// Whether something was written, or the error as one of the output.
pub fn written(done: io::Result<()>) -> Result<(), Fault> {
    match done {
        Ok(()) => Ok(()),
        Err(fault) => Err(Fault::Write(fault)),
    }
}
