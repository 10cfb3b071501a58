//! Why a row is told of.

use std::alloc::AllocError;

/// Why a row is told of: a part of it that isn't read, out of memory, or an answer that isn't the
/// one wanted.
#[derive(Clone, Copy)]
pub struct Fault {
    /// Who answers. It is `unread` for a part that isn't read, and `row` where no engine answers.
    pub by: &'static str,
    /// What is answered, or the part.
    pub what: &'static str,
}

/// The first fault that was noted.
#[derive(Clone, Copy)]
pub struct Verdict {
    fault: Option<Fault>,
}

impl Verdict {
    /// No fault.
    pub fn new() -> Verdict {
        Verdict { fault: None }
    }

    /// Notes a fault, unless one was noted before.
    pub fn note(&mut self, by: &'static str, what: &'static str) {
        if self.fault.is_none() {
            self.fault = Some(Fault { by, what });
        }
    }

    /// Notes this fault, where an answer isn't the same.
    pub fn expect(&mut self, is_same: bool, by: &'static str, what: &'static str) {
        if !is_same {
            self.note(by, what);
        }
    }

    /// What was made. Else this in its place, and that memory was refused is noted.
    pub fn made<T: Drop>(&mut self, made: Result<T, AllocError>, otherwise: T) -> T {
        match made {
            Ok(made) => made,
            Err(_) => {
                self.note("row", "memory");
                otherwise
            }
        }
    }

    /// Adds an item to a list, or notes that memory was refused.
    pub fn push<T: Drop>(&mut self, list: &mut Vec<T>, item: T) {
        if list.push(item).is_err() {
            self.note("row", "memory");
        }
    }

    /// The fault, where one was noted.
    pub fn result(self) -> Result<(), Fault> {
        match self.fault {
            None => Ok(()),
            Some(fault) => Err(fault),
        }
    }
}
