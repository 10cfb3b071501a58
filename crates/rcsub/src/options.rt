//! Options: what is replaced, and where the replaced text goes.

use grep_options::{Given, Id};
use std::alloc::{AllocError, AllocFailed, Global};

/// What becomes of the replaced text of a file.
#[derive(Clone, Copy, PartialEq, Eq)]
pub enum Effect<'w> {
    /// It is printed.
    Print,
    /// It takes the place of the file, which is kept under its name and this suffix if there is one.
    Change(Option<&'w str>),
    /// A diff is printed.
    Diff,
}

/// What is replaced, and where the replaced text goes.
#[derive(Drop)]
pub struct Options<'w> {
    pub pattern: &'w str,
    pub template: &'w str,
    pub ignore_case: bool,
    pub is_fixed: bool,
    pub by_line: bool,
    pub effect: Effect<'w>,
    /// The names of files; `-` is the standard input. There is at least one.
    pub files: Vec<&'w str>,
}

/// Why nothing is replaced.
#[derive(Clone, Copy)]
pub enum Refusal<'w> {
    /// The help is asked for.
    Help,
    /// The version is asked for.
    Version,
    /// A text that is made of the options is asked for.
    Generate(&'w str),
    /// The pattern is missing.
    NoPattern,
    /// The template is missing.
    NoTemplate,
    /// The standard input can't be changed in place.
    NoFile,
    /// A suffix is empty, or has a slash.
    BadSuffix(&'w str),
    /// Out of memory.
    Memory,
}

impl<'w, T: Drop> From<AllocFailed<T>> for Refusal<'w> {
    fn from(_: AllocFailed<T>) -> Refusal<'w> {
        Refusal::Memory
    }
}

impl<'w> From<AllocError> for Refusal<'w> {
    fn from(_: AllocError) -> Refusal<'w> {
        Refusal::Memory
    }
}

/// How files are changed, by the value of the option.
fn change_by(suffix: Option<&str>) -> Result<Effect<'_>, Refusal<'_>> {
    match suffix {
        Some(suffix) if suffix.is_empty() || suffix.contains('/') => {
            Err(Refusal::BadSuffix(suffix))
        }
        _ => Ok(Effect::Change(suffix)),
    }
}

impl<'w> Options<'w> {
    /// Sets an option. A dry run changes no file, whatever else is asked for.
    fn set(&mut self, id: Id, value: Option<&'w str>) -> Result<(), Refusal<'w>> {
        match id {
            Id::Help => return Err(Refusal::Help),
            Id::Version => return Err(Refusal::Version),
            Id::Generate => return Err(Refusal::Generate(value.unwrap_or(""))),
            Id::IgnoreCase => self.ignore_case = true,
            Id::FixedStrings => self.is_fixed = true,
            Id::LineByLine => self.by_line = true,
            Id::DryRun => self.effect = Effect::Diff,
            Id::InPlace => {
                let change = change_by(value)?;
                if self.effect != Effect::Diff {
                    self.effect = change;
                }
            }
            _ => {}
        }
        Ok(())
    }

    /// Takes the words that are no options: the pattern, the template, and files.
    fn take_operands(&mut self, operands: &[&'w str]) -> Result<(), Refusal<'w>> {
        let [pattern, operands @ ..] = operands else {
            return Err(Refusal::NoPattern);
        };
        let [template, files @ ..] = operands else {
            return Err(Refusal::NoTemplate);
        };
        self.pattern = *pattern;
        self.template = *template;
        self.files.extend_from_slice(files)?;
        if self.files.is_empty() {
            self.files.push("-")?;
        }
        if let Effect::Change(_) = self.effect {
            if self.files.iter().any(|name| *name == "-") {
                return Err(Refusal::NoFile);
            }
        }
        Ok(())
    }

    /// The options that a command line gives.
    pub fn of(alloc: Global, given: &Given<'w>) -> Result<Options<'w>, Refusal<'w>> {
        let mut options = Options {
            pattern: "",
            template: "",
            ignore_case: false,
            is_fixed: false,
            by_line: false,
            effect: Effect::Print,
            files: Vec::new(alloc),
        };
        for option in &given.options {
            let (id, value): (Id, Option<&'w str>) = *option;
            options.set(id, value)?;
        }
        options.take_operands(&given.operands)?;
        Ok(options)
    }
}
