//! Options of `rcgrep`: what is searched, and how it is printed.

use crate::read::Given;
use crate::table::Id;
use std::alloc::{AllocFailed, Global};

/// What is printed of a file.
#[derive(Clone, Copy, PartialEq, Eq)]
pub enum Report {
    /// The selected lines.
    Lines,
    /// Their number.
    Count,
    /// The name, if a line is selected.
    NameIfAny,
    /// The name, if no line is.
    NameIfNone,
    /// A message that a line is selected: the file is binary.
    Binary,
    /// Nothing.
    Nothing,
}

/// When matches are marked.
#[derive(Clone, Copy, PartialEq, Eq)]
pub enum When {
    Always,
    Never,
    /// If the output is a terminal.
    Auto,
}

/// Which part of a line a match has to be.
#[derive(Clone, Copy, PartialEq, Eq)]
pub enum Fit {
    Any,
    Words,
    Line,
    /// Like `Line`, in lines that may have newlines.
    Text,
}

/// What is searched, and how it is printed.
#[derive(Drop)]
pub struct Options<'w> {
    pub patterns: Vec<&'w str>,
    /// The files whose lines are patterns.
    pub pattern_files: Vec<&'w str>,
    pub is_fixed: bool,
    /// Whether patterns are read by the stated grammar, not by the full one.
    pub is_stated: bool,
    pub ignore_case: bool,
    pub smart_case: bool,
    pub fit: Fit,
    pub invert: bool,
    /// Whether a match may go on across lines.
    pub multiline: bool,
    pub counts: bool,
    pub quiet: bool,
    /// Whether only the names of files are printed, and of which.
    pub lists: Option<Report>,
    pub no_messages: bool,
    pub only_matching: bool,
    /// The template that matches are replaced by, if they are.
    pub template: Option<&'w str>,
    /// Whether records of JSON are printed.
    pub json: bool,
    /// Whether statistics are printed.
    pub stats: bool,
    pub numbers: bool,
    /// Whether the place of each line, or match, is printed.
    pub places: bool,
    /// Whether the column of the first match in a line, or of each match, is printed.
    pub columns: bool,
    /// Whether names of files are printed, if that is said.
    pub names: Option<bool>,
    /// Whether a NUL byte stands behind each name of a file.
    pub null: bool,
    /// The name of the standard input, if one is given.
    pub label: Option<&'w str>,
    /// The greatest number of selected lines of a file.
    pub most: u64,
    pub color: When,
    pub line_buffered: bool,
    pub before: Option<u64>,
    pub after: Option<u64>,
    pub around: Option<u64>,
    pub recursive: bool,
    /// Whether links in folders are followed.
    pub follows_links: bool,
    pub include: Vec<&'w str>,
    pub exclude: Vec<&'w str>,
    pub exclude_dir: Vec<&'w str>,
    pub hidden: bool,
    /// Whether lines end in a NUL byte.
    pub null_data: bool,
    pub text: bool,
    pub no_binary: bool,
    /// The names of files; `-` is the standard input. There is at least one.
    pub files: Vec<&'w str>,
}

/// Why nothing is searched.
#[derive(Clone, Copy)]
pub enum Refusal<'w> {
    /// The help is asked for.
    Help,
    /// The version is asked for.
    Version,
    /// A text that is made of the options is asked for.
    Generate(&'w str),
    /// This value of an option isn't one of those that it takes.
    BadValue(&'w str),
    /// Records are asked for, and something else in their place.
    Clash,
    /// A match may go on across lines, and something is asked for that goes line by line.
    LineClash,
    /// A pattern is missing.
    NoPattern,
    /// Out of memory.
    Memory,
}

impl<'w, T: Drop> From<AllocFailed<T>> for Refusal<'w> {
    fn from(_: AllocFailed<T>) -> Refusal<'w> {
        Refusal::Memory
    }
}

/// The number that a value says. One that is too large is the greatest.
fn number(value: &str) -> Result<u64, Refusal<'_>> {
    if value.is_empty() || !value.bytes().all(|byte| byte.is_ascii_digit()) {
        return Err(Refusal::BadValue(value));
    }
    Ok(value.parse::<u64>().unwrap_or(u64::MAX))
}

/// When matches are marked, by a value.
fn marking_of(value: Option<&str>) -> Result<When, Refusal<'_>> {
    let Some(value) = value else {
        return Ok(When::Auto);
    };
    match value {
        "always" => Ok(When::Always),
        "never" => Ok(When::Never),
        "auto" => Ok(When::Auto),
        _ => Err(Refusal::BadValue(value)),
    }
}

impl<'w> Options<'w> {
    fn new(alloc: Global) -> Options<'w> {
        Options {
            patterns: Vec::new(alloc),
            pattern_files: Vec::new(alloc),
            is_fixed: false,
            is_stated: false,
            ignore_case: false,
            smart_case: false,
            fit: Fit::Any,
            invert: false,
            multiline: false,
            counts: false,
            quiet: false,
            lists: None,
            no_messages: false,
            only_matching: false,
            template: None,
            json: false,
            stats: false,
            numbers: false,
            places: false,
            columns: false,
            names: None,
            null: false,
            label: None,
            most: u64::MAX,
            color: When::Never,
            line_buffered: false,
            before: None,
            after: None,
            around: None,
            recursive: false,
            follows_links: false,
            include: Vec::new(alloc),
            exclude: Vec::new(alloc),
            exclude_dir: Vec::new(alloc),
            hidden: false,
            null_data: false,
            text: false,
            no_binary: false,
            files: Vec::new(alloc),
        }
    }

    /// Sets an option about patterns that takes no value. Returns whether it is one.
    fn set_pattern_option(&mut self, id: Id) -> bool {
        match id {
            Id::ExtendedRegexp => self.is_fixed = false,
            Id::FixedStrings => self.is_fixed = true,
            Id::Stated => self.is_stated = true,
            Id::IgnoreCase => self.ignore_case = true,
            Id::SmartCase => self.smart_case = true,
            Id::WordRegexp => {
                if self.fit == Fit::Any {
                    self.fit = Fit::Words;
                }
            }
            Id::LineRegexp => self.fit = Fit::Line,
            Id::InvertMatch => self.invert = true,
            Id::Multiline => self.multiline = true,
            _ => return false,
        }
        true
    }

    /// Sets an option about output that takes no value. Returns whether it is one.
    fn set_output_option(&mut self, id: Id) -> bool {
        match id {
            Id::Count => self.counts = true,
            Id::FilesWithMatches => self.lists = Some(Report::NameIfAny),
            Id::FilesWithoutMatch => self.lists = Some(Report::NameIfNone),
            Id::Quiet => self.quiet = true,
            Id::NoMessages => self.no_messages = true,
            Id::OnlyMatching => self.only_matching = true,
            Id::LineNumber => self.numbers = true,
            Id::ByteOffset => self.places = true,
            Id::Column => {
                self.numbers = true;
                self.columns = true;
            }
            Id::NoFilename => self.names = Some(false),
            Id::WithFilename => self.names = Some(true),
            Id::Null => self.null = true,
            Id::LineBuffered => self.line_buffered = true,
            Id::Json => self.json = true,
            Id::Stats => self.stats = true,
            _ => return false,
        }
        true
    }

    /// Sets an option about files that takes no value. Returns whether it is one.
    fn set_file_option(&mut self, id: Id) -> bool {
        match id {
            Id::Recursive => self.recursive = true,
            Id::DereferenceRecursive => {
                self.recursive = true;
                self.follows_links = true;
            }
            Id::Hidden => self.hidden = true,
            Id::NullData => self.null_data = true,
            Id::Text => self.text = true,
            Id::NoBinary => self.no_binary = true,
            _ => return false,
        }
        true
    }

    /// Sets an option that takes a number.
    fn set_number(&mut self, id: Id, number: u64) {
        match id {
            Id::AfterContext => self.after = Some(number),
            Id::BeforeContext => self.before = Some(number),
            Id::Context => self.around = Some(number),
            _ => self.most = number,
        }
    }

    /// Sets an option that takes a value.
    fn set_value(&mut self, id: Id, value: &'w str) -> Result<(), Refusal<'w>> {
        match id {
            Id::Regexp => self.patterns.push(value)?,
            Id::File => self.pattern_files.push(value)?,
            Id::Include => self.include.push(value)?,
            Id::Exclude => self.exclude.push(value)?,
            Id::ExcludeDir => self
                .exclude_dir
                .push(value.strip_suffix('/').unwrap_or(value))?,
            Id::Replace => self.template = Some(value),
            Id::Label => self.label = Some(value),
            Id::Generate => return Err(Refusal::Generate(value)),
            _ => self.set_number(id, number(value)?),
        }
        Ok(())
    }

    /// Sets an option.
    fn set(&mut self, id: Id, value: Option<&'w str>) -> Result<(), Refusal<'w>> {
        match id {
            Id::Help => return Err(Refusal::Help),
            Id::Version => return Err(Refusal::Version),
            Id::Color => {
                self.color = marking_of(value)?;
                return Ok(());
            }
            _ => {}
        }
        if self.set_pattern_option(id) || self.set_output_option(id) || self.set_file_option(id) {
            return Ok(());
        }
        match value {
            Some(value) => self.set_value(id, value),
            None => Ok(()),
        }
    }

    /// Takes the words that are no options: the first is the pattern, unless an option gives one; the
    /// others are files.
    fn take_operands(&mut self, operands: &[&'w str]) -> Result<(), Refusal<'w>> {
        let has_pattern = !self.patterns.is_empty() || !self.pattern_files.is_empty();
        let mut is_pattern_next = !has_pattern;
        for word in operands {
            let word: &'w str = *word;
            if is_pattern_next {
                self.patterns.push(word)?;
                is_pattern_next = false;
            } else {
                self.files.push(word)?;
            }
        }
        if is_pattern_next {
            return Err(Refusal::NoPattern);
        }
        if self.files.is_empty() {
            self.files.push(if self.recursive { "." } else { "-" })?;
        }
        Ok(())
    }

    /// The options that a command line gives. Of options that exclude one another the last counts.
    pub fn of(alloc: Global, given: &Given<'w>) -> Result<Options<'w>, Refusal<'w>> {
        let mut options = Options::new(alloc);
        for option in &given.options {
            let (id, value): (Id, Option<&'w str>) = *option;
            options.set(id, value)?;
        }
        options.take_operands(&given.operands)?;
        if options.json && options.report() != Report::Lines {
            return Err(Refusal::Clash);
        }
        if options.multiline && options.needs_lines() {
            return Err(Refusal::LineClash);
        }
        Ok(options)
    }

    /// Whether something is asked for that is known of matches in one line alone.
    fn needs_lines(&self) -> bool {
        self.null_data || self.json || self.stats || self.template.is_some()
    }

    /// What is printed of a file.
    pub fn report(&self) -> Report {
        if self.quiet {
            return Report::Nothing;
        }
        if let Some(list) = self.lists {
            return list;
        }
        if self.counts {
            Report::Count
        } else {
            Report::Lines
        }
    }

    /// The byte in which lines end.
    pub fn terminator(&self) -> u8 {
        if self.null_data { 0 } else { b'\n' }
    }

    /// The part of a line that a match has to be.
    pub fn fit(&self) -> Fit {
        if self.null_data && self.fit == Fit::Line {
            Fit::Text
        } else {
            self.fit
        }
    }

    /// Whether the name of the file stands before what is printed of it.
    pub fn shows_names(&self) -> bool {
        self.names.unwrap_or(self.files.len() > 1 || self.recursive)
    }

    /// How many lines are printed before a selected line, and how many behind it, if that is said.
    pub fn context(&self) -> Option<(u64, u64)> {
        if self.before.is_none() && self.after.is_none() && self.around.is_none() {
            return None;
        }
        let around = self.around.unwrap_or(0);
        Some((self.before.unwrap_or(around), self.after.unwrap_or(around)))
    }
}
