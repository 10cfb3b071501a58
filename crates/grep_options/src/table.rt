//! Options: what a table says of each.

/// What an option is about.
#[derive(Clone, Copy, PartialEq, Eq)]
pub enum Section {
    Patterns,
    Output,
    Context,
    Files,
    Other,
}

impl Section {
    /// The heading in a help text.
    pub fn heading(self) -> &'static str {
        match self {
            Section::Patterns => "Patterns",
            Section::Output => "Output",
            Section::Context => "Context",
            Section::Files => "Files",
            Section::Other => "Other",
        }
    }
}

/// An option.
#[derive(Clone, Copy, PartialEq, Eq)]
pub enum Id {
    Regexp,
    File,
    ExtendedRegexp,
    FixedStrings,
    Stated,
    IgnoreCase,
    SmartCase,
    WordRegexp,
    LineRegexp,
    InvertMatch,
    Multiline,
    Count,
    FilesWithMatches,
    FilesWithoutMatch,
    Quiet,
    NoMessages,
    OnlyMatching,
    Replace,
    LineNumber,
    ByteOffset,
    Column,
    NoFilename,
    WithFilename,
    Null,
    Label,
    MaxCount,
    Color,
    LineBuffered,
    Json,
    Stats,
    AfterContext,
    BeforeContext,
    Context,
    Recursive,
    DereferenceRecursive,
    Include,
    Exclude,
    ExcludeDir,
    Hidden,
    NullData,
    Text,
    NoBinary,
    InPlace,
    DryRun,
    LineByLine,
    Help,
    Version,
    Generate,
}

/// Whether an option takes a value.
#[derive(Clone, Copy)]
pub enum Takes {
    /// It takes none.
    Nothing,
    /// It takes one, with this name in help texts.
    Value(&'static str),
    /// It takes one behind `=` or right behind the letter, or none.
    Choice(&'static str),
}

/// What the table says of an option.
#[derive(Clone, Copy)]
pub struct Entry {
    pub id: Id,
    pub section: Section,
    pub letter: Option<char>,
    /// The long name, without `--`.
    pub name: &'static str,
    pub takes: Takes,
    /// What the option does, in one sentence.
    pub help: &'static str,
}

/// What the texts about a program say of it.
#[derive(Clone, Copy)]
pub struct Program {
    pub name: &'static str,
    pub version: &'static str,
    pub usage: &'static str,
    /// What the program does, in one sentence.
    pub about: &'static str,
    /// What stands behind the options in the help text.
    pub notes: &'static str,
    /// What zsh completes for the words that are no options, as arguments of `_arguments`.
    pub operands: &'static str,
}
