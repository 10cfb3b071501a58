//! The table of options of `rcsub`.

use crate::table::{Entry, Id, Program, Section, Takes};

/// The options of `rcsub`.
pub static SUB_OPTIONS: [Entry; 8] = [
    Entry {
        id: Id::IgnoreCase,
        section: Section::Patterns,
        letter: None,
        name: "ignore-case",
        takes: Takes::Nothing,
        help: "ASCII letters match in either case.",
    },
    Entry {
        id: Id::FixedStrings,
        section: Section::Patterns,
        letter: Some('F'),
        name: "fixed-strings",
        takes: Takes::Nothing,
        help: "The pattern is a text, not an expression.",
    },
    Entry {
        id: Id::LineByLine,
        section: Section::Files,
        letter: Some('l'),
        name: "line-by-line",
        takes: Takes::Nothing,
        help: "Each line is a text of its own. Only one is in memory.",
    },
    Entry {
        id: Id::InPlace,
        section: Section::Files,
        letter: Some('i'),
        name: "in-place",
        takes: Takes::Choice("SUFFIX"),
        help: "Change each file, and keep the old one under its name and SUFFIX if that is given.",
    },
    Entry {
        id: Id::DryRun,
        section: Section::Output,
        letter: Some('n'),
        name: "dry-run",
        takes: Takes::Nothing,
        help: "Change no file, and print a diff of the lines that would change.",
    },
    Entry {
        id: Id::Help,
        section: Section::Other,
        letter: None,
        name: "help",
        takes: Takes::Nothing,
        help: "Print this text.",
    },
    Entry {
        id: Id::Version,
        section: Section::Other,
        letter: Some('V'),
        name: "version",
        takes: Takes::Nothing,
        help: "Print the version.",
    },
    Entry {
        id: Id::Generate,
        section: Section::Other,
        letter: None,
        name: "generate",
        takes: Takes::Value("KIND"),
        help: "Print completions for a shell, or the options as items of a man page: bash, zsh, fish, man.",
    },
];

/// The program `rcsub`.
pub static RCSUB: Program = Program {
    name: "rcsub",
    version: "0.1.0",
    usage: "rcsub [OPTION].. PATTERN TEMPLATE [FILE]..",
    about: "Replace each match of a pattern by a template.",
    notes: "In TEMPLATE, ${1} is the first group of the match, ${name} the group of that name,\n\
${0} the whole match, and $$ a dollar sign.\n\
If no file is named, or its name is -, the standard input is read.\n\
A file is written as it is read. Without -l it is in memory as a whole if PATTERN may\n\
match nothing.\n\
The status is 0 if something was replaced, 1 if nothing was, and 2 at a fault.",
    operands: "'1:pattern:' '2:template:' '*:file:_files'",
};
