//! Texts that are made of a table: the help, the man page, and completions.

use crate::table::{Entry, Program, Section, Takes};
use std::io;
use std::io::Write;

/// The column at which the sentences of the help begin.
const COLUMN: usize = 32;

/// The sections, in their order.
const SECTIONS: [Section; 5] = [
    Section::Patterns,
    Section::Output,
    Section::Context,
    Section::Files,
    Section::Other,
];

/// Writes spaces.
fn put_spaces<W: Write>(out: &mut W, count: usize) -> io::Result<()> {
    for _ in 0..count {
        out.write_all(b" ")?;
    }
    Ok(())
}

/// The number of bytes that the names of an option take in the help.
fn width(entry: &Entry) -> usize {
    let value = match entry.takes {
        Takes::Nothing => 0,
        Takes::Value(value) => value.len().saturating_add(1),
        Takes::Choice(value) if entry.letter.is_some() => {
            value.len().saturating_mul(2).saturating_add(5)
        }
        Takes::Choice(value) => value.len().saturating_add(3),
    };
    entry.name.len().saturating_add(value).saturating_add(8)
}

/// Writes texts, one behind another.
pub fn put_all<W: Write>(out: &mut W, texts: &[&str]) -> io::Result<()> {
    for text in texts {
        out.write_all(text.as_bytes())?;
    }
    Ok(())
}

/// Writes an option's letter between two texts, or nothing if it has none.
fn put_letter<W: Write>(out: &mut W, entry: &Entry, before: &str, behind: &str) -> io::Result<()> {
    match entry.letter {
        Some(letter) => write!(out, "{before}{letter}{behind}"),
        None => Ok(()),
    }
}

/// Writes an option's names and value.
fn put_names<W: Write>(out: &mut W, entry: &Entry) -> io::Result<()> {
    put_letter(out, entry, "  -", "")?;
    match (entry.letter, entry.takes) {
        (None, _) => put_all(out, &["      "])?,
        (_, Takes::Choice(value)) => put_all(out, &["[", value, "], "])?,
        _ => put_all(out, &[", "])?,
    }
    match entry.takes {
        Takes::Nothing => put_all(out, &["--", entry.name]),
        Takes::Value(value) => put_all(out, &["--", entry.name, " ", value]),
        Takes::Choice(value) => put_all(out, &["--", entry.name, "[=", value, "]"]),
    }
}

/// Writes the line of an option.
fn put_option<W: Write>(out: &mut W, entry: &Entry) -> io::Result<()> {
    put_names(out, entry)?;
    put_spaces(out, COLUMN.saturating_sub(width(entry)).max(1))?;
    put_all(out, &[entry.help, "\n"])
}

/// Writes the options of a section.
fn put_section<W: Write>(out: &mut W, options: &[Entry], section: Section) -> io::Result<()> {
    put_all(out, &["\n", section.heading(), ":\n"])?;
    for entry in options {
        if entry.section == section {
            put_option(out, entry)?;
        }
    }
    Ok(())
}

/// Writes the help.
pub fn put_help<W: Write>(out: &mut W, program: &Program, options: &[Entry]) -> io::Result<()> {
    put_all(out, &[program.about, "\n\nUsage: ", program.usage, "\n"])?;
    for section in SECTIONS.iter() {
        if options.iter().any(|entry| entry.section == *section) {
            put_section(out, options, *section)?;
        }
    }
    put_all(out, &["\n", program.notes, "\n"])
}

/// Writes an option as an item of a man page.
fn put_item<W: Write>(out: &mut W, entry: &Entry) -> io::Result<()> {
    put_letter(out, entry, ".It Fl ", " ")?;
    match (entry.letter, entry.takes) {
        (None, _) => put_all(out, &[".It "])?,
        (_, Takes::Choice(value)) => put_all(out, &["Ns Op Ar ", value, " , "])?,
        _ => put_all(out, &[", "])?,
    }
    let (mark, value) = match entry.takes {
        Takes::Nothing => ("", ""),
        Takes::Value(value) => (" Ar ", value),
        Takes::Choice(value) => (" Ns Op = Ns Ar ", value),
    };
    put_all(
        out,
        &["Fl -", entry.name, mark, value, "\n", entry.help, "\n"],
    )
}

/// Writes the options as items of a man page.
fn put_manual<W: Write>(out: &mut W, options: &[Entry]) -> io::Result<()> {
    for entry in options {
        put_item(out, entry)?;
    }
    Ok(())
}

/// The lines of a completion for bash between its name and the words.
const BASH_BEGIN: &str = "() {
  local word=${COMP_WORDS[COMP_CWORD]}
  COMPREPLY=()
  if [[ $word == -* ]]; then
    mapfile -t COMPREPLY < <(compgen -W '";

/// The lines of a completion for bash behind the words.
const BASH_END: &str = "' -- \"$word\")
    return
  fi
  mapfile -t COMPREPLY < <(compgen -f -- \"$word\")
}
";

/// Writes the completions for bash.
fn put_bash<W: Write>(out: &mut W, program: &Program, options: &[Entry]) -> io::Result<()> {
    let command = program.name;
    put_all(
        out,
        &[
            "# Completions of ",
            command,
            " for bash.\n_",
            command,
            BASH_BEGIN,
        ],
    )?;
    for entry in options {
        put_letter(out, entry, "-", " ")?;
        put_all(out, &["--", entry.name, " "])?;
    }
    put_all(out, &["--", BASH_END])?;
    put_all(
        out,
        &["complete -o filenames -F _", command, " ", command, "\n"],
    )
}

/// Writes an option as arguments of `_arguments`, for zsh.
fn put_zsh_option<W: Write>(out: &mut W, entry: &Entry) -> io::Result<()> {
    let (star, short, long) = match entry.takes {
        Takes::Nothing => ("", "", ""),
        Takes::Value(_) => ("*", "+", "="),
        Takes::Choice(_) => ("", "-", "=-"),
    };
    let (before, value, behind) = match entry.takes {
        Takes::Nothing => ("", "", ""),
        Takes::Value(value) => (":", value, ":"),
        Takes::Choice(value) => ("::", value, ":"),
    };
    let help = [short, "[", entry.help, "]", before, value, behind, "' \\\n"];
    if entry.letter.is_some() {
        put_all(out, &["  '", star])?;
        put_letter(out, entry, "-", "")?;
        put_all(out, &help)?;
    }
    put_all(out, &["  '", star, "--", entry.name, long])?;
    put_all(out, &help[1..])
}

/// Writes the completions for zsh.
fn put_zsh<W: Write>(out: &mut W, program: &Program, options: &[Entry]) -> io::Result<()> {
    let command = program.name;
    put_all(
        out,
        &[
            "#compdef ",
            command,
            "\n# Completions of ",
            command,
            " for zsh.\n\n",
        ],
    )?;
    put_all(out, &["_arguments -s -S \\\n"])?;
    for entry in options {
        put_zsh_option(out, entry)?;
    }
    put_all(out, &["  ", program.operands, "\n"])
}

/// Writes the completions for fish.
fn put_fish<W: Write>(out: &mut W, program: &Program, options: &[Entry]) -> io::Result<()> {
    put_all(out, &["# Completions of ", program.name, " for fish.\n"])?;
    for entry in options {
        put_all(out, &["complete -c ", program.name, " -l ", entry.name])?;
        put_letter(out, entry, " -s ", "")?;
        let file = match entry.takes {
            Takes::Value(_) => " -x",
            _ => "",
        };
        put_all(out, &[file, " -d '", entry.help, "'\n"])?;
    }
    Ok(())
}

/// Writes a text that is made of the options: completions for a shell, `bash`, `zsh` or `fish`, or
/// `man`, the options as items of a man page. Returns whether there is one of this kind.
pub fn put_text<W: Write>(
    out: &mut W,
    program: &Program,
    options: &[Entry],
    kind: &str,
) -> io::Result<bool> {
    match kind {
        "man" => put_manual(out, options)?,
        "bash" => put_bash(out, program, options)?,
        "zsh" => put_zsh(out, program, options)?,
        "fish" => put_fish(out, program, options)?,
        _ => return Ok(false),
    }
    Ok(true)
}
