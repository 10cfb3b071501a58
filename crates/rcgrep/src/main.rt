//! Command line `rcgrep`: prints the lines of files, or of the standard input, that match a
//! pattern.
#![tactic(auto)]

mod faults;
mod line_regex;
mod long_line;
mod patterns;
mod texts;

use crate::faults::{report_refusal, report_unread};
use crate::line_regex::LineRegex;
use crate::patterns::{
    MAX_PATTERNS, Patterns, Unread, all_fitted, build, read_patterns, syntax_of,
};
use crate::texts::{all_escaped, all_texts, has_newline, have_capital, read_files};
use grep_options::filter::{Fit, Options, Refusal, When};
use grep_options::{
    FAULT, Given, OPTIONS, RCGREP, lent, put_help, put_words_fault, read_words, words_of,
};
use grep_search::search_all;
use regex_cursor::hir::Hir;
use regex_cursor::syntax::Config;
use std::io::{IsTerminal, Write};
use std::process::ExitCode;
use std::{io, mem};

/// Builds the patterns, or reports why they can't be built.
fn build_or_report(rt: &HostRuntime, hirs: &[Hir], config: &Config) -> Result<Patterns, u8> {
    if hirs.len() > MAX_PATTERNS {
        return Err(RCGREP.report(rt, "too many patterns"));
    }
    match build(rt.alloc(), hirs, config) {
        Ok(patterns) => Ok(patterns),
        Err(refusal) => Err(report_refusal(rt, hirs, &refusal, config.get_grammar())),
    }
}

/// Parses and builds these texts as patterns, or reports why they can't be built.
fn build_texts(
    rt: &HostRuntime,
    texts: &[&str],
    config: &Config,
    fit: Fit,
) -> Result<Patterns, u8> {
    let hirs = match read_patterns(rt.alloc(), texts, config) {
        Ok(hirs) => hirs,
        Err(Unread::Text(number)) => return Err(report_unread(rt, texts, number, config)),
        Err(Unread::Memory) => return Err(RCGREP.report(rt, "out of memory")),
    };
    let Ok(hirs) = all_fitted(rt.alloc(), hirs, fit) else {
        return Err(RCGREP.report(rt, "out of memory"));
    };
    let built = build_or_report(rt, &hirs, config);
    drop(hirs);
    built
}

/// Parses and builds the patterns, or reports why they can't be built.
fn patterns_of(rt: &HostRuntime, options: &Options<'_>, files: &[String]) -> Result<Patterns, u8> {
    let Ok(texts) = all_texts(rt.alloc(), &options.patterns, files) else {
        return Err(RCGREP.report(rt, "out of memory"));
    };
    if !options.null_data && !options.multiline && has_newline(&texts) {
        return Err(RCGREP.report(rt, "a pattern has a newline, and no line has one"));
    }
    let folds_case = options.ignore_case || (options.smart_case && !have_capital(&texts));
    let config = syntax_of(options.is_stated, folds_case, !options.null_data);
    if !options.is_fixed {
        return build_texts(rt, &texts, &config, options.fit());
    }
    let Ok(patterns) = all_escaped(rt.alloc(), &texts) else {
        return Err(RCGREP.report(rt, "out of memory"));
    };
    match lent(rt.alloc(), &patterns) {
        Ok(texts) => build_texts(rt, &texts, &config, options.fit()),
        Err(_) => Err(RCGREP.report(rt, "out of memory")),
    }
}

/// Whether matches are marked.
fn is_colored(rt: &HostRuntime, options: &Options<'_>) -> bool {
    match options.color {
        When::Always => true,
        When::Never => false,
        When::Auto => rt.stdout().is_terminal(),
    }
}

/// Searches by these patterns.
fn search(rt: &HostRuntime, patterns: &Patterns, options: &Options<'_>) -> io::Result<u8> {
    let mut selector = LineRegex::new(rt.alloc(), patterns, options.invert)?;
    let status = search_all(rt, &mut selector, options, is_colored(rt, options));
    drop(selector);
    status
}

/// Builds the patterns, and searches.
fn run(rt: &HostRuntime, options: &Options<'_>) -> u8 {
    let files = match read_files(rt, &options.pattern_files) {
        Ok(files) => files,
        Err(refused) => {
            let name = refused.name;
            let fault = &refused.fault;
            let _ = writeln!(rt.stderr(), "rcgrep: {name}: {fault}");
            return FAULT;
        }
    };
    let patterns = match patterns_of(rt, options, &files) {
        Ok(patterns) => patterns,
        Err(status) => return status,
    };
    let searched = search(rt, &patterns, options);
    drop(patterns);
    match searched {
        Ok(status) => status,
        Err(fault) => RCGREP.report_output(rt, &fault),
    }
}

/// Runs the program with these options, or writes what is asked for in its place.
fn run_given(rt: &HostRuntime, given: &Given<'_>) -> u8 {
    match Options::of(rt.alloc(), given) {
        Ok(options) => run(rt, &options),
        Err(Refusal::Help) => RCGREP.status_of(rt, put_help(&mut rt.stdout(), &RCGREP, &OPTIONS)),
        Err(Refusal::Version) => {
            let version = RCGREP.version;
            RCGREP.status_of(rt, writeln!(rt.stdout(), "rcgrep {version}"))
        }
        Err(Refusal::Generate(kind)) => RCGREP.generate(rt, &OPTIONS, kind),
        Err(Refusal::BadValue(value)) => RCGREP.report_usage(rt, "no option takes", value),
        Err(Refusal::Clash) => RCGREP.report_usage(
            rt,
            "no record is printed with -c, -l, -L or -q",
            "",
        ),
        Err(Refusal::LineClash) => RCGREP.report_usage(
            rt,
            "-U goes with none of -z, --json, --replace and --stats",
            "",
        ),
        Err(Refusal::NoPattern) => RCGREP.report_usage(rt, "no pattern", ""),
        Err(Refusal::Memory) => RCGREP.report(rt, "out of memory"),
    }
}

/// Runs the program with these arguments.
fn run_with(rt: &HostRuntime, words: &[&str]) -> u8 {
    match read_words(rt.alloc(), &OPTIONS, words) {
        Ok(given) => run_given(rt, &given),
        Err(fault) => {
            let _ = put_words_fault(rt.alloc(), &mut rt.stderr(), &RCGREP, &OPTIONS, fault);
            FAULT
        }
    }
}

fn main(rt: HostRuntime) -> ExitCode {
    let status = match words_of(&rt) {
        Ok(words) => match lent(rt.alloc(), &words) {
            Ok(words) => run_with(&rt, &words),
            Err(_) => RCGREP.report(&rt, "out of memory"),
        },
        Err(fault) => RCGREP.report_words(&rt, &fault),
    };
    ExitCode::from(status)
}
