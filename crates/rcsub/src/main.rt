//! Command line `rcsub`: replaces each match of a pattern in files, or in the standard input, by a
//! template.
#![tactic(auto)]

mod diff;
mod faults;
mod files;
mod options;
mod pattern;
mod print;
mod replacer;
mod rewrite;
mod streamed;

use crate::options::{Options, Refusal};
use crate::pattern::{pattern_of, replacer_of};
use crate::print::replace_files;
use grep_options::{
    FAULT, Given, RCSUB, SUB_OPTIONS, lent, put_help, put_words_fault, read_words, words_of,
};
use std::io::Write;
use std::process::ExitCode;

/// Replaces, by these options.
fn run(rt: &HostRuntime, options: &Options<'_>) -> u8 {
    let hir = match pattern_of(rt, options) {
        Ok(hir) => hir,
        Err(status) => return status,
    };
    let status = match replacer_of(rt, &hir, options.template) {
        Ok(replacer) => {
            let status = replace_files(rt, &replacer, options);
            drop(replacer);
            status
        }
        Err(status) => status,
    };
    drop(hir);
    status
}

/// Writes what is asked for in place of replaced text, or reports what is wrong.
fn refuse(rt: &HostRuntime, refusal: Refusal<'_>) -> u8 {
    match refusal {
        Refusal::Help => RCSUB.status_of(rt, put_help(&mut rt.stdout(), &RCSUB, &SUB_OPTIONS)),
        Refusal::Version => {
            let version = RCSUB.version;
            RCSUB.status_of(rt, writeln!(rt.stdout(), "rcsub {version}"))
        }
        Refusal::Generate(kind) => RCSUB.generate(rt, &SUB_OPTIONS, kind),
        Refusal::NoPattern => RCSUB.report_usage(rt, "no pattern", ""),
        Refusal::NoTemplate => RCSUB.report_usage(rt, "no template", ""),
        Refusal::NoFile => RCSUB.report_usage(rt, "no file to change in place", ""),
        Refusal::BadSuffix(suffix) => RCSUB.report_usage(rt, "no suffix:", suffix),
        Refusal::Memory => RCSUB.report(rt, "out of memory"),
    }
}

/// Runs the program with these options, or writes what is asked for in its place.
fn run_given(rt: &HostRuntime, given: &Given<'_>) -> u8 {
    match Options::of(rt.alloc(), given) {
        Ok(options) => run(rt, &options),
        Err(refusal) => refuse(rt, refusal),
    }
}

/// Runs the program with these arguments.
fn run_with(rt: &HostRuntime, words: &[&str]) -> u8 {
    match read_words(rt.alloc(), &SUB_OPTIONS, words) {
        Ok(given) => run_given(rt, &given),
        Err(fault) => {
            let _ = put_words_fault(rt.alloc(), &mut rt.stderr(), &RCSUB, &SUB_OPTIONS, fault);
            FAULT
        }
    }
}

fn main(rt: HostRuntime) -> ExitCode {
    let status = match words_of(&rt) {
        Ok(words) => match lent(rt.alloc(), &words) {
            Ok(words) => run_with(&rt, &words),
            Err(_) => RCSUB.report(&rt, "out of memory"),
        },
        Err(fault) => RCSUB.report_words(&rt, &fault),
    };
    ExitCode::from(status)
}
