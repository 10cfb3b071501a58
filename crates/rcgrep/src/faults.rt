//! Error messages.

use grep_options::{FAULT, RCGREP};
use regex_cursor::engines::meta::BuildError;
use regex_cursor::hir::Hir;
use regex_cursor::syntax::{Config, Explained, Grammar, Oversize, explain, explain_size};
use std::alloc::Global;
use std::io::Write;

/// What is wrong with the pattern with this number. It is `None` if there is no memory.
fn explained<'p>(
    alloc: Global,
    patterns: &[&'p str],
    number: usize,
    config: &Config,
) -> Option<Explained<'p>> {
    let text: &'p str = *patterns.get(number)?;
    let fault = explain(alloc, text, config).ok()??;
    Some(Explained { text, fault })
}

/// Reports what is wrong with the pattern with this number, and where.
pub fn report_unread(rt: &HostRuntime, patterns: &[&str], number: usize, config: &Config) -> u8 {
    let Some(shown) = explained(rt.alloc(), patterns, number, config) else {
        return RCGREP.report(rt, "out of memory");
    };
    let _ = writeln!(rt.stderr(), "rcgrep: {shown}");
    FAULT
}

/// The weight of the patterns by the grammar, if their build failed for that.
fn oversize_of(
    alloc: Global,
    hirs: &[Hir],
    refusal: &BuildError,
    grammar: Grammar,
) -> Option<Oversize> {
    let BuildError::SizeLimit { limit } = refusal else {
        return None;
    };
    explain_size(alloc, hirs, Some(*limit), grammar).ok()?
}

/// Reports why the patterns weren't built, and their size by the grammar if that is why.
pub fn report_refusal(
    rt: &HostRuntime,
    hirs: &[Hir],
    refusal: &BuildError,
    grammar: Grammar,
) -> u8 {
    if let Some(oversize) = oversize_of(rt.alloc(), hirs, refusal, grammar) {
        let _ = writeln!(rt.stderr(), "rcgrep: {oversize}");
        return FAULT;
    }
    let _ = writeln!(rt.stderr(), "rcgrep: {refusal}");
    FAULT
}
