//! Error messages.

use crate::rewrite::Fault;
use grep_options::{FAULT, RCSUB};
use regex_cursor::engines::meta::BuildError;
use regex_cursor::hir::Hir;
use regex_cursor::syntax::{Config, Explained, Grammar, Oversize, explain, explain_size};
use std::alloc::Global;
use std::io::Write;

/// The name of the standard input, in what is printed.
const STDIN: &str = "(standard input)";

/// Reports why a file wasn't replaced to its end.
pub fn report_file(rt: &HostRuntime, path: &str, fault: &Fault) -> u8 {
    let name = if path == "-" { STDIN } else { path };
    let _ = match fault {
        Fault::Read(fault) => writeln!(rt.stderr(), "rcsub: {name}: {fault}"),
        Fault::TooLong => writeln!(rt.stderr(), "rcsub: {name}: input too long"),
        Fault::Memory => writeln!(rt.stderr(), "rcsub: {name}: out of memory"),
        Fault::Write(fault) => writeln!(rt.stderr(), "rcsub: {name}: write error: {fault}"),
    };
    FAULT
}

/// What is wrong with a pattern. It is `None` if there is no memory.
fn explained<'p>(alloc: Global, text: &'p str, config: &Config) -> Option<Explained<'p>> {
    let fault = explain(alloc, text, config).ok()??;
    Some(Explained { text, fault })
}

/// Reports what is wrong with the pattern, and where.
pub fn report_unread(rt: &HostRuntime, text: &str, config: &Config) -> u8 {
    let Some(shown) = explained(rt.alloc(), text, config) else {
        return RCSUB.report(rt, "out of memory");
    };
    let _ = writeln!(rt.stderr(), "rcsub: {shown}");
    FAULT
}

/// The weight of the pattern, if its build failed for that.
fn oversize_of(alloc: Global, hir: &Hir, refusal: &BuildError) -> Option<Oversize> {
    let BuildError::SizeLimit { limit } = refusal else {
        return None;
    };
    explain_size(
        alloc,
        std::slice::from_ref(hir),
        Some(*limit),
        Grammar::Stated,
    )
    .ok()?
}

/// Reports why the pattern wasn't built, and its size if that is why.
pub fn report_refusal(rt: &HostRuntime, hir: &Hir, refusal: &BuildError) -> u8 {
    if let Some(oversize) = oversize_of(rt.alloc(), hir, refusal) {
        let _ = writeln!(rt.stderr(), "rcsub: {oversize}");
        return FAULT;
    }
    let _ = writeln!(rt.stderr(), "rcsub: {refusal}");
    FAULT
}
