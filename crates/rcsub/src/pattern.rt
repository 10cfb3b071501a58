//! Pattern setup: the pattern and the template of the command line.

use crate::faults::{report_refusal, report_unread};
use crate::options::Options;
use crate::replacer::Replacer;
use chunk_replace::{Template, TemplateError};
use grep_options::{FAULT, RCSUB, escaped};
use regex_cursor::hir::Hir;
use regex_cursor::syntax::{Config, Error, parse};
use std::io::Write;

/// Parses the pattern, or reports what is wrong with it.
fn read_pattern(rt: &HostRuntime, text: &str, config: &Config) -> Result<Hir, u8> {
    match parse(rt.alloc(), text, config) {
        Ok(hir) => Ok(hir),
        Err(Error::Syntax { .. }) => Err(report_unread(rt, text, config)),
        Err(Error::Memory) => Err(RCSUB.report(rt, "out of memory")),
    }
}

/// The pattern, by the options, or what is wrong with it was reported.
pub fn pattern_of(rt: &HostRuntime, options: &Options<'_>) -> Result<Hir, u8> {
    let config = Config::new().case_insensitive(options.ignore_case);
    if !options.is_fixed {
        return read_pattern(rt, options.pattern, &config);
    }
    match escaped(rt.alloc(), options.pattern) {
        Ok(text) => read_pattern(rt, text.as_str(), &config),
        Err(_) => Err(RCSUB.report(rt, "out of memory")),
    }
}

/// Reports what is wrong with a template, and where.
fn report_template(rt: &HostRuntime, text: &str, fault: TemplateError) -> u8 {
    let mut err = rt.stderr();
    let _ = writeln!(err, "rcsub: {fault}");
    if let TemplateError::Syntax { at } = fault {
        let _ = writeln!(err, "{text}");
        for (place, _) in text.char_indices() {
            if place < at {
                let _ = err.write_all(b" ");
            }
        }
        let _ = err.write_all(b"^\n");
    }
    FAULT
}

/// Parses the template and builds the pattern, or reports why they can't be built.
pub fn replacer_of<'w>(
    rt: &HostRuntime,
    hir: &'w Hir,
    template: &'w str,
) -> Result<Replacer<'w>, u8> {
    let template = match Template::parse(rt.alloc(), template) {
        Ok(parsed) => parsed,
        Err(fault) => return Err(report_template(rt, template, fault)),
    };
    match Replacer::new(rt.alloc(), hir, template) {
        Ok(replacer) => Ok(replacer),
        Err(refusal) => Err(report_refusal(rt, hir, &refusal)),
    }
}
