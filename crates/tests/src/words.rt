//! What errors and sets of assertions print.

use chunk_replace::{ReplaceError, TemplateError};
use regex_cursor::cursor::{AtError, TooLong};
use regex_cursor::engines::meta::BuildError;
use regex_cursor::hir::Hir;
use regex_cursor::run::RunError;
use regex_cursor::syntax;
use regex_cursor::types::{MatchError, PatternID};
use std::alloc::{AllocError, Global};

/// The lines of errors that searches and replacements end with.
fn lines_of_searches(alloc: Global) -> Result<String, AllocError> {
    let (byte, offset) = (195, 2);
    let quit = MatchError::Quit { byte, offset };
    let (offset, memory) = (7, true);
    let gave_up = MatchError::GaveUp { offset, memory };
    let (late, past) = (AtError::TooLong, AtError::PastEnd);
    let (run, long) = (RunError::TooLong, ReplaceError::TooLong);
    let (refused, write) = (ReplaceError::Memory, ReplaceError::Write);
    format!(in alloc;
        "{TooLong}\n{late}\n{past}\n{quit}\n{gave_up}\n{run}\n{long}\n{refused}\n{write}"
    )
}

const LINES_OF_SEARCHES: &str = "the content is too long
the content is too long
the place is past the end of the content
the search quit at the byte 195, at offset 2
the search gave up at offset 7 (out of memory: true)
input too long
input too long
out of memory
write failed";

/// The lines of errors of texts: the place of a fault is a byte, behind `é` the third.
fn lines_of_texts(alloc: Global) -> Result<String, AllocError> {
    let Err(error) = syntax::parse(alloc, "é)", &syntax::Config::new()) else {
        return Ok(String::new(alloc));
    };
    let template = TemplateError::Syntax { at: 3 };
    let (memory, refused) = (syntax::Error::Memory, TemplateError::Memory);
    let pattern = PatternID::ZERO;
    let read = BuildError::Syntax { pattern, error };
    format!(in alloc; "{error}\n{template}\n{memory}\n{refused}\n{read}")
}

const LINES_OF_TEXTS: &str = "syntax error at byte 2
error parsing template at byte 3
out of memory
out of memory
error parsing pattern 0";

/// The lines of errors of builds.
fn lines_of_builds(alloc: Global) -> Result<String, AllocError> {
    let pattern = PatternID::ZERO;
    let formed = BuildError::IllFormed { pattern };
    let (size, places) = (BuildError::SizeLimit { limit: 7 }, BuildError::PlaceLimit);
    let tables = BuildError::DfaSizeLimit { limit: 5 };
    let (minimum, given) = (9, 8);
    let cache = BuildError::CacheTooSmall { minimum, given };
    let memory = BuildError::Memory;
    format!(in alloc; "{formed}\n{size}\n{places}\n{tables}\n{cache}\n{memory}")
}

const LINES_OF_BUILDS: &str = "error building NFA
error building NFA
error building NFA
the DFA is larger than its limit of 5 bytes
the cache needs 9 bytes and was given 8
out of memory";

/// The assertions of a pattern, and of the empty one.
fn looks_of(alloc: Global, text: &str) -> Result<String, syntax::Error> {
    let tree = syntax::parse(alloc, text, &syntax::Config::new())?;
    let looks = tree.properties().look_set();
    drop(tree);
    let none = Hir::empty().properties().look_set();
    Ok(format!(in alloc; "{looks:?} {none:?}")?)
}

/// Whether the text was made, and is this one.
pub fn is_text<E: Drop>(made: Result<String, E>, wanted: &str) -> bool {
    match made {
        Ok(text) => text.as_str() == wanted,
        Err(_) => false,
    }
}

#[test]
fn lines(rt: HostRuntime) {
    assert!(rt; is_text(lines_of_searches(rt.alloc()), LINES_OF_SEARCHES));
    assert!(rt; is_text(lines_of_texts(rt.alloc()), LINES_OF_TEXTS));
    assert!(rt; is_text(lines_of_builds(rt.alloc()), LINES_OF_BUILDS));
    let looks = looks_of(rt.alloc(), r"(?m:\b$)^a");
    assert!(rt; is_text(looks, "{Start, EndLF, WordUnicode} {}"));
}
