//! Diagnostics: explains why a text doesn't parse.

ghost use Rattle.std.specs.Prelude.{chars, length, ◌≤◌, IfOk, IfSome, IfNone, MatchOption};
ghost use Rattle.rc_parser.specs.Settings.{settings_of};
ghost use Rattle.rc_explain.specs.Explained.{IsRead, IsUnread, IsWithin};
ghost use Rattle.rc_explain.specs.Shown.{IsShown, Shows};

use crate::faults::Fault;
use crate::full_marks::full_fault_at;
use crate::marks::fault_at;
use crate::places::{Found, byte_after, characters_before};
use rc_parser::{Config, Error, Grammar};
use rc_syntax::parse;
use rc_text::types::Span;
use std::alloc::{AllocError, Global};

/// Returns what is wrong with a text that doesn't parse, and with which part of it.
///
/// It returns `None` if and only if the text parses by the grammar that is set. An `Err` means out of
/// memory.
pub fn explain(alloc: Global, text: &str, config: &Config) -> Result<Option<Fault>, AllocError>
    ensures answer { IfOk result (λ found. MatchOption found
        (IsRead (settings_of config.now) (chars text.now))
        (λ _. IsUnread (settings_of config.now) (chars text.now))) }
    ensures place { IfOk result (λ found. IfSome found (λ fault. IsWithin fault.span text.now)) }
    ensures shown { IfOk result (λ found. IfSome found (λ fault. IsShown
        (settings_of config.now).grammar fault text.now)) }
{
    match parse(alloc, text, config) {
        Ok(hir) => {
            drop(hir);
            Ok(None)
        }
        Err(Error::Memory) => Err(AllocError),
        Err(Error::Syntax { at }) => Ok(Some(fault_met_at(alloc, text, config, at)?)),
    }
}

/// The fault of a text that is refused at this byte.
#[tactic(auto, using(std::proofs::lemmas::Str::chars_from_encodes))]
fn fault_met_at(alloc: Global, text: &str, config: &Config, at: usize) -> Result<Fault, AllocError>
    ensures place { IfOk result (λ fault. IsWithin fault.span text.now) }
    ensures shown { IfOk result (λ fault. IsShown (settings_of config.now).grammar fault text.now) }
{
    let characters: Vec<char> = text.chars().collect(alloc)?;
    let stop = characters_before(&characters, at);
    let found = found_at(alloc, config, &characters, stop)?;
    let start = byte_after(&characters, found.start);
    let end = byte_after(&characters, found.end.max(found.start));
    let kind = found.kind;
    Ok(Fault {
        kind,
        span: Span { start, end },
    })
}

/// The kind of fault of a text that is refused at this character, and the characters at fault.
fn found_at(alloc: Global, config: &Config, text: &[char], stop: usize) -> Result<Found, AllocError>
    requires { length text.now ≤ usize.MAX }
    ensures { IfOk result (λ found. Shows (settings_of config.now).grammar found.kind text.now
        found.start found.end) }
{
    match config.get_grammar() {
        Grammar::Stated => fault_at(alloc, config, text, stop),
        Grammar::Full => full_fault_at(alloc, config, text, stop),
    }
}
