//! Replacement: the matches of a text, or one of them, replaced by a template, written to a buffer
//! that C lends.
ghost use Rattle.std.specs.Prelude.{◌≡◌, ◌≢◌, MatchOption, MatchResult, None, length};
ghost use Rattle.rc_text.specs.declared.types.MatchKind.TheVariants.{All as greatest_matches};
ghost use Rattle.api_meta.specs.Views.{regex_kind};
ghost use Rattle.chunk_replace.specs.Template.{IsReadAs, template_items};
ghost use Rattle.searcher.specs.Answers.{IsSame};
ghost use Rattle.zorfelith_c.specs.Replacing.{IsTextPut, IsUnparsed, TellsOne, TellsReplaced};
ghost use Rattle.zorfelith_c.specs.Statuses.{done, empty, no_kind, short, syntax};

use crate::handle::Handle;
use crate::status::{
    DONE, EMPTY, FOUND, MEMORY, NO_KIND, NOT_UTF8, OUTSIDE, SHORT, SYNTAX, TOO_LONG,
};
use api_meta::regex::Regex;
use chunk_replace::{ReplaceError, Template, TemplateError, replace_all, replace_match};
use rc_text::types::MatchKind;
use regex_cursor::run::Sink;
use searcher::{Fault, MatchAt, Searcher};
use std::alloc::Global;
use std::io;

/// What a replacement wrote, or where it failed.
#[repr(C)]
#[derive(Clone, Copy)]
pub struct Replaced {
    /// The number of matches that were replaced.
    pub count: usize,
    /// The number of bytes of the replaced text.
    pub len: usize,
    /// The byte of the template at which the fault is, if the status is `SYNTAX`.
    pub at: usize,
}

/// What replaces one match, or where that failed.
#[repr(C)]
#[derive(Clone, Copy)]
pub struct Replacement {
    /// The match.
    pub found: MatchAt,
    /// The number of bytes that replace it.
    pub len: usize,
    /// The byte of the template at which the fault is, if the status is `SYNTAX`.
    pub at: usize,
}

/// Why a template can't be used.
#[derive(Clone, Copy)]
enum Unparsed {
    /// It isn't UTF-8.
    NotUtf8,
    /// It has a fault at this byte.
    Syntax(usize),
    /// Out of memory.
    Memory,
}

/// A sink that keeps all bytes.
#[derive(Drop)]
struct Kept {
    bytes: Vec<u8>,
    has_failed: bool,
}

impl Sink for Kept {
    ghost use Rattle.std.specs.Prelude.{Some};

    ghost taken = { λ s. Some s.bytes.items };

    ghost has_failed = { λ s. s.has_failed };

    fn put(&mut self, bytes: &[u8]) -> io::Result<usize> {
        match self.bytes.extend_from_slice(bytes) {
            Ok(()) => Ok(bytes.len()),
            Err(_) => {
                self.has_failed = true;
                Err(io::Error::from(io::ErrorKind::OutOfMemory))
            }
        }
    }

    fn failed(&self) -> bool {
        self.has_failed
    }
}

/// Writes the text of the chunks to `place`, with each match replaced by the template. The matches
/// are those of an iteration over the whole text.
///
/// The status is `DONE`; or `SHORT`, if `place` has fewer bytes than the replaced text. Both write
/// `replaced`. If it is `SYNTAX`, the template has a fault, and `replaced` says where. If it is
/// `NO_KIND`, the kind of match is the one with the greatest end, whose groups aren't known. It is
/// `NOT_UTF8` if the template isn't UTF-8, and may also be `TOO_LONG` or `MEMORY`. The state of the
/// iteration stays.
#[unsafe(no_mangle)]
pub extern "C" fn zf_replace(
    alloc: Global,
    handle: &mut Handle,
    chunks: &[&[u8]],
    template: &[u8],
    place: &mut [u8],
    replaced: &mut Replaced,
) -> u32
    ensures answered { MatchOption handle.old.held.value (result ≡ empty)
        (λ s. TellsReplaced s.regex chunks.now template.now result place.new replaced.new) }
    ensures unwritten { result ≢ done → place.new ≡ place.old }
    ensures untold { result ≢ done → result ≢ short → result ≢ syntax
        → replaced.new ≡ replaced.old }
    ensures kind { MatchOption handle.old.held.value (Unit {0})
        (λ s. regex_kind s.regex ≡ greatest_matches → result ≡ no_kind) }
    ensures kept { handle.new.held.value ≡ handle.old.held.value }
{
    if !handle.is_full() {
        return EMPTY;
    }
    let held = handle.take(alloc);
    let status = put_replaced(alloc, held.regex(), chunks, template, place, replaced);
    *handle = Handle::of(held);
    status
}

/// Writes the replaced text of the chunks, and returns the status.
fn put_replaced(
    alloc: Global,
    regex: &Regex,
    chunks: &[&[u8]],
    template: &[u8],
    place: &mut [u8],
    replaced: &mut Replaced,
) -> u32
    ensures answered { TellsReplaced regex.now chunks.now template.now result
        place.new replaced.new }
    ensures unwritten { result ≢ done → place.new ≡ place.old }
    ensures untold { result ≢ done → result ≢ short → result ≢ syntax
        → replaced.new ≡ replaced.old }
    ensures kind { regex_kind regex.now ≡ greatest_matches → result ≡ no_kind }
{
    if let MatchKind::All = regex.get_config().get_match_kind() {
        return NO_KIND;
    }
    let template = match parse(alloc, template) {
        Ok(template) => template,
        Err(Unparsed::NotUtf8) => return NOT_UTF8,
        Err(Unparsed::Memory) => return MEMORY,
        Err(Unparsed::Syntax(at)) => {
            *replaced = Replaced {
                count: 0,
                len: 0,
                at,
            };
            return SYNTAX;
        }
    };
    let mut kept = Kept {
        bytes: Vec::new(alloc),
        has_failed: false,
    };
    match replace_all(alloc, regex, chunks, &template, &mut kept) {
        Ok(count) => put_text(&kept.bytes, count, place, replaced),
        Err(ReplaceError::TooLong) => TOO_LONG,
        Err(ReplaceError::Memory) => MEMORY,
        Err(ReplaceError::Write) => MEMORY,
    }
}

/// Writes the bytes, and how many they are, and returns the status.
fn put_text(bytes: &[u8], count: usize, place: &mut [u8], replaced: &mut Replaced) -> u32
    ensures told { replaced.new ≡ record { count = count; len = length bytes.now; at = 0 } }
    ensures answered { IsTextPut bytes.now result place.new }
    ensures unwritten { result ≢ done → place.new ≡ place.old }
{
    *replaced = Replaced {
        count,
        len: bytes.len(),
        at: 0,
    };
    put_bytes(bytes, place)
}

/// Writes the bytes, and returns the status: `DONE` or `SHORT`.
pub(crate) fn put_bytes(bytes: &[u8], place: &mut [u8]) -> u32
    ensures answered { IsTextPut bytes.now result place.new }
    ensures unwritten { result ≢ done → place.new ≡ place.old }
{
    if bytes.len() > place.len() {
        return SHORT;
    }
    place[..bytes.len()].copy_from_slice(bytes);
    DONE
}

/// Parses the bytes of a template.
fn parse<'t>(alloc: Global, template: &'t [u8]) -> Result<Template<'t>, Unparsed>
    ensures { MatchResult result (λ t. IsReadAs (template_items t) template.now)
        (IsUnparsed template.now) }
{
    let Ok(text) = str::from_utf8(template) else {
        return Err(Unparsed::NotUtf8);
    };
    match Template::parse(alloc, text) {
        Ok(template) => Ok(template),
        Err(TemplateError::Memory) => Err(Unparsed::Memory),
        Err(TemplateError::Syntax { at }) => Err(Unparsed::Syntax(at)),
    }
}

/// Finds the match of the text from `start` on, and writes to `place` what the template puts in its
/// place.
///
/// The status is `FOUND`; `DONE`, if there is no match; or `SHORT`, if `place` has fewer bytes than
/// what replaces the match. `FOUND` and `SHORT` write the match and that length. If it is `SYNTAX`, the
/// template has a fault, and `replacement` says where. It is `NO_KIND`, `NOT_UTF8` and `MEMORY` as of
/// `zf_replace`, and may also be `OUTSIDE` or `TOO_LONG`. The state of the iteration stays.
#[unsafe(no_mangle)]
pub extern "C" fn zf_replace_one(
    alloc: Global,
    handle: &mut Handle,
    chunks: &[&[u8]],
    start: usize,
    template: &[u8],
    place: &mut [u8],
    replacement: &mut Replacement,
) -> u32
    ensures answered { MatchOption handle.old.held.value (result ≡ empty)
        (λ s. TellsOne s.regex chunks.now start template.now result place.new replacement.new) }
    ensures unwritten { result ≢ 1 → place.new ≡ place.old }
    ensures untold { result ≢ 1 → result ≢ short → result ≢ syntax
        → replacement.new ≡ replacement.old }
    ensures alone { result ≡ syntax
        → replacement.new ≡ record replacement.old { at = replacement.new.at } }
    ensures kind { MatchOption handle.old.held.value (Unit {0})
        (λ s. regex_kind s.regex ≡ greatest_matches → result ≡ no_kind) }
    ensures kept { MatchOption handle.old.held.value (handle.new.held.value ≡ None)
        (λ s. MatchOption handle.new.held.value ⊥ (IsSame s)) }
{
    if !handle.is_full() {
        return EMPTY;
    }
    let mut held = handle.take(alloc);
    let status = put_one(
        alloc,
        &mut held,
        chunks,
        start,
        template,
        place,
        replacement,
    );
    *handle = Handle::of(held);
    status
}

/// Writes what replaces the match of the text from `start` on, and returns the status.
fn put_one(
    alloc: Global,
    held: &mut Searcher,
    chunks: &[&[u8]],
    start: usize,
    template: &[u8],
    place: &mut [u8],
    replacement: &mut Replacement,
) -> u32
    ensures answered { TellsOne held.old.regex chunks.now start template.now result
        place.new replacement.new }
    ensures unwritten { result ≢ 1 → place.new ≡ place.old }
    ensures untold { result ≢ 1 → result ≢ short → result ≢ syntax
        → replacement.new ≡ replacement.old }
    ensures alone { result ≡ syntax
        → replacement.new ≡ record replacement.old { at = replacement.new.at } }
    ensures kind { regex_kind held.old.regex ≡ greatest_matches → result ≡ no_kind }
    ensures kept { IsSame held.old held.new }
{
    if let MatchKind::All = held.regex().get_config().get_match_kind() {
        return NO_KIND;
    }
    let template = match parse(alloc, template) {
        Ok(template) => template,
        Err(Unparsed::NotUtf8) => return NOT_UTF8,
        Err(Unparsed::Memory) => return MEMORY,
        Err(Unparsed::Syntax(at)) => {
            replacement.at = at;
            return SYNTAX;
        }
    };
    let found = match held.find_groups(chunks, start, usize::MAX) {
        Ok(Some(found)) => found,
        Ok(None) => return DONE,
        Err(Fault::TooLong) => return TOO_LONG,
        Err(Fault::Outside) => return OUTSIDE,
    };
    let mut kept = Kept {
        bytes: Vec::new(alloc),
        has_failed: false,
    };
    let Ok(()) = replace_match(chunks, held.captures(), &template, &mut kept) else {
        return MEMORY;
    };
    *replacement = Replacement {
        found: MatchAt::of(found),
        len: kept.bytes.len(),
        at: 0,
    };
    if put_bytes(&kept.bytes, place) == DONE {
        return FOUND;
    }
    SHORT
}
