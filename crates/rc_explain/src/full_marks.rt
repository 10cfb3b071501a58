//! Diagnostics scan of the full grammar: the marks of a text, up to the one that isn't read.

ghost use Rattle.std.specs.Prelude.{◌≡◌, ◌⊎◌, ◌↔◌, ◌<◌, ◌≤◌, Bool, Option, IfOk, IfSome, IsTrue, MatchResult, OnOk, length};
ghost use Rattle.rc_tokens.specs.Said.{Opens, Start};
ghost use Rattle.rc_tokens.specs.Text.{Characters};
ghost use Rattle.rc_tokens.specs.View.{said_of};
ghost use Rattle.rc_parser.specs.declared.config.Grammar.TheVariants.{Full};
ghost use Rattle.rc_full_parser.specs.Marks as spec;
ghost use Rattle.rc_full_parser.specs.View.{mark_of};
ghost use Rattle.rc_explain.specs.Reading.{AreOpen, BeginsMark};
ghost use Rattle.rc_explain.specs.Shown.{HasShape, Shows, Stands};

use crate::escapes::full_escape_fault;
use crate::faults::FaultKind;
use crate::full_lists::list_end;
use crate::marks::{Standing, from};
use crate::openings::{name_of, opening_fault};
use crate::places::Found;
use crate::repetitions::counted_fault;
use rc_full_lists::parts::{Settings, passed};
use rc_full_parser::marks::{Mark, MarkSettings, Piece, first_mark};
use rc_parser::{Config, Grammar};
use rc_tokens::refusal::Refusal;
use rc_tokens::tokens::{Opening, Token};
use std::alloc::{AllocError, Global};

/// The state after the marks so far.
#[derive(Drop)]
struct Scan {
    standing: Standing,
    /// The flag `x`.
    is_verbose: bool,
    /// The flag `x` around each group that is open, the innermost last.
    around: Vec<bool>,
}

/// A token of the stated grammar that changes as much as the mark, but for the flag `x`.
fn token_of(mark: Mark) -> Token
    ensures { (start : Start) → said_of result ≡ Opens start
        → (x : Option Bool) × (mark_of mark ≡ spec.opens start x) }
{
    match mark {
        Mark::Bar => Token::Bar,
        Mark::Closes => Token::Closes,
        Mark::Sets(to) => Token::Setting(to.stated),
        Mark::Opens(opening, _) => Token::Opens(opening),
        Mark::Repeats(bounds) => Token::Repeats(bounds),
        Mark::Brackets | Mark::Stands(_) => Token::Dot,
    }
}

/// Whether the mark is the `[` of a list.
fn is_bracket(mark: &Mark) -> bool
    ensures { IsTrue result ↔ (mark_of mark.now ≡ spec.brackets) }
{
    matches!(mark, Mark::Brackets)
}

impl Scan {
    /// The fault of a text that begins with no mark.
    fn unread_mark(
        &self,
        alloc: Global,
        config: &Config,
        text: &[char],
    ) -> Result<Found, AllocError>
        requires { Stands text.now 0 92 ⊎ (Stands text.now 0 123 ⊎ Stands text.now 0 40) }
        ensures { IfOk result (λ found. HasShape Full found.kind text.now found.start found.end) }
    {
        match text {
            ['\\', ..] => {
                full_escape_fault(alloc, config.get_octal(), self.standing.is_unicode, text)
            }
            ['{', ..] => Ok(counted_fault(Grammar::Full, text)),
            _ => Ok(opening_fault(Grammar::Full, text)),
        }
    }

    /// The mark that begins the text, and its number of characters with those of the list that it
    /// opens; or the fault there.
    fn mark_at(
        &self,
        alloc: Global,
        config: &Config,
        text: &[char],
    ) -> Result<Result<(Mark, usize), Found>, AllocError>
        requires some { 0 < length text.now }
        requires fits { length text.now ≤ usize.MAX }
        ensures { IfOk result (λ told. MatchResult told
            (λ r. (0 < r.1) × (r.1 ≤ length text.now)
            × BeginsMark (mark_of r.0) text.now r.1)
            (λ found. HasShape Full found.kind text.now found.start found.end)) }
    {
        let unicode = self.standing.is_unicode;
        let octal = config.get_octal();
        let settings = MarkSettings {
            unicode,
            octal,
            empty_min: config.get_empty_min(),
        };
        match first_mark(alloc, settings, text) {
            Ok((mark, rest)) => {
                if is_bracket(&mark) {
                    return self.list_at(alloc, octal, text);
                }
                let count = text.len().saturating_sub(rest.len());
                Ok(Ok((mark, count)))
            }
            Err(Refusal::Memory) => Err(AllocError),
            Err(Refusal::Syntax) => Ok(Err(self.unread_mark(alloc, config, text)?)),
        }
    }

    /// The list that begins the text, and its number of characters; or the fault there.
    fn list_at(
        &self,
        alloc: Global,
        octal: bool,
        text: &[char],
    ) -> Result<Result<(Mark, usize), Found>, AllocError>
        requires opens { Stands text.now 0 91 }
        requires fits { length text.now ≤ usize.MAX }
        ensures { IfOk result (λ told. MatchResult told
            (λ r. (0 < r.1) × (r.1 ≤ length text.now)
            × BeginsMark (mark_of r.0) text.now r.1)
            (λ found. HasShape Full found.kind text.now found.start found.end)) }
    {
        let settings = Settings {
            unicode: self.standing.is_unicode,
            verbose: self.is_verbose,
            octal,
        };
        match list_end(alloc, settings, text)? {
            Ok(count) => Ok(Ok((Mark::Brackets, count))),
            Err(fault) => Ok(Err(fault)),
        }
    }

    /// The fault of a mark that isn't allowed here; `None` if it is nested too deeply. The mark is the
    /// first `count` characters.
    fn mark_fault(
        &self,
        alloc: Global,
        config: &Config,
        mark: &Mark,
        text: &[char],
        count: usize,
    ) -> Result<Option<Found>, AllocError>
        requires some { 0 < count }
        requires within { count ≤ length text.now }
        requires begins { BeginsMark (mark_of mark.now) text.now count }
        ensures { IfOk result (λ told. IfSome told (λ found.
            HasShape Full found.kind text.now found.start found.end)) }
    {
        if let Some(found) = self.standing.operator_fault(text, count) {
            return Ok(Some(found));
        }
        match mark {
            Mark::Brackets | Mark::Stands(Piece::Byte(_) | Piece::Set(_) | Piece::Dot) => {
                let config = config.ignore_whitespace(self.is_verbose);
                self.standing.atom_fault(alloc, &config, &text[..count])
            }
            Mark::Opens(Opening::Named(name), _) if self.standing.is_taken(name) => {
                let (start, end) = name_of(text, count);
                Ok(Some(Found {
                    kind: FaultKind::DuplicateName,
                    start,
                    end,
                }))
            }
            _ => Ok(None),
        }
    }

    /// Goes past a mark at this position.
    fn pass(&mut self, alloc: Global, mark: Mark, at: usize) -> Result<(), AllocError>
        ensures { (text : Characters)
            → ((start : Start) (x : Option Bool) → mark_of mark ≡ spec.opens start x
            → Stands text at 40)
            → AreOpen text self.old.standing.groups.items
            → OnOk result (AreOpen text self.new.standing.groups.items) }
    {
        match &mark {
            Mark::Sets(to) => {
                self.is_verbose = to.ignore_whitespace.unwrap_or(self.is_verbose);
            }
            Mark::Opens(_, verbose) => {
                self.around.push(self.is_verbose)?;
                self.is_verbose = verbose.unwrap_or(self.is_verbose);
            }
            Mark::Closes => {
                self.is_verbose = self.around.pop().unwrap_or(self.is_verbose);
            }
            _ => {}
        }
        let token = token_of(mark);
        self.standing.pass(alloc, &token, at)
    }
}

/// The fault of a text that the full grammar reads up to the character at `stop`, and not with it.
pub fn full_fault_at(
    alloc: Global,
    config: &Config,
    text: &[char],
    stop: usize,
) -> Result<Found, AllocError>
    requires { length text.now ≤ usize.MAX }
    ensures { IfOk result (λ found. Shows Full found.kind text.now found.start found.end) }
{
    let mut scan = Scan {
        standing: Standing::new(alloc, config),
        is_verbose: config.get_ignore_whitespace(),
        around: Vec::new(alloc),
    };
    let mut at = 0;
    for _ in 0..text.len() {
        let behind = passed(scan.is_verbose, from(text, at));
        at = text.len().saturating_sub(behind.len());
        if at >= text.len() {
            break;
        }
        let rest = from(text, at);
        let (mark, count) = match scan.mark_at(alloc, config, rest)? {
            Ok(read) => read,
            Err(fault) => return Ok(fault.after(at)),
        };
        let end = at.saturating_add(count);
        if at >= stop {
            return match scan.mark_fault(alloc, config, &mark, rest, count)? {
                Some(fault) => Ok(fault.after(at)),
                None => Ok(scan.standing.too_deep(end)),
            };
        }
        scan.pass(alloc, mark, at)?;
        at = end;
    }
    Ok(scan.standing.end_fault(text.len()))
}
