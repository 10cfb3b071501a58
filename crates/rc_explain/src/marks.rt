//! Diagnostics scan: the tokens of a text, up to the one that doesn't parse.

ghost use Rattle.std.specs.Prelude.{◌≡◌, ◌<◌, ◌≤◌, [], IfOk, IfSome, MatchOption, None, OnOk, drop, length};
ghost use Rattle.rc_parser.specs.declared.config.Grammar.{Grammar};
ghost use Rattle.rc_parser.specs.declared.config.Grammar.TheVariants.{Stated};
ghost use Rattle.rc_tokens.specs.Lexer.{lex};
ghost use Rattle.rc_tokens.specs.Said.{Opens, Start};
ghost use Rattle.rc_tokens.specs.Text.{Characters};
ghost use Rattle.rc_tokens.specs.View.{said_of};
ghost use Rattle.rc_explain.specs.Reading.{AreOpen, IsAtomFault, IsToken};
ghost use Rattle.rc_explain.specs.Shown.{HasShape, Shows, Stands};

use crate::escapes::escape_fault;
use crate::faults::FaultKind;
use crate::lists::{list_fault, members_fault};
use crate::openings::{name_of, opening_fault};
use crate::places::Found;
use crate::repetitions::counted_fault;
use rc_parser::{Config, Error, Grammar};
use rc_syntax::parse;
use rc_tokens::lexer::first_token;
use rc_tokens::refusal::Refusal;
use rc_tokens::tokens::{Opening, Token};
use std::alloc::{AllocError, Global};

/// The first token of a text, and its number of characters; `None` if no token begins the text.
pub fn first_mark(alloc: Global, text: &[char]) -> Result<Option<(Token, usize)>, AllocError>
    ensures { IfOk result (λ told. MatchOption told (lex text.now ≡ None)
        (λ r. (r.1 ≤ length text.now) × IsToken (said_of r.0) text.now 0 r.1)) }
{
    match first_token(alloc, text) {
        Ok((token, rest)) => Ok(Some((token, text.len().saturating_sub(rest.len())))),
        Err(Refusal::Syntax) => Ok(None),
        Err(Refusal::Memory) => Err(AllocError),
    }
}

/// The text from there on.
pub fn from(text: &[char], at: usize) -> &[char]
    ensures { result.now ≡ drop at text.now }
{
    text.get(at..).unwrap_or(&[])
}

/// A group that is open.
#[derive(Clone, Copy)]
pub struct OpenGroup {
    /// Where its `(` is.
    pub at: usize,
    /// The flag `u` outside.
    pub is_unicode_outside: bool,
}

/// The state after the tokens so far.
#[derive(Drop)]
pub struct Standing {
    pub groups: Vec<OpenGroup>,
    /// The names of the groups so far.
    names: Vec<String>,
    /// The flag `u`.
    pub is_unicode: bool,
    /// Whether there is something that an operator may repeat.
    has_item: bool,
}

impl Standing {
    /// The state before a text.
    pub fn new(alloc: Global, config: &Config) -> Standing
        ensures { result.groups.items ≡ [] }
    {
        Standing {
            groups: Vec::new(alloc),
            names: Vec::new(alloc),
            is_unicode: config.get_unicode(),
            has_item: false,
        }
    }

    /// Goes past a token at this position.
    pub fn pass(&mut self, alloc: Global, token: &Token, at: usize) -> Result<(), AllocError>
        ensures { (text : Characters)
            → ((start : Start) → said_of token.now ≡ Opens start → Stands text at 40)
            → AreOpen text self.old.groups.items
            → OnOk result (AreOpen text self.new.groups.items) }
    {
        self.has_item = match token {
            Token::Bar | Token::Setting(_) | Token::Opens(_) => false,
            _ => true,
        };
        match token {
            Token::Setting(to) => self.is_unicode = to.unicode.unwrap_or(self.is_unicode),
            Token::Opens(opening) => {
                let is_unicode_outside = self.is_unicode;
                self.groups.push(OpenGroup {
                    at,
                    is_unicode_outside,
                })?;
                match opening {
                    Opening::Flagged(to) => {
                        self.is_unicode = to.unicode.unwrap_or(is_unicode_outside);
                    }
                    Opening::Named(name) => {
                        let mut copy = String::new(alloc);
                        copy.push_str(name)?;
                        self.names.push(copy)?;
                    }
                    Opening::Capturing => {}
                }
            }
            Token::Closes => {
                if let Some(group) = self.groups.pop() {
                    self.is_unicode = group.is_unicode_outside;
                }
            }
            _ => {}
        }
        Ok(())
    }

    /// The fault of nesting too deeply: of the innermost open group, or of the whole pattern.
    pub fn too_deep(&self, end: usize) -> Found
        ensures { (grammar : Grammar) (text : Characters) → AreOpen text self.now.groups.items
            → Shows grammar result.kind text result.start result.end }
    {
        let start = match self.groups.last() {
            Some(group) => group.at,
            None => 0,
        };
        Found {
            kind: FaultKind::NestedTooDeeply,
            start,
            end,
        }
    }

    /// The fault at the end of the text.
    pub fn end_fault(&self, end: usize) -> Found
        ensures { (grammar : Grammar) (text : Characters) → length text ≤ usize.MAX
            → AreOpen text self.now.groups.items
            → Shows grammar result.kind text result.start result.end }
    {
        match self.groups.last() {
            Some(group) => Found {
                kind: FaultKind::UnclosedGroup,
                start: group.at,
                end: group.at.saturating_add(1),
            },
            None => Found {
                kind: FaultKind::NestedTooDeeply,
                start: 0,
                end,
            },
        }
    }

    /// Whether a group so far has this name.
    pub fn is_taken(&self, name: &str) -> bool {
        for other in &self.names {
            if other.as_bytes() == name.as_bytes() {
                return true;
            }
        }
        false
    }

    /// The fault of an atom that isn't allowed here by itself; `None` if it is nested too deeply.
    pub fn atom_fault(
        &self,
        alloc: Global,
        config: &Config,
        mark: &[char],
    ) -> Result<Option<Found>, AllocError>
        ensures { IfOk result (λ told. IfSome told (IsAtomFault mark.now)) }
    {
        let end = mark.len();
        if parses_alone(
            alloc,
            &config.unicode(self.is_unicode).nest_limit(250),
            mark,
        )? {
            return Ok(None);
        }
        match mark {
            ['.'] if self.is_unicode => {
                Ok(Some(Found {
                    kind: FaultKind::LineTerminator,
                    start: 0,
                    end,
                }))
            }
            _ if self.is_unicode => Ok(None),
            _ => Ok(Some(Found {
                kind: FaultKind::NotUtf8,
                start: 0,
                end,
            })),
        }
    }

    /// The fault of a `)` or an operator that isn't allowed here. It is the first `count` characters of
    /// the text.
    pub fn operator_fault(&self, text: &[char], count: usize) -> Option<Found>
        requires { 0 < count }
        ensures { (grammar : Grammar) → IfSome result (λ found.
            HasShape grammar found.kind text.now found.start found.end) }
    {
        match text {
            [')', ..] if self.groups.is_empty() => {
                Some(Found {
                    kind: FaultKind::UnopenedGroup,
                    start: 0,
                    end: 1,
                })
            }
            ['*' | '+' | '?' | '{', ..] if !self.has_item => {
                Some(Found {
                    kind: FaultKind::RepetitionOfNothing,
                    start: 0,
                    end: count,
                })
            }
            _ => None,
        }
    }

    /// The fault of a token that isn't allowed here; `None` if it is nested too deeply. `mark` is
    /// its text.
    fn mark_fault(
        &self,
        alloc: Global,
        config: &Config,
        token: &Token,
        mark: &[char],
    ) -> Result<Option<Found>, AllocError>
        requires some { 0 < length mark.now }
        requires fits { length mark.now ≤ usize.MAX }
        requires token { IsToken (said_of token.now) mark.now 0 (length mark.now) }
        ensures { IfOk result (λ told. IfSome told (λ found.
            HasShape Stated found.kind mark.now found.start found.end)) }
    {
        if let Some(found) = self.operator_fault(mark, mark.len()) {
            return Ok(Some(found));
        }
        match token {
            Token::Byte(_) | Token::Perl(_) | Token::Dot => self.atom_fault(alloc, config, mark),
            Token::List(_) => match members_fault(alloc, self.is_unicode, mark)? {
                Some(fault) => Ok(Some(fault)),
                None => self.atom_fault(alloc, config, mark),
            },
            Token::Opens(Opening::Named(name)) if self.is_taken(name) => {
                let (start, end) = name_of(mark, mark.len());
                Ok(Some(Found {
                    kind: FaultKind::DuplicateName,
                    start,
                    end,
                }))
            }
            _ => Ok(None),
        }
    }
}

/// Whether the text of a token is a pattern by itself.
fn parses_alone(alloc: Global, config: &Config, mark: &[char]) -> Result<bool, AllocError> {
    let mut text = String::new(alloc);
    for c in mark {
        text.push(*c)?;
    }
    match parse(alloc, &text, config) {
        Ok(hir) => {
            drop(hir);
            Ok(true)
        }
        Err(Error::Memory) => Err(AllocError),
        Err(Error::Syntax { at: _ }) => Ok(false),
    }
}

/// The fault of a text that begins with no token.
fn unread_mark(alloc: Global, mark: &[char]) -> Result<Found, AllocError>
    requires some { 0 < length mark.now }
    requires unread { lex mark.now ≡ None }
    ensures { IfOk result (λ found. HasShape Stated found.kind mark.now found.start found.end) }
{
    match mark {
        ['[', ..] => list_fault(alloc, mark),
        ['\\', ..] => Ok(escape_fault(mark)),
        ['{', ..] => Ok(counted_fault(Grammar::Stated, mark)),
        _ => Ok(opening_fault(Grammar::Stated, mark)),
    }
}

/// The fault of a text that parses up to the character at `stop`, and not with it.
pub fn fault_at(
    alloc: Global,
    config: &Config,
    text: &[char],
    stop: usize,
) -> Result<Found, AllocError>
    requires { length text.now ≤ usize.MAX }
    ensures { IfOk result (λ found. Shows Stated found.kind text.now found.start found.end) }
{
    let mut standing = Standing::new(alloc, config);
    let mut at = 0;
    for _ in 0..text.len() {
        if at >= text.len() {
            break;
        }
        let mark = from(text, at);
        let Some((token, count)) = first_mark(alloc, mark)? else {
            return Ok(unread_mark(alloc, mark)?.after(at));
        };
        let end = at.saturating_add(count);
        if at >= stop {
            let mark = &mark[..count];
            return match standing.mark_fault(alloc, config, &token, mark)? {
                Some(fault) => Ok(fault.after(at)),
                None => Ok(standing.too_deep(end)),
            };
        }
        standing.pass(alloc, &token, at)?;
        at = end;
    }
    Ok(standing.end_fault(text.len()))
}
