//! High-level intermediate representation (HIR): a pattern as a tree.

ghost use Rattle.std.specs.Prelude.{◌≡◌, IfOk, IsTrue, map, []};
ghost use Rattle.rc_pattern.specs.declared.hir.Hir.{out-Hir};
ghost use Rattle.rc_pattern.specs.Re as re;
ghost use Rattle.rc_pattern.specs.Meaning.{meaning, kind_meaning, class_meaning, repetition_meaning, capture_meaning, literal_of, concat_of, alternation_of};
ghost use Rattle.rc_pattern.specs.Dots.{dot_of};
ghost use Rattle.rc_pattern.specs.Kinds.{has_plain_nodes, kind_has_plain_nodes, repetition_has_plain_nodes, capture_has_plain_nodes, all_have_plain_nodes};

mod debug;
mod dots;
mod lengths;
mod look_set;
mod members;
pub(crate) mod properties;

use crate::check::{is_shallow, properties_of};
use crate::drops::drop_all;
pub use dots::Dot;
pub use look_set::{LookSet, LookSetIter};
pub use properties::Properties;
use std::alloc::{AllocError, Global};

/// An assertion about a position. It reads no byte.
#[derive(Clone, Copy, Debug, PartialEq, Eq)]
pub enum Look {
    /// The start of the slice.
    Start,
    /// The end of the slice.
    End,
    /// The start of a line, if the line terminator ends lines.
    StartLF,
    /// The end of a line, if the line terminator ends lines.
    EndLF,
    /// The start of a line, if CR, LF and CR with LF end lines.
    StartCRLF,
    /// The end of a line, if CR, LF and CR with LF end lines.
    EndCRLF,
    /// An ASCII word character on exactly one side.
    WordAscii,
    /// An ASCII word character on both sides or on neither.
    WordAsciiNegate,
    /// A word character on exactly one side.
    WordUnicode,
    /// A word character on both sides or on neither.
    WordUnicodeNegate,
    /// The start of an ASCII word.
    WordStartAscii,
    /// The end of an ASCII word.
    WordEndAscii,
    /// The start of a word.
    WordStartUnicode,
    /// The end of a word.
    WordEndUnicode,
    /// No ASCII word character before.
    WordStartHalfAscii,
    /// No ASCII word character after.
    WordEndHalfAscii,
    /// No word character before.
    WordStartHalfUnicode,
    /// No word character after.
    WordEndHalfUnicode,
}

/// A range of bytes, both ends included.
#[derive(Clone, Copy, Debug, PartialEq, Eq)]
pub struct ClassBytesRange {
    pub start: u8,
    pub end: u8,
}

/// A range of characters, both ends included.
#[derive(Clone, Copy, Debug, PartialEq, Eq)]
pub struct ClassUnicodeRange {
    pub start: char,
    pub end: char,
}

/// A set of characters or of bytes.
#[derive(Drop)]
pub enum Class {
    /// The characters of the ranges.
    Unicode(Vec<ClassUnicodeRange>),
    /// The bytes of the ranges.
    Bytes(Vec<ClassBytesRange>),
}

/// A pattern.
///
/// It may be nested without bound, and a build refuses one of more than 1,024 levels. It is dropped
/// in a loop, which takes no memory and as much stack for each pattern. No other call recurses past
/// 1,024 levels.
#[cycle(hir)]
pub struct Hir {
    kind: HirKind,
}

impl Drop for Hir {
    fn drop(self) {
        drop_all(self);
    }
}

/// One node of a pattern.
#[cycle(hir)]
#[derive(Drop)]
pub enum HirKind {
    /// The empty text.
    Empty,
    /// These bytes.
    Literal(Vec<u8>),
    /// One character or one byte of the class.
    Class(Class),
    /// The empty text, if the assertion holds.
    Look(Look),
    /// Repetitions of a pattern.
    Repetition(Repetition),
    /// A group.
    Capture(Capture),
    /// The patterns one after another.
    Concat(Vec<Hir>),
    /// One of the patterns, the earlier ones preferred.
    Alternation(Vec<Hir>),
}

/// From `min` to `max` repetitions of a pattern, without a bound if `max` is `None`. If it is
/// `greedy`, more repetitions are preferred, and otherwise fewer.
#[cycle(hir)]
#[derive(Drop)]
pub struct Repetition {
    pub min: u32,
    pub max: Option<u32>,
    pub greedy: bool,
    pub sub: Box<Hir>,
}

/// A group: its number within the pattern, from 1 on, and its name.
#[cycle(hir)]
#[derive(Drop)]
pub struct Capture {
    pub index: usize,
    pub name: Option<String>,
    pub sub: Box<Hir>,
}

impl Hir {
    ghost use Rattle.std.specs.Prelude.{◌<◌, ◌≤◌};
    ghost use Rattle.rc_pattern.specs.PropertiesOf.{IsPropertiesOf, TellNothing};
    ghost use Rattle.rc_pattern.specs.WellFormed.{depth};

    /// Returns the pattern that matches only the empty text.
    pub fn empty() -> Hir
        ensures meaning { meaning result ≡ re.empty }
        ensures kind { IsTrue (has_plain_nodes result) }
    {
        Hir {
            kind: HirKind::Empty,
        }
    }

    /// Returns the pattern that matches nothing at all: the class of no byte.
    pub fn fail(alloc: Global) -> Hir
        ensures meaning { meaning result ≡ re.byte_in [] }
        ensures kind { IsTrue (has_plain_nodes result) }
    {
        Hir::class(Class::Bytes(Vec::new(alloc)))
    }

    /// Returns the pattern of these bytes. Of no bytes it is `empty`. An `Err` means out of memory.
    pub fn literal(alloc: Global, bytes: &[u8]) -> Result<Hir, AllocError>
        ensures meaning { IfOk result (λ h. meaning h ≡ literal_of bytes.now) }
        ensures kind { IfOk result (λ h. IsTrue (has_plain_nodes h)) }
    {
        if bytes.is_empty() {
            return Ok(Hir::empty());
        }
        Ok(Hir {
            kind: HirKind::Literal(Vec::from_slice(alloc, bytes)?),
        })
    }

    /// Returns the pattern of one character or one byte of the class. The ranges stay as you pass
    /// them.
    pub fn class(class: Class) -> Hir
        ensures meaning { meaning result ≡ class_meaning class }
        ensures kind { IsTrue (has_plain_nodes result) }
    {
        Hir {
            kind: HirKind::Class(class),
        }
    }

    /// Returns the pattern of the assertion.
    pub fn look(look: Look) -> Hir
        ensures meaning { meaning result ≡ re.look look }
        ensures kind { IsTrue (has_plain_nodes result) }
    {
        Hir {
            kind: HirKind::Look(look),
        }
    }

    /// Returns the class that the dot matches. An `Err` means out of memory.
    pub fn dot(alloc: Global, dot: Dot) -> Result<Hir, AllocError>
        ensures meaning { IfOk result (λ h. meaning h ≡ dot_of dot) }
        ensures kind { IfOk result (λ h. IsTrue (has_plain_nodes h)) }
    {
        Ok(Hir::class(dots::class_of(alloc, dot)?))
    }

    /// Returns the pattern of the repetition, as you pass it.
    pub fn repetition(repetition: Repetition) -> Hir
        ensures meaning { meaning result ≡ repetition_meaning repetition }
        ensures kind { has_plain_nodes result ≡ repetition_has_plain_nodes repetition }
    {
        Hir {
            kind: HirKind::Repetition(repetition),
        }
    }

    /// Returns the pattern of the group, as you pass it.
    pub fn capture(capture: Capture) -> Hir
        ensures meaning { meaning result ≡ capture_meaning capture }
        ensures kind { has_plain_nodes result ≡ capture_has_plain_nodes capture }
    {
        Hir {
            kind: HirKind::Capture(capture),
        }
    }

    /// Returns the concatenation of the patterns. It drops empty ones, takes the members of
    /// concatenations, and joins adjacent literals. No remaining member is `empty`, and a single
    /// member is returned itself. An `Err` means out of memory, and the patterns are dropped then.
    pub fn concat(alloc: Global, subs: Vec<Hir>) -> Result<Hir, AllocError>
        ensures meaning { IfOk result (λ h. meaning h ≡ concat_of (map meaning subs.items)) }
        ensures kind { IfOk result (λ h. IsTrue (all_have_plain_nodes subs.items)
            → IsTrue (has_plain_nodes h)) }
    {
        let members = members::all_cat_members(alloc, subs)?;
        let mut members = members::joined_literals(alloc, members)?;
        if members.len() > 1 {
            return Ok(Hir {
                kind: HirKind::Concat(members),
            });
        }
        Ok(members.pop().unwrap_or(Hir::empty()))
    }

    /// Returns the alternation of the patterns, the earlier ones preferred. It takes the members of
    /// alternations. No member is `fail`, and a single member is returned itself. An `Err` means
    /// out of memory, and the patterns are dropped then.
    pub fn alternation(alloc: Global, subs: Vec<Hir>) -> Result<Hir, AllocError>
        ensures meaning { IfOk result (λ h. meaning h ≡ alternation_of (map meaning subs.items)) }
        ensures kind { IfOk result (λ h. IsTrue (all_have_plain_nodes subs.items)
            → IsTrue (has_plain_nodes h)) }
    {
        let mut members = members::all_alt_members(alloc, subs)?;
        if members.len() > 1 {
            return Ok(Hir {
                kind: HirKind::Alternation(members),
            });
        }
        Ok(members.pop().unwrap_or(Hir::fail(alloc)))
    }

    /// Returns the pattern of this node, as it is passed.
    pub(crate) fn from_kind(kind: HirKind) -> Hir
        ensures node { (out-Hir result).kind ≡ kind }
        ensures meaning { meaning result ≡ kind_meaning kind }
        ensures kind { has_plain_nodes result ≡ kind_has_plain_nodes kind }
    {
        Hir { kind }
    }

    /// Returns the root node of the pattern, which is taken apart.
    pub(crate) fn into_kind(self) -> HirKind
        ensures { result ≡ (out-Hir self).kind }
    {
        let Hir { kind } = self;
        kind
    }

    /// Returns what is known of the pattern. It is computed at each call, in time linear in the
    /// size of the pattern. Nothing is known of a pattern of more than 1,024 levels, which no build
    /// takes: it may have any length, groups and assertions. So a stack of 256 KiB is enough for
    /// each pattern.
    pub fn properties(&self) -> Properties
        ensures exact { depth (meaning self.now) ≤ 1024
            → IsPropertiesOf (meaning self.now) result }
        ensures unknown { 1024 < depth (meaning self.now) → TellNothing result }
    {
        if !is_shallow(self) {
            return Properties::of_any();
        }
        properties_of(self)
    }

    /// The root node of the pattern.
    pub fn kind(&self) -> &HirKind
        ensures value { kind_meaning result.now ≡ meaning self.now }
        ensures node { result.now ≡ (out-Hir self.now).kind }
    {
        &self.kind
    }
}
