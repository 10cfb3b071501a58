//! Match lengths and anchors: what is known of all matches before any search.
ghost use Rattle.std.specs.Prelude.{◌≡◌, max};
ghost use Rattle.rc_pattern.specs.Properties.{both};

use rc_dfa_search::search;
use rc_pattern::check::properties_of;
use rc_pattern::hir::{Hir, Look, LookSet};
use rc_text::cursor::Cursor;
use rc_text::input::{Input, byte_at, high, low};

/// The lengths and anchors of the spans that some patterns spell, whatever the text. Lengths are in
/// bytes.
#[derive(Clone, Copy, Debug, PartialEq, Eq)]
pub struct Lengths {
    /// No span is shorter.
    least: usize,
    /// No span is longer. None means that no bound is known.
    greatest: Option<usize>,
    /// Whether each span begins where the slice does.
    begins: bool,
    /// Whether each span ends where the slice does.
    ends: bool,
    /// Whether each span begins where a line does, as far as is known.
    lines: bool,
}

/// Returns the greater of two bounds, if both are known.
fn greater(left: Option<usize>, right: Option<usize>) -> Option<usize>
    ensures { result ≡ both (λ m n. Some (max m n)) left right }
{
    match (left, right) {
        (Some(m), Some(n)) => Some(m.max(n)),
        (Some(_), None) => None,
        (None, _) => None,
    }
}

/// Whether one of the assertions holds only where a line begins.
fn has_line_start(looks: LookSet) -> bool {
    looks.contains(Look::StartLF) || looks.contains(Look::StartCRLF)
}

impl Lengths {
    ghost use Rattle.std.specs.Prelude.{◌≡◌, map, All, IfSome, is_none};
    ghost use Rattle.rc_text.specs.Text.{Keeps, high};
    ghost use Rattle.rc_pattern.specs.Meaning.{meaning};
    ghost use Rattle.rc_pattern.specs.Properties.{maximum_len};
    ghost use Rattle.rc_reach.specs.Laws.{greatest_len};
    ghost use Rattle.rc_dfa_search.specs.Aims.{AreBounds};
    ghost use Rattle.rc_strategy.specs.Lengths.{Bounds, IsOneLength, either, are_longer, are_shorter, begin_early, end_late, leave_none, must_fill};

    /// Returns the lengths and anchors of this pattern's spans.
    fn of_one(hir: &Hir) -> Lengths
        ensures bounds { Bounds result (meaning hir.now) }
        ensures greatest { result.greatest ≡ maximum_len (meaning hir.now) }
    {
        let properties = properties_of(hir);
        let first = properties.look_set_prefix();
        Lengths {
            least: properties.minimum_len().unwrap_or(usize::MAX),
            greatest: properties.maximum_len(),
            begins: first.contains(Look::Start),
            ends: properties.look_set_suffix().contains(Look::End),
            lines: has_line_start(first),
        }
    }

    /// Returns the lengths and anchors of spans that are of one kind or the other.
    fn either(self, other: Lengths) -> Lengths
        ensures { result ≡ either self other }
    {
        Lengths {
            least: self.least.min(other.least),
            greatest: greater(self.greatest, other.greatest),
            begins: self.begins && other.begins,
            ends: self.ends && other.ends,
            lines: self.lines && other.lines,
        }
    }

    /// Returns the lengths and anchors of these patterns' spans.
    pub fn of(hirs: &[Hir]) -> Lengths
        ensures bounds { All (Bounds result) (map meaning hirs.now) }
        ensures greatest { result.greatest ≡ greatest_len (map meaning hirs.now) }
    {
        let mut spans = Lengths {
            least: usize::MAX,
            greatest: Some(0),
            begins: true,
            ends: true,
            lines: true,
        };
        for hir in hirs {
            spans = spans.either(Lengths::of_one(hir));
        }
        spans
    }

    /// Whether each span begins where the slice does, but the search begins later.
    #[inline(always)]
    fn begin_early<C: Cursor>(&self, input: &Input<C>) -> bool
        ensures { result ≡ begin_early self.now input.now }
    {
        self.begins && input.get_slice_span().start < low(input)
    }

    /// Whether a span may have at most two bytes, as far as is known.
    pub(crate) fn may_be_short(&self) -> bool {
        self.least <= 2
    }

    /// Whether a span may be empty, as far as is known.
    pub(crate) fn may_be_empty(&self) -> bool {
        self.least == 0
    }

    /// Whether each span begins where a line does, as far as is known.
    pub(crate) fn begin_lines(&self) -> bool {
        self.lines
    }

    /// Whether each span begins where the slice does.
    #[inline(always)]
    pub(crate) fn begin_there(&self) -> bool
        ensures { result ≡ self.now.begins }
    {
        self.begins
    }

    /// Whether each span ends where the slice does.
    #[inline(always)]
    pub(crate) fn end_there(&self) -> bool
        ensures { result ≡ self.now.ends }
    {
        self.ends
    }

    /// Whether each span ends where the slice does, but the search ends earlier, at `end`.
    #[inline(always)]
    fn end_late<C: Cursor>(&self, input: &mut Input<C>, end: usize) -> bool
        requires end { end ≡ high input.old }
        ensures keeps { Keeps input.old input.new }
        ensures value { result ≡ end_late self.now input.old }
    {
        self.ends && end < input.get_slice_span().end && byte_at(input, end).is_some()
    }

    /// Whether each span is longer than `length` bytes.
    #[inline(always)]
    fn are_longer(&self, length: usize) -> bool
        ensures { result ≡ are_longer self.now length }
    {
        length < self.least
    }

    /// Whether each span is shorter than `length` bytes.
    #[inline(always)]
    fn are_shorter(&self, length: usize) -> bool
        ensures { result ≡ are_shorter self.now length }
    {
        match self.greatest {
            Some(most) => most < length,
            None => false,
        }
    }

    /// Whether a match, if there is one, reaches from the beginning of the search to its end.
    #[inline(always)]
    fn must_fill<C: Cursor>(&self, input: &Input<C>) -> bool
        ensures { result ≡ must_fill self.now input.now }
    {
        self.ends && (self.begins || input.get_anchored().is_anchored())
    }

    /// Returns the greatest length of the spans in bytes, if it is known.
    #[inline(always)]
    pub(crate) fn greatest_length(&self) -> Option<usize>
        ensures { result ≡ self.now.greatest }
    {
        self.greatest
    }

    /// Returns the length of each span in bytes, if all are known to have the same.
    pub(crate) fn only_length(&self) -> Option<usize>
        ensures { IfSome result (λ n. IsOneLength self.now n) }
    {
        match self.greatest {
            Some(most) if most == self.least => Some(most),
            _ => None,
        }
    }

    /// Returns the bounds of a search, or None if there can be no match between them. Each would
    /// begin before the search or end after it, or be longer than what is searched; or it would
    /// have to fill that, and be shorter.
    ///
    /// If the cursor doesn't know the content's length, this goes to where the content ends.
    #[inline(always)]
    pub fn bounds<C: Cursor>(&self, input: &mut Input<C>) -> Option<search::Bounds>
        ensures keeps { Keeps input.old input.new }
        ensures value { is_none result ≡ leave_none self.now input.old }
        ensures some { IfSome result (AreBounds input.old) }
    {
        if self.begin_early(input) {
            return None;
        }
        let low = low(input);
        let high = high(input);
        if high < low || self.end_late(input, high) {
            return None;
        }
        let length = high - low;
        if self.are_longer(length) || (self.must_fill(input) && self.are_shorter(length)) {
            return None;
        }
        Some(search::Bounds { low, high })
    }
}
