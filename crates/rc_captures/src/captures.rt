//! Captures: the groups of one match.
ghost use Rattle.std.specs.Prelude.{◌≡◌, ◌↔◌, None, IsTrue, IsSome, length, IfOk, replicate};
ghost use Rattle.std.specs.Option.{option_map_or};
ghost use Rattle.std.specs.Borrow.{sem};
ghost use Rattle.rc_captures.specs.Names.{Names, slot_len, implicit_slot_len, group_len};
ghost use Rattle.rc_captures.specs.Groups.{names_of};
ghost use Rattle.rc_captures.specs.Captures.{captures_names, captures_pattern, captures_slots, group_span, named_span, match_of, IsCapturesFor};
ghost use Rattle.rc_captures.specs.Lends.{LendsSlots};
ghost use Rattle.rc_captures.specs.Laws.{MatchLaw, LentLaw};

use crate::groups;
use crate::groups::GroupInfo;
use rc_text::types::{Match, PatternID, Span};
use std::alloc::{AllocError, Global};
use std::fmt;

/// The pattern that matched, and the positions of its groups.
///
/// A group is the span of its two slots. It is absent if there is no match, or if a slot is empty
/// or not kept.
#[derive(Drop)]
pub struct Captures {
    info: GroupInfo,
    pattern: Option<PatternID>,
    slots: Vec<Option<usize>>,
}

impl Captures {
    /// Returns captures that keep all groups of these patterns. They hold no match, and each slot
    /// is empty. An `Err` means out of memory.
    pub fn all(alloc: Global, info: &GroupInfo) -> Result<Captures, AllocError>
        ensures made { IfOk result (IsCapturesFor (names_of info.now)) }
        ensures pattern { IfOk result (λ c. captures_pattern c ≡ None) }
        ensures slots { IfOk result (λ c. captures_slots c
            ≡ replicate (slot_len (names_of info.now)) None) }
    {
        empty(alloc, info, info.slot_len())
    }

    /// Returns captures that keep only the whole matches of these patterns. They hold no match, and
    /// each slot is empty. An `Err` means out of memory.
    pub fn matches(alloc: Global, info: &GroupInfo) -> Result<Captures, AllocError>
        ensures made { IfOk result (IsCapturesFor (names_of info.now)) }
        ensures pattern { IfOk result (λ c. captures_pattern c ≡ None) }
        ensures slots { IfOk result (λ c. captures_slots c
            ≡ replicate (implicit_slot_len (names_of info.now)) None) }
    {
        empty(alloc, info, info.implicit_slot_len())
    }

    /// The pattern that matched, or `None` without a match.
    pub fn pattern(&self) -> Option<PatternID>
        ensures { result ≡ captures_pattern self.now }
    {
        self.pattern
    }

    /// Whether they hold a match.
    pub fn is_match(&self) -> bool
        ensures { IsTrue result ↔ IsSome (captures_pattern self.now) }
    {
        self.pattern.is_some()
    }

    /// The match: the pattern, and the span of its group 0. It is `None` without a match, and if
    /// that group is absent or its start is above its end.
    pub fn get_match(&self) -> Option<Match>
        ensures { result ≡ match_of self.now }
    {
        let pattern = self.pattern?;
        let span = self.get_group(0)?;
        if span.start <= span.end {
            Some(Match::new(pattern, span))
        } else {
            None
        }
    }

    /// The span of a group of the pattern that matched, in bytes of the content; `None` if the
    /// group is absent.
    pub fn get_group(&self, index: usize) -> Option<Span>
        ensures { result ≡ group_span self.now index }
    {
        let (start, end) = self.info.slots(self.pattern?, index)?;
        let start = (*self.slots.get(start)?)?;
        let end = (*self.slots.get(end)?)?;
        Some(Span { start, end })
    }

    /// The span of the group with this name; `None` if the group is absent, or no group has the
    /// name.
    pub fn get_group_by_name(&self, name: &str) -> Option<Span>
        ensures { result ≡ named_span self.now name.now }
    {
        let index = self.info.to_index(self.pattern?, name)?;
        self.get_group(index)
    }

    /// The number of groups of the pattern that matched, group 0 among them; 0 without a match.
    pub fn group_len(&self) -> usize
        ensures { result ≡ option_map_or (group_len (captures_names self.now))
            (captures_pattern self.now) 0 }
    {
        match self.pattern {
            Some(pattern) => self.info.group_len(pattern),
            None => 0,
        }
    }

    /// The slots, for writing: positions in bytes of the content. The pattern that matched stays.
    pub fn slots_mut(&mut self) -> &mut [Option<usize>]
        ensures* writes_back { sem 𝓛 (LendsSlots self.entry result) }
        ensures value { result.now ≡ captures_slots self.old }
    {
        self.slots.as_mut_slice()
    }
}

/// Captures with this number of empty slots.
fn empty(alloc: Global, info: &GroupInfo, len: usize) -> Result<Captures, AllocError>
    ensures names { IfOk result (λ c. captures_names c ≡ names_of info.now) }
    ensures pattern { IfOk result (λ c. captures_pattern c ≡ None) }
    ensures slots { IfOk result (λ c. captures_slots c ≡ replicate len None) }
{
    let slots = vec![in alloc; None; len]?;
    Ok(Captures {
        info: groups::copy_of(info)?,
        pattern: None,
        slots,
    })
}

/// Sets the pattern that matched. The slots stay.
pub fn set_pattern(caps: &mut Captures, pattern: Option<PatternID>)
    ensures names { captures_names caps.new ≡ captures_names caps.old }
    ensures pattern { captures_pattern caps.new ≡ pattern }
    ensures slots { captures_slots caps.new ≡ captures_slots caps.old }
    ensures made { (names : Names) → IsCapturesFor names caps.old → IsCapturesFor names caps.new }
{
    caps.pattern = pattern;
}

/// Clears the captures: no pattern, and each slot is empty.
pub fn clear(caps: &mut Captures)
    ensures names { captures_names caps.new ≡ captures_names caps.old }
    ensures pattern { captures_pattern caps.new ≡ None }
    ensures slots { captures_slots caps.new ≡ replicate (length (captures_slots caps.old)) None }
    ensures made { (names : Names) → IsCapturesFor names caps.old → IsCapturesFor names caps.new }
{
    caps.pattern = None;
    caps.slots.fill(None);
}

/// The slots.
pub fn slots_of(caps: &Captures) -> &[Option<usize>]
    ensures { result.now ≡ captures_slots caps.now }
{
    &caps.slots
}

/// Returns a copy of the captures. An `Err` means out of memory.
pub fn copy_of(alloc: Global, caps: &Captures) -> Result<Captures, AllocError>
    ensures names { IfOk result (λ c. captures_names c ≡ captures_names caps.now) }
    ensures pattern { IfOk result (λ c. captures_pattern c ≡ captures_pattern caps.now) }
    ensures slots { IfOk result (λ c. captures_slots c ≡ captures_slots caps.now) }
{
    let slots = Vec::from_slice(alloc, &caps.slots)?;
    Ok(Captures {
        info: groups::copy_of(&caps.info)?,
        pattern: caps.pattern,
        slots,
    })
}

/// Captures that hold a match return it, and the spans of its groups. A law: it does nothing.
pub fn captures_tell_their_match()
    ensures { MatchLaw }
{}

/// Borrowing the slots keeps the patterns, the pattern that matched and the number of slots. A law:
/// it does nothing.
pub fn lending_keeps_the_patterns()
    ensures { LentLaw }
{}

impl fmt::Debug for Captures {
    fn fmt<W: fmt::Write>(&self, f: &mut fmt::Formatter<W>) -> fmt::Result {
        f.debug_struct("Captures")
            .field("pattern", &self.pattern)
            .field("slots", &self.slots)
            .finish()
    }
}
