//! Thompson NFA: a program that is ready to be searched with.

ghost use Rattle.std.specs.Prelude.{◌≡◌, ℕ, ◌<◌, MatchBool, MatchOption, length, ⊤};
ghost use Rattle.rc_program.specs.Columns.{AreColumns, OwnSlots, column_at, range_of, row_width};
ghost use Rattle.rc_program.specs.Heads.{AreHeads, MayGoOn, TellsHeads, flags_in};
ghost use Rattle.rc_program.specs.Sought.{IsRunnable};
ghost use Rattle.rc_program.specs.Places.{places_of};
ghost use Rattle.rc_program.specs.Program.{place_at, slot as slot_place};

use crate::columns::{Columns, SlotRange, range_at};
use crate::place::Place;
use crate::{heads, place};

/// A program that is ready to be searched with: it is entered at place 0, no way leads out of it,
/// and each pattern's number is one of `PatternID`.
#[derive(Drop)]
pub struct Program {
    /// The places. Walks enter at place 0.
    pub places: Vec<Place>,
    /// The byte at which lines end, for assertions on lines.
    pub terminator: u8,
    /// Whether matches that end off a character boundary are passed over.
    pub passes_over: bool,
    /// For each place its first-byte set: 256 flags, or none if it has no set.
    pub heads: Vec<Vec<bool>>,
    /// Which cells of a thread's row the slots of groups have.
    pub columns: Columns,
    ghost runnable: { IsRunnable (places_of places.items) },
    ghost closed_over: { AreHeads (places_of places.items) (flags_in heads.items) },
    ghost lined_up: { AreColumns (places_of places.items) columns },
    ghost own: { OwnSlots (places_of places.items) },
}

impl Program {
    /// Returns the first-byte set of the place: for each of 256 bytes, whether a walk may go on
    /// from there over it, whatever assertions say. Returns None if the place has no set.
    #[inline(always)]
    #[tactic(auto, using(crate::proofs::HeadsLemmas::flags_tell))]
    pub fn head_table(&self, place: usize) -> Option<&[bool]>
        requires { place < length self.now.places.items }
        ensures { MatchOption result ⊤ (λ flags. TellsHeads
            (places_of self.now.places.items) place flags.now) }
    {
        let flags: &[bool] = &self.heads[place];
        if flags.is_empty() { None } else { Some(flags) }
    }

    /// Whether a walk may go on from the place over the byte, whatever assertions say. Returns None
    /// if the place has no first-byte set.
    #[inline(always)]
    pub fn may_go_on(&self, place: usize, byte: u8) -> Option<bool>
        requires { place < length self.now.places.items }
        ensures { MatchOption result ⊤ (λ goes. MatchBool goes
            (MayGoOn (places_of self.now.places.items) place byte)
            (¬ MayGoOn (places_of self.now.places.items) place byte)) }
    {
        let flags = self.head_table(place)?;
        Some(flags[byte as usize])
    }

    /// Returns the column of the slot that the place names: which cell of a thread's row it has.
    #[inline(always)]
    pub fn column(&self, place: usize) -> usize
        requires { place < length self.now.places.items }
        ensures { result ≡ column_at (places_of self.now.places.items) place }
    {
        self.columns.of_places[place]
    }

    /// Returns the slots of the pattern's groups. The column of one is its distance from the first.
    pub fn slots_of(&self, pattern: usize) -> SlotRange
        ensures { result ≡ range_of (places_of self.now.places.items) pattern }
    {
        range_at(&self.columns.ranges, pattern)
    }

    /// Returns how many columns the rows of threads have in a search that wants the first `slots`
    /// slots.
    pub fn width(&self, slots: usize) -> usize
        ensures { result ≡ row_width (places_of self.now.places.items) slots }
    {
        self.columns.widest.min(slots)
    }

    /// Returns about how many bytes the program has allocated, or `usize::MAX` if that is more: for
    /// its places and their ranges, their first-byte sets and their columns.
    pub fn memory_usage(&self) -> usize {
        place::bytes_of(&self.places)
            .saturating_add(heads::bytes_of(&self.heads))
            .saturating_add(self.columns.bytes())
    }
}
