//! Overlapping search: which patterns have a match. Its states are those for `MatchKind::All`,
//! which tell each pattern that ends at a position.
//!
//! A cell with `MET` needs a look: some pattern ends before its byte. Once each that does is in the
//! set, the cell is collected, and a run follows it without a further look. So a search looks at
//! most once at each cell while its states are kept.
ghost use Rattle.std.specs.Prelude.{◌≡◌, ◌<◌, ℕ, IsTrue, length};
ghost use Rattle.rc_pattern_set.specs.Sets.{Has};
ghost use Rattle.rc_determinize.specs.States.{is_match};
ghost use Rattle.rc_determinize.specs.Steps.{HasPlace};
ghost use Rattle.rc_dfa.specs.Automata.{machine_of};
ghost use Rattle.rc_dfa.specs.declared.automaton.Direction.TheVariants.{Overlapping};
ghost use Rattle.rc_lazy_dfa.specs.Overlaps.{AddsOnly, HasEach, IsAmong};

use crate::cells::UNKNOWN;
use crate::half::Half;
use crate::letters::{Letter, column};
use rc_dfa::automaton::{Automaton, Direction};
use rc_dfa::symbols::Alphabet;
use rc_pattern_set::sets::PatternSet;
use rc_table_search::cells::{MET, QUIT, has_died, row_of};
use rc_table_search::sides::{byte_beside, piece_on};
use rc_table_search::way::Forwards;
use rc_text::cursor::Cursor;
use rc_text::input::{Input, high};
use rc_text::types::{Anchored, PatternID};
use std::alloc::{AllocError, Global};

/// What an overlapping search keeps: its states, and which of their cells are collected.
#[derive(Drop)]
pub(crate) struct Ends {
    pub half: Half,
    /// The match places at which walks end at a position.
    pub places: Vec<usize>,
    /// Whether a cell is collected, by its index. Cells beyond are not.
    pub collected: Vec<bool>,
}

/// Where a search is between two bytes: its position, and the row of its state.
#[derive(Clone, Copy)]
struct Stand {
    at: usize,
    row: usize,
}

/// The outcome of a search over some bytes.
#[derive(Clone, Copy)]
pub(crate) enum Progress {
    /// It goes on after them, in this row.
    Through(usize),
    /// The set has each pattern with a match.
    Done,
    /// The cache or memory didn't suffice, or a byte may not be read.
    GivenUp,
}

/// Whether the set has all that it can hold.
fn is_full(set: &PatternSet) -> bool
    ensures { IsTrue result → (p : ℕ) → p < length set.now → Has set.now p }
{
    set.len() == set.capacity()
}

/// Inserts the patterns of these match places. Returns whether each has a number that a set may
/// have.
fn insert_all(automaton: &Automaton, places: &[usize], set: &mut PatternSet) -> bool
    requires { (q : ℕ) → HasPlace q places.now
        → IsTrue (is_match (machine_of automaton.now Overlapping).setting.places q) }
    ensures adds { AddsOnly (IsAmong (machine_of automaton.now Overlapping).setting.places
        places.now) set.old set.new }
    ensures each { IsTrue result → HasEach (IsAmong
        (machine_of automaton.now Overlapping).setting.places places.now) set.new }
{
    for place in places {
        let Some(pattern) = PatternID::new(automaton.pattern_at(*place)) else {
            return false;
        };
        set.insert(pattern);
    }
    true
}

impl Ends {
    ghost use Rattle.std.specs.Prelude.{◌≡◌, ◌⊎◌, ◌+◌, ◌≤◌, ℕ, Bool, IfOk, IsTrue, List, Some, false, true, length, max, slice_get, slice_range};
    ghost use Rattle.rc_text.specs.Text.{Keeps, high, low};
    ghost use Rattle.rc_determinize.specs.States.{State};
    ghost use Rattle.rc_dfa.specs.Automata.{machine_of};
    ghost use Rattle.rc_dfa.specs.Machine.{IsAsked};
    ghost use Rattle.rc_dfa.specs.Runs.{IsByte, MayRead, behind_at};
    ghost use Rattle.rc_dfa.specs.declared.automaton.Direction.TheVariants.{Overlapping};
    ghost use Rattle.rc_program.specs.Sought.{text_of};
    ghost use Rattle.rc_table_search.specs.Ways.{IsNext};
    ghost use Rattle.rc_lazy_dfa.specs.Cells.{column_of};
    ghost use Rattle.rc_lazy_dfa.specs.Stores.{Frame, IsRow, frame_of, minimum_of};
    ghost use Rattle.rc_lazy_dfa.specs.Halves.{IsHalf, IsPlace};
    ghost use Rattle.rc_lazy_dfa.specs.declared.letters.Letter.TheVariants.{Alone};
    ghost use Rattle.rc_lazy_dfa.specs.Overlaps.{AddsOnly, EndsAt, HasEach, IsLeg, IsMet, IsOverlap, IsTold, IsUnderway, Overlap};

    /// No states yet, with this capacity in bytes. `Err` means out of memory.
    pub(crate) fn new(
        alloc: Global,
        automaton: &Automaton,
        capacity: usize,
    ) -> Result<Ends, AllocError>
        requires { minimum_of (frame_of automaton.now Overlapping) ≤ capacity }
        ensures { IfOk result (λ e. IsHalf (frame_of automaton.now Overlapping) e.half) }
    {
        let half = Half::new(alloc, automaton, Direction::Overlapping, capacity)?;
        Ok(Ends {
            half,
            places: Vec::new(alloc),
            collected: Vec::new(alloc),
        })
    }

    /// Returns how many bytes it takes, or `usize::MAX` if that is more.
    pub(crate) fn memory_usage(&self) -> usize {
        let places = self.places.capacity().saturating_mul(8);
        self.half
            .store
            .used
            .saturating_add(self.collected.capacity())
            .saturating_add(places)
    }

    /// Whether the cell of the index is collected.
    #[inline(always)]
    fn is_collected(&self, index: usize) -> bool
        ensures { IsTrue result → slice_get self.now.collected.items index ≡ Some true }
    {
        index < self.collected.len() && self.collected[index]
    }

    /// Runs over a piece up to a byte whose cell needs a look. Returns where it is then.
    #[inline(never)]
    fn run(&self, classes: &[u8], piece: &[u8], from: Stand) -> Stand
        ghost o: { Overlap }
        requires search { IsOverlap o }
        requires underway { (set : List Bool) × IsUnderway o self.now from.at from.row set }
        requires classes { classes.now ≡ o.frame.classes }
        requires piece { piece.now
            ≡ slice_range o.seen.content from.at (from.at + length piece.now) }
        requires within { from.at + length piece.now ≤ o.bound }
        requires fits { from.at + length piece.now ≤ usize.MAX }
        ensures read { (from.at ≤ result.at) × (result.at ≤ from.at + length piece.now) }
        ensures underway { (set : List Bool) → IsUnderway o self.now from.at from.row set
            → IsUnderway o self.now result.at result.row set }
    {
        let cells = self.half.store.cells.as_slice();
        let mut row = from.row;
        let mut place = 0;
        while place < piece.len() {
            let index = row + classes[piece[place] as usize] as usize;
            let cell = cells[index];
            if cell < UNKNOWN {
                row = cell;
            } else if cell >= MET && cell - MET < UNKNOWN && self.is_collected(index) {
                row = cell - MET;
            } else {
                let at = from.at + place;
                return Stand { at, row };
            }
            place += 1;
        }
        let at = from.at + place;
        Stand { at, row }
    }

    /// Inserts each pattern that ends at the state of the row if this byte is ahead, or none. `Err`
    /// means out of memory; then some may be missing.
    fn insert(
        &mut self,
        automaton: &Automaton,
        row: usize,
        beside: Option<u8>,
        set: &mut PatternSet,
    ) -> Result<(), AllocError>
        ghost f: { Frame }
        requires same { frame_of automaton.now Overlapping ≡ f }
        requires half { IsHalf f self.old.half }
        requires row { IsPlace f self.old.half.store row }
        ensures half { IsHalf f self.new.half }
        ensures store { self.new.half.store ≡ self.old.half.store }
        ensures collected { self.new.collected ≡ self.old.collected }
        ensures adds { (s : State) → IsRow f.width self.old.half.store.states row s
            → AddsOnly (EndsAt f.machine s beside) set.old set.new }
        ensures each { IfOk result (λ _. (s : State)
            → IsRow f.width self.old.half.store.states row s
            → HasEach (EndsAt f.machine s beside) set.new) }
    {
        let half = &mut self.half;
        let from = half.store.states.get(row / half.store.width);
        automaton.ends_here(&mut half.scratch, from, beside, &mut self.places)?;
        if !insert_all(automaton, &self.places, set) {
            return Err(AllocError);
        }
        Ok(())
    }

    /// Counts the cell of the row and the byte as collected. `Err` means out of memory; then it
    /// isn't.
    fn collect(&mut self, automaton: &Automaton, row: usize, byte: u8) -> Result<(), AllocError>
        ghost f: { Frame }
        requires same { frame_of automaton.now Overlapping ≡ f }
        requires half { IsHalf f self.old.half }
        requires row { IsPlace f self.old.half.store row }
        ensures half { self.new.half ≡ self.old.half }
        ensures short { length self.new.collected.items ≤ max (length self.old.collected.items)
            (row + column_of f.classes f.width (Alone (Some byte)) + 1) }
        ensures collected { (index : ℕ) → slice_get self.new.collected.items index ≡ Some true
            → (slice_get self.old.collected.items index ≡ Some true)
            ⊎ (index ≡ row + column_of f.classes f.width (Alone (Some byte))) }
    {
        let letter = Letter::Alone(Some(byte));
        let index = row + column(automaton, self.half.store.width, letter);
        if index >= self.collected.len() {
            self.collected.resize(index + 1, false)?;
        }
        self.collected[index] = true;
        Ok(())
    }

    /// Reads the byte, whatever its cell.
    fn step(
        &mut self,
        automaton: &Automaton,
        stand: Stand,
        byte: u8,
        set: &mut PatternSet,
    ) -> Progress
        ghost o: { Overlap }
        requires same { frame_of automaton.now Overlapping ≡ o.frame }
        requires search { IsOverlap o }
        requires underway { IsUnderway o self.old stand.at stand.row set.old }
        requires next { IsNext false o.seen o.bound stand.at byte }
        ensures { IsLeg o self.new (stand.at + 1) result set.new }
    {
        if !automaton.may_read(Some(byte)) {
            return Progress::GivenUp;
        }
        let Ok(()) = self.insert(automaton, stand.row, Some(byte), set) else {
            return Progress::GivenUp;
        };
        if is_full(set) {
            return Progress::Done;
        }
        if self.collect(automaton, stand.row, byte).is_err() {
            return Progress::GivenUp;
        }
        self.half.serve(1);
        let letter = Letter::Alone(Some(byte));
        let Ok(named) = self
            .half
            .follow(automaton, Direction::Overlapping, stand.row, letter)
        else {
            return Progress::GivenUp;
        };
        if !named.kept {
            self.collected.clear();
        }
        if named.cell == QUIT {
            return Progress::GivenUp;
        }
        if has_died(named.cell) {
            return Progress::Done;
        }
        Progress::Through(row_of(named.cell))
    }

    /// Begins a search, with this byte before its start, or none.
    fn begin(&mut self, automaton: &Automaton, anchored: &Anchored, beside: Option<u8>) -> Progress
        ghost o: { Overlap }
        requires same { frame_of automaton.now Overlapping ≡ o.frame }
        requires search { IsOverlap o }
        requires half { IsHalf o.frame self.old.half }
        requires anchored { anchored.now ≡ o.anchored }
        requires beside { beside ≡ behind_at (text_of 0 o.seen) o.from }
        requires small { IsByte beside }
        ensures { IsLeg o self.new o.from result o.old }
    {
        self.collected.clear();
        let begun = self.half.begin(
            automaton,
            Direction::Overlapping,
            anchored,
            Letter::Alone(beside),
        );
        let Ok(cell) = begun else {
            return Progress::GivenUp;
        };
        if cell == QUIT {
            return Progress::GivenUp;
        }
        if has_died(cell) {
            return Progress::Done;
        }
        Progress::Through(row_of(cell))
    }

    /// Runs over the chunks from the position `from` to `end`.
    fn cross<C: Cursor>(
        &mut self,
        automaton: &Automaton,
        input: &mut Input<C>,
        from: usize,
        end: usize,
        begin: usize,
        set: &mut PatternSet,
    ) -> Progress
        ghost o: { Overlap }
        requires same { frame_of automaton.now Overlapping ≡ o.frame }
        requires search { IsOverlap o }
        requires underway { IsUnderway o self.old from begin set.old }
        requires seen { Keeps o.seen input.old }
        requires end { end ≡ o.bound }
        ensures keeps { Keeps input.old input.new }
        ensures leg { IsLeg o self.new end result set.new }
    {
        let classes = automaton.classes();
        let mut row = begin;
        let mut at = from;
        while at < end {
            let piece = piece_on::<Forwards, C>(input, at, end);
            let stand = self.run(classes, piece, Stand { at, row });
            let place = stand.at - at;
            self.half.serve(place);
            at = stand.at;
            row = stand.row;
            if place < piece.len() {
                match self.step(automaton, stand, piece[place], set) {
                    Progress::Through(to) => {
                        row = to;
                        at += 1;
                    }
                    over => return over,
                }
            }
        }
        Progress::Through(row)
    }

    /// Ends a search that came to its bound. The byte beyond, or the end of what the search sees,
    /// decides what ends there. Returns whether the set has each pattern with a match.
    fn finish<C: Cursor>(
        &mut self,
        automaton: &Automaton,
        input: &mut Input<C>,
        end: usize,
        row: usize,
        set: &mut PatternSet,
    ) -> bool
        ghost o: { Overlap }
        requires same { frame_of automaton.now Overlapping ≡ o.frame }
        requires search { IsOverlap o }
        requires underway { IsUnderway o self.old end row set.old }
        requires seen { Keeps o.seen input.old }
        requires end { end ≡ o.bound }
        ensures keeps { Keeps input.old input.new }
        ensures told { IsTold o self.new result set.new }
    {
        let beside = byte_beside(input, end, false);
        if !automaton.may_read(beside) {
            return false;
        }
        let Ok(()) = self.insert(automaton, row, beside, set) else {
            return false;
        };
        true
    }

    /// Searches from the position `from` up to `end`, and inserts what it meets. Returns whether
    /// the set has each pattern with a match.
    fn go<C: Cursor>(
        &mut self,
        automaton: &Automaton,
        input: &mut Input<C>,
        anchored: &Anchored,
        from: usize,
        end: usize,
        set: &mut PatternSet,
    ) -> bool
        ghost o: { Overlap }
        requires same { frame_of automaton.now Overlapping ≡ o.frame }
        requires search { IsOverlap o }
        requires half { IsHalf o.frame self.old.half }
        requires seen { o.seen ≡ input.old }
        requires anchored { anchored.now ≡ o.anchored }
        requires from { from ≡ o.from }
        requires end { end ≡ o.bound }
        requires set { set.old ≡ o.old }
        ensures keeps { Keeps input.old input.new }
        ensures told { IsTold o self.new result set.new }
    {
        let beside = byte_beside(input, from, true);
        let row = match self.begin(automaton, anchored, beside) {
            Progress::Through(row) => row,
            Progress::Done => return true,
            Progress::GivenUp => return false,
        };
        match self.cross(automaton, input, from, end, row, set) {
            Progress::Through(row) => self.finish(automaton, input, end, row, set),
            Progress::Done => true,
            Progress::GivenUp => false,
        }
    }

    /// Inserts each pattern that has a match from the position `from` on, up to the end of the
    /// input's bounds, as far as the set can hold it. Returns false if some may be missing: the
    /// capacity or memory doesn't suffice, a byte may not be read, or the automaton reads symbols.
    pub(crate) fn search<C: Cursor>(
        &mut self,
        automaton: &Automaton,
        input: &mut Input<C>,
        anchored: &Anchored,
        from: usize,
        set: &mut PatternSet,
    ) -> bool
        requires half { IsHalf (frame_of automaton.now Overlapping) self.old.half }
        requires asked { IsAsked (machine_of automaton.now Overlapping) anchored.now }
        requires low { low input.old ≤ from }
        requires high { from ≤ high input.old }
        ensures keeps { Keeps input.old input.new }
        ensures half { IsHalf (frame_of automaton.now Overlapping) self.new.half }
        ensures adds { AddsOnly (IsMet (machine_of automaton.now Overlapping)
            (text_of (machine_of automaton.now Overlapping).setting.terminator input.old)
            (high input.old) from anchored.now) set.old set.new }
        ensures all { IsTrue result → HasEach (IsMet (machine_of automaton.now Overlapping)
            (text_of (machine_of automaton.now Overlapping).setting.terminator input.old)
            (high input.old) from anchored.now) set.new }
    {
        match automaton.alphabet() {
            Alphabet::Symbols => false,
            Alphabet::Bytes => {
                let end = high(input);
                self.go(automaton, input, anchored, from, end, set)
            }
        }
    }
}
