//! Reverse determinization: the step from a state over one byte, against the direction of the
//! edges.
ghost use Rattle.std.specs.Prelude.{ℕ, ◌≡◌, ◌↔◌, ◌<◌, ◌≤◌, ◌++◌, [], ◌∷◌, IfOk, List, length, map, Some, None, nat_eq, if◌then◌else◌};
ghost use Rattle.rc_program.specs.Laws.{IsClosed, targets};
ghost use Rattle.rc_program.specs.Program.{Place};
ghost use Rattle.rc_utf8.specs.Places.{way_of, place_of, places_of};
ghost use Rattle.rc_determinize.specs.Places.{state_of};
ghost use Rattle.rc_determinize.specs.Steps.{HasPlace, AreBelow};
ghost use Rattle.rc_determinize.specs.Machine.{add_all};
ghost use Rattle.rc_determinize.specs.Backward.{IsPriorOver, IsLastBeside, LeadsBy, still_out, ReadsTo, IsFirstRoot};
ghost use Rattle.rc_determinize.specs.Reversed.{passes, reads_over, sources, into_at, range_edges, branch_edges, edges_from, IsReversed, AreEdges, AreInside};
ghost use Rattle.rc_utf8.specs.declared.place.ByteWay.{ByteWay};
ghost use Rattle.rc_pattern.specs.Meaning.{byte_range};

use crate::open::{add, is_match};
use crate::scratch::Scratch;
use crate::sides::{Seen, Sides, holds_by};
use crate::sparse_set::SparseSet;
use crate::state::State;
use rc_pattern::hir::{ClassBytesRange, Look};
use rc_utf8::place::{BytePlace, ByteWay};
use std::alloc::{AllocError, Global};

/// The condition of an edge.
#[derive(Clone, Copy)]
pub enum Over {
    /// Nothing: an epsilon edge.
    Nothing,
    /// Nothing but that the assertion holds.
    Where(Look),
    /// A byte of this range, both ends included.
    Within(u8, u8),
}

/// An edge, stored at the place to which it leads.
#[derive(Clone, Copy)]
pub struct Source {
    /// The place from which it leads.
    pub from: usize,
    pub over: Over,
}

/// The edges of a program, by the places to which they lead.
#[derive(Drop)]
pub struct Reversed {
    /// At the index of each place, the edges that lead to it.
    pub into: Vec<Vec<Source>>,
}

impl Reversed {
    /// Stores one more edge, which leads to the place `to`.
    fn keep(&mut self, to: usize, from: usize, over: Over) -> Result<(), AllocError>
        requires { to < length self.old.into.items }
        ensures len { length self.new.into.items ≡ length self.old.into.items }
        ensures kept { IfOk result (λ _. (p : ℕ) → into_at self.new p
            ≡ into_at self.old p ++ (if nat_eq to p then record { from = from; over = over }
            ∷ [] else [])) }
    {
        self.into[to].push(Source { from, over })?;
        Ok(())
    }

    /// Stores an edge to the place `to` for each range.
    fn keep_ranges(
        &mut self,
        to: usize,
        from: usize,
        ranges: &Vec<ClassBytesRange>,
    ) -> Result<(), AllocError>
        requires { to < length self.old.into.items }
        ensures len { length self.new.into.items ≡ length self.old.into.items }
        ensures kept { IfOk result (λ _. (p : ℕ)
            → into_at self.new p ≡ into_at self.old p
            ++ range_edges p from to (map byte_range ranges.now.items)) }
    {
        for range in ranges {
            self.keep(to, from, Over::Within(range.start, range.end))?;
        }
        Ok(())
    }

    /// Stores an edge for each way.
    fn keep_ways(&mut self, from: usize, ways: &Vec<ByteWay>) -> Result<(), AllocError>
        requires { AreBelow (length self.old.into.items)
            (map (λ (w : ByteWay). w.next) ways.now.items) }
        ensures len { length self.new.into.items ≡ length self.old.into.items }
        ensures kept { IfOk result (λ _. (p : ℕ)
            → into_at self.new p ≡ into_at self.old p
            ++ branch_edges p from (map way_of ways.now.items)) }
    {
        for way in ways {
            self.keep(way.next, from, Over::Within(way.first, way.last))?;
        }
        Ok(())
    }

    /// Stores the edges of the place of index `from`.
    fn keep_place(&mut self, from: usize, place: &BytePlace) -> Result<(), AllocError>
        requires { AreBelow (length self.old.into.items) (targets (place_of place.now)) }
        ensures len { length self.new.into.items ≡ length self.old.into.items }
        ensures kept { IfOk result (λ _. (p : ℕ)
            → into_at self.new p ≡ into_at self.old p ++ edges_from p from (place_of place.now)) }
    {
        match place {
            BytePlace::Choice(first, second) => {
                self.keep(*first, from, Over::Nothing)?;
                self.keep(*second, from, Over::Nothing)
            }
            BytePlace::Pass(next) => self.keep(*next, from, Over::Nothing),
            BytePlace::Dead => Ok(()),
            BytePlace::Byte(byte, next) => self.keep(*next, from, Over::Within(*byte, *byte)),
            BytePlace::Bytes(ranges, next) => self.keep_ranges(*next, from, ranges),
            BytePlace::Branch(ways) => self.keep_ways(from, ways),
            BytePlace::Guard(look, next) => self.keep(*next, from, Over::Where(*look)),
            BytePlace::Slot(_, next) => self.keep(*next, from, Over::Nothing),
            BytePlace::Accept(_) => Ok(()),
        }
    }

    /// `len` places without edges.
    fn empty(alloc: Global, len: usize) -> Result<Reversed, AllocError>
        ensures len { IfOk result (λ r. length r.into.items ≡ len) }
        ensures none { IfOk result (λ r. (p : ℕ) → into_at r p ≡ []) }
    {
        let mut into = Vec::new(alloc);
        for _ in 0..len {
            into.push(Vec::new(alloc))?;
        }
        Ok(Reversed { into })
    }

    /// The edges of a program, by the places to which they lead. `Err` means out of memory.
    pub fn new(alloc: Global, places: &[BytePlace]) -> Result<Reversed, AllocError>
        requires closed { IsClosed (places_of places.now) }
        ensures reversed { IfOk result (λ r. IsReversed (places_of places.now) r) }
        ensures edges { IfOk result (λ r. AreEdges (places_of places.now) r) }
    {
        let mut reversed = Reversed::empty(alloc, places.len())?;
        for i in 0..places.len() {
            reversed.keep_place(i, &places[i])?;
        }
        Ok(reversed)
    }
}

/// Whether the edge is followed without reading.
fn passes(behind: Seen, ahead: Seen, over: Over) -> bool
    ensures { result ≡ passes behind ahead over }
{
    match over {
        Over::Nothing => true,
        Over::Where(look) => holds_by(behind, ahead, look),
        Over::Within(_, _) => false,
    }
}

/// Whether the edge is followed over the byte.
fn reads_over(byte: Option<u8>, over: Over) -> bool
    ensures { result ≡ reads_over byte over }
{
    match (byte, over) {
        (Some(found), Over::Within(first, last)) => first <= found && found <= last,
        _ => false,
    }
}

/// Adds the places from which edges come that are followed without reading.
fn add_still(set: &mut SparseSet, edges: &Vec<Source>, behind: Seen, ahead: Seen)
    requires { AreBelow set.old.capacity (map (λ (e : Source). e.from) edges.now.items) }
    ensures { set.new ≡ record set.old {
      items = add_all set.old.items
          (sources (passes behind ahead) edges.now.items);
    } }
{
    for edge in edges {
        if passes(behind, ahead, edge.over) {
            add(set, edge.from);
        }
    }
}

/// Adds the places from which edges come that are followed over the byte.
fn add_reading(set: &mut SparseSet, edges: &Vec<Source>, byte: Option<u8>)
    requires { AreBelow set.old.capacity (map (λ (e : Source). e.from) edges.now.items) }
    ensures { set.new ≡ record set.old {
      items = add_all set.old.items
          (sources (reads_over byte) edges.now.items);
    } }
{
    for edge in edges {
        if reads_over(byte, edge.over) {
            add(set, edge.from);
        }
    }
}

/// Adds the places of a list.
fn add_list(set: &mut SparseSet, list: &[usize])
    requires { AreBelow set.old.capacity list.now }
    ensures { set.new ≡ record set.old { items = add_all set.old.items list.now } }
{
    for place in list {
        add(set, *place);
    }
}

/// Returns the index of the first root that is in the set.
fn first_root(set: &SparseSet, roots: &[usize]) -> Option<usize>
    requires { AreBelow set.now.capacity roots.now }
    ensures { IsFirstRoot (λ q. HasPlace q set.now.items) roots.now result }
{
    for i in 0..roots.len() {
        if set.contains(roots[i]) {
            return Some(i);
        }
    }
    None
}

/// Returns the edges that lead to the place.
fn edges_into(reversed: &Reversed, place: usize) -> &Vec<Source>
    requires { place < length reversed.now.into.items }
    ensures { result.now.items ≡ into_at reversed.now place }
{
    &reversed.into[place]
}

/// Follows epsilon edges backwards from the places in `entered`, until no more are found. Adds to
/// `listed` the places from which edges over the byte `before` lead to one of them.
fn go_back(
    reversed: &Reversed,
    behind: Seen,
    ahead: Seen,
    before: Option<u8>,
    entered: &mut SparseSet,
    listed: &mut SparseSet,
)
    requires edges { AreInside reversed.now }
    requires entered { (entered.old.capacity ≡ length reversed.now.into.items)
        × AreBelow (length reversed.now.into.items) entered.old.items }
    requires listed { listed.old
        ≡ record { capacity = length reversed.now.into.items; items = [] } }
    ensures sizes { (entered.new.capacity ≡ length reversed.now.into.items)
        × (listed.new.capacity ≡ length reversed.now.into.items) }
    ensures entered { (places : List Place) → IsReversed places reversed.now → (q : ℕ)
        → HasPlace q entered.new.items
        ↔ LeadsBy (still_out places behind ahead) entered.old.items q }
    ensures listed { (places : List Place) → IsReversed places reversed.now → (q : ℕ)
        → HasPlace q listed.new.items
        ↔ ((b : ℕ) × (before ≡ Some b) × (p : ℕ) × ReadsTo places b q p
        × HasPlace p entered.new.items) }
{
    let mut index = 0;
    'places: while index < entered.len() {
        let edges = edges_into(reversed, entered.get(index));
        add_still(entered, edges, behind, ahead);
        add_reading(listed, edges, before);
        index += 1;
    }
}

/// Makes `to` the state to which a byte leads back from a state, by what is told of its sides. If
/// there is none, it is the state at the beginning of what the search sees. The `matched` of `to` is
/// the index of the first root from which a walk leads to the end, from the position after that
/// byte. `reversed` has the program's edges.
///
/// Nothing is allocated but what the list of `to` grows by. `Err` means out of memory; then `to` is
/// some state.
pub fn prior(
    reversed: &Reversed,
    roots: &[usize],
    scratch: &mut Scratch,
    from: &State,
    sides: Sides,
    to: &mut State,
) -> Result<(), AllocError>
    requires edges { AreInside reversed.now }
    requires roots { AreBelow (length reversed.now.into.items) roots.now }
    requires below { AreBelow (length reversed.now.into.items) from.now.list.items }
    requires scratch { scratch.old ≡ length reversed.now.into.items }
    ensures scratch { scratch.new ≡ scratch.old }
    ensures prior { IfOk result (λ _. (places : List Place) → IsReversed places reversed.now
        → IsPriorOver places roots.now (state_of from.now) sides (state_of to.new)) }
{
    scratch.entered.clear();
    scratch.listed.clear();
    add_list(&mut scratch.entered, &from.list);
    go_back(
        reversed,
        sides.near,
        from.beside,
        sides.byte,
        &mut scratch.entered,
        &mut scratch.listed,
    );
    scratch.listed.rise_to(&mut to.list)?;
    to.beside = sides.far;
    to.goes_on = false;
    to.matched = first_root(&scratch.entered, roots);
    Ok(())
}

/// Makes `to` the state at the end of a match: all match places. `beside` has the facts about the
/// side after that position. `Err` means out of memory; then `to` is some state.
pub fn last(places: &[BytePlace], beside: Seen, to: &mut State) -> Result<(), AllocError>
    ensures { IfOk result (λ _. IsLastBeside (places_of places.now) beside (state_of to.new)) }
{
    to.list.clear();
    for i in 0..places.len() {
        if is_match(&places[i]) {
            to.list.push(i)?;
        }
    }
    to.beside = beside;
    to.goes_on = false;
    to.matched = None;
    Ok(())
}
