//! Backtracking: searches that try the ways out of each state in order, and go back if none leads
//! on.

ghost use Rattle.std.specs.Prelude.{◌≡◌, ◌≤◌, ◌<◌, ◌||◌, IfErr, IfOk, IfSome, MatchOption, Some, None, length, map, min, not, replicate, slice_set, if◌then◌else◌};
ghost use Rattle.std.specs.List.{range_with_len};
ghost use Rattle.std.specs.Option.{option_map};
ghost use Rattle.rc_text.specs.Text.{Keeps, high, is_boundary, low};
ghost use Rattle.rc_text.specs.Found.{Found};
ghost use Rattle.rc_program.specs.Program.{accept, place_at};
ghost use Rattle.rc_program.specs.Answer.{answer, chosen, groups, is_anchored, last_of, last_visit, only, pattern_at};
ghost use Rattle.rc_program.specs.Sought.{anchoring_of};
ghost use Rattle.rc_program.specs.Places.{places_of};
ghost use Rattle.rc_program.specs.Programs.{search_of};
ghost use Rattle.oracle_walker.specs.Frames.{pair_of, slot_name, walk_of};
ghost use Rattle.oracle_walker.specs.Found.{chosen_of};

use crate::frames::{Frame, first_walk};
use rc_program::place::Place;
use rc_program::program::Program;
use rc_text::cursor::Cursor;
use rc_text::input::{Input, high, is_boundary_at, low, move_to};
use rc_text::types::{Anchored, Match, PatternID, Span};
use std::alloc::{AllocError, Global};

/// The walk that a search chose, and where it starts, in bytes.
#[derive(Drop)]
struct Walk {
    start: usize,
    frames: Vec<Frame>,
}

/// The only pattern allowed; `None` allows all.
fn only_of(anchored: Anchored) -> Option<usize>
    ensures { result ≡ only (anchoring_of anchored) }
{
    match anchored {
        Anchored::No | Anchored::Yes => None,
        Anchored::Pattern(pattern) => Some(pattern.as_usize()),
    }
}

/// Whether a walk may only begin at the least start.
fn is_anchored(anchored: Anchored) -> bool
    ensures { result ≡ is_anchored (anchoring_of anchored) }
{
    match anchored {
        Anchored::No => false,
        Anchored::Yes | Anchored::Pattern(_) => true,
    }
}

/// The last start to try.
fn last_start(lo: usize, hi: usize, is_anchored: bool) -> usize
    ensures { result ≡ (if is_anchored then min lo hi else hi) }
{
    if is_anchored { lo.min(hi) } else { hi }
}

/// Where the walk ends, as a place and a position.
fn end_of(walk: &Vec<Frame>) -> (usize, usize)
    ensures { result ≡ last_of (walk_of walk.now) }
{
    match walk.last() {
        None => (0, 0),
        Some(frame) => (frame.place, frame.position),
    }
}

/// Whether the walk is allowed: if matches may be passed over, this one isn't.
fn allows<C: Cursor>(input: &mut Input<C>, passes_over: bool, walk: &Vec<Frame>) -> bool
    ensures keeps { Keeps input.old input.new }
    ensures value { result ≡ (not passes_over
        || is_boundary input.old.content (last_of (walk_of walk.now)).1) }
{
    if !passes_over {
        return true;
    }
    let (_, end) = end_of(walk);
    is_boundary_at(input, end)
}

/// Returns the first walk that a search chooses.
fn find_walk<C: Cursor>(
    alloc: Global,
    input: &mut Input<C>,
    program: &Program,
) -> Result<Option<Walk>, AllocError>
    ensures keeps { Keeps input.old input.new }
    ensures found { IfOk result (λ w. option_map chosen_of w
        ≡ chosen (search_of program.now input.old)) }
{
    let only = only_of(input.get_anchored());
    let is_anchored = is_anchored(input.get_anchored());
    let lo = low(input);
    let hi = high(input);
    move_to(input, lo); // the first byte to be read
    let mut frames = Vec::new(alloc);
    let mut marks = vec![in alloc; None; program.places.len()]?;
    for start in lo..last_start(lo, hi, is_anchored) + 1 {
        if first_walk(input, &mut frames, &mut marks, program, only, hi, start)? {
            if allows(input, program.passes_over, &frames) {
                return Ok(Some(Walk { start, frames }));
            }
        }
    }
    Ok(None)
}

/// The pattern of a match place.
fn pattern_of(program: &Program, place: usize) -> PatternID
    ensures { result ≡ pattern_at (place_at (places_of program.now.places.items) place) }
{
    match program.places.get(place) {
        Some(Place::Accept(pattern)) => match PatternID::new(*pattern) {
            Some(id) => id,
            None => PatternID::ZERO,
        },
        Some(
            Place::Choice(_, _)
            | Place::Pass(_)
            | Place::Dead
            | Place::Byte(_, _)
            | Place::Bytes(_, _)
            | Place::Scalar(_, _)
            | Place::Guard(_, _)
            | Place::Slot(_, _),
        )
        | None => PatternID::ZERO,
    }
}

/// Returns the match that a search of the input finds. The earliest flag is not read. An `Err`
/// means out of memory.
pub fn find<C: Cursor>(
    alloc: Global,
    input: &mut Input<C>,
    program: &Program,
) -> Result<Option<Match>, AllocError>
    ensures keeps { Keeps input.old input.new }
    ensures found { IfOk result (λ m. m ≡ answer (search_of program.now input.old)) }
    ensures within { IfOk result (λ m. IfSome m
        (λ f. (low input.old ≤ f.start) × (f.start ≤ f.end) × (f.end ≤ high input.old))) }
{
    match find_walk(alloc, input, program)? {
        None => Ok(None),
        Some(walk) => {
            let (place, end) = end_of(&walk.frames);
            let span = Span {
                start: walk.start,
                end,
            };
            Ok(Some(Match::new(pattern_of(program, place), span)))
        }
    }
}

/// Writes the position into the slot, if there is such a slot.
fn put(slots: &mut [Option<usize>], slot: usize, position: usize)
    ensures { slots.new ≡ slice_set slots.old slot (Some position) }
{
    if slot < slots.len() {
        slots[slot] = Some(position);
    }
}

/// The slot that a place names.
fn slot_at(program: &Program, place: usize) -> Option<usize>
    ensures { result ≡ slot_name (place_at (places_of program.now.places.items) place) }
{
    match program.places.get(place) {
        Some(Place::Slot(slot, _)) => Some(*slot),
        Some(
            Place::Choice(_, _)
            | Place::Pass(_)
            | Place::Dead
            | Place::Byte(_, _)
            | Place::Bytes(_, _)
            | Place::Scalar(_, _)
            | Place::Guard(_, _)
            | Place::Accept(_),
        )
        | None => None,
    }
}

/// Clears the slots.
fn clear(slots: &mut [Option<usize>])
    ensures { slots.new ≡ replicate (length slots.old) None }
{
    slots.fill(None);
}

/// Writes to each slot the position of the walk's last visit to a place that names it, and clears
/// the others.
fn note_visits(program: &Program, frames: &Vec<Frame>, slots: &mut [Option<usize>])
    ensures { slots.new ≡ map (λ k. last_visit (places_of program.now.places.items) k
        (walk_of frames.now)) (range_with_len 0 (length slots.old)) }
{
    clear(slots);
    'visits: for frame in frames {
        if let Some(slot) = slot_at(program, frame.place) {
            put(slots, slot, frame.position);
        }
    }
}

/// Returns the pattern that a search of the input finds, and writes as many of its slots as there
/// is room for. Without a match the slots stay. The earliest flag is not read. An `Err` means out
/// of memory, and the slots stay then.
pub fn find_slots<C: Cursor>(
    alloc: Global,
    input: &mut Input<C>,
    program: &Program,
    slots: &mut [Option<usize>],
) -> Result<Option<PatternID>, AllocError>
    ensures keeps { Keeps input.old input.new }
    ensures pattern { IfOk result (λ p. p
        ≡ option_map (λ (m : Found). m.pattern) (answer (search_of program.now input.old))) }
    ensures long { length slots.new ≡ length slots.old }
    ensures slots { IfOk result (λ p. MatchOption p
        (slots.new ≡ slots.old)
        (λ _. Some slots.new ≡ groups (search_of program.now input.old) (length slots.old))) }
    ensures kept { IfErr result (λ _. slots.new ≡ slots.old) }
{
    match find_walk(alloc, input, program)? {
        None => Ok(None),
        Some(walk) => {
            let (place, end) = end_of(&walk.frames);
            let pattern = pattern_of(program, place);
            let own = 2 * pattern.as_usize();
            note_visits(program, &walk.frames, slots);
            put(slots, own + 1, end);
            put(slots, own, walk.start);
            Ok(Some(pattern))
        }
    }
}
