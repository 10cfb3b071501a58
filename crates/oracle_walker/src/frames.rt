//! Backtracking stack: the first walk from a start.
ghost use Rattle.std.specs.Prelude.{◌≡◌, ◌≢◌, ◌<◌, ◌≤◌, [], ◌∷◌, ◌++◌, IfOk, IsTrue, Some, None, not, length, reverse, slice_index_or};
ghost use Rattle.rc_text.specs.Text.{Keeps, high};
ghost use Rattle.rc_walks.specs.Walks.{IsFirstWalk, HasNoWalk};
ghost use Rattle.rc_program.specs.Sought.{text_of};
ghost use Rattle.rc_program.specs.Laws.{IsClosed};
ghost use Rattle.rc_program.specs.Program.{ways, place_at, is_match_place};
ghost use Rattle.rc_program.specs.Places.{places_of};
ghost use Rattle.oracle_walker.specs.Frames.{Ends, IsMarked, fresh_frame, walk_of};

use crate::ways::way;
use rc_program::place::Place;
use rc_program::program::Program;
use rc_text::cursor::Cursor;
use rc_text::input::Input;
use std::alloc::AllocError;

/// A pair of a place and a position on the current walk, and how many of its ways out were tried.
#[derive(Clone, Copy)]
pub struct Frame {
    /// The index of its place.
    pub place: usize,
    /// Its position, in bytes of the content.
    pub position: usize,
    /// The number of its ways out that were tried.
    pub tried: usize,
    /// The mark of its place before the frame was pushed.
    pub before: Option<usize>,
}

/// Whether the place is a match place of an allowed pattern; `None` allows all.
fn is_match(program: &Program, place: usize, only: Option<usize>) -> bool
    requires { place < length program.now.places.items }
    ensures { result ≡ is_match_place only (place_at (places_of program.now.places.items) place) }
{
    match &program.places[place] {
        Place::Accept(pattern) => match only {
            Some(only) => *pattern == only,
            None => true,
        },
        Place::Choice(_, _)
        | Place::Pass(_)
        | Place::Dead
        | Place::Byte(_, _)
        | Place::Bytes(_, _)
        | Place::Scalar(_, _)
        | Place::Guard(_, _)
        | Place::Slot(_, _) => false,
    }
}

/// Whether the pair is on the stack: its place is marked with its position.
fn is_on(marks: &[Option<usize>], place: usize, position: usize) -> bool
    requires { place < length marks.now }
    ensures on { IsTrue result → slice_index_or marks.now place None ≡ Some position }
    ensures off { IsTrue (not result) → slice_index_or marks.now place None ≢ Some position }
{
    match marks[place] {
        Some(mark) => mark == position,
        None => false,
    }
}

/// Pushes a pair, and marks its place.
fn enter(
    stack: &mut Vec<Frame>,
    marks: &mut [Option<usize>],
    place: usize,
    position: usize,
) -> Result<(), AllocError>
    requires inside { place < length marks.now }
    requires marked { IsMarked (length marks.old) marks.old (reverse stack.old.items) }
    ensures pushed { IfOk result (λ _. stack.new.items
        ≡ stack.old.items ++ fresh_frame place position (slice_index_or marks.old place None)
        ∷ []) }
    ensures marked { IfOk result (λ _. IsMarked (length marks.old) marks.new
        (reverse stack.new.items)) }
{
    stack.push(Frame {
        place,
        position,
        tried: 0,
        before: marks[place],
    })?;
    marks[place] = Some(position);
    Ok(())
}

/// Pops all frames, and removes their marks.
fn unwind(stack: &mut Vec<Frame>, marks: &mut [Option<usize>])
    requires marked { IsMarked (length marks.old) marks.old (reverse stack.old.items) }
    ensures none { stack.new.items ≡ [] }
    ensures marked { IsMarked (length marks.old) marks.new [] }
{
    'down: while let Some(frame) = stack.pop() {
        marks[frame.place] = frame.before;
    }
}

/// Whether a walk leads on from `start`. If one does, the stack ends with the frames of the first
/// of them. Each place on the stack is marked with the position of its uppermost frame. The stack
/// and the marks begin as the last start left them.
pub fn first_walk<C: Cursor>(
    input: &mut Input<C>,
    stack: &mut Vec<Frame>,
    marks: &mut [Option<usize>],
    program: &Program,
    only: Option<usize>,
    hi: usize,
    start: usize,
) -> Result<bool, AllocError>
    requires low { input.old.slice.start ≤ start }
    requires start_in { start ≤ hi }
    requires hi_in { hi ≤ high input.old }
    requires marked { IsMarked (length program.now.places.items) marks.old
        (reverse stack.old.items) }
    ensures keeps { Keeps input.old input.new }
    ensures marked { IfOk result (λ _. IsMarked (length program.now.places.items) marks.new
        (reverse stack.new.items)) }
    ensures first { IfOk result (λ found. IsTrue found →
        IsFirstWalk (ways (places_of program.now.places.items)
        (text_of program.now.terminator input.old) hi)
        (Ends only (places_of program.now.places.items)) []
        ((0, start) ∷ []) (walk_of stack.new)) }
    ensures none { IfOk result (λ found. IsTrue (not found) →
        HasNoWalk (ways (places_of program.now.places.items)
        (text_of program.now.terminator input.old) hi)
        (Ends only (places_of program.now.places.items)) [] ((0, start) ∷ [])) }
{
    unwind(stack, marks);
    enter(stack, marks, 0, start)?;
    if is_match(program, 0, only) {
        return Ok(true);
    }
    'steps: while let Some(top) = stack.pop() {
        if let Some((place, position)) = way(
            input,
            program,
            hi,
            top.place,
            top.position,
            top.tried,
        ) {
            stack.push(Frame {
                place: top.place,
                position: top.position,
                tried: top.tried + 1,
                before: top.before,
            })?;
            if !is_on(marks, place, position) {
                enter(stack, marks, place, position)?;
                if is_match(program, place, only) {
                    return Ok(true);
                }
            }
        } else {
            marks[top.place] = top.before;
        }
    }
    Ok(false)
}
