//! Single threads: if one thread is alone, it goes on without thread lists. Starts from which no
//! walk leads on are skipped in the same way. Passes for leftmost-first and for leftmost-longest
//! share this.
ghost use Rattle.std.specs.Prelude.{◌≡◌, ◌+◌, ◌<◌, ◌≤◌, ◌⊎◌, ◌^◌, [], ◌∷◌, IsTrue, IfSome, List, Option, MatchOption, ⊤, true, false, ℕ, length};
ghost use Rattle.rc_text.specs.Text.{Searched};
ghost use Rattle.rc_walks.specs.Walks.{Pair};
ghost use Rattle.rc_program.specs.Places.{places_of};
ghost use Rattle.rc_program.specs.Program.{place_at, slot};
ghost use Rattle.rc_pikevm.specs.Alone.{EndsBy, IsAhead, IsChosen, IsDead, IsOnward, ReadsOne, tried_at};
ghost use Rattle.rc_pikevm.specs.Entrances.{IsOnWay};
ghost use Rattle.rc_pikevm.specs.Moves.{IsMove, IsSetting, seen_by};
ghost use Rattle.rc_pikevm.specs.Near.{IsHere, seen_from, size};
ghost use Rattle.rc_pikevm.specs.Passing.{Carries, waiting_starts};
ghost use Rattle.rc_pikevm.specs.Races.{Races, IsCutOff, IsSought, starts_to};
ghost use Rattle.rc_pikevm.specs.Roots.{StandsFor};
ghost use Rattle.rc_pikevm.specs.Rules.{root_of};
ghost use Rattle.rc_pikevm.specs.declared.rule.Rule.{Rule};
ghost use Rattle.rc_pikevm.specs.Scratches.{IsSame};
ghost use Rattle.rc_pikevm.specs.Sights.{HasNoWalkFrom};
ghost use Rattle.rc_pikevm.specs.Threads.{Thread, thread_of};
ghost use Rattle.rc_pikevm.specs.Trace.{Trace, trace};
ghost use Rattle.rc_pikevm.specs.Underway.{HasCome, IsInLine};
ghost use Rattle.rc_pikevm.specs.Windows.{IsWindow, IsBegun, IsAround};

use crate::entrance::is_shut;
use crate::heads::{is_dead, pass_over};
use crate::moves::{Move, look_up};
use crate::pass::{Ending, end_walk, set_out_alone};
use crate::scratch::Scratch;
use crate::spot::{Course, Spot};
use crate::threads::BareThread;
use crate::window::{Window, limit, spot_at};
use rc_program::place::Place;

/// How many places are followed at most.
const MOST: usize = 6;

/// When the fast path may serve.
#[derive(Clone, Copy)]
pub struct FastPath {
    /// Whether the only thread may go on alone.
    pub alone: bool,
    /// Whether starts may be skipped while there is no thread.
    pub skips: bool,
}

/// Whether the place is the one that was tried.
#[inline(always)]
fn is_tried(tried: Option<usize>, place: usize) -> bool
    ensures { IsTrue result → tried ≡ Some place }
{
    match tried {
        None => false,
        Some(other) => other == place,
    }
}

/// Whether no walk leads on from the place, as far as at most `MOST` places show. Walks through the
/// place that was tried don't count. Returns false if these places don't decide it.
#[inline(never)]
fn leads_nowhere(spot: &Spot, from: usize, tried: Option<usize>) -> bool
    ghost text: { Searched }
    requires here { IsHere spot.now text }
    requires place_in { from < size spot.now.course }
    ensures { IsTrue result → IsDead (seen_from spot.now text) (tried_at spot.now.at tried)
        (from, spot.now.at) }
{
    let mut place = from;
    let mut later: Option<usize> = None;
    'ways: for _ in 0..MOST {
        if is_tried(tried, place) {
            let Some(other) = later else {
                return true;
            };
            place = other;
            later = None;
            continue 'ways;
        }
        match look_up(spot, place) {
            Move::DeadEnd => {
                let Some(other) = later else {
                    return true;
                };
                place = other;
                later = None;
            }
            Move::Stays(next) => place = next,
            Move::Save(_, next) => place = next,
            Move::Fork(first, second) => {
                if later.is_some() {
                    return false;
                }
                place = first;
                later = Some(second);
            }
            Move::Reads(_, _) => return false,
            Move::Matches(_) => return false,
        }
    }
    false
}

/// Returns the place after this one if this one fills a slot, else the place itself.
#[inline(always)]
fn past_slot(spot: &Spot, place: usize) -> usize
    requires place_in { place < size spot.now.course }
    ensures inside { result < size spot.now.course }
    ensures past { (result ≡ place) ⊎ ((k : ℕ)
        × (place_at (places_of spot.now.course.program.now.places.items) place ≡ slot k result)) }
{
    match &spot.course.program.places[place] {
        Place::Slot(_, next) => *next,
        _ => place,
    }
}

/// Whether no walk leads on from the place, or from the one after it if it fills a slot, as far as
/// `is_shut` sees.
#[inline(always)]
fn is_closed(spot: &Spot, place: usize) -> bool
    ghost text: { Searched }
    requires here { IsHere spot.now text }
    requires place_in { place < size spot.now.course }
    ensures { IsTrue result → (passed : List Pair)
        → IsDead (seen_from spot.now text) passed (place, spot.now.at) }
{
    is_shut(spot, past_slot(spot, place))
}

/// Returns the one of two ways on from the place by which alone walks lead on. Returns None if a
/// few places don't decide that.
#[inline(always)]
fn only_way(spot: &Spot, place: usize, first: usize, second: usize) -> Option<usize>
    ghost text: { Searched }
    requires here { IsHere spot.now text }
    requires first_in { first < size spot.now.course }
    requires second_in { second < size spot.now.course }
    ensures { IfSome result (λ way. IsChosen
        (seen_from spot.now text) spot.now.at place first second way) }
{
    if is_closed(spot, second) {
        return Some(first);
    }
    if is_dead(spot, first) {
        return Some(second);
    }
    'ways: for round in 0..2u32 {
        let (tested, other) = if round == 0 {
            (first, second)
        } else {
            (second, first)
        };
        if leads_nowhere(spot, tested, Some(place)) {
            return Some(other);
        }
    }
    None
}

/// Follows the places from which a thread has only one way on. Returns the last of them, at which
/// the thread may go on instead, and its transition. Returns None if there are two ways on, or more
/// than `MOST` places.
#[inline(always)]
fn onward(spot: &Spot, from: usize) -> Option<(usize, Move)>
    ghost text: { Searched }
    requires here { IsHere spot.now text }
    requires place_in { from < size spot.now.course }
    ensures { IfSome result (λ r. IsOnward (seen_from spot.now text)
        (size spot.now.course) spot.now.at from r.0 r.1) }
{
    let mut place = from;
    'ways: for _ in 0..MOST {
        match look_up(spot, place) {
            Move::Stays(next) => place = next,
            Move::Fork(first, second) => {
                let Some(way) = only_way(spot, place, first, second) else {
                    return None;
                };
                place = way;
            }
            step => return Some((place, step)),
        }
    }
    None
}

/// Returns the first branch of a choice if its second is a dead end, else the place itself.
fn opening(course: Course, place: usize) -> usize
    ghost text: { Searched }
    requires place_in { place < size course }
    ensures inside { result < size course.entry }
    ensures way { (at : ℕ) → IsOnWay (seen_by course.entry text) at place result }
{
    match &course.program.places[place] {
        Place::Choice(first, second) => match &course.program.places[*second] {
            Place::Dead => *first,
            _ => place,
        },
        _ => place,
    }
}

/// Whether a walk may lead on from the start at the spot. Returns false unless `is_open`, and if
/// the spot is past the last start. Walks through the place that was tried don't count. The place
/// `way` is the opening of place 0.
#[inline(always)]
fn may_set_out(spot: &Spot, is_open: bool, way: usize, tried: usize) -> bool
    ghost text: { Searched }
    requires here { IsHere spot.now text }
    requires way_in { way < size spot.now.course }
    requires way { IsOnWay (seen_from spot.now text) spot.now.at 0 way }
    ensures { result ≡ false → is_open ≡ true → spot.now.at ≤ spot.now.course.last
        → IsDead (seen_from spot.now text) ((tried, spot.now.at) ∷ []) (0, spot.now.at) }
{
    if !is_open {
        return false;
    }
    if spot.at > spot.course.last {
        return false;
    }
    if way == tried {
        return false;
    }
    if is_shut(spot, way) {
        return false;
    }
    !leads_nowhere(spot, way, Some(tried))
}

/// Advances a lone thread through the window as long as it reads single bytes. If `is_open`, it
/// stops where another thread may set out. Returns the thread, and the pattern of its match if it
/// came to one. The place `way` is the opening of place 0.
fn run(
    course: Course,
    window: &Window,
    is_open: bool,
    way: usize,
    head: BareThread,
) -> (BareThread, Option<usize>)
    ghost text: { Searched }
    requires setting { IsSetting course text }
    requires window { IsWindow text window.now }
    requires begun { IsBegun text head.at window.now }
    requires within { head.at ≤ course.hi }
    requires place_in { head.place < size course }
    requires way_in { way < size course }
    requires way { (at : ℕ) → IsOnWay (seen_by course text) at 0 way }
    ensures carries { (slots : List (Option ℕ)) (width : ℕ) (best o : Option Trace)
        → Carries (seen_by course.entry text) result.0.at [] []
        ((trace result.0.start slots, (result.0.place, result.0.at))
        ∷ waiting_starts is_open width result.0.at course.entry.last) best o
        → Carries (seen_by course.entry text) head.at [] []
        ((trace head.start slots, (head.place, head.at))
        ∷ waiting_starts is_open width head.at course.entry.last) best o }
    ensures races { (all : List (Trace × Pair)) (slots : List (Option ℕ)) (width : ℕ)
        (best : Option Ending) (found : List (Option ℕ))
        → IsSought best head.start → (is_open ≡ false → IsCutOff best head.at)
        → Races (seen_by course.entry text) all head.at [] []
        ((trace head.start slots, (head.place, head.at))
        ∷ starts_to width head.at course.entry.last) best found
        → Races (seen_by course.entry text) all result.0.at [] []
        ((trace result.0.start slots, (result.0.place, result.0.at))
        ∷ starts_to width result.0.at course.entry.last) best found }
    ensures start { result.0.start ≡ head.start }
    ensures place_in { result.0.place < size course.entry }
    ensures later { head.at ≤ result.0.at }
    ensures within { result.0.at ≤ course.entry.hi }
    ensures around { IsAround text head.at window.now → IsAround text result.0.at window.now }
    ensures ended { MatchOption result.1 ⊤
        (λ p. EndsBy (seen_by course.entry text) result.0.at result.0.place p
        × (result.0.at < course.entry.hi) × IsAround text (result.0.at + 1) window.now) }
{
    let mut place = head.place;
    let mut at = head.at;
    let end = limit(window).min(course.hi);
    'positions: while at < end {
        let spot = spot_at(course, window, at);
        let Some((tried, step)) = onward(&spot, place) else {
            break 'positions;
        };
        match step {
            Move::Reads(next, to) => {
                if to != at + 1 {
                    break 'positions;
                }
                if may_set_out(&spot, is_open, way, tried) {
                    break 'positions;
                }
                place = next;
                at += 1;
            }
            Move::Matches(number) => {
                let start = head.start;
                return (BareThread { place, at, start }, Some(number));
            }
            _ => break 'positions,
        }
    }
    let start = head.start;
    (BareThread { place, at, start }, None)
}

/// Skips starts from `at` on from which no walk leads on, while no thread is under way. Returns the
/// position in bytes from which the pass goes on. If a thread that sets out there is seen to read
/// one byte, the place at which it goes on is returned too. The place `root` stands for place 0,
/// and `way` is its opening.
fn seek(
    course: Course,
    window: &Window,
    root: usize,
    way: usize,
    at: usize,
) -> (usize, Option<usize>)
    ghost text: { Searched }
    requires setting { IsSetting course text }
    requires window { IsWindow text window.now }
    requires begun { IsBegun text at window.now }
    requires within { at ≤ course.hi }
    requires root { root < size course }
    requires stands { StandsFor (seen_by course text) root }
    requires way_in { way < size course }
    requires way { (at : ℕ) → IsOnWay (seen_by course text) at root way }
    ensures later { at ≤ result.0 }
    ensures within { result.0 ≤ course.entry.hi }
    ensures none { (y : ℕ) → at ≤ y → y < result.0 → HasNoWalkFrom (seen_by course.entry text) y }
    ensures around { IsAround text at window.now → IsAround text result.0 window.now }
    ensures reads { MatchOption result.1 ⊤
        (λ next. (result.0 < course.entry.last) × IsAround text (result.0 + 1) window.now
        × ((p : ℕ) × ReadsOne (seen_by course.entry text) (size course.entry) result.0 root
        (p, next))) }
{
    let mut here = at;
    let end = limit(window).min(course.last);
    'starts: while here < end {
        here = pass_over(course, window, root, here, end);
        if here == end {
            return (here, None);
        }
        let spot = spot_at(course, window, here);
        let first = past_slot(&spot, way);
        let Some((place, step)) = onward(&spot, first) else {
            return (here, None);
        };
        match step {
            Move::DeadEnd => {}
            Move::Reads(next, to) => {
                if to != here + 1 {
                    return (here, None);
                }
                if !is_shut(&spot_at(course, window, here + 1), next) {
                    if first != way {
                        return (here, None);
                    }
                    return (here, Some(next));
                }
            }
            _ => {
                if !leads_nowhere(&spot, place, None) {
                    return (here, None);
                }
            }
        }
        here += 1;
    }
    (here, None)
}

/// Whether the thread goes on at the position, and the best match so far neither cuts it off nor
/// ends there or later.
#[inline(always)]
fn is_ahead(head: BareThread, best: Option<Ending>, at: usize) -> bool
    ensures { IsTrue result → (head.at ≡ at) × IsAhead best head.start at }
{
    if head.at != at {
        return false;
    }
    let Some(old) = best else {
        return head.start < at;
    };
    head.start <= old.start && old.start < at && old.end < at
}

/// Advances a lone thread that waits for `at` through the window. Returns the position in bytes
/// that the pass has reached. If the thread came to a match, that is now the best, with its slots
/// in `found`.
fn go_alone(
    course: Course,
    window: &Window,
    best: &mut Option<Ending>,
    at: usize,
    scratch: &mut Scratch,
) -> usize
    ghost text: { Searched }
    requires setting { IsSetting course text }
    requires window { IsWindow text window.now }
    requires begun { IsBegun text at window.now }
    requires around { IsAround text at window.now }
    requires within { at ≤ course.hi }
    requires small { scratch.old.insertions + 2 ^ 65 < 2 ^ 128 }
    requires lined { IsInLine course text scratch.old.next.threads.width at scratch.old }
    ensures come { (rule : Rule) (from : ℕ)
        → HasCome rule course.entry text scratch.old.next.threads.width from at scratch.old best.old
        → HasCome rule course.entry text scratch.old.next.threads.width from result scratch.new
        best.new }
    ensures same { IsSame scratch.old scratch.new }
    ensures later { at ≤ result }
    ensures within { result ≤ course.entry.hi }
    ensures around { IsAround text result window.now }
{
    if scratch.curr.len() != 1 {
        return at;
    }
    let (first, _) = scratch.curr.get(0);
    if !is_ahead(first, *best, at) {
        return at;
    }
    let way = opening(course, 0);
    let (head, ended) = run(course, window, best.is_none(), way, first);
    move_alone(head, head.at - at, scratch);
    let Some(number) = ended else {
        return head.at;
    };
    *best = Some(end_walk(course, head.at, number, scratch));
    head.at + 1
}

/// Moves the only thread elsewhere, `count` positions further.
#[inline(always)]
fn move_alone(head: BareThread, count: usize, scratch: &mut Scratch)
    requires small { scratch.old.insertions + count < 2 ^ 128 }
    requires alone { length scratch.old.curr.items ≡ 1 }
    ensures insertions { scratch.new.insertions ≡ scratch.old.insertions + count }
    ensures curr { (t : Thread) → scratch.old.curr.items ≡ t ∷ []
        → scratch.new.curr ≡ record scratch.old.curr { items = thread_of head t.slots ∷ [] } }
    ensures same { IsSame scratch.old scratch.new }
    ensures width { scratch.new.next.threads.width ≡ scratch.old.next.threads.width }
    ensures found { scratch.new.found.items ≡ scratch.old.found.items }
{
    scratch.insertions += count as u128;
    scratch.curr.move_first(head);
}

/// Prepares a pass that has come to `at` for a lone thread. If there is neither a thread nor a
/// match and `skips` is set, it skips starts from which no walk leads on, and may set out a thread.
/// Returns the position in bytes, and whether a lone thread may go on there.
fn begin(
    course: Course,
    window: &Window,
    root: usize,
    skips: bool,
    best: Option<Ending>,
    at: usize,
    scratch: &mut Scratch,
) -> (usize, bool)
    ghost text: { Searched }
    requires setting { IsSetting course text }
    requires window { IsWindow text window.now }
    requires begun { IsBegun text at window.now }
    requires around { IsAround text at window.now }
    requires within { at ≤ course.hi }
    requires root { root < size course }
    requires stands { StandsFor (seen_by course text) root }
    requires small { scratch.old.insertions + 2 ^ 66 < 2 ^ 128 }
    requires lined { IsInLine course text scratch.old.next.threads.width at scratch.old }
    ensures come { (rule : Rule) (from : ℕ) → root_of rule ≡ root
        → HasCome rule course.entry text scratch.old.next.threads.width from at scratch.old best
        → HasCome rule course.entry text scratch.old.next.threads.width from result.0 scratch.new
        best }
    ensures lined { IsInLine course.entry text scratch.old.next.threads.width result.0 scratch.new }
    ensures same { IsSame scratch.old scratch.new }
    ensures few { scratch.new.insertions ≤ scratch.old.insertions + 1 }
    ensures later { at ≤ result.0 }
    ensures within { result.0 ≤ course.entry.hi }
    ensures around { IsAround text result.0 window.now }
{
    if scratch.curr.len() > 0 {
        return (at, true);
    }
    if !skips || best.is_some() {
        return (at, false);
    }
    let way = opening(course, root);
    let (here, next) = seek(course, window, root, way, at);
    let Some(place) = next else {
        return (here, false);
    };
    set_out_alone(course, here, root, place, scratch);
    (here + 1, true)
}

/// Runs the fast path of a pass that has come to `at`: skips starts if `skips`, and advances a lone
/// thread. Returns the position in bytes from which all threads go on together. If the lone thread
/// came to a match, that is now the best, with its slots in `found`.
#[inline(never)]
fn run_fast_path(
    course: Course,
    window: &Window,
    root: usize,
    skips: bool,
    best: &mut Option<Ending>,
    at: usize,
    scratch: &mut Scratch,
) -> usize
    ghost text: { Searched }
    requires setting { IsSetting course text }
    requires window { IsWindow text window.now }
    requires begun { IsBegun text at window.now }
    requires around { IsAround text at window.now }
    requires within { at ≤ course.hi }
    requires root { root < size course }
    requires stands { StandsFor (seen_by course text) root }
    requires small { scratch.old.insertions + 2 ^ 66 < 2 ^ 128 }
    requires lined { IsInLine course text scratch.old.next.threads.width at scratch.old }
    ensures come { (rule : Rule) (from : ℕ) → root_of rule ≡ root
        → HasCome rule course.entry text scratch.old.next.threads.width from at scratch.old best.old
        → HasCome rule course.entry text scratch.old.next.threads.width from result scratch.new
        best.new }
    ensures same { IsSame scratch.old scratch.new }
    ensures later { at ≤ result }
    ensures within { result ≤ course.entry.hi }
    ensures around { IsAround text result window.now }
{
    let (here, is_alone) = begin(course, window, root, skips, *best, at, scratch);
    if !is_alone {
        return here;
    }
    go_alone(course, window, best, here, scratch)
}

/// Whether the fast path may serve a pass with so many threads.
#[inline(always)]
fn is_worth(fast: FastPath, threads: usize) -> bool {
    match threads {
        0 => fast.skips,
        1 => fast.alone,
        _ => false,
    }
}

/// Runs the fast path if it may serve. Returns the position in bytes from which all threads go on
/// together; that is `at` if the fast path doesn't serve.
#[inline(always)]
pub fn try_fast_path(
    course: Course,
    window: &Window,
    root: usize,
    fast: FastPath,
    best: &mut Option<Ending>,
    at: usize,
    scratch: &mut Scratch,
) -> usize
    ghost text: { Searched }
    requires setting { IsSetting course text }
    requires window { IsWindow text window.now }
    requires begun { IsBegun text at window.now }
    requires around { IsAround text at window.now }
    requires within { at ≤ course.hi }
    requires root { root < size course }
    requires stands { StandsFor (seen_by course text) root }
    requires small { scratch.old.insertions + 2 ^ 66 < 2 ^ 128 }
    requires lined { IsInLine course text scratch.old.next.threads.width at scratch.old }
    ensures come { (rule : Rule) (from : ℕ) → root_of rule ≡ root
        → HasCome rule course.entry text scratch.old.next.threads.width from at scratch.old best.old
        → HasCome rule course.entry text scratch.old.next.threads.width from result scratch.new
        best.new }
    ensures same { IsSame scratch.old scratch.new }
    ensures later { at ≤ result }
    ensures within { result ≤ course.entry.hi }
    ensures around { IsAround text result window.now }
{
    if !is_worth(fast, scratch.curr.len()) {
        return at;
    }
    run_fast_path(course, window, root, fast.skips, best, at, scratch)
}
