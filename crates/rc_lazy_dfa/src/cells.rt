//! Transitions: cells as numbers. A cell names the row to which a byte leads, by the index of that
//! row's first cell. A cell below `UNKNOWN` has no mark, so a run follows it without a further
//! look.
ghost use Rattle.std.specs.Prelude.{◌≡◌, ◌≤◌, ◌<◌};
ghost use Rattle.rc_determinize.specs.Places.{state_of};
ghost use Rattle.rc_determinize.specs.States as states;
ghost use Rattle.rc_lazy_dfa.specs.Cells.{marks};
ghost use Rattle.rc_lazy_dfa.specs.Stores.{Frame, Held, Names, mode_of};

use crate::store::Store;
use rc_determinize::state::State;
use rc_table_search::cells::{DEAD, MET, row_of};
use rc_text::types::Anchored;

/// The cell of a byte whose next state isn't known yet.
pub(crate) const UNKNOWN: usize = 1 << 61;

/// Returns the marks of a state's name.
pub(crate) fn marks(state: &State) -> usize
    ensures { result ≡ marks (state_of state.now) }
{
    let met = if state.matched.is_some() { MET } else { 0 };
    let dead = if state.list.is_empty() && !state.goes_on {
        DEAD
    } else {
        0
    };
    met + dead
}

/// Returns the number of a kind of anchoring.
#[inline(always)]
pub(crate) fn mode(anchored: Anchored) -> usize
    ensures value { result ≡ mode_of anchored }
    ensures small { result < 4_294_967_296 }
{
    match anchored {
        Anchored::No => 0,
        Anchored::Yes => 1,
        Anchored::Pattern(pattern) => pattern.as_usize() + 2,
    }
}

/// Returns what was found on the way to the row of the cell.
#[inline(always)]
pub(crate) fn stop_by(store: &Store, cell: usize) -> Option<usize>
    requires { 0 < store.now.width }
    ensures { (f : Frame) → Held f store.now → (t : states.State)
        → Names f.width store.now.states cell t → result ≡ t.matched }
{
    if cell >= MET {
        return store.stop_at(row_of(cell));
    }
    None
}
