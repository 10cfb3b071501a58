//! Live matches: the list of a text's matches, kept under edits.
#![tactic(auto)]

mod changes;
mod entries;
pub mod entry;
pub mod input;
pub mod iter;
pub mod lengths;
pub mod live;
mod quiet;
mod ranges;
mod search;
mod sides;
mod stretches;

pub use entry::{Changed, Edit};
pub use input::whole_input;
pub use iter::LiveMatchesIter;
pub use lengths::longest_of;
pub use live::LiveMatches;
