//! Owned searcher: a regex with everything that its searches need, as one value. It is for callers
//! that keep it between calls and pass their text again each time.
#![tactic(auto)]

pub mod answers;
mod batch;
pub mod kept;
pub mod parts;
pub mod searches;
pub mod settings;
pub mod shared;

pub use answers::{
    Bounds, Fault, GroupAt, ListFault, MatchAt, MemoryParts, Refusal, Window, WindowAnswer,
};
pub use kept::{KeptText, box_of_text, free_text, parts_of_text};
pub use parts::Parts;
pub use searches::{OwnedStepper, OwnedStream, Searcher, box_of, fill_window, free, parts_of};
pub use settings::Settings;
pub use shared::SharedFinder;
