//! Diagnostics: what is wrong with a text that doesn't parse as a pattern, and where.
#![tactic(auto)]

mod escapes;
mod explanation;
mod faults;
mod full_lists;
mod full_marks;
mod lists;
mod marks;
mod openings;
mod places;
mod repetitions;
mod shown;

pub use explanation::explain;
pub use faults::{Fault, FaultKind};
pub use shown::Explained;
