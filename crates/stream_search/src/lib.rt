//! Stream search: the matches of a regex in a text that is still coming in, and searches in slices.
#![tactic(auto)]

pub mod error;
pub mod finds;
pub mod list;
mod opening;
mod search;
pub mod step;
pub mod stream;

pub use error::FeedError;
pub use finds::PartialFinder;
pub use list::{ListStepper, ListStepperOf};
pub use search::moved;
pub use step::{Progress, Stepper, StepperOf};
pub use stream::{StreamSearcher, StreamSearcherOf};
