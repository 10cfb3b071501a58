//! Output of a line filter: lines, the matches in them, records of JSON, and statistics.
#![tactic(auto)]

mod counter;
mod finder;
mod json;
mod output;
mod records;
mod stats;
mod style;
mod template;

pub use counter::Counter;
pub use finder::MatchFinder;
pub use output::{Output, Printer};
pub use records::{Recorder, Records};
pub use stats::Stats;
pub use style::Style;
pub use template::Template;
