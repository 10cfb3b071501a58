//! Match iteration over any finder: each search begins where the last match ended.
#![tactic(auto)]

mod ask;
pub mod halves;
pub mod kept;
pub mod searcher;
