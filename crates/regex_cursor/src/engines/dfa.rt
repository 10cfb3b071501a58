//! DFA: all states are built before the first search. A search goes forwards to the end of a match,
//! and backwards to its start.

pub use api_dfa::builder::{Builder, Config};
pub use api_dfa::dfa::DFA;
pub use api_dfa::iterators::FindMatches;
pub use api_dfa::regex::Regex;
pub use api_dfa::search::{find, find_iter, try_search, try_search_fwd, try_search_rev};
pub use rc_settings::error::BuildError;
