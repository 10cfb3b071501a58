//! Lazy DFA: states are built while a search runs, in a cache whose memory never passes its
//! capacity. A search goes forwards to the end of a match, and backwards to its start.

pub use api_hybrid::builder::{Builder, Config};
pub use api_hybrid::cache::Cache;
pub use api_hybrid::iterators::FindMatches;
pub use api_hybrid::regex::Regex;
pub use api_hybrid::search::{find, find_iter, try_search, try_search_fwd, try_search_rev};
pub use rc_settings::error::BuildError;
