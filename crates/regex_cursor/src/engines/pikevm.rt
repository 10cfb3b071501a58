//! Pike VM: simulates all threads of a program at once, in a cache of yours.

pub use api_pikevm::builder::Builder;
pub use api_pikevm::cache::Cache;
pub use api_pikevm::iterators::FindMatches;
pub use api_pikevm::reach::{Reached, search_reach};
pub use api_pikevm::search::{find_iter, is_match, search, search_slots};
pub use api_pikevm::vm::PikeVM;
pub use rc_captures::captures::Captures;
pub use rc_captures::groups::GroupInfo;
pub use rc_settings::error::BuildError;
pub use rc_settings::pikevm::Config;
