//! Regex: patterns built under settings, their searches and their iterators.

pub use api_meta::ahead::ListMemo;
pub use api_meta::builder::Builder;
pub use api_meta::cache::Cache;
pub use api_meta::finder::Finder;
pub use api_meta::iterators::{CapturesMatches, FindMatches, Split, SplitN};
pub use api_meta::lists::{CapturesMatchesWith, FindMatchesWith};
pub use api_meta::partial::Partial;
pub use api_meta::reach::{Reached, ReachedCaptures};
pub use api_meta::regex::Regex;
pub use rc_captures::captures::Captures;
pub use rc_captures::groups::GroupInfo;
pub use rc_settings::error::BuildError;
pub use rc_settings::meta::Config;
pub use rc_settings::which::WhichCaptures;
