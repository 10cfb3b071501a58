//! Program settings: how patterns are compiled to an NFA, and which groups are kept.

pub use rc_captures::captures::Captures;
pub use rc_captures::groups::GroupInfo;
pub use rc_settings::error::BuildError;
pub use rc_settings::thompson::Config;
pub use rc_settings::which::WhichCaptures;
