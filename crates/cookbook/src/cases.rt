//! Letters in either case.

use regex_cursor::engines::meta::{BuildError, Regex};
use regex_cursor::syntax::Config;
use std::alloc::Global;

/// The regex of a pattern whose letters match in either case.
pub fn in_any_case(alloc: Global, pattern: &str) -> Result<Regex, BuildError> {
    let mut builder = Regex::builder();
    builder.syntax(Config::new().case_insensitive(true));
    builder.build(alloc, pattern)
}
