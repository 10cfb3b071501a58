//! Status codes that calls return.

/// The call is done. Of a search: there is no match.
pub const DONE: u32 = 0;
/// There is a match.
pub const FOUND: u32 = 1;
/// The handle is empty.
pub const EMPTY: u32 = 2;
/// The number of bytes in the chunks reaches the greatest `size_t`.
pub const TOO_LONG: u32 = 3;
/// The range begins behind its end, or behind the end of the text.
pub const OUTSIDE: u32 = 4;
/// There is no such pattern or group, or it has no name.
pub const ABSENT: u32 = 5;
/// The buffer for a name or another text is too short.
pub const SHORT: u32 = 6;
/// The bytes aren't UTF-8.
pub const NOT_UTF8: u32 = 7;
/// The text of a pattern doesn't parse.
pub const SYNTAX: u32 = 8;
/// The patterns are too large, or too many.
pub const TOO_LARGE: u32 = 9;
/// Out of memory.
pub const MEMORY: u32 = 10;
/// No kind of match has the number.
pub const NO_KIND: u32 = 11;
/// The settings have a byte that is on behind those that are known.
pub const UNKNOWN: u32 = 12;
/// The handle keeps no live list.
pub const NO_LIST: u32 = 13;
/// The number of bytes in the chunks isn't the one that an edit gives.
pub const MISFIT: u32 = 14;
/// A window ends before the answer is known.
pub const MORE_AFTER: u32 = 15;
/// A window begins later than four bytes before the place to search from.
pub const MORE_BEFORE: u32 = 16;
/// The handle keeps no stream.
pub const NO_STREAM: u32 = 17;
/// The stream was finished.
pub const FINISHED: u32 = 18;
/// The stream would keep more bytes than its limit.
pub const LIMIT: u32 = 19;
/// The handle keeps no search in slices.
pub const NO_STEPPER: u32 = 20;
