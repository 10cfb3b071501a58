//! Law of all engines. The function does nothing: its contract is the law.
ghost use Rattle.regex_cursor.specs.Cuttings.{EnginesLaw};

/// The search results of an engine depend only on the uncut bytes, the span, the slice, the
/// anchoring and the earliest flag. Two inputs that are equal in these have equal results, however
/// their cursors cut the content and wherever they are, and whatever a cache contains. With the
/// earliest flag on, unless matches may be rejected, any match may be returned; then both searches
/// find one or neither does. If a search ends in an error, nothing is said of that one, and the
/// other may still succeed.
pub fn engines_know_no_chunk()
    ensures { EnginesLaw }
{}
