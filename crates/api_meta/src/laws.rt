//! Laws that tie the definitions. Each function does nothing: its contract is the law.
ghost use Rattle.api_meta.specs.Laws.{CuttingLaw};

/// The search results of a regex depend only on the uncut bytes, the span, the slice and the
/// anchoring. Two inputs that are equal in these have equal results, however their cursors cut the
/// content and wherever they are.
pub fn answers_know_no_chunk()
    ensures { CuttingLaw }
{}
