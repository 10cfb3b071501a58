//! Words: which patterns are literals between two assertions.
ghost use Rattle.std.specs.Prelude.{◌≡◌, IfOk, IfSome, Some, map};
ghost use Rattle.rc_pattern.specs.Re.{look};
ghost use Rattle.rc_pattern.specs.Meaning.{meaning};
ghost use Rattle.rc_needles.specs.Prefilters.{needles_of};
ghost use Rattle.rc_literals.specs.Literals.{literals_of};
ghost use Rattle.rc_words.specs.Words.{AreBetween, between_in, ungrouped};

use rc_literals::exact::exact_needles;
use rc_needles::prefilter::Prefilter;
use rc_pattern::hir::{Hir, HirKind, Look};
use std::alloc::{AllocError, Global};

/// Literals, and the assertions before and behind each.
#[derive(Drop)]
pub struct Words {
    pub needles: Prefilter,
    pub before: Look,
    pub behind: Look,
}

impl Words {
    /// Returns about how many bytes of memory the literals take, beyond the value's own.
    pub fn memory_usage(&self) -> usize {
        self.needles.memory_usage()
    }
}

/// Returns the literals and the assertions on their two sides, if there is one pattern, and it is a
/// list of literals between two assertions, as `\b(?:foo|bar)\b`. The list may be a group. Returns
/// None also if the literals are so few that Teddy searches for them. `Err` means out of memory.
pub fn words_of(alloc: Global, hirs: &[Hir]) -> Result<Option<Words>, AllocError>
    ensures { IfOk result (λ found. IfSome found
        (λ w. AreBetween (map meaning hirs.now) (between_in w))) }
{
    if hirs.len() != 1 {
        return Ok(None);
    }
    let HirKind::Concat(subs) = hirs[0].kind() else {
        return Ok(None);
    };
    if subs.len() != 3 {
        return Ok(None);
    }
    let (Some(before), Some(behind)) = (look_of(&subs[0]), look_of(&subs[2])) else {
        return Ok(None);
    };
    let Some(needles) = needles_of(alloc, &subs[1])? else {
        return Ok(None);
    };
    if !are_many(&needles) {
        return Ok(None);
    }
    Ok(Some(Words {
        needles,
        before,
        behind,
    }))
}

/// Whether literals have a trie, and Teddy doesn't search for them.
fn are_many(needles: &Prefilter) -> bool {
    needles.searcher.table.trie.is_some() && !needles.goes_by_teddy()
}

/// Returns the assertion that a pattern is, if it is one.
fn look_of(hir: &Hir) -> Option<Look>
    ensures { IfSome result (λ l. meaning hir.now ≡ look l) }
{
    match hir.kind() {
        HirKind::Look(look) => Some(*look),
        _ => None,
    }
}

/// Returns the literals of a list of them, or of a group of one.
fn needles_of(alloc: Global, hir: &Hir) -> Result<Option<Prefilter>, AllocError>
    ensures { IfOk result (λ found. IfSome found
        (λ p. literals_of (ungrouped (meaning hir.now)) ≡ Some (needles_of p))) }
{
    let list = match hir.kind() {
        HirKind::Capture(capture) => &capture.sub,
        _ => hir,
    };
    match exact_needles(alloc, std::slice::from_ref(list))? {
        Some(needles) => Ok(Some(needles.prefilter)),
        None => Ok(None),
    }
}
