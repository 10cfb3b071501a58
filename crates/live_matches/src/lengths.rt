//! Lengths: how long the matches of patterns are.
ghost use Rattle.std.specs.Prelude.{◌≡◌, IfSome, Some, map, max};
ghost use Rattle.rc_pattern.specs.Meaning.{meaning};
ghost use Rattle.rc_pattern.specs.Properties.{both, maximum_len};
ghost use Rattle.rc_reach.specs.Laws.{greatest_len};

use regex_cursor::hir::Hir;

/// The greatest length of a match of these patterns, in bytes. `None` if there is none, or it isn't
/// known. A regex is built of patterns by `Builder::build_many_from_hir`.
pub fn longest_of(hirs: &[Hir]) -> Option<usize>
    ensures { IfSome result (λ n. greatest_len (map meaning hirs.now) ≡ Some n) }
{
    let mut longest = Some(0);
    'patterns: for hir in hirs {
        longest = longer_of(longest, length_of(hir));
    }
    longest
}

/// The greatest length of a match of a pattern, if it is known.
fn length_of(hir: &Hir) -> Option<usize>
    ensures { IfSome result (λ n. maximum_len (meaning hir.now) ≡ Some n) }
{
    hir.properties().maximum_len()
}

/// The greater of two lengths, if both are known.
fn longer_of(left: Option<usize>, right: Option<usize>) -> Option<usize>
    ensures { result ≡ both (λ m n. Some (max m n)) left right }
{
    match (left, right) {
        (Some(left), Some(right)) => Some(left.max(right)),
        (Some(_), None) => None,
        (None, _) => None,
    }
}
