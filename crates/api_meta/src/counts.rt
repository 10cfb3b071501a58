//! Counts of groups.
ghost use Rattle.std.specs.Prelude.{◌≡◌, ◌≤◌, ◌+◌, length, map};
ghost use Rattle.rc_pattern.specs.Limits.{greatest_weight};
ghost use Rattle.rc_pattern.specs.Meaning.{meaning};
ghost use Rattle.rc_pattern.specs.Properties.{common};
ghost use Rattle.rc_pattern.specs.Weight.{list_weight};
ghost use Rattle.rc_program.specs.Laws.{all_groups};
ghost use Rattle.api_meta.specs.Counts.{static_groups};

use rc_pattern::check::{group_count, properties_of};
use rc_pattern::hir::Hir;

/// The number of explicit groups of the patterns.
#[tactic(auto, using(crate::proofs::Weights::groups_light))]
pub(crate) fn explicit_groups(hirs: &[Hir]) -> usize
    requires { list_weight (map meaning hirs.now) ≤ greatest_weight }
    ensures value { result ≡ all_groups (map meaning hirs.now) }
    ensures small { length (map meaning hirs.now) + result ≤ greatest_weight }
{
    let mut total = 0;
    for hir in hirs {
        total += group_count(hir);
    }
    total
}

/// The number of explicit groups that take part in each match, if that is known to be one number
/// for all patterns.
pub(crate) fn static_groups(hirs: &[Hir]) -> Option<usize>
    ensures { result ≡ static_groups (map meaning hirs.now) }
{
    if hirs.is_empty() {
        return None;
    }
    let mut groups = properties_of(&hirs[0]).static_explicit_captures_len();
    for hir in &hirs[1..] {
        groups = common(groups, properties_of(hir).static_explicit_captures_len());
    }
    groups
}

/// The number that both are, if they are equal.
fn common(left: Option<usize>, right: Option<usize>) -> Option<usize>
    ensures { result ≡ common left right }
{
    match (left, right) {
        (Some(m), Some(n)) => { if m == n { Some(m) } else { None } }
        (Some(_), None) => None,
        (None, _) => None,
    }
}
