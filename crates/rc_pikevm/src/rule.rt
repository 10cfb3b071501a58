//! Search rules: which walk of the least start a search chooses.
ghost use Rattle.std.specs.Prelude.{◌≡◌};
ghost use Rattle.rc_pikevm.specs.Rules.{root_of};

/// Which walk of the least start a search chooses.
#[derive(Clone, Copy)]
pub enum Rule {
    /// The first. Walks enter at this place, which stands for place 0: the first walk from it is,
    /// after choices, the first from place 0. So a search for one pattern enters at that pattern's
    /// own place, and no thread sets out for another pattern.
    First(usize),
    /// The longest.
    Longest,
}

/// The place at which walks enter.
#[inline(always)]
pub(crate) fn root_of(rule: Rule) -> usize
    ensures { result ≡ root_of rule }
{
    match rule {
        Rule::First(root) => root,
        Rule::Longest => 0,
    }
}
