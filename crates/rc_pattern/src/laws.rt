//! Laws that tie the definitions. Each function does nothing: its contract is the law.
ghost use Rattle.rc_pattern.specs.Kinds.{KindLaw};
ghost use Rattle.rc_pattern.specs.LookSets.{LookSetLaw};

/// A set is its assertions: two sets with the same assertions are equal. Its list contains each of
/// its assertions, and no other.
pub fn look_sets_are_their_looks()
    ensures { LookSetLaw }
{}

/// If no node is a concatenation of nothing, as in each pattern that the constructors return, an
/// empty pattern is the node `Empty`.
pub fn empty_is_a_node()
    ensures { KindLaw }
{}
