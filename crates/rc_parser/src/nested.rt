//! Nesting depth of the parsed patterns.

ghost use Rattle.std.specs.Prelude.{IsTrue};
ghost use Rattle.rc_pattern.specs.Kinds.{has_plain_nodes, all_have_plain_nodes};

use rc_pattern::hir::Hir;

/// A pattern, and how deep it is nested.
#[derive(Drop)]
pub struct Nested {
    pub hir: Hir,
    pub depth: u32,
    ghost plain: { IsTrue (has_plain_nodes hir) },
}

/// Patterns, and how deep the deepest is nested.
#[derive(Drop)]
pub struct Parts {
    pub hirs: Vec<Hir>,
    pub deepest: u32,
    ghost plain: { IsTrue (all_have_plain_nodes hirs.items) },
}
