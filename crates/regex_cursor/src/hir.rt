//! High-level intermediate representation (HIR): patterns as trees.

pub use rc_pattern::hir::{
    Capture, Class, ClassBytesRange, ClassUnicodeRange, Dot, Hir, HirKind, Look, LookSet,
    LookSetIter, Properties, Repetition,
};
