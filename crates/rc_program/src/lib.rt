//! Thompson NFA: a program, and what a search over it finds. Here are the definitions that
//! contracts cite, and the laws that tie them.
//!
//! Module `place` has the NFA's states, and `program` an NFA that is ready to be searched with.
//! `look` tests assertions, `heads` computes first-byte sets, and `columns` finds the cells of slots
//! in a thread's row. `laws` has the laws, each as the contract of a function that does nothing.
#![tactic(auto)]

pub mod columns;
pub mod heads;
pub mod laws;
pub mod look;
pub mod matches;
pub mod place;
pub mod program;
pub mod ranges;
