//! Escapes of the full grammar, with properties of Unicode and octal numbers.
#![tactic(auto)]

pub mod escapes;
