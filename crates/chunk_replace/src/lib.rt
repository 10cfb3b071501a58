//! Replacement: each match of a regex in chunks is replaced by a template.
#![tactic(auto)]

pub mod error;
mod marks;
mod put;
pub mod replace;
mod rewrite;
pub mod shell;
pub mod template;

pub use error::ReplaceError;
pub use replace::{replace_all, replace_match};
pub use shell::program;
pub use template::{Template, TemplateError};
