//! Search input: a content, and how it is searched.

pub use rc_text::input::Input;
