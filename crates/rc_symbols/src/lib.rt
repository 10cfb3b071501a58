//! Symbols: the bytes of a text, each with what is known of the scalars that begin and end with it.
//! So a search that reads bytes may decide word boundaries of any script.
//!
//! The crate has definitions and laws alone, as `rc_walks` has.
#![tactic(auto)]

ghost use Rattle.rc_symbols.specs.Symbols.{SymbolLaw};
ghost use Rattle.rc_symbols.specs.Readers.{ReaderLaw};

/// The scalars of a text lie apart. The symbol of a byte is decided by the one around it.
pub fn scalars_decide_symbols()
    ensures { SymbolLaw }
{}

/// A reader that decodes a scalar at its first byte, or backwards at its last, and counts down the
/// bytes that are left knows every symbol.
pub fn readers_know_symbols()
    ensures { ReaderLaw }
{}
