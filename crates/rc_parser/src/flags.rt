//! Inline flags.

ghost use Rattle.std.specs.Prelude.{◌≡◌};
ghost use Rattle.rc_parser.specs.Grammar.{set_flags};

use rc_tokens::tokens::Change;

/// The flags that are on at a point of a pattern.
#[derive(Clone, Copy)]
pub struct Flags {
    /// `i`
    pub case_insensitive: bool,
    /// `m`
    pub multi_line: bool,
    /// `s`
    pub dot_matches_new_line: bool,
    /// `R`
    pub crlf: bool,
    /// `U`
    pub swap_greed: bool,
    /// `u`
    pub unicode: bool,
}

/// The flags after a change.
pub fn changed(to: Change, flags: Flags) -> Flags
    ensures { result ≡ set_flags to flags }
{
    Flags {
        case_insensitive: to.case_insensitive.unwrap_or(flags.case_insensitive),
        multi_line: to.multi_line.unwrap_or(flags.multi_line),
        dot_matches_new_line: to
            .dot_matches_new_line
            .unwrap_or(flags.dot_matches_new_line),
        crlf: to.crlf.unwrap_or(flags.crlf),
        swap_greed: to.swap_greed.unwrap_or(flags.swap_greed),
        unicode: to.unicode.unwrap_or(flags.unicode),
    }
}
