//! Inputs over whole texts.
ghost use Rattle.std.specs.Prelude.{◌≡◌, Some, length};
ghost use Rattle.live_matches.specs.Live.{IsWhole};

use regex_cursor::{Cursor, Input};

/// Returns the input over a whole text, as the calls of a live list ask for it. The cursor has to
/// be at the start of the text, and tell its length.
pub fn whole_input<C: Cursor>(text: C) -> Input<C>
    requires start { C.offset text ≡ 0 }
    requires total { C.total text ≡ Some (length (C.content text)) }
    ensures whole { IsWhole result }
    ensures content { result.content ≡ C.content text }
{
    Input::new(text)
}
