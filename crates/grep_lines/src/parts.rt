//! Parts of a text: a text is cut behind a terminator, so that its lines are those of its parts.
ghost use Rattle.std.specs.Prelude.{◌≡◌, ◌≤◌, ◌++◌, ℕ, Bool, List, length, map};
ghost use Rattle.grep_lines.specs.Lines.{lines};
ghost use Rattle.grep_lines.specs.Pages.{IsWhole};
ghost use Rattle.grep_lines.specs.Parts.{selected, shifted};

use memchr::memrchr;

/// Cuts a text behind the last terminator before a position. The first part is empty, or ends with
/// a terminator. So the lines of the parts are the lines of the text, and the selected lines too, in
/// their order: the numbers and places of those in the second part begin behind the first one.
pub fn split_at_line(text: &[u8], terminator: u8, place: usize) -> (&[u8], &[u8])
    requires { place ≤ length text.now }
    ensures joined { text.now ≡ result.0.now ++ result.1.now }
    ensures within { length result.0.now ≤ place }
    ensures whole { IsWhole terminator result.0.now }
    ensures selected { (picks : List ℕ → Bool) → selected terminator picks text.now
        ≡ selected terminator picks result.0.now
        ++ map (shifted (length (lines terminator result.0.now)) (length result.0.now))
        (selected terminator picks result.1.now) }
{
    let end = match memrchr(terminator, &text[..place]) {
        Some(last) => last + 1,
        None => 0,
    };
    text.split_at(end)
}
