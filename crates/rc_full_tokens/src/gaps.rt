//! Gaps: white space and comments, which the flag `x` passes over.

ghost use Rattle.std.specs.Prelude.{◌≡◌, false};
ghost use Rattle.rc_full_tokens.specs.Gaps.{Gaps, OneGapLaw};
ghost use Rattle.rc_full_tokens.specs.Skips.{behind_gaps};

use unicode::properties::is_white_space;

fn behind_gaps(text: &[char]) -> &[char]
    ensures { result.now ≡ behind_gaps false text.now }
{
    let mut in_comment = false;
    for i in 0..text.len() {
        let c = text[i];
        if in_comment {
            in_comment = c != '\n';
        } else if c == '#' {
            in_comment = true;
        } else if !is_white_space(c) {
            return &text[i..];
        }
    }
    &text[text.len()..]
}

/// The text behind the white space and the comments that begin it. A comment goes from `#` to the
/// end of its line.
pub fn skip_gaps(text: &[char]) -> &[char]
    ensures { Gaps text.now result.now }
{
    behind_gaps(text)
}

/// Behind the gaps that begin a text stands one rest.
pub fn gaps_end_once()
    ensures { OneGapLaw }
{}
