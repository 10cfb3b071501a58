//! Texts of flags, as in `(?i-x)`.

ghost use Rattle.std.specs.Prelude.{◌≡◌, true};
ghost use Rattle.rc_tokens.specs.Marks.{once, letter_change};
ghost use Rattle.rc_full_tokens.specs.Flags.{flag, flag_change, flag_changes, no_change};

use rc_tokens::tokens::Change;

/// The flags that a text of flags sets and clears.
#[derive(Clone, Copy, Debug, PartialEq, Eq)]
pub struct FlagChange {
    /// The flags that the stated grammar has, too.
    pub stated: Change,
    /// The flag `x`.
    pub ignore_whitespace: Option<bool>,
}

/// A flag that is set or cleared for the first time.
fn once(on: bool, before: Option<bool>) -> Option<bool>
    ensures { result ≡ once on before }
{
    match before {
        None => Some(on),
        Some(_) => None,
    }
}

fn letter_change(c: char, on: bool, mut to: Change) -> Option<Change>
    ensures { result ≡ letter_change c on to }
{
    match c {
        'i' => to.case_insensitive = Some(once(on, to.case_insensitive)?),
        'm' => to.multi_line = Some(once(on, to.multi_line)?),
        's' => to.dot_matches_new_line = Some(once(on, to.dot_matches_new_line)?),
        'R' => to.crlf = Some(once(on, to.crlf)?),
        'U' => to.swap_greed = Some(once(on, to.swap_greed)?),
        'u' => to.unicode = Some(once(on, to.unicode)?),
        _ => return None,
    }
    Some(to)
}

/// The change that one letter makes.
fn flag_change(c: char, on: bool, mut to: FlagChange) -> Option<FlagChange>
    ensures { result ≡ flag_change c on to }
{
    if c == 'x' {
        to.ignore_whitespace = Some(once(on, to.ignore_whitespace)?);
    } else {
        to.stated = letter_change(c, on, to.stated)?;
    }
    Some(to)
}

/// The change that one character makes, and whether flags are set behind it.
fn flag(c: char, is_last: bool, on: bool, to: FlagChange) -> Option<(bool, FlagChange)>
    ensures { result ≡ flag c is_last on to }
{
    if c == '-' {
        if on && !is_last {
            return Some((false, to));
        }
        return None;
    }
    let Some(next) = flag_change(c, on, to) else {
        return None;
    };
    Some((on, next))
}

/// The change that a text of flags makes: flags are set up to the `-`, and cleared behind it. No
/// flag stands twice, and the `-` isn't last.
#[tactic(auto, using(crate::proofs::FlagLemmas::flags_end))]
pub fn flag_changes(flags: &[char]) -> Option<FlagChange>
    ensures { result ≡ flag_changes true no_change flags.now }
{
    let mut on = true;
    let mut to = FlagChange {
        stated: Change {
            case_insensitive: None,
            multi_line: None,
            dot_matches_new_line: None,
            crlf: None,
            swap_greed: None,
            unicode: None,
        },
        ignore_whitespace: None,
    };
    for i in 0..flags.len() {
        let is_last = flags.len() - (i + 1) == 0;
        let Some((now_on, changed)) = flag(flags[i], is_last, on, to) else {
            return None;
        };
        on = now_on;
        to = changed;
    }
    Some(to)
}
