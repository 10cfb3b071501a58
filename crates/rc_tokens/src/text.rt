//! Character tests and steps over a text.

ghost use Rattle.std.specs.Prelude.{◌≡◌, ℕ, ◌^◌, ◌+◌, ◌*◌, ◌<◌, ◌≤◌, ◌-◌, ◌++◌, ◌∷◌, [], None, Some, true, false, drop, take, length, MatchOption, if◌then◌else◌};
ghost use Rattle.rc_tokens.specs.Text.{is_at, is_digit, is_letter, is_scalar, each, number, value_from, same_text, has_twice};
ghost use Rattle.rc_tokens.specs.Lexer.{run, after_run, is_before};
ghost use Rattle.rc_tokens.specs.View.{Lexes};

/// The first character, and the rest.
pub(crate) fn first(text: &[char]) -> Option<(char, &[char])>
    ensures { MatchOption result (text.now ≡ []) (λ r. text.now ≡ r.0 ∷ r.1.now) }
{
    if text.is_empty() {
        return None;
    }
    Some((text[0], &text[1..]))
}

/// The text after the character `d`, if it begins with that.
pub(crate) fn after(text: &[char], d: char) -> Option<&[char]>
    ensures { MatchOption result (is_at d text.now ≡ false)
        (λ rest. (is_at d text.now ≡ true) × (rest.now ≡ drop 1 text.now)) }
{
    let (c, rest) = first(text)?;
    if c == d {
        return Some(rest);
    }
    None
}

pub(crate) fn is_digit(c: char) -> bool
    ensures { result ≡ is_digit c }
{
    '0' <= c && c <= '9'
}

pub(crate) fn is_letter(c: char) -> bool
    ensures { result ≡ is_letter c }
{
    ('A' <= c && c <= 'Z') || ('a' <= c && c <= 'z')
}

/// The digits at the front, and the rest.
#[tactic(auto, using(crate::proofs::RunLemmas::passed_none, crate::proofs::RunLemmas::passed_more, crate::proofs::RunLemmas::passed_until))]
pub(crate) fn digits(text: &[char]) -> (&[char], &[char])
    ensures front { result.0.now ≡ run is_digit text.now }
    ensures rest { result.1.now ≡ after_run is_digit text.now }
{
    for i in 0..text.len() {
        if !is_digit(text[i]) {
            return (&text[..i], &text[i..]);
        }
    }
    (text, &text[text.len()..])
}

/// The text before the first of the two characters, and the rest.
#[tactic(auto, using(crate::proofs::RunLemmas::passed_none, crate::proofs::RunLemmas::passed_more, crate::proofs::RunLemmas::passed_until))]
pub(crate) fn until(text: &[char], d: char, e: char) -> (&[char], &[char])
    ensures front { result.0.now ≡ run (is_before d e) text.now }
    ensures rest { result.1.now ≡ after_run (is_before d e) text.now }
{
    for i in 0..text.len() {
        if text[i] == d || text[i] == e {
            return (&text[..i], &text[i..]);
        }
    }
    (text, &text[text.len()..])
}

/// The number that the digits write, if it is below the limit.
#[tactic(auto, using(crate::proofs::TextLemmas::number_start, crate::proofs::TextLemmas::number_empty, crate::proofs::TextLemmas::read_step, crate::proofs::TextLemmas::read_none, crate::proofs::TextLemmas::read_large, crate::proofs::TextLemmas::read_end))]
pub(crate) fn number(digits: &[char], radix: u32, limit: u64) -> Option<u32>
    requires least { 2 ≤ radix }
    requires greatest { radix ≤ 36 }
    requires limit { limit ≤ 2 ^ 32 }
    ensures { result ≡ number radix limit digits.now }
{
    if digits.is_empty() {
        return None;
    }
    let mut n: u64 = 0;
    for i in 0..digits.len() {
        let Some(value) = digits[i].to_digit(radix) else {
            return None;
        };
        n = n * radix as u64 + value as u64;
        if n >= limit {
            return None;
        }
    }
    if n >= limit {
        return None;
    }
    Some(n as u32)
}

/// Whether the two texts are equal.
#[tactic(auto, using(crate::proofs::TextLemmas::same_lengths))]
pub(crate) fn is_same(text: &[char], other: &[char]) -> bool
    ensures { result ≡ same_text text.now other.now }
{
    if text.len() != other.len() {
        return false;
    }
    for i in 0..text.len() {
        if text[i] != other[i] {
            return false;
        }
    }
    true
}

/// Whether the character occurs twice in a row.
pub(crate) fn has_twice(text: &[char], c: char) -> bool
    ensures { result ≡ has_twice c text.now }
{
    let mut before = false;
    for d in text {
        let is_it = *d == c;
        if before && is_it {
            return true;
        }
        before = is_it;
    }
    false
}
