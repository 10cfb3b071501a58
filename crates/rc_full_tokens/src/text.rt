//! Steps over a text.

ghost use Rattle.std.specs.Prelude.{◌≡◌, ◌^◌, ◌≤◌, [], ◌∷◌, false, true, drop, MatchOption};
ghost use Rattle.unicode.specs.Binary.{is_white_space};
ghost use Rattle.rc_tokens.specs.Text.{is_at, is_digit, number};
ghost use Rattle.rc_tokens.specs.Lexer.{run, after_run};
ghost use Rattle.rc_full_tokens.specs.Front.{is_not};

use unicode::properties::is_white_space;

/// The first character, and the rest.
pub fn first(text: &[char]) -> Option<(char, &[char])>
    ensures { MatchOption result (text.now ≡ []) (λ r. text.now ≡ r.0 ∷ r.1.now) }
{
    if text.is_empty() {
        return None;
    }
    Some((text[0], &text[1..]))
}

/// The text behind the character `d`, if it begins with that.
pub fn after(text: &[char], d: char) -> Option<&[char]>
    ensures { MatchOption result (is_at d text.now ≡ false)
        (λ rest. (is_at d text.now ≡ true) × (rest.now ≡ drop 1 text.now)) }
{
    if !text.is_empty() && text[0] == d {
        return Some(&text[1..]);
    }
    None
}

/// The digits at the front, and the rest.
#[tactic(auto, using(rc_tokens::proofs::RunLemmas::passed_none, rc_tokens::proofs::RunLemmas::passed_more, rc_tokens::proofs::RunLemmas::passed_until))]
pub fn digits(text: &[char]) -> (&[char], &[char])
    ensures front { result.0.now ≡ run is_digit text.now }
    ensures rest { result.1.now ≡ after_run is_digit text.now }
{
    for i in 0..text.len() {
        let c = text[i];
        if !('0' <= c && c <= '9') {
            return (&text[..i], &text[i..]);
        }
    }
    (text, &text[text.len()..])
}

/// The text before the first `d`, and the rest.
#[tactic(auto, using(rc_tokens::proofs::RunLemmas::passed_none, rc_tokens::proofs::RunLemmas::passed_more, rc_tokens::proofs::RunLemmas::passed_until))]
pub fn until(text: &[char], d: char) -> (&[char], &[char])
    ensures front { result.0.now ≡ run (is_not d) text.now }
    ensures rest { result.1.now ≡ after_run (is_not d) text.now }
{
    for i in 0..text.len() {
        if text[i] == d {
            return (&text[..i], &text[i..]);
        }
    }
    (text, &text[text.len()..])
}

/// The text behind the white space at its front.
#[tactic(auto, using(rc_tokens::proofs::RunLemmas::passed_none, rc_tokens::proofs::RunLemmas::passed_more, rc_tokens::proofs::RunLemmas::passed_until))]
pub fn behind_blanks(text: &[char]) -> &[char]
    ensures { result.now ≡ after_run is_white_space text.now }
{
    for i in 0..text.len() {
        if !is_white_space(text[i]) {
            return &text[i..];
        }
    }
    &text[text.len()..]
}

/// The number that the digits write, if it is below the limit.
#[tactic(auto, using(rc_tokens::proofs::TextLemmas::number_start, rc_tokens::proofs::TextLemmas::number_empty, rc_tokens::proofs::TextLemmas::read_step, rc_tokens::proofs::TextLemmas::read_none, rc_tokens::proofs::TextLemmas::read_large, rc_tokens::proofs::TextLemmas::read_end))]
pub fn number(digits: &[char], radix: u32, limit: u64) -> Option<u32>
    requires least { 2 ≤ radix }
    requires greatest { radix ≤ 36 }
    requires limit { limit ≤ 2 ^ 32 }
    ensures { result ≡ number radix limit digits.now }
{
    if digits.is_empty() {
        return None;
    }
    let mut n: u64 = 0;
    for i in 0..digits.len() {
        let Some(value) = digits[i].to_digit(radix) else {
            return None;
        };
        n = n * radix as u64 + value as u64;
        if n >= limit {
            return None;
        }
    }
    if n >= limit {
        return None;
    }
    Some(n as u32)
}
