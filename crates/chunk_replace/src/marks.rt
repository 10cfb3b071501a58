//! Template syntax: what follows a `$`.
ghost use Rattle.std.specs.Prelude.{◌≡◌, MatchOption, SomeIff};
ghost use Rattle.std.specs.Str.Parse.{digits_value};
ghost use Rattle.rc_tokens.specs.Text.{each};
ghost use Rattle.rc_tokens.specs.Marks.{begins_name, goes_on_name, is_name};
ghost use Rattle.chunk_replace.specs.Template.{IsNumber, items_of};
ghost use Rattle.chunk_replace.specs.Marks.{IsNoReference, IsUnmarked, Marks, Refers};

use crate::template::Part;

/// The part that a `$` before the text begins, and the text after that part.
pub(crate) fn marked(text: &str) -> Option<(Part<'_>, &str)>
    ensures { MatchOption result (IsUnmarked text.now)
        (λ r. Marks text.now (items_of r.0) r.1.now) }
{
    if let Some(rest) = text.strip_prefix('$') {
        return Some((Part::Literal("$"), rest));
    }
    let (word, rest) = text.strip_prefix('{')?.split_once('}')?;
    Some((reference(word)?, rest))
}

/// The group that a word in braces refers to.
fn reference(word: &str) -> Option<Part<'_>>
    ensures { MatchOption result (IsNoReference word.now)
        (λ part. Refers word.now (items_of part)) }
{
    if is_name(word.as_bytes()) {
        return Some(Part::Name(word));
    }
    let number = number_of(word)?;
    Some(Part::Group(number))
}

/// The number that the digits write.
pub(crate) fn number_of(word: &str) -> Option<usize>
    ensures { SomeIff result (IsNumber word.now) (digits_value 10 word.now) }
{
    if word.as_bytes().first() == Some(&b'+') {
        return None;
    }
    word.parse().ok()
}

/// Whether the bytes are the name of a group.
fn is_name(word: &[u8]) -> bool
    ensures { result ≡ is_name word.now }
{
    let Some(first) = word.first() else {
        return false;
    };
    begins_name(*first) && all_go_on(&word[1..])
}

fn all_go_on(bytes: &[u8]) -> bool
    ensures { result ≡ each goes_on_name bytes.now }
{
    for b in bytes {
        if !goes_on_name(*b) {
            return false;
        }
    }
    true
}

fn begins_name(b: u8) -> bool
    ensures { result ≡ begins_name b }
{
    b.is_ascii_alphabetic() || b == b'_'
}

fn goes_on_name(b: u8) -> bool
    ensures { result ≡ goes_on_name b }
{
    b.is_ascii_alphanumeric() || b == b'_' || b == b'.' || b == b'[' || b == b']'
}
