//! Editor: the tokens of a text, kept under edits.
ghost use Rattle.std.specs.Prelude.{IfOk};
ghost use Rattle.live_matches.specs.Live.{IsCacheOf, IsLive};

use crate::tokens::WORD;
use gap_buffer::GapBuffer;
use gap_buffer::typing::type_live;
use live_matches::LiveMatches;
use regex_cursor::engines::meta::{BuildError, Cache, Regex};
use regex_cursor::syntax::Config;
use regex_cursor::types::Span;
use std::alloc::{AllocError, Global};

/// The kinds of tokens. The last one takes a byte that begins no other, so each byte is in some
/// token.
const ALL_KINDS: [&str; 5] = [
    r"[ \t\n]+",
    r"[A-Za-z_]\w*",
    r"[0-9]+",
    r"[-+*/=();]",
    r"(?s-u:.)",
];

/// The regex of the kinds.
pub fn all_kinds(alloc: Global) -> Result<Regex, BuildError> {
    let mut builder = Regex::builder();
    builder.syntax(Config::new().utf8(false));
    builder.build_many(alloc, &ALL_KINDS)
}

/// Types bytes at the caret, and keeps the tokens of the text. Returns the span to color anew. An
/// `Err` means out of memory: nothing changed, or the list is stale.
pub fn type_code(
    text: &mut GapBuffer,
    bytes: &[u8],
    tokens: &mut LiveMatches,
    kinds: &Regex,
    cache: &mut Cache,
) -> Result<Span, AllocError>
    requires made { IsCacheOf kinds.now cache.old }
    requires tokens { IsLive kinds.now text.old.content tokens.old }
    ensures made { IsCacheOf kinds.now cache.new }
    ensures tokens { IfOk result (λ _. IsLive kinds.now text.new.content tokens.new) }
{
    let changed = type_live(text, 0, bytes, tokens, None, kinds, cache)?;
    Ok(changed.span)
}

/// The words among the tokens of a window.
pub fn words_in(
    alloc: Global,
    tokens: &LiveMatches,
    window: Span,
) -> Result<Vec<Span>, AllocError> {
    tokens
        .matches_in(window)
        .filter(|token| token.pattern().as_usize() == WORD)
        .map(|token| token.span())
        .collect(alloc)
}
