//! A tokenizer.

use regex_cursor::Input;
use regex_cursor::cursor::ChunkCursor;
use regex_cursor::engines::meta::{Finder, Regex};
use regex_cursor::types::{Anchored, Match, Span};
use std::alloc::{AllocError, Global};

/// The kinds of tokens, in the order in which they are preferred.
pub const KINDS: [&str; 4] = [r"[ \t\n]+", r"[A-Za-z_]\w*", r"[0-9]+", r"[-+*/=();]"];

/// The number of the kind of words.
pub const WORD: usize = 1;

/// The words among the tokens.
pub fn words(alloc: Global, kinds: &Regex, text: ChunkCursor<'_>) -> Result<Vec<Span>, AllocError> {
    let input = Input::new(text).with_anchored(Anchored::Yes);
    let tokens = kinds.find_iter(alloc, input)?;
    tokens
        .filter(|token| token.pattern().as_usize() == WORD)
        .map(|token| token.span())
        .collect(alloc)
}

/// The token where the input starts, which then starts behind it. The input is anchored.
pub fn next_token(finder: &mut Finder<'_>, input: &mut Input<ChunkCursor<'_>>) -> Option<Match> {
    let token = finder.find(input)?;
    input.set_start(token.end());
    Some(token)
}
