//! Literal search: finds needles wherever chunks are cut, by memmem, packed pairs, Teddy or a trie.
//!
//! Inside a chunk, `memchr`'s searches find candidates. Across a border, bytes are compared in
//! place, and the cursor moves forward and back. A needle of more than 32 bytes is read on by its
//! failure function instead, and the cursor only moves forward. No search allocates or copies a
//! byte of the content.
#![tactic(auto)]

pub mod byte_set;
mod candidates;
mod failure;
pub mod hit;
mod lanes;
pub mod laws;
pub mod literal;
mod long;
mod many;
mod openings;
mod pairs;
pub mod prefilter;
mod scan;
mod table;
mod teddy;
mod trie;
