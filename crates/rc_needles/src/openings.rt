//! Bloom filter: a table of bits for the first three bytes of needles, so that one lookup rules out
//! most indices.
ghost use Rattle.std.specs.Prelude.{◌≡◌, ◌+◌, ◌*◌, ◌%◌, ◌<◌, ◌≤◌, ℕ, IfOk, IsTrue, length, true};
ghost use Rattle.rc_needles.specs.Openings.{AreOpened, ArePassed, AreWhole, IsOpened, opens, word_of};
ghost use Rattle.rc_needles.specs.Tables.{needles_in};

use std::alloc::{AllocError, Global};

/// How many words the bits take, if there are any.
const WORDS: usize = 2048;

/// Fewer needles have no bits: Teddy serves them.
const LEAST_COUNT: usize = 65;

/// Returns which word has the bits of two bytes.
#[inline(always)]
fn word_of(first: u8, second: u8) -> usize
    ensures small { result < 2048 }
    ensures value { result ≡ word_of first second }
{
    first as usize % 64 * 32 + second as usize % 32
}

/// Whether the bit of three bytes is set. Some other bytes share that bit.
#[inline(always)]
fn opens(words: &[u32], first: u8, second: u8, third: u8) -> bool
    requires { AreWhole words.now }
    ensures { result ≡ opens words.now first second third }
{
    let word = words[word_of(first, second)];
    (word >> (third % 32)) % 2 == 1
}

/// Whether the bits of two bytes and each third byte are set.
fn opens_each(words: &[u32], first: u8, second: u8) -> bool
    requires { AreWhole words.now }
    ensures { IsTrue result → (third : ℕ) → third < 256
        → opens words.now first second third ≡ true }
{
    for third in 0..256usize {
        if !opens(words, first, second, third as u8) {
            return false;
        }
    }
    true
}

/// Whether the bits allow the needle, whatever follows it.
fn takes(words: &[u32], needle: &[u8]) -> bool
    requires { AreWhole words.now }
    ensures { IsTrue result → IsOpened words.now needle.now }
{
    if needle.len() < 2 {
        return false;
    }
    if needle.len() == 2 {
        return opens_each(words, needle[0], needle[1]);
    }
    opens(words, needle[0], needle[1], needle[2])
}

/// Returns the first index from `from` on whose three bytes have their bit set. Without any bits,
/// that is `from`.
#[inline(always)]
pub fn opened_from(words: &[u32], piece: &[u8], from: usize) -> usize
    ensures low { from ≤ result }
    ensures within { from ≤ length piece.now → result ≤ length piece.now }
    ensures passed { ArePassed words.now piece.now from result }
{
    if words.len() != WORDS {
        return from;
    }
    first_opened(words, piece, from)
}

/// Returns the first index from `from` on whose three bytes have their bit set. If there is none,
/// it is the index of the last two bytes, or `from`.
#[inline(always)]
fn first_opened(words: &[u32], piece: &[u8], from: usize) -> usize
    requires { AreWhole words.now }
    ensures low { from ≤ result }
    ensures within { from ≤ length piece.now → result ≤ length piece.now }
    ensures passed { ArePassed words.now piece.now from result }
{
    let last = piece.len().saturating_sub(2);
    for at in from..last {
        if opens(words, piece[at], piece[at + 1], piece[at + 2]) {
            return at;
        }
    }
    from.max(last)
}

/// Builds the bits of the first three bytes of these needles. It returns no bits if the needles are
/// few, or one has a single byte. `Err` means out of memory.
pub fn openings_of(alloc: Global, needles: &[Vec<u8>]) -> Result<Vec<u32>, AllocError>
    ensures { IfOk result (λ words. AreOpened words.items (needles_in needles.now)) }
{
    if needles.len() < LEAST_COUNT {
        return Ok(Vec::new(alloc));
    }
    let words = filled(alloc, needles)?;
    if words.len() == WORDS && take_each(&words, needles) {
        return Ok(words);
    }
    Ok(Vec::new(alloc))
}

/// Whether the bits allow each of the needles.
fn take_each(words: &[u32], needles: &[Vec<u8>]) -> bool
    requires { AreWhole words.now }
    ensures { IsTrue result → AreOpened words.now (needles_in needles.now) }
{
    for needle in needles {
        if !takes(words, needle.as_slice()) {
            return false;
        }
    }
    true
}

/// Builds the words with the bits of each of the needles. `Err` means out of memory.
fn filled(alloc: Global, needles: &[Vec<u8>]) -> Result<Vec<u32>, AllocError> {
    let mut words = vec![in alloc; 0; WORDS]?;
    for needle in needles {
        open(&mut words, needle.as_slice());
    }
    Ok(words)
}

/// Sets the bit of the needle's first three bytes, or of its two bytes and any third.
fn open(words: &mut [u32], needle: &[u8]) {
    let Some(first) = needle.get(0) else {
        return;
    };
    let Some(second) = needle.get(1) else {
        return;
    };
    let bits = match needle.get(2) {
        Some(third) => 1 << (*third % 32),
        None => u32::MAX,
    };
    if let Some(word) = words.get_mut(word_of(*first, *second)) {
        *word |= bits;
    }
}
