//! First-byte table: needles chained by their first byte.
ghost use Rattle.std.specs.Prelude.{◌≡◌, ◌<◌, ◌≤◌, IfOk, length, slice_index};
ghost use Rattle.rc_needles.specs.Tables.{AreHeads, AreNexts, AreSome, needles_in};
ghost use Rattle.rc_needles.specs.Tries.{AreCarriedBy, AreCarriedBy-is_fact};

use crate::trie::{Trie, trie_of};
use std::alloc::{AllocError, Global};

/// The needles; for each byte the first needle that begins with it; and for each needle the next
/// that begins with the same byte. If there is none, it is how many needles there are. Many needles
/// have a trie too.
#[derive(Drop)]
pub struct Table {
    pub needles: Vec<Vec<u8>>,
    pub heads: Vec<usize>,
    pub nexts: Vec<usize>,
    pub trie: Option<Trie>,
    ghost some: { AreSome (needles_in needles.items) },
    ghost head_count: { length heads.items ≡ 256 },
    ghost next_count: { length nexts.items ≡ length needles.items },
    ghost headed: { AreHeads (needles_in needles.items) 0 heads.items },
    ghost linked: { AreNexts (needles_in needles.items) 0 nexts.items },
    ghost carried: { AreCarriedBy trie (needles_in needles.items) } by { AreCarriedBy-is_fact trie (needles_in needles.items) },
}

/// Builds the table of these needles. `Err` means out of memory.
pub fn table_of(alloc: Global, needles: Vec<Vec<u8>>) -> Result<Table, AllocError>
    requires { AreSome (needles_in needles.items) }
    ensures { IfOk result (λ t. t.needles ≡ needles) }
{
    let trie = trie_of(alloc, &needles)?;
    let count = needles.len();
    let mut heads = vec![in alloc; count; 256]?;
    let mut nexts = vec![in alloc; count; count]?;
    let mut number = count;
    while number > 0 {
        number -= 1;
        let byte = first_of(needles[number].as_slice());
        nexts[number] = heads[byte];
        heads[byte] = number;
    }
    Ok(Table {
        needles,
        heads,
        nexts,
        trie,
    })
}

/// Returns the byte with which a needle begins.
fn first_of(needle: &[u8]) -> usize
    requires { 0 < length needle.now }
    ensures small { result < 256 }
    ensures value { result ≡ slice_index needle.now 0 }
{
    needle[0] as usize
}
