//! Trie: needles as paths of nodes in one array, so that a lookup at an index doesn't compare all
//! of them.
ghost use Rattle.std.specs.Prelude.{◌≡◌, ◌+◌, ◌<◌, ◌≤◌, ℕ, IfOk, IfSome, IsTrue, List, length, slice_index};
ghost use Rattle.rc_needles.specs.Openings.{ArePassed};
ghost use Rattle.rc_needles.specs.Tables.{Agrees, needles_in};
ghost use Rattle.rc_needles.specs.Tries.{AreCarriedBy, IsCarried, number_at, step};

use crate::openings::{opened_from, openings_of};
use std::alloc::{AllocError, Global};

/// The node at which each path begins. Number 0 stands for no node.
pub const ROOT: usize = 1;

/// The least number of needles that have a trie.
const LEAST_COUNT: usize = 16;

/// A node of no path.
const FREE: Node = Node {
    base: 0,
    parent: 0,
    number: u32::MAX,
};

/// How far back the search for free nodes begins: this many nodes before the last ones that were
/// laid out.
const REACH: usize = 64;

/// A node. Its child for a byte is the node at the index `base` plus that byte, if that node's
/// parent is this one.
#[derive(Clone, Copy)]
pub struct Node {
    pub base: u32,
    pub parent: u32,
    /// The number of the first needle that ends here.
    pub number: u32,
}

/// The nodes, and the bits of first bytes that are asked before them.
#[derive(Drop)]
pub struct Trie {
    pub nodes: Vec<Node>,
    pub openings: Vec<u32>,
}

/// A node while paths are built: its byte, the first needle that ends there, its last child, and
/// the child of its parent that was made before it. 0 stands for none.
#[derive(Clone, Copy)]
struct Branch {
    byte: u8,
    number: u32,
    child: usize,
    sibling: usize,
}

impl Trie {
    /// Returns the node to which a byte leads from a node, or 0.
    #[inline(always)]
    pub fn step(&self, from: usize, byte: u8) -> usize
        ensures { result ≡ step self.now.nodes.items from byte }
    {
        let Some(node) = self.nodes.get(from) else {
            return 0;
        };
        let to = node.base as usize + byte as usize;
        match self.nodes.get(to) {
            Some(next) => { if next.parent as usize == from { to } else { 0 } }
            None => 0,
        }
    }

    /// Returns the number of the first needle that ends at the node, or a greater one if there is
    /// none.
    #[inline(always)]
    pub fn number(&self, at: usize) -> usize
        ensures { result ≡ number_at self.now.nodes.items at }
    {
        match self.nodes.get(at) {
            Some(node) => node.number as usize,
            None => 0,
        }
    }

    /// Whether the needle is a path that ends at a node whose first needle has at most this number.
    fn carries(&self, needle: &[u8], number: usize) -> bool
        ensures { IsTrue result → IsCarried self.now.nodes.items needle.now number }
    {
        let mut at = ROOT;
        for byte in needle {
            at = self.step(at, *byte);
            if at == 0 {
                return false;
            }
        }
        self.number(at) <= number
    }

    /// Returns the least number of a needle with which the bytes begin, by the paths, or `count` if
    /// there is none below it. Returns None if the bytes end before the paths do, or there is no
    /// path.
    #[inline(always)]
    pub fn lead(&self, bytes: &[u8], count: usize) -> Option<usize>
        ensures { IfSome result (λ number. (needle : List ℕ) (n : ℕ)
            → IsCarried self.now.nodes.items needle n → 0 < length needle
            → Agrees bytes.now needle 0 → number ≤ n) }
    {
        let mut at = ROOT;
        let mut base = self.nodes.get(ROOT)?.base;
        let mut number = count;
        for byte in bytes {
            let to = base as usize + *byte as usize;
            let Some(next) = self.nodes.get(to) else {
                return Some(number);
            };
            if next.parent as usize != at {
                return Some(number);
            }
            at = to;
            base = next.base;
            number = number.min(next.number as usize);
        }
        None
    }

    /// Returns the first index from `from` on at which a needle may begin, by the bits of first
    /// bytes. Without any bits, that is `from`.
    #[inline(always)]
    pub fn opened_from(&self, piece: &[u8], from: usize) -> usize
        ensures low { from ≤ result }
        ensures within { from ≤ length piece.now → result ≤ length piece.now }
        ensures passed { ArePassed self.now.openings.items piece.now from result }
    {
        opened_from(&self.openings, piece, from)
    }

    /// Lays out the children of a branch at the node `base`.
    fn lay(
        &mut self,
        alloc: Global,
        branches: &[Branch],
        slots: &mut [usize],
        at: usize,
        base: usize,
    ) -> Result<(), AllocError> {
        for _ in self.nodes.len()..base.saturating_add(257) {
            self.nodes.push(FREE)?;
        }
        let from = number_in(slots, at);
        if let Some(node) = self.nodes.get_mut(from) {
            node.base = u32::try_from(base).unwrap_or(0);
        }
        let mut next = first_child(branches, at);
        for _ in 0..256 {
            let Some(branch) = branch_at(branches, next) else {
                break;
            };
            let to = base.saturating_add(branch.byte as usize);
            if let Some(node) = self.nodes.get_mut(to) {
                node.parent = u32::try_from(from).unwrap_or(0);
                node.number = branch.number;
            }
            if let Some(slot) = slots.get_mut(next) {
                *slot = to;
            }
            next = branch.sibling;
        }
        Ok(())
    }

    /// Returns the first node from `from` on at which the children of a branch have room. Behind
    /// the last node there is room.
    fn room_for(&self, branches: &[Branch], at: usize, from: usize) -> usize {
        for base in from..self.nodes.len() {
            if self.is_room(branches, at, base) {
                return base;
            }
        }
        self.nodes.len()
    }

    /// Whether all nodes are free that the children of a branch would take.
    fn is_room(&self, branches: &[Branch], at: usize, base: usize) -> bool {
        let mut next = first_child(branches, at);
        for _ in 0..256 {
            let Some(branch) = branch_at(branches, next) else {
                break;
            };
            if let Some(node) = self.nodes.get(base.saturating_add(branch.byte as usize)) {
                if node.parent != 0 {
                    return false;
                }
            }
            next = branch.sibling;
        }
        true
    }
}

/// Builds the trie of these needles. Returns None if they are few, or the trie doesn't have each of
/// them. `Err` means out of memory.
pub fn trie_of(alloc: Global, needles: &[Vec<u8>]) -> Result<Option<Trie>, AllocError>
    ensures { IfOk result (λ found. AreCarriedBy found (needles_in needles.now)) }
{
    if needles.len() < LEAST_COUNT {
        return Ok(None);
    }
    let nodes = laid_out(alloc, needles)?;
    let openings = openings_of(alloc, needles)?;
    let trie = Trie { nodes, openings };
    for (number, needle) in needles.iter().enumerate() {
        if !trie.carries(needle.as_slice(), number) {
            return Ok(None);
        }
    }
    Ok(Some(trie))
}

/// Builds the nodes of these needles. `Err` means out of memory.
fn laid_out(alloc: Global, needles: &[Vec<u8>]) -> Result<Vec<Node>, AllocError> {
    let branches = branches_of(alloc, needles)?;
    let mut slots = vec![in alloc; ROOT; branches.len()]?;
    let nodes = vec![in alloc; FREE; 2]?;
    let openings = Vec::new(alloc);
    let mut trie = Trie { nodes, openings };
    let mut from = 2;
    for at in 0..branches.len() {
        let base = trie.room_for(&branches, at, from);
        trie.lay(alloc, &branches, &mut slots, at, base)?;
        from = from.max(base.saturating_sub(REACH));
    }
    Ok(trie.nodes)
}

/// Builds the branches of these needles, each after its parent. `Err` means out of memory.
fn branches_of(alloc: Global, needles: &[Vec<u8>]) -> Result<Vec<Branch>, AllocError> {
    let mut branches = Vec::new(alloc);
    add_child(&mut branches, 0, 0)?;
    for (number, needle) in needles.iter().enumerate() {
        let number = u32::try_from(number).unwrap_or(u32::MAX);
        add_path(&mut branches, needle.as_slice(), number)?;
    }
    Ok(branches)
}

/// Adds the branches of a needle that are missing.
fn add_path(branches: &mut Vec<Branch>, needle: &[u8], number: u32) -> Result<(), AllocError> {
    let mut at = 0;
    for byte in needle {
        at = match child_of(branches, at, *byte) {
            Some(child) => child,
            None => add_child(branches, at, *byte)?,
        };
    }
    if let Some(branch) = branches.get_mut(at) {
        branch.number = branch.number.min(number);
    }
    Ok(())
}

/// Adds a branch to another, and returns its index.
fn add_child(branches: &mut Vec<Branch>, at: usize, byte: u8) -> Result<usize, AllocError> {
    let child = branches.len();
    let sibling = first_child(branches, at);
    if let Some(parent) = branches.get_mut(at) {
        parent.child = child;
    }
    branches.push(Branch {
        byte,
        number: u32::MAX,
        child: 0,
        sibling,
    })?;
    Ok(child)
}

/// Returns the child of a branch for a byte.
fn child_of(branches: &[Branch], at: usize, byte: u8) -> Option<usize> {
    let mut next = first_child(branches, at);
    for _ in 0..256 {
        let branch = branch_at(branches, next)?;
        if branch.byte == byte {
            return Some(next);
        }
        next = branch.sibling;
    }
    None
}

/// Returns the last child of a branch, or 0.
fn first_child(branches: &[Branch], at: usize) -> usize {
    match branches.get(at) {
        Some(branch) => branch.child,
        None => 0,
    }
}

/// Returns the branch at an index, or None for index 0.
fn branch_at(branches: &[Branch], at: usize) -> Option<Branch> {
    if at == 0 {
        return None;
    }
    match branches.get(at) {
        Some(branch) => Some(*branch),
        None => None,
    }
}

/// Returns the number at an index, or 0.
fn number_in(numbers: &[usize], at: usize) -> usize {
    match numbers.get(at) {
        Some(number) => *number,
        None => 0,
    }
}
