//! Group names of a pattern.

ghost use Rattle.std.specs.Prelude.{◌≡◌, ℕ, ◌∷◌, ◌++◌, [], List, IfOk, map, string_bytes};
ghost use Rattle.std.specs.BTreeSet.{contains_text};
ghost use Rattle.rc_parser.specs.Grammar.{is_named};

use std::alloc::{AllocError, Global};
use std::collections::BTreeSet;

/// The names of the groups so far: in order, and as a set in which they are looked up.
#[derive(Drop)]
pub struct Names {
    pub list: Vec<String>,
    pub set: BTreeSet<String>,
    ghost same: { (name : List ℕ)
        → contains_text set name ≡ is_named name (map string_bytes list.items) },
}

fn copy_of(alloc: Global, name: &str) -> Result<String, AllocError>
    ensures { IfOk result (λ s. string_bytes s ≡ name.now) }
{
    let mut copy = String::new(alloc);
    copy.push_str(name)?;
    Ok(copy)
}

impl Names {
    pub fn new(alloc: Global) -> Names
        ensures { result.list.items ≡ [] }
    {
        Names {
            list: Vec::new(alloc),
            set: BTreeSet::new(alloc),
        }
    }

    /// Whether the name is one of them.
    pub fn has(&self, name: &str) -> bool
        ensures { result ≡ is_named name.now (map string_bytes self.now.list.items) }
    {
        self.set.contains(name)
    }

    /// The names with one more.
    pub fn with(self, alloc: Global, name: &str) -> Result<Names, AllocError>
        ensures { IfOk result (λ names. map string_bytes names.list.items
            ≡ map string_bytes self.list.items ++ name.now ∷ []) }
    {
        let Names { mut list, mut set } = self;
        list.push(copy_of(alloc, name)?)?;
        set.insert(copy_of(alloc, name)?)?;
        Ok(Names { list, set })
    }
}
