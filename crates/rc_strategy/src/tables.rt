//! DFA choice: builds the DFA or the lazy DFA of some patterns, as the limits allow, and the one-pass
//! DFA.
ghost use Rattle.std.specs.Prelude.{◌≡◌, ◌⊎◌, ◌↔◌, ◌<◌, ◌≤◌, ⊤, ℕ, Bool, IfOk, IfSome, IsSomeAnd, IsTrue, List, MatchOption, None, true, false, length};
ghost use Rattle.rc_pattern.specs.Limits.{greatest_weight};
ghost use Rattle.rc_pattern.specs.Re.{Re};
ghost use Rattle.rc_program.specs.Laws.{heaviness};
ghost use Rattle.rc_program.specs.Places.{places_of};
ghost use Rattle.rc_program.specs.Program.{program};
ghost use Rattle.rc_dfa.specs.Automata.{classes_of, machine_of};
ghost use Rattle.rc_dfa.specs.Machine.{bytes};
ghost use Rattle.rc_dfa.specs.declared.automaton.Direction.TheVariants.{Backwards, Forwards};
ghost use Rattle.rc_lazy_dfa.specs.Caches.{IsLazyOf, least_of};
ghost use Rattle.rc_dfa_search.specs.Classes.{AreClassesOf};
ghost use Rattle.rc_dfa_search.specs.Machines.{AreMachines};
ghost use Rattle.rc_strategy.specs.Limits.{AreOff, AreTooHeavy};
ghost use Rattle.rc_strategy.specs.Makes.{AreMade, AreOverSymbols};
ghost use Rattle.rc_strategy.specs.Slots.{MayBeOnePass};
ghost use Rattle.rc_strategy.specs.Tables.{MayBeTablesFor, MayBeTablesOver};

use crate::engines::Limits;
use crate::onepass::onepass_of;
use rc_dense_dfa::dense::Dense;
use rc_dense_dfa::error::TableError;
use rc_dfa::automaton::Automaton;
use rc_dfa_search::build::automaton_of;
use rc_dfa_search::first::have_openings;
use rc_lazy_dfa::error::LazyError;
use rc_lazy_dfa::lazy::Lazy;
use rc_needles::prefilter::Prefilter;
use rc_onepass::onepass::OnePass;
use rc_pikevm_search::engine::Engine;
use rc_pikevm_search::literals::{Literals, guards_of, literals_of};
use rc_text::frequency::per_thousand;
use std::alloc::{AllocError, Global};

/// Needles are common if more than these of a thousand bytes of most texts are one.
const COMMON: usize = 60;

/// The DFA, or the lazy DFA, or neither; and the lazy DFA over symbols, if there is one.
#[derive(Drop)]
pub(crate) struct Tables {
    pub(crate) dense: Option<Dense>,
    pub(crate) lazy: Option<Lazy>,
    pub(crate) symbols: Option<Lazy>,
}

/// What is built of an engine's program: DFAs, and the one-pass DFA, if there are groups whose slots
/// it can set.
#[derive(Drop)]
pub(crate) struct Machines {
    pub(crate) tables: Tables,
    pub(crate) onepass: Option<OnePass>,
}

/// Whether a program of this many places has more than the limit allows.
fn exceeds(places: usize, limit: Option<usize>) -> bool
    ensures { IsTrue result ↔ IsSomeAnd limit (λ most. most < places) }
{
    match limit {
        Some(most) => places > most,
        None => false,
    }
}

/// Whether some needle is a single byte, and such bytes are common in most texts.
fn are_common(needles: &Prefilter) -> bool {
    let mut sum: usize = 0;
    for needle in &needles.searcher.table.needles {
        if let [byte] = needle.as_slice() {
            sum = sum.saturating_add(per_thousand(*byte));
        }
    }
    sum > COMMON
}

/// Whether DFA searches go from one prefix literal to the next: the search for these is fast and
/// they aren't common, or they are many and few positions are left to their trie. Patterns with
/// many literals have a DFA of large states, of which few are met then. If the search went by a
/// table of first bytes, a DFA would read a byte as fast, and need not begin anew at each literal.
pub(crate) fn are_fast(literals: &Literals) -> bool {
    match guards_of(literals) {
        Some(needles) => needles.is_fast() && !are_common(needles) || have_openings(needles),
        None => false,
    }
}

/// Whether DFA searches are to rest between literals. They are if there are required literals, or
/// if they go from one prefix literal to the next. They are too if some byte may not be read,
/// since a search that came to one goes from literal to literal.
fn are_to_rest(literals: &Literals, needed: bool, automaton: &Automaton) -> bool {
    if needed {
        return true;
    }
    match guards_of(literals) {
        Some(_) => are_fast(literals) || !automaton.may_read(Some(128)),
        None => false,
    }
}

/// Builds the DFA from the determinizer of `patterns` patterns, if the limits allow it. `needed`
/// says that searches go by required literals. `Err` means out of memory.
fn dense_of(
    alloc: Global,
    engine: &Engine,
    needed: bool,
    automaton: &Automaton,
    patterns: usize,
    limits: Limits,
) -> Result<Option<Dense>, AllocError>
    ghost hs: { List Re }
    requires machines { AreMachines hs engine.now.program.terminator engine.now.kind
        (machine_of automaton.now Forwards) (machine_of automaton.now Backwards) }
    requires program { places_of engine.now.program.places.items ≡ program hs }
    requires patterns { patterns ≡ length hs }
    requires light { heaviness (places_of engine.now.program.places.items) ≤ greatest_weight }
    ensures fit { IfOk result (MayBeTablesFor engine.now patterns) }
    ensures read { IfOk result (MayBeTablesOver bytes engine.now patterns) }
    ensures off { AreOff hs limits → IfOk result (λ tables. tables ≡ None) }
    ensures none { IfOk result (λ tables. tables ≡ None → AreOff hs limits
        ⊎ AreTooHeavy engine.now hs limits) }
{
    if !limits.dfa {
        return Ok(None);
    }
    if exceeds(automaton.places_len(), limits.state_limit) {
        return Ok(None);
    }
    let rests = are_to_rest(&engine.literals, needed, automaton);
    match Dense::new(alloc, automaton, limits.size_limit, rests) {
        Ok(tables) => Ok(Some(tables)),
        Err(TableError::TooBig) => Ok(None),
        Err(TableError::Memory) => Err(AllocError),
    }
}

/// Builds the lazy DFA from the determinizer, if it is switched on and its capacity suffices.
fn lazy_of(automaton: Automaton, limits: Limits) -> Option<Lazy>
    ensures made { IfSome result (IsLazyOf automaton limits.capacity) }
    ensures off { limits.hybrid ≡ false → result ≡ None }
    ensures none { result ≡ None → (limits.hybrid ≡ false)
        ⊎ (limits.capacity < least_of automaton) }
{
    if !limits.hybrid {
        return None;
    }
    match Lazy::new(automaton, limits.capacity) {
        Ok(tables) => Some(tables),
        Err(LazyError::TooSmall { .. }) => None,
        Err(LazyError::Memory) => None,
    }
}

/// Builds the determinizer of `patterns` patterns from their engine's program. `Err` means out of
/// memory.
fn automaton_for(
    alloc: Global,
    engine: &Engine,
    patterns: usize,
    limits: Limits,
) -> Result<Automaton, AllocError>
    ghost hs: { List Re }
    requires program { places_of engine.now.program.places.items ≡ program hs }
    requires patterns { patterns ≡ length hs }
    requires light { heaviness (places_of engine.now.program.places.items) ≤ greatest_weight }
    ensures machines { IfOk result (λ automaton. AreMachines hs engine.now.program.terminator
        engine.now.kind (machine_of automaton Forwards) (machine_of automaton Backwards)) }
    ensures classes { IfOk result (λ automaton. AreClassesOf limits.byte_classes hs
        engine.now.program.terminator (classes_of automaton)) }
{
    automaton_of(
        alloc,
        &engine.program.places,
        patterns,
        engine.program.terminator,
        engine.kind,
        limits.byte_classes,
    )
}

/// Builds the lazy DFA over symbols, if some byte may not be read alone, and the limits allow it.
/// `Err` means out of memory.
fn symbols_of(
    alloc: Global,
    engine: &Engine,
    automaton: &Automaton,
    patterns: usize,
    limits: Limits,
) -> Result<Option<Lazy>, AllocError>
    ghost hs: { List Re }
    requires program { places_of engine.now.program.places.items ≡ program hs }
    requires patterns { patterns ≡ length hs }
    requires light { heaviness (places_of engine.now.program.places.items) ≤ greatest_weight }
    ensures { IfOk result (AreOverSymbols engine.now patterns hs limits) }
{
    if !limits.unicode_words || automaton.may_read(Some(128)) {
        return Ok(None);
    }
    let own = automaton_for(alloc, engine, patterns, limits)?;
    Ok(lazy_of(own.over_symbols(), limits))
}

/// Builds the DFA or the lazy DFA of `patterns` patterns from their engine's program, as the limits
/// allow. If literals alone decide each answer, neither is built. `needed` says that searches go by
/// required literals. `Err` means out of memory.
fn tables_of(
    alloc: Global,
    engine: &Engine,
    needed: bool,
    patterns: usize,
    limits: Limits,
) -> Result<Tables, AllocError>
    ghost hs: { List Re }
    requires program { places_of engine.now.program.places.items ≡ program hs }
    requires patterns { patterns ≡ length hs }
    requires light { heaviness (places_of engine.now.program.places.items) ≤ greatest_weight }
    ensures made { IfOk result (λ tables. AreMade engine.now patterns hs limits
        tables.dense tables.lazy) }
    ensures symbols { IfOk result (λ tables. AreOverSymbols engine.now patterns hs limits
        tables.symbols) }
{
    if literals_of(&engine.literals, engine.kind).is_some() {
        return Ok(Tables {
            dense: None,
            lazy: None,
            symbols: None,
        });
    }
    if !limits.dfa && !limits.hybrid {
        return Ok(Tables {
            dense: None,
            lazy: None,
            symbols: None,
        });
    }
    let automaton = automaton_for(alloc, engine, patterns, limits)?;
    let symbols = symbols_of(alloc, engine, &automaton, patterns, limits)?;
    let dense = dense_of(alloc, engine, needed, &automaton, patterns, limits)?;
    if dense.is_some() {
        let lazy = None;
        return Ok(Tables {
            dense,
            lazy,
            symbols,
        });
    }
    let lazy = lazy_of(automaton, limits);
    Ok(Tables {
        dense,
        lazy,
        symbols,
    })
}

/// Builds the DFAs and the one-pass DFA of `patterns` patterns from their engine's program, as
/// `tables_of` and `onepass_of` do. `Err` means out of memory.
pub(crate) fn machines_of(
    alloc: Global,
    engine: &Engine,
    needed: bool,
    patterns: usize,
    limits: Limits,
) -> Result<Machines, AllocError>
    ghost hs: { List Re }
    requires program { places_of engine.now.program.places.items ≡ program hs }
    requires patterns { patterns ≡ length hs }
    requires light { heaviness (places_of engine.now.program.places.items) ≤ greatest_weight }
    ensures made { IfOk result (λ machines. AreMade engine.now patterns hs limits
        machines.tables.dense machines.tables.lazy) }
    ensures symbols { IfOk result (λ machines. AreOverSymbols engine.now patterns hs limits
        machines.tables.symbols) }
    ensures single { IfOk result (λ machines.
        ∥ MayBeOnePass (places_of engine.now.program.places.items) machines.onepass ∥₁) }
{
    let onepass = onepass_of(alloc, engine)?;
    let tables = tables_of(alloc, engine, needed, patterns, limits)?;
    Ok(Machines { tables, onepass })
}
