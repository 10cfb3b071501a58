//! Meta strategy: which DFA serves a search, and how the search goes.
ghost use Rattle.rc_text.specs.declared.types.Anchored.TheVariants.{No};
ghost use Rattle.std.specs.Prelude.{◌≡◌, ◌<◌, ℕ, false, IsTrue, List, Some, length, slice_index_or};
ghost use Rattle.rc_program.specs.Places.{places_of};
ghost use Rattle.rc_literals.specs.declared.guard.Needs.{Needs as NeedsOf};
ghost use Rattle.rc_needles.specs.Needles.{longest};
ghost use Rattle.rc_needles.specs.Prefilters.{needles_of};
ghost use Rattle.rc_pikevm_search.specs.Choices.{guarding};
ghost use Rattle.rc_dfa_search.specs.Firsts.{TellsOthers};
ghost use Rattle.rc_strategy.specs.Routes.{Serves, ServesAll};

use crate::engines::Engines;
use crate::lengths::Lengths;
use crate::tables::are_fast;
use rc_dense_dfa::dense::Dense;
use rc_dfa_search::heads::Tries;
use rc_lazy_dfa::lazy::Lazy;
use rc_literals::guard::{Guard, Needs};
use rc_needles::byte_set::ByteSet;
use rc_pikevm_search::engine::Engine;
use rc_pikevm_search::literals::{Literals, guards_of};
use rc_text::cursor::Cursor;
use rc_text::input::Input;
use rc_text::types::{Anchored, MatchKind};

/// If more bytes of ASCII than these may begin a match, one of them is likely to: else most attempts
/// fail.
pub(crate) const MANY_BYTES: usize = 64;

/// How many bytes are looked at for one over which a match may begin, if it is likely to fail there.
const NEAR: usize = 16;

/// How many anchored runs are tried where a match is likely to begin.
const LIKELY_RUNS: usize = 4;

/// Which DFA a search uses, if any.
#[derive(Clone, Copy)]
pub(crate) enum TableChoice<'a> {
    /// The DFA.
    AllStates(&'a Dense),
    /// The lazy DFA.
    MetStates(&'a Lazy),
    /// Neither: literals alone decide, or the Pike VM searches.
    NoTables,
}

/// How a DFA search goes. It is chosen when the engines are built.
#[derive(Clone, Copy)]
pub(crate) enum Route {
    /// Forwards, anchored where the search starts.
    FromStart,
    /// Backwards from the end of the search.
    FromEnd,
    /// Forwards to the end of a match of this length in bytes. Nothing is searched backwards.
    OfLength(usize),
    /// Forwards, and then backwards, with no guard. It may first try anchored runs.
    Unguarded,
    /// Forwards, and then backwards.
    Along,
}

/// How many bytes the longest literals have by which searches go from literal to literal.
#[derive(Clone, Copy)]
pub(crate) struct LongestLiterals {
    /// The longest prefix literal. It is 0 if there is none.
    pub(crate) prefix: usize,
    /// The longest required literal. It is 0 if there is none.
    pub(crate) required: usize,
}

/// Returns how many bytes the longest prefix literal has.
fn longest_prefix(literals: &Literals) -> usize
    ensures { (needles : List (List ℕ)) → guarding literals.now ≡ Some needles
        → result ≡ longest needles }
{
    match guards_of(literals) {
        Some(needles) => needles.max_needle_len(),
        None => 0,
    }
}

/// Returns how many bytes the longest required literal has.
fn longest_required(needs: &Option<Needs>) -> usize
    ensures { (n : NeedsOf) → needs.now ≡ Some n → result ≡ longest (needles_of n.needles) }
{
    match needs {
        Some(needs) => needs.needles.max_needle_len(),
        None => 0,
    }
}

impl LongestLiterals {
    ghost use Rattle.std.specs.Prelude.{◌≡◌};
    ghost use Rattle.rc_strategy.specs.Routes.{AreLongest, longest_for};

    /// Those of these prefix literals and of these required ones.
    pub(crate) fn new(literals: &Literals, needs: &Option<Needs>) -> LongestLiterals
        ensures { AreLongest literals.now needs.now result }
    {
        LongestLiterals {
            prefix: longest_prefix(literals),
            required: longest_required(needs),
        }
    }

    /// Returns how many bytes the longest literal of the guard has.
    #[inline(always)]
    pub(crate) fn of_guard(self, guard: Guard) -> usize
        ensures { result ≡ longest_for self guard.entry }
    {
        match guard {
            Guard::Begins(_) => self.prefix,
            Guard::Holds(_) => self.required,
        }
    }
}

/// Returns how an anchored search goes.
pub(crate) fn anchored_route(kind: MatchKind, lengths: &Lengths) -> Route
    ensures { ServesAll kind lengths.now result }
{
    match (kind, lengths.only_length()) {
        (MatchKind::LeftmostFirst | MatchKind::LeftmostLongest, Some(length)) => {
            Route::OfLength(length)
        }
        _ => Route::Along,
    }
}

/// Whether many characters may begin a match: more than `MANY_BYTES` bytes, or one past ASCII, which
/// begins 64 characters at least.
fn are_many(heads: &[bool]) -> bool {
    heads.iter().skip(128).any(|flag| *flag)
        || heads.iter().filter(|flag| **flag).count() > MANY_BYTES
}

/// Returns the bytes without a flag.
fn others_of(heads: &[bool]) -> ByteSet
    requires { length heads.now ≡ 256 }
    ensures { (b : ℕ) → IsTrue (slice_index_or result.flags b false)
        → (b < 256) × (slice_index_or heads.now b false ≡ false) }
{
    let mut others = [false; 256];
    for byte in 0..256usize {
        others[byte] = !heads[byte];
    }
    ByteSet::new(others)
}

/// Returns how many anchored runs a search without a guard tries where a match may begin. They fail
/// mostly if each match begins where a line does; else they don't where a match may be short, or
/// where many characters may begin one.
fn runs_of(heads: &[bool], literals: &Literals, lengths: &Lengths) -> usize {
    if lengths.begin_lines() {
        return 0;
    }
    match guards_of(literals) {
        _ if are_many(heads) => LIKELY_RUNS,
        Some(_) if lengths.may_be_short() => LIKELY_RUNS,
        Some(_) => 1,
        None => 0,
    }
}

/// Returns where a search without a guard tries anchored runs.
pub(crate) fn tries_of(engine: &Engine, lengths: &Lengths) -> Tries
    ensures { TellsOthers (places_of engine.now.program.places.items) 0 result.others.flags }
{
    let Some(heads) = engine.program.head_table(0) else {
        return Tries {
            others: ByteSet::new([false; 256]),
            near: 0,
            runs: 0,
        };
    };
    Tries {
        others: others_of(heads),
        near: if lengths.may_be_short() {
            usize::MAX
        } else {
            NEAR
        },
        runs: runs_of(heads, &engine.literals, lengths),
    }
}

/// Returns how a search goes that isn't anchored: the first route that fits. `needed` says that
/// required literals guard the patterns.
pub(crate) fn free_route(engine: &Engine, lengths: &Lengths, needed: bool) -> Route
    ensures { Serves engine.now.kind lengths.now No result }
{
    if lengths.begin_there() {
        return Route::FromStart;
    }
    if lengths.end_there() {
        return Route::FromEnd;
    }
    match anchored_route(engine.kind, lengths) {
        Route::Along if !needed && !are_fast(&engine.literals) => Route::Unguarded,
        route => route,
    }
}

impl Engines {
    ghost use Rattle.std.specs.Prelude.{◌≡◌, IfSome};
    ghost use Rattle.rc_needles.specs.Needles.{longest};
    ghost use Rattle.rc_literals.specs.Guard.{guard_needles};
    ghost use Rattle.rc_strategy.specs.Lengths.{IsHeld};
    ghost use Rattle.rc_strategy.specs.Route.{GoesBy};
    ghost use Rattle.rc_strategy.specs.Routes.{MayGuard, Serves, longest_for};

    /// Returns which DFA a search uses: the DFA if there is one; else the lazy DFA, if there is one
    /// and `has_states` says that a cache has its states.
    #[inline(always)]
    pub(crate) fn table_choice(&self, has_states: bool) -> TableChoice
        ensures { GoesBy self.now has_states result }
    {
        if let Some(tables) = &self.tables {
            return TableChoice::AllStates(tables);
        }
        if !has_states {
            return TableChoice::NoTables;
        }
        match &self.lazy {
            Some(tables) => TableChoice::MetStates(tables),
            None => TableChoice::NoTables,
        }
    }

    /// Returns how a DFA search of this input goes.
    #[inline(always)]
    pub(crate) fn route<C: Cursor>(&self, input: &Input<C>) -> Route
        ensures { Serves self.now.engine.kind self.now.spans input.now.anchored result }
    {
        match input.get_anchored() {
            Anchored::No => self.free_route,
            _ => self.anchored_route,
        }
    }

    /// Returns the literals by which a search goes from literal to literal: prefix literals if the
    /// search for them is fast, else required ones.
    #[inline(always)]
    pub(crate) fn guard(&self) -> Option<Guard>
        ensures guard { MayGuard self.now.engine result }
        ensures longest { IfSome result
            (λ guard. longest_for self.now.longest guard ≡ longest (guard_needles guard)) }
    {
        if self.sought_fast {
            if let Some(needles) = guards_of(&self.engine.literals) {
                return Some(Guard::Begins(needles));
            }
        }
        match &self.needs {
            Some(needs) => Some(Guard::Holds(needs)),
            None => None,
        }
    }

    /// Anchors a search where it starts, if each match begins where the slice does.
    pub(crate) fn hold<C: Cursor>(&self, input: &mut Input<C>)
        ensures { IsHeld self.now.spans input.old input.new }
    {
        if !self.spans.begin_there() {
            return;
        }
        if let Anchored::No = input.get_anchored() {
            input.set_anchored(Anchored::Yes);
        }
    }
}
