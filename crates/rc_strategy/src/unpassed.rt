//! DFA search that passes no match over: the leftmost match begins where the first walk does.
ghost use Rattle.std.specs.Prelude.{◌≡◌, IfOk};
ghost use Rattle.rc_text.specs.Text.{Keeps};
ghost use Rattle.rc_program.specs.Kinds.{answer_by};
ghost use Rattle.rc_pikevm_search.specs.Engine.{engine_search};
ghost use Rattle.rc_strategy.specs.Starts.{unpassed};
ghost use Rattle.rc_strategy.specs.Tables.{AreHalvesFor};

use crate::cache::Cache;
use crate::engines::Engines;
use crate::route::TableChoice;
use rc_dense_dfa::dense::NoCache;
use rc_dfa::halves::Halves;
use rc_dfa_search::search::{Aim, find};
use rc_lazy_dfa::lazy;
use rc_text::cursor::Cursor;
use rc_text::input::Input;
use rc_text::types::{Match, MatchError};

/// Returns the match by a DFA, as if none were passed over. The search is anchored if each match
/// begins where it does. An `Err` says why the DFA has no answer.
fn find_by_tables<H: Halves, C: Cursor>(
    engines: &Engines,
    halves: &H,
    cache: &mut H::Cache,
    input: &mut Input<C>,
) -> Result<Option<Match>, MatchError>
    requires own { ∥ AreHalvesFor engines.now.engine engines.now.patterns (H.AreOf halves.now) ∥₁ }
    requires cache { H.IsCache halves.now cache.old }
    ensures cache { H.IsCache halves.now cache.new }
    ensures keeps { Keeps input.old input.new }
    ensures found { IfOk result (λ found. found ≡ answer_by engines.now.engine.kind
        (unpassed (engine_search engines.now.engine input.old))) }
{
    let aim = Aim {
        passes_over: false,
        ..engines.aim()
    };
    let anchored = input.get_anchored();
    engines.hold(input);
    let found = find(halves, cache, input, aim);
    input.set_anchored(anchored);
    found
}

impl Engines {
    ghost use Rattle.std.specs.Prelude.{◌≡◌, IfSome};
    ghost use Rattle.rc_text.specs.Text.{Keeps};
    ghost use Rattle.rc_program.specs.Kinds.{answer_by};
    ghost use Rattle.rc_pikevm_search.specs.Engine.{engine_search};
    ghost use Rattle.rc_strategy.specs.Caches.{IsCacheIn, IsCacheOfBoth, IsSameCacheIn, KeepsStates};
    ghost use Rattle.rc_strategy.specs.Starts.{unpassed};

    /// Returns the match by the DFA, or else by the lazy DFA if the cache has its states, as if
    /// none were passed over. Returns None if there is neither, or it has no answer.
    fn find_by_bytes<C: Cursor>(
        &self,
        cache: &mut Option<lazy::Cache>,
        input: &mut Input<C>,
    ) -> Option<Option<Match>>
        requires made { IsCacheOfBoth self.now.lazy cache.old }
        ensures keeps { Keeps input.old input.new }
        ensures found { IfSome result (λ found. found ≡ answer_by self.now.engine.kind
            (unpassed (engine_search self.now.engine input.old))) }
        ensures cache { KeepsStates self.now.lazy cache.old cache.new }
    {
        match self.table_choice(cache.is_some()) {
            TableChoice::AllStates(tables) => {
                find_by_tables(self, tables, &mut NoCache, input).ok()
            }
            TableChoice::MetStates(tables) => {
                let Some(states) = cache else {
                    return None;
                };
                find_by_tables(self, tables, states, input).ok()
            }
            TableChoice::NoTables => None,
        }
    }

    /// Returns the match by the lazy DFA over symbols, if the cache has its states, as if none were
    /// passed over. Returns None if there is none, or it has no answer.
    fn find_by_symbols<C: Cursor>(
        &self,
        cache: &mut Option<lazy::Cache>,
        input: &mut Input<C>,
    ) -> Option<Option<Match>>
        requires made { IsCacheOfBoth self.now.symbols cache.old }
        ensures keeps { Keeps input.old input.new }
        ensures found { IfSome result (λ found. found ≡ answer_by self.now.engine.kind
            (unpassed (engine_search self.now.engine input.old))) }
        ensures cache { KeepsStates self.now.symbols cache.old cache.new }
    {
        let Some(tables) = &self.symbols else {
            return None;
        };
        let Some(states) = cache else {
            return None;
        };
        find_by_tables(self, tables, states, input).ok()
    }

    /// Returns the match by a DFA, as if none were passed over: by the lazy DFA over symbols if the
    /// others have no answer. Returns None if none has.
    pub(crate) fn find_unpassed<C: Cursor>(
        &self,
        cache: &mut Cache,
        input: &mut Input<C>,
    ) -> Option<Option<Match>>
        requires made { IsCacheIn self.now 0 cache.old }
        ensures keeps { Keeps input.old input.new }
        ensures found { IfSome result (λ found. found ≡ answer_by self.now.engine.kind
            (unpassed (engine_search self.now.engine input.old))) }
        ensures cache { IsSameCacheIn self.now cache.old cache.new }
    {
        if let Some(found) = self.find_by_bytes(&mut cache.lazy, input) {
            return Some(found);
        }
        self.find_by_symbols(&mut cache.symbols, input)
    }
}
