//! Pike VM searches in a cache: one match, its slots, and iteration. They take no memory.

ghost use Rattle.std.specs.Prelude.{◌≡◌, ◌≤◌, ◌<◌, ◌+◌, ◌-◌, ◌*◌, ◌↔◌, ◌∷◌, [], IsTrue, IsSome, IfSome, MatchOption, Some, None, length, option_map, replicate};
ghost use Rattle.rc_text.specs.Found.{Found};
ghost use Rattle.rc_text.specs.Text.{Keeps, low, high};
ghost use Rattle.rc_text.specs.declared.types.MatchKind.TheVariants.{LeftmostFirst};
ghost use Rattle.rc_captures.specs.Captures.{IsCapturesFor, captures_pattern, captures_slots, match_of};
ghost use Rattle.rc_captures.specs.Names.{slot_len};
ghost use Rattle.rc_program.specs.Sought.{search_for};
ghost use Rattle.rc_program.specs.Kinds.{answer_by};
ghost use Rattle.rc_program.specs.Matches.{matches_left};
ghost use Rattle.rc_pikevm.specs.KindSlots.{slots_by};
ghost use Rattle.rc_pikevm_search.specs.Moved.{IsMoved};
ghost use Rattle.rc_pikevm_search.specs.Tells.{TellsBy};
ghost use Rattle.api_pikevm.specs.Caches.{HasSameRoom, IsCacheFor, insertions_of};
ghost use Rattle.rc_settings.specs.SearchSettings.{match_kind_of};
ghost use Rattle.api_pikevm.specs.Views.{sought, states_of, vm_names, vm_settings};
ghost use Rattle.api_pikevm.specs.Left.{FindKeepsAlong, FindSteps, IsCounted, find_input, find_left, find_lender, find_vm, matches_in};
ghost use Rattle.std.specs.Iterator.Runs.{YieldsInOrder};

use crate::cache::Cache;
use crate::iterators::FindMatches;
use crate::vm::PikeVM;
use rc_captures::captures;
use rc_captures::captures::Captures;
use rc_pikevm::kinds::{find_by_kind, search_slots_by_kind};
use rc_pikevm_search::literals::guards_of;
use rc_text::cursor::Cursor;
use rc_text::input::Input;
use rc_text::types::{Match, PatternID};

/// Returns whether a search of the input finds a match, in a cache that was made for this `PikeVM`.
/// The cache stays so.
///
/// Under `MatchKind::LeftmostFirst` the match is the preferred one of the least start, and under
/// `LeftmostLongest` the longest of the least start. Under `MatchKind::All` it is the one with the
/// greatest end, then the least start, then the first pattern, and no match is rejected.
pub fn is_match<C: Cursor>(vm: &PikeVM, cache: &mut Cache, input: &mut Input<C>) -> bool
    requires made { IsCacheFor (sought vm.now) cache.old }
    ensures cache { IsCacheFor (sought vm.now) cache.new }
    ensures room { HasSameRoom cache.old cache.new }
    ensures keeps { Keeps input.old input.new }
    ensures found_by { IsTrue result ↔ IsSome
        (answer_by (match_kind_of (vm_settings vm.now)) (search_for (sought vm.now) input.old)) }
    ensures none { high input.old < low input.old → insertions_of cache.new ≡ 0 }
    ensures few { insertions_of cache.new ≤ states_of (sought vm.now)
        * (high input.old - low input.old + 2) }
    ensures counted { IfSome (answer_by (match_kind_of (vm_settings vm.now))
        (search_for (sought vm.now) input.old))
        (λ m. m.end - m.start + 1 ≤ insertions_of cache.new) }
{
    find_by_kind(
        &mut cache.inner,
        input,
        &vm.built.engine.program,
        guards_of(&vm.built.engine.literals),
        vm.built.engine.kind,
    )
    .is_some()
}

/// Finds a match in the input, and writes it with its groups to captures that were made of the
/// groups of this `PikeVM`. Without a match the captures are empty. All slots but those of the
/// match are empty afterwards. The cache has to be made for this `PikeVM`, and stays so.
///
/// Under `MatchKind::LeftmostFirst` the match is the preferred one of the least start. Under
/// `LeftmostLongest` it is the longest of the least start, with the groups of the preferred walk of
/// that length. Under `MatchKind::All` it is the one with the greatest end, then the least start,
/// then the first pattern; no match is rejected, and explicit groups are empty.
pub fn search<C: Cursor>(vm: &PikeVM, cache: &mut Cache, input: &mut Input<C>, caps: &mut Captures)
    requires made { IsCacheFor (sought vm.now) cache.old }
    requires for_vm { IsCapturesFor (vm_names vm.now) caps.old }
    ensures cache { IsCacheFor (sought vm.now) cache.new }
    ensures room { HasSameRoom cache.old cache.new }
    ensures keeps { Keeps input.old input.new }
    ensures still_made { IsCapturesFor (vm_names vm.now) caps.new }
    ensures long { length (captures_slots caps.new) ≡ length (captures_slots caps.old) }
    ensures found_by { TellsBy (match_kind_of (vm_settings vm.now))
        (search_for (sought vm.now) input.old) caps.new }
    ensures matched_by { match_of caps.new
        ≡ answer_by (match_kind_of (vm_settings vm.now)) (search_for (sought vm.now) input.old) }
    ensures slots { MatchOption (captures_pattern caps.new)
        (captures_slots caps.new ≡ replicate (length (captures_slots caps.old)) None)
        (λ _. Some (captures_slots caps.new)
        ≡ slots_by (match_kind_of (vm_settings vm.now)) (search_for (sought vm.now) input.old)
        (length (captures_slots caps.old))) }
    ensures none { high input.old < low input.old → insertions_of cache.new ≡ 0 }
    ensures few { insertions_of cache.new ≤ states_of (sought vm.now)
        * (high input.old - low input.old + 2) }
    ensures counted { IfSome (answer_by (match_kind_of (vm_settings vm.now))
        (search_for (sought vm.now) input.old))
        (λ m. m.end - m.start + 1 ≤ insertions_of cache.new) }
{
    captures::clear(caps);
    let pattern = search_slots_by_kind(
        &mut cache.inner,
        input,
        &vm.built.engine.program,
        guards_of(&vm.built.engine.literals),
        vm.built.engine.kind,
        caps.slots_mut(),
    );
    captures::set_pattern(caps, pattern);
}

/// Returns the pattern of the match in the input, and writes its slots to `slots`, which may be
/// fewer than there are. Without a match the slots stay. The cache has to be made for this
/// `PikeVM`, and stays so.
///
/// Under `MatchKind::LeftmostFirst` the match is the preferred one of the least start. Under
/// `LeftmostLongest` it is the longest of the least start, with the slots of the preferred walk of
/// that length. Under `MatchKind::All` it is the one with the greatest end, then the least start,
/// then the first pattern; no match is rejected, and all slots but the two of the whole match are
/// `None`.
pub fn search_slots<C: Cursor>(
    vm: &PikeVM,
    cache: &mut Cache,
    input: &mut Input<C>,
    slots: &mut [Option<usize>],
) -> Option<PatternID>
    requires made { IsCacheFor (sought vm.now) cache.old }
    requires few_slots { length slots.old ≤ slot_len (vm_names vm.now) }
    ensures cache { IsCacheFor (sought vm.now) cache.new }
    ensures room { HasSameRoom cache.old cache.new }
    ensures keeps { Keeps input.old input.new }
    ensures pattern_by { result
        ≡ option_map (λ (m : Found). m.pattern)
        (answer_by (match_kind_of (vm_settings vm.now))
        (search_for (sought vm.now) input.old)) }
    ensures slots_by { MatchOption result
        (slots.new ≡ slots.old)
        (λ _. Some slots.new ≡ slots_by (match_kind_of (vm_settings vm.now))
        (search_for (sought vm.now) input.old) (length slots.old)) }
    ensures none { high input.old < low input.old → insertions_of cache.new ≡ 0 }
    ensures few { insertions_of cache.new ≤ states_of (sought vm.now)
        * (high input.old - low input.old + 2) }
    ensures counted { IfSome (answer_by (match_kind_of (vm_settings vm.now))
        (search_for (sought vm.now) input.old))
        (λ m. m.end - m.start + 1 ≤ insertions_of cache.new) }
{
    search_slots_by_kind(
        &mut cache.inner,
        input,
        &vm.built.engine.program,
        guards_of(&vm.built.engine.literals),
        vm.built.engine.kind,
        slots,
    )
}

/// Returns an iterator over the matches in the input, from left to right. Nothing is searched
/// ahead, and neither this call nor an item takes memory. The cache has to be made for this
/// `PikeVM`; it stays so, even if you drop the iterator before its end.
///
/// The cache counts the last pass for an item as for a search, also if no match is left. Once the
/// iterator has given none, a call makes no pass.
///
/// Each search starts where the last match ended, and finds the match that `search` finds. If that
/// match is empty and ends there again, the search begins a byte later. So under `MatchKind::All`
/// the first match is the one with the greatest end of all.
pub fn find_iter<'v, 'c, C: Cursor + Drop>(
    vm: &'v PikeVM,
    cache: &'c mut Cache,
    input: Input<C>,
) -> FindMatches<'v, 'c, C>
    requires made { IsCacheFor (sought vm.now) cache.old }
    ensures left { find_left result ≡ matches_in vm.now input None }
    ensures leftmost { match_kind_of (vm_settings vm.now) ≡ LeftmostFirst
        → find_left result ≡ matches_left (search_for (sought vm.now) input) input.span.start None }
    ensures vm { find_vm result ≡ vm.now }
    ensures input { find_input result ≡ input }
    ensures runs { YieldsInOrder (FindSteps {cursor = C.Cursor}) find_left }
    ensures same_reference { find_lender result ≡ cache.entry.ghost_name }
    ensures stays { FindKeepsAlong result }
{
    FindMatches {
        vm,
        cache,
        input,
        last: None,
        is_done: false,
    }
}

/// Returns the next match in the input; the last one ended at `last`. The span then starts where
/// the new match ends.
pub(crate) fn next_match<C: Cursor>(
    vm: &PikeVM,
    cache: &mut Cache,
    input: &mut Input<C>,
    last: Option<usize>,
) -> Option<Match>
    requires made { IsCacheFor (sought vm.now) cache.old }
    ensures cache { IsCacheFor (sought vm.now) cache.new }
    ensures room { HasSameRoom cache.old cache.new }
    ensures left { MatchOption result
        (matches_in vm.now input.old last ≡ [])
        (λ m. matches_in vm.now input.old last ≡ m ∷ matches_in vm.now input.new (Some m.end)) }
    ensures moves { IsMoved input.old input.new }
    ensures counted { IsCounted vm.now input.old result (insertions_of cache.new) }
{
    let Some(found) = vm.built.engine.next_match(&mut cache.inner, input, last) else {
        return None;
    };
    input.set_start(found.end());
    Some(found)
}
