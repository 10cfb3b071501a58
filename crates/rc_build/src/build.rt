//! Build: patterns compiled and given an engine, with their groups.

ghost use Rattle.std.specs.Prelude.{◌≡◌, ◌≤◌, IfErr, IfOk, None, false, length, map, option_map};
ghost use Rattle.rc_text.specs.Limits.{most_patterns};
ghost use Rattle.rc_pattern.specs.Meaning.{meaning};
ghost use Rattle.rc_program.specs.Columns.{AreColumns, OwnSlots};
ghost use Rattle.rc_program.specs.Heads.{AreHeads, flags_in};
ghost use Rattle.rc_program.specs.Places.{places_of};
ghost use Rattle.rc_program.specs.Sought.{IsRunnable, may_be_empty, passes_over};
ghost use Rattle.rc_needles.specs.Prefilters.{needles_of};
ghost use Rattle.rc_pikevm_search.specs.Choices.{IsGuard, answering, guarding};
ghost use Rattle.rc_pikevm_search.specs.Literals.{MayGoBy};
ghost use Rattle.rc_settings.specs.Thompson.{settings_of, nfa_size_limit_of, line_terminator_of};
ghost use Rattle.rc_build.specs.Fits.{Fits, sought_by};
ghost use Rattle.rc_build.specs.Refusals.{IsBuildable, IsRefusal, limit_of};

use crate::compile::compile_all;
use crate::limit::Limit;
use rc_captures::groups::GroupInfo;
use rc_needles::prefilter::Prefilter;
use rc_parser::Grammar;
use rc_pattern::check::{copies_of, properties_of};
use rc_pattern::hir::Hir;
use rc_pikevm_search::choice::choose;
use rc_pikevm_search::engine::Engine;
use rc_pikevm_search::literals::Literals;
use rc_program::columns::{Columns, columns_of};
use rc_program::heads::heads_of;
use rc_program::place::Place;
use rc_program::program::Program;
use rc_settings::error::BuildError;
use rc_settings::thompson;
use rc_text::types::MatchKind;
use std::alloc::Global;

/// Patterns that were built.
#[derive(Drop)]
pub struct Built {
    /// Copies of the patterns.
    pub hirs: Vec<Hir>,
    /// The engine over their program.
    pub engine: Engine,
    /// The groups that are kept.
    pub info: GroupInfo,
}

impl Built {
    /// Returns the copies of the patterns alone. A crate that calls this drops no part of the engine
    /// by itself.
    pub fn into_hirs(self) -> Vec<Hir>
        ensures { result ≡ self.hirs }
    {
        let Built {
            hirs,
            engine: _,
            info: _,
        } = self;
        hirs
    }
}

/// Builds the patterns, at most 2,147,483,647 of them, under the settings of their program, for
/// searches for this kind of match.
///
/// Searches may use the needles of `prefilter`, and if `is_auto` is on also literals of the
/// patterns. No search result depends on them.
///
/// The error is the first of these that applies: `IllFormed`, with the first pattern that isn't
/// well-formed; `SizeLimit`, if 32 times the weight of the patterns by the grammar is above the
/// size limit; `PlaceLimit`, if the weight by the stated grammar is above 2,147,483,646. `Memory`
/// means out of memory.
pub fn build_all(
    alloc: Global,
    hirs: &[Hir],
    grammar: Grammar,
    settings: thompson::Config,
    kind: MatchKind,
    prefilter: Option<&Prefilter>,
    is_auto: bool,
) -> Result<Built, BuildError>
    requires { length hirs.now ≤ most_patterns }
    ensures patterns { IfOk result (λ b. map meaning b.hirs.items ≡ map meaning hirs.now) }
    ensures buildable { IfOk result (λ _. IsBuildable
        (limit_of (nfa_size_limit_of (settings_of settings)) grammar) (map meaning hirs.now)) }
    ensures fits { IfOk result (λ b. Fits (settings_of settings) kind
        (map meaning b.hirs.items) b.engine b.info) }
    ensures unanswered { is_auto ≡ false → IfOk result (λ b. answering b.engine.literals ≡ None) }
    ensures guards { IfOk result (λ b. answering b.engine.literals ≡ None
        → IsGuard (map meaning hirs.now) (option_map (λ p. needles_of p.now) prefilter.entry)
        is_auto (guarding b.engine.literals)) }
    ensures unguarded { is_auto ≡ false → option_map (λ p. needles_of p.now) prefilter.entry ≡ None
        → IfOk result (λ b. guarding b.engine.literals ≡ None) }
    ensures refused { IfErr result (λ e. IsRefusal
        (limit_of (nfa_size_limit_of (settings_of settings)) grammar) (map meaning hirs.now) e) }
{
    let limit = Limit {
        bytes: settings.get_nfa_size_limit(),
        grammar,
    };
    let compiled = compile_all(alloc, hirs, limit, settings.get_which_captures())?;
    let literals = choose(alloc, hirs, prefilter, is_auto)?;
    let heads = heads_of(alloc, &compiled.places)?;
    let columns = columns_of(alloc, &compiled.places)?;
    let engine = engine_of(
        settings,
        kind,
        hirs,
        compiled.places,
        heads,
        columns,
        literals,
    );
    let hirs = copies_of(alloc, hirs)?;
    Ok(Built {
        hirs,
        engine,
        info: compiled.info,
    })
}

/// The engine of these patterns, with their program, its first-byte sets and columns, and its
/// literals.
fn engine_of(
    settings: thompson::Config,
    kind: MatchKind,
    hirs: &[Hir],
    places: Vec<Place>,
    heads: Vec<Vec<bool>>,
    columns: Columns,
    literals: Literals,
) -> Engine
    requires runnable { IsRunnable (places_of places.items) }
    requires closed_over { AreHeads (places_of places.items) (flags_in heads.items) }
    requires lined_up { AreColumns (places_of places.items) columns }
    requires own { OwnSlots (places_of places.items) }
    requires sound { MayGoBy (places_of places.items) (line_terminator_of (settings_of settings))
        (passes_over (sought_by (settings_of settings) (map meaning hirs.now))) literals }
    ensures places { result.program.places ≡ places }
    ensures terminator { result.program.terminator ≡ line_terminator_of (settings_of settings) }
    ensures passes_over { result.program.passes_over
        ≡ passes_over (sought_by (settings_of settings) (map meaning hirs.now)) }
    ensures kind { result.kind ≡ kind }
    ensures literals { result.literals ≡ literals }
{
    let passes_over = settings.get_utf8() && may_be_empty(hirs);
    let program = Program {
        places,
        terminator: settings.get_line_terminator(),
        passes_over,
        heads,
        columns,
    };
    Engine {
        program,
        kind,
        literals,
    }
}

/// Whether the least length of some pattern is 0.
fn may_be_empty(hirs: &[Hir]) -> bool
    ensures { result ≡ may_be_empty (map meaning hirs.now) }
{
    for hir in hirs {
        if properties_of(hir).minimum_len() == Some(0) {
            return true;
        }
    }
    false
}
