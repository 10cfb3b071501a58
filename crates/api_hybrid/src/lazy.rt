//! Lazy DFA of a list of patterns: the byte program and the limits that searches need.

ghost use Rattle.std.specs.Prelude.{◌≡◌, ◌≤◌, IfErr, IfOk, map};
ghost use Rattle.rc_pattern.specs.Limits.{greatest_weight};
ghost use Rattle.rc_pattern.specs.Meaning.{meaning};
ghost use Rattle.rc_program.specs.Laws.{heaviness};
ghost use Rattle.rc_program.specs.Places.{places_of};
ghost use Rattle.rc_program.specs.Program.{program, shown};
ghost use Rattle.rc_program.specs.Sought.{Sought};
ghost use Rattle.rc_settings.specs.Thompson.{settings_of};
ghost use Rattle.rc_build.specs.Fits.{sought_by};
ghost use Rattle.api_hybrid.specs.Makes.{HasCapacity, IsLazyRefusal, refusal_of};
ghost use Rattle.api_hybrid.specs.Halves.{IsLazyFor};

use rc_dfa_search::build::automaton_of;
use rc_lazy_dfa::error::LazyError;
use rc_lazy_dfa::lazy::Lazy;
use rc_pattern::hir::Hir;
use rc_program::place::Place;
use rc_settings::error::BuildError;
use rc_settings::thompson;
use rc_text::types::MatchKind;
use std::alloc::Global;

/// The lazy DFA of patterns by their program, for matches of this kind. The states of each
/// direction may take `capacity` bytes.
pub(crate) fn lazy_of(
    alloc: Global,
    hirs: &[Hir],
    settings: thompson::Config,
    places: &[Place],
    kind: MatchKind,
    byte_classes: bool,
    capacity: usize,
) -> Result<Lazy, BuildError>
    ghost q: { Sought }
    requires sought { q ≡ sought_by (settings_of settings) (map meaning hirs.now) }
    requires places { places_of places.now ≡ program (shown q.grouped q.patterns) }
    requires light { heaviness (places_of places.now) ≤ greatest_weight }
    ensures made { IfOk result (IsLazyFor q kind) }
    ensures roomy { IfOk result (HasCapacity q kind byte_classes capacity) }
    ensures refused { IfErr result (IsLazyRefusal q kind byte_classes capacity) }
{
    let terminator = settings.get_line_terminator();
    let automaton = automaton_of(alloc, places, hirs.len(), terminator, kind, byte_classes)?;
    match Lazy::new(automaton, capacity) {
        Ok(lazy) => Ok(lazy),
        Err(error) => Err(refusal_of(error)),
    }
}

/// The error of a build whose capacity is too small.
fn refusal_of(error: LazyError) -> BuildError
    ensures { result ≡ refusal_of error }
{
    match error {
        LazyError::Memory => BuildError::Memory,
        LazyError::TooSmall { minimum, given } => BuildError::CacheTooSmall { minimum, given },
    }
}
