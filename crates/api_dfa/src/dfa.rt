//! DFA: the fully built automata of a list of patterns, forwards and backwards.

ghost use Rattle.std.specs.Prelude.{◌≡◌, ◌≤◌, IfErr, IfOk, map};
ghost use Rattle.rc_pattern.specs.Limits.{greatest_weight};
ghost use Rattle.rc_pattern.specs.Meaning.{meaning};
ghost use Rattle.rc_program.specs.Laws.{heaviness};
ghost use Rattle.rc_program.specs.Places.{places_of};
ghost use Rattle.rc_program.specs.Program.{program, shown};
ghost use Rattle.rc_program.specs.Sought.{Sought, passes_over as is_passing};
ghost use Rattle.rc_settings.specs.SearchSettings.{match_kind_of, search_settings_of};
ghost use Rattle.rc_settings.specs.Thompson.{settings_of};
ghost use Rattle.rc_build.specs.Fits.{sought_by};
ghost use Rattle.api_dfa.specs.Makes.{IsTablesRefusal, refusal_of};
ghost use Rattle.api_dfa.specs.Tables.{AreLight, AreTables};

use rc_dense_dfa::dense::Dense;
use rc_dense_dfa::error::TableError;
use rc_dfa_search::build::automaton_of;
use rc_dfa_search::search::Aim;
use rc_pattern::hir::Hir;
use rc_program::place::Place;
use rc_settings::error::BuildError;
use rc_settings::pikevm::Config;
use rc_settings::thompson;
use rc_text::types::MatchKind;
use std::alloc::Global;
use std::fmt;

/// A DFA of a list of patterns, forwards and backwards.
///
/// It holds the tables of both directions, so either search may use it: `Regex::forward` and
/// `Regex::reverse` return the same value.
pub struct DFA {
    pub(crate) hirs: Vec<Hir>,
    pub(crate) config: Config,
    pub(crate) thompson: thompson::Config,
    pub(crate) tables: Dense,
    pub(crate) passes_over: bool,
    ghost passing: { passes_over
        ≡ is_passing (sought_by (settings_of thompson) (map meaning hirs.items)) },
    ghost made: { ∥ AreTables (sought_by (settings_of thompson) (map meaning hirs.items))
        (match_kind_of (search_settings_of config)) tables ∥₁ },
}

// Crates above call this, and drop no part by themselves.
impl Drop for DFA {
    fn drop(self) {
        let DFA {
            hirs: _,
            config: _,
            thompson: _,
            tables: _,
            passes_over: _,
        } = self;
    }
}

impl DFA {
    ghost use Rattle.std.specs.Prelude.{◌≡◌, length};
    ghost use Rattle.api_dfa.specs.Aims.{aim_for};
    ghost use Rattle.api_dfa.specs.Views.{dfa_patterns, sought, dfa_kind};

    /// The number of patterns that it was built of.
    pub fn pattern_len(&self) -> usize
        ensures { result ≡ length (dfa_patterns self.now) }
    {
        self.hirs.len()
    }

    /// The kind of match that its searches find, with the earliest flag on or off.
    pub(crate) fn aim(&self, earliest: bool) -> Aim
        ensures { result ≡ aim_for (sought self.now) (dfa_kind self.now) earliest }
    {
        Aim {
            kind: self.config.get_match_kind(),
            patterns: self.pattern_len(),
            passes_over: self.passes_over,
            earliest,
        }
    }
}

/// The DFA of patterns by their program, for matches of this kind. The states of each direction may
/// take `limit` bytes.
pub(crate) fn tables_of(
    alloc: Global,
    hirs: &[Hir],
    settings: thompson::Config,
    places: &[Place],
    kind: MatchKind,
    byte_classes: bool,
    limit: Option<usize>,
) -> Result<Dense, BuildError>
    ghost q: { Sought }
    requires sought { q ≡ sought_by (settings_of settings) (map meaning hirs.now) }
    requires places { places_of places.now ≡ program (shown q.grouped q.patterns) }
    requires light { heaviness (places_of places.now) ≤ greatest_weight }
    ensures made { IfOk result (AreTables q kind) }
    ensures light { IfOk result (AreLight q kind byte_classes limit) }
    ensures refused { IfErr result (IsTablesRefusal q kind byte_classes limit) }
{
    let terminator = settings.get_line_terminator();
    let automaton = automaton_of(alloc, places, hirs.len(), terminator, kind, byte_classes)?;
    // The searches of a regex never rest.
    match Dense::new(alloc, &automaton, limit, false) {
        Ok(tables) => Ok(tables),
        Err(error) => Err(refusal_of(error, limit)),
    }
}

/// The error of a build whose states don't fit.
fn refusal_of(error: TableError, limit: Option<usize>) -> BuildError
    ensures { result ≡ refusal_of error limit }
{
    match error {
        TableError::Memory => BuildError::Memory,
        TableError::TooBig => match limit {
            Some(limit) => BuildError::DfaSizeLimit { limit },
            None => BuildError::Memory,
        },
    }
}

impl fmt::Debug for DFA {
    fn fmt<W: fmt::Write>(&self, f: &mut fmt::Formatter<W>) -> fmt::Result {
        f.debug_struct("DFA")
            .field("pattern_len", &self.pattern_len())
            .field("config", &self.config)
            .field("thompson", &self.thompson)
            .finish_non_exhaustive()
    }
}
