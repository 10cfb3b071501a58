//! DFA: a table for each direction, and the searches by them.
ghost use Rattle.std.specs.Prelude.{◌≡◌, ◌⊎◌, ◌+◌, ◌*◌, ℕ, min, length, IfOk, IfErr};
ghost use Rattle.rc_dfa.specs.declared.automaton.Direction.TheVariants.{Forwards, Backwards};
ghost use Rattle.rc_dfa.specs.Machine.{bytes};
ghost use Rattle.rc_dfa.specs.Automata.{machine_of, alphabet_in, samples_of};
ghost use Rattle.rc_dense_dfa.specs.Makes.{IsRefused};
ghost use Rattle.rc_dense_dfa.specs.Halves.{ArePatterns, AreHalves, AreTablesOf, bytes_of};

use crate::build::table_of;
use crate::error::TableError;
use crate::table::Table;
use rc_dfa::automaton::{Automaton, Direction};
use rc_dfa::ended::{Ended, Reading};
use rc_dfa::halves::{Halves, Run};
use rc_dfa::memo::Memo;
use rc_table_search::again::search_again;
use rc_table_search::inside::search_inside;
use rc_table_search::run::Extent;
use rc_table_search::search::{Request, search};
use rc_table_search::way;
use rc_text::cursor::Cursor;
use rc_text::input::Input;
use std::alloc::{AllocError, Global};

/// The cache of DFA searches: it has nothing, since a search changes nothing.
#[derive(Clone, Copy, Debug)]
pub struct NoCache;

/// A DFA: a table of all states that searches by an automaton can reach, for each direction.
#[derive(Drop)]
pub struct Dense {
    pub(crate) forward: Table,
    pub(crate) reverse: Table,
    /// For each place of the byte program, the pattern whose match place it is; 0 if it is none.
    pub(crate) patterns: Vec<usize>,
}

/// Returns the pattern of each place. `Err` means out of memory.
fn patterns_of(alloc: Global, automaton: &Automaton) -> Result<Vec<usize>, AllocError>
    ensures { IfOk result (λ patterns. ArePatterns
        (machine_of automaton.now Forwards) patterns.items) }
{
    let mut patterns = Vec::new(alloc);
    for place in 0..automaton.places_len() {
        patterns.push(automaton.pattern_at(place))?;
    }
    Ok(patterns)
}

/// Returns how many bytes the table takes.
fn table_usage(table: &Table) -> u128
    ensures { result ≡ bytes_of table.now }
{
    let rows = table.cells.len() as u128 + table.ends.len() as u128 + table.tells.len() as u128;
    let bytes = table.classes.len() as u128
        + table.idles.len() as u128
        + 4 * table.exits.len() as u128
        + 312 * table.leaps.len() as u128;
    bytes + 8 * (rows + table.starts.len() as u128)
}

impl Dense {
    /// Builds the tables of the automaton, which reads bytes. The states of each may weigh `limit`
    /// bytes. The error is `TooBig` if those of one table weigh more, and `Memory` if out of
    /// memory. With `rests`, forward searches that may rest do so wherever they may.
    pub fn new(
        alloc: Global,
        automaton: &Automaton,
        limit: Option<usize>,
        rests: bool,
    ) -> Result<Dense, TableError>
        requires { alphabet_in automaton.now ≡ bytes }
        ensures made { IfOk result (AreTablesOf automaton.now limit) }
        ensures halves { IfOk result (λ dense. AreHalves dense (machine_of automaton.now Forwards)
            (machine_of automaton.now Backwards)) }
        ensures refused { IfErr result (λ e. IsRefused (machine_of automaton.now Forwards)
            (length (samples_of automaton.now)) limit e
            ⊎ IsRefused (machine_of automaton.now Backwards)
            (length (samples_of automaton.now)) limit e) }
    {
        let forward = table_of(alloc, automaton, Direction::Forwards, limit, rests)?;
        let reverse = table_of(alloc, automaton, Direction::Backwards, limit, false)?;
        let patterns = patterns_of(alloc, automaton)?;
        Ok(Dense {
            forward,
            reverse,
            patterns,
        })
    }

    /// Returns how many bytes the tables take, or `usize::MAX` if that is more.
    pub fn memory_usage(&self) -> usize
        ensures { result ≡ min (bytes_of self.now.forward + bytes_of self.now.reverse + 8
            * length self.now.patterns.items) usize.MAX }
    {
        let tables = table_usage(&self.forward) + table_usage(&self.reverse);
        let all = tables + 8 * self.patterns.len() as u128;
        if all > usize::MAX as u128 {
            return usize::MAX;
        }
        all as usize
    }
}

impl Halves for Dense {
    ghost use Rattle.std.specs.Prelude.{false};
    ghost use Rattle.rc_table_search.specs.MemoLaws.{bare_memo, memo_kept};
    ghost use Rattle.rc_table_search.specs.Memos.{IsMemo};
    ghost use Rattle.rc_dense_dfa.specs.Searches.{view_of};

    type Cache = NoCache;

    ghost AreOf = { AreHalves };

    ghost IsCache = { λ d c. Unit {0} };

    ghost Spends = { λ d a b n. Unit {0} };

    ghost GivesUp = { λ d a b n memory. ⊥ };

    ghost IsMemo = { λ d c. IsMemo (view_of d false) c };

    #[inline(always)]
    fn run_forwards<C: Cursor>(
        &self,
        cache: &mut NoCache,
        input: &mut Input<C>,
        run: Run,
        rest_from: Option<usize>,
    ) -> Reading {
        let request = Request {
            anchored: run.anchored,
            from: run.low,
            end: run.high,
            extent: Extent {
                earliest: run.earliest,
                may_rest: rest_from.is_some(),
                rest_from: rest_from.unwrap_or(0),
            },
        };
        search::<way::Forwards, Dense, C>(self, cache, input, &request)
    }

    #[inline(always)]
    fn run_inside(
        &self,
        cache: &mut NoCache,
        piece: &[u8],
        start: usize,
        run: Run,
    ) -> Option<Reading> {
        let request = Request {
            anchored: run.anchored,
            from: run.low,
            end: run.high,
            extent: Extent {
                earliest: run.earliest,
                may_rest: false,
                rest_from: 0,
            },
        };
        search_inside::<Dense>(self, cache, piece, start, &request)
    }

    fn run_again<C: Cursor>(
        &self,
        cache: &mut NoCache,
        input: &mut Input<C>,
        run: Run,
        memo: &mut Memo,
    ) -> Reading {
        let extent = Extent {
            earliest: run.earliest,
            may_rest: false,
            rest_from: 0,
        };
        let request = Request {
            anchored: run.anchored,
            from: run.low,
            end: run.high,
            extent,
        };
        search_again::<Dense, C>(self, cache, input, &request, memo)
    }

    #[inline(always)]
    fn run_backwards<C: Cursor>(
        &self,
        cache: &mut NoCache,
        input: &mut Input<C>,
        run: Run,
    ) -> Ended {
        let request = Request {
            anchored: run.anchored,
            from: run.high,
            end: run.low,
            extent: Extent {
                earliest: run.earliest,
                may_rest: false,
                rest_from: 0,
            },
        };
        search::<way::Backwards, Dense, C>(self, cache, input, &request).ended
    }

    ghost spends_nothing = { λ h a n. tt };

    ghost spends_both = { λ h a b c n k x y. tt };

    ghost gives_up_later = { λ h a b c n k memory x y. y };

    ghost gives_up_within = { λ h a b n k memory x y. y };

    ghost spends_within = { λ h a b n k x y. tt };

    ghost bare_memo = { λ d c. bare_memo (view_of d false) c };

    ghost memo_kept = { λ d c. memo_kept (view_of d false) c };
}
