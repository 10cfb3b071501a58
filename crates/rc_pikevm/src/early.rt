//! Earliest match: the first position at which a match ends.
ghost use Rattle.std.specs.Prelude.{◌≡◌, is_some, ◌≤◌, ⊤, length, MatchOption, IfSome};
ghost use Rattle.rc_text.specs.Text.{Keeps, low, high};
ghost use Rattle.rc_program.specs.Greatest.{greatest};
ghost use Rattle.rc_program.specs.Places.{places_of};
ghost use Rattle.rc_program.specs.Programs.{search_of};
ghost use Rattle.rc_needles.specs.Guards.{Guards};
ghost use Rattle.rc_needles.specs.Prefilters.{needles_of};
ghost use Rattle.rc_pikevm.specs.Caches.{IsCacheFor};

use crate::cache::Cache;
use crate::search::meets;
use rc_needles::prefilter::Prefilter;
use rc_program::program::Program;
use rc_text::cursor::Cursor;
use rc_text::input::{Input, high, low};

/// Returns the first position at which a walk from one of the search's starts ends, in bytes of the
/// content, or None if no walk does. The pass ends there. The earliest flag is not read. With a
/// prefilter, the pass goes from needle to needle while no thread is under way.
///
/// The cache must be made for programs of as many places, and stays so. Nothing is allocated.
pub fn first_end<C: Cursor>(
    cache: &mut Cache,
    input: &mut Input<C>,
    program: &Program,
    prefilter: Option<&Prefilter>,
) -> Option<usize>
    requires guarded { MatchOption prefilter ⊤
        (λ p. Guards (places_of program.now.places.items) program.now.terminator
        (needles_of p.now)) }
    requires made { IsCacheFor (places_of program.now.places.items) 0 cache.old }
    ensures keeps { Keeps input.old input.new }
    ensures found { is_some result ≡ is_some (greatest (search_of program.now input.old)) }
    ensures within { IfSome result (λ end. (low input.old ≤ end) × (end ≤ high input.old)) }
    ensures cache { cache.new ≡ record cache.old { insertions = cache.new.insertions } }
{
    cache.scratch.widen(0);
    let Some(met) = meets(input, program, prefilter, &mut cache.scratch) else {
        return None;
    };
    let low = low(input);
    let high = high(input);
    Some(met.end.max(low).min(high))
}
