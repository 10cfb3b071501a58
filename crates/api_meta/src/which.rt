//! Match tests and pattern sets: whether there is a match, and which patterns have one, in a
//! borrowed cache.

use crate::cache::Cache;
use crate::regex::Regex;
use rc_pattern_set::sets::PatternSet;
use rc_text::cursor::Cursor;
use rc_text::input::Input;

impl Regex {
    ghost use Rattle.std.specs.Prelude.{◌↔◌, IsSome, IsTrue};
    ghost use Rattle.api_meta.specs.Caches.{HasSameRoom, IsCacheFor};
    ghost use Rattle.api_meta.specs.Views.{regex_kind, regex_patterns, regex_settings, sought};
    ghost use Rattle.rc_pikevm.specs.PatternSpans.{AddsSpelled};
    ghost use Rattle.rc_program.specs.Kinds.{answer_by};
    ghost use Rattle.rc_program.specs.Sought.{search_for};
    ghost use Rattle.rc_text.specs.Text.{Keeps};

    /// Returns whether a search of the input finds a match, as `is_match` does, in a cache that was
    /// made for this regex. It takes no memory.
    pub fn is_match_with<C: Cursor>(&self, cache: &mut Cache, input: &mut Input<C>) -> bool
        requires made { IsCacheFor (regex_patterns self.now) (regex_settings self.now) cache.old }
        ensures cache { IsCacheFor (regex_patterns self.now) (regex_settings self.now) cache.new }
        ensures room { HasSameRoom cache.old cache.new }
        ensures keeps { Keeps input.old input.new }
        ensures found_by { IsTrue result
            ↔ IsSome (answer_by (regex_kind self.now) (search_for (sought self.now) input.old)) }
    {
        self.engines.is_match(&mut cache.inner, input)
    }

    /// Inserts into the set each pattern that has a match within the bounds of a search of the
    /// input, as far as the capacity of the set goes, in a cache that was made for this regex.
    /// Members stay members. It takes no memory.
    ///
    /// A pattern has a match if it matches some span within the bounds, whatever the kind of match.
    /// None is left out because another pattern begins earlier or is preferred, nor because its
    /// match ends inside a character: `^a*` has one on `aa` followed by the byte 80, though a
    /// search rejects it. Patterns that are literals or alternations of literals are found by a
    /// search for these, if the kind is `LeftmostFirst`. For others, a search first finds where the
    /// first match begins. One pass from there on then finds all patterns; of one pattern the
    /// search alone decides. If each match begins with one of a few literals, the pass goes from
    /// literal to literal. If each begins where the slice does, as with `^`, it ends where no such
    /// match goes on. It ends early if the set contains each pattern that it can.
    pub fn which_patterns_with<C: Cursor>(
        &self,
        cache: &mut Cache,
        input: &mut Input<C>,
        set: &mut PatternSet,
    )
        requires made { IsCacheFor (regex_patterns self.now) (regex_settings self.now) cache.old }
        ensures cache { IsCacheFor (regex_patterns self.now) (regex_settings self.now) cache.new }
        ensures room { HasSameRoom cache.old cache.new }
        ensures keeps { Keeps input.old input.new }
        ensures adds { AddsSpelled (search_for (sought self.now) input.old) set.old set.new }
    {
        self.engines
            .which_patterns(&mut cache.inner, input, self.hirs.len(), set);
    }
}
