//! Settings of patterns and of matches.

ghost use Rattle.std.specs.Prelude.{◌≡◌};

use rc_parser as syntax;
use rc_parser::Grammar;
use rc_settings::meta;
use rc_text::types::MatchKind;

/// How patterns are parsed, which match a search finds, and limits. Each field but `kind` and the two
/// limits is a flag, off at 0 and on at any other number. With all fields 0, the settings are the
/// defaults.
#[repr(C)]
#[derive(Clone, Copy)]
pub struct Settings {
    /// Letters match in either case: the flag `i`.
    pub case_insensitive: u8,
    /// `^` and `$` match at each line: the flag `m`.
    pub multi_line: u8,
    /// A dot matches line ends too: the flag `s`.
    pub dot_matches_new_line: u8,
    /// Lines end with CR, LF or both: the flag `R`.
    pub crlf: u8,
    /// Repetitions are lazy, and greedy with `?`: the flag `U`.
    pub swap_greed: u8,
    /// Classes, dots and words are of bytes instead of characters: the flag `u` is off.
    pub bytes: u8,
    /// Patterns may match bytes that aren't UTF-8.
    pub any_bytes: u8,
    /// Matches may end inside a character, also if some pattern may be empty. If this is off and
    /// some pattern may be empty, each match that ends inside a character is passed over, whether
    /// it is empty or not: `a*` on `aa` followed by the byte 80 gives 3..3. Under the kind 1 none
    /// is.
    pub split_characters: u8,
    /// The number of the kind of match: 0 for the preferred match of the least start, 1 for the
    /// match with the greatest end, 2 for the longest match of the least start.
    pub kind: u8,
    /// The limit on the size of the patterns, which is 32 times their weight; 0 for 10,485,760.
    pub size_limit: usize,
    /// The capacity of the cache of a lazy DFA, in bytes; 0 for 2,097,152. No search result depends
    /// on it.
    pub cache_capacity: usize,
    /// Patterns are parsed by the full grammar, instead of the stated one.
    pub full: usize,
}

impl Settings {
    ghost use Rattle.rc_parser.specs.Settings.{settings_of as syntax_of};
    ghost use Rattle.rc_settings.specs.Settings.{settings_of};
    ghost use Rattle.searcher.specs.Flags.{kind_of, search_settings, syntax_settings};

    /// The syntax settings.
    pub fn syntax(&self) -> syntax::Config
        ensures { syntax_of result ≡ syntax_settings self.now }
    {
        let grammar = if self.full != 0 {
            Grammar::Full
        } else {
            Grammar::Stated
        };
        syntax::Config::new()
            .grammar(grammar)
            .case_insensitive(self.case_insensitive != 0)
            .multi_line(self.multi_line != 0)
            .dot_matches_new_line(self.dot_matches_new_line != 0)
            .crlf(self.crlf != 0)
            .swap_greed(self.swap_greed != 0)
            .unicode(self.bytes == 0)
            .utf8(self.any_bytes == 0)
    }

    /// The kind of match, if one has the number.
    pub(crate) fn kind(&self) -> Option<MatchKind>
        ensures { result ≡ kind_of self.now.kind }
    {
        match self.kind {
            0 => Some(MatchKind::LeftmostFirst),
            1 => Some(MatchKind::All),
            2 => Some(MatchKind::LeftmostLongest),
            _ => None,
        }
    }

    /// The settings of a regex that finds matches of this kind.
    pub(crate) fn search(&self, kind: MatchKind) -> meta::Config
        ensures { settings_of result ≡ search_settings self.now kind }
    {
        let config = meta::Config::new()
            .match_kind(kind)
            .utf8_empty(self.split_characters == 0);
        let config = match self.size_limit {
            0 => config,
            limit => config.nfa_size_limit(Some(limit)),
        };
        match self.cache_capacity {
            0 => config,
            capacity => config.hybrid_cache_capacity(capacity),
        }
    }
}
