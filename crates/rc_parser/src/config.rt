//! Syntax settings.

ghost use Rattle.std.specs.Prelude.{◌≡◌, min};
ghost use Rattle.rc_parser.specs.Settings.{settings_of, default_settings, first_flags};
ghost use Rattle.rc_parser.specs.Pieces.{depth_limit};

use crate::flags::Flags;

/// A grammar of patterns.
#[derive(Clone, Copy, Debug, PartialEq, Eq)]
pub enum Grammar {
    /// The stated grammar: classes of ASCII, and of characters that a pattern lists.
    Stated,
    /// The full grammar: properties of Unicode, case folding, set operations and the flag `x`, too.
    Full,
}

/// The settings of the parser.
#[derive(Clone, Copy, Debug, PartialEq, Eq)]
pub struct Config {
    grammar: Grammar,
    unicode: bool,
    utf8: bool,
    case_insensitive: bool,
    multi_line: bool,
    dot_matches_new_line: bool,
    crlf: bool,
    line_terminator: u8,
    swap_greed: bool,
    nest_limit: u32,
    ignore_whitespace: bool,
    octal: bool,
    empty_min: bool,
}

impl Config {
    /// Returns the default settings: the stated grammar, `unicode` and `utf8` on, all other flags
    /// off, LF as the line terminator, and a nest limit of 250.
    pub fn new() -> Config
        ensures { settings_of result ≡ default_settings }
    {
        Config {
            grammar: Grammar::Stated,
            unicode: true,
            utf8: true,
            case_insensitive: false,
            multi_line: false,
            dot_matches_new_line: false,
            crlf: false,
            line_terminator: 10,
            swap_greed: false,
            nest_limit: 250,
            ignore_whitespace: false,
            octal: false,
            empty_min: false,
        }
    }

    /// Sets the grammar.
    pub fn grammar(self, grammar: Grammar) -> Config
        ensures { settings_of result ≡ record (settings_of self) { grammar = grammar } }
    {
        Config { grammar, ..self }
    }

    /// Sets the flag `u` at the start: whether classes and dots match characters or bytes, and
    /// whether word assertions look at characters or bytes.
    pub fn unicode(self, unicode: bool) -> Config
        ensures { settings_of result ≡ record (settings_of self) { unicode = unicode } }
    {
        Config { unicode, ..self }
    }

    /// Sets whether a pattern is refused if it can match something that is not UTF-8.
    pub fn utf8(self, utf8: bool) -> Config
        ensures { settings_of result ≡ record (settings_of self) { utf8 = utf8 } }
    {
        Config { utf8, ..self }
    }

    /// Sets the flag `i` at the start.
    pub fn case_insensitive(self, case_insensitive: bool) -> Config
        ensures { settings_of result ≡ record
            (settings_of self) { case_insensitive = case_insensitive } }
    {
        Config {
            case_insensitive,
            ..self
        }
    }

    /// Sets the flag `m` at the start.
    pub fn multi_line(self, multi_line: bool) -> Config
        ensures { settings_of result ≡ record (settings_of self) { multi_line = multi_line } }
    {
        Config { multi_line, ..self }
    }

    /// Sets the flag `s` at the start.
    pub fn dot_matches_new_line(self, dot_matches_new_line: bool) -> Config
        ensures { settings_of result ≡ record
            (settings_of self) { dot_matches_new_line = dot_matches_new_line } }
    {
        Config {
            dot_matches_new_line,
            ..self
        }
    }

    /// Sets the flag `R` at the start.
    pub fn crlf(self, crlf: bool) -> Config
        ensures { settings_of result ≡ record (settings_of self) { crlf = crlf } }
    {
        Config { crlf, ..self }
    }

    /// Sets the byte that the dot excludes.
    pub fn line_terminator(self, line_terminator: u8) -> Config
        ensures { settings_of result ≡ record
            (settings_of self) { line_terminator = line_terminator } }
    {
        Config {
            line_terminator,
            ..self
        }
    }

    /// Sets the flag `U` at the start.
    pub fn swap_greed(self, swap_greed: bool) -> Config
        ensures { settings_of result ≡ record (settings_of self) { swap_greed = swap_greed } }
    {
        Config { swap_greed, ..self }
    }

    /// Sets how deep a pattern may be nested. More than 250 is read as 250.
    pub fn nest_limit(self, nest_limit: u32) -> Config
        ensures { settings_of result ≡ record (settings_of self) { nest_limit = nest_limit } }
    {
        Config { nest_limit, ..self }
    }

    /// Sets the flag `x` at the start, which only the full grammar has: white space and comments are
    /// ignored.
    pub fn ignore_whitespace(self, ignore_whitespace: bool) -> Config
        ensures { settings_of result ≡ record
            (settings_of self) { ignore_whitespace = ignore_whitespace } }
    {
        Config {
            ignore_whitespace,
            ..self
        }
    }

    /// Sets whether the full grammar has octal escapes, such as `\141`.
    pub fn octal(self, octal: bool) -> Config
        ensures { settings_of result ≡ record (settings_of self) { octal = octal } }
    {
        Config { octal, ..self }
    }

    /// Sets whether the full grammar has `{,n}`, which is `{0,n}`.
    pub fn empty_min(self, empty_min: bool) -> Config
        ensures { settings_of result ≡ record (settings_of self) { empty_min = empty_min } }
    {
        Config { empty_min, ..self }
    }

    /// The setting `grammar`.
    pub fn get_grammar(&self) -> Grammar
        ensures { result ≡ (settings_of self.now).grammar }
    {
        self.grammar
    }

    /// The setting `unicode`.
    pub fn get_unicode(&self) -> bool
        ensures { result ≡ (settings_of self.now).unicode }
    {
        self.unicode
    }

    /// The setting `utf8`.
    pub fn get_utf8(&self) -> bool
        ensures { result ≡ (settings_of self.now).utf8 }
    {
        self.utf8
    }

    /// The setting `case_insensitive`.
    pub fn get_case_insensitive(&self) -> bool
        ensures { result ≡ (settings_of self.now).case_insensitive }
    {
        self.case_insensitive
    }

    /// The setting `multi_line`.
    pub fn get_multi_line(&self) -> bool
        ensures { result ≡ (settings_of self.now).multi_line }
    {
        self.multi_line
    }

    /// The setting `dot_matches_new_line`.
    pub fn get_dot_matches_new_line(&self) -> bool
        ensures { result ≡ (settings_of self.now).dot_matches_new_line }
    {
        self.dot_matches_new_line
    }

    /// The setting `crlf`.
    pub fn get_crlf(&self) -> bool
        ensures { result ≡ (settings_of self.now).crlf }
    {
        self.crlf
    }

    /// The setting `line_terminator`.
    pub fn get_line_terminator(&self) -> u8
        ensures { result ≡ (settings_of self.now).line_terminator }
    {
        self.line_terminator
    }

    /// The setting `swap_greed`.
    pub fn get_swap_greed(&self) -> bool
        ensures { result ≡ (settings_of self.now).swap_greed }
    {
        self.swap_greed
    }

    /// The setting `nest_limit`.
    pub fn get_nest_limit(&self) -> u32
        ensures { result ≡ (settings_of self.now).nest_limit }
    {
        self.nest_limit
    }

    /// The setting `ignore_whitespace`.
    pub fn get_ignore_whitespace(&self) -> bool
        ensures { result ≡ (settings_of self.now).ignore_whitespace }
    {
        self.ignore_whitespace
    }

    /// The setting `octal`.
    pub fn get_octal(&self) -> bool
        ensures { result ≡ (settings_of self.now).octal }
    {
        self.octal
    }

    /// The setting `empty_min`.
    pub fn get_empty_min(&self) -> bool
        ensures { result ≡ (settings_of self.now).empty_min }
    {
        self.empty_min
    }

    /// The flags with which a pattern begins.
    pub fn flags(&self) -> Flags
        ensures { result ≡ first_flags (settings_of self.now) }
    {
        Flags {
            case_insensitive: self.get_case_insensitive(),
            multi_line: self.get_multi_line(),
            dot_matches_new_line: self.get_dot_matches_new_line(),
            crlf: self.get_crlf(),
            swap_greed: self.get_swap_greed(),
            unicode: self.get_unicode(),
        }
    }

    /// How deep a pattern may be nested.
    pub fn depth_limit(&self) -> u32
        ensures { result ≡ depth_limit (settings_of self.now) }
    {
        self.get_nest_limit().min(250)
    }
}

impl Default for Config {
    ghost is_default = { λ c. settings_of c ≡ default_settings };

    fn default() -> Config {
        Config::new()
    }
}
