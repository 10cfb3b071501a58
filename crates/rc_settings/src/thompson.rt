//! Program settings: how patterns are compiled to an NFA.
ghost use Rattle.std.specs.Prelude.{◌≡◌, Some};
ghost use Rattle.rc_settings.specs.Thompson.{settings_of, unset, overwritten, utf8_of, nfa_size_limit_of, which_captures_of, line_terminator_of};

use crate::which::WhichCaptures;

/// The settings of a program (an NFA). A setting that isn't set has its default.
#[derive(Clone, Copy, Debug)]
pub struct Config {
    utf8: Option<bool>,
    nfa_size_limit: Option<Option<usize>>,
    which_captures: Option<WhichCaptures>,
    line_terminator: Option<u8>,
}

impl Config {
    /// Returns settings with nothing set.
    pub fn new() -> Config
        ensures { settings_of result ≡ unset }
    {
        Config {
            utf8: None,
            nfa_size_limit: None,
            which_captures: None,
            line_terminator: None,
        }
    }

    /// Sets whether empty matches occur only on character boundaries. The default is true.
    pub fn utf8(mut self, yes: bool) -> Config
        ensures { settings_of result ≡ record (settings_of self) { utf8 = Some yes } }
    {
        self.utf8 = Some(yes);
        self
    }

    /// Sets the limit on 32 times the weight of the patterns. The default is `None`, for no limit.
    pub fn nfa_size_limit(mut self, value: Option<usize>) -> Config
        ensures { settings_of result ≡ record (settings_of self) { nfa_size_limit = Some value } }
    {
        self.nfa_size_limit = Some(value);
        self
    }

    /// Sets which groups are kept. The default is all.
    pub fn which_captures(mut self, value: WhichCaptures) -> Config
        ensures { settings_of result ≡ record (settings_of self) { which_captures = Some value } }
    {
        self.which_captures = Some(value);
        self
    }

    /// Sets the byte that ends a line for `^` and `$`. The default is 10.
    pub fn line_terminator(mut self, byte: u8) -> Config
        ensures { settings_of result ≡ record (settings_of self) { line_terminator = Some byte } }
    {
        self.line_terminator = Some(byte);
        self
    }

    /// Whether empty matches occur only on character boundaries.
    pub fn get_utf8(&self) -> bool
        ensures { result ≡ utf8_of (settings_of self.now) }
    {
        self.utf8.unwrap_or(true)
    }

    /// The limit on 32 times the weight of the patterns.
    pub fn get_nfa_size_limit(&self) -> Option<usize>
        ensures { result ≡ nfa_size_limit_of (settings_of self.now) }
    {
        self.nfa_size_limit.unwrap_or(None)
    }

    /// Which groups are kept.
    pub fn get_which_captures(&self) -> WhichCaptures
        ensures { result ≡ which_captures_of (settings_of self.now) }
    {
        self.which_captures.unwrap_or(WhichCaptures::All)
    }

    /// The byte that ends a line.
    pub fn get_line_terminator(&self) -> u8
        ensures { result ≡ line_terminator_of (settings_of self.now) }
    {
        self.line_terminator.unwrap_or(b'\n')
    }
}

/// Takes each setting that `new` sets, and keeps the others.
pub fn overwrite(config: &mut Config, new: &Config)
    ensures { settings_of config.new ≡ overwritten (settings_of config.old) (settings_of new.now) }
{
    config.utf8 = new.utf8.or(config.utf8);
    config.nfa_size_limit = new.nfa_size_limit.or(config.nfa_size_limit);
    config.which_captures = new.which_captures.or(config.which_captures);
    config.line_terminator = new.line_terminator.or(config.line_terminator);
}
