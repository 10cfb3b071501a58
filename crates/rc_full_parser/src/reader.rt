//! Parser of the full grammar: reads the text of a pattern as a `Hir`.

ghost use Rattle.std.specs.Prelude.{◌≡◌, ◌⊎◌, ◌<◌, ◌≤◌, ◌+◌, ◌-◌, ◌^◌, ℕ, [], MatchResult, OnOk, IfOk, IsTrue, length, chars};
ghost use Rattle.rc_pattern.specs.Re.{Re};
ghost use Rattle.rc_pattern.specs.Meaning.{meaning};
ghost use Rattle.rc_pattern.specs.Kinds.{has_plain_nodes};
ghost use Rattle.rc_pattern.specs.WellFormed.{IsWellFormed};
ghost use Rattle.rc_pattern.specs.declared.hir.Hir.{out-Hir};
ghost use Rattle.rc_pattern.specs.declared.hir.HirKind.TheVariants as HirKind;
ghost use Rattle.rc_tokens.specs.Text.{Characters};
ghost use Rattle.rc_tokens.specs.View.{IsResultOf};
ghost use Rattle.rc_tokens.specs.declared.refusal.Refusal.TheVariants.{Memory};
ghost use Rattle.rc_parser.specs.Settings.{settings_of};
ghost use Rattle.rc_parser.specs.Pieces.{Subpattern};
ghost use Rattle.rc_parser.specs.Outcome.{OnSyntax, OnFault};
ghost use Rattle.rc_parser.specs.View.{part};
ghost use Rattle.rc_full_lists.specs.Read.{passed};
ghost use Rattle.rc_full_parser.specs.Grammar.{Reads, mark_settings};
ghost use Rattle.rc_full_parser.specs.Marks.{brackets};
ghost use Rattle.rc_full_parser.specs.Pieces.{IsPiece, HasCodesOf, HasCodesAt};
ghost use Rattle.rc_full_parser.specs.Machine.{State, place, appended, take_mark, Moves, Leads, Steps, Refuses, start};
ghost use Rattle.rc_full_parser.specs.View.{mark_of, Gives, settings_at, state_of};

use crate::marks::{Mark, MarkSettings, Piece, first_mark};
use crate::pieces::{listed, piece};
use rc_full_lists::parts::{Settings, passed};
use rc_full_tokens::flags::FlagChange;
use rc_parser::builder::Work;
use rc_parser::nested::Nested;
use rc_parser::reader::{Fault, byte_before, characters};
use rc_parser::{Config, Error};
use rc_pattern::hir::Hir;
use rc_tokens::refusal::Refusal;
use rc_tokens::tokens::{Opening, Token};
use std::alloc::Global;

/// How far a pattern is read.
#[derive(Drop)]
pub struct Reader {
    pub work: Work,
    /// The flag `x`.
    pub verbose: bool,
    /// The flag `x` around each group that is open, the innermost last.
    pub around: Vec<bool>,
}

impl Reader {
    fn new(alloc: Global, config: Config) -> Reader
        ensures state { state_of result ≡ start (settings_of config) }
        ensures settings { settings_at result ≡ settings_of config }
        ensures groups { result.work.level.groups ≡ 0 }
    {
        Reader {
            work: Work::new(alloc, config),
            verbose: config.get_ignore_whitespace(),
            around: Vec::new(alloc),
        }
    }

    fn mark_settings(&self) -> MarkSettings
        ensures { result ≡ mark_settings (settings_at self.now) (place (state_of self.now)) }
    {
        MarkSettings {
            unicode: self.work.level.flags.unicode,
            octal: self.work.config.get_octal(),
            empty_min: self.work.config.get_empty_min(),
        }
    }

    fn set(&mut self, alloc: Global, to: FlagChange) -> Result<(), Refusal>
        requires room { self.old.work.level.groups < 2 ^ 64 - 1 }
        ensures value { IsResultOf result
            (take_mark (settings_at self.old) (mark_of (Mark.Sets to)) (state_of self.old))
            (λ _. state_of self.new) }
        ensures settings { settings_at self.new ≡ settings_at self.old }
        ensures groups { OnOk result
            (self.new.work.level.groups ≤ self.old.work.level.groups + 1) }
    {
        self.work.accept(alloc, Token::Setting(to.stated))?;
        self.verbose = to.ignore_whitespace.unwrap_or(self.verbose);
        Ok(())
    }

    fn open(
        &mut self,
        alloc: Global,
        opening: Opening,
        verbose: Option<bool>,
    ) -> Result<(), Refusal>
        requires room { self.old.work.level.groups < 2 ^ 64 - 1 }
        ensures value { IsResultOf result
            (take_mark (settings_at self.old) (mark_of (Mark.Opens opening verbose))
            (state_of self.old)) (λ _. state_of self.new) }
        ensures settings { settings_at self.new ≡ settings_at self.old }
        ensures groups { OnOk result
            (self.new.work.level.groups ≤ self.old.work.level.groups + 1) }
    {
        self.around.push(self.verbose)?;
        self.work.accept(alloc, Token::Opens(opening))?;
        self.verbose = verbose.unwrap_or(self.verbose);
        Ok(())
    }

    fn close(&mut self, alloc: Global) -> Result<(), Refusal>
        requires room { self.old.work.level.groups < 2 ^ 64 - 1 }
        ensures value { IsResultOf result
            (take_mark (settings_at self.old) (mark_of Mark.Closes) (state_of self.old))
            (λ _. state_of self.new) }
        ensures settings { settings_at self.new ≡ settings_at self.old }
        ensures groups { OnOk result
            (self.new.work.level.groups ≤ self.old.work.level.groups + 1) }
    {
        let Some(verbose) = self.around.pop() else {
            return Err(Refusal::Syntax);
        };
        self.work.accept(alloc, Token::Closes)?;
        self.verbose = verbose;
        Ok(())
    }

    /// Reads a mark that stands alone.
    fn put(&mut self, alloc: Global, kind: Piece) -> Result<(), Refusal>
        requires { HasCodesOf self.old.work.level.flags.unicode kind }
        ensures value { Gives result (λ (n : State). (q : Subpattern)
            × IsPiece (settings_at self.old) self.old.work.level.flags kind q
            × (appended q (state_of self.old) ≡ n)) (λ _. state_of self.new) }
        ensures settings { settings_at self.new ≡ settings_at self.old }
        ensures groups { self.new.work.level.groups ≡ self.old.work.level.groups }
    {
        let item = piece(alloc, self.work.config, self.work.level.flags, kind)?;
        self.work.append(item)
    }

    /// Reads the list behind a `[`.
    fn put_list<'t>(&mut self, alloc: Global, text: &'t [char]) -> Result<&'t [char], Refusal>
        ensures value { Gives result (λ (r : State × Characters).
            Moves (settings_at self.old) brackets (state_of self.old) text.now r.0 r.1)
            (λ u. (state_of self.new, u.now)) }
        ensures settings { settings_at self.new ≡ settings_at self.old }
        ensures groups { self.new.work.level.groups ≡ self.old.work.level.groups }
    {
        let flags = self.work.level.flags;
        let settings = Settings {
            unicode: flags.unicode,
            verbose: self.verbose,
            octal: self.work.config.get_octal(),
        };
        let (item, rest) = listed(alloc, self.work.config, flags, settings, text)?;
        self.work.append(item)?;
        Ok(rest)
    }

    /// Reads a mark, and the list that it opens. The text follows the mark.
    fn accept<'t>(
        &mut self,
        alloc: Global,
        mark: Mark,
        text: &'t [char],
    ) -> Result<&'t [char], Refusal>
        requires room { self.old.work.level.groups < 2 ^ 64 - 1 }
        requires codes { HasCodesAt self.old.work.level.flags.unicode (mark_of mark) }
        ensures value { Gives result (λ (r : State × Characters). Moves (settings_at self.old)
            (mark_of mark) (state_of self.old) text.now r.0 r.1) (λ u. (state_of self.new, u.now)) }
        ensures settings { settings_at self.new ≡ settings_at self.old }
        ensures groups { OnOk result
            (self.new.work.level.groups ≤ self.old.work.level.groups + 1) }
    {
        match mark {
            Mark::Bar => self.work.accept(alloc, Token::Bar)?,
            Mark::Repeats(bounds) => self.work.accept(alloc, Token::Repeats(bounds))?,
            Mark::Sets(to) => self.set(alloc, to)?,
            Mark::Opens(opening, verbose) => self.open(alloc, opening, verbose)?,
            Mark::Closes => self.close(alloc)?,
            Mark::Stands(kind) => self.put(alloc, kind)?,
            Mark::Brackets => return self.put_list(alloc, text),
        }
        Ok(text)
    }

    /// Reads the mark that begins the text, and returns the text from the next mark on.
    fn step<'t>(&mut self, alloc: Global, text: &'t [char]) -> Result<&'t [char], Refusal>
        requires room { self.old.work.level.groups < 2 ^ 64 - 1 }
        requires front { passed self.old.verbose text.now ≡ text.now }
        requires more { 0 < length text.now }
        ensures value { MatchResult result
            (λ u. Steps (settings_at self.old) (state_of self.old) text.now (state_of self.new)
            u.now)
            (λ e. (e ≡ Memory) ⊎ Refuses (settings_at self.old) (state_of self.old) text.now) }
        ensures settings { settings_at self.new ≡ settings_at self.old }
        ensures groups { OnOk result
            (self.new.work.level.groups ≤ self.old.work.level.groups + 1) }
    {
        let (mark, behind) = first_mark(alloc, self.mark_settings(), text)?;
        let rest = self.accept(alloc, mark, behind)?;
        if self.work.is_too_deep() {
            return Err(Refusal::Syntax);
        }
        Ok(passed(self.verbose, rest))
    }
}

fn read(alloc: Global, text: &[char], config: Config) -> Result<Nested, Fault>
    ensures terminator { (settings_of config).line_terminator < 256 }
    ensures reads { MatchResult result
        (λ n. Leads (settings_of config) (start (settings_of config)) text.now (part n))
        (λ e. OnFault e ((p : Subpattern) → Leads (settings_of config)
        (start (settings_of config)) text.now p → ⊥)) }
{
    let mut reader = Reader::new(alloc, config);
    let mut rest = passed(config.get_ignore_whitespace(), text);
    while !rest.is_empty() {
        rest = match reader.step(alloc, rest) {
            Ok(behind) => behind,
            Err(Refusal::Memory) => return Err(Fault::Memory),
            Err(Refusal::Syntax) => return Err(Fault::Syntax(rest.len())),
        };
    }
    match reader.work.finish(alloc) {
        Ok(whole) => Ok(whole),
        Err(Refusal::Memory) => Err(Fault::Memory),
        Err(Refusal::Syntax) => Err(Fault::Syntax(0)),
    }
}

/// Parses the text of a pattern by the full grammar.
///
/// It returns the pattern that the grammar gives the text. That pattern is well-formed. None of its
/// nodes is a concatenation of nothing, and the empty text is the node `Empty`. It fails with
/// `Syntax` only if the grammar gives no pattern, and with `Memory` if it runs out of memory.
pub fn parse(alloc: Global, text: &str, config: &Config) -> Result<Hir, Error>
    ensures reads { MatchResult result
        (λ h. Reads (settings_of config.now) (chars text.now) (meaning h))
        (λ e. OnSyntax e (λ at. (at ≤ length text.now)
        × ((re : Re) → Reads (settings_of config.now) (chars text.now) re → ⊥))) }
    ensures well_formed { IfOk result (λ h. IsWellFormed (meaning h)) }
    ensures kind { IfOk result (λ h. IsTrue (has_plain_nodes h)) }
    ensures empty { text.now ≡ [] → IfOk result (λ h. (out-Hir h).kind ≡ HirKind.Empty) }
{
    let Ok(all) = characters(alloc, text) else {
        return Err(Error::Memory);
    };
    match read(alloc, &all, *config) {
        Ok(whole) => {
            let Nested { hir, depth: _ } = whole;
            Ok(hir)
        }
        Err(Fault::Memory) => Err(Error::Memory),
        Err(Fault::Syntax(left)) => {
            let at = byte_before(text, all.len().saturating_sub(left));
            Err(Error::Syntax { at })
        }
    }
}
