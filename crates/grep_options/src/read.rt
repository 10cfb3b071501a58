//! Command lines: the options and operands that the words give.
ghost use Rattle.std.specs.Prelude.{◌≡◌, [], IfOk, MatchResult, chars, map};
ghost use Rattle.std.specs.Option.{option_map};
ghost use Rattle.grep_options.specs.Given.{IsWordsError, chosen_of, operands_of, turn_of};
ghost use Rattle.grep_options.specs.Taken.{HasTaken};
ghost use Rattle.grep_options.specs.Nearest.{IsNearest, names_of};
ghost use Rattle.grep_options.specs.Words.{behind_dash, first, has_letter, has_name, letters_say, name_in, name_says, next_says, option_says, some_text, value_in, word_says, words_give};
ghost use Rattle.grep_options.specs.Words.Outcome.{gives};
ghost use Rattle.grep_options.specs.Words.Turn.{any};

use crate::table::{Entry, Id, Takes};
use std::alloc::{AllocError, AllocFailed, Global};
use strsim::levenshtein;

/// A word with as many changed letters, or more, isn't meant to be an option.
const GREATEST_DISTANCE: usize = 3;

/// What a command line gives.
#[derive(Drop)]
pub struct Given<'w> {
    /// The options, in their order, each with its value if it has one.
    pub options: Vec<(Id, Option<&'w str>)>,
    /// The words that are no options, in their order.
    pub operands: Vec<&'w str>,
}

/// Why the words give nothing.
#[derive(Clone, Copy)]
pub enum WordsError<'w> {
    /// The word is no option, or a letter of it is none.
    Unknown(&'w str),
    /// The option in this word takes a value, and there is none.
    NoValue(&'w str),
    /// The option in this word takes no value.
    Unneeded(&'w str),
    /// Out of memory.
    Memory,
}

impl<'w, T: Drop> From<AllocFailed<T>> for WordsError<'w> {
    ghost use Rattle.std.specs.Prelude.{◌≡◌};
    ghost use Rattle.grep_options.specs.declared.read.WordsError.TheVariants.{Memory};

    ghost from_gives = { λ _ r. r ≡ Memory };

    fn from(_: AllocFailed<T>) -> WordsError<'w> {
        WordsError::Memory
    }
}

/// What the next word is.
#[derive(Clone, Copy)]
enum Next<'w> {
    /// An option or an operand.
    Any,
    /// The value of the option in this word.
    Value(Id, &'w str),
    /// An operand, as is each word behind it.
    Operand,
}

/// The option with a letter.
fn by_letter(table: &[Entry], letter: char) -> Option<Entry>
    ensures { result ≡ first (has_letter letter) table.now }
{
    for entry in table {
        if entry.letter == Some(letter) {
            return Some(*entry);
        }
    }
    None
}

/// The option with a long name.
fn by_name(table: &[Entry], name: &str) -> Option<Entry>
    ensures { result ≡ first (has_name name.now) table.now }
{
    for entry in table {
        if entry.name == name {
            return Some(*entry);
        }
    }
    None
}

/// The text behind a dash, if it begins with one.
fn behind_dash(text: &str) -> Option<&str>
    ensures { option_map (λ t. t.now) result ≡ behind_dash text.now }
{
    text.strip_prefix('-')
}

/// The text, unless it is empty.
fn some_text(text: &str) -> Option<&str>
    ensures { option_map (λ t. t.now) result ≡ some_text text.now }
{
    if text.is_empty() { None } else { Some(text) }
}

/// A long name, and the value behind `=` if there is one.
fn name_and_value(text: &str) -> (&str, Option<&str>)
    ensures name { result.0.now ≡ name_in text.now }
    ensures value { option_map (λ v. v.now) result.1 ≡ value_in text.now }
{
    match text.split_once('=') {
        Some((name, value)) => (name, Some(value)),
        None => (text, None),
    }
}

impl<'w> Given<'w> {
    fn new(alloc: Global) -> Given<'w>
        ensures options { chosen_of result ≡ [] }
        ensures operands { operands_of result ≡ [] }
    {
        Given {
            options: Vec::new(alloc),
            operands: Vec::new(alloc),
        }
    }

    /// Takes an option, which stands in this word, and its value if that stands there too.
    fn take_option(
        &mut self,
        entry: Entry,
        word: &'w str,
        value: Option<&'w str>,
    ) -> Result<Next<'w>, WordsError<'w>>
        ensures { HasTaken self.old self.new word.now result
            (option_says word.now (option_map (λ v. v.now) value.entry) entry.id entry.takes) }
    {
        match (entry.takes, value) {
            (Takes::Nothing, Some(_)) => return Err(WordsError::Unneeded(word)),
            (Takes::Value(_), None) => return Ok(Next::Value(entry.id, word)),
            _ => {}
        }
        self.options.push((entry.id, value))?;
        Ok(Next::Any)
    }

    /// Takes the text behind two dashes.
    fn take_long(
        &mut self,
        table: &[Entry],
        word: &'w str,
        text: &'w str,
    ) -> Result<Next<'w>, WordsError<'w>>
        ensures { HasTaken self.old self.new word.now result
            (name_says table.now word.now text.now) }
    {
        let (name, value) = name_and_value(text);
        match by_name(table, name) {
            Some(entry) => self.take_option(entry, word, value),
            None => Err(WordsError::Unknown(word)),
        }
    }

    /// Takes letters, of which the last one may have a value behind it.
    fn take_letters(
        &mut self,
        table: &[Entry],
        word: &'w str,
        text: &'w str,
    ) -> Result<Next<'w>, WordsError<'w>>
        ensures { HasTaken self.old self.new word.now result
            (letters_say table.now word.now (chars text.now)) }
    {
        let mut letters = text.chars();
        while let Some(letter) = letters.next() {
            let Some(entry) = by_letter(table, letter) else {
                return Err(WordsError::Unknown(word));
            };
            let Takes::Nothing = entry.takes else {
                return self.take_option(entry, word, some_text(letters.as_str()));
            };
            self.options.push((entry.id, None))?;
        }
        Ok(Next::Any)
    }

    /// Takes a word that is an option or an operand.
    fn take_word(&mut self, table: &[Entry], word: &'w str) -> Result<Next<'w>, WordsError<'w>>
        ensures { HasTaken self.old self.new word.now result (word_says table.now word.now) }
    {
        let text = behind_dash(word).unwrap_or("");
        if text.is_empty() {
            self.operands.push(word)?;
            return Ok(Next::Any);
        }
        match behind_dash(text) {
            None => self.take_letters(table, word, text),
            Some(name) if name.is_empty() => Ok(Next::Operand),
            Some(name) => self.take_long(table, word, name),
        }
    }

    /// Takes the next word.
    fn take(
        &mut self,
        table: &[Entry],
        next: Next<'w>,
        word: &'w str,
    ) -> Result<Next<'w>, WordsError<'w>>
        ensures { HasTaken self.old self.new word.now result
            (next_says table.now (turn_of next.entry) word.now) }
    {
        match next {
            Next::Any => self.take_word(table, word),
            Next::Value(id, _) => {
                self.options.push((id, Some(word)))?;
                Ok(Next::Any)
            }
            Next::Operand => {
                self.operands.push(word)?;
                Ok(Next::Operand)
            }
        }
    }
}

/// The options and operands that the words give. Letters may stand together, as in `-ne PATTERN`
/// and `-A3`. The value of a long option stands behind `=`, or is the next word. One that may be
/// missing stands in the same word, as in `-i.bak` and `--in-place=.bak`. No word behind `--` is an
/// option, and `-` is none.
pub fn read_words<'w>(
    alloc: Global,
    table: &[Entry],
    words: &[&'w str],
) -> Result<Given<'w>, WordsError<'w>>
    ensures { MatchResult result
        (λ g. words_give table.now any (map (λ w. w.now) words.now)
        ≡ gives (chosen_of g) (operands_of g))
        (λ e. IsWordsError e (words_give table.now any (map (λ w. w.now) words.now))) }
{
    let mut given = Given::new(alloc);
    let mut next = Next::Any;
    for word in words {
        next = given.take(table, next, word)?;
    }
    match next {
        Next::Value(_, word) => Err(WordsError::NoValue(word)),
        _ => Ok(given),
    }
}

/// The long name that comes nearest to a name, the first if there are several, or `None` if three
/// letters or more are put in, left out or changed for each. An `Err` means out of memory.
pub fn nearest(
    alloc: Global,
    table: &[Entry],
    name: &str,
) -> Result<Option<&'static str>, AllocError>
    ensures { IfOk result (λ o. IsNearest 3 (names_of table.now) name.now
        (option_map (λ n. n.now) o)) }
{
    let mut best: Option<&'static str> = None;
    let mut least = GREATEST_DISTANCE;
    for entry in table {
        let distance = levenshtein(alloc, name, entry.name)?;
        if distance < least {
            least = distance;
            best = Some(entry.name);
        }
    }
    Ok(best)
}
