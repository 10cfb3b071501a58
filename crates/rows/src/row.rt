//! The fields of a row, between tabs, each a name and a value.

use crate::faults::{Fault, Verdict};
use crate::settings::Settings;
use rc_parser::Error;
use rc_settings::error::BuildError;
use rc_text::types::{Anchored, PatternID};
use std::alloc::Global;

/// A start and an end.
pub type Pair = (usize, usize);

/// What is wanted.
#[derive(Clone, Copy)]
pub enum Want<'a> {
    /// The row doesn't tell.
    Nothing,
    /// The first match.
    First,
    /// All matches.
    All,
    /// The groups of the first match.
    Groups,
    /// The groups of the first match, by calls that give groups alone. No field says so.
    Captured,
    /// The pieces between matches.
    Pieces,
    /// Which patterns have a match.
    Which,
    /// That the patterns are refused so, or by `no` that they aren't.
    Refused(&'a str),
    /// That all engines answer alike, whatever they answer.
    Alike,
}

/// Where searches by tables may quit.
#[derive(Clone, Copy)]
pub enum Quits {
    /// They don't.
    Nowhere,
    /// At this byte, at this offset. A search for the first match alone has to.
    At(Pair),
    /// They may at any byte that they may not go past.
    Anywhere,
}

/// A row.
#[derive(Drop)]
pub struct Row<'a> {
    /// The patterns, as they stand.
    pub patterns: Vec<&'a str>,
    /// The settings.
    pub settings: Settings<'a>,
    /// The text, with its escapes undone.
    pub text: Vec<u8>,
    /// The slice that is set before the span.
    pub slice: Option<Pair>,
    /// The span that is set.
    pub span: Option<Pair>,
    /// The anchoring.
    pub anchored: Anchored,
    /// What is wanted.
    pub want: Want<'a>,
    /// The number that stands before the spans: of the first match's pattern, or of the pieces at
    /// most.
    pub number: Option<usize>,
    /// The spans that are wanted. `None` is a group that took no part.
    pub spans: Vec<Option<Pair>>,
    /// The numbers of the patterns that are to have a match.
    pub members: Vec<usize>,
    /// Where searches by tables may quit.
    pub quits: Quits,
    /// The least and the greatest number of bytes that may settle the first match.
    pub reach: Option<Pair>,
    /// How many matches a stream gives before it ends, at least.
    pub early: usize,
    /// The match that is final, whatever follows the text.
    pub settled: Option<Pair>,
    /// The least and the greatest position of a partial answer. No match begins before them, whatever
    /// follows the text.
    pub from: Option<Pair>,
    /// The text, as it stands.
    escaped: &'a str,
    /// How many bytes stand before the text, each `a` where its offset has an even number of binary
    /// ones, else `b`.
    parities: usize,
}

impl<'a> Row<'a> {
    /// The row that a line is read as.
    pub fn read(alloc: Global, line: &'a str) -> Result<Row<'a>, Fault> {
        let mut row = Row::new(alloc);
        let mut verdict = Verdict::new();
        for field in line.split('\t') {
            row.read_field(field, &mut verdict);
        }
        put_parities(row.parities, &mut row.text, &mut verdict);
        put_unescaped(row.escaped, &mut row.text, &mut verdict);
        match verdict.result() {
            Ok(()) => Ok(row),
            Err(fault) => {
                drop(row);
                Err(fault)
            }
        }
    }

    /// What holds where no field says anything.
    fn new(alloc: Global) -> Row<'a> {
        Row {
            patterns: Vec::new(alloc),
            settings: Settings::new(),
            text: Vec::new(alloc),
            slice: None,
            span: None,
            anchored: Anchored::No,
            want: Want::Nothing,
            number: None,
            spans: Vec::new(alloc),
            members: Vec::new(alloc),
            quits: Quits::Nowhere,
            reach: None,
            early: 0,
            settled: None,
            from: None,
            escaped: "",
            parities: 0,
        }
    }

    /// Reads a field.
    fn read_field(&mut self, field: &'a str, verdict: &mut Verdict) {
        if self.settings.set_to(field) {
            return;
        }
        match field.split_once('=') {
            Some((name, value)) => self.set(name, value, verdict),
            None => verdict.note("unread", "field"),
        }
    }

    /// Sets the field of this name.
    fn set(&mut self, name: &str, value: &'a str, verdict: &mut Verdict) {
        match name {
            "pattern" => verdict.push(&mut self.patterns, value),
            "text" => self.escaped = value,
            "slice" => self.slice = range(value, verdict),
            "span" => self.span = range(value, verdict),
            "anchored" => self.anchored = anchoring(value, verdict),
            "reach" => self.reach = pair(value, verdict),
            "quit" => self.quits = quitting(value, verdict),
            "first" => self.wants(Want::First, value, verdict),
            "all" => self.wants(Want::All, value, verdict),
            "groups" => self.wants(Want::Groups, value, verdict),
            "pieces" => self.wants(Want::Pieces, value, verdict),
            "which" => {
                self.wants(Want::Which, "none", verdict);
                put_words(value, &mut self.members, verdict);
            }
            "refused" => self.wants(Want::Refused(value), "none", verdict),
            "alike" => self.wants(Want::Alike, "none", verdict),
            "early" => self.early = number(value, verdict),
            "final" => self.settled = pair(value, verdict),
            "from" => self.from = pair(value, verdict),
            "parities" => self.parities = number(value, verdict),
            _ => self.settings.set(name, value, verdict),
        }
    }

    /// Sets what is wanted, where nothing was: a number or none, and spans or none.
    fn wants(&mut self, want: Want<'a>, value: &str, verdict: &mut Verdict) {
        verdict.expect(matches!(self.want, Want::Nothing), "unread", "want");
        self.want = want;
        match value.split_once(": ") {
            None => put_words(value, &mut self.spans, verdict),
            Some((before, after)) => {
                self.number = Some(number(before, verdict));
                put_words(after, &mut self.spans, verdict);
            }
        }
    }
}

/// A number.
pub fn number(word: &str, verdict: &mut Verdict) -> usize {
    match word.parse::<usize>() {
        Ok(number) => number,
        Err(_) => {
            verdict.note("unread", "number");
            0
        }
    }
}

/// A pair `3-7`.
fn pair(word: &str, verdict: &mut Verdict) -> Option<Pair> {
    match word.split_once('-') {
        Some((start, end)) => {
            let start = number(start, verdict);
            let end = number(end, verdict);
            Some((start, end))
        }
        None => {
            verdict.note("unread", "span");
            None
        }
    }
}

/// A pair that an input takes: it starts at most one above its end.
fn range(word: &str, verdict: &mut Verdict) -> Option<Pair> {
    let pair = pair(word, verdict);
    if let Some((start, end)) = pair {
        verdict.expect(start.saturating_sub(1) <= end, "unread", "span");
    }
    pair
}

/// Where searches by tables quit: a byte, and its offset.
fn quitting(word: &str, verdict: &mut Verdict) -> Quits {
    match pair(word, verdict) {
        Some(pair) => Quits::At(pair),
        None => Quits::Nowhere,
    }
}

/// What a word of a list says.
trait Word {
    /// Reads the word.
    fn read(word: &str, verdict: &mut Verdict) -> Self;
}

impl Word for usize {
    fn read(word: &str, verdict: &mut Verdict) -> usize {
        number(word, verdict)
    }
}

/// A pair, or `.` for one that isn't there.
impl Word for Option<Pair> {
    fn read(word: &str, verdict: &mut Verdict) -> Option<Pair> {
        if word == "." {
            None
        } else {
            pair(word, verdict)
        }
    }
}

/// Adds what the words between blanks say, or nothing for `none`.
fn put_words<T: Word + Drop>(text: &str, list: &mut Vec<T>, verdict: &mut Verdict) {
    if text == "none" {
        return;
    }
    for word in text.split(' ') {
        let item = T::read(word, verdict);
        verdict.push(list, item);
    }
}

/// `no`, `yes`, or the number of a pattern.
fn anchoring(word: &str, verdict: &mut Verdict) -> Anchored {
    match word {
        "no" => Anchored::No,
        "yes" => Anchored::Yes,
        _ => match PatternID::new(number(word, verdict)) {
            Some(id) => Anchored::Pattern(id),
            None => {
                verdict.note("unread", "pattern");
                Anchored::No
            }
        },
    }
}

/// Whether the patterns are to be refused with this error.
pub fn is_refused(error: &BuildError, want: Want) -> bool {
    let Want::Refused(text) = want else {
        return false;
    };
    match error {
        BuildError::Syntax { pattern, error } => match text.split_once(" at ") {
            Some((text, at)) => {
                is_numbered(text, "syntax ", pattern.as_usize()) && is_at(error, at)
            }
            None => is_numbered(text, "syntax ", pattern.as_usize()),
        },
        BuildError::SizeLimit { limit } => is_numbered(text, "size ", *limit),
        BuildError::PlaceLimit => text == "places",
        BuildError::DfaSizeLimit { limit } => is_numbered(text, "tables ", *limit),
        _ => false,
    }
}

/// Whether the parser stopped at this byte.
fn is_at(error: &Error, text: &str) -> bool {
    match error {
        Error::Syntax { at } => is_numbered(text, "", *at),
        Error::Memory => false,
    }
}

/// Whether the text is this word and this number.
fn is_numbered(text: &str, word: &str, wanted: usize) -> bool {
    match text.strip_prefix(word) {
        None => false,
        Some(rest) => matches!(rest.parse::<usize>(), Ok(found) if found == wanted),
    }
}

/// Adds so many bytes, `a` at an offset with an even number of binary ones and else `b`.
fn put_parities(count: usize, text: &mut Vec<u8>, verdict: &mut Verdict) {
    for offset in 0..count {
        verdict.push(text, b'a' + (offset.count_ones() % 2) as u8);
    }
}

/// Adds the bytes of a text, where `\n`, `\r`, `\t`, `\\` and `\x00` to `\xFF` stand for one byte
/// each.
fn put_unescaped(escaped: &str, text: &mut Vec<u8>, verdict: &mut Verdict) {
    let mut state = State::Plain;
    for byte in escaped.as_bytes() {
        let (after, made) = step(state, *byte);
        if let Some(made) = made {
            verdict.push(text, made);
        }
        state = after;
    }
    verdict.expect(matches!(state, State::Plain), "unread", "escape");
}

/// What stands before a byte of an escaped text.
#[derive(Clone, Copy)]
enum State {
    Plain,
    Escape,
    Hex,
    Low(u8),
    /// An escape that stands for nothing.
    Unread,
}

/// What stands before the next byte, and the byte that this one makes, if it makes one.
fn step(state: State, byte: u8) -> (State, Option<u8>) {
    match (state, byte) {
        (State::Plain, b'\\') => (State::Escape, None),
        (State::Plain, plain) => (State::Plain, Some(plain)),
        (State::Escape, b'x') => (State::Hex, None),
        (State::Escape, letter) => plain(escape(letter)),
        (State::Hex, letter) => match digit(letter) {
            Some(high) => (State::Low(high), None),
            None => plain(None),
        },
        (State::Low(high), letter) => match digit(letter) {
            Some(low) => plain(Some(high.wrapping_mul(16).wrapping_add(low))),
            None => plain(None),
        },
        (State::Unread, _) => plain(None),
    }
}

/// The byte that an escape made, if it stands for one.
fn plain(made: Option<u8>) -> (State, Option<u8>) {
    match made {
        Some(made) => (State::Plain, Some(made)),
        None => (State::Unread, None),
    }
}

/// The byte that a letter after `\` stands for.
fn escape(letter: u8) -> Option<u8> {
    match letter {
        b'n' => Some(b'\n'),
        b'r' => Some(b'\r'),
        b't' => Some(b'\t'),
        b'\\' => Some(b'\\'),
        _ => None,
    }
}

/// A hexadecimal digit.
fn digit(letter: u8) -> Option<u8> {
    match letter {
        b'0'..=b'9' => Some(letter - b'0'),
        b'a'..=b'f' => Some(letter - b'a' + 10),
        b'A'..=b'F' => Some(letter - b'A' + 10),
        _ => None,
    }
}
