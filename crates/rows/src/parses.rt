//! The preferred match of plain patterns, by trying their parses in order: over the patterns alone,
//! as docs/PREFERENCE.md tells it.

ghost use Rattle.rc_text.specs.Limits.{most_patterns};
ghost use Rattle.std.specs.Prelude.{◌≤◌, length};

use crate::cursors::Cut;
use crate::engines::{Engines, may_be_empty};
use crate::faults::Verdict;
use crate::inputs::{input, start_at};
use crate::row::{Pair, Row};
use crate::slots::Asker;
use rc_build::texts::parse_all;
use rc_captures::captures::Captures;
use rc_pattern::hir::{
    Capture, Class, ClassBytesRange, ClassUnicodeRange, Hir, HirKind, Look, Repetition,
};
use rc_program::look::{holds, scalar_at};
use rc_text::types::{Anchored, MatchKind, Span};
use std::alloc::Global;

/// How many choices of one repetition are made at most.
const MOST_CHOICES: u32 = 1000000;

/// Where a parse ends, and the place of its last mark.
#[derive(Clone, Copy)]
struct Parse {
    end: usize,
    last: Option<usize>,
}

/// What a tree of a group spans, and the place of the mark before it in its parse.
#[derive(Clone, Copy)]
struct Mark {
    group: usize,
    span: Span,
    before: Option<usize>,
}

/// A parse by some turns of a repetition, and whether a further turn is tried or it is taken as it
/// is.
#[derive(Clone, Copy)]
struct Choice {
    turns: usize,
    goes_on: bool,
    parse: Parse,
}

/// The parse that is preferred, its pattern's number, and where it starts.
#[derive(Clone, Copy)]
struct Preferred {
    number: usize,
    start: usize,
    parse: Parse,
}

/// What parses see of a row, and the marks of all of them.
#[derive(Drop)]
struct Parser<'a> {
    alloc: Global,
    row: &'a Row<'a>,
    /// The part of the text that assertions see.
    slice: Pair,
    /// Where matches may lie.
    bounds: Pair,
    marks: Vec<Mark>,
    verdict: Verdict,
}

/// The engines answer a row of plain patterns as its parses say, from the row's start on and from
/// each position behind it. Other rows aren't looked at, nor those that take the walker too long.
pub fn agree(asker: &mut Asker, engines: &Engines, row: &Row)
    requires { length row.now.patterns.items ≤ most_patterns }
{
    let settings = &row.settings;
    if settings.kind != MatchKind::LeftmostFirst
        || !settings.walker
        || !engines.regexes.plain.is_plain()
    {
        return;
    }
    // The patterns were read when the engines were built.
    match parse_all(asker.alloc, &row.patterns, &settings.syntax) {
        Ok(hirs) => {
            from_each_start(asker, engines, &hirs, row);
            drop(hirs);
        }
        Err(_) => asker.verdict.note("row", "memory"),
    }
}

/// The regex gives, from the row's start on and from each position behind it, what the parses say.
fn from_each_start(asker: &mut Asker, engines: &Engines, hirs: &[Hir], row: &Row) {
    let (low, high) = bounds_of(row);
    for start in low..high.saturating_add(1) {
        from_start(asker, engines, hirs, row, start);
    }
}

/// The regex gives the match and the groups that the parses from this start on say.
fn from_start(asker: &mut Asker, engines: &Engines, hirs: &[Hir], row: &Row, start: usize) {
    let mut input = input(row, Cut::whole(&row.text));
    start_at(&mut input, start);
    match engines.regexes.plain.captures(asker.alloc, input) {
        Ok(captures) => {
            are_preferred(asker, &captures, hirs, row, start);
            drop(captures);
        }
        Err(_) => asker.verdict.note("row", "memory"),
    }
}

/// The captures have the match and the groups that the parses from this start on say.
fn are_preferred(asker: &mut Asker, captures: &Captures, hirs: &[Hir], row: &Row, start: usize) {
    let mut parser = Parser::new(asker, row, start);
    let preferred = parser.preferred(hirs);
    let is_same = is_preferred(captures, &preferred);
    parser.verdict.expect(is_same, "parses", "match");
    let has_groups = parser.has_groups(captures, &preferred);
    parser.verdict.expect(has_groups, "parses", "groups");
    asker.verdict = parser.verdict;
}

/// The captures have the match that is preferred.
fn is_preferred(captures: &Captures, preferred: &Option<Preferred>) -> bool {
    match (captures.get_match(), preferred) {
        (None, None) => true,
        (Some(found), Some(preferred)) => {
            found.pattern().as_usize() == preferred.number
                && found.start() == preferred.start
                && found.end() == preferred.parse.end
        }
        _ => false,
    }
}

/// The part of the text that assertions see.
fn slice_of(row: &Row) -> Pair {
    let len = row.text.len();
    match row.slice {
        Some((start, end)) => (start, end.min(len)),
        None => (0, len),
    }
}

/// Where matches may lie.
fn bounds_of(row: &Row) -> Pair {
    let slice = slice_of(row);
    match row.span {
        Some((start, end)) => (start.max(slice.0), end.min(slice.1)),
        None => slice,
    }
}

/// The pattern of this number is looked for.
fn is_sought(anchored: &Anchored, number: usize) -> bool {
    match anchored {
        Anchored::No | Anchored::Yes => true,
        Anchored::Pattern(only) => only.as_usize() == number,
    }
}

/// The text has a boundary here: its end, or a byte that doesn't go on with a character.
fn is_boundary(text: &[u8], at: usize) -> bool {
    match text.get(at) {
        None => true,
        Some(byte) => !matches!(*byte, 128..=191),
    }
}

/// A further turn is allowed after so many.
fn is_below(turns: usize, max: Option<u32>) -> bool {
    match max {
        Some(max) => turns < max as usize,
        None => true,
    }
}

/// How long the byte or the character is that the text starts with, if it is in the class.
fn len_of(class: &Class, text: &[u8]) -> Option<usize> {
    match class {
        Class::Bytes(ranges) => match text.first() {
            Some(byte) if is_in_bytes(ranges, *byte) => Some(1),
            _ => None,
        },
        Class::Unicode(ranges) => match scalar_at(text) {
            Some((next, len)) if is_in_chars(ranges, next) => Some(len),
            _ => None,
        },
    }
}

/// The byte is in one of the ranges.
fn is_in_bytes(ranges: &[ClassBytesRange], byte: u8) -> bool {
    for range in ranges {
        if range.start <= byte && byte <= range.end {
            return true;
        }
    }
    false
}

/// The character is in one of the ranges.
fn is_in_chars(ranges: &[ClassUnicodeRange], next: char) -> bool {
    for range in ranges {
        if range.start <= next && next <= range.end {
            return true;
        }
    }
    false
}

/// One of the parses ends here.
fn has_end(found: &[Parse], end: usize) -> bool {
    for parse in found {
        if parse.end == end {
            return true;
        }
    }
    false
}

impl<'a> Parser<'a> {
    /// What parses see of a row from this start on.
    fn new(asker: &Asker, row: &'a Row<'a>, start: usize) -> Parser<'a> {
        Parser {
            alloc: asker.alloc,
            row,
            slice: slice_of(row),
            bounds: (start, bounds_of(row).1),
            marks: Vec::new(asker.alloc),
            verdict: asker.verdict,
        }
    }

    /// The parse that is preferred: the least parse of the least start that gives one. One that
    /// ends off a boundary is passed over where a pattern may be empty.
    fn preferred(&mut self, hirs: &[Hir]) -> Option<Preferred> {
        let (low, high) = self.bounds;
        let passes_over = self.row.settings.utf8_empty && may_be_empty(hirs);
        for start in low..high.saturating_add(1) {
            let least = self.least(hirs, start);
            if let Some(preferred) = least {
                if !passes_over || is_boundary(&self.row.text, preferred.parse.end) {
                    return least;
                }
            }
            if self.row.anchored != Anchored::No {
                break;
            }
        }
        None
    }

    /// The least parse from a start: the first one of the first pattern that is looked for and has
    /// one.
    fn least(&mut self, hirs: &[Hir], start: usize) -> Option<Preferred> {
        let from = Parse {
            end: start,
            last: None,
        };
        let mut number = 0;
        for hir in hirs {
            if is_sought(&self.row.anchored, number) {
                let mut found = Vec::new(self.alloc);
                self.parse(hir, from, &mut found);
                if let Some(parse) = found.first() {
                    return Some(Preferred {
                        number,
                        start,
                        parse: *parse,
                    });
                }
            }
            number = number.saturating_add(1);
        }
        None
    }

    /// The groups that the captures keep are those of the parse.
    fn has_groups(&self, captures: &Captures, preferred: &Option<Preferred>) -> bool {
        let Some(preferred) = preferred else {
            return true;
        };
        for number in 1..captures.group_len() {
            if captures.get_group(number) != self.group(preferred.parse.last, number) {
                return false;
            }
        }
        true
    }

    /// What the last tree of a group spans, of the marks up to this one.
    fn group(&self, mut last: Option<usize>, number: usize) -> Option<Span> {
        for _ in 0..self.marks.len() {
            let mark = self.marks.get(last?)?;
            if mark.group == number {
                return Some(mark.span);
            }
            last = mark.before;
        }
        None
    }

    /// Adds a parse behind the others, unless one of them has its end: the same may follow each of
    /// them.
    fn add(&mut self, found: &mut Vec<Parse>, parse: Parse) {
        if !has_end(found, parse.end) {
            self.verdict.push(found, parse);
        }
    }

    /// Adds the parses of a pattern that go on from one, in order. Of those with one end the first
    /// alone is kept.
    #[cycle(parse)]
    fn parse(&mut self, hir: &Hir, from: Parse, found: &mut Vec<Parse>) {
        match hir.kind() {
            HirKind::Repetition(repetition) => self.repeat(repetition, from, found),
            HirKind::Capture(capture) => self.capture(capture, from, found),
            HirKind::Concat(subs) => self.concat(subs, from, found),
            HirKind::Alternation(subs) => {
                for sub in subs {
                    self.parse(sub, from, found);
                }
            }
            HirKind::Empty => self.go_on(Some(from.end), from, found),
            HirKind::Literal(bytes) => self.go_on(self.end_of_bytes(bytes, from.end), from, found),
            HirKind::Class(class) => self.go_on(self.end_of_class(class, from.end), from, found),
            HirKind::Look(look) => self.go_on(self.end_of_look(*look, from.end), from, found),
        }
    }

    /// Adds the parse that goes on from one to this end, where there is one.
    fn go_on(&mut self, end: Option<usize>, from: Parse, found: &mut Vec<Parse>) {
        if let Some(end) = end {
            let last = from.last;
            self.add(found, Parse { end, last });
        }
    }

    /// Adds the parses of a group, each with what it spans.
    #[cycle(parse)]
    fn capture(&mut self, capture: &Capture, from: Parse, found: &mut Vec<Parse>) {
        let mut inner = Vec::new(self.alloc);
        self.parse(&capture.sub, from, &mut inner);
        for parse in &inner {
            let last = Some(self.marks.len());
            let mark = Mark {
                group: capture.index,
                span: Span {
                    start: from.end,
                    end: parse.end,
                },
                before: parse.last,
            };
            self.verdict.push(&mut self.marks, mark);
            self.go_on(Some(parse.end), Parse { end: 0, last }, found);
        }
    }

    /// Adds the parses of patterns one after another: by the first one's choices before those of
    /// the others.
    #[cycle(parse)]
    fn concat(&mut self, subs: &[Hir], from: Parse, found: &mut Vec<Parse>) {
        let mut all = Vec::new(self.alloc);
        self.add(&mut all, from);
        for sub in subs {
            let mut longer = Vec::new(self.alloc);
            for parse in &all {
                self.parse(sub, *parse, &mut longer);
            }
            all = longer;
        }
        for parse in &all {
            self.add(found, *parse);
        }
    }

    /// Adds the parses of a repetition, turn by turn: greedy tries a further turn before it stops,
    /// lazy stops before. What was tried after so many turns from one position isn't tried there
    /// again: it has the same ends.
    #[cycle(parse)]
    fn repeat(&mut self, repetition: &Repetition, from: Parse, found: &mut Vec<Parse>) {
        let mut tried = Vec::new(self.alloc);
        let mut choices = Vec::new(self.alloc);
        self.choose(&mut choices, repetition.greedy, 0, from);
        for _ in 0..MOST_CHOICES {
            let Some(choice) = choices.pop() else {
                return;
            };
            if choice.goes_on {
                self.take_turn(repetition, choice, &mut tried, &mut choices);
            } else if choice.turns >= repetition.min as usize {
                self.add(found, choice.parse);
            }
        }
        self.verdict.note("parses", "count");
    }

    /// Puts the choices after each further turn uppermost, those of an earlier parse of it above
    /// those of a later one.
    #[cycle(parse)]
    fn take_turn(
        &mut self,
        repetition: &Repetition,
        choice: Choice,
        tried: &mut Vec<Pair>,
        choices: &mut Vec<Choice>,
    ) {
        let turn = (choice.turns, choice.parse.end);
        if !is_below(choice.turns, repetition.max) || tried.contains(&turn) {
            return;
        }
        self.verdict.push(tried, turn);
        let mut longer = Vec::new(self.alloc);
        self.parse(&repetition.sub, choice.parse, &mut longer);
        for parse in longer.iter().rev() {
            let turns = choice.turns.saturating_add(1);
            self.choose(choices, repetition.greedy, turns, *parse);
        }
    }

    /// Puts both choices after so many turns uppermost, the preferred one above the other.
    fn choose(&mut self, choices: &mut Vec<Choice>, greedy: bool, turns: usize, parse: Parse) {
        let mut choice = Choice {
            turns,
            goes_on: !greedy,
            parse,
        };
        self.verdict.push(choices, choice);
        choice.goes_on = greedy;
        self.verdict.push(choices, choice);
    }

    /// What may still be read from here on.
    fn ahead(&self, at: usize) -> &[u8] {
        match self.row.text.get(at..self.bounds.1) {
            Some(ahead) => ahead,
            None => &[],
        }
    }

    /// Where the bytes end, if they stand here.
    fn end_of_bytes(&self, bytes: &[u8], at: usize) -> Option<usize> {
        if self.ahead(at).starts_with(bytes) {
            at.checked_add(bytes.len())
        } else {
            None
        }
    }

    /// Where the byte or the character here ends, if it is in the class.
    fn end_of_class(&self, class: &Class, at: usize) -> Option<usize> {
        match len_of(class, self.ahead(at)) {
            Some(len) => at.checked_add(len),
            None => None,
        }
    }

    /// Here, if the assertion holds.
    fn end_of_look(&self, look: Look, at: usize) -> Option<usize> {
        let (start, end) = self.slice;
        let before = self.row.text.get(start..at).unwrap_or(&[]);
        let after = self.row.text.get(at..end).unwrap_or(&[]);
        if holds(look, self.row.settings.terminator, before, after) {
            Some(at)
        } else {
            None
        }
    }
}
