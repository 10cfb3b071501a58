//! The recipes of the cookbook, each run once over a text in chunks. What is printed tells their answers, or why there is none.
#![tactic(auto)]

ghost use Rattle.live_matches.specs.Live.{IsCacheOf};

mod bytes;
mod cases;
mod escaping;
mod faults;
mod finding;
mod growing;
mod kept;
mod lent;
mod lexing;
mod lines;
mod parts;
mod places;
mod ranges;
mod replacing;
mod rules;
mod stepping;
mod tokens;

use crate::bytes::{bytes_of, put_match};
use crate::cases::in_any_case;
use crate::escaping::escaped;
use crate::faults::fault_of;
use crate::finding::{match_in_selection, matches_on_screen, next_match, previous_match};
use crate::growing::{final_match, is_kept};
use crate::kept::first_matches;
use crate::lent::count_in_both;
use crate::lexing::{all_kinds, type_code, words_in};
use crate::lines::{group_named, lines_with_a_match};
use crate::parts::{Part, first_in_pieces};
use crate::places::line_of;
use crate::ranges::{add_range, matches_of_range};
use crate::replacing::replaced;
use crate::rules::rules_met;
use crate::stepping::{list_on, search_on};
use crate::tokens::{KINDS, next_token, words};
use chunk_replace::Template;
use gap_buffer::GapBuffer;
use live_matches::{LiveMatches, whole_input};
use regex_cursor::Input;
use regex_cursor::cursor::ChunkCursor;
use regex_cursor::engines::meta::{Cache, Finder, Regex};
use regex_cursor::run::{RunError, Written};
use regex_cursor::types::{Anchored, Match, Span};
use std::alloc::{AllocError, Global};
use std::fmt;
use std::io::Write;
use stream_search::{ListStepper, Stepper};

/// Writes an answer. A fault of the standard output is ignored.
fn show<T: fmt::Debug>(rt: &HostRuntime, name: &str, answer: &T) {
    let _ = writeln!(rt.stdout(), "{name}: {answer:?}");
}

/// Writes bytes on a line of their own. A fault of the standard output is ignored.
fn show_bytes(rt: &HostRuntime, bytes: &[u8]) {
    let _ = rt.stdout().write_all(bytes);
    let _ = writeln!(rt.stdout());
}

/// Next, previous, in a selection, on screen.
fn edit(rt: &HostRuntime, regex: &Regex, finder: &mut Finder<'_>, text: ChunkCursor<'_>) {
    let part = Span { start: 6, end: 40 };
    show(rt, "next", &next_match(finder, text, 8));
    show(rt, "selected", &match_in_selection(finder, text, part));
    show(rt, "previous", &previous_match(rt.alloc(), regex, text, 8));
    show(
        rt,
        "on screen",
        &matches_on_screen(rt.alloc(), regex, text, part),
    );
}

/// The number at a place, if it is final, and whether edits leave the first one.
fn grow_with(rt: &HostRuntime, finder: &mut Finder<'_>, text: ChunkCursor<'_>) {
    show(rt, "final", &final_match(finder, text, 0, 9));
    show(rt, "may go on", &final_match(finder, text, 3, 9));
    let first = finder.find_reach(&mut Input::new(text));
    show(rt, "kept", &(is_kept(&first, 1), is_kept(&first, 8)));
}

/// Numbers in a text that may grow.
fn grow(rt: &HostRuntime) {
    let chunks: [&[u8]; 2] = [b"12 a", b"nd 34"];
    let Ok(text) = ChunkCursor::new(&chunks) else {
        return;
    };
    let Ok(number) = Regex::new(rt.alloc(), "[0-9]+") else {
        return;
    };
    if let Ok(mut finder) = Finder::new(rt.alloc(), &number) {
        grow_with(rt, &mut finder, text);
        let mut stepper = Stepper::new(finder, 2);
        show(rt, "in slices", &search_on(&mut stepper, text));
        let mut list = ListStepper::new(stepper.into_finder());
        let mut matches = Vec::new(rt.alloc());
        let ended = list_on(&mut list, text, &mut matches);
        show(rt, "list in slices", &(ended, matches.len()));
    }
    drop(number);
}

/// The lines with a match, the line of a place, and a group by its name.
fn filter(rt: &HostRuntime, finder: &mut Finder<'_>, text: ChunkCursor<'_>) {
    let Ok(newline) = Regex::new(rt.alloc(), "\n") else {
        return;
    };
    show(
        rt,
        "lines",
        &lines_with_a_match(rt.alloc(), &newline, finder, text),
    );
    show(rt, "line", &line_of(rt.alloc(), &newline, text, 22));
    drop(newline);
    show(rt, "group", &group_named(rt.alloc(), finder, text, "name"));
}

/// Matches of several documents, by one cache.
fn keep(rt: &HostRuntime, regex: &Regex, finder: &mut Finder<'_>) {
    let documents: [&[u8]; 3] = [b"a total", b"none", b"total, total"];
    show(rt, "firsts", &first_matches(rt.alloc(), finder, &documents));
    show(
        rt,
        "in both",
        &count_in_both(rt.alloc(), regex, b"total, total", b"in total"),
    );
}

/// A match in a piece table.
fn find_in_parts(rt: &HostRuntime, regex: &Regex) -> Result<Option<Match>, RunError> {
    let typed: &[u8] = b"let tal = 4";
    let Some(front) = Part::new(typed, 0, 4) else {
        return Ok(None);
    };
    let Some(middle) = Part::new(b"to", 0, 2) else {
        return Ok(None);
    };
    let Some(back) = Part::new(typed, 4, typed.len()) else {
        return Ok(None);
    };
    first_in_pieces(rt.alloc(), regex, &[front, middle, back])
}

/// A match in pieces, and its bytes out of the chunks.
fn read(rt: &HostRuntime, regex: &Regex, mut text: ChunkCursor<'_>) {
    let Ok(Some(found)) = find_in_parts(rt, regex) else {
        return;
    };
    if let Ok(bytes) = bytes_of(rt.alloc(), text, found.span()) {
        show_bytes(rt, &bytes);
    }
    let _ = put_match(&mut Written::new(rt.stdout()), &mut text, found);
    show_bytes(rt, b"");
}

/// The recipes that search for `total`, with a cache.
fn search_with(rt: &HostRuntime, regex: &Regex, text: ChunkCursor<'_>) {
    let Ok(mut finder) = Finder::new(rt.alloc(), regex) else {
        return;
    };
    edit(rt, regex, &mut finder, text);
    filter(rt, &mut finder, text);
    keep(rt, regex, &mut finder);
    drop(finder);
    read(rt, regex, text);
}

/// The recipes that search for `total`.
fn search(rt: &HostRuntime, text: ChunkCursor<'_>) {
    let Ok(total) = Regex::new(rt.alloc(), "(?<name>total)") else {
        return;
    };
    search_with(rt, &total, text);
    drop(total);
}

/// The second token.
fn second_token(
    alloc: Global,
    kinds: &Regex,
    text: ChunkCursor<'_>,
) -> Result<Option<Match>, AllocError> {
    let mut finder = Finder::new(alloc, kinds)?;
    let mut input = Input::new(text).with_anchored(Anchored::Yes);
    let _first = next_token(&mut finder, &mut input);
    let second = next_token(&mut finder, &mut input);
    drop(finder);
    Ok(second)
}

/// The words among the tokens, and the second token.
fn tokenize(rt: &HostRuntime, text: ChunkCursor<'_>) {
    let Ok(kinds) = Regex::new_many(rt.alloc(), &KINDS) else {
        return;
    };
    show(rt, "words", &words(rt.alloc(), &kinds, text));
    show(rt, "second token", &second_token(rt.alloc(), &kinds, text));
    drop(kinds);
}

/// The words of a text before and after a key.
fn type_a_word(rt: &HostRuntime, kinds: &Regex, cache: &mut Cache) -> Result<(), AllocError>
    requires made { IsCacheOf kinds.now cache.old }
{
    let all = Span {
        start: 0,
        end: usize::MAX,
    };
    let mut text = GapBuffer::new(rt.alloc());
    text.insert(b"let to$ = 4;")?;
    text.move_to(6);
    let mut tokens = LiveMatches::new(rt.alloc(), kinds, cache, &mut whole_input(text.cursor()))?;
    show(rt, "lexed", &words_in(rt.alloc(), &tokens, all));
    type_code(&mut text, b"tal", &mut tokens, kinds, cache)?;
    show(rt, "typed", &words_in(rt.alloc(), &tokens, all));
    Ok(())
}

/// Tokens that follow a key.
fn lex(rt: &HostRuntime) {
    let Ok(kinds) = all_kinds(rt.alloc()) else {
        return;
    };
    if let Ok(mut cache) = kinds.create_cache(rt.alloc()) {
        let _ = type_a_word(rt, &kinds, &mut cache);
        drop(cache);
    }
    drop(kinds);
}

/// The numbers of the rules that have a match.
fn numbers_met(
    alloc: Global,
    rules: &Regex,
    text: ChunkCursor<'_>,
) -> Result<Vec<usize>, AllocError> {
    let mut finder = Finder::new(alloc, rules)?;
    let met = rules_met(alloc, &mut finder, text);
    drop(finder);
    met
}

/// The rules that have a match.
fn meet(rt: &HostRuntime, text: ChunkCursor<'_>) {
    let rules = ["while", "print", "[0-9]+", "tot", "total"];
    let Ok(rules) = Regex::new_many(rt.alloc(), &rules) else {
        return;
    };
    show(rt, "rules", &numbers_met(rt.alloc(), &rules, text));
    drop(rules);
}

/// The text with the matches replaced.
fn replace(rt: &HostRuntime, chunks: &[&[u8]]) {
    let Ok(template) = Template::parse(rt.alloc(), "${2}-${1}") else {
        return;
    };
    let Ok(pairs) = Regex::new(rt.alloc(), r"(\w+) = (\w+)") else {
        return;
    };
    let text = replaced(rt.alloc(), &pairs, chunks, &template);
    drop(pairs);
    if let Ok(text) = text {
        show_bytes(rt, &text);
    }
}

/// What a user typed, as a pattern.
fn ask(rt: &HostRuntime, text: ChunkCursor<'_>) {
    let Ok(pattern) = escaped(rt.alloc(), "PRINT(") else {
        return;
    };
    let Ok(regex) = in_any_case(rt.alloc(), &pattern) else {
        return;
    };
    show(rt, "as typed", &regex.find(rt.alloc(), Input::new(text)));
    drop(regex);
    if let Ok(Some(shown)) = fault_of(rt.alloc(), "to(tal") {
        let _ = writeln!(rt.stdout(), "{shown}");
    }
}

/// The matches of a text by three of its ranges.
fn matches_by_ranges(
    alloc: Global,
    regex: &Regex,
    text: ChunkCursor<'_>,
) -> Result<Vec<Match>, AllocError> {
    let first = Span { start: 0, end: 11 };
    let second = Span { start: 11, end: 20 };
    let third = Span {
        start: 20,
        end: usize::MAX,
    };
    let mut matches = matches_of_range(alloc, regex, text, first)?;
    for range in [second, third] {
        let next = matches_of_range(alloc, regex, text, range)?;
        add_range(alloc, regex, text, &mut matches, range, &next)?;
    }
    Ok(matches)
}

/// A text that is searched by ranges.
fn divide(rt: &HostRuntime) {
    let chunks: [&[u8]; 2] = [b"'one' and 't", b"wo', 'three'; 'four'"];
    let Ok(text) = ChunkCursor::new(&chunks) else {
        return;
    };
    let Ok(quoted) = Regex::new(rt.alloc(), "'[^']*'") else {
        return;
    };
    show(
        rt,
        "by ranges",
        &matches_by_ranges(rt.alloc(), &quoted, text),
    );
    drop(quoted);
}

fn main(rt: HostRuntime) {
    let chunks: [&[u8]; 4] = [b"let to", b"tal = 4", b"2;\nprint(total", b");\n"];
    let Ok(text) = ChunkCursor::new(&chunks) else {
        return;
    };
    search(&rt, text);
    tokenize(&rt, text);
    meet(&rt, text);
    replace(&rt, &chunks);
    ask(&rt, text);
    grow(&rt);
    divide(&rt);
    lex(&rt);
}
