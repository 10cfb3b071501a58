//! Engines that search in a cache and fill slots: what each answers to questions, and whether all
//! answer alike.

ghost use Rattle.std.specs.Prelude.{◌≤◌, IfOk, length};
ghost use Rattle.api_meta.specs.Caches as meta;
ghost use Rattle.api_meta.specs.Views.{regex_patterns, regex_settings};
ghost use Rattle.api_pikevm.specs.Caches as pikevm;
ghost use Rattle.api_pikevm.specs.Views.{sought};

use crate::engines::Engines;
use crate::faults::Verdict;
use crate::inputs::Request;
use crate::told::Told;
use api_meta::cache;
use api_meta::regex::Regex;
use api_pikevm::cache::Cache;
use api_pikevm::reach::search_reach;
use api_pikevm::search;
use api_pikevm::vm::PikeVM;
use oracle_walker::walker;
use rc_captures::captures::{Captures, slots_of};
use rc_program::program::Program;
use rc_text::cursor::Cursor;
use rc_text::input::Input;
use rc_text::types::Match;
use std::alloc::{AllocError, Global};

/// What is asked of an engine.
#[derive(Clone, Copy)]
pub enum Question {
    /// What it tells of the match where it fills nothing.
    Match,
    /// The end of the match.
    End,
    /// The slots of the match.
    Slots,
    /// The first half of the slots.
    HalfSlots,
    /// The captures of the match.
    Captures,
    /// The match, and how many bytes settle it.
    Reach,
    /// The match, and how many bytes settle its groups.
    GroupsReach,
}

/// What an engine answers: of the match, and its slots.
#[derive(Drop)]
pub struct Answer {
    pub told: Told,
    pub slots: Vec<Option<usize>>,
}

/// An engine that searches in a cache and fills slots.
pub trait Engine {
    /// What it searches in.
    type Cache: Drop;

    // The cache was made for this engine.
    ghost IsCache: { Self → Self.Cache → Type 0 };

    /// A cache for its searches.
    fn new_cache(&self, alloc: Global) -> Result<Self::Cache, AllocError>
        ensures { IfOk result (IsCache self.now) };

    /// What it answers in this cache.
    fn answer<C: Cursor>(
        &self,
        asker: &mut Asker,
        cache: &mut Self::Cache,
        question: Question,
        input: &mut Input<C>,
    ) -> Answer
        requires { IsCache self.now cache.old }
        ensures { IsCache self.now cache.new };
}

impl Question {
    /// How many slots it asks for, of so many.
    fn count_of(self, len: usize) -> usize
        ensures { result ≤ len }
    {
        match self {
            Question::HalfSlots => len / 2,
            _ => len,
        }
    }

    /// The slots that were wanted are these, as far as it asks for them.
    fn has_same(self, wanted: &[Option<usize>], slots: &[Option<usize>]) -> bool {
        match self {
            Question::Slots | Question::Captures => wanted == slots,
            _ => wanted.starts_with(slots),
        }
    }
}

/// What asks, and the first fault that was noted.
#[derive(Drop)]
pub struct Asker {
    pub alloc: Global,
    pub verdict: Verdict,
}

impl Asker {
    /// So many slots, none of them set.
    fn slots(&mut self, len: usize) -> Vec<Option<usize>>
        ensures { length result.items ≤ len }
    {
        match vec![in self.alloc; None; len] {
            Ok(slots) => slots,
            Err(_) => {
                self.verdict.note("row", "memory");
                Vec::new(self.alloc)
            }
        }
    }

    /// An answer with no slots.
    fn plain(&self, told: Told) -> Answer {
        Answer {
            told,
            slots: Vec::new(self.alloc),
        }
    }

    /// What captures tell.
    fn held_by(&mut self, captures: &Captures) -> Answer {
        let mut slots = Vec::new(self.alloc);
        for slot in slots_of(captures) {
            self.verdict.push(&mut slots, *slot);
        }
        Answer {
            told: Told::Match(captures.get_match()),
            slots,
        }
    }

    /// No answer: out of memory.
    fn refused(&mut self) -> Answer {
        self.verdict.note("row", "memory");
        self.plain(Told::IsMatch(false))
    }
}

impl Engine for Regex {
    type Cache = cache::Cache;

    ghost IsCache = { λ r c. meta.IsCacheFor (regex_patterns r) (regex_settings r) c };

    fn new_cache(&self, alloc: Global) -> Result<cache::Cache, AllocError> {
        self.create_cache(alloc)
    }

    fn answer<C: Cursor>(
        &self,
        asker: &mut Asker,
        cache: &mut cache::Cache,
        question: Question,
        input: &mut Input<C>,
    ) -> Answer {
        match question {
            Question::Match => asker.plain(Told::Match(self.search_with(cache, input))),
            Question::End => asker.plain(Told::Half(self.search_half_with(cache, input))),
            Question::Reach => {
                let told = self.search_reach_with(cache, input);
                asker.plain(Told::Reached(told.found, told.reach))
            }
            Question::Slots | Question::HalfSlots => {
                let len = question.count_of(self.group_info().slot_len());
                let mut slots = asker.slots(len);
                let pattern = self.search_slots_with(cache, input, slots.as_mut_slice());
                let told = Told::Pattern(pattern);
                Answer { told, slots }
            }
            Question::Captures => match self.create_captures(asker.alloc) {
                Ok(mut captures) => {
                    self.search_captures_with(cache, input, &mut captures);
                    let answer = asker.held_by(&captures);
                    drop(captures);
                    answer
                }
                Err(_) => asker.refused(),
            },
            Question::GroupsReach => match self.create_captures(asker.alloc) {
                Ok(mut captures) => {
                    let reach = self.search_captures_reach_with(cache, input, &mut captures);
                    let found = captures.get_match();
                    drop(captures);
                    asker.plain(Told::Reached(found, reach))
                }
                Err(_) => asker.refused(),
            },
        }
    }
}

impl Engine for PikeVM {
    type Cache = Cache;

    ghost IsCache = { λ v c. pikevm.IsCacheFor (sought v) c };

    fn new_cache(&self, alloc: Global) -> Result<Cache, AllocError> {
        self.create_cache(alloc)
    }

    fn answer<C: Cursor>(
        &self,
        asker: &mut Asker,
        cache: &mut Cache,
        question: Question,
        input: &mut Input<C>,
    ) -> Answer {
        match question {
            Question::Match | Question::End => {
                asker.plain(Told::IsMatch(search::is_match(self, cache, input)))
            }
            Question::Reach => {
                let told = search_reach(self, cache, input);
                asker.plain(Told::Reached(told.found, told.reach))
            }
            Question::Slots | Question::HalfSlots => {
                let len = question.count_of(self.get_group_info().slot_len());
                let mut slots = asker.slots(len);
                let pattern = search::search_slots(self, cache, input, slots.as_mut_slice());
                let told = Told::Pattern(pattern);
                Answer { told, slots }
            }
            Question::Captures | Question::GroupsReach => match self.create_captures(asker.alloc) {
                Ok(mut captures) => {
                    search::search(self, cache, input, &mut captures);
                    let answer = asker.held_by(&captures);
                    drop(captures);
                    answer
                }
                Err(_) => asker.refused(),
            },
        }
    }
}

/// The walker over a program, with so many slots. It keeps nothing from one search to the next.
#[derive(Clone, Copy)]
struct Walker<'p> {
    program: &'p Program,
    slot_len: usize,
}

impl<'p> Engine for Walker<'p> {
    type Cache = ();

    ghost IsCache = { λ _ _. Unit {0} };

    fn new_cache(&self, _: Global) -> Result<(), AllocError> {
        Ok(())
    }

    fn answer<C: Cursor>(
        &self,
        asker: &mut Asker,
        _: &mut (),
        question: Question,
        input: &mut Input<C>,
    ) -> Answer {
        match question {
            Question::Match | Question::End | Question::Reach => {
                let found = walker::find(asker.alloc, input, self.program);
                let found = asker.verdict.made(found, None);
                asker.plain(Told::Match(found))
            }
            _ => {
                let mut slots = asker.slots(question.count_of(self.slot_len));
                let pattern = walker::find_slots(
                    asker.alloc,
                    input,
                    self.program,
                    slots.as_mut_slice(),
                );
                let told = Told::Pattern(asker.verdict.made(pattern, None));
                Answer { told, slots }
            }
        }
    }
}

/// A question, and the search that answers it.
type Asked = (Question, &'static str);

/// What the regex is asked.
const REGEX: [Asked; 4] = [
    (Question::Match, "search_with"),
    (Question::End, "search_half_with"),
    (Question::Slots, "search_slots_with"),
    (Question::HalfSlots, "search_slots_with"),
];

/// What the `PikeVM` is asked.
const VM: [Asked; 4] = [
    (Question::Match, "is_match"),
    (Question::Captures, "search"),
    (Question::Slots, "search_slots"),
    (Question::HalfSlots, "search_slots"),
];

/// What the walker is asked.
const WALKER: [Asked; 2] = [(Question::Match, "find"), (Question::Slots, "find_slots")];

/// What all engines tell of the match, each in one cache over all questions.
pub fn found<C: Cursor>(
    asker: &mut Asker,
    engines: &Engines,
    walks: bool,
    input: &mut Input<C>,
) -> Option<Match> {
    let before = Request::of(input);
    let wanted = answer_of(asker, &engines.regexes.plain, Question::Captures, input);
    agrees(
        asker,
        &engines.regexes.plain,
        "regex",
        &REGEX,
        &wanted,
        input,
    );
    agrees(asker, &engines.vm, "PikeVM", &VM, &wanted, input);
    if walks {
        by_walker(asker, engines, &wanted, input);
    }
    let stays = Request::of(input) == before;
    asker.verdict.expect(stays, "regex", "search_with");
    wanted.told.found()
}

/// The walker answers as the regex did, where there is a program that it goes through.
fn by_walker<C: Cursor>(
    asker: &mut Asker,
    engines: &Engines,
    wanted: &Answer,
    input: &mut Input<C>,
) {
    if let Some(program) = &engines.program {
        let slot_len = wanted.slots.len();
        let walker = Walker { program, slot_len };
        agrees(asker, &walker, "walker", &WALKER, wanted, input);
    }
}

/// What an engine answers in a cache that is made for the question.
pub fn answer_of<E: Engine, C: Cursor>(
    asker: &mut Asker,
    engine: &E,
    question: Question,
    input: &mut Input<C>,
) -> Answer {
    match engine.new_cache(asker.alloc) {
        Ok(mut cache) => {
            let answer = engine.answer(asker, &mut cache, question, input);
            drop(cache);
            answer
        }
        Err(_) => asker.refused(),
    }
}

/// The engine answers as another did, in one cache over all questions.
fn agrees<E: Engine, C: Cursor>(
    asker: &mut Asker,
    engine: &E,
    by: &'static str,
    asked: &[Asked],
    wanted: &Answer,
    input: &mut Input<C>,
) {
    match engine.new_cache(asker.alloc) {
        Ok(mut cache) => {
            for one in asked {
                let told = ask(asker, engine, &mut cache, one.0, wanted, input);
                asker.verdict.expect(told, by, one.1);
            }
            drop(cache);
        }
        Err(_) => asker.verdict.note("row", "memory"),
    }
}

/// The engine answers a question as another did, in this cache: of the match, and by the slots.
fn ask<E: Engine, C: Cursor>(
    asker: &mut Asker,
    engine: &E,
    cache: &mut E::Cache,
    question: Question,
    wanted: &Answer,
    input: &mut Input<C>,
) -> bool
    requires { E.IsCache engine.now cache.old }
    ensures { E.IsCache engine.now cache.new }
{
    let before = Request::of(input);
    let answer = engine.answer(asker, cache, question, input);
    answer.told.is_of(&wanted.told.found())
        && Request::of(input) == before
        && question.has_same(&wanted.slots, &answer.slots)
}
