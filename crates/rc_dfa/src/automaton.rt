//! Determinizer: a byte program with its byte classes and its steps, in both directions.
ghost use Rattle.std.specs.Prelude.{◌≡◌, ◌<◌, length, IfOk};
ghost use Rattle.rc_program.specs.Laws.{IsClosed};
ghost use Rattle.rc_utf8.specs.Places.{places_of};
ghost use Rattle.rc_determinize.specs.Steps.{AreBelow};
ghost use Rattle.rc_determinize.specs.Sides.{Covers};
ghost use Rattle.rc_determinize.specs.Reversed.{AreEdges};
ghost use Rattle.rc_determinize.specs.Classes.{TellsAlike};
ghost use Rattle.rc_dfa.specs.Past.{AreColumns};
ghost use Rattle.rc_dfa.specs.Samples.{AreClassesBy, AreSamples, AreRising};
ghost use Rattle.rc_dfa.specs.Props.{Covers-prop, TellsAlike-prop};

use crate::matches::{last_of, pattern_of};
use crate::past::columns_of;
use crate::samples::samples_of;
use crate::symbols::{Alphabet, Symbol, number_of, sides_over, told_beside};
use rc_determinize::backward::{Reversed, last, prior};
use rc_determinize::classes::{classes, single_classes};
use rc_determinize::forward::{ends_here, first, next_by};
use rc_determinize::scratch::Scratch;
use rc_determinize::sides::{Asked, Seen, Sides, needs_of, sides_of, told};
use rc_determinize::state::State;
use rc_text::types::{Anchored, MatchKind};
use rc_utf8::place::BytePlace;
use std::alloc::{AllocError, Global};

/// The direction in which a search reads.
#[derive(Clone, Copy, Debug, PartialEq, Eq)]
pub enum Direction {
    /// From a start to an end.
    Forwards,
    /// From a start to each end, as for `MatchKind::All`, whatever the automaton's kind.
    Overlapping,
    /// From an end to a start.
    Backwards,
}

/// A determinizer: a byte program with its byte classes and its steps, in both directions. It is
/// entered at place 0, and at the entry of each of its patterns. Its tables read bytes, unless it is
/// made one of symbols.
pub struct Automaton {
    places: Vec<BytePlace>,
    reversed: Reversed,
    entries: Vec<usize>,
    needs: Asked,
    terminator: u8,
    kind: MatchKind,
    alphabet: Alphabet,
    classes: Vec<u8>,
    samples: Vec<u8>,
    /// The column of each byte's symbol with no tag, in tables that read symbols.
    past: Vec<u16>,
    ghost closed: { IsClosed (places_of places.items) },
    ghost rooted: { 0 < length places.items },
    ghost entered: { AreBelow (length places.items) entries.items },
    ghost edges: { AreEdges (places_of places.items) reversed },
    ghost covers: { Covers needs (places_of places.items) } by { Covers-prop needs (places_of places.items) },
    ghost size: { length classes.items ≡ 256 },
    ghost alike: { TellsAlike (places_of places.items) needs terminator classes.items } by { TellsAlike-prop (places_of places.items) needs terminator classes.items },
    ghost sampled: { AreSamples classes.items samples.items },
    ghost rising: { AreRising classes.items },
    ghost columns: { AreColumns classes.items past.items },
}

// Crates above call this, and drop no part by themselves.
impl Drop for Automaton {
    fn drop(self) {
        let Automaton {
            places: _,
            reversed: _,
            entries: _,
            needs: _,
            terminator: _,
            kind: _,
            alphabet: _,
            classes: _,
            samples: _,
            past: _,
        } = self;
    }
}

/// Returns the class of each byte: by what the program distinguishes if `byte_classes` is set, else
/// each byte as a class of its own.
fn classes_by(
    alloc: Global,
    places: &[BytePlace],
    needs: Asked,
    terminator: u8,
    byte_classes: bool,
) -> Result<Vec<u8>, AllocError>
    ensures { IfOk result (λ found. AreClassesBy byte_classes
        (places_of places.now) needs terminator found.items) }
{
    if byte_classes {
        return classes(alloc, places, needs, terminator);
    }
    single_classes(alloc)
}

impl Direction {
    ghost use Rattle.rc_dfa.specs.Automata.{is_backwards};

    /// Whether a search reads from an end to a start.
    fn is_backwards(self) -> bool
        ensures { result ≡ is_backwards self }
    {
        match self {
            Direction::Forwards | Direction::Overlapping => false,
            Direction::Backwards => true,
        }
    }
}

impl Automaton {
    ghost use Rattle.std.specs.Prelude.{◌≡◌, ◌<◌, ◌≤◌, ◌↔◌, ℕ, IsTrue, length, IfOk};
    ghost use Rattle.rc_program.specs.Laws.{IsClosed};
    ghost use Rattle.rc_utf8.specs.Places.{places_of};
    ghost use Rattle.rc_determinize.specs.Places.{state_of};
    ghost use Rattle.rc_determinize.specs.Sets.{EndsHere};
    ghost use Rattle.rc_determinize.specs.Steps.{AreBelow, HasPlace};
    ghost use Rattle.rc_determinize.specs.Sides.{IsReadable};
    ghost use Rattle.rc_dfa.specs.declared.automaton.Direction.{Direction};
    ghost use Rattle.rc_dfa.specs.declared.automaton.Direction.TheVariants.{Forwards, Overlapping, Backwards};
    ghost use Rattle.rc_dfa.specs.Machine.{IsAsked, Begins, BeginsBeside, Leads, LeadsOver, IsMachine, IsClassing, entry_bound, longest_in};
    ghost use Rattle.rc_dfa.specs.Symbols.{BeginsTagged, IsColumning, IsPast, LeadsTagged, alphabet_of};
    ghost use Rattle.rc_dfa.specs.Automata.{machine_of, IsMadeOf, IsOverSymbols, alphabet_in, classes_of, samples_of, columns_of, column_in, is_backwards};
    ghost use Rattle.rc_program.specs.Program.{place_at};
    ghost use Rattle.rc_program.specs.Answer.{pattern_at};

    /// A determinizer for a byte program with these entries, one a pattern. Lines end at the byte
    /// `terminator`. Forwards it finds matches of this kind. Unless `byte_classes` is set, each
    /// byte is a class of its own. `Err` means out of memory.
    pub fn new(
        alloc: Global,
        places: Vec<BytePlace>,
        entries: Vec<usize>,
        terminator: u8,
        kind: MatchKind,
        byte_classes: bool,
    ) -> Result<Automaton, AllocError>
        requires closed { IsClosed (places_of places.items) }
        requires rooted { 0 < length places.items }
        requires entered { AreBelow (length places.items) entries.items }
        ensures made { IfOk result (IsMadeOf
            (places_of places.items) entries.items terminator kind byte_classes) }
    {
        let reversed = Reversed::new(alloc, &places)?;
        let needs = needs_of(&places);
        let classes = classes_by(alloc, &places, needs, terminator, byte_classes)?;
        let samples = samples_of(alloc, &classes)?;
        let past = columns_of(alloc, &classes)?;
        Ok(Automaton {
            places,
            reversed,
            entries,
            needs,
            terminator,
            kind,
            alphabet: Alphabet::Bytes,
            classes,
            samples,
            past,
        })
    }

    /// The same determinizer, with tables that read symbols.
    pub fn over_symbols(self) -> Automaton
        ensures { IsOverSymbols self result }
    {
        let mut over = self;
        over.alphabet = Alphabet::Symbols;
        over
    }

    /// Returns what its tables read.
    pub fn alphabet(&self) -> Alphabet
        ensures { alphabet_of result ≡ alphabet_in self.now }
    {
        self.alphabet
    }

    /// Returns how many places the program has.
    pub fn places_len(&self) -> usize
        ensures { (direction : Direction)
            → result ≡ length (machine_of self.now direction).setting.places }
    {
        self.places.len()
    }

    /// Returns how many entries the list of a state has at most in this direction. That is the
    /// number of places; forwards for leftmost-longest it is twice as many.
    pub fn longest_list(&self, direction: Direction) -> usize
        ensures { result ≡ longest_in (machine_of self.now direction).direction
            (length (machine_of self.now direction).setting.places) }
    {
        let places = &self.places;
        match (direction, self.kind) {
            (Direction::Forwards, MatchKind::LeftmostLongest) => 2 * places.len(),
            _ => places.len(),
        }
    }

    /// Returns the pattern whose match place this is, or 0 if it is none.
    pub fn pattern_at(&self, place: usize) -> usize
        requires { place < length (machine_of self.now Forwards).setting.places }
        ensures { result ≡ pattern_at (place_at
            (machine_of self.now Forwards).setting.places place) }
    {
        pattern_of(&self.places[place])
    }

    /// Returns how many patterns it has.
    pub fn pattern_len(&self) -> usize
        ensures { (direction : Direction)
            → result ≡ length (machine_of self.now direction).entries }
    {
        self.entries.len()
    }

    /// Returns the class of each of the 256 bytes. No step distinguishes bytes of one class.
    pub fn classes(&self) -> &[u8]
        ensures value { result.now ≡ classes_of self.now }
        ensures machine { (direction : Direction) → IsMachine (machine_of self.now direction) }
        ensures classing { (direction : Direction)
            → IsClassing (machine_of self.now direction) (classes_of self.now)
            (samples_of self.now) }
    {
        &self.classes
    }

    /// Returns a byte of each class.
    pub fn samples(&self) -> &[u8]
        ensures { result.now ≡ samples_of self.now }
    {
        &self.samples
    }

    /// Returns how many columns a row of its tables has, besides that of the end: one for each byte
    /// class, and if they read symbols, five more for each class past ASCII.
    pub fn columns(&self) -> usize
        ensures value { result ≡ columns_of self.now }
        ensures small { result ≤ 1536 }
        ensures columning { (direction : Direction)
            → IsColumning (machine_of self.now direction) (classes_of self.now) }
    {
        let classes = self.classes[255] as usize + 1;
        match self.alphabet {
            Alphabet::Bytes => classes,
            Alphabet::Symbols => classes + 5 * (classes - self.classes[128] as usize),
        }
    }

    /// Returns the column of a symbol past ASCII. No step distinguishes symbols of one column.
    #[inline(always)]
    pub fn column_over(&self, symbol: Symbol) -> usize
        requires past { IsPast symbol }
        ensures { result ≡ column_in self.now symbol }
    {
        usize::from(self.past[symbol.byte as usize]) + number_of(symbol.tagged)
    }

    /// Whether a search may read the byte if it is known alone; the end may always be read. If some
    /// assertion depends on Unicode words, bytes of at least 128 may not.
    pub fn may_read(&self, byte: Option<u8>) -> bool
        ensures { (direction : Direction)
            → IsTrue result ↔ IsReadable (machine_of self.now direction).setting.needs byte }
    {
        match byte {
            None => true,
            Some(found) => !self.needs.unicode || found < 128,
        }
    }

    /// Scratch memory for steps. `Err` means out of memory.
    pub fn create_scratch(&self, alloc: Global) -> Result<Scratch, AllocError>
        ensures { IfOk result (λ scratch. (direction : Direction)
            → scratch ≡ length (machine_of self.now direction).setting.places) }
    {
        let places = &self.places;
        Scratch::new(alloc, places.len())
    }

    /// Makes `to` the state in which a search begins. `beside` is the byte before its start, or
    /// backwards the byte at its end; None at an end of what the search sees. `Err` means out of
    /// memory; then `to` is some state.
    pub fn begin(
        &self,
        direction: Direction,
        anchored: Anchored,
        beside: Option<u8>,
        to: &mut State,
    ) -> Result<(), AllocError>
        requires { IsAsked (machine_of self.now direction) anchored }
        ensures { IfOk result (λ _. Begins (machine_of self.now direction) anchored beside
            (state_of to.new)) }
    {
        let seen = told(self.needs, self.terminator, beside);
        self.begin_by(direction, anchored, seen, to)
    }

    /// Makes `to` the state in which a search begins beside a symbol, as `begin` does beside a
    /// byte. Forwards what ends with the symbol counts, and backwards what begins with it.
    pub fn begin_beside(
        &self,
        direction: Direction,
        anchored: Anchored,
        symbol: Symbol,
        to: &mut State,
    ) -> Result<(), AllocError>
        requires { IsAsked (machine_of self.now direction) anchored }
        ensures { IfOk result (λ _. BeginsTagged (is_backwards direction)
            (machine_of self.now direction) anchored symbol (state_of to.new)) }
    {
        let backwards = direction.is_backwards();
        let seen = told_beside(self.needs, self.terminator, backwards, symbol);
        self.begin_by(direction, anchored, seen, to)
    }

    /// Makes `to` the state in which a search begins, with these facts about the side beside.
    /// `Err` means out of memory.
    fn begin_by(
        &self,
        direction: Direction,
        anchored: Anchored,
        seen: Seen,
        to: &mut State,
    ) -> Result<(), AllocError>
        requires { IsAsked (machine_of self.now direction) anchored }
        ensures { IfOk result (λ _. BeginsBeside (machine_of self.now direction) anchored seen
            (state_of to.new)) }
    {
        match direction {
            Direction::Forwards => self.begin_forwards(anchored, seen, to),
            Direction::Overlapping => self.begin_forwards(anchored, seen, to),
            Direction::Backwards => self.begin_backwards(anchored, seen, to),
        }
    }

    /// Makes `to` the state in which a search forwards begins. `Err` means out of memory.
    fn begin_forwards(
        &self,
        anchored: Anchored,
        seen: Seen,
        to: &mut State,
    ) -> Result<(), AllocError>
        requires { IsAsked (machine_of self.now Forwards) anchored }
        ensures { IfOk result (λ _. BeginsBeside (machine_of self.now Forwards) anchored seen
            (state_of to.new)) }
    {
        match anchored {
            Anchored::No => first(0, seen, false, to),
            Anchored::Yes => first(0, seen, true, to),
            Anchored::Pattern(pattern) => {
                let entry = self.entries[pattern.as_usize()];
                first(entry, seen, true, to)
            }
        }
    }

    /// Makes `to` the state in which a search backwards begins. `Err` means out of memory.
    fn begin_backwards(
        &self,
        anchored: Anchored,
        seen: Seen,
        to: &mut State,
    ) -> Result<(), AllocError>
        ensures { IfOk result (λ _. BeginsBeside (machine_of self.now Backwards) anchored seen
            (state_of to.new)) }
    {
        match anchored {
            Anchored::No => last(&self.places, seen, to),
            Anchored::Yes => last(&self.places, seen, to),
            Anchored::Pattern(pattern) => last_of(&self.places, pattern.as_usize(), seen, to),
        }
    }

    /// Makes `to` the state to which a byte leads from a state. `beside` is the byte ahead, or
    /// backwards the one before; None at an end of what the search sees. Nothing is allocated but
    /// what the lists of `scratch` and `to` grow by. `Err` means out of memory; then `to` is some
    /// state.
    pub fn step(
        &self,
        direction: Direction,
        scratch: &mut Scratch,
        from: &State,
        beside: Option<u8>,
        to: &mut State,
    ) -> Result<(), AllocError>
        requires below { AreBelow (entry_bound (machine_of self.now direction).direction
            (length (machine_of self.now direction).setting.places)) from.now.list.items }
        requires scratch { scratch.old ≡ length (machine_of self.now direction).setting.places }
        ensures scratch { scratch.new ≡ scratch.old }
        ensures leads { IfOk result (λ _. Leads (machine_of self.now direction)
            (state_of from.now) beside (state_of to.new)) }
    {
        let sides = sides_of(self.needs, self.terminator, beside);
        self.step_by(direction, scratch, from, sides, to)
    }

    /// Makes `to` the state to which a symbol leads from a state, as `step` does for a byte.
    pub fn step_over(
        &self,
        direction: Direction,
        scratch: &mut Scratch,
        from: &State,
        symbol: Symbol,
        to: &mut State,
    ) -> Result<(), AllocError>
        requires below { AreBelow (entry_bound (machine_of self.now direction).direction
            (length (machine_of self.now direction).setting.places)) from.now.list.items }
        requires scratch { scratch.old ≡ length (machine_of self.now direction).setting.places }
        ensures scratch { scratch.new ≡ scratch.old }
        ensures leads { IfOk result (λ _. LeadsTagged (is_backwards direction)
            (machine_of self.now direction) (state_of from.now) symbol (state_of to.new)) }
    {
        let backwards = direction.is_backwards();
        let sides = sides_over(self.needs, self.terminator, backwards, symbol);
        self.step_by(direction, scratch, from, sides, to)
    }

    /// Makes `to` the state to which a byte leads from a state, by what is told of its sides.
    fn step_by(
        &self,
        direction: Direction,
        scratch: &mut Scratch,
        from: &State,
        sides: Sides,
        to: &mut State,
    ) -> Result<(), AllocError>
        requires below { AreBelow (entry_bound (machine_of self.now direction).direction
            (length (machine_of self.now direction).setting.places)) from.now.list.items }
        requires scratch { scratch.old ≡ length (machine_of self.now direction).setting.places }
        ensures scratch { scratch.new ≡ scratch.old }
        ensures leads { IfOk result (λ _. LeadsOver (machine_of self.now direction)
            (state_of from.now) sides (state_of to.new)) }
    {
        match direction {
            Direction::Forwards => next_by(self.kind, &self.places, 0, scratch, from, sides, to),
            Direction::Overlapping => {
                next_by(MatchKind::All, &self.places, 0, scratch, from, sides, to)
            }
            Direction::Backwards => {
                prior(&self.reversed, &self.entries, scratch, from, sides, to)
            }
        }
    }

    /// Replaces `ends` by the match places of the walks that end at a state's position, if this
    /// byte is ahead, or none. `Err` means out of memory; then `ends` is some list.
    pub fn ends_here(
        &self,
        scratch: &mut Scratch,
        from: &State,
        beside: Option<u8>,
        ends: &mut Vec<usize>,
    ) -> Result<(), AllocError>
        requires below { AreBelow (length (machine_of self.now Overlapping).setting.places)
            from.now.list.items }
        requires scratch { scratch.old ≡ length (machine_of self.now Overlapping).setting.places }
        ensures scratch { scratch.new ≡ scratch.old }
        ensures ends { IfOk result (λ _. (q : ℕ) → HasPlace q ends.new.items
            ↔ EndsHere (machine_of self.now Overlapping).setting (state_of from.now) beside q) }
    {
        let sides = sides_of(self.needs, self.terminator, beside);
        ends_here(&self.places, scratch, from, sides, ends)
    }
}
