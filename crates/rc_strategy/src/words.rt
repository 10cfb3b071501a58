//! Searches by words: literals and the assertions on their two sides decide the match, if the
//! pattern is a list of literals between two assertions.
ghost use Rattle.std.specs.Prelude.{◌≡◌, None, Some};
ghost use Rattle.rc_words.specs.declared.words.Words.{Words as WordsOf};

use crate::engines::Engines;
use crate::question::Question;
use rc_dense_dfa::dense::Dense;
use rc_text::cursor::Cursor;
use rc_text::input::Input;
use rc_text::types::{Anchored, Match, MatchKind, PatternID};
use rc_words::search::find_word;
use rc_words::words::Words;

/// Returns the words by which searches go: none if there is a DFA, which reads a byte as fast and
/// begins at no candidate anew.
pub(crate) fn words_beside(words: Option<Words>, dense: &Option<Dense>) -> Option<Words>
    ensures same { (w : WordsOf) → result ≡ Some w → words ≡ Some w }
    ensures none { words ≡ None → result ≡ None }
{
    if dense.is_some() {
        return None;
    }
    words
}

impl Engines {
    ghost use Rattle.std.specs.Prelude.{◌≡◌, IfSome};
    ghost use Rattle.rc_text.specs.Bounds.{IsWithinBounds};
    ghost use Rattle.rc_text.specs.Text.{Keeps};
    ghost use Rattle.rc_pikevm_search.specs.Engine.{engine_search};
    ghost use Rattle.rc_strategy.specs.Lengths.{is_leftmost};
    ghost use Rattle.rc_strategy.specs.Questions.{IsReply};

    /// Replies by words, if the pattern is a list of them, the search is leftmost and not anchored,
    /// and no match is passed over. Returns None if they don't decide: there are none, or several
    /// begin where the first does.
    #[inline(always)]
    pub(crate) fn ask_words<C: Cursor>(
        &self,
        input: &mut Input<C>,
        question: Question,
    ) -> Option<Option<Match>>
        ensures keeps { Keeps input.old input.new }
        ensures reply { IfSome result (IsReply question self.now.engine.kind
            (engine_search self.now.engine input.old)) }
        ensures within { IfSome result (λ found. IfSome found (IsWithinBounds input.old)) }
    {
        match &self.words {
            Some(words) => self.ask_by_words(words, input, question),
            None => None,
        }
    }

    /// Replies by its words, as `ask_words` does. Most regexes have none, so this isn't inlined.
    #[inline(never)]
    fn ask_by_words<C: Cursor>(
        &self,
        words: &Words,
        input: &mut Input<C>,
        question: Question,
    ) -> Option<Option<Match>>
        requires own { self.now.words ≡ Some words.now }
        ensures keeps { Keeps input.old input.new }
        ensures reply { IfSome result (IsReply question self.now.engine.kind
            (engine_search self.now.engine input.old)) }
        ensures within { IfSome result (λ found. IfSome found (IsWithinBounds input.old)) }
    {
        if self.engine.program.passes_over || !self.is_leftmost() {
            return None;
        }
        let Anchored::No = input.get_anchored() else {
            return None;
        };
        let found = find_word(input, words, self.engine.program.terminator)?;
        match found {
            Some(span) => Some(Some(Match::new(PatternID::ZERO, span))),
            None => Some(None),
        }
    }

    /// Whether the search is for a leftmost match.
    #[inline(always)]
    fn is_leftmost(&self) -> bool
        ensures { result ≡ is_leftmost self.now.engine.kind }
    {
        match self.engine.kind {
            MatchKind::All => false,
            MatchKind::LeftmostFirst | MatchKind::LeftmostLongest => true,
        }
    }

    /// Returns about how many bytes of memory the words take.
    pub fn words_usage(&self) -> usize {
        match &self.words {
            Some(words) => words.memory_usage(),
            None => 0,
        }
    }
}
