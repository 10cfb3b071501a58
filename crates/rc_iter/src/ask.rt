//! Finder calls: one call of a closure that finds matches or half matches.
ghost use Rattle.std.specs.Prelude.{◌≡◌, ℕ, Option, IfOk, IfSome};
ghost use Rattle.rc_text.specs.Text.{Keeps, Searched};
ghost use Rattle.rc_program.specs.Matches.{is_again};
ghost use Rattle.rc_iter.specs.Finders.{Answers, AnswersAs, IsLawfulFinder, LiesIn, Task, task_of};

use crate::kept::KeptInput;
use rc_program::matches;
use rc_text::types::{HalfMatch, Match, MatchError};

/// A match, or a half match, of which only the end is known.
pub(crate) trait Ending: Copy + Drop {
    /// Where it begins.
    ghost begin: { Self → ℕ };

    /// Where it ends.
    ghost end: { Self → ℕ };

    /// Where it ends, in bytes.
    fn ending(self) -> usize
        ensures { result ≡ end self };

    /// Whether it gives way to the one from a byte later, if the last one ended at `last`.
    fn is_again(self, last: Option<usize>) -> bool
        ensures { result ≡ is_again begin end last self };
}

impl Ending for Match {
    ghost use Rattle.rc_program.specs.Matches.{begin_of, end_of};

    ghost begin = { begin_of };

    ghost end = { end_of };

    fn ending(self) -> usize {
        self.end()
    }

    fn is_again(self, last: Option<usize>) -> bool {
        matches::is_again(last, self)
    }
}

impl Ending for HalfMatch {
    ghost use Rattle.rc_iter.specs.Finders.{offset_of};

    ghost begin = { offset_of };

    ghost end = { offset_of };

    fn ending(self) -> usize {
        self.offset()
    }

    fn is_again(self, last: Option<usize>) -> bool {
        last == Some(self.offset())
    }
}

/// Returns what a finder returns for an input.
pub(crate) fn ask<F: FnMut(&mut I) -> Result<Option<M>, MatchError>, I: KeptInput, M: Ending>(
    finder: &mut F,
    input: &mut I,
) -> Result<Option<M>, MatchError>
    requires callable { F.IsAlwaysCallable finder.old }
    requires lawful { IsLawfulFinder M.begin M.end I.searched F.FnMut finder.old }
    ensures callable { F.IsAlwaysCallable finder.new }
    ensures lawful { IsLawfulFinder M.begin M.end I.searched F.FnMut finder.new }
    ensures keeps { Keeps (I.searched input.old) (I.searched input.new) }
    ensures within { IfOk result (λ o. IfSome o (LiesIn M.begin M.end (I.searched input.old))) }
    ensures exact { (find : Task → Option M) → AnswersAs I.searched F.FnMut find finder.old
        → IfOk result (λ o. o ≡ find (task_of (I.searched input.old))) }
    ensures stays { (find : Task → Option M) → AnswersAs I.searched F.FnMut find finder.old
        → AnswersAs I.searched F.FnMut find finder.new }
    ensures answers { (s : Searched) → Keeps s (I.searched input.old)
        → Answers I.searched F.FnMut finder.old s result finder.new }
{
    finder(input)
}
