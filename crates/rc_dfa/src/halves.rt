//! Forward and reverse search: the trait of the DFA and the lazy DFA.
ghost use Rattle.std.specs.Prelude.{◌≡◌, ◌+◌, ◌-◌, ◌<◌, ◌≤◌, ℕ, Bool, Some, IfSome, false, is_some, length};
ghost use Rattle.rc_text.specs.Text.{Keeps, Searched, high, low, slice_end};
ghost use Rattle.rc_program.specs.Sought.{text_of};
ghost use Rattle.rc_dfa.specs.Machine.{Machine, IsAsked};
ghost use Rattle.rc_dfa.specs.Ended.{HasEndedDown, gave_up};
ghost use Rattle.rc_dfa.specs.Inside.{IsPieceOf};
ghost use Rattle.rc_dfa.specs.Reads.{HasEndedBelow};
ghost use Rattle.rc_dfa.specs.Memos.{Has, IsBare};
ghost use Rattle.rc_dfa.specs.declared.memo.Memo as memos;

use crate::ended::{Ended, Reading};
use crate::memo::Memo;
use rc_text::cursor::Cursor;
use rc_text::input::Input;
use rc_text::types::Anchored;

/// What a run over a text is asked for. Positions are in bytes of the whole content.
#[derive(Clone, Copy)]
pub struct Run {
    /// Whether the run is anchored where it begins, and for which pattern.
    pub anchored: Anchored,
    /// The least position: forwards the run begins there, and backwards it ends there.
    pub low: usize,
    /// The greatest position: forwards the run ends there, and backwards it begins there.
    pub high: usize,
    /// Whether the run returns what it finds first, and not what it finds last.
    pub earliest: bool,
}

/// The two halves of a DFA search: forwards from a start to an end, and backwards from an end to a
/// start. The DFA has all states, the lazy DFA those that were reached so far.
pub trait Halves {
    /// The cache: all that a search changes.
    type Cache;

    // They search by the first machine forwards, and by the second backwards.
    ghost AreOf: { Self → Machine → Machine → Type 0 };
    // The cache was made for these halves.
    ghost IsCache: { Self → Self.Cache → Type 0 };
    // From the first cache to the second, at most this many states were added.
    ghost Spends: { Self → Self.Cache → Self.Cache → ℕ → Type 0 };
    // A search that found the first cache and left the second added at most this many states, and
    // may have given up, out of memory or not.
    ghost GivesUp: { Self → Self.Cache → Self.Cache → ℕ → Bool → Type 0 };
    // By this cache, what the memo says is true of runs over the text up to the bound, which end at
    // their first find or not.
    ghost IsMemo: { Self → Self.Cache → Searched → ℕ → Bool → memos.Memo → Type 0 };

    /// Runs forwards, up to the end of the input's bounds. If it is to return what it finds first, it
    /// reads nothing beyond that. If there is a `rest_from`, the run may also return at a position
    /// where nothing is under way. That position is a hint: before it the run should read on all the
    /// same. How far it looked is told with how it ended.
    fn run_forwards<C: Cursor>(
        &self,
        cache: &mut Self::Cache,
        input: &mut Input<C>,
        run: Run,
        rest_from: Option<usize>,
    ) -> Reading
        requires cache { IsCache self.now cache.old }
        requires low { low input.old ≤ run.low }
        requires ordered { run.low ≤ run.high }
        requires high { run.high ≡ high input.old }
        ensures cache { IsCache self.now cache.new }
        ensures keeps { Keeps input.old input.new }
        ensures ended { (m n : Machine) → AreOf self.now m n → IsAsked m run.anchored
            → HasEndedBelow m (text_of m.setting.terminator input.old) (high input.old) run.low
            run.anchored run.earliest (is_some rest_from) result.ended result.read }
        ensures spends { Spends self.now cache.old cache.new (high input.old - run.low + 2) }
        ensures gives_up { (memory : Bool) → gave_up result.ended ≡ Some memory
            → GivesUp self.now cache.old cache.new (high input.old - run.low + 2) memory };

    /// Runs forwards as `run_forwards` does, over a piece of the text alone, and never rests. The
    /// piece begins at the position `start`, before the run does. Returns None if the run doesn't end
    /// in the piece, or comes to a byte of which the piece doesn't tell all.
    fn run_inside(
        &self,
        cache: &mut Self::Cache,
        piece: &[u8],
        start: usize,
        run: Run,
    ) -> Option<Reading>
        requires cache { IsCache self.now cache.old }
        requires begins { (start < run.low) × (run.low ≤ start + length piece.now) }
        requires fits { start + length piece.now ≤ usize.MAX }
        ensures cache { IsCache self.now cache.new }
        ensures ended { (seen : Searched) (m n : Machine) → IsPieceOf seen run.high start piece.now
            → run.high ≡ high seen → AreOf self.now m n → IsAsked m run.anchored
            → IfSome result (λ o. HasEndedBelow m (text_of m.setting.terminator seen) (high seen)
            run.low run.anchored run.earliest false o.ended o.read) };

    /// Runs forwards as `run_forwards` does, and never rests. If it comes to a mark of the memo, it
    /// ends as the run did that left it. It leaves marks of its own.
    fn run_again<C: Cursor>(
        &self,
        cache: &mut Self::Cache,
        input: &mut Input<C>,
        run: Run,
        memo: &mut Memo,
    ) -> Reading
        requires cache { IsCache self.now cache.old }
        requires low { low input.old ≤ run.low }
        requires ordered { run.low ≤ run.high }
        requires high { run.high ≡ high input.old }
        requires memo { IsMemo self.now cache.old input.old run.high run.earliest memo.old }
        ensures cache { IsCache self.now cache.new }
        ensures keeps { Keeps input.old input.new }
        ensures ended { (m n : Machine) → AreOf self.now m n → IsAsked m run.anchored
            → HasEndedBelow m (text_of m.setting.terminator input.old) (high input.old) run.low
            run.anchored run.earliest false result.ended result.read }
        ensures spends { Spends self.now cache.old cache.new (high input.old - run.low + 2) }
        ensures gives_up { (memory : Bool) → gave_up result.ended ≡ Some memory
            → GivesUp self.now cache.old cache.new (high input.old - run.low + 2) memory }
        ensures memo { IsMemo self.now cache.new input.new run.high run.earliest memo.new };

    /// Runs backwards. What it finds last is what it finds at the least position.
    fn run_backwards<C: Cursor>(
        &self,
        cache: &mut Self::Cache,
        input: &mut Input<C>,
        run: Run,
    ) -> Ended
        requires cache { IsCache self.now cache.old }
        requires low { low input.old ≤ run.low }
        requires ordered { run.low ≤ run.high }
        requires high { run.high ≤ high input.old }
        ensures cache { IsCache self.now cache.new }
        ensures keeps { Keeps input.old input.new }
        ensures ended { (m n : Machine) → AreOf self.now m n → IsAsked n run.anchored
            → HasEndedDown n (text_of n.setting.terminator input.old) run.low run.high run.anchored
            run.earliest result }
        ensures spends { Spends self.now cache.old cache.new (high input.old - run.low + 2) }
        ensures gives_up { (memory : Bool) → gave_up result ≡ Some memory
            → GivesUp self.now cache.old cache.new (high input.old - run.low + 2) memory };

    ghost spends_nothing: { (h : Self) (a : Self.Cache) (n : ℕ) → Spends h a a n };

    ghost spends_both: { (h : Self) (a b c : Self.Cache) (n k : ℕ) → Spends h a b n
        → Spends h b c k → Spends h a c (n + k) };

    ghost gives_up_later: { (h : Self) (a b c : Self.Cache) (n k : ℕ) (memory : Bool)
        → Spends h a b n → GivesUp h b c k memory → GivesUp h a c (n + k) memory };

    ghost gives_up_within: { (h : Self) (a b : Self.Cache) (n k : ℕ) (memory : Bool) → n ≤ k
        → GivesUp h a b n memory → GivesUp h a b k memory };

    ghost spends_within: { (h : Self) (a b : Self.Cache) (n k : ℕ) → n ≤ k → Spends h a b n
        → Spends h a b k };

    ghost bare_memo: { (h : Self) (c : Self.Cache) (s : Searched) (bound : ℕ) (early : Bool)
        (t : memos.Memo) → IsBare t → IsMemo h c s bound early t };

    ghost memo_kept: { (h : Self) (c : Self.Cache) (s b : Searched) (bound : ℕ) (early : Bool)
        (t : memos.Memo) → Keeps s b → IsMemo h c s bound early t
        → IsMemo h c b bound early t };
}
