//! Prefilters: the literals of a program, and how they bind a search.
ghost use Rattle.std.specs.Prelude.{MatchOption, ◌≡◌, ℕ, Bool, List, ⊤, false, None, option_map};
ghost use Rattle.rc_text.specs.declared.types.MatchKind.TheVariants.{LeftmostFirst};
ghost use Rattle.rc_program.specs.Program.{Place as PlaceOf};
ghost use Rattle.rc_needles.specs.Guards.{Guards};
ghost use Rattle.rc_needles.specs.Prefilters.{needles_of};
ghost use Rattle.rc_literals.specs.Answers.{owned_of};
ghost use Rattle.rc_pikevm_search.specs.Choices.{answering_for, guarding};
ghost use Rattle.rc_pikevm_search.specs.Literals.{AreAnswers, MayGoBy};

use rc_literals::owned::OwnedNeedles;
use rc_needles::prefilter::Prefilter;
use rc_text::types::MatchKind;

/// The literals by which a search goes, if any.
#[derive(Drop)]
pub enum Literals {
    /// No literals.
    Absent,
    /// Needles: no walk begins at a position where none of them occurs.
    Guarded(Prefilter),
    /// Needles that are the texts of the patterns, in order of preference.
    Exact(OwnedNeedles),
}

impl Literals {
    /// Whether there are needles, and the search for them is fast.
    pub fn is_fast(&self) -> bool
        ensures { guarding self.now ≡ None → result ≡ false }
    {
        match self {
            Literals::Absent => false,
            Literals::Guarded(needles) => needles.is_fast(),
            Literals::Exact(needles) => needles.prefilter.is_fast(),
        }
    }

    /// Returns about how many bytes of memory the needles take, beyond the value's own.
    pub fn memory_usage(&self) -> usize
        ensures { guarding self.now ≡ None → result ≡ 0 }
    {
        match self {
            Literals::Absent => 0,
            Literals::Guarded(needles) => needles.memory_usage(),
            Literals::Exact(needles) => needles.memory_usage(),
        }
    }
}

/// Returns the needles with which each walk begins, if there are any.
pub fn guards_of(literals: &Literals) -> Option<&Prefilter>
    ensures value { option_map (λ p. needles_of p.now) result ≡ guarding literals.now }
    ensures sound { (places : List PlaceOf) (terminator : ℕ) (over : Bool)
        → MayGoBy places terminator over literals.now
        → MatchOption result ⊤ (λ p. Guards places terminator (needles_of p.now)) }
{
    match literals {
        Literals::Absent => None,
        Literals::Guarded(needles) => Some(needles),
        Literals::Exact(needles) => Some(&needles.prefilter),
    }
}

/// Returns the needles that alone decide a search for this kind of match, if there are any.
pub fn literals_of(literals: &Literals, kind: MatchKind) -> Option<&OwnedNeedles>
    ensures value { option_map (λ n. owned_of n.now) result ≡ answering_for kind literals.now }
    ensures sound { (places : List PlaceOf) (terminator : ℕ) (over : Bool)
        → MayGoBy places terminator over literals.now
        → MatchOption result ⊤ (λ n. (kind ≡ LeftmostFirst)
        × AreAnswers places terminator over (owned_of n.now)) }
{
    match (literals, kind) {
        (Literals::Exact(needles), MatchKind::LeftmostFirst) => Some(needles),
        (_, _) => None,
    }
}
