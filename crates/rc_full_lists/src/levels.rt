//! The lists that are open, one in the other.

ghost use Rattle.std.specs.Prelude.{◌≡◌, ◌⊎◌, ◌≤◌, ◌<◌, ◌^◌, ◌-◌, [], ◌∷◌, Bool, IfOk, MatchResult};
ghost use Rattle.rc_tokens.specs.ClassView.{pairs};
ghost use Rattle.rc_tokens.specs.declared.refusal.Refusal.TheVariants.{Memory};
ghost use Rattle.rc_class_sets.specs.Sets.{CodeSet, AreRangesOf};
ghost use Rattle.rc_full_lists.specs.Items.{HasCodes, item_set};
ghost use Rattle.rc_full_lists.specs.Openings.{IsOpening};
ghost use Rattle.rc_full_lists.specs.Laws.{PartHasCodes, LeadHasCodes};
ghost use Rattle.rc_full_lists.specs.Lists.{lead_set};
ghost use Rattle.rc_full_lists.specs.Levels as spec;
ghost use Rattle.rc_full_lists.specs.Levels.{at, level_set, opened, more, past_operator, with_listed, Fit, IsLevel, AreLevels, ClosesTo, StepsTo, IsTooDeep};

use crate::items::{Item, item_class};
use crate::openings::opening;
use crate::parts::{Operation, Part, Settings};
use crate::sides::Sides;
use rc_class_sets::sets::complement;
use rc_tokens::classes::CodeRange;
use rc_tokens::refusal::Refusal;
use std::alloc::{AllocError, Global};

/// A list that isn't closed yet: how far it is read.
#[derive(Drop)]
pub struct Level {
    pub negated: bool,
    pub sides: Sides,
    /// How deep the deepest list in it is nested.
    pub deepest: u32,
}

/// The innermost list, and those around it.
#[derive(Drop)]
pub struct Levels {
    pub inner: Level,
    pub outer: Vec<Level>,
}

/// What a part leads to.
#[derive(Drop)]
pub enum Step<'t> {
    /// The text from which on the lists go on.
    Goes(Levels, &'t [char]),
    /// The class of the outermost list, and how deep it is nested.
    Ends(Vec<CodeRange>, u32),
}

/// The class of what leads in a list.
fn lead_class(
    alloc: Global,
    unicode: bool,
    fold: bool,
    lead: Option<u32>,
) -> Result<Vec<CodeRange>, AllocError>
    requires { LeadHasCodes unicode lead }
    ensures { IfOk result (λ v. AreRangesOf unicode (lead_set unicode fold lead) (pairs v.items)) }
{
    match lead {
        Some(code) => {
            let range = CodeRange {
                start: code,
                end: code,
            };
            item_class(alloc, unicode, fold, Item::Codes(range))
        }
        None => Ok(Vec::new(alloc)),
    }
}

impl Level {
    /// A list behind its opening.
    fn opened(
        alloc: Global,
        unicode: bool,
        fold: bool,
        negated: bool,
        lead: Option<u32>,
    ) -> Result<Level, AllocError>
        requires { LeadHasCodes unicode lead }
        ensures { IfOk result (λ v. IsLevel unicode v (opened unicode fold negated lead)) }
    {
        let items = lead_class(alloc, unicode, fold, lead)?;
        let sides = Sides { left: None, items };
        let deepest = 0;
        Ok(Level {
            negated,
            sides,
            deepest,
        })
    }

    /// Adds an item.
    fn with_item(
        self,
        alloc: Global,
        unicode: bool,
        fold: bool,
        item: Item,
    ) -> Result<Level, AllocError>
        requires { HasCodes unicode item }
        ensures { (l : spec.Level) → IsLevel unicode self l
            → IfOk result (λ v. IsLevel unicode v (more (item_set unicode fold item) l)) }
    {
        let Level {
            negated,
            sides,
            deepest,
        } = self;
        let class = item_class(alloc, unicode, fold, item)?;
        let sides = sides.with_class(&class)?;
        Ok(Level {
            negated,
            sides,
            deepest,
        })
    }

    /// Goes on behind an operator.
    fn behind_operator(
        self,
        alloc: Global,
        unicode: bool,
        operation: Operation,
    ) -> Result<Level, AllocError>
        requires { (l : spec.Level) × IsLevel unicode self l }
        ensures { (l : spec.Level) → IsLevel unicode self l
            → IfOk result (λ v. IsLevel unicode v (past_operator operation l)) }
    {
        let Level {
            negated,
            sides,
            deepest,
        } = self;
        let sides = sides.behind_operator(alloc, unicode, operation)?;
        Ok(Level {
            negated,
            sides,
            deepest,
        })
    }

    /// Adds a list in it, by its class and by how deep that is nested.
    fn with_list(self, class: &[CodeRange], depth: u32) -> Result<Level, AllocError>
        ensures { (unicode : Bool) (l : spec.Level) (p : CodeSet) → IsLevel unicode self l
            → AreRangesOf unicode p (pairs class.now)
            → IfOk result (λ v. IsLevel unicode v (with_listed p depth l)) }
    {
        let Level {
            negated,
            sides,
            deepest,
        } = self;
        let sides = sides.with_class(class)?;
        Ok(Level {
            negated,
            sides,
            deepest: deepest.max(depth),
        })
    }

    /// The class of the list, if it is closed here.
    fn class(self, alloc: Global, unicode: bool) -> Result<Vec<CodeRange>, AllocError>
        requires { (l : spec.Level) × IsLevel unicode self l }
        ensures { (l : spec.Level) → IsLevel unicode self l
            → IfOk result (λ v. AreRangesOf unicode (level_set l) (pairs v.items)) }
    {
        let negated = self.negated;
        let class = self.sides.so_far(alloc, unicode)?;
        if negated {
            return complement(alloc, unicode, &class);
        }
        Ok(class)
    }
}

impl Levels {
    /// The outermost list behind its opening.
    pub fn outermost(
        alloc: Global,
        unicode: bool,
        fold: bool,
        negated: bool,
        lead: Option<u32>,
    ) -> Result<Levels, AllocError>
        requires { LeadHasCodes unicode lead }
        ensures { IfOk result (λ v. AreLevels unicode v (at (opened unicode fold negated lead) [])) }
    {
        let inner = Level::opened(alloc, unicode, fold, negated, lead)?;
        let outer = Vec::new(alloc);
        Ok(Levels { inner, outer })
    }

    fn with_item(
        self,
        alloc: Global,
        unicode: bool,
        fold: bool,
        item: Item,
    ) -> Result<Levels, AllocError>
        requires { HasCodes unicode item }
        ensures { (ls : spec.Levels) → AreLevels unicode self ls
            → IfOk result (λ v. AreLevels unicode v
            (at (more (item_set unicode fold item) ls.inner) ls.outer)) }
    {
        let Levels { inner, outer } = self;
        let inner = inner.with_item(alloc, unicode, fold, item)?;
        Ok(Levels { inner, outer })
    }

    fn behind_operator(
        self,
        alloc: Global,
        unicode: bool,
        operation: Operation,
    ) -> Result<Levels, AllocError>
        requires { (ls : spec.Levels) × AreLevels unicode self ls }
        ensures { (ls : spec.Levels) → AreLevels unicode self ls
            → IfOk result (λ v. AreLevels unicode v
            (at (past_operator operation ls.inner) ls.outer)) }
    {
        let Levels { inner, outer } = self;
        let inner = inner.behind_operator(alloc, unicode, operation)?;
        Ok(Levels { inner, outer })
    }

    /// Enters a list behind its opening.
    fn enter(
        self,
        alloc: Global,
        unicode: bool,
        fold: bool,
        negated: bool,
        lead: Option<u32>,
    ) -> Result<Levels, AllocError>
        requires { LeadHasCodes unicode lead }
        ensures { (ls : spec.Levels) → AreLevels unicode self ls
            → IfOk result (λ v. AreLevels unicode v
            (at (opened unicode fold negated lead) (ls.inner ∷ ls.outer))) }
    {
        let Levels { inner, mut outer } = self;
        outer.push(inner)?;
        let inner = Level::opened(alloc, unicode, fold, negated, lead)?;
        Ok(Levels { inner, outer })
    }

    /// Reads the opening of a list. It fails with `Refusal::Syntax` only if the list is nested too
    /// deeply.
    fn open(
        self,
        alloc: Global,
        settings: Settings,
        fold: bool,
        nest_limit: u32,
        text: &[char],
    ) -> Result<Step, Refusal>
        ensures { (ls : spec.Levels) → AreLevels settings.unicode self ls
            → Fit nest_limit (ls.inner ∷ ls.outer)
            → MatchResult result (StepsTo settings fold nest_limit ls Part.Opens text.now)
            (λ e. (e ≡ Memory) ⊎ IsTooDeep nest_limit ls Part.Opens) }
    {
        if nest_limit as usize <= self.outer.len() + 1 {
            return Err(Refusal::Syntax);
        }
        let (negated, lead, rest) = opening(settings.verbose, text);
        let next = self.enter(alloc, settings.unicode, fold, negated, lead)?;
        Ok(Step::Goes(next, rest))
    }

    /// Closes the innermost list. If it isn't the outermost, the one around it goes on.
    fn close<'t>(
        self,
        alloc: Global,
        unicode: bool,
        text: &'t [char],
    ) -> Result<Step<'t>, AllocError>
        requires room { self.inner.deepest < 2 ^ 32 - 1 }
        requires levels { (ls : spec.Levels) × AreLevels unicode self ls }
        ensures { (ls : spec.Levels) → AreLevels unicode self ls
            → IfOk result (ClosesTo unicode ls.inner ls.outer text.now) }
    {
        let Levels { inner, mut outer } = self;
        let depth = inner.deepest + 1;
        let class = inner.class(alloc, unicode)?;
        let Some(level) = outer.pop() else {
            return Ok(Step::Ends(class, depth));
        };
        let inner = level.with_list(&class, depth)?;
        Ok(Step::Goes(Levels { inner, outer }, text))
    }

    /// Goes on behind a part. It fails with `Refusal::Syntax` only if the part opens a list that is
    /// nested too deeply.
    pub fn step<'t>(
        self,
        alloc: Global,
        settings: Settings,
        fold: bool,
        nest_limit: u32,
        part: Part,
        text: &'t [char],
    ) -> Result<Step<'t>, Refusal>
        requires part { PartHasCodes settings.unicode part }
        requires levels { (ls : spec.Levels) × AreLevels settings.unicode self ls
            × Fit nest_limit (ls.inner ∷ ls.outer) }
        ensures { (ls : spec.Levels) → AreLevels settings.unicode self ls
            → Fit nest_limit (ls.inner ∷ ls.outer)
            → MatchResult result (StepsTo settings fold nest_limit ls part text.now)
            (λ e. (e ≡ Memory) ⊎ IsTooDeep nest_limit ls part) }
    {
        let unicode = settings.unicode;
        match part {
            Part::Has(item) => Ok(Step::Goes(self.with_item(alloc, unicode, fold, item)?, text)),
            Part::Operates(operation) => {
                Ok(Step::Goes(self.behind_operator(alloc, unicode, operation)?, text))
            }
            Part::Opens => self.open(alloc, settings, fold, nest_limit, text),
            Part::Closes => Ok(self.close(alloc, unicode, text)?),
        }
    }
}
