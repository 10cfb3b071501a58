//! The sides of the operators of a list.

ghost use Rattle.std.specs.Prelude.{◌≡◌, Bool, IfOk};
ghost use Rattle.rc_tokens.specs.ClassView.{pairs};
ghost use Rattle.rc_class_sets.specs.Sets.{CodeSet, AreRangesOf};
ghost use Rattle.rc_full_lists.specs.Sides.{apply, Side, with_set, so_far, behind_operator, AreSides};

use crate::parts::Operation;
use rc_class_sets::sets::{difference, in_order, intersection, symmetric_difference};
use rc_tokens::classes::CodeRange;
use std::alloc::{AllocError, Global};

/// An operator, and the class to its left.
#[derive(Drop)]
pub struct Left {
    pub class: Vec<CodeRange>,
    pub operation: Operation,
}

/// How far a list is read: the operator under way, and the items behind it.
#[derive(Drop)]
pub struct Sides {
    pub left: Option<Left>,
    /// The ranges of the items, in any order.
    pub items: Vec<CodeRange>,
}

/// The class that the operator makes of the two.
pub fn apply(
    alloc: Global,
    unicode: bool,
    operation: Operation,
    left: &[CodeRange],
    right: &[CodeRange],
) -> Result<Vec<CodeRange>, AllocError>
    requires left { (p : CodeSet) × AreRangesOf unicode p (pairs left.now) }
    requires right { (q : CodeSet) × AreRangesOf unicode q (pairs right.now) }
    ensures { (p q : CodeSet) → AreRangesOf unicode p (pairs left.now)
        → AreRangesOf unicode q (pairs right.now)
        → IfOk result (λ v. AreRangesOf unicode (apply operation p q) (pairs v.items)) }
{
    match operation {
        Operation::Intersection => intersection(alloc, unicode, left, right),
        Operation::Difference => difference(alloc, unicode, left, right),
        Operation::SymmetricDifference => symmetric_difference(alloc, unicode, left, right),
    }
}

impl Sides {
    /// Adds the class of an item.
    pub fn with_class(self, class: &[CodeRange]) -> Result<Sides, AllocError>
        ensures { (unicode : Bool) (s : Side) (p : CodeSet) → AreSides unicode self s
            → AreRangesOf unicode p (pairs class.now)
            → IfOk result (λ v. AreSides unicode v (with_set p s)) }
    {
        let Sides { left, mut items } = self;
        items.extend_from_slice(class)?;
        Ok(Sides { left, items })
    }

    /// The class of all that is read.
    pub fn so_far(self, alloc: Global, unicode: bool) -> Result<Vec<CodeRange>, AllocError>
        requires { (s : Side) × AreSides unicode self s }
        ensures { (s : Side) → AreSides unicode self s
            → IfOk result (λ v. AreRangesOf unicode (so_far s) (pairs v.items)) }
    {
        let Sides { left, items } = self;
        let items = in_order(alloc, unicode, &items)?;
        match left {
            Some(left) => apply(alloc, unicode, left.operation, &left.class, &items),
            None => Ok(items),
        }
    }

    /// Goes on behind an operator.
    #[tactic(auto, using(crate::proofs::SideLemmas::no_ranges))]
    pub fn behind_operator(
        self,
        alloc: Global,
        unicode: bool,
        operation: Operation,
    ) -> Result<Sides, AllocError>
        requires { (s : Side) × AreSides unicode self s }
        ensures { (s : Side) → AreSides unicode self s
            → IfOk result (λ v. AreSides unicode v (behind_operator operation s)) }
    {
        let class = self.so_far(alloc, unicode)?;
        Ok(Sides {
            left: Some(Left { class, operation }),
            items: Vec::new(alloc),
        })
    }
}
