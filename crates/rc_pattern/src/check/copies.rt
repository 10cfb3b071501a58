//! Copies of patterns.
//!
//! Each copy is appended to a vector, and what a node takes stands in the frame of a function that
//! isn't inlined. So a level of nesting takes little stack.

ghost use Rattle.std.specs.Prelude.{◌≡◌, ◌<◌, ◌++◌, ◌∷◌, [], IfOk, List, OnOk, map, vec_len};
ghost use Rattle.rc_pattern.specs.Re as re;
ghost use Rattle.rc_pattern.specs.declared.hir.Repetition.{out-Repetition};
ghost use Rattle.rc_pattern.specs.declared.hir.Capture.{out-Capture};
ghost use Rattle.rc_pattern.specs.Meaning.{meaning, class_meaning, cat_all, alt_all, repetition_meaning, capture_meaning};

use crate::hir::{Capture, Class, Hir, HirKind, Look, Repetition};
use std::alloc::{AllocError, Global};

/// Returns copies of the patterns, in order. An `Err` means out of memory.
pub fn copies_of(alloc: Global, hirs: &[Hir]) -> Result<Vec<Hir>, AllocError>
    ensures { IfOk result (λ copies. map meaning copies.items ≡ map meaning hirs.now) }
{
    let mut copies = Vec::new(alloc);
    push_copies(alloc, hirs, &mut copies)?;
    Ok(copies)
}

/// Appends a copy of each pattern. An `Err` means out of memory.
#[cycle(copy)]
fn push_copies(alloc: Global, hirs: &[Hir], copies: &mut Vec<Hir>) -> Result<(), AllocError>
    ensures { OnOk result (map meaning copies.new.items
        ≡ map meaning copies.old.items ++ map meaning hirs.now) }
{
    for hir in hirs {
        push_copy(alloc, hir, copies)?;
    }
    Ok(())
}

/// Appends a copy of the pattern. An `Err` means out of memory.
#[cycle(copy)]
fn push_copy(alloc: Global, hir: &Hir, copies: &mut Vec<Hir>) -> Result<(), AllocError>
    ensures { OnOk result (map meaning copies.new.items
        ≡ map meaning copies.old.items ++ meaning hir.now ∷ []) }
{
    match hir.kind() {
        HirKind::Empty => push_empty(copies),
        HirKind::Literal(bytes) => push_literal(alloc, copies, bytes),
        HirKind::Class(class) => push_class(alloc, copies, class),
        HirKind::Look(look) => push_look(copies, *look),
        HirKind::Repetition(repetition) => {
            push_copy(alloc, &repetition.sub, copies)?;
            repeat_last(alloc, copies, repetition)
        }
        HirKind::Capture(capture) => {
            push_copy(alloc, &capture.sub, copies)?;
            capture_last(alloc, copies, capture)
        }
        HirKind::Concat(subs) => push_concat(alloc, subs, copies),
        HirKind::Alternation(subs) => push_alternation(alloc, subs, copies),
    }
}

#[cycle(copy)]
#[inline(never)]
fn push_concat(alloc: Global, subs: &[Hir], copies: &mut Vec<Hir>) -> Result<(), AllocError>
    ensures { OnOk result (map meaning copies.new.items
        ≡ map meaning copies.old.items ++ cat_all (map meaning subs.now) ∷ []) }
{
    let mut members = Vec::new(alloc);
    push_copies(alloc, subs, &mut members)?;
    put_concat(copies, members)
}

#[cycle(copy)]
#[inline(never)]
fn push_alternation(alloc: Global, subs: &[Hir], copies: &mut Vec<Hir>) -> Result<(), AllocError>
    ensures { OnOk result (map meaning copies.new.items
        ≡ map meaning copies.old.items ++ alt_all (map meaning subs.now) ∷ []) }
{
    let mut members = Vec::new(alloc);
    push_copies(alloc, subs, &mut members)?;
    put_alternation(copies, members)
}

#[inline(never)]
fn push_empty(copies: &mut Vec<Hir>) -> Result<(), AllocError>
    ensures { OnOk result (map meaning copies.new.items
        ≡ map meaning copies.old.items ++ re.empty ∷ []) }
{
    copies.push(Hir::empty())?;
    Ok(())
}

#[inline(never)]
fn push_literal(alloc: Global, copies: &mut Vec<Hir>, bytes: &Vec<u8>) -> Result<(), AllocError>
    ensures { OnOk result (map meaning copies.new.items
        ≡ map meaning copies.old.items ++ re.literal bytes.now.items ∷ []) }
{
    let bytes = Vec::from_slice(alloc, bytes)?;
    copies.push(Hir::from_kind(HirKind::Literal(bytes)))?;
    Ok(())
}

#[inline(never)]
fn push_class(alloc: Global, copies: &mut Vec<Hir>, class: &Class) -> Result<(), AllocError>
    ensures { OnOk result (map meaning copies.new.items
        ≡ map meaning copies.old.items ++ class_meaning class.now ∷ []) }
{
    copies.push(Hir::class(copy_of_class(alloc, class)?))?;
    Ok(())
}

#[inline(never)]
fn push_look(copies: &mut Vec<Hir>, look: Look) -> Result<(), AllocError>
    ensures { OnOk result (map meaning copies.new.items
        ≡ map meaning copies.old.items ++ re.look look ∷ []) }
{
    copies.push(Hir::look(look))?;
    Ok(())
}

#[inline(never)]
fn put_concat(copies: &mut Vec<Hir>, subs: Vec<Hir>) -> Result<(), AllocError>
    ensures { OnOk result (map meaning copies.new.items
        ≡ map meaning copies.old.items ++ cat_all (map meaning subs.items) ∷ []) }
{
    copies.push(Hir::from_kind(HirKind::Concat(subs)))?;
    Ok(())
}

#[inline(never)]
fn put_alternation(copies: &mut Vec<Hir>, subs: Vec<Hir>) -> Result<(), AllocError>
    ensures { OnOk result (map meaning copies.new.items
        ≡ map meaning copies.old.items ++ alt_all (map meaning subs.items) ∷ []) }
{
    copies.push(Hir::from_kind(HirKind::Alternation(subs)))?;
    Ok(())
}

/// Puts the last copy, that of the body, into a copy of the repetition.
#[inline(never)]
fn repeat_last(
    alloc: Global,
    copies: &mut Vec<Hir>,
    repetition: &Repetition,
) -> Result<(), AllocError>
    requires { 0 < vec_len copies.old }
    ensures { OnOk result ((rs : List re.Re) → map meaning copies.old.items
        ≡ rs ++ meaning (out-Repetition repetition.now).sub.value ∷ []
        → map meaning copies.new.items ≡ rs ++ repetition_meaning repetition.now ∷ []) }
{
    let sub = copies.pop().unwrap();
    let copy = Repetition {
        min: repetition.min,
        max: repetition.max,
        greedy: repetition.greedy,
        sub: Box::new(alloc, sub)?,
    };
    copies.push(Hir::repetition(copy))?;
    Ok(())
}

/// Puts the last copy, that of the body, into a copy of the group.
#[inline(never)]
fn capture_last(alloc: Global, copies: &mut Vec<Hir>, capture: &Capture) -> Result<(), AllocError>
    requires { 0 < vec_len copies.old }
    ensures { OnOk result ((rs : List re.Re) → map meaning copies.old.items
        ≡ rs ++ meaning (out-Capture capture.now).sub.value ∷ []
        → map meaning copies.new.items ≡ rs ++ capture_meaning capture.now ∷ []) }
{
    let sub = copies.pop().unwrap();
    let copy = Capture {
        index: capture.index,
        name: capture.name.clone()?,
        sub: Box::new(alloc, sub)?,
    };
    copies.push(Hir::capture(copy))?;
    Ok(())
}

fn copy_of_class(alloc: Global, class: &Class) -> Result<Class, AllocError>
    ensures { IfOk result (λ copy. class_meaning copy ≡ class_meaning class.now) }
{
    match class {
        Class::Unicode(ranges) => Ok(Class::Unicode(Vec::from_slice(alloc, ranges)?)),
        Class::Bytes(ranges) => Ok(Class::Bytes(Vec::from_slice(alloc, ranges)?)),
    }
}
