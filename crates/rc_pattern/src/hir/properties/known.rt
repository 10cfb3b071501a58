//! Properties of a pattern, from its leaves up.
//!
//! They are written to where the caller keeps them, and what a node takes stands in the frame of a
//! function that isn't inlined. So a level of nesting takes little stack.

ghost use Rattle.std.specs.Prelude.{Bool, List, Option, map, ℕ};
ghost use Rattle.rc_pattern.specs.Re as re;
ghost use Rattle.rc_pattern.specs.Meaning.{meaning, cat_all, alt_all, class_meaning};
ghost use Rattle.rc_pattern.specs.PropertiesOf.{IsPropertiesOf};

use super::Properties;
use crate::hir::{Class, Hir, HirKind, Look};

/// Returns the properties of the pattern, however deep it is nested. It recurses as deep.
pub fn properties_of(hir: &Hir) -> Properties
    ensures { IsPropertiesOf (meaning hir.now) result }
{
    let mut all = Properties::of_empty();
    put(hir, &mut all);
    all
}

/// Puts the properties of the pattern into `all`.
#[cycle(properties)]
fn put(hir: &Hir, all: &mut Properties)
    ensures { IsPropertiesOf (meaning hir.now) all.new }
{
    match hir.kind() {
        HirKind::Empty => put_empty(all),
        HirKind::Literal(bytes) => put_literal(bytes, all),
        HirKind::Class(class) => put_class(class, all),
        HirKind::Look(look) => put_look(*look, all),
        HirKind::Repetition(repetition) => {
            put(&repetition.sub, all);
            repeat(all, repetition.min, repetition.max);
        }
        HirKind::Capture(capture) => {
            put(&capture.sub, all);
            enclose(all);
        }
        HirKind::Concat(subs) => put_concat(subs, all),
        HirKind::Alternation(subs) => put_alternation(subs, all),
    }
}

#[cycle(properties)]
#[inline(never)]
fn put_concat(subs: &[Hir], all: &mut Properties)
    ensures { IsPropertiesOf (cat_all (map meaning subs.now)) all.new }
{
    put_empty(all);
    let mut rest = *all;
    for i in (0..subs.len()).rev() {
        put(&subs[i], all);
        precede(all, &mut rest);
    }
    *all = rest;
}

#[cycle(properties)]
#[inline(never)]
fn put_alternation(subs: &[Hir], all: &mut Properties)
    ensures { IsPropertiesOf (alt_all (map meaning subs.now)) all.new }
{
    let count = subs.len();
    if count == 0 {
        put_none(all);
        return;
    }
    put(&subs[count - 1], all);
    let mut rest = all.alone();
    for i in (0..count - 1).rev() {
        put(&subs[i], all);
        join(all, &mut rest);
    }
    *all = rest;
}

#[inline(never)]
fn put_empty(all: &mut Properties)
    ensures { IsPropertiesOf re.empty all.new }
{
    *all = Properties::of_empty();
}

#[inline(never)]
fn put_none(all: &mut Properties)
    ensures { IsPropertiesOf re.none all.new }
{
    *all = Properties::of_none();
}

#[inline(never)]
fn put_literal(bytes: &Vec<u8>, all: &mut Properties)
    ensures { IsPropertiesOf (re.literal bytes.now.items) all.new }
{
    *all = Properties::of_literal(bytes);
}

#[inline(never)]
fn put_class(class: &Class, all: &mut Properties)
    ensures { IsPropertiesOf (class_meaning class.now) all.new }
{
    *all = Properties::of_class(class);
}

#[inline(never)]
fn put_look(look: Look, all: &mut Properties)
    ensures { IsPropertiesOf (re.look look) all.new }
{
    *all = Properties::of_look(look);
}

/// Turns the properties of a body into those of its repetition.
#[inline(never)]
fn repeat(all: &mut Properties, min: u32, max: Option<u32>)
    ensures { (h : re.Re) (greedy : Bool) → IsPropertiesOf h all.old
        → IsPropertiesOf (re.repeat min max greedy h) all.new }
{
    *all = all.repeated(min, max);
}

/// Turns the properties of a body into those of a group.
#[inline(never)]
fn enclose(all: &mut Properties)
    ensures { (h : re.Re) (n : ℕ) (name : Option (List ℕ)) → IsPropertiesOf h all.old
        → IsPropertiesOf (re.capture n name h) all.new }
{
    *all = all.captured();
}

/// Turns the properties of a concatenation into those of one with a member before it.
#[inline(never)]
fn precede(first: &Properties, rest: &mut Properties)
    ensures { (h k : re.Re) → IsPropertiesOf h first.now → IsPropertiesOf k rest.old
        → IsPropertiesOf (re.cat h k) rest.new }
{
    *rest = first.followed_by(*rest);
}

/// Turns the properties of an alternation into those of one with a member before it.
#[inline(never)]
fn join(first: &Properties, rest: &mut Properties)
    ensures { (h k m : re.Re) → IsPropertiesOf h first.now → IsPropertiesOf (re.alt k m) rest.old
        → IsPropertiesOf (re.alt h (re.alt k m)) rest.new }
{
    *rest = first.or(*rest);
}
