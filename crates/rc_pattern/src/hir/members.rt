//! Members of concatenations and alternations.

ghost use Rattle.std.specs.Prelude.{◌≡◌, List, ◌++◌, ◌∷◌, [], IfOk, OnOk, IsTrue, map};
ghost use Rattle.std.specs.List.{flat_map};
ghost use Rattle.rc_pattern.specs.Re.{Re, literal};
ghost use Rattle.rc_pattern.specs.Meaning.{meaning, kind_meaning, cat_members, alt_members, joined};
ghost use Rattle.rc_pattern.specs.Kinds.{has_plain_nodes, kind_has_plain_nodes, all_have_plain_nodes};

use super::{Hir, HirKind};
use std::alloc::{AllocError, Global};

fn put(members: &mut Vec<Hir>, kind: HirKind) -> Result<(), AllocError>
    ensures meaning { OnOk result (map meaning members.new.items ≡ map meaning members.old.items
        ++ kind_meaning kind ∷ []) }
    ensures kind { OnOk result (IsTrue (all_have_plain_nodes members.old.items)
        → IsTrue (kind_has_plain_nodes kind) → IsTrue (all_have_plain_nodes members.new.items)) }
{
    members.push(Hir { kind })?;
    Ok(())
}

/// Appends the members that the pattern gives a concatenation.
fn put_cat_members(members: &mut Vec<Hir>, sub: Hir) -> Result<(), AllocError>
    ensures meaning { OnOk result (map meaning members.new.items ≡ map meaning members.old.items
        ++ cat_members (meaning sub)) }
    ensures kind { OnOk result (IsTrue (all_have_plain_nodes members.old.items)
        → IsTrue (has_plain_nodes sub) → IsTrue (all_have_plain_nodes members.new.items)) }
{
    let kind = sub.into_kind();
    match kind {
        HirKind::Empty => Ok(()),
        HirKind::Concat(subs) => {
            let mut subs = subs;
            members.append(&mut subs)?;
            Ok(())
        }
        kind => put(members, kind),
    }
}

/// Appends a literal, joined to the last member if that is one too.
fn append_literal(members: &mut Vec<Hir>, bytes: Vec<u8>) -> Result<(), AllocError>
    ensures meaning { OnOk result ((xs : List Re) → map meaning members.old.items ≡ joined xs
        → map meaning members.new.items ≡ joined (xs ++ literal bytes.items ∷ [])) }
    ensures kind { OnOk result (IsTrue (all_have_plain_nodes members.old.items)
        → IsTrue (all_have_plain_nodes members.new.items)) }
{
    let Some(last) = members.pop() else {
        return put(members, HirKind::Literal(bytes));
    };
    let kind = last.into_kind();
    match kind {
        HirKind::Literal(before) => {
            let mut before = before;
            let mut bytes = bytes;
            before.append(&mut bytes)?;
            put(members, HirKind::Literal(before))
        }
        kind => {
            put(members, kind)?;
            put(members, HirKind::Literal(bytes))
        }
    }
}

/// Appends a member. Adjacent literals are joined.
fn append(members: &mut Vec<Hir>, member: Hir) -> Result<(), AllocError>
    ensures meaning { OnOk result ((xs : List Re) → map meaning members.old.items ≡ joined xs
        → map meaning members.new.items ≡ joined (xs ++ meaning member ∷ [])) }
    ensures kind { OnOk result (IsTrue (all_have_plain_nodes members.old.items)
        → IsTrue (has_plain_nodes member) → IsTrue (all_have_plain_nodes members.new.items)) }
{
    let kind = member.into_kind();
    match kind {
        HirKind::Literal(bytes) => append_literal(members, bytes),
        kind => put(members, kind),
    }
}

/// Appends the members that the pattern gives an alternation.
fn put_alt_members(members: &mut Vec<Hir>, sub: Hir) -> Result<(), AllocError>
    ensures meaning { OnOk result (map meaning members.new.items ≡ map meaning members.old.items
        ++ alt_members (meaning sub)) }
    ensures kind { OnOk result (IsTrue (all_have_plain_nodes members.old.items)
        → IsTrue (has_plain_nodes sub) → IsTrue (all_have_plain_nodes members.new.items)) }
{
    let kind = sub.into_kind();
    match kind {
        HirKind::Alternation(subs) => {
            let mut subs = subs;
            members.append(&mut subs)?;
            Ok(())
        }
        kind => put(members, kind),
    }
}

/// The members of an alternation of these patterns.
pub(super) fn all_alt_members(alloc: Global, subs: Vec<Hir>) -> Result<Vec<Hir>, AllocError>
    ensures meaning { IfOk result (λ members. map meaning members.items
        ≡ flat_map alt_members (map meaning subs.items)) }
    ensures kind { IfOk result (λ members. IsTrue (all_have_plain_nodes subs.items)
        → IsTrue (all_have_plain_nodes members.items)) }
{
    let mut members = Vec::new(alloc);
    for sub in subs {
        put_alt_members(&mut members, sub)?;
    }
    Ok(members)
}

/// The members of a concatenation of these patterns, before literals are joined.
pub(super) fn all_cat_members(alloc: Global, subs: Vec<Hir>) -> Result<Vec<Hir>, AllocError>
    ensures meaning { IfOk result (λ members. map meaning members.items
        ≡ flat_map cat_members (map meaning subs.items)) }
    ensures kind { IfOk result (λ members. IsTrue (all_have_plain_nodes subs.items)
        → IsTrue (all_have_plain_nodes members.items)) }
{
    let mut members = Vec::new(alloc);
    for sub in subs {
        put_cat_members(&mut members, sub)?;
    }
    Ok(members)
}

/// The members with adjacent literals joined.
pub(super) fn joined_literals(alloc: Global, members: Vec<Hir>) -> Result<Vec<Hir>, AllocError>
    ensures meaning { IfOk result (λ all. map meaning all.items
        ≡ joined (map meaning members.items)) }
    ensures kind { IfOk result (λ all. IsTrue (all_have_plain_nodes members.items)
        → IsTrue (all_have_plain_nodes all.items)) }
{
    let mut all = Vec::new(alloc);
    for member in members {
        append(&mut all, member)?;
    }
    Ok(all)
}
