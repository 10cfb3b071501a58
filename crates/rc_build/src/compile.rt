//! Compilation of checked patterns: their program and their groups.
ghost use Rattle.std.specs.Prelude.{◌≡◌, ◌≤◌, [], length, map, IfErr, IfOk};
ghost use Rattle.rc_text.specs.Limits.{most_patterns};
ghost use Rattle.rc_pattern.specs.Meaning.{meaning};
ghost use Rattle.rc_pattern.specs.WellFormed.{group_names};
ghost use Rattle.rc_captures.specs.Groups.{names_of};
ghost use Rattle.rc_captures.specs.Names.{names_in};
ghost use Rattle.rc_program.specs.Program.{program, shown};
ghost use Rattle.rc_program.specs.Places.{places_of};
ghost use Rattle.rc_settings.specs.Which.{is_grouped};
ghost use Rattle.rc_build.specs.Names.{names_shown};
ghost use Rattle.rc_build.specs.Refusals.{IsBuildable, IsRefusal};

use crate::check::check;
use crate::limit::Limit;
use rc_captures::groups::{GroupInfo, group_info};
use rc_compile::compile::compile;
use rc_pattern::check::groups;
use rc_pattern::hir::Hir;
use rc_program::place::Place;
use rc_settings::error::BuildError;
use rc_settings::which::{WhichCaptures, is_grouped};
use std::alloc::{AllocError, Global};

/// Patterns that were compiled.
#[derive(Drop)]
pub struct Compiled {
    /// The program.
    pub places: Vec<Place>,
    /// The groups that are kept.
    pub info: GroupInfo,
}

/// Compiles the patterns, at most 2,147,483,647 of them, under a limit on 32 times their weight by
/// its grammar.
///
/// The error is the first of these that applies: `IllFormed`, with the first pattern that isn't
/// well-formed; `SizeLimit`, if 32 times the weight by that grammar is above the limit;
/// `PlaceLimit`, if the weight by the stated grammar is above 2,147,483,646. `Memory` means out of
/// memory.
pub fn compile_all(
    alloc: Global,
    hirs: &[Hir],
    limit: Limit,
    which: WhichCaptures,
) -> Result<Compiled, BuildError>
    requires { length hirs.now ≤ most_patterns }
    ensures buildable { IfOk result (λ _. IsBuildable limit (map meaning hirs.now)) }
    ensures places { IfOk result (λ c. places_of c.places.items
        ≡ program (shown (is_grouped which) (map meaning hirs.now))) }
    ensures names { IfOk result (λ c. names_of c.info
        ≡ names_shown (is_grouped which) (map meaning hirs.now)) }
    ensures refused { IfErr result (λ e. IsRefusal limit (map meaning hirs.now) e) }
{
    check(alloc, hirs, limit)?;
    let grouped = is_grouped(which);
    let places = compile(alloc, hirs, grouped)?;
    let info = group_info(alloc, names_shown(alloc, hirs, grouped)?)?;
    Ok(Compiled { places, info })
}

/// For each pattern the names of the groups that are kept.
fn names_shown(
    alloc: Global,
    hirs: &[Hir],
    grouped: bool,
) -> Result<Vec<Vec<Option<String>>>, AllocError>
    ensures { IfOk result (λ names. names_in names.items
        ≡ names_shown grouped (map meaning hirs.now)) }
{
    if grouped {
        return all_names(alloc, hirs);
    }
    let names = no_names(alloc, hirs)?;
    Ok(names)
}

/// For each pattern the names of its groups.
fn all_names(alloc: Global, hirs: &[Hir]) -> Result<Vec<Vec<Option<String>>>, AllocError>
    ensures { IfOk result (λ names. names_in names.items ≡ map group_names (map meaning hirs.now)) }
{
    let mut names = Vec::new(alloc);
    for hir in hirs {
        names.push(groups(alloc, hir)?)?;
    }
    Ok(names)
}

/// For each pattern no name.
fn no_names(alloc: Global, hirs: &[Hir]) -> Result<Vec<Vec<Option<String>>>, AllocError>
    ensures { IfOk result (λ names. names_in names.items ≡ map (λ _. []) (map meaning hirs.now)) }
{
    let mut names = Vec::new(alloc);
    for _hir in hirs {
        names.push(Vec::new(alloc))?;
    }
    Ok(names)
}
