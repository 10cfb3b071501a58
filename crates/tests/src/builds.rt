//! Each call that builds an engine, once, of a text and of a tree as deep as may be. Trees of any
//! depth are dropped, and refused.
ghost use Rattle.std.specs.Prelude.{IfOk};
ghost use Rattle.api_pikevm.specs.Caches.{IsCacheFor};
ghost use Rattle.api_pikevm.specs.Views.{sought};

use crate::words::is_text;
use regex_cursor::Input;
use regex_cursor::engines::meta::BuildError;
use regex_cursor::engines::pikevm::PikeVM;
use regex_cursor::engines::{dfa, hybrid, meta, pikevm};
use regex_cursor::hir::{Capture, Dot, Hir, Look, Properties, Repetition};
use regex_cursor::syntax::{Config, Grammar};
use regex_cursor::types::{Match, PatternID};
use std::alloc::{AllocError, Global};
use std::slice::from_ref;
use std::test::Fail;

/// Two patterns, of which the second alone matches in the text.
const PATTERNS: [&str; 2] = ["cd", "ab"];

/// What is searched. Each engine finds a match that ends at its end.
const TEXT: &[u8] = b"xab";

/// A character and then `ab`, within so many repetitions that it is as deep as a tree may be.
fn deep_tree(alloc: Global) -> Result<Hir, AllocError> {
    let choices = vec![in alloc; Hir::fail(alloc), Hir::literal(alloc, b"ab")?]?;
    let choice = Hir::alternation(alloc, choices)?;
    let both = vec![in alloc; Hir::dot(alloc, Dot::AnyChar)?, choice]?;
    let mut tree = Hir::concat(alloc, both)?;
    for _ in 0..1021 {
        tree = Hir::repetition(Repetition {
            min: 1,
            max: Some(1),
            greedy: true,
            sub: Box::new(alloc, tree)?,
        });
    }
    Ok(tree)
}

/// Which call builds an engine.
#[derive(Clone, Copy)]
enum Call {
    New,
    NewMany,
    Build,
    BuildMany,
    BuildFromHir,
    BuildManyFromHir,
}

const CALLS: [Call; 6] = [
    Call::New,
    Call::NewMany,
    Call::Build,
    Call::BuildMany,
    Call::BuildFromHir,
    Call::BuildManyFromHir,
];

/// Where a match ends, or the greatest number if there is none.
fn end(found: Option<Match>) -> usize {
    match found {
        Some(found) => found.end(),
        None => usize::MAX,
    }
}

/// The regex that the call builds.
fn regex(
    alloc: Global,
    builder: &meta::Builder,
    call: Call,
    tree: &Hir,
) -> Result<meta::Regex, BuildError> {
    match call {
        Call::New => meta::Regex::new(alloc, "ab"),
        Call::NewMany => meta::Regex::new_many(alloc, &PATTERNS),
        Call::Build => meta::Builder::build(builder, alloc, "ab"),
        Call::BuildMany => meta::Builder::build_many(builder, alloc, &PATTERNS),
        Call::BuildFromHir => meta::Builder::build_from_hir(builder, alloc, tree),
        Call::BuildManyFromHir => {
            meta::Builder::build_many_from_hir(builder, alloc, from_ref(tree))
        }
    }
}

/// Where its match in the text ends.
fn by_regex(alloc: Global, call: Call, tree: &Hir) -> Result<usize, BuildError> {
    let builder = meta::Regex::builder();
    let built = regex(alloc, &builder, call, tree);
    drop(builder);
    let regex = built?;
    let found = meta::Regex::find(&regex, alloc, Input::new(TEXT));
    drop(regex);
    Ok(end(found?))
}

/// The `PikeVM` that the call builds.
fn vm(
    alloc: Global,
    builder: &pikevm::Builder,
    call: Call,
    tree: &Hir,
) -> Result<PikeVM, BuildError> {
    match call {
        Call::New => PikeVM::new(alloc, "ab"),
        Call::NewMany => PikeVM::new_many(alloc, &PATTERNS),
        Call::Build => pikevm::Builder::build(builder, alloc, "ab"),
        Call::BuildMany => pikevm::Builder::build_many(builder, alloc, &PATTERNS),
        Call::BuildFromHir | Call::BuildManyFromHir => {
            pikevm::Builder::build_many_from_hir(builder, alloc, from_ref(tree))
        }
    }
}

/// Where its match in the text ends.
fn by_vm(alloc: Global, call: Call, tree: &Hir) -> Result<usize, BuildError> {
    let builder = PikeVM::builder();
    let built = vm(alloc, &builder, call, tree);
    drop(builder);
    let vm = built?;
    let end = end_by_vm(alloc, &vm, call);
    drop(vm);
    Ok(end?)
}

/// A cache of a `PikeVM`, by either call that makes one.
fn cache_of(alloc: Global, vm: &PikeVM, call: Call) -> Result<pikevm::Cache, AllocError>
    ensures { IfOk result (IsCacheFor (sought vm.now)) }
{
    match call {
        Call::New => PikeVM::create_cache(vm, alloc),
        _ => pikevm::Cache::new(alloc, vm),
    }
}

/// Where the match of a `PikeVM` ends, in a cache that was reset.
fn end_by_vm(alloc: Global, vm: &PikeVM, call: Call) -> Result<usize, AllocError> {
    let mut captures = PikeVM::create_captures(vm, alloc)?;
    let mut cache = cache_of(alloc, vm, call)?;
    let reset = pikevm::Cache::reset(&mut cache, vm);
    pikevm::search(vm, &mut cache, &mut Input::new(TEXT), &mut captures);
    drop(cache);
    let found = captures.get_match();
    drop(captures);
    reset?;
    Ok(end(found))
}

/// The DFA that the call builds.
fn tables(
    alloc: Global,
    builder: &dfa::Builder,
    call: Call,
    tree: &Hir,
) -> Result<dfa::Regex, BuildError> {
    match call {
        Call::New => dfa::Regex::new(alloc, "ab"),
        Call::NewMany => dfa::Regex::new_many(alloc, &PATTERNS),
        Call::Build => dfa::Builder::build(builder, alloc, "ab"),
        Call::BuildMany => dfa::Builder::build_many(builder, alloc, &PATTERNS),
        Call::BuildFromHir | Call::BuildManyFromHir => {
            dfa::Builder::build_many_from_hir(builder, alloc, from_ref(tree))
        }
    }
}

/// Where its match in the text ends.
fn by_dfa(alloc: Global, call: Call, tree: &Hir) -> Result<usize, BuildError> {
    let builder = dfa::Regex::builder();
    let built = tables(alloc, &builder, call, tree);
    drop(builder);
    let tables = built?;
    let found = dfa::try_search(&tables, &mut Input::new(TEXT));
    drop(tables);
    Ok(end(found.unwrap_or(None)))
}

/// The hybrid that the call builds.
fn states(
    alloc: Global,
    builder: &hybrid::Builder,
    call: Call,
    tree: &Hir,
) -> Result<hybrid::Regex, BuildError> {
    match call {
        Call::New => hybrid::Regex::new(alloc, "ab"),
        Call::NewMany => hybrid::Regex::new_many(alloc, &PATTERNS),
        Call::Build => hybrid::Builder::build(builder, alloc, "ab"),
        Call::BuildMany => hybrid::Builder::build_many(builder, alloc, &PATTERNS),
        Call::BuildFromHir | Call::BuildManyFromHir => {
            hybrid::Builder::build_many_from_hir(builder, alloc, from_ref(tree))
        }
    }
}

/// Where its match in the text ends.
fn by_hybrid(alloc: Global, call: Call, tree: &Hir) -> Result<usize, BuildError> {
    let builder = hybrid::Regex::builder();
    let built = states(alloc, &builder, call, tree);
    drop(builder);
    let states = built?;
    let end = end_by_hybrid(alloc, &states);
    drop(states);
    Ok(end?)
}

/// Where the match of a hybrid ends, in a cache of its own.
fn end_by_hybrid(alloc: Global, states: &hybrid::Regex) -> Result<usize, AllocError> {
    let mut cache = hybrid::Cache::new(alloc, states)?;
    let found = hybrid::try_search(states, &mut cache, &mut Input::new(TEXT));
    drop(cache);
    Ok(end(found.unwrap_or(None)))
}

#[test]
fn engines_are_built(rt: HostRuntime) -> Result<(), Fail> {
    let alloc = rt.alloc();
    let tree = deep_tree(alloc)?;
    for call in CALLS {
        assert!(rt; by_regex(alloc, call, &tree) == Ok(3));
        assert!(rt; by_vm(alloc, call, &tree) == Ok(3));
        assert!(rt; by_dfa(alloc, call, &tree) == Ok(3));
        assert!(rt; by_hybrid(alloc, call, &tree) == Ok(3));
    }
    drop(tree);
    Ok(())
}

/// Where the match of a copy of a regex ends, whose patterns are too large by the stated grammar.
fn by_copy(alloc: Global) -> Result<usize, BuildError> {
    let mut builder = meta::Regex::builder();
    let built = builder
        .syntax(Config::new().grammar(Grammar::Full))
        .build(alloc, "ab|\\w{60}");
    drop(builder);
    let regex = built?;
    let copy = meta::Regex::try_clone(&regex, alloc);
    drop(regex);
    let copy = copy?;
    let found = meta::Regex::find(&copy, alloc, Input::new(TEXT));
    drop(copy);
    Ok(end(found?))
}

#[test]
fn a_copy_of_a_regex(rt: HostRuntime) {
    assert!(rt; by_copy(rt.alloc()) == Ok(3));
}

/// The tree as a child of another node, which the level tells: the only one, in the middle, or the
/// first.
fn deeper(alloc: Global, tree: Hir, level: u32) -> Result<Hir, AllocError> {
    match level % 4 {
        0 => Ok(Hir::repetition(Repetition {
            min: 0,
            max: None,
            greedy: true,
            sub: Box::new(alloc, tree)?,
        })),
        1 => Ok(Hir::capture(Capture {
            index: 1,
            name: None,
            sub: Box::new(alloc, tree)?,
        })),
        2 => {
            let subs = vec![in alloc; Hir::look(Look::Start), tree, Hir::look(Look::End)]?;
            Hir::concat(alloc, subs)
        }
        _ => {
            let subs = vec![in alloc; tree, Hir::look(Look::Start), Hir::fail(alloc)]?;
            Hir::alternation(alloc, subs)
        }
    }
}

/// Whether these properties say nothing of a pattern.
fn say_nothing(known: &Properties) -> bool {
    known.minimum_len() == Some(0)
        && known.maximum_len().is_none()
        && known.explicit_captures_len() == usize::MAX
        && known.static_explicit_captures_len().is_none()
        && !known.is_plain()
}

#[test]
fn a_tree_of_any_depth_is_refused_and_dropped(rt: HostRuntime) -> Result<(), Fail> {
    let alloc = rt.alloc();
    let mut tree = Hir::look(Look::Start);
    for level in 0..1_000_000 {
        tree = deeper(alloc, tree, level)?;
    }
    assert!(rt; say_nothing(&tree.properties()));
    let printed = "Alternation(Concat(..), Look(Start), Class(0 ranges of bytes))";
    assert!(rt; is_text(format!(in alloc; "{tree:?}"), printed));
    let refused: Result<usize, BuildError> = Err(BuildError::IllFormed {
        pattern: PatternID::ZERO,
    });
    assert!(rt; by_regex(alloc, Call::BuildFromHir, &tree) == refused);
    assert!(rt; by_vm(alloc, Call::BuildFromHir, &tree) == refused);
    assert!(rt; by_dfa(alloc, Call::BuildFromHir, &tree) == refused);
    assert!(rt; by_hybrid(alloc, Call::BuildFromHir, &tree) == refused);
    drop(tree);
    Ok(())
}
