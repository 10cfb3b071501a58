//! Counts: of patterns, groups, slots and pieces, and of the places that a search enters.

use regex_cursor::Input;
use regex_cursor::engines::meta::{BuildError, Config, Regex, WhichCaptures};
use regex_cursor::engines::pikevm;
use regex_cursor::engines::pikevm::PikeVM;
use std::alloc::{AllocError, Global};
use std::test::Fail;

/// The number of patterns, of all their groups, of the groups of each match, and of slots; and whether the patterns are plain.
type Counts = (usize, usize, Option<usize>, usize, bool);

/// What a regex for these patterns tells.
fn counts(
    alloc: Global,
    patterns: &[&str; 2],
    len: usize,
    which: WhichCaptures,
) -> Result<Counts, BuildError> {
    let mut builder = Regex::builder();
    builder.configure(Config::new().which_captures(which));
    let built = builder.build_many(alloc, &patterns[..len.min(2)]);
    drop(builder);
    let regex = built?;
    let counts = (
        regex.pattern_len(),
        regex.captures_len(),
        regex.static_captures_len(),
        regex.group_info().slot_len(),
        regex.is_plain(),
    );
    drop(regex);
    Ok(counts)
}

/// Two patterns, how many of them are built, which groups are kept, and what is told.
type Row = ([&'static str; 2], usize, WhichCaptures, Counts);

const ALL: WhichCaptures = WhichCaptures::All;

const ROWS: [Row; 9] = [
    ([r"(?P<y>\d+)-(\d+)", ""], 1, ALL, (1, 3, Some(3), 6, true)),
    (["a(b)", "(c)(d)"], 2, ALL, (2, 5, None, 10, true)),
    (
        ["(a)(b)", ""],
        1,
        WhichCaptures::Implicit,
        (1, 3, Some(3), 2, true),
    ),
    (["", ""], 0, ALL, (0, 0, None, 0, true)),
    (["a*", ""], 1, ALL, (1, 1, Some(1), 2, true)),
    (["(?:a{1,2}?){2}", ""], 1, ALL, (1, 1, Some(1), 2, true)),
    (["(?:a*)*", ""], 1, ALL, (1, 1, Some(1), 2, false)),
    (["(?:a?)+", ""], 1, ALL, (1, 1, Some(1), 2, false)),
    (["(|a)+", ""], 1, ALL, (1, 2, Some(2), 4, false)),
];

#[test]
fn groups_and_slots(rt: HostRuntime) {
    for (patterns, len, which, wanted) in &ROWS {
        let told = counts(rt.alloc(), patterns, *len, *which);
        assert!(rt; told == Ok(*wanted), "{}", patterns[0]);
    }
}

/// Three pieces.
const PIECES: &[u8] = b"a,b,c";

/// How many pieces are left at most, before the first one, behind it, and behind the second.
fn pieces_left(alloc: Global, regex: &Regex) -> Result<[(usize, Option<usize>); 3], AllocError> {
    let mut pieces = Regex::splitn(regex, alloc, Input::new(PIECES), 2)?;
    let first = pieces.size_hint();
    pieces.next();
    let second = pieces.size_hint();
    pieces.next();
    let third = pieces.size_hint();
    drop(pieces);
    Ok([first, second, third])
}

#[test]
fn pieces(rt: HostRuntime) -> Result<(), Fail> {
    let regex = Regex::new(rt.alloc(), ",")?;
    let left = pieces_left(rt.alloc(), &regex);
    drop(regex);
    assert!(rt; left == Ok([(0, Some(2)), (0, Some(1)), (0, Some(0))]));
    Ok(())
}

/// How many places a search of the text enters.
fn entered_by(alloc: Global, vm: &PikeVM, text: &[u8]) -> Result<u128, AllocError> {
    let mut captures = PikeVM::create_captures(vm, alloc)?;
    let mut cache = PikeVM::create_cache(vm, alloc)?;
    pikevm::search(vm, &mut cache, &mut Input::new(text), &mut captures);
    let entered = cache.insertions();
    drop(cache);
    drop(captures);
    Ok(entered)
}

/// The same of a pattern, and how many places its program has.
fn entered(alloc: Global, pattern: &str, text: &[u8]) -> Result<(u128, usize), BuildError> {
    let vm = PikeVM::new(alloc, pattern)?;
    let places = vm.states_len();
    let entered = entered_by(alloc, &vm, text);
    drop(vm);
    Ok((entered?, places))
}

/// Between the least number, which the match needs, and that of all places at each position and one more.
#[test]
fn places_entered(rt: HostRuntime) -> Result<(), Fail> {
    let one: &[u8] = b"x";
    let forty: &[u8] = b"aaaaaaaaaaaaaaaaaaaaaaaaaaaaaaaaaaaaaaaa";
    for (pattern, text, least, positions) in [("x*", one, 2, 3), ("(a*)*b", forty, 0, 42)] {
        let (entered, places) = entered(rt.alloc(), pattern, text)?;
        let most = (places as u128).saturating_mul(positions);
        assert!(rt; least <= entered && entered <= most, "{entered}");
    }
    Ok(())
}
