//! Alphabet: the bytes that no pattern reads, so that no match contains them.
ghost use Rattle.std.specs.Prelude.{◌≡◌, ◌&&◌, ◌<◌, ◌≤◌, ℕ, List, length, map, nat_le, nat_lt, not};
ghost use Rattle.rc_pattern.specs.Meaning.{alt_all, byte_range, char_range, class_meaning, meaning};
ghost use Rattle.rc_pattern.specs.Re.{byte_in, char_in};
ghost use Rattle.rc_program.specs.Text.{Text};
ghost use Rattle.rc_literals.specs.Needs.{LeavesOut, is_stop};
ghost use Rattle.rc_literals.specs.Stops.{Leaves, among, reads};

use rc_pattern::hir::{Class, ClassBytesRange, ClassUnicodeRange, Hir, HirKind};

/// Stop bytes: for each byte, whether no match contains it.
#[derive(Drop)]
pub struct Stops {
    pub table: [bool; 256],
}

/// Returns the bytes that none of the patterns reads.
///
/// If a class has a character above 127, each byte above 127 counts as read. It takes time linear
/// in the patterns' size, allocates nothing, and recurses as deep as a pattern is nested.
pub fn stops_of(hirs: &[Hir]) -> Stops
    ensures value { (b : ℕ) → is_stop result.table b
        ≡ (nat_lt b 256 && not (reads (alt_all (map meaning hirs.now)) b)) }
    ensures leaves { (t : Text) → LeavesOut t (map meaning hirs.now) result.table }
{
    let mut table = [true; 256];
    pass_each(hirs, &mut table);
    Stops { table }
}

/// Removes the bytes that the pattern reads from the set.
#[cycle(pass)]
fn pass(hir: &Hir, table: &mut [bool; 256])
    ensures { Leaves table.old table.new (reads (meaning hir.now)) }
{
    match hir.kind() {
        HirKind::Empty | HirKind::Look(_) => {}
        HirKind::Literal(bytes) => pass_bytes(bytes, table),
        HirKind::Class(class) => pass_class(class, table),
        HirKind::Repetition(repetition) => pass(&repetition.sub, table),
        HirKind::Capture(capture) => pass(&capture.sub, table),
        HirKind::Concat(subs) | HirKind::Alternation(subs) => pass_each(subs, table),
    }
}

/// Removes the bytes that each of the patterns reads from the set.
#[cycle(pass)]
fn pass_each(subs: &[Hir], table: &mut [bool; 256])
    ensures { Leaves table.old table.new (reads (alt_all (map meaning subs.now))) }
{
    for sub in subs {
        pass(sub, table);
    }
}

/// Removes the bytes of a literal from the set.
fn pass_bytes(bytes: &[u8], table: &mut [bool; 256])
    ensures { Leaves table.old table.new (among bytes.now) }
{
    for byte in bytes {
        table[*byte as usize] = false;
    }
}

/// Removes the bytes of a class from the set.
fn pass_class(class: &Class, table: &mut [bool; 256])
    ensures { Leaves table.old table.new (reads (class_meaning class.now)) }
{
    match class {
        Class::Bytes(ranges) => pass_byte_ranges(ranges, table),
        Class::Unicode(ranges) => pass_char_ranges(ranges, table),
    }
}

/// Removes each byte of the ranges from the set.
fn pass_byte_ranges(ranges: &[ClassBytesRange], table: &mut [bool; 256])
    ensures { Leaves table.old table.new (reads (byte_in (map byte_range ranges.now))) }
{
    for range in ranges {
        pass_span(range.start as usize, range.end as usize + 1, table);
    }
}

/// Removes the bytes of each character of the ranges from the set: the character itself if it is
/// below 128, else all bytes from 128 on.
fn pass_char_ranges(ranges: &[ClassUnicodeRange], table: &mut [bool; 256])
    ensures { Leaves table.old table.new (reads (char_in (map char_range ranges.now))) }
{
    let mut is_far = false;
    for range in ranges {
        let end = range.end as usize + 1;
        pass_span(range.start as usize, end.min(128), table);
        is_far |= end > 128;
    }
    if is_far {
        pass_span(128, 256, table);
    }
}

/// Removes the bytes from `from` to `to`, excluded, from the set.
fn pass_span(from: usize, to: usize, table: &mut [bool; 256])
    requires { to ≤ 256 }
    ensures { Leaves table.old table.new (λ b. nat_le from b && nat_lt b to) }
{
    for byte in from..to {
        table[byte] = false;
    }
}
