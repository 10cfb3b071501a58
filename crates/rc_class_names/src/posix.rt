//! POSIX classes, as `[:alpha:]`.

ghost use Rattle.std.specs.Prelude.{◌≡◌, IfOk};
ghost use Rattle.rc_tokens.specs.ClassView.{pairs};
ghost use Rattle.rc_tokens.specs.Text.{same_text};
ghost use Rattle.rc_class_sets.specs.Sets.{AreRangesOf};
ghost use Rattle.rc_class_names.specs.Posix.{posix_name, posix_named, posix_ranges, posix_set};

use rc_class_sets::sets::in_order;
use rc_tokens::classes::CodeRange;
use std::alloc::{AllocError, Global};

/// A POSIX class: a set of ASCII characters.
#[derive(Clone, Copy, Debug, PartialEq, Eq)]
pub enum Posix {
    /// Letters and digits.
    Alnum,
    /// Letters.
    Alpha,
    /// All of ASCII.
    Ascii,
    /// The tab and the space.
    Blank,
    /// Control characters.
    Cntrl,
    /// `0` to `9`.
    Digit,
    /// All that is seen: `!` to `~`.
    Graph,
    /// `a` to `z`.
    Lower,
    /// The space, and all that is seen.
    Print,
    /// All that is seen, but letters and digits.
    Punct,
    /// U+0009 to U+000D, and the space.
    Space,
    /// `A` to `Z`.
    Upper,
    /// Letters, digits and `_`.
    Word,
    /// Hexadecimal digits.
    Xdigit,
}

const CLASSES: [Posix; 14] = [
    Posix::Alnum,
    Posix::Alpha,
    Posix::Ascii,
    Posix::Blank,
    Posix::Cntrl,
    Posix::Digit,
    Posix::Graph,
    Posix::Lower,
    Posix::Print,
    Posix::Punct,
    Posix::Space,
    Posix::Upper,
    Posix::Word,
    Posix::Xdigit,
];

/// Whether the two texts are equal.
fn is_same(text: &[char], other: &[char]) -> bool
    ensures { result ≡ same_text text.now other.now }
{
    if text.len() != other.len() {
        return false;
    }
    for i in 0..text.len() {
        if text[i] != other[i] {
            return false;
        }
    }
    true
}

impl Posix {
    /// The name between the colons.
    fn name(self) -> &'static [char]
        ensures { result.now ≡ posix_name self }
    {
        match self {
            Posix::Alnum => &['a', 'l', 'n', 'u', 'm'],
            Posix::Alpha => &['a', 'l', 'p', 'h', 'a'],
            Posix::Ascii => &['a', 's', 'c', 'i', 'i'],
            Posix::Blank => &['b', 'l', 'a', 'n', 'k'],
            Posix::Cntrl => &['c', 'n', 't', 'r', 'l'],
            Posix::Digit => &['d', 'i', 'g', 'i', 't'],
            Posix::Graph => &['g', 'r', 'a', 'p', 'h'],
            Posix::Lower => &['l', 'o', 'w', 'e', 'r'],
            Posix::Print => &['p', 'r', 'i', 'n', 't'],
            Posix::Punct => &['p', 'u', 'n', 'c', 't'],
            Posix::Space => &['s', 'p', 'a', 'c', 'e'],
            Posix::Upper => &['u', 'p', 'p', 'e', 'r'],
            Posix::Word => &['w', 'o', 'r', 'd'],
            Posix::Xdigit => &['x', 'd', 'i', 'g', 'i', 't'],
        }
    }

    /// The class with the name.
    pub fn named(name: &[char]) -> Option<Posix>
        ensures { result ≡ posix_named name.now }
    {
        for i in 0..CLASSES.len() {
            let class = CLASSES[i];
            if is_same(name, class.name()) {
                return Some(class);
            }
        }
        None
    }

    fn ranges(self) -> &'static [(u32, u32)]
        ensures { result.now ≡ posix_ranges self }
    {
        match self {
            Posix::Alnum => &[(48, 57), (65, 90), (97, 122)],
            Posix::Alpha => &[(65, 90), (97, 122)],
            Posix::Ascii => &[(0, 127)],
            Posix::Blank => &[(9, 9), (32, 32)],
            Posix::Cntrl => &[(0, 31), (127, 127)],
            Posix::Digit => &[(48, 57)],
            Posix::Graph => &[(33, 126)],
            Posix::Lower => &[(97, 122)],
            Posix::Print => &[(32, 126)],
            Posix::Punct => &[(33, 47), (58, 64), (91, 96), (123, 126)],
            Posix::Space => &[(9, 13), (32, 32)],
            Posix::Upper => &[(65, 90)],
            Posix::Word => &[(48, 57), (65, 90), (95, 95), (97, 122)],
            Posix::Xdigit => &[(48, 57), (65, 70), (97, 102)],
        }
    }
}

/// Ranges of codes, each from its first code to its last.
pub fn code_ranges(alloc: Global, ranges: &[(u32, u32)]) -> Result<Vec<CodeRange>, AllocError>
    ensures { IfOk result (λ v. pairs v.items ≡ ranges.now) }
{
    let mut all = Vec::new(alloc);
    for i in 0..ranges.len() {
        let (start, end) = ranges[i];
        all.push(CodeRange { start, end })?;
    }
    Ok(all)
}

/// The characters, or the bytes, of a POSIX class.
pub fn posix_class(alloc: Global, unicode: bool, class: Posix) -> Result<Vec<CodeRange>, AllocError>
    ensures { IfOk result (λ v. AreRangesOf unicode (posix_set class) (pairs v.items)) }
{
    let ranges = code_ranges(alloc, class.ranges())?;
    in_order(alloc, unicode, &ranges)
}
