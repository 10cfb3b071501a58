//! Page scan: the whole lines at the beginning of a page.
ghost use Rattle.std.specs.Prelude.{◌≡◌, ◌≤◌, drop, length, take};
ghost use Rattle.std.specs.List.{filter};
ghost use Rattle.grep_lines.specs.Lines.{lines};
ghost use Rattle.grep_lines.specs.Pages.{AreLinesBefore, IsWhole, ends_line};

use memchr::memrchr;

/// The number of bytes that are counted together. So many have a count that fits into a byte.
const FEW: usize = 224;

/// The number of terminators in a few bytes. Vectors count in bytes, 16 at once.
fn count_few(bytes: &[u8], terminator: u8) -> u8
    requires { length bytes.now ≤ 224 }
    ensures { result ≡ length (filter (ends_line terminator) bytes.now) }
{
    let mut count: u8 = 0;
    for byte in bytes {
        if *byte == terminator {
            count += 1;
        }
    }
    count
}

/// The number of terminators.
fn count_terminators(bytes: &[u8], terminator: u8) -> u64
    ensures { result ≡ length (filter (ends_line terminator) bytes.now) }
{
    let mut count: u64 = 0;
    let mut left = bytes;
    while !left.is_empty() {
        let (few, rest) = left.split_at(left.len().min(FEW));
        count += count_few(few, terminator) as u64;
        left = rest;
    }
    count
}

/// Of the lines of a page that end before a position: where the last one ends, with its terminator,
/// and how many there are.
pub fn lines_before(page: &[u8], terminator: u8, place: usize) -> (usize, u64)
    requires { place ≤ length page.now }
    ensures { AreLinesBefore terminator page.now place result.0 result.1 }
{
    let Some(last) = memrchr(terminator, &page[..place]) else {
        return (0, 0);
    };
    let end = last + 1;
    (end, count_terminators(&page[..end], terminator))
}

/// Where the last lines of whole ones begin, as many as `count`.
#[inline(always)]
pub(crate) fn last_lines(text: &[u8], terminator: u8, count: usize) -> usize
    requires whole { IsWhole terminator text.now }
    requires many { count ≤ length (lines terminator text.now) }
    ensures within { result ≤ length text.now }
    ensures whole { IsWhole terminator (take result text.now) }
    ensures counted { length (lines terminator (drop result text.now)) ≡ count }
{
    let mut end = text.len();
    for _ in 0..count {
        end = match memrchr(terminator, &text[..end - 1]) {
            Some(last) => last + 1,
            None => 0,
        };
    }
    end
}
