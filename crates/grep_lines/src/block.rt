//! Blocks: whole lines at the beginning of a page that are all selected, or none of which is.
ghost use Rattle.std.specs.Prelude.{◌≡◌, ◌≤◌, ◌<◌, ◌+◌};
ghost use Rattle.grep_lines.specs.Blocks.{ArePartsOf, IsBlock, IsPart, selected_in};

use crate::pages::lines_before;
use crate::select::LineSelector;
use memchr::memchr;

/// Whole lines, each with its terminator. They are all selected, or none is.
#[derive(Clone, Copy)]
pub(crate) struct Block<'p> {
    pub text: &'p [u8],
    /// The number of lines.
    pub count: u64,
    pub is_selected: bool,
}

impl Block<'_> {
    /// How many of the lines are selected.
    pub(crate) fn selected(&self) -> u64
        ensures { result ≡ selected_in self.now }
    {
        if self.is_selected { self.count } else { 0 }
    }
}

/// The first line of a text, if it has a terminator, or else no line.
fn whole_line<'p, S: LineSelector>(selector: &mut S, terminator: u8, text: &'p [u8]) -> Block<'p>
    ensures block { IsBlock terminator (S.selects selector.old) result }
    ensures part { IsPart text.now result }
    ensures one { result.count ≤ 1 }
    ensures same { S.selects selector.new ≡ S.selects selector.old }
{
    let Some(end) = memchr(terminator, text) else {
        return Block {
            text: &[],
            count: 0,
            is_selected: false,
        };
    };
    Block {
        text: &text[..end + 1],
        count: 1,
        is_selected: selector.selects(&text[..end]),
    }
}

/// The first lines of a page: a block, and a line behind it. Either may lack. No more than `most` of
/// the lines are selected.
#[inline(always)]
pub(crate) fn first_lines<'p, S: LineSelector>(
    selector: &mut S,
    terminator: u8,
    page: &'p [u8],
    most: u64,
) -> (Block<'p>, Block<'p>)
    requires some { 0 < most }
    ensures first { IsBlock terminator (S.selects selector.old) result.0 }
    ensures second { IsBlock terminator (S.selects selector.old) result.1 }
    ensures parts { ArePartsOf page.now result.0 result.1 }
    ensures few { selected_in result.0 + selected_in result.1 ≤ most }
    ensures last { selected_in result.0 + selected_in result.1 ≡ most → 0 < selected_in result.1 }
    ensures same { S.selects selector.new ≡ S.selects selector.old }
{
    let stretch = selector.next_stretch(terminator, page);
    let (end, count) = lines_before(page, terminator, stretch.place);
    if stretch.is_selected && count >= most {
        let none = Block {
            text: &[],
            count: 0,
            is_selected: false,
        };
        return (none, whole_line(selector, terminator, page));
    }
    let first = Block {
        text: &page[..end],
        count,
        is_selected: stretch.is_selected,
    };
    match stretch.turn {
        Some(turn) => {
            let line = Block {
                text: &page[end..turn + 1],
                count: 1,
                is_selected: !stretch.is_selected,
            };
            (first, line)
        }
        None => (first, whole_line(selector, terminator, &page[end..])),
    }
}
