//! Touched lines: the lines of a text that spans of it touch, and those around them.
ghost use Rattle.std.specs.Prelude.{◌≡◌, ◌<◌, ◌≤◌, ◌&&◌, ◌+◌, ◌-◌, ◌*◌, ◌^◌, ℕ, IfErr, IfOk, IfSome, MatchOption, OnOk, cond, false, length, min, nat_lt, not, slice_get, slice_range, true};
ghost use Rattle.std.specs.Io.KnownBytes.{Keeps};
ghost use Rattle.grep_lines.specs.Ahead.{IsPlaced, IsSound};
ghost use Rattle.grep_lines.specs.Blocks.{IsBlockAt, IsPart, IsUntaken, TakesLinesAt};
ghost use Rattle.grep_lines.specs.Context.{HasLeft, IfPrint, IfRead, IsPrintFault, Prints, PrintsBeginning, printed, selected_count, unread};
ghost use Rattle.grep_lines.specs.Lines.{AreLinesOf};
ghost use Rattle.grep_lines.specs.Touched.{are_from, behind, is_touched, left_at, picks_touched};

use crate::block::Block;
use crate::context::{Extent, LinePrinter, PrintError, Progress};
use crate::pages::lines_before;
use crate::select::{LineSelector, next_line};
use crate::steps::{Plan, Taken};
use memchr::memchr;
use rc_text::types::Span;
use std::alloc::Global;
use std::io;
use std::io::{BufRead, ErrorKind};

/// The lines of a text that spans of it touch, or the others.
///
/// A span touches a line if it has a byte of the line or of its terminator. An empty one touches the
/// line of the byte behind it, or of the end of a text whose last line has no terminator.
#[derive(Drop)]
pub struct Touched<'s> {
    pub spans: &'s [Span],
    /// Whether the lines are those that no span touches.
    pub is_inverted: bool,
    ghost ordered: { are_from 0 spans.now ≡ true },
}

/// Whether no span begins before one that stands before it.
fn are_in_order(spans: &[Span]) -> bool
    ensures { result ≡ are_from 0 spans.now }
{
    let mut from = 0;
    let mut left = spans;
    while let Some((first, rest)) = left.split_first() {
        if first.start < from {
            return false;
        }
        from = first.start;
        left = rest;
    }
    true
}

impl<'s> Touched<'s> {
    /// Returns the lines that the spans touch, or the others. It is `None` if and only if a span
    /// begins before one that stands before it.
    pub fn new(spans: &'s [Span], is_inverted: bool) -> Option<Touched<'s>>
        ensures { MatchOption result (are_from 0 spans.now ≡ false)
            (λ t. (t.spans.now ≡ spans.now) × (t.is_inverted ≡ is_inverted)) }
    {
        if are_in_order(spans) {
            Some(Touched { spans, is_inverted })
        } else {
            None
        }
    }
}

/// Whether a span ends before a place. An empty one takes the byte behind it.
fn ends_before(span: Span, place: u128) -> bool
    ensures { result ≡ not (nat_lt place (behind span)) }
{
    let end = (span.end as u128).max(span.start as u128 + 1);
    end <= place
}

/// The spans from the first one on that doesn't end before a place. An empty span takes the byte
/// behind it.
pub fn spans_from(spans: &[Span], place: u128) -> &[Span]
    ensures { result.now ≡ left_at place spans.now }
{
    let mut left = spans;
    while let Some((first, rest)) = left.split_first() {
        if !ends_before(*first, place) {
            return left;
        }
        left = rest;
    }
    left
}

/// Whether a line is touched. The first of the spans doesn't end before it.
fn is_line_touched(spans: &[Span], place: u128, line: &[u8]) -> bool
    requires fits { place + length line.now < 2 ^ 128 }
    requires left { IfSome (slice_get spans.now 0) (λ s. place < behind s) }
    requires ordered { are_from 0 spans.now ≡ true }
    ensures { result ≡ is_touched spans.now place line.now }
{
    match spans.first() {
        Some(span) => span.start as u128 <= place + line.len() as u128,
        None => false,
    }
}

/// Whether a line is selected.
fn picks(is_inverted: bool, is_touched: bool) -> bool
    ensures { result ≡ cond is_inverted (not is_touched) is_touched }
{
    if is_inverted { !is_touched } else { is_touched }
}

/// How far a place of the text is behind another one, or `most` if it is farther.
fn distance(from: u128, to: u128, most: usize) -> usize
    ensures { result ≡ min (to - from) most }
{
    to.saturating_sub(from).min(most as u128) as usize
}

/// The place of the last byte that a span takes.
fn last_place(span: Span) -> u128
    ensures { result + 1 ≡ behind span }
{
    (span.end as u128).max(span.start as u128 + 1) - 1
}

/// A position in a page, such that the lines that end before it are all touched, or none is, and
/// whether they are. The page begins at this place, and the first of the spans doesn't end before it.
fn touched_until(spans: &[Span], place: u128, terminator: u8, page: &[u8]) -> (usize, bool)
    requires left { IfSome (slice_get spans.now 0) (λ s. place < behind s) }
    requires ordered { are_from 0 spans.now ≡ true }
    ensures within { result.0 ≤ length page.now }
    ensures alike { (start end : ℕ) → start ≤ end → end < result.0
        → AreLinesOf terminator page.now start end
        → is_touched spans.now (place + start) (slice_range page.now start end) ≡ result.1 }
{
    let Some(span) = spans.first() else {
        return (page.len(), false);
    };
    let before = distance(place, span.start as u128, page.len());
    if before > 0 {
        return (before, false);
    }
    let last = distance(place, last_place(*span), page.len());
    match memchr(terminator, &page[last..]) {
        Some(end) => (last + end + 1, true),
        None => (page.len(), true),
    }
}

/// Where reading a text stands.
#[derive(Clone, Copy)]
struct Front<'t, 's> {
    touched: &'t Touched<'s>,
    /// The spans that don't end before the next line.
    spans: &'s [Span],
    /// Where that line begins.
    place: u128,
    /// The number of selected lines before it.
    count: u64,
}

impl Front<'_, '_> {
    /// Whether the next line is selected, if no more than `most` are.
    fn selects_more(&self, line: &[u8], most: u64) -> bool
        requires fits { self.now.place + length line.now < 2 ^ 128 }
        requires left { self.now.spans.now ≡ left_at self.now.place self.now.touched.now.spans.now }
        ensures { result ≡ (picks_touched self.now.touched.now.is_inverted
            self.now.touched.now.spans.now self.now.place line.now
            && nat_lt 0 (most - self.now.count)) }
    {
        self.count < most
            && picks(
                self.touched.is_inverted,
                is_line_touched(self.spans, self.place, line),
            )
    }

    /// The first lines of a page that are all selected, or none of which is. There may be none.
    fn first_alike<'p>(&self, terminator: u8, page: &'p [u8]) -> Block<'p>
        requires left { self.now.spans.now ≡ left_at self.now.place self.now.touched.now.spans.now }
        ensures block { IsBlockAt terminator
            (picks_touched self.now.touched.now.is_inverted self.now.touched.now.spans.now)
            self.now.place result }
        ensures part { IsPart page.now result }
    {
        let (until, is_touched) = touched_until(self.spans, self.place, terminator, page);
        let (end, count) = lines_before(page, terminator, until);
        Block {
            text: &page[..end],
            count,
            is_selected: picks(self.touched.is_inverted, is_touched),
        }
    }
}

impl Progress {
    /// Takes the next lines of a reader that are whole in its page, if they are all selected, or none
    /// of them is. It is `None` if nothing was taken.
    fn take_touched<R: BufRead, S: LineSelector, P: LinePrinter<S>>(
        &mut self,
        reader: &mut R,
        selector: &mut S,
        printer: &mut P,
        plan: Plan,
        front: Front<'_, '_>,
        line: &mut Vec<u8>,
    ) -> Result<Option<Taken>, PrintError>
        requires sound { IsSound plan.extent self.old }
        requires placed { IsPlaced self.old }
        requires few { front.count ≤ plan.extent.most }
        requires left { front.spans.now ≡ left_at front.place front.touched.now.spans.now }
        requires near { front.place
            ≤ (self.old.next + length self.old.kept.items) * 18446744073709551616 }
        ensures ok { IfOk result (λ o. MatchOption o
            (IsUntaken self.old self.new (P.printed printer.old) (P.printed printer.new)
            × Keeps (R.remaining reader.old) (R.remaining reader.new))
            (λ taken. IfSome (R.remaining reader.old) (λ text. TakesLinesAt plan.terminator plan.extent
            (picks_touched front.entry.touched.now.is_inverted front.entry.touched.now.spans.now)
            self.old self.new (P.printed printer.old) (P.printed printer.new)
            front.entry.count taken.selected front.entry.place taken.len text (R.remaining reader.new)))) }
        ensures few { IfOk result (λ o. IfSome o (λ taken. front.entry.count + taken.selected
            ≤ plan.extent.most)) }
        ensures near { IfOk result (λ o. IfSome o (λ taken. front.entry.place + taken.len
            ≤ (self.new.next + length self.new.kept.items) * 18446744073709551616)) }
        ensures sound { OnOk result (IsSound plan.extent self.new) }
        ensures placed { OnOk result (IsPlaced self.new) }
        ensures unprinted { IfErr result (λ e. IfRead e
            (P.printed printer.new ≡ P.printed printer.old)) }
        ensures failed { IfErr result (λ e. IfPrint e (IsPrintFault P.fails_by)) }
        ensures same { S.selects selector.new ≡ S.selects selector.old }
    {
        let page = match reader.fill_buf() {
            Ok(page) => page,
            Err(fault) if fault.kind() == ErrorKind::Interrupted => return Ok(None),
            Err(fault) => return Err(PrintError::Read(fault)),
        };
        let block = front.first_alike(plan.terminator, page);
        let selected = block.selected();
        if block.count == 0
            || front.count >= plan.extent.most
            || selected > plan.extent.most - front.count
            || !self.has_room(block.count)
        {
            return Ok(None);
        }
        let len = block.text.len();
        if let Err(fault) = self.take_block(selector, printer, plan, block, line) {
            return Err(PrintError::Print(fault));
        }
        reader.consume(len);
        Ok(Some(Taken { len, selected }))
    }
}

/// Prints the lines of a reader's text that are touched, or the others, and those around them, each
/// once, and a separator between two that don't touch. Returns the number of selected lines.
///
/// It reads no further than to the last line that is printed if the greatest number of lines is
/// selected, and else to the end. It keeps as many lines as are printed before a selected one.
/// After an error of the reader the first of them were printed, as far as they were known. The
/// selector is lent to the printer.
pub fn print_touched<R: BufRead, S: LineSelector, P: LinePrinter<S>>(
    alloc: Global,
    reader: &mut R,
    touched: &Touched<'_>,
    selector: &mut S,
    printer: &mut P,
    terminator: u8,
    extent: Extent,
) -> Result<u64, PrintError>
    ensures printed { OnOk result (IfSome (R.remaining reader.old) (λ text.
        Prints (P.printed printer.old) (P.printed printer.new)
        (printed terminator extent
        (picks_touched touched.now.is_inverted touched.now.spans.now) text))) }
    ensures counted { IfOk result (λ count. IfSome (R.remaining reader.old) (λ text.
        count ≡ selected_count terminator
        (picks_touched touched.now.is_inverted touched.now.spans.now) extent.most text)) }
    ensures read { OnOk result (IfSome (R.remaining reader.old) (λ text.
        HasLeft terminator (R.remaining reader.new) (unread terminator extent
        (picks_touched touched.now.is_inverted touched.now.spans.now) text))) }
    ensures begun { IfErr result (λ e. IfRead e (IfSome (R.remaining reader.old) (λ text.
        PrintsBeginning terminator extent
        (picks_touched touched.now.is_inverted touched.now.spans.now)
        (P.printed printer.old) (P.printed printer.new) text))) }
    ensures failed { IfErr result (λ e. IfPrint e (IsPrintFault P.fails_by)) }
    ensures same { S.selects selector.new ≡ S.selects selector.old }
{
    let mut progress = Progress::new(alloc);
    let mut line = Vec::new(alloc);
    let plan = Plan { terminator, extent };
    let mut front = Front {
        touched,
        spans: touched.spans,
        place: 0,
        count: 0,
    };
    for _ in 0..u64::MAX {
        if front.count == extent.most && progress.left == 0 {
            return Ok(front.count);
        }
        if !progress.has_room(1) {
            break;
        }
        front.spans = spans_from(front.spans, front.place);
        let taken = progress.take_touched(reader, selector, printer, plan, front, &mut line)?;
        match taken {
            Some(taken) => {
                front.place += taken.len as u128;
                front.count += taken.selected;
                continue;
            }
            None => {}
        }
        match next_line(reader, terminator, &mut line) {
            Ok(true) => {}
            Ok(false) => return Ok(front.count),
            Err(fault) => return Err(PrintError::Read(fault)),
        }
        let is_selected = front.selects_more(&line, extent.most);
        front.place += line.len() as u128 + 1;
        front.count += u64::from(is_selected);
        if let Err(fault) = progress.take(selector, printer, extent, is_selected, &mut line) {
            return Err(PrintError::Print(fault));
        }
    }
    Err(PrintError::Read(io::Error::from(ErrorKind::Other)))
}
