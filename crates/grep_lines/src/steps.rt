//! Steps: the next lines of a reader, blocks of its page where that is possible, are printed or kept.
ghost use Rattle.std.specs.Prelude.{◌≡◌, ◌≤◌, ◌<◌, ◌+◌, ◌-◌, ◌^◌, ◌++◌, ◌∷◌, ℕ, [], IfErr, IfOk, IfSome, IsTrue, List, MatchOption, None, OnOk, Option, cond, length, map, nat_lt, take, true, false, ◌&&◌};
ghost use Rattle.std.specs.IoError.{error_kind};
ghost use Rattle.grep_lines.specs.Ahead.{Advances, IsPlaced, IsSound, contents, plain};
ghost use Rattle.grep_lines.specs.Blocks.{AdvancesBy, IsAtEnd, IsBlock, IsUntaken, TakesFront, TakesLines, marked_as, selected_in};
ghost use Rattle.std.specs.Io.KnownBytes.{Keeps};
ghost use Rattle.grep_lines.specs.Context.{IfPrint, IfRead, IsPrintFault, Part, Prints, selected_parts, size_of};
ghost use Rattle.grep_lines.specs.Lines.{lines};
ghost use Rattle.grep_lines.specs.Pages.{IsWhole};

use crate::block::{Block, first_lines};
use crate::context::{Extent, LinePrinter, PrintError, Progress};
use crate::pages::last_lines;
use crate::select::{LineSelector, next_line};
use memchr::memchr;
use std::io;
use std::io::{BufRead, ErrorKind};

/// In which byte lines end, and how many are printed.
#[derive(Clone, Copy)]
pub(crate) struct Plan {
    pub terminator: u8,
    pub extent: Extent,
}

/// What was taken of a page.
#[derive(Clone, Copy)]
pub(crate) struct Taken {
    /// The number of bytes.
    pub len: usize,
    /// The number of selected lines in them.
    pub selected: u64,
}

/// Whether a line is selected, behind `count` selected ones.
fn selects_more<S: LineSelector>(selector: &mut S, line: &[u8], count: u64, most: u64) -> bool
    ensures value { result ≡ (S.selects selector.old line.now && nat_lt 0 (most - count)) }
    ensures same { S.selects selector.new ≡ S.selects selector.old }
{
    count < most && selector.selects(line)
}

/// Prints selected lines, one behind another, each with its terminator. The first one has this
/// number, and begins at this place of the text.
#[inline(always)]
fn print_each<S: LineSelector, P: LinePrinter<S>>(
    selector: &mut S,
    printer: &mut P,
    first: u64,
    begin: u128,
    terminator: u8,
    text: &[u8],
) -> io::Result<()>
    requires whole { IsWhole terminator text.now }
    requires fits { first + length (lines terminator text.now) < 2 ^ 64 }
    requires placed { begin + length text.now < 2 ^ 128 }
    ensures ok { OnOk result (Prints (P.printed printer.old) (P.printed printer.new)
        (selected_parts first begin (lines terminator text.now))) }
    ensures failed { IfErr result P.fails_by }
    ensures same { S.selects selector.new ≡ S.selects selector.old }
{
    if printer.print_lines(selector, first, begin, terminator, text)? {
        return Ok(());
    }
    let mut number = first;
    let mut place = begin;
    let mut left = text;
    while let Some(end) = memchr(terminator, left) {
        printer.print_line(selector, number, place, true, &left[..end])?;
        number += 1;
        place += end as u128 + 1;
        left = &left[end + 1..];
    }
    Ok(())
}

impl Progress {
    /// Whether so many lines more can be numbered.
    pub(crate) fn has_room(&self, count: u64) -> bool
        ensures { IsTrue result → self.now.next + length self.now.kept.items + count < 2 ^ 64 }
    {
        match (u64::MAX - self.next).checked_sub(self.kept.len() as u64) {
            Some(room) => count <= room,
            None => false,
        }
    }

    /// Passes over the lines that are kept, and over so many whole lines behind them.
    #[inline(always)]
    fn pass(&mut self, text: &[u8], count: u64)
        requires some { 0 < count }
        requires fits { self.old.next + length self.old.kept.items + count < 2 ^ 64 }
        requires placed { IsPlaced self.old }
        ensures none_kept { self.new.kept.items ≡ [] }
        ensures next { self.new.next ≡ self.old.next + length self.old.kept.items + count }
        ensures place { self.new.place ≡ self.old.place
            + size_of (map plain (contents self.old.kept.items)) + length text.now }
        ensures left { self.new.left ≡ self.old.left }
        ensures behind { self.new.behind ≡ self.old.behind }
        ensures placed { IsPlaced self.new }
    {
        while let Some(line) = self.kept.pop_front() {
            self.place += line.len() as u128 + 1;
            self.next += 1;
        }
        self.next += count;
        self.place += text.len() as u128;
    }

    /// Keeps whole lines of which none is selected, behind those that are kept.
    #[inline(always)]
    fn keep_each(&mut self, terminator: u8, text: &[u8]) -> io::Result<()>
        requires whole { IsWhole terminator text.now }
        ensures kept { OnOk result (contents self.new.kept.items
            ≡ contents self.old.kept.items ++ lines terminator text.now) }
        ensures next { self.new.next ≡ self.old.next }
        ensures place { self.new.place ≡ self.old.place }
        ensures left { self.new.left ≡ self.old.left }
        ensures behind { self.new.behind ≡ self.old.behind }
        ensures failed { IfErr result (λ e. error_kind e ≡ ErrorKind.OutOfMemory) }
    {
        let mut left = text;
        while let Some(end) = memchr(terminator, left) {
            let line = Vec::from_slice(self.alloc, &left[..end])?;
            self.kept.push_back(line)?;
            left = &left[end + 1..];
        }
        Ok(())
    }

    /// Keeps the last ones of whole lines of which none is selected, and none is context of a line
    /// before, and passes over the others. There are more of them than are kept.
    #[inline(always)]
    fn keep_last(&mut self, plan: Plan, text: &[u8], count: u64) -> io::Result<()>
        requires counted { count ≡ length (lines plan.terminator text.now) }
        requires whole { IsWhole plan.terminator text.now }
        requires fits { self.old.next + length self.old.kept.items + count < 2 ^ 64 }
        requires placed { IsPlaced self.old }
        requires idle { self.old.left ≡ 0 }
        requires many { plan.extent.before < count }
        ensures ok { OnOk result ((printed : Option (List Part)) → AdvancesBy plan.extent
            self.old self.new printed printed (marked_as false (lines plan.terminator text.now))) }
        ensures sound { OnOk result (IsSound plan.extent self.new) }
        ensures placed { OnOk result (IsPlaced self.new) }
        ensures next { OnOk result (self.new.next + length self.new.kept.items
            ≡ self.old.next + length self.old.kept.items + count) }
        ensures failed { IfErr result (λ e. error_kind e ≡ ErrorKind.OutOfMemory) }
    {
        let end = last_lines(text, plan.terminator, plan.extent.before);
        self.pass(&text[..end], count - plan.extent.before as u64);
        self.keep_each(plan.terminator, &text[end..])?;
        Ok(())
    }

    /// Takes whole lines of which none is selected, one by one, as far as they are context
    /// or few.
    #[inline(never)]
    fn take_each<S: LineSelector, P: LinePrinter<S>>(
        &mut self,
        selector: &mut S,
        printer: &mut P,
        plan: Plan,
        text: &[u8],
        count: u64,
        line: &mut Vec<u8>,
    ) -> io::Result<()>
        requires counted { count ≡ length (lines plan.terminator text.now) }
        requires whole { IsWhole plan.terminator text.now }
        requires fits { self.old.next + length self.old.kept.items + count < 2 ^ 64 }
        requires sound { IsSound plan.extent self.old }
        requires placed { IsPlaced self.old }
        ensures ok { OnOk result (AdvancesBy plan.extent self.old self.new (P.printed printer.old)
            (P.printed printer.new) (marked_as false (lines plan.terminator text.now))) }
        ensures sound { OnOk result (IsSound plan.extent self.new) }
        ensures placed { OnOk result (IsPlaced self.new) }
        ensures next { OnOk result (self.new.next + length self.new.kept.items
            ≡ self.old.next + length self.old.kept.items + count) }
        ensures failed { IfErr result (IsPrintFault P.fails_by) }
        ensures same { S.selects selector.new ≡ S.selects selector.old }
    {
        let mut left = text;
        let mut rest = count;
        while let Some(end) = memchr(plan.terminator, left) {
            if self.left == 0 && rest > plan.extent.before as u64 {
                self.keep_last(plan, left, rest)?;
                return Ok(());
            }
            line.clear();
            line.extend_from_slice(&left[..end])?;
            self.take(selector, printer, plan.extent, false, line)?;
            left = &left[end + 1..];
            rest -= 1;
        }
        Ok(())
    }

    /// Takes whole lines of which none is selected.
    #[inline(always)]
    fn take_unselected<S: LineSelector, P: LinePrinter<S>>(
        &mut self,
        selector: &mut S,
        printer: &mut P,
        plan: Plan,
        text: &[u8],
        count: u64,
        line: &mut Vec<u8>,
    ) -> io::Result<()>
        requires counted { count ≡ length (lines plan.terminator text.now) }
        requires whole { IsWhole plan.terminator text.now }
        requires fits { self.old.next + length self.old.kept.items + count < 2 ^ 64 }
        requires sound { IsSound plan.extent self.old }
        requires placed { IsPlaced self.old }
        ensures ok { OnOk result (AdvancesBy plan.extent self.old self.new (P.printed printer.old)
            (P.printed printer.new) (marked_as false (lines plan.terminator text.now))) }
        ensures sound { OnOk result (IsSound plan.extent self.new) }
        ensures placed { OnOk result (IsPlaced self.new) }
        ensures next { OnOk result (self.new.next + length self.new.kept.items
            ≡ self.old.next + length self.old.kept.items + count) }
        ensures failed { IfErr result (IsPrintFault P.fails_by) }
        ensures same { S.selects selector.new ≡ S.selects selector.old }
    {
        if self.left == 0 && count > plan.extent.before as u64 {
            self.keep_last(plan, text, count)?;
            return Ok(());
        }
        self.take_each(selector, printer, plan, text, count, line)
    }

    /// Prints selected lines, behind a separator if they don't touch the last one.
    #[inline(always)]
    fn print_block<S: LineSelector, P: LinePrinter<S>>(
        &mut self,
        selector: &mut S,
        printer: &mut P,
        plan: Plan,
        block: Block<'_>,
    ) -> io::Result<()>
        requires some { 0 < block.count }
        requires counted { block.count ≡ length (lines plan.terminator block.text.now) }
        requires whole { IsWhole plan.terminator block.text.now }
        requires fits { self.old.next + block.count < 2 ^ 64 }
        requires placed { IsPlaced self.old }
        requires none_kept { self.old.kept.items ≡ [] }
        ensures ok { OnOk result (AdvancesBy plan.extent self.old self.new (P.printed printer.old)
            (P.printed printer.new) (marked_as true (lines plan.terminator block.entry.text.now))) }
        ensures sound { OnOk result (IsSound plan.extent self.new) }
        ensures placed { OnOk result (IsPlaced self.new) }
        ensures next { OnOk result (self.new.next ≡ self.old.next + block.entry.count) }
        ensures none_kept { self.new.kept.items ≡ [] }
        ensures left { OnOk result (self.new.left ≡ plan.extent.after) }
        ensures failed { IfErr result P.fails_by }
        ensures same { S.selects selector.new ≡ S.selects selector.old }
    {
        if let Some(behind) = self.behind {
            if behind != self.next {
                printer.print_separator()?;
            }
        }
        print_each(
            selector,
            printer,
            self.next,
            self.place,
            plan.terminator,
            block.text,
        )?;
        self.place += block.text.len() as u128;
        self.next += block.count;
        self.behind = Some(self.next);
        self.left = plan.extent.after;
        Ok(())
    }

    /// Takes a block of lines.
    #[inline(always)]
    pub(crate) fn take_block<S: LineSelector, P: LinePrinter<S>>(
        &mut self,
        selector: &mut S,
        printer: &mut P,
        plan: Plan,
        block: Block<'_>,
        line: &mut Vec<u8>,
    ) -> io::Result<()>
        requires counted { block.count ≡ length (lines plan.terminator block.text.now) }
        requires whole { IsWhole plan.terminator block.text.now }
        requires fits { self.old.next + length self.old.kept.items + block.count < 2 ^ 64 }
        requires sound { IsSound plan.extent self.old }
        requires placed { IsPlaced self.old }
        ensures ok { OnOk result (AdvancesBy plan.extent self.old self.new (P.printed printer.old)
            (P.printed printer.new)
            (marked_as block.entry.is_selected (lines plan.terminator block.entry.text.now))) }
        ensures sound { OnOk result (IsSound plan.extent self.new) }
        ensures left { OnOk result (block.entry.is_selected ≡ true → 0 < block.entry.count
            → self.new.left ≡ plan.extent.after) }
        ensures placed { OnOk result (IsPlaced self.new) }
        ensures next { OnOk result (self.new.next + length self.new.kept.items
            ≡ self.old.next + length self.old.kept.items + block.entry.count) }
        ensures failed { IfErr result (IsPrintFault P.fails_by) }
        ensures same { S.selects selector.new ≡ S.selects selector.old }
    {
        if block.count == 0 {
            return Ok(());
        }
        if !block.is_selected {
            self.take_unselected(selector, printer, plan, block.text, block.count, line)?;
            return Ok(());
        }
        self.print_kept(selector, printer, plan.extent)?;
        self.print_block(selector, printer, plan, block)?;
        Ok(())
    }

    /// Takes the first lines of a page that are whole in it, behind `count` selected lines. It is
    /// `None` if nothing was taken.
    #[inline(always)]
    fn take_page<S: LineSelector, P: LinePrinter<S>>(
        &mut self,
        selector: &mut S,
        printer: &mut P,
        plan: Plan,
        page: &[u8],
        count: u64,
        line: &mut Vec<u8>,
    ) -> io::Result<Option<Taken>>
        requires sound { IsSound plan.extent self.old }
        requires placed { IsPlaced self.old }
        ensures ok { IfOk result (λ o. MatchOption o
            (IsUntaken self.old self.new (P.printed printer.old) (P.printed printer.new))
            (λ taken. TakesFront plan.terminator plan.extent (S.selects selector.old) self.old
            self.new (P.printed printer.old) (P.printed printer.new) count taken.selected
            (take taken.len page.now))) }
        ensures within { IfOk result (λ o. IfSome o (λ taken. (taken.len ≤ length page.now)
            × (count + taken.selected ≤ plan.extent.most))) }
        ensures sound { OnOk result (IsSound plan.extent self.new) }
        ensures placed { OnOk result (IsPlaced self.new) }
        ensures failed { IfErr result (IsPrintFault P.fails_by) }
        ensures same { S.selects selector.new ≡ S.selects selector.old }
    {
        if count >= plan.extent.most {
            return Ok(None);
        }
        let most = plan.extent.most - count;
        let (first, second) = first_lines(selector, plan.terminator, page, most);
        match first.count.checked_add(second.count) {
            Some(lines) if lines > 0 && self.has_room(lines) => {}
            _ => return Ok(None),
        }
        self.take_block(selector, printer, plan, first, line)?;
        self.take_block(selector, printer, plan, second, line)?;
        Ok(Some(Taken {
            len: first.text.len() + second.text.len(),
            selected: first.selected() + second.selected(),
        }))
    }

    /// Takes the next lines of a reader that are whole in its page, behind `count` selected lines.
    /// Returns how many of them are selected, or `None` if nothing was taken.
    #[inline(always)]
    fn take_buffered<R: BufRead, S: LineSelector, P: LinePrinter<S>>(
        &mut self,
        reader: &mut R,
        selector: &mut S,
        printer: &mut P,
        plan: Plan,
        count: u64,
        line: &mut Vec<u8>,
    ) -> Result<Option<u64>, PrintError>
        requires sound { IsSound plan.extent self.old }
        requires placed { IsPlaced self.old }
        ensures ok { IfOk result (λ o. MatchOption o
            (IsUntaken self.old self.new (P.printed printer.old) (P.printed printer.new)
            × Keeps (R.remaining reader.old) (R.remaining reader.new))
            (λ more. IfSome (R.remaining reader.old) (λ text.
            TakesLines plan.terminator plan.extent (S.selects selector.old) self.old self.new
            (P.printed printer.old) (P.printed printer.new) count more text
            (R.remaining reader.new)))) }
        ensures few { IfOk result (λ o. IfSome o (λ more. count + more ≤ plan.extent.most)) }
        ensures sound { OnOk result (IsSound plan.extent self.new) }
        ensures placed { OnOk result (IsPlaced self.new) }
        ensures unprinted { IfErr result (λ e. IfRead e
            (P.printed printer.new ≡ P.printed printer.old)) }
        ensures failed { IfErr result (λ e. IfPrint e (IsPrintFault P.fails_by)) }
        ensures same { S.selects selector.new ≡ S.selects selector.old }
    {
        let page = match reader.fill_buf() {
            Ok(page) => page,
            Err(fault) if fault.kind() == ErrorKind::Interrupted => return Ok(None),
            Err(fault) => return Err(PrintError::Read(fault)),
        };
        let taken = match self.take_page(selector, printer, plan, page, count, line) {
            Ok(taken) => taken,
            Err(fault) => return Err(PrintError::Print(fault)),
        };
        let Some(Taken { len, selected }) = taken else {
            return Ok(None);
        };
        reader.consume(len);
        Ok(Some(selected))
    }

    /// Passes over a line of so many bytes. No line is kept.
    fn pass_line(&mut self, extent: Extent, is_selected: bool, len: u64)
        requires none_before { extent.before ≡ 0 }
        requires fits { self.old.next + length self.old.kept.items + 1 < 2 ^ 64 }
        requires sound { IsSound extent self.old }
        requires placed { IsPlaced self.old }
        ensures passed { (line : List ℕ) → len ≡ length line → Advances extent self.old self.new
            None None (record { line = line; selected = is_selected }) }
        ensures sound { IsSound extent self.new }
        ensures left { self.new.left ≡ cond is_selected extent.after (self.old.left - 1) }
        ensures placed { IsPlaced self.new }
    {
        self.place += u128::from(len) + 1;
        self.next += 1;
        if is_selected {
            self.behind = Some(self.next);
            self.left = extent.after;
        } else if self.left > 0 {
            self.behind = Some(self.next);
            self.left -= 1;
        }
    }

    /// Takes the next line of a reader as `take_next` does, where no line is printed or kept.
    fn pass_next<R: BufRead, S: LineSelector>(
        &mut self,
        reader: &mut R,
        selector: &mut S,
        plan: Plan,
        count: u64,
        line: &mut Vec<u8>,
    ) -> io::Result<Option<u64>>
        requires none_before { plan.extent.before ≡ 0 }
        requires fits { self.old.next + length self.old.kept.items + 1 < 2 ^ 64 }
        requires sound { IsSound plan.extent self.old }
        requires placed { IsPlaced self.old }
        requires few { count ≤ plan.extent.most }
        requires context { count ≡ plan.extent.most → 0 < self.old.left }
        ensures ok { IfOk result (λ o. IfSome (R.remaining reader.old) (λ text. MatchOption o
            (IsAtEnd plan.terminator self.old self.new None None text (R.remaining reader.new))
            (λ more. TakesLines plan.terminator plan.extent (S.selects selector.old) self.old
            self.new None None count more text (R.remaining reader.new)))) }
        ensures few { IfOk result (λ o. IfSome o (λ more. count + more ≤ plan.extent.most)) }
        ensures sound { OnOk result (IsSound plan.extent self.new) }
        ensures placed { OnOk result (IsPlaced self.new) }
        ensures same { S.selects selector.new ≡ S.selects selector.old }
    {
        let Some(passed) = selector.read_next(reader, plan.terminator, line)? else {
            return Ok(None);
        };
        let is_selected = passed.is_selected && count < plan.extent.most;
        self.pass_line(plan.extent, is_selected, passed.len);
        Ok(Some(u64::from(is_selected)))
    }

    /// Takes the next line of a reader, behind `count` selected lines. Returns how many of it is
    /// selected, none or one, or `None` at the end.
    fn take_next<R: BufRead, S: LineSelector, P: LinePrinter<S>>(
        &mut self,
        reader: &mut R,
        selector: &mut S,
        printer: &mut P,
        plan: Plan,
        count: u64,
        line: &mut Vec<u8>,
    ) -> Result<Option<u64>, PrintError>
        requires fits { self.old.next + length self.old.kept.items + 1 < 2 ^ 64 }
        requires sound { IsSound plan.extent self.old }
        requires placed { IsPlaced self.old }
        requires few { count ≤ plan.extent.most }
        requires context { count ≡ plan.extent.most → 0 < self.old.left }
        ensures ok { IfOk result (λ o. IfSome (R.remaining reader.old) (λ text. MatchOption o
            (IsAtEnd plan.terminator self.old self.new (P.printed printer.old)
            (P.printed printer.new) text (R.remaining reader.new))
            (λ more. TakesLines plan.terminator plan.extent (S.selects selector.old) self.old
            self.new (P.printed printer.old) (P.printed printer.new) count more text
            (R.remaining reader.new)))) }
        ensures few { IfOk result (λ o. IfSome o (λ more. count + more ≤ plan.extent.most)) }
        ensures sound { OnOk result (IsSound plan.extent self.new) }
        ensures placed { OnOk result (IsPlaced self.new) }
        ensures unprinted { IfErr result (λ e. IfRead e
            (P.printed printer.new ≡ P.printed printer.old)) }
        ensures failed { IfErr result (λ e. IfPrint e (IsPrintFault P.fails_by)) }
        ensures same { S.selects selector.new ≡ S.selects selector.old }
    {
        if plan.extent.before == 0 && !printer.shows_lines() {
            return match self.pass_next(reader, selector, plan, count, line) {
                Ok(taken) => Ok(taken),
                Err(fault) => Err(PrintError::Read(fault)),
            };
        }
        match next_line(reader, plan.terminator, line) {
            Ok(true) => {}
            Ok(false) => return Ok(None),
            Err(fault) => return Err(PrintError::Read(fault)),
        }
        let is_selected = selects_more(selector, line, count, plan.extent.most);
        match self.take(selector, printer, plan.extent, is_selected, line) {
            Ok(()) => Ok(Some(u64::from(is_selected))),
            Err(fault) => Err(PrintError::Print(fault)),
        }
    }

    /// Takes the next lines of a reader, behind `count` selected lines: those that are whole in its
    /// page, or one. Returns how many of them are selected, or `None` at the end.
    #[inline(always)]
    pub(crate) fn step<R: BufRead, S: LineSelector, P: LinePrinter<S>>(
        &mut self,
        reader: &mut R,
        selector: &mut S,
        printer: &mut P,
        plan: Plan,
        count: u64,
        line: &mut Vec<u8>,
    ) -> Result<Option<u64>, PrintError>
        requires fits { self.old.next + length self.old.kept.items + 1 < 2 ^ 64 }
        requires sound { IsSound plan.extent self.old }
        requires placed { IsPlaced self.old }
        requires few { count ≤ plan.extent.most }
        requires context { count ≡ plan.extent.most → 0 < self.old.left }
        ensures ok { IfOk result (λ o. IfSome (R.remaining reader.old) (λ text. MatchOption o
            (IsAtEnd plan.terminator self.old self.new (P.printed printer.old)
            (P.printed printer.new) text (R.remaining reader.new))
            (λ more. TakesLines plan.terminator plan.extent (S.selects selector.old) self.old
            self.new (P.printed printer.old) (P.printed printer.new) count more text
            (R.remaining reader.new)))) }
        ensures few { IfOk result (λ o. IfSome o (λ more. count + more ≤ plan.extent.most)) }
        ensures sound { OnOk result (IsSound plan.extent self.new) }
        ensures placed { OnOk result (IsPlaced self.new) }
        ensures unprinted { IfErr result (λ e. IfRead e
            (P.printed printer.new ≡ P.printed printer.old)) }
        ensures failed { IfErr result (λ e. IfPrint e (IsPrintFault P.fails_by)) }
        ensures same { S.selects selector.new ≡ S.selects selector.old }
    {
        if let Some(selected) = self.take_buffered(reader, selector, printer, plan, count, line)? {
            return Ok(Some(selected));
        }
        let next = self.take_next(reader, selector, printer, plan, count, line)?;
        Ok(next)
    }
}
