//! Context: the selected lines, and the lines around them.
ghost use Rattle.std.specs.Prelude.{◌≡◌, ◌≢◌, ◌<◌, ◌+◌, ◌^◌, ◌++◌, ◌∷◌, [], ℕ, List, Bool, Option, None, Some, IfErr, IfOk, IfSome, OnOk, ⊤, cond, false, true, length, nat_lt, ◌&&◌, ◌-◌};
ghost use Rattle.std.specs.IoError.{error_kind};
ghost use Rattle.std.specs.declared.io.Error.{Error};
ghost use Rattle.grep_lines.specs.Ahead.{Advances, Flushes, IsPlaced, IsSound, Skips};
ghost use Rattle.grep_lines.specs.Context.{HasLeft, IfPrint, IfRead, IsPrintFault, Part, Prints, PrintsBeginning, PrintsIf, gap, printed, selected_count, selected_parts, unread};
ghost use Rattle.grep_lines.specs.Lines.{lines};
ghost use Rattle.grep_lines.specs.Context.Part.{line_of, separator};

use crate::select::LineSelector;
use crate::steps::Plan;
use std::alloc::Global;
use std::collections::VecDeque;
use std::io::{BufRead, ErrorKind};
use std::{io, mem};

/// How many lines are printed around a selected one, and how many are selected.
#[derive(Clone, Copy)]
pub struct Extent {
    /// The number of lines before a selected line that are printed with it.
    pub before: usize,
    /// The number of lines behind a selected line that are printed with it.
    pub after: u64,
    /// The greatest number of selected lines.
    pub most: u64,
}

/// A printer of lines, and of separators between groups of them.
pub trait LinePrinter<S: LineSelector> {
    /// What was printed, in order, or `None`, which claims nothing.
    ghost printed: { Self → Option (List Part) };

    /// The errors that it may give.
    ghost fails_by: { Error → Type 0 } = { λ _. ⊤ };

    /// Prints a line, which begins at this place of the text. It has no terminator.
    fn print_line(
        &mut self,
        selector: &mut S,
        number: u64,
        place: u128,
        is_selected: bool,
        line: &[u8],
    ) -> io::Result<()>
        ensures ok { OnOk result (Prints (printed self.old) (printed self.new)
            (line_of (record {
              number = number;
              place = place;
              selected = is_selected;
              line = line.now;
            }) ∷ [])) }
        ensures failed { IfErr result fails_by }
        ensures same { S.selects selector.new ≡ S.selects selector.old };

    /// Prints selected lines at once, one behind another, if it can. Returns whether it did, and
    /// else nothing is printed. Each has its terminator. The first one has this number, and begins at
    /// this place of the text.
    fn print_lines(
        &mut self,
        selector: &mut S,
        number: u64,
        place: u128,
        terminator: u8,
        text: &[u8],
    ) -> io::Result<bool>
        ensures ok { IfOk result (λ done. PrintsIf done (printed self.old) (printed self.new)
            (selected_parts number place (lines terminator text.now))) }
        ensures failed { IfErr result fails_by }
        ensures same { S.selects selector.new ≡ S.selects selector.old }
    {
        Ok(false)
    }

    /// Prints a separator.
    fn print_separator(&mut self) -> io::Result<()>
        ensures ok { OnOk result (Prints (printed self.old) (printed self.new) (separator ∷ [])) }
        ensures failed { IfErr result fails_by };

    /// Whether lines are printed, or anything is kept of them. If not, `print_line` needn't be called.
    fn shows_lines(&self) -> bool
        ensures { result ≡ false → printed self.now ≡ None }
    {
        true
    }
}

/// Why lines weren't printed to the end.
#[derive(Drop)]
pub enum PrintError {
    /// An error of the reader, or out of memory for a line, or there are 2^64 - 2 lines.
    Read(io::Error),
    /// An error of the printer, or out of memory for the lines that are kept.
    Print(io::Error),
}

/// How far the lines were read and printed.
#[derive(Drop)]
pub(crate) struct Progress {
    pub(crate) alloc: Global,
    /// The lines before the next one that are printed if a line soon after them is selected.
    pub(crate) kept: VecDeque<Vec<u8>>,
    /// The number of the first of them, or of the next line.
    pub(crate) next: u64,
    /// The place at which that line begins.
    pub(crate) place: u128,
    /// The number of lines that are still context of the last selected line.
    pub(crate) left: u64,
    /// The number behind the line that was printed last.
    pub(crate) behind: Option<u64>,
}

impl Progress {
    pub(crate) fn new(alloc: Global) -> Progress
        ensures kept { result.kept.items ≡ [] }
        ensures next { result.next ≡ 1 }
        ensures place { result.place ≡ 0 }
        ensures left { result.left ≡ 0 }
        ensures behind { result.behind ≡ None }
    {
        Progress {
            alloc,
            kept: VecDeque::new(alloc),
            next: 1,
            place: 0,
            left: 0,
            behind: None,
        }
    }

    /// Prints the line with the next number, behind a separator if it doesn't touch the last one.
    fn print<S: LineSelector, P: LinePrinter<S>>(
        &mut self,
        selector: &mut S,
        printer: &mut P,
        is_selected: bool,
        line: &[u8],
    ) -> io::Result<()>
        requires fits { self.old.next + 1 < 2 ^ 64 }
        requires placed { IsPlaced self.old }
        ensures ok { OnOk result (Prints (P.printed printer.old) (P.printed printer.new)
            (gap self.old.behind self.old.next ++ line_of (record {
              number = self.old.next;
              place = self.old.place;
              selected = is_selected;
              line = line.now;
            }) ∷ [])) }
        ensures progress { OnOk result (self.new ≡ record self.old {
          next = self.old.next + 1;
          place = self.old.place + length line.now + 1;
          behind = Some (self.old.next + 1);
        }) }
        ensures placed { OnOk result (IsPlaced self.new) }
        ensures failed { IfErr result P.fails_by }
        ensures same { S.selects selector.new ≡ S.selects selector.old }
    {
        if let Some(behind) = self.behind {
            if behind != self.next {
                printer.print_separator()?;
            }
        }
        printer.print_line(selector, self.next, self.place, is_selected, line)?;
        self.place += line.len() as u128 + 1;
        self.next += 1;
        self.behind = Some(self.next);
        Ok(())
    }

    /// Prints the lines that are kept, before a selected line.
    #[inline(always)]
    pub(crate) fn print_kept<S: LineSelector, P: LinePrinter<S>>(
        &mut self,
        selector: &mut S,
        printer: &mut P,
        extent: Extent,
    ) -> io::Result<()>
        requires fits { self.old.next + length self.old.kept.items + 1 < 2 ^ 64 }
        requires sound { IsSound extent self.old }
        requires placed { IsPlaced self.old }
        ensures ok { OnOk result (Flushes extent self.old self.new (P.printed printer.old)
            (P.printed printer.new)) }
        ensures none_kept { OnOk result (self.new.kept.items ≡ []) }
        ensures placed { OnOk result (IsPlaced self.new) }
        ensures failed { IfErr result P.fails_by }
        ensures next { OnOk result (self.new.next ≡ self.old.next + length self.old.kept.items) }
        ensures same { S.selects selector.new ≡ S.selects selector.old }
    {
        while let Some(line) = self.kept.pop_front() {
            self.print(selector, printer, false, &line)?;
        }
        Ok(())
    }

    /// Keeps a line that isn't selected, and lets go of the oldest one if there are enough. `line`
    /// gets another buffer.
    fn keep(&mut self, extent: Extent, line: &mut Vec<u8>) -> io::Result<()>
        requires fits { self.old.next + 1 < 2 ^ 64 }
        requires sound { IsSound extent self.old }
        requires placed { IsPlaced self.old }
        requires idle { self.old.left ≡ 0 }
        ensures ok { OnOk result (Skips extent self.old self.new line.old.items) }
        ensures sound { OnOk result (IsSound extent self.new) }
        ensures left { OnOk result (self.new.left ≡ self.old.left) }
        ensures placed { OnOk result (IsPlaced self.new) }
        ensures next { OnOk result (self.new.next + length self.new.kept.items
            ≡ self.old.next + length self.old.kept.items + 1) }
        ensures failed { IfErr result (λ e. error_kind e ≡ ErrorKind.OutOfMemory) }
    {
        self.kept
            .push_back(mem::replace(line, Vec::new(self.alloc)))?;
        if self.kept.len() > extent.before {
            if let Some(oldest) = self.kept.pop_front() {
                self.place += oldest.len() as u128 + 1;
                *line = oldest;
                self.next += 1;
            }
        }
        Ok(())
    }

    /// Prints a line that was read if it is selected or context, or keeps it.
    pub(crate) fn take<S: LineSelector, P: LinePrinter<S>>(
        &mut self,
        selector: &mut S,
        printer: &mut P,
        extent: Extent,
        is_selected: bool,
        line: &mut Vec<u8>,
    ) -> io::Result<()>
        requires fits { self.old.next + length self.old.kept.items + 1 < 2 ^ 64 }
        requires sound { IsSound extent self.old }
        requires placed { IsPlaced self.old }
        ensures ok { OnOk result (Advances extent self.old self.new (P.printed printer.old)
            (P.printed printer.new) (record { line = line.old.items; selected = is_selected })) }
        ensures sound { OnOk result (IsSound extent self.new) }
        ensures left { OnOk result (self.new.left
            ≡ cond is_selected extent.after (self.old.left - 1)) }
        ensures placed { OnOk result (IsPlaced self.new) }
        ensures next { OnOk result (self.new.next + length self.new.kept.items
            ≡ self.old.next + length self.old.kept.items + 1) }
        ensures failed { IfErr result (IsPrintFault P.fails_by) }
        ensures same { S.selects selector.new ≡ S.selects selector.old }
    {
        if is_selected {
            self.print_kept(selector, printer, extent)?;
            self.print(selector, printer, true, line)?;
            self.left = extent.after;
            return Ok(());
        }
        if self.left > 0 {
            self.print(selector, printer, false, line)?;
            self.left -= 1;
            return Ok(());
        }
        self.keep(extent, line)
    }
}

/// Prints the selected lines of a reader and those around them, each once, and a separator between
/// two that don't touch. Returns the number of selected lines.
///
/// It reads no further than to the last line that is printed if the greatest number of lines is
/// selected, and else to the end. It keeps as many lines as are printed before a selected one. If
/// none is, and the printer shows no lines, it holds of a line what the selector does.
/// After an error of the reader the first of them were printed, as far as they were known.
pub fn print_selected<R: BufRead, S: LineSelector, P: LinePrinter<S>>(
    alloc: Global,
    reader: &mut R,
    selector: &mut S,
    printer: &mut P,
    terminator: u8,
    extent: Extent,
) -> Result<u64, PrintError>
    ensures printed { OnOk result (IfSome (R.remaining reader.old) (λ text.
        Prints (P.printed printer.old) (P.printed printer.new)
        (printed terminator extent (λ _. S.selects selector.old) text))) }
    ensures counted { IfOk result (λ count. IfSome (R.remaining reader.old) (λ text.
        count ≡ selected_count terminator (λ _. S.selects selector.old) extent.most text)) }
    ensures read { OnOk result (IfSome (R.remaining reader.old) (λ text.
        HasLeft terminator (R.remaining reader.new)
        (unread terminator extent (λ _. S.selects selector.old) text))) }
    ensures begun { IfErr result (λ e. IfRead e (IfSome (R.remaining reader.old) (λ text.
        PrintsBeginning terminator extent (λ _. S.selects selector.old) (P.printed printer.old)
        (P.printed printer.new) text))) }
    ensures failed { IfErr result (λ e. IfPrint e (IsPrintFault P.fails_by)) }
    ensures same { S.selects selector.new ≡ S.selects selector.old }
{
    let mut progress = Progress::new(alloc);
    let mut line = Vec::new(alloc);
    let plan = Plan { terminator, extent };
    let mut count: u64 = 0;
    for _ in 0..u64::MAX {
        if count == extent.most && progress.left == 0 {
            return Ok(count);
        }
        if !progress.has_room(1) {
            return Err(PrintError::Read(io::Error::from(ErrorKind::Other)));
        }
        let taken = match progress.step(reader, selector, printer, plan, count, &mut line) {
            Ok(taken) => taken,
            Err(fault) => return Err(fault),
        };
        match taken {
            Some(more) => count += more,
            None => return Ok(count),
        }
    }
    Err(PrintError::Read(io::Error::from(ErrorKind::Other)))
}
