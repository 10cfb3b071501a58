//! Line selection: lines one after another, and which of them are selected.
ghost use Rattle.std.specs.Prelude.{◌≡◌, ◌≢◌, ◌≤◌, ◌<◌, ℕ, Bool, List, [], IfErr, IfNone, IfOk, IfSome, MatchOption, OnErr, false, filter, length, slice_range};
ghost use Rattle.std.specs.Io.{StopsAt};
ghost use Rattle.std.specs.Io.KnownBytes.{Consumes, Keeps};
ghost use Rattle.std.specs.IoError.{error_kind};
ghost use Rattle.grep_lines.specs.Lines.{AreLinesOf, lines};
ghost use Rattle.grep_lines.specs.Pages.{MayTake};
ghost use Rattle.grep_lines.specs.Selected.{AreSkipped, IsNextSelected, IsStopped, IsTurn, PassesLine, TakesLine};

use crate::pages::lines_before;
use memchr::memchr;
use std::io;
use std::io::{BufRead, ErrorKind};

/// What is known of the first lines of a page.
#[derive(Clone, Copy)]
pub struct Stretch {
    /// A position in the page. The lines that end before it are all selected, or none is.
    pub place: usize,
    /// Whether they are selected.
    pub is_selected: bool,
    /// Where the line at that position ends, if it is known to be unlike them, by its terminator.
    pub turn: Option<usize>,
}

/// What is known of a line that was read.
#[derive(Clone, Copy)]
pub struct Passed {
    /// The number of its bytes, without its terminator.
    pub len: u64,
    /// Whether it is selected.
    pub is_selected: bool,
}

/// A selector of lines.
pub trait LineSelector {
    /// Whether a line is selected. It has no terminator.
    ghost selects: { Self → List ℕ → Bool };

    /// Whether the line is selected. The answer for a line never changes.
    fn selects(&mut self, line: &[u8]) -> bool
        ensures value { result ≡ selects self.old line.now }
        ensures same { selects self.new ≡ selects self.old };

    /// The first lines of a page that are all selected, or none of which is, and the end of the next
    /// one if that is known to be unlike them. These lines need no look of their own. The page begins
    /// with a line. Lines end in the byte `terminator`. If nothing is known, no line is told of.
    fn next_stretch(&mut self, terminator: u8, page: &[u8]) -> Stretch
        ensures within { result.place ≤ length page.now }
        ensures alike { (start end : ℕ) → start ≤ end → end < result.place
            → AreLinesOf terminator page.now start end
            → selects self.old (slice_range page.now start end) ≡ result.is_selected }
        ensures turn { IfSome result.turn (IsTurn terminator (selects self.old)
            result.is_selected page.now result.place) }
        ensures same { selects self.new ≡ selects self.old }
    {
        Stretch {
            place: 0,
            is_selected: false,
            turn: None,
        }
    }

    /// A position in a page at which a line begins, such that no line of the page that ends before
    /// it is selected. Those lines need no look of their own. It is 0 if nothing is known.
    /// Lines end in the byte `terminator`.
    fn next_candidate(&mut self, terminator: u8, page: &[u8]) -> usize
        ensures within { result ≤ length page.now }
        ensures unselected { (start end : ℕ) → start ≤ end → end < result
            → AreLinesOf terminator page.now start end
            → selects self.old (slice_range page.now start end) ≡ false }
        ensures same { selects self.new ≡ selects self.old }
    {
        let stretch = self.next_stretch(terminator, page);
        if stretch.is_selected {
            0
        } else {
            stretch.place
        }
    }

    /// Reads the next line, and returns its length and whether it is selected, or `None` at the end.
    /// The bytes after the last terminator are a line, if there are any. `line` is a buffer: what is
    /// in it afterwards isn't said.
    ///
    /// By default the line is held in `line`. A selector that needs not all of it may hold less.
    ///
    /// An `Err` is one of the reader, or out of memory, or comes if the line is too long for the
    /// selector.
    fn read_next<R: BufRead>(
        &mut self,
        reader: &mut R,
        terminator: u8,
        line: &mut Vec<u8>,
    ) -> io::Result<Option<Passed>>
        ensures passed { IfOk result (λ o. IfSome (R.remaining reader.old) (λ text. MatchOption o
            (lines terminator text ≡ [])
            (PassesLine terminator (selects self.old) text (R.remaining reader.new)))) }
        ensures ended { IfOk result (λ o. IfNone o
            (Keeps (R.remaining reader.old) (R.remaining reader.new))) }
        ensures retried { IfErr result (λ e. error_kind e ≢ ErrorKind.Interrupted) }
        ensures same { selects self.new ≡ selects self.old }
    {
        if next_line(reader, terminator, line)? {
            let is_selected = self.selects(line);
            return Ok(Some(Passed {
                len: line.len() as u64,
                is_selected,
            }));
        }
        Ok(None)
    }
}

/// Reads the next line into `line`, without its terminator, replacing its content, if the buffer of
/// the reader contains the line and its terminator. Returns whether it does; otherwise nothing is
/// consumed, and `line` is empty.
fn take_line<R: BufRead>(reader: &mut R, terminator: u8, line: &mut Vec<u8>) -> io::Result<bool>
    ensures err { OnErr result (Keeps (R.remaining reader.old) (R.remaining reader.new)) }
    ensures err_empty { OnErr result (line.new.items ≡ []) }
    ensures retried { IfErr result (λ e. error_kind e ≢ ErrorKind.Interrupted) }
    ensures taken { IfOk result (λ taken. MayTake terminator taken (R.remaining reader.old)
        (R.remaining reader.new) line.new.items) }
{
    line.clear();
    let page = match reader.fill_buf() {
        Ok(page) => page,
        Err(fault) if fault.kind() == ErrorKind::Interrupted => return Ok(false),
        Err(fault) => return Err(fault),
    };
    let Some(end) = memchr(terminator, page) else {
        return Ok(false);
    };
    line.extend_from_slice(&page[..end])?;
    reader.consume(end + 1);
    Ok(true)
}

/// Reads the next line into `line`, without its terminator, replacing its content. Returns false
/// at the end, and then `line` is empty. The bytes after the last terminator are a line, if there
/// are any. A newline, `b'\n'`, is the usual terminator.
///
/// An `Err` is one of the reader, or out of memory for the line. What was read of the line is in
/// `line` then: no byte is lost.
pub fn next_line<R: BufRead>(reader: &mut R, terminator: u8, line: &mut Vec<u8>) -> io::Result<bool>
    ensures empty { IfOk result (λ more. more ≡ false → line.new.items ≡ []) }
    ensures none_lost { OnErr result (Consumes (R.remaining reader.old)
        (R.remaining reader.new) line.new.items) }
    ensures one_line { OnErr result (StopsAt line.new.items terminator) }
    ensures retried { IfErr result (λ e. error_kind e ≢ ErrorKind.Interrupted) }
    ensures ended { IfOk result (λ more. more ≡ false
        → Keeps (R.remaining reader.old) (R.remaining reader.new)) }
    ensures taken { IfOk result (λ more. IfSome (R.remaining reader.old)
        (λ text. TakesLine terminator text more line.new.items (R.remaining reader.new))) }
{
    if take_line(reader, terminator, line)? {
        return Ok(true);
    }
    if reader.read_until(terminator, line)? == 0 {
        return Ok(false);
    }
    let last = line.len() - 1;
    if line[last] == terminator {
        line.truncate(last);
        return Ok(true);
    }
    Ok(true)
}

/// Skips lines in the buffer of the reader of which none is selected, and returns how many. It may
/// be none.
fn skip_lines<R: BufRead, S: LineSelector>(
    reader: &mut R,
    selector: &mut S,
    terminator: u8,
) -> io::Result<u64>
    ensures skipped { IfOk result (λ count. IfSome (R.remaining reader.old) (λ text.
        AreSkipped terminator (S.selects selector.old) text count (R.remaining reader.new))) }
    ensures same { S.selects selector.new ≡ S.selects selector.old }
    ensures err { OnErr result (Keeps (R.remaining reader.old) (R.remaining reader.new)) }
    ensures retried { IfErr result (λ e. error_kind e ≢ ErrorKind.Interrupted) }
{
    let page = match reader.fill_buf() {
        Ok(page) => page,
        Err(fault) if fault.kind() == ErrorKind::Interrupted => return Ok(0),
        Err(fault) => return Err(fault),
    };
    let candidate = selector.next_candidate(terminator, page);
    let (end, count) = lines_before(page, terminator, candidate);
    reader.consume(end);
    Ok(count)
}

/// Reads lines up to the next one that is selected, and leaves that one in `line`. Returns how many
/// lines were read, that one among them, or `None` if no line is selected up to the end: then
/// `line` is empty.
///
/// It keeps one line at a time. An `Err` is one of the reader, or out of memory for a line, or
/// comes after 2^64 - 2 lines. What was read of a line is in `line` then, and no line before it is
/// selected.
pub fn next_selected<R: BufRead, S: LineSelector>(
    reader: &mut R,
    selector: &mut S,
    terminator: u8,
    line: &mut Vec<u8>,
) -> io::Result<Option<u64>>
    ensures found { IfOk result (λ o. IfSome (R.remaining reader.old) (λ text. MatchOption o
        (filter (S.selects selector.old) (lines terminator text) ≡ [])
        (IsNextSelected terminator (S.selects selector.old) text line.new.items (R.remaining reader.new)))) }
    ensures same { S.selects selector.new ≡ S.selects selector.old }
    ensures empty { IfOk result (λ o. IfNone o (line.new.items ≡ [])) }
    ensures stopped { OnErr result (IfSome (R.remaining reader.old)
        (λ text. IsStopped terminator (S.selects selector.old) text line.new.items (R.remaining reader.new))) }
    ensures one_line { OnErr result (StopsAt line.new.items terminator) }
    ensures retried { IfErr result (λ e. error_kind e ≢ ErrorKind.Interrupted) }
{
    let mut before: u64 = 0;
    for _ in 0..u64::MAX {
        line.clear();
        let Some(passed) = before.checked_add(skip_lines(reader, selector, terminator)?) else {
            break;
        };
        let Some(number) = passed.checked_add(1) else {
            break;
        };
        if !next_line(reader, terminator, line)? {
            return Ok(None);
        }
        if selector.selects(line) {
            return Ok(Some(number));
        }
        before = number;
    }
    line.clear();
    Err(io::Error::from(ErrorKind::Other))
}
