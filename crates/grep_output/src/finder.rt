//! Match finders: the matches in a line, and their groups.
ghost use Rattle.std.specs.Prelude.{◌≡◌, ℕ, All, IsTrue, List, OnOk, cond, take};
ghost use Rattle.grep_output.specs.InLines.{LiesInLine};
ghost use Rattle.rc_text.specs.Joined.{joined};
ghost use Rattle.rc_text.specs.declared.types.Span.{Span};

use grep_lines::LineSelector;
use rc_text::types::Span;
use std::alloc::AllocError;
use std::io;

/// A selector of lines that finds the matches in them.
pub trait MatchFinder: LineSelector {
    /// The matches in a text, which may go on across lines.
    ghost spans_in: { Self → List ℕ → List Span };

    /// Finds the matches in the line, empty ones among them, in the place of those in `matches`. An
    /// empty match behind another one is one only if it doesn't touch that one. An `Err` means out of
    /// memory.
    fn find_matches(&mut self, line: &[u8], matches: &mut Vec<Span>) -> Result<(), AllocError>
        ensures same { Self.selects self.new ≡ Self.selects self.old };

    /// Finds the matches in a text that lies in chunks, empty ones among them, in the place of those
    /// in `spans`, or the first one alone. They may go on across lines. An `Err` means out of memory,
    /// or that the text has as many bytes as the greatest `usize`.
    fn find_in_text(
        &mut self,
        chunks: &[&[u8]],
        only_first: bool,
        spans: &mut Vec<Span>,
    ) -> io::Result<()>
        ensures found { OnOk result (spans.new.items
            ≡ cond only_first (take 1 (spans_in self.old (joined chunks.now)))
            (spans_in self.old (joined chunks.now))) }
        ensures same { Self.selects self.new ≡ Self.selects self.old };

    /// Whether each match in a text lies in one line, where lines end in newlines, and the lines that
    /// have one are those that are selected, or that aren't. False says nothing.
    fn keeps_to_lines(&self) -> bool
        ensures { IsTrue result → (text : List ℕ) → All (LiesInLine text) (spans_in self.now text) };

    /// Finds the groups of the match in the line that begins at a position.
    fn find_groups(&mut self, line: &[u8], start: usize)
        ensures same { Self.selects self.new ≡ Self.selects self.old };

    /// Where the group with this number is, by `find_groups`, or `None` if it took no part.
    fn group(&self, number: usize) -> Option<Span>;

    /// Where the group with this name is, by `find_groups`, or `None` if it took no part.
    fn named_group(&self, name: &str) -> Option<Span>;
}
