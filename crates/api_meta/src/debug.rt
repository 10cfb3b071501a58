//! Debug: what is printed of a regex, of a finder and of iterators. No pattern, no table and no
//! text is.

use crate::finder::Finder;
use crate::iterators::{CapturesMatches, FindMatches, Split, SplitN};
use crate::lists::{CapturesMatchesWith, FindMatchesWith};
use crate::regex::Regex;
use crate::seeker::Standing;
use rc_text::cursor::Cursor;
use rc_text::types::Span;
use std::fmt;

/// Prints an iterator over matches: the span that is left, where the last match ended, and whether
/// there is no more.
fn put_standing<W: fmt::Write>(
    f: &mut fmt::Formatter<W>,
    name: &str,
    span: Span,
    standing: &Standing,
) -> fmt::Result {
    f.debug_struct(name)
        .field("span", &span)
        .field("last", &standing.last)
        .field("is_done", &standing.is_done)
        .finish_non_exhaustive()
}

impl fmt::Debug for Regex {
    fn fmt<W: fmt::Write>(&self, f: &mut fmt::Formatter<W>) -> fmt::Result {
        f.debug_struct("Regex")
            .field("pattern_len", &self.pattern_len())
            .field("config", &self.config)
            .finish_non_exhaustive()
    }
}

impl<'r> fmt::Debug for Finder<'r> {
    fn fmt<W: fmt::Write>(&self, f: &mut fmt::Formatter<W>) -> fmt::Result {
        f.debug_struct("Finder")
            .field("regex", self.regex())
            .finish_non_exhaustive()
    }
}

impl<'r, C: Cursor> fmt::Debug for FindMatches<'r, C> {
    fn fmt<W: fmt::Write>(&self, f: &mut fmt::Formatter<W>) -> fmt::Result {
        put_standing(
            f,
            "FindMatches",
            self.input.get_span(),
            &self.seeker.standing,
        )
    }
}

impl<'r, C: Cursor> fmt::Debug for CapturesMatches<'r, C> {
    fn fmt<W: fmt::Write>(&self, f: &mut fmt::Formatter<W>) -> fmt::Result {
        put_standing(
            f,
            "CapturesMatches",
            self.input.get_span(),
            &self.seeker.seeker.standing,
        )
    }
}

impl<'r, 'c, 'i, C: Cursor> fmt::Debug for FindMatchesWith<'r, 'c, 'i, C> {
    fn fmt<W: fmt::Write>(&self, f: &mut fmt::Formatter<W>) -> fmt::Result {
        put_standing(f, "FindMatchesWith", self.input.get_span(), &self.standing)
    }
}

impl<'r, 'c, 'i, C: Cursor> fmt::Debug for CapturesMatchesWith<'r, 'c, 'i, C> {
    fn fmt<W: fmt::Write>(&self, f: &mut fmt::Formatter<W>) -> fmt::Result {
        put_standing(
            f,
            "CapturesMatchesWith",
            self.input.get_span(),
            &self.standing,
        )
    }
}

impl<'r, C: Cursor> fmt::Debug for Split<'r, C> {
    fn fmt<W: fmt::Write>(&self, f: &mut fmt::Formatter<W>) -> fmt::Result {
        f.debug_struct("Split")
            .field("span", &self.input.get_span())
            .field("start", &self.pieces.start)
            .field("is_done", &self.pieces.is_done)
            .finish_non_exhaustive()
    }
}

impl<'r, C: Cursor> fmt::Debug for SplitN<'r, C> {
    fn fmt<W: fmt::Write>(&self, f: &mut fmt::Formatter<W>) -> fmt::Result {
        f.debug_struct("SplitN")
            .field("span", &self.input.get_span())
            .field("start", &self.pieces.start)
            .field("is_done", &self.pieces.is_done)
            .field("limit", &self.limit)
            .finish_non_exhaustive()
    }
}
