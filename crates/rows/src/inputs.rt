//! Inputs of rows.

use crate::row::{Pair, Row};
use rc_text::cursor::Cursor;
use rc_text::input::Input;
use rc_text::types::{Anchored, Match, Span};

/// What an input asks for beside its text, which no search changes.
#[derive(Clone, Copy, PartialEq)]
pub struct Request {
    span: Span,
    slice: Span,
    anchored: Anchored,
    earliest: bool,
}

impl Request {
    /// What the input asks for.
    pub fn of<C: Cursor>(input: &Input<C>) -> Request {
        Request {
            span: input.get_span(),
            slice: input.get_slice_span(),
            anchored: input.get_anchored(),
            earliest: input.get_earliest(),
        }
    }
}

/// The input that a row asks for over a cursor, which may begin in the middle.
pub fn input<C: Cursor + Drop>(row: &Row, cursor: C) -> Input<C> {
    let mut input = Input::new(cursor);
    input.set_start(0);
    if let Some((start, end)) = row.slice {
        if start.saturating_sub(1) <= end {
            input.slice_span(Span { start, end });
        }
    }
    if let Some((start, end)) = row.span {
        if start.saturating_sub(1) <= end {
            input.set_range(start, end);
        }
    }
    input.set_anchored(row.anchored);
    input
}

/// Sets where the span begins, at most one above its end.
pub fn start_at<C: Cursor>(input: &mut Input<C>, start: usize) {
    if start.saturating_sub(1) <= input.end() {
        input.set_start(start);
    }
}

/// Sets where the span ends, at most one below its start.
pub fn end_at<C: Cursor>(input: &mut Input<C>, end: usize) {
    if input.start().saturating_sub(1) <= end {
        input.set_end(end);
    }
}

/// The span of a match.
pub fn pair_of(found: &Option<Match>) -> Option<Pair> {
    match found {
        Some(found) => Some((found.start(), found.end())),
        None => None,
    }
}
