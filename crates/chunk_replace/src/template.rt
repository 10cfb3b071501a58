//! Templates: literal text, and references to groups.
ghost use Rattle.std.specs.Prelude.{◌≡◌, MatchResult};
ghost use Rattle.chunk_replace.specs.Template.{IsReadAs, IsTemplateError, template_items};
ghost use Rattle.chunk_replace.specs.Laws.{TemplateLaw};

use crate::marks::marked;
use std::alloc::{AllocFailed, Global};
use thiserror::Error;

/// A part of a template.
#[derive(Clone, Copy)]
pub(crate) enum Part<'t> {
    /// Literal text.
    Literal(&'t str),
    /// The group with this number.
    Group(usize),
    /// The group with this name.
    Name(&'t str),
}

/// A template for what replaces a match: literal text, and groups of the match. It borrows its
/// text.
#[derive(Drop)]
pub struct Template<'t> {
    pub(crate) parts: Vec<Part<'t>>,
}

/// Why a text is no template.
#[derive(Clone, Copy, Debug, PartialEq, Eq, Error)]
pub enum TemplateError {
    /// A `$` begins neither `$$` nor a reference to a group. It is the first such one, and `at` is
    /// its position in bytes.
    #[error("error parsing template at byte {at}")]
    Syntax { at: usize },
    /// Out of memory.
    #[error("out of memory")]
    Memory,
}

impl<'t> Template<'t> {
    /// Parses a template.
    ///
    /// `$$` is a `$`, `${n}` is the group with the number `n`, in decimal digits, and `${name}` is
    /// the group with that name. Everything else is literal text. It fails if a `$` begins none of
    /// these, or if a number is above the greatest `usize`.
    pub fn parse(alloc: Global, text: &'t str) -> Result<Template<'t>, TemplateError>
        ensures { MatchResult result (λ t. IsReadAs (template_items t) text.now)
            (IsTemplateError text.now) }
    {
        let mut parts = Vec::new(alloc);
        let mut rest = text;
        while let Some((literal, mark)) = rest.split_once('$') {
            parts.push(Part::Literal(literal))?;
            let Some((part, after)) = marked(mark) else {
                return Err(TemplateError::Syntax {
                    at: text.len() - mark.len() - 1,
                });
            };
            parts.push(part)?;
            rest = after;
        }
        parts.push(Part::Literal(rest))?;
        Ok(Template { parts })
    }
}

/// A text parses in one way, or fails at one position. A law: it does nothing.
pub fn templates_are_read_in_one_way()
    ensures { TemplateLaw }
{}

impl<T: Drop> From<AllocFailed<T>> for TemplateError {
    ghost use Rattle.std.specs.Prelude.{◌≡◌};
    ghost use Rattle.chunk_replace.specs.declared.template.TemplateError.TheVariants.{Memory};

    ghost from_gives = { λ _ r. r ≡ Memory };

    fn from(_: AllocFailed<T>) -> TemplateError {
        TemplateError::Memory
    }
}
