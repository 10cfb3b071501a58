//! Pieces: the patterns of marks that stand alone, and of lists.

ghost use Rattle.std.specs.Prelude.{◌≡◌, ℕ, IfOk, IsTrue};
ghost use Rattle.rc_pattern.specs.Meaning.{meaning};
ghost use Rattle.rc_pattern.specs.Kinds.{has_plain_nodes};
ghost use Rattle.rc_tokens.specs.Text.{Characters};
ghost use Rattle.rc_parser.specs.Settings.{settings_of};
ghost use Rattle.rc_parser.specs.Pieces.{Subpattern};
ghost use Rattle.rc_parser.specs.View.{part};
ghost use Rattle.rc_class_sets.specs.Sets.{CodeSet};
ghost use Rattle.rc_full_lists.specs.Lists.{IsList};
ghost use Rattle.rc_full_parser.specs.Pieces.{is_high, IsCharacter, IsPiece, IsListPart, HasCodesOf};
ghost use Rattle.rc_full_parser.specs.View.{Gives};

use crate::characters::cases;
use crate::marks::Piece;
use rc_full_lists::items::{Item, item_class};
use rc_full_lists::lists::list;
use rc_full_lists::parts::Settings;
use rc_parser::flags::Flags;
use rc_parser::nested::Nested;
use rc_parser::parts::one_deeper;
use rc_parser::pieces::{leaf, literal, set};
use rc_parser::{Config, pieces};
use rc_pattern::hir::Hir;
use rc_tokens::refusal::Refusal;
use std::alloc::Global;

/// A character, or under the flag `i` all that folds with it.
fn character(alloc: Global, config: Config, flags: Flags, c: char) -> Result<Hir, Refusal>
    ensures reads { Gives result (IsCharacter (settings_of config) flags c) meaning }
    ensures kind { IfOk result (λ h. IsTrue (has_plain_nodes h)) }
{
    match cases(alloc, flags.unicode, flags.case_insensitive, c)? {
        None => Ok(literal(alloc, c)?),
        Some(class) => set(alloc, config, flags, &class),
    }
}

fn is_high(flags: Flags, byte: u8) -> bool
    ensures { result ≡ is_high flags byte }
{
    !flags.unicode && byte >= 128
}

/// `\xHH`
fn byte(alloc: Global, config: Config, flags: Flags, byte: u8) -> Result<Nested, Refusal>
    ensures { Gives result (IsPiece (settings_of config) flags (Piece.Byte byte)) part }
{
    if is_high(flags, byte) {
        if config.get_utf8() {
            return Err(Refusal::Syntax);
        }
        return Ok(leaf(Hir::literal(alloc, &[byte])?));
    }
    Ok(leaf(character(alloc, config, flags, byte as char)?))
}

/// A Perl class or a property.
fn class(alloc: Global, config: Config, flags: Flags, item: Item) -> Result<Nested, Refusal>
    requires { HasCodesOf flags.unicode (Piece.Set item) }
    ensures { Gives result (IsPiece (settings_of config) flags (Piece.Set item)) part }
{
    let ranges = item_class(alloc, flags.unicode, flags.case_insensitive, item)?;
    Ok(leaf(set(alloc, config, flags, &ranges)?))
}

/// The pattern of a mark that stands alone. It fails with `Refusal::Syntax` only if the mark has none
/// under these flags, and with `Refusal::Memory` if it runs out of memory.
pub fn piece(alloc: Global, config: Config, flags: Flags, piece: Piece) -> Result<Nested, Refusal>
    requires { HasCodesOf flags.unicode piece }
    ensures { Gives result (IsPiece (settings_of config) flags piece) part }
{
    match piece {
        Piece::Character(c) => Ok(leaf(character(alloc, config, flags, c)?)),
        Piece::Byte(value) => byte(alloc, config, flags, value),
        Piece::Set(item) => class(alloc, config, flags, item),
        Piece::Dot => pieces::dot(alloc, config, flags),
        Piece::Asserts(assertion) => Ok(pieces::assertion(flags, assertion)),
    }
}

/// The pattern of the list behind a `[`, and the rest behind its `]`. It fails with `Refusal::Syntax`
/// only if no list stands there, or it has no pattern under these flags, and with `Refusal::Memory` if
/// it runs out of memory.
pub fn listed(
    alloc: Global,
    config: Config,
    flags: Flags,
    settings: Settings,
    text: &[char],
) -> Result<(Nested, &[char]), Refusal>
    requires { settings.unicode ≡ flags.unicode }
    ensures { Gives result (λ (r : Subpattern × Characters). (c : CodeSet) × (depth : ℕ)
        × IsList settings flags.case_insensitive text.now c depth r.1
        × IsListPart (settings_of config) flags c depth r.0) (λ p. (part p.0, p.1.now)) }
{
    let fold = flags.case_insensitive;
    let (ranges, depth, rest) = list(alloc, settings, fold, config.depth_limit(), text)?;
    let hir = set(alloc, config, flags, &ranges)?;
    let part = one_deeper(config, hir, depth - 1).ok_or(Refusal::Syntax)?;
    Ok((part, rest))
}
