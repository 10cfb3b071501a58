//! Runs over symbols: the loop over what comes next of a piece, as far as its cells need no look.
ghost use Rattle.std.specs.Prelude.{◌≡◌, ◌+◌, ◌≤◌, ◌<◌, IfSome, length};
ghost use Rattle.rc_dfa.specs.Machine.{symbols};
ghost use Rattle.rc_dfa.specs.declared.symbols.Tagged.TheVariants.{Neither};
ghost use Rattle.rc_table_search.specs.Decodes.{IsWhole, entry_of, exit_of};
ghost use Rattle.rc_table_search.specs.Walks.{left_of};
ghost use Rattle.rc_table_search.specs.Searches.{GoesAcross, GoesOver};

use crate::cells::SKIP;
use crate::run::Stand;
use crate::scalars::{Scalar, scalar_next};
use crate::transitions::Transitions;
use crate::way::{Way, byte, left, next};
use rc_dfa::symbols::{Symbol, Tagged};

/// How many ASCII bytes in a row are read beside symbols. A run that reads no symbols takes half the
/// instructions for each, but some 150 to begin.
const FEW: usize = 32;

/// Goes on over an ASCII byte. Returns None if its cell isn't known or needs a look.
#[inline(always)]
fn over_byte<W: Way, T: Transitions>(
    table: &T,
    cache: &T::Cache,
    byte: u8,
    stand: Stand,
) -> Option<Stand>
    requires cache { (T.view table.now W.BACKWARDS).IsCache cache.now }
    requires row { (T.view table.now W.BACKWARDS).IsRow cache.now stand.row }
    requires small { byte < 128 }
    ensures row { IfSome result (λ next. (T.view table.now W.BACKWARDS).IsRow cache.now next.row) }
    ensures on { IfSome result (GoesOver (T.view table.now W.BACKWARDS) W.BACKWARDS cache.now byte
        Neither stand) }
{
    let cell = table.known::<W>(cache, stand.row, byte);
    if cell >= SKIP {
        return None;
    }
    let noted = stand.noted;
    Some(Stand { row: cell, noted })
}

/// Goes on over a byte past ASCII, with what is known of it. Returns None if its cell isn't known or
/// needs a look.
#[inline(always)]
fn over_symbol<W: Way, T: Transitions>(
    table: &T,
    cache: &T::Cache,
    byte: u8,
    tagged: Tagged,
    stand: Stand,
) -> Option<Stand>
    requires cache { (T.view table.now W.BACKWARDS).IsCache cache.now }
    requires row { (T.view table.now W.BACKWARDS).IsRow cache.now stand.row }
    requires reads { (T.view table.now W.BACKWARDS).alphabet ≡ symbols }
    requires past { 128 ≤ byte }
    ensures row { IfSome result (λ next. (T.view table.now W.BACKWARDS).IsRow cache.now next.row) }
    ensures on { IfSome result (GoesOver (T.view table.now W.BACKWARDS) W.BACKWARDS cache.now byte
        tagged stand) }
{
    let cell = table.known_over::<W>(cache, stand.row, Symbol { byte, tagged });
    if cell >= SKIP {
        return None;
    }
    let noted = stand.noted;
    Some(Stand { row: cell, noted })
}

/// Goes on over the bytes of a scalar past ASCII, from the first on that is read. Returns None if
/// some cell isn't known or needs a look.
#[inline(always)]
fn over_scalar<W: Way, T: Transitions>(
    table: &T,
    cache: &T::Cache,
    piece: &[u8],
    scalar: Scalar,
    begin: Stand,
) -> Option<Stand>
    requires cache { (T.view table.now W.BACKWARDS).IsCache cache.now }
    requires row { (T.view table.now W.BACKWARDS).IsRow cache.now begin.row }
    requires reads { (T.view table.now W.BACKWARDS).alphabet ≡ symbols }
    requires whole { IsWhole piece.now scalar }
    requires several { scalar.first + 2 ≤ scalar.end }
    requires ends { scalar.end ≤ length piece.now }
    ensures row { IfSome result (λ next. (T.view table.now W.BACKWARDS).IsRow cache.now next.row) }
    ensures on { IfSome result (GoesAcross (T.view table.now W.BACKWARDS) W.BACKWARDS cache.now
        piece.now (entry_of W.BACKWARDS scalar) (exit_of W.BACKWARDS scalar) begin) }
{
    let entry = scalar.entry::<W>();
    let front = byte::<W>(piece, entry);
    let near = scalar.near::<W>();
    let mut stand = over_symbol::<W, T>(table, cache, front, near, begin)?;
    let mut place = next::<W>(piece, entry);
    while scalar.left::<W>(place) > 1 {
        let byte = byte::<W>(piece, place);
        stand = over_symbol::<W, T>(table, cache, byte, Tagged::Neither, stand)?;
        place = next::<W>(piece, place);
    }
    let back = byte::<W>(piece, place);
    let far = scalar.far::<W>();
    over_symbol::<W, T>(table, cache, back, far, stand)
}

/// Runs over a few ASCII bytes that come next at the place, up to one of which the cell isn't known or
/// needs a look. Returns the place after them, and how the run stands there.
#[inline(always)]
fn run_plain<W: Way, T: Transitions>(
    table: &T,
    cache: &T::Cache,
    piece: &[u8],
    from: usize,
    begin: Stand,
) -> (usize, Stand)
    requires cache { (T.view table.now W.BACKWARDS).IsCache cache.now }
    requires row { (T.view table.now W.BACKWARDS).IsRow cache.now begin.row }
    requires reads { (T.view table.now W.BACKWARDS).alphabet ≡ symbols }
    requires from { from ≤ length piece.now }
    ensures within { result.0 ≤ length piece.now }
    ensures on { left_of W.BACKWARDS (length piece.now) result.0
        ≤ left_of W.BACKWARDS (length piece.now) from }
    ensures row { (T.view table.now W.BACKWARDS).IsRow cache.now result.1.row }
    ensures across { GoesAcross (T.view table.now W.BACKWARDS) W.BACKWARDS cache.now piece.now from
        result.0 begin result.1 }
{
    let mut stand = begin;
    let mut place = from;
    let mut plain = 0;
    while plain < FEW && left::<W>(piece, place) > 0 {
        let byte = byte::<W>(piece, place);
        if byte >= 128 {
            return (place, stand);
        }
        let Some(there) = over_byte::<W, T>(table, cache, byte, stand) else {
            return (place, stand);
        };
        stand = there;
        place = next::<W>(piece, place);
        plain += 1;
    }
    (place, stand)
}

/// Runs over the scalars that come next at the place, and over a few ASCII bytes between them, up to
/// one of which a cell isn't known or needs a look. Returns the place of that one, and how the run
/// stands there. A search that may rest looks at each.
#[inline(always)]
pub fn run_over<W: Way, T: Transitions>(
    table: &T,
    cache: &T::Cache,
    may_rest: bool,
    piece: &[u8],
    from: usize,
    begin: Stand,
) -> (usize, Stand)
    requires cache { (T.view table.now W.BACKWARDS).IsCache cache.now }
    requires row { (T.view table.now W.BACKWARDS).IsRow cache.now begin.row }
    requires reads { (T.view table.now W.BACKWARDS).alphabet ≡ symbols }
    requires from { from ≤ length piece.now }
    ensures within { result.0 ≤ length piece.now }
    ensures on { left_of W.BACKWARDS (length piece.now) result.0
        ≤ left_of W.BACKWARDS (length piece.now) from }
    ensures row { (T.view table.now W.BACKWARDS).IsRow cache.now result.1.row }
    ensures across { GoesAcross (T.view table.now W.BACKWARDS) W.BACKWARDS cache.now piece.now from
        result.0 begin result.1 }
{
    if may_rest {
        return (from, begin);
    }
    let mut stand = begin;
    let mut place = from;
    while left::<W>(piece, place) > 0 {
        let front = byte::<W>(piece, place);
        if front >= 128 {
            let Some(scalar) = scalar_next::<W>(piece, place) else {
                return (place, stand);
            };
            let Some(there) = over_scalar::<W, T>(table, cache, piece, scalar, stand) else {
                return (place, stand);
            };
            stand = there;
            place = scalar.exit::<W>();
        } else {
            let Some(there) = over_byte::<W, T>(table, cache, front, stand) else {
                return (place, stand);
            };
            let at = next::<W>(piece, place);
            let (on, behind) = run_plain::<W, T>(table, cache, piece, at, there);
            if left::<W>(piece, on) > 0 && byte::<W>(piece, on) < 128 {
                return (on, behind);
            }
            stand = behind;
            place = on;
        }
    }
    (place, stand)
}
