//! Diagnostics: what is wrong with the text of a pattern, in words and as a span.
ghost use Rattle.std.specs.Prelude.{◌≡◌, ◌≢◌};
ghost use Rattle.zorfelith_c.specs.Explaining.{TellsFault};
ghost use Rattle.zorfelith_c.specs.Statuses.{done, found, short};

use crate::options::settings_of;
use crate::status::{DONE, FOUND, MEMORY, NOT_UTF8, SHORT, UNKNOWN};
use rc_explain::explain;
use std::alloc::Global;

/// A fault in the text of a pattern: the part of the text that is at fault, and how long the words
/// for it are, all in bytes.
#[repr(C)]
#[derive(Clone, Copy)]
pub struct FaultAt {
    /// Where the part begins.
    pub start: usize,
    /// Where it ends, exclusive.
    pub end: usize,
    /// The number of bytes of the words.
    pub len: usize,
}

/// Tells what is wrong with the text of a pattern, under the settings with these bytes. The status
/// is `DONE`, if it parses; `FOUND`, and `fault` and the words are written; `SHORT`, if `words` has
/// fewer bytes than these need, and `fault` is written; `UNKNOWN`, `NOT_UTF8` or `MEMORY`.
#[unsafe(no_mangle)]
pub extern "C" fn zf_explain(
    alloc: Global,
    pattern: &[u8],
    settings: &[u8],
    fault: &mut FaultAt,
    words: &mut [u8],
) -> u32
    ensures answered { TellsFault settings.now pattern.now result fault.new words.new }
    ensures unwritten { result ≢ found → words.new ≡ words.old }
    ensures unmeasured { result ≢ found → result ≢ short → fault.new ≡ fault.old }
{
    let Some(settings) = settings_of(settings) else {
        return UNKNOWN;
    };
    let Ok(text) = str::from_utf8(pattern) else {
        return NOT_UTF8;
    };
    let Ok(explained) = explain(alloc, text, &settings.syntax()) else {
        return MEMORY;
    };
    let Some(met) = explained else {
        return DONE;
    };
    let line = met.kind.line().as_bytes();
    *fault = FaultAt {
        start: met.span.start,
        end: met.span.end,
        len: line.len(),
    };
    if line.len() > words.len() {
        return SHORT;
    }
    words[..line.len()].copy_from_slice(line);
    FOUND
}
