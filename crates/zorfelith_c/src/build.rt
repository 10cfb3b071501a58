//! Compile and free: how a handle is filled and emptied.
ghost use Rattle.std.specs.Prelude.{◌≡◌, ◌≢◌, MatchOption, None};
ghost use Rattle.searcher.specs.Answers.{IsBuilt};
ghost use Rattle.zorfelith_c.specs.Options.{IsKnown, settings_in};
ghost use Rattle.zorfelith_c.specs.Refusals.{IsShared, IsToldBuild, only, told_refusal};
ghost use Rattle.zorfelith_c.specs.Statuses.{done, empty};

use crate::handle::Handle;
use crate::options::settings_of;
use crate::status::{DONE, EMPTY, MEMORY, NO_KIND, NOT_UTF8, SYNTAX, TOO_LARGE, UNKNOWN};
use rc_pattern::syntax;
use rc_settings::error::BuildError;
use searcher::{Refusal, Searcher, free};
use std::alloc::Global;

/// The version of the library, 0.1.0.
pub const VERSION: u32 = 1_000;

/// Why patterns were refused, and where: the number of the pattern, and a byte of it. Both are 0 if
/// the status isn't about a pattern.
#[repr(C)]
#[derive(Clone, Copy)]
pub struct Refused {
    /// The status.
    pub status: u32,
    /// The number of the pattern.
    pub pattern: usize,
    /// The byte of its text at which the fault is.
    pub at: usize,
}

/// A status that isn't about a pattern.
fn only(status: u32) -> Refused
    ensures { result ≡ only status }
{
    Refused {
        status,
        pattern: 0,
        at: 0,
    }
}

/// Returns an error as plain numbers.
fn told(refusal: Refusal) -> Refused
    ensures { result ≡ told_refusal refusal }
{
    let (status, pattern, at) = match refusal {
        Refusal::NotUtf8(pattern) => (NOT_UTF8, pattern, 0),
        Refusal::NoKind => (NO_KIND, 0, 0),
        Refusal::TooMany => (TOO_LARGE, 0, 0),
        Refusal::Memory => (MEMORY, 0, 0),
        Refusal::Build(error) => match error {
            BuildError::Syntax { pattern, error } => match error {
                syntax::Error::Syntax { at } => (SYNTAX, pattern.as_usize(), at),
                syntax::Error::Memory => (MEMORY, 0, 0),
            },
            BuildError::Memory => (MEMORY, 0, 0),
            BuildError::IllFormed { .. } => (TOO_LARGE, 0, 0),
            BuildError::SizeLimit { .. } => (TOO_LARGE, 0, 0),
            BuildError::PlaceLimit => (TOO_LARGE, 0, 0),
            BuildError::DfaSizeLimit { .. } => (TOO_LARGE, 0, 0),
            BuildError::CacheTooSmall { .. } => (TOO_LARGE, 0, 0),
        },
    };
    Refused {
        status,
        pattern,
        at,
    }
}

/// Frees what the handle holds, and fills it with a searcher for these patterns, each in UTF-8. The
/// settings are the bytes of a `struct zf_settings`. If the status isn't `DONE`, the handle is
/// empty, and `refused` says why.
#[unsafe(no_mangle)]
pub extern "C" fn zf_compile(
    alloc: Global,
    handle: &mut Handle,
    patterns: &[&[u8]],
    settings: &[u8],
    refused: &mut Refused,
) -> u32
    ensures built { MatchOption handle.new.held.value (result ≢ done)
        (λ s. (result ≡ done) × IsKnown settings.now
        × IsBuilt (settings_in settings.now) patterns.now s) }
    ensures refused { result ≢ done
        → IsToldBuild settings.now patterns.now result refused.new }
    ensures unwritten { result ≡ done → refused.new ≡ refused.old }
{
    zf_free(alloc, handle);
    let Some(settings) = settings_of(settings) else {
        *refused = only(UNKNOWN);
        return UNKNOWN;
    };
    match Searcher::boxed(alloc, patterns, &settings) {
        Ok(searcher) => {
            *handle = Handle::of(searcher);
            DONE
        }
        Err(refusal) => {
            *refused = told(refusal);
            refused.status
        }
    }
}

/// Frees what `other` holds, and fills it with a searcher of the patterns that the handle has. These
/// aren't compiled again: what is compiled is shared, and freed with the last searcher of it. The
/// status is `DONE`; `EMPTY`, and `other` is unchanged; or `MEMORY`, and `other` is empty.
#[unsafe(no_mangle)]
pub extern "C" fn zf_share(alloc: Global, handle: &mut Handle, other: &mut Handle) -> u32
    ensures shared { MatchOption handle.old.held.value (result ≡ empty)
        (λ s. IsShared s result other.new.held.value) }
    ensures untouched { result ≡ empty → other.new.held.value ≡ other.old.held.value }
    ensures kept { handle.new.held.value ≡ handle.old.held.value }
{
    if !handle.is_full() {
        return EMPTY;
    }
    zf_free(alloc, other);
    let held = handle.take(alloc);
    let answer = held.share(alloc);
    *handle = Handle::of(held);
    match answer {
        Ok(shared) => {
            *other = Handle::of(shared);
            DONE
        }
        Err(_) => MEMORY,
    }
}

/// The version of the library: 1,000,000 times its first number, 1,000 times its second, and its
/// third.
#[unsafe(no_mangle)]
pub extern "C" fn zf_version() -> u32
    ensures { result ≡ VERSION }
{
    VERSION
}

/// Frees what the handle holds, and leaves it empty.
#[unsafe(no_mangle)]
pub extern "C" fn zf_free(alloc: Global, handle: &mut Handle)
    ensures { handle.new.held.value ≡ None }
{
    if handle.is_full() {
        free(handle.take(alloc));
    }
}
