//! Settings as C hands them over: the bytes of a `struct zf_settings`, of this version or another.
ghost use Rattle.std.specs.Prelude.{◌≡◌, ◌<◌, SomeIff};
ghost use Rattle.zorfelith_c.specs.Options.{IsKnown, byte_in, is_known, settings_in, word_in};

use searcher::Settings;

/// The number of bytes that are known.
const SIZE: usize = 40;

/// Returns the settings with these bytes, or `None` if a byte behind those that are known isn't 0.
/// Bytes that are missing are read as 0.
pub(crate) fn settings_of(bytes: &[u8]) -> Option<Settings>
    ensures { SomeIff result (IsKnown bytes.now) (settings_in bytes.now) }
{
    if !is_known(bytes) {
        return None;
    }
    Some(Settings {
        case_insensitive: byte_at(bytes, 0),
        multi_line: byte_at(bytes, 1),
        dot_matches_new_line: byte_at(bytes, 2),
        crlf: byte_at(bytes, 3),
        swap_greed: byte_at(bytes, 4),
        bytes: byte_at(bytes, 5),
        any_bytes: byte_at(bytes, 6),
        split_characters: byte_at(bytes, 7),
        kind: byte_at(bytes, 8),
        size_limit: word_at(bytes, 16),
        cache_capacity: word_at(bytes, 24),
        full: word_at(bytes, 32),
    })
}

/// Whether each byte behind those that are known is 0.
fn is_known(bytes: &[u8]) -> bool
    ensures { result ≡ is_known bytes.now }
{
    bytes.iter().skip(SIZE).all(|byte| *byte == 0)
}

/// The byte at a place, or 0 behind the last.
fn byte_at(bytes: &[u8], at: usize) -> u8
    ensures { result ≡ byte_in bytes.now at }
{
    bytes.get(at).copied().unwrap_or(0)
}

/// The number in the eight bytes from a place on, as x86-64 stores it.
fn word_at(bytes: &[u8], at: usize) -> usize
    requires { at < 256 }
    ensures { result ≡ word_in bytes.now at }
{
    usize::from_le_bytes([
        byte_at(bytes, at),
        byte_at(bytes, at + 1),
        byte_at(bytes, at + 2),
        byte_at(bytes, at + 3),
        byte_at(bytes, at + 4),
        byte_at(bytes, at + 5),
        byte_at(bytes, at + 6),
        byte_at(bytes, at + 7),
    ])
}
