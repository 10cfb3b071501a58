//! Byte frequencies: how common bytes are in most texts. No search result depends on them; they
//! only decide which way to search pays.

/// The most common bytes of most texts, the most common one first.
pub const MOST_COMMON: &[u8] = b" etsranolicudfpmhbgwyvk\n0";

/// Whether the byte is common in most texts.
pub fn is_common(byte: u8) -> bool {
    matches!(byte, b' ' | b'\n' | b'0'..=b'9' | b'a'..=b'z')
}

/// Roughly how many of a thousand bytes of most texts are this byte.
pub fn per_thousand(byte: u8) -> usize {
    match byte {
        b' ' => 180,
        b'e' | b't' => 70,
        b'a' | b'i' | b'n' | b'o' | b'r' | b's' => 45,
        b'\n' | b'c' | b'd' | b'h' | b'l' | b'm' | b'p' | b'u' => 25,
        b'b' | b'f' | b'g' | b'k' | b'v' | b'w' | b'y' => 15,
        b'(' | b')' | b',' | b'.' | b'_' => 10,
        b'\t' | b'0'..=b'9' | b'x' => 5,
        b'!'..=255 => 2,
        _ => 1,
    }
}
