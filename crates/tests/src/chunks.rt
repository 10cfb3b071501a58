//! Where the chunks of a list lie, as a cursor goes over it.

use regex_cursor::Cursor;
use regex_cursor::cursor::{AtError, ChunkCursor};
use std::test::Fail;

/// For each move, on or back, whether it is made, and where the chunk that is shown then begins and ends.
const MOVES: [(bool, bool, usize, usize); 6] = [
    (false, false, 0, 2),
    (true, true, 2, 3),
    (true, true, 3, 6),
    (true, false, 3, 6),
    (false, true, 2, 3),
    (false, true, 0, 2),
];

/// Empty chunks are passed over, and a move that isn't made changes nothing.
#[test]
fn on_and_back(rt: HostRuntime) -> Result<(), Fail> {
    let chunks: [&[u8]; 7] = [b"", b"ab", b"", b"", b"c", b"def", b""];
    let mut cursor = ChunkCursor::new(&chunks)?;
    for (on, is_made, start, end) in MOVES {
        let moved = if on {
            cursor.advance()
        } else {
            cursor.backtrack()
        };
        let last = cursor.offset().saturating_add(cursor.chunk().len());
        assert!(rt; moved == is_made && cursor.offset() == start && last == end);
    }
    Ok(())
}

/// A place within the last chunk, or at its end, shows that chunk. A move on isn't made, and one back passes over the empty one.
#[test]
fn begun_at_a_place(rt: HostRuntime) {
    let chunks: [&[u8]; 3] = [b"ab", b"", b"cde"];
    for at in [3, 5] {
        let is_last = match ChunkCursor::at(&chunks, at) {
            Ok(mut cursor) => {
                let is_shown = cursor.chunk() == b"cde".as_slice() && cursor.offset() == 2;
                let goes_on = cursor.advance();
                let goes_back = cursor.backtrack();
                is_shown && !goes_on && goes_back && cursor.chunk() == b"ab".as_slice()
            }
            Err(_) => false,
        };
        assert!(rt; is_last, "{at}");
    }
    let is_past = match ChunkCursor::at(&chunks, 6) {
        Err(error) => error == AtError::PastEnd,
        Ok(_) => false,
    };
    assert!(rt; is_past);
}
