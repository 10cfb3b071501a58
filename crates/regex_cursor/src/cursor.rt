//! Cursors: contents that are shown a chunk at a time.

pub use rc_pieces::pieces::Piece;
pub use rc_pieces::slices::SliceCursor;
pub use rc_pieces::spans::SpanPieces;
pub use rc_text::chunks::{AtError, ChunkCursor, TooLong};
pub use rc_text::cursor::Cursor;
