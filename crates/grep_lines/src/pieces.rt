//! Pieces of a line: a line is told as far as the buffer of its reader has it, and isn't held.
ghost use Rattle.std.specs.Prelude.{◌≡◌, ◌≢◌, ◌++◌, ℕ, Bool, List, IfErr, IfOk, IfSome, OnOk, true};
ghost use Rattle.std.specs.IoError.{error_kind};
ghost use Rattle.grep_lines.specs.Pieces.{Begins, TellsPiece, TellsRest};

use memchr::memchr;
use std::io;
use std::io::{BufRead, ErrorKind};

/// What is told the bytes of a line, piece by piece.
pub trait LinePieces {
    /// Whether these are the bytes that it was told so far.
    ghost was_told: { Self → List ℕ → Type 0 };

    /// What it tells of a line, if it tells anything.
    ghost tests: { Self → List ℕ → Bool } = { λ _ _. true };

    /// Takes the next bytes of the line.
    fn take(&mut self, piece: &[u8]) -> io::Result<()>
        ensures told { OnOk result ((bytes : List ℕ) → was_told self.old bytes
            → was_told self.new (bytes ++ piece.now)) }
        ensures same { tests self.new ≡ tests self.old }
        ensures failed { IfErr result (λ e. error_kind e ≢ ErrorKind.Interrupted) };
}

/// It holds the bytes.
impl LinePieces for Vec<u8> {
    ghost was_told = { λ v bytes. v.items ≡ bytes };

    fn take(&mut self, piece: &[u8]) -> io::Result<()> {
        self.extend_from_slice(piece)?;
        Ok(())
    }
}

/// What is behind a piece of a line.
#[derive(Clone, Copy)]
pub(crate) enum Behind {
    /// The rest of the line, which may be empty.
    More,
    /// The terminator of the line, which was consumed.
    Terminator,
    /// The end of the text.
    End,
}

/// A piece of a line that was told.
#[derive(Clone, Copy)]
pub(crate) struct Piece {
    /// The number of its bytes.
    pub len: usize,
    pub behind: Behind,
}

/// How a line was begun.
#[derive(Clone, Copy)]
pub enum Begun {
    /// There is no line.
    End,
    /// It was read as a whole.
    Whole,
    /// It is long. The first bytes of it were read.
    Long,
}

/// Tells the next piece of a line: as much of it as the buffer of the reader has.
fn next_piece<R: BufRead, P: LinePieces>(
    reader: &mut R,
    terminator: u8,
    pieces: &mut P,
) -> io::Result<Piece>
    ensures told { IfOk result (λ piece. IfSome (R.remaining reader.old) (λ text.
        TellsPiece terminator (P.was_told pieces.old) (P.was_told pieces.new) text
        (R.remaining reader.new) piece)) }
    ensures same { P.tests pieces.new ≡ P.tests pieces.old }
    ensures retried { IfErr result (λ e. error_kind e ≢ ErrorKind.Interrupted) }
{
    let page = match reader.fill_buf() {
        Ok(page) => page,
        Err(fault) if fault.kind() == ErrorKind::Interrupted => {
            return Ok(Piece {
                len: 0,
                behind: Behind::More,
            });
        }
        Err(fault) => return Err(fault),
    };
    if page.is_empty() {
        return Ok(Piece {
            len: 0,
            behind: Behind::End,
        });
    }
    let Some(len) = memchr(terminator, page) else {
        let len = page.len();
        pieces.take(page)?;
        reader.consume(len);
        return Ok(Piece {
            len,
            behind: Behind::More,
        });
    };
    pieces.take(&page[..len])?;
    reader.consume(len + 1);
    Ok(Piece {
        len,
        behind: Behind::Terminator,
    })
}

/// Tells what is left of a line, piece by piece, as the buffer of the reader has it. Returns how many
/// bytes it has. The terminator is consumed, and isn't told. There is none if the text ends.
///
/// An `Err` is one of the reader, or of the pieces, or comes after 2^64 - 1 bytes.
pub fn read_pieces<R: BufRead, P: LinePieces>(
    reader: &mut R,
    terminator: u8,
    pieces: &mut P,
) -> io::Result<u64>
    ensures told { IfOk result (λ len. IfSome (R.remaining reader.old) (λ text.
        TellsRest terminator (P.was_told pieces.old) (P.was_told pieces.new) text
        (R.remaining reader.new) len)) }
    ensures same { P.tests pieces.new ≡ P.tests pieces.old }
    ensures retried { IfErr result (λ e. error_kind e ≢ ErrorKind.Interrupted) }
{
    let mut len: u64 = 0;
    for _ in 0..u64::MAX {
        let piece = next_piece(reader, terminator, pieces)?;
        let Some(sum) = len.checked_add(piece.len as u64) else {
            break;
        };
        len = sum;
        match piece.behind {
            Behind::More => {}
            Behind::Terminator | Behind::End => return Ok(len),
        }
    }
    Err(io::Error::from(ErrorKind::Other))
}

/// Reads the next line into `line` as `next_line` does, but no further than to the end of the page in
/// which `line` gets so many bytes. The reader has the rest of the line then.
///
/// An `Err` is one of the reader, or out of memory for the line.
pub fn begin_line<R: BufRead>(
    reader: &mut R,
    terminator: u8,
    line: &mut Vec<u8>,
    most: usize,
) -> io::Result<Begun>
    ensures begun { IfOk result (λ begun. IfSome (R.remaining reader.old) (λ text.
        Begins terminator most text line.new.items (R.remaining reader.new) begun)) }
    ensures retried { IfErr result (λ e. error_kind e ≢ ErrorKind.Interrupted) }
{
    line.clear();
    for _ in 0..u64::MAX {
        match next_piece(reader, terminator, line)?.behind {
            Behind::Terminator => return Ok(Begun::Whole),
            Behind::End if line.is_empty() => return Ok(Begun::End),
            Behind::End => return Ok(Begun::Whole),
            Behind::More if !line.is_empty() && line.len() >= most => return Ok(Begun::Long),
            Behind::More => {}
        }
    }
    Err(io::Error::from(ErrorKind::Other))
}
