//! Match lines, written to a sink.
ghost use Rattle.std.specs.Prelude.{◌≡◌, true, OnOk, OnErr};
ghost use Rattle.std.specs.Io.KnownBytes.{Appends};
ghost use Rattle.regex_cursor.specs.Output.{line_of};
ghost use Rattle.regex_cursor.specs.Put.{Puts};

use super::line::Line;
use crate::run::Sink;
use rc_text::types::Match;
use std::io;

/// Writes all bytes of a piece, in as many calls as it takes. After an error some first bytes were
/// written.
pub fn put_all<W: Sink>(out: &mut W, bytes: &[u8]) -> io::Result<()>
    ensures appended { OnOk result (Appends (W.taken out.old) (W.taken out.new) bytes.now) }
    ensures put { Puts result (W.taken out.old) (W.taken out.new) bytes.now }
    ensures ok { OnOk result (W.has_failed out.new ≡ W.has_failed out.old) }
    ensures err { OnErr result (W.has_failed out.new ≡ true) }
{
    let mut rest = bytes;
    while !rest.is_empty() {
        let n = match out.put(rest) {
            Ok(n) => n,
            Err(error) => return Err(error),
        };
        rest = &rest[n..];
    }
    Ok(())
}

/// Writes the line of a match, in one call if the sink takes it whole. It takes no memory.
pub fn put_line<W: Sink>(out: &mut W, found: Match) -> io::Result<()>
    ensures appended { OnOk result (Appends (W.taken out.old) (W.taken out.new) (line_of found)) }
    ensures ok { OnOk result (W.has_failed out.new ≡ W.has_failed out.old) }
    ensures err { OnErr result (W.has_failed out.new ≡ true) }
{
    let mut line = Line::new();
    line.push_decimal(found.start());
    line.push(b'.');
    line.push(b'.');
    line.push_decimal(found.end());
    line.push(b'\n');
    put_all(out, line.bytes())
}
