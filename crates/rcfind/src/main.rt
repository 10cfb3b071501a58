//! Command line `rcfind`: finds a pattern in the standard input, read in chunks of a given length,
//! and prints a line for each match.
#![tactic(auto)]

ghost use Rattle.std.specs.Prelude.{◌≡◌, ◌≢◌, nat_eq, IfOk, IfSome, List, ℕ};
ghost use Rattle.std.specs.Io.KnownBytes.{Keeps};
ghost use Rattle.regex_cursor.specs.Output.{IsRun};
ghost use Rattle.regex_cursor.specs.Words.{AreWords};

use buffered_sink::BufferedSink;
use regex_cursor::run::program;
use std::alloc::{AllocError, Global};
use std::io;
use std::io::{Read, Write};
use std::process::ExitCode;

/// The status if there is a match.
const MATCHED: u8 = 0;

/// The status of an error.
const FAULT: u8 = 2;

/// The arguments of the program. An error means out of memory, or an argument that isn't text.
fn words_of(rt: &HostRuntime) -> io::Result<Vec<String>> {
    let words = std::env::args(rt)?.skip(1).collect(rt.alloc())?;
    Ok(words)
}

/// The arguments, borrowed.
fn lent(alloc: Global, words: &[String]) -> Result<Vec<&str>, AllocError> {
    let mut lent = Vec::new(alloc);
    for word in words {
        lent.push(word.as_str())?;
    }
    Ok(lent)
}

/// Writes the line of an error, and returns its status. An error of the writer is ignored.
fn report<E: Write>(err: &mut E, line: &str) -> u8 {
    let _ = writeln!(err, "{line}");
    FAULT
}

/// Runs the program with these arguments over a writer, which gets the lines in long pieces. It
/// returns the status, and the writer once all was written. An `Err` is the status of an error, of
/// which a line was written to `err`: out of memory, or the writer failed at last.
fn run_over<R: Read, W: Write + Drop, E: Write>(
    alloc: Global,
    words: &[&str],
    input: &mut R,
    out: W,
    err: &mut E,
) -> Result<(u8, W), u8>
    ensures done { IfOk result (λ r. r.0 ≢ FAULT → (text : List ℕ) × AreWords words.now text
        × IfSome (R.remaining input.old)
        (λ bytes. IsRun text bytes (W.contents out) (W.contents r.1) (nat_eq r.0 MATCHED))) }
    ensures unread { ¬ ((text : List ℕ) × AreWords words.now text)
        → Keeps (R.remaining input.old) (R.remaining input.new) }
{
    let Ok(mut sink) = BufferedSink::new(alloc, out) else {
        return Err(report(err, "out of memory"));
    };
    let status = program(alloc, words, input, &mut sink, err);
    match sink.into_inner() {
        Ok(out) => Ok((status, out)),
        Err(_) if status == FAULT => Err(FAULT),
        Err(_) => Err(report(err, "write failed")),
    }
}

/// Runs the program with these arguments.
fn run_with(rt: &HostRuntime, words: &[&str]) -> u8 {
    let ran = run_over(
        rt.alloc(),
        words,
        &mut rt.stdin(),
        rt.stdout(),
        &mut rt.stderr(),
    );
    match ran {
        Ok((status, _)) => status,
        Err(status) => status,
    }
}

/// Reports that memory ran out.
fn out_of_memory(rt: &HostRuntime) -> u8 {
    report(&mut rt.stderr(), "out of memory")
}

fn main(rt: HostRuntime) -> ExitCode {
    let status = match words_of(&rt) {
        Ok(words) => match lent(rt.alloc(), &words) {
            Ok(words) => run_with(&rt, &words),
            Err(_) => out_of_memory(&rt),
        },
        Err(fault) if fault.kind() == io::ErrorKind::OutOfMemory => out_of_memory(&rt),
        Err(_) => run_with(&rt, &[]),
    };
    ExitCode::from(status)
}
