//! What `run` puts, what the programs `rcfind` and `rcsub` put on their standard error, and how much of their output a fault leaves.

use regex_cursor::run::{Written, program, run};
use std::alloc::Global;
use std::io;
use std::io::Read;

/// Which program is called.
#[derive(Clone, Copy)]
enum Program {
    Find,
    Replace,
}

/// The program's status, what it puts on its standard error, and what it puts into a writer with room for so many bytes.
fn told<R: Read>(
    alloc: Global,
    called: Program,
    words: &[&str],
    input: &mut R,
    room: usize,
) -> (u8, Vec<u8>, [u8; 64]) {
    let mut bytes = [0; 64];
    let mut line = Vec::new(alloc);
    let mut out = Written::new(&mut bytes[..room.min(64)]);
    let status = match called {
        Program::Find => program(alloc, words, input, &mut out, &mut line),
        Program::Replace => chunk_replace::program(alloc, words, input, &mut out, &mut line),
    };
    (status, line, bytes)
}

/// A reader that fails.
#[derive(Drop)]
struct Broken;

impl Read for Broken {
    fn read(&mut self, _: &mut [u8]) -> io::Result<usize> {
        Err(io::Error::from(io::ErrorKind::BrokenPipe))
    }
}

/// A program, its words, whether its input can be read, its status, and its line.
type Row = (Program, &'static [&'static str], bool, u8, &'static str);

const FIND: Program = Program::Find;

const REPLACE: Program = Program::Replace;

const FIND_USAGE: &str = "usage: rcfind PATTERN CHUNK\n";

const REPLACE_USAGE: &str = "usage: rcsub PATTERN TEMPLATE CHUNK\n";

const NO_PATTERN: &str = "error parsing pattern 0\n";

const NO_TEMPLATE: &str = "error parsing template at byte 2\n";

const NOT_READ: &str = "read failed\n";

/// The words are read first, then the template, then the input, and then the pattern.
const ROWS: [Row; 15] = [
    (FIND, &["ab", "2"], true, 0, ""),
    (FIND, &["abcd", "1048576"], true, 1, ""),
    (FIND, &["*", "3"], true, 2, NO_PATTERN),
    (FIND, &["(", "4"], true, 2, NO_PATTERN),
    (FIND, &["a", "0"], false, 2, FIND_USAGE),
    (FIND, &["(", "+3"], false, 2, FIND_USAGE),
    (FIND, &["a", "1", "1"], false, 2, FIND_USAGE),
    (FIND, &["(", "1"], false, 2, NOT_READ),
    (REPLACE, &["ab", "-", "2"], true, 0, ""),
    (REPLACE, &["z", "-", "2"], true, 1, ""),
    (REPLACE, &["(", "-", "1"], true, 2, NO_PATTERN),
    (REPLACE, &["b", "$", "0"], false, 2, REPLACE_USAGE),
    (REPLACE, &["b", "1"], false, 2, REPLACE_USAGE),
    (REPLACE, &["(", "é${é}", "1"], false, 2, NO_TEMPLATE),
    (REPLACE, &["(", "-", "1"], false, 2, NOT_READ),
];

#[test]
fn lines_of_faults(rt: HostRuntime) {
    for (called, words, is_read, status, line) in &ROWS {
        let answer = if *is_read {
            told(rt.alloc(), *called, words, &mut b"abcab".as_slice(), 64)
        } else {
            told(rt.alloc(), *called, words, &mut Broken, 64)
        };
        let is_told = answer.0 == *status && answer.1.as_slice() == line.as_bytes();
        assert!(rt; is_told, "{line}");
    }
}

/// A program, its words, and what it puts out.
const PUT: [(Program, &[&str], &str); 2] = [
    (FIND, &["ab", "2"], "0..2\n3..5\n"),
    (REPLACE, &["(a)(b)", "<${2}-${1}>", "2"], "<b-a>c<b-a>"),
];

/// Into a writer without room for all that is wanted goes what it has room for, and then the fault is told.
#[test]
fn failed_writes(rt: HostRuntime) {
    for (called, words, wanted) in &PUT {
        for room in 0..wanted.len() {
            let input = &mut b"abcab".as_slice();
            let (_, line, bytes) = told(rt.alloc(), *called, words, input, room);
            let is_put = wanted.as_bytes().starts_with(&bytes[..room.min(64)]);
            assert!(rt;
                is_put && line.as_slice() == b"write failed\n".as_slice(),
                "{room}"
            );
        }
    }
}

/// Whether `run` finds a match of the pattern in two chunks, and puts these lines.
fn puts(alloc: Global, pattern: &str, lines: &[u8]) -> bool {
    let mut bytes = [0; 10];
    let chunks: [&[u8]; 2] = [b"abc", b"ab"];
    let is_found = match run(alloc, pattern, &chunks, &mut Written::new(&mut bytes[..])) {
        Ok(is_found) => is_found,
        Err(_) => false,
    };
    is_found && bytes.as_slice() == lines
}

#[test]
fn lines_of_matches(rt: HostRuntime) {
    let is_put = puts(rt.alloc(), "ab", b"0..2\n3..5\n");
    assert!(rt; is_put);
}
