//! The pieces in which replaced texts are put.
ghost use Rattle.std.specs.Prelude.{false};

use chunk_replace::{Template, replace_all};
use regex_cursor::engines::meta::Regex;
use regex_cursor::run::Sink;
use std::io;
use std::test::Fail;

/// A sink that takes each piece whole. It keeps how many bytes it took, and how many the longest piece had.
#[derive(Drop)]
struct Longest {
    bytes: usize,
    longest: usize,
}

impl Sink for Longest {
    ghost has_failed = { λ _. false };

    fn put(&mut self, bytes: &[u8]) -> io::Result<usize> {
        self.bytes = self.bytes.saturating_add(bytes.len());
        self.longest = self.longest.max(bytes.len());
        Ok(bytes.len())
    }

    fn failed(&self) -> bool {
        false
    }
}

/// No chunks are joined: neither before a match, nor in its groups, nor behind it.
#[test]
fn puts_a_chunk_at_a_time(rt: HostRuntime) -> Result<(), Fail> {
    let alloc = rt.alloc();
    let chunks: [&[u8]; 10] = [
        b"ab", b"cd", b"e1", b"23", b"", b"45", b"-6", b"78", b"9f", b"gh",
    ];
    let mut sink = Longest {
        bytes: 0,
        longest: 0,
    };
    let template = Template::parse(alloc, "<${2}-${1}>")?;
    let regex = Regex::new(alloc, r"(\d+)-(\d+)")?;
    let count = replace_all(alloc, &regex, &chunks, &template, &mut sink);
    drop(regex);
    assert!(rt; count? == 1 && sink.bytes == 20 && sink.longest == 2);
    Ok(())
}
