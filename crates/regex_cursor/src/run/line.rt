//! Line formatting.
ghost use Rattle.std.specs.Prelude.{◌≡◌, ◌+◌, ◌<◌, ◌≤◌, ◌++◌, ◌∷◌, [], length};
ghost use Rattle.std.specs.Fmt.{decimal};
ghost use Rattle.regex_cursor.specs.declared.run.line.TheConstants.{LONGEST};

/// The most bytes of a line: two numbers of 20 digits, two dots and a line feed.
const LONGEST: usize = 43;

/// A line of at most 43 bytes. It takes no memory.
#[derive(Drop)]
pub struct Line {
    bytes: [u8; LONGEST],
    len: usize,
    ghost within: { len ≤ LONGEST },
}

impl Line {
    ghost use Rattle.regex_cursor.specs.Line.{line_text};

    /// Returns an empty line.
    pub fn new() -> Line
        ensures text { line_text result ≡ [] }
        ensures len { result.len ≡ 0 }
    {
        Line {
            bytes: [0; LONGEST],
            len: 0,
        }
    }

    /// Adds a byte. There has to be room for it.
    pub fn push(&mut self, byte: u8)
        requires { self.old.len < LONGEST }
        ensures text { line_text self.new ≡ line_text self.old ++ byte ∷ [] }
        ensures len { self.new.len ≡ self.old.len + 1 }
    {
        self.bytes[self.len] = byte;
        self.len += 1;
    }

    /// Adds a number in decimal, which has at most 20 digits. There has to be room for 20 bytes.
    pub fn push_decimal(&mut self, n: usize)
        requires { self.old.len ≤ 23 }
        ensures text { line_text self.new ≡ line_text self.old ++ decimal n }
        ensures len { self.new.len ≡ self.old.len + length (decimal n) }
        ensures few { self.new.len ≤ self.old.len + 20 }
    {
        if n < 10 {
            self.push(b'0' + n as u8);
            return;
        }
        self.push_decimal(n / 10);
        self.push(b'0' + (n % 10) as u8);
    }

    /// Its bytes.
    pub fn bytes(&self) -> &[u8]
        ensures { result.now ≡ line_text self.now }
    {
        &self.bytes[..self.len]
    }
}
