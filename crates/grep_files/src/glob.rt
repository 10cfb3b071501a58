//! Globs: patterns of file names.
ghost use Rattle.std.specs.Prelude.{◌≡◌, ◌<◌, ◌+◌, ◌==◌, ◌&&◌, ◌||◌, [], IfOk, drop, if◌then◌else◌, length};
ghost use Rattle.grep_files.specs.Globs.{fits};
ghost use Rattle.grep_files.specs.Marks.{marks};

use std::alloc::{AllocError, Global};

/// Of each end of a name, the shortest first, whether the empty glob fits it.
fn marked_by_none(alloc: Global, name: &[u8]) -> Result<Vec<bool>, AllocError>
    ensures { IfOk result (λ v. v.items ≡ marks [] name.now) }
{
    let mut marks = Vec::new(alloc);
    marks.push(true)?;
    for _place in (0..name.len()).rev() {
        marks.push(false)?;
    }
    Ok(marks)
}

/// Whether a glob that begins with this byte fits a name that begins with this letter. `whole` and
/// `rest` say whether the glob behind the byte fits the name, and the name behind the letter, and
/// `shorter` whether the glob fits the name behind the letter.
fn fits_longer(byte: u8, letter: u8, whole: bool, rest: bool, shorter: bool) -> bool
    ensures { result ≡ (if byte == 42 then whole || shorter
        else rest && (byte == 63 || byte == letter)) }
{
    if byte == b'*' {
        whole || shorter
    } else {
        rest && (byte == b'?' || byte == letter)
    }
}

/// Of each end of a name, the shortest first, whether a glob fits it, of those whether the glob
/// behind its first byte does.
fn marked(alloc: Global, glob: &[u8], name: &[u8], behind: &[bool]) -> Result<Vec<bool>, AllocError>
    requires some { 0 < length glob.now }
    requires long { length behind.now ≡ length name.now + 1 }
    requires behind { behind.now ≡ marks (drop 1 glob.now) name.now }
    ensures { IfOk result (λ v. v.items ≡ marks glob.now name.now) }
{
    let byte = glob[0];
    let mut marks = Vec::new(alloc);
    let mut is_fit = byte == b'*' && behind[0];
    marks.push(is_fit)?;
    for place in (0..name.len()).rev() {
        let size = name.len() - place;
        is_fit = fits_longer(byte, name[place], behind[size], behind[size - 1], is_fit);
        marks.push(is_fit)?;
    }
    Ok(marks)
}

/// Whether a name fits a glob, in which `*` stands for any bytes, `?` for one, and each other byte
/// for itself. An `Err` means out of memory.
pub fn fits(alloc: Global, glob: &str, name: &str) -> Result<bool, AllocError>
    ensures { IfOk result (λ b. b ≡ fits glob.now name.now) }
{
    let glob = glob.as_bytes();
    let name = name.as_bytes();
    let mut marks = marked_by_none(alloc, name)?;
    for place in (0..glob.len()).rev() {
        marks = marked(alloc, &glob[place..], name, &marks)?;
    }
    Ok(marks[name.len()])
}
