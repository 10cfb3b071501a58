//! Changed files: a new file takes the place of an old one.

use crate::replacer::Replacer;
use crate::rewrite::Fault;
use std::alloc::Global;
use std::fs::File;
use std::io::ErrorKind;
use std::{fs, io};

/// What a new file is called while it is written, behind the name of the old one.
const NEW: &str = ".rcsub-new";

/// What the backup is called until it takes its name, behind the name of the file.
const OLD: &str = ".rcsub-old";

/// A name with something behind it.
fn name_with(alloc: Global, name: &str, suffix: &str) -> io::Result<String> {
    let mut text = String::from_str(alloc, name)?;
    text.push_str(suffix)?;
    Ok(text)
}

/// Writes the replaced text of a file to a new one, and returns whether there was a match. It is on
/// the disk then, and has the permissions of the old one.
fn write_new(
    rt: &HostRuntime,
    replacer: &Replacer<'_>,
    by_line: bool,
    old: File,
    new: File,
) -> Result<bool, Fault> {
    let permissions = old.metadata()?.permissions();
    new.set_permissions(permissions)?;
    let (any, new) = replacer.rewrite_over(rt.alloc(), by_line, old, new)?;
    new.sync_all()?;
    Ok(any)
}

/// Puts a new file into the place of an old one, which is kept under a name with this suffix if there
/// is one. At each moment there is a whole file under the name: the old one or the new one.
fn put_in_place(rt: &HostRuntime, name: &str, new: &str, suffix: Option<&str>) -> io::Result<()> {
    if let Some(suffix) = suffix {
        let linked = name_with(rt.alloc(), name, OLD)?;
        let backup = name_with(rt.alloc(), name, suffix)?;
        fs::hard_link(rt, name, linked.as_str())?;
        if let Err(fault) = fs::rename(rt, linked.as_str(), backup.as_str()) {
            let _ = fs::remove_file(rt, linked.as_str());
            return Err(fault);
        }
    }
    fs::rename(rt, new, name)
}

/// Changes a file: its replaced text is written to a new file beside it, which takes its place once
/// all of it is on the disk. The file is kept under its name and the suffix if there is one. Returns
/// whether there was a match; if there was none, nothing is changed. After an `Err` the file is as it
/// was. A link is followed.
pub fn change(
    rt: &HostRuntime,
    replacer: &Replacer<'_>,
    by_line: bool,
    path: &str,
    suffix: Option<&str>,
) -> Result<bool, Fault> {
    let name = fs::canonicalize(rt, path)?;
    let name = name.as_str();
    if !fs::metadata(rt, name)?.is_file() {
        return Err(Fault::Read(io::Error::from(ErrorKind::InvalidInput)));
    }
    let old = File::open(rt, name)?;
    let new_name = name_with(rt.alloc(), name, NEW)?;
    let new = File::create_new(rt, new_name.as_str())?;
    let written = write_new(rt, replacer, by_line, old, new);
    let placed = match written {
        Ok(true) => match put_in_place(rt, name, new_name.as_str(), suffix) {
            Ok(()) => return Ok(true),
            Err(fault) => Err(Fault::Read(fault)),
        },
        other => other,
    };
    let _ = fs::remove_file(rt, new_name.as_str());
    placed
}
