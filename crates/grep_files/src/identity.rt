//! File identity: whether two open files are the same one.
ghost use Rattle.std.specs.Prelude.{◌↔◌, IsSome};
ghost use Rattle.std.specs.Fs.{IsFile, file_type};

use std::fs;
use std::fs::{File, Metadata};
use std::os::unix::fs::MetadataExt;

/// The names under which Linux shows the standard input and output of the process that asks.
const STDIN: &str = "/proc/self/fd/0";

const STDOUT: &str = "/proc/self/fd/1";

/// The device and the inode of a regular file, or of a folder.
#[derive(Clone, Copy, PartialEq, Eq)]
pub struct Identity {
    device: u64,
    inode: u64,
}

impl Identity {
    /// That of a file with this metadata, or `None` if it isn't a regular file.
    fn of_regular(metadata: &Metadata) -> Option<Identity>
        ensures { IsSome result ↔ IsFile (file_type metadata.now) }
    {
        if !metadata.is_file() {
            return None;
        }
        Some(Identity {
            device: metadata.dev(),
            inode: metadata.ino(),
        })
    }

    /// That of a folder, or `None` if the path is none, or the system doesn't tell it.
    pub fn of_folder(rt: &HostRuntime, path: &str) -> Option<Identity> {
        let metadata = fs::metadata(rt, path).ok()?;
        if !metadata.is_dir() {
            return None;
        }
        Some(Identity {
            device: metadata.dev(),
            inode: metadata.ino(),
        })
    }

    /// That of a path, or `None` if the system doesn't tell it.
    fn of_path(rt: &HostRuntime, path: &str) -> Option<Identity> {
        let metadata = fs::metadata(rt, path).ok()?;
        Identity::of_regular(&metadata)
    }

    /// That of an open file.
    pub fn of_file(file: &File) -> Option<Identity> {
        let metadata = file.metadata().ok()?;
        Identity::of_regular(&metadata)
    }

    /// That of an open file, and the file's size in bytes.
    pub fn with_size(file: &File) -> Option<(Identity, u64)> {
        let metadata = file.metadata().ok()?;
        let identity = Identity::of_regular(&metadata)?;
        Some((identity, metadata.len()))
    }

    /// That of the standard input.
    pub fn of_stdin(rt: &HostRuntime) -> Option<Identity> {
        Identity::of_path(rt, STDIN)
    }

    /// That of the standard output.
    pub fn of_stdout(rt: &HostRuntime) -> Option<Identity> {
        Identity::of_path(rt, STDOUT)
    }
}
