//! Folder walk: the files that a command line names, and those in folders, in the order of their
//! names.
ghost use Rattle.std.specs.Prelude.{◌≡◌, ◌∷◌, ◌↔◌, [], All, IfErr, IfOk, IfSome, IsTrue, MatchOption, MatchResult, false, map, string_bytes};
ghost use Rattle.grep_files.specs.Walks.{GoesOn, fits_any, IsEntered, IsEntry, IsTaken, ahead, choice_of, is_chosen, is_shut, seen};
ghost use Rattle.grep_files.specs.Entered.{ArePaths, HasEntered};

use crate::glob::fits;
use crate::identity::Identity;
use std::alloc::{AllocError, Global};
use std::collections::VecDeque;
use std::fs::{DirEntry, FileType, ReadDir};
use std::io::ErrorKind;
use std::path::Path;
use std::{fs, io};

/// Which files of folders are searched.
#[derive(Drop)]
pub struct Choice<'w> {
    /// Whether folders are searched.
    pub is_recursive: bool,
    /// The name of a file has to fit one of these globs, if there are any.
    pub include: Vec<&'w str>,
    /// The name of a file fits none of these.
    pub exclude: Vec<&'w str>,
    /// The name of a folder fits none of these.
    pub exclude_dir: Vec<&'w str>,
    /// Whether links in folders are followed.
    pub follows_links: bool,
    /// Whether names that begin with a dot are searched too.
    pub hidden: bool,
}

/// A file that is to be searched.
#[derive(Drop)]
pub struct FoundFile {
    pub path: String,
    /// Whether it was found in a folder.
    pub is_in_folder: bool,
}

/// Why a file can't be searched.
#[derive(Drop)]
pub struct WalkError {
    pub path: String,
    pub fault: io::Error,
}

/// A walk over files and folders. A link in a folder isn't followed unless that is asked for. Then a
/// folder that a link leads back to isn't entered on the way through itself.
#[derive(Drop)]
pub struct Walk<'w> {
    alloc: Global,
    choice: Choice<'w>,
    /// The files and folders that are left, in order.
    left: VecDeque<FoundFile>,
    /// The length of the path of the last file or folder of the command line, without slashes behind it.
    named_len: usize,
}

/// Whether a name fits one of the globs.
fn fits_any(alloc: Global, globs: &[&str], name: &str) -> Result<bool, AllocError>
    ensures { IfOk result (λ b. b ≡ fits_any globs.now name.now) }
{
    for glob in globs {
        if fits(alloc, glob, name)? {
            return Ok(true);
        }
    }
    Ok(false)
}

/// Whether a folder is one of those on the way to it, as its path has them, from the named one on,
/// whose path has so many bytes: a link led back.
fn is_on_the_way(rt: &HostRuntime, path: &str, named_len: usize) -> bool {
    let path = path.trim_end_matches('/');
    let Some(own) = Identity::of_folder(rt, path) else {
        return false;
    };
    for (place, _) in path.match_indices('/') {
        let front = path.get(..place).unwrap_or("");
        if place >= named_len && Identity::of_folder(rt, front) == Some(own) {
            return true;
        }
    }
    false
}

impl<'w> Choice<'w> {
    /// Whether a file of this name, in a folder, is searched by the globs.
    fn is_chosen(&self, alloc: Global, name: &str) -> Result<bool, AllocError>
        ensures { IfOk result (λ b. b ≡ is_chosen self.now name.now) }
    {
        if !self.include.is_empty() && !fits_any(alloc, &self.include, name)? {
            return Ok(false);
        }
        Ok(!fits_any(alloc, &self.exclude, name)?)
    }

    /// Whether an entry of a folder, of this kind and name, is searched.
    fn takes(&self, alloc: Global, kind: FileType, name: &str) -> Result<bool, AllocError>
        ensures { IfOk result (λ b. IsTrue b ↔ IsTaken self.now kind name.now) }
    {
        if name.starts_with('.') && !self.hidden {
            return Ok(false);
        }
        if kind.is_dir() {
            return Ok(!fits_any(alloc, &self.exclude_dir, name)?);
        }
        let is_read = kind.is_file() || (self.follows_links && kind.is_symlink());
        Ok(is_read && self.is_chosen(alloc, name)?)
    }

    /// What kind of file an entry is: that to which a link leads, if links are followed and it leads
    /// to one.
    fn kind_of(&self, rt: &HostRuntime, entry: &DirEntry) -> io::Result<FileType> {
        let kind = entry.file_type()?;
        if self.follows_links && kind.is_symlink() {
            if let Ok(metadata) = fs::metadata(rt, entry.path().as_str()) {
                return Ok(metadata.file_type());
            }
        }
        Ok(kind)
    }

    /// Whether a folder is passed over by its name. One without a name, as `.`, never is.
    fn is_shut(&self, alloc: Global, path: &str) -> Result<bool, AllocError>
        ensures { IfOk result (λ b. b ≡ is_shut self.now path.now) }
    {
        match Path::new(path).file_name() {
            Some(name) => fits_any(alloc, &self.exclude_dir, name),
            None => Ok(false),
        }
    }

    /// The path of an entry of a folder if it is searched.
    fn path_of(&self, rt: &HostRuntime, entry: io::Result<DirEntry>) -> io::Result<Option<String>>
        ensures { IfOk result (λ o. IfSome o (λ p. IsEntry self.now (string_bytes p))) }
    {
        let alloc = rt.alloc();
        let entry = entry?;
        let kind = self.kind_of(rt, &entry)?;
        if !self.takes(alloc, kind, entry.file_name())? {
            return Ok(None);
        }
        let path = String::from_str(alloc, entry.path().as_str())?;
        Ok(Some(path))
    }

    /// The paths of the entries of a folder that are searched, in the order of their names, and the
    /// fault of the first entry that can't be read.
    fn paths_in(
        &self,
        rt: &HostRuntime,
        entries: ReadDir,
    ) -> Result<(Vec<String>, Option<io::Error>), AllocError>
        ensures { IfOk result (λ r. ArePaths self.now r.0.items) }
    {
        let mut paths = Vec::new(rt.alloc());
        let mut first_fault = None;
        for entry in entries {
            match self.path_of(rt, entry) {
                Ok(Some(path)) => paths.push(path)?,
                Ok(None) => {}
                Err(fault) => {
                    if first_fault.is_none() {
                        first_fault = Some(fault);
                    }
                }
            }
        }
        paths.sort()?;
        Ok((paths, first_fault))
    }
}

impl<'w> Walk<'w> {
    /// Returns a walk over the files and folders with these names, in their order. An `Err` means
    /// out of memory.
    pub fn new(alloc: Global, names: &[&str], choice: Choice<'w>) -> Result<Walk<'w>, AllocError>
        ensures choice { IfOk result (λ w. choice_of w ≡ choice.entry) }
        ensures names { IfOk result (λ w. map seen (ahead w)
            ≡ map (λ n. (n.now, false)) names.now) }
    {
        let mut left = VecDeque::new(alloc);
        for name in names {
            left.push_back(FoundFile {
                path: String::from_str(alloc, name)?,
                is_in_folder: false,
            })?;
        }
        Ok(Walk {
            alloc,
            choice,
            left,
            named_len: 0,
        })
    }

    /// Takes the entries of a folder for the next files, unless it is passed over: its name is
    /// excluded, or a link led back to it. An `Err` is a fault of the folder, or of an entry; the
    /// others are taken.
    fn enter(&mut self, rt: &HostRuntime, path: &str) -> io::Result<()>
        ensures { HasEntered path.now self.old self.new }
    {
        if self.choice.is_shut(self.alloc, path)? {
            return Ok(());
        }
        if self.choice.follows_links && is_on_the_way(rt, path, self.named_len) {
            return Ok(());
        }
        let entries = fs::read_dir(rt, path)?;
        let (mut paths, fault) = self.choice.paths_in(rt, entries)?;
        while let Some(path) = paths.pop() {
            self.left.push_front(FoundFile {
                path,
                is_in_folder: true,
            })?;
        }
        match fault {
            Some(fault) => Err(fault),
            None => Ok(()),
        }
    }

    /// The length of the path of the command line by which the walk came to the next file.
    fn named_len_at(&self, next: &FoundFile) -> usize {
        if next.is_in_folder {
            self.named_len
        } else {
            next.path.as_str().trim_end_matches('/').len()
        }
    }

    /// Whether this is a folder that is searched.
    fn is_folder(&self, rt: &HostRuntime, path: &str) -> bool
        ensures { IsTrue result → IsEntered (choice_of self.now) path.now }
    {
        if !self.choice.is_recursive || path == "-" {
            return false;
        }
        match fs::metadata(rt, path) {
            Ok(metadata) => metadata.is_dir(),
            Err(_) => false,
        }
    }

    /// The next file, or `None` at the end. An `Err` is a folder that can't be read; the walk goes on
    /// behind it.
    pub fn next_file(&mut self, rt: &HostRuntime) -> Result<Option<FoundFile>, WalkError>
        ensures choice { choice_of self.new ≡ choice_of self.old }
        ensures found { MatchResult result
            (λ o. MatchOption o
            (GoesOn (choice_of self.old) (ahead self.old) [] × (ahead self.new ≡ []))
            (λ f. GoesOn (choice_of self.old) (ahead self.old) (f ∷ ahead self.new)))
            (λ _. GoesOn (choice_of self.old) (ahead self.old) (ahead self.new)) }
    {
        for _ in 0..u64::MAX {
            let Some(file) = self.left.pop_front() else {
                return Ok(None);
            };
            self.named_len = self.named_len_at(&file);
            if !self.is_folder(rt, file.path.as_str()) {
                return Ok(Some(file));
            }
            if let Err(fault) = self.enter(rt, file.path.as_str()) {
                return Err(WalkError {
                    path: file.path,
                    fault,
                });
            }
        }
        Err(WalkError {
            path: String::new(self.alloc),
            fault: io::Error::from(ErrorKind::Other),
        })
    }
}
