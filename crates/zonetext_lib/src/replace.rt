//! Replaces the contents of files, of all of them or none.
//!
//! The new text of each file is written to a temporary file beside it. Only after all of them are
//! written and flushed to disk are they renamed. Until then each file is unchanged, whatever fails,
//! and nobody ever sees a partial text under a file's own name.
use std::alloc::{AllocError, Global};
use std::fs::{Files, Metadata, OpenFile, OpenOptions, Permissions};
use std::io;
use std::io::{ErrorKind, Write};
use std::os::fd::AsFd;
use std::os::unix::fs::{MetadataExt, OpenOptionsExt, PermissionsExt, fchown};

/// What follows a file's name, before two numbers, in the name of its temporary file.
const NEW: &str = ".zonetext-new-";
/// Maximum number of names that are tried for a temporary file.
const MOST_NAMES: usize = 10_000;
/// What a name server appends to the name of a zone file that it changes itself, for its journal.
const JOURNAL: &str = ".jnl";
/// The permission bits of a file's mode.
const PERMISSIONS: u32 = 0o7777;

/// The error of replacing a file.
#[derive(Drop)]
pub enum Refusal {
    /// The file can't be found, read, written or renamed.
    Io(io::Error),
    /// The file is a directory, a device or a pipe.
    NoFile,
    /// A journal is beside the file: a name server changes the zone itself (dynamic updates, RFC
    /// 2136).
    Journal,
    /// The file's owner and group can't be kept.
    Owner(io::Error),
    /// The file changed since it was looked at.
    Changed,
}

impl From<io::Error> for Refusal {
    fn from(error: io::Error) -> Refusal {
        Refusal::Io(error)
    }
}

impl From<AllocError> for Refusal {
    fn from(error: AllocError) -> Refusal {
        Refusal::Io(io::Error::from(error))
    }
}

/// What distinguishes a file from one that was changed, or that replaced it.
#[derive(Clone, Copy, PartialEq, Eq)]
struct Stamp {
    device: u64,
    node: u64,
    length: u64,
    seconds: i64,
    nanoseconds: i64,
}

impl Stamp {
    fn of(metadata: &Metadata) -> Stamp {
        Stamp {
            device: metadata.dev(),
            node: metadata.ino(),
            length: metadata.len(),
            seconds: metadata.mtime(),
            nanoseconds: metadata.mtime_nsec(),
        }
    }
}

/// Returns whether a file with that name exists. A dangling link counts too.
fn exists<R: Files>(files: &R, path: &str) -> io::Result<bool> {
    match files.symlink_metadata(path) {
        Ok(_) => Ok(true),
        Err(error) if error.kind() == ErrorKind::NotFound => Ok(false),
        Err(error) => Err(error),
    }
}

/// Returns a path with a suffix appended.
fn with_suffix(alloc: Global, path: &str, suffix: &str) -> Result<String, AllocError> {
    let mut text = String::from_str(alloc, path)?;
    text.push_str(suffix)?;
    Ok(text)
}

/// A file as it was when it was looked at.
#[derive(Drop)]
pub struct Original {
    path: String,
    stamp: Stamp,
    mode: u32,
    user: u32,
    group: u32,
}

impl Original {
    /// Finds the file to which a name refers, through links.
    ///
    /// Fails if a journal is beside the file, unless `ignores_journal`.
    pub fn find<R: Files>(
        files: &R,
        alloc: Global,
        name: &str,
        ignores_journal: bool,
    ) -> Result<Original, Refusal> {
        let path = files.canonicalize(alloc, name)?.into_string();
        let metadata = files.metadata(path.as_str())?;
        if !metadata.is_file() {
            return Err(Refusal::NoFile);
        }
        let journal = with_suffix(alloc, path.as_str(), JOURNAL)?;
        if !ignores_journal && exists(files, journal.as_str())? {
            return Err(Refusal::Journal);
        }
        Ok(Original {
            path,
            stamp: Stamp::of(&metadata),
            mode: metadata.mode() & PERMISSIONS,
            user: metadata.uid(),
            group: metadata.gid(),
        })
    }

    /// Returns the path of the file.
    pub fn path(&self) -> &str {
        self.path.as_str()
    }

    /// Returns whether the file is unchanged.
    pub fn is_unchanged<R: Files>(&self, files: &R) -> io::Result<bool> {
        let metadata = files.metadata(self.path.as_str())?;
        Ok(Stamp::of(&metadata) == self.stamp)
    }

    /// Returns the directory of the file.
    fn folder(&self) -> &str {
        match self.path.as_str().rsplit_once('/') {
            None => ".",
            Some(("", _)) => "/",
            Some((folder, _)) => folder,
        }
    }
}

/// The new text of a file, as far as it is written.
#[derive(Drop)]
pub struct NewText<F: Drop> {
    original: Original,
    path: String,
    file: F,
}

/// Sets the owner, the group and the mode of a new file to those of the original.
fn copy_ownership<F: OpenFile + AsFd>(file: &F, original: &Original) -> Result<(), Refusal> {
    let mine = file.metadata()?;
    let (user, group) = (original.user, original.group);
    if mine.uid() != user || mine.gid() != group {
        // Without a new owner, an owner of the file may set its group to one of theirs.
        let owner = if mine.uid() == user { None } else { Some(user) };
        if let Err(error) = fchown(file.as_fd(), owner, Some(group)) {
            return Err(Refusal::Owner(error));
        }
    }
    file.set_permissions(Permissions::from_mode(original.mode))?;
    Ok(())
}

/// Creates a file beside another. Its name is that of the other, the number of the process, and the
/// first number for which no file exists, so that files which other processes left don't matter.
fn create_beside<R: Files>(
    files: &R,
    alloc: Global,
    path: &str,
    process: u32,
) -> Result<(String, R::File), Refusal> {
    let mut options = OpenOptions::new();
    options.write(true).create_new(true).mode(0o600);
    for number in 0..MOST_NAMES {
        let name = format!(in alloc; "{path}{NEW}{process}-{number}")?;
        match files.open_file(&options, name.as_str()) {
            Ok(file) => return Ok((name, file)),
            Err(error) if error.kind() == ErrorKind::AlreadyExists => {}
            Err(error) => return Err(Refusal::Io(error)),
        }
    }
    Err(Refusal::Io(io::Error::from(ErrorKind::AlreadyExists)))
}

impl<F: Write + OpenFile + AsFd + Drop> NewText<F> {
    /// Creates the file for a new text, beside the original, with its owner, group and mode, for
    /// the process with that number.
    ///
    /// If that fails, the file is removed.
    pub fn create<R: Files<File = F>>(
        files: &R,
        alloc: Global,
        original: Original,
        process: u32,
    ) -> Result<NewText<F>, Refusal> {
        let (path, file) = create_beside(files, alloc, original.path(), process)?;
        match copy_ownership(&file, &original) {
            Ok(()) => Ok(NewText {
                original,
                path,
                file,
            }),
            Err(refusal) => {
                let _ = files.remove_file(path.as_str());
                Err(refusal)
            }
        }
    }
}

impl<F: Write + OpenFile + Drop> NewText<F> {
    /// Appends octets to the new text.
    pub fn write(&mut self, octets: &[u8]) -> io::Result<()> {
        self.file.write_all(octets)
    }

    /// Ends the new text, after flushing it to disk, and closes its file.
    ///
    /// If that fails, the file is removed.
    fn finish<R: Files<File = F>>(self, files: &R) -> Result<Ready, Refusal> {
        let NewText {
            original,
            path,
            file,
        } = self;
        let ready = Ready { original, path };
        match file.sync_all() {
            Ok(()) => Ok(ready),
            Err(error) => {
                let _ = files.remove_file(ready.path.as_str());
                Err(Refusal::Io(error))
            }
        }
    }

    /// Discards the new text, and removes its file.
    pub fn discard<R: Files<File = F>>(self, files: &R) -> io::Result<()> {
        files.remove_file(self.path.as_str())
    }
}

/// A new text that is written, and is to replace the original.
#[derive(Drop)]
pub struct Ready {
    original: Original,
    path: String,
}

impl Ready {
    /// Returns the path of the file to be replaced.
    pub fn path(&self) -> &str {
        self.original.path()
    }

    fn discard<R: Files>(&self, files: &R) -> io::Result<()> {
        files.remove_file(self.path.as_str())
    }

    /// Fails if the original changed.
    fn check_original<R: Files>(&self, files: &R) -> Result<(), Refusal> {
        if self.original.is_unchanged(files)? {
            Ok(())
        } else {
            Err(Refusal::Changed)
        }
    }

    /// Replaces the original.
    fn rename<R: Files>(&self, files: &R) -> io::Result<()> {
        files.rename(self.path.as_str(), self.original.path())
    }

    /// Flushes the directory with the new name to disk.
    fn sync_folder<R: Files>(&self, files: &R) -> io::Result<()> {
        let mut options = OpenOptions::new();
        options.read(true);
        files
            .open_file(&options, self.original.folder())?
            .sync_all()
    }
}

/// The error if files that were to be replaced together were not, or not all.
#[derive(Drop)]
pub struct Incomplete {
    /// Number of files that were replaced: the first ones.
    pub replaced: usize,
    /// Index of the file that failed, from 0.
    pub at: usize,
    /// The error of that file.
    pub why: Refusal,
}

/// New texts that replace their originals together.
#[derive(Drop)]
pub struct Batch {
    texts: Vec<Ready>,
}

impl Batch {
    /// Returns a batch without texts.
    pub fn new(alloc: Global) -> Batch {
        Batch {
            texts: Vec::new(alloc),
        }
    }

    /// Returns the texts, in the order in which they were added.
    pub fn texts(&self) -> &[Ready] {
        self.texts.as_slice()
    }

    /// Ends a new text and adds it. If that fails, its file is removed.
    pub fn add<R: Files>(&mut self, files: &R, text: NewText<R::File>) -> Result<(), Refusal> {
        let ready = text.finish(files)?;
        match self.texts.push(ready) {
            Ok(()) => Ok(()),
            Err(refused) => {
                let _ = refused.value.discard(files);
                Err(Refusal::Io(io::Error::from(ErrorKind::OutOfMemory)))
            }
        }
    }

    /// Discards all texts, and removes their files. Returns the first error, after all were tried.
    pub fn discard<R: Files>(&self, files: &R) -> io::Result<()> {
        discard_from(files, self.texts(), 0)
    }

    /// Replaces all originals.
    ///
    /// Replaces none if one of the originals changed. Returns after all files and their directories
    /// were flushed to disk. If a file fails, those after it are unchanged, and the new texts that
    /// didn't replace their originals are removed.
    pub fn commit<R: Files>(&self, files: &R) -> Result<(), Incomplete> {
        let answer = replace_in_turn(files, self.texts());
        if let Err(incomplete) = &answer {
            let _ = discard_from(files, self.texts(), incomplete.replaced);
        }
        answer
    }
}

fn discard_from<R: Files>(files: &R, texts: &[Ready], first: usize) -> io::Result<()> {
    let mut answer = Ok(());
    for text in texts.iter().skip(first) {
        let this = text.discard(files);
        if answer.is_ok() {
            answer = this;
        }
    }
    answer
}

/// Fails with the first text whose original changed, or can't be looked at.
fn find_changed<R: Files>(files: &R, texts: &[Ready]) -> Result<(), Incomplete> {
    for (at, text) in texts.iter().enumerate() {
        if let Err(why) = text.check_original(files) {
            let replaced = 0;
            return Err(Incomplete { replaced, at, why });
        }
    }
    Ok(())
}

fn rename_all<R: Files>(files: &R, texts: &[Ready]) -> Result<(), Incomplete> {
    for (at, text) in texts.iter().enumerate() {
        if let Err(error) = text.rename(files) {
            let (replaced, why) = (at, Refusal::Io(error));
            return Err(Incomplete { replaced, at, why });
        }
    }
    Ok(())
}

fn sync_folders<R: Files>(files: &R, texts: &[Ready]) -> Result<(), Incomplete> {
    let replaced = texts.len();
    for (at, text) in texts.iter().enumerate() {
        if let Err(error) = text.sync_folder(files) {
            let why = Refusal::Io(error);
            return Err(Incomplete { replaced, at, why });
        }
    }
    Ok(())
}

fn replace_in_turn<R: Files>(files: &R, texts: &[Ready]) -> Result<(), Incomplete> {
    find_changed(files, texts)?;
    rename_all(files, texts)?;
    sync_folders(files, texts)
}
