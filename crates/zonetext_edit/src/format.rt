//! The command `fmt`: formats zone files.
use crate::formed::{DiffPrinter, FormOutput, FormatCheck};
use dns_lexer::position::Position;
use std::alloc::AllocError;
use std::fs::{File, metadata};
use std::io::{ErrorKind, Read, Write};
use std::{io, process};
use zonetext_files::blocks::{
    BlockVisitor, FileError, visit_blocks_of_file, visit_blocks_of_octets,
};
use zonetext_files::files::report;
use zonetext_files::progress::Progress;
use zonetext_files::shown::Shown;
use zonetext_files::stop::EXIT_IO;
use zonetext_lib::blocks::ChunkError;
use zonetext_lib::formatter::NoForm;
use zonetext_lib::replace::{Batch, Incomplete, NewText, Original, Refusal};

/// What is done with the formatted text of files.
#[derive(Clone, Copy, PartialEq, Eq)]
pub enum Mode {
    /// It is written to standard output.
    Print,
    /// It replaces the files.
    Write {
        /// Whether zones with a journal next to them are changed too.
        ignores_journal: bool,
    },
    /// Files that would change are listed.
    Check,
    /// The changes are shown as a unified diff.
    Diff,
}

/// The options of the command.
#[derive(Clone, Copy)]
pub struct FormatOptions {
    pub mode: Mode,
    pub is_quiet: bool,
}

/// The status if files would change, or are not zone files.
const FOUND: u8 = 1;

/// Reports something about a file on standard error, and returns the status.
fn report_refused(rt: &HostRuntime, file: &str, what: &str) -> io::Result<u8> {
    let file = Shown(file);
    eprintln!(rt; "zonetext: {file}: {what}")?;
    Ok(EXIT_IO)
}

/// Reports the position where a file is rejected, and returns the status.
fn report_refused_at(rt: &HostRuntime, file: &str, at: Position, why: &str) -> io::Result<u8> {
    let (line, column) = (at.line, at.column);
    let file = Shown(file);
    eprintln!(rt; "{file}:{line}:{column}: {why}")?;
    Ok(FOUND)
}

/// Reports why a text can't be formatted, and returns the status.
fn refuse(rt: &HostRuntime, file: &str, why: NoForm) -> io::Result<u8> {
    match why {
        NoForm::Wrong(found) => report(rt, file, found),
        NoForm::Nul(at) => report_refused_at(rt, file, at, "NUL"),
        NoForm::OrderMark(at) => report_refused_at(rt, file, at, "byte order mark"),
        NoForm::OutOfMemory => Err(io::Error::from(ErrorKind::OutOfMemory)),
        NoForm::TooLong => Err(io::Error::from(ErrorKind::FileTooLarge)),
    }
}

/// Reports why a file was not read to its end, and returns the status. If standard output was
/// closed, nothing is reported.
fn exit_status(rt: &HostRuntime, file: &str, ended: FileError) -> io::Result<u8> {
    match ended {
        FileError::NoForm(why) => refuse(rt, file, why),
        FileError::ChunkError(halt) => refuse(rt, file, NoForm::from(halt)),
        FileError::Read(error) => {
            let file = Shown(file);
            eprintln!(rt; "zonetext: {file}: {error}")?;
            Ok(EXIT_IO)
        }
        FileError::Write(error) if error.kind() == ErrorKind::BrokenPipe => Ok(EXIT_IO),
        FileError::Write(error) => Err(error),
    }
}

/// A source that is read twice: first to find out whether it can be formatted, and then to write
/// it.
#[derive(Drop)]
enum Source<'a> {
    File(&'a str),
    /// The octets of standard input, or of a pipe, which can be read once.
    Held(Vec<u8>),
}

impl<'a> Source<'a> {
    /// Opens a file. Standard input or a pipe is read to its end.
    fn open(rt: &HostRuntime, file: &'a str) -> io::Result<Source<'a>> {
        let mut text = Vec::new(rt.alloc());
        if file == "-" {
            rt.stdin().read_to_end(&mut text)?;
        } else if metadata(rt, file)?.is_file() {
            return Ok(Source::File(file));
        } else {
            File::open(rt, file)?.read_to_end(&mut text)?;
        }
        Ok(Source::Held(text))
    }

    /// Passes the octets to a consumer of blocks.
    fn visit_blocks<T: BlockVisitor>(
        &self,
        rt: &HostRuntime,
        visitor: &mut T,
        is_quiet: bool,
    ) -> Result<(), FileError> {
        match self {
            Source::Held(text) => visit_blocks_of_octets(text.as_slice(), visitor),
            Source::File(file) => {
                let mut progress = match Progress::new(rt, file, is_quiet) {
                    Ok(progress) => progress,
                    Err(error) => return Err(FileError::Write(error)),
                };
                let answer = visit_blocks_of_file(rt, file, visitor, &mut progress);
                match progress.clear() {
                    Ok(()) => answer,
                    Err(error) => Err(FileError::Write(error)),
                }
            }
        }
    }

    /// Returns whether the text differs from its formatted text.
    fn differs(&self, rt: &HostRuntime, is_quiet: bool) -> Result<bool, FileError> {
        let mut looker = FormatCheck::new(rt.alloc());
        self.visit_blocks(rt, &mut looker, is_quiet)?;
        Ok(looker.differs)
    }
}

/// Writes to standard output, and returns the status.
fn put(rt: &HostRuntime, file: &str, octets: &[u8]) -> io::Result<u8> {
    match rt.stdout().write_all(octets) {
        Ok(()) => Ok(0),
        Err(error) => exit_status(rt, file, FileError::Write(error)),
    }
}

/// Returns a file's name for the header of a diff: a tab comes after a name with a blank.
fn head_of(rt: &HostRuntime, file: &str) -> Result<String, AllocError> {
    let end = if file.contains(' ') { "\t" } else { "" };
    format!(in rt.alloc(); "--- {file}{end}\n+++ {file}{end}\n")
}

/// Prints the formatted text, lists a file that would change, or shows the changes.
fn show(rt: &HostRuntime, file: &str, work: FormatOptions) -> io::Result<u8> {
    let source = match Source::open(rt, file) {
        Ok(source) => source,
        Err(error) => return exit_status(rt, file, FileError::Read(error)),
    };
    let differs = match source.differs(rt, work.is_quiet) {
        Ok(differs) => differs,
        Err(ended) => return exit_status(rt, file, ended),
    };
    match work.mode {
        Mode::Print => print(rt, file, &source, work),
        Mode::Diff if differs => show_changes(rt, file, &source, work),
        _ if differs => {
            let line = format!(in rt.alloc(); "{file}\n")?;
            Ok(put(rt, file, line.as_bytes())?.max(FOUND))
        }
        _ => Ok(0),
    }
}

/// Prints the formatted text.
fn print(rt: &HostRuntime, file: &str, source: &Source, work: FormatOptions) -> io::Result<u8> {
    let mut former = FormOutput::new(rt.alloc(), rt);
    match source.visit_blocks(rt, &mut former, work.is_quiet) {
        Ok(()) => Ok(0),
        Err(ended) => exit_status(rt, file, ended),
    }
}

/// Shows the changes of a file.
fn show_changes(
    rt: &HostRuntime,
    file: &str,
    source: &Source,
    work: FormatOptions,
) -> io::Result<u8> {
    let status = put(rt, file, head_of(rt, file)?.as_bytes())?;
    if status > 0 {
        return Ok(status);
    }
    let mut shower = DiffPrinter::new(rt);
    match source.visit_blocks(rt, &mut shower, work.is_quiet) {
        Ok(()) => Ok(FOUND),
        Err(ended) => Ok(exit_status(rt, file, ended)?.max(FOUND)),
    }
}

/// Reports why a file is unchanged, and returns the status.
pub fn leave(rt: &HostRuntime, file: &str, refusal: &Refusal) -> io::Result<u8> {
    match refusal {
        Refusal::Io(error) => {
            let file = Shown(file);
            eprintln!(rt; "zonetext: {file}: {error}")?;
            Ok(EXIT_IO)
        }
        Refusal::NoFile => report_refused(rt, file, "not a regular file"),
        Refusal::Journal => report_refused(
            rt,
            file,
            "a journal lies beside it: a server changes this zone (--force)",
        ),
        Refusal::Owner(error) => {
            let file = Shown(file);
            eprintln!(rt; "zonetext: {file}: its owner and group can't be kept: {error}")?;
            Ok(EXIT_IO)
        }
        Refusal::Changed => report_refused(rt, file, "changed while it was read"),
    }
}

/// A file that will change.
#[derive(Drop)]
struct Change<'a> {
    file: &'a str,
    original: Original,
}

/// Finds out whether a file would change.
fn look<'a>(
    rt: &HostRuntime,
    file: &'a str,
    work: FormatOptions,
) -> io::Result<Result<Option<Change<'a>>, u8>> {
    let ignores_journal = matches!(
        work.mode,
        Mode::Write {
            ignores_journal: true
        }
    );
    let original = match Original::find(rt, rt.alloc(), file, ignores_journal) {
        Ok(original) => original,
        Err(refusal) => return Ok(Err(leave(rt, file, &refusal)?)),
    };
    match Source::File(file).differs(rt, work.is_quiet) {
        Ok(true) => Ok(Ok(Some(Change { file, original }))),
        Ok(false) => Ok(Ok(None)),
        Err(ended) => Ok(Err(exit_status(rt, file, ended)?)),
    }
}

/// Returns why a new text was not written.
pub fn refusal_of(ended: FileError) -> Refusal {
    match ended {
        FileError::Read(error) | FileError::Write(error) => Refusal::Io(error),
        FileError::ChunkError(ChunkError::OutOfMemory) | FileError::NoForm(NoForm::OutOfMemory) => {
            Refusal::Io(io::Error::from(ErrorKind::OutOfMemory))
        }
        // It could be formatted when it was checked.
        FileError::ChunkError(_) | FileError::NoForm(_) => Refusal::Changed,
    }
}

/// Writes the formatted text of a file next to it.
fn write_beside(
    rt: &HostRuntime,
    change: Change,
    batch: &mut Batch,
    work: FormatOptions,
) -> Result<(), Refusal> {
    let new = NewText::create(rt, rt.alloc(), change.original, process::id(rt.process()))?;
    let mut former = FormOutput::new(rt.alloc(), new);
    match Source::File(change.file).visit_blocks(rt, &mut former, work.is_quiet) {
        Ok(()) => batch.add(rt, former.sink),
        Err(ended) => {
            let _ = former.sink.discard(rt);
            Err(refusal_of(ended))
        }
    }
}

/// Reports which files are formatted and which are unchanged, and returns the status.
fn report_of(rt: &HostRuntime, names: &[&str], incomplete: &Incomplete) -> io::Result<u8> {
    let mut status = EXIT_IO;
    for (at, file) in names.iter().enumerate() {
        if at < incomplete.replaced {
            let file = Shown(file);
            eprintln!(rt; "zonetext: {file}: already formatted")?;
        }
        if at == incomplete.at {
            status = leave(rt, file, &incomplete.why)?;
        } else if at >= incomplete.replaced {
            let file = Shown(file);
            eprintln!(rt; "zonetext: {file}: unchanged")?;
        }
    }
    Ok(status)
}

/// Replaces files by their formatted text, all or none.
fn replace(rt: &HostRuntime, changes: Vec<Change>, work: FormatOptions) -> io::Result<u8> {
    let mut batch = Batch::new(rt.alloc());
    let mut names = Vec::new(rt.alloc());
    for change in changes {
        let file = change.file;
        names.push(file)?;
        if let Err(refusal) = write_beside(rt, change, &mut batch, work) {
            let _ = batch.discard(rt);
            return leave(rt, file, &refusal);
        }
    }
    match batch.commit(rt) {
        Ok(()) => Ok(0),
        Err(incomplete) => report_of(rt, names.as_slice(), &incomplete),
    }
}

/// Returns whether a file is one of those that will change already, under any name.
fn is_among(changes: &[Change], change: &Change) -> bool {
    changes
        .iter()
        .any(|other| other.original.path() == change.original.path())
}

/// Formats files in place. If any of them has an error, none is changed.
fn write(rt: &HostRuntime, files: &[&str], work: FormatOptions) -> io::Result<u8> {
    let mut changes = Vec::new(rt.alloc());
    let mut status = 0;
    for file in files {
        match look(rt, file, work)? {
            Ok(Some(change)) if is_among(changes.as_slice(), &change) => {}
            Ok(Some(change)) => changes.push(change).map_err(AllocError::from)?,
            Ok(None) => {}
            Err(this) => status = this.max(status),
        }
    }
    if status > 0 {
        eprintln!(rt; "zonetext: no file is changed")?;
        return Ok(status);
    }
    replace(rt, changes, work)
}

/// Shows files one by one, and returns the greatest status.
fn show_all(rt: &HostRuntime, files: &[&str], work: FormatOptions) -> io::Result<u8> {
    let mut status = 0;
    for file in files {
        status = show(rt, file, work)?.max(status);
    }
    Ok(status)
}

/// Formats files, and returns the status: the greatest that one of them has.
pub fn run(rt: &HostRuntime, files: &[&str], work: FormatOptions) -> io::Result<u8> {
    let answer = if matches!(work.mode, Mode::Write { .. }) {
        write(rt, files, work)
    } else {
        show_all(rt, files, work)
    };
    match answer {
        Ok(status) => Ok(status),
        Err(error) => {
            eprintln!(rt; "zonetext: {error}")?;
            Ok(EXIT_IO)
        }
    }
}
