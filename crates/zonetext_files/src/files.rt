//! Runs the commands over the text of files.
use crate::blocks::{BlockVisitor, FileError, Printer, visit_blocks_of_file};
use crate::pair::compare_files;
use crate::progress::Progress;
use crate::shown::Shown;
use crate::stop::EXIT_IO;
use error_texts::kinds::syntax_error_text;
use std::io;
use std::io::Write;
use zonetext_lib::blocks::{Checker, ChunkError};
use zonetext_lib::check::Found;
use zonetext_lib::comparer::Side;
use zonetext_lib::diff::Comparison;
use zonetext_lib::writer::Output;

/// Reports where a file is not a zone file, and returns the exit status.
pub fn report(rt: &HostRuntime, file: &str, found: Found) -> io::Result<u8> {
    let why = syntax_error_text(found.fault.wrong);
    let file = Shown(file);
    let (line, column) = (found.position.line, found.position.column);
    match found.opened {
        Some(opened) => {
            let (first, place) = (opened.line, opened.column);
            eprintln!(rt; "{file}:{line}:{column}: {why}, opened at {first}:{place}")?;
        }
        None => eprintln!(rt; "{file}:{line}:{column}: {why}")?,
    }
    Ok(1)
}

/// Reports why a file was not read to its end, and returns the exit status.
fn exit_status(rt: &HostRuntime, file: &str, answer: Result<(), FileError>) -> io::Result<u8> {
    match answer {
        Ok(()) => Ok(0),
        Err(FileError::ChunkError(ChunkError::Wrong(found))) => report(rt, file, found),
        Err(FileError::ChunkError(ChunkError::OutOfMemory)) => Err(io::Error::from(
            io::ErrorKind::OutOfMemory,
        )),
        Err(FileError::ChunkError(ChunkError::TooLong)) => Err(io::Error::from(
            io::ErrorKind::FileTooLarge,
        )),
        Err(FileError::NoForm(_)) => Ok(1),
        Err(FileError::Read(error)) => {
            let file = Shown(file);
            eprintln!(rt; "zonetext: {file}: {error}")?;
            Ok(EXIT_IO)
        }
        Err(FileError::Write(error)) if error.kind() == io::ErrorKind::BrokenPipe => Ok(EXIT_IO),
        Err(FileError::Write(error)) => Err(error),
    }
}

/// Passes a file to a consumer of blocks, and returns the exit status.
fn run<T: BlockVisitor>(
    rt: &HostRuntime,
    file: &str,
    is_quiet: bool,
    visitor: &mut T,
) -> io::Result<u8> {
    let mut progress = Progress::new(rt, file, is_quiet)?;
    let answer = visit_blocks_of_file(rt, file, visitor, &mut progress);
    progress.clear()?;
    exit_status(rt, file, answer)
}

/// Reports where a file is not a zone file, and returns the exit status. `name` is the file's name
/// in messages.
pub fn check_text(rt: &HostRuntime, file: &str, name: &str, is_quiet: bool) -> io::Result<u8> {
    let mut checker = Checker::new(rt.alloc());
    let mut progress = Progress::new(rt, name, is_quiet)?;
    let answer = visit_blocks_of_file(rt, file, &mut checker, &mut progress);
    progress.clear()?;
    exit_status(rt, name, answer)
}

/// Writes a row for each token of a file, or a line for each entry.
pub fn print(rt: &HostRuntime, file: &str, is_quiet: bool, output: Output) -> io::Result<u8> {
    run(rt, file, is_quiet, &mut Printer::new(rt, output))
}

/// Reports where the entries of two files differ first.
pub fn compare(rt: &HostRuntime, first: &str, second: &str, is_quiet: bool) -> io::Result<u8> {
    let mut progress = Progress::new(rt, first, is_quiet)?;
    let answer = compare_files(rt, first, second, &mut progress);
    progress.clear()?;
    match answer {
        Ok(Comparison::Same) => Ok(0),
        Ok(Comparison::Differ(one, other)) => {
            let (line, column) = (one.line, one.column);
            let (row, along) = (other.line, other.column);
            let (one_file, other_file) = (Shown(first), Shown(second));
            let text = format!(in rt.alloc();
                "{one_file}:{line}:{column}: differs\n{other_file}:{row}:{along}: differs\n"
            )?;
            match rt.stdout().write_all(text.as_bytes()) {
                Ok(()) => Ok(1),
                Err(error) => exit_status(rt, first, Err(FileError::Write(error))),
            }
        }
        Ok(Comparison::FirstWrong(found)) => report(rt, first, found),
        Ok(Comparison::SecondWrong(found)) => report(rt, second, found),
        Err((Side::First, ended)) => exit_status(rt, first, Err(ended)),
        Err((Side::Second, ended)) => exit_status(rt, second, Err(ended)),
    }
}
