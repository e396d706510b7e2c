//! The zones that a configuration, a list or a folder names, and their files.
use crate::file_places::FilePlace;
use crate::options::USAGE;
use rdata_values::Class;
use server_config::{ConfigErrorKind, OmittedCounts, TextSpan};
use std::alloc::{AllocError, AllocFailed, Global};
use std::io::{ErrorKind, Read};
use std::path::Path;
use std::{fs, io};
use zone_format::place::LocatedOffset;
use zonetext_files::open_file::{first_place, place_after};
use zonetext_files::root_path::rooted;
use zonetext_files::shown::{Shown, quoted};
use zonetext_files::stop::EXIT_IO;

/// What a server does with names that must be those of hosts, and are not.
#[derive(Clone, Copy, PartialEq, Eq)]
pub enum HostNameCheck {
    /// It loads the zone.
    Loads,
    /// It rejects the zone.
    Rejects,
    /// It loads the zone, and nothing is reported.
    Ignores,
}

/// A zone, and how its file is checked.
#[derive(Drop)]
pub struct ZoneSource {
    /// The zone, if it is named. If not, the command line decides.
    pub zone: Option<String>,
    /// The path of its file.
    pub file: String,
    /// The class of the zone, if it is named.
    pub class: Option<Class>,
    /// The directory for relative names of included files, if it is not that of the file.
    pub base: Option<String>,
    /// The greatest TTL, if there is one.
    pub max_ttl: Option<u32>,
    /// What the server does with names of hosts that are not host names.
    pub host_names: HostNameCheck,
    /// Whether the server signs the zone itself.
    pub is_signed_by_server: bool,
    /// Where a configuration or a list names the file, if one does.
    pub file_place: Option<FilePlace>,
    /// Number of the views before its own, if it is in one.
    pub view: Option<usize>,
}

/// The zones that were found.
#[derive(Drop)]
pub struct Sources {
    pub zones: Vec<ZoneSource>,
    pub omitted: OmittedCounts,
    /// The first type of a zone that is not known, with its position.
    pub unknown_type: Option<String>,
    /// Messages about what is not checked, each for a line.
    pub notes: Vec<String>,
    /// Files whose name doesn't say their zone.
    pub unclear: Vec<String>,
}

impl Sources {
    /// Returns no zones.
    pub fn new(alloc: Global) -> Sources {
        Sources {
            zones: Vec::new(alloc),
            omitted: OmittedCounts::new(),
            unknown_type: None,
            notes: Vec::new(alloc),
            unclear: Vec::new(alloc),
        }
    }
}

/// Why zones are not found.
#[derive(Drop)]
pub enum SourceError {
    /// A text is malformed. The message has the place.
    Text(String),
    /// A file can't be read. The message has its name.
    Read(String),
    OutOfMemory,
}

impl From<AllocError> for SourceError {
    fn from(_error: AllocError) -> SourceError {
        SourceError::OutOfMemory
    }
}

impl<T: Drop> From<AllocFailed<T>> for SourceError {
    fn from(_error: AllocFailed<T>) -> SourceError {
        SourceError::OutOfMemory
    }
}

impl SourceError {
    /// Reports the error, and returns the status.
    pub fn exit_status(self, rt: &HostRuntime) -> u8 {
        match self {
            SourceError::Text(text) => {
                let text = Shown(text.as_str());
                let _ = eprintln!(rt; "zonetext: {text}");
                USAGE
            }
            SourceError::Read(text) => {
                let text = Shown(text.as_str());
                let _ = eprintln!(rt; "zonetext: {text}");
                EXIT_IO
            }
            SourceError::OutOfMemory => {
                let _ = eprintln!(rt; "zonetext: not enough memory");
                EXIT_IO
            }
        }
    }
}

/// Returns the octets of a text between two offsets, as far as the text has them.
pub fn octets_between(text: &[u8], at: usize, end: usize) -> &[u8] {
    text.get(at..end).unwrap_or(&[])
}

/// Returns the octets of a span.
pub fn octets_in(text: &[u8], span: TextSpan) -> &[u8] {
    octets_between(text, span.at, span.end)
}

/// Returns an offset of a text with its position. Counts the octets from `counted` on, or from the beginning
/// if the offset is before it.
pub fn located(text: &[u8], counted: LocatedOffset, at: usize) -> LocatedOffset {
    let from = if counted.at <= at {
        counted
    } else {
        first_place()
    };
    place_after(from, octets_between(text, from.at, at.min(text.len())))
}

/// Returns the place of an offset of a file, as `FILE:LINE:COLUMN`.
pub fn place_text(alloc: Global, file: &str, place: LocatedOffset) -> Result<String, AllocError> {
    let (line, column) = (place.position.line, place.position.column);
    format!(in alloc; "{file}:{line}:{column}")
}

/// Returns the position of a place, as `LINE:COLUMN`.
pub fn position_of(place: &str) -> &str {
    str::from_utf8(file_and_position(place).1).unwrap_or(place)
}

/// Returns the file and the position of a place.
pub fn file_and_position(place: &str) -> (&[u8], &[u8]) {
    let octets = place.as_bytes();
    let mut end = octets.len();
    let mut colons: usize = 0;
    for octet in octets.iter().rev() {
        end = end.saturating_sub(1);
        if *octet == b':' {
            colons = colons.saturating_add(1);
        }
        if colons == 2 {
            break;
        }
    }
    let file = octets.get(..end).unwrap_or(octets);
    (file, octets.get(end.saturating_add(1)..).unwrap_or(octets))
}

/// Returns the error of a configuration or a list that names no zone.
pub fn no_zone_in(alloc: Global, file: &str) -> SourceError {
    match format!(in alloc; "{file}: no zone in it") {
        Ok(text) => SourceError::Text(text),
        Err(_) => SourceError::OutOfMemory,
    }
}

/// Returns a message with its place. The octets between two offsets are its word, unless there are
/// none.
fn message_at(
    alloc: Global,
    file: &str,
    text: &[u8],
    span: TextSpan,
    message: &str,
) -> Result<String, AllocError> {
    let place = place_text(alloc, file, located(text, first_place(), span.at))?;
    let place = place.as_str();
    let word = octets_in(text, span);
    if word.is_empty() {
        return format!(in alloc; "{place}: {message}");
    }
    let word = quoted(alloc, word)?;
    let word = word.as_str();
    format!(in alloc; "{place}: {message} {word}")
}

/// Returns the error of a word of a file.
pub fn error_at(
    alloc: Global,
    file: &str,
    text: &[u8],
    span: TextSpan,
    message: &str,
) -> SourceError {
    match message_at(alloc, file, text, span, message) {
        Ok(message) => SourceError::Text(message),
        Err(_) => SourceError::OutOfMemory,
    }
}

/// Returns the length of the blanks with which a line begins.
fn blanks_of(line: &[u8]) -> usize {
    let mut count: usize = 0;
    for octet in line {
        if *octet != b' ' && *octet != b'\t' {
            return count;
        }
        count = count.saturating_add(1);
    }
    count
}

/// Fails if a text is a `knot.conf`: a line begins with `- domain:`.
pub fn refuse_knot(alloc: Global, file: &str, text: &[u8]) -> Result<(), SourceError> {
    const KEYWORD: &[u8] = b"- domain:";
    let mut at: usize = 0;
    for line in text.split(|octet| *octet == b'\n') {
        let word = at.saturating_add(blanks_of(line));
        let span = TextSpan {
            at: word,
            end: word.saturating_add(KEYWORD.len()),
        };
        if octets_in(text, span) == KEYWORD {
            let message = "a knot.conf: check the folder of its ZONE.zone files";
            return Err(error_at(alloc, file, text, span, message));
        }
        at = at.saturating_add(line.len()).saturating_add(1);
    }
    Ok(())
}

/// Returns why a file can't be read.
fn read_message(alloc: Global, name: &str, error: &io::Error) -> Result<String, AllocError> {
    match error.kind() {
        ErrorKind::NotFound => format!(in alloc; "{name}: no such file"),
        ErrorKind::PermissionDenied => format!(in alloc; "{name}: permission denied"),
        _ => format!(in alloc; "{name}: {error}"),
    }
}

/// Returns the error of a file that can't be read. `name` is its name, with a place before it if
/// another file names it.
pub fn read_error(alloc: Global, name: &str, error: &io::Error) -> SourceError {
    if error.kind() == ErrorKind::OutOfMemory {
        return SourceError::OutOfMemory;
    }
    match read_message(alloc, name, error) {
        Ok(message) => SourceError::Read(message),
        Err(_) => SourceError::OutOfMemory,
    }
}

/// Returns the text of standard input.
fn standard_text(rt: &HostRuntime) -> io::Result<Vec<u8>> {
    let mut text = Vec::new(rt.alloc());
    rt.stdin().read_to_end(&mut text)?;
    Ok(text)
}

/// Returns the text of a file, `-` for standard input.
pub fn text_of_file(rt: &HostRuntime, file: &str) -> Result<Vec<u8>, SourceError> {
    let read = if file == "-" {
        standard_text(rt)
    } else {
        fs::read(rt, file)
    };
    match read {
        Ok(text) => Ok(text),
        Err(error) => Err(read_error(rt.alloc(), file, &error)),
    }
}

/// Returns a path that is relative to a folder, which is empty for the working directory.
pub fn joined(alloc: Global, folder: &str, path: &str) -> Result<String, AllocError> {
    Ok(Path::new(folder).join(alloc, path)?.into_string())
}

/// Returns a path that is relative to a folder, or absolute. With a root it is below that.
pub fn located_path(
    alloc: Global,
    root: Option<&str>,
    folder: &str,
    path: &str,
) -> Result<String, AllocError> {
    match root {
        Some(root) => rooted(alloc, root, folder, path),
        None => joined(alloc, folder, path),
    }
}

/// Returns the message of an error of a configuration.
pub fn config_message<'a>(kind: ConfigErrorKind) -> &'a str {
    match kind {
        ConfigErrorKind::OpenComment => "comment is not closed",
        ConfigErrorKind::OpenQuote => "quoted string is not closed",
        ConfigErrorKind::MissingSemicolon => "missing ';' before this",
        ConfigErrorKind::EmptyStatement => "statement without words",
        ConfigErrorKind::UnexpectedClose => "brace closes no block",
        ConfigErrorKind::OpenBlock => "block is not closed",
        ConfigErrorKind::MissingWord => "missing value",
        ConfigErrorKind::UnquotedString => "expected quoted string",
        ConfigErrorKind::ExpectedWord => "expected word",
        ConfigErrorKind::TrailingWord => "unexpected word",
        ConfigErrorKind::MissingBlock => "expected '{' before this",
        ConfigErrorKind::UnknownValue => "unknown value",
        ConfigErrorKind::Repeated => "second statement of this kind in the zone",
        ConfigErrorKind::TooDeep => "more than 255 open braces",
    }
}
