//! Settings of a folder: the file `.zonetext.toml`.
use crate::options::{USAGE, seconds_in};
use finding_codes::code::Code;
use std::alloc::{AllocError, AllocFailed, Global};
use std::fs::{canonicalize, exists};
use std::io::ErrorKind;
use std::path::Path;
use std::{fs, io};
use toml::Value;
use zonetext_files::open_file::{first_place, place_after};
use zonetext_files::shown::Shown;
use zonetext_files::stop::EXIT_IO;

/// The name of the file.
const NAME: &str = ".zonetext.toml";

/// Its keys.
const KEYS: &str = "allow, base, deny, dnssec, include, max-ttl or skip-type";

/// The settings of a folder.
#[derive(Drop)]
pub struct Settings {
    pub allowed: Vec<Code>,
    pub denied: Vec<Code>,
    /// The directories from which files may be included.
    pub folders: Vec<String>,
    /// The directory for relative paths of included files.
    pub base: Option<String>,
    pub max_ttl: Option<u32>,
    /// Whether each zone must be signed, or no signatures are checked.
    pub dnssec: Option<bool>,
    /// The types whose entries are skipped.
    pub skipped: Vec<String>,
}

/// Why settings can't be used.
#[derive(Drop)]
pub enum Unusable {
    Read(io::Error),
    /// The text of the error.
    Text(String),
    OutOfMemory,
}

impl From<AllocError> for Unusable {
    fn from(_error: AllocError) -> Unusable {
        Unusable::OutOfMemory
    }
}

impl<T: Drop> From<AllocFailed<T>> for Unusable {
    fn from(_error: AllocFailed<T>) -> Unusable {
        Unusable::OutOfMemory
    }
}

impl Unusable {
    /// Reports why the settings of a file can't be used, and returns the status.
    pub fn exit_status(self, rt: &HostRuntime, path: &str) -> u8 {
        let path = Shown(path);
        match self {
            Unusable::Read(error) => {
                let _ = eprintln!(rt; "zonetext: {path}: {error}");
                EXIT_IO
            }
            Unusable::Text(text) => {
                let text = Shown(text.as_str());
                let _ = eprintln!(rt; "zonetext: {path}: {text}");
                USAGE
            }
            Unusable::OutOfMemory => {
                let _ = eprintln!(rt; "zonetext: {path}: not enough memory");
                EXIT_IO
            }
        }
    }
}

/// Returns the error of a value that is not what its key wants.
fn unwanted(alloc: Global, key: &str, wants: &str) -> Unusable {
    match format!(in alloc; "{key}: wants {wants}") {
        Ok(text) => Unusable::Text(text),
        Err(_) => Unusable::OutOfMemory,
    }
}

/// Returns the error of a syntax error, with its position.
fn malformed(alloc: Global, octets: &[u8], error: &toml::de::Error) -> Unusable {
    let Some(span) = error.span() else {
        return Unusable::OutOfMemory;
    };
    let before = octets.get(..span.start).unwrap_or(octets);
    let position = place_after(first_place(), before).position;
    let (line, column) = (position.line, position.column);
    let message = error.message();
    match format!(in alloc; "line {line}, column {column}: {message}") {
        Ok(text) => Unusable::Text(text),
        Err(_) => Unusable::OutOfMemory,
    }
}

/// Returns the strings of a list.
fn strings_of<'v>(alloc: Global, key: &str, value: &'v Value) -> Result<Vec<&'v str>, Unusable> {
    let wants = "a list of strings";
    let Some(list) = value.as_array() else {
        return Err(unwanted(alloc, key, wants));
    };
    let mut strings = Vec::new(alloc);
    for item in list {
        match item.as_str() {
            Some(text) => strings.push(text)?,
            None => return Err(unwanted(alloc, key, wants)),
        }
    }
    Ok(strings)
}

/// Appends the codes of a list.
fn push_codes(
    alloc: Global,
    key: &str,
    value: &Value,
    codes: &mut Vec<Code>,
) -> Result<(), Unusable> {
    for name in &strings_of(alloc, key, value)? {
        match Code::named(name) {
            Some(code) => codes.push(code)?,
            None => {
                let text = format!(in alloc; "{key}: unknown code '{name}'")?;
                return Err(Unusable::Text(text));
            }
        }
    }
    Ok(())
}

/// Returns a path that is relative to a folder.
fn below(alloc: Global, folder: &str, path: &str) -> Result<String, AllocError> {
    Ok(Path::new(folder).join(alloc, path)?.into_string())
}

/// Returns the seconds of a value.
fn max_ttl_of(alloc: Global, key: &str, value: &Value) -> Result<u32, Unusable> {
    let seconds = match (value.as_integer(), value.as_str()) {
        (Some(number), _) => u32::try_from(number).ok(),
        (None, Some(text)) => seconds_in(text),
        (None, None) => None,
    };
    match seconds {
        Some(seconds) => Ok(seconds),
        None => Err(unwanted(alloc, key, "a time in seconds, or as \"7d\" or \"12h30m\"")),
    }
}

impl Settings {
    /// Returns no settings.
    pub fn new(alloc: Global) -> Settings {
        Settings {
            allowed: Vec::new(alloc),
            denied: Vec::new(alloc),
            folders: Vec::new(alloc),
            base: None,
            max_ttl: None,
            dnssec: None,
            skipped: Vec::new(alloc),
        }
    }

    /// Sets what a key and its value say. Paths are relative to `folder`.
    fn set(
        &mut self,
        alloc: Global,
        folder: &str,
        key: &str,
        value: &Value,
    ) -> Result<(), Unusable> {
        match key {
            "allow" => push_codes(alloc, key, value, &mut self.allowed),
            "deny" => push_codes(alloc, key, value, &mut self.denied),
            "max-ttl" => {
                self.max_ttl = Some(max_ttl_of(alloc, key, value)?);
                Ok(())
            }
            "dnssec" => match value.as_bool() {
                Some(is_signed) => {
                    self.dnssec = Some(is_signed);
                    Ok(())
                }
                None => Err(unwanted(alloc, key, "true or false")),
            },
            "include" => {
                for path in &strings_of(alloc, key, value)? {
                    self.folders.push(below(alloc, folder, path)?)?;
                }
                Ok(())
            }
            "skip-type" => {
                for word in &strings_of(alloc, key, value)? {
                    self.skipped.push(String::from_str(alloc, word)?)?;
                }
                Ok(())
            }
            "base" => match value.as_str() {
                Some(path) => {
                    self.base = Some(below(alloc, folder, path)?);
                    Ok(())
                }
                None => Err(unwanted(alloc, key, "a string")),
            },
            _ => {
                let text = format!(in alloc; "unknown key '{key}': wants {KEYS}")?;
                Err(Unusable::Text(text))
            }
        }
    }

    /// Returns the settings in a file, or none if its path is empty.
    pub fn read(rt: &HostRuntime, path: &str) -> Result<Settings, Unusable> {
        let alloc = rt.alloc();
        if path.is_empty() {
            return Ok(Settings::new(alloc));
        }
        let octets = match fs::read(rt, path) {
            Ok(octets) => octets,
            Err(error) if error.kind() == ErrorKind::OutOfMemory => {
                return Err(Unusable::OutOfMemory);
            }
            Err(error) => return Err(Unusable::Read(error)),
        };
        let table = match toml::table_from_slice(alloc, octets.as_slice()) {
            Ok(table) => table,
            Err(error) => return Err(malformed(alloc, octets.as_slice(), &error)),
        };
        let folder = match Path::new(path).parent() {
            Some(folder) => folder.as_str(),
            None => "",
        };
        let mut settings = Settings::new(alloc);
        for (key, value) in table.iter() {
            settings.set(alloc, folder, key.as_str(), value)?;
        }
        Ok(settings)
    }
}

/// Returns whether a folder has a file with a name.
fn has_file(rt: &HostRuntime, folder: Path<'_>, name: &str) -> Result<bool, AllocError> {
    let path = folder.join(rt.alloc(), name)?;
    Ok(exists(rt, &path).unwrap_or(false))
}

/// Returns whether a folder, or one above it, has `.git`.
fn is_in_repository(rt: &HostRuntime, folder: &str) -> Result<bool, AllocError> {
    for above in Path::new(folder).ancestors() {
        if has_file(rt, above, ".git")? {
            return Ok(true);
        }
    }
    Ok(false)
}

/// Returns the path of the settings for the files of a folder: in it, or in the nearest folder above
/// it that has them, up to the nearest one with `.git`. If none has `.git`, they are only in the
/// folder itself.
fn settings_above(rt: &HostRuntime, folder: &str) -> Result<Option<String>, AllocError> {
    let is_in_repository = is_in_repository(rt, folder)?;
    for above in Path::new(folder).ancestors() {
        if has_file(rt, above, NAME)? {
            return Ok(Some(above.join(rt.alloc(), NAME)?.into_string()));
        }
        if !is_in_repository || has_file(rt, above, ".git")? {
            return Ok(None);
        }
    }
    Ok(None)
}

/// Returns the path of the settings for a zone file, if there are any.
pub fn settings_path(rt: &HostRuntime, file: &str) -> Result<Option<String>, AllocError> {
    let folder = match Path::new(file).parent() {
        Some(folder) if !folder.as_str().is_empty() => folder.as_str(),
        _ => ".",
    };
    match canonicalize(rt, folder) {
        Ok(full) => settings_above(rt, full.into_string().as_str()),
        Err(_) => Ok(None),
    }
}
