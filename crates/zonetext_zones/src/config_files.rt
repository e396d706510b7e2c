//! The files of a configuration, and those that they include.
use crate::file_places::FilePlace;
use crate::path_patterns::paths_of;
use crate::zone_sources::{SourceError, error_at, located, place_text, read_error, text_of_file};
use server_config::{ConfigError, ConfigToken, TextSpan};
use std::alloc::{AllocError, Global};
use std::fs::canonicalize;
use std::io;
use zone_format::place::LocatedOffset;
use zonetext_files::open_file::first_place;

/// Greatest number of included files in all. A file that is included again counts again.
const MOST_FILES: usize = 10_000;

/// A file of a configuration.
#[derive(Drop)]
pub struct ConfigFile {
    /// The path by which it was opened.
    pub name: String,
    /// Its absolute path, without links.
    full: String,
    pub text: Vec<u8>,
    /// Offset of what is read next.
    pub from: usize,
    /// Whether reading it has begun.
    pub is_begun: bool,
    /// Place up to which lines and columns are counted.
    counted: LocatedOffset,
}

/// The files that are open, each included by one before it, and those that come next.
#[derive(Drop)]
pub struct ConfigFiles {
    waiting: Vec<ConfigFile>,
    /// Number of files that were opened.
    count: usize,
}

/// Returns the span of a token.
pub fn span_of(token: ConfigToken) -> TextSpan {
    TextSpan {
        at: token.at,
        end: token.end,
    }
}

/// Returns the span of an error.
pub fn span_of_error(error: ConfigError) -> TextSpan {
    TextSpan {
        at: error.at,
        end: error.end,
    }
}

impl ConfigFile {
    /// Returns the error of a word of the file.
    pub fn error(&self, alloc: Global, span: TextSpan, message: &str) -> SourceError {
        error_at(
            alloc,
            self.name.as_str(),
            self.text.as_slice(),
            span,
            message,
        )
    }

    /// Returns the place of an offset, as `FILE:LINE:COLUMN`. Lines are counted from the offset of the
    /// call before, unless that is a later one.
    pub fn place(&mut self, alloc: Global, at: usize) -> Result<String, AllocError> {
        self.counted = located(self.text.as_slice(), self.counted, at);
        place_text(alloc, self.name.as_str(), self.counted)
    }

    /// Returns the place of a span that names a zone file. Lines are counted as by [`ConfigFile::place`].
    pub fn file_place(&mut self, alloc: Global, span: TextSpan) -> Result<FilePlace, AllocError> {
        let (file, text) = (self.name.as_str(), self.text.as_slice());
        let found = FilePlace::of_span(alloc, file, text, self.counted, span)?;
        self.counted = found.place;
        Ok(found)
    }

    /// Returns the text of a word of the file that it means.
    pub fn string(
        &self,
        alloc: Global,
        span: TextSpan,
        octets: &[u8],
    ) -> Result<String, SourceError> {
        match str::from_utf8(octets) {
            Ok(text) => Ok(String::from_str(alloc, text)?),
            Err(_) => Err(self.error(alloc, span, "word is not UTF-8")),
        }
    }

    /// Returns the error of an included file that can't be read.
    fn include_error(
        &self,
        alloc: Global,
        span: TextSpan,
        path: &str,
        error: &io::Error,
    ) -> SourceError {
        match self.included_name(alloc, span, path) {
            Ok(name) => read_error(alloc, name.as_str(), error),
            Err(_) => SourceError::OutOfMemory,
        }
    }

    /// Returns the name of an included file, after the place where it is included.
    fn included_name(
        &self,
        alloc: Global,
        span: TextSpan,
        path: &str,
    ) -> Result<String, AllocError> {
        let place = located(self.text.as_slice(), self.counted, span.at);
        let place = place_text(alloc, self.name.as_str(), place)?;
        let place = place.as_str();
        format!(in alloc; "{place}: cannot open '{path}'")
    }
}

impl ConfigFiles {
    /// Returns the first file alone.
    pub fn first(rt: &HostRuntime, name: &str, text: Vec<u8>) -> Result<ConfigFiles, SourceError> {
        let alloc = rt.alloc();
        let full = match canonicalize(rt, name) {
            Ok(full) => full.into_string(),
            // A pipe has no path.
            Err(_) => String::new(alloc),
        };
        let mut waiting = Vec::new(alloc);
        waiting.push(ConfigFile {
            name: String::from_str(alloc, name)?,
            full,
            text,
            from: 0,
            is_begun: false,
            counted: first_place(),
        })?;
        Ok(ConfigFiles { waiting, count: 1 })
    }

    /// Returns the file that is read next, and removes it.
    pub fn next(&mut self) -> Option<ConfigFile> {
        self.waiting.pop()
    }

    /// Returns whether a file is open.
    fn is_open(&self, full: &str) -> bool {
        for file in &self.waiting {
            if file.is_begun && file.full.as_str() == full {
                return true;
            }
        }
        false
    }

    /// Opens a file that another includes.
    fn open(
        &self,
        rt: &HostRuntime,
        outer: &ConfigFile,
        span: TextSpan,
        path: &str,
    ) -> Result<ConfigFile, SourceError> {
        let alloc = rt.alloc();
        let full = match canonicalize(rt, path) {
            Ok(full) => full.into_string(),
            Err(error) => return Err(outer.include_error(alloc, span, path, &error)),
        };
        if outer.full == full || self.is_open(full.as_str()) {
            return Err(outer.error(alloc, span, "file includes itself"));
        }
        Ok(ConfigFile {
            name: String::from_str(alloc, path)?,
            full,
            text: text_of_file(rt, path)?,
            from: 0,
            is_begun: false,
            counted: first_place(),
        })
    }

    /// Adds the files that fit a pattern, the first of them on top. The file that includes them
    /// comes after them.
    pub fn include(
        &mut self,
        rt: &HostRuntime,
        outer: ConfigFile,
        span: TextSpan,
        pattern: &str,
    ) -> Result<(), SourceError> {
        let alloc = rt.alloc();
        let mut paths = match paths_of(rt, pattern) {
            Ok(paths) => paths,
            Err(error) => return Err(outer.include_error(alloc, span, pattern, &error)),
        };
        if paths.is_empty() {
            return Err(outer.error(alloc, span, "no file fits"));
        }
        self.count = self.count.saturating_add(paths.len());
        if self.count > MOST_FILES {
            return Err(outer.error(alloc, span, "more than 10000 files are included"));
        }
        let mut opened = Vec::new(alloc);
        for _ in 0..paths.len() {
            if let Some(path) = paths.pop() {
                opened.push(self.open(rt, &outer, span, path.as_str())?)?;
            }
        }
        self.waiting.push(outer)?;
        for file in opened {
            self.waiting.push(file)?;
        }
        Ok(())
    }
}
