//! The zones of an `nsd.conf`.
use crate::config_files::{ConfigFile, ConfigFiles, span_of, span_of_error};
use crate::file_places::{FilePlace, copy_of_place};
use crate::named_once::{NamedPlace, named_once};
use crate::options::name_of;
use crate::zone_sources::{
    HostNameCheck, SourceError, Sources, ZoneSource, config_message, located_path, no_zone_in,
};
use server_config::{
    ConfigToken, NsdEvent, NsdSection, ZoneOutcome, append_zone_path, next_nsd_step,
    nsd_zone_outcome,
};
use std::alloc::{AllocError, Global};
use std::path::Path;
use zonetext_files::root_path::rooted;

/// A zone or a pattern.
#[derive(Drop)]
struct NsdBlock {
    is_zone: bool,
    name: String,
    /// The place of its keyword, as `FILE:LINE:COLUMN`.
    place: String,
    file: Option<String>,
    /// The place of the path.
    file_place: Option<FilePlace>,
    requests_transfer: bool,
}

/// Reads a configuration.
#[derive(Drop)]
struct NsdReader<'r> {
    rt: &'r HostRuntime,
    files: ConfigFiles,
    section: NsdSection,
    /// The directory below which absolute paths are, if there is one.
    root: Option<&'r str>,
    /// The folder of relative paths.
    folder: String,
    /// The zone or the pattern that is open.
    block: Option<NsdBlock>,
    /// The patterns that have ended.
    patterns: Vec<NsdBlock>,
    zones: Vec<NsdBlock>,
}

/// Returns the text of a token.
fn string_of(alloc: Global, file: &ConfigFile, token: ConfigToken) -> Result<String, SourceError> {
    file.string(alloc, span_of(token), token.content(file.text.as_slice()))
}

/// Returns a copy of a text, if there is one.
fn copy_of(text: &Option<String>) -> Result<Option<String>, AllocError> {
    match text {
        Some(text) => Ok(Some(text.clone()?)),
        None => Ok(None),
    }
}

/// Returns the error of a zone, at its keyword.
fn zone_error(alloc: Global, zone: &NsdBlock, message: &str) -> SourceError {
    let (place, name) = (zone.place.as_str(), zone.name.as_str());
    match format!(in alloc; "{place}: {message} '{name}'") {
        Ok(text) => SourceError::Text(text),
        Err(_) => SourceError::OutOfMemory,
    }
}

impl<'r> NsdReader<'r> {
    /// Returns a reader before the first file.
    fn new(
        rt: &'r HostRuntime,
        name: &str,
        files: ConfigFiles,
        root: Option<&'r str>,
    ) -> Result<NsdReader<'r>, AllocError> {
        let alloc = rt.alloc();
        let folder = match Path::new(name).parent() {
            Some(folder) => String::from_str(alloc, folder.as_str())?,
            None => String::new(alloc),
        };
        Ok(NsdReader {
            rt,
            files,
            section: NsdSection::Other,
            root,
            folder,
            block: None,
            patterns: Vec::new(alloc),
            zones: Vec::new(alloc),
        })
    }

    /// Returns a path below the root, if there is one.
    fn in_root(&self, path: String) -> Result<String, AllocError> {
        match self.root {
            Some(root) => rooted(self.rt.alloc(), root, root, path.as_str()),
            None => Ok(path),
        }
    }

    /// Ends the zone or the pattern that is open.
    fn end_block(&mut self) -> Result<(), SourceError> {
        let Some(block) = self.block.take() else {
            return Ok(());
        };
        if !block.is_zone {
            self.patterns.push(block)?;
            return Ok(());
        }
        if name_of(block.name.as_str()).is_none() {
            let message = "zone without a domain name";
            return Err(zone_error(self.rt.alloc(), &block, message));
        }
        self.zones.push(block)?;
        Ok(())
    }

    /// Begins a section. `end` is the offset after its keyword.
    fn begin(
        &mut self,
        file: &mut ConfigFile,
        section: NsdSection,
        end: usize,
    ) -> Result<(), SourceError> {
        self.end_block()?;
        let (is_zone, keyword) = match section {
            NsdSection::Zone => (true, "zone:"),
            NsdSection::Pattern => (false, "pattern:"),
            NsdSection::Server | NsdSection::Other => return Ok(()),
        };
        let alloc = self.rt.alloc();
        let place = file.place(alloc, end.saturating_sub(keyword.len()))?;
        self.block = Some(NsdBlock {
            is_zone,
            name: String::new(alloc),
            place,
            file: None,
            file_place: None,
            requests_transfer: false,
        });
        Ok(())
    }

    /// Applies the attributes of a pattern to the zone or the pattern that is open.
    fn apply(&mut self, file: &ConfigFile, token: ConfigToken) -> Result<(), SourceError> {
        let alloc = self.rt.alloc();
        let name = string_of(alloc, file, token)?;
        for pattern in &self.patterns {
            if pattern.name != name {
                continue;
            }
            let path = copy_of(&pattern.file)?;
            let place = copy_of_place(&pattern.file_place)?;
            if let Some(block) = &mut self.block {
                block.requests_transfer = block.requests_transfer || pattern.requests_transfer;
                if path.is_some() {
                    block.file = path;
                    block.file_place = place;
                }
            }
            return Ok(());
        }
        Err(file.error(alloc, span_of(token), "unknown pattern"))
    }

    /// Sets the name of the zone or the pattern that is open.
    fn set_name(&mut self, name: String) {
        if let Some(block) = &mut self.block {
            block.name = name;
        }
    }

    /// Sets the path of the zone or the pattern that is open, and the place of the path.
    fn set_file(&mut self, path: String, place: FilePlace) {
        if let Some(block) = &mut self.block {
            block.file = Some(path);
            block.file_place = Some(place);
        }
    }

    /// Processes what a token means. `end` is the offset after it.
    fn process_event(
        &mut self,
        file: &mut ConfigFile,
        event: NsdEvent,
        end: usize,
    ) -> Result<(), SourceError> {
        let alloc = self.rt.alloc();
        match event {
            NsdEvent::Section(section) => self.begin(file, section, end),
            NsdEvent::Name(token) => {
                let name = string_of(alloc, file, token)?;
                self.set_name(name);
                Ok(())
            }
            NsdEvent::ZoneFile(token) => {
                let path = string_of(alloc, file, token)?;
                let place = file.file_place(alloc, span_of(token))?;
                self.set_file(path, place);
                Ok(())
            }
            NsdEvent::IncludePattern(token) => self.apply(file, token),
            NsdEvent::RequestXfr => {
                if let Some(block) = &mut self.block {
                    block.requests_transfer = true;
                }
                Ok(())
            }
            NsdEvent::ZonesDir(token) => {
                let path = string_of(alloc, file, token)?;
                self.folder = self.in_root(path)?;
                Ok(())
            }
            _ => Ok(()),
        }
    }

    /// Continues with the files that another includes.
    fn include(&mut self, file: ConfigFile, token: ConfigToken) -> Result<(), SourceError> {
        let pattern = self.in_root(string_of(self.rt.alloc(), &file, token)?)?;
        self.files
            .include(self.rt, file, span_of(token), pattern.as_str())
    }

    /// Reads a file up to its end, or up to a file that it includes.
    fn read(&mut self, mut file: ConfigFile) -> Result<(), SourceError> {
        file.is_begun = true;
        for _ in 0..u64::MAX {
            let step = match next_nsd_step(file.text.as_slice(), file.from, self.section) {
                Ok(step) => step,
                Err(error) => {
                    let message = config_message(error.kind);
                    return Err(file.error(self.rt.alloc(), span_of_error(error), message));
                }
            };
            file.from = step.next;
            self.section = step.section;
            match step.event {
                NsdEvent::End => return Ok(()),
                NsdEvent::Include(token) => return self.include(file, token),
                event => self.process_event(&mut file, event, step.next)?,
            }
        }
        Ok(())
    }

    /// Returns a zone that is checked.
    fn source(&self, zone: &NsdBlock, pattern: &str) -> Result<ZoneSource, SourceError> {
        let alloc = self.rt.alloc();
        let name = zone.name.as_str();
        let mut path = Vec::new(alloc);
        append_zone_path(pattern.as_bytes(), name.as_bytes(), &mut path)?;
        let Ok(path) = str::from_utf8(path.as_slice()) else {
            return Err(zone_error(alloc, zone, "path of the file is not UTF-8 in zone"));
        };
        let folder = self.folder.as_str();
        let base = if folder.is_empty() { "." } else { folder };
        Ok(ZoneSource {
            zone: Some(String::from_str(alloc, name)?),
            file: located_path(alloc, self.root, folder, path)?,
            class: None,
            base: Some(String::from_str(alloc, base)?),
            max_ttl: None,
            host_names: HostNameCheck::Loads,
            is_signed_by_server: false,
            file_place: copy_of_place(&zone.file_place)?,
            view: None,
        })
    }

    /// Returns the zones' names with their places.
    fn places(&self) -> Result<Vec<NamedPlace<'_>>, AllocError> {
        let mut places = Vec::new(self.rt.alloc());
        for zone in &self.zones {
            places.push(NamedPlace {
                view: None,
                name: zone.name.as_str(),
                place: zone.place.as_str(),
            })?;
        }
        Ok(places)
    }

    /// Adds a zone, or counts it if it is left out.
    fn add(&self, zone: &NsdBlock, sources: &mut Sources) -> Result<(), SourceError> {
        let path = match &zone.file {
            Some(path) => path.as_str(),
            None => "",
        };
        match nsd_zone_outcome(zone.file.is_some(), zone.requests_transfer) {
            ZoneOutcome::Checked => sources.zones.push(self.source(zone, path)?)?,
            ZoneOutcome::Omitted(reason) => {
                sources.omitted = sources.omitted.counted(reason);
            }
            ZoneOutcome::NoType | ZoneOutcome::NoFile => {
                return Err(zone_error(self.rt.alloc(), zone, "no zonefile of the zone"));
            }
        }
        Ok(())
    }
}

/// Adds the zones of an `nsd.conf`. With a root, its paths are below that.
pub fn add_nsd<'r>(
    rt: &'r HostRuntime,
    name: &'r str,
    text: Vec<u8>,
    root: Option<&'r str>,
    sources: &mut Sources,
) -> Result<(), SourceError> {
    let mut reader = NsdReader::new(rt, name, ConfigFiles::first(rt, name, text)?, root)?;
    for _ in 0..u64::MAX {
        match reader.files.next() {
            Some(file) => reader.read(file)?,
            None => break,
        }
    }
    reader.end_block()?;
    if reader.zones.is_empty() {
        return Err(no_zone_in(rt.alloc(), name));
    }
    named_once(rt.alloc(), reader.places()?.as_slice())?;
    for zone in &reader.zones {
        reader.add(zone, sources)?;
    }
    Ok(())
}
