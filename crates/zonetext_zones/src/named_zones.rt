//! The zones of a `named.conf`.
use crate::config_files::{ConfigFile, ConfigFiles, span_of, span_of_error};
use crate::file_places::{FilePlace, copy_of_place};
use crate::named_once::{NamedPlace, named_once};
use crate::options::{name_of, seconds_in};
use crate::zone_sources::{
    HostNameCheck, SourceError, Sources, ZoneSource, config_message, located_path, no_zone_in,
    position_of,
};
use rdata_values::Class;
use server_config::{
    BlockName, ConfigBlock, ConfigEvent, ConfigState, ConfigToken, LastClause, OmitReason,
    Settings, Severity, ZoneOutcome, ZoneSettings, append_named_string, next_step, next_token,
    zone_outcome,
};
use std::alloc::{AllocError, Global};
use std::mem;
use strsim::levenshtein;
use zonetext_files::shown::quoted;

/// The greatest TTL of zones: `max-zone-ttl`.
#[derive(Clone, Copy)]
enum MaxTtl {
    Unset,
    Unlimited,
    Seconds(u32),
}

impl MaxTtl {
    /// Returns this, or that of the block around it if this is not set.
    fn within(self, outer: MaxTtl) -> MaxTtl {
        match self {
            MaxTtl::Unset => outer,
            MaxTtl::Unlimited | MaxTtl::Seconds(_) => self,
        }
    }

    /// Returns the seconds, if they are limited.
    fn seconds(self) -> Option<u32> {
        match self {
            MaxTtl::Seconds(seconds) => Some(seconds),
            MaxTtl::Unset | MaxTtl::Unlimited => None,
        }
    }
}

/// A view, or `options`.
#[derive(Clone, Copy)]
struct OuterBlock {
    class: Option<Class>,
    settings: Settings,
    max_ttl: MaxTtl,
}

impl OuterBlock {
    /// Returns a block that sets nothing.
    fn new() -> OuterBlock {
        OuterBlock {
            class: None,
            settings: Settings::none(),
            max_ttl: MaxTtl::Unset,
        }
    }

    /// Returns the block with other settings.
    fn with_settings(&self, settings: Settings) -> OuterBlock {
        OuterBlock {
            class: self.class,
            settings,
            max_ttl: self.max_ttl,
        }
    }

    /// Returns the settings of a view in `options`.
    fn within(&self, options: &OuterBlock) -> OuterBlock {
        OuterBlock {
            class: self.class,
            settings: self.settings.within(&options.settings),
            max_ttl: self.max_ttl.within(options.max_ttl),
        }
    }
}

/// A zone of the configuration.
#[derive(Drop)]
struct NamedZone {
    name: String,
    /// The place of its name, as `FILE:LINE:COLUMN`.
    place: String,
    class: Option<Class>,
    /// Number of the views before its own, if it is in one.
    view: Option<usize>,
    file: String,
    /// The place of the path.
    file_place: Option<FilePlace>,
    max_ttl: MaxTtl,
    settings: ZoneSettings,
}

/// Reads a configuration.
#[derive(Drop)]
struct NamedReader<'r> {
    rt: &'r HostRuntime,
    files: ConfigFiles,
    state: ConfigState,
    /// For each open file that another includes, the state where that includes it.
    outers: Vec<ConfigState>,
    /// The directory below which absolute paths are, if there is one.
    root: Option<&'r str>,
    /// The last `directory`, joined to those before it.
    directory: String,
    options: OuterBlock,
    view: OuterBlock,
    /// The views that have ended.
    views: Vec<OuterBlock>,
    /// The zone that is open.
    zone: NamedZone,
    zones: Vec<NamedZone>,
    /// The first type that is not known, with its position.
    unknown_type: Option<String>,
}

/// Returns a zone without a name.
fn no_zone(alloc: Global) -> NamedZone {
    NamedZone {
        name: String::new(alloc),
        place: String::new(alloc),
        class: None,
        view: None,
        file: String::new(alloc),
        file_place: None,
        max_ttl: MaxTtl::Unset,
        settings: ZoneSettings::none(),
    }
}

/// Returns the text of a token.
fn string_of(alloc: Global, file: &ConfigFile, token: ConfigToken) -> Result<String, SourceError> {
    let mut octets = Vec::new(alloc);
    append_named_string(file.text.as_slice(), &token, &mut octets)?;
    file.string(alloc, span_of(token), octets.as_slice())
}

/// Returns the class of a block, if it is named.
fn class_of(
    alloc: Global,
    file: &ConfigFile,
    token: Option<ConfigToken>,
) -> Result<Option<Class>, SourceError> {
    let Some(token) = token else {
        return Ok(None);
    };
    match Class::from_text(token.content(file.text.as_slice())) {
        Ok(class) => Ok(Some(class)),
        Err(_) => Err(file.error(alloc, span_of(token), "unknown class")),
    }
}

/// Returns the greatest TTL that a token says.
fn max_ttl_of(alloc: Global, file: &ConfigFile, token: ConfigToken) -> Result<MaxTtl, SourceError> {
    let text = token.content(file.text.as_slice());
    if text.eq_ignore_ascii_case(b"unlimited") {
        return Ok(MaxTtl::Unlimited);
    }
    match seconds_in(str::from_utf8(text).unwrap_or("")) {
        Some(seconds) => Ok(MaxTtl::Seconds(seconds)),
        None => Err(file.error(alloc, span_of(token), "expected TTL or 'unlimited'")),
    }
}

/// Returns the keyword that a word nearly is, if it is one of those of zones: at most two letters are added,
/// missing or another.
fn nearly_keyword<'k>(alloc: Global, word: &[u8]) -> Result<Option<&'k str>, AllocError> {
    let Ok(word) = str::from_utf8(word) else {
        return Ok(None);
    };
    if 6 < word.len() {
        return Ok(None);
    }
    let word = word.to_ascii_lowercase(alloc)?;
    for keyword in ["zone", "view"] {
        if levenshtein(alloc, word.as_str(), keyword)? <= 2 {
            return Ok(Some(keyword));
        }
    }
    Ok(None)
}

/// Returns what the server does with names of hosts that are not host names, by its `check-names`.
fn host_names_of(check_names: Option<Severity>) -> HostNameCheck {
    match check_names {
        Some(Severity::Warn) => HostNameCheck::Loads,
        Some(Severity::Ignore) => HostNameCheck::Ignores,
        _ => HostNameCheck::Rejects,
    }
}

/// Returns the error of a zone, at its name.
fn zone_error(alloc: Global, zone: &NamedZone, message: &str) -> SourceError {
    match zone_text(alloc, zone, message) {
        Ok(text) => SourceError::Text(text),
        Err(_) => SourceError::OutOfMemory,
    }
}

/// Returns a message about a zone, with the place of its name.
fn zone_text(alloc: Global, zone: &NamedZone, message: &str) -> Result<String, AllocError> {
    let (place, name) = (zone.place.as_str(), zone.name.as_str());
    format!(in alloc; "{place}: {message} '{name}'")
}

impl<'r> NamedReader<'r> {
    /// Returns a reader before the first file.
    fn new(
        rt: &'r HostRuntime,
        files: ConfigFiles,
        root: Option<&'r str>,
    ) -> Result<NamedReader<'r>, AllocError> {
        let alloc = rt.alloc();
        Ok(NamedReader {
            rt,
            files,
            state: ConfigState::new(),
            outers: Vec::new(alloc),
            root,
            directory: String::from_str(alloc, root.unwrap_or(""))?,
            options: OuterBlock::new(),
            view: OuterBlock::new(),
            views: Vec::new(alloc),
            zone: no_zone(alloc),
            zones: Vec::new(alloc),
            unknown_type: None,
        })
    }

    /// Returns a path that is relative to the directory, or absolute.
    fn path(&self, path: &str) -> Result<String, AllocError> {
        located_path(self.rt.alloc(), self.root, self.directory.as_str(), path)
    }

    /// Begins a zone.
    fn open_zone(&mut self, file: &mut ConfigFile, name: BlockName) -> Result<(), SourceError> {
        let alloc = self.rt.alloc();
        let mut zone = no_zone(alloc);
        zone.name = string_of(alloc, file, name.name)?;
        if name_of(zone.name.as_str()).is_none() {
            return Err(file.error(alloc, span_of(name.name), "not a domain name"));
        }
        zone.place = file.place(alloc, name.name.at)?;
        zone.class = class_of(alloc, file, name.class)?;
        self.zone = zone;
        Ok(())
    }

    /// Ends the zone that is open. `before` is the state in it.
    fn close_zone(&mut self, before: ConfigState) -> Result<(), SourceError> {
        let mut zone = no_zone(self.rt.alloc());
        mem::swap(&mut zone, &mut self.zone);
        zone.settings = before.zone;
        zone.view = match before.block {
            ConfigBlock::ZoneInView => Some(self.views.len()),
            _ => None,
        };
        self.zones.push(zone)?;
        Ok(())
    }

    /// Begins a view.
    fn open_view(&mut self, file: &ConfigFile, name: BlockName) -> Result<(), SourceError> {
        self.view = OuterBlock::new();
        self.view.class = class_of(self.rt.alloc(), file, name.class)?;
        Ok(())
    }

    /// Ends the view that is open. `before` is the state in it.
    fn close_view(&mut self, before: ConfigState) -> Result<(), SourceError> {
        let view = self.view.with_settings(before.view);
        self.views.push(view)?;
        Ok(())
    }

    /// Sets the greatest TTL of the zones of a block.
    fn set_max_ttl(
        &mut self,
        file: &ConfigFile,
        token: ConfigToken,
        block: ConfigBlock,
    ) -> Result<(), SourceError> {
        let max_ttl = max_ttl_of(self.rt.alloc(), file, token)?;
        match block {
            ConfigBlock::Outside => {}
            ConfigBlock::Options => self.options.max_ttl = max_ttl,
            ConfigBlock::View => self.view.max_ttl = max_ttl,
            ConfigBlock::Zone | ConfigBlock::ZoneInView => self.zone.max_ttl = max_ttl,
        }
        Ok(())
    }

    /// Keeps the first type of a zone that is not known, with its position.
    fn note_type(&mut self, file: &mut ConfigFile, token: ConfigToken) -> Result<(), SourceError> {
        if self.unknown_type.is_some() {
            return Ok(());
        }
        let alloc = self.rt.alloc();
        let place = file.place(alloc, token.at)?;
        let word = quoted(alloc, token.content(file.text.as_slice()))?;
        let (word, position) = (word.as_str(), position_of(place.as_str()));
        self.unknown_type = Some(format!(in alloc; "{word} ({position})")?);
        Ok(())
    }

    /// Fails if a statement outside of blocks begins with a word that is nearly `zone` or `view`.
    fn check_word(
        &mut self,
        file: &ConfigFile,
        from: usize,
        before: ConfigState,
    ) -> Result<(), SourceError> {
        if !matches!(before.block, ConfigBlock::Outside) || 0 < before.depth {
            return Ok(());
        }
        if !matches!(before.last, LastClause::Statement) {
            return Ok(());
        }
        let Ok(Some(token)) = next_token(file.text.as_slice(), from) else {
            return Ok(());
        };
        let alloc = self.rt.alloc();
        match nearly_keyword(alloc, token.content(file.text.as_slice()))? {
            Some(keyword) => {
                let message = format!(in alloc; "no such statement; did you mean {keyword}?")?;
                Err(file.error(alloc, span_of(token), message.as_str()))
            }
            None => Ok(()),
        }
    }

    /// Sets the directory of relative paths.
    fn set_directory(&mut self, file: &ConfigFile, token: ConfigToken) -> Result<(), SourceError> {
        let alloc = self.rt.alloc();
        let path = string_of(alloc, file, token)?;
        self.directory = self.path(path.as_str())?;
        Ok(())
    }

    /// Processes what a statement means. `before` is the state before it, `from` its offset.
    fn process_event(
        &mut self,
        file: &mut ConfigFile,
        event: ConfigEvent,
        before: ConfigState,
        from: usize,
    ) -> Result<(), SourceError> {
        match event {
            ConfigEvent::Directory(token) => self.set_directory(file, token),
            ConfigEvent::File(token) => {
                let alloc = self.rt.alloc();
                self.zone.file = string_of(alloc, file, token)?;
                self.zone.file_place = Some(file.file_place(alloc, span_of(token))?);
                Ok(())
            }
            ConfigEvent::MaxZoneTtl(token) => self.set_max_ttl(file, token, before.block),
            ConfigEvent::UnknownType(token) => self.note_type(file, token),
            ConfigEvent::Passed => self.check_word(file, from, before),
            ConfigEvent::OpenView(name) => self.open_view(file, name),
            ConfigEvent::CloseView => self.close_view(before),
            ConfigEvent::OpenZone(name) => self.open_zone(file, name),
            ConfigEvent::CloseZone => self.close_zone(before),
            _ => Ok(()),
        }
    }

    /// Continues with the files that another includes.
    fn include(&mut self, file: ConfigFile, token: ConfigToken) -> Result<(), SourceError> {
        let alloc = self.rt.alloc();
        let path = string_of(alloc, &file, token)?;
        let pattern = self.path(path.as_str())?;
        self.files
            .include(self.rt, file, span_of(token), pattern.as_str())
    }

    /// Reads a file up to its end, or up to a file that it includes.
    fn read(&mut self, mut file: ConfigFile) -> Result<(), SourceError> {
        if !file.is_begun {
            file.is_begun = true;
            self.outers.push(self.state)?;
            self.state = self.state.inside();
        }
        for _ in 0..u64::MAX {
            let step = match next_step(file.text.as_slice(), file.from, self.state) {
                Ok(step) => step,
                Err(error) => {
                    let message = config_message(error.kind);
                    return Err(file.error(self.rt.alloc(), span_of_error(error), message));
                }
            };
            let (before, from) = (self.state, file.from);
            file.from = step.next;
            self.state = step.state;
            match step.event {
                ConfigEvent::End => {
                    if let Some(outer) = self.outers.pop() {
                        self.state = self.state.around(&outer);
                    }
                    return Ok(());
                }
                ConfigEvent::Include(token) => return self.include(file, token),
                event => self.process_event(&mut file, event, before, from)?,
            }
        }
        Ok(())
    }

    /// Returns the settings of the blocks around a zone.
    fn around(&self, zone: &NamedZone) -> OuterBlock {
        let mut options = self.options;
        options.settings = self.state.options;
        let Some(number) = zone.view else {
            return options;
        };
        match self.views.get(number) {
            Some(view) => view.within(&options),
            None => options,
        }
    }

    /// Returns a zone that is checked.
    fn source(&self, zone: &NamedZone, outer: &OuterBlock) -> Result<ZoneSource, AllocError> {
        let alloc = self.rt.alloc();
        let directory = self.directory.as_str();
        let base = if directory.is_empty() { "." } else { directory };
        let settings = zone.settings.settings.within(&outer.settings);
        Ok(ZoneSource {
            zone: Some(String::from_str(alloc, zone.name.as_str())?),
            file: self.path(zone.file.as_str())?,
            class: zone.class.or(outer.class),
            base: Some(String::from_str(alloc, base)?),
            max_ttl: zone.max_ttl.within(outer.max_ttl).seconds(),
            host_names: host_names_of(settings.check_names),
            is_signed_by_server: settings.signs_zones(),
            file_place: copy_of_place(&zone.file_place)?,
            view: zone.view,
        })
    }

    /// Returns the zones' names with their places.
    fn places(&self) -> Result<Vec<NamedPlace<'_>>, AllocError> {
        let mut places = Vec::new(self.rt.alloc());
        for zone in &self.zones {
            places.push(NamedPlace {
                view: zone.view,
                name: zone.name.as_str(),
                place: zone.place.as_str(),
            })?;
        }
        Ok(places)
    }

    /// Adds a zone, or counts it if it is left out.
    fn add(&self, zone: &NamedZone, sources: &mut Sources) -> Result<(), SourceError> {
        let alloc = self.rt.alloc();
        let outer = self.around(zone);
        match zone_outcome(&zone.settings, &outer.settings) {
            ZoneOutcome::Checked => sources.zones.push(self.source(zone, &outer)?)?,
            ZoneOutcome::Omitted(reason) => {
                sources.omitted = sources.omitted.counted(reason);
                if reason == OmitReason::Template {
                    let note = zone_text(alloc, zone, "not checked: zone with a template")?;
                    sources.notes.push(note)?;
                }
            }
            ZoneOutcome::NoType => return Err(zone_error(alloc, zone, "no type of the zone")),
            ZoneOutcome::NoFile => return Err(zone_error(
                alloc,
                zone,
                "no file of the primary zone",
            )),
        }
        Ok(())
    }
}

/// Adds the zones of a `named.conf`. With a root, its paths are below that.
pub fn add_named<'r>(
    rt: &'r HostRuntime,
    name: &'r str,
    text: Vec<u8>,
    root: Option<&'r str>,
    sources: &mut Sources,
) -> Result<(), SourceError> {
    let mut reader = NamedReader::new(rt, ConfigFiles::first(rt, name, text)?, root)?;
    for _ in 0..u64::MAX {
        match reader.files.next() {
            Some(file) => reader.read(file)?,
            None => break,
        }
    }
    if reader.zones.is_empty() {
        return Err(no_zone_in(rt.alloc(), name));
    }
    named_once(rt.alloc(), reader.places()?.as_slice())?;
    for zone in &reader.zones {
        reader.add(zone, sources)?;
    }
    sources.unknown_type = reader.unknown_type.take();
    Ok(())
}
