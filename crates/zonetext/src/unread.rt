//! The finding that a zone file can't be read.
use crate::check::Options;
use finding_codes::code::Code;
use std::alloc::{AllocError, Global};
use std::io;
use std::io::ErrorKind;
use zonetext_files::include_error::open_error;
use zonetext_files::open_file::first_place;
use zonetext_files::stop::RunError;
use zonetext_findings::reporter::{FindingLocation, FindingText, Reporter};
use zonetext_zones::file_places::FilePlace;
use zonetext_zones::zone_names::Zone;

/// A zone file that can't be read.
#[derive(Clone, Copy)]
pub struct UnreadFile<'u> {
    /// The path of the command line, of a configuration or of a list.
    path: &'u str,
    /// The name in messages.
    name: &'u str,
    /// Where a configuration or a list names the file, if one does.
    place: Option<&'u FilePlace>,
    /// The zone, if that names it too.
    zone: Option<&'u str>,
}

impl<'u> UnreadFile<'u> {
    /// Returns a file with what the options have about it.
    pub fn new(path: &'u str, name: &'u str, options: &Options<'u>) -> UnreadFile<'u> {
        let zone = match options.zone {
            Zone::Set(zone) if options.file_place.is_some() => Some(zone),
            _ => None,
        };
        UnreadFile {
            path,
            name,
            place: options.file_place,
            zone,
        }
    }

    /// Returns whether an error of a path is that the file can't be read.
    fn is_cause(&self, path: &str, error: &io::Error) -> bool {
        let is_file = path == self.path || path == self.name;
        is_file && error.kind() != ErrorKind::OutOfMemory
    }

    /// Returns where the finding is: where the file is named, or at its start.
    fn location(&self) -> FindingLocation<'u> {
        let (file, place, end_column) = match self.place {
            Some(found) => (found.file.as_str(), found.place, found.end_column),
            None => (self.name, first_place(), 1),
        };
        FindingLocation {
            file,
            number: 0,
            position: place.position,
            end_column,
            opened: None,
            line: None,
            generated: None,
        }
    }

    /// Returns the message, with the zone if it is named beside the file.
    fn message(&self, alloc: Global, error: &io::Error) -> Result<String, AllocError> {
        let why = open_error(alloc, error)?;
        let (why, name) = (why.as_str(), self.name);
        match self.zone {
            Some(zone) => {
                let zone = zone.strip_suffix('.').unwrap_or(zone);
                format!(in alloc; "zone {zone}.: cannot read '{name}': {why}")
            }
            None => format!(in alloc; "cannot read '{name}': {why}"),
        }
    }

    /// Returns the message, if a cause is that the file can't be read.
    fn message_of(&self, alloc: Global, stop: &RunError) -> Result<Option<String>, AllocError> {
        match stop {
            RunError::Read { file, error } => {
                if self.is_cause(file.as_str(), error) {
                    return Ok(Some(self.message(alloc, error)?));
                }
                Ok(None)
            }
            _ => Ok(None),
        }
    }
}

/// Reports that a zone file can't be read, and returns `false`. Another cause is returned as it is.
pub fn report_unread(
    rt: &HostRuntime,
    reporter: &mut Reporter<'_>,
    unread: UnreadFile<'_>,
    stop: RunError,
) -> Result<bool, RunError> {
    let message = unread.message_of(rt.alloc(), &stop)?;
    let Some(message) = message else {
        return Err(stop);
    };
    let text = FindingText::message(message.as_str());
    reporter.report(unread.location(), Code::File, true, text)?;
    Ok(false)
}
