//! How the zone of a file is determined: by an option, or by the name of the file.
use crate::arguments::{ArgRow, FLAG, VALUED};
use crate::options::{Usage, name_of, zone_of};
use clap::ArgMatches;
use server_config::zone_in_path;
use std::alloc::{AllocError, Global};
use zone_reader::NameBuffer;

/// How a file's zone is determined.
#[derive(Clone, Copy)]
pub enum Zone<'o> {
    Unset,
    /// By an option.
    Set(&'o str),
    /// By the name of the file.
    FromName,
}

/// The option `--zone`, without its help text.
pub const ZONE: ArgRow = ArgRow {
    name: "zone",
    value_name: &["ORIGIN"],
    heading: "Zone",
    conflicts: &["zone-from-name"],
    ..VALUED
};

/// The option `--zone-from-name`.
pub const ZONE_FROM_NAME: ArgRow = ArgRow {
    name: "zone-from-name",
    help: "like --zone, by the file's name less .zone or .db",
    heading: "Zone",
    ..FLAG
};

/// Returns the zone that a file's name contains, as `example.org.zone` does.
fn zone_of_path(path: &str) -> Option<NameBuffer> {
    let span = zone_in_path(path.as_bytes());
    name_of(path.get(span.at..span.end)?)
}

impl<'o> Zone<'o> {
    /// Returns how the zone is determined by the options of a command.
    pub fn asked(inner: &'o ArgMatches) -> Result<Zone<'o>, Usage<'o>> {
        if inner.get_flag("zone-from-name") {
            return Ok(Zone::FromName);
        }
        match zone_of(inner)? {
            Some(zone) => Ok(Zone::Set(zone)),
            None => Ok(Zone::Unset),
        }
    }

    /// Returns whether a zone is determined.
    pub fn is_set(self) -> bool {
        !matches!(self, Zone::Unset)
    }

    /// Returns the zone of a file, if it is known.
    pub fn origin(self, file: &str) -> Option<NameBuffer> {
        match self {
            Zone::Unset => None,
            Zone::Set(zone) => name_of(zone),
            Zone::FromName if file == "-" => None,
            Zone::FromName => zone_of_path(file),
        }
    }

    /// Returns whether the name of a file should contain its zone, and does not.
    pub fn lacks_name(self, file: &str) -> bool {
        matches!(self, Zone::FromName) && self.origin(file).is_none()
    }
}

/// Returns whether the names of two files contain the same zone, or need not.
fn has_same_zone(first: &str, other: &str, zone: Zone<'_>) -> bool {
    match (zone, zone.origin(first), zone.origin(other)) {
        (Zone::FromName, Some(first), Some(other)) => {
            first.as_slice().eq_ignore_ascii_case(other.as_slice())
        }
        _ => true,
    }
}

/// Returns how the zones of files are determined by the options of a command. Fails if the name of
/// one should contain its zone, and does not. If `is_one_zone` is set, it fails also if two names
/// contain different zones.
pub fn zone_of_files<'o>(
    inner: &'o ArgMatches,
    files: &[&'o str],
    is_one_zone: bool,
) -> Result<Zone<'o>, Usage<'o>> {
    let zone = Zone::asked(inner)?;
    let Some(first) = files.first() else {
        return Ok(zone);
    };
    let first: &'o str = *first;
    for file in files {
        let file: &'o str = *file;
        if zone.lacks_name(file) {
            return Err(Usage::NoZoneName { file });
        }
        if is_one_zone && !has_same_zone(first, file, zone) {
            return Err(Usage::OtherZone { file, first });
        }
    }
    Ok(zone)
}
