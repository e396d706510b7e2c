//! Parses the values of options.
use arrayvec::ArrayVec;
use clap::ArgMatches;
use dns_wire::{MAX_NAME, Name};
use rdata_tokens::append_name;
use rdata_values::{Class, interval_from_text};
use std::alloc::AllocError;
use std::io;
use std::io::ErrorKind;
use zone_reader::NameBuffer;
use zone_stream::ENTRY_LIMIT;
use zonetext_files::generated::MOST_GENERATED;
use zonetext_files::shown::Shown;
use zonetext_files::stop::EXIT_IO;

/// The status of a wrong command line.
pub const USAGE: u8 = 2;

/// Why a command line is wrong.
#[derive(Drop)]
pub enum Usage<'o> {
    /// The option's value is not valid. The message says what is expected.
    Value {
        option: &'static str,
        value: &'o str,
        wants: &'static str,
    },
    /// The option names a code that doesn't exist, and there is one with nearly that name.
    NearCode {
        option: &'static str,
        value: &'o str,
        near: &'static str,
    },
    /// The option names a code about records, and only the text is checked.
    OfRecords {
        option: &'static str,
        value: &'o str,
    },
    /// Arguments are missing. The message says which are expected.
    Arguments {
        wants: &'static str,
    },
    /// Signatures must be checked, and no zone is set.
    NoZone,
    /// The name of a file should contain its zone, and does not.
    NoZoneName {
        file: &'o str,
    },
    /// The names of two files of one zone contain different zones.
    OtherZone {
        file: &'o str,
        first: &'o str,
    },
    /// The clock can't be read.
    Clock,
    Memory,
}

impl From<AllocError> for Usage<'_> {
    fn from(_error: AllocError) -> Self {
        Usage::Memory
    }
}

/// Parses a name, and appends the root.
pub fn name_of(text: &str) -> Option<NameBuffer> {
    let root = Name::root_ref();
    let mut octets: ArrayVec<u8, MAX_NAME> = ArrayVec::new();
    append_name(text.as_bytes(), Some(&root), &mut octets).ok()?;
    NameBuffer::from_octets(octets).ok()
}

/// Parses the class of an option, IN by default.
pub fn class_of<'o>(text: Option<&'o str>) -> Result<Class, Usage<'o>> {
    let Some(value) = text else {
        return Ok(Class::IN);
    };
    match Class::from_text(value.as_bytes()) {
        Ok(class) => Ok(class),
        Err(_) => Err(Usage::Value {
            option: "--class",
            value,
            wants: "a class, as IN or CLASS3",
        }),
    }
}

/// Parses the number of an option, if it is set.
pub fn number_of<'o>(
    text: Option<&'o str>,
    option: &'static str,
) -> Result<Option<u32>, Usage<'o>> {
    let Some(value) = text else {
        return Ok(None);
    };
    match value.parse::<u32>() {
        Ok(number) => Ok(Some(number)),
        Err(_) => Err(Usage::Value {
            option,
            value,
            wants: "a number up to 4294967295",
        }),
    }
}

/// Parses seconds, such as `86400` or `1d`.
pub fn seconds_in(text: &str) -> Option<u32> {
    interval_from_text(text.as_bytes()).ok()
}

/// Parses the seconds of an option, such as `86400` or `1d`, if it is set.
pub fn seconds_of<'o>(
    text: Option<&'o str>,
    option: &'static str,
) -> Result<Option<u32>, Usage<'o>> {
    let Some(value) = text else {
        return Ok(None);
    };
    match seconds_in(value) {
        Some(seconds) => Ok(Some(seconds)),
        None => Err(Usage::Value {
            option,
            value,
            wants: "a time in seconds, or as 7d or 12h30m",
        }),
    }
}

/// The least size of an option, in octets.
const LEAST_SIZE: usize = 64 * 1024;

/// Parses a number of octets, such as `500000`, `64M` or `1G`. Letters count by 1024.
fn octets_of(text: &str) -> Option<usize> {
    let (digits, unit) = match text.as_bytes().last() {
        Some(b'K') => (text.strip_suffix('K')?, 1 << 10),
        Some(b'M') => (text.strip_suffix('M')?, 1 << 20),
        Some(b'G') => (text.strip_suffix('G')?, 1 << 30),
        _ => (text, 1),
    };
    if !digits.bytes().all(|digit| digit.is_ascii_digit()) {
        return None;
    }
    digits.parse::<usize>().ok()?.checked_mul(unit)
}

/// Parses the size of an option, in octets, if it is set.
pub fn size_of<'o>(
    text: Option<&'o str>,
    option: &'static str,
) -> Result<Option<usize>, Usage<'o>> {
    let Some(value) = text else {
        return Ok(None);
    };
    match octets_of(value) {
        Some(size) if size >= LEAST_SIZE => Ok(Some(size)),
        _ => Err(Usage::Value {
            option,
            value,
            wants: "octets, 64K or more, as 500000, 64M or 1G",
        }),
    }
}

/// Returns the greatest number of octets of an entry.
pub fn max_entry_of<'o>(inner: &'o ArgMatches) -> Result<usize, Usage<'o>> {
    let size = size_of(inner.get_str("max-entry"), "--max-entry")?;
    Ok(size.unwrap_or(ENTRY_LIMIT))
}

/// Returns the greatest number of entries of a `$GENERATE` directive.
pub fn most_generated_of<'o>(inner: &'o ArgMatches) -> Result<u64, Usage<'o>> {
    match number_of(inner.get_str("max-generate"), "--max-generate")? {
        Some(most) => Ok(u64::from(most)),
        None => Ok(MOST_GENERATED),
    }
}

/// Returns the zone of an option, if it is set.
pub fn zone_of<'o>(inner: &'o ArgMatches) -> Result<Option<&'o str>, Usage<'o>> {
    match inner.get_str("zone") {
        Some(value) if name_of(value).is_none() => Err(Usage::Value {
            option: "--zone",
            value,
            wants: "a domain name",
        }),
        zone => Ok(zone),
    }
}

/// Reports that the name of a file should contain its zone, and does not, and returns the status.
pub fn report_no_zone(rt: &HostRuntime, file: &str) -> io::Result<u8> {
    let file = Shown(file);
    eprintln!(rt; "zonetext: {file}: the file's name names no zone")?;
    Ok(USAGE)
}

/// Returns the status of a command, or that of a wrong command line, which is reported.
pub fn status_of(rt: &HostRuntime, answer: Result<u8, Usage<'_>>) -> io::Result<u8> {
    match answer {
        Ok(status) => Ok(status),
        Err(
            Usage::Value {
                option,
                value,
                wants,
            },
        ) => {
            let value = Shown(value);
            eprintln!(rt; "zonetext: {option} {value}: wants {wants}")?;
            Ok(USAGE)
        }
        Err(
            Usage::NearCode {
                option,
                value,
                near,
            },
        ) => {
            let value = Shown(value);
            eprintln!(rt; "zonetext: {option} {value}: no such code; did you mean {near}?")?;
            Ok(USAGE)
        }
        Err(Usage::OfRecords { option, value }) => {
            eprintln!(rt;
                "zonetext: {option} {value}: a finding of records, which --text does not look at"
            )?;
            Ok(USAGE)
        }
        Err(Usage::Arguments { wants }) => {
            eprintln!(rt; "zonetext: wants {wants}")?;
            Ok(USAGE)
        }
        Err(Usage::NoZone) => {
            eprintln!(rt; "zonetext: --dnssec wants --zone or --zone-from-name")?;
            Ok(USAGE)
        }
        Err(Usage::NoZoneName { file }) => report_no_zone(rt, file),
        Err(Usage::OtherZone { file, first }) => {
            let (file, first) = (Shown(file), Shown(first));
            eprintln!(rt;
                "zonetext: {file}: its name is another zone's than {first}: give --zone"
            )?;
            Ok(USAGE)
        }
        Err(Usage::Clock) => {
            eprintln!(rt; "zonetext: the clock can't be read: give --now")?;
            Ok(EXIT_IO)
        }
        Err(Usage::Memory) => Err(io::Error::from(ErrorKind::OutOfMemory)),
    }
}
