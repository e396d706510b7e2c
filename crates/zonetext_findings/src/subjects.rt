//! The owner and the type of the record that a finding is about, as they are shown.
use crate::reporter::FindingText;
use arrayvec::ArrayVec;
use dns_lexer::entry_tokens::EntryToken;
use dns_octets::AsOctets;
use dns_wire::{DisplayWithDot, Name};
use error_texts::buffer::MOST;
use rdata_values::RecordType;
use std::alloc::{AllocError, Global};
use zone_check::names::ends_in_dot;
use zone_reader::{NameBuffer, ParsedEntry, directive_word, type_word};
use zone_rules::names::{is_name_below, view};
use zone_stream::BlockRefusal;
use zonetext_files::shown::quoted;
use zonetext_files::zone_files::Entry;

/// The owner and the type of the record that a finding is about. A text that is not known is empty.
#[derive(Drop)]
pub struct Subject {
    owner: String,
    /// The same owner in full, if it is that of a record.
    full_owner: String,
    rtype: String,
}

/// The texts of a finding. Each but the message may be empty.
#[derive(Drop)]
pub struct Text {
    pub message: String,
    pub help: String,
    pub note: String,
}

/// Returns the text of an error as a string. All of them are ASCII.
pub fn text_of(text: &ArrayVec<u8, MOST>) -> &str {
    str::from_utf8(text.as_slice()).unwrap_or("")
}

/// Returns the text of a name without the name of the zone and the dot before it, if it is below
/// the zone.
fn below_zone<'t>(alloc: Global, text: &'t str, zone: &NameBuffer) -> Result<&'t str, AllocError> {
    let zone = DisplayWithDot::new(zone).to_string(alloc)?;
    let count = text.len().saturating_sub(zone.len().saturating_add(1));
    Ok(text.get(..count).unwrap_or(text))
}

/// Returns the text of an owner: relative to the zone if it is below that, and in full otherwise.
pub fn owner_text<Owner: AsOctets>(
    alloc: Global,
    owner: &Name<Owner>,
    zone: Option<&NameBuffer>,
) -> Result<String, AllocError> {
    let text = DisplayWithDot::new(owner).to_string(alloc)?;
    let Some(zone) = zone else {
        return Ok(text);
    };
    if zone.len() < 2 || !is_name_below(&view(owner), &view(zone)) {
        return Ok(text);
    }
    String::from_str(alloc, below_zone(alloc, text.as_str(), zone)?)
}

/// Returns an owner as it is spelled, in full. Returns an empty text if it has no origin, or isn't
/// UTF-8.
fn spelled_in_full(
    alloc: Global,
    spelled: &[u8],
    origin: Option<&NameBuffer>,
) -> Result<String, AllocError> {
    let Ok(text) = str::from_utf8(spelled) else {
        return Ok(String::new(alloc));
    };
    if ends_in_dot(spelled) {
        return String::from_str(alloc, text);
    }
    let Some(origin) = origin else {
        return Ok(String::new(alloc));
    };
    let origin_text = DisplayWithDot::new(origin).to_string(alloc)?;
    let origin_text = origin_text.as_str();
    if text == "@" {
        return String::from_str(alloc, origin_text);
    }
    let dot = if origin.len() < 2 { "" } else { "." };
    format!(in alloc; "{text}{dot}{origin_text}")
}

/// Returns the text of a name without that of the zone and the dot before it, if it ends in these.
fn without_zone<'t>(full: &'t str, zone: &str) -> &'t str {
    if zone.len() < 2 {
        return full;
    }
    let Some(front) = full.strip_suffix(zone) else {
        return full;
    };
    match front.strip_suffix(".") {
        Some(relative) => relative,
        None => full,
    }
}

/// Returns the text of an owner as it is spelled: relative to the zone if it ends like that, and in
/// full otherwise.
fn spelled_owner(
    alloc: Global,
    spelled: &[u8],
    origin: Option<&NameBuffer>,
    zone: Option<&NameBuffer>,
) -> Result<String, AllocError> {
    let full = spelled_in_full(alloc, spelled, origin)?;
    let Some(zone) = zone else {
        return Ok(full);
    };
    let zone = DisplayWithDot::new(zone).to_string(alloc)?;
    String::from_str(alloc, without_zone(full.as_str(), zone.as_str()))
}

/// Returns the text of a type, or an empty one.
fn type_text(alloc: Global, rtype: Option<RecordType>) -> Result<String, AllocError> {
    match rtype {
        Some(rtype) => format!(in alloc; "{rtype}"),
        None => Ok(String::new(alloc)),
    }
}

/// Returns the first type that tokens name, after the owner.
fn type_among(tokens: &[EntryToken<'_>], is_blank: bool) -> Option<RecordType> {
    for token in tokens.get(usize::from(!is_blank)..).unwrap_or(&[]) {
        if let Some(rtype) = type_word(token) {
            return Some(rtype);
        }
    }
    None
}

impl Text {
    /// Returns a message alone.
    pub fn new(alloc: Global, message: String) -> Text {
        Text {
            message,
            help: String::new(alloc),
            note: String::new(alloc),
        }
    }

    /// Returns a message with the token that it is about, if there is one.
    pub fn worded(alloc: Global, text: &str, word: Option<&[u8]>) -> Result<Text, AllocError> {
        let message = match word {
            Some(word) => {
                let word = quoted(alloc, word)?;
                format!(in alloc; "{text} {word}")?
            }
            None => String::from_str(alloc, text)?,
        };
        Ok(Text::new(alloc, message))
    }

    /// Returns the texts, without a record.
    pub fn finding_text(&self) -> FindingText<'_> {
        FindingText {
            owner: "",
            full_owner: "",
            rtype: "",
            message: self.message.as_str(),
            help: self.help.as_str(),
            note: self.note.as_str(),
        }
    }
}

impl Subject {
    /// Returns no subject.
    pub fn none(alloc: Global) -> Subject {
        Subject {
            owner: String::new(alloc),
            full_owner: String::new(alloc),
            rtype: String::new(alloc),
        }
    }

    /// Returns the subject of a record.
    pub fn new<Owner: AsOctets>(
        alloc: Global,
        owner: &Name<Owner>,
        rtype: Option<RecordType>,
        zone: Option<&NameBuffer>,
    ) -> Result<Subject, AllocError> {
        Ok(Subject {
            owner: owner_text(alloc, owner, zone)?,
            full_owner: DisplayWithDot::new(owner).to_string(alloc)?,
            rtype: type_text(alloc, rtype)?,
        })
    }

    /// Returns the subject of an entry that was read up to its header, with the owner that is known
    /// after it.
    fn of_read(
        alloc: Global,
        entry: &Entry<'_>,
        rtype: Option<RecordType>,
        zone: Option<&NameBuffer>,
    ) -> Result<Subject, AllocError> {
        match entry.state.owner() {
            Ok(owner) => Subject::new(alloc, owner, rtype, zone),
            Err(_) => Ok(Subject {
                owner: String::new(alloc),
                full_owner: String::new(alloc),
                rtype: type_text(alloc, rtype)?,
            }),
        }
    }

    /// Returns the subject of an entry with a syntax error, by the tokens before it.
    fn of_tokens(
        alloc: Global,
        entry: &Entry<'_>,
        tokens: &[EntryToken<'_>],
        is_blank: bool,
        zone: Option<&NameBuffer>,
    ) -> Result<Subject, AllocError> {
        let rtype = type_among(tokens, is_blank);
        match tokens.first() {
            Some(first) if !is_blank && directive_word(first).is_some() => Ok(Subject::none(alloc)),
            Some(first) if !is_blank => Ok(Subject {
                owner: spelled_owner(alloc, first.text, entry.state.origin.name(), zone)?,
                full_owner: String::new(alloc),
                rtype: type_text(alloc, rtype)?,
            }),
            _ if is_blank => Subject::of_read(alloc, entry, rtype, zone),
            _ => Ok(Subject::none(alloc)),
        }
    }

    /// Returns the subject of an entry, which has these tokens. A directive has none.
    pub fn of_entry(
        alloc: Global,
        entry: &Entry<'_>,
        tokens: &[EntryToken<'_>],
        is_blank: bool,
        zone: Option<&NameBuffer>,
    ) -> Result<Subject, AllocError> {
        match entry.read {
            Ok(ParsedEntry::Record { rtype, .. }) => {
                Subject::of_read(alloc, entry, Some(*rtype), zone)
            }
            Err(BlockRefusal::Entry(error)) => match tokens.first() {
                Some(first) if !is_blank && directive_word(first).is_some() => {
                    Ok(Subject::none(alloc))
                }
                _ => Subject::of_read(alloc, entry, error.rtype, zone),
            },
            Err(BlockRefusal::Text(_)) => Subject::of_tokens(alloc, entry, tokens, is_blank, zone),
            _ => Ok(Subject::none(alloc)),
        }
    }

    /// Returns a message about the record.
    pub fn finding_text<'s>(&'s self, message: &'s str, help: &'s str) -> FindingText<'s> {
        FindingText {
            owner: self.owner.as_str(),
            full_owner: self.full_owner.as_str(),
            rtype: self.rtype.as_str(),
            message,
            help,
            note: "",
        }
    }
}
