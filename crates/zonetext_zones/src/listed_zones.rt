//! Lists of zones: lines with a zone and its file.
use crate::file_places::FilePlace;
use crate::options::name_of;
use crate::zone_sources::{
    HostNameCheck, SourceError, Sources, ZoneSource, error_at, located, no_zone_in, octets_between,
    octets_in, text_of_file,
};
use server_config::{ListLine, TextSpan, list_line};
use std::alloc::Global;
use zone_format::place::LocatedOffset;
use zonetext_files::open_file::first_place;

/// A line of a list, and its place.
#[derive(Clone, Copy)]
struct Line<'l> {
    /// The name of the list.
    file: &'l str,
    /// The text of the list.
    text: &'l [u8],
    /// Place of the line.
    place: LocatedOffset,
    /// The line, without its end.
    octets: &'l [u8],
}

impl<'l> Line<'l> {
    /// Returns the span in the list of one in the line.
    fn span_in_list(&self, span: TextSpan) -> TextSpan {
        TextSpan {
            at: self.place.at.saturating_add(span.at),
            end: self.place.at.saturating_add(span.end),
        }
    }

    /// Returns the error of a word of the line.
    fn error(&self, alloc: Global, span: TextSpan, message: &str) -> SourceError {
        error_at(
            alloc,
            self.file,
            self.text,
            self.span_in_list(span),
            message,
        )
    }

    /// Returns a word of the line.
    fn word(&self, alloc: Global, span: TextSpan) -> Result<&'l str, SourceError> {
        match str::from_utf8(octets_in(self.octets, span)) {
            Ok(word) => Ok(word),
            Err(_) => Err(self.error(alloc, span, "word is not UTF-8")),
        }
    }

    /// Returns the zone and the file of the line.
    fn source(
        &self,
        alloc: Global,
        zone: TextSpan,
        file: TextSpan,
    ) -> Result<ZoneSource, SourceError> {
        let name = self.word(alloc, zone)?;
        let path = self.word(alloc, file)?;
        let span = self.span_in_list(file);
        let place = FilePlace::of_span(alloc, self.file, self.text, self.place, span)?;
        if name_of(name).is_none() {
            return Err(self.error(alloc, zone, "not a domain name"));
        }
        Ok(ZoneSource {
            zone: Some(String::from_str(alloc, name)?),
            file: String::from_str(alloc, path)?,
            class: None,
            base: None,
            max_ttl: None,
            host_names: HostNameCheck::Loads,
            is_signed_by_server: false,
            file_place: Some(place),
            view: None,
        })
    }

    /// Adds the zone of the line, if it has one.
    fn add(&self, alloc: Global, sources: &mut Sources) -> Result<(), SourceError> {
        match list_line(self.octets) {
            ListLine::Blank => Ok(()),
            ListLine::Entry(zone, file) => {
                let source = self.source(alloc, zone, file)?;
                sources.zones.push(source)?;
                Ok(())
            }
            ListLine::NoFile(zone) => Err(self.error(alloc, zone, "no file after the zone")),
            ListLine::Trailing(word) => {
                Err(self.error(alloc, word, "third word in a line of a zone and its file"))
            }
        }
    }
}

/// Returns the offset of the end of the line at an offset.
fn line_end(text: &[u8], from: usize) -> usize {
    let mut at = from;
    for octet in octets_between(text, from, text.len()) {
        if *octet == b'\n' {
            return at;
        }
        at = at.saturating_add(1);
    }
    at
}

/// Adds the zones of a list, `-` for standard input.
pub fn add_listed(rt: &HostRuntime, file: &str, sources: &mut Sources) -> Result<(), SourceError> {
    let text = text_of_file(rt, file)?;
    let text = text.as_slice();
    let before = sources.zones.len();
    let mut place = first_place();
    for _ in 0..u64::MAX {
        if text.len() <= place.at {
            break;
        }
        let end = line_end(text, place.at);
        let line = Line {
            file,
            text,
            place,
            octets: octets_between(text, place.at, end),
        };
        line.add(rt.alloc(), sources)?;
        if text.len() <= end {
            break;
        }
        place = located(text, place, end.saturating_add(1));
    }
    if sources.zones.len() == before {
        return Err(no_zone_in(rt.alloc(), file));
    }
    Ok(())
}
