//! Where configurations and lists name zone files.
use crate::zone_sources::located;
use server_config::TextSpan;
use std::alloc::{AllocError, Global};
use zone_format::place::LocatedOffset;

/// The words with which a configuration or a list names a zone file.
#[derive(Drop)]
pub struct FilePlace {
    /// The name of the configuration or the list.
    pub file: String,
    /// The place of the first octet.
    pub place: LocatedOffset,
    /// The column after the last octet.
    pub end_column: usize,
}

impl FilePlace {
    /// Returns the place of a span of a text. Lines are counted from `counted` on, or from the beginning
    /// if the span is before it.
    pub fn of_span(
        alloc: Global,
        file: &str,
        text: &[u8],
        counted: LocatedOffset,
        span: TextSpan,
    ) -> Result<FilePlace, AllocError> {
        let place = located(text, counted, span.at);
        let end = located(text, place, span.end.max(span.at));
        Ok(FilePlace {
            file: String::from_str(alloc, file)?,
            place,
            end_column: end.position.column.max(place.position.column),
        })
    }
}

/// Returns a copy of a place, if there is one.
pub fn copy_of_place(place: &Option<FilePlace>) -> Result<Option<FilePlace>, AllocError> {
    match place {
        Some(found) => Ok(Some(FilePlace {
            file: found.file.clone()?,
            place: found.place,
            end_column: found.end_column,
        })),
        None => Ok(None),
    }
}
