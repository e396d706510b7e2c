//! The locations and the messages of rejected `$GENERATE` directives.
use crate::locations::{octet_at, spot_at, token_at, token_part};
use crate::reporter::FindingLocation;
use crate::subjects::Text;
use dns_lexer::entry_tokens::EntryToken;
use std::alloc::{AllocError, Global};
use zone_generate::{GenerateError, GenerateErrorKind};
use zonetext_files::generated::RejectedDirective;
use zonetext_files::zone_files::Entry;

/// Returns whether an error is one of a part of the owner or the RDATA.
fn is_of_part(kind: GenerateErrorKind) -> bool {
    matches!(
        kind,
        GenerateErrorKind::BadOffset
            | GenerateErrorKind::LargeOffset
            | GenerateErrorKind::BadWidth
            | GenerateErrorKind::LargeWidth
            | GenerateErrorKind::BadBase
            | GenerateErrorKind::OpenBrace
            | GenerateErrorKind::LargeSum
            | GenerateErrorKind::PlainAfterOffset
            | GenerateErrorKind::OpenEscape
            | GenerateErrorKind::LineBreak
    )
}

/// Returns whether an error is one of an octet.
fn is_of_octet(kind: GenerateErrorKind) -> bool {
    matches!(
        kind,
        GenerateErrorKind::PlainAfterOffset
            | GenerateErrorKind::OpenEscape
            | GenerateErrorKind::LineBreak
    )
}

/// Returns the octets of a token from an offset on, up to the first brace that closes.
fn format_at<'t>(text: &'t [u8], offset: usize) -> &'t [u8] {
    let rest = text.get(offset..).unwrap_or(&[]);
    match rest.iter().position(|octet| *octet == b'}') {
        Some(end) => rest.get(..=end).unwrap_or(rest),
        None => rest,
    }
}

/// Returns the token of an entry that begins at an offset of the file.
fn token_from<'e>(
    entry: &Entry<'_>,
    tokens: &[EntryToken<'e>],
    at: usize,
) -> Option<EntryToken<'e>> {
    let at = at.saturating_sub(entry.offset);
    for token in tokens {
        if token.at == at {
            return Some(*token);
        }
    }
    None
}

/// Returns the location and the octets of what an error is about.
fn place_of<'e>(
    entry: &Entry<'e>,
    tokens: &[EntryToken<'e>],
    error: GenerateError,
) -> (FindingLocation<'e>, Option<&'e [u8]>) {
    match error.kind {
        GenerateErrorKind::Parenthesis => return (octet_at(entry, error.at), None),
        GenerateErrorKind::MissingToken => return (spot_at(entry, tokens, error.at), None),
        _ => {}
    }
    let Some(token) = token_from(entry, tokens, error.at) else {
        return (octet_at(entry, error.at), None);
    };
    if !is_of_part(error.kind) {
        return (token_at(entry, &token), Some(token.text));
    }
    let word = format_at(token.text, error.offset);
    let word = if is_of_octet(error.kind) {
        word.get(..1).unwrap_or(word)
    } else {
        word
    };
    let quote = usize::from(token.is_quoted);
    let offset = error.offset.saturating_add(quote);
    (
        token_part(entry, &token, offset, word.len().max(1)),
        Some(word),
    )
}

/// Returns the location and the text of the error of a directive.
pub fn refusal_text<'e>(
    alloc: Global,
    entry: &Entry<'e>,
    tokens: &[EntryToken<'e>],
    refusal: RejectedDirective,
) -> Result<(FindingLocation<'e>, Text), AllocError> {
    let (error, most) = match refusal {
        RejectedDirective::Error { error, most } => (error, most),
        RejectedDirective::NotCut => {
            let text = "a file with $GENERATE is not cut: run zonetext expand first";
            return Ok((
                octet_at(entry, entry.offset),
                Text::worded(alloc, text, None)?,
            ));
        }
    };
    let (spot, word) = place_of(entry, tokens, error);
    let text = Text::worded(alloc, error.kind.as_str(), word)?;
    if error.kind != GenerateErrorKind::TooManyEntries {
        return Ok((spot, text));
    }
    let help = format!(in alloc; "--max-generate N allows more than {most}")?;
    Ok((spot, Text { help, ..text }))
}
