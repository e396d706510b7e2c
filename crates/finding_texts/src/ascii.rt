//! The ASCII form of names (RFC 5890).
ghost use Rattle.std.specs.Prelude.{◌≡◌, IfOk, string_bytes};
ghost use Rattle.std.specs.Option.{option_map};
ghost use Rattle.std.specs.List.{list_all};
ghost use Rattle.std.specs.Str.{chars};
ghost use Rattle.idna.specs.Uts46.{domain_to_ascii};
ghost use Rattle.finding_texts.specs.Ascii.{is_letter_digit, is_listed_letter, may_be_in_label};

use idna::{AsciiDenyList, Errors, domain_to_ascii_cow};
use std::alloc::{AllocError, Global};
use ucd_category::GeneralCategory;

/// Returns whether a character is a letter, a digit or a mark of one (RFC 5892 section 2.1).
fn is_letter_digit(character: char) -> bool
    ensures { result ≡ is_letter_digit character }
{
    matches!(
        GeneralCategory::for_char(character),
        GeneralCategory::LowercaseLetter
            | GeneralCategory::UppercaseLetter
            | GeneralCategory::OtherLetter
            | GeneralCategory::DecimalNumber
            | GeneralCategory::ModifierLetter
            | GeneralCategory::NonspacingMark
            | GeneralCategory::SpacingMark
    )
}

/// Returns whether a character is one of the exceptions that labels may have, some only between certain
/// letters (RFC 5892 section 2.6).
fn is_listed_letter(character: char) -> bool
    ensures { result ≡ is_listed_letter character }
{
    matches!(
        u32::from(character),
        0xB7 | 0x375 | 0x5F3 | 0x5F4 | 0x6FD | 0x6FE | 0xF0B | 0x200C | 0x200D | 0x3007 | 0x30FB
    )
}

/// Returns whether a character may be in the label of a name in some language: it is of ASCII, or not
/// disallowed by IDNA 2008.
fn may_be_in_label(character: char) -> bool
    ensures { result ≡ may_be_in_label character }
{
    u32::from(character) < 0x80 || is_letter_digit(character) || is_listed_letter(character)
}

/// Returns whether all characters of a name are of ASCII, or not disallowed by IDNA 2008 (RFC 5892).
pub fn is_allowed_name(name: &str) -> bool
    ensures { result ≡ list_all may_be_in_label (chars name.now) }
{
    name.chars().all(|character| may_be_in_label(character))
}

/// Returns the ASCII form of a name in UTF-8, in which each label with other characters is an
/// A-label, or `None` if the name has none. Fails if memory is out.
pub fn ascii_name(alloc: Global, name: &[u8]) -> Result<Option<String>, AllocError>
    ensures { IfOk result (λ r. option_map string_bytes r
        ≡ domain_to_ascii AsciiDenyList.EMPTY name.now) }
{
    match domain_to_ascii_cow(alloc, name, AsciiDenyList::EMPTY) {
        Ok(text) => Ok(Some(text.into_owned(alloc)?)),
        Err(Errors::Invalid) => Ok(None),
        Err(Errors::OutOfMemory) => Err(AllocError),
    }
}
