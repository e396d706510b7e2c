//! Edits of the serial of an SOA.
ghost use Rattle.std.specs.Prelude.{◌≡◌, ◌++◌, IfErr, None, OnErr, OnOk, Some};
ghost use Rattle.std.specs.Fmt.{decimal};
ghost use Rattle.zone_edit.specs.Serials.{IsSerialError, IsSoaError, are_decimal, edit_error, first_differing, is_number, serial_spans, serial_texts, serial_token, soa_error, soas_error, spelled_token};
ghost use Rattle.zone_edit.specs.Tokens.{Continues, PushesEdit, spans_of, texts_of};

use crate::change::{are_same, decimal_text};
use crate::edit::Edit;
use crate::mark::is_generic_mark;
use crate::tokens::push_edit;
use dns_lexer::pieces::Span;
use std::alloc::{AllocError, Allocator};

/// How the serial of an SOA is spelled.
#[derive(Clone, Copy, PartialEq, Eq)]
pub enum SerialSpelling {
    /// As decimal digits.
    Decimal,
    /// With quotes or escapes.
    Escaped,
    /// In RDATA in the generic form (RFC 3597 section 5).
    Generic,
    /// By a `$GENERATE` directive.
    Generated,
}

/// The token of the serial of an SOA.
#[derive(Clone, Copy)]
pub struct SerialToken {
    /// Span of the token; in the generic form that of the mark. Of a generated record it has no meaning.
    pub span: Span,
    pub spelling: SerialSpelling,
}

/// An SOA of a zone.
#[derive(Clone, Copy)]
pub struct SoaEdit<'s> {
    /// RDATA in canonical form.
    pub rdata: &'s [u8],
    /// Whether its file is included by another.
    pub is_included: bool,
    pub serial: SerialToken,
}

/// The error of SOAs that can't be edited.
#[derive(Clone, Copy, PartialEq, Eq)]
pub enum SoaError {
    /// There is no SOA.
    NoSoa,
    /// The SOA of this index is the first whose RDATA is not that of the first SOA.
    Differing { index: usize },
    /// The SOA of this index, or a ZONEMD ([`crate::soa_place`]), is in an included file.
    Included { index: usize },
    /// The serial of the SOA of this index has quotes or escapes.
    NotDecimal { index: usize },
    /// The SOA of this index is in the generic form.
    GenericForm { index: usize },
    /// A `$GENERATE` makes the SOA of this index, or a ZONEMD ([`crate::soa_place`]).
    Generated { index: usize },
    /// An allocation failed.
    OutOfMemory,
}

impl From<AllocError> for SoaError {
    ghost use Rattle.zone_edit.specs.declared.serial.SoaError.TheVariants.{OutOfMemory};

    ghost from_gives = { λ _ e. e ≡ OutOfMemory };

    fn from(_error: AllocError) -> SoaError {
        SoaError::OutOfMemory
    }
}

/// Returns whether octets are decimal digits alone.
fn are_decimal(octets: &[u8]) -> bool
    ensures { result ≡ are_decimal octets.now }
{
    for octet in octets {
        if !octet.is_ascii_digit() {
            return false;
        }
    }
    true
}

/// Returns whether a token is one decimal digit or more, and nothing else.
fn is_number(octets: &[u8], token: Span) -> bool
    ensures { result ≡ is_number octets.now token }
{
    token.end <= octets.len()
        && token.start < token.end
        && are_decimal(&octets[token.start..token.end])
}

/// Returns a token with a spelling.
fn spelled_token(span: Span, spelling: SerialSpelling) -> SerialToken
    ensures { result ≡ spelled_token span spelling }
{
    SerialToken { span, spelling }
}

/// Returns the token of the serial of an SOA, and how it is spelled, by the spans of the tokens of its
/// RDATA among some octets. Returns `None` if there are fewer than three tokens.
pub fn serial_token(octets: &[u8], tokens: &[Span]) -> Option<SerialToken>
    ensures { result ≡ serial_token octets.now tokens.now }
{
    match tokens {
        [first, _, serial, ..] => {
            if is_generic_mark(octets, *first) {
                Some(spelled_token(*first, SerialSpelling::Generic))
            } else if is_number(octets, *serial) {
                Some(spelled_token(*serial, SerialSpelling::Decimal))
            } else {
                Some(spelled_token(*serial, SerialSpelling::Escaped))
            }
        }
        _ => None,
    }
}

/// Returns the index of the first SOA whose RDATA is not the same, counted from 1.
fn first_differing(first: &[u8], others: &[SoaEdit<'_>]) -> Option<usize>
    ensures { result ≡ first_differing first.now 1 others.now }
{
    let mut index = 1;
    for other in others {
        if !are_same(first, other.rdata) {
            return Some(index);
        }
        index += 1;
    }
    None
}

/// Checks that a zone has an SOA, and that all its SOAs are the same (RFC 5936 section 2.2).
///
/// Fails with `NoSoa` if there is none, and with `Differing` if two differ, with the index of the
/// first whose RDATA is not that of the first SOA. There is no other error.
pub fn check_soas(soas: &[SoaEdit<'_>]) -> Result<(), SoaError>
    ensures ok { OnOk result (soas_error soas.now ≡ None) }
    ensures err { IfErr result (λ e. soas_error soas.now ≡ Some e) }
{
    let Some((first, others)) = soas.split_first() else {
        return Err(SoaError::NoSoa);
    };
    match first_differing(first.rdata, others) {
        Some(index) => Err(SoaError::Differing { index }),
        None => Ok(()),
    }
}

/// Pushes the edit that replaces the serial of an SOA with an index, or nothing after an error.
fn push_soa<B: Allocator + Copy>(
    alloc: B,
    soa: &SoaEdit<'_>,
    index: usize,
    serial: u32,
    edits: &mut Vec<Edit<B>, B>,
) -> Result<(), SoaError>
    ensures ok { OnOk result (PushesEdit soa.now.serial.span (decimal serial)
        edits.old.items edits.new.items) }
    ensures fits { OnOk result (soa_error index soa.now ≡ None) }
    ensures err { IfErr result (IsSoaError index soa.now) }
    ensures unchanged { OnErr result (edits.new.items ≡ edits.old.items) }
{
    if soa.is_included {
        return Err(SoaError::Included { index });
    }
    match soa.serial.spelling {
        SerialSpelling::Decimal => {
            let text = decimal_text(alloc, serial)?;
            push_edit(soa.serial.span, text, edits)?;
            Ok(())
        }
        SerialSpelling::Escaped => Err(SoaError::NotDecimal { index }),
        SerialSpelling::Generic => Err(SoaError::GenericForm { index }),
        SerialSpelling::Generated => Err(SoaError::Generated { index }),
    }
}

/// Pushes the edits that replace the serial of each SOA. The first of them may be pushed before an
/// error.
fn push_soas<B: Allocator + Copy>(
    alloc: B,
    soas: &[SoaEdit<'_>],
    serial: u32,
    edits: &mut Vec<Edit<B>, B>,
) -> Result<(), SoaError>
    ensures spans { OnOk result (spans_of edits.new.items
        ≡ spans_of edits.old.items ++ serial_spans soas.now) }
    ensures texts { OnOk result (texts_of edits.new.items
        ≡ texts_of edits.old.items ++ serial_texts serial soas.now) }
    ensures fit { OnOk result (edit_error 0 soas.now ≡ None) }
    ensures err { IfErr result (IsSerialError soas.now) }
    ensures continues { OnErr result (Continues edits.old.items edits.new.items) }
{
    let mut index = 0;
    for soa in soas {
        push_soa(alloc, soa, index, serial, edits)?;
        index += 1;
    }
    Ok(())
}

/// Pushes the edits that replace the serial of each SOA of a zone by another in decimal digits: of
/// each SOA this token changes, and no other.
///
/// The first SOA that can't be edited is the error: `Included` if it is in an included file,
/// `NotDecimal` if its serial has quotes or escapes, `GenericForm` if it is in the generic form,
/// `Generated` if a `$GENERATE` makes it. Fails with `OutOfMemory` if an allocation fails. After an error `edits` is unchanged.
#[tactic(auto, using(crate::proofs::Records::dropped))]
pub fn push_serial_edits<B: Allocator + Copy>(
    alloc: B,
    soas: &[SoaEdit<'_>],
    serial: u32,
    edits: &mut Vec<Edit<B>, B>,
) -> Result<(), SoaError>
    ensures spans { OnOk result (spans_of edits.new.items
        ≡ spans_of edits.old.items ++ serial_spans soas.now) }
    ensures texts { OnOk result (texts_of edits.new.items
        ≡ texts_of edits.old.items ++ serial_texts serial soas.now) }
    ensures fit { OnOk result (edit_error 0 soas.now ≡ None) }
    ensures err { IfErr result (IsSerialError soas.now) }
    ensures unchanged { OnErr result (edits.new.items ≡ edits.old.items) }
{
    let before = edits.len();
    match push_soas(alloc, soas, serial, edits) {
        Ok(()) => Ok(()),
        Err(error) => {
            edits.truncate(before);
            Err(error)
        }
    }
}
