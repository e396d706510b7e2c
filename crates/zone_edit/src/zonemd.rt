//! Edits of ZONEMD RDATA: the tokens of the fields that change are replaced.
ghost use Rattle.std.specs.Prelude.{◌≡◌, ◌≤◌, ◌∷◌, ◌++◌, [], IfErr, IfOk, OnErr, OnOk, length};
ghost use Rattle.zone_edit.specs.Changes.{PushesChanges};
ghost use Rattle.zone_edit.specs.Tokens.{Continues};
ghost use Rattle.zone_edit.specs.Zonemds.{HasZonemdTokens, HaveZonemdTokens, IsRdataError, IsRecordError, IsAnyError, all_changes, field_changes, generic_changes, is_same_zonemd, zonemd_changes, zonemd_octets};

use crate::change::{are_same, push_hex, push_hex_change, push_number_change};
use crate::edit::Edit;
use crate::mark::is_generic;
use crate::tokens::TokenError;
use dns_lexer::pieces::Span;
use std::alloc::{AllocError, Allocator};
use zone_contents::Zonemd;

/// A ZONEMD record of a zone file, and the RDATA that it gets.
#[derive(Clone, Copy)]
pub struct ZonemdEdit<'r> {
    /// RDATA of the record.
    pub before: Zonemd<'r>,
    /// RDATA that replaces it, with the same scheme and hash algorithm.
    pub after: Zonemd<'r>,
    /// Spans of the tokens of the RDATA in the file.
    pub tokens: &'r [Span],
}

/// Returns whether ZONEMD RDATA has the serial and the digest of another.
pub fn is_same_zonemd(old: &Zonemd<'_>, new: &Zonemd<'_>) -> bool
    ensures { result ≡ is_same_zonemd old.now new.now }
{
    old.serial == new.serial && are_same(old.digest, new.digest)
}

/// Returns ZONEMD RDATA in wire format.
fn zonemd_octets<B: Allocator>(alloc: B, zonemd: &Zonemd<'_>) -> Result<Vec<u8, B>, AllocError>
    ensures { IfOk result (λ octets. octets.items ≡ zonemd_octets zonemd.now) }
{
    let mut octets = Vec::new(alloc);
    octets.extend_from_slice(&zonemd.serial.to_be_bytes())?;
    octets.extend_from_slice(&[zonemd.scheme, zonemd.hash])?;
    octets.extend_from_slice(zonemd.digest)?;
    Ok(octets)
}

/// Pushes the edits of RDATA in the generic form: the digits are replaced, after the mark and the
/// length. After an error nothing is pushed.
#[tactic(auto, using(crate::proofs::Records::generic_pushed, crate::proofs::Records::generic_error))]
fn push_generic<B: Allocator + Copy>(
    alloc: B,
    octets: &[u8],
    tokens: &[Span],
    new: &Zonemd<'_>,
    edits: &mut Vec<Edit<B>, B>,
) -> Result<(), TokenError>
    ensures ok { OnOk result (PushesChanges octets.now
        (generic_changes tokens.now new.now) edits.old.items edits.new.items) }
    ensures enough { OnOk result (3 ≤ length tokens.now) }
    ensures err { IfErr result (IsRdataError 3 octets.now tokens.now) }
    ensures unchanged { OnErr result (edits.new.items ≡ edits.old.items) }
{
    match tokens {
        [] | [_] | [_, _] => Err(TokenError::TooFew),
        [_, _, digits @ ..] => {
            let data = zonemd_octets(alloc, new)?;
            push_hex(alloc, octets, digits, data.as_slice(), edits)?;
            Ok(())
        }
    }
}

/// Pushes the edits of the fields of RDATA that change: of the serial and of the digest. The first
/// of them may be pushed before an error.
#[tactic(auto, using(crate::proofs::Records::fields_pushed, crate::proofs::Records::serial_error, crate::proofs::Records::digest_error, crate::proofs::Pushing::continues_same))]
fn push_fields<B: Allocator + Copy>(
    alloc: B,
    octets: &[u8],
    tokens: &[Span],
    old: &Zonemd<'_>,
    new: &Zonemd<'_>,
    edits: &mut Vec<Edit<B>, B>,
) -> Result<(), TokenError>
    ensures ok { OnOk result (PushesChanges octets.now
        (field_changes tokens.now old.now new.now) edits.old.items edits.new.items) }
    ensures enough { OnOk result (4 ≤ length tokens.now) }
    ensures err { IfErr result (IsRdataError 4 octets.now tokens.now) }
    ensures continues { OnErr result (Continues edits.old.items edits.new.items) }
{
    match tokens {
        [] | [_] | [_, _] | [_, _, _] => Err(TokenError::TooFew),
        [serial, _, _, digest @ ..] => {
            push_number_change(alloc, octets, *serial, old.serial, new.serial, edits)?;
            push_hex_change(alloc, octets, digest, old.digest, new.digest, edits)?;
            Ok(())
        }
    }
}

/// Pushes the edits of a record. The first of them may be pushed before an error.
#[tactic(auto, using(crate::proofs::Records::record_same, crate::proofs::Records::record_generic, crate::proofs::Records::record_fields, crate::proofs::Records::enough_same, crate::proofs::Records::enough_generic, crate::proofs::Records::enough_fields, crate::proofs::Records::error_generic, crate::proofs::Records::error_fields, crate::proofs::Pushing::continues_same))]
fn push_record<B: Allocator + Copy>(
    alloc: B,
    octets: &[u8],
    one: &ZonemdEdit<'_>,
    edits: &mut Vec<Edit<B>, B>,
) -> Result<(), TokenError>
    ensures ok { OnOk result (PushesChanges octets.now
        (zonemd_changes octets.now one.now) edits.old.items edits.new.items) }
    ensures enough { OnOk result (HasZonemdTokens octets.now one.now) }
    ensures err { IfErr result (IsRecordError octets.now one.now) }
    ensures continues { OnErr result (Continues edits.old.items edits.new.items) }
{
    if is_same_zonemd(&one.before, &one.after) {
        return Ok(());
    }
    if is_generic(octets, one.tokens) {
        push_generic(alloc, octets, one.tokens, &one.after, edits)?;
        Ok(())
    } else {
        push_fields(alloc, octets, one.tokens, &one.before, &one.after, edits)?;
        Ok(())
    }
}

/// Pushes the edits of records. The first of them may be pushed before an error.
#[tactic(auto, using(crate::proofs::Changes::pushed_all, crate::proofs::Changes::enough_all))]
fn push_records<B: Allocator + Copy>(
    alloc: B,
    octets: &[u8],
    records: &[ZonemdEdit<'_>],
    edits: &mut Vec<Edit<B>, B>,
) -> Result<(), TokenError>
    ensures ok { OnOk result (PushesChanges octets.now
        (all_changes octets.now records.now) edits.old.items edits.new.items) }
    ensures enough { OnOk result (HaveZonemdTokens octets.now records.now) }
    ensures err { IfErr result (IsAnyError octets.now records.now) }
    ensures continues { OnErr result (Continues edits.old.items edits.new.items) }
{
    for one in records {
        push_record(alloc, octets, one, edits)?;
    }
    Ok(())
}

/// Pushes the edits that give ZONEMD records of a zone file other RDATA, in the order of their
/// offsets. `octets` are those of the file.
///
/// Of a record whose serial and digest stay the same, nothing changes. Else the token of a serial
/// that changes is replaced by the new serial, and the tokens of a digest that changes by one token
/// with the new digest. In the generic form (RFC 3597 section 5) the tokens after the length are
/// replaced by one with all octets. The scheme, the hash algorithm and the length stay, and so do
/// comments and parentheses between the tokens.
///
/// Fails with `TooFew` if a record that changes has fewer tokens than fields: four (serial, scheme,
/// hash algorithm, digest), or three in the generic form (mark, length, octets). Fails with
/// `OutOfOrder` if a token of it begins before the one before it ends, or ends after the file, and
/// with `OutOfMemory` if an allocation fails. After an error `edits` is unchanged.
#[tactic(auto, using(crate::proofs::Records::dropped))]
pub fn push_zonemd_edits<B: Allocator + Copy>(
    alloc: B,
    octets: &[u8],
    records: &[ZonemdEdit<'_>],
    edits: &mut Vec<Edit<B>, B>,
) -> Result<(), TokenError>
    ensures ok { OnOk result (PushesChanges octets.now
        (all_changes octets.now records.now) edits.old.items edits.new.items) }
    ensures enough { OnOk result (HaveZonemdTokens octets.now records.now) }
    ensures err { IfErr result (IsAnyError octets.now records.now) }
    ensures unchanged { OnErr result (edits.new.items ≡ edits.old.items) }
{
    let before = edits.len();
    match push_records(alloc, octets, records, edits) {
        Ok(()) => Ok(()),
        Err(error) => {
            edits.truncate(before);
            Err(error)
        }
    }
}
