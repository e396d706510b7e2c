//! Checks the digests of a zone, and computes the right ones.
ghost use Rattle.std.specs.Prelude.{◌≡◌, ◌↔◌, ◌++◌, IfOk, IfErr, IsTrue, OnErr, OnOk};
ghost use Rattle.rdata_values.specs.Rtype as Rtype;
ghost use Rattle.zone_contents.specs.Digests.{simple_fields, zone_alike_count, zone_octets, AddsZoneDigest, AreApexPlaces, HasHashed, HasZoneDigest, HasZoneVerdict, IsDigestData, IsRightForZone, IsZoneCheckError, IsZoneChecked};
ghost use Rattle.zone_contents.specs.Verdicts.{IsUsable, IsVerdict};

use crate::algorithm::HashAlgorithm;
use crate::apex_records::{apex_places, apex_serial};
use crate::error::CheckError;
use crate::hashing::{sha384_digest, sha512_digest};
use crate::stored::StoredZone;
use crate::verdict::Verdict;
use crate::zonemd::Zonemd;
use dns_octets::{AsOctets, OctetsBuilder, ShortBuf};
use dns_wire::Name;
use rdata_values::RecordType;
use std::alloc::Allocator;
use zone_record::Data;

/// Returns the number of ZONEMD records at the apex with the scheme and the hash algorithm of one.
/// They are at these indexes.
fn count_alike<Apex: AsOctets, A: Allocator>(
    zonemd: &Zonemd<'_>,
    apex: &Name<Apex>,
    zone: &StoredZone<A>,
    places: &[usize],
) -> usize
    requires { AreApexPlaces Rtype.zonemd apex.now zone.now places.now }
    ensures { result ≡ zone_alike_count zonemd.now apex.now zone.now }
{
    let mut count = 0;
    for place in places {
        if zonemd.is_alike(&zone.data(*place)) {
            count += 1;
        }
    }
    count
}

/// Returns whether the digest of a ZONEMD record is that of the zone, by the algorithm that it
/// names.
fn is_digest<Apex: AsOctets, A: Allocator, B: Allocator>(
    alloc: B,
    apex: &Name<Apex>,
    zone: &StoredZone<A>,
    one: &Zonemd<'_>,
) -> Result<bool, ShortBuf>
    ensures ok { IfOk result (λ r. IsTrue r ↔ HasZoneDigest apex.now zone.now one.now) }
    ensures err { OnErr result (HasHashed apex.now zone.now) }
{
    match one.hash {
        1 => {
            let digest = sha384_digest(alloc, apex, zone)?;
            Ok(one.digest == digest.as_slice())
        }
        2 => {
            let digest = sha512_digest(alloc, apex, zone)?;
            Ok(one.digest == digest.as_slice())
        }
        _ => Ok(false),
    }
}

/// Checks whether a ZONEMD record has the digest of its zone. The record is at the zone's apex.
/// `serial` is that of the zone's SOA, and `count` is the number of its ZONEMD records with this
/// scheme and hash algorithm. Fails if memory for one record is out, and only if the digest is needed
/// and a record is hashed.
pub fn check_zonemd<Apex: AsOctets, A: Allocator, B: Allocator>(
    alloc: B,
    apex: &Name<Apex>,
    zone: &StoredZone<A>,
    serial: u32,
    count: usize,
    one: &Zonemd<'_>,
) -> Result<Verdict, ShortBuf>
    ensures ok { IfOk result (IsVerdict serial (zone_octets apex.now zone.now) count one.now) }
    ensures err { OnErr result (IsUsable serial count one.now × HasHashed apex.now zone.now) }
{
    if one.serial != serial {
        return Ok(Verdict::OtherSerial);
    }
    if one.scheme != 1 {
        return Ok(Verdict::UnknownScheme);
    }
    if count > 1 {
        return Ok(Verdict::Repeated);
    }
    if one.hash != 1 && one.hash != 2 {
        return Ok(Verdict::UnknownHash);
    }
    if is_digest(alloc, apex, zone, one)? {
        Ok(Verdict::Matches)
    } else {
        Ok(Verdict::Differs)
    }
}

/// Returns the verdict on ZONEMD data, of a zone that has ZONEMD records at these indexes.
fn check_data<Apex: AsOctets, A: Allocator, B: Allocator>(
    alloc: B,
    apex: &Name<Apex>,
    zone: &StoredZone<A>,
    serial: u32,
    places: &[usize],
    one: &Data<&[u8]>,
) -> Result<Verdict, CheckError>
    requires places { AreApexPlaces Rtype.zonemd apex.now zone.now places.now }
    requires one { one.now.rtype ≡ Rtype.zonemd }
    ensures ok { IfOk result (HasZoneVerdict serial apex.now zone.now one.now) }
    ensures err { IfErr result (λ e. e ≡ CheckError.ShortBuf) }
{
    let Some(zonemd) = Zonemd::of_data(one) else {
        unreachable!()
    };
    let count = count_alike(&zonemd, apex, zone, places);
    match check_zonemd(alloc, apex, zone, serial, count, &zonemd) {
        Ok(verdict) => Ok(verdict),
        Err(_) => Err(CheckError::ShortBuf),
    }
}

/// Checks whether each ZONEMD record at the apex of a zone has the digest of the zone (RFC 8976
/// section 4), and returns the verdicts in canonical order, as [`apex_places`] returns the indexes
/// of these records. Fails if the zone doesn't have exactly one SOA at the apex, or if memory for
/// one record, the verdicts and the indexes is out.
pub fn check_digests<Apex: AsOctets, A: Allocator, B: Allocator + Copy>(
    alloc: B,
    apex: &Name<Apex>,
    zone: &StoredZone<A>,
) -> Result<Vec<Verdict, B>, CheckError>
    ensures ok { IfOk result (λ v. IsZoneChecked apex.now zone.now v.items) }
    ensures err { IfErr result (IsZoneCheckError apex.now zone.now) }
{
    let Ok(found) = apex_serial(alloc, apex, zone) else {
        return Err(CheckError::ShortBuf);
    };
    let Some(serial) = found else {
        return Err(CheckError::NoSingleSoa);
    };
    let Ok(places) = apex_places(alloc, apex, zone, RecordType::ZONEMD) else {
        return Err(CheckError::ShortBuf);
    };
    let all = places.as_slice();
    let mut verdicts = Vec::new(alloc);
    for place in all {
        let verdict = check_data(alloc, apex, zone, serial, all, &zone.data(*place))?;
        if verdicts.push(verdict).is_err() {
            return Err(CheckError::ShortBuf);
        }
    }
    Ok(verdicts)
}

/// Appends the fields before the digest in ZONEMD data: a serial, the scheme SIMPLE, and a hash
/// algorithm.
fn push_fields<B: Allocator>(
    out: &mut Vec<u8, B>,
    serial: u32,
    algorithm: HashAlgorithm,
) -> Result<(), ShortBuf>
    ensures { OnOk result (out.new.items ≡ out.old.items ++ simple_fields serial algorithm) }
{
    out.append_slice(&serial.to_be_bytes())?;
    out.append_slice(&[1, algorithm.code()])
}

/// Appends the digest of a zone by a hash algorithm.
fn push_digest<Apex: AsOctets, A: Allocator, B: Allocator + Copy>(
    alloc: B,
    apex: &Name<Apex>,
    zone: &StoredZone<A>,
    algorithm: HashAlgorithm,
    out: &mut Vec<u8, B>,
) -> Result<(), ShortBuf>
    ensures { OnOk result (AddsZoneDigest apex.now zone.now algorithm out.old.items out.new.items) }
{
    match algorithm {
        HashAlgorithm::Sha384 => {
            let digest = sha384_digest(alloc, apex, zone)?;
            out.append_slice(digest.as_slice())
        }
        HashAlgorithm::Sha512 => {
            let digest = sha512_digest(alloc, apex, zone)?;
            out.append_slice(digest.as_slice())
        }
    }
}

/// Returns ZONEMD data with a serial, and the digest of a zone by a hash algorithm.
fn make_data<Apex: AsOctets, A: Allocator, B: Allocator + Copy>(
    alloc: B,
    apex: &Name<Apex>,
    zone: &StoredZone<A>,
    serial: u32,
    algorithm: HashAlgorithm,
) -> Result<Vec<u8, B>, ShortBuf>
    ensures { IfOk result (λ made. IsDigestData apex.now zone.now serial algorithm made.items) }
{
    let mut data = Vec::new(alloc);
    push_fields(&mut data, serial, algorithm)?;
    push_digest(alloc, apex, zone, algorithm, &mut data)?;
    Ok(data)
}

/// Returns the ZONEMD data that is right for a zone, by the scheme SIMPLE and a hash algorithm (RFC
/// 8976 section 3): the serial of the SOA at the apex, and the digest. Fails if the zone doesn't
/// have exactly one SOA at the apex, or if memory for the data, one record and the index of the SOA
/// is out.
pub fn right_data<Apex: AsOctets, A: Allocator, B: Allocator + Copy>(
    alloc: B,
    apex: &Name<Apex>,
    zone: &StoredZone<A>,
    algorithm: HashAlgorithm,
) -> Result<Vec<u8, B>, CheckError>
    ensures ok { IfOk result (λ made. IsRightForZone apex.now zone.now algorithm made.items) }
    ensures err { IfErr result (IsZoneCheckError apex.now zone.now) }
{
    let Ok(found) = apex_serial(alloc, apex, zone) else {
        return Err(CheckError::ShortBuf);
    };
    let Some(serial) = found else {
        return Err(CheckError::NoSingleSoa);
    };
    match make_data(alloc, apex, zone, serial, algorithm) {
        Ok(data) => Ok(data),
        Err(_) => Err(CheckError::ShortBuf),
    }
}
