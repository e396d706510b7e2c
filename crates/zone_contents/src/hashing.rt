//! Computes the digest of a zone.
ghost use Rattle.std.specs.Prelude.{◌≡◌, ◌<◌, IfOk, OnErr, OnOk, length};
ghost use Rattle.sha2.specs.Sha512.{sha384, sha512};
ghost use Rattle.zone_contents.specs.Contents.{AreSortedRecords};
ghost use Rattle.zone_contents.specs.Digests.{zone_octets, AddsHashed, HasHashed};

use crate::scope::is_hashed;
use crate::stored::StoredZone;
use dns_octets::{AsOctets, ShortBuf};
use dns_wire::Name;
use sha2::{Digest, Sha384, Sha512};
use std::alloc::Allocator;
use zone_rules::ZoneRecords;
use zone_rules::zone_records::OwnerBuffer;

impl<A: Allocator> StoredZone<A> {
    /// Returns the number of records. The proof reads that they are in canonical order.
    pub(crate) fn count(&self) -> usize
        ensures count { result ≡ length self.now.records }
        ensures sorted { AreSortedRecords self.now.apex self.now.records }
    {
        self.store.len()
    }
}

/// Appends the canonical form of the record at an index, if it is hashed and not a duplicate. Writes
/// its owner to the buffer.
fn append_hashed<Apex: AsOctets, A: Allocator, B: Allocator>(
    apex: &Name<Apex>,
    zone: &StoredZone<A>,
    place: usize,
    owner: &mut OwnerBuffer,
    out: &mut Vec<u8, B>,
) -> Result<(), ShortBuf>
    requires { place < length zone.now.records }
    ensures ok { OnOk result (AddsHashed apex.now zone.now place out.old.items out.new.items) }
    ensures err { OnErr result (HasHashed apex.now zone.now) }
{
    if zone.is_duplicate(place) {
        return Ok(());
    }
    let record = zone.record(place, owner);
    if !is_hashed(&record, apex) {
        return Ok(());
    }
    record.append_canonical(out)?;
    Ok(())
}

/// Computes the digest of a zone by a hash function, over the canonical forms of its records in
/// canonical order (RFC 8976 section 3.3, the scheme SIMPLE). Duplicates and records outside of the
/// zone don't count. It allocates memory for one record, and fails if that is out: never for a zone
/// of which no record is hashed.
pub fn hash_zone<D: Digest, Apex: AsOctets, A: Allocator, B: Allocator>(
    alloc: B,
    apex: &Name<Apex>,
    zone: &StoredZone<A>,
) -> Result<D::Output, ShortBuf>
    ensures ok { IfOk result (D.digest_of (zone_octets apex.now zone.now)) }
    ensures err { OnErr result (HasHashed apex.now zone.now) }
{
    let mut hasher = D::new();
    let mut form: Vec<u8, B> = Vec::new(alloc);
    let mut owner = OwnerBuffer::new();
    for place in 0..zone.count() {
        form.clear();
        append_hashed(apex, zone, place, &mut owner, &mut form)?;
        hasher.update(form.as_slice());
    }
    Ok(hasher.finalize())
}

/// Returns the digest of a zone by SHA-384, which is hash algorithm 1. Fails as [`hash_zone`].
pub fn sha384_digest<Apex: AsOctets, A: Allocator, B: Allocator>(
    alloc: B,
    apex: &Name<Apex>,
    zone: &StoredZone<A>,
) -> Result<[u8; 48], ShortBuf>
    ensures ok { IfOk result (λ digest. digest ≡ sha384 (zone_octets apex.now zone.now)) }
    ensures err { OnErr result (HasHashed apex.now zone.now) }
{
    hash_zone::<Sha384, Apex, A, B>(alloc, apex, zone)
}

/// Returns the digest of a zone by SHA-512, which is hash algorithm 2. Fails as [`hash_zone`].
pub fn sha512_digest<Apex: AsOctets, A: Allocator, B: Allocator>(
    alloc: B,
    apex: &Name<Apex>,
    zone: &StoredZone<A>,
) -> Result<[u8; 64], ShortBuf>
    ensures ok { IfOk result (λ digest. digest ≡ sha512 (zone_octets apex.now zone.now)) }
    ensures err { OnErr result (HasHashed apex.now zone.now) }
{
    hash_zone::<Sha512, Apex, A, B>(alloc, apex, zone)
}
