//! Hashes names for NSEC3 (RFC 5155 sections 3.3 and 5).
ghost use Rattle.std.specs.Prelude.{◌≡◌, ◌≤◌, ◌∷◌, ◌++◌, ◌==◌, ◌&&◌, length, nat_le};
ghost use Rattle.dns_codec.specs.Base.{base32hex, encoded};
ghost use Rattle.dns_octets.specs.Lowered.{lowered};
ghost use Rattle.rdata_tokens.specs.NameSpelling.{IsWireName};
ghost use Rattle.dns_wire.specs.Wire.{wire, wire_length};
ghost use Rattle.sha1.specs.Sha1.{sha1};
ghost use Rattle.zone_dnssec.specs.HashedNames.{hashed_owner, iterated_hash, name_hash};

use arrayvec::ArrayVec;
use dns_codec::base32::encode_slice_hex;
use dns_octets::AsOctets;
use dns_wire::{MAX_NAME, Name};
use sha1::Sha1;
use zone_record::append_lowered;
use zone_rules::names::octets_of;

/// Number of octets of a hash.
const HASH: usize = 20;

/// Number of characters of a hash in base32hex.
const LABEL: usize = 32;

/// Greatest number of octets of an apex below which hashed names are names.
const LONGEST_APEX: usize = MAX_NAME - LABEL - 1;

/// Returns the digest of octets followed by the salt.
fn salted_digest(octets: &[u8], salt: &[u8]) -> [u8; 20]
    ensures { result ≡ sha1 (octets.now ++ salt.now) }
{
    let mut hasher = Sha1::new();
    hasher.update(octets);
    hasher.update(salt);
    hasher.finalize()
}

/// Returns the salted digest of octets, digested again `iterations` times.
fn iterated_digest(octets: &[u8], salt: &[u8], iterations: u16) -> [u8; 20]
    ensures { result ≡ iterated_hash salt.now octets.now iterations }
{
    let mut digest = salted_digest(octets, salt);
    for _round in 0..iterations {
        digest = salted_digest(&digest, salt);
    }
    digest
}

/// Returns the octets of a name, with letters in lower case.
fn lowered_octets(octets: &[u8]) -> ArrayVec<u8, 255>
    requires { length octets.now ≤ 255 }
    ensures { result.items ≡ lowered octets.now }
{
    let mut small = ArrayVec::new();
    append_lowered(octets, &mut small).unwrap();
    small
}

/// Returns a copy of the octets of a name.
pub(crate) fn copied_octets(octets: &[u8]) -> ArrayVec<u8, 255>
    requires { length octets.now ≤ 255 }
    ensures { result.items ≡ octets.now }
{
    let mut copy = ArrayVec::new();
    copy.try_extend_from_slice(octets).unwrap();
    copy
}

/// Returns the hash of a name. It computes one digest, and one more for each iteration, of which
/// there are at most 65535.
pub fn hash_name(name: &Name<&[u8]>, salt: &[u8], iterations: u16) -> [u8; 20]
    ensures { result ≡ name_hash salt.now iterations name.now }
{
    let small = lowered_octets(octets_of(name));
    iterated_digest(small.as_slice(), salt, iterations)
}

/// Returns a hash in base32hex.
fn hash_label(hash: &[u8]) -> [u8; 32]
    requires { length hash.now ≡ 20 }
    ensures { result ≡ encoded base32hex hash.now }
{
    let mut label = [0; LABEL];
    encode_slice_hex(hash, &mut label).unwrap();
    label
}

/// Returns the octets of a label of 32 octets, followed by others.
fn labelled_octets(label: &[u8; 32], apex: &[u8]) -> ArrayVec<u8, 255>
    requires { length apex.now ≤ 222 }
    ensures { result.items ≡ 32 ∷ label.now ++ apex.now }
{
    let mut octets = ArrayVec::new();
    octets.push(LABEL as u8);
    octets.try_extend_from_slice(label).unwrap();
    octets.try_extend_from_slice(apex).unwrap();
    octets
}

/// Returns the name that has these octets.
fn name_over(octets: ArrayVec<u8, 255>) -> Name<ArrayVec<u8, 255>>
    requires { IsWireName octets.items }
    ensures { octets.items ≡ wire result }
{
    match Name::from_octets(octets) {
        Ok(name) => name,
        Err(_) => unreachable!(),
    }
}

/// Returns the name below an apex whose label is a hash.
fn name_below(origin: &Name<&[u8]>, hash: &[u8]) -> Name<ArrayVec<u8, 255>>
    requires hash { length hash.now ≡ 20 }
    requires apex { wire_length origin.now ≤ 222 }
    ensures { result ≡ encoded base32hex hash.now ∷ origin.now }
{
    let label = hash_label(hash);
    let octets = labelled_octets(&label, octets_of(origin));
    // No effect at run time: the proof reads that the octets are below 256.
    let _octets = AsOctets::as_slice(&octets);
    name_over(octets)
}

/// Returns whether the owner of an NSEC3 with a hash is a name.
fn fits_below(origin: &Name<&[u8]>, hash: &[u8]) -> bool
    ensures { result ≡ length hash.now == 20 && nat_le (wire_length origin.now) 222 }
{
    hash.len() == HASH && origin.len() <= LONGEST_APEX
}

/// Returns the owner of the NSEC3 with a hash, below an apex. Returns `None` if the hash does not
/// have 20 octets, or the apex has more than 222.
pub fn hashed_name(origin: &Name<&[u8]>, hash: &[u8]) -> Option<Name<ArrayVec<u8, 255>>>
    ensures { result ≡ hashed_owner origin.now hash.now }
{
    if !fits_below(origin, hash) {
        return None;
    }
    Some(name_below(origin, hash))
}
