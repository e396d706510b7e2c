//! Checks the lengths of signatures and keys, which algorithms fix (RFC 3110 section 2, RFC 5702
//! section 2, RFC 6605 section 4, RFC 8080 sections 3 and 4).
ghost use Rattle.std.specs.Prelude.{◌≡◌};
ghost use Rattle.zone_dnssec.specs.KeyLengths.{exponent_length, fits_modulus, fitting_modulus, fixed_key_length, fixed_signature_length, has_key_length, has_signature_length, has_other_key_length, has_other_signature_length, is_rsa, is_rsa_key, least_modulus, long_exponent, public_key, signature};
ghost use Rattle.zone_dnssec.specs.ZoneKeys.{is_named};

use crate::bitmaps::octets_after;
use crate::keys::{Key, fits, modulus};
use crate::nsec3::short_number;
use crate::signatures::first;
use dns_octets::AsOctets;
use rdata_values::RecordType;
use zone_rules::fields::field;
use zone_rules::zone_records::ZoneRecord;

/// Indexes of fields of an RRSIG (RFC 4034 section 3.1).
pub const SIGNING_ALGORITHM: usize = 1;

const KEY_TAG: usize = 6;

const SIGNER: usize = 7;

/// Number of octets of an RRSIG before its signer.
const BEFORE_SIGNER: usize = 18;

/// Index of a field of a DNSKEY (RFC 4034 section 2.1).
pub const KEY_ALGORITHM: usize = 2;

/// Number of octets of a DNSKEY before its key.

const BEFORE_KEY: usize = 4;

/// Greatest number of octets of the modulus of an RSA key (RFC 3110 section 2).
const MOST_MODULUS: usize = 512;

/// Returns whether keys of an algorithm are RSA keys.
pub fn is_rsa(algorithm: u8) -> bool
    ensures { result ≡ is_rsa algorithm }
{
    algorithm == 5 || algorithm == 7 || algorithm == 8 || algorithm == 10
}

/// Returns the number of octets of each signature by an algorithm, if it is the same for all keys.
pub fn fixed_signature_length(algorithm: u8) -> Option<usize>
    ensures { result ≡ fixed_signature_length algorithm }
{
    if algorithm == 13 || algorithm == 15 {
        Some(64)
    } else if algorithm == 14 {
        Some(96)
    } else if algorithm == 16 {
        Some(114)
    } else {
        None
    }
}

/// Returns the number of octets of each key of an algorithm, if it is the same for all.
pub fn fixed_key_length(algorithm: u8) -> Option<usize>
    ensures { result ≡ fixed_key_length algorithm }
{
    if algorithm == 13 {
        Some(64)
    } else if algorithm == 14 {
        Some(96)
    } else if algorithm == 15 {
        Some(32)
    } else if algorithm == 16 {
        Some(57)
    } else {
        None
    }
}

/// Returns the least number of octets of the modulus of an RSA key of an algorithm.
fn least_modulus(algorithm: u8) -> usize
    ensures { result ≡ least_modulus algorithm }
{
    if algorithm == 10 { 128 } else { 64 }
}

/// Returns the number of octets of an exponent whose length has two octets.
fn long_exponent(octets: &[u8]) -> usize
    ensures { result ≡ long_exponent octets.now }
{
    match octets {
        [high, low, ..] => usize::from(u16::from_be_bytes([*high, *low])),
        _ => 0,
    }
}

/// Returns the number of octets that an RSA key states for its exponent (RFC 3110 section 2).
pub fn exponent_length(key: &[u8]) -> usize
    ensures { result ≡ exponent_length key.now }
{
    match key {
        [count, rest @ ..] => {
            if *count == 0 {
                long_exponent(rest)
            } else {
                usize::from(*count)
            }
        }
        _ => 0,
    }
}

/// Returns whether octets are an RSA key with an exponent, and with a modulus of a length that its
/// algorithm allows.
fn is_rsa_key(algorithm: u8, key: &[u8]) -> bool
    ensures { result ≡ is_rsa_key algorithm key.now }
{
    let count = modulus(key).len();
    exponent_length(key) != 0 && least_modulus(algorithm) <= count && count <= MOST_MODULUS
}

/// Returns whether a key has a length that its algorithm allows. Keys of other algorithms have.
fn has_key_length(algorithm: u8, key: &[u8]) -> bool
    ensures { result ≡ has_key_length algorithm key.now }
{
    match fixed_key_length(algorithm) {
        Some(count) => key.len() == count,
        None => !is_rsa(algorithm) || is_rsa_key(algorithm, key),
    }
}

/// Returns the public key of a DNSKEY.
pub fn public_key<'r>(record: &'r ZoneRecord<'_>) -> &'r [u8]
    ensures { result.now ≡ public_key «record».now }
{
    octets_after(record.data.as_slice(), BEFORE_KEY)
}

/// Returns the signature of an RRSIG.
pub fn signature<'r>(record: &'r ZoneRecord<'_>) -> &'r [u8]
    ensures { result.now ≡ signature «record».now }
{
    let rest = octets_after(record.data.as_slice(), BEFORE_SIGNER);
    octets_after(rest, field(record, SIGNER).len())
}

/// Returns whether a record is a DNSKEY whose key has not the length that its algorithm asks for.
pub(crate) fn has_other_key_length(record: &ZoneRecord<'_>) -> bool
    ensures { result ≡ has_other_key_length «record».now }
{
    record.data.rtype() == RecordType::DNSKEY
        && !has_key_length(first(field(record, KEY_ALGORITHM)), public_key(record))
}

/// Returns whether an RRSIG fits a key whose modulus has a number of octets.
fn fits_modulus(keys: &[Key], record: &ZoneRecord<'_>, count: usize) -> bool
    ensures { result ≡ fits_modulus keys.now count «record».now }
{
    let algorithm = first(field(record, SIGNING_ALGORITHM));
    let tag = short_number(field(record, KEY_TAG));
    keys.iter().any(|key| key.algorithm == algorithm && key.tag == tag && key.modulus_len == count)
}

/// Returns whether an RRSIG fits a key.
fn is_named(record: &ZoneRecord<'_>, key: &Key) -> bool
    ensures { result ≡ is_named «record».now key.now }
{
    key.algorithm == first(field(record, SIGNING_ALGORITHM))
        && key.tag == short_number(field(record, KEY_TAG))
}

/// Returns the number of octets of the modulus of the first key that an RRSIG fits.
pub fn fitting_modulus(keys: &[Key], record: &ZoneRecord<'_>) -> Option<usize>
    ensures { result ≡ fitting_modulus keys.now «record».now }
{
    for key in keys {
        if is_named(record, key) {
            return Some(key.modulus_len);
        }
    }
    None
}

/// Returns whether the signature of an RRSIG has the length that its algorithm asks for: with RSA that
/// of the modulus of a key that it fits. RRSIGs that fit none have, and those of other algorithms.
fn has_signature_length(keys: &[Key], record: &ZoneRecord<'_>) -> bool
    ensures { result ≡ has_signature_length keys.now «record».now }
{
    let algorithm = first(field(record, SIGNING_ALGORITHM));
    let count = signature(record).len();
    match fixed_signature_length(algorithm) {
        Some(fixed) => count == fixed,
        None => { !is_rsa(algorithm) || !fits(keys, record) || fits_modulus(keys, record, count) }
    }
}

/// Returns whether a record is an RRSIG whose signature has not the length that its algorithm asks
/// for.
pub(crate) fn has_other_signature_length(keys: &[Key], record: &ZoneRecord<'_>) -> bool
    ensures { result ≡ has_other_signature_length keys.now «record».now }
{
    record.data.rtype() == RecordType::RRSIG && !has_signature_length(keys, record)
}
