//! Finds the key that a DS names: by its key tag (RFC 4034 appendix B), its algorithm and its digest.
ghost use Rattle.std.specs.Prelude.{◌≡◌, ◌≤◌, ◌*◌, ◌++◌, length};
ghost use Rattle.sha1.specs.Sha1.{sha1};
ghost use Rattle.sha2.specs.Sha256.{sha256};
ghost use Rattle.sha2.specs.Sha512.{sha384};
ghost use Rattle.zone_cuts.specs.Digests.{ds_fits, is_digest_of, is_tagged_key};
ghost use Rattle.zone_dnssec.specs.ZoneKeys.{key_tag, modulus_tag, sum_tag, weighed, weighed_sum};

use sha1::Sha1;
use sha2::{Digest, Sha256, Sha384};
use zone_dnssec::keys::modulus;

/// The algorithm RSA/MD5, with key tags of its own (RFC 4034 appendix B.1).
const RSA_MD5: u8 = 1;

/// Returns what an octet adds to the sum of a key tag: if its index is even, 256 times itself.
fn weighed(index: usize, octet: u8) -> u64
    ensures value { result ≡ weighed index octet }
    ensures bound { result ≤ 65280 }
{
    if index % 2 == 0 {
        u64::from(octet) * 256
    } else {
        u64::from(octet)
    }
}

/// Returns the sum of a key tag.
fn weighed_sum(octets: &[u8]) -> u64
    requires { length octets.now ≤ 65535 }
    ensures value { result ≡ weighed_sum 0 octets.now }
    ensures bound { result ≤ 65280 * 65535 }
{
    let mut sum: u64 = 0;
    for index in 0..octets.len() {
        sum += weighed(index, octets[index]);
    }
    sum
}

/// Returns the key tag of DNSKEY data, if its algorithm is not RSA/MD5.
fn sum_tag(octets: &[u8]) -> u16
    requires { length octets.now ≤ 65535 }
    ensures { result ≡ sum_tag octets.now }
{
    let sum = weighed_sum(octets);
    ((sum + sum / 65536) % 65536) as u16
}

/// Returns the key tag of a modulus with the algorithm RSA/MD5, or `None` if it has fewer than three
/// octets.
fn modulus_tag(octets: &[u8]) -> Option<u16>
    ensures { result ≡ modulus_tag octets.now }
{
    let count = octets.len();
    if count < 3 {
        return None;
    }
    Some(u16::from_be_bytes([octets[count - 3], octets[count - 2]]))
}

/// Returns the key tag of a DNSKEY with an algorithm, these data, and this key at their end.
fn key_tag(algorithm: u8, octets: &[u8], key: &[u8]) -> Option<u16>
    requires { length octets.now ≤ 65535 }
    ensures { result ≡ key_tag algorithm octets.now key.now }
{
    if algorithm == RSA_MD5 {
        return modulus_tag(modulus(key));
    }
    Some(sum_tag(octets))
}

/// Returns whether DNSKEY data have a key tag and an algorithm.
fn is_tagged_key(tag: u16, algorithm: u8, octets: &[u8]) -> bool
    requires { length octets.now ≤ 65535 }
    ensures { result ≡ is_tagged_key tag algorithm octets.now }
{
    match octets {
        [_, _, _, own, key @ ..] => {
            *own == algorithm && key_tag(*own, octets, key).is_some_and(|known| known == tag)
        }
        _ => false,
    }
}

/// Returns the SHA-1 digest of two pieces.
fn sha1_of(first: &[u8], second: &[u8]) -> [u8; 20]
    ensures { result ≡ sha1 (first.now ++ second.now) }
{
    let mut hasher = Sha1::new();
    hasher.update(first);
    hasher.update(second);
    hasher.finalize()
}

/// Returns the SHA-256 digest of two pieces.
fn sha256_of(first: &[u8], second: &[u8]) -> [u8; 32]
    ensures { result ≡ sha256 (first.now ++ second.now) }
{
    let mut hasher = Sha256::new();
    hasher.update(first);
    hasher.update(second);
    hasher.finalize()
}

/// Returns the SHA-384 digest of two pieces.
fn sha384_of(first: &[u8], second: &[u8]) -> [u8; 48]
    ensures { result ≡ sha384 (first.now ++ second.now) }
{
    let mut hasher = Sha384::new();
    hasher.update(first);
    hasher.update(second);
    hasher.finalize()
}

/// Returns whether a digest of a type is that of two pieces. Returns `true` for types that are not
/// known.
fn is_digest_of(digest_type: u8, first: &[u8], second: &[u8], digest: &[u8]) -> bool
    ensures { result ≡ is_digest_of digest_type (first.now ++ second.now) digest.now }
{
    if digest_type == 1 {
        return sha1_of(first, second).as_slice() == digest;
    }
    if digest_type == 2 {
        return sha256_of(first, second).as_slice() == digest;
    }
    if digest_type == 4 {
        return sha384_of(first, second).as_slice() == digest;
    }
    true
}

/// Returns whether data of a DS fit data of a DNSKEY. `owner` has the octets of the key's owner in lower
/// case.
pub(crate) fn ds_fits(owner: &[u8], ds: &[u8], key: &[u8]) -> bool
    requires { length key.now ≤ 65535 }
    ensures { result ≡ ds_fits owner.now ds.now key.now }
{
    match ds {
        [high, low, algorithm, digest_type, digest @ ..] => {
            is_tagged_key(u16::from_be_bytes([*high, *low]), *algorithm, key)
                && is_digest_of(*digest_type, owner, key, digest)
        }
        _ => false,
    }
}
