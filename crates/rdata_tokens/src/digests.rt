//! Lengths of digests. In the RDATA of DS, CDS, DLV, SSHFP and ZONEMD, an octet before the digest
//! has the number of its algorithm.
ghost use Rattle.std.specs.Prelude.{IsTrue, ◌≡◌, ◌==◌, ◌↔◌};
ghost use Rattle.std.specs.Map.{lookup};
ghost use Rattle.rdata_tokens.specs.DigestLengths.{digest_rows, least_digest, IsDigestLength, wanted_digest};

/// The registries of digest algorithms.
#[derive(Clone, Copy, Debug, PartialEq, Eq)]
pub enum Digests {
    /// Digest types of DS, CDS, DLV and TA: 1 SHA-1, 2 SHA-256 (RFC 4509), 3 GOST R 34.11-94 (RFC
    /// 5933), 4 SHA-384 (RFC 6605), 5 GOST R 34.11-2012 (RFC 9558) and 6 SM3 (RFC 9563).
    Ds,
    /// Fingerprint types of SSHFP: 1 SHA-1 (RFC 4255) and 2 SHA-256 (RFC 6594).
    Sshfp,
    /// Hash algorithms of ZONEMD: 1 SHA-384 and 2 SHA-512 (RFC 8976).
    Zonemd,
}

/// Returns the length of a digest in octets by its number, or `None` if the registry does not have
/// the number.
fn named_length(digests: Digests, number: u8) -> Option<usize>
    ensures { result ≡ lookup (λ n. n == number) (digest_rows digests) }
{
    match (digests, number) {
        (Digests::Ds | Digests::Sshfp, 1) => Some(20),
        (Digests::Ds, 2 | 3 | 5 | 6) => Some(32),
        (Digests::Ds, 4) => Some(48),
        (Digests::Sshfp, 2) => Some(32),
        (Digests::Zonemd, 1) => Some(48),
        (Digests::Zonemd, 2) => Some(64),
        _ => None,
    }
}

/// Returns the least length in octets of a digest whose number the registry does not have.
fn least_length(digests: Digests) -> usize
    ensures { result ≡ least_digest digests }
{
    match digests {
        Digests::Ds | Digests::Sshfp => 1,
        Digests::Zonemd => 12,
    }
}

/// Returns whether a digest with a number may have a length, in octets.
///
/// If the registry has the number, the length is the one that it states. For any other number, a
/// digest has 1 octet or more, and in ZONEMD 12 or more (RFC 8976 section 2.2.4).
pub fn is_digest_length(digests: Digests, number: u8, length: usize) -> bool
    ensures { IsTrue result ↔ IsDigestLength digests number length }
{
    match named_length(digests, number) {
        Some(named) => length == named,
        None => length >= least_length(digests),
    }
}

/// Returns the length in octets that a digest with a number must have. If the registry does not
/// have the number, this is the least length.
pub fn wanted_digest(digests: Digests, number: u8) -> usize
    ensures { result ≡ wanted_digest digests number }
{
    match named_length(digests, number) {
        Some(named) => named,
        None => least_length(digests),
    }
}
