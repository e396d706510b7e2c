//! The names of digest types.
ghost use Rattle.std.specs.Prelude.{◌≡◌, option_copied};
ghost use Rattle.error_texts.specs.Digests.{digest_name, digest_place, fingerprint_digest, signer_digest, zone_digest};

use rdata_values::RecordType;

/// Returns the index of the digest type among the fields of a type's RDATA, if it has one.
pub fn digest_place(rtype: RecordType) -> Option<usize>
    ensures { result ≡ digest_place rtype }
{
    match rtype {
        RecordType::DS | RecordType::CDS | RecordType::DLV | RecordType::TA | RecordType::ZONEMD =>
            Some(2),
        RecordType::SSHFP => Some(1),
        _ => None,
    }
}

/// Returns the name of a digest type of a delegation signer.
fn signer_digest(digest: u8) -> Option<&'static str>
    ensures { option_copied result ≡ signer_digest digest }
{
    match digest {
        1 => Some("SHA-1"),
        2 => Some("SHA-256"),
        3 => Some("GOST R 34.11-94"),
        4 => Some("SHA-384"),
        5 => Some("GOST R 34.11-2012"),
        6 => Some("SM3"),
        _ => None,
    }
}

/// Returns the name of a digest type of a fingerprint (RFC 4255, RFC 6594).
fn fingerprint_digest(digest: u8) -> Option<&'static str>
    ensures { option_copied result ≡ fingerprint_digest digest }
{
    match digest {
        1 => Some("SHA-1"),
        2 => Some("SHA-256"),
        _ => None,
    }
}

/// Returns the name of a hash algorithm of ZONEMD (RFC 8976).
fn zone_digest(digest: u8) -> Option<&'static str>
    ensures { option_copied result ≡ zone_digest digest }
{
    match digest {
        1 => Some("SHA-384"),
        2 => Some("SHA-512"),
        _ => None,
    }
}

/// Returns the name of a digest type of the RDATA of a type, if it is known.
pub fn digest_name(rtype: RecordType, digest: u8) -> Option<&'static str>
    ensures { option_copied result ≡ digest_name rtype digest }
{
    if rtype == RecordType::ZONEMD {
        zone_digest(digest)
    } else if rtype == RecordType::SSHFP {
        fingerprint_digest(digest)
    } else {
        signer_digest(digest)
    }
}
