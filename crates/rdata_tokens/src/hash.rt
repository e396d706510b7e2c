//! Hashes and salts after their lengths, as in the RDATA of NSEC3 and NSEC3PARAM (RFC 5155 sections
//! 3.2 and 4.2).
ghost use Rattle.std.specs.Prelude.{◌<◌, ◌+◌, SomeIff, length};
ghost use Rattle.rdata_tokens.specs.Hashes.{first_octet, HasHash, HasSalt};

/// Returns the length in octets of the hash at the start of octets, with the octet of its length: 2
/// to 256. Returns `None` if the hash is truncated or empty.
pub fn hash_width(octets: &[u8]) -> Option<usize>
    ensures { SomeIff result (HasHash octets.now) (first_octet octets.now + 1) }
{
    let width = salt_width(octets)?;
    if width > 1 { Some(width) } else { None }
}

/// Returns the length in octets of the salt at the start of octets, with the octet of its length: 1
/// to 256. Returns `None` if the salt is truncated.
pub fn salt_width(octets: &[u8]) -> Option<usize>
    ensures { SomeIff result (HasSalt octets.now) (first_octet octets.now + 1) }
{
    let length = usize::from(*octets.first()?);
    if length < octets.len() {
        Some(length + 1)
    } else {
        None
    }
}
