//! Base 16 an octet at a time, by a table of the two characters of each octet.
ghost use Rattle.std.specs.Prelude.{◌≡◌, ◌+◌, ◌*◌, ◌≤◌, ◌++◌, length, take, drop};
ghost use Rattle.dns_codec.specs.Base.{base16};
ghost use Rattle.dns_codec.specs.Pairs.{IsPairs};
ghost use Rattle.dns_codec.specs.Slices.{digit_text};

// Returns the two characters of each octet, those of octet 0 first.
fn pairs() -> &'static [u8]
    ensures pairs { IsPairs result.now }
    ensures len { length result.now ≡ 512 }
{
    b"\
        000102030405060708090A0B0C0D0E0F101112131415161718191A1B1C1D1E1F\
        202122232425262728292A2B2C2D2E2F303132333435363738393A3B3C3D3E3F\
        404142434445464748494A4B4C4D4E4F505152535455565758595A5B5C5D5E5F\
        606162636465666768696A6B6C6D6E6F707172737475767778797A7B7C7D7E7F\
        808182838485868788898A8B8C8D8E8F909192939495969798999A9B9C9D9E9F\
        A0A1A2A3A4A5A6A7A8A9AAABACADAEAFB0B1B2B3B4B5B6B7B8B9BABBBCBDBEBF\
        C0C1C2C3C4C5C6C7C8C9CACBCCCDCECFD0D1D2D3D4D5D6D7D8D9DADBDCDDDEDF\
        E0E1E2E3E4E5E6E7E8E9EAEBECEDEEEFF0F1F2F3F4F5F6F7F8F9FAFBFCFDFEFF\
        "
}

/// Writes the characters of octets into a text at an offset, and returns the offset after them.
#[inline(always)]
pub(crate) fn put_pairs(octets: &[u8], text: &mut [u8], at: usize) -> usize
    requires { at + 2 * length octets.now ≤ length text.old }
    ensures text { take result text.new ≡ take at text.old ++ digit_text base16 4 octets.now }
    ensures rest { drop result text.new ≡ drop result text.old }
    ensures len { result ≡ at + 2 * length octets.now }
{
    let characters = pairs();
    for (place, octet) in octets.iter().enumerate() {
        let pair = 2 * *octet as usize;
        let end = at + 2 * place;
        text[end] = characters[pair];
        text[end + 1] = characters[pair + 1];
    }
    at + 2 * octets.len()
}
