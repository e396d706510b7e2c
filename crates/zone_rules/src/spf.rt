//! Recognizes SPF records (RFC 7208).
ghost use Rattle.std.specs.Prelude.{◌≡◌};
ghost use Rattle.zone_rules.specs.Spf.{has_first_word, is_spf, joined_strings};

use dns_octets::AsOctets;
use rdata_values::RecordType;
use zone_record::Record;

/// The version of SPF records.
const VERSION: &[u8] = b"v=spf1";

/// Returns whether the text of character strings begins with a word, in any letter case, and then
/// ends or has a space.
fn has_first_word(strings: &[u8], word: &[u8]) -> bool
    ensures { result ≡ has_first_word word.now (joined_strings 0 strings.now) }
{
    let mut rest = strings;
    let mut wanted = word;
    let mut count: u8 = 0;
    while let [octet, others @ ..] = rest {
        rest = others;
        if count == 0 {
            count = *octet;
        } else {
            let [first, more @ ..] = wanted else {
                return *octet == b' ';
            };
            if octet.to_ascii_lowercase() != *first {
                return false;
            }
            wanted = more;
            count -= 1;
        }
    }
    wanted.is_empty()
}

/// Returns whether a record is a TXT with an SPF record.
pub(crate) fn is_spf<Owner: AsOctets, Octets: AsOctets>(record: &Record<Owner, Octets>) -> bool
    ensures { result ≡ is_spf «record».now }
{
    record.data.rtype() == RecordType::TXT && has_first_word(record.data.as_slice(), VERSION)
}
