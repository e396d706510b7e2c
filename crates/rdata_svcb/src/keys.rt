//! Names of keys of service parameters (RFC 9460 section 2.1).
ghost use Rattle.std.specs.Prelude.{◌≡◌, MatchBool};
ghost use Rattle.rdata_svcb.specs.Keys.{rows_of, FindsKey, FindsKeyNumber, HasZeros, IsNumberedKey, NamesKey, NamesKeyOf};
ghost use Rattle.rdata_svcb.specs.declared.keys.ValueKind.TheVariants.{Octets as AnyOctets};

use rdata_values::numbers::u16_from_text;

/// The form of a value in presentation format.
#[derive(Clone, Copy, Debug, PartialEq, Eq)]
pub enum ValueKind {
    /// Names of keys, separated by commas.
    Keys,
    /// A list of strings.
    Strings,
    /// Nothing.
    Nothing,
    /// A number of 16 bits.
    Port,
    /// IPv4 addresses, separated by commas.
    Ipv4,
    /// Octets in base 64.
    Digits,
    /// IPv6 addresses, separated by commas.
    Ipv6,
    /// Octets.
    Octets,
}

/// A key with a name: its number, its name, and the form of its value.
pub(crate) struct NamedKey(
    pub(crate) u16,
    pub(crate) &'static str,
    pub(crate) ValueKind,
);

/// The keys that have names (RFC 9460 section 14.3.2, RFC 9461 section 8, RFC 9540 section 8).
static KEYS: [NamedKey; 9] = [
    NamedKey(0, "mandatory", ValueKind::Keys),
    NamedKey(1, "alpn", ValueKind::Strings),
    NamedKey(2, "no-default-alpn", ValueKind::Nothing),
    NamedKey(3, "port", ValueKind::Port),
    NamedKey(4, "ipv4hint", ValueKind::Ipv4),
    NamedKey(5, "ech", ValueKind::Digits),
    NamedKey(6, "ipv6hint", ValueKind::Ipv6),
    NamedKey(7, "dohpath", ValueKind::Octets),
    NamedKey(8, "ohttp", ValueKind::Nothing),
];

/// A key that was parsed: its number, and the form of its value.
#[derive(Clone, Copy)]
pub(crate) struct SpelledKey {
    pub(crate) code: u16,
    pub(crate) kind: ValueKind,
}

/// Returns whether digits begin with a zero that more digits follow.
fn has_zeros(digits: &[u8]) -> bool
    ensures { MatchBool result (HasZeros digits.now) (¬ HasZeros digits.now) }
{
    digits.len() > 1 && digits[0] == b'0'
}

/// Returns the number of decimal digits without leading zeros.
fn number_of(digits: &[u8]) -> Option<u16>
    ensures { FindsKeyNumber digits.now result }
{
    if has_zeros(digits) {
        return None;
    }
    match u16_from_text(digits) {
        Ok(number) => Some(number),
        Err(_) => None,
    }
}

/// Returns the key that `key` and a number name. Its value is any octets.
fn numbered_key(text: &[u8]) -> Option<SpelledKey>
    ensures { FindsKey (λ code kind. IsNumberedKey text.now code × (kind ≡ AnyOctets)) result }
{
    let digits = text.strip_prefix(b"key")?;
    let code = number_of(digits)?;
    Some(SpelledKey {
        code,
        kind: ValueKind::Octets,
    })
}

/// Returns the key that a text names, by a row of a table or by its number.
fn find_key(table: &[NamedKey], text: &[u8]) -> Option<SpelledKey>
    ensures { FindsKey (NamesKeyOf (rows_of table.now) text.now) result }
{
    for row in table {
        if row.1.as_bytes() == text {
            return Some(SpelledKey {
                code: row.0,
                kind: row.2,
            });
        }
    }
    numbered_key(text)
}

/// Returns the key that a text names.
pub(crate) fn key_from_text(text: &[u8]) -> Option<SpelledKey>
    ensures { FindsKey (NamesKey text.now) result }
{
    find_key(&KEYS, text)
}
