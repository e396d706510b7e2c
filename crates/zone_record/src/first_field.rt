//! Fields at the start of octets.
ghost use Rattle.std.specs.Prelude.{◌≡◌, [], ◌∷◌, Some, take, drop, length};
ghost use Rattle.rdata_tokens.specs.Forms.{FindsWidth};
ghost use Rattle.zone_record.specs.FieldForms.{IsFieldWire, StartsWithFields};
ghost use Rattle.rdata.specs.GatewayKeys.{labels_size};
ghost use Rattle.rdata.specs.Printing.{counted_size, field_size};

use rdata_fields::{Field, field_width};

/// Returns the length in octets of the field that octets begin with. They must begin with one.
pub(crate) fn first_width(field: Field, octets: &[u8]) -> usize
    requires { StartsWithFields (field ∷ []) octets.now }
    ensures { FindsWidth (IsFieldWire field) octets.now (Some result) }
{
    match field_width(field, octets) {
        Some(width) => width,
        None => unreachable!(),
    }
}

/// Returns the octets after labels up to the root.
fn after_labels(octets: &[u8]) -> &[u8]
    ensures { result.now ≡ drop (labels_size (length octets.now) octets.now) octets.now }
{
    let Some((count, after)) = octets.split_first() else {
        return octets;
    };
    if *count == 0 {
        return after;
    }
    after_labels(after_count(after, usize::from(*count)))
}

/// Returns the octets after as many octets, or none if there are fewer.
fn after_count(octets: &[u8], count: usize) -> &[u8]
    ensures { result.now ≡ drop count octets.now }
{
    match octets.get(count..) {
        Some(rest) => rest,
        None => &[],
    }
}

/// Returns the octets after a character string.
fn after_string(octets: &[u8]) -> &[u8]
    ensures { result.now ≡ drop (counted_size octets.now) octets.now }
{
    match octets {
        [count, after @ ..] => after_count(after, usize::from(*count)),
        [] => octets,
    }
}

/// Returns the octets after a field of a kind, whether octets begin with one or not.
fn after_field(field: Field, octets: &[u8]) -> &[u8]
    ensures { result.now ≡ drop (field_size field octets.now) octets.now }
{
    match field {
        Field::Number8 | Field::Algorithm | Field::SyncScheme => after_count(octets, 1),
        Field::Number16 | Field::RecordType | Field::SigType | Field::CertificateType => {
            after_count(octets, 2)
        }
        Field::Number32 | Field::Interval | Field::Ipv4 | Field::Time => after_count(octets, 4),
        Field::Eui48 => after_count(octets, 6),
        Field::Eui64 | Field::Locator => after_count(octets, 8),
        Field::Ipv6 => after_count(octets, 16),
        Field::String | Field::PsdnAddress | Field::Tag | Field::Salt | Field::Hash => {
            after_string(octets)
        }
        Field::Name => after_labels(octets),
    }
}

/// Splits octets after a field of a kind, whether they begin with one or not.
pub(crate) fn split_field(field: Field, octets: &[u8]) -> (&[u8], &[u8])
    ensures first { result.0.now ≡ take (field_size field octets.now) octets.now }
    ensures rest { result.1.now ≡ drop (field_size field octets.now) octets.now }
{
    let rest = after_field(field, octets);
    (&octets[..octets.len() - rest.len()], rest)
}
