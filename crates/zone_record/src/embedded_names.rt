//! Names in RDATA of MD, MF, NXT and A6, which have only the generic presentation format here, and
//! of SIG and PX.
ghost use Rattle.std.specs.Prelude.{◌≡◌, ◌<◌, ◌≤◌, length, IfSome};
ghost use Rattle.zone_record.specs.Names.{octet_order};
ghost use Rattle.zone_record.specs.EmbeddedNames.{address_form, untexted_form, names_size, fields_to_last_name};
ghost use Rattle.zone_record.specs.EmbeddedNameOrder.{IsUntextedOrder, LowersUntexted, lower_names};

use rdata_fields::Field;
use rdata_tokens::name_width;
use rdata_values::RecordType;
use std::cmp::Ordering;

/// The number of octets before names, and the number of names.
pub(crate) struct NamePlaces {
    front: usize,
    names: usize,
}

/// Greatest number of octets before names: those of SIG.
const MAX_PREFIX: usize = 18;

/// Octets, and names after them.
static OCTETS_AND_NAMES: [Field; 20] = [
    Field::Number8,
    Field::Number8,
    Field::Number8,
    Field::Number8,
    Field::Number8,
    Field::Number8,
    Field::Number8,
    Field::Number8,
    Field::Number8,
    Field::Number8,
    Field::Number8,
    Field::Number8,
    Field::Number8,
    Field::Number8,
    Field::Number8,
    Field::Number8,
    Field::Number8,
    Field::Number8,
    Field::Name,
    Field::Name,
];

/// Returns the position of the name in RDATA of A6 (RFC 2874 section 3.1), by the length of the
/// prefix in bits. The name follows that octet and the octets with the other bits of the address.
/// If the prefix has no bits, or more than an address, there is no name.
fn address_places(prefix: u8) -> NamePlaces
    ensures { result ≡ address_form prefix }
{
    if prefix == 0 || prefix > 128 {
        return NamePlaces { front: 0, names: 0 };
    }
    let bits = 128 - usize::from(prefix);
    NamePlaces {
        front: 1 + bits.div_ceil(8),
        names: 1,
    }
}

/// Returns the position of the names in RDATA of a type that has only the generic form.
fn name_places(rtype: RecordType, octets: &[u8]) -> NamePlaces
    ensures form { result ≡ untexted_form rtype octets.now }
    ensures few { (result.front ≤ MAX_PREFIX) × (result.names ≤ 2) }
    ensures named { 0 < result.front → 0 < result.names }
{
    let (front, names) = match rtype {
        // RFC 1035 sections 3.3.4 and 3.3.5, and RFC 2535 section 5.2.
        RecordType::MD | RecordType::MF | RecordType::NXT => (0, 1),
        // RFC 2535 section 4.1.
        RecordType::SIG => (18, 1),
        // RFC 2163 section 4.
        RecordType::PX => (2, 2),
        RecordType::A6 if !octets.is_empty() => return address_places(octets[0]),
        _ => (0, 0),
    };
    NamePlaces { front, names }
}

/// Returns the length in octets of `names` names that octets begin with. Returns `None` if octets
/// don't begin with them.
fn names_width(names: usize, octets: &[u8]) -> Option<usize>
    ensures size { result ≡ names_size names octets.now }
    ensures within { IfSome result (λ width. width ≤ length octets.now) }
{
    let mut width = 0;
    for _ in 0..names {
        width += name_width(&octets[width..])?;
    }
    Some(width)
}

/// Returns the fields that RDATA of a type with only the generic form begins with, up to the last
/// name: octets, and names after them. Returns no fields if the type has no names, or if the RDATA
/// doesn't begin with such fields.
pub fn untexted_fields(rtype: RecordType, octets: &[u8]) -> &'static [Field]
    ensures { result.now ≡ fields_to_last_name rtype octets.now }
{
    let NamePlaces { front, names } = name_places(rtype, octets);
    if front > octets.len() || names_width(names, &octets[front..]).is_none() {
        return &[];
    }
    &OCTETS_AND_NAMES[MAX_PREFIX - front..MAX_PREFIX + names]
}

/// The span of the names: the octets from `start` to before `end`.
#[derive(Clone, Copy)]
pub(crate) struct NameSpan {
    start: usize,
    end: usize,
}

/// Returns the span of the names in RDATA of a type with only the generic form.
fn name_span(rtype: RecordType, octets: &[u8]) -> NameSpan
    ensures within { (result.start ≤ result.end) × (result.end ≤ length octets.now) }
    ensures form { LowersUntexted rtype octets.now result }
{
    let NamePlaces { front, names } = name_places(rtype, octets);
    if front > octets.len() {
        return NameSpan { start: 0, end: 0 };
    }
    match names_width(names, &octets[front..]) {
        Some(width) => NameSpan {
            start: front,
            end: front + width,
        },
        None => NameSpan { start: 0, end: 0 },
    }
}

/// Compares octets, with those of the names in lower case.
fn compare_between(left: &[u8], names: NameSpan, right: &[u8], others: NameSpan) -> Ordering
    requires left { (names.start ≤ names.end) × (names.end ≤ length left.now) }
    requires right { (others.start ≤ others.end) × (others.end ≤ length right.now) }
    ensures { result ≡ octet_order (lower_names names left.now) (lower_names others right.now) }
{
    let lower = |octet: &u8| octet.to_ascii_lowercase();
    let first = left[..names.start]
        .iter()
        .copied()
        .chain(left[names.start..names.end].iter().map(lower))
        .chain(left[names.end..].iter().copied());
    let second = right[..others.start]
        .iter()
        .copied()
        .chain(right[others.start..others.end].iter().map(lower))
        .chain(right[others.end..].iter().copied());
    first.cmp(second)
}

/// Compares the canonical forms of RDATA of a type with only the generic form.
pub fn compare_untexted(rtype: RecordType, left: &[u8], right: &[u8]) -> Ordering
    ensures { IsUntextedOrder rtype left.now right.now result }
{
    compare_between(left, name_span(rtype, left), right, name_span(rtype, right))
}
