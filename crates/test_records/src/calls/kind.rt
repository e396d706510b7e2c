//! The names of kinds of fields in rows.
use rdata_fields::Field;
use test_support::{Answer, Failure};

/// Returns the kind of a number or an address with a name.
fn number_kind(name: &[u8]) -> Option<Field> {
    match name {
        b"u8" => Some(Field::Number8),
        b"u16" => Some(Field::Number16),
        b"u32" => Some(Field::Number32),
        b"interval" => Some(Field::Interval),
        b"time" => Some(Field::Time),
        b"ipv4" => Some(Field::Ipv4),
        b"ipv6" => Some(Field::Ipv6),
        b"eui48" => Some(Field::Eui48),
        b"eui64" => Some(Field::Eui64),
        b"locator" => Some(Field::Locator),
        _ => None,
    }
}

/// Returns the kind with a name.
fn kind_of(name: &[u8]) -> Option<Field> {
    match name {
        b"type" => Some(Field::RecordType),
        b"sig_type" => Some(Field::SigType),
        b"algorithm" => Some(Field::Algorithm),
        b"certificate" => Some(Field::CertificateType),
        b"scheme" => Some(Field::SyncScheme),
        b"string" => Some(Field::String),
        b"psdn_address" => Some(Field::PsdnAddress),
        b"tag" => Some(Field::Tag),
        b"salt" => Some(Field::Salt),
        b"hash" => Some(Field::Hash),
        b"name" => Some(Field::Name),
        _ => number_kind(name),
    }
}

/// Returns the kind with a name. A row with another name is not run.
pub fn field_of(name: &[u8], answer: &mut Answer) -> Field {
    let found = kind_of(name);
    if found.is_none() {
        answer.fail(Failure::BadInputs);
    }
    found.unwrap_or(Field::Number8)
}
