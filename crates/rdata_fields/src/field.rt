//! Fields of RDATA that are one token.
ghost use Rattle.std.specs.Prelude.{None};
ghost use Rattle.std.specs.Option.{option_copied};
ghost use Rattle.std.specs.Fmt.{WritesOnOk};
ghost use Rattle.rdata_tokens.specs.Forms.{FindsWidth};
ghost use Rattle.rdata_fields.specs.Fields.{field_form};
ghost use Rattle.rdata_fields.specs.Forms.{ReadsField, token_text};

use crate::texts::{
    append_hash_field, append_name_field, append_psdn_address, append_salt_field,
    append_string_field, append_tag_field, hash_field_width, psdn_address_width, write_hash,
    write_psdn_address, write_salt, write_string, write_tag,
};
use crate::word::{append_word, word_width, write_word};
use crate::words::Interval;
use dns_lexer::entry_tokens::EntryToken;
use dns_octets::{AsOctets, OctetsBuilder};
use dns_wire::Name;
use rdata_tokens::{NameText, name_width, string_width, tag_width};
use rdata_values::{
    Algorithm, CertificateType, Date, ErrorKind, Eui48, Eui64, Ipv6Shown, Locator, PortableType,
    SigType, SyncScheme,
};
use std::fmt;
use std::net::Ipv4Addr;

/// The kind of a field that is one token of an entry.
#[derive(Clone, Copy)]
pub enum Field {
    /// A number of 8 bits.
    Number8,
    /// A number of 16 bits.
    Number16,
    /// A number of 32 bits.
    Number32,
    /// A number of seconds, which may be written with units.
    Interval,
    /// An IPv4 address.
    Ipv4,
    /// An IPv6 address.
    Ipv6,
    /// A record type.
    RecordType,
    /// The type that a SIG covers, which may be the digit 0.
    SigType,
    /// An algorithm of keys and signatures, by name or number, which prints as its number.
    Algorithm,
    /// A certificate type.
    CertificateType,
    /// The scheme of a DSYNC.
    SyncScheme,
    /// An EUI-48.
    Eui48,
    /// An EUI-64.
    Eui64,
    /// A time of a signature, which prints as a date.
    Time,
    /// A locator or an identifier of 64 bits.
    Locator,
    /// A character string, quoted or not.
    String,
    /// A character string of 4 digits or more, without escapes.
    PsdnAddress,
    /// A tag of letters and digits.
    Tag,
    /// A salt.
    Salt,
    /// A hash in base 32 hex.
    Hash,
    /// A name. The origin is appended to a relative name.
    Name,
}

/// Parses a token as a field, and appends its octets. The origin is appended to a relative name.
///
/// Fails with the error of the field's kind if the token doesn't spell such a field, and with
/// `ShortBuf` if the target fails.
pub fn append_field<Octets: AsOctets, B: OctetsBuilder>(
    field: Field,
    token: &EntryToken<'_>,
    origin: Option<&Name<Octets>>,
    target: &mut B,
) -> Result<(), ErrorKind>
    ensures { ReadsField B.room (field_form (option_copied origin.entry) field)
        token.now.is_quoted token.now.text.now (B.octets target.old) result (B.octets target.new) }
{
    match field {
        Field::Number8 => append_word::<u8, B>(token, target),
        Field::Number16 => append_word::<u16, B>(token, target),
        Field::Number32 => append_word::<u32, B>(token, target),
        Field::Interval => append_word::<Interval, B>(token, target),
        Field::Ipv4 => append_word::<Ipv4Addr, B>(token, target),
        Field::Ipv6 => append_word::<Ipv6Shown, B>(token, target),
        Field::RecordType => append_word::<PortableType, B>(token, target),
        Field::SigType => append_word::<SigType, B>(token, target),
        Field::Algorithm => append_word::<Algorithm, B>(token, target),
        Field::CertificateType => append_word::<CertificateType, B>(token, target),
        Field::SyncScheme => append_word::<SyncScheme, B>(token, target),
        Field::Eui48 => append_word::<Eui48, B>(token, target),
        Field::Eui64 => append_word::<Eui64, B>(token, target),
        Field::Time => append_word::<Date, B>(token, target),
        Field::Locator => append_word::<Locator, B>(token, target),
        Field::String => append_string_field(token, target),
        Field::PsdnAddress => append_psdn_address(token, target),
        Field::Tag => append_tag_field(token, target),
        Field::Salt => append_salt_field(token, target),
        Field::Hash => append_hash_field(token, target),
        Field::Name => append_name_field(token, origin, target),
    }
}

/// Returns the length in octets of the field at the start of octets. Returns `None` if the octets
/// don't begin with such a field.
pub fn field_width(field: Field, octets: &[u8]) -> Option<usize>
    ensures { FindsWidth (field_form None field).is_wire octets.now result }
{
    match field {
        Field::Number8 => word_width::<u8>(octets),
        Field::Number16 => word_width::<u16>(octets),
        Field::Number32 => word_width::<u32>(octets),
        Field::Interval => word_width::<Interval>(octets),
        Field::Ipv4 => word_width::<Ipv4Addr>(octets),
        Field::Ipv6 => word_width::<Ipv6Shown>(octets),
        Field::RecordType => word_width::<PortableType>(octets),
        Field::SigType => word_width::<SigType>(octets),
        Field::Algorithm => word_width::<Algorithm>(octets),
        Field::CertificateType => word_width::<CertificateType>(octets),
        Field::SyncScheme => word_width::<SyncScheme>(octets),
        Field::Eui48 => word_width::<Eui48>(octets),
        Field::Eui64 => word_width::<Eui64>(octets),
        Field::Time => word_width::<Date>(octets),
        Field::Locator => word_width::<Locator>(octets),
        Field::String => string_width(octets),
        Field::PsdnAddress => psdn_address_width(octets),
        Field::Tag => tag_width(octets),
        Field::Salt => string_width(octets),
        Field::Hash => hash_field_width(octets),
        Field::Name => name_width(octets),
    }
}

/// Prints a field as its token.
pub fn write_field<W: fmt::Write>(
    field: Field,
    octets: &[u8],
    f: &mut fmt::Formatter<W>,
) -> fmt::Result
    requires { (field_form None field).is_wire octets.now }
    ensures { WritesOnOk W.write_str_gives f.old result
        (token_text (field_form None field) octets.now) f.new }
{
    match field {
        Field::Number8 => write_word::<u8, W>(octets, f),
        Field::Number16 => write_word::<u16, W>(octets, f),
        Field::Number32 => write_word::<u32, W>(octets, f),
        Field::Interval => write_word::<Interval, W>(octets, f),
        Field::Ipv4 => write_word::<Ipv4Addr, W>(octets, f),
        Field::Ipv6 => write_word::<Ipv6Shown, W>(octets, f),
        Field::RecordType => write_word::<PortableType, W>(octets, f),
        Field::SigType => write_word::<SigType, W>(octets, f),
        Field::Algorithm => write_word::<Algorithm, W>(octets, f),
        Field::CertificateType => write_word::<CertificateType, W>(octets, f),
        Field::SyncScheme => write_word::<SyncScheme, W>(octets, f),
        Field::Eui48 => write_word::<Eui48, W>(octets, f),
        Field::Eui64 => write_word::<Eui64, W>(octets, f),
        Field::Time => write_word::<Date, W>(octets, f),
        Field::Locator => write_word::<Locator, W>(octets, f),
        Field::String => write_string(octets, f),
        Field::PsdnAddress => write_psdn_address(octets, f),
        Field::Tag => write_tag(octets, f),
        Field::Salt => write_salt(octets, f),
        Field::Hash => write_hash(octets, f),
        Field::Name => write!(f, "{}", NameText(octets)),
    }
}
