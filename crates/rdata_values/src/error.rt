//! The reasons why a token, an entry or a zone file is rejected.
ghost use Rattle.std.specs.Prelude.{◌≡◌, Some};
ghost use Rattle.rdata_values.specs.ErrorKinds.{error_kind_text, syntax_text, missing_key_text};
ghost use Rattle.rdata_values.specs.declared.error.ErrorKind.TheVariants.{ShortBuf as NoRoom};

use dns_lexer::pieces::Wrong;
use dns_octets::ShortBuf;
use std::error::Error;
use std::fmt;

/// The reason why a token, an entry or a zone file is rejected.
///
/// A variant with a limit holds what is allowed, and `WrongLength` also what was found.
#[derive(Clone, Copy, Debug, PartialEq, Eq)]
pub enum ErrorKind {
    /// The buffer is too small, or there is no memory.
    ShortBuf,
    /// A syntax error: the text is not of the grammar of zone files.
    Syntax(Wrong),
    /// The entry ends where a token is expected.
    EndOfEntry,
    /// A token follows the RDATA.
    TrailingToken,
    /// A quoted string is where a word is expected.
    Quoted,
    /// A quoted string is where a name is expected.
    QuotedName,
    /// A word is where a quoted string is expected.
    NotQuoted,
    /// The text is not one or more decimal digits.
    ExpectedNumber,
    /// The decimal number is above the greatest that its field allows.
    NumberOverflow { most: u32 },
    /// The text is not an IPv4 address.
    ExpectedIpv4,
    /// The text is not an IPv6 address.
    ExpectedIpv6,
    /// The text is not a TTL.
    ExpectedTtl,
    /// The text is not an interval.
    ExpectedInterval,
    /// The text is not a time of a signature.
    ExpectedTime,
    /// The text does not name a record type.
    UnknownType,
    /// The text does not name a class.
    UnknownClass,
    /// The text does not name an algorithm.
    UnknownAlgorithm,
    /// The text does not name a certificate type.
    UnknownCertificate,
    /// The text does not name a scheme.
    UnknownScheme,
    /// The text is not an EUI-48.
    ExpectedEui48,
    /// The text is not an EUI-64.
    ExpectedEui64,
    /// The text is not a locator or identifier of 64 bits.
    ExpectedLocator,
    /// The text is not a salt.
    ExpectedSalt,
    /// The text is not the digits of an X25 address.
    ExpectedPsdnAddress,
    /// A backslash has no octet after it, or has a digit after it that does not begin a number of
    /// three digits up to 255.
    BadEscape,
    /// A character string has more than 255 octets.
    LongString,
    /// A tag is not 1 to 255 letters or digits.
    BadTag,
    /// A label of a name has no octets.
    EmptyLabel,
    /// A label of a name has more than 63 octets.
    LongLabel,
    /// A name has more than 255 octets in wire format.
    LongName,
    /// A name is relative, and there is no origin.
    NoOrigin,
    /// A character is not a hexadecimal digit.
    ExpectedHex,
    /// The text ends within a pair of hexadecimal digits.
    UnevenHex,
    /// A character is not allowed at its offset, or a padded group of base 64 has unused bits that
    /// are not zero.
    IllegalBase64,
    /// A character follows a padded group of base 64.
    TrailingBase64,
    /// The text ends within a group of base 64.
    IncompleteBase64,
    /// A character is not a digit of base 32 hex, or the last digit has unused bits that are not
    /// zero.
    IllegalBase32,
    /// The digits of base 32 hex do not end at an octet's end, or there are none.
    ShortBase32,
    /// The hash has more than 255 octets.
    LongHash,
    /// The latitude is missing or wrong: degrees, optional minutes and seconds, and a side, at most
    /// 90 degrees.
    ExpectedLatitude,
    /// The longitude after the latitude is missing or wrong. Its form is that of a latitude, at
    /// most 180 degrees.
    ExpectedLongitude,
    /// The altitude after the longitude is missing or wrong.
    ExpectedAltitude,
    /// A token after the altitude is not a size.
    ExpectedSize,
    /// Tokens follow those of a location.
    ExpectedEnd,
    /// The text is not an item of an address prefix list.
    ExpectedPrefix,
    /// The text does not begin with `0x`, or no digit follows it.
    ExpectedNsap,
    /// The text is not a gateway of its type.
    ExpectedGateway,
    /// The type of a gateway is above 3.
    UnknownGateway,
    /// The host identity tag of a HIP is not 1 to 255 octets in hexadecimal digits.
    ExpectedHit,
    /// The public key of a HIP has more than 65535 octets.
    LongKey,
    /// A quoted string is where a service parameter begins.
    QuotedParam,
    /// A token is adjacent to the service parameter before it.
    GluedParam,
    /// The name of a service parameter's key is unknown.
    UnknownKey,
    /// A service parameter has a value that its key does not allow.
    UnexpectedValue,
    /// A key is in the value of `mandatory` twice.
    RepeatedKey,
    /// The value of a service parameter has more than 65535 octets.
    LongValue,
    /// The key of a service parameter is that of a parameter before it.
    RepeatedParam,
    /// A string of a list has no octets or more than 255.
    ListString,
    /// A backslash in a list is before an octet other than a comma or a backslash.
    ListEscape,
    /// A service parameter is cut off.
    ShortParams,
    /// This key of a service parameter is not greater than those before it.
    ParamOrder(u16),
    /// The value of this key of a service parameter is not one that the key allows.
    ParamValue(u16),
    /// The value of `mandatory` lists this key, which no service parameter has.
    MissingParam(u16),
    /// Type 0 is in a list of types.
    TypeZero,
    /// The octets are not RDATA of the type.
    NotOfType,
    /// Records of the type cannot be in a zone.
    NoDataType,
    /// RDATA of the type has no presentation format except the generic one (RFC 3597).
    NoTextForm,
    /// The number of octets differs from the length stated before them.
    WrongLength { found: usize, wanted: usize },
    /// A token follows the arguments of a directive.
    TrailingArgument,
    /// The directive is not supported: `$GENERATE`.
    NotSupported,
    /// The word does not name a directive.
    UnknownDirective,
    /// The record begins with a blank, and no entry before it has an owner.
    NoOwner,
    /// The record begins with a blank, and the last owner before it was rejected.
    RefusedOwner,
    /// The record has no TTL, and there is none that it could inherit.
    NoTtl,
}

/// Returns the message of a syntax error.
fn syntax_text(wrong: Wrong) -> &'static str
    ensures { result.now ≡ syntax_text wrong }
{
    match wrong {
        Wrong::Closing => "closing parenthesis, and none is open",
        Wrong::OpenParenthesis => "parenthesis is not closed",
        Wrong::OpenQuote(_) => "quoted text is not closed",
        Wrong::LoneReturn => "CR without LF",
        Wrong::BadEscape => "bad escape",
    }
}

/// Returns the message for a key that the value of `mandatory` lists and that is missing.
fn missing_text(key: u16) -> &'static str
    ensures { result.now ≡ missing_key_text key }
{
    match key {
        1 => "mandatory names alpn, which is missing",
        2 => "mandatory names no-default-alpn, which is missing",
        3 => "mandatory names port, which is missing",
        4 => "mandatory names ipv4hint, which is missing",
        5 => "mandatory names ech, which is missing",
        6 => "mandatory names ipv6hint, which is missing",
        7 => "mandatory names dohpath, which is missing",
        8 => "mandatory names ohttp, which is missing",
        _ => "mandatory names a key that is missing",
    }
}

impl ErrorKind {
    /// Returns the error message.
    pub fn as_str(&self) -> &'static str
        ensures { result.now ≡ error_kind_text self.now }
    {
        match self {
            ErrorKind::ShortBuf => "buffer size exceeded",
            ErrorKind::Syntax(wrong) => syntax_text(*wrong),
            ErrorKind::EndOfEntry => "unexpected end of entry",
            ErrorKind::TrailingToken => "unexpected token behind the data",
            ErrorKind::Quoted => "expected word without quotes",
            ErrorKind::QuotedName => "expected word without quotes",
            ErrorKind::NotQuoted => "expected text in quotes",
            ErrorKind::ExpectedNumber => "expected decimal number",
            ErrorKind::NumberOverflow { .. } => "decimal number overflow",
            ErrorKind::ExpectedIpv4 => "expected IPv4 address",
            ErrorKind::ExpectedIpv6 => "expected IPv6 address",
            ErrorKind::ExpectedTtl => "expected TTL",
            ErrorKind::ExpectedInterval => "expected interval",
            ErrorKind::ExpectedTime => "expected signature time",
            ErrorKind::UnknownType => "unknown record type",
            ErrorKind::UnknownClass => "unknown class",
            ErrorKind::UnknownAlgorithm => "unknown algorithm",
            ErrorKind::UnknownCertificate => "unknown certificate type",
            ErrorKind::UnknownScheme => "unknown scheme",
            ErrorKind::ExpectedEui48 => "expected EUI-48",
            ErrorKind::ExpectedEui64 => "expected EUI-64",
            ErrorKind::ExpectedLocator => "expected locator",
            ErrorKind::ExpectedSalt => "expected salt",
            ErrorKind::ExpectedPsdnAddress => "expected 4 to 255 digits",
            ErrorKind::BadEscape => "illegal escape sequence",
            ErrorKind::LongString => "character string with more than 255 octets",
            ErrorKind::BadTag => "expected tag of letters and digits",
            ErrorKind::EmptyLabel => "empty label",
            ErrorKind::LongLabel => "long label",
            ErrorKind::LongName => "long domain name",
            ErrorKind::NoOrigin => "relative name, and no origin",
            ErrorKind::ExpectedHex => "expected hex digits",
            ErrorKind::UnevenHex => "uneven number of hex digits",
            ErrorKind::IllegalBase64 => "illegal Base 64 data",
            ErrorKind::TrailingBase64 => "trailing Base 64 data",
            ErrorKind::IncompleteBase64 => "incomplete Base 64 data",
            ErrorKind::IllegalBase32 => "illegal Base 32 data",
            ErrorKind::ShortBase32 => "short Base 32 input",
            ErrorKind::LongHash => "hash too long",
            ErrorKind::ExpectedLatitude => "expected latitude",
            ErrorKind::ExpectedLongitude => "expected longitude",
            ErrorKind::ExpectedAltitude => "expected altitude",
            ErrorKind::ExpectedSize => "expected size",
            ErrorKind::ExpectedEnd => "expected end of entry",
            ErrorKind::ExpectedPrefix => "expected address prefix",
            ErrorKind::ExpectedNsap => "expected 0x and hex digits",
            ErrorKind::ExpectedGateway => "expected gateway",
            ErrorKind::UnknownGateway => "unknown gateway type",
            ErrorKind::ExpectedHit => "expected 1 to 255 octets in hex",
            ErrorKind::LongKey => "key with more than 65535 octets",
            ErrorKind::QuotedParam => "expected service parameter without quotes",
            ErrorKind::GluedParam => "token touches a service parameter",
            ErrorKind::UnknownKey => "unknown key of a service parameter",
            ErrorKind::UnexpectedValue => "service parameter takes no value",
            ErrorKind::RepeatedKey => "repeated key in a value",
            ErrorKind::LongValue => "value of a service parameter with more than 65535 octets",
            ErrorKind::RepeatedParam => "repeated service parameter",
            ErrorKind::ListString => "string of a list without 1 to 255 octets",
            ErrorKind::ListEscape => "illegal escape in a list",
            ErrorKind::ShortParams => "service parameters are cut off",
            ErrorKind::ParamOrder(_) => "service parameter out of order",
            ErrorKind::ParamValue(_) => "wrong value of a service parameter",
            ErrorKind::MissingParam(key) => missing_text(*key),
            ErrorKind::TypeZero => "type 0 in a list of types",
            ErrorKind::NotOfType => "these octets are no data of the type",
            ErrorKind::NoDataType => "type has no data in zones",
            ErrorKind::NoTextForm => "give its data as \\#",
            ErrorKind::WrongLength { .. } => "wrong number of octets",
            ErrorKind::TrailingArgument => "unexpected token behind the directive",
            ErrorKind::NotSupported => "not supported: expand it first",
            ErrorKind::UnknownDirective => "unknown directive",
            ErrorKind::NoOwner => "no owner",
            ErrorKind::RefusedOwner => "the owner before is refused",
            ErrorKind::NoTtl => "no TTL",
        }
    }
}

impl fmt::Display for ErrorKind {
    ghost output = { λ e. Some (error_kind_text e) };

    fn fmt<W: fmt::Write>(&self, f: &mut fmt::Formatter<W>) -> fmt::Result {
        f.write_str(self.as_str())
    }
}

impl Error for ErrorKind {}

impl From<ShortBuf> for ErrorKind {
    ghost from_gives = { λ _ e. e ≡ NoRoom };

    fn from(_: ShortBuf) -> Self {
        ErrorKind::ShortBuf
    }
}
