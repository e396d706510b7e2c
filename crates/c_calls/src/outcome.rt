//! The result of a call: a status, a length and a place.
ghost use Rattle.std.specs.Prelude.{◌≡◌};
ghost use Rattle.c_calls.specs.Reports.{number_of, WritesPrefix, CopiesWhole, ReportsFault};

/// The result of a call, besides its status.
#[repr(C)]
#[derive(Clone, Copy, Debug, PartialEq, Eq)]
pub struct Outcome {
    /// Number of octets that were written; or with [`Refusal::NoRoom`] the number to write.
    pub length: usize,
    /// Offset of an error in octets; 0 without an error.
    pub place: usize,
}

/// Why a call has no value.
#[derive(Clone, Copy, Debug, PartialEq, Eq)]
pub enum Refusal {
    /// The value doesn't fit into the memory that was passed.
    NoRoom,
    /// A backslash that doesn't begin an escape.
    BadEscape,
    /// The octets end inside an escape or a character.
    ShortInput,
    /// The octets are not UTF-8.
    BadUtf8,
    /// A plain character outside printable ASCII, which has no octet.
    BadSymbol,
    /// More octets than a value may have.
    TooLong,
    /// The text is not of the encoding.
    BadEncoding,
    /// A closing parenthesis without an open one.
    Closing,
    /// The text ends inside parentheses.
    OpenParenthesis,
    /// The text or a line ends inside a quoted text.
    OpenQuote,
    /// A CR without its LF.
    LoneReturn,
    /// A cursor past the end of the text, or with more open parentheses than octets before it.
    BadCursor,
    /// A plain dot after no octet of a label.
    EmptyLabel,
    /// More than 63 octets in a label.
    LongLabel,
    /// A label that begins with an escaped opening bracket (RFC 2673).
    BinaryLabel,
    /// A length octet of an unknown label type.
    BadLabel,
    /// A pointer to another name in place of a label.
    Pointer,
    /// Octets after the root.
    TrailingOctets,
    /// A symbol that is not a plain decimal digit.
    NoDigit,
    /// A number that exceeds the limit.
    TooGreat,
    /// An offset past the end of the text.
    BadPlace,
    /// The text is not a TTL.
    BadTtl,
    /// The text is not a record type.
    UnknownType,
    /// The text is not a class.
    UnknownClass,
    /// A directive, or the TTL, class and type of a record, is rejected.
    BadHead,
    /// A directive that is not supported. No call of this version returns it.
    NotSupported,
    /// A token that is not the name of an owner or an origin.
    BadName,
    /// A relative name without an origin.
    NoOrigin,
    /// A record without an owner, and no record before it has one.
    NoOwner,
    /// A record without an owner, and the last owner was rejected.
    RefusedOwner,
    /// Tokens that are not data of their type.
    BadData,
    /// A record without a TTL, and no TTL is known.
    NoTtl,
    /// A name without the root at its end.
    RelativeName,
    /// A `$GENERATE` directive is rejected.
    BadGenerate,
}

/// An error, and its offset in octets.
#[derive(Clone, Copy, Debug, PartialEq, Eq)]
pub struct Fault {
    pub refusal: Refusal,
    pub place: usize,
}

/// The status of success.
pub const OK: u32 = 0;

/// The status of a call that finds nothing left.
pub const END: u32 = 1;

/// The status of a call that finds a file to include.
pub const INCLUDE: u32 = 26;

/// The status of a call that finds a `$GENERATE` directive.
pub const GENERATE: u32 = 36;

/// Returns the status of an error.
pub fn number_of(refusal: Refusal) -> u32
    ensures { result ≡ number_of refusal }
{
    match refusal {
        Refusal::NoRoom => 2,
        Refusal::BadEscape => 3,
        Refusal::ShortInput => 4,
        Refusal::BadUtf8 => 5,
        Refusal::BadSymbol => 6,
        Refusal::TooLong => 7,
        Refusal::BadEncoding => 8,
        Refusal::Closing => 9,
        Refusal::OpenParenthesis => 10,
        Refusal::OpenQuote => 11,
        Refusal::LoneReturn => 12,
        Refusal::BadCursor => 13,
        Refusal::EmptyLabel => 14,
        Refusal::LongLabel => 15,
        Refusal::BinaryLabel => 16,
        Refusal::BadLabel => 17,
        Refusal::Pointer => 18,
        Refusal::TrailingOctets => 19,
        Refusal::NoDigit => 20,
        Refusal::TooGreat => 21,
        Refusal::BadPlace => 22,
        Refusal::BadTtl => 23,
        Refusal::UnknownType => 24,
        Refusal::UnknownClass => 25,
        Refusal::BadHead => 27,
        Refusal::NotSupported => 28,
        Refusal::BadName => 29,
        Refusal::NoOrigin => 30,
        Refusal::NoOwner => 31,
        Refusal::RefusedOwner => 32,
        Refusal::BadData => 33,
        Refusal::NoTtl => 34,
        Refusal::RelativeName => 35,
        Refusal::BadGenerate => 37,
    }
}

/// Reports an error.
pub(crate) fn refuse(fault: Fault, outcome: &mut Outcome) -> u32
    ensures { ReportsFault fault result outcome.new }
{
    *outcome = Outcome {
        length: 0,
        place: fault.place,
    };
    number_of(fault.refusal)
}

/// Reports success of a call that writes no octets.
pub(crate) fn accept(outcome: &mut Outcome) -> u32
    ensures { (result ≡ 0) × (outcome.new ≡ record { length = 0; place = 0 }) }
{
    *outcome = Outcome {
        length: 0,
        place: 0,
    };
    OK
}

/// Copies octets to the start of a buffer, if they fit, and reports that.
pub(crate) fn copy_whole(octets: &[u8], buffer: &mut [u8], outcome: &mut Outcome) -> u32
    ensures { CopiesWhole octets.now buffer.old result buffer.new outcome.new }
{
    let length = octets.len();
    *outcome = Outcome { length, place: 0 };
    if buffer.len() < length {
        return number_of(Refusal::NoRoom);
    }
    buffer[..length].copy_from_slice(octets);
    OK
}

/// Copies octets to the start of a buffer, cut to its length, and returns the number copied.
pub(crate) fn write_prefix(octets: &[u8], buffer: &mut [u8]) -> usize
    ensures { WritesPrefix octets.now buffer.old buffer.new result }
{
    let count = octets.len().min(buffer.len());
    buffer[..count].copy_from_slice(&octets[..count]);
    count
}
