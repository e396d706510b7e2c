//! Escapes octets as text formats require.
ghost use Rattle.std.specs.Prelude.{◌≡◌, ◌++◌, ◌<◌, OnErr, OnOk};
ghost use Rattle.std.specs.Fmt.{digit_glyph};
ghost use Rattle.std.specs.Str.{is_utf8};
ghost use Rattle.dns_octets.specs.Appending.{Extends};
ghost use Rattle.finding_formats.specs.Escape.{begins_noncharacter, decimal_escape, escaped, escaped_octet, github_octet, has_noncharacter, is_text_octet, is_uri_octet, json_string_octet, keeps_high, percent_escape, shown_or_escaped, uri_octet, xml_octet};

use std::alloc::{AllocError, Allocator};

/// A part of a text format, which determines how octets are escaped in it.
///
/// In all of them but `Uri` a text keeps its octets from 0x80 on if it is UTF-8 without the
/// noncharacters U+FFFE and U+FFFF. In any other text each of them is written as `\DDD`, as in the
/// presentation format of DNS (RFC 1035 section 5.1).
#[derive(Clone, Copy)]
pub enum Context {
    /// A JSON string, between its double quotes (RFC 8259 section 7).
    Json,
    /// Text or an attribute of XML 1.0, between double quotes. Control octets but TAB, LF and CR,
    /// which XML can't have, are written as `\DDD`.
    Xml,
    /// The message of a workflow command of GitHub Actions. Control octets but LF and CR are
    /// written as `\DDD`.
    Github,
    /// The value of a property of such a command.
    GithubProperty,
    /// A path in a URI reference (RFC 3986 section 3.3), in which colons are escaped too.
    Uri,
}

/// Returns the hexadecimal digit of a value.
pub(crate) fn hex_digit(is_upper: bool, value: u8) -> u8
    requires { value < 16 }
    ensures { result ≡ digit_glyph is_upper value }
{
    if value < 10 {
        b'0' + value
    } else if is_upper {
        b'A' + (value - 10)
    } else {
        b'a' + (value - 10)
    }
}

/// Returns an octet as a backslash and three decimal digits.
fn decimal_escape(octet: u8) -> [u8; 4]
    ensures { result ≡ decimal_escape octet }
{
    let (hundreds, tens, ones) = (octet / 100 % 10, octet / 10 % 10, octet % 10);
    [b'\\', b'0' + hundreds, b'0' + tens, b'0' + ones]
}

/// Appends an octet as a percent sign and two hexadecimal digits.
fn push_percent<A: Allocator>(out: &mut Vec<u8, A>, octet: u8) -> Result<(), AllocError>
    ensures ok { OnOk result (out.new.items ≡ out.old.items ++ percent_escape octet) }
    ensures err { OnErr result (out.new.items ≡ out.old.items) }
{
    let (high, low) = (
        hex_digit(true, octet / 16 % 16),
        hex_digit(true, octet % 16),
    );
    out.extend_from_slice(&[b'%', high, low])
}

/// Returns whether an octet is not a control octet, and below 0x80 unless such octets are kept.
fn is_text_octet(keeps_high: bool, octet: u8) -> bool
    ensures { result ≡ is_text_octet keeps_high octet }
{
    octet >= 0x20 && octet != 0x7F && (octet < 0x80 || keeps_high)
}

/// Appends an octet unchanged, or as `\DDD` if it is a control octet or can't be kept.
fn push_shown<A: Allocator>(
    out: &mut Vec<u8, A>,
    keeps_high: bool,
    octet: u8,
) -> Result<(), AllocError>
    ensures ok { OnOk result (out.new.items ≡ out.old.items ++ shown_or_escaped keeps_high octet) }
    ensures err { OnErr result (out.new.items ≡ out.old.items) }
{
    if is_text_octet(keeps_high, octet) {
        out.extend_from_slice(&[octet])
    } else {
        out.extend_from_slice(&decimal_escape(octet))
    }
}

/// Appends an octet of a JSON string.
fn push_json<A: Allocator>(
    out: &mut Vec<u8, A>,
    keeps_high: bool,
    octet: u8,
) -> Result<(), AllocError>
    ensures ok { OnOk result (out.new.items ≡ out.old.items ++ json_string_octet keeps_high octet) }
    ensures err { OnErr result (out.new.items ≡ out.old.items) }
{
    if octet == b'"' || octet == b'\\' {
        out.extend_from_slice(&[b'\\', octet])
    } else if is_text_octet(keeps_high, octet) {
        out.extend_from_slice(&[octet])
    } else if octet < 0x80 {
        let (high, low) = (
            hex_digit(false, octet / 16 % 16),
            hex_digit(false, octet % 16),
        );
        out.extend_from_slice(&[b'\\', b'u', b'0', b'0', high, low])
    } else {
        let [backslash, hundreds, tens, ones] = decimal_escape(octet);
        out.extend_from_slice(&[b'\\', backslash, hundreds, tens, ones])
    }
}

/// Appends an octet of XML.
fn push_xml<A: Allocator>(
    out: &mut Vec<u8, A>,
    keeps_high: bool,
    octet: u8,
) -> Result<(), AllocError>
    ensures ok { OnOk result (out.new.items ≡ out.old.items ++ xml_octet keeps_high octet) }
    ensures err { OnErr result (out.new.items ≡ out.old.items) }
{
    match octet {
        b'&' => out.extend_from_slice(b"&amp;"),
        b'<' => out.extend_from_slice(b"&lt;"),
        b'>' => out.extend_from_slice(b"&gt;"),
        b'"' => out.extend_from_slice(b"&quot;"),
        b'\t' => out.extend_from_slice(b"&#9;"),
        b'\n' => out.extend_from_slice(b"&#10;"),
        b'\r' => out.extend_from_slice(b"&#13;"),
        _ => push_shown(out, keeps_high, octet),
    }
}

/// Appends an octet of a workflow command: of a property, or of the message.
fn push_github<A: Allocator>(
    out: &mut Vec<u8, A>,
    is_property: bool,
    keeps_high: bool,
    octet: u8,
) -> Result<(), AllocError>
    ensures ok { OnOk result (out.new.items
        ≡ out.old.items ++ github_octet is_property keeps_high octet) }
    ensures err { OnErr result (out.new.items ≡ out.old.items) }
{
    if octet == b'%' || octet == b'\r' || octet == b'\n' {
        return push_percent(out, octet);
    }
    if is_property && (octet == b':' || octet == b',') {
        return push_percent(out, octet);
    }
    push_shown(out, keeps_high, octet)
}

/// Returns whether an octet is unchanged in a path of a URI.
fn is_uri_octet(octet: u8) -> bool
    ensures { result ≡ is_uri_octet octet }
{
    octet.is_ascii_alphanumeric() || matches!(octet, b'-' | b'.' | b'/' | b'_' | b'~')
}

/// Appends an octet of a path of a URI.
fn push_uri<A: Allocator>(out: &mut Vec<u8, A>, octet: u8) -> Result<(), AllocError>
    ensures ok { OnOk result (out.new.items ≡ out.old.items ++ uri_octet octet) }
    ensures err { OnErr result (out.new.items ≡ out.old.items) }
{
    if is_uri_octet(octet) {
        out.extend_from_slice(&[octet])
    } else {
        push_percent(out, octet)
    }
}

/// Appends an octet as it is escaped.
fn push_octet<A: Allocator>(
    out: &mut Vec<u8, A>,
    context: Context,
    keeps_high: bool,
    octet: u8,
) -> Result<(), AllocError>
    ensures ok { OnOk result (out.new.items
        ≡ out.old.items ++ escaped_octet context keeps_high octet) }
    ensures err { OnErr result (out.new.items ≡ out.old.items) }
{
    match context {
        Context::Json => push_json(out, keeps_high, octet),
        Context::Xml => push_xml(out, keeps_high, octet),
        Context::Github => push_github(out, false, keeps_high, octet),
        Context::GithubProperty => push_github(out, true, keeps_high, octet),
        Context::Uri => push_uri(out, octet),
    }
}

/// Returns whether octets in UTF-8 begin with a noncharacter U+FFFE or U+FFFF.
fn begins_noncharacter(octets: &[u8]) -> bool
    ensures { result ≡ begins_noncharacter octets.now }
{
    match octets {
        [first, second, third, ..] => *first == 0xEF && *second == 0xBF && *third >= 0xBE,
        _ => false,
    }
}

/// Returns whether octets in UTF-8 have a noncharacter U+FFFE or U+FFFF, which XML 1.0 can't have.
fn has_noncharacter(octets: &[u8]) -> bool
    ensures { result ≡ has_noncharacter octets.now }
{
    let mut has_noncharacter = false;
    let mut at = octets.len();
    while at > 0 {
        at -= 1;
        has_noncharacter = has_noncharacter || begins_noncharacter(&octets[at..]);
    }
    has_noncharacter
}

/// Returns whether octets are UTF-8.
fn is_utf8(octets: &[u8]) -> bool
    ensures { result ≡ is_utf8 octets.now }
{
    match str::from_utf8(octets) {
        Ok(_) => true,
        Err(_) => false,
    }
}

/// Returns whether a text keeps its octets from 0x80 on: it is UTF-8, without U+FFFE and U+FFFF.
fn keeps_high(octets: &[u8]) -> bool
    ensures { result ≡ keeps_high octets.now }
{
    is_utf8(octets) && !has_noncharacter(octets)
}

/// Appends octets as they are escaped in a context.
///
/// Fails if an allocation fails. The octets before are then unchanged, and some may be appended.
pub fn push_escaped<A: Allocator>(
    out: &mut Vec<u8, A>,
    context: Context,
    octets: &[u8],
) -> Result<(), AllocError>
    ensures ok { OnOk result (out.new.items ≡ out.old.items ++ escaped context octets.now) }
    ensures err { OnErr result (Extends out.old.items out.new.items) }
{
    let is_kept = keeps_high(octets);
    for octet in octets {
        push_octet(out, context, is_kept, *octet)?;
    }
    Ok(())
}
