//! Formats DNS records, and digests and serials of zones, as JSON objects, one a line (RFC 8259).
ghost use Rattle.std.specs.Prelude.{◌≡◌, ◌++◌, OnErr, OnOk};
ghost use Rattle.dns_octets.specs.Appending.{Extends};
ghost use Rattle.finding_formats.specs.RecordJson.{digest_object, record_object, serial_object};

use crate::escape::Context;
use crate::piece::{Piece, push_pieces};
use std::alloc::{AllocError, Allocator};

/// A record, with its fields in presentation format.
#[derive(Clone, Copy)]
pub struct RecordFields<'a> {
    /// How the record changed, such as `add`, if it is one of a comparison.
    pub change: Option<&'a [u8]>,
    pub owner: &'a [u8],
    /// TTL in seconds.
    pub ttl: usize,
    pub class: &'a [u8],
    pub rtype: &'a [u8],
    /// RDATA.
    pub rdata: &'a [u8],
    /// Name of the file of the record, if it is known.
    pub file: Option<&'a [u8]>,
    /// Line of its type, counted from 1, if it is known.
    pub line: Option<usize>,
}

/// Appends a record as a JSON object, and LF.
///
/// Its members are `change`, `owner`, `ttl`, `class`, `type`, `data`, `file` and `line`. A member
/// that the record doesn't have is left out.
///
/// Fails if an allocation fails. The octets before are then unchanged, and some may be appended.
pub fn push_fields<A: Allocator>(
    out: &mut Vec<u8, A>,
    fields: &RecordFields<'_>,
) -> Result<(), AllocError>
    ensures ok { OnOk result (out.new.items ≡ out.old.items ++ record_object fields.now) }
    ensures err { OnErr result (Extends out.old.items out.new.items) }
{
    let pieces = [
        Piece::Plain(b"{"),
        Piece::TextIf(b"\"change\":\"", fields.change, b"\","),
        Piece::Plain(b"\"owner\":\""),
        Piece::Text(fields.owner),
        Piece::Plain(b"\",\"ttl\":"),
        Piece::Number(fields.ttl),
        Piece::Plain(b",\"class\":\""),
        Piece::Text(fields.class),
        Piece::Plain(b"\",\"type\":\""),
        Piece::Text(fields.rtype),
        Piece::Plain(b"\",\"data\":\""),
        Piece::Text(fields.rdata),
        Piece::Plain(b"\""),
        Piece::TextIf(b",\"file\":\"", fields.file, b"\""),
        Piece::NumberIf(b",\"line\":", fields.line),
        Piece::Plain(b"}\n"),
    ];
    push_pieces(out, Context::Json, &pieces)
}

/// A digest of a zone, and whether it is that of the zone's records (RFC 8976).
#[derive(Clone, Copy)]
pub struct DigestFields<'a> {
    /// Name of the zone file.
    pub file: &'a [u8],
    /// Serial of the ZONEMD.
    pub serial: usize,
    /// Number of its scheme.
    pub scheme: usize,
    /// Number of its hash algorithm.
    pub hash: usize,
    /// Whether the digest matches, or why not, in words.
    pub verdict: &'a [u8],
}

/// Appends a digest as a JSON object, and LF.
///
/// Its members are `file`, `serial`, `scheme`, `hash` and `verdict`.
///
/// Fails if an allocation fails. The octets before are then unchanged, and some may be appended.
pub fn push_digest<A: Allocator>(
    out: &mut Vec<u8, A>,
    fields: &DigestFields<'_>,
) -> Result<(), AllocError>
    ensures ok { OnOk result (out.new.items ≡ out.old.items ++ digest_object fields.now) }
    ensures err { OnErr result (Extends out.old.items out.new.items) }
{
    let pieces = [
        Piece::Plain(b"{\"file\":\""),
        Piece::Text(fields.file),
        Piece::Plain(b"\",\"serial\":"),
        Piece::Number(fields.serial),
        Piece::Plain(b",\"scheme\":"),
        Piece::Number(fields.scheme),
        Piece::Plain(b",\"hash\":"),
        Piece::Number(fields.hash),
        Piece::Plain(b",\"verdict\":\""),
        Piece::Text(fields.verdict),
        Piece::Plain(b"\"}\n"),
    ];
    push_pieces(out, Context::Json, &pieces)
}

/// The serial of a zone, and the one that replaced it.
#[derive(Clone, Copy)]
pub struct SerialFields<'a> {
    /// Name of the zone file.
    pub file: &'a [u8],
    /// Name of the zone, in presentation format.
    pub zone: &'a [u8],
    /// Serial in the file, or before it was replaced.
    pub old: usize,
    /// New serial, if it was replaced.
    pub new: Option<usize>,
}

/// Appends a serial as a JSON object, and LF.
///
/// Its members are `file`, `zone`, `old` and `new`. A serial that was not replaced has no `new`.
///
/// Fails if an allocation fails. The octets before are then unchanged, and some may be appended.
pub fn push_serial<A: Allocator>(
    out: &mut Vec<u8, A>,
    fields: &SerialFields<'_>,
) -> Result<(), AllocError>
    ensures ok { OnOk result (out.new.items ≡ out.old.items ++ serial_object fields.now) }
    ensures err { OnErr result (Extends out.old.items out.new.items) }
{
    let pieces = [
        Piece::Plain(b"{\"file\":\""),
        Piece::Text(fields.file),
        Piece::Plain(b"\",\"zone\":\""),
        Piece::Text(fields.zone),
        Piece::Plain(b"\",\"old\":"),
        Piece::Number(fields.old),
        Piece::NumberIf(b",\"new\":", fields.new),
        Piece::Plain(b"}\n"),
    ];
    push_pieces(out, Context::Json, &pieces)
}
