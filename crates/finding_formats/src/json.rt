//! Formats findings as JSON objects, one a line (RFC 8259).
ghost use Rattle.std.specs.Prelude.{◌≡◌, ◌++◌, OnErr, OnOk};
ghost use Rattle.dns_octets.specs.Appending.{Extends};
ghost use Rattle.finding_formats.specs.Json.{json_line};

use crate::escape::Context;
use crate::finding::{Finding, code_word, severity_word};
use crate::piece::{Piece, push_pieces};
use std::alloc::{AllocError, Allocator};

/// Appends a finding as a JSON object, and LF.
///
/// Its members are `file`, `line`, `column`, `end_column`, `severity`, `code`, `owner`, `type`,
/// `message` and `help`, and after `end_column` `opened_line`, `opened_column` and `generate`. A
/// member that the finding doesn't have is left out. An octet that is not UTF-8 is `\DDD` in the string that a
/// reader gets ([`Context`]).
///
/// Fails if an allocation fails. The octets before are then unchanged, and some may be appended.
pub fn push_finding<A: Allocator>(
    out: &mut Vec<u8, A>,
    finding: &Finding<'_>,
) -> Result<(), AllocError>
    ensures ok { OnOk result (out.new.items ≡ out.old.items ++ json_line finding.now) }
    ensures err { OnErr result (Extends out.old.items out.new.items) }
{
    let pieces = [
        Piece::Plain(b"{\"file\":\""),
        Piece::Text(finding.file),
        Piece::Plain(b"\",\"line\":"),
        Piece::Number(finding.position.line),
        Piece::Plain(b",\"column\":"),
        Piece::Number(finding.position.column),
        Piece::Plain(b",\"end_column\":"),
        Piece::Number(finding.end_column),
        Piece::Opened(b",\"opened_line\":", b",\"opened_column\":", finding.opened),
        Piece::NumberIf(b",\"generate\":", finding.generate),
        Piece::Plain(b",\"severity\":\""),
        Piece::Plain(severity_word(finding.severity)),
        Piece::Plain(b"\",\"code\":\""),
        Piece::Text(code_word(finding.code)),
        Piece::TextIf(b"\",\"owner\":\"", finding.owner, b""),
        Piece::TextIf(b"\",\"type\":\"", finding.rtype, b""),
        Piece::Plain(b"\",\"message\":\""),
        Piece::Text(finding.message),
        Piece::TextIf(b"\",\"help\":\"", finding.help, b""),
        Piece::Plain(b"\"}\n"),
    ];
    push_pieces(out, Context::Json, &pieces)
}
