//! Formats findings as a Checkstyle report, version 4.3 (XML 1.0).
//!
//! A report is its start, the findings, the end of the element of the last file, and the end.
ghost use Rattle.std.specs.Prelude.{◌≡◌, ◌++◌, OnErr, OnOk};
ghost use Rattle.dns_octets.specs.Appending.{Extends};
ghost use Rattle.finding_formats.specs.Checkstyle.{checkstyle_end, checkstyle_error, checkstyle_file, checkstyle_start, checkstyle_step, file_change, file_end};

use crate::escape::Context;
use crate::finding::{Finding, code_word, severity_word};
use crate::piece::{Piece, push_pieces};
use std::alloc::{AllocError, Allocator};

/// Appends the start of a report.
///
/// Fails if an allocation fails. Nothing is then appended.
pub fn push_start<A: Allocator>(out: &mut Vec<u8, A>) -> Result<(), AllocError>
    ensures ok { OnOk result (out.new.items ≡ out.old.items ++ checkstyle_start) }
    ensures err { OnErr result (Extends out.old.items out.new.items) }
{
    out.extend_from_slice(
        b"<?xml version=\"1.0\" encoding=\"UTF-8\"?>\n<checkstyle version=\"4.3\">\n",
    )
}

/// Appends the end of the element of a file.
///
/// Fails if an allocation fails. Nothing is then appended.
pub fn push_file_end<A: Allocator>(out: &mut Vec<u8, A>) -> Result<(), AllocError>
    ensures ok { OnOk result (out.new.items ≡ out.old.items ++ file_end) }
    ensures err { OnErr result (Extends out.old.items out.new.items) }
{
    out.extend_from_slice(b"</file>\n")
}

/// Appends the start of the element of a file.
fn push_file<A: Allocator>(out: &mut Vec<u8, A>, file: &[u8]) -> Result<(), AllocError>
    ensures ok { OnOk result (out.new.items ≡ out.old.items ++ checkstyle_file file.now) }
    ensures err { OnErr result (Extends out.old.items out.new.items) }
{
    let pieces = [
        Piece::Plain(b"<file name=\""),
        Piece::Text(file),
        Piece::Plain(b"\">\n"),
    ];
    push_pieces(out, Context::Xml, &pieces)
}

/// Appends the end of the element of a file, if it is open, and the start of another's, unless they
/// are the same.
fn push_file_change<A: Allocator>(
    out: &mut Vec<u8, A>,
    before: Option<&[u8]>,
    file: &[u8],
) -> Result<(), AllocError>
    ensures ok { OnOk result (out.new.items ≡ out.old.items ++ file_change before.entry file.now) }
    ensures err { OnErr result (Extends out.old.items out.new.items) }
{
    match before {
        Some(before) if before == file => Ok(()),
        Some(_) => {
            push_file_end(out)?;
            push_file(out, file)
        }
        None => push_file(out, file),
    }
}

/// Appends the element of a finding, in that of its file.
fn push_error<A: Allocator>(out: &mut Vec<u8, A>, finding: &Finding<'_>) -> Result<(), AllocError>
    ensures ok { OnOk result (out.new.items ≡ out.old.items ++ checkstyle_error finding.now) }
    ensures err { OnErr result (Extends out.old.items out.new.items) }
{
    let pieces = [
        Piece::Plain(b"<error line=\""),
        Piece::Number(finding.position.line),
        Piece::Plain(b"\" column=\""),
        Piece::Number(finding.position.column),
        Piece::Plain(b"\" severity=\""),
        Piece::Plain(severity_word(finding.severity)),
        Piece::Plain(b"\" message=\""),
        Piece::About(finding.owner, finding.rtype),
        Piece::Text(finding.message),
        Piece::Opened(b", opened at ", b":", finding.opened),
        Piece::TextIf(b"&#10;help: ", finding.help, b""),
        Piece::Plain(b"\" source=\""),
        Piece::Text(code_word(finding.code)),
        Piece::Plain(b"\"/>\n"),
    ];
    push_pieces(out, Context::Xml, &pieces)
}

/// Appends a finding. `before` is the file of the finding before, if its element is open.
///
/// If the finding is in another file, that element ends, and its own begins.
///
/// Fails if an allocation fails. The octets before are then unchanged, and some may be appended.
pub fn push_finding<A: Allocator>(
    out: &mut Vec<u8, A>,
    before: Option<&[u8]>,
    finding: &Finding<'_>,
) -> Result<(), AllocError>
    ensures ok { OnOk result (out.new.items
        ≡ out.old.items ++ checkstyle_step before.entry finding.now) }
    ensures err { OnErr result (Extends out.old.items out.new.items) }
{
    push_file_change(out, before, finding.file)?;
    push_error(out, finding)
}

/// Appends the end of a report, in which no element of a file is open.
///
/// Fails if an allocation fails. Nothing is then appended.
pub fn push_end<A: Allocator>(out: &mut Vec<u8, A>) -> Result<(), AllocError>
    ensures ok { OnOk result (out.new.items ≡ out.old.items ++ checkstyle_end) }
    ensures err { OnErr result (Extends out.old.items out.new.items) }
{
    out.extend_from_slice(b"</checkstyle>\n")
}
