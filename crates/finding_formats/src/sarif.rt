//! Formats findings as a log of the Static Analysis Results Interchange Format (SARIF) 2.1.0.
//!
//! A log is its start, the rules, the start of its results, the results and its end.
ghost use Rattle.std.specs.Prelude.{◌≡◌, ◌++◌, OnErr, OnOk};
ghost use Rattle.dns_octets.specs.Appending.{Extends};
ghost use Rattle.finding_formats.specs.Sarif.{sarif_end, sarif_result, sarif_results, sarif_rule, sarif_start, separator};

use crate::escape::Context;
use crate::finding::{Finding, code_word, severity_word};
use crate::piece::{Piece, push_pieces};
use finding_codes::code::{Code, Severity};
use std::alloc::{AllocError, Allocator};

/// The program that found something.
#[derive(Clone, Copy)]
pub struct Tool<'a> {
    pub name: &'a [u8],
    pub version: &'a [u8],
}

/// A kind of finding.
#[derive(Clone, Copy)]
pub struct Rule<'a> {
    pub code: Code,
    /// Severity of such a finding, unless an option changes it.
    pub severity: Severity,
    /// What is wrong, in a sentence.
    pub summary: &'a [u8],
    /// What is wrong and what to write instead, in a paragraph.
    pub text: &'a [u8],
}

/// Returns what comes before an element of an array, on a line of its own.
fn separator(is_first: bool) -> &'static [u8]
    ensures { result.now ≡ separator is_first }
{
    if is_first { b"\n" } else { b",\n" }
}

/// Appends the start of a log: its version, and the tool up to its rules.
///
/// Fails if an allocation fails. The octets before are then unchanged, and some may be appended.
pub fn push_start<A: Allocator>(out: &mut Vec<u8, A>, tool: &Tool<'_>) -> Result<(), AllocError>
    ensures ok { OnOk result (out.new.items ≡ out.old.items ++ sarif_start tool.now) }
    ensures err { OnErr result (Extends out.old.items out.new.items) }
{
    let pieces = [
        Piece::Plain(b"{\"$schema\":\"https://json.schemastore.org/sarif-2.1.0.json\","),
        Piece::Plain(b"\"version\":\"2.1.0\",\"runs\":[{\"columnKind\":\"unicodeCodePoints\","),
        Piece::Plain(b"\"tool\":{\"driver\":{\"name\":\""),
        Piece::Text(tool.name),
        Piece::Plain(b"\",\"version\":\""),
        Piece::Text(tool.version),
        Piece::Plain(b"\",\"rules\":["),
    ];
    push_pieces(out, Context::Json, &pieces)
}

/// Appends a rule, which is the first or comes after another.
///
/// Fails if an allocation fails. The octets before are then unchanged, and some may be appended.
pub fn push_rule<A: Allocator>(
    out: &mut Vec<u8, A>,
    is_first: bool,
    rule: &Rule<'_>,
) -> Result<(), AllocError>
    ensures ok { OnOk result (out.new.items ≡ out.old.items ++ sarif_rule is_first rule.now) }
    ensures err { OnErr result (Extends out.old.items out.new.items) }
{
    let pieces = [
        Piece::Plain(separator(is_first)),
        Piece::Plain(b"{\"id\":\""),
        Piece::Text(code_word(rule.code)),
        Piece::Plain(b"\",\"shortDescription\":{\"text\":\""),
        Piece::Text(rule.summary),
        Piece::Plain(b"\"},\"fullDescription\":{\"text\":\""),
        Piece::Text(rule.text),
        Piece::Plain(b"\"},\"defaultConfiguration\":{\"level\":\""),
        Piece::Plain(severity_word(rule.severity)),
        Piece::Plain(b"\"}}"),
    ];
    push_pieces(out, Context::Json, &pieces)
}

/// Appends the end of the rules, and the start of the results.
///
/// Fails if an allocation fails. Nothing is then appended.
pub fn push_results_start<A: Allocator>(out: &mut Vec<u8, A>) -> Result<(), AllocError>
    ensures ok { OnOk result (out.new.items ≡ out.old.items ++ sarif_results) }
    ensures err { OnErr result (Extends out.old.items out.new.items) }
{
    out.extend_from_slice(b"\n]}},\"results\":[")
}

/// Appends a finding, which is the first or comes after another.
///
/// The message is the owner and the type, the message, and where something was opened. The help is
/// a second line of it. The file's name is a URI reference, in which all octets but letters, digits
/// and `-./_~` are percent-encoded.
///
/// Fails if an allocation fails. The octets before are then unchanged, and some may be appended.
pub fn push_finding<A: Allocator>(
    out: &mut Vec<u8, A>,
    is_first: bool,
    finding: &Finding<'_>,
) -> Result<(), AllocError>
    ensures ok { OnOk result (out.new.items ≡ out.old.items ++ sarif_result is_first finding.now) }
    ensures err { OnErr result (Extends out.old.items out.new.items) }
{
    let pieces = [
        Piece::Plain(separator(is_first)),
        Piece::Plain(b"{\"ruleId\":\""),
        Piece::Text(code_word(finding.code)),
        Piece::Plain(b"\",\"level\":\""),
        Piece::Plain(severity_word(finding.severity)),
        Piece::Plain(b"\",\"message\":{\"text\":\""),
        Piece::About(finding.owner, finding.rtype),
        Piece::Text(finding.message),
        Piece::Opened(b", opened at ", b":", finding.opened),
        Piece::TextIf(b"\\nhelp: ", finding.help, b""),
        Piece::Plain(b"\"},\"locations\":[{\"physicalLocation\":{\"artifactLocation\":{\"uri\":\""),
        Piece::TextIn(Context::Uri, finding.file),
        Piece::Plain(b"\"},\"region\":{\"startLine\":"),
        Piece::Number(finding.position.line),
        Piece::Plain(b",\"startColumn\":"),
        Piece::Number(finding.position.column),
        Piece::Plain(b",\"endColumn\":"),
        Piece::Number(finding.end_column),
        Piece::Plain(b"}}}]}"),
    ];
    push_pieces(out, Context::Json, &pieces)
}

/// Appends the end of a log.
///
/// Fails if an allocation fails. Nothing is then appended.
pub fn push_end<A: Allocator>(out: &mut Vec<u8, A>) -> Result<(), AllocError>
    ensures ok { OnOk result (out.new.items ≡ out.old.items ++ sarif_end) }
    ensures err { OnErr result (Extends out.old.items out.new.items) }
{
    out.extend_from_slice(b"\n]}]}\n")
}
