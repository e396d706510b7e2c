//! Formats findings as workflow commands of GitHub Actions, which shows them beside the file.
ghost use Rattle.std.specs.Prelude.{◌≡◌, ◌++◌, OnErr, OnOk};
ghost use Rattle.dns_octets.specs.Appending.{Extends};
ghost use Rattle.finding_formats.specs.Github.{github_line};

use crate::escape::Context;
use crate::finding::{Finding, code_word, severity_word};
use crate::piece::{Piece, push_pieces};
use std::alloc::{AllocError, Allocator};

/// Appends a finding as the line `::error file=..,line=..,col=..,endColumn=..,title=CODE::TEXT`.
///
/// The text is the owner and the type, the message, and where something was opened. The help is a
/// second line of it, after `%0A`. Percent signs, CR and LF are escaped, in a property colons and
/// commas too.
///
/// Fails if an allocation fails. The octets before are then unchanged, and some may be appended.
pub fn push_finding<A: Allocator>(
    out: &mut Vec<u8, A>,
    finding: &Finding<'_>,
) -> Result<(), AllocError>
    ensures ok { OnOk result (out.new.items ≡ out.old.items ++ github_line finding.now) }
    ensures err { OnErr result (Extends out.old.items out.new.items) }
{
    let pieces = [
        Piece::Plain(b"::"),
        Piece::Plain(severity_word(finding.severity)),
        Piece::Plain(b" file="),
        Piece::TextIn(Context::GithubProperty, finding.file),
        Piece::Plain(b",line="),
        Piece::Number(finding.position.line),
        Piece::Plain(b",col="),
        Piece::Number(finding.position.column),
        Piece::Plain(b",endColumn="),
        Piece::Number(finding.end_column),
        Piece::Plain(b",title="),
        Piece::TextIn(Context::GithubProperty, code_word(finding.code)),
        Piece::Plain(b"::"),
        Piece::About(finding.owner, finding.rtype),
        Piece::Text(finding.message),
        Piece::Opened(b", opened at ", b":", finding.opened),
        Piece::TextIf(b"%0Ahelp: ", finding.help, b""),
        Piece::Plain(b"\n"),
    ];
    push_pieces(out, Context::Github, &pieces)
}
