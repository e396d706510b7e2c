//! Writes a row for each token.
ghost use Rattle.std.specs.Prelude.{◌≡◌, ◌+◌, ◌++◌, ◌<◌, ◌^◌, IfOk, IfErr, OnOk, length};
ghost use Rattle.zonetext_lib.specs.Found.{IsStop, IsZone};
ghost use Rattle.zonetext_lib.specs.Tokens.{form_head, glued_member, plain_kind, token_row, HasRows};

use crate::check::{Found, locate};
use crate::glue::is_adjacent;
use dns_lexer::pieces::{Piece, Pieces};
use dns_lexer::position::Position;
use finding_codes::push::{push_number, push_text};
use finding_formats::octets::push_string;
use std::alloc::{AllocError, Allocator};
use zone_format::place::{LocatedOffset, move_to, position_after};

/// The format of a row.
#[derive(Clone, Copy)]
pub enum Form {
    /// `LINE:COLUMN`, the kind and the token, separated by tabs; the kind of a token that is
    /// adjacent to the one before it has the prefix `glued-`.
    Plain,
    /// A JSON object with the members `line`, `column`, `kind`, `glued` and `token`.
    Json,
}

/// The reason why a command stopped.
#[derive(Clone, Copy)]
pub enum CommandError {
    /// The octets aren't of the grammar of zone files.
    Wrong(Found),
    /// An allocation failed.
    OutOfMemory,
}

impl From<AllocError> for CommandError {
    ghost use Rattle.zonetext_lib.specs.declared.tokens.CommandError.TheVariants.{OutOfMemory};

    ghost from_gives = { λ _ e. e ≡ OutOfMemory };

    fn from(_error: AllocError) -> CommandError {
        CommandError::OutOfMemory
    }
}

/// Appends a tab and a token's kind.
fn push_kind<A: Allocator>(out: &mut Vec<u8, A>, kind: &str, glued: bool) -> Result<(), AllocError>
    ensures { OnOk result (out.new.items ≡ out.old.items ++ plain_kind glued kind.now) }
{
    if glued {
        push_text(out, b"\tglued-", kind)
    } else {
        push_text(out, b"\t", kind)
    }
}

/// Appends the member `glued`, up to where the token begins.
fn push_glued<A: Allocator>(out: &mut Vec<u8, A>, glued: bool) -> Result<(), AllocError>
    ensures { OnOk result (out.new.items ≡ out.old.items ++ glued_member glued) }
{
    if glued {
        out.extend_from_slice(b"\",\"glued\":true,\"token\":\"")
    } else {
        out.extend_from_slice(b"\",\"glued\":false,\"token\":\"")
    }
}

/// Appends the part of a row before the token.
fn push_head<A: Allocator>(
    out: &mut Vec<u8, A>,
    form: Form,
    at: Position,
    kind: &str,
    glued: bool,
) -> Result<(), AllocError>
    ensures { OnOk result (out.new.items
        ≡ out.old.items ++ form_head form at.line at.column kind.now glued) }
{
    let Position { line, column } = at;
    match form {
        Form::Plain => {
            push_number(out, b"", line)?;
            push_number(out, b":", column)?;
            push_kind(out, kind, glued)?;
            out.extend_from_slice(b"\t")
        }
        Form::Json => {
            push_number(out, b"{\"line\":", line)?;
            push_number(out, b",\"column\":", column)?;
            push_text(out, b",\"kind\":\"", kind)?;
            push_glued(out, glued)
        }
    }
}

/// Appends a token's row.
fn push_row<A: Allocator>(
    out: &mut Vec<u8, A>,
    form: Form,
    at: Position,
    kind: &str,
    glued: bool,
    token: &[u8],
) -> Result<(), AllocError>
    ensures { OnOk result (out.new.items
        ≡ out.old.items ++ token_row form at.line at.column kind.now glued token.now) }
{
    push_head(out, form, at, kind, glued)?;
    match form {
        Form::Plain => {
            out.extend_from_slice(token)?;
            out.extend_from_slice(b"\n")
        }
        Form::Json => {
            push_string(out, token)?;
            out.extend_from_slice(b"\"}\n")
        }
    }
}

/// Appends a row for each word and quoted string: its position, its kind, whether it is adjacent to
/// the token before it, and its octets.
///
/// `lines_before` is the number of lines before the octets. If the octets aren't of the grammar,
/// `out` has the rows of the tokens that were settled before the error. If an allocation fails, it
/// has a prefix of the rows.
pub fn tokens<A: Allocator>(
    octets: &[u8],
    lines_before: usize,
    form: Form,
    out: &mut Vec<u8, A>,
) -> Result<(), CommandError>
    requires { lines_before + length octets.now + 2 < 2 ^ 64 }
    ensures rows { HasRows octets.now lines_before form out.old.items out.new.items result }
    ensures well { IfOk result (λ _. IsZone octets.now) }
    ensures bad { IfErr result (IsStop octets.now lines_before) }
{
    let mut place = LocatedOffset {
        at: 0,
        position: position_after(lines_before, &[]),
    };
    let mut ended = None;
    for piece in Pieces::of_octets(octets) {
        match piece {
            Ok(Piece::Word(span)) => {
                place = move_to(octets, lines_before, place, span.start);
                let glued = is_adjacent(ended, span.start);
                let word = span.of_octets(octets);
                push_row(out, form, place.position, "word", glued, word)?;
                ended = Some(span.end);
            }
            Ok(Piece::Quote(span)) => {
                place = move_to(octets, lines_before, place, span.start);
                let glued = is_adjacent(ended, span.start);
                let quote = span.of_octets(octets);
                push_row(out, form, place.position, "quoted", glued, quote)?;
                ended = Some(span.end);
            }
            Ok(Piece::Comment(_)) => {}
            Ok(Piece::End(_)) => ended = None,
            Err(fault) => return Err(CommandError::Wrong(locate(octets, lines_before, fault))),
        }
    }
    Ok(())
}
