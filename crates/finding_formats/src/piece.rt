//! Appends texts that are made of pieces.
ghost use Rattle.std.specs.Prelude.{◌≡◌, ◌++◌, OnErr, OnOk};
ghost use Rattle.std.specs.Fmt.{decimal};
ghost use Rattle.std.specs.List.{flat_map};
ghost use Rattle.dns_octets.specs.Appending.{Extends};
ghost use Rattle.finding_formats.specs.Escape.{escaped};
ghost use Rattle.finding_formats.specs.Pieces.{about_text, number_if, opening_text, piece_text, text_if};

use crate::escape::{Context, push_escaped};
use dns_lexer::position::Position;
use itoa::Buffer;
use std::alloc::{AllocError, Allocator};

/// A piece of a text.
#[derive(Clone, Copy)]
pub(crate) enum Piece<'a> {
    /// Octets that are appended unchanged.
    Plain(&'a [u8]),
    /// Octets that are escaped.
    Text(&'a [u8]),
    /// Octets that are escaped as in another context.
    TextIn(Context, &'a [u8]),
    /// A number in decimal.
    Number(usize),
    /// Octets that are escaped, between a beginning and an end, if there are any.
    TextIf(&'a [u8], Option<&'a [u8]>, &'a [u8]),
    /// A number in decimal after a beginning, if there is one.
    NumberIf(&'a [u8], Option<usize>),
    /// A line and a column, each after a beginning, if there are any.
    Opened(&'a [u8], &'a [u8], Option<Position>),
    /// The owner and the type that a finding is about, before a colon and a blank.
    About(Option<&'a [u8]>, Option<&'a [u8]>),
}

/// Appends octets, and a number after them.
fn push_number<A: Allocator>(
    out: &mut Vec<u8, A>,
    before: &[u8],
    number: usize,
) -> Result<(), AllocError>
    ensures ok { OnOk result (out.new.items ≡ out.old.items ++ before.now ++ decimal number) }
    ensures err { OnErr result (Extends out.old.items out.new.items) }
{
    let mut buffer = Buffer::new();
    out.extend_from_slice(before)?;
    out.extend_from_slice(buffer.format(number).as_bytes())
}

/// Appends octets that are escaped, between a beginning and an end, if there are any.
fn push_text_if<A: Allocator>(
    out: &mut Vec<u8, A>,
    context: Context,
    before: &[u8],
    octets: Option<&[u8]>,
    after: &[u8],
) -> Result<(), AllocError>
    ensures ok { OnOk result (out.new.items
        ≡ out.old.items ++ text_if context before.now octets.entry after.now) }
    ensures err { OnErr result (Extends out.old.items out.new.items) }
{
    match octets {
        Some(octets) => {
            out.extend_from_slice(before)?;
            push_escaped(out, context, octets)?;
            out.extend_from_slice(after)
        }
        None => Ok(()),
    }
}

/// Appends a number after a beginning, if there is one.
fn push_number_if<A: Allocator>(
    out: &mut Vec<u8, A>,
    before: &[u8],
    number: Option<usize>,
) -> Result<(), AllocError>
    ensures ok { OnOk result (out.new.items ≡ out.old.items ++ number_if before.now number) }
    ensures err { OnErr result (Extends out.old.items out.new.items) }
{
    match number {
        Some(number) => push_number(out, before, number),
        None => Ok(()),
    }
}

/// Appends a line and a column, each after a beginning, if there are any.
fn push_opened<A: Allocator>(
    out: &mut Vec<u8, A>,
    before_line: &[u8],
    before_column: &[u8],
    opened: Option<Position>,
) -> Result<(), AllocError>
    ensures ok { OnOk result (out.new.items
        ≡ out.old.items ++ opening_text before_line.now before_column.now opened) }
    ensures err { OnErr result (Extends out.old.items out.new.items) }
{
    match opened {
        Some(position) => {
            push_number(out, before_line, position.line)?;
            push_number(out, before_column, position.column)
        }
        None => Ok(()),
    }
}

/// Appends what a finding is about: `OWNER TYPE: `, `OWNER: `, `TYPE: `, or nothing.
fn push_about<A: Allocator>(
    out: &mut Vec<u8, A>,
    context: Context,
    owner: Option<&[u8]>,
    rtype: Option<&[u8]>,
) -> Result<(), AllocError>
    ensures ok { OnOk result (out.new.items
        ≡ out.old.items ++ about_text context owner.entry rtype.entry) }
    ensures err { OnErr result (Extends out.old.items out.new.items) }
{
    match rtype {
        Some(_) => {
            push_text_if(out, context, b"", owner, b" ")?;
            push_text_if(out, context, b"", rtype, b": ")
        }
        None => push_text_if(out, context, b"", owner, b": "),
    }
}

/// Appends a piece.
fn push_piece<A: Allocator>(
    out: &mut Vec<u8, A>,
    context: Context,
    piece: &Piece<'_>,
) -> Result<(), AllocError>
    ensures ok { OnOk result (out.new.items ≡ out.old.items ++ piece_text context piece.now) }
    ensures err { OnErr result (Extends out.old.items out.new.items) }
{
    match piece {
        Piece::Plain(octets) => out.extend_from_slice(octets),
        Piece::Text(octets) => push_escaped(out, context, octets),
        Piece::TextIn(other, octets) => push_escaped(out, *other, octets),
        Piece::Number(number) => push_number(out, b"", *number),
        Piece::TextIf(before, octets, after) => push_text_if(out, context, before, *octets, after),
        Piece::NumberIf(before, number) => push_number_if(out, before, *number),
        Piece::Opened(line, column, opened) => push_opened(out, line, column, *opened),
        Piece::About(owner, rtype) => push_about(out, context, *owner, *rtype),
    }
}

/// Appends pieces one after another. Text is escaped as in a context, unless a piece has another.
pub(crate) fn push_pieces<A: Allocator>(
    out: &mut Vec<u8, A>,
    context: Context,
    pieces: &[Piece<'_>],
) -> Result<(), AllocError>
    ensures ok { OnOk result (out.new.items
        ≡ out.old.items ++ flat_map (piece_text context) pieces.now) }
    ensures err { OnErr result (Extends out.old.items out.new.items) }
{
    for piece in pieces {
        push_piece(out, context, piece)?;
    }
    Ok(())
}
