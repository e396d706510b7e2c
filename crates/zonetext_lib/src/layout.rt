//! Lays out a zone file with each entry on a separate line.
ghost use Rattle.std.specs.Prelude.{◌≡◌, ◌+◌, ◌++◌, ◌∷◌, [], ◌<◌, ◌^◌, IfErr, OnOk, ◌&&◌, not, length};
ghost use Rattle.zonetext_lib.specs.Found.{IsStop};
ghost use Rattle.zonetext_lib.specs.Layout.{gap_if, gap_octet, LaysOut, feed_if};
ghost use Rattle.zonetext_lib.specs.Writing.{LaysSettled};

use crate::check::locate;
use crate::glue::owes_gap;
use crate::tokens::CommandError;
use dns_lexer::pieces::{Piece, Pieces};
use std::alloc::{AllocError, Allocator};

/// What separates two tokens, and precedes the first of an entry that begins with a blank.
#[derive(Clone, Copy)]
pub enum Gap {
    Space,
    Tab,
}

impl Gap {
    fn octet(self) -> u8
        ensures { result ≡ gap_octet self }
    {
        match self {
            Gap::Space => b' ',
            Gap::Tab => b'\t',
        }
    }
}

/// Appends the end of a line and a gap, each if it is due.
#[inline(always)]
fn push_lead<A: Allocator>(
    out: &mut Vec<u8, A>,
    owes_feed: bool,
    gap: Gap,
    owes_gap: bool,
) -> Result<(), AllocError>
    ensures { OnOk result (out.new.items
        ≡ out.old.items ++ feed_if owes_feed ++ gap_if gap owes_gap) }
{
    if owes_feed {
        out.extend_from_slice(&[b'\n'])?;
    }
    if owes_gap {
        out.extend_from_slice(&[gap.octet()])?;
    }
    Ok(())
}

/// Appends what precedes a token, and the token.
#[inline(always)]
fn push_token<A: Allocator>(
    out: &mut Vec<u8, A>,
    owes_feed: bool,
    gap: Gap,
    owes_gap: bool,
    token: &[u8],
) -> Result<(), AllocError>
    ensures { OnOk result (out.new.items
        ≡ out.old.items ++ feed_if owes_feed ++ gap_if gap owes_gap ++ token.now) }
{
    push_lead(out, owes_feed, gap, owes_gap)?;
    out.extend_from_slice(token)
}

/// Appends the end of a line, after a gap if a blank is all that the entry has.
fn push_end<A: Allocator>(
    out: &mut Vec<u8, A>,
    gap: Gap,
    inside: bool,
    begins_blank: bool,
) -> Result<(), AllocError>
    ensures { OnOk result (out.new.items
        ≡ out.old.items ++ gap_if gap (not inside && begins_blank) ++ 10 ∷ []) }
{
    if !inside && begins_blank {
        out.extend_from_slice(&[gap.octet()])?;
    }
    out.extend_from_slice(b"\n")
}

/// Appends each entry as a line: its tokens separated by gaps, without comments, and after a gap if
/// the entry begins with a blank. A token that is adjacent to the one before it stays adjacent, as
/// in `alpn="h2,h3"` (RFC 9460).
///
/// A line end separates two entries and none follows the last, so that the entries stay the same:
/// if the octets end with a line end, the output does. `lines_before` is the number of lines before
/// the octets, which the positions of an error include. After an error `out` has more octets, which
/// are unspecified.
pub fn lay_out<A: Allocator>(
    octets: &[u8],
    lines_before: usize,
    gap: Gap,
    out: &mut Vec<u8, A>,
) -> Result<(), CommandError>
    requires { lines_before + length octets.now + 2 < 2 ^ 64 }
    ensures lines { LaysOut octets.now gap out.old.items out.new.items result }
    ensures bad { IfErr result (IsStop octets.now lines_before) }
{
    let mut pieces = Pieces::of_octets(octets);
    let mut owes_feed = false;
    let mut ended = None;
    while let Some(piece) = pieces.next() {
        match piece {
            Ok(Piece::Word(span)) => {
                let leads = pieces.begins_blank();
                let apart = owes_gap(ended, span.start, leads);
                let word = span.of_octets(octets);
                push_token(out, owes_feed, gap, apart, word)?;
                owes_feed = false;
                ended = Some(span.end);
            }
            Ok(Piece::Quote(span)) => {
                let begins = pieces.begins_blank();
                let apart = owes_gap(ended, span.start, begins);
                let quote = span.of_octets(octets);
                push_token(out, owes_feed, gap, apart, quote)?;
                owes_feed = false;
                ended = Some(span.end);
            }
            Ok(Piece::Comment(_)) => {}
            Ok(Piece::End(end)) => {
                push_lead(out, owes_feed, gap, ended.is_none() && end.begins_blank)?;
                owes_feed = true;
                ended = None;
            }
            Err(fault) => return Err(CommandError::Wrong(locate(octets, lines_before, fault))),
        }
    }
    Ok(())
}

/// Appends as lines the entries up to the end of the last one that is the same whatever follows,
/// and returns the offset of that end, or 0. Appends nothing if the octets have a syntax error
/// whatever follows.
pub(crate) fn lay_out_settled<A: Allocator>(
    octets: &[u8],
    gap: Gap,
    out: &mut Vec<u8, A>,
) -> Result<Option<usize>, AllocError>
    ensures { LaysSettled octets.now gap out.old.items out.new.items result }
{
    let kept = out.len();
    let mut pieces = Pieces::of_octets(octets);
    let mut ended = None;
    let (mut before, mut last) = (0, 0);
    let (mut made_before, mut made) = (kept, kept);
    while let Some(piece) = pieces.next() {
        match piece {
            Ok(Piece::Word(span)) => {
                let leads = pieces.begins_blank();
                let apart = owes_gap(ended, span.start, leads);
                push_token(out, false, gap, apart, span.of_octets(octets))?;
                ended = Some(span.end);
            }
            Ok(Piece::Quote(span)) => {
                let leads = pieces.begins_blank();
                let apart = owes_gap(ended, span.start, leads);
                push_token(out, false, gap, apart, span.of_octets(octets))?;
                ended = Some(span.end);
            }
            Ok(Piece::Comment(_)) => {}
            Ok(Piece::End(end)) => {
                push_end(out, gap, ended.is_some(), end.begins_blank)?;
                ended = None;
                before = last;
                made_before = made;
                last = end.at;
                made = out.len();
            }
            Err(fault) => {
                if fault.needs_more(octets) {
                    out.truncate(made);
                    return Ok(Some(last));
                }
                out.truncate(kept);
                return Ok(None);
            }
        }
    }
    out.truncate(made_before);
    Ok(Some(before))
}
