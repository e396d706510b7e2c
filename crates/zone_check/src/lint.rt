//! Checks the octets of a zone file, without its records.
ghost use Rattle.std.specs.Prelude.{◌≡◌, ◌+◌, ◌++◌, ◌<◌, ◌≤◌, ◌^◌, IfOk, IfSome, OnOk, length, Ok};
ghost use Rattle.std.specs.List.{position};
ghost use Rattle.std.specs.Option.{ForSome};
ghost use Rattle.dns_lexer.specs.Pieces.{IsWithin, piece_start};
ghost use Rattle.zone_check.specs.Lint.{adjacent_remarks, beginning_remarks, code_of_first, open_after, depth_by, is_high, is_nul};
ghost use Rattle.zone_check.specs.Lint.{is_token_piece, is_unusual_control, is_return, nested_remarks, opens_inside, piece_end};
ghost use Rattle.zone_check.specs.Lint.{piece_remarks, remarks_at, token_remarks};
ghost use Rattle.zone_check.specs.Lint.{Shows, ShowsBlock, ShowsPieces, unended};

use dns_lexer::pieces::{Piece, Pieces};
use finding_codes::code::Code;
use std::alloc::{AllocError, Allocator};

/// A finding at an offset of octets.
#[derive(Clone, Copy)]
pub struct Remark {
    pub at: usize,
    pub code: Code,
}

/// A part of a file that is checked.
#[derive(Clone, Copy)]
pub struct Block {
    /// Whether it is the last part.
    pub is_last: bool,
    /// Whether a line end of CR LF is reported: this is done once a file.
    pub reports_crlf: bool,
}

/// Appends a finding at an offset that is counted from another, if there is one.
fn push_at<A: Allocator>(
    found: &mut Vec<Remark, A>,
    from: usize,
    place: Option<usize>,
    code: Code,
) -> Result<(), AllocError>
    requires { ForSome place (λ i. from + i < 2 ^ 64) }
    ensures { OnOk result (found.new.items ≡ found.old.items ++ remarks_at from place code) }
{
    if let Some(place) = place {
        let at = from + place;
        found.push(Remark { at, code })?;
    }
    Ok(())
}

/// Returns whether an octet is a control octet, but neither a tab nor NUL.
fn is_unusual_control(octet: u8) -> bool
    ensures { result ≡ is_unusual_control octet }
{
    octet != 0 && octet != b'\t' && (octet < 0x20 || octet == 0x7F)
}

/// Returns the offset of the first NUL.
fn find_nul(octets: &[u8]) -> Option<usize>
    ensures first { result ≡ position is_nul octets.now }
    ensures within { IfSome result (λ i. i < length octets.now) }
{
    octets.iter().position(|octet| *octet == 0)
}

/// Returns the offset of the first octet of 0x80 or more.
fn find_high(octets: &[u8]) -> Option<usize>
    ensures first { result ≡ position is_high octets.now }
    ensures within { IfSome result (λ i. i < length octets.now) }
{
    octets.iter().position(|octet| *octet >= 0x80)
}

/// Returns the offset of the first control octet other than a tab and NUL.
fn find_control(octets: &[u8]) -> Option<usize>
    ensures first { result ≡ position is_unusual_control octets.now }
    ensures within { IfSome result (λ i. i < length octets.now) }
{
    octets.iter().position(|octet| is_unusual_control(*octet))
}

/// Returns the offset of the first CR.
fn find_return(octets: &[u8]) -> Option<usize>
    ensures first { result ≡ position is_return octets.now }
    ensures within { IfSome result (λ i. i < length octets.now) }
{
    octets.iter().position(|octet| *octet == b'\r')
}

/// Appends the findings of a word or a quoted text that begins at an offset.
fn lint_token<A: Allocator>(
    token: &[u8],
    from: usize,
    found: &mut Vec<Remark, A>,
) -> Result<(), AllocError>
    requires { from + length token.now < 2 ^ 64 }
    ensures { OnOk result (found.new.items ≡ found.old.items ++ token_remarks from token.now) }
{
    push_at(found, from, find_nul(token), Code::Nul)?;
    push_at(found, from, find_high(token), Code::HighOctet)?;
    push_at(found, from, find_control(token), Code::ControlOctet)?;
    Ok(())
}

/// Returns the number of open parentheses after an octet between two pieces.
fn depth_by(depth: usize, octet: u8) -> usize
    requires { depth + 1 < 2 ^ 64 }
    ensures { result ≡ depth_by depth octet }
{
    match octet {
        b'(' => depth + 1,
        b')' => depth.saturating_sub(1),
        _ => depth,
    }
}

/// Returns whether an octet between two pieces opens a parenthesis inside others.
fn opens_inside(depth: usize, octet: u8) -> bool
    ensures { result ≡ opens_inside depth octet }
{
    octet == b'(' && depth > 0
}

/// Appends findings of the parentheses that are opened inside others among octets between two
/// pieces, and returns the number of open parentheses after them.
fn lint_gap<A: Allocator>(
    gap: &[u8],
    from: usize,
    depth: usize,
    found: &mut Vec<Remark, A>,
) -> Result<usize, AllocError>
    requires room { from + length gap.now + 1 < 2 ^ 64 }
    requires deep { depth ≤ from }
    ensures depth { IfOk result (λ d. d ≡ open_after depth gap.now) }
    ensures deep { IfOk result (λ d. d ≤ from + length gap.now) }
    ensures nested { OnOk result (found.new.items ≡ found.old.items ++ nested_remarks depth from gap.now) }
{
    let mut open = depth;
    for (place, octet) in gap.iter().enumerate() {
        if opens_inside(open, *octet) {
            found.push(Remark {
                at: from + place,
                code: Code::NestedParentheses,
            })?;
        }
        open = depth_by(open, *octet);
    }
    Ok(open)
}

/// Returns the code of a finding about the first octet of an entry, if it is one.
fn code_of_first(octet: u8) -> Option<Code>
    ensures { result ≡ code_of_first octet }
{
    match octet {
        0x1A => Some(Code::ControlZ),
        b'(' => Some(Code::LeadingParenthesis),
        _ => None,
    }
}

/// Appends the finding about the first octet of the entry that begins at an offset.
fn lint_beginning<A: Allocator>(
    octets: &[u8],
    at: usize,
    found: &mut Vec<Remark, A>,
) -> Result<(), AllocError>
    ensures { OnOk result (found.new.items ≡ found.old.items ++ beginning_remarks octets.now at) }
{
    let Some(octet) = octets.get(at) else {
        return Ok(());
    };
    if let Some(code) = code_of_first(*octet) {
        found.push(Remark { at, code })?;
    }
    Ok(())
}

/// Returns whether a piece is a token.
fn is_token_piece(piece: Piece) -> bool
    ensures { result ≡ is_token_piece piece }
{
    matches!(piece, Piece::Word(_) | Piece::Quote(_))
}

/// Appends the findings of a piece.
fn lint_piece<A: Allocator>(
    octets: &[u8],
    piece: Piece,
    found: &mut Vec<Remark, A>,
) -> Result<(), AllocError>
    requires within { IsWithin (length octets.now) (Ok piece) }
    ensures { OnOk result (found.new.items ≡ found.old.items ++ piece_remarks octets.now piece) }
{
    match piece {
        Piece::Word(span) => lint_token(span.of_octets(octets), span.start, found),
        Piece::Quote(span) => lint_token(span.of_octets(octets), span.start, found),
        Piece::Comment(_) => Ok(()),
        Piece::End(end) => lint_beginning(octets, end.at, found),
    }
}

/// Returns the offset where a piece begins.
fn piece_start(piece: Piece) -> usize
    ensures { result ≡ piece_start piece }
{
    match piece {
        Piece::Word(span) | Piece::Quote(span) | Piece::Comment(span) => span.start,
        Piece::End(end) => end.at,
    }
}

/// Returns the offset after a piece.
fn piece_end(piece: Piece) -> usize
    ensures { result ≡ piece_end piece }
{
    match piece {
        Piece::Word(span) | Piece::Quote(span) | Piece::Comment(span) => span.end,
        Piece::End(end) => end.at,
    }
}

/// The octets that were checked so far.
#[derive(Clone, Copy)]
struct LintState {
    at: usize,
    /// Number of parentheses that are open there.
    depth: usize,
    /// Whether a token ends there.
    is_after_token: bool,
}

/// Appends the start of a piece, if it is a token that begins where another ends.
fn lint_start<A: Allocator>(
    reached: LintState,
    piece: Piece,
    found: &mut Vec<Remark, A>,
) -> Result<(), AllocError>
    ensures { OnOk result (found.new.items ≡ found.old.items ++ adjacent_remarks reached piece) }
{
    if reached.is_after_token && is_token_piece(piece) && piece_start(piece) == reached.at {
        found.push(Remark {
            at: reached.at,
            code: Code::AdjacentTokens,
        })?;
    }
    Ok(())
}

/// Appends the findings of a piece, and of the octets before it.
fn lint_next<A: Allocator>(
    octets: &[u8],
    reached: LintState,
    piece: Piece,
    found: &mut Vec<Remark, A>,
) -> Result<LintState, AllocError>
    requires room { length octets.now + 1 < 2 ^ 64 }
    requires within { IsWithin (length octets.now) (Ok piece) }
    requires order { reached.at ≤ piece_start piece }
    requires deep { reached.depth ≤ reached.at }
    ensures { IfOk result (Shows octets.now reached piece found.old.items found.new.items) }
{
    let gap = &octets[reached.at..piece_start(piece)];
    let depth = lint_gap(gap, reached.at, reached.depth, found)?;
    lint_start(reached, piece, found)?;
    lint_piece(octets, piece, found)?;
    Ok(LintState {
        at: piece_end(piece),
        depth,
        is_after_token: is_token_piece(piece),
    })
}

/// Appends the findings of the tokens of entries, and of the octets between them.
fn lint_pieces<A: Allocator>(octets: &[u8], found: &mut Vec<Remark, A>) -> Result<(), AllocError>
    requires { length octets.now + 1 < 2 ^ 64 }
    ensures { OnOk result (ShowsPieces octets.now found.old.items found.new.items) }
{
    let mut reached = LintState {
        at: 0,
        depth: 0,
        is_after_token: false,
    };
    for piece in Pieces::of_octets(octets) {
        match piece {
            Ok(piece) => reached = lint_next(octets, reached, piece, found)?,
            Err(_) => return Ok(()),
        }
    }
    Ok(())
}

/// Appends a finding if the octets end without a line end.
fn lint_end<A: Allocator>(octets: &[u8], found: &mut Vec<Remark, A>) -> Result<(), AllocError>
    ensures { OnOk result (found.new.items ≡ found.old.items ++ unended octets.now) }
{
    match octets.last() {
        None | Some(b'\n') => Ok(()),
        Some(_) => {
            found.push(Remark {
                at: octets.len(),
                code: Code::NoFinalNewline,
            })?;
            Ok(())
        }
    }
}

/// Appends the findings of octets of whole entries, with their offsets.
///
/// - `nul`: the first NUL of a word or a quoted text.
/// - `control-z`: Ctrl-Z at the beginning of an entry.
/// - `leading-parenthesis`: a parenthesis at the beginning of an entry.
/// - `high-octet`: the first octet from 0x80 on of a word or a quoted text.
/// - `control-octet`: the first control octet of a word or a quoted text other than a tab and NUL.
/// - `nested-parentheses`: each parenthesis that is opened inside others.
/// - `adjacent-tokens`: each word or quoted text that begins where another ends.
/// - `crlf`, if it is asked for: the first CR, which in zone files ends a line with LF.
/// - `no-final-newline`, for the last octets: their end, if the last octet is not an LF.
///
/// After a syntax error only `crlf` and `no-final-newline` are found. Fails if memory is out; then
/// `found` has the first of the findings.
pub fn lint<A: Allocator>(
    octets: &[u8],
    block: Block,
    found: &mut Vec<Remark, A>,
) -> Result<(), AllocError>
    requires { length octets.now + 1 < 2 ^ 64 }
    ensures { OnOk result (ShowsBlock octets.now block found.old.items found.new.items) }
{
    lint_beginning(octets, 0, found)?;
    lint_pieces(octets, found)?;
    if block.reports_crlf {
        push_at(found, 0, find_return(octets), Code::Crlf)?;
    }
    if block.is_last {
        lint_end(octets, found)?;
    }
    Ok(())
}
