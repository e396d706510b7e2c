//! Replaces tokens by a number or by hexadecimal digits.
ghost use Rattle.std.specs.Prelude.{◌≡◌, ◌∷◌, [], IfErr, IfOk, OnErr, OnOk, length};
ghost use Rattle.std.specs.Fmt.{decimal};
ghost use Rattle.dns_codec.specs.Base.{base16, encoded};
ghost use Rattle.zone_edit.specs.Changes.{PushesChanges, are_same, change, hex_changes, number_changes};
ghost use Rattle.zone_edit.specs.Tokens.{IsTokenError};

use crate::edit::Edit;
use crate::tokens::{TokenError, push_token_edits};
use dns_codec::base16::encode_string;
use dns_lexer::pieces::Span;
use itoa::Buffer;
use std::alloc::{AllocError, Allocator};

/// Returns a number in decimal digits.
pub(crate) fn decimal_text<B: Allocator>(alloc: B, number: u32) -> Result<Vec<u8, B>, AllocError>
    ensures { IfOk result (λ text. text.items ≡ decimal number) }
{
    let mut buffer = Buffer::new();
    Vec::from_slice(alloc, buffer.format(number).as_bytes())
}

/// Returns octets in hexadecimal digits.
fn hex_text<B: Allocator + Copy>(alloc: B, octets: &[u8]) -> Result<Vec<u8, B>, AllocError>
    ensures { IfOk result (λ text. text.items ≡ encoded base16 octets.now) }
{
    match encode_string(alloc, octets) {
        Ok(text) => Vec::from_slice(alloc, text.as_bytes()),
        Err(_) => Err(AllocError),
    }
}

/// Returns whether octets are the same.
pub(crate) fn are_same(left: &[u8], right: &[u8]) -> bool
    ensures { result ≡ are_same left.now right.now }
{
    left == right
}

/// Pushes the edit that replaces a token by a number in decimal digits, or nothing after an error.
#[tactic(auto, using(crate::proofs::Changes::pushes_one))]
fn push_number<B: Allocator + Copy>(
    alloc: B,
    octets: &[u8],
    token: Span,
    number: u32,
    edits: &mut Vec<Edit<B>, B>,
) -> Result<(), TokenError>
    ensures ok { OnOk result (PushesChanges octets.now
        (change (token ∷ []) (decimal number) ∷ []) edits.old.items edits.new.items) }
    ensures err { IfErr result (IsTokenError (length octets.now) 0 (token ∷ [])) }
    ensures unchanged { OnErr result (edits.new.items ≡ edits.old.items) }
{
    let text = decimal_text(alloc, number)?;
    push_token_edits(alloc, octets, &[token], text, edits)?;
    Ok(())
}

/// Pushes the edits that replace tokens by octets in hexadecimal digits, or nothing after an error.
#[tactic(auto, using(crate::proofs::Changes::pushes_one))]
pub(crate) fn push_hex<B: Allocator + Copy>(
    alloc: B,
    octets: &[u8],
    tokens: &[Span],
    value: &[u8],
    edits: &mut Vec<Edit<B>, B>,
) -> Result<(), TokenError>
    ensures ok { OnOk result (PushesChanges octets.now
        (change tokens.now (encoded base16 value.now) ∷ []) edits.old.items edits.new.items) }
    ensures err { IfErr result (IsTokenError (length octets.now) 0 tokens.now) }
    ensures unchanged { OnErr result (edits.new.items ≡ edits.old.items) }
{
    let text = hex_text(alloc, value)?;
    push_token_edits(alloc, octets, tokens, text, edits)?;
    Ok(())
}

/// Pushes the edit of a token that is a number, if the number changes. After an error nothing is
/// pushed.
#[tactic(auto, using(crate::proofs::Records::number_same, crate::proofs::Records::number_other))]
pub(crate) fn push_number_change<B: Allocator + Copy>(
    alloc: B,
    octets: &[u8],
    token: Span,
    old: u32,
    new: u32,
    edits: &mut Vec<Edit<B>, B>,
) -> Result<(), TokenError>
    ensures ok { OnOk result (PushesChanges octets.now
        (number_changes token old new) edits.old.items edits.new.items) }
    ensures err { IfErr result (IsTokenError (length octets.now) 0 (token ∷ [])) }
    ensures unchanged { OnErr result (edits.new.items ≡ edits.old.items) }
{
    if old == new {
        return Ok(());
    }
    push_number(alloc, octets, token, new, edits)?;
    Ok(())
}

/// Pushes the edits of tokens that are hexadecimal digits, if the octets change. After an error
/// nothing is pushed.
#[tactic(auto, using(crate::proofs::Records::hex_same, crate::proofs::Records::hex_other))]
pub(crate) fn push_hex_change<B: Allocator + Copy>(
    alloc: B,
    octets: &[u8],
    tokens: &[Span],
    old: &[u8],
    new: &[u8],
    edits: &mut Vec<Edit<B>, B>,
) -> Result<(), TokenError>
    ensures ok { OnOk result (PushesChanges octets.now
        (hex_changes tokens.now old.now new.now) edits.old.items edits.new.items) }
    ensures err { IfErr result (IsTokenError (length octets.now) 0 tokens.now) }
    ensures unchanged { OnErr result (edits.new.items ≡ edits.old.items) }
{
    if are_same(old, new) {
        return Ok(());
    }
    push_hex(alloc, octets, tokens, new, edits)?;
    Ok(())
}
