//! The octets that a token means.
ghost use Rattle.std.specs.Prelude.{◌≡◌, ◌++◌, OnErr, OnOk};
ghost use Rattle.dns_octets.specs.Appending.{Extends};
ghost use Rattle.server_config.specs.Strings.{token_content, escape_text, octet_after_backslash, named_string, unescaped};

use crate::token::{ConfigToken, TokenKind};
use std::alloc::{AllocError, Allocator};

impl ConfigToken {
    /// Returns the octets of the token, without quotes if it is a quoted string.
    pub fn content<'t>(&self, text: &'t [u8]) -> &'t [u8]
        ensures { result.now ≡ token_content text.now self.now }
    {
        let whole = self.text(text);
        match self.kind {
            TokenKind::Quoted if 2 <= whole.len() => &whole[1..whole.len() - 1],
            _ => whole,
        }
    }
}

/// Returns the octet after a backslash, if an octet is one.
fn escaped_octet(octet: u8, rest: &[u8]) -> Option<u8>
    ensures { result ≡ octet_after_backslash octet rest.now }
{
    if octet != b'\\' {
        return None;
    }
    match rest.first() {
        Some(next) => Some(*next),
        None => None,
    }
}

/// Appends a backslash and the octet after it, or a double quote alone. Without memory, the first
/// octet may be appended.
fn append_escape<A: Allocator>(
    backslash: u8,
    octet: u8,
    out: &mut Vec<u8, A>,
) -> Result<(), AllocError>
    ensures made { OnOk result (out.new.items ≡ out.old.items ++ escape_text backslash octet) }
    ensures err { OnErr result (Extends out.old.items out.new.items) }
{
    if octet != b'"' {
        out.push(backslash)?;
    }
    out.push(octet)?;
    Ok(())
}

/// Appends a text with each `\"` replaced by a double quote. Without memory, the first octets may
/// be appended.
fn append_unescaped<A: Allocator>(text: &[u8], out: &mut Vec<u8, A>) -> Result<(), AllocError>
    ensures made { OnOk result (out.new.items ≡ out.old.items ++ unescaped text.now) }
    ensures err { OnErr result (Extends out.old.items out.new.items) }
{
    let mut at = 0;
    while at < text.len() {
        match escaped_octet(text[at], &text[at + 1..]) {
            Some(octet) => {
                append_escape(text[at], octet, out)?;
                at += 2;
            }
            None => {
                out.push(text[at])?;
                at += 1;
            }
        }
    }
    Ok(())
}

/// Appends a text.
fn append_all<A: Allocator>(text: &[u8], out: &mut Vec<u8, A>) -> Result<(), AllocError>
    ensures made { OnOk result (out.new.items ≡ out.old.items ++ text.now) }
    ensures err { OnErr result (Extends out.old.items out.new.items) }
{
    out.extend_from_slice(text)?;
    Ok(())
}

/// Appends the octets that a word or a quoted string of a `named.conf` means: without its quotes,
/// and with each `\"` replaced by a double quote. If an allocation fails, `out` is unchanged.
pub fn append_named_string<A: Allocator>(
    text: &[u8],
    token: &ConfigToken,
    out: &mut Vec<u8, A>,
) -> Result<(), AllocError>
    ensures made { OnOk result (out.new.items ≡ out.old.items ++ named_string text.now token.now) }
    ensures unchanged { OnErr result (out.new.items ≡ out.old.items) }
{
    let before = out.len();
    let content = token.content(text);
    let made = match token.kind {
        TokenKind::Quoted => append_unescaped(content, out),
        _ => append_all(content, out),
    };
    match made {
        Ok(()) => Ok(()),
        Err(error) => {
            out.truncate(before);
            Err(error)
        }
    }
}
