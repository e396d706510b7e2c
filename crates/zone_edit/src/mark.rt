//! The generic form of RDATA, `\# LENGTH HEX` (RFC 3597 section 5).
ghost use Rattle.std.specs.Prelude.{◌≡◌};
ghost use Rattle.zone_edit.specs.Marks.{is_generic, is_generic_mark};

use dns_lexer::pieces::Span;

/// Returns whether a token is the mark of the generic form, `\#`.
pub(crate) fn is_generic_mark(octets: &[u8], token: Span) -> bool
    ensures { result ≡ is_generic_mark octets.now token }
{
    token.end <= octets.len()
        && token.start <= token.end
        && token.end - token.start == 2
        && octets[token.start..].starts_with(b"\\#")
}

/// Returns whether the tokens of RDATA are the generic form: the first is its mark.
pub fn is_generic(octets: &[u8], tokens: &[Span]) -> bool
    ensures { result ≡ is_generic octets.now tokens.now }
{
    match tokens.first() {
        Some(token) => is_generic_mark(octets, *token),
        None => false,
    }
}
