//! Finds comments that begin where a word ends.
ghost use Rattle.std.specs.Prelude.{◌≡◌};
ghost use Rattle.dns_symbol.specs.Symbol.{is_word_char};
ghost use Rattle.record_rules.specs.Comments.{has_word_at_comment, reaches_comment};

/// Returns whether an octet that is not escaped can be in a word.
fn is_word_octet(octet: u8) -> bool
    ensures { result ≡ is_word_char octet }
{
    !matches!(
        octet,
        b' ' | b'\t' | b'\n' | b'\r' | b'(' | b')' | b';' | b'"'
    )
}

/// Returns whether a text begins with a word, and a semicolon ends that at once.
pub(crate) fn has_word_at_comment(text: &[u8]) -> bool
    ensures { result ≡ has_word_at_comment text.now }
{
    match text {
        [first, rest @ ..] => is_word_octet(*first) && reaches_comment(*first == b'\\', rest),
        [] => false,
    }
}

/// Returns whether the octets of a word continue up to a semicolon. The first octet is escaped or
/// not.
#[tactic(auto, using(crate::proofs::Words::after_escaped, crate::proofs::Words::after_plain))]
fn reaches_comment(begins_escaped: bool, text: &[u8]) -> bool
    ensures { result ≡ reaches_comment begins_escaped text.now }
{
    let mut escaped = begins_escaped;
    for octet in text {
        if escaped {
            escaped = false;
        } else if *octet == b';' {
            return true;
        } else if is_word_octet(*octet) {
            escaped = *octet == b'\\';
        } else {
            return false;
        }
    }
    false
}
