//! Finds the parenthesis that a text leaves open.
ghost use Rattle.std.specs.Prelude.{◌≡◌, ◌<◌, ◌↔◌, IsSome, IfSome, encode_utf8_all, length};
ghost use Rattle.dns_lexer.specs.Unclosed.{IsOpener, LacksClosing};
ghost use Rattle.dns_lexer.specs.Pieces.{place_of};
ghost use Rattle.dns_lexer.specs.Run.{may_end_line};

use crate::reader::{Mode, step};

/// Returns whether a line may end in a mode.
fn may_end_line(mode: Mode) -> bool
    ensures { result ≡ may_end_line mode }
{
    matches!(mode, Mode::Outside | Mode::Comment | Mode::Return)
}

/// Returns the offset of the outermost open parenthesis, if closing parentheses alone, on a line of
/// their own, would complete the text. Else returns `None`.
///
/// It reads the whole text, so that [`crate::pieces::Pieces`] needn't store the offset.
pub fn outermost_open(text: &str) -> Option<usize>
    ensures place { IfSome result (IsOpener text.now) }
    ensures left_open { IsSome result ↔ LacksClosing text.now }
{
    outermost_open_of_octets(text.as_bytes())
}

/// Returns the same for octets that needn't be UTF-8: each counts as one character.
pub fn outermost_open_of_octets(octets: &[u8]) -> Option<usize>
    ensures within { IfSome result (λ i. i < length octets.now) }
    ensures place { IfSome result (λ i. IsOpener (encode_utf8_all octets.now)
        (place_of octets.now i)) }
    ensures left_open { IsSome result ↔ LacksClosing (encode_utf8_all octets.now) }
{
    let mut mode = Mode::Outside;
    let mut depth: usize = 0;
    let mut opened: usize = 0;
    let mut at: usize = 0;
    for octet in octets {
        let Some(next) = step(mode, depth, char::from(*octet)) else {
            return None;
        };
        if depth == 0 {
            opened = at;
        }
        mode = next.mode;
        depth = next.depth;
        at += 1;
    }
    if depth > 0 && may_end_line(mode) {
        Some(opened)
    } else {
        None
    }
}
