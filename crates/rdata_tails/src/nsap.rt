//! Addresses of network services (NSAP, RFC 1706 section 5): `0x`, and pairs of hexadecimal digits
//! with dots anywhere between them.
ghost use Rattle.std.specs.Prelude.{ℕ, ◌≡◌, ◌⊎◌, ◌∷◌, List, MatchOption, OnErr, OnOk, IfErr, Some};
ghost use Rattle.dns_codec.specs.Base.{base16};
ghost use Rattle.dns_octets.specs.Appending.{Extends, Gains};
ghost use Rattle.rdata_tokens.specs.Spelled.{SpellsDigits};
ghost use Rattle.rdata_tokens.specs.Tokens.{RefusesToken};
ghost use Rattle.rdata_tokens.specs.declared.kind.DigitsKind.TheVariants.{Hex};
ghost use Rattle.rdata_tails.specs.Nsap.{AreNsapRead, HasDigits, RefusesNsap, SpellsNsap, nsap_text, without_dots};

use dns_octets::OctetsBuilder;
use rdata_tokens::{DigitsKind, DigitsReader};
use rdata_values::{ErrorKind, HexPairs};
use std::fmt;

/// Returns the text after the `0x` that a text begins with.
fn after_mark(text: &[u8]) -> Option<&[u8]>
    ensures { MatchOption result ((digits : List ℕ) → HasDigits text.now digits → ⊥)
        (λ dotted. (text.now ≡ 48 ∷ 120 ∷ dotted.now) ⊎ (text.now ≡ 48 ∷ 88 ∷ dotted.now)) }
{
    if text.len() >= 2 && text[0] == b'0' && (text[1] == b'x' || text[1] == b'X') {
        Some(&text[2..])
    } else {
        None
    }
}

/// Appends the octets of hexadecimal digits. Dots between the digits are skipped.
fn append_dotted<B: OctetsBuilder>(dotted: &[u8], target: &mut B) -> Result<(), ErrorKind>
    ensures ok { OnOk result (Gains (SpellsDigits base16 (without_dots dotted.now))
        (B.octets target.old) (B.octets target.new)) }
    ensures why { IfErr result (λ e. RefusesToken Hex B.room (without_dots dotted.now)
        (B.octets target.old) e) }
    ensures extends { OnErr result (Extends (B.octets target.old) (B.octets target.new)) }
{
    let mut reader = DigitsReader::new(DigitsKind::Hex);
    let mut at = 0;
    while at < dotted.len() {
        if dotted[at] != b'.' {
            reader.push(&dotted[at..at + 1], target)?;
        }
        at += 1;
    }
    reader.finish()
}

/// Parses an address, such as `0x47.0005.80.005a00.0000`, and appends its octets, of which there is
/// at least one. Dots may be before, between and after the digits, and within a pair.
///
/// Fails with `ExpectedNsap` if no digit follows `0x`, with `ExpectedHex` if a character is neither a
/// digit nor a dot, with `UnevenHex` if the digits end within a pair, and with `ShortBuf` if the
/// target fails. On an error, the target has its old octets, perhaps with more after them.
#[tactic(auto, using(crate::proofs::NsapLaws::some_gained))]
pub fn append_nsap<B: OctetsBuilder>(text: &[u8], target: &mut B) -> Result<(), ErrorKind>
    ensures ok { OnOk result (Gains (SpellsNsap text.now)
        (B.octets target.old) (B.octets target.new)) }
    ensures why { IfErr result (RefusesNsap B.room text.now (B.octets target.old)) }
    ensures extends { OnErr result (Extends (B.octets target.old) (B.octets target.new)) }
{
    let Some(dotted) = after_mark(text) else {
        return Err(ErrorKind::ExpectedNsap);
    };
    let length = target.as_slice().len();
    if let Err(why) = append_dotted(dotted, target) {
        return Err(why);
    }
    if target.as_slice().len() == length {
        return Err(ErrorKind::ExpectedNsap);
    }
    Ok(())
}

/// Octets that print as an address: `0x` and pairs of digits in lower case, without dots.
#[derive(Clone, Copy)]
pub struct NsapText<'a>(pub &'a [u8]);

impl fmt::Display for NsapText<'_> {
    ghost output = { λ n. Some (nsap_text n.0.now) };

    fn fmt<W: fmt::Write>(&self, f: &mut fmt::Formatter<W>) -> fmt::Result {
        write!(f, "0x{}", HexPairs(self.0))
    }
}

/// States that an address that is printed and parsed is the same address. Does nothing.
pub fn nsap_is_read_back()
    ensures { AreNsapRead }
{}
