//! Fields that are one word in presentation format, and have a constant length in wire format.
ghost use Rattle.std.specs.Prelude.{◌≡◌, ◌≤◌, ◌-◌, ◌++◌, ℕ, List, Some, IsOk, MatchResult, OnOk, OnErr, length};
ghost use Rattle.std.specs.Fmt.{WritesOnOk};
ghost use Rattle.rdata_values.specs.declared.error.ErrorKind.{ErrorKind};
ghost use Rattle.rdata_tokens.specs.Forms.{FindsWidth};
ghost use Rattle.rdata_fields.specs.Forms.{ReadsField, word_form};
ghost use Rattle.rdata_fields.specs.Words.{AreOctetsOf, IsWordKind, RefusesWord};

use dns_lexer::entry_tokens::EntryToken;
use dns_octets::{OctetsBuilder, ShortBuf};
use rdata_values::ErrorKind;
use std::fmt;
use std::fmt::Display;

/// A field that is one word, without quotes and escapes, and has a constant length in wire format.
pub trait Word: Display + Sized {
    // The length of a value in wire format, in octets.
    ghost width: { ℕ };

    // The possible values.
    ghost valid: { Self → Type 0 };

    // The texts that spell a value.
    ghost spells: { List ℕ → Self → Type 0 };

    // The error of a text that spells no value.
    ghost reason: { List ℕ → ErrorKind → Type 0 };

    // The octets of a value in wire format.
    ghost wire: { Self → List ℕ };

    // The text that the value of these octets prints as.
    ghost printed: { List ℕ → List ℕ };

    /// Returns the length of a value in wire format, in octets.
    fn width() -> usize
        ensures { result ≡ width };

    /// Parses a text. Fails if it doesn't spell a value.
    fn from_text(text: &[u8]) -> Result<Self, ErrorKind>
        ensures { MatchResult result (λ v. valid v × spells text.now v)
            (RefusesWord (spells text.now) (reason text.now)) };

    /// Returns the value of octets in wire format.
    fn from_wire(octets: &[u8]) -> Self
        requires { AreOctetsOf width octets.now }
        ensures valid { valid result }
        ensures wire { wire result ≡ octets.now }
        ensures text { Self.output result ≡ Some (printed octets.now) };

    /// Appends the octets of the value. On an error, the target is unchanged.
    fn append<B: OctetsBuilder>(&self, target: &mut B) -> Result<(), ShortBuf>
        requires { valid self.now }
        ensures ok { OnOk result (B.octets target.new ≡ B.octets target.old ++ wire self.now) }
        ensures err { OnErr result (B.octets target.new ≡ B.octets target.old) }
        ensures fits { length (wire self.now) ≤ B.room.fits - length (B.octets target.old)
            → IsOk result };

    // A value has this length, and prints as a text that spells it. A text spells one value.
    ghost is_kind: { IsWordKind width valid spells wire printed };
}

/// Parses a word as a value, and appends its octets. On an error, the target is unchanged.
pub fn append_word<W: Word + Drop, B: OctetsBuilder>(
    token: &EntryToken<'_>,
    target: &mut B,
) -> Result<(), ErrorKind>
    ensures reads { ReadsField B.room (word_form W.width W.valid W.spells W.reason W.wire W.printed)
        token.now.is_quoted token.now.text.now (B.octets target.old) result (B.octets target.new) }
    ensures left { OnErr result (B.octets target.new ≡ B.octets target.old) }
{
    if token.is_quoted {
        return Err(ErrorKind::Quoted);
    }
    let value = W::from_text(token.text)?;
    value.append(target)?;
    Ok(())
}

/// Returns the length in octets of the value at the start of octets, if they are long enough.
pub fn word_width<W: Word>(octets: &[u8]) -> Option<usize>
    ensures { FindsWidth (AreOctetsOf W.width) octets.now result }
{
    let width = W::width();
    if width <= octets.len() {
        Some(width)
    } else {
        None
    }
}

/// Prints the value of octets in wire format.
pub fn write_word<W: Word + Drop, F: fmt::Write>(
    octets: &[u8],
    f: &mut fmt::Formatter<F>,
) -> fmt::Result
    requires { AreOctetsOf W.width octets.now }
    ensures { WritesOnOk F.write_str_gives f.old result (W.printed octets.now) f.new }
{
    let value = W::from_wire(octets);
    write!(f, "{value}")
}
