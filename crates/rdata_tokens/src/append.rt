//! Parses the digits of one token, and appends the octets that they encode.
ghost use Rattle.std.specs.Prelude.{◌≡◌, ◌∷◌, OnOk, OnErr, IfErr};
ghost use Rattle.dns_octets.specs.Appending.{Extends, Gains};
ghost use Rattle.dns_codec.specs.Base.{base16, base64};
ghost use Rattle.rdata_tokens.specs.Spelled.{SpellsDigits, base_of};
ghost use Rattle.rdata_tokens.specs.Hashes.{SpellsHash, hash_refusal, RefusesHash};
ghost use Rattle.rdata_tokens.specs.Tokens.{RefusesToken};
ghost use Rattle.rdata_values.specs.declared.error.ErrorKind.TheVariants.{ShortBuf};
ghost use Rattle.rdata_tokens.specs.declared.kind.DigitsKind.TheVariants.{Hex, Base64};

use crate::groups::read_base32hex;
use crate::kind::DigitsKind;
use crate::reader::DigitsReader;
use dns_octets::OctetsBuilder;
use rdata_values::ErrorKind;

/// Appends the octets of a token.
fn append_token<B: OctetsBuilder>(
    kind: DigitsKind,
    text: &[u8],
    target: &mut B,
) -> Result<(), ErrorKind>
    ensures ok { OnOk result (Gains (SpellsDigits (base_of kind) text.now)
        (B.octets target.old) (B.octets target.new)) }
    ensures err { IfErr result (λ e. RefusesToken kind B.room text.now (B.octets target.old) e) }
    ensures extends { OnErr result (Extends (B.octets target.old) (B.octets target.new)) }
{
    let mut reader = DigitsReader::new(kind);
    reader.push(text, target)?;
    reader.finish()
}

/// Parses a token of hexadecimal digits, in either case, and appends their octets (RFC 4648 section
/// 8). A token without digits has no octets.
///
/// The errors are those of [`DigitsReader`]. On an error, the target has its old octets, perhaps
/// with more after them.
pub fn append_hex<B: OctetsBuilder>(text: &[u8], target: &mut B) -> Result<(), ErrorKind>
    ensures ok { OnOk result (Gains (SpellsDigits base16 text.now)
        (B.octets target.old) (B.octets target.new)) }
    ensures err { IfErr result (λ e. RefusesToken Hex B.room text.now (B.octets target.old) e) }
    ensures extends { OnErr result (Extends (B.octets target.old) (B.octets target.new)) }
{
    append_token(DigitsKind::Hex, text, target)
}

/// Parses a token of base 64, and appends its octets (RFC 4648 section 4). A token without digits
/// has no octets.
///
/// The errors are those of [`DigitsReader`]. On an error, the target has its old octets, perhaps
/// with more after them.
pub fn append_base64<B: OctetsBuilder>(text: &[u8], target: &mut B) -> Result<(), ErrorKind>
    ensures ok { OnOk result (Gains (SpellsDigits base64 text.now)
        (B.octets target.old) (B.octets target.new)) }
    ensures err { IfErr result (λ e. RefusesToken Base64 B.room text.now (B.octets target.old) e) }
    ensures extends { OnErr result (Extends (B.octets target.old) (B.octets target.new)) }
{
    append_token(DigitsKind::Base64, text, target)
}

/// Returns the error of a text that is not a hash.
fn hash_error(text: &[u8]) -> ErrorKind
    ensures { result ≡ hash_refusal text.now }
{
    if text.len() > 408 {
        return ErrorKind::LongHash;
    }
    if text.is_empty() || matches!(text.len() % 8, 1 | 3 | 6) {
        return ErrorKind::ShortBase32;
    }
    ErrorKind::IllegalBase32
}

/// Returns the octets of a hash after its length.
fn with_length(length: u8, hash: &[u8; 255]) -> [u8; 256]
    ensures { result ≡ length ∷ hash.now }
{
    let mut wire = [length; 256];
    wire[1..].copy_from_slice(hash);
    wire
}

/// Parses a hash of 1 to 255 octets in base 32 hex, in either case and without padding. Appends its
/// length in one octet, and the octets (RFC 5155 section 3.3).
///
/// Fails with [`ErrorKind::LongHash`] if the text has more than 408 digits, and with
/// [`ErrorKind::ShortBase32`] if it has none, or a number of digits that encodes no octets. Fails
/// with [`ErrorKind::IllegalBase32`] for any other text that is not a hash, and with
/// [`ErrorKind::ShortBuf`] if the target fails. On an error, the target is unchanged.
pub fn append_base32hex<B: OctetsBuilder>(text: &[u8], target: &mut B) -> Result<(), ErrorKind>
    ensures ok { OnOk result (Gains (SpellsHash text.now)
        (B.octets target.old) (B.octets target.new)) }
    ensures err { IfErr result (RefusesHash B.room text.now (B.octets target.old)) }
    ensures kept { OnErr result (B.octets target.new ≡ B.octets target.old) }
{
    let mut hash = [0; 255];
    let count = match read_base32hex(text, &mut hash) {
        Some(count) if count > 0 => count,
        _ => return Err(hash_error(text)),
    };
    let wire = with_length(count as u8, &hash);
    if target.append_slice(&wire[..count + 1]).is_err() {
        return Err(ErrorKind::ShortBuf);
    }
    Ok(())
}
