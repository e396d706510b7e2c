//! Laws of encodings: the octets of tokens, and that printed octets parse as the same octets.
ghost use Rattle.std.specs.Prelude.{◌↔◌, ℕ, ◌<◌, List, Ok, Result};
ghost use Rattle.dns_octets.specs.Room.{Room, exactly};
ghost use Rattle.dns_codec.specs.Base.{Base, IsEncoding, base16, base32hex, base64, encoded};
ghost use Rattle.dns_codec.specs.Grammar.{IsEncodingOf};
ghost use Rattle.dns_symbol.specs.Cause.{Cause};
ghost use Rattle.dns_scan.specs.Unread.{ConsumesAs};
ghost use Rattle.dns_scan.specs.Tokens.{Token};
ghost use Rattle.dns_zone.specs.EntryCodecs.{AnswersConverted, ConvertsTo, codec_of};
ghost use Rattle.dns_laws.specs.Encodings.{AnswersEncoding, EncodingBack, ConvertsOnlyTo};
ghost use Rattle.dns_scan.specs.Reads.{HasOneAnswer};
ghost use Rattle.std.specs.List.{AllByRecursion};

use dns_codec::base::{Base16, Base32Hex, Base64, Encoding};
use dns_codec::converter::Converter;
use dns_scan::Scanner;

/// The text of octets in an encoding is parsed as these octets, if they fit. So is every token that
/// is a text of the encoding; a simple escape counts as its character. In base 16 and base32hex
/// letters may be in either case.
///
/// Any other token is rejected: one with a bad escape, with a symbol without character, or whose
/// characters aren't a text of the encoding.
pub fn encoding_is_scanned_back<K: Encoding, S: Scanner>(
    scanner: &mut S,
) -> Result<S::Octets, S::Error>
    requires { S.can_scan scanner.old }
    ensures ready { S.can_scan scanner.new }
    ensures takes { ConsumesAs S.next_token
        (EncodingBack K.base S.Error.cause S.Octets.octets S.OctetsBuilder.room)
        scanner.old result scanner.new }
{
    scanner.convert_token(Converter::<K>::new())
}

/// The text of octets in base 16 is parsed as these octets, if they fit. So is every token that is
/// a text of the encoding; its letters may be in either case, and a simple escape counts as its
/// character.
///
/// Any other token is rejected: one with a bad escape, with a symbol without character, or whose
/// characters aren't a text of the encoding.
pub fn hex_is_scanned_back<S: Scanner>(scanner: &mut S) -> Result<S::Octets, S::Error>
    requires { S.can_scan scanner.old }
    ensures ready { S.can_scan scanner.new }
    ensures takes { ConsumesAs S.next_token
        (EncodingBack base16 S.Error.cause S.Octets.octets S.OctetsBuilder.room)
        scanner.old result scanner.new }
{
    encoding_is_scanned_back::<Base16, S>(scanner)
}

/// The text of octets in base32hex is parsed as these octets, if they fit. So is every token that
/// is a text of the encoding. Any other token is rejected, as in base 16.
pub fn base32hex_is_scanned_back<S: Scanner>(scanner: &mut S) -> Result<S::Octets, S::Error>
    requires { S.can_scan scanner.old }
    ensures ready { S.can_scan scanner.new }
    ensures takes { ConsumesAs S.next_token
        (EncodingBack base32hex S.Error.cause S.Octets.octets S.OctetsBuilder.room)
        scanner.old result scanner.new }
{
    encoding_is_scanned_back::<Base32Hex, S>(scanner)
}

/// The text of octets in base 64 is parsed as these octets, if they fit. So is every token that is
/// a text of the encoding. Any other token is rejected, as in base 16. The case of letters matters
/// here.
pub fn base64_is_scanned_back<S: Scanner>(scanner: &mut S) -> Result<S::Octets, S::Error>
    requires { S.can_scan scanner.old }
    ensures ready { S.can_scan scanner.new }
    ensures takes { ConsumesAs S.next_token
        (EncodingBack base64 S.Error.cause S.Octets.octets S.OctetsBuilder.room)
        scanner.old result scanner.new }
{
    encoding_is_scanned_back::<Base64, S>(scanner)
}

/// The text of octets in base 16, base32hex or base 64 is a token that converts to these octets,
/// and to nothing else.
pub fn encodings_convert_back()
    ensures { (b : Base) → IsEncoding b → (octets : List ℕ) → AllByRecursion (λ o. o < 256) octets
        → ConvertsOnlyTo (codec_of b) (encoded b octets) octets }
{}

/// The tokens that convert to octets are exactly the texts of the encoding with that value.
pub fn only_encodings_convert()
    ensures { (b : Base) → IsEncoding b → (token : Token) (octets : List ℕ)
        → ConvertsTo (codec_of b) token (Ok octets) ↔ IsEncodingOf b token octets }
{}

/// Converting a token has at most one result.
pub fn tokens_convert_to_one_thing()
    ensures { (b : Base) (token : Token) → HasOneAnswer (ConvertsTo (codec_of b) token) }
{}

/// The result of a token by the grammar alone equals the result of converting its symbols one after
/// the other.
pub fn converters_answer_by_the_grammar()
    ensures { (b : Base) → IsEncoding b → (room : Room) (token : Token) (r : Result (List ℕ) Cause)
        → AnswersEncoding b (λ why. why) (λ s. s) room token r
        ↔ AnswersConverted (codec_of b) (λ why. why) (λ s. s) room token r }
{}

/// If the capacity of the builder is known exactly, as of an array, converting a token has at most
/// one result.
pub fn encodings_are_answered_in_one_way()
    ensures { (b : Base) (size : ℕ) (token : Token) → HasOneAnswer {A = Result (List ℕ) Cause}
        (AnswersConverted (codec_of b) (λ why. why) (λ s. s) (exactly size) token) }
{}
