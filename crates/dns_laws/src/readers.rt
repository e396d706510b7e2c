//! Laws that relate the two parsers of zone files: scanners, which parse tokens of characters, and
//! fields of RDATA, which parse tokens of octets.
//!
//! A token that both accept has one value, except `@`, which is a label for scanners and the origin
//! in RDATA. Each law states which tokens these are.
ghost use Rattle.std.specs.Prelude.{◌≡◌, ◌≢◌, ◌↔◌, ◌≤◌, ℕ, Bool, false, List, [], ◌∷◌, length, Option, Some, None, Ok};
ghost use Rattle.std.specs.Int.{to_be_bytes, w16, w32};
ghost use Rattle.std.specs.List.{concat};
ghost use Rattle.dns_charstr.specs.Limits.{max_string};
ghost use Rattle.dns_charstr.specs.Reading.{HasOctets};
ghost use Rattle.dns_charstr.specs.Wire.{wire_of};
ghost use Rattle.dns_codec.specs.Base.{Base, base16, IsEncoding};
ghost use Rattle.dns_codec.specs.Grammar.{IsEncodingOf};
ghost use Rattle.rdata_tokens.specs.Spelled.{SpellsDigits, opens_group};
ghost use Rattle.rdata_fields.specs.Fields.{field_form};
ghost use Rattle.rdata_fields.specs.declared.field.Field.TheVariants.{Number8, Number16, Number32, String as StringField, Name as NameField};
ghost use Rattle.rdata_values.specs.Numbers.{SpellsNumber};
ghost use Rattle.dns_name.specs.Reading.{ReadsAs};
ghost use Rattle.dns_name.specs.declared.name.UncertainName.TheVariants.{Absolute};
ghost use Rattle.dns_scan.specs.Join.{AreSymbols};
ghost use Rattle.dns_scan.specs.Reads.{NumberReads};
ghost use Rattle.dns_scan.specs.Tokens.{Token};
ghost use Rattle.rdata_tokens.specs.NameSpelling.{SpellsLabels, IsRelative, at_sign};
ghost use Rattle.rdata_tokens.specs.Spelling.{SpellsOctetList};
ghost use Rattle.dns_wire.specs.Wire.{wire, IsName, EndsInRoot};
ghost use Rattle.dns_laws.specs.Readers.{HasNoBackslash, HasNoBinary, IsPrintableText, IsReadAlike, ReadsRelative};

use dns_octets::AsOctets;

/// A scanner parses a token as octets exactly if the token is printable ASCII and spells these
/// octets in RDATA. Other octets, such as a tab, denote themselves in RDATA, and scanners reject
/// them. If the octets are at most 255, the token spells a character string (RFC 1035 section 3.3),
/// quoted or not.
pub fn strings_are_read_alike()
    ensures octets { (text octets : List ℕ)
        → HasOctets text octets ↔ (IsPrintableText text × SpellsOctetList text octets) }
    ensures field { (origin : Option (List (List ℕ))) (quoted : Bool) (text octets : List ℕ)
        → HasOctets text octets → length octets ≤ max_string
        → (field_form origin StringField).spells quoted text (wire_of octets) }
{}

/// A scanner parses a token as an absolute name exactly if the token is printable ASCII, begins no
/// label with an escaped bracket, and spells that name in RDATA without an origin (RFC 1035 section
/// 5.1). With any origin it spells the same name. A relative name with at least one label spells
/// its labels followed by the origin's, if these are at most 255 octets together. `@` alone, which
/// is a label for scanners, spells the origin.
pub fn names_are_read_alike<Octets: AsOctets>()
    ensures absolute { (text : List ℕ) (name : List (List ℕ))
        → ReadsAs {O = Octets} text (Absolute name)
        ↔ (IsPrintableText text × HasNoBinary text × SpellsLabels None text name × IsName name) }
    ensures field { (origin : Option (List (List ℕ))) (text : List ℕ) (name : List (List ℕ))
        → ReadsAs {O = Octets} text (Absolute name)
        → (field_form origin NameField).spells false text (wire name) }
    ensures relative { (text : List ℕ) (others : List (List ℕ)) (form : List ℕ)
        → text ≢ at_sign ∷ [] → IsName others → EndsInRoot others
        → ReadsRelative Octets others text form
        ↔ (IsPrintableText text × HasNoBinary text × IsRelative text
        × (field_form (Some others) NameField).spells false text form) }
{}

/// A scanner parses a token that isn't empty as a number exactly if it spells that number in RDATA,
/// and the number is within the limit. The same holds of fields of 8, 16 and 32 bits.
pub fn numbers_are_read_alike()
    ensures number { (limit n : ℕ) (token : Token) → token ≢ []
        → NumberReads limit token (Ok n) ↔ (SpellsNumber token n × (n ≤ limit)) }
    ensures eight { IsReadAlike 8 (λ n. n ∷ []) Number8 }
    ensures sixteen { IsReadAlike 16 (to_be_bytes w16) Number16 }
    ensures thirty_two { IsReadAlike 32 (to_be_bytes w32) Number32 }
{}

/// Tokens that spell octets in digits of RDATA, cut anywhere, are parsed by scanners as these
/// octets. A text that both accept has the same octets. A text without escapes that a scanner
/// accepts spells octets in RDATA too in base 16, and in the others if the digits are whole groups,
/// so that no bits remain.
pub fn digits_are_read_alike()
    ensures read { (b : Base) → IsEncoding b → (tokens : List Token) (octets : List ℕ)
        → SpellsDigits b (concat tokens) octets
        → AreSymbols tokens × IsEncodingOf b (concat tokens) octets }
    ensures same { (b : Base) → IsEncoding b → (text u v : List ℕ)
        → IsEncodingOf b text u → SpellsDigits b text v → u ≡ v }
    ensures spelled { (b : Base) → IsEncoding b → (text octets : List ℕ)
        → IsEncodingOf b text octets → HasNoBackslash text → opens_group b octets ≡ false
        → SpellsDigits b text octets }
    ensures hex { (text octets : List ℕ) → IsEncodingOf base16 text octets → HasNoBackslash text
        → SpellsDigits base16 text octets }
{}
