//! Laws of octets in digits, for all texts and octets. The functions do nothing.
//!
//! Together with the contracts of [`DigitsReader`](crate::reader::DigitsReader) they state that
//! parsing what was printed returns the same octets, in one piece or in several.
ghost use Rattle.std.specs.Prelude.{◌≡◌, ◌≢◌, ℕ, ◌+◌, ◌*◌, ◌/◌, ◌<◌, List, [], ◌++◌, length, All};
ghost use Rattle.dns_octets.specs.Room.{Room};
ghost use Rattle.dns_codec.specs.Base.{Base, base16, base32hex, base64, encoded, IsEncoding};
ghost use Rattle.rdata_tokens.specs.Spelled.{base_of, SpellsDigits, ContinuesTo};
ghost use Rattle.rdata_tokens.specs.Reading.{DigitsState, HasRead, AcceptsPiece, RefusesPiece};
ghost use Rattle.rdata_values.specs.declared.error.ErrorKind.{ErrorKind};
ghost use Rattle.rdata_values.specs.declared.error.ErrorKind.TheVariants.{ShortBuf};

/// States that the text that octets print as spells them.
pub fn printed_text_spells()
    ensures { (b : Base) → IsEncoding b → (octets : List ℕ) → All (λ o. o < 256) octets
        → SpellsDigits b (encoded b octets) octets }
{}

/// States that a text spells one list of octets.
pub fn a_text_spells_once()
    ensures { (b : Base) → IsEncoding b → (text u v : List ℕ)
        → SpellsDigits b text u → SpellsDigits b text v → u ≡ v }
{}

/// States the number of digits that spell octets: two for each octet in hexadecimal, and four for
/// one to three octets in base 64. In base 32 hex they are eight for five octets, and for fewer the
/// number that these need.
pub fn digits_of_octets()
    ensures hex { (text v : List ℕ) → SpellsDigits base16 text v → length text ≡ 2 * length v }
    ensures base64 { (text v : List ℕ) → SpellsDigits base64 text v
        → length text ≡ 4 * ((length v + 2) / 3) }
    ensures base32hex { (text v : List ℕ) → SpellsDigits base32hex text v
        → length text ≡ (8 * length v + 4) / 5 }
{}

/// States that a piece is read after those before it, and that what was read can continue to a text
/// of octets.
pub fn pieces_are_read()
    ensures next { (a b : DigitsState) (text octets piece gained : List ℕ)
        → HasRead a text octets → AcceptsPiece a piece gained b
        → HasRead b (text ++ piece) (octets ++ gained) }
    ensures goes_on { (s : DigitsState) (text octets : List ℕ) → HasRead s text octets
        → ContinuesTo (base_of s.kind) text octets }
{}

/// States that the pieces of a text that spells octets are read as exactly these octets, and that
/// no group is begun at the text's end. A piece fails only if the octets that are left do not fit.
pub fn a_cut_text_is_read()
    ensures read { (s : DigitsState) (text octets read : List ℕ)
        → SpellsDigits (base_of s.kind) text octets → HasRead s text read
        → (s.begun ≡ []) × (read ≡ octets) }
    ensures refused { (room : Room) (s : DigitsState) (text piece rest octets read old : List ℕ)
        (e : ErrorKind)
        → SpellsDigits (base_of s.kind) (text ++ (piece ++ rest)) octets → HasRead s text read → RefusesPiece room s piece old e
        → (e ≡ ShortBuf) × ((later : List ℕ) × (octets ≡ read ++ later) × (room.fits < length old + length later)) }
{}

/// States that after an error other than `ShortBuf` no text of octets continues the pieces.
pub fn a_refusal_is_final()
    ensures { (room : Room) (s : DigitsState) (text piece rest octets read old : List ℕ)
        (e : ErrorKind)
        → HasRead s text read → RefusesPiece room s piece old e → e ≢ ShortBuf → ¬ SpellsDigits (base_of s.kind) (text ++ (piece ++ rest)) octets }
{}
