//! Laws of encoding and decoding, for each of the three encodings.
//!
//! They relate the definitions alone: a text, the octets that it encodes, and the state of
//! decoders. `room` is that of a decoder's builder.
ghost use Rattle.std.specs.Prelude.{is_none, ◌≡◌, ℕ, ◌<◌, ◌≤◌, ◌⊎◌, ◌+◌, List, [], length, map, true, false, nat_lt, None, IsSome, IsErr, Some, Result};
ghost use Rattle.std.specs.Cmp.Lexicographic.{slice_cmp};
ghost use Rattle.std.specs.List.{AllByRecursion, flat_map};
ghost use Rattle.std.specs.Ordering.{nat_cmp};
ghost use Rattle.dns_octets.specs.Room.{Room};
ghost use Rattle.dns_symbol.specs.declared.symbol.Symbol.{Symbol};
ghost use Rattle.dns_symbol.specs.declared.symbol.Symbol.TheVariants.{Char};
ghost use Rattle.dns_codec.specs.Base.{Base, IsEncoding, value, encoded};
ghost use Rattle.dns_codec.specs.Conversions.{entry_symbols, Agrees};
ghost use Rattle.dns_codec.specs.Conversions.{converts, converted, accepts_all};
ghost use Rattle.dns_codec.specs.Converting.{convert_entry, convert_tail};
ghost use Rattle.dns_codec.specs.Group.{fresh};
ghost use Rattle.dns_codec.specs.Grammar.{Decodes};
ghost use Rattle.dns_codec.specs.Decoding.{DecoderState, IsNew, Pushes, Runs, Ends};
ghost use Rattle.dns_codec.specs.Outcome.{char_error, first_char_error, stored, refusal, pushed_refusal, IsPushed};
ghost use Rattle.dns_codec.specs.declared.error.DecodeError.{DecodeError};
ghost use Rattle.dns_codec.specs.declared.error.DecodeError.TheVariants.{IllegalChar, ShortBuf};
ghost use Rattle.dns_codec.specs.Slices.{DecodesWithin};

/// The text of octets is of the grammar, and its value is these octets.
pub fn encoded_decodes()
    ensures { (b : Base) → IsEncoding b → (octets : List ℕ) → AllByRecursion (λ x. x < 256) octets
        → Decodes b (encoded b octets) octets }
{}

/// A text has at most one value.
pub fn one_value()
    ensures { (b : Base) → IsEncoding b → (text xs ys : List ℕ)
        → Decodes b text xs → Decodes b text ys → xs ≡ ys }
{}

/// Octets sort as their texts do, in an encoding without padding.
pub fn encoded_order()
    ensures { (b : Base) → IsEncoding b → nat_lt 1 b.unit ≡ false → (xs ys : List ℕ)
        → AllByRecursion (λ x. x < 256) xs → AllByRecursion (λ x. x < 256) ys
        → slice_cmp nat_cmp (encoded b xs) (encoded b ys) ≡ slice_cmp nat_cmp xs ys }
{}

/// The result of pushing a list of characters to a new decoder, and of its end: a function of the
/// text and of the capacity that the builder turns out to have.
pub fn pushes()
    ensures { (b : Base) → IsEncoding b → (room : Room) (h k : DecoderState) (text : List ℕ)
        (r : Result (List ℕ) DecodeError)
        → IsNew h → Runs b room h text k → Ends b room k r
        → IsPushed b (stored b) (pushed_refusal b) room text k.error r }
{}

/// A text of the grammar is decoded if its octets fit, both by `decode` and by a decoder to which
/// it is pushed.
pub fn grammar_is_read()
    ensures { (b : Base) → IsEncoding b → (text octets : List ℕ) (limit : ℕ)
        → Decodes b text octets → length octets ≤ limit
        → (refusal b limit text ≡ None) × (pushed_refusal b limit text ≡ None) }
{}

/// A text of the grammar fails only with `ShortBuf`, both in `decode` and in a decoder to which it
/// is pushed.
pub fn grammar_wants_room()
    ensures { (b : Base) → IsEncoding b → (text octets : List ℕ) (limit : ℕ) (e : DecodeError)
        → Decodes b text octets
        → (refusal b limit text ≡ Some e → e ≡ ShortBuf) × (pushed_refusal b limit text ≡ Some e → e ≡ ShortBuf) }
{}

/// A text that `decode` accepts is of the grammar, and its octets fit.
pub fn only_grammar_is_read()
    ensures { (b : Base) → IsEncoding b → (text : List ℕ) (limit : ℕ)
        → refusal b limit text ≡ None → DecodesWithin b limit text }
{}

/// A decoder that failed once keeps failing. The octets don't change, nor does the error, unless a
/// later illegal character replaces it. If the first error is kept, nothing changes any more. A new
/// decoder has seen no padding, and in an encoding without padding none is ever recorded.
pub fn failure_is_kept()
    ensures pushes { (b : Base) (room : Room) (old new : DecoderState) (c : ℕ)
        → IsSome old.error → Pushes b room old c new
        → (new.octets ≡ old.octets) × IsSome new.error × (b.keeps_first ≡ true → new ≡ old) }
    ensures replaced { (b : Base) → IsEncoding b → (room : Room) (old new : DecoderState) (c : ℕ)
        → old.group.padding ≡ fresh.padding → IsSome old.error → Pushes b room old c new
        → (new.error ≡ old.error) ⊎ ((value b c ≡ None) × (new.error ≡ Some (IllegalChar c))) }
    ensures unpadded { (b : Base) → nat_lt 1 b.unit ≡ false
        → (room : Room) (old new : DecoderState) (c : ℕ)
        → old.group.padding ≡ fresh.padding → Pushes b room old c new
        → new.group.padding ≡ fresh.padding }
    ensures ends { (b : Base) (room : Room) (k : DecoderState) (r : Result (List ℕ) DecodeError)
        → IsSome k.error → Ends b room k r → IsErr r }
{}

/// On a text without backslash a new converter with its tail produces the octets that decoding
/// returns, and fails if decoding does, apart from `ShortBuf`.
pub fn converters_decode()
    ensures { (b : Base) → IsEncoding b → (text : List ℕ) (limit : ℕ) → length text + 3 ≤ limit
        → Agrees b text (refusal b limit text) (converted b (map Char text)) }
{}

/// On a text without backslash a new converter rejects a character exactly if decoding finds an
/// error there: it accepts all characters of a text exactly if none has an error, and so for each
/// prefix.
pub fn converters_stop()
    ensures { (b : Base) → IsEncoding b → (text : List ℕ) (limit : ℕ) → length text + 3 ≤ limit
        → accepts_all b (map Char text) ≡ is_none (first_char_error (char_error b limit) [] text) }
{}

/// The tokens of an entry convert as their concatenation.
pub fn entries_convert()
    ensures { (b : Base) (tokens : List (List Symbol))
        → converts (convert_entry b) (convert_tail b) fresh false (entry_symbols tokens)
        ≡ converted b (flat_map (λ t. t) tokens) }
{}
