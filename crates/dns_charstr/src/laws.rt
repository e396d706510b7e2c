//! Laws of character strings: facts about all octets and texts.
ghost use Rattle.std.specs.Prelude.{◌≡◌, ◌<◌, ◌≤◌, ◌↔◌, ℕ, List, [], ◌∷◌, ◌++◌, All, length, true, IsTrue, Result, Ok, Err, ◌⊎◌, encode_utf8_all};
ghost use Rattle.std.specs.List.{flat_map, list_all};
ghost use Rattle.std.specs.Cmp.{IsEquivalence, IsTotalOrder};
ghost use Rattle.std.specs.declared.cmp.Ordering.TheVariants.{Equal};
ghost use Rattle.dns_symbol.specs.Symbol.{bytes, is_printable, is_word_symbol};
ghost use Rattle.dns_symbol.specs.Printed.{text_of, is_plain_escape, is_unquoted_escape};
ghost use Rattle.dns_symbol.specs.declared.symbol.Symbol.{Symbol};
ghost use Rattle.dns_charstr.specs.Printed.{quoted_text};
ghost use Rattle.dns_charstr.specs.OctetText.{SpellsOctets, ReadsOctetText};
ghost use Rattle.dns_charstr.specs.Reading.{HasOctets, ReadsText};
ghost use Rattle.dns_octets.specs.Lowered.{lowered, same_lowered, lowered_order, hash_writes};
ghost use Rattle.dns_octets.specs.Room.{Room, exactly};
ghost use Rattle.dns_charstr.specs.Order.{wire_order};
ghost use Rattle.dns_charstr.specs.declared.charstr.error.FromStrError.{FromStrError};
ghost use Rattle.dns_charstr.specs.declared.charstr.error.FromStrError.TheVariants.{ShortBuf};
ghost use Rattle.dns_charstr.specs.Limits.{max_string};

/// Octets in plain form parse as these octets.
pub fn plain_text_reads_back(octets: &[u8])
    ensures { HasOctets (encode_utf8_all (text_of is_plain_escape octets.now)) octets.now }
{
    let _octets = octets;
}

/// Octets in unquoted form parse as these octets.
pub fn unquoted_text_reads_back(octets: &[u8])
    ensures { HasOctets (encode_utf8_all (text_of is_unquoted_escape octets.now)) octets.now }
{
    let _octets = octets;
}

/// The quoted form of octets has a double quote at each end, and the text between the two parses as
/// these octets.
pub fn quoted_text_reads_back(octets: &[u8])
    ensures quotes { (between : List ℕ) × (encode_utf8_all (quoted_text octets.now) ≡ 34 ∷ between ++ 34 ∷ []) }
    ensures between { (between : List ℕ) → encode_utf8_all (quoted_text octets.now) ≡ 34 ∷ between ++ 34 ∷ []
        → HasOctets between octets.now }
{
    let _octets = octets;
}

/// The unquoted form of octets, unless there are none, is a word: readable symbols that may be part
/// of a word.
pub fn unquoted_text_is_a_word(octets: &[u8])
    ensures { 0 < length octets.now → (symbols : List Symbol) × (0 < length symbols) × (list_all is_word_symbol symbols ≡ true)
        × (encode_utf8_all (text_of is_unquoted_escape octets.now) ≡ flat_map bytes symbols) }
{
    let _octets = octets;
}

/// A text has at most one list of octets. If these are at most 255, parsing returns them, or fails
/// because the guaranteed capacity is smaller. If the guaranteed capacity equals the maximum one,
/// parsing any text has at most one result.
pub fn texts_have_one_reading(text: &str)
    ensures octets { (xs ys : List ℕ) → HasOctets text.now xs → HasOctets text.now ys → xs ≡ ys }
    ensures whole { (room : Room) (octets : List ℕ) (r : Result (List ℕ) FromStrError) → ReadsText room text.now r
        → HasOctets text.now octets → length octets ≤ max_string → (r ≡ Ok octets) ⊎ ((r ≡ Err ShortBuf) × (room.fits < length octets)) }
    ensures answer { (size : ℕ) (q r : Result (List ℕ) FromStrError) → ReadsText (exactly size) text.now q → ReadsText (exactly size) text.now r → q ≡ r }
{
    let _text = text;
}

/// The same holds of texts of octets: a text has at most one list of octets, and parsing it has at
/// most one result, if the capacities are equal.
pub fn octet_texts_have_one_reading(text: &[u8])
    ensures octets { (xs ys : List ℕ) → SpellsOctets text.now xs [] → SpellsOctets text.now ys [] → xs ≡ ys }
    ensures whole { (room : Room) (octets : List ℕ) (r : Result (List ℕ) FromStrError) → ReadsOctetText room text.now r
        → SpellsOctets text.now octets [] → length octets ≤ max_string → (r ≡ Ok octets) ⊎ ((r ≡ Err ShortBuf) × (room.fits < length octets)) }
    ensures answer { (size : ℕ) (q r : Result (List ℕ) FromStrError) → ReadsOctetText (exactly size) text.now q → ReadsOctetText (exactly size) text.now r → q ≡ r }
{
    let _text = text;
}

/// A text of printable ASCII parses alike as characters and as octets, for any capacity: to the
/// same octets, or the same error. If a text parses as characters, it parses as octets to the same
/// octets.
pub fn printable_texts_read_alike(text: &[u8])
    ensures alike { (room : Room) (r : Result (List ℕ) FromStrError) → list_all is_printable text.now ≡ true → ReadsText room text.now r ↔ ReadsOctetText room text.now r }
    ensures octets { (octets : List ℕ) → HasOctets text.now octets → SpellsOctets text.now octets [] }
{
    let _text = text;
}

/// The printed forms of octets parse as texts of octets: the plain form, the unquoted form, and the
/// text between the double quotes of the quoted form.
pub fn printed_texts_read_back_as_octets(octets: &[u8])
    ensures plain { SpellsOctets (encode_utf8_all (text_of is_plain_escape octets.now)) octets.now [] }
    ensures unquoted { SpellsOctets (encode_utf8_all (text_of is_unquoted_escape octets.now)) octets.now [] }
    ensures between { (between : List ℕ) → encode_utf8_all (quoted_text octets.now) ≡ 34 ∷ between ++ 34 ∷ [] → SpellsOctets between octets.now [] }
{
    let _octets = octets;
}

/// Two lists of octets are equal exactly if their lower-case forms are the same, and exactly if
/// their order is `Equal`. Equality is an equivalence, and the order is total.
pub fn order_ties_where_equal(left: &[u8], right: &[u8])
    ensures equal { IsTrue (same_lowered left.now right.now) ↔ (lowered left.now ≡ lowered right.now) }
    ensures order { (lowered_order left.now right.now ≡ Equal) ↔ IsTrue (same_lowered left.now right.now) }
    ensures equivalence { IsEquivalence same_lowered }
    ensures total { IsTotalOrder lowered_order }
{
    let _left = left;
    let _right = right;
}

/// Equal octets have equal hashes.
pub fn equal_octets_hash_alike(left: &[u8], right: &[u8])
    ensures { IsTrue (same_lowered left.now right.now) → hash_writes left.now ≡ hash_writes right.now }
{
    let _left = left;
    let _right = right;
}

/// The canonical order is `Equal` exactly for the same octets, and is total.
pub fn canonical_order_ties_where_same(left: &[u8], right: &[u8])
    ensures same { (wire_order left.now right.now ≡ Equal) ↔ (left.now ≡ right.now) }
    ensures total { IsTotalOrder wire_order }
{
    let _left = left;
    let _right = right;
}
