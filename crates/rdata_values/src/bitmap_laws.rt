//! Laws of bitmaps, service parameters and lists of strings.
ghost use Rattle.std.specs.Prelude.{◌≡◌, ℕ, ◌+◌, ◌*◌, ◌<◌, List, [], ◌∷◌, ◌++◌, All};
ghost use Rattle.rdata_values.specs.Bitmap.{has, one_if, bit_in, window_octets_of, trimmed, bitmap, types_of, IsAscending, IsBitmap, SameTypes};

/// States that lists with the same bitmap have the same members, and are the same list if both
/// ascend. Does nothing.
pub fn a_bitmap_determines_the_members()
    ensures members { (a b : List ℕ) (code : ℕ) → bitmap a ≡ bitmap b → code < 65536
        → has a code ≡ has b code }
    ensures list { (a b : List ℕ) → bitmap a ≡ bitmap b → IsAscending a → IsAscending b
        → All (λ t. t < 65536) a → All (λ t. t < 65536) b → a ≡ b }
    ensures place { (types : List ℕ) (window place : ℕ) → place < 256
        → bit_in (trimmed (window_octets_of types window)) place ≡ one_if (has types (256 * window + place)) }
{}

/// States that the types of a bitmap are those that it was made from, and have the same bitmap.
/// Does nothing.
pub fn a_bitmap_is_read_back()
    ensures types { (types : List ℕ) → SameTypes (types_of (bitmap types)) types }
    ensures ascending { (types : List ℕ) → IsAscending (types_of (bitmap types)) }
    ensures small { (types : List ℕ) → All (λ t. t < 65536) (types_of (bitmap types)) }
    ensures list { (types : List ℕ) → IsAscending types → All (λ t. t < 65536) types
        → types_of (bitmap types) ≡ types }
    ensures octets { (octets : List ℕ) → IsBitmap octets
        → bitmap (types_of octets) ≡ octets }
{}

/// States that a bitmap depends on which types there are, and not on their order. A type that is
/// added to a set or to a list has the same effect. Does nothing.
pub fn a_bitmap_is_of_a_set()
    ensures bitmap { (a b : List ℕ) → SameTypes a b → bitmap a ≡ bitmap b }
    ensures more { (old new types : List ℕ) (code : ℕ) → SameTypes old types
        → SameTypes new (code ∷ old) → SameTypes new (types ++ code ∷ []) }
{}
