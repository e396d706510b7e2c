//! Laws of bitmaps, service parameters and lists of strings.
ghost use Rattle.std.specs.Prelude.{◌≡◌, ℕ, ◌<◌, List, All};
ghost use Rattle.std.specs.List.{flat_map};
ghost use Rattle.rdata_svcb.specs.Texts.{list_text, IsList};
ghost use Rattle.rdata_svcb.specs.Params.{param, params_wire, params_of, value_at, HasAscendingKeys, HasFittingValues, IsParams};

/// States that parameters with the same wire format have the same value at each key. If the keys
/// ascend, the wire format is that of each parameter, one after another. Does nothing.
pub fn parameters_are_determined_by_their_octets()
    ensures values { (a b : List (ℕ × List ℕ)) (key : ℕ)
        → HasFittingValues a → HasFittingValues b
        → params_wire a ≡ params_wire b → key < 65536 → value_at a key ≡ value_at b key }
    ensures order { (params : List (ℕ × List ℕ)) → HasAscendingKeys params
        → All (λ p. p.0 < 65536) params → HasFittingValues params
        → params_wire params ≡ flat_map (λ p. param p.0 p.1) params }
{}

/// States that a wire format is that of ascending parameters, which parse from it with the same
/// values. Does nothing.
pub fn parameters_are_read_back()
    ensures wire { (params : List (ℕ × List ℕ)) → HasFittingValues params
        → IsParams (params_wire params) }
    ensures values { (params : List (ℕ × List ℕ)) (key : ℕ)
        → HasFittingValues params → key < 65536
        → value_at (params_of (params_wire params)) key ≡ value_at params key }
    ensures list { (params : List (ℕ × List ℕ)) → HasAscendingKeys params
        → All (λ p. p.0 < 65536) params → HasFittingValues params
        → params_of (params_wire params) ≡ params }
    ensures octets { (octets : List ℕ) → IsParams octets
        → params_wire (params_of octets) ≡ octets }
    ensures ascending { (octets : List ℕ) → IsParams octets
        → HasAscendingKeys (params_of octets) }
    ensures fitting { (octets : List ℕ) → IsParams octets
        → HasFittingValues (params_of octets) }
    ensures small { (octets : List ℕ) → IsParams octets
        → All (λ p. p.0 < 65536) (params_of octets) }
{}

/// States that a text is that of one list of strings, so parsing what was printed returns the list.
/// Does nothing.
pub fn a_text_is_that_of_one_list()
    ensures { (a b : List (List ℕ)) → IsList a → IsList b
        → list_text a ≡ list_text b → a ≡ b }
{}
