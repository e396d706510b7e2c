//! Facts about all keys and records.
ghost use Rattle.std.specs.Prelude.{ℕ, ◌≡◌, ◌<◌, All, List};
ghost use Rattle.std.specs.Ordering.{ordering_then};
ghost use Rattle.zone_record.specs.Names.{octet_order};
ghost use Rattle.zone_store.specs.Canonical.{AreInCanonicalOrder};
ghost use Rattle.zone_store.specs.Prefixes.{prefix_cmp, rests_cmp};
ghost use Rattle.zone_store.specs.Stored.{AddedRecord};

/// States that two lists of octets compare as their first octets do as numbers. If these are equal,
/// they compare as themselves, and so as the octets that follow, and then by their lengths.
pub fn prefixes_decide()
    ensures whole { (n : ℕ) (a b : List ℕ) → All (λ o. o < 256) a → All (λ o. o < 256) b
        → octet_order a b ≡ ordering_then (prefix_cmp n a b) (octet_order a b) }
    ensures rest { (n : ℕ) (a b : List ℕ) → All (λ o. o < 256) a → All (λ o. o < 256) b
        → octet_order a b ≡ ordering_then (prefix_cmp n a b) (rests_cmp n a b) }
{}

/// States that two records compare in canonical order (RFC 4034 section 6) if their keys are those of
/// names and their RDATA is of their types.
pub fn records_are_in_canonical_order()
    ensures { (a b : AddedRecord) → AreInCanonicalOrder a b }
{}
