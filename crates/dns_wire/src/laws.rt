//! Laws of labels and names in wire format.
ghost use Rattle.std.specs.Prelude.{ℕ, ◌≡◌, ◌⊎◌, List, ◌++◌, Result, None};
ghost use Rattle.std.specs.List.{FoldsTo};
ghost use Rattle.dns_wire.specs.FromOctets.{SplitsIntoLabels, MakesName, MakesRelative};
ghost use Rattle.dns_wire.specs.LabelCalls.{LabelCall, from_front, from_back, yielded_first, backs, YieldsLabel};
ghost use Rattle.dns_wire.specs.declared.error.NameError.{NameError};

use crate::split::rest_of;

/// Calls of `next` and `next_back`, in any order, yield each label once. The labels before the
/// calls are those yielded from the front, the remaining ones, and those yielded from the back.
/// Once either end yields none, all labels were yielded.
///
/// The calls are those of [`NameIter`](crate::NameIter) and of the iterators over chains of names,
/// whose steps are `YieldsFirstLabel` and `YieldsLastLabel`.
pub fn labels_from_both_ends()
    ensures once { (labels left : List (List ℕ)) (takes : List LabelCall)
        → FoldsTo YieldsLabel labels takes left → labels ≡ yielded_first takes ++ (left ++ backs takes) }
    ensures met { (labels left end : List (List ℕ)) (takes : List LabelCall) → FoldsTo YieldsLabel labels takes left
        → YieldsLabel left (from_front None) end ⊎ YieldsLabel left (from_back None) end → labels ≡ yielded_first takes ++ backs takes }
{}

/// Octets split in exactly one way into labels other than the root, and a rest that begins with no
/// such label.
pub fn octets_split_one_way(octets: &[u8])
    ensures some { (labels : List (List ℕ)) × (rest : List ℕ) × SplitsIntoLabels octets.now labels rest }
    ensures one { (labels others : List (List ℕ)) (rest more : List ℕ)
        → SplitsIntoLabels octets.now labels rest → SplitsIntoLabels octets.now others more → (labels ≡ others) × (rest ≡ more) }
{
    let _rest = rest_of(octets);
}

/// Parsing octets has at most one result, an absolute name or an error; so has parsing a relative
/// name.
pub fn octets_have_one_answer()
    ensures absolute { (octets : List ℕ) (left right : Result (List (List ℕ)) NameError)
        → MakesName octets left → MakesName octets right → left ≡ right }
    ensures relative { (octets : List ℕ) (left right : Result (List (List ℕ)) NameError)
        → MakesRelative octets left → MakesRelative octets right → left ≡ right }
{}
