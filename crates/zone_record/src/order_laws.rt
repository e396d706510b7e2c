//! Laws of all names, RDATA and records.
ghost use Rattle.std.specs.Prelude.{ℕ, ◌≡◌, ◌↔◌, List, length};
ghost use Rattle.std.specs.Cmp.{IsTotalOrder};
ghost use Rattle.std.specs.declared.cmp.Ordering.TheVariants.{Equal};
ghost use Rattle.dns_octets.specs.Lowered.{lowered};
ghost use Rattle.rdata_tokens.specs.NameSpelling.{IsWireName};
ghost use Rattle.rdata_fields.specs.declared.field.Field.{Field};
ghost use Rattle.rdata_values.specs.declared.types.RecordType.{RecordType};
ghost use Rattle.zone_record.specs.FieldForms.{StartsWithFields, CanonicalFields};
ghost use Rattle.zone_record.specs.FormLaws.{EachForm, HasFormWhereBegun, IsOnlyForm, KeepsOctetsAfterFields, StartsUntexted};
ghost use Rattle.zone_record.specs.Names.{octet_order, name_order};
ghost use Rattle.zone_record.specs.OrderLaws.{ExtendsKeyByLabel, HasShortKey, IsOrderedByKey, IsTiedByKey, IsTiedByLowering, IsWithinByKey, LowersByLabels, PrecedesNamesBelow, PrecedesLongerOctets};
ghost use Rattle.zone_record.specs.CanonicalRecords.{RecordKey, record_order};

/// States that lowering all octets of a name in wire format lowers its labels and nothing else,
/// since no length octet is a letter. The result is a name, and lowering it again changes nothing.
/// Does nothing.
pub fn names_are_lowered_by_labels()
    ensures labels { (labels : List (List ℕ)) → LowersByLabels labels }
    ensures name { (form : List ℕ) → IsWireName form → IsWireName (lowered form) }
    ensures again { (octets : List ℕ) → lowered (lowered octets) ≡ lowered octets }
{}

/// States that the order of names is total, and equal exactly if their canonical forms are. A name
/// is before the names below it. Does nothing.
pub fn names_are_ordered()
    ensures total { IsTotalOrder name_order }
    ensures equal { (a b : List (List ℕ)) → IsTiedByLowering a b }
    ensures below { (name : List (List ℕ)) (label : List ℕ) → PrecedesNamesBelow name label }
{}

/// States that order keys compare octet by octet as their names do in canonical order, that two
/// names have one key if and only if they differ at most in case, and that a name's key begins with
/// the key of another if and only if the name is the other or below it. The length of a key is at
/// most twice that of the name in wire format, less one for each label. Does nothing.
pub fn keys_are_ordered_as_names()
    ensures order { (a b : List (List ℕ)) → IsOrderedByKey a b }
    ensures equal { (a b : List (List ℕ)) → IsTiedByKey a b }
    ensures within { (name top : List (List ℕ)) → IsWithinByKey name top }
    ensures below { (label : List ℕ) (name : List (List ℕ)) → ExtendsKeyByLabel label name }
    ensures length { (labels : List (List ℕ)) → HasShortKey labels }
{}

/// States that the order of octets is total, and equal exactly if the octets are. Octets are before
/// longer ones that begin with them. Does nothing.
pub fn octets_are_ordered()
    ensures total { IsTotalOrder octet_order }
    ensures equal { (a b : List ℕ) → (octet_order a b ≡ Equal) ↔ (a ≡ b) }
    ensures absent { (octets more : List ℕ) (octet : ℕ) → PrecedesLongerOctets octets octet more }
{}

/// States that the order of records is total, and equal exactly if the owners are equal in order
/// and class, type and RDATA are the same. Does nothing.
pub fn records_are_ordered()
    ensures total { IsTotalOrder record_order }
    ensures equal { (a b : RecordKey) → (record_order a b ≡ Equal)
        ↔ ((name_order a.owner b.owner ≡ Equal) × (a.class ≡ b.class) × (a.rtype ≡ b.rtype) × (a.octets ≡ b.octets)) }
{}

/// States that RDATA that begins with fields has one canonical form, and that no other RDATA has
/// one. The form has the same length, and differs at most in the case of letters. It begins with
/// these fields, and is its own canonical form. Octets after the fields are unchanged. RDATA of
/// every type begins with its [`untexted_fields`](crate::untexted_fields). Does nothing.
pub fn data_has_one_canonical_form()
    ensures some { (fields : List Field) (octets : List ℕ) → HasFormWhereBegun fields octets }
    ensures one { EachForm IsOnlyForm }
    ensures length { EachForm (λ fields octets form. length form ≡ length octets) }
    ensures fields { EachForm (λ fields octets form. StartsWithFields fields form) }
    ensures alike { EachForm (λ fields octets form. lowered form ≡ lowered octets) }
    ensures behind { EachForm KeepsOctetsAfterFields }
    ensures again { EachForm (λ fields octets form. CanonicalFields fields form form) }
    ensures untexted { (rtype : RecordType) (octets : List ℕ) → StartsUntexted rtype octets }
{}
