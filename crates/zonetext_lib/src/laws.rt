//! Laws of laying out zone files.
//! Each function's contract is the law; calling it does nothing.
ghost use Rattle.std.specs.Prelude.{◌≡◌, ℕ, List, false};
ghost use Rattle.zonetext_lib.specs.declared.layout.Gap.{Gap};
ghost use Rattle.zonetext_lib.specs.Entries.{HasEntries, ComparedPart};
ghost use Rattle.zonetext_lib.specs.Layout.{laid_out};

/// Octets have at most one list of entries.
pub fn entries_come_one_way()
    ensures { (octets : List ℕ) (es fs : List ComparedPart)
        → HasEntries octets es → HasEntries octets fs → es ≡ fs }
{}

/// The result of laying out is of the grammar, with the same entries and the same leading blanks.
pub fn layout_keeps_entries()
    ensures { (octets : List ℕ) (gap : Gap) (es : List ComparedPart)
        → HasEntries octets es → HasEntries (laid_out gap false es) es }
{}

/// Laying out is idempotent.
pub fn layout_is_stable()
    ensures { (octets : List ℕ) (gap : Gap) (es fs : List ComparedPart)
        → HasEntries octets es → HasEntries (laid_out gap false es) fs
        → laid_out gap false fs ≡ laid_out gap false es }
{}
