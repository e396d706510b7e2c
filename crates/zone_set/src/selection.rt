//! Selects records of a zone by their types.
ghost use Rattle.std.specs.Prelude.{◌≡◌};
ghost use Rattle.zone_set.specs.Selections.{IsUnlimited, is_selected, is_wanted, includes_signing, includes_soa};

use crate::dnssec::is_dnssec;
use rdata_values::RecordType;

/// Which records of a zone are selected, by their types.
#[derive(Clone, Copy)]
pub struct Selection<'t> {
    /// The types that are selected; if empty, all types.
    pub types: &'t [RecordType],
    /// Whether SOAs are omitted.
    pub without_soa: bool,
    /// Whether the records that signing adds to a zone are omitted ([`is_dnssec`]).
    pub without_dnssec: bool,
    /// Whether all others are omitted.
    pub only_dnssec: bool,
}

/// Returns whether a type is listed, or the list is empty.
fn is_wanted(types: &[RecordType], rtype: RecordType) -> bool
    ensures { result ≡ is_wanted types.now rtype }
{
    types.is_empty() || types.contains(&rtype)
}

impl Selection<'_> {
    /// Returns the selection of all records.
    pub fn all() -> Selection<'static>
        ensures { IsUnlimited result }
    {
        Selection {
            types: &[],
            without_soa: false,
            without_dnssec: false,
            only_dnssec: false,
        }
    }

    /// Returns whether a type is selected as far as SOAs are concerned.
    fn includes_soa(&self, rtype: RecordType) -> bool
        ensures { result ≡ includes_soa self.now rtype }
    {
        !(self.without_soa && rtype == RecordType::SOA)
    }

    /// Returns whether a type is selected as far as signing is concerned.
    fn includes_signing(&self, rtype: RecordType) -> bool
        ensures { result ≡ includes_signing self.now rtype }
    {
        if is_dnssec(rtype) {
            !self.without_dnssec
        } else {
            !self.only_dnssec
        }
    }

    /// Returns whether records of a type are selected.
    pub fn includes(&self, rtype: RecordType) -> bool
        ensures { result ≡ is_selected self.now rtype }
    {
        is_wanted(self.types, rtype) && self.includes_soa(rtype) && self.includes_signing(rtype)
    }
}
