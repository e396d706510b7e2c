//! What the records of a zone have in common.
ghost use Rattle.std.specs.Prelude.{◌≡◌, IfSome, false};
ghost use Rattle.zone_contents.specs.Summaries.{no_summary, summary_with};
ghost use Rattle.zone_rules.specs.Above.{is_wildcard};

use dns_octets::AsOctets;
use dns_wire::Name;
use rdata_values::{Class, RecordType};
use zone_record::Record;
use zone_rules::names::octets_of;

/// What records have in common.
#[derive(Clone, Copy)]
pub struct Summary {
    /// Whether one of the records is a DNAME.
    pub has_dname: bool,
    /// Whether the owner of one of the records is a wildcard.
    pub has_wildcard: bool,
    /// Whether there is no record.
    pub is_empty: bool,
    /// Whether the records are of several classes.
    pub has_classes: bool,
    /// Class of the last record.
    pub class: Class,
}

/// Returns whether the first label of a name is `*` (RFC 4592 section 2.1.1).
fn is_wildcard_name<Octets: AsOctets>(name: &Name<Octets>) -> bool
    ensures { result ≡ is_wildcard name.now }
{
    matches!(octets_of(name), [1, b'*', ..])
}

impl Summary {
    /// Returns the class of all records, or `None` if they are of several.
    pub(crate) fn class(&self) -> Option<Class>
        ensures { IfSome result (λ c. (self.now.has_classes ≡ false) × (c ≡ self.now.class)) }
    {
        if self.has_classes {
            None
        } else {
            Some(self.class)
        }
    }

    /// Returns what no records have in common.
    pub(crate) fn none() -> Summary
        ensures { result ≡ no_summary }
    {
        Summary {
            has_dname: false,
            has_wildcard: false,
            is_empty: true,
            has_classes: false,
            class: Class::IN,
        }
    }

    /// Returns what records have in common after one was added.
    pub(crate) fn with<Owner: AsOctets, Octets: AsOctets>(
        self,
        record: &Record<Owner, Octets>,
    ) -> Summary
        ensures { result ≡ summary_with self «record».now }
    {
        Summary {
            has_dname: self.has_dname || record.data.rtype() == RecordType::DNAME,
            has_wildcard: self.has_wildcard || is_wildcard_name(&record.owner),
            is_empty: false,
            has_classes: self.has_classes || !(self.is_empty || self.class == record.class),
            class: record.class,
        }
    }
}
