//! Returns the record of an entry that was read.
ghost use Rattle.zone_reader.specs.Returned.{ReturnsRecord};

use crate::entry::ParsedEntry;
use crate::state::State;
use rdata_fields::RecordRef;

impl State {
    /// Returns the record of the last entry that was read, whose data is `octets`, or `None` if the
    /// entry was not a record or no owner is known.
    pub fn record<'a>(&'a self, read: &ParsedEntry, octets: &'a [u8]) -> Option<RecordRef<'a>>
        ensures { ReturnsRecord self.now read.now octets.now result }
    {
        let ParsedEntry::Record {
            ttl,
            class,
            rtype,
            ..
        } = read
        else {
            return None;
        };
        let Ok(owner) = self.owner() else {
            return None;
        };
        Some(RecordRef {
            owner: owner.as_slice(),
            ttl: ttl.seconds(),
            class: *class,
            rtype: *rtype,
            data: octets,
        })
    }
}
