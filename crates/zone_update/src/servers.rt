//! The names of a zone's name servers.
ghost use Rattle.std.specs.Prelude.{◌≡◌, ◌++◌, OnOk};
ghost use Rattle.zone_update.specs.Parts.{seen, server_names};

use crate::operation::is_apex_ns;
use dns_octets::AsOctets;
use dns_wire::Name;
use std::alloc::{AllocError, Allocator};
use zone_record::Record;

/// Appends the names of the name servers of a zone, in wire format: the RDATA of the NS records at
/// its apex. Fails if memory is out; then some may have been appended.
pub fn push_server_names<'r, Apex: AsOctets, Owner: AsOctets, Octets: AsOctets, A: Allocator>(
    apex: &Name<Apex>,
    records: &'r [Record<Owner, Octets>],
    out: &mut Vec<&'r [u8], A>,
) -> Result<(), AllocError>
    ensures { OnOk result (seen out.new.items
        ≡ seen out.old.items ++ server_names apex.now records.now) }
{
    for one in records {
        if is_apex_ns(apex, one) {
            out.push(one.data.as_slice())?;
        }
    }
    Ok(())
}
