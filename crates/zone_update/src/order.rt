//! The order of the operations of a message.
ghost use Rattle.std.specs.Prelude.{◌≡◌, ◌++◌, IfOk, OnOk};
ghost use Rattle.zone_update.specs.Messages.{in_phase, in_phases, phase_of};

use crate::operation::{Operation, is_apex_ns};
use dns_octets::AsOctets;
use dns_wire::Name;
use std::alloc::{AllocError, Allocator};

/// Returns the phase of an operation: name servers of the zone are added in phase 0, records are
/// deleted in phase 1, and all other records are added in phase 2.
fn phase_of<Apex: AsOctets, Owner: AsOctets, Octets: AsOctets>(
    apex: &Name<Apex>,
    operation: &Operation<'_, Owner, Octets>,
) -> u8
    ensures { result ≡ phase_of apex.now operation.now }
{
    match *operation {
        Operation::Delete(_) => 1,
        Operation::Add(one) => { if is_apex_ns(apex, one) { 0 } else { 2 } }
    }
}

/// Appends the operations of a phase.
fn push_phase<'a, Apex: AsOctets, Owner: AsOctets, Octets: AsOctets, A: Allocator>(
    apex: &Name<Apex>,
    phase: u8,
    operations: &[Operation<'a, Owner, Octets>],
    out: &mut Vec<Operation<'a, Owner, Octets>, A>,
) -> Result<(), AllocError>
    ensures { OnOk result (out.new.items
        ≡ out.old.items ++ in_phase apex.now phase operations.now) }
{
    for operation in operations {
        if phase_of(apex, operation) == phase {
            out.push(*operation)?;
        }
    }
    Ok(())
}

/// Returns operations in the order of their phases. In each phase they stay in their order. Fails
/// if memory is out.
pub(crate) fn in_phases<'a, Apex: AsOctets, Owner: AsOctets, Octets: AsOctets, A: Allocator>(
    alloc: A,
    apex: &Name<Apex>,
    operations: &[Operation<'a, Owner, Octets>],
) -> Result<Vec<Operation<'a, Owner, Octets>, A>, AllocError>
    ensures { IfOk result (λ v. v.items ≡ in_phases apex.now operations.now) }
{
    let mut out = Vec::new(alloc);
    push_phase(apex, 0, operations, &mut out)?;
    push_phase(apex, 1, operations, &mut out)?;
    push_phase(apex, 2, operations, &mut out)?;
    Ok(out)
}
