//! Encodes and decodes records of a run: sorted records that are stored outside of memory.
ghost use Rattle.std.specs.Prelude.{◌≡◌, ◌<◌, ◌^◌, ◌++◌, length, IfSome, MatchOption, OnErr, OnOk};
ghost use Rattle.std.specs.Int.{to_be_bytes, w16, w32};
ghost use Rattle.dns_octets.specs.Appending.{Extends};
ghost use Rattle.zone_set.specs.Runs.{length_prefixed, run_octets};

use dns_octets::AsOctets;
use dns_wire::Name;
use rdata_values::{Class, RecordType};
use std::alloc::{AllocError, Allocator};
use zone_record::{Data, Record};

/// Appends the number of octets, and the octets.
fn push_counted<A: Allocator>(out: &mut Vec<u8, A>, octets: &[u8]) -> Result<(), AllocError>
    requires { length octets.now < 2 ^ 16 }
    ensures ok { OnOk result (out.new.items ≡ out.old.items ++ length_prefixed octets.now) }
    ensures err { OnErr result (Extends out.old.items out.new.items) }
{
    let count = octets.len() as u16;
    out.extend_from_slice(&count.to_be_bytes())?;
    out.extend_from_slice(octets)
}

/// Appends a record: its TTL, its class and type, and its owner and its data, each after the number
/// of its octets. Fails if memory is out; then a beginning of these octets may have been appended.
pub fn push_run_record<Owner: AsOctets, Octets: AsOctets, A: Allocator>(
    out: &mut Vec<u8, A>,
    one: &Record<Owner, Octets>,
) -> Result<(), AllocError>
    ensures ok { OnOk result (out.new.items ≡ out.old.items ++ run_octets one.now) }
    ensures err { OnErr result (Extends out.old.items out.new.items) }
{
    out.extend_from_slice(&one.ttl.to_be_bytes())?;
    out.extend_from_slice(&one.class.0.to_be_bytes())?;
    out.extend_from_slice(&one.data.rtype().0.to_be_bytes())?;
    push_counted(out, one.owner.as_slice())?;
    push_counted(out, one.data.as_slice())
}

/// Returns the number of 16 bits with which octets begin, and the octets after it.
fn read_number16(octets: &[u8]) -> Option<(u16, &[u8])>
    ensures { MatchOption result (length octets.now < 2) (λ p. octets.now ≡ to_be_bytes w16 p.0 ++ p.1.now) }
{
    let (front, rest) = octets.split_first_chunk::<2>()?;
    Some((u16::from_be_bytes(*front), rest))
}

/// Returns the number of 32 bits with which octets begin, and the octets after it.
fn read_number32(octets: &[u8]) -> Option<(u32, &[u8])>
    ensures { MatchOption result (length octets.now < 4) (λ p. octets.now ≡ to_be_bytes w32 p.0 ++ p.1.now) }
{
    let (front, rest) = octets.split_first_chunk::<4>()?;
    Some((u32::from_be_bytes(*front), rest))
}

/// Returns the octets that come after their number, and the octets after those.
fn read_counted(octets: &[u8]) -> Option<(&[u8], &[u8])>
    ensures { IfSome result (λ p. octets.now ≡ length_prefixed p.0.now ++ p.1.now) }
{
    let (count, rest) = read_number16(octets)?;
    rest.split_at_checked(usize::from(count))
}

/// Parses the record with which octets of a run begin, and returns it and the octets after it.
/// Returns `None` if the octets don't begin with a whole record, as in a run that was cut or
/// damaged. It allocates nothing.
pub fn read_run_record<'a>(octets: &'a [u8]) -> Option<(Record<&'a [u8], &'a [u8]>, &'a [u8])>
    ensures { IfSome result (λ p. octets.now ≡ run_octets p.0 ++ p.1.now) }
{
    let (ttl, rest) = read_number32(octets)?;
    let (class, rest) = read_number16(rest)?;
    let (rtype, rest) = read_number16(rest)?;
    let (owner, rest) = read_counted(rest)?;
    let (data, rest) = read_counted(rest)?;
    let owner = Name::from_octets(owner).ok()?;
    let data = Data::from_octets(RecordType(rtype), data).ok()?;
    let one = Record {
        owner,
        ttl,
        class: Class(class),
        data,
    };
    Some((one, rest))
}
