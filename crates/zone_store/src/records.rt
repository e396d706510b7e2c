//! Records of a group as octets: all that a record has besides its owner.
ghost use Rattle.std.specs.Prelude.{◌≡◌, ◌↔◌, ◌<◌, ◌≤◌, ◌^◌, ◌++◌, drop, get_or, length, true, IfSome, IsSome, OnOk, OnErr};
ghost use Rattle.dns_octets.specs.Appending.{Extends};
ghost use Rattle.zone_store.specs.Counted.{after_counted};
ghost use Rattle.zone_store.specs.Parts.{record_parts, parts_octets, numbers_octets, other_numbers, usual_numbers, usual_ttls, index_of, is_usual, is_short, short_octets, long_octets, header_octets, position_octets, octets16, octets32, octets64, begins_parts, begins_usual, begins_other, begins_short, begins_long, first_parts, first_usual, first_other, first_short, first_whole, after_parts, after_other};

use crate::counted::{push_counted, split_counted};
use rdata_values::{Class, RecordType};
use std::alloc::{AllocError, Allocator};

/// What a record has besides its owner and its RDATA.
#[derive(Clone, Copy)]
pub struct EntryHeader {
    pub rtype: RecordType,
    pub class: Class,
    pub ttl: u32,
    /// Number of the file that it comes from.
    pub file: u32,
    /// Offset in that file.
    pub offset: u64,
}

/// A record of a group: all but its owner.
#[derive(Clone, Copy)]
pub struct GroupEntry<'a> {
    pub header: EntryHeader,
    /// RDATA in wire format.
    pub rdata: &'a [u8],
}

/// The type and the RDATA of a record of class IN.
#[derive(Clone, Copy)]
pub(crate) struct UsualData<'a> {
    pub rtype: RecordType,
    pub rdata: &'a [u8],
}

/// First octet of a record of class IN whose other numbers are small. A usual record begins with its
/// type, which is less.
const SHORT: u8 = 253;

/// First octet of any other record.
const LONG: u8 = 254;

/// One more than the greatest offset of a usual record.
const FAR: u64 = 68719476736;

/// Returns the index of a TTL among those that records mostly have, or their number.
fn usual_index(ttl: u32) -> u8
    ensures value { result ≡ index_of ttl usual_ttls }
    ensures least { result ≤ 16 }
{
    match ttl {
        0 => 0,
        60 => 1,
        300 => 2,
        600 => 3,
        900 => 4,
        1800 => 5,
        3600 => 6,
        7200 => 7,
        10800 => 8,
        14400 => 9,
        21600 => 10,
        28800 => 11,
        43200 => 12,
        86400 => 13,
        172800 => 14,
        604800 => 15,
        _ => 16,
    }
}

/// Returns the TTL with an index among those that records mostly have.
fn usual_ttl(index: u8) -> u32
    ensures { result ≡ get_or usual_ttls index 0 }
{
    match index {
        1 => 60,
        2 => 300,
        3 => 600,
        4 => 900,
        5 => 1800,
        6 => 3600,
        7 => 7200,
        8 => 10800,
        9 => 14400,
        10 => 21600,
        11 => 28800,
        12 => 43200,
        13 => 86400,
        14 => 172800,
        15 => 604800,
        _ => 0,
    }
}

/// Appends a number as two octets, the most significant first.
#[tactic(auto, unfolding(crate::specs::Parts::octets16))]
fn push_u16<A: Allocator>(number: u16, out: &mut Vec<u8, A>) -> Result<(), AllocError>
    ensures ok { OnOk result (out.new.items ≡ out.old.items ++ octets16 number) }
    ensures err { OnErr result (Extends out.old.items out.new.items) }
{
    out.extend_from_slice(&number.to_be_bytes())
}

/// Appends a number as four octets, the most significant first.
#[tactic(auto, unfolding(crate::specs::Parts::octets32))]
fn push_u32<A: Allocator>(number: u32, out: &mut Vec<u8, A>) -> Result<(), AllocError>
    ensures ok { OnOk result (out.new.items ≡ out.old.items ++ octets32 number) }
    ensures err { OnErr result (Extends out.old.items out.new.items) }
{
    out.extend_from_slice(&number.to_be_bytes())
}

/// Appends a number as eight octets, the most significant first.
#[tactic(auto, unfolding(crate::specs::Parts::octets64))]
fn push_u64<A: Allocator>(number: u64, out: &mut Vec<u8, A>) -> Result<(), AllocError>
    ensures ok { OnOk result (out.new.items ≡ out.old.items ++ octets64 number) }
    ensures err { OnErr result (Extends out.old.items out.new.items) }
{
    out.extend_from_slice(&number.to_be_bytes())
}

/// Appends the first octet of a record, its type, class and TTL. Fails without memory; the
/// first octets may then have been appended.
fn push_header<A: Allocator>(added: &GroupEntry<'_>, out: &mut Vec<u8, A>) -> Result<(), AllocError>
    ensures ok { OnOk result (out.new.items ≡ out.old.items ++ header_octets (record_parts added.now)) }
    ensures err { OnErr result (Extends out.old.items out.new.items) }
{
    out.push(LONG)?;
    push_u16(added.header.rtype.0, out)?;
    push_u16(added.header.class.0, out)?;
    push_u32(added.header.ttl, out)
}

/// Appends the file and the offset of a record. Fails without memory; the first octets may
/// then have been appended.
fn push_position<A: Allocator>(
    added: &GroupEntry<'_>,
    out: &mut Vec<u8, A>,
) -> Result<(), AllocError>
    ensures ok { OnOk result (out.new.items ≡ out.old.items ++ position_octets (record_parts added.now)) }
    ensures err { OnErr result (Extends out.old.items out.new.items) }
{
    push_u32(added.header.file, out)?;
    push_u64(added.header.offset, out)
}

/// Returns whether a record's class is IN and its type, file and offset take few octets.
fn is_short(added: &GroupEntry<'_>) -> bool
    ensures value { result ≡ is_short (record_parts added.now) }
    ensures code { result ≡ true → added.now.header.rtype < 256 }
    ensures file { result ≡ true → added.now.header.file < 256 }
    ensures offset { result ≡ true → added.now.header.offset < 2 ^ 32 }
{
    added.header.rtype.0 < 256
        && added.header.file < 256
        && added.header.offset < 4294967296
        && added.header.class.0 == Class::IN.0
}

/// Appends the numbers of a short record. Fails without memory; the first octets may then
/// have been appended.
fn push_short<A: Allocator>(added: &GroupEntry<'_>, out: &mut Vec<u8, A>) -> Result<(), AllocError>
    requires code { added.now.header.rtype < 256 }
    requires file { added.now.header.file < 256 }
    requires offset { added.now.header.offset < 2 ^ 32 }
    ensures ok { OnOk result (out.new.items ≡ out.old.items ++ short_octets (record_parts added.now)) }
    ensures err { OnErr result (Extends out.old.items out.new.items) }
{
    out.extend_from_slice(&[SHORT, added.header.rtype.0 as u8, added.header.file as u8])?;
    push_u32(added.header.ttl, out)?;
    push_u32(added.header.offset as u32, out)
}

/// Appends the numbers of any record. Fails without memory; the first octets may then have
/// been appended.
fn push_long<A: Allocator>(added: &GroupEntry<'_>, out: &mut Vec<u8, A>) -> Result<(), AllocError>
    ensures ok { OnOk result (out.new.items ≡ out.old.items ++ long_octets (record_parts added.now)) }
    ensures err { OnErr result (Extends out.old.items out.new.items) }
{
    push_header(added, out)?;
    push_position(added, out)
}

/// Appends the numbers of a record that is not usual. Fails without memory; the first octets may then
/// have been appended.
fn push_other<A: Allocator>(added: &GroupEntry<'_>, out: &mut Vec<u8, A>) -> Result<(), AllocError>
    ensures ok { OnOk result (out.new.items ≡ out.old.items ++ other_numbers added.now) }
    ensures err { OnErr result (Extends out.old.items out.new.items) }
{
    if is_short(added) {
        push_short(added, out)
    } else {
        push_long(added, out)
    }
}

/// Returns whether a record is usual: whether its class is IN, its file the first one, its TTL one
/// that records mostly have, and its type and offset take few octets.
fn is_usual(added: &GroupEntry<'_>) -> bool
    ensures value { result ≡ is_usual (record_parts added.now) }
    ensures code { result ≡ true → added.now.header.rtype < 253 }
    ensures offset { result ≡ true → added.now.header.offset < 2 ^ 36 }
    ensures ttl { result ≡ true → index_of added.now.header.ttl usual_ttls < 16 }
{
    added.header.rtype.0 < 253
        && usual_index(added.header.ttl) < 16
        && added.header.offset < FAR
        && added.header.file == 0
        && added.header.class.0 == Class::IN.0
}

/// Appends the numbers of a usual record. Fails without memory; the first octets may then have been
/// appended.
fn push_usual<A: Allocator>(added: &GroupEntry<'_>, out: &mut Vec<u8, A>) -> Result<(), AllocError>
    requires code { added.now.header.rtype < 253 }
    requires offset { added.now.header.offset < 2 ^ 36 }
    requires ttl { index_of added.now.header.ttl usual_ttls < 16 }
    ensures ok { OnOk result (out.new.items ≡ out.old.items ++ usual_numbers added.now) }
    ensures err { OnErr result (Extends out.old.items out.new.items) }
{
    let offset = added.header.offset;
    let second = usual_index(added.header.ttl) + 16 * (offset / 4294967296) as u8;
    out.extend_from_slice(&[added.header.rtype.0 as u8, second])?;
    push_u32((offset % 4294967296) as u32, out)
}

/// Appends the numbers of a record. Fails without memory; the first octets may then have
/// been appended.
#[tactic(auto, unfolding(crate::specs::Parts::numbers_octets))]
fn push_numbers<A: Allocator>(
    added: &GroupEntry<'_>,
    out: &mut Vec<u8, A>,
) -> Result<(), AllocError>
    ensures ok { OnOk result (out.new.items ≡ out.old.items ++ numbers_octets (record_parts added.now)) }
    ensures err { OnErr result (Extends out.old.items out.new.items) }
{
    if is_usual(added) {
        push_usual(added, out)
    } else {
        push_other(added, out)
    }
}

/// Appends a record: its numbers, then its RDATA after the length
/// ([`push_counted`](crate::push_counted)).
///
/// Fails without memory; the first octets of the record may then have been appended.
#[tactic(auto, unfolding(crate::specs::Parts::parts_octets))]
pub fn append_stored<A: Allocator>(
    added: &GroupEntry<'_>,
    out: &mut Vec<u8, A>,
) -> Result<(), AllocError>
    requires { length added.now.rdata.now < 2 ^ 16 }
    ensures ok { OnOk result (out.new.items ≡ out.old.items ++ parts_octets (record_parts added.now)) }
    ensures err { OnErr result (Extends out.old.items out.new.items) }
{
    push_numbers(added, out)?;
    push_counted(added.rdata, out)
}

/// Splits octets that begin with a short record.
fn split_short(octets: &[u8]) -> Option<(GroupEntry<'_>, &[u8])>
    ensures some { IsSome result ↔ (begins_short octets.now ≡ true) }
    ensures value { IfSome result (λ r. record_parts r.0 ≡ first_short octets.now) }
    ensures rest { IfSome result (λ r. r.1.now ≡ after_counted (drop 11 octets.now)) }
{
    let (head, counted) = octets.split_first_chunk::<11>()?;
    if head[0] != SHORT {
        return None;
    }
    let (rdata, rest) = split_counted(counted);
    let header = EntryHeader {
        rtype: RecordType(u16::from(head[1])),
        class: Class::IN,
        ttl: u32::from_be_bytes([head[3], head[4], head[5], head[6]]),
        file: u32::from(head[2]),
        offset: u64::from(u32::from_be_bytes([head[7], head[8], head[9], head[10]])),
    };
    Some((GroupEntry { header, rdata }, rest))
}

/// Splits octets that begin with a record that is not short.
fn split_long(octets: &[u8]) -> Option<(GroupEntry<'_>, &[u8])>
    ensures some { IsSome result ↔ (begins_long octets.now ≡ true) }
    ensures value { IfSome result (λ r. record_parts r.0 ≡ first_whole octets.now) }
    ensures rest { IfSome result (λ r. r.1.now ≡ after_counted (drop 21 octets.now)) }
{
    let (head, counted) = octets.split_first_chunk::<21>()?;
    if head[0] != LONG {
        return None;
    }
    let (rdata, rest) = split_counted(counted);
    let header = EntryHeader {
        rtype: RecordType(u16::from_be_bytes([head[1], head[2]])),
        class: Class(u16::from_be_bytes([head[3], head[4]])),
        ttl: u32::from_be_bytes([head[5], head[6], head[7], head[8]]),
        file: u32::from_be_bytes([head[9], head[10], head[11], head[12]]),
        offset: u64::from_be_bytes([
            head[13], head[14], head[15], head[16], head[17], head[18], head[19], head[20],
        ]),
    };
    Some((GroupEntry { header, rdata }, rest))
}

/// Splits octets that begin with a record that is not usual.
fn split_other(octets: &[u8]) -> Option<(GroupEntry<'_>, &[u8])>
    ensures some { IsSome result ↔ (begins_other octets.now ≡ true) }
    ensures value { IfSome result (λ r. record_parts r.0 ≡ first_other octets.now) }
    ensures rest { IfSome result (λ r. r.1.now ≡ after_other octets.now) }
{
    match split_short(octets) {
        Some(split) => Some(split),
        None => split_long(octets),
    }
}

/// Splits octets that begin with a usual record.
fn split_usual(octets: &[u8]) -> Option<(GroupEntry<'_>, &[u8])>
    ensures some { IsSome result ↔ (begins_usual octets.now ≡ true) }
    ensures value { IfSome result (λ r. record_parts r.0 ≡ first_usual octets.now) }
    ensures rest { IfSome result (λ r. r.1.now ≡ after_counted (drop 6 octets.now)) }
{
    let (head, counted) = octets.split_first_chunk::<6>()?;
    if head[0] >= SHORT {
        return None;
    }
    let (rdata, rest) = split_counted(counted);
    let low = u32::from_be_bytes([head[2], head[3], head[4], head[5]]);
    let header = EntryHeader {
        rtype: RecordType(u16::from(head[0])),
        class: Class::IN,
        ttl: usual_ttl(head[1] % 16),
        file: 0,
        offset: u64::from(head[1] / 16) * 4294967296 + u64::from(low),
    };
    Some((GroupEntry { header, rdata }, rest))
}

/// Splits octets that begin with a record as [`append_stored`] appends it. Returns `None` if they begin
/// with none.
pub fn split_record(octets: &[u8]) -> Option<(GroupEntry<'_>, &[u8])>
    ensures some { IsSome result ↔ (begins_parts octets.now ≡ true) }
    ensures value { IfSome result (λ r. record_parts r.0 ≡ first_parts octets.now) }
    ensures rest { IfSome result (λ r. r.1.now ≡ after_parts octets.now) }
{
    match split_usual(octets) {
        Some(split) => Some(split),
        None => split_other(octets),
    }
}

/// Returns the class and the type of a usual record that octets begin with.
fn usual_type(octets: &[u8]) -> Option<(Class, RecordType)>
    ensures some { IsSome result ↔ (begins_usual octets.now ≡ true) }
    ensures class { IfSome result (λ t. t.0 ≡ (first_usual octets.now).class) }
    ensures rtype { IfSome result (λ t. t.1 ≡ (first_usual octets.now).code) }
{
    let (head, _) = octets.split_first_chunk::<6>()?;
    if head[0] >= SHORT {
        return None;
    }
    Some((Class::IN, RecordType(u16::from(head[0]))))
}

/// Returns the type and the RDATA of a usual record that octets begin with. Its class is IN.
pub(crate) fn usual_data(octets: &[u8]) -> Option<UsualData<'_>>
    ensures some { IsSome result ↔ (begins_usual octets.now ≡ true) }
    ensures rtype { IfSome result (λ d. d.rtype ≡ (first_usual octets.now).code) }
    ensures rdata { IfSome result (λ d. d.rdata.now ≡ (first_usual octets.now).rdata) }
{
    let (head, counted) = octets.split_first_chunk::<6>()?;
    if head[0] >= SHORT {
        return None;
    }
    Some(UsualData {
        rtype: RecordType(u16::from(head[0])),
        rdata: split_counted(counted).0,
    })
}

/// Returns the class and the type of a short record that octets begin with.
fn short_type(octets: &[u8]) -> Option<(Class, RecordType)>
    ensures some { IsSome result ↔ (begins_short octets.now ≡ true) }
    ensures class { IfSome result (λ t. t.0 ≡ (first_short octets.now).class) }
    ensures rtype { IfSome result (λ t. t.1 ≡ (first_short octets.now).code) }
{
    let (head, _) = octets.split_first_chunk::<11>()?;
    if head[0] != SHORT {
        return None;
    }
    Some((Class::IN, RecordType(u16::from(head[1]))))
}

/// Returns the class and the type of a record that octets begin with and that is not short.
fn long_type(octets: &[u8]) -> Option<(Class, RecordType)>
    ensures some { IsSome result ↔ (begins_long octets.now ≡ true) }
    ensures class { IfSome result (λ t. t.0 ≡ (first_whole octets.now).class) }
    ensures rtype { IfSome result (λ t. t.1 ≡ (first_whole octets.now).code) }
{
    let (head, _) = octets.split_first_chunk::<21>()?;
    if head[0] != LONG {
        return None;
    }
    let rtype = RecordType(u16::from_be_bytes([head[1], head[2]]));
    Some((Class(u16::from_be_bytes([head[3], head[4]])), rtype))
}

/// Returns the class and the type of a record that octets begin with and that is not usual.
fn other_type(octets: &[u8]) -> Option<(Class, RecordType)>
    ensures some { IsSome result ↔ (begins_other octets.now ≡ true) }
    ensures class { IfSome result (λ t. t.0 ≡ (first_other octets.now).class) }
    ensures rtype { IfSome result (λ t. t.1 ≡ (first_other octets.now).code) }
{
    match short_type(octets) {
        Some(found) => Some(found),
        None => long_type(octets),
    }
}

/// Returns the class and the type of the record that octets begin with. Returns `None` if they begin
/// with none. Reads neither the RDATA nor their length.
pub(crate) fn first_type(octets: &[u8]) -> Option<(Class, RecordType)>
    ensures some { IsSome result ↔ (begins_parts octets.now ≡ true) }
    ensures class { IfSome result (λ t. t.0 ≡ (first_parts octets.now).class) }
    ensures rtype { IfSome result (λ t. t.1 ≡ (first_parts octets.now).code) }
{
    match usual_type(octets) {
        Some(found) => Some(found),
        None => other_type(octets),
    }
}
