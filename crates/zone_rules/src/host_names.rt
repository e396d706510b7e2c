//! Checks host names (RFC 952, RFC 1123 section 2.1), and which names in records must be host
//! names.
ghost use Rattle.std.specs.Prelude.{◌≡◌, ◌-◌, ◌∷◌, [], Some, IfSome, codes, length, true};
ghost use Rattle.std.specs.List.{list_all};
ghost use Rattle.std.specs.Option.{option_copied, option_map_or};
ghost use Rattle.rdata_values.specs.Rtype as Rtype;
ghost use Rattle.rdata_tokens.specs.NameSpelling.{IsWireName};
ghost use Rattle.zone_record.specs.Parts.{data_part};
ghost use Rattle.zone_rules.specs.Above.{first_label_of, is_below, parent_of};
ghost use Rattle.zone_rules.specs.HostNames.{asks_for_host, has_hyphen_at, is_address_type, is_bad_host_name, is_bad_mailbox, is_bad_owner, is_bad_target, is_catalog_name, is_graphic, is_host_label, is_host_name, is_host_octet, is_host_owner, is_mailbox_name, is_reverse_name, name_in, target_field, IsNameField};
ghost use Rattle.zone_rules.specs.Zones.{type_of};

use crate::names::{first_label, is_name_below, name_of, parent};
use crate::zone_records::ZoneRecord;
use dns_octets::AsOctets;
use dns_octets::lowered::same_octets;
use dns_wire::Name;
use rdata_values::RecordType;
use zone_record::Data;

/// The top of the tree of IPv4 addresses (RFC 1035 section 3.5).
const IN_ADDR_ARPA: &[u8] = b"\x07in-addr\x04arpa\x00";

/// The top of the tree of IPv6 addresses (RFC 3596 section 2.5).
const IP6_ARPA: &[u8] = b"\x03ip6\x04arpa\x00";

/// Returns whether an octet is a letter, a digit or a hyphen.
fn is_host_octet(octet: u8) -> bool
    ensures { result ≡ is_host_octet octet }
{
    octet.is_ascii_alphanumeric() || octet == b'-'
}

/// Returns whether octets are letters, digits and hyphens.
fn are_host_octets(octets: &[u8]) -> bool
    ensures { result ≡ list_all is_host_octet octets.now }
{
    octets.iter().all(|octet| is_host_octet(*octet))
}

/// Returns whether a label begins with a hyphen.
fn begins_with_hyphen(label: &[u8]) -> bool
    ensures { result ≡ has_hyphen_at 0 label.now }
{
    match label.first() {
        Some(octet) => *octet == b'-',
        None => false,
    }
}

/// Returns whether a label ends with a hyphen.
fn ends_with_hyphen(label: &[u8]) -> bool
    ensures { result ≡ has_hyphen_at (length label.now - 1) label.now }
{
    match label.last() {
        Some(octet) => *octet == b'-',
        None => false,
    }
}

/// Returns whether a label is one of a host name, or empty.
fn is_host_label(label: &[u8]) -> bool
    ensures { result ≡ is_host_label label.now }
{
    are_host_octets(label) && !(begins_with_hyphen(label) || ends_with_hyphen(label))
}

/// Returns whether a name is one of a host. The root is.
#[tactic(auto, using(crate::proofs::HostNameParts::host_none, crate::proofs::HostNameParts::host_some, crate::proofs::NameParts::above_fewer))]
fn is_host(name: &Name<&[u8]>) -> bool
    ensures { result ≡ is_host_name name.now }
{
    if !is_host_label(first_label(name)) {
        return false;
    }
    match parent(name) {
        Some(above) => is_host(&above),
        None => true,
    }
}

/// Returns whether the parent of a name is one of a host, or the name has no parent.
fn is_host_above(name: &Name<&[u8]>) -> bool
    ensures { result ≡ option_map_or is_host_name (parent_of name.now) true }
{
    match parent(name) {
        Some(above) => is_host(&above),
        None => true,
    }
}

/// Returns whether a name is one of a host, or a wildcard below one.
#[tactic(auto, using(crate::proofs::HostNameParts::owner_step))]
fn is_owner_of_host(name: &Name<&[u8]>) -> bool
    ensures { result ≡ is_host_owner name.now }
{
    let label = first_label(name);
    (matches!(label, [b'*']) || is_host_label(label)) && is_host_above(name)
}

/// Returns whether an octet is a printable character other than a space.
fn is_graphic(octet: u8) -> bool
    ensures { result ≡ is_graphic octet }
{
    33 <= octet && octet <= 126
}

/// Returns whether octets are printable characters other than spaces.
fn are_graphic(octets: &[u8]) -> bool
    ensures { result ≡ list_all is_graphic octets.now }
{
    octets.iter().all(|octet| is_graphic(*octet))
}

/// Returns whether a name is one of a mailbox (RFC 1035 section 8).
#[tactic(auto, using(crate::proofs::HostNameParts::mailbox_step))]
fn is_mailbox(name: &Name<&[u8]>) -> bool
    ensures { result ≡ is_mailbox_name name.now }
{
    are_graphic(first_label(name)) && is_host_above(name)
}

/// Returns whether a name is that of the global catalogs below a host name, in Active Directory.
#[tactic(auto, using(crate::proofs::HostNameParts::catalog_none, crate::proofs::HostNameParts::catalog_short, crate::proofs::HostNameParts::catalog_is))]
fn is_catalog(name: &Name<&[u8]>) -> bool
    ensures { result ≡ is_catalog_name name.now }
{
    let Some(msdcs) = parent(name) else {
        return false;
    };
    let Some(domain) = parent(&msdcs) else {
        return false;
    };
    same_octets(first_label(name), b"gc")
        && same_octets(first_label(&msdcs), b"_msdcs")
        && is_host(&domain)
}

/// Returns whether a name is below the top of the tree of IPv4 addresses.
fn is_below_in_addr(name: &Name<&[u8]>) -> bool
    ensures { result ≡ is_below name.now (codes "in-addr" ∷ codes "arpa" ∷ [] ∷ []) }
{
    is_name_below(name, &name_of(IN_ADDR_ARPA))
}

/// Returns whether a name is below the top of the tree of IPv6 addresses.
fn is_below_ip6(name: &Name<&[u8]>) -> bool
    ensures { result ≡ is_below name.now (codes "ip6" ∷ codes "arpa" ∷ [] ∷ []) }
{
    is_name_below(name, &name_of(IP6_ARPA))
}

/// Returns whether a name is below the top of a reverse tree.
fn is_reverse(name: &Name<&[u8]>) -> bool
    ensures { result ≡ is_reverse_name name.now }
{
    is_below_in_addr(name) || is_below_ip6(name)
}

/// Returns whether records of a type hold an address of their owner.
fn is_of_address(rtype: RecordType) -> bool
    ensures { result ≡ is_address_type rtype }
{
    matches!(
        rtype,
        RecordType::A | RecordType::AAAA | RecordType::WKS | RecordType::A6
    )
}

/// Returns whether the owner of a record must be a host name, and isn't.
fn has_bad_owner(record: &ZoneRecord<'_>) -> bool
    ensures { result ≡ is_bad_owner «record».now }
{
    let rtype = record.data.rtype();
    if !(is_of_address(rtype) || rtype == RecordType::MX) {
        return false;
    }
    let owner = &record.owner;
    !is_owner_of_host(owner)
        && !((rtype == RecordType::A || rtype == RecordType::AAAA) && is_catalog(owner))
}

/// Returns the octets of a field of data that is a name.
pub(crate) fn name_part<Octets: AsOctets>(data: &Data<Octets>, field: usize) -> Option<&[u8]>
    requires { IsNameField «data».now.rtype field }
    ensures value { option_copied result ≡ data_part «data».now field }
    ensures name { IfSome result (λ name. IsWireName name.now) }
{
    // No effect at run time: the proof reads that the octets are data of the type.
    let _octets = data.as_slice();
    data.part(field)
}

/// Returns the index of the field that names a host, in data of a type.
fn host_place(rtype: RecordType) -> Option<usize>
    ensures { result ≡ target_field rtype }
{
    match rtype {
        RecordType::NS | RecordType::SOA | RecordType::PTR => Some(0),
        RecordType::MX
        | RecordType::AFSDB
        | RecordType::RT
        | RecordType::SVCB
        | RecordType::HTTPS => Some(1),
        RecordType::SRV => Some(3),
        _ => None,
    }
}

/// Returns the name of a host in the data of a record, if its type names one.
pub(crate) fn named_host<'r>(record: &'r ZoneRecord<'_>) -> Option<Name<&'r [u8]>>
    ensures { result ≡ name_in «record».now (target_field (type_of «record».now)) }
{
    let Some(field) = host_place(record.data.rtype()) else {
        return None;
    };
    match name_part(&record.data, field) {
        Some(octets) => Some(name_of(octets)),
        None => None,
    }
}

/// Returns whether a name in the data of a record must be a host name, and isn't.
fn has_bad_target(record: &ZoneRecord<'_>) -> bool
    ensures { result ≡ is_bad_target «record».now }
{
    if record.data.rtype() == RecordType::PTR && !is_reverse(&record.owner) {
        return false;
    }
    match named_host(record) {
        Some(name) => !is_host(&name),
        None => false,
    }
}

/// Returns the name of the mailbox in the data of an SOA.
fn mailbox<'r>(record: &'r ZoneRecord<'_>) -> Option<Name<&'r [u8]>>
    requires { type_of «record».now ≡ Rtype.soa }
    ensures { result ≡ name_in «record».now (Some 1) }
{
    match name_part(&record.data, 1) {
        Some(octets) => Some(name_of(octets)),
        None => None,
    }
}

/// Returns whether the mailbox of an SOA is not a mailbox name.
fn has_bad_mailbox(record: &ZoneRecord<'_>) -> bool
    ensures { result ≡ is_bad_mailbox «record».now }
{
    if record.data.rtype() != RecordType::SOA {
        return false;
    }
    match mailbox(record) {
        Some(name) => !is_mailbox(&name),
        None => false,
    }
}

/// Returns whether a name in a record must be a host name, and isn't.
pub fn is_no_host_name(record: &ZoneRecord<'_>) -> bool
    ensures { result ≡ is_bad_host_name «record».now }
{
    has_bad_owner(record) || has_bad_target(record) || has_bad_mailbox(record)
}
