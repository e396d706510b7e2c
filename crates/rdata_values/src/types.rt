//! Record types (RFC 1035 section 3.2.2, IANA's registry, RFC 3597 section 5).
ghost use Rattle.std.specs.Prelude.{◌≡◌, ◌↔◌, Some, IfSome, IsTrue, option_copied};
ghost use Rattle.rdata_values.specs.Kind.{ReadsKind};
ghost use Rattle.rdata_values.specs.Registry.{row_code, row_name};
ghost use Rattle.rdata_values.specs.Types.{type_rows, SpellsType, type_text, is_portable, portable_text, SpellsSigType, sig_type_text, TypesAreKind, PortableTypesAreKind, SigTypesAreKind};
ghost use Rattle.rdata_values.specs.declared.error.ErrorKind.TheVariants.{UnknownType};

use crate::error::ErrorKind;
use crate::numbers::u16_from_text;
use crate::registry::{Named, code_from_text, name_of};
use std::fmt;
use std::marker::Model;

/// The types that have a name. The registry's `*` is written `ANY`.
pub static TYPES: [Named; 97] = [
    Named(1, "A"),
    Named(2, "NS"),
    Named(3, "MD"),
    Named(4, "MF"),
    Named(5, "CNAME"),
    Named(6, "SOA"),
    Named(7, "MB"),
    Named(8, "MG"),
    Named(9, "MR"),
    Named(10, "NULL"),
    Named(11, "WKS"),
    Named(12, "PTR"),
    Named(13, "HINFO"),
    Named(14, "MINFO"),
    Named(15, "MX"),
    Named(16, "TXT"),
    Named(17, "RP"),
    Named(18, "AFSDB"),
    Named(19, "X25"),
    Named(20, "ISDN"),
    Named(21, "RT"),
    Named(22, "NSAP"),
    Named(23, "NSAP-PTR"),
    Named(24, "SIG"),
    Named(25, "KEY"),
    Named(26, "PX"),
    Named(27, "GPOS"),
    Named(28, "AAAA"),
    Named(29, "LOC"),
    Named(30, "NXT"),
    Named(31, "EID"),
    Named(32, "NIMLOC"),
    Named(33, "SRV"),
    Named(34, "ATMA"),
    Named(35, "NAPTR"),
    Named(36, "KX"),
    Named(37, "CERT"),
    Named(38, "A6"),
    Named(39, "DNAME"),
    Named(40, "SINK"),
    Named(41, "OPT"),
    Named(42, "APL"),
    Named(43, "DS"),
    Named(44, "SSHFP"),
    Named(45, "IPSECKEY"),
    Named(46, "RRSIG"),
    Named(47, "NSEC"),
    Named(48, "DNSKEY"),
    Named(49, "DHCID"),
    Named(50, "NSEC3"),
    Named(51, "NSEC3PARAM"),
    Named(52, "TLSA"),
    Named(53, "SMIMEA"),
    Named(55, "HIP"),
    Named(56, "NINFO"),
    Named(57, "RKEY"),
    Named(58, "TALINK"),
    Named(59, "CDS"),
    Named(60, "CDNSKEY"),
    Named(61, "OPENPGPKEY"),
    Named(62, "CSYNC"),
    Named(63, "ZONEMD"),
    Named(64, "SVCB"),
    Named(65, "HTTPS"),
    Named(66, "DSYNC"),
    Named(67, "HHIT"),
    Named(68, "BRID"),
    Named(99, "SPF"),
    Named(100, "UINFO"),
    Named(101, "UID"),
    Named(102, "GID"),
    Named(103, "UNSPEC"),
    Named(104, "NID"),
    Named(105, "L32"),
    Named(106, "L64"),
    Named(107, "LP"),
    Named(108, "EUI48"),
    Named(109, "EUI64"),
    Named(128, "NXNAME"),
    Named(249, "TKEY"),
    Named(250, "TSIG"),
    Named(251, "IXFR"),
    Named(252, "AXFR"),
    Named(253, "MAILB"),
    Named(254, "MAILA"),
    Named(255, "ANY"),
    Named(256, "URI"),
    Named(257, "CAA"),
    Named(258, "AVC"),
    Named(259, "DOA"),
    Named(260, "AMTRELAY"),
    Named(261, "RESINFO"),
    Named(262, "WALLET"),
    Named(263, "CLA"),
    Named(264, "IPN"),
    Named(32768, "TA"),
    Named(32769, "DLV"),
];

/// The types whose names every reader knows: A, NS, CNAME, SOA, PTR, HINFO, MINFO, MX, TXT, RP,
/// AFSDB, RT, KEY, AAAA, LOC, SRV, NAPTR, KX, CERT, DNAME, APL, DS, SSHFP, IPSECKEY, RRSIG, NSEC,
/// DNSKEY, DHCID, NSEC3, NSEC3PARAM, TLSA, SMIMEA, CDS, CDNSKEY, OPENPGPKEY, CSYNC, ZONEMD, SVCB,
/// HTTPS, SPF, NID, L32, L64, LP, EUI48, EUI64, URI and CAA.
const PORTABLE: [u16; 48] = [
    1, 2, 5, 6, 12, 13, 14, 15, 16, 17, 18, 21, 25, 28, 29, 33, 35, 36, 37, 39, 42, 43, 44, 45, 46,
    47, 48, 49, 50, 51, 52, 53, 59, 60, 61, 62, 63, 64, 65, 99, 104, 105, 106, 107, 108, 109, 256,
    257,
];

/// A record type, by its code. It prints as its name or, without one, as `TYPE` and the code.
#[derive(Clone, Copy, Debug, PartialEq, Eq)]
pub struct RecordType(pub u16);

impl Model for RecordType {
    ghost use Rattle.std.specs.Prelude.{ℕ};

    ghost Value = { ℕ };

    ghost view = { λ t. t.0 };

    ghost inverse = { λ code. record { 0 = code } };
}

/// Returns whether a text is a name, in the same case.
#[inline(always)]
pub(crate) fn is_name(text: &[u8], name: &[u8]) -> bool
    ensures { IsTrue result ↔ (text.now ≡ name.now) }
{
    text == name
}

/// Returns the code of the common type whose name is `text`, in capital letters.
///
/// Most records of a zone file have one of these types, so [`RecordType::from_text`] compares their
/// names before it searches [`TYPES`]. Returns `None` for any other text, even if a type has it.
fn usual_code(text: &[u8]) -> Option<u16>
    ensures { IfSome result (λ c. row_code type_rows text.now ≡ Some c) }
{
    if is_name(text, b"A") {
        return Some(1);
    }
    if is_name(text, b"NS") {
        return Some(2);
    }
    if is_name(text, b"MX") {
        return Some(15);
    }
    if is_name(text, b"DS") {
        return Some(43);
    }
    if is_name(text, b"TXT") {
        return Some(16);
    }
    if is_name(text, b"AAAA") {
        return Some(28);
    }
    if is_name(text, b"CNAME") {
        return Some(5);
    }
    if is_name(text, b"RRSIG") {
        return Some(46);
    }
    if is_name(text, b"NSEC") {
        return Some(47);
    }
    if is_name(text, b"NSEC3") {
        return Some(50);
    }
    if is_name(text, b"SOA") {
        return Some(6);
    }
    if is_name(text, b"PTR") {
        return Some(12);
    }
    if is_name(text, b"SRV") {
        return Some(33);
    }
    if is_name(text, b"DNSKEY") {
        return Some(48);
    }
    None
}

/// Returns the name of the type with a code, if it has one.
fn type_name(code: u16) -> Option<&'static str>
    ensures { option_copied result ≡ row_name type_rows code }
{
    name_of(&TYPES, code)
}

impl RecordType {
    /// Parses a record type, in any case: `MX` or `TYPE15`. Fails with `UnknownType` for any other
    /// text.
    pub fn from_text(text: &[u8]) -> Result<RecordType, ErrorKind>
        ensures { ReadsKind SpellsType UnknownType text.now result }
    {
        if let Some(code) = usual_code(text) {
            return Ok(RecordType(code));
        }
        match code_from_text(&TYPES, "TYPE", u16::MAX, text, ErrorKind::UnknownType) {
            Ok(code) => Ok(RecordType(code)),
            Err(why) => Err(why),
        }
    }

    /// Returns the name of the type, if it has one.
    pub fn name(&self) -> Option<&'static str>
        ensures { option_copied result ≡ row_name type_rows self.now }
    {
        type_name(self.0)
    }

    /// Returns whether every reader knows the name of the type. The name of any other type is
    /// parsed, even if RDATA of the type has a presentation format here. It prints only as the type
    /// of a record whose RDATA is not in the generic form.
    pub fn is_portable(&self) -> bool
        ensures { result ≡ is_portable self.now }
    {
        let code = self.0;
        PORTABLE.iter().any(|portable| *portable == code)
    }
}

impl fmt::Display for RecordType {
    ghost output = { λ t. Some (type_text t) };

    fn fmt<W: fmt::Write>(&self, f: &mut fmt::Formatter<W>) -> fmt::Result {
        match self.name() {
            Some(name) => f.write_str(name),
            None => write!(f, "TYPE{}", self.0),
        }
    }
}

/// A type in a type bitmap, in RRSIG, or before generic RDATA. It prints as its name if every
/// reader knows that, and otherwise as `TYPE` and the code (RFC 3597 section 5).
#[derive(Clone, Copy)]
pub struct PortableType(pub RecordType);

impl fmt::Display for PortableType {
    ghost output = { λ t. Some (portable_text t.0) };

    fn fmt<W: fmt::Write>(&self, f: &mut fmt::Formatter<W>) -> fmt::Result {
        if self.0.is_portable() {
            write!(f, "{}", self.0)
        } else {
            write!(f, "TYPE{}", self.0.0)
        }
    }
}

/// The type that a SIG covers. It prints as [`PortableType`] does, but type 0 as `0`: such a SIG
/// signs a message (RFC 2931 section 3).
#[derive(Clone, Copy)]
pub struct SigType(pub RecordType);

impl SigType {
    /// Parses a type by its name or its code: `MX`, `TYPE15` or `15`. Fails with `UnknownType` for
    /// any other text.
    pub fn from_text(text: &[u8]) -> Result<SigType, ErrorKind>
        ensures { ReadsKind SpellsSigType UnknownType text.now result }
    {
        if let Ok(code) = u16_from_text(text) {
            return Ok(SigType(RecordType(code)));
        }
        match RecordType::from_text(text) {
            Ok(named) => Ok(SigType(named)),
            Err(why) => Err(why),
        }
    }
}

impl fmt::Display for SigType {
    ghost output = { λ t. Some (sig_type_text t.0) };

    fn fmt<W: fmt::Write>(&self, f: &mut fmt::Formatter<W>) -> fmt::Result {
        if self.0.0 == 0 {
            f.write_str("0")
        } else {
            write!(f, "{}", PortableType(self.0))
        }
    }
}

/// States that a type that is printed and parsed is the same type, in each of the three forms. Does
/// nothing.
pub fn types_are_read_back()
    ensures named { TypesAreKind }
    ensures portable { PortableTypesAreKind }
    ensures signed { SigTypesAreKind }
{}
