//! The codes of types as constants, since an argument of [`TypedData`](crate::TypedData) must be a
//! constant.
use rdata_values::RecordType;

pub(crate) const A: u16 = RecordType::A.0;

pub(crate) const NS: u16 = RecordType::NS.0;

pub(crate) const CNAME: u16 = RecordType::CNAME.0;

pub(crate) const SOA: u16 = RecordType::SOA.0;

pub(crate) const PTR: u16 = RecordType::PTR.0;

pub(crate) const MX: u16 = RecordType::MX.0;

pub(crate) const TXT: u16 = RecordType::TXT.0;

pub(crate) const AAAA: u16 = RecordType::AAAA.0;

pub(crate) const SRV: u16 = RecordType::SRV.0;

pub(crate) const DNAME: u16 = RecordType::DNAME.0;

pub(crate) const DS: u16 = RecordType::DS.0;

pub(crate) const RRSIG: u16 = RecordType::RRSIG.0;

pub(crate) const NSEC: u16 = RecordType::NSEC.0;

pub(crate) const DNSKEY: u16 = RecordType::DNSKEY.0;

pub(crate) const NSEC3: u16 = RecordType::NSEC3.0;

pub(crate) const CAA: u16 = RecordType::CAA.0;
