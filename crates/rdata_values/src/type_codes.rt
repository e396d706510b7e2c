//! Record types as constants, by their names.
use crate::types::RecordType;

/// The types of [`crate::types::TYPES`], each with its name.
impl RecordType {
    /// Type A (RFC 1035 section 3.4.1).
    pub const A: RecordType = RecordType(1);

    /// Type NS (RFC 1035 section 3.3.11).
    pub const NS: RecordType = RecordType(2);

    /// Type MD (RFC 1035 section 3.3.4).
    pub const MD: RecordType = RecordType(3);

    /// Type MF (RFC 1035 section 3.3.5).
    pub const MF: RecordType = RecordType(4);

    /// Type CNAME (RFC 1035 section 3.3.1).
    pub const CNAME: RecordType = RecordType(5);

    /// Type SOA (RFC 1035 section 3.3.13).
    pub const SOA: RecordType = RecordType(6);

    /// Type MB (RFC 1035 section 3.3.3).
    pub const MB: RecordType = RecordType(7);

    /// Type MG (RFC 1035 section 3.3.6).
    pub const MG: RecordType = RecordType(8);

    /// Type MR (RFC 1035 section 3.3.8).
    pub const MR: RecordType = RecordType(9);

    /// Type NULL (RFC 1035 section 3.3.10).
    pub const NULL: RecordType = RecordType(10);

    /// Type WKS (RFC 1035 section 3.4.2).
    pub const WKS: RecordType = RecordType(11);

    /// Type PTR (RFC 1035 section 3.3.12).
    pub const PTR: RecordType = RecordType(12);

    /// Type HINFO (RFC 1035 section 3.3.2).
    pub const HINFO: RecordType = RecordType(13);

    /// Type MINFO (RFC 1035 section 3.3.7).
    pub const MINFO: RecordType = RecordType(14);

    /// Type MX (RFC 1035 section 3.3.9).
    pub const MX: RecordType = RecordType(15);

    /// Type TXT (RFC 1035 section 3.3.14).
    pub const TXT: RecordType = RecordType(16);

    /// Type RP (RFC 1183 section 2.2).
    pub const RP: RecordType = RecordType(17);

    /// Type AFSDB (RFC 1183 section 1).
    pub const AFSDB: RecordType = RecordType(18);

    /// Type X25 (RFC 1183 section 3.1).
    pub const X25: RecordType = RecordType(19);

    /// Type ISDN (RFC 1183 section 3.2).
    pub const ISDN: RecordType = RecordType(20);

    /// Type RT (RFC 1183 section 3.3).
    pub const RT: RecordType = RecordType(21);

    /// Type NSAP (RFC 1706 section 5).
    pub const NSAP: RecordType = RecordType(22);

    /// Type NSAP-PTR (RFC 1348).
    pub const NSAP_PTR: RecordType = RecordType(23);

    /// Type SIG (RFC 2535 section 4.1).
    pub const SIG: RecordType = RecordType(24);

    /// Type KEY (RFC 2535 section 3.1, in the form of DNSKEY).
    pub const KEY: RecordType = RecordType(25);

    /// Type PX (RFC 2163 section 4).
    pub const PX: RecordType = RecordType(26);

    /// Type GPOS (RFC 1712 section 3).
    pub const GPOS: RecordType = RecordType(27);

    /// Type AAAA (RFC 3596 section 2.2).
    pub const AAAA: RecordType = RecordType(28);

    /// Type LOC (RFC 1876 section 2).
    pub const LOC: RecordType = RecordType(29);

    /// Type NXT (RFC 2535 section 5).
    pub const NXT: RecordType = RecordType(30);

    /// Type EID (IANA's registry).
    pub const EID: RecordType = RecordType(31);

    /// Type NIMLOC (IANA's registry).
    pub const NIMLOC: RecordType = RecordType(32);

    /// Type SRV (RFC 2782).
    pub const SRV: RecordType = RecordType(33);

    /// Type ATMA (IANA's registry).
    pub const ATMA: RecordType = RecordType(34);

    /// Type NAPTR (RFC 3403 section 4.1).
    pub const NAPTR: RecordType = RecordType(35);

    /// Type KX (RFC 2230 section 3).
    pub const KX: RecordType = RecordType(36);

    /// Type CERT (RFC 4398 section 2).
    pub const CERT: RecordType = RecordType(37);

    /// Type A6 (RFC 2874 section 3.1).
    pub const A6: RecordType = RecordType(38);

    /// Type DNAME (RFC 6672 section 2.1).
    pub const DNAME: RecordType = RecordType(39);

    /// Type SINK (IANA's registry).
    pub const SINK: RecordType = RecordType(40);

    /// Type OPT (RFC 6891 section 6.1).
    pub const OPT: RecordType = RecordType(41);

    /// Type APL (RFC 3123 section 4).
    pub const APL: RecordType = RecordType(42);

    /// Type DS (RFC 4034 section 5.1).
    pub const DS: RecordType = RecordType(43);

    /// Type SSHFP (RFC 4255 section 3.1).
    pub const SSHFP: RecordType = RecordType(44);

    /// Type IPSECKEY (RFC 4025 section 2.1).
    pub const IPSECKEY: RecordType = RecordType(45);

    /// Type RRSIG (RFC 4034 section 3.1).
    pub const RRSIG: RecordType = RecordType(46);

    /// Type NSEC (RFC 4034 section 4.1).
    pub const NSEC: RecordType = RecordType(47);

    /// Type DNSKEY (RFC 4034 section 2.1).
    pub const DNSKEY: RecordType = RecordType(48);

    /// Type DHCID (RFC 4701 section 3.1).
    pub const DHCID: RecordType = RecordType(49);

    /// Type NSEC3 (RFC 5155 section 3.2).
    pub const NSEC3: RecordType = RecordType(50);

    /// Type NSEC3PARAM (RFC 5155 section 4.2).
    pub const NSEC3PARAM: RecordType = RecordType(51);

    /// Type TLSA (RFC 6698 section 2.1).
    pub const TLSA: RecordType = RecordType(52);

    /// Type SMIMEA (RFC 8162 section 2).
    pub const SMIMEA: RecordType = RecordType(53);

    /// Type HIP (RFC 8005 section 5).
    pub const HIP: RecordType = RecordType(55);

    /// Type NINFO (draft-reid-dnsext-zs).
    pub const NINFO: RecordType = RecordType(56);

    /// Type RKEY (draft-reid-dnsext-rkey).
    pub const RKEY: RecordType = RecordType(57);

    /// Type TALINK (draft-wijngaards-dnsop-trust-history).
    pub const TALINK: RecordType = RecordType(58);

    /// Type CDS (RFC 7344 section 3.1).
    pub const CDS: RecordType = RecordType(59);

    /// Type CDNSKEY (RFC 7344 section 3.2).
    pub const CDNSKEY: RecordType = RecordType(60);

    /// Type OPENPGPKEY (RFC 7929 section 2.1).
    pub const OPENPGPKEY: RecordType = RecordType(61);

    /// Type CSYNC (RFC 7477 section 2.1).
    pub const CSYNC: RecordType = RecordType(62);

    /// Type ZONEMD (RFC 8976 section 2).
    pub const ZONEMD: RecordType = RecordType(63);

    /// Type SVCB (RFC 9460 section 2.1).
    pub const SVCB: RecordType = RecordType(64);

    /// Type HTTPS (RFC 9460 section 9).
    pub const HTTPS: RecordType = RecordType(65);

    /// Type DSYNC (IANA's registry).
    pub const DSYNC: RecordType = RecordType(66);

    /// Type HHIT (RFC 9886).
    pub const HHIT: RecordType = RecordType(67);

    /// Type BRID (RFC 9886).
    pub const BRID: RecordType = RecordType(68);

    /// Type SPF (RFC 7208 section 3.1).
    pub const SPF: RecordType = RecordType(99);

    /// Type UINFO (IANA's registry).
    pub const UINFO: RecordType = RecordType(100);

    /// Type UID (IANA's registry).
    pub const UID: RecordType = RecordType(101);

    /// Type GID (IANA's registry).
    pub const GID: RecordType = RecordType(102);

    /// Type UNSPEC (IANA's registry).
    pub const UNSPEC: RecordType = RecordType(103);

    /// Type NID (RFC 6742 section 2.1).
    pub const NID: RecordType = RecordType(104);

    /// Type L32 (RFC 6742 section 2.2).
    pub const L32: RecordType = RecordType(105);

    /// Type L64 (RFC 6742 section 2.3).
    pub const L64: RecordType = RecordType(106);

    /// Type LP (RFC 6742 section 2.4).
    pub const LP: RecordType = RecordType(107);

    /// Type EUI48 (RFC 7043 section 3.1).
    pub const EUI48: RecordType = RecordType(108);

    /// Type EUI64 (RFC 7043 section 4.1).
    pub const EUI64: RecordType = RecordType(109);

    /// Type NXNAME (RFC 9824).
    pub const NXNAME: RecordType = RecordType(128);

    /// Type TKEY (RFC 2930 section 2).
    pub const TKEY: RecordType = RecordType(249);

    /// Type TSIG (RFC 8945 section 4.2).
    pub const TSIG: RecordType = RecordType(250);

    /// Type IXFR (RFC 1995 section 2).
    pub const IXFR: RecordType = RecordType(251);

    /// Type AXFR (RFC 5936 section 2).
    pub const AXFR: RecordType = RecordType(252);

    /// Type MAILB (RFC 1035 section 3.2.3).
    pub const MAILB: RecordType = RecordType(253);

    /// Type MAILA (RFC 1035 section 3.2.3).
    pub const MAILA: RecordType = RecordType(254);

    /// Type ANY (RFC 1035 section 3.2.3).
    pub const ANY: RecordType = RecordType(255);

    /// Type URI (RFC 7553 section 4).
    pub const URI: RecordType = RecordType(256);

    /// Type CAA (RFC 8659 section 4.1).
    pub const CAA: RecordType = RecordType(257);

    /// Type AVC (IANA, by Cisco).
    pub const AVC: RecordType = RecordType(258);

    /// Type DOA (IANA's registry).
    pub const DOA: RecordType = RecordType(259);

    /// Type AMTRELAY (RFC 8777 section 4).
    pub const AMTRELAY: RecordType = RecordType(260);

    /// Type RESINFO (RFC 9606 section 4).
    pub const RESINFO: RecordType = RecordType(261);

    /// Type WALLET (IANA).
    pub const WALLET: RecordType = RecordType(262);

    /// Type CLA (IANA's registry).
    pub const CLA: RecordType = RecordType(263);

    /// Type IPN (IANA's registry).
    pub const IPN: RecordType = RecordType(264);

    /// Type TA (S. Weiler, Deploying DNSSEC Without a Signed Root, 2004).
    pub const TA: RecordType = RecordType(32768);

    /// Type DLV (RFC 4431 section 2).
    pub const DLV: RecordType = RecordType(32769);
}
