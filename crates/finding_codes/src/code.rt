//! The codes of findings in zone files.
ghost use Rattle.std.specs.Prelude.{◌≡◌, IfSome, Some, map};
ghost use Rattle.finding_codes.specs.Code.{code_name, code_named, code_scope, default_severity, finding_text, is_of_absence, is_of_text, is_of_time, is_text_fault, severity_name};
ghost use Rattle.finding_codes.specs.Table.{finding_rows, row_of_code, row_seen};

use crate::table::{Row, find_code};

/// The severity of a finding.
#[derive(Clone, Copy, PartialEq, Eq)]
pub enum Severity {
    /// The file is rejected.
    Error,
    /// The file is accepted.
    Warning,
}

impl Severity {
    /// Returns `error` or `warning`.
    pub fn name(self) -> &'static str
        ensures { result.now ≡ severity_name self }
    {
        match self {
            Severity::Error => "error",
            Severity::Warning => "warning",
        }
    }
}

/// What is looked at for a finding.
#[derive(Clone, Copy, PartialEq, Eq)]
pub enum Scope {
    /// The text of an entry.
    Text,
    /// The records and directives of entries.
    Records,
    /// The TTL of a record, if a limit is set.
    MaxTtl,
    /// The records of a zone.
    Zone,
    /// The records of a signed zone.
    Signed,
}

/// The code of a finding, with the name by which it is allowed or denied, and which JSON output
/// has. The names are stable: callers write them into their own files.
#[derive(Clone, Copy, PartialEq, Eq, Default)]
pub enum Code {
    /// A quoted text is not closed.
    #[default]
    OpenQuote,
    /// A parenthesis is not closed.
    OpenParenthesis,
    /// A parenthesis is closed that is not open.
    ClosingParenthesis,
    /// A CR comes without an LF.
    LoneReturn,
    /// An escape can't be completed.
    BadEscape,
    /// A NUL is outside of comments.
    Nul,
    /// The file begins with a byte order mark.
    ByteOrderMark,
    /// An entry begins with Ctrl-Z, which ended files of CP/M and DOS.
    ControlZ,
    /// An entry has more octets than are allowed.
    MaxEntry,
    /// A directive is unknown, or its arguments are wrong.
    Directive,
    /// The owner is not a name.
    Owner,
    /// The TTL is not valid; or it is 2^31 or more, and read as 0.
    Ttl,
    /// The class is not valid.
    Class,
    /// The type is unknown, or missing.
    RecordType,
    /// The data is not of the type.
    Data,
    /// A file can't be included.
    Include,
    /// The zone file can't be read.
    File,
    /// The first record has no owner.
    NoOwner,
    /// No TTL is known.
    NoTtl,
    /// The class is not that of the zone.
    OtherClass,
    /// The zone has no SOA.
    NoSoa,
    /// The zone has two SOAs that differ.
    TwoSoas,
    /// The apex has no NS.
    NoNs,
    /// A name server of the apex that is in the zone has no address.
    NsAddress,
    /// A CNAME's owner has other records or another CNAME.
    Cname,
    /// A name has two DNAMEs.
    Dname,
    /// A DS is at the apex.
    DsApex,
    /// A wildcard has an NS.
    WildcardNs,
    /// An SOA is below the apex.
    SoaNotApex,
    /// The owner of a DNAME below the apex has an NS.
    NsBesideDname,
    /// The first label of an NSEC3's owner is not base32hex.
    Nsec3Wildcard,
    /// A record is below a DNAME.
    BelowDname,
    /// A record is outside of the zone.
    Outside,
    /// A TTL exceeds the limit that was asked for.
    MaxTtl,
    /// A name is relative, and no origin is known.
    NoOrigin,
    /// A token has an octet of 0x80 or more.
    HighOctet,
    /// A token contains a control octet.
    ControlOctet,
    /// A line ends in CR LF.
    Crlf,
    /// A parenthesis is opened inside others.
    NestedParentheses,
    /// An entry begins with a parenthesis.
    LeadingParenthesis,
    /// A token begins where the one before it ends.
    AdjacentTokens,
    /// The last line has no end.
    NoFinalNewline,
    /// An origin is relative.
    RelativeOrigin,
    /// The minimum of the SOA is used as the TTL.
    SoaMinimumTtl,
    /// The TTL of an included file stays in effect.
    IncludeTtl,
    /// A name without a final dot ends like the origin.
    MissingDot,
    /// A name of `$GENERATE` ends in the dot of nibbles of an even width.
    GenerateDot,
    /// The target of a URI is empty.
    EmptyUri,
    /// The data of a TLSA does not have the length of its matching type.
    TlsaLength,
    /// The algorithm of an IPSECKEY is 0.
    IpseckeyAlgorithm,
    /// The service parameter `ohttp` has a value.
    OhttpValue,
    /// A name server below a delegation has no glue.
    Glue,
    /// The target of a record has a CNAME, or is below a DNAME.
    TargetCname,
    /// The target of a record is not in the zone.
    TargetMissing,
    /// A name that must be a host name is not one.
    HostName,
    /// The record is a CDS or CDNSKEY at the apex, and no DNSKEY there is of its algorithm.
    Cds,
    /// Records of an RRset differ in TTL.
    TtlDiffers,
    /// A record occurs twice.
    Duplicate,
    /// A record below the apex has a type that belongs there.
    NotAtApex,
    /// The protocol of a DNSKEY is not 3.
    KeyProtocol,
    /// The algorithm of a DNSKEY or DS is 0.
    KeyAlgorithm,
    /// The target of a CNAME has no records in the zone.
    CnameTargetMissing,
    /// CNAMEs lead back to the owner of one.
    CnameLoop,
    /// A name has two SPF records.
    TwoSpf,
    /// The only digest of a key in DS is SHA-1.
    WeakDigest,
    /// The apex has only one NS.
    SingleNs,
    /// A record is at or below a delegation, and is not glue.
    Hidden,
    /// The zone must be signed, and has no DNSKEY at its apex.
    NoDnskey,
    /// The record is an RRSIG, and its time of expiration has passed (RFC 4034 section 3.1.5).
    Expired,
    /// The record is an RRSIG that expires within the margin.
    ExpiresSoon,
    /// The record is an RRSIG, and its time of inception is still to come (RFC 4034 section
    /// 3.1.5).
    NotYetValid,
    /// The record is an RRSIG that expires before its inception (RFC 4034 section 3.1.5). It is then
    /// neither expired nor early.
    RrsigTimes,
    /// The record is an RRSIG, and its signer is not the zone (RFC 4034 section 3.1.7).
    RrsigSigner,
    /// The record is an RRSIG, and its number of labels is not that of its owner without the root
    /// and without an asterisk as the first label (RFC 4034 section 3.1.3).
    RrsigLabels,
    /// The record is an RRSIG, and no record of the set that it covers has its original TTL (RFC 4034
    /// section 3).
    OriginalTtl,
    /// The record is an RRSIG, and no record of the set that it covers has the TTL of the RRSIG (RFC
    /// 4034 section 3).
    RrsigTtl,
    /// The record is the first of an RRset that must be signed, and no RRSIG at its owner covers
    /// its type (RFC 4035 section 2.2).
    Unsigned,
    /// The record is the first of an RRset that must be signed and is, and none of its RRSIGs fits
    /// a DNSKEY at the apex by algorithm and key tag (RFC 4035 section 2.2).
    NoKey,
    /// The record is an RRSIG that fits no DNSKEY at the apex, and another RRSIG of the RRset does.
    /// This is normal while an algorithm is rolled over (RFC 6781 section 4.1.4).
    KeyMissing,
    /// The record is an RRSIG by a revoked key, and does not cover DNSKEY (RFC 5011 section 2.1).
    RrsigKey,
    /// The record is an RRSIG, and its owner has no record of the type that it covers.
    SignsNothing,
    /// The record is an RRSIG or NSEC below a delegation, or an RRSIG at one that covers another type
    /// than DS and NSEC (RFC 4035 sections 2.2 and 2.3).
    OccludedDnssec,
    /// The record is the first at a name for which the zone is authoritative, or at a delegation.
    /// The name has no NSEC, and no NSEC3PARAM at the apex names a chain (RFC 4035 section 2.3, RFC
    /// 5155 section 4.1.2).
    NoNsec,
    /// The record is an NSEC, and its next name is not that of the chain: the next authoritative
    /// name or delegation in canonical order, and after the last one the apex (RFC 4034 section
    /// 4.1.1).
    NsecNext,
    /// The record is an NSEC, and its types differ from those at its owner. At a delegation only
    /// NS, DS, RRSIG and NSEC count (RFC 4035 section 2.3).
    NsecTypes,
    /// The owner of a DS has no NS.
    DsWithoutNs,
    /// The record is the first at a name for which the zone is authoritative, or at a delegation.
    /// An NSEC3PARAM at the apex names a chain, in which no NSEC3 matches the name, or an empty
    /// non-terminal above it. A delegation without DS may be omitted if the NSEC3 that covers it
    /// has Opt-Out (RFC 5155 section 7.1).
    NoNsec3,
    /// The record is an NSEC3 of such a chain, and its next hash isn't that of the owner that comes
    /// next in the chain. After the last owner comes the first (RFC 5155 section 3.1.7).
    Nsec3Next,
    /// The record is the first at a name as for `no-nsec3`, and the types of the NSEC3 that matches
    /// the name, or an empty non-terminal above it, differ from those there. At a delegation only
    /// NS, DS and RRSIG count (RFC 5155 section 7.1).
    Nsec3Types,
    /// The record is an NSEC3, and its owner is not one label below the apex, or the label is not a
    /// hash of 20 octets in base32hex, with hash algorithm 1 (RFC 5155 section 3).
    Nsec3Owner,
    /// The record is an NSEC3PARAM that names a chain of more than 150 iterations. Validators treat
    /// the zone as unsigned (RFC 9276 section 3.2), and no name is hashed for the chain.
    Nsec3Iterations,
    /// The record is an NSEC3PARAM that names a chain of 51 to 150 iterations. Newer validators treat the
    /// zone as unsigned (RFC 9276 section 3.2).
    Nsec3Iterations50,
    /// The record is an NSEC3PARAM that names a chain of 1 to 50 iterations. There should be none (RFC
    /// 9276 section 3.1).
    Nsec3Iterations0,
    /// The record is an NSEC or NSEC3, and its TTL is not the lesser of the SOA's TTL and minimum (RFC
    /// 9077 section 3).
    NsecTtl,
    /// The record is a CDS or CDNSKEY at the apex that asks to delete DS records, and another there
    /// asks for keys (RFC 8078 section 4).
    CdsDelete,
    /// The record is an RRSIG, and its signature has another length than those of its algorithm. With
    /// RSA that is the length of the modulus of each DNSKEY that it fits (RFC 6605 section 4, RFC
    /// 8080 section 4).
    RrsigLength,
    /// The record is a DNSKEY, and its key has another length than those of its algorithm. An RSA key
    /// has an exponent, and a modulus of 64 to 512 octets, with algorithm 10 of 128 or more (RFC 3110
    /// section 2, RFC 5702 section 2, RFC 6605 section 4, RFC 8080 section 3).
    KeyLength,
    /// The record is an NSEC3 of a chain that an NSEC3PARAM at the apex names, of at most 150
    /// iterations, and its owner is the hash of no name of the zone (RFC 5155 section 7.1).
    Nsec3Extra,
    /// The record is the first of an RRset that lacks a signature of an algorithm that signs other
    /// RRsets, or the first DNSKEY of an algorithm that signs no RRset but the DNSKEYs (RFC 4035
    /// section 2.2).
    RrsigAlgorithm,
    /// The record is the only NSEC3 of its chain, of three or more, with or without Opt-Out (RFC 5155
    /// section 6).
    OptOut,
    /// A record has the type SPF, which no receiver looks up.
    SpfType,
    /// The regexp of a NAPTR is not a substitution expression.
    NaptrRegexp,
    /// A NAPTR has both a regexp and a replacement.
    NaptrBoth,
    /// The tag of a CAA is not known, or has capital letters.
    CaaTag,
    /// The mail name of an SOA has an `@`, or is one label.
    SoaMail,
    /// The timers of an SOA contradict each other, or its minimum is long.
    SoaTimers,
    /// The owner of a PTR in a reverse tree is not the name of an address.
    ReverseName,
    /// A label of an owner after the first is an asterisk.
    WildcardInside,
    /// The host or target of a record is the text of an IPv4 address.
    TargetAddress,
    /// A TXT that begins with `v=` has several strings without quotes.
    TxtWords,
    /// A comment begins inside of a word of a TXT, SPF or CAA.
    CommentInData,
    /// The owner and the target of a PTR are in reverse trees, so the target lacks its final dot.
    PtrDot,
    /// The certificate usage, selector or matching type of a TLSA or SMIMEA is not assigned.
    TlsaField,
    /// The value of a CAA has not the form that its tag asks for, or its flags are unknown.
    CaaValue,
    /// An SPF record has a malformed term.
    Spf,
    /// The exchange of an MX is the root, and its owner has another MX.
    NullMx,
    /// The serial of a ZONEMD is not that of the SOA.
    ZonemdSerial,
    /// The host of a TLSA has no address in the zone.
    TlsaHost,
    /// An SVCB or HTTPS in AliasMode has parameters, or is not alone.
    SvcbAlias,
    /// No CDS, or no CDNSKEY, is of a DNSKEY of the apex.
    CdsKey,
    /// The CDS and the CDNSKEY of the apex are not of the same keys.
    CdsDiffers,
    /// A zone has a DNSKEY and signatures, but none of the SOA or NS of its apex.
    UnsignedApex,
    /// A word that not every name server reads.
    Unportable,
    /// A KEY is at the owner of a CNAME.
    KeyBesideCname,
    /// An SPF record has a term that no receiver reaches.
    SpfUnused,
    /// A DMARC record is malformed.
    Dmarc,
    /// A DKIM key record is malformed.
    Dkim,
    /// A parent and a child zone of one run have other NS for the child.
    Delegation,
    /// No DS of a delegation is of a DNSKEY of the child zone of the same run.
    DelegationDs,
    /// An address at or below a delegation is not one that the zone below has.
    GlueDiffers,
    /// An exception in a comment is malformed, or names an unknown code.
    Exception,
    /// An exception excepts no finding.
    UnusedAllow,
}

/// Returns the code of the first of some rows that has a name.
pub(crate) fn find_named(rows: &[Row], name: &str) -> Option<Code>
    ensures { result ≡ code_named (map row_seen rows.now) name.now }
{
    for row in rows {
        if row.name == name {
            return Some(row.code);
        }
    }
    None
}

impl Code {
    /// Returns the name of a code, in lowercase letters and dashes.
    pub fn name(self) -> &'static str
        ensures { result.now ≡ code_name self }
    {
        self.row().name
    }

    /// Returns the code with a name, if there is one.
    pub fn named(name: &str) -> Option<Code>
        ensures named { IfSome result (λ c. code_name c ≡ name.now) }
        ensures each { (c : Code) → code_name c ≡ name.now → result ≡ Some c }
    {
        find_code(name)
    }

    /// Returns whether the text itself is malformed: it can't be read as entries, or not safely.
    pub fn is_text_fault(self) -> bool
        ensures { result ≡ is_text_fault self }
    {
        self.row().traits.is_text_fault
    }

    /// Returns whether findings say that a record is missing, so that another record may be at fault
    /// that was not read.
    pub fn is_of_absence(self) -> bool
        ensures { result ≡ is_of_absence self }
    {
        self.row().traits.is_of_absence
    }

    /// Returns whether findings depend on the time at which a signed zone is checked.
    pub fn is_of_time(self) -> bool
        ensures { result ≡ is_of_time self }
    {
        self.row().traits.is_of_time
    }

    /// Returns the severity of a finding, unless a caller decides otherwise.
    pub fn default_severity(self) -> Severity
        ensures { result ≡ default_severity self }
    {
        self.row().severity
    }

    /// Returns what is looked at for findings with a code.
    pub fn scope(self) -> Scope
        ensures { result ≡ code_scope self }
    {
        self.row().scope
    }

    /// Returns whether a finding is about the text alone.
    pub fn is_of_text(self) -> bool
        ensures { result ≡ is_of_text self }
    {
        matches!(self.scope(), Scope::Text)
    }

    /// Returns the message of a finding that only has a code.
    pub fn message(self) -> &'static str
        ensures { result.now ≡ finding_text self }
    {
        let row = self.row();
        if row.message.is_empty() {
            row.name
        } else {
            row.message
        }
    }
}
