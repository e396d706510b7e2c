//! The table of codes: a row for each, in the order of [`Code`], in two parts, and the further ways
//! of a few. The prover takes no static of all rows.
ghost use Rattle.std.specs.Prelude.{◌≡◌, ◌<◌, ◌≤◌, get_or, length, map, IfSome, None};
ghost use Rattle.finding_codes.specs.Code.{code_named};
ghost use Rattle.finding_codes.specs.Table.{finding_rows, first_rows, later_rows, no_row, row_of_code, row_seen, way_rows, way_seen};

use crate::code::{Code, Scope, Severity, find_named};

/// What is true of a few codes.
#[derive(Clone, Copy)]
pub struct Traits {
    /// Whether the text itself is malformed: it can't be read as entries, or not safely.
    pub is_text_fault: bool,
    /// Whether a record is missing, so that another record may be at fault that was not read.
    pub is_of_absence: bool,
    /// Whether the finding depends on the time at which a signed zone is checked.
    pub is_of_time: bool,
}

/// The part of an entry that a finding is about.
#[derive(Clone, Copy)]
pub enum Part {
    /// The record or the text as a whole, or a part that only the finding knows.
    Whole,
    /// The owner of a record.
    Owner,
    /// The host or target in the RDATA.
    Target,
    /// The last word of the RDATA.
    Last,
    /// The field of the RDATA with this index.
    Field(u8),
}

const NONE: Traits = Traits {
    is_text_fault: false,
    is_of_absence: false,
    is_of_time: false,
};

const TEXT_FAULT: Traits = Traits {
    is_text_fault: true,
    is_of_absence: false,
    is_of_time: false,
};

const ABSENCE: Traits = Traits {
    is_text_fault: false,
    is_of_absence: true,
    is_of_time: false,
};

const TIME: Traits = Traits {
    is_text_fault: false,
    is_of_absence: false,
    is_of_time: true,
};

const WHOLE: Part = Part::Whole;

const OWNER: Part = Part::Owner;

const TARGET: Part = Part::Target;

const LAST: Part = Part::Last;

const FIELD_0: Part = Part::Field(0);

const FIELD_1: Part = Part::Field(1);

const FIELD_2: Part = Part::Field(2);

const FIELD_4: Part = Part::Field(4);

const FIELD_5: Part = Part::Field(5);

const FIELD_6: Part = Part::Field(6);

/// A code of findings, with what is known of each finding that has it.
pub struct Row {
    pub code: Code,
    /// The name by which it is allowed or denied, which is stable.
    pub name: &'static str,
    /// The severity of a finding, unless a caller decides otherwise: a warning if servers load the
    /// file.
    pub severity: Severity,
    /// What is looked at for a finding.
    pub scope: Scope,
    pub traits: Traits,
    /// The part that a finding is about. If it has further ways, this is that of the first.
    pub part: Part,
    /// The message of a finding that only has a code. It is empty if each finding has its own. If a
    /// code has further ways, this is that of the first.
    pub message: &'static str,
}

/// A further way of a code, which is at another part or has another message than the first.
pub struct Way {
    pub code: Code,
    /// Number of the way, from 1 on.
    pub number: u8,
    pub part: Part,
    pub message: &'static str,
}

/// A row, as `row!(CODE => NAME, SEVERITY, SCOPE, TRAITS, PART, MESSAGE)`.
macro_rules! row {
    ($code:ident => $name:literal, $severity:ident, $scope:ident, $traits:ident, $part:ident, $message:literal) => {
        Row {
            code: Code::$code,
            name: $name,
            severity: Severity::$severity,
            scope: Scope::$scope,
            traits: $traits,
            part: $part,
            message: $message,
        }
    };
}

/// A further way, as `way!(CODE, NUMBER, PART, MESSAGE)`.
macro_rules! way {
    ($code:ident, $number:literal, $part:ident, $message:literal) => {
        Way {
            code: Code::$code,
            number: $number,
            part: $part,
            message: $message,
        }
    };
}

static FIRST_ROWS: [Row; 67] = [
    row!(OpenQuote => "open-quote", Error, Text, TEXT_FAULT, WHOLE, ""),
    row!(OpenParenthesis => "open-parenthesis", Error, Text, TEXT_FAULT, WHOLE, ""),
    row!(ClosingParenthesis => "closing-parenthesis", Error, Text, TEXT_FAULT, WHOLE, ""),
    row!(LoneReturn => "lone-return", Error, Text, TEXT_FAULT, WHOLE, ""),
    row!(BadEscape => "bad-escape", Error, Text, TEXT_FAULT, WHOLE, ""),
    row!(Nul => "nul", Error, Text, TEXT_FAULT, WHOLE, "NUL"),
    row!(ByteOrderMark => "byte-order-mark", Error, Text, TEXT_FAULT, WHOLE, "byte order mark"),
    row!(ControlZ => "control-z", Error, Text, TEXT_FAULT, WHOLE, "Ctrl-Z"),
    row!(MaxEntry => "max-entry", Error, Text, TEXT_FAULT, WHOLE, ""),
    row!(Directive => "directive", Error, Records, NONE, WHOLE, ""),
    row!(Owner => "owner", Error, Records, NONE, WHOLE, ""),
    row!(Ttl => "ttl", Warning, Records, NONE, WHOLE, "TTL above 2147483647: read as 0"),
    row!(Class => "class", Error, Records, NONE, WHOLE, ""),
    row!(RecordType => "type", Error, Records, NONE, WHOLE, ""),
    row!(Data => "data", Error, Records, NONE, WHOLE, ""),
    row!(Include => "include", Error, Records, NONE, WHOLE, ""),
    row!(File => "file", Error, Records, NONE, WHOLE, ""),
    row!(NoOwner => "no-owner", Error, Records, NONE, WHOLE, ""),
    row!(NoTtl => "no-ttl", Error, Records, NONE, WHOLE, ""),
    row!(OtherClass => "other-class", Error, Records, NONE, WHOLE, "another class than the zone's"),
    row!(NoSoa => "no-soa", Error, Zone, ABSENCE, WHOLE, "no SOA at the apex"),
    row!(TwoSoas => "two-soas", Error, Zone, NONE, WHOLE, "two SOAs that differ"),
    row!(NoNs => "no-ns", Error, Zone, ABSENCE, WHOLE, "no NS at the apex"),
    row!(NsAddress => "ns-address", Error, Zone, ABSENCE, TARGET, "name server in the zone without an address"),
    row!(Cname => "cname", Error, Zone, NONE, WHOLE, "CNAME beside other records"),
    row!(Dname => "dname", Error, Zone, NONE, WHOLE, "two DNAMEs of one name"),
    row!(DsApex => "ds-apex", Error, Zone, NONE, WHOLE, "DS at the apex"),
    row!(WildcardNs => "wildcard-ns", Error, Zone, NONE, WHOLE, "NS of a wildcard"),
    row!(SoaNotApex => "soa-not-apex", Error, Zone, NONE, WHOLE, "SOA below the apex"),
    row!(NsBesideDname => "ns-beside-dname", Error, Zone, NONE, WHOLE, "DNAME beside an NS"),
    row!(Nsec3Wildcard => "nsec3-wildcard", Error, Zone, NONE, WHOLE, "first label of an NSEC3 is not base 32 hex"),
    row!(BelowDname => "below-dname", Error, Zone, NONE, WHOLE, "record below a DNAME"),
    row!(Outside => "outside", Error, Zone, NONE, WHOLE, "record outside of the zone"),
    row!(MaxTtl => "max-ttl", Error, MaxTtl, NONE, WHOLE, "TTL exceeds --max-ttl"),
    row!(NoOrigin => "no-origin", Warning, Records, NONE, WHOLE, "relative name, and no origin: read below the root"),
    row!(HighOctet => "high-octet", Warning, Text, NONE, WHOLE, "octet outside of ASCII"),
    row!(ControlOctet => "control-octet", Warning, Text, NONE, WHOLE, "control octet"),
    row!(Crlf => "crlf", Warning, Text, NONE, WHOLE, "lines end in CR LF: Knot rejects the file"),
    row!(NestedParentheses => "nested-parentheses", Warning, Text, NONE, WHOLE, "parenthesis inside of parentheses"),
    row!(LeadingParenthesis => "leading-parenthesis", Warning, Text, NONE, WHOLE, "entry begins with a parenthesis"),
    row!(AdjacentTokens => "adjacent-tokens", Warning, Records, NONE, WHOLE, "no blank between two tokens"),
    row!(NoFinalNewline => "no-final-newline", Warning, Text, NONE, WHOLE, "no line end at the end of the file"),
    row!(RelativeOrigin => "relative-origin", Warning, Records, NONE, WHOLE, "relative name as origin"),
    row!(SoaMinimumTtl => "soa-minimum-ttl", Warning, Records, NONE, WHOLE, "minimum of the SOA is used as TTL"),
    row!(IncludeTtl => "include-ttl", Warning, Records, NONE, WHOLE, "$TTL of the included file stays in force"),
    row!(MissingDot => "missing-dot", Warning, Records, NONE, WHOLE, "name ends like the origin: a dot at its end may be missing"),
    row!(GenerateDot => "generate-dot", Warning, Records, NONE, WHOLE, "nibbles of an even width end in a dot, so the name is absolute"),
    row!(EmptyUri => "empty-uri", Warning, Records, NONE, WHOLE, "empty target"),
    row!(TlsaLength => "tlsa-length", Warning, Records, NONE, WHOLE, "wrong number of octets for the matching type"),
    row!(IpseckeyAlgorithm => "ipseckey-algorithm", Warning, Records, NONE, WHOLE, "algorithm 0: BIND 9.18 doesn't load it without a key, Knot 3.2 doesn't with one"),
    row!(OhttpValue => "ohttp-value", Warning, Records, NONE, WHOLE, "ohttp has no value (RFC 9540)"),
    row!(Glue => "glue", Warning, Zone, ABSENCE, TARGET, "name server below the delegation without an address"),
    row!(TargetCname => "target-cname", Warning, Zone, NONE, TARGET, "target is a CNAME or below a DNAME"),
    row!(TargetMissing => "target-missing", Warning, Zone, ABSENCE, TARGET, "target is not in the zone"),
    row!(HostName => "host-name", Warning, Zone, NONE, WHOLE, "not a host name: letters, digits and hyphens only"),
    row!(Cds => "cds", Warning, Zone, ABSENCE, WHOLE, "CDS or CDNSKEY of an algorithm without a DNSKEY"),
    row!(TtlDiffers => "ttl-differs", Warning, Zone, NONE, WHOLE, "TTL is not that of the RRset"),
    row!(Duplicate => "duplicate", Warning, Zone, NONE, WHOLE, "duplicate record"),
    row!(NotAtApex => "not-at-apex", Warning, Zone, NONE, WHOLE, "type that belongs at the apex"),
    row!(KeyProtocol => "key-protocol", Warning, Zone, NONE, WHOLE, "DNSKEY of another protocol than 3"),
    row!(KeyAlgorithm => "key-algorithm", Warning, Zone, NONE, WHOLE, "algorithm 0 is reserved"),
    row!(CnameTargetMissing => "cname-target-missing", Warning, Zone, ABSENCE, TARGET, "CNAME target has no records in the zone"),
    row!(CnameLoop => "cname-loop", Warning, Zone, NONE, WHOLE, "CNAMEs lead back to this name"),
    row!(TwoSpf => "two-spf", Warning, Zone, NONE, WHOLE, "name has another SPF record"),
    row!(WeakDigest => "weak-digest", Warning, Zone, ABSENCE, WHOLE, "SHA-1 is the only digest of this key"),
    row!(SingleNs => "single-ns", Warning, Zone, ABSENCE, WHOLE, "zone has only one name server"),
    row!(Hidden => "hidden", Warning, Zone, NONE, WHOLE, "hidden by a delegation"),
];

static LATER_ROWS: [Row; 65] = [
    row!(NoDnskey => "no-dnskey", Error, Signed, NONE, WHOLE, "no DNSKEY at the apex: the zone is not signed"),
    row!(Expired => "expired", Error, Signed, TIME, WHOLE, "signature has expired"),
    row!(ExpiresSoon => "expires-soon", Warning, Signed, TIME, WHOLE, "signature expires soon"),
    row!(NotYetValid => "not-yet-valid", Error, Signed, TIME, WHOLE, "signature is not valid yet"),
    row!(RrsigTimes => "rrsig-times", Error, Signed, NONE, WHOLE, "signature ends before it begins"),
    row!(RrsigSigner => "rrsig-signer", Error, Signed, NONE, WHOLE, "signer is not the zone"),
    row!(RrsigLabels => "rrsig-labels", Error, Signed, NONE, WHOLE, "label count is not that of the owner"),
    row!(OriginalTtl => "original-ttl", Error, Signed, NONE, WHOLE, "original TTL is not that of the RRset"),
    row!(RrsigTtl => "rrsig-ttl", Warning, Signed, NONE, WHOLE, "TTL of the signature is not that of the RRset"),
    row!(Unsigned => "unsigned", Error, Signed, ABSENCE, WHOLE, "set without a signature"),
    row!(NoKey => "no-key", Error, Signed, NONE, WHOLE, "no signature of the set fits a DNSKEY of the zone"),
    row!(KeyMissing => "key-missing", Warning, Signed, NONE, WHOLE, "signature fits no DNSKEY of the zone"),
    row!(RrsigKey => "rrsig-key", Error, Signed, NONE, WHOLE, "signature by a revoked key"),
    row!(SignsNothing => "signs-nothing", Error, Signed, ABSENCE, WHOLE, "signature of records that are not there"),
    row!(OccludedDnssec => "occluded-dnssec", Error, Signed, NONE, WHOLE, "NSEC or RRSIG where the zone has no authority"),
    row!(NoNsec => "no-nsec", Error, Signed, ABSENCE, WHOLE, "name without an NSEC"),
    row!(NsecNext => "nsec-next", Error, Signed, ABSENCE, WHOLE, "NSEC names another than the next name"),
    row!(NsecTypes => "nsec-types", Error, Signed, ABSENCE, WHOLE, "NSEC lists other types than the name has"),
    row!(DsWithoutNs => "ds-without-ns", Warning, Zone, ABSENCE, WHOLE, "DS without an NS"),
    row!(NoNsec3 => "no-nsec3", Error, Signed, ABSENCE, WHOLE, "name, or empty name above it, without an NSEC3"),
    row!(Nsec3Next => "nsec3-next", Error, Signed, ABSENCE, WHOLE, "NSEC3 names another than the next hash"),
    row!(Nsec3Types => "nsec3-types", Error, Signed, ABSENCE, WHOLE, "NSEC3 of the name, or of an empty name above it, lists other types"),
    row!(Nsec3Owner => "nsec3-owner", Error, Signed, NONE, WHOLE, "owner of the NSEC3 is not a hash one label below the apex"),
    row!(Nsec3Iterations => "nsec3-iterations", Error, Signed, NONE, WHOLE, "more than 150 iterations: validators treat the zone as unsigned"),
    row!(Nsec3Iterations50 => "nsec3-iterations-50", Warning, Signed, NONE, WHOLE, "more than 50 iterations: newer validators treat the zone as unsigned"),
    row!(Nsec3Iterations0 => "nsec3-iterations-0", Warning, Signed, NONE, WHOLE, "NSEC3 has iterations: 0 is advised (RFC 9276)"),
    row!(NsecTtl => "nsec-ttl", Warning, Signed, NONE, WHOLE, "TTL is not the lesser of the SOA's TTL and minimum"),
    row!(CdsDelete => "cds-delete", Error, Zone, NONE, WHOLE, "CDS or CDNSKEY asks to delete, and another asks for keys"),
    row!(RrsigLength => "rrsig-length", Error, Signed, NONE, WHOLE, "signature has another length than those of its algorithm"),
    row!(KeyLength => "key-length", Error, Signed, NONE, WHOLE, "key has another length than those of its algorithm"),
    row!(Nsec3Extra => "nsec3-extra", Error, Signed, ABSENCE, WHOLE, "NSEC3 of no name of the zone"),
    row!(RrsigAlgorithm => "rrsig-algorithm", Error, Signed, ABSENCE, WHOLE, "no signature of an algorithm that signs other RRsets"),
    row!(OptOut => "opt-out", Warning, Signed, NONE, WHOLE, "Opt-Out flag is not that of the others"),
    row!(SpfType => "spf-type", Warning, Records, NONE, WHOLE, "type SPF, which no receiver looks up (RFC 7208): publish it as TXT"),
    row!(NaptrRegexp => "naptr-regexp", Error, Records, NONE, FIELD_4, "not a substitution expression, as !ERE!REPLACEMENT!i"),
    row!(NaptrBoth => "naptr-both", Warning, Records, NONE, FIELD_5, "both a regexp and a replacement"),
    row!(CaaTag => "caa-tag", Warning, Records, NONE, FIELD_1, "unknown CAA tag, which has no effect"),
    row!(SoaMail => "soa-mail", Warning, Records, NONE, FIELD_1, "'@' in the mail name of the SOA, where a dot is meant"),
    row!(SoaTimers => "soa-timers", Warning, Records, NONE, FIELD_4, "retry of the SOA is not less than refresh"),
    row!(ReverseName => "reverse-name", Warning, Records, NONE, OWNER, "owner of a PTR is not the name of an address"),
    row!(WildcardInside => "wildcard-inside", Warning, Records, NONE, OWNER, "'*' is not the first label, so this is not a wildcard"),
    row!(TargetAddress => "target-address", Warning, Records, NONE, TARGET, "IPv4 address in place of a name"),
    row!(TxtWords => "txt-words", Warning, Records, NONE, FIELD_0, "several strings without quotes, which are joined without blanks"),
    row!(CommentInData => "comment-in-data", Warning, Records, NONE, LAST, "a comment begins inside of this word: write the text in quotes"),
    row!(PtrDot => "ptr-dot", Warning, Records, NONE, TARGET, "target is in a reverse tree: write the host name with a final dot"),
    row!(TlsaField => "tlsa-field", Warning, Records, NONE, FIELD_0, "certificate usage is not assigned (0 to 3, 255)"),
    row!(CaaValue => "caa-value", Warning, Records, NONE, FIELD_2, "not a domain name with parameters, as ca.example; policy=ev"),
    row!(Spf => "spf", Warning, Records, NONE, FIELD_0, "malformed term in an SPF record, which makes all of it an error"),
    row!(NullMx => "null-mx", Warning, Zone, NONE, TARGET, "null MX beside another MX"),
    row!(ZonemdSerial => "zonemd-serial", Warning, Zone, NONE, WHOLE, "serial of the ZONEMD is not that of the SOA"),
    row!(TlsaHost => "tlsa-host", Warning, Zone, ABSENCE, WHOLE, "host of the TLSA has no address in the zone"),
    row!(SvcbAlias => "svcb-alias", Warning, Zone, NONE, TARGET, "parameters of an alias (priority 0), which have no effect"),
    row!(CdsKey => "cds-key", Error, Signed, NONE, WHOLE, "no CDS is of a DNSKEY of the zone"),
    row!(CdsDiffers => "cds-differs", Warning, Signed, NONE, WHOLE, "CDS and CDNSKEY are not of the same keys"),
    row!(UnsignedApex => "unsigned-apex", Warning, Signed, NONE, WHOLE, "zone has signatures, and its apex has none"),
    row!(Unportable => "unportable", Warning, Records, NONE, WHOLE, ""),
    row!(KeyBesideCname => "key-beside-cname", Warning, Zone, NONE, WHOLE, "KEY beside a CNAME: Knot, NSD and ldns reject it"),
    row!(SpfUnused => "spf-unused", Warning, Records, NONE, FIELD_0, "mechanism after all in an SPF record, which no receiver tests"),
    row!(Dmarc => "dmarc", Warning, Records, NONE, FIELD_0, "first tag is not exactly v=DMARC1, so receivers ignore the record"),
    row!(Dkim => "dkim", Warning, Records, NONE, FIELD_0, "v is not the first tag, or not exactly DKIM1"),
    row!(Delegation => "delegation", Warning, Zone, ABSENCE, TARGET, ""),
    row!(DelegationDs => "delegation-ds", Warning, Zone, ABSENCE, WHOLE, "no DS is of a DNSKEY of the zone below"),
    row!(GlueDiffers => "glue-differs", Warning, Zone, ABSENCE, WHOLE, "address is not one that the zone below has"),
    row!(Exception => "exception", Error, Records, NONE, WHOLE, ""),
    row!(UnusedAllow => "unused-allow", Warning, Records, NONE, WHOLE, ""),
];

static WAYS: [Way; 30] = [
    way!(
        CaaTag,
        1,
        FIELD_1,
        "unknown CAA tag with flag 128: no certificate is issued"
    ),
    way!(
        CaaTag,
        2,
        FIELD_1,
        "CAA tag in capital letters, which NSD rejects"
    ),
    way!(SoaMail, 1, FIELD_1, "mail name of the SOA has one label"),
    way!(
        SoaTimers,
        1,
        FIELD_5,
        "expire of the SOA is less than refresh and retry together"
    ),
    way!(
        SoaTimers,
        2,
        FIELD_6,
        "minimum of the SOA, the TTL of negative answers, is above a day"
    ),
    way!(
        TlsaField,
        1,
        FIELD_1,
        "selector is not assigned (0, 1, 255)"
    ),
    way!(
        TlsaField,
        2,
        FIELD_2,
        "matching type is not assigned (0 to 2, 255)"
    ),
    way!(
        CaaValue,
        1,
        FIELD_2,
        "not a URL of the schemes mailto, http and https"
    ),
    way!(CaaValue, 2, FIELD_0, "unknown flags: 0 or 128 is meant"),
    way!(
        SvcbAlias,
        1,
        TARGET,
        "alias (priority 0) beside others, which have no effect"
    ),
    way!(
        SvcbAlias,
        2,
        TARGET,
        "another alias (priority 0) of the name: clients use one at random"
    ),
    way!(
        SvcbAlias,
        3,
        TARGET,
        "alias (priority 0) that leads back to its name"
    ),
    way!(Unportable, 1, WHOLE, "BIND rejects this word"),
    way!(Unportable, 2, WHOLE, "only BIND reads this word"),
    way!(Unportable, 3, WHOLE, "no server reads this word"),
    way!(Unportable, 4, WHOLE, "Knot rejects this word"),
    way!(Unportable, 5, WHOLE, "some servers reject this word"),
    way!(
        Spf,
        1,
        FIELD_0,
        "redirect or exp occurs twice, which makes all of the record an error"
    ),
    way!(
        Spf,
        2,
        LAST,
        "strings joined without a blank between two terms of an SPF record"
    ),
    way!(
        SpfUnused,
        1,
        FIELD_0,
        "redirect beside all, which receivers ignore"
    ),
    way!(Dmarc, 1, FIELD_0, "a tag has no value: = is missing"),
    way!(
        Dmarc,
        2,
        FIELD_0,
        "a tag occurs twice, which makes all of the record an error"
    ),
    way!(
        Dmarc,
        3,
        FIELD_0,
        "tag with a value that DMARC doesn't define"
    ),
    way!(
        Dmarc,
        4,
        FIELD_0,
        "report address without a scheme, as mailto:"
    ),
    way!(
        Dmarc,
        5,
        FIELD_0,
        "neither the tag p nor rua, so no policy applies"
    ),
    way!(Dkim, 1, FIELD_0, "no tag p, which has the key"),
    way!(Dkim, 2, FIELD_0, "p is not base 64"),
    way!(
        Dkim,
        3,
        FIELD_0,
        "p is cut: base 64 with a digit too many or too few"
    ),
    way!(
        Dkim,
        4,
        FIELD_0,
        "p is not all of an RSA key: its length differs from the one in it"
    ),
    way!(
        Dkim,
        5,
        FIELD_0,
        "p is not an Ed25519 key, which has 32 octets"
    ),
];

/// Returns the further ways of all codes.
pub fn ways() -> &'static [Way; 30]
    ensures { map way_seen result.now ≡ way_rows }
{
    &WAYS
}

/// Returns the rows of the first codes, in their order.
fn first_rows() -> &'static [Row; 67]
    ensures { map row_seen result.now ≡ first_rows }
{
    &FIRST_ROWS
}

/// Returns the rows of the other codes, in their order.
fn later_rows() -> &'static [Row; 65]
    ensures { map row_seen result.now ≡ later_rows }
{
    &LATER_ROWS
}

/// Returns the row at an index.
fn row_in(rows: &[Row], at: usize) -> &Row
    requires { at < length rows.now }
    ensures { row_seen result.now ≡ get_or (map row_seen rows.now) at no_row }
{
    &rows[at]
}

/// Number of codes.
pub const COUNT: usize = 132;

/// Number of the first codes.
const FIRST_COUNT: usize = 67;

/// Returns the row at an index of both tables.
fn row_of_index(at: usize) -> &'static Row
    requires { at < 132 }
    ensures { row_seen result.now ≡ get_or finding_rows at no_row }
{
    if at < FIRST_COUNT {
        row_in(first_rows(), at)
    } else {
        row_in(later_rows(), at - FIRST_COUNT)
    }
}

/// Returns the row of the code with a number from 0 on, in the order of [`Code`]. There is one below
/// [`COUNT`].
pub fn row_at(number: usize) -> Option<&'static Row>
    ensures some { IfSome result (λ r. row_seen r.now ≡ get_or finding_rows number no_row) }
    ensures none { result ≡ None → length finding_rows ≤ number }
{
    if number < COUNT {
        Some(row_of_index(number))
    } else {
        None
    }
}

/// Returns the code of the first row with a name.
pub(crate) fn find_code(name: &str) -> Option<Code>
    ensures { result ≡ code_named finding_rows name.now }
{
    match find_named(first_rows(), name) {
        None => find_named(later_rows(), name),
        code => code,
    }
}

impl Code {
    /// Returns the row of a code.
    pub fn row(self) -> &'static Row
        ensures { row_seen result.now ≡ row_of_code self }
    {
        row_of_index(self as usize)
    }
}
