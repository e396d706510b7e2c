//! The rules that a record may break, by its type.
ghost use Rattle.zone_rules.specs.RulesByType.{HasRulesOf};

use finding_codes::rule;
use finding_codes::rule::Rule;
use rdata_values::RecordType;

/// The rules for records, in the order in which their findings are reported.
const RECORD_RULES: [Rule; 37] = [
    rule!(Outside, 0),
    rule!(TwoSoas, 0),
    rule!(NsAddress, 0),
    rule!(Cname, 0),
    rule!(Dname, 0),
    rule!(BelowDname, 0),
    rule!(DsApex, 0),
    rule!(WildcardNs, 0),
    rule!(SoaNotApex, 0),
    rule!(NsBesideDname, 0),
    rule!(KeyBesideCname, 0),
    rule!(Nsec3Wildcard, 0),
    rule!(Glue, 0),
    rule!(TargetCname, 0),
    rule!(TargetCname, 1),
    rule!(TargetMissing, 0),
    rule!(HostName, 0),
    rule!(Cds, 0),
    rule!(CdsDelete, 0),
    rule!(DsWithoutNs, 0),
    rule!(NotAtApex, 0),
    rule!(KeyProtocol, 0),
    rule!(KeyAlgorithm, 0),
    rule!(CnameTargetMissing, 0),
    rule!(CnameLoop, 0),
    rule!(TwoSpf, 0),
    rule!(WeakDigest, 0),
    rule!(SingleNs, 0),
    rule!(NullMx, 0),
    rule!(ZonemdSerial, 0),
    rule!(TlsaHost, 0),
    rule!(SvcbAlias, 0),
    rule!(SvcbAlias, 1),
    rule!(SvcbAlias, 2),
    rule!(SvcbAlias, 3),
    rule!(TtlDiffers, 0),
    rule!(Duplicate, 0),
];

/// Those for a record of any type.
const RULES_OF_ANY: [Rule; 5] = [
    rule!(Outside, 0),
    rule!(BelowDname, 0),
    rule!(HostName, 0),
    rule!(TtlDiffers, 0),
    rule!(Duplicate, 0),
];

/// Those for an NS.
const RULES_OF_NS: [Rule; 12] = [
    rule!(Outside, 0),
    rule!(NsAddress, 0),
    rule!(BelowDname, 0),
    rule!(WildcardNs, 0),
    rule!(Glue, 0),
    rule!(TargetCname, 0),
    rule!(TargetCname, 1),
    rule!(TargetMissing, 0),
    rule!(HostName, 0),
    rule!(SingleNs, 0),
    rule!(TtlDiffers, 0),
    rule!(Duplicate, 0),
];

/// Those for an MX.
const RULES_OF_MX: [Rule; 9] = [
    rule!(Outside, 0),
    rule!(BelowDname, 0),
    rule!(TargetCname, 0),
    rule!(TargetCname, 1),
    rule!(TargetMissing, 0),
    rule!(HostName, 0),
    rule!(NullMx, 0),
    rule!(TtlDiffers, 0),
    rule!(Duplicate, 0),
];

/// Those for an SRV.
const RULES_OF_SRV: [Rule; 8] = [
    rule!(Outside, 0),
    rule!(BelowDname, 0),
    rule!(TargetCname, 0),
    rule!(TargetCname, 1),
    rule!(TargetMissing, 0),
    rule!(HostName, 0),
    rule!(TtlDiffers, 0),
    rule!(Duplicate, 0),
];

/// Those for a CNAME.
const RULES_OF_CNAME: [Rule; 8] = [
    rule!(Outside, 0),
    rule!(Cname, 0),
    rule!(BelowDname, 0),
    rule!(HostName, 0),
    rule!(CnameTargetMissing, 0),
    rule!(CnameLoop, 0),
    rule!(TtlDiffers, 0),
    rule!(Duplicate, 0),
];

/// Those for a TXT.
const RULES_OF_TXT: [Rule; 6] = [
    rule!(Outside, 0),
    rule!(BelowDname, 0),
    rule!(HostName, 0),
    rule!(TwoSpf, 0),
    rule!(TtlDiffers, 0),
    rule!(Duplicate, 0),
];

/// Those for a DS.
const RULES_OF_DS: [Rule; 9] = [
    rule!(Outside, 0),
    rule!(BelowDname, 0),
    rule!(DsApex, 0),
    rule!(HostName, 0),
    rule!(DsWithoutNs, 0),
    rule!(KeyAlgorithm, 0),
    rule!(WeakDigest, 0),
    rule!(TtlDiffers, 0),
    rule!(Duplicate, 0),
];

/// Returns the rules that a record of a type may break, in the order in which their findings are
/// reported: only those, for types that zones mostly have, and else all.
pub(crate) fn rules_of(rtype: RecordType) -> &'static [Rule]
    ensures { HasRulesOf rtype result.now }
{
    if rtype == RecordType::A {
        return &RULES_OF_ANY;
    }
    if rtype == RecordType::NS {
        return &RULES_OF_NS;
    }
    if rtype == RecordType::AAAA {
        return &RULES_OF_ANY;
    }
    if rtype == RecordType::RRSIG {
        return &RULES_OF_ANY;
    }
    if rtype == RecordType::CNAME {
        return &RULES_OF_CNAME;
    }
    if rtype == RecordType::TXT {
        return &RULES_OF_TXT;
    }
    if rtype == RecordType::MX {
        return &RULES_OF_MX;
    }
    if rtype == RecordType::DS {
        return &RULES_OF_DS;
    }
    if rtype == RecordType::PTR {
        return &RULES_OF_ANY;
    }
    if rtype == RecordType::NSEC {
        return &RULES_OF_ANY;
    }
    if rtype == RecordType::SRV {
        return &RULES_OF_SRV;
    }
    &RECORD_RULES
}
