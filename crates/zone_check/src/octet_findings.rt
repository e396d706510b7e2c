//! Finds what is unusual in the octets of an entry.
ghost use Rattle.std.specs.Prelude.{◌≡◌, ◌++◌, ◌&&◌, ◌||◌, OnOk};
ghost use Rattle.zone_check.specs.OctetFindings.{AreOctetFindings, finding_if, is_control_octet, is_control_z, is_reported, octet_findings, reports};

use crate::finding::{About, EntryFinding, finding_at};
use crate::lint::{Block, Remark, lint};
use crate::value_findings::append_any;
use finding_codes::code::Code;
use std::alloc::{AllocError, Global};

/// Which findings about octets are reported.
#[derive(Clone, Copy)]
pub struct ReportedOctets {
    pub nul: bool,
    pub control_z: bool,
    pub leading_parenthesis: bool,
    pub high_octet: bool,
    pub control_octet: bool,
    pub nested_parentheses: bool,
    pub adjacent_tokens: bool,
    pub crlf: bool,
    pub no_final_newline: bool,
}

/// Returns whether a code is that of Ctrl-Z.
fn is_control_z(code: Code) -> bool
    ensures { result ≡ is_control_z code }
{
    matches!(code, Code::ControlZ)
}

/// Returns whether a code is that of control octets.
fn is_control_octet(code: Code) -> bool
    ensures { result ≡ is_control_octet code }
{
    matches!(code, Code::ControlOctet)
}

/// Returns whether findings about octets with a code are reported.
fn reports(reported: ReportedOctets, code: Code) -> bool
    ensures { result ≡ reports reported code }
{
    match code {
        Code::Nul => reported.nul,
        Code::ControlZ => reported.control_z,
        Code::LeadingParenthesis => reported.leading_parenthesis,
        Code::HighOctet => reported.high_octet,
        Code::ControlOctet => reported.control_octet,
        Code::NestedParentheses => reported.nested_parentheses,
        Code::AdjacentTokens => reported.adjacent_tokens,
        Code::Crlf => reported.crlf,
        Code::NoFinalNewline => reported.no_final_newline,
        _ => false,
    }
}

/// Returns whether a finding about octets is reported. After a reported Ctrl-Z control octets are
/// not.
fn is_reported(reported: ReportedOctets, after_control_z: bool, code: Code) -> bool
    ensures { result ≡ is_reported reported after_control_z code }
{
    reports(reported, code) && !(after_control_z && is_control_octet(code))
}

/// Returns whether a reported Ctrl-Z is before the next finding.
fn has_control_z(after_control_z: bool, is_reported: bool, code: Code) -> bool
    ensures { result ≡ (after_control_z || (is_reported && is_control_z code)) }
{
    after_control_z || (is_reported && is_control_z(code))
}

/// Returns the finding about an octet, if it is reported.
fn finding_if(is_reported: bool, remark: &Remark) -> Option<EntryFinding>
    ensures { result ≡ finding_if is_reported remark.now }
{
    if is_reported {
        Some(finding_at(remark.code, remark.at, 1, About::Octets))
    } else {
        None
    }
}

/// Appends the findings that are reported. Fails without memory.
fn append_reported(
    remarks: &[Remark],
    reported: ReportedOctets,
    found: &mut Vec<EntryFinding>,
) -> Result<(), AllocError>
    ensures { OnOk result (found.new.items
        ≡ found.old.items ++ octet_findings reported remarks.now) }
{
    let mut after_control_z = false;
    for remark in remarks {
        let is_it = is_reported(reported, after_control_z, remark.code);
        append_any(finding_if(is_it, remark), found)?;
        after_control_z = has_control_z(after_control_z, is_it, remark.code);
    }
    Ok(())
}

/// Appends the findings about the octets of an entry, in the order of [`lint`]. Fails without
/// memory.
pub fn find_in_octets(
    alloc: Global,
    octets: &[u8],
    block: Block,
    reported: ReportedOctets,
    found: &mut Vec<EntryFinding>,
) -> Result<(), AllocError>
    ensures { OnOk result
        (AreOctetFindings octets.now block reported found.old.items found.new.items) }
{
    // (so that offsets can be counted)
    let _count = octets.len() + 1;
    let mut remarks = Vec::new(alloc);
    lint(octets, block, &mut remarks)?;
    append_reported(remarks.as_slice(), reported, found)
}
