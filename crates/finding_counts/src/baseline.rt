//! The lines of a baseline: keys of findings, and the number of findings with each.
//!
//! A key is a code, a zone, an owner and a type, with tabs between. It doesn't depend on lines of the
//! zone file, so a finding keeps it if other entries are added or removed.
ghost use Rattle.std.specs.Prelude.{◌≡◌, ◌++◌, ◌<◌, OnOk};
ghost use Rattle.std.specs.Option.{IfSome};
ghost use Rattle.finding_codes.specs.Code.{code_name};
ghost use Rattle.finding_counts.specs.Baselines.{BaselineSplit, baseline_key, baseline_text, tab_count};

use finding_codes::code::Code;
use itoa::Buffer;
use std::alloc::{AllocError, Allocator};

/// Number of tabs in a key.
const TABS: usize = 3;

/// A line of a baseline.
#[derive(Clone, Copy)]
pub struct BaselineLine<'l> {
    /// The code, the zone, the owner and the type, with tabs between.
    pub key: &'l [u8],
    /// Number of findings with the key. It isn't 0.
    pub number: usize,
}

/// Appends the key of a finding. What it doesn't have is empty. Fails without memory.
pub fn push_key<A: Allocator>(
    out: &mut Vec<u8, A>,
    code: Code,
    zone: &[u8],
    owner: &[u8],
    rtype: &[u8],
) -> Result<(), AllocError>
    ensures { OnOk result (out.new.items
        ≡ out.old.items ++ baseline_key (code_name code) zone.now owner.now rtype.now) }
{
    out.extend_from_slice(code.name().as_bytes())?;
    out.extend_from_slice(b"\t")?;
    out.extend_from_slice(zone)?;
    out.extend_from_slice(b"\t")?;
    out.extend_from_slice(owner)?;
    out.extend_from_slice(b"\t")?;
    out.extend_from_slice(rtype)
}

/// Appends a line of a baseline, with its end. Fails without memory.
pub fn push_baseline_line<A: Allocator>(
    out: &mut Vec<u8, A>,
    key: &[u8],
    number: usize,
) -> Result<(), AllocError>
    ensures { OnOk result (out.new.items ≡ out.old.items ++ baseline_text key.now number) }
{
    let mut buffer = Buffer::new();
    out.extend_from_slice(key)?;
    out.extend_from_slice(b"\t")?;
    out.extend_from_slice(buffer.format(number).as_bytes())?;
    out.extend_from_slice(b"\n")
}

/// Returns the number of tabs among octets.
fn tab_count(octets: &[u8]) -> usize
    ensures { result ≡ tab_count octets.now }
{
    let mut count = 0;
    for octet in octets {
        if *octet == b'\t' {
            count += 1;
        }
    }
    count
}

/// Returns the number that digits are, unless it is 0, or too great.
fn number_of(digits: &[u8]) -> Option<usize>
    ensures { IfSome result (λ n. 0 < n) }
{
    for octet in digits {
        if !octet.is_ascii_digit() {
            return None;
        }
    }
    match str::from_utf8(digits).ok()?.parse::<usize>() {
        Ok(number) if number > 0 => Some(number),
        _ => None,
    }
}

/// Splits a line of a baseline, without its end. Returns `None` if it has not four tabs, or if no
/// number from 1 on is after the last.
pub fn baseline_line(line: &[u8]) -> Option<BaselineLine<'_>>
    ensures { IfSome result (λ split. BaselineSplit line.now split.key.now split.number) }
{
    let end = line.iter().rposition(|octet| *octet == b'\t')?;
    let (key, rest) = line.split_at(end);
    if tab_count(key) != TABS {
        return None;
    }
    let (_, digits) = rest.split_at(1);
    Some(BaselineLine {
        key,
        number: number_of(digits)?,
    })
}

/// Returns the code of a key: its octets before the first tab.
pub fn code_word(key: &[u8]) -> &[u8] {
    match key.iter().position(|octet| *octet == b'\t') {
        Some(end) => &key[..end],
        None => key,
    }
}
