//! Names that differ little from another.
ghost use Rattle.std.specs.Prelude.{◌≡◌, nat_eq, IfOk};
ghost use Rattle.std.specs.List.{starts_with};
ghost use Rattle.finding_texts.specs.Similar.{begin_alike, edits_between, is_extended, is_similar, is_suggested, similar_types, suggested_types};
ghost use Rattle.rdata_values.specs.Registry.{code_row, code_rows};

use rdata_values::RecordType;
use rdata_values::registry::Named;
use rdata_values::types::TYPES;
use std::alloc::{AllocError, Global};
use strsim::osa_distance;

/// Greatest number of types that are suggested.
const MOST: usize = 3;

/// Returns whether a text begins with another.
fn begins_with(long: &str, short: &str) -> bool
    ensures { result ≡ starts_with nat_eq long.now short.now }
{
    long.starts_with(short)
}

/// Returns whether a text begins with another that is not empty, and has at most two octets more.
fn is_extended(long: &str, short: &str) -> bool
    ensures { result ≡ is_extended long.now short.now }
{
    !short.is_empty() && begins_with(long, short) && long.len().saturating_sub(short.len()) <= 2
}

/// Returns whether two texts begin with the same octet.
fn begin_alike(left: &[u8], right: &[u8]) -> bool
    ensures { result ≡ begin_alike left.now right.now }
{
    match (left, right) {
        ([first, ..], [other, ..]) => *first == *other,
        _ => false,
    }
}

/// Returns whether a word probably means the name of a type: one begins with the other, or they
/// begin alike and one edit leads from one to the other.
fn is_similar(alloc: Global, word: &str, name: &str) -> Result<bool, AllocError>
    ensures { IfOk result (λ r. r ≡ is_similar word.now name.now) }
{
    if is_extended(word, name) || is_extended(name, word) {
        return Ok(true);
    }
    if !begin_alike(word.as_bytes(), name.as_bytes()) {
        return Ok(false);
    }
    Ok(osa_distance(alloc, word, name)? <= 1)
}

/// Returns whether a row has the name of a type that every reader knows, and which a word probably
/// means.
fn is_suggested(alloc: Global, word: &str, row: &Named) -> Result<bool, AllocError>
    ensures { IfOk result (λ r. r ≡ is_suggested word.now (code_row row.now.0 row.now.1.now)) }
{
    if !RecordType(row.0).is_portable() {
        return Ok(false);
    }
    is_similar(alloc, word, row.1)
}

/// Returns the types of a table whose names a word in capital letters probably means.
fn suggested_types(alloc: Global, rows: &[Named], word: &str) -> Result<Vec<RecordType>, AllocError>
    ensures { IfOk result (λ v. v.items ≡ suggested_types (code_rows rows.now) word.now) }
{
    let mut types = Vec::new(alloc);
    for row in rows {
        if is_suggested(alloc, word, row)? {
            types.push(RecordType(row.0))?;
        }
    }
    Ok(types)
}

/// Returns the types whose names a word probably means, at most three of those whose names every
/// reader knows. Fails if memory is out.
pub fn similar_types(alloc: Global, word: &str) -> Result<Vec<RecordType>, AllocError>
    ensures { IfOk result (λ v. v.items ≡ similar_types word.now) }
{
    if word.len() < 2 || word.len() > 16 {
        return Ok(Vec::new(alloc));
    }
    let word = word.to_ascii_uppercase(alloc)?;
    let mut types = suggested_types(alloc, &TYPES, word.as_str())?;
    types.truncate(MOST);
    Ok(types)
}

/// Returns the number of edits that lead from one name to another, if there are at most two, and
/// at most one for each two octets of the shorter name. Fails if memory is out.
pub fn edits_between(alloc: Global, name: &str, other: &str) -> Result<Option<usize>, AllocError>
    ensures { IfOk result (λ r. r ≡ edits_between name.now other.now) }
{
    if name.len().abs_diff(other.len()) > 2 {
        return Ok(None);
    }
    let edits = osa_distance(alloc, name, other)?;
    if edits <= 2 && 2 * edits <= name.len().min(other.len()) {
        Ok(Some(edits))
    } else {
        Ok(None)
    }
}
