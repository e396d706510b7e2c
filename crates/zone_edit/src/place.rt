//! The records of a zone's apex that are edited, and the files that have them.
ghost use Rattle.std.specs.Prelude.{◌≡◌};
ghost use Rattle.zone_edit.specs.Places.{first_place_error, first_soa, place_error, soa_place};

use crate::serial::SoaError;

/// An SOA or ZONEMD record at the apex of a zone.
#[derive(Clone, Copy)]
pub struct RecordPlace {
    /// Whether it is an SOA.
    pub is_soa: bool,
    /// Whether its file is included by another.
    pub is_included: bool,
    /// Whether a `$GENERATE` directive makes it.
    pub is_generated: bool,
}

/// Returns why a record with an index can't be edited in the file.
fn place_error(index: usize, one: &RecordPlace) -> Option<SoaError>
    ensures { result ≡ place_error index one.now }
{
    if one.is_included {
        Some(SoaError::Included { index })
    } else if one.is_generated {
        Some(SoaError::Generated { index })
    } else {
        None
    }
}

/// Returns why the first of the records that can't be edited can't be.
fn first_place_error(records: &[RecordPlace]) -> Option<SoaError>
    ensures { result ≡ first_place_error 0 records.now }
{
    let mut index = 0;
    for one in records {
        if let Some(error) = place_error(index, one) {
            return Some(error);
        }
        index += 1;
    }
    None
}

/// Returns the index of the first SOA.
fn first_soa(records: &[RecordPlace]) -> Option<usize>
    ensures { result ≡ first_soa 0 records.now }
{
    let mut index = 0;
    for one in records {
        if one.is_soa {
            return Some(index);
        }
        index += 1;
    }
    None
}

/// Returns the index of the first SOA of the records of an apex, which are in the order of the zone.
/// All of them must be records of the file itself.
///
/// The first record that isn't is the error: `Included` if it is in an included file, `Generated` if a
/// `$GENERATE` makes it. Else it fails with `NoSoa` if there is no SOA. There is no other error.
pub fn soa_place(records: &[RecordPlace]) -> Result<usize, SoaError>
    ensures { result ≡ soa_place records.now }
{
    if let Some(error) = first_place_error(records) {
        return Err(error);
    }
    match first_soa(records) {
        Some(index) => Ok(index),
        None => Err(SoaError::NoSoa),
    }
}
