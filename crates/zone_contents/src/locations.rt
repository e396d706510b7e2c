//! Positions of records in their files, as numbers.
ghost use Rattle.std.specs.Prelude.{◌≡◌, ◌<◌, ◌≤◌, ◌+◌, ◌*◌, ◌%◌, ◌^◌, ◌++◌, [], ◌∷◌, IfOk, IfSome, OnErr, OnOk, false, true, get_or, length};
ghost use Rattle.zone_contents.specs.Locations.{far_location, far_number, index_number, located, location, near_code, near_location, unpacked, KeepsLocated, Packs};

use std::alloc::{AllocError, Allocator, Global};
use std::marker::Model;

/// The position of a record, and that of its target, as lines and columns.
#[derive(Clone, Copy)]
pub struct Location {
    pub line: u64,
    pub column: u64,
    pub target_line: u64,
    pub target_column: u64,
    /// The number of the record among those of a directive, if it is generated.
    pub generated: Option<u32>,
}

/// Last octet of the number of a location that is stored elsewhere.
const INDEXED: u64 = 254;

/// Last octet of a number that has all parts of a location.
const FAR: u64 = 255;

/// Returns whether two locations are equal.
fn are_equal(left: &Location, right: &Location) -> bool
    ensures { result ≡ true → left.now ≡ right.now }
{
    left.line == right.line
        && left.column == right.column
        && left.target_line == right.target_line
        && left.target_column == right.target_column
        && left.generated == right.generated
}

/// Returns the location of a record at column 1 with a target on its line, if a code is below 128,
/// and of a record without a target otherwise.
fn near_location(line: u64, code: u64) -> Location
    requires { code < 256 }
    ensures { result ≡ near_location line code }
{
    let (column, target_column) = if code < 128 {
        (1, code + 1)
    } else {
        (code - 126, code - 126)
    };
    Location {
        line,
        column,
        target_line: line,
        target_column,
        generated: None,
    }
}

/// Returns the location whose parts are in one number.
fn far_location(number: u64) -> Location
    requires { number < 2 ^ 56 }
    ensures { result ≡ far_location number }
{
    let line = number / 268435456;
    let lines = number / 4096 % 64;
    Location {
        line,
        column: number / 262144 % 1024,
        target_line: line + lines,
        target_column: number % 4096,
        generated: None,
    }
}

/// Returns the location that a number has alone.
fn unpacked(number: u64) -> Location
    ensures { result ≡ unpacked number }
{
    let (rest, code) = (number / 256, number % 256);
    if code == FAR {
        far_location(rest)
    } else {
        near_location(rest, code)
    }
}

/// Returns the code of a location for which [`near_location`] returns the columns.
fn near_code(found: &Location) -> Option<u64>
    ensures { IfSome result (λ code. code ≡ near_code found.now) }
{
    if found.column == 1 {
        found.target_column.checked_sub(1)
    } else {
        found.column.checked_add(126)
    }
}

/// Returns a number with a line and a code.
fn near_number(line: u64, code: u64) -> Option<u64>
    ensures { IfSome result (λ number. number ≡ line * 256 + code) }
{
    line.checked_mul(256)?.checked_add(code)
}

/// Returns a number with the parts of a location, or `None` if one of them is too great.
fn far_number(found: &Location) -> Option<u64>
    ensures { IfSome result (λ number. number ≡ far_number found.now) }
{
    let lines = found.target_line.checked_sub(found.line)?;
    if found.line >= 268435456
        || found.column >= 1024
        || lines >= 64
        || found.target_column >= 4096
    {
        return None;
    }
    let position = found.line * 1024 + found.column;
    Some(((position * 64 + lines) * 4096 + found.target_column) * 256 + FAR)
}

/// Returns a number if it has a location alone.
fn if_packs(number: u64, found: &Location) -> Option<u64>
    ensures { IfSome result (λ n. Packs found.now n) }
{
    if number % 256 != INDEXED && are_equal(&unpacked(number), found) {
        Some(number)
    } else {
        None
    }
}

/// Returns a number that has a location alone: its line and a code, if these suffice.
fn packed_near(found: &Location) -> Option<u64>
    ensures { IfSome result (λ n. Packs found.now n) }
{
    if_packs(near_number(found.line, near_code(found)?)?, found)
}

/// Returns a number that has a location alone, or `None` if there is no room for it.
fn packed(found: &Location) -> Option<u64>
    ensures { IfSome result (λ n. Packs found.now n) }
{
    match packed_near(found) {
        Some(number) => Some(number),
        None => if_packs(far_number(found)?, found),
    }
}

/// Returns the number of a location that has an index among others, or `None` if the index is too
/// great.
fn number_of(index: usize) -> Option<u64>
    ensures { IfSome result (λ n. n ≡ index_number index) }
{
    (index as u64).checked_mul(256)?.checked_add(INDEXED)
}

/// Adds a location after others, and returns its number. Fails without memory, and if there are 2^56
/// or more others; these are then unchanged.
fn push_location<A: Allocator>(
    found: &Location,
    others: &mut Vec<Location, A>,
) -> Result<u64, AllocError>
    ensures ok { IfOk result (λ n. located others.new.items n ≡ found.now) }
    ensures more { OnOk result (others.new.items ≡ others.old.items ++ found.now ∷ []) }
    ensures err { OnErr result (others.new.items ≡ others.old.items) }
{
    match number_of(others.len()) {
        Some(number) => {
            others.push(*found)?;
            Ok(number)
        }
        None => Err(AllocError),
    }
}

/// Locations that have numbers. Most numbers have all of a location; the other locations are stored.
///
/// The number of a line below 2^24 is below 2^32, if the record begins at column 1 and its target is
/// on the same line, before column 129, or if it has no target and begins before column 128.
#[derive(Drop)]
pub struct Locations<A: Allocator = Global> {
    others: Vec<Location, A>,
}

impl<A: Allocator> Model for Locations<A> {
    ghost use Rattle.std.specs.Prelude.{List};
    ghost use Rattle.zone_contents.specs.declared.locations.Location.{Location};

    ghost Value = { List Location };

    ghost view = { λ l. l.others.items };
}

impl<A: Allocator + Copy> Locations<A> {
    /// Returns no locations.
    pub fn new(alloc: A) -> Self
        ensures { result ≡ [] }
    {
        Locations {
            others: Vec::new(alloc),
        }
    }
}

impl<A: Allocator> Locations<A> {
    /// Returns a number for a location. Fails without memory; the locations are then unchanged.
    pub fn add(&mut self, found: &Location) -> Result<u64, AllocError>
        ensures ok { IfOk result (λ n. located self.new n ≡ found.now) }
        ensures kept { KeepsLocated self.old self.new }
        ensures err { OnErr result (self.new ≡ self.old) }
    {
        if let Some(number) = packed(found) {
            return Ok(number);
        }
        push_location(found, &mut self.others)
    }

    /// Returns the location of a number.
    pub fn get(&self, number: u64) -> Location
        ensures { result ≡ located self.now number }
    {
        if number % 256 != INDEXED {
            return unpacked(number);
        }
        match self.others.as_slice().get((number / 256) as usize) {
            Some(found) => *found,
            None => Location {
                line: 0,
                column: 0,
                target_line: 0,
                target_column: 0,
                generated: None,
            },
        }
    }
}
