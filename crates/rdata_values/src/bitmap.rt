//! Type bitmaps (RFC 4034 section 4.1.2), parsed without memory.
//!
//! The codes from 0 to 65535 are in 256 windows of 256 codes. A window with a member has a block:
//! the window's number, the number of octets that follow, and these octets. The first bit from the
//! left is that of the window's first code. Octets of zeros at the end are omitted.
ghost use Rattle.std.specs.Prelude.{◌≡◌, ◌≢◌, ℕ, ◌+◌, ◌-◌, ◌*◌, ◌/◌, ◌<◌, ◌≤◌, List, [], ◌∷◌, ◌++◌, OnOk, IfErr, MatchOption, MatchResult, length};
ghost use Rattle.rdata_values.specs.Bitmap.{one_if, bit_in, set_places, types_of, IsBitmap, IsData, IsBitmapThen, IsWrongBlock};
ghost use Rattle.rdata_values.specs.RemainingTypes.{remaining_types, moved_on};

use crate::RecordType;
use std::marker::Model;
use thiserror::Error;

/// Greatest number of octets in a block.
const WINDOW_OCTETS: usize = 32;

/// The reason why octets are not a type bitmap.
#[derive(Clone, Copy, Debug, PartialEq, Eq, Error)]
pub enum BitmapError {
    /// A window's number is not greater than that of the window before it.
    #[error("windows out of order in a type bitmap")]
    Order,
    /// A block has no octets or more than 32.
    #[error("a block of a type bitmap needs 1 to 32 octets")]
    Length,
    /// The last octet of a block is zero.
    #[error("a block of a type bitmap ends with a zero octet")]
    TrailingZero,
    /// A block is truncated.
    #[error("a type bitmap is cut off")]
    Short,
}

/// A block: the window's number, its octets, and the octets after the block.
#[derive(Clone, Copy)]
struct Block<'a> {
    window: u8,
    octets: &'a [u8],
    rest: &'a [u8],
}

/// Returns the block that octets begin with.
fn first_block(octets: &[u8]) -> Result<Block<'_>, BitmapError>
    requires { 0 < length octets.now }
    ensures cases { MatchResult result
        (λ b. (octets.now ≡ b.window ∷ length b.octets.now ∷ b.octets.now ++ b.rest.now) × (b.window < 256) × IsData b.octets.now)
        (λ e. (window : ℕ) (xs rest : List ℕ) → IsData xs → octets.now ≢ window ∷ length xs ∷ xs ++ rest) }
    ensures wrong { IfErr result (λ e. IsWrongBlock e octets.now) }
{
    if octets.len() < 2 {
        return Err(BitmapError::Short);
    }
    let count = usize::from(octets[1]);
    if count == 0 || count > WINDOW_OCTETS {
        return Err(BitmapError::Length);
    }
    if octets.len() < 2 + count {
        return Err(BitmapError::Short);
    }
    if octets[1 + count] == 0 {
        return Err(BitmapError::TrailingZero);
    }
    Ok(Block {
        window: octets[0],
        octets: &octets[2..2 + count],
        rest: &octets[2 + count..],
    })
}

/// Checks that octets are the bitmap of a list of types, which may be empty. Fails with the first
/// error in the octets otherwise.
pub fn check_bitmap(octets: &[u8]) -> Result<(), BitmapError>
    ensures ok { OnOk result (IsBitmap octets.now) }
    ensures err { IfErr result (λ _. ¬ IsBitmap octets.now) }
    ensures wrong { IfErr result (λ e. IsBitmapThen (IsWrongBlock e) octets.now) }
{
    let mut rest = octets;
    let mut next = 0;
    while !rest.is_empty() {
        let block = first_block(rest)?;
        if u16::from(block.window) < next {
            return Err(BitmapError::Order);
        }
        next = u16::from(block.window) + 1;
        rest = block.rest;
    }
    Ok(())
}

/// Returns whether the bit at an index is set. Bits count from the left.
pub(crate) fn is_set(octets: &[u8], place: usize) -> bool
    requires { place / 8 < length octets.now }
    ensures { one_if result ≡ bit_in octets.now place }
{
    (octets[place / 8] >> (7 - place % 8)) & 1 == 1
}

/// Returns the index of the first set bit of a window, from `from` on.
fn next_set(octets: &[u8], from: usize) -> Option<usize>
    requires { from ≤ 256 }
    ensures { MatchOption result (set_places octets.now from (256 - from) ≡ [])
        (λ place. (place < 256) × (set_places octets.now from (256 - from) ≡ place ∷ set_places octets.now (place + 1) (256 - (place + 1)))) }
{
    let end = 8 * octets.len().min(WINDOW_OCTETS);
    for place in from..end {
        if is_set(octets, place) {
            return Some(place);
        }
    }
    None
}

/// State of an iterator: the window, the index of the next bit in its octets, and the blocks after
/// it.
#[derive(Clone, Copy)]
struct Cursor<'a> {
    window: u8,
    octets: &'a [u8],
    place: usize,
    rest: &'a [u8],
}

/// Returns the cursor at the first bit of the block that octets begin with.
fn enter_block(rest: &[u8]) -> Cursor<'_>
    requires { 2 ≤ length rest.now }
    ensures left { remaining_types result ≡ types_of rest.now }
    ensures place { result.place ≡ 0 }
    ensures shorter { length result.rest.now < length rest.now }
{
    let end = rest.len().min(2 + usize::from(rest[1]));
    Cursor {
        window: rest[0],
        octets: &rest[2..end],
        place: 0,
        rest: &rest[end..],
    }
}

/// Returns the cursor at the next type, if there is one.
fn find_type(from: Cursor<'_>) -> Option<Cursor<'_>>
    requires { from.place ≤ 256 }
    ensures { MatchOption result (remaining_types from.entry ≡ [])
        (λ c. (c.place < 256) × (remaining_types from.entry ≡ (256 * c.window + c.place) ∷ remaining_types (moved_on c))) }
{
    let mut cursor = from;
    loop {
        if let Some(place) = next_set(cursor.octets, cursor.place) {
            cursor.place = place;
            return Some(cursor);
        }
        if cursor.rest.len() < 2 {
            return None;
        }
        cursor = enter_block(cursor.rest);
    }
}

/// An iterator over the types of a bitmap, in ascending order.
#[derive(Drop)]
pub struct BitmapTypes<'a> {
    at: Cursor<'a>,
}

impl<'a> Model for BitmapTypes<'a> {
    ghost use Rattle.std.specs.Prelude.{List, ℕ, ◌≤◌};
    ghost use Rattle.rdata_values.specs.RemainingTypes.{remaining_types};

    ghost Value = { List ℕ };

    ghost view = { λ t. remaining_types t.at };

    ghost invariant = { λ t. t.at.place ≤ 256 };
}

impl<'a> BitmapTypes<'a> {
    /// Returns the types of a bitmap. If the octets are not a bitmap, returns the types that can be
    /// parsed.
    pub fn new(octets: &'a [u8]) -> Self
        ensures { result ≡ types_of octets.now }
    {
        BitmapTypes {
            at: Cursor {
                window: 0,
                octets: &octets[..0],
                place: 256,
                rest: octets,
            },
        }
    }
}

impl<'a> Iterator for BitmapTypes<'a> {
    type Item = RecordType;

    ghost use Rattle.std.specs.Iterator.{YieldsFirst, item_count};

    ghost next_gives = { YieldsFirst (λ left. left) };

    ghost remaining = { item_count (λ left. left) };

    fn next(&mut self) -> Option<RecordType> {
        let found = find_type(self.at)?;
        self.at = Cursor {
            place: found.place + 1,
            ..found
        };
        let code = 256 * u16::from(found.window) + found.place as u16;
        Some(RecordType(code))
    }
}
