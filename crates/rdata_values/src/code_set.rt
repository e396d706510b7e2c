//! Sets of numbers of 16 bits, which print as a bitmap (RFC 4034 section 4.1.2).
ghost use Rattle.std.specs.Prelude.{◌≡◌, ◌≢◌, ℕ, ◌+◌, ◌<◌, ◌≤◌, false, List, [], ◌∷◌, ◌++◌, All, OnErr, OnOk, MatchBool, length, take, slice_index};
ghost use Rattle.dns_octets.specs.Appending.{Extends, LacksRoom};
ghost use Rattle.rdata_values.specs.Bitmap.{has, trimmed, window_octets_of, window_block, bitmap, IsAscending, SameTypes};
ghost use Rattle.rdata_values.specs.Members.{EndsCodes, members};

use crate::bitmap::is_set;
use dns_octets::{OctetsBuilder, ShortBuf};
use std::marker::Model;

/// Number of octets of one window. Bits count from the left.
const WINDOW_OCTETS: usize = 32;

/// Number of octets of all windows.
const SET_OCTETS: usize = 8192;

/// A set of numbers of 16 bits: the codes of types, or keys. It has 8 KiB, and allocates no memory.
#[derive(Drop)]
pub struct CodeSet {
    octets: [u8; SET_OCTETS],
    // Number of windows up to the last with a code.
    windows: usize,
}

impl Model for CodeSet {
    ghost use Rattle.std.specs.Prelude.{List, ℕ};
    ghost use Rattle.rdata_values.specs.Members.{members, CoversCodes};

    // The codes in ascending order.
    ghost Value = { List ℕ };

    ghost view = { λ s. members s.octets };

    ghost invariant = { λ s. CoversCodes s.octets s.windows };
}

/// Returns `N` zeros.
fn zeros<const N: usize>() -> [u8; N]
    ensures { (k : ℕ) → slice_index result k ≡ 0 }
{
    [0; N]
}

/// Returns the number of octets up to the last that is not zero.
fn used(octets: &[u8]) -> usize
    ensures within { result ≤ length octets.now }
    ensures trimmed { take result octets.now ≡ trimmed octets.now }
{
    let mut count = octets.len();
    while count > 0 && octets[count - 1] == 0 {
        count -= 1;
    }
    count
}

/// Returns the octets of a window.
fn window_part(octets: &[u8], window: usize) -> &[u8]
    requires all { length octets.now ≡ 8192 }
    requires window { window < 256 }
    ensures { result.now ≡ window_octets_of (members octets.now) window }
{
    let first = WINDOW_OCTETS * window;
    &octets[first..first + WINDOW_OCTETS]
}

/// Appends the block of a window, if the window has a code.
fn append_window<B: OctetsBuilder>(
    window: u8,
    octets: &[u8],
    target: &mut B,
) -> Result<(), ShortBuf>
    requires { length octets.now ≡ 32 }
    ensures ok { OnOk result
        (B.octets target.new ≡ B.octets target.old ++ window_block window (trimmed octets.now)) }
    ensures err { OnErr result (Extends (B.octets target.old) (B.octets target.new)) }
    ensures lacks { OnErr result (LacksRoom B.room
        (λ block. block ≡ window_block window (trimmed octets.now)) (B.octets target.old)) }
{
    let count = used(octets);
    if count > 0 {
        target.append_slice(&[window, count as u8])?;
        target.append_slice(&octets[..count])?;
    }
    Ok(())
}

impl CodeSet {
    /// Returns an empty set.
    pub fn new() -> Self
        ensures { result ≡ [] }
    {
        CodeSet {
            octets: zeros(),
            windows: 0,
        }
    }

    /// Adds a code. The set may already have it.
    pub fn insert(&mut self, code: u16)
        ensures { SameTypes self.new (code ∷ self.old) }
    {
        let place = usize::from(code);
        self.octets[place / 8] |= 1 << (7 - place % 8);
        self.windows = self.windows.max(place / 256 + 1);
    }

    /// Returns whether the set has a code.
    pub fn contains(&self, code: u16) -> bool
        ensures { result ≡ has self.now code }
    {
        is_set(&self.octets, usize::from(code))
    }

    /// Returns whether the set is empty.
    pub fn is_empty(&self) -> bool
        ensures { MatchBool result (self.now ≡ []) (self.now ≢ []) }
    {
        self.windows == 0
    }

    /// Returns the end of the last window of 256 codes that has a code of the set, or 0 if the set
    /// is empty. Each code of the set is less.
    pub fn end(&self) -> u32
        ensures within { result ≤ 65536 }
        ensures above { (code : ℕ) → code < 65536 → result ≤ code
            → has self.now code ≡ false }
        ensures last { EndsCodes self.now result }
    {
        256 * self.windows as u32
    }

    /// Appends the bitmap of the codes. On an error, the target has its old octets, perhaps with
    /// the beginning of the bitmap after them.
    pub(crate) fn append_to<B: OctetsBuilder>(&self, target: &mut B) -> Result<(), ShortBuf>
        ensures ok { OnOk result (B.octets target.new ≡ B.octets target.old ++ bitmap self.now) }
        ensures err { OnErr result (Extends (B.octets target.old) (B.octets target.new)) }
        ensures lacks { OnErr result (LacksRoom B.room
            (λ octets. octets ≡ bitmap self.now) (B.octets target.old)) }
    {
        for window in 0..self.windows {
            let octets = window_part(&self.octets, window);
            append_window(window as u8, octets, target)?;
        }
        Ok(())
    }
}
