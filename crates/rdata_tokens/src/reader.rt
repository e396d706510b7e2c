//! Digits that arrive in pieces, as the tokens of an entry do.
ghost use Rattle.std.specs.Prelude.{◌≡◌, ℕ, List, ◌+◌, ◌<◌, ◌≤◌, false, true, [], ◌∷◌, length, take, IfOk, IfErr, IfSome, OnOk, OnErr, MatchResult};
ghost use Rattle.dns_octets.specs.Appending.{Extends};
ghost use Rattle.rdata_tokens.specs.Spelled.{base_of, unfinished, opens_group, SpellsDigits};
ghost use Rattle.rdata_tokens.specs.Reading.{HasRead, RefusesPiece, AppendsBlocks, AppendsPiece, EndsPieces, AreWholePairs, LacksBlocks};

use crate::groups::{read_block, read_group, read_hex, starts_group};
use crate::kind::DigitsKind;
use dns_octets::{OctetsBuilder, ShortBuf};
use rdata_values::ErrorKind;
use std::marker::Model;

/// Number of digits that are decoded at a time.
const BLOCK: usize = 320;

/// Greatest number of octets that are decoded at once from a piece of hexadecimal digits.
const PAIRS: usize = 64;

/// Decodes digits that arrive in pieces, and appends their octets to a target.
///
/// A piece may end anywhere, also within a group.
#[derive(Drop)]
pub struct DigitsReader {
    kind: DigitsKind,
    held: [u8; 4],
    count: usize,
    ended: bool,
}

impl Model for DigitsReader {
    ghost use Rattle.std.specs.Prelude.{◌≡◌, ◌<◌, true, take};
    ghost use Rattle.rdata_tokens.specs.Spelled.{base_of};
    ghost use Rattle.rdata_tokens.specs.Reading.{DigitsState};

    ghost Value = { DigitsState };

    ghost view = { λ r. record { kind = r.kind; begun = take r.count r.held; ended = r.ended } };

    ghost invariant = { λ r. (r.count < (base_of r.kind).group) × (r.ended ≡ true → r.count ≡ 0) };
}

/// Appends the octets of whole groups at the start of digits, a block at a time. Returns the number
/// of digits decoded, which does not include the last digit.
fn append_blocks<B: OctetsBuilder>(
    kind: DigitsKind,
    digits: &[u8],
    target: &mut B,
) -> Result<usize, ShortBuf>
    requires { 0 < length digits.now }
    ensures ok { IfOk result (AppendsBlocks kind digits.now
        (B.octets target.old) (B.octets target.new)) }
    ensures err { OnErr result (LacksBlocks kind digits.now B.room (B.octets target.old)) }
    ensures extends { OnErr result (Extends (B.octets target.old) (B.octets target.new)) }
{
    let size = kind.group();
    let mut octets = [0; BLOCK];
    let mut at = 0;
    while digits.len() - at > size {
        let length = (digits.len() - at - 1).min(BLOCK) / size * size;
        let Some(count) = read_block(kind, &digits[at..at + length], &mut octets) else {
            return Ok(at);
        };
        target.append_slice(&octets[..count])?;
        at += length;
    }
    Ok(at)
}

impl DigitsReader {
    /// Returns a reader that has read no piece.
    pub fn new(kind: DigitsKind) -> DigitsReader
        ensures kind { result.kind ≡ kind }
        ensures read { HasRead result [] [] }
    {
        DigitsReader {
            kind,
            held: [0; 4],
            count: 0,
            ended: false,
        }
    }

    /// Reads one digit. On an error, nothing is changed.
    fn read_digit<B: OctetsBuilder>(&mut self, digit: u8, target: &mut B) -> Result<(), ErrorKind>
        ensures ok { OnOk result (AppendsPiece self.old (digit ∷ []) self.new
            (B.octets target.old) (B.octets target.new)) }
        ensures err { IfErr result
            (RefusesPiece B.room self.old (digit ∷ []) (B.octets target.old)) }
        ensures kept { OnErr result (B.octets target.new ≡ B.octets target.old) }
    {
        if self.ended {
            return Err(ErrorKind::TrailingBase64);
        }
        let kind = self.kind;
        let mut group = self.held;
        let count = self.count + 1;
        group[self.count] = digit;
        if count < kind.group() {
            if !starts_group(kind, &group[..count]) {
                return Err(kind.illegal());
            }
            self.held = group;
            self.count = count;
            return Ok(());
        }
        let mut octets = [0; 3];
        let Some(length) = read_group(kind, &group[..count], &mut octets) else {
            return Err(kind.illegal());
        };
        if target.append_slice(&octets[..length]).is_err() {
            return Err(ErrorKind::ShortBuf);
        }
        self.count = 0;
        self.ended = kind.opens_group(length);
        Ok(())
    }

    /// Reads digits one by one.
    fn read_digits<B: OctetsBuilder>(
        &mut self,
        digits: &[u8],
        target: &mut B,
    ) -> Result<(), ErrorKind>
        ensures ok { OnOk result (AppendsPiece self.old digits.now self.new
            (B.octets target.old) (B.octets target.new)) }
        ensures err { IfErr result (RefusesPiece B.room self.old digits.now (B.octets target.old)) }
        ensures extends { OnErr result (Extends (B.octets target.old) (B.octets target.new)) }
    {
        for digit in digits {
            self.read_digit(*digit, target)?;
        }
        Ok(())
    }

    /// Returns the number of digits that the group which is begun still needs.
    fn wanted(&self) -> usize {
        if self.count == 0 {
            0
        } else {
            self.kind.group() - self.count
        }
    }

    /// Reads whole groups at the start of digits if no group is begun. Returns the number of digits
    /// read.
    fn read_whole_groups<B: OctetsBuilder>(
        &self,
        digits: &[u8],
        target: &mut B,
    ) -> Result<usize, ErrorKind>
        ensures ok { IfOk result (λ n. (n ≤ length digits.now)
            × AppendsPiece self.now (take n digits.now) self.now
            (B.octets target.old) (B.octets target.new)) }
        ensures err { IfErr result (RefusesPiece B.room self.now digits.now (B.octets target.old)) }
        ensures extends { OnErr result (Extends (B.octets target.old) (B.octets target.new)) }
    {
        if self.ended || self.count > 0 || digits.is_empty() {
            return Ok(0);
        }
        match append_blocks(self.kind, digits, target) {
            Ok(count) => Ok(count),
            Err(ShortBuf) => Err(ErrorKind::ShortBuf),
        }
    }

    /// Decodes a piece that is whole pairs of hexadecimal digits into the start of a slice, if no group
    /// is begun. Returns the number of octets, or `None` for another piece.
    #[inline(always)]
    fn read_pairs(&self, piece: &[u8], octets: &mut [u8]) -> Option<usize>
        requires { length octets.old ≡ PAIRS }
        ensures { IfSome result (λ count. AreWholePairs self.now piece.now (take count octets.new)
            × (count ≤ length octets.new)) }
    {
        if self.ended || self.count > 0 || piece.is_empty() || piece.len() > 2 * PAIRS {
            return None;
        }
        match self.kind {
            DigitsKind::Hex => read_hex(piece, octets),
            DigitsKind::Base64 => None,
        }
    }

    /// Reads a piece: the rest of the group begun, blocks of whole groups, and the first digits of the
    /// next group.
    fn push_parts<B: OctetsBuilder>(
        &mut self,
        piece: &[u8],
        target: &mut B,
    ) -> Result<(), ErrorKind>
        ensures ok { OnOk result (AppendsPiece self.old piece.now self.new
            (B.octets target.old) (B.octets target.new)) }
        ensures err { IfErr result (RefusesPiece B.room self.old piece.now (B.octets target.old)) }
        ensures extends { OnErr result (Extends (B.octets target.old) (B.octets target.new)) }
    {
        let (front, rest) = piece.split_at(self.wanted().min(piece.len()));
        self.read_digits(front, target)?;
        let count = self.read_whole_groups(rest, target)?;
        let last = &rest[count..];
        self.read_digits(last, target)
    }

    /// Reads a piece, and appends the octets of each group that is whole then.
    ///
    /// Fails with [`ErrorKind::ExpectedHex`] or [`ErrorKind::IllegalBase64`] at the first digit
    /// that is not allowed, with [`ErrorKind::TrailingBase64`] if a digit follows a padded group,
    /// and with [`ErrorKind::ShortBuf`] if the target fails.
    ///
    /// On an error, the target has its old octets, perhaps with more after them, and the reader
    /// should not be used again.
    pub fn push<B: OctetsBuilder>(&mut self, piece: &[u8], target: &mut B) -> Result<(), ErrorKind>
        ensures ok { OnOk result (AppendsPiece self.old piece.now self.new
            (B.octets target.old) (B.octets target.new)) }
        ensures err { IfErr result (RefusesPiece B.room self.old piece.now (B.octets target.old)) }
        ensures extends { OnErr result (Extends (B.octets target.old) (B.octets target.new)) }
    {
        let mut octets = [0; PAIRS];
        let Some(count) = self.read_pairs(piece, &mut octets) else {
            return self.push_parts(piece, target);
        };
        if target.append_slice(&octets[..count]).is_err() {
            return Err(ErrorKind::ShortBuf);
        }
        Ok(())
    }

    /// Ends the text. Fails with [`ErrorKind::UnevenHex`] or [`ErrorKind::IncompleteBase64`] if the
    /// text ends within a group.
    pub fn finish(&self) -> Result<(), ErrorKind>
        ensures begun { EndsPieces self.now result }
        ensures whole { (text octets : List ℕ) → HasRead self.now text octets
            → MatchResult result (λ _. SpellsDigits (base_of self.now.kind) text octets) (λ _. (v : List ℕ) → SpellsDigits (base_of self.now.kind) text v → ⊥) }
    {
        if self.count == 0 {
            Ok(())
        } else {
            Err(self.kind.unfinished())
        }
    }
}
