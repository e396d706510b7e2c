//! Parses names in presentation format (RFC 1035 section 5.1).
ghost use Rattle.std.specs.Prelude.{ℕ, ◌≡◌, ◌≢◌, ◌⊎◌, ◌+◌, ◌<◌, ◌≤◌, List, [], ◌∷◌, length, take, drop, slice_index, MatchBool, MatchResult, IfOk, IfErr, IfSome, IsTrue, OnOk, OnErr};
ghost use Rattle.std.specs.Option.{option_copied};
ghost use Rattle.dns_octets.specs.Appending.{ExceedsRoom, Extends, Gains};
ghost use Rattle.std.specs.List.{flat_map};
ghost use Rattle.dns_symbol.specs.Characters.{backslash, dot};
ghost use Rattle.dns_symbol.specs.Symbol.{spell};
ghost use Rattle.dns_symbol.specs.declared.symbol.Symbol.{Symbol};
ghost use Rattle.rdata_tokens.specs.NameSpelling.{SpellsName, OpensLabel, EndsLabel, RefusesFirstLabel, HasBadLabel, BeginsWithLabels, RefusesName, GainsLabels};
ghost use Rattle.rdata_values.specs.declared.error.ErrorKind.TheVariants.{ShortBuf};

use crate::spelled::{append_counted, first_spelled};
use dns_lexer::runs::{OctetClass, run_end};
use dns_octets::{AsOctets, OctetsBuilder};
use dns_wire::{MAX_LABEL, MAX_NAME, MAX_RELATIVE, Name};
use rdata_values::ErrorKind;

/// The label that a text begins with: its own text, its length in octets, and the text after it.
#[derive(Clone, Copy)]
struct SplitLabel<'a> {
    text: &'a [u8],
    count: usize,
    rest: &'a [u8],
}

/// Returns the number of octets before the first dot or backslash, or up to the end of a text.
#[inline(always)]
fn plain_label_count(text: &[u8]) -> usize
    ensures within { result ≤ length text.now }
    ensures plain { (k : ℕ) → k < result → (slice_index text.now k ≢ dot) × (slice_index text.now k ≢ backslash) }
{
    run_end(OctetClass::Label, text, 0)
}

/// Returns whether a label ends before a text: at its end, or at a dot.
fn ends_label(text: &[u8]) -> bool
    ensures { IsTrue result → EndsLabel text.now }
{
    if text.is_empty() {
        return true;
    }
    text[0] == b'.'
}

/// Returns the label that a text begins with, if it has no escapes and fits in `room` octets.
fn plain_label(text: &[u8], room: usize) -> Option<SplitLabel<'_>>
    ensures { IfSome result (λ l. (part : List Symbol) × OpensLabel text.now room part l.rest.now × EndsLabel l.rest.now
        × (l.text.now ≡ flat_map spell part) × (l.count ≡ length part) × (0 < l.count)) }
{
    let count = plain_label_count(text);
    if count == 0 || count > MAX_LABEL || count >= room {
        return None;
    }
    let rest = &text[count..];
    if !ends_label(rest) {
        return None;
    }
    Some(SplitLabel {
        text: &text[..count],
        count,
        rest,
    })
}

/// Returns the label that a text begins with, in a name in which `room` more octets fit.
fn split_label(text: &[u8], room: usize) -> Result<SplitLabel<'_>, ErrorKind>
    ensures { MatchResult result
        (λ l. (part : List Symbol) × OpensLabel text.now room part l.rest.now × EndsLabel l.rest.now
        × (l.text.now ≡ flat_map spell part) × (l.count ≡ length part) × (0 < l.count))
        (RefusesFirstLabel room text.now) }
{
    match plain_label(text, room) {
        Some(label) => Ok(label),
        None => spelled_label(text, room),
    }
}

/// Returns the label that a text begins with, decoded octet by octet.
fn spelled_label(text: &[u8], room: usize) -> Result<SplitLabel<'_>, ErrorKind>
    ensures { MatchResult result
        (λ l. (part : List Symbol) × OpensLabel text.now room part l.rest.now × EndsLabel l.rest.now
        × (l.text.now ≡ flat_map spell part) × (l.count ≡ length part) × (0 < l.count))
        (RefusesFirstLabel room text.now) }
{
    let mut rest = text;
    let mut count = 0;
    while !rest.is_empty() && rest[0] != b'.' {
        let first = first_spelled(rest)?;
        if count == MAX_LABEL {
            return Err(ErrorKind::LongLabel);
        }
        if count + 2 > room {
            return Err(ErrorKind::LongName);
        }
        rest = first.rest;
        count += 1;
    }
    if count == 0 {
        return Err(ErrorKind::EmptyLabel);
    }
    Ok(SplitLabel {
        text: &text[..text.len() - rest.len()],
        count,
        rest,
    })
}

/// The number of octets of a text's labels in wire format, and whether a dot follows the last
/// label.
#[derive(Clone, Copy)]
struct Labels {
    count: usize,
    is_absolute: bool,
}

/// Greatest length of a text whose labels are written together.
const MOST_PUT: usize = 127;

/// Number of octets into which labels are written, with space after the longest text.
const PUT: usize = 144;

/// Returns the number of octets after the one at `start` and before the first dot or backslash, at
/// most `most`.
#[inline(always)]
fn put_label_count(wire: &[u8; PUT], start: usize, most: usize) -> usize
    requires { start < PUT }
    ensures within { result ≤ most }
    ensures plain { (k : ℕ) → k < result → (slice_index (drop (start + 1) wire.now) k ≢ dot) × (slice_index (drop (start + 1) wire.now) k ≢ backslash) }
{
    let count = plain_label_count(&wire[start + 1..]);
    if count > most {
        return most;
    }
    count
}

/// Writes the labels of a text without escapes in wire format at the start of `wire`. Returns
/// `None` if the text is long, has an escape, or has a label that is empty or long.
///
/// The wire format is the text after one octet, with the length of each label in place of the octet
/// before the label.
#[inline(always)]
fn put_labels(text: &[u8], wire: &mut [u8; PUT]) -> Option<Labels>
    ensures { IfSome result (λ l. (l.count ≤ PUT) × GainsLabels text.now [] (take l.count wire.new) l.count l.is_absolute) }
{
    let len = text.len();
    if len == 0 || len > MOST_PUT {
        return None;
    }
    wire[1..1 + len].copy_from_slice(text);
    let mut start = 0;
    'labels: loop {
        let rest = &text[start..];
        let count = put_label_count(wire, start, rest.len());
        if count == 0 || count > MAX_LABEL {
            return None;
        }
        wire[start] = count as u8;
        start += 1 + count;
        if count == rest.len() {
            return Some(Labels {
                count: start,
                is_absolute: false,
            });
        }
        if rest[count] != b'.' {
            return None;
        }
        if start == len {
            return Some(Labels {
                count: start,
                is_absolute: true,
            });
        }
    }
}

/// Appends the labels of a text.
fn append_labels<B: OctetsBuilder>(text: &[u8], target: &mut B) -> Result<Labels, ErrorKind>
    ensures ok { IfOk result (λ l. GainsLabels text.now (B.octets target.old) (B.octets target.new) l.count l.is_absolute) }
    ensures err { IfErr result (λ e. ((e ≡ ShortBuf) × ExceedsRoom B.room (BeginsWithLabels text.now) (B.octets target.old)) ⊎ HasBadLabel text.now e) }
    ensures extends { OnErr result (Extends (B.octets target.old) (B.octets target.new)) }
{
    // The octets after the text are dots, which end its last label.
    let mut wire = [b'.'; PUT];
    if let Some(labels) = put_labels(text, &mut wire) {
        target.append_slice(&wire[..labels.count])?;
        return Ok(labels);
    }
    append_each(text, target)
}

/// Appends the labels of a text one by one.
fn append_each<B: OctetsBuilder>(text: &[u8], target: &mut B) -> Result<Labels, ErrorKind>
    ensures ok { IfOk result (λ l. GainsLabels text.now (B.octets target.old) (B.octets target.new) l.count l.is_absolute) }
    ensures err { IfErr result (λ e. ((e ≡ ShortBuf) × ExceedsRoom B.room (BeginsWithLabels text.now) (B.octets target.old)) ⊎ HasBadLabel text.now e) }
    ensures extends { OnErr result (Extends (B.octets target.old) (B.octets target.new)) }
{
    let mut rest = text;
    let mut count = 0;
    'labels: loop {
        let label = split_label(rest, MAX_RELATIVE - count)?;
        append_counted(label.count, label.text, target)?;
        count += 1 + label.count;
        if label.rest.is_empty() {
            return Ok(Labels {
                count,
                is_absolute: false,
            });
        }
        if label.rest.len() == 1 {
            return Ok(Labels {
                count,
                is_absolute: true,
            });
        }
        rest = &label.rest[1..];
    }
}

/// Returns whether a text is exactly this octet.
fn is_lone(text: &[u8], octet: u8) -> bool
    ensures { MatchBool result (text.now ≡ octet ∷ []) (text.now ≢ octet ∷ []) }
{
    text.len() == 1 && text[0] == octet
}

/// Parses a word as a name, and appends the absolute name in wire format.
///
/// If the text does not end with a dot, the origin's labels follow its own. `@` is the origin, and
/// `.` the root.
///
/// Fails with the first error in the text: [`ErrorKind::BadEscape`], [`ErrorKind::EmptyLabel`],
/// [`ErrorKind::LongLabel`] at the 64th octet of a label, [`ErrorKind::LongName`] at the octet
/// after which the root does not fit, or at the end if the origin's labels do not fit, and
/// [`ErrorKind::NoOrigin`] at the end. Fails with [`ErrorKind::ShortBuf`] if the target fails. On
/// an error, some labels may have been appended.
pub fn append_name<Octets: AsOctets, B: OctetsBuilder>(
    text: &[u8],
    origin: Option<&Name<Octets>>,
    target: &mut B,
) -> Result<(), ErrorKind>
    ensures ok { OnOk result (Gains (SpellsName (option_copied origin.entry) text.now) (B.octets target.old) (B.octets target.new)) }
    ensures err { IfErr result (RefusesName B.room (option_copied origin.entry) text.now (B.octets target.old)) }
    ensures extends { OnErr result (Extends (B.octets target.old) (B.octets target.new)) }
{
    if is_lone(text, b'.') {
        target.append_slice(&[0])?;
        return Ok(());
    }
    if is_lone(text, b'@') {
        let Some(origin) = origin else {
            return Err(ErrorKind::NoOrigin);
        };
        target.append_slice(origin.as_slice())?;
        return Ok(());
    }
    let labels = append_labels(text, target)?;
    if labels.is_absolute {
        target.append_slice(&[0])?;
        return Ok(());
    }
    let Some(origin) = origin else {
        return Err(ErrorKind::NoOrigin);
    };
    if labels.count + origin.len() > MAX_NAME {
        return Err(ErrorKind::LongName);
    }
    target.append_slice(origin.as_slice())?;
    Ok(())
}
