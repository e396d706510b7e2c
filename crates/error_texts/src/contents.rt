//! The texts of errors that name a number of octets, or an escape.
ghost use Rattle.std.specs.Prelude.{◌≡◌, ◌++◌, codes, decimal, option_copied, take};
ghost use Rattle.error_texts.specs.Buffer.{AppendsCut};
ghost use Rattle.error_texts.specs.Contents.{digest_text, high_escape_text, in_parentheses, length_text, long_string_text};
ghost use Rattle.error_texts.specs.Digests.{digest_name};

use crate::buffer::{MOST, append_counted, append_text};
use crate::digests::digest_name;
use arrayvec::ArrayVec;
use rdata_values::RecordType;

/// Appends the text of a character string that is too long.
fn append_long_string(count: usize, target: &mut ArrayVec<u8, MOST>)
    ensures { AppendsCut (long_string_text count) target.old.items target.new.items }
{
    append_counted(b"character string of ", count, target);
    append_text(b" octets (at most 255)", target);
}

/// Returns the text of a character string of more than 255 octets.
pub fn long_string_text(count: usize) -> ArrayVec<u8, MOST>
    ensures { result.items ≡ take 255 (long_string_text count) }
{
    let mut text = ArrayVec::new();
    append_long_string(count, &mut text);
    text
}

/// Appends an escape that is above 255.
fn append_high_escape(escape: &[u8], target: &mut ArrayVec<u8, MOST>)
    ensures { AppendsCut (high_escape_text escape.now) target.old.items target.new.items }
{
    append_text(b"escape ", target);
    append_text(escape, target);
    append_text(b" is above \\255", target);
}

/// Returns the text of an escape of three digits that is above 255, with its backslash.
pub fn high_escape_text(escape: &[u8]) -> ArrayVec<u8, MOST>
    ensures { result.items ≡ take 255 (high_escape_text escape.now) }
{
    let mut text = ArrayVec::new();
    append_high_escape(escape, &mut text);
    text
}

/// Appends a name between parentheses, after a blank.
fn append_enclosed(name: &str, target: &mut ArrayVec<u8, MOST>)
    ensures { AppendsCut (codes " (" ++ (name.now ++ codes ")")) target.old.items
        target.new.items }
{
    append_text(b" (", target);
    append_text(name.as_bytes(), target);
    append_text(b")", target);
}

/// Appends a name between parentheses, after a blank, if there is one.
fn append_in_parentheses(name: Option<&'static str>, target: &mut ArrayVec<u8, MOST>)
    ensures { AppendsCut (in_parentheses (option_copied name.entry)) target.old.items
        target.new.items }
{
    match name {
        Some(name) => append_enclosed(name, target),
        None => append_text(b"", target),
    }
}

/// Appends the name of a digest type between parentheses, if it is known.
fn append_digest_name(rtype: RecordType, digest: u8, target: &mut ArrayVec<u8, MOST>)
    ensures { AppendsCut (in_parentheses (digest_name rtype digest)) target.old.items
        target.new.items }
{
    append_in_parentheses(digest_name(rtype, digest), target);
}

/// Appends the number of octets that a digest type has.
fn append_length(rtype: RecordType, digest: u8, wanted: usize, target: &mut ArrayVec<u8, MOST>)
    ensures { AppendsCut (length_text rtype digest wanted) target.old.items target.new.items }
{
    append_counted(b" octets; type ", digest as usize, target);
    append_digest_name(rtype, digest, target);
    append_counted(b" has ", wanted, target);
}

/// Appends the text of a digest that doesn't have the length of its type.
fn append_digest(
    rtype: RecordType,
    digest: u8,
    found: usize,
    wanted: usize,
    target: &mut ArrayVec<u8, MOST>,
)
    ensures { AppendsCut (digest_text rtype digest found wanted) target.old.items
        target.new.items }
{
    append_counted(b"digest of ", found, target);
    append_length(rtype, digest, wanted, target);
}

/// Returns the text of a digest of `found` octets in RDATA of a type, whose digest type has
/// `wanted`.
pub fn digest_text(rtype: RecordType, digest: u8, found: usize, wanted: usize) -> ArrayVec<u8, MOST>
    ensures { result.items ≡ take 255 (digest_text rtype digest found wanted) }
{
    let mut text = ArrayVec::new();
    append_digest(rtype, digest, found, wanted, &mut text);
    text
}
