//! The zone that the name of a file has, by a form such as `*.zone`.
ghost use Rattle.std.specs.Prelude.{◌≡◌, ◌≤◌, length};
ghost use Rattle.std.specs.List.{list_all};
ghost use Rattle.server_config.specs.ZoneNames.{base_start, is_digit_or_dot, is_doubtful_zone, is_name_form, is_side_file, is_zone_mark, zone_ending_len, zone_in_name, zone_in_path, zone_mark};

use dns_octets::lowered::same_octets;

/// The octets of a text between two offsets.
#[derive(Clone, Copy, Debug, PartialEq, Eq)]
pub struct TextSpan {
    /// Offset of the first of them.
    pub at: usize,
    /// Offset after the last of them.
    pub end: usize,
}

/// Returns whether an octet of a form is the zone: a percent sign or a star.
fn is_zone_mark(octet: u8) -> bool
    ensures { result ≡ is_zone_mark octet }
{
    octet == b'%' || octet == b'*'
}

/// Returns the index of the first percent sign or star of a form, or the length if it has none.
fn zone_mark(form: &[u8]) -> usize
    ensures value { result ≡ zone_mark form.now }
    ensures within { result ≤ length form.now }
{
    let mut index = 0;
    for octet in form {
        if is_zone_mark(*octet) {
            return index;
        }
        index += 1;
    }
    index
}

/// Returns whether a text is a form of names: it has one percent sign or star.
pub fn is_name_form(form: &[u8]) -> bool
    ensures { result ≡ is_name_form form.now }
{
    let at = zone_mark(form);
    if form.len() <= at {
        return false;
    }
    let after = &form[at + 1..];
    zone_mark(after) == after.len()
}

/// Returns the octets of a name that are its zone: those for the first percent sign or star of a
/// form. Returns `None` if the name does not begin and end as the form, or has no octets between.
pub fn zone_in_name(form: &[u8], name: &[u8]) -> Option<TextSpan>
    ensures { result ≡ zone_in_name form.now name.now }
{
    let at = zone_mark(form);
    if form.len() <= at || name.len() < form.len() {
        return None;
    }
    let after = &form[at + 1..];
    if name.starts_with(&form[..at]) && name.ends_with(after) {
        Some(TextSpan {
            at,
            end: name.len() - after.len(),
        })
    } else {
        None
    }
}

/// Returns the index after the last slash, or 0 if there is none.
fn base_start(path: &[u8]) -> usize
    ensures value { result ≡ base_start 0 0 path.now }
    ensures within { result ≤ length path.now }
{
    let mut start = 0;
    let mut index = 0;
    for octet in path {
        index += 1;
        if *octet == b'/' {
            start = index;
        }
    }
    start
}

/// Returns the length of `.zone` or `.db` at the end of a name, or 0 if it has neither.
fn zone_ending_len(name: &[u8]) -> usize
    ensures { result ≡ zone_ending_len name.now }
{
    if name.ends_with(b".zone") {
        5
    } else if name.ends_with(b".db") {
        3
    } else {
        0
    }
}

/// Returns the octets of a path that are a zone: those after the last slash, without `.zone` or `.db`
/// at their end.
pub fn zone_in_path(path: &[u8]) -> TextSpan
    ensures { result ≡ zone_in_path path.now }
{
    let at = base_start(path);
    TextSpan {
        at,
        end: path.len().saturating_sub(zone_ending_len(&path[at..])),
    }
}

/// Returns whether the name of a file is that of a hidden file, a backup, a journal or a signed
/// zone, which lie beside zone files.
pub fn is_side_file(name: &[u8]) -> bool
    ensures { result ≡ is_side_file name.now }
{
    name.starts_with(b".")
        || name.ends_with(b"~")
        || name.ends_with(b".jnl")
        || name.ends_with(b".jbk")
        || name.ends_with(b".signed")
}

/// Returns whether an octet is a digit or a dot.
fn is_digit_or_dot(octet: u8) -> bool
    ensures { result ≡ is_digit_or_dot octet }
{
    octet.is_ascii_digit() || octet == b'.'
}

/// Returns whether octets are digits and dots alone.
fn are_digits_and_dots(zone: &[u8]) -> bool
    ensures { result ≡ list_all is_digit_or_dot zone.now }
{
    for octet in zone {
        if !is_digit_or_dot(*octet) {
            return false;
        }
    }
    true
}

/// Returns whether the zone of a file's name is more often an abbreviation: of digits and dots
/// alone, as in `db.127`, or `root`, `local` or `empty`, in any case of letters.
pub fn is_doubtful_zone(zone: &[u8]) -> bool
    ensures { result ≡ is_doubtful_zone zone.now }
{
    are_digits_and_dots(zone)
        || same_octets(zone, b"root")
        || same_octets(zone, b"local")
        || same_octets(zone, b"empty")
}
