//! Order keys of names: octets whose plain order is the canonical order of names (RFC 4034 section
//! 6.1).
ghost use Rattle.std.specs.Prelude.{ℕ, ◌≡◌, List, ◌++◌, OnOk, OnErr};
ghost use Rattle.dns_octets.specs.Appending.{Extends};
ghost use Rattle.dns_octets.specs.Lowered.{lowered};
ghost use Rattle.rdata_tokens.specs.NameSpelling.{IsWireName};
ghost use Rattle.dns_wire.specs.Wire.{wire};
ghost use Rattle.zone_record.specs.Keys.{key_octets, label_key, order_key, AppendsKey, IsKeyOrder};
ghost use Rattle.zone_record.specs.Names.{octet_order};
ghost use Rattle.zone_record.specs.Walks.{HasLabels};

use crate::names::split_label;
use std::alloc::{AllocError, Allocator};
use std::cmp::Ordering;

/// Appends an octet of a label as it is in a key: 0 and 1 as the pairs `1 1` and `1 2`, and any
/// other octet as itself. Fails if there is no memory; the first of a pair may then have been
/// appended.
fn push_key_octet<A: Allocator>(octet: u8, key: &mut Vec<u8, A>) -> Result<(), AllocError>
    ensures ok { OnOk result (key.new.items ≡ key.old.items ++ key_octets octet) }
    ensures err { OnErr result (Extends key.old.items key.new.items) }
{
    if octet < 2 {
        key.push(1)?;
        key.push(octet + 1)?;
    } else {
        key.push(octet)?;
    }
    Ok(())
}

/// Appends a label as it is in a key: its octets in lower case, then a 0. Fails if there is no
/// memory; the first octets may then have been appended.
fn push_key_label<A: Allocator>(label: &[u8], key: &mut Vec<u8, A>) -> Result<(), AllocError>
    ensures ok { OnOk result (key.new.items ≡ key.old.items ++ label_key (lowered label.now)) }
    ensures err { OnErr result (Extends key.old.items key.new.items) }
{
    for octet in label {
        push_key_octet(octet.to_ascii_lowercase(), key)?;
    }
    key.push(0)?;
    Ok(())
}

/// Appends the key of labels in wire format, from the last label to the first. Fails if there is no
/// memory; the first octets may then have been appended.
fn push_key_labels<A: Allocator>(octets: &[u8], key: &mut Vec<u8, A>) -> Result<(), AllocError>
    requires { HasLabels 0 octets.now }
    ensures ok { OnOk result (AppendsKey octets.now key.old.items key.new.items) }
    ensures err { OnErr result (Extends key.old.items key.new.items) }
{
    if octets.is_empty() {
        return Ok(());
    }
    let first = split_label(octets);
    push_key_labels(first.rest, key)?;
    push_key_label(first.label, key)
}

/// Appends the order key of a name in wire format: its labels from the root to the first, in lower
/// case, each followed by a 0. The octets 0 and 1 of a label become the pairs `1 1` and `1 2`, so a
/// single 0 always ends a label.
///
/// Keys compare octet by octet as their names do in canonical order (RFC 4034 section 6.1). Names
/// that differ only in case have one key. A key begins with the key of each name above its name. A
/// key has at most 509 octets.
///
/// Fails if there is no memory; the first octets of the key may then have been appended.
pub fn push_order_key<A: Allocator>(octets: &[u8], key: &mut Vec<u8, A>) -> Result<(), AllocError>
    requires { IsWireName octets.now }
    ensures ok { OnOk result (AppendsKey octets.now key.old.items key.new.items) }
    ensures err { OnErr result (Extends key.old.items key.new.items) }
{
    push_key_labels(octets, key)
}

/// Compares two order keys octet by octet, which is the canonical order of their names (RFC 4034
/// section 6.1). Both may lack the same first octets, for example the key of a zone's apex.
pub fn compare_keys(left: &[u8], right: &[u8]) -> Ordering
    ensures octets { result ≡ octet_order left.now right.now }
    ensures names { IsKeyOrder left.now right.now result }
{
    left.cmp(right)
}
