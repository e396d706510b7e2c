//! The canonical form and order of names, data and records.
ghost use Rattle.std.specs.Prelude.{IfSome};
ghost use Rattle.rdata_tokens.specs.NameSpelling.{IsWireName};

use super::fields::fields_of;
use super::results::{Octets, add_result, number16};
use dns_octets::ShortBuf;
use rdata_fields::RecordRef;
use rdata_tokens::name_width;
use rdata_values::{Class, RecordType};
use std::cmp::Ordering;
use test_support::{Answer, Failure, Inputs};
use zone_record::{
    append_canonical_fields, append_lowered, compare_keys, compare_names, compare_octets,
    compare_records, lowers_names, push_order_key,
};

/// Answers a row: calls what it names.
pub fn call(name: &str, inputs: &Inputs, answer: &mut Answer) {
    match name {
        "names" => names(inputs.two(answer), answer),
        "key" => key(inputs.octets(answer), answer),
        "keys" => keys(inputs.two(answer), answer),
        "within" => within(inputs.two(answer), answer),
        "lower" => lower(inputs.octets(answer), answer),
        "octets" => octets(inputs.two(answer), answer),
        "data" => data(inputs.two(answer), answer),
        "lowers" => lowers(inputs.octets(answer), answer),
        "records" => records(inputs.all(), answer),
        _ => answer.fail(Failure::NoCall),
    }
}

/// Adds an order.
pub fn add_order(order: Ordering, answer: &mut Answer) {
    answer.add_text(match order {
        Ordering::Less => "less",
        Ordering::Equal => "equal",
        Ordering::Greater => "greater",
    });
}

/// Returns the name in octets.
fn name_of(octets: &[u8]) -> Option<&[u8]>
    ensures { IfSome result (λ name. IsWireName name.now) }
{
    let width = name_width(octets)?;
    if width < octets.len() {
        return None;
    }
    Some(&octets[..width])
}

/// Adds the order of two names.
fn names((left, right): (&[u8], &[u8]), answer: &mut Answer) {
    let Some(left) = name_of(left) else {
        return answer.fail(Failure::BadInputs);
    };
    let Some(right) = name_of(right) else {
        return answer.fail(Failure::BadInputs);
    };
    add_order(compare_names(left, right), answer);
}

/// Returns the order key of a name. If it has none, the reason is added to the answer.
fn key_of<'a>(octets: &[u8], answer: &mut Answer<'a>) -> Option<Octets<'a>> {
    let Some(name) = name_of(octets) else {
        answer.fail(Failure::BadInputs);
        return None;
    };
    let mut key: Octets<'a> = Vec::new(answer.heap());
    if push_order_key(name, &mut key).is_err() {
        answer.refuse(&ShortBuf);
        return None;
    }
    Some(key)
}

/// Adds the order key of a name.
fn key(octets: &[u8], answer: &mut Answer) {
    if let Some(key) = key_of(octets, answer) {
        answer.add(key.as_slice());
    }
}

/// Adds the order of two names by their keys, which is the same without the root's octet.
fn keys((left, right): (&[u8], &[u8]), answer: &mut Answer) {
    let Some(left) = key_of(left, answer) else {
        return;
    };
    let Some(right) = key_of(right, answer) else {
        return;
    };
    let order = compare_keys(left.as_slice(), right.as_slice());
    let below_root = compare_keys(
        left.as_slice().get(1..).unwrap_or(&[]),
        right.as_slice().get(1..).unwrap_or(&[]),
    );
    answer.hold(order == below_root);
    add_order(order, answer);
}

/// Adds whether a name is another or below it: whether its key begins with the other's.
fn within((name, top): (&[u8], &[u8]), answer: &mut Answer) {
    let Some(name) = key_of(name, answer) else {
        return;
    };
    let Some(top) = key_of(top, answer) else {
        return;
    };
    answer.add_bool(name.as_slice().starts_with(top.as_slice()));
}

/// Adds octets in lower case.
fn lower(octets: &[u8], answer: &mut Answer) {
    let mut target: Octets = Vec::new(answer.heap());
    let made = append_lowered(octets, &mut target);
    add_result(made, target.as_slice(), answer);
}

/// Adds the order of data of one type.
fn octets((left, right): (&[u8], &[u8]), answer: &mut Answer) {
    add_order(compare_octets(left, right), answer);
}

/// Adds the canonical form of data that begins with fields, whose kinds are separated by commas.
fn data((kinds, octets): (&[u8], &[u8]), answer: &mut Answer) {
    let fields = fields_of(kinds, answer);
    let mut target: Octets = Vec::new(answer.heap());
    let made = append_canonical_fields(fields.as_slice(), octets, &mut target);
    add_result(made, target.as_slice(), answer);
}

/// Adds whether the names in data of a type are lowered.
fn lowers(digits: &[u8], answer: &mut Answer) {
    let rtype = RecordType(number16(digits, answer));
    answer.add_text(if lowers_names(rtype) { "yes" } else { "no" });
}

/// Adds the order of two records, each an owner, a class, a type and data.
fn records(inputs: &[Vec<u8>], answer: &mut Answer) {
    let [a, b, c, d, e, f, g, h] = inputs else {
        return answer.fail(Failure::BadInputs);
    };
    let Some(left_owner) = name_of(a.as_slice()) else {
        return answer.fail(Failure::BadInputs);
    };
    let Some(right_owner) = name_of(e.as_slice()) else {
        return answer.fail(Failure::BadInputs);
    };
    let left = RecordRef {
        owner: left_owner,
        ttl: 1,
        class: Class(number16(b.as_slice(), answer)),
        rtype: RecordType(number16(c.as_slice(), answer)),
        data: d.as_slice(),
    };
    let right = RecordRef {
        owner: right_owner,
        ttl: 0,
        class: Class(number16(f.as_slice(), answer)),
        rtype: RecordType(number16(g.as_slice(), answer)),
        data: h.as_slice(),
    };
    add_order(compare_records(&left, &right), answer);
}
