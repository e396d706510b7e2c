//! Names and chains: in arrays, cloned, and used again after an iterator over their labels is
//! dropped early.
use crate::checks::{equal, holds, is_made, octets_are};
use arrayvec::ArrayVec;
use dns_name::chain::Chain;
use dns_name::name::{FromStrError, UncertainName};
use dns_octets::{AsOctets, ShortBuf};
use dns_wire::{Label, Name, RelativeName, ToLabelIter};
use std::alloc::Global;
use std::process::Abort;

mod scanning;

type Vector = UncertainName<Vec<u8>>;

fn relative(octets: &[u8]) -> RelativeName<&[u8]> {
    RelativeName::from_octets(octets).unwrap_or(RelativeName::empty_ref())
}

fn absolute(octets: &[u8]) -> Name<&[u8]> {
    Name::from_octets(octets).unwrap_or(Name::root_ref())
}

// Returns the name of a text.
fn name_of(rt: &impl Abort, alloc: Global, text: &str) -> Vector {
    Vector::from_str(alloc, text).expect(rt, "a name")
}

// Asserts that a label was returned.
fn label_is(rt: &impl Abort, label: Option<Label<'_>>, octets: &[u8]) {
    let is_so = label.is_some_and(|label| label.as_slice() == octets);
    assert!(rt; is_so);
}

const DOMAIN: &[u8] = b"\x07example\x03com\x00";

#[test]
fn names_outlive_their_iterators(rt: HostRuntime) {
    let name = absolute(DOMAIN);
    let mut labels = name.iter_labels();
    label_is(&rt, labels.next(), b"example");
    drop(labels);
    octets_are(&rt, name.as_slice(), DOMAIN);
    let name = UncertainName::relative(relative(b"\x03www"));
    let mut labels = name.iter_labels();
    label_is(&rt, labels.next(), b"www");
    drop(labels);
    let mut labels = (&name).into_iter();
    label_is(&rt, labels.next_back(), b"www");
    equal(&rt, &labels.next().is_none(), &true);
    equal(&rt, &name.is_relative(), &true);
}

#[test]
fn chains_outlive_their_iterators(rt: HostRuntime) {
    let name = absolute(DOMAIN);
    let chain = Chain::new(relative(b"\x03www"), &name).expect(&rt, "a chain");
    let mut labels = chain.iter_labels();
    label_is(&rt, labels.next(), b"www");
    drop(labels);
    equal(&rt, &chain.compose_len(), &17);
    let (left, right) = chain.unwrap();
    octets_are(&rt, left.as_slice(), b"\x03www");
    octets_are(&rt, right.as_slice(), DOMAIN);
    let left = name_of(&rt, rt.alloc(), "www");
    let chain = left.chain(&name).expect(&rt, "a chain");
    let mut labels = chain.iter_labels();
    label_is(&rt, labels.next(), b"www");
    drop(labels);
    let copy = chain.clone().expect(&rt, "memory");
    equal(&rt, &copy.compose_len(), &17);
}

#[test]
fn keeps_to_the_buffer(rt: HostRuntime) {
    type Four = UncertainName<ArrayVec<u8, 4>>;
    type None = UncertainName<ArrayVec<u8, 0>>;
    let short = Some(FromStrError::ShortBuf);
    holds(&rt, Four::from_str((), "com").is_ok());
    equal(&rt, &Four::from_str((), "com.").err(), &short);
    equal(&rt, &None::from_str((), "a..").err(), &short);
    equal(&rt, &None::from_str((), ".").err(), &short);
    equal(&rt, &None::root(()).err(), &Some(ShortBuf));
    holds(&rt, None::empty(()).is_relative());
    holds(&rt, UncertainName::<ArrayVec<u8, 1>>::root(()).is_ok());
}

#[test]
fn clones_names(rt: HostRuntime) {
    let alloc = rt.alloc();
    let name = name_of(&rt, alloc, "www.example");
    equal(&rt, &name.clone().expect(&rt, "memory"), &name);
    let root = Name::<Vec<u8>>::root(alloc).expect(&rt, "memory");
    equal(&rt, &root.clone().expect(&rt, "memory"), &root);
    let uncertain = Vector::root_vec(alloc).expect(&rt, "memory");
    equal(&rt, &UncertainName::absolute(root), &uncertain);
    let empty = RelativeName::<Vec<u8>>::empty(alloc);
    equal(&rt, &empty.clone().expect(&rt, "memory"), &empty);
    is_made(&rt, empty.into_absolute(), Ok(b"\x00"));
}
