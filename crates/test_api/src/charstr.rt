//! Character strings: their builders, views, clones and iterators.
use crate::checks::{equal, is_made, octets_are};
use arrayvec::ArrayVec;
use dns_charstr::charstr::{CharStr, CharStrBuilder};
use dns_octets::{OctetsBuilder, ShortBuf};
use std::alloc::Global;
use std::process::Abort;

#[test]
fn builds_on_from_octets_and_clones(rt: HostRuntime) {
    let mut builder = CharStrBuilder::<ArrayVec<u8, 300>>::new(());
    equal(&rt, &builder.append_slice(b"foo"), &Ok(()));
    let copy = builder.clone().expect(&rt, "memory");
    equal(&rt, &builder.append_slice(b"bar"), &Ok(()));
    octets_are(&rt, copy.finish().as_slice(), b"foo");
    octets_are(&rt, builder.finish().as_slice(), b"foobar");
    let zeros = vec![in rt.alloc(); 0u8; 254].expect(&rt, "memory");
    let mut builder = CharStrBuilder::from_builder(zeros).expect(&rt, "254");
    equal(&rt, &builder.append_slice(&[0]), &Ok(()));
    equal(&rt, &builder.append_slice(&[0]), &Err(ShortBuf));
    equal(&rt, &builder.len(), &255);
}

// Returns the character string of a text.
fn string_of(rt: &impl Abort, alloc: Global, text: &str) -> CharStr<Vec<u8>> {
    CharStr::from_str(alloc, text).expect(rt, "a character string")
}

// Writes the first octet, if there is one.
fn write_first(octets: &mut [u8], octet: u8) {
    if let Some(first) = octets.first_mut() {
        *first = octet;
    }
}

#[test]
fn shows_its_octets(rt: HostRuntime) {
    let mut string = string_of(&rt, rt.alloc(), "\\010\\255");
    octets_are(&rt, string.for_slice().as_slice(), &[0x0A, 0xFF]);
    write_first(string.for_slice_mut().as_slice_mut(), 0x62);
    octets_are(&rt, string.as_slice(), &[0x62, 0xFF]);
    write_first(string.as_slice_mut(), 0x63);
    octets_are(&rt, string.as_slice(), &[0x63, 0xFF]);
    is_made(&rt, string.clone(), Ok(&[0x63, 0xFF]));
}

#[test]
fn yields_its_octets_in_order(rt: HostRuntime) {
    let string = string_of(&rt, rt.alloc(), "abc");
    let mut octets = string.iter();
    equal(&rt, &octets.next(), &Some(b'a'));
    drop(octets);
    let mut seen = ArrayVec::<u8, 3>::new();
    for octet in &string {
        equal(&rt, &seen.append_slice(&[octet]), &Ok(()));
    }
    octets_are(&rt, seen.as_slice(), b"abc");
    let mut octets = string.for_slice().into_iter();
    equal(&rt, &octets.next(), &Some(b'a'));
    drop(octets);
    let mut octets = string.into_iter();
    for octet in [Some(b'a'), Some(b'b'), Some(b'c'), None] {
        equal(&rt, &octets.next(), &octet);
    }
}
