//! Relative names that are made absolute.
use dns_name::name::UncertainName;
use dns_octets::{AsOctets, OctetsFrom, ShortBuf};
use dns_wire::{Name, PushError, RelativeName};
use test_support::{Answer, Failure, Heap};

/// Octets whose allocator may fail one allocation.
type Octets<'a> = Vec<u8, &'a Heap>;

/// Returns a copy of a relative name, with capacity for its octets alone.
fn copy<'a>(octets: &[u8], answer: &mut Answer<'a>) -> Option<RelativeName<Octets<'a>>> {
    let copy: Result<Octets<'a>, ShortBuf> = OctetsFrom::try_octets_from(answer.heap(), octets);
    let Ok(copy) = copy else {
        answer.fail_for_memory();
        return None;
    };
    let made = RelativeName::from_octets(copy).ok();
    if made.is_none() {
        answer.fail(Failure::BadInputs);
    }
    made
}

/// Adds the octets of a name, or the error.
fn add_result(made: Result<Name<Octets>, PushError>, answer: &mut Answer) {
    match made {
        Ok(name) => answer.add(AsOctets::as_slice(&name)),
        Err(error) => answer.refuse(&error),
    }
}

/// Adds the absolute name of a relative one, and of one that is uncertain.
pub fn into_absolute(octets: &[u8], answer: &mut Answer) {
    if let Some(name) = copy(octets, answer) {
        add_result(name.into_absolute(), answer);
    }
    let mut other = answer.another();
    if let Some(name) = copy(octets, &mut other) {
        add_result(UncertainName::relative(name).into_absolute(), &mut other);
    }
    answer.check_same(&other);
}
