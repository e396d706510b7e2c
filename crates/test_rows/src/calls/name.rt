//! Names.
use super::{absolute, build};
use arrayvec::ArrayVec;
use dns_name::chain::{Chain, LongChainError};
use dns_name::name::{FromStrError, UncertainDnameError, UncertainName};
use dns_octets::{AsOctets, OctetsBuilder, ShortBuf};
use dns_wire::{
    DisplayWithDot, DisplayWithoutDot, FlattenInto, Label, LabelTypeError, Name, RelativeName,
    ToLabelIter, ToRelativeName,
};
use std::hash::{DefaultHasher, Hash, Hasher};
use std::str;
use test_support::input::number_of;
use test_support::{Answer, Failure, Heap, Inputs};

/// Octets whose allocator may fail one allocation.
type Octets<'a> = Vec<u8, &'a Heap>;

type Vector<'a> = UncertainName<Octets<'a>>;

/// Answers a row: calls what it names.
pub fn call(name: &str, inputs: &Inputs, answer: &mut Answer) {
    match name {
        "read" => read(inputs.text(answer), answer),
        "of" => of(inputs.octets(answer), answer),
        "are_equal" => are_equal(inputs.two(answer), answer),
        "into_absolute" => absolute::into_absolute(inputs.octets(answer), answer),
        "absolute" => absolute(inputs.octets(answer), answer),
        "relative" => relative(inputs.octets(answer), answer),
        "labels" => labels(inputs.octets(answer), answer),
        "build" => build::name(inputs.all(), answer),
        "chain" => chain(inputs.all(), answer),
        "chain_labels" => chain_labels(inputs.two(answer), answer),
        "flatten" => flatten(inputs.two(answer), answer),
        "flatten_each" => flatten_each(inputs.two(answer), answer),
        "root" => root(answer),
        "compose_into" => compose_into(inputs.all(), answer),
        _ => answer.fail(Failure::NoCall),
    }
}

/// Adds the octets of a name, or the error.
fn add_result(read: &Result<Vector, FromStrError>, answer: &mut Answer) {
    match read {
        Ok(name) => answer.add(name.as_slice()),
        Err(error) => answer.refuse(error),
    }
}

/// Adds the octets of a text, and checks that parsing its characters returns the same.
fn read(text: &str, answer: &mut Answer) {
    let mut other = answer.another();
    add_result(&Vector::from_chars(answer.heap(), text.chars()), &mut other);
    add_result(&Vector::from_str(answer.heap(), text), answer);
    answer.check_same(&other);
}

/// Returns the name of octets. No octets are the relative name without labels.
fn name_of<'a>(octets: &'a [u8], answer: &mut Answer) -> UncertainName<&'a [u8]> {
    if octets.is_empty() {
        return UncertainName::empty_ref();
    }
    match UncertainName::from_octets(octets) {
        Ok(name) => name,
        Err(_) => {
            answer.fail(Failure::BadInputs);
            UncertainName::empty_ref()
        }
    }
}

/// Checks that a name is returned as its kind, and rejected as the other kind.
fn check_kind(name: UncertainName<&[u8]>, is_absolute: bool, octets: &[u8], answer: &mut Answer) {
    answer.check(name.as_absolute().is_some() == is_absolute);
    answer.check(name.as_relative().is_some() != is_absolute);
    match name.try_into_absolute() {
        Ok(absolute) => match UncertainName::from(absolute).try_into_relative() {
            Ok(_) => answer.check(false),
            Err(name) => answer.check(is_absolute && *name.as_slice() == *octets),
        },
        Err(name) => match name.try_into_relative() {
            Ok(relative) => answer.check(!is_absolute && *relative.as_slice() == *octets),
            Err(_) => answer.check(false),
        },
    }
}

/// Adds whether octets are an absolute or a relative name; or the octet of a bad label type after a
/// bar.
fn of(octets: &[u8], answer: &mut Answer) {
    match UncertainName::from_octets(octets) {
        Ok(name) => {
            let is_absolute = name.is_absolute();
            check_kind(name, is_absolute, octets, answer);
            answer.add_text(if is_absolute { "absolute" } else { "relative" });
        }
        Err(error) => {
            answer.refuse(&error);
            if let UncertainDnameError::BadLabel(LabelTypeError(octet)) = error {
                answer.add_text("|");
                answer.add_number(usize::from(octet));
            }
        }
    }
}

fn hash_of(name: &Vector) -> u64 {
    let mut hasher = DefaultHasher::new();
    name.hash(&mut hasher);
    hasher.finish()
}

/// Returns the name of a text.
fn read_name<'a>(heap: &'a Heap, text: &[u8]) -> Result<Vector<'a>, FromStrError> {
    Vector::from_str(heap, str::from_utf8(text).unwrap_or(".."))
}

/// Adds whether two texts are equal names, and checks that these have equal hashes.
fn are_equal((one, other): (&[u8], &[u8]), answer: &mut Answer) {
    match (
        read_name(answer.heap(), one),
        read_name(answer.heap(), other),
    ) {
        (Ok(left), Ok(right)) => {
            let is_same = left == right;
            answer.check(!is_same || hash_of(&left) == hash_of(&right));
            answer.add_bool(is_same);
        }
        (Err(FromStrError::ShortBuf), _) | (_, Err(FromStrError::ShortBuf)) => {
            answer.fail_for_memory();
        }
        _ => answer.fail(Failure::BadInputs),
    }
}

/// Adds the text of octets as an absolute name, a bar, and its text with a dot.
fn absolute(octets: &[u8], answer: &mut Answer) {
    match Name::from_octets(octets) {
        Ok(name) => {
            answer.add_shown(&name);
            answer.add_text("|");
            answer.add_shown(&DisplayWithDot::new(&name));
            let mut other = answer.another();
            other.add_shown(&DisplayWithoutDot::new(&name));
            other.add_text("|");
            other.add_shown(&UncertainName::from(name));
            answer.check_same(&other);
        }
        Err(error) => answer.refuse(&error),
    }
}

/// Adds the text of octets as a relative name.
fn relative(octets: &[u8], answer: &mut Answer) {
    match RelativeName::from_octets(octets) {
        Ok(name) => {
            answer.add_shown(&name);
            let mut other = answer.another();
            other.add_shown(&UncertainName::from(name));
            answer.check_same(&other);
        }
        Err(error) => answer.refuse(&error),
    }
}

/// Adds a label and a bar.
fn add_label(label: Label, answer: &mut Answer) {
    answer.add(label.as_slice());
    answer.add_text("|");
}

/// Adds a label, if there is one.
fn add_next(label: Option<Label>, answer: &mut Answer) {
    if let Some(label) = label {
        add_label(label, answer);
    }
}

/// Maximum number of labels of a name, and one more.
const MANY: usize = 129;

/// Adds the labels of a name from the front, from the back, and from both ends in turn.
fn labels(octets: &[u8], answer: &mut Answer) {
    let name = name_of(octets, answer);
    for label in &name {
        add_label(label, answer);
    }
    answer.add_text("/");
    let mut left = name.iter_labels();
    for _ in 0..MANY {
        add_next(left.next_back(), answer);
    }
    answer.add_text("/");
    let mut left = name.iter_labels();
    for _ in 0..MANY {
        add_next(left.next(), answer);
        match left.clone() {
            Ok(copy) => left = copy,
            Err(_) => answer.fail_for_memory(),
        }
        add_next(left.next_back(), answer);
    }
}

/// Returns a relative name, or fails the row if the octets aren't one.
fn relative_of<'a>(octets: &'a [u8], answer: &mut Answer) -> RelativeName<&'a [u8]> {
    let made = RelativeName::from_octets(octets);
    if made.is_err() {
        answer.fail(Failure::BadInputs);
    }
    made.unwrap_or(RelativeName::empty_ref())
}

/// Returns an absolute name, or fails the row if the octets aren't one.
fn absolute_of<'a>(octets: &'a [u8], answer: &mut Answer) -> Name<&'a [u8]> {
    let made = Name::from_octets(octets);
    if made.is_err() {
        answer.fail(Failure::BadInputs);
    }
    made.unwrap_or(Name::root_ref())
}

/// Adds the text of a chain, a bar, and its text with a dot.
fn add_chain<L: ToRelativeName + Drop, R: ToLabelIter + Drop>(
    made: Result<Chain<L, R>, LongChainError>,
    answer: &mut Answer,
) {
    match made {
        Ok(chain) => {
            answer.add_shown(&chain);
            answer.add_text("|");
            answer.add_shown(&chain.fmt_with_dot());
        }
        Err(error) => answer.refuse(&error),
    }
}

/// Adds the same for a chain after a name that is absolute or relative.
fn add_uncertain_chain(one: &[u8], right: &Name<&[u8]>, answer: &mut Answer) {
    match name_of(one, answer).chain(right) {
        Ok(chain) => {
            answer.add_shown(&chain);
            answer.add_text("|");
            answer.add_shown(&chain.fmt_with_dot());
        }
        Err(error) => answer.refuse(&error),
    }
}

/// Adds the text of a chain of two names, and checks it for all kinds of chains.
fn chain_of_two(one: &[u8], other: &[u8], answer: &mut Answer) {
    let right = name_of(other, answer);
    let mut uncertain = answer.another();
    if let UncertainName::Absolute(right) = &right {
        add_uncertain_chain(one, right, &mut uncertain);
    }
    match name_of(one, answer) {
        UncertainName::Relative(left) => add_chain(Chain::new(left, &right), answer),
        UncertainName::Absolute(_) => return add_uncertain_chain(
            one,
            &absolute_of(other, answer),
            answer,
        ),
    }
    if right.is_absolute() {
        answer.check_same(&uncertain);
    }
}

/// Adds the text of a chain of three names, the first two of which are relative.
fn chain_of_three(one: &[u8], middle: &[u8], other: &[u8], answer: &mut Answer) {
    let left = relative_of(one, answer);
    let middle = relative_of(middle, answer);
    let right = name_of(other, answer);
    let chain = match Chain::new(&left, &middle) {
        Ok(chain) => chain,
        Err(error) => return answer.refuse(&error),
    };
    let mut other = answer.another();
    match chain.clone() {
        Ok(copy) => add_chain(copy.chain(&right), &mut other),
        Err(_) => answer.fail_for_memory(),
    }
    add_chain(chain.chain(&right), answer);
    answer.check_same(&other);
}

fn chain(names: &[Vec<u8>], answer: &mut Answer) {
    match names {
        [one, other] => chain_of_two(one.as_slice(), other.as_slice(), answer),
        [one, middle, other] => {
            chain_of_three(one.as_slice(), middle.as_slice(), other.as_slice(), answer)
        }
        _ => answer.fail(Failure::BadInputs),
    }
}

/// Adds the labels of a chain after a relative name from the front, from the back, and from both
/// ends in turn.
fn add_chain_labels(
    chain: &Chain<RelativeName<&[u8]>, &UncertainName<&[u8]>>,
    answer: &mut Answer,
) {
    for label in chain.iter_labels() {
        add_label(label, answer);
    }
    answer.add_text("/");
    let mut left = chain.iter_labels();
    for _ in 0..MANY {
        add_next(left.next_back(), answer);
    }
    answer.add_text("/");
    let mut left = chain.iter_labels();
    for _ in 0..MANY {
        add_next(left.next(), answer);
        match left.clone() {
            Ok(copy) => left = copy,
            Err(_) => answer.fail_for_memory(),
        }
        add_next(left.next_back(), answer);
    }
}

/// Adds the same for a chain after an absolute name.
fn add_absolute_labels(one: &[u8], other: &[u8], answer: &mut Answer) {
    let right = absolute_of(other, answer);
    let Ok(chain) = name_of(one, answer).chain(&right) else {
        return answer.fail(Failure::BadInputs);
    };
    for label in chain.iter_labels() {
        add_label(label, answer);
    }
    answer.add_text("/");
    let mut left = chain.iter_labels();
    for _ in 0..MANY {
        add_next(left.next_back(), answer);
    }
}

fn chain_labels((one, other): (&[u8], &[u8]), answer: &mut Answer) {
    let right = name_of(other, answer);
    match name_of(one, answer) {
        UncertainName::Relative(left) => match Chain::new(left, &right) {
            Ok(chain) => add_chain_labels(&chain, answer),
            Err(_) => answer.fail(Failure::BadInputs),
        },
        UncertainName::Absolute(_) => add_absolute_labels(one, other, answer),
    }
}

/// Adds a name that was made of labels, or the error.
fn add_flat(made: Result<Name<Octets>, ShortBuf>, answer: &mut Answer) {
    match made {
        Ok(name) => answer.add(name.as_slice()),
        Err(error) => answer.refuse(&error),
    }
}

/// Checks that the wire format of a name is the result so far.
fn check_composed<N: ToLabelIter>(name: &N, answer: &mut Answer) {
    let mut wire = Vec::new(answer.alloc());
    answer.check(name.compose(&mut wire).is_ok());
    answer.check(wire.len() == usize::from(name.compose_len()));
    let mut composed = answer.another();
    composed.add(wire.as_slice());
    answer.check_same(&composed);
}

/// Adds the octets of a chain, as a name that is made of it and in wire format.
fn flatten((one, other): (&[u8], &[u8]), answer: &mut Answer) {
    let right = absolute_of(other, answer);
    let Ok(chain) = name_of(one, answer).chain(&right) else {
        return answer.fail(Failure::BadInputs);
    };
    add_flat((&chain).try_flatten_into(answer.heap()), answer);
    check_composed(&chain, answer);
    let (left, _) = chain.unwrap();
    answer.check(*left.as_slice() == *one);
}

/// Adds the octets of a chain after a relative name, as a name that is made of it borrowed and
/// owned, and of its right name in the same ways, separated by bars.
fn flatten_each((one, other): (&[u8], &[u8]), answer: &mut Answer) {
    let right = absolute_of(other, answer);
    let Ok(chain) = Chain::new(relative_of(one, answer), absolute_of(other, answer)) else {
        return answer.fail(Failure::BadInputs);
    };
    add_flat((&chain).try_flatten_into(answer.heap()), answer);
    check_composed(&chain, answer);
    answer.add_text("|");
    add_flat(chain.try_flatten_into(answer.heap()), answer);
    answer.add_text("|");
    add_flat((&right).try_flatten_into(answer.heap()), answer);
    answer.add_text("|");
    add_flat(right.try_flatten_into(answer.heap()), answer);
}

/// Adds the root as a name that may be relative, a bar, and the root as one that may not.
fn root(answer: &mut Answer) {
    match Vector::root_vec(answer.heap()) {
        Ok(name) => {
            answer.check(name.is_absolute());
            answer.add(name.as_slice());
        }
        Err(error) => answer.refuse(&error),
    }
    answer.add_text("|");
    add_flat(Name::root(answer.heap()), answer);
}

/// The buffer of a composed name.
pub type Room = ArrayVec<u8, 255>;

/// Returns an array with the remaining capacity `left`.
pub fn room_of(left: usize) -> Room {
    let mut room = Room::new();
    for _ in left..255 {
        let _ = room.append_slice(&[0]);
    }
    room
}

/// Adds the part of a chain that fits a capacity: whether all of it did, a bar, and the octets.
fn compose_into(inputs: &[Vec<u8>], answer: &mut Answer) {
    let [one, other, digits] = inputs else {
        return answer.fail(Failure::BadInputs);
    };
    let right = absolute_of(other.as_slice(), answer);
    let Ok(chain) = name_of(one.as_slice(), answer).chain(&right) else {
        return answer.fail(Failure::BadInputs);
    };
    let mut room = room_of(number_of(digits.as_slice()).unwrap_or(0));
    let taken = room.len();
    if let Err(error) = chain.compose(&mut room) {
        answer.refuse(&error);
    }
    answer.add_text("|");
    answer.add(AsOctets::as_slice(&room).get(taken..).unwrap_or_default());
}
