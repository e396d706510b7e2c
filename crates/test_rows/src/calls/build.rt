//! Builders, one step after another.
//!
//! Each step is an input: a sign and its argument.
use arrayvec::ArrayVec;
use dns_charstr::charstr::{CharStr, CharStrBuilder};
use dns_octets::{AsOctets, AsOctetsMut, FreezeBuilder, FromBuilder, OctetsBuilder, Truncate};
use dns_wire::{NameBuilder, PushError};
use std::alloc::Global;
use test_support::input::number_of;
use test_support::{Answer, Failure, Heap};

/// Octets whose allocator may fail one allocation.
type Octets<'a> = Vec<u8, &'a Heap>;

/// Writes the first octet, if there is one.
fn write_header(octets: &mut [u8], octet: u8) {
    if let Some(first) = octets.first_mut() {
        *first = octet;
    }
}

/// Makes a step of a character string: `+` and octets to append, `-` and a length to truncate it
/// to, `=` and the new first octet.
fn run_step<B: OctetsBuilder + AsOctetsMut + Truncate>(
    builder: &mut CharStrBuilder<B>,
    step: &[u8],
    answer: &mut Answer,
) {
    match step {
        [b'+', octets @ ..] => {
            if let Err(error) = builder.append_slice(octets) {
                return answer.refuse(&error);
            }
        }
        [b'-', digits @ ..] => builder.truncate(number_of(digits).unwrap_or(0)),
        [b'=', octet] => write_header(builder.as_slice_mut(), *octet),
        _ => answer.fail(Failure::BadInputs),
    }
    answer.add(builder.as_slice());
}

/// Adds the result of each step, with a comma after it, and the character string at the end.
fn string_of<B: OctetsBuilder + FreezeBuilder + AsOctetsMut + Truncate + Drop>(
    mut builder: CharStrBuilder<B>,
    steps: &[Vec<u8>],
    answer: &mut Answer,
) -> CharStr<B::Octets> {
    for step in steps {
        run_step(&mut builder, step.as_slice(), answer);
        answer.add_text(",");
    }
    answer.check(builder.len() == builder.as_slice().len());
    answer.check(builder.is_empty() == builder.as_slice().is_empty());
    builder.finish()
}

/// Adds the results for a character string in a vector, in an array, and in a vector that was one.
pub fn string(steps: &[Vec<u8>], answer: &mut Answer) {
    let mut other = answer.another();
    let array = string_of(
        CharStrBuilder::<ArrayVec<u8, 300>>::new(()),
        steps,
        &mut other,
    );
    other.add(array.as_slice());
    let vector = string_of(CharStrBuilder::new_vec(answer.heap()), steps, answer);
    answer.add(vector.as_slice());
    answer.check_same(&other);
    let mut again = answer.another();
    let builder: CharStrBuilder<Octets> = vector.into_builder();
    let vector = string_of(builder, &[], &mut again);
    answer.check(vector.as_slice() == array.as_slice());
}

/// Pushes octets into a name, one after another.
fn push_all<B: OctetsBuilder + AsOctetsMut>(
    builder: &mut NameBuilder<B>,
    octets: &[u8],
) -> Result<(), PushError> {
    for octet in octets {
        builder.push(*octet)?;
    }
    Ok(())
}

/// Makes a step of a name: `+` and octets of a label, `=` and a whole label, `.` for a label's end.
fn run_name_step<B: OctetsBuilder + AsOctetsMut>(
    builder: &mut NameBuilder<B>,
    step: &[u8],
    answer: &mut Answer,
) {
    let made = match step {
        [b'+', octets @ ..] => push_all(builder, octets),
        [b'=', label @ ..] if !label.is_empty() => builder.append_label(label),
        b"." => {
            builder.end_label();
            Ok(())
        }
        _ => return answer.fail(Failure::BadInputs),
    };
    match made {
        Ok(()) => answer.add(builder.as_slice()),
        Err(error) => answer.refuse(&error),
    }
    answer.add_text(if builder.in_label() { "_," } else { "," });
    answer.check(builder.is_empty() == builder.as_slice().is_empty());
}

/// Adds the result of each step, with `_` after it in a label, and a comma.
fn run_name_steps<B: OctetsBuilder + AsOctetsMut>(
    builder: &mut NameBuilder<B>,
    steps: &[Vec<u8>],
    answer: &mut Answer,
) {
    for step in steps {
        run_name_step(builder, step.as_slice(), answer);
    }
}

/// Adds the results for a name in a vector and in an array, then the relative name, a bar, and the
/// absolute one.
pub fn name(steps: &[Vec<u8>], answer: &mut Answer) {
    let mut other = answer.another();
    let mut array = NameBuilder::<ArrayVec<u8, 255>>::new(());
    run_name_steps(&mut array, steps, &mut other);
    let mut vector = NameBuilder::<Octets>::new(answer.heap());
    run_name_steps(&mut vector, steps, answer);
    answer.check_same(&other);
    answer.add(array.finish().as_slice());
    answer.add_text("|");
    match vector.into_name() {
        Ok(name) => answer.add(name.as_slice()),
        Err(error) => answer.refuse(&error),
    }
}
