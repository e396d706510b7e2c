//! Octets that differ a little from given ones.
use crate::calls::wire::trial::Trial;
use std::alloc::{AllocError, Global};
use test_support::{Answer, Failure};

/// Tries octets with each other value of the octet at an index.
fn try_values(trial: &mut Trial, octets: &[u8], place: usize, answer: &mut Answer) {
    let Ok(mut changed) = octets.to_vec(answer.alloc()) else {
        return answer.fail_for_memory();
    };
    for change in 1..=u8::MAX {
        if let (Some(octet), Some(old)) = (changed.get_mut(place), octets.get(place)) {
            *octet = *old ^ change;
        }
        trial.try_octets(changed.as_slice(), answer);
    }
}

/// Adds the number of lists with one octet changed that are data.
fn add_changed(mut trial: Trial, octets: &[u8], answer: &mut Answer) {
    for place in 0..octets.len() {
        try_values(&mut trial, octets, place, answer);
    }
    answer.add_number(trial.count());
}

/// Adds the number of shorter beginnings that are data.
fn add_cut(mut trial: Trial, octets: &[u8], answer: &mut Answer) {
    for length in 0..octets.len() {
        trial.try_octets(&octets[..length], answer);
    }
    answer.add_number(trial.count());
}

/// Returns octets with the one at an index doubled.
fn doubled(octets: &[u8], place: usize, alloc: Global) -> Result<Vec<u8>, AllocError> {
    let mut made = octets.get(..=place).unwrap_or_default().to_vec(alloc)?;
    made.extend_from_slice(octets.get(place..).unwrap_or_default())?;
    Ok(made)
}

/// Adds the number of lists with one octet doubled that are data.
fn add_doubled(mut trial: Trial, octets: &[u8], answer: &mut Answer) {
    for place in 0..octets.len() {
        match doubled(octets, place, answer.alloc()) {
            Ok(octets) => trial.try_octets(octets.as_slice(), answer),
            Err(_) => answer.fail_for_memory(),
        }
    }
    answer.add_number(trial.count());
}

/// Adds how many of the octets near given ones are data: of those with one octet changed, of those
/// that are cut off, and of those with one octet doubled, separated by commas. The inputs are the
/// type and the octets.
pub fn damaged(inputs: &[Vec<u8>], answer: &mut Answer) {
    let [name, octets] = inputs else {
        return answer.fail(Failure::BadInputs);
    };
    let Some(trial) = Trial::new(name.as_slice(), 1) else {
        return answer.fail(Failure::BadInputs);
    };
    add_changed(trial, octets.as_slice(), answer);
    answer.add_text(",");
    add_cut(trial, octets.as_slice(), answer);
    answer.add_text(",");
    add_doubled(trial, octets.as_slice(), answer);
}
