//! Tests of what rows can't express: generic code at a caller's own types, loans that outlive their
//! iterators, clones, names in small arrays, and the allocator that fails one allocation.
//!
//! Example record types: each prints as one entry, and parses from it.
#![tactic(auto)]

pub mod caa;
#[cfg(test)]
mod charstr;
#[cfg(test)]
mod checks;
#[cfg(test)]
mod memory;
pub mod mx;
#[cfg(test)]
mod names;
#[cfg(test)]
mod scanning;
#[cfg(test)]
mod symbol;
#[cfg(test)]
mod zones;
