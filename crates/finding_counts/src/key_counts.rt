//! The number of findings with each key, and the findings that a baseline leaves out.
ghost use Rattle.std.specs.Prelude.{◌≡◌, ◌-◌, ◌^◌, ◌<◌, ◌↔◌, [], IfOk, IsTrue, List, OnOk, min, sum, ℕ};
ghost use Rattle.std.specs.BTreeMap.{values};
ghost use Rattle.finding_counts.specs.KeyNumbers.{AddsNumber, FindsOne, HasFound, IsAmongKnown, RemovesOne, key_number, known_after, numbered_keys, text_of_keys};

use crate::baseline::push_baseline_line;
use std::alloc::{AllocError, Global};
use std::collections::BTreeMap;

/// The number of findings with each key.
#[derive(Drop)]
pub struct KeyCounts {
    counts: BTreeMap<Vec<u8>, usize>,
}

/// A baseline: the number of findings with each key that are known.
#[derive(Drop)]
pub struct Baseline {
    /// The numbers of those that were not found yet.
    rest: KeyCounts,
    /// Number of findings that were left out.
    pub known: usize,
}

impl KeyCounts {
    /// Returns no keys.
    pub fn new(alloc: Global) -> KeyCounts
        ensures { (key : List ℕ) → key_number result key ≡ 0 }
    {
        KeyCounts {
            counts: BTreeMap::new(alloc),
        }
    }

    /// Returns the number of findings with a key.
    pub fn number(&self, key: &[u8]) -> usize
        ensures { result ≡ key_number self.now key.now }
    {
        match self.counts.get(key) {
            Some(count) => *count,
            None => 0,
        }
    }

    /// Adds a number of findings with a key. The sum is at most the greatest number. Fails without memory.
    pub fn add(&mut self, key: Vec<u8>, number: usize) -> Result<(), AllocError>
        ensures { OnOk result (AddsNumber key.items number self.old self.new) }
    {
        let sum = self.number(key.as_slice()).saturating_add(number);
        self.counts.insert(key, sum)?;
        Ok(())
    }

    /// Removes one finding with a key. Returns `false` if there is none.
    fn remove_one(&mut self, key: &[u8]) -> bool
        ensures removed { IsTrue result ↔ (0 < key_number self.old key.now) }
        ensures rest { RemovesOne key.now self.old self.new }
    {
        if self.number(key) == 0 {
            return false;
        }
        match self.counts.get_mut(key) {
            Some(count) => {
                *count = count.saturating_sub(1);
                true
            }
            None => false,
        }
    }

    /// Returns the lines of a baseline, sorted by the octets of their keys. Fails without memory.
    pub fn lines(&self, alloc: Global) -> Result<Vec<u8>, AllocError>
        ensures { IfOk result (λ text. text.items ≡ text_of_keys (numbered_keys self.now)) }
    {
        let mut out = Vec::new(alloc);
        for (key, number) in &self.counts {
            push_baseline_line(&mut out, key.as_slice(), *number)?;
        }
        Ok(out)
    }

    /// Returns the number of findings, which is at most the greatest number.
    fn total(&self) -> usize
        ensures { result ≡ min (sum (values self.now.counts)) (2 ^ 64 - 1) }
    {
        let mut sum: usize = 0;
        for number in self.counts.values() {
            sum = sum.saturating_add(*number);
        }
        sum
    }
}

impl Baseline {
    /// Returns a baseline of which no finding was found yet.
    pub fn new(counts: KeyCounts) -> Baseline
        ensures numbers { HasFound (key_number counts) [] result }
        ensures known { result.known ≡ 0 }
    {
        Baseline {
            rest: counts,
            known: 0,
        }
    }

    /// Returns whether it has a finding with a key that was not found yet.
    pub fn has(&self, key: &[u8]) -> bool
        ensures { IsTrue result ↔ (0 < key_number self.now.rest key.now) }
    {
        self.rest.number(key) > 0
    }

    /// Leaves out a finding with a key. Returns `false` if all with that key were found. So of each key
    /// the first findings are left out, up to its number.
    pub fn leave_out(&mut self, key: &[u8]) -> bool
        ensures first { IsAmongKnown key.now self.old result }
        ensures next { FindsOne key.now self.old self.new }
        ensures known { self.new.known ≡ known_after self.old.known result }
    {
        let is_known = self.rest.remove_one(key);
        if is_known {
            self.known = self.known.saturating_add(1);
        }
        is_known
    }

    /// Returns the number of findings that were not found, which is at most the greatest number.
    pub fn missing(&self) -> usize
        ensures { result ≡ min (sum (values self.now.rest.counts)) (2 ^ 64 - 1) }
    {
        self.rest.total()
    }
}
