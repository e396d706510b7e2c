//! A cache of hashed names.
ghost use Rattle.std.specs.Prelude.{◌≡◌, IfSome};
ghost use Rattle.dns_octets.specs.Lowered.{lowered};
ghost use Rattle.zone_dnssec.specs.HashedNames.{iterated_hash, name_hash};

use crate::nsec3_hash::{copied_octets, hash_name};
use crate::signatures::count_labels;
use arrayvec::ArrayVec;
use dns_wire::Name;
use std::alloc::{AllocError, Allocator};
use zone_rules::names::octets_of;

/// Greatest number of labels of a name, with the root.
const LABELS: usize = 128;

/// The hash of a name with a salt and iterations.
#[derive(Drop)]
struct NameHash<'c> {
    name: ArrayVec<u8, 255>,
    salt: &'c [u8],
    iterations: u16,
    hash: [u8; 20],
    ghost is_hash: { hash ≡ iterated_hash salt.now (lowered name.items) iterations },
}

/// For each number of labels, the hash of the last name that was hashed. Names in canonical order,
/// and the names above them, are thus hashed once each.
#[derive(Drop)]
pub(crate) struct Hashes<'c, A: Allocator> {
    last: Vec<Option<NameHash<'c>>, A>,
}

impl<'c, A: Allocator> Hashes<'c, A> {
    /// Returns an empty cache. Fails without memory.
    pub(crate) fn new(alloc: A) -> Result<Self, AllocError> {
        let mut last = Vec::new(alloc);
        for _count in 0..LABELS {
            last.push(None)?;
        }
        Ok(Hashes { last })
    }

    /// Returns the hash of a name, if it is the last one with this number of labels.
    fn find(&self, count: usize, name: &[u8], salt: &[u8], iterations: u16) -> Option<[u8; 20]>
        ensures { IfSome result (λ hash. hash
            ≡ iterated_hash salt.now (lowered name.now) iterations) }
    {
        match self.last.get(count) {
            Some(Some(it)) => {
                if it.iterations == iterations && it.name.as_slice() == name && it.salt == salt {
                    Some(it.hash)
                } else {
                    None
                }
            }
            _ => None,
        }
    }

    /// Returns the hash of a name, computed if it is not in the cache.
    pub(crate) fn hash(&mut self, name: &Name<&[u8]>, salt: &'c [u8], iterations: u16) -> [u8; 20]
        ensures { result ≡ name_hash salt.now iterations name.now }
    {
        let octets = octets_of(name);
        let count = count_labels(name);
        if let Some(hash) = self.find(count, octets, salt, iterations) {
            return hash;
        }
        let hash = hash_name(name, salt, iterations);
        let copy = copied_octets(octets);
        if let Some(last) = self.last.get_mut(count) {
            *last = Some(NameHash {
                name: copy,
                salt,
                iterations,
                hash,
            });
        }
        hash
    }
}
