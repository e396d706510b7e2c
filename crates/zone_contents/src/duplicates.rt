//! Counts the duplicates of a zone.
ghost use Rattle.std.specs.Prelude.{◌≡◌, ◌<◌, ◌+◌, length};
ghost use Rattle.zone_contents.specs.Digests.{distinct_records, first_at};

use crate::stored::StoredZone;
use std::alloc::Allocator;

impl<A: Allocator> StoredZone<A> {
    /// Returns 1 if the record at an index is a duplicate, and else 0.
    fn count_at(&self, place: usize) -> usize
        requires { place < length self.now.records }
        ensures { length (first_at self.now place) + result ≡ 1 }
    {
        if self.is_duplicate(place) { 1 } else { 0 }
    }

    /// Returns the number of duplicates: of the records that are equal to the one before them but for
    /// their TTL, their file and their position.
    pub fn count_duplicates(&self) -> usize
        ensures { length (distinct_records self.now) + result ≡ length self.now.records }
    {
        let mut duplicates = 0;
        for place in 0..self.count() {
            duplicates += self.count_at(place);
        }
        duplicates
    }
}
