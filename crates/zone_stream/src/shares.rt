//! Equal shares of a file's octets.
ghost use Rattle.std.specs.Prelude.{◌≡◌, ◌≤◌, ◌↔◌, IsTrue};
ghost use Rattle.zone_stream.specs.Shares.{BeginsShare, MayBegin, no_shares, share_of};

use std::marker::Model;

/// Shares of a file and the parts that have begun in them. All have one size but for the last,
/// which includes the remainder.
#[derive(Drop)]
pub struct Shares {
    count: usize,
    size: usize,
    /// Index of the share in which the last part began.
    last: Option<usize>,
    /// Number of parts that have begun.
    begun: usize,
}

impl Model for Shares {
    ghost use Rattle.zone_stream.specs.Shares.{AreWithin, SharesSeen, shares_seen};

    ghost Value = { SharesSeen };

    ghost view = { λ s. shares_seen s.count s.size s.last s.begun };

    ghost invariant = { λ s. AreWithin (shares_seen s.count s.size s.last s.begun) };
}

impl Shares {
    /// Returns this number of shares, and at least one, of a file of this number of octets. No part
    /// has begun.
    pub fn new(octets: usize, count: usize) -> Shares
        ensures { result ≡ no_shares octets count }
    {
        let count = count.max(1);
        Shares {
            count,
            size: (octets / count).max(1),
            last: None,
            begun: 0,
        }
    }

    /// Returns the number of parts that have begun, which is at most the number of shares.
    pub fn begun(&self) -> usize
        ensures is { result ≡ self.now.begun }
        ensures most { result ≤ self.now.count }
    {
        self.begun
    }

    /// Returns whether a part may begin at an octet: no part has begun, or the last one began in a
    /// share before this octet's.
    pub fn may_begin(&self, at: usize) -> bool
        ensures { IsTrue result ↔ MayBegin self.now at }
    {
        match self.last {
            Some(last) => last < self.share_of(at),
            None => true,
        }
    }

    /// Counts a part that begins at an octet, where it may begin.
    pub fn begin(&mut self, at: usize)
        requires { MayBegin self.old at }
        ensures { BeginsShare self.old at self.new }
    {
        self.last = Some(self.share_of(at));
        self.begun += 1;
    }

    /// Returns the share of an octet. Octets after the last share count as the last one's.
    fn share_of(&self, at: usize) -> usize
        ensures { result ≡ share_of self.now at }
    {
        (at / self.size).min(self.count - 1)
    }
}
