//! The serial of an update of several messages.
ghost use Rattle.std.specs.Prelude.{◌↔◌, IsTrue};
ghost use Rattle.zone_update.specs.UpdateSerials.{AllowsMessages};

/// Returns whether the serial `new` is greater than `old` (RFC 1982 section 3.2), and by at least the
/// number of messages. A server increases the serial by 1 for each message without an SOA, and
/// ignores an SOA whose serial isn't greater than its own (RFC 2136 section 3.4.2.2).
pub fn allows_messages(old: u32, new: u32, count: usize) -> bool
    ensures { IsTrue result ↔ AllowsMessages old new count }
{
    if old < new {
        let steps = new - old;
        return steps < 1 << 31 && count <= steps as usize;
    }
    let back = old - new;
    back > 1 << 31 && count <= (1 << 32) - back as usize
}
