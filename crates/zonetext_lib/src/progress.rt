//! How much of a file was read, and how long the rest takes.
ghost use Rattle.std.specs.Prelude.{◌≡◌};
ghost use Rattle.zonetext_lib.specs.Progress.{is_due, progress_share};

/// Number of seconds before which no progress is shown.
const PATIENCE: u64 = 3;

/// The share of a file that was read, and the time that the rest takes at the same speed.
#[derive(Clone, Copy)]
pub struct ProgressShare {
    /// Percentage of the octets, rounded down.
    pub percent: u64,
    /// Number of seconds that are left, rounded down.
    pub seconds_left: u64,
}

/// Returns the share of a file of `total` octets of which some were read in a number of seconds.
/// Returns `None` if none was read, or more than the file has, as with included files. Products from
/// 2^64 on count as 2^64 - 1.
pub fn progress_share(read: u64, total: u64, seconds: u64) -> Option<ProgressShare>
    ensures { result ≡ progress_share read total seconds }
{
    if read == 0 || total < read {
        return None;
    }
    Some(ProgressShare {
        percent: read.saturating_mul(100) / total,
        seconds_left: seconds.saturating_mul(total - read) / read,
    })
}

/// Returns whether progress is shown after a number of seconds: from three on, and once for each
/// second. `shown` is the second at which it was shown last, or 0.
pub fn is_due(seconds: u64, shown: u64) -> bool
    ensures { result ≡ is_due seconds shown }
{
    PATIENCE <= seconds && seconds != shown
}
