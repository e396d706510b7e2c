//! Numbers of zones that are left out.
ghost use Rattle.std.specs.Prelude.{◌≡◌};
ghost use Rattle.server_config.specs.OmittedCounts.{no_counts, omission_counted};

use crate::settings::OmitReason;

/// The numbers of zones that are left out, by their reasons.
#[derive(Clone, Copy)]
pub struct OmittedCounts {
    pub other_type: usize,
    pub unknown_type: usize,
    pub in_view: usize,
    pub database: usize,
    pub format: usize,
    pub template: usize,
}

impl OmittedCounts {
    /// Returns the counts before the first zone.
    pub fn new() -> OmittedCounts
        ensures { result ≡ no_counts }
    {
        OmittedCounts {
            other_type: 0,
            unknown_type: 0,
            in_view: 0,
            database: 0,
            format: 0,
            template: 0,
        }
    }

    /// Returns the counts with one more zone that is left out. From 2^64 - 1 on they stay.
    pub fn counted(self, reason: OmitReason) -> OmittedCounts
        ensures { result ≡ omission_counted self reason }
    {
        match reason {
            OmitReason::OtherType => OmittedCounts {
                other_type: self.other_type.saturating_add(1),
                ..self
            },
            OmitReason::UnknownType => OmittedCounts {
                unknown_type: self.unknown_type.saturating_add(1),
                ..self
            },
            OmitReason::InView => OmittedCounts {
                in_view: self.in_view.saturating_add(1),
                ..self
            },
            OmitReason::Database => OmittedCounts {
                database: self.database.saturating_add(1),
                ..self
            },
            OmitReason::Format => OmittedCounts {
                format: self.format.saturating_add(1),
                ..self
            },
            OmitReason::Template => OmittedCounts {
                template: self.template.saturating_add(1),
                ..self
            },
        }
    }
}
