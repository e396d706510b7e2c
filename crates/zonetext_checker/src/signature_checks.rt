//! Which zones are checked as signed, and what is known of their signatures.
use zone_dnssec::SigningDemand;

/// What is known of the signatures of a zone.
#[derive(Clone, Copy)]
pub enum ZoneSigning {
    /// Nothing: the rules of a zone were not checked, or its signatures don't matter.
    Unknown,
    /// No RRSIG at its apex covers SOA or NS.
    Unsigned,
    /// It is signed.
    Signed {
        /// The time until which each of its RRsets has a signature, if that is looked for.
        until: Option<u32>,
        /// Whether rules are left out since the zone is being signed.
        is_incomplete: bool,
    },
}

/// Which zones are checked as signed, and what was found.
#[derive(Clone, Copy)]
pub struct SignatureChecks {
    pub demand: SigningDemand,
    /// Whether the time is looked for until which the zone is signed.
    pub finds_end: bool,
    /// Whether findings that a signature has expired are omitted.
    pub omits_expired: bool,
    /// Whether findings that a signature is not valid yet are omitted.
    pub omits_early: bool,
    /// Whether the zone was checked as a signed one.
    pub is_checked: bool,
    pub signing: ZoneSigning,
}

impl SignatureChecks {
    /// Returns the checks before a zone is read.
    pub fn new(demand: SigningDemand, finds_end: bool) -> SignatureChecks {
        SignatureChecks {
            demand,
            finds_end,
            omits_expired: false,
            omits_early: false,
            is_checked: false,
            signing: ZoneSigning::Unknown,
        }
    }
}
