//! Parses uncertain names from a scanner.
use crate::name::UncertainName;
use dns_octets::AsOctets;
use dns_scan::Scanner;
use dns_wire::Name;

impl<Octets: AsOctets> UncertainName<Octets> {
    ghost use Rattle.dns_scan.specs.Tokens.{ScansToken};
    ghost use Rattle.dns_name.specs.Scanned.{ReadsUncertain};

    /// Parses an absolute name from the next token, as the scanner's `scan_name` does.
    pub fn scan<S: Scanner<Name = Name<Octets>>>(scanner: &mut S) -> Result<Self, S::Error>
        requires { S.can_scan scanner.old }
        ensures ready { S.can_scan scanner.new }
        ensures scans { ScansToken S.next_token S.Error.cause
            (λ t r. ReadsUncertain (S.reads_name t) r) scanner.old result scanner.new }
    {
        Ok(UncertainName::Absolute(scanner.scan_name()?))
    }
}
