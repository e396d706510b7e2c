//! Prints uncertain names.
use crate::name::UncertainName;
use dns_octets::AsOctets;
use dns_wire::DisplayWithDot;
use std::fmt;

/// Prints the labels joined by dots, with a dot at the end of an absolute name. The root is one
/// dot.
impl<Octets: AsOctets> fmt::Display for UncertainName<Octets> {
    ghost use Rattle.std.specs.Prelude.{Some, encode_utf8_all};
    ghost use Rattle.dns_wire.specs.Printed.{dotted_text};
    ghost use Rattle.dns_name.specs.Uncertain.{labels_of};

    ghost output = { λ n. Some (encode_utf8_all (dotted_text (labels_of n))) };

    fn fmt<W: fmt::Write>(&self, f: &mut fmt::Formatter<W>) -> fmt::Result {
        let shown = DisplayWithDot::new(self);
        write!(f, "{shown}")
    }
}
