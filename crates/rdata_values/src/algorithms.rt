//! Algorithms of keys and signatures (RFC 4034 appendix A.1), and certificate types (RFC 4398).
ghost use Rattle.std.specs.Prelude.{◌≡◌, Some, decimal, option_copied};
ghost use Rattle.rdata_values.specs.Kind.{ReadsKind};
ghost use Rattle.rdata_values.specs.Registry.{row_name};
ghost use Rattle.rdata_values.specs.Algorithms.{algorithm_rows, certificate_rows, SpellsAlgorithm, AlgorithmsAreKind, SpellsCertificate, certificate_text, CertificatesAreKind};
ghost use Rattle.rdata_values.specs.declared.error.ErrorKind.TheVariants.{UnknownAlgorithm, UnknownCertificate};

use crate::error::ErrorKind;
use crate::registry::{Named, code_from_text, name_of};
use std::fmt;

/// The algorithms that have a name: IANA's names, and then BIND's other names for three of them.
/// Algorithm 0 has only its number.
pub static ALGORITHMS: [Named; 21] = [
    Named(1, "RSAMD5"),
    Named(2, "DH"),
    Named(3, "DSA"),
    Named(5, "RSASHA1"),
    Named(6, "DSA-NSEC3-SHA1"),
    Named(7, "RSASHA1-NSEC3-SHA1"),
    Named(8, "RSASHA256"),
    Named(10, "RSASHA512"),
    Named(12, "ECC-GOST"),
    Named(13, "ECDSAP256SHA256"),
    Named(14, "ECDSAP384SHA384"),
    Named(15, "ED25519"),
    Named(16, "ED448"),
    Named(17, "SM2SM3"),
    Named(23, "ECC-GOST12"),
    Named(252, "INDIRECT"),
    Named(253, "PRIVATEDNS"),
    Named(254, "PRIVATEOID"),
    Named(6, "NSEC3DSA"),
    Named(7, "NSEC3RSASHA1"),
    Named(12, "ECCGOST"),
];

/// The certificate types that have a name.
pub static CERTIFICATES: [Named; 10] = [
    Named(1, "PKIX"),
    Named(2, "SPKI"),
    Named(3, "PGP"),
    Named(4, "IPKIX"),
    Named(5, "ISPKI"),
    Named(6, "IPGP"),
    Named(7, "ACPKIX"),
    Named(8, "IACPKIX"),
    Named(253, "URI"),
    Named(254, "OID"),
];

/// An algorithm, by its number. It prints as the number.
#[derive(Clone, Copy)]
pub struct Algorithm(pub u8);

impl Algorithm {
    /// Parses an algorithm: its name, in any case, or its number. Fails with `UnknownAlgorithm` for
    /// any other text.
    pub fn from_text(text: &[u8]) -> Result<Algorithm, ErrorKind>
        ensures { ReadsKind SpellsAlgorithm UnknownAlgorithm text.now result }
    {
        match code_from_text(&ALGORITHMS, "", 255, text, ErrorKind::UnknownAlgorithm) {
            Ok(code) => Ok(Algorithm(code as u8)),
            Err(why) => Err(why),
        }
    }

    /// Returns IANA's name of the algorithm, if it has one.
    pub fn name(&self) -> Option<&'static str>
        ensures { option_copied result ≡ row_name algorithm_rows self.now.0 }
    {
        name_of(&ALGORITHMS, u16::from(self.0))
    }
}

impl fmt::Display for Algorithm {
    ghost output = { λ a. Some (decimal a.0) };

    fn fmt<W: fmt::Write>(&self, f: &mut fmt::Formatter<W>) -> fmt::Result {
        write!(f, "{}", self.0)
    }
}

/// A certificate type, by its number. It prints as its name or, without one, as the number.
#[derive(Clone, Copy)]
pub struct CertificateType(pub u16);

impl CertificateType {
    /// Parses a certificate type: its name, in any case, or its number. Fails with
    /// `UnknownCertificate` for any other text.
    pub fn from_text(text: &[u8]) -> Result<CertificateType, ErrorKind>
        ensures { ReadsKind SpellsCertificate UnknownCertificate text.now result }
    {
        match code_from_text(
            &CERTIFICATES,
            "",
            u16::MAX,
            text,
            ErrorKind::UnknownCertificate,
        ) {
            Ok(code) => Ok(CertificateType(code)),
            Err(why) => Err(why),
        }
    }

    /// Returns the name of the type, if it has one.
    pub fn name(&self) -> Option<&'static str>
        ensures { option_copied result ≡ row_name certificate_rows self.now.0 }
    {
        name_of(&CERTIFICATES, self.0)
    }
}

impl fmt::Display for CertificateType {
    ghost output = { λ t. Some (certificate_text t) };

    fn fmt<W: fmt::Write>(&self, f: &mut fmt::Formatter<W>) -> fmt::Result {
        match self.name() {
            Some(name) => f.write_str(name),
            None => write!(f, "{}", self.0),
        }
    }
}

/// States that an algorithm or a certificate type that is printed and parsed is the same. Does
/// nothing.
pub fn algorithms_are_read_back()
    ensures algorithms { AlgorithmsAreKind }
    ensures certificates { CertificatesAreKind }
{}
