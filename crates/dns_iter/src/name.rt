//! Parses names from tokens.
ghost use Rattle.std.specs.Prelude.{◌≡◌, ◌+◌, ◌<◌, ◌≤◌, [], ◌∷◌, ◌++◌, IfSome, IfNone};
ghost use Rattle.dns_wire.specs.Wire.{wire_length};
ghost use Rattle.dns_iter.specs.Name.{ReadsToken};

use dns_name::chain::Chain;
use dns_name::name::{FromStrError, UncertainName};
use dns_octets::{AsOctetsMut, EmptyBuilder, FreezeBuilder, FromBuilder};
use dns_scan::ScannerError;
use dns_wire::{Name, RelativeName};

// Returns the name with the root appended, if its octets fit.
fn with_root<Octets: FromBuilder>(
    alloc: <Octets::Builder as EmptyBuilder>::Alloc,
    name: &RelativeName<Octets>,
) -> Option<Name<Octets>>
where
    Octets::Builder: EmptyBuilder + Drop,
    ensures some { IfSome result (λ n. n ≡ name.now ++ [] ∷ []) }
    ensures fits { IfSome result (λ n. wire_length n ≤ Octets.Builder.room.capacity) }
    ensures none { IfNone result (Octets.Builder.room.fits < wire_length name.now + 1) }
{
    let _short = name.len();
    let root = Name::root_ref();
    match Chain::new(name, &root) {
        Ok(chain) => Name::from_labels(alloc, &chain).ok(),
        Err(_) => None,
    }
}

/// Parses the absolute name of a token. A relative name with at least one label gets the root.
pub(crate) fn token_name<Octets: FromBuilder + Drop, E: ScannerError>(
    token: &str,
    alloc: <Octets::Builder as EmptyBuilder>::Alloc,
) -> Result<Name<Octets>, E>
where
    Octets::Builder: EmptyBuilder + AsOctetsMut + FreezeBuilder<Octets = Octets> + Drop,
    ensures { ReadsToken Octets E.cause Octets.Builder.room token.now result }
{
    let invalid = "invalid domain name";
    match UncertainName::from_str(alloc, token) {
        Ok(UncertainName::Absolute(name)) => Ok(name),
        Ok(UncertainName::Relative(name)) => {
            if name.len() == 0 {
                return Err(E::custom(invalid));
            }
            match with_root(alloc, &name) {
                Some(name) => Ok(name),
                None => Err(E::custom(invalid)),
            }
        }
        Err(FromStrError::Symbol(error)) => Err(E::custom(error.as_str())),
        Err(_) => Err(E::custom(invalid)),
    }
}
