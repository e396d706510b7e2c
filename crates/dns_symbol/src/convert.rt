//! Converters from the symbols of tokens to octets, such as decoders.
ghost use Rattle.std.specs.Prelude.{◌≡◌, ◌≢◌, ℕ, List, [], Result, IfOk, IfSome};
ghost use Rattle.dns_symbol.specs.Convert.{handed, lent_octets};

/// Converts symbols to octets, step by step, as a decoder does.
///
/// A type that implements this trait has `take_symbol`, `take_tail` and `lent`. The converter
/// stores the octets of its last step, and `lent` returns them until the next step.
/// `process_symbol` and `process_tail` make a step and return its octets in one call.
pub trait ConvertSymbols<Sym, Error>: Drop {
    // The octets of the last step.
    ghost lends: { Self → List ℕ };

    // The state before, the symbol, the octets produced or the error, and the state after.
    ghost takes: { Self → Sym → Result (List ℕ) Error → Self → Type 0 };

    // The state before, the octets or the error at the end of the symbols, and the state after.
    ghost tail: { Self → Result (List ℕ) Error → Self → Type 0 };

    /// Converts a symbol, or rejects it.
    fn take_symbol(&mut self, symbol: Sym) -> Result<(), Error>
        ensures { takes self.old symbol (handed result (lends self.new)) self.new };

    /// Ends the conversion after the last symbol, or rejects the end.
    fn take_tail(&mut self) -> Result<(), Error>
        ensures { tail self.old (handed result (lends self.new)) self.new };

    /// Returns the octets of the last step; they are empty if it produced none.
    fn lent(&self) -> &[u8]
        ensures { result.now ≡ lends self.now };

    /// Converts a symbol and returns the octets that it produces, or `None` if it produces none.
    /// Fails as `take_symbol` does.
    final fn process_symbol(&mut self, symbol: Sym) -> Result<Option<&[u8]>, Error>
        ensures answer { (after : Self) × takes self.old symbol (lent_octets result) after }
        ensures some { IfOk result (λ octets. IfSome octets (λ o. o.now ≢ [])) }
    {
        self.take_symbol(symbol)?;
        let octets = self.lent();
        if octets.is_empty() {
            return Ok(None);
        }
        Ok(Some(octets))
    }

    /// Ends the conversion and returns the octets that the end produces, or `None` if it produces
    /// none. Fails as `take_tail` does.
    final fn process_tail(&mut self) -> Result<Option<&[u8]>, Error>
        ensures answer { (after : Self) × tail self.old (lent_octets result) after }
        ensures some { IfOk result (λ octets. IfSome octets (λ o. o.now ≢ [])) }
    {
        self.take_tail()?;
        let last = self.lent();
        if last.is_empty() {
            return Ok(None);
        }
        Ok(Some(last))
    }
}
