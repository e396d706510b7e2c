//! Decides the severity of findings.
ghost use Rattle.std.specs.Prelude.{◌≡◌, ◌⊎◌, Contains, None, Some, true, false};
ghost use Rattle.finding_codes.specs.Code.{default_severity, is_text_fault};
ghost use Rattle.finding_codes.specs.declared.code.Severity.TheVariants.{Error};

use crate::code::{Code, Severity};

/// Returns whether a code is listed.
fn lists(codes: &[Code], code: Code) -> bool
    ensures listed { result ≡ true → Contains codes.now code }
    ensures unlisted { result ≡ false → ¬ (Contains codes.now code) }
{
    codes.contains(&code)
}

/// Which findings are omitted, and which warnings are errors.
#[derive(Clone, Copy)]
pub struct Policy<'a> {
    /// Findings that are omitted, even if they are denied too.
    pub allowed: &'a [Code],
    /// Findings that are errors.
    pub denied: &'a [Code],
    /// Whether every finding is an error.
    pub is_strict: bool,
}

impl Policy<'_> {
    /// Returns the severity of a finding, or `None` if it is omitted.
    ///
    /// Malformed text is an error even if it is allowed, and so is a finding that keeps a record
    /// from being read.
    pub fn severity(&self, code: Code, is_refused: bool) -> Option<Severity>
        ensures text { is_text_fault code ≡ true → result ≡ Some Error }
        ensures refused { is_refused ≡ true → result ≡ Some Error }
        ensures allowed { is_refused ≡ false → is_text_fault code ≡ false
            → Contains self.now.allowed.now code → result ≡ None }
        ensures denied { is_text_fault code ≡ false → ¬ (Contains self.now.allowed.now code)
            → Contains self.now.denied.now code ⊎ (self.now.is_strict ≡ true) → result ≡ Some Error }
        ensures other { is_refused ≡ false → is_text_fault code ≡ false
            → ¬ (Contains self.now.allowed.now code) → ¬ (Contains self.now.denied.now code)
            → self.now.is_strict ≡ false → result ≡ Some (default_severity code) }
    {
        if is_refused || code.is_text_fault() {
            Some(Severity::Error)
        } else if lists(self.allowed, code) {
            None
        } else if self.is_strict || lists(self.denied, code) {
            Some(Severity::Error)
        } else {
            Some(code.default_severity())
        }
    }
}
