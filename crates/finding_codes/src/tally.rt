//! Counts findings, and decides which of them are shown.
ghost use Rattle.std.specs.Prelude.{◌≡◌, ◌<◌, ◌^◌, ◌++◌, ◌∷◌, [], ◌==◌, List, OnOk, if◌then◌else◌};
ghost use Rattle.finding_codes.specs.Tally.{IsTally, counted_text, has_room, hidden, hidden_text, shows, summary};
ghost use Rattle.finding_codes.specs.declared.code.Severity.{Severity};

use crate::code::Severity;
use crate::push::push_number;
use std::alloc::{AllocError, Allocator};

/// The number of errors and warnings, and the number of findings that are shown.
#[derive(Clone, Copy)]
pub struct Tally {
    /// Greatest number of findings that are shown, which are the first ones, or 0 for all.
    pub most: usize,
    pub errors: usize,
    pub warnings: usize,
}

impl Tally {
    /// Returns the tally before the first finding.
    pub fn new(most: usize) -> Tally
        ensures most { result.most ≡ most }
        ensures none { IsTally [] result }
    {
        Tally {
            most,
            errors: 0,
            warnings: 0,
        }
    }

    /// Returns whether the next finding is shown.
    pub fn has_room(&self) -> bool
        ensures room { result ≡ has_room self.now.most self.now.errors self.now.warnings }
        ensures fits { self.now.most < 2 ^ 64 }
    {
        self.most == 0 || self.errors.saturating_add(self.warnings) < self.most
    }

    /// Counts a finding, and returns whether it is shown.
    pub fn count(&mut self, severity: Severity) -> bool
        ensures most { self.new.most ≡ self.old.most }
        ensures counts { (found : List Severity) → IsTally found self.old
            → IsTally (found ++ severity ∷ []) self.new }
        ensures shows { (found : List Severity) → IsTally found self.old
            → result ≡ shows self.old.most found }
    {
        let is_shown = self.has_room();
        match severity {
            Severity::Error => self.errors = self.errors.saturating_add(1),
            Severity::Warning => self.warnings = self.warnings.saturating_add(1),
        }
        is_shown
    }

    /// Returns the exit status: 1 if an error was found, else 0.
    pub fn status(&self) -> u8
        ensures { result ≡ (if self.now.errors == 0 then 0 else 1) }
    {
        if self.errors == 0 { 0 } else { 1 }
    }

    /// Returns the number of findings that are not shown.
    pub fn hidden(&self) -> usize
        ensures { result ≡ hidden self.now.most self.now.errors self.now.warnings }
    {
        if self.most == 0 {
            0
        } else {
            self.errors
                .saturating_add(self.warnings)
                .saturating_sub(self.most)
        }
    }

    /// Appends the last line, such as `3 errors, 1 warning, 2 not shown`; or nothing if nothing was
    /// found.
    pub fn push_summary<A: Allocator>(&self, out: &mut Vec<u8, A>) -> Result<(), AllocError>
        ensures { OnOk result (out.new.items
            ≡ out.old.items ++ summary self.now.most self.now.errors self.now.warnings) }
    {
        if self.errors == 0 && self.warnings == 0 {
            return Ok(());
        }
        push_counted(out, self.errors, b" error")?;
        out.extend_from_slice(b", ")?;
        push_counted(out, self.warnings, b" warning")?;
        push_hidden(out, self.hidden())?;
        out.extend_from_slice(b"\n")
    }
}

/// Appends a number and the noun that it counts, in the plural unless the number is 1.
fn push_counted<A: Allocator>(
    out: &mut Vec<u8, A>,
    number: usize,
    word: &[u8],
) -> Result<(), AllocError>
    ensures { OnOk result (out.new.items ≡ out.old.items ++ counted_text number word.now) }
{
    push_number(out, b"", number)?;
    out.extend_from_slice(word)?;
    if number != 1 {
        out.extend_from_slice(b"s")?;
    }
    Ok(())
}

/// Appends the number of findings that are not shown, if any.
fn push_hidden<A: Allocator>(out: &mut Vec<u8, A>, number: usize) -> Result<(), AllocError>
    ensures { OnOk result (out.new.items ≡ out.old.items ++ hidden_text number) }
{
    if number == 0 {
        return Ok(());
    }
    push_number(out, b", ", number)?;
    out.extend_from_slice(b" not shown")
}
