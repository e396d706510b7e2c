//! The classes of records (RFC 1035 section 3.2.4, RFC 3597 section 5).
ghost use Rattle.std.specs.Prelude.{◌≡◌, IsTrue, Some, false, option_copied};
ghost use Rattle.rdata_values.specs.Kind.{ReadsKind};
ghost use Rattle.rdata_values.specs.Registry.{row_name};
ghost use Rattle.rdata_values.specs.Classes.{class_rows, SpellsClass, class_text, ClassesAreKind};
ghost use Rattle.rdata_values.specs.declared.error.ErrorKind.TheVariants.{UnknownClass};

use crate::error::ErrorKind;
use crate::registry::{Named, code_from_text, name_of};
use crate::types::is_name;
use std::fmt;
use std::marker::Model;

/// The classes that have a name.
pub static CLASSES: [Named; 3] = [Named(1, "IN"), Named(3, "CH"), Named(4, "HS")];

/// The class of a record, by its code. It prints as its name or, without one, as `CLASS` and the
/// code.
#[derive(Clone, Copy, Debug, PartialEq, Eq)]
pub struct Class(pub u16);

impl Model for Class {
    ghost use Rattle.std.specs.Prelude.{ℕ};

    ghost Value = { ℕ };

    ghost view = { λ c. c.0 };

    ghost inverse = { λ code. record { 0 = code } };
}

/// Returns whether a text has 2 octets, or at least 6. Each text that names a class does.
///
/// Most words that name a type have another length.
#[inline(always)]
fn is_class_long(text: &[u8]) -> bool
    ensures { result ≡ false → (c : Class) → SpellsClass text.now c → ⊥ }
{
    text.len() == 2 || text.len() > 5
}

/// Returns whether a text is the name of a common type of 2 octets, in capital letters. No such text
/// names a class. A class is searched for at the place of a type if a record has no class.
#[inline(always)]
fn is_common_type(text: &[u8]) -> bool
    ensures { IsTrue result → (c : Class) → SpellsClass text.now c → ⊥ }
{
    if is_name(text, b"NS") {
        return true;
    }
    if is_name(text, b"MX") {
        return true;
    }
    if is_name(text, b"DS") {
        return true;
    }
    false
}

impl Class {
    /// Class IN, the Internet (RFC 1035 section 3.2.4).
    pub const IN: Class = Class(1);

    /// Class CH, CHAOS (RFC 1035 section 3.2.4).
    pub const CH: Class = Class(3);

    /// Class HS, Hesiod (RFC 1035 section 3.2.4).
    pub const HS: Class = Class(4);

    /// Parses a class, in any case: `IN` or `CLASS1`. Fails with `UnknownClass` for any other text.
    pub fn from_text(text: &[u8]) -> Result<Class, ErrorKind>
        ensures { ReadsKind SpellsClass UnknownClass text.now result }
    {
        if !is_class_long(text) {
            return Err(ErrorKind::UnknownClass);
        }
        if is_name(text, b"IN") {
            return Ok(Class::IN);
        }
        if is_common_type(text) {
            return Err(ErrorKind::UnknownClass);
        }
        match code_from_text(&CLASSES, "CLASS", u16::MAX, text, ErrorKind::UnknownClass) {
            Ok(code) => Ok(Class(code)),
            Err(why) => Err(why),
        }
    }

    /// Returns the name of the class, if it has one.
    pub fn name(&self) -> Option<&'static str>
        ensures { option_copied result ≡ row_name class_rows self.now }
    {
        name_of(&CLASSES, self.0)
    }
}

impl fmt::Display for Class {
    ghost output = { λ c. Some (class_text c) };

    fn fmt<W: fmt::Write>(&self, f: &mut fmt::Formatter<W>) -> fmt::Result {
        match self.name() {
            Some(name) => f.write_str(name),
            None => write!(f, "CLASS{}", self.0),
        }
    }
}

/// States that a class that is printed and parsed is the same class. Does nothing.
pub fn classes_are_read_back()
    ensures { ClassesAreKind }
{}
