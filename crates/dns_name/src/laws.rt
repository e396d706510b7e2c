//! Laws of names and their presentation format.
ghost use Rattle.std.specs.Prelude.{ℕ, ◌≡◌, ◌↔◌, ◌⊎◌, true, map, Result, Ok, Err, encode_utf8_all};
ghost use Rattle.std.specs.Hash as fed;
ghost use Rattle.std.specs.List.{flat_map};
ghost use Rattle.dns_octets.specs.Lowered.{lowered};
ghost use Rattle.dns_octets.specs.Room.{Room, exactly};
ghost use Rattle.dns_wire.specs.Order.{lowered_wire};
ghost use Rattle.dns_wire.specs.Printed.{dotted_text};
ghost use Rattle.dns_wire.specs.ZoneText.{zone_text};
ghost use Rattle.dns_name.specs.Reading.{ReadsAs, ReadsName};
ghost use Rattle.dns_name.specs.Uncertain.{labels_of, is_absolute, same_uncertain, MakesUncertain};
ghost use Rattle.dns_name.specs.declared.name.UncertainName.{UncertainName};
ghost use Rattle.dns_name.specs.declared.name.error.FromStrError.{FromStrError};
ghost use Rattle.dns_name.specs.declared.name.error.FromStrError.TheVariants.{ShortBuf};
ghost use Rattle.dns_name.specs.declared.name.error.UncertainDnameError.{UncertainDnameError};

use crate::name::UncertainName;
use dns_octets::AsOctets;

/// The printed text of a name parses as the same name: with the same labels, and absolute exactly
/// if it is.
pub fn printed_name_reads_back<Octets: AsOctets>(name: &UncertainName<Octets>)
    ensures { ReadsAs (encode_utf8_all (dotted_text (labels_of name.now))) name.now }
{
    let _slice = name.as_slice();
    let _octets = AsOctets::as_slice(name);
}

/// The zone file text of a name parses as the same name, whatever octets its labels have. An empty
/// relative name prints as the empty text, which parses as it.
pub fn zone_text_reads_back<Octets: AsOctets>(name: &UncertainName<Octets>)
    ensures { ReadsAs (zone_text (labels_of name.now)) name.now }
{
    let _slice = name.as_slice();
    let _octets = AsOctets::as_slice(name);
}

/// A text parses as at most one name.
pub fn texts_have_one_name<Octets: AsOctets>(text: &str, name: &UncertainName<Octets>)
    ensures { (other : UncertainName Octets)
        → ReadsAs text.now name.now → ReadsAs text.now other → other ≡ name.now }
{
    let _text = text;
    let _name = name;
}

/// For any capacity, a text that parses as a name is parsed as that name, or fails with `ShortBuf`.
pub fn names_are_read<Octets: AsOctets>(text: &str, name: &UncertainName<Octets>)
    ensures { (room : Room) (answer : Result (UncertainName Octets) FromStrError)
        → ReadsName room text.now answer → ReadsAs text.now name.now → (answer ≡ Ok name.now) ⊎ (answer ≡ Err ShortBuf) }
{
    let _text = text;
    let _name = name;
}

/// If the capacity is known exactly, parsing a text has at most one result: a name or an error.
pub fn texts_have_one_answer<Octets: AsOctets>(text: &str)
    ensures { (size : ℕ) (left right : Result (UncertainName Octets) FromStrError)
        → ReadsName (exactly size) text.now left → ReadsName (exactly size) text.now right → left ≡ right }
{
    let _text = text;
}

/// Parsing octets has at most one result: a name of one kind, or an error.
pub fn octets_have_one_answer<Octets: AsOctets>(octets: &[u8])
    ensures { (left right : Result (UncertainName Octets) UncertainDnameError)
        → MakesUncertain octets.now left → MakesUncertain octets.now right → left ≡ right }
{
    let _octets = octets;
}

/// Names are equal exactly if they are of the same kind and their labels agree in lower case. Equal
/// names have equal hashes.
pub fn equal_names<Octets: AsOctets>(left: &UncertainName<Octets>, right: &UncertainName<Octets>)
    ensures equal { (same_uncertain left.now right.now ≡ true)
        ↔ ((is_absolute left.now ≡ is_absolute right.now) × (map lowered (labels_of left.now) ≡ map lowered (labels_of right.now))) }
    ensures hash { same_uncertain left.now right.now ≡ true
        → flat_map fed.u8 (lowered_wire (labels_of left.now)) ≡ flat_map fed.u8 (lowered_wire (labels_of right.now)) }
{
    let _left = left;
    let _right = right;
}
