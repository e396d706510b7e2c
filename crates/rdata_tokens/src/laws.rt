//! Laws of texts and wire formats.
ghost use Rattle.std.specs.Prelude.{ℕ, ◌≡◌, ◌≢◌, List, [], ◌++◌, All, Option, Some};
ghost use Rattle.dns_lexer.specs.Token.{IsWord};
ghost use Rattle.rdata_tokens.specs.Spelling.{AreOctetValues, SpellsOctetList};
ghost use Rattle.rdata_tokens.specs.Forms.{IsWireString, IsWireTag, SpellsString, SpellsTag, AreSpelled, AreSelfDelimiting};
ghost use Rattle.rdata_tokens.specs.NameSpelling.{SpellsName, IsWireName, IsOrigin};
ghost use Rattle.rdata_tokens.specs.PrintedNames.{wire_name_text};
ghost use Rattle.dns_wire.specs.Wire.{wire, IsName, IsPlain, EndsInRoot};
ghost use Rattle.dns_wire.specs.ZoneText.{zone_text};
ghost use Rattle.rdata_tokens.specs.Shown.{text_in_quotes, string_in_quotes, tag_text};

/// States that octets that print between quotes are parsed back, and that a text spells one list of
/// octets. Does nothing.
pub fn octets_are_read_back()
    ensures { AreSpelled AreOctetValues SpellsOctetList text_in_quotes }
{}

/// States that a character string that is printed and parsed is the same string, and that octets
/// begin with one string at most. Does nothing.
pub fn strings_are_read_back()
    ensures spelled { AreSpelled IsWireString SpellsString string_in_quotes }
    ensures front { AreSelfDelimiting IsWireString }
{}

/// States that a tag that is printed and parsed is the same tag, and that octets begin with one tag
/// at most. Does nothing.
pub fn tags_are_read_back()
    ensures spelled { AreSpelled IsWireTag SpellsTag tag_text }
    ensures front { AreSelfDelimiting IsWireTag }
{}

/// States that a name that is printed and parsed is the same name, whatever the origin is, that
/// octets begin with one name at most, and that a name prints as one word. Does nothing.
pub fn names_are_read_back()
    ensures spelled { (origin : Option (List (List ℕ))) → IsOrigin origin → AreSpelled IsWireName (SpellsName origin) wire_name_text }
    ensures front { AreSelfDelimiting IsWireName }
    ensures word { (form : List ℕ) → IsWireName form → IsWord (wire_name_text form) }
{}

/// States that a name has one text in a zone file, by its labels and by its octets. An absolute
/// name that is printed and parsed is the same name, whatever the origin is. A relative name of one
/// label or more becomes the name with the origin's labels after it. Does nothing.
pub fn zone_texts_are_read_back()
    ensures one { (name : List (List ℕ)) → AreOctetValues (wire name) → wire_name_text (wire name) ≡ zone_text name }
    ensures absolute { (origin : Option (List (List ℕ))) (name : List (List ℕ)) → IsName name → EndsInRoot name → AreOctetValues (wire name)
        → SpellsName origin (zone_text name) (wire name) }
    ensures relative { (origin name : List (List ℕ)) → name ≢ [] → All IsPlain name → IsName (name ++ origin) → EndsInRoot origin → AreOctetValues (wire name)
        → SpellsName (Some origin) (zone_text name) (wire (name ++ origin)) }
{}
