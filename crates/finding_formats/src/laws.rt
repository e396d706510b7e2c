//! Laws of escaped texts, for all octets, and of findings as they are formatted.
//! Each function's contract is the law; calling it does nothing.
ghost use Rattle.finding_formats.specs.Json.{ObjectsAreLines};
ghost use Rattle.finding_formats.specs.Laws.{AreUtf8, HaveNoControls, PropertiesHaveNoEnd, StringsEndWhereClosed, XmlHasNoMarkup};
ghost use Rattle.finding_formats.specs.Lines.{FindingsAreLines};
ghost use Rattle.finding_formats.specs.Shown.{ShowsEachCharacter};

/// Each escaped text is UTF-8.
pub fn texts_are_utf8()
    ensures { AreUtf8 }
{}

/// No escaped text has a control octet, so that a finding is one line.
pub fn texts_have_no_controls()
    ensures { HaveNoControls }
{}

/// A JSON string ends where it is closed: each double quote in it is escaped.
pub fn strings_end_where_closed()
    ensures { StringsEndWhereClosed }
{}

/// A text in XML has no double quote and no angle bracket.
pub fn xml_has_no_markup()
    ensures { XmlHasNoMarkup }
{}

/// A property of a workflow command has no comma and no colon, which would end it.
pub fn properties_have_no_end()
    ensures { PropertiesHaveNoEnd }
{}

/// Each character of octets is shown as one, so that a caret is under its own.
pub fn each_character_is_shown()
    ensures { ShowsEachCharacter }
{}

/// A finding is formatted as one line for people, for every file name and every message.
pub fn findings_are_lines()
    ensures { FindingsAreLines }
{}

/// A finding is one line as a JSON object.
pub fn objects_are_lines()
    ensures { ObjectsAreLines }
{}
