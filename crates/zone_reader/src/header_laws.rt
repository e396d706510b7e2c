//! Laws about the header of an entry: its TTL, class and type.
ghost use Rattle.zone_reader.specs.HeaderWords.{HeadWordsApart};
ghost use Rattle.zone_reader.specs.HeaderLaws.{HeadsFoundOnce, WordsFoundOnce, EntriesHaveOneMeaning, ParsedEntriesHaveMeaning};

/// States that no word is two of a TTL, a class and a type, and does nothing else.
pub fn words_are_apart()
    ensures { HeadWordsApart }
{}

/// States that the TTL, class and type of a record entry, and why they are rejected, are found in
/// one way, and does nothing else.
pub fn heads_are_found_once()
    ensures heads { HeadsFoundOnce }
    ensures words { WordsFoundOnce }
{}

/// States that the tokens of an entry have one meaning, and that it is what the calls of this crate
/// parse of them; and does nothing else.
pub fn entries_have_one_meaning()
    ensures once { EntriesHaveOneMeaning }
    ensures taken { ParsedEntriesHaveMeaning }
{}
