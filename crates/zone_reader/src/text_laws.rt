//! Laws of what is read of a whole text.
ghost use Rattle.zone_reader.specs.Faults.{EntriesHaveNoFaults, FaultsAreReported};
ghost use Rattle.zone_reader.specs.Included.{FilesAreAppended};
ghost use Rattle.zone_reader.specs.TextPieces.{EndedEntriesStay, PiecesAreReadOn, PiecesAreIndependent};
ghost use Rattle.zone_reader.specs.WholeTexts.{CallsEnd, ReadEntriesAreSplit, RecordsEndRows, RowsJoin, NoCallIsBlank};
ghost use Rattle.zone_reader.specs.WholeTexts.{TextsAreRead, TextsAreReadToTheEnd};

/// States that calls of [`next_entry`](crate::RecordReader::next_entry) one after another, from a
/// text's start on, return the entries of the text in order: each is read by its own tokens, and by
/// the state that all before it leave. If the last call returns `None`, nothing is left. It does
/// nothing else.
pub fn texts_are_read_entry_by_entry()
    ensures first { TextsAreRead }
    ensures all { TextsAreReadToTheEnd }
{}

/// States that the entries of a text that splits are those that it splits into. It does nothing else.
pub fn read_entries_are_split()
    ensures { ReadEntriesAreSplit }
{}

/// States that reading may stop after an entry and continue there: a reader that starts where calls
/// have stopped, with the state that they left, is in the same state as theirs. What is left is
/// what the octets from there on have alone, with later offsets. It does nothing else.
pub fn texts_are_read_in_pieces()
    ensures on { PiecesAreReadOn }
    ensures alone { PiecesAreIndependent }
{}

/// States that the entries of octets up to one that is not the last stay the same, whatever octets
/// follow. It does nothing else.
pub fn ended_entries_stay()
    ensures { EndedEntriesStay }
{}

/// States that rows of calls join, and that a call of
/// [`next_record`](crate::RecordReader::next_record) is a row of calls of
/// [`next_entry`](crate::RecordReader::next_entry). It does nothing else.
pub fn rows_of_calls_join()
    ensures join { RowsJoin }
    ensures records { RecordsEndRows }
{}

/// States that no call returns [`ParsedEntry::Empty`](crate::ParsedEntry::Empty). It does nothing
/// else.
pub fn no_call_is_blank()
    ensures { NoCallIsBlank }
{}

/// States that a call that returns [`ParsedEntry::Include`](crate::ParsedEntry::Include) appends the
/// octets that name the file and those of its origin, which are an absolute name. It does nothing
/// else.
pub fn files_are_appended()
    ensures { FilesAreAppended }
{}

/// States that each call that returns something leaves fewer that will, so that a loop over a
/// text's entries ends. It does nothing else.
pub fn calls_come_to_an_end()
    ensures { CallsEnd }
{}

/// States that no entry is rejected with the kind
/// [`ErrorKind::Syntax`](rdata_values::ErrorKind::Syntax). So an error of this kind is a syntax error
/// of the text, and reading continues after its line. It does nothing else.
pub fn faults_are_known_by_their_kind()
    ensures entries { EntriesHaveNoFaults }
    ensures calls { FaultsAreReported }
{}
