//! Laws about the results of calls. Each function's contract is the law; calling one does nothing.
ghost use Rattle.c_calls.specs.Calls.{CallsReportEntries, CallsReportOpener, CallsReportTokens};
ghost use Rattle.c_calls.specs.EnoughRoom.{CallsReportEnoughRoom};
ghost use Rattle.c_calls.specs.Entries.{EntriesInARow};
ghost use Rattle.c_calls.specs.Pieces.{PieceCallsReportPieces, PieceCallsReportTokens};
ghost use Rattle.c_calls.specs.RecordCalls.{RecordCallsReturnAll};

/// States that a text of the grammar is read entry by entry: in a row from its start on, its entries
/// have exactly the tokens of its pieces, cut where entries end, and the last one is flagged.
pub fn entries_in_a_row()
    ensures { EntriesInARow }
{}

/// States that calls for the next entry, one after another from a text's start until the text is
/// done, return exactly what the text has: the words and quoted texts of its entries, and its syntax
/// error. A call that fails must have capacity for one token more than it returned. The pieces of a
/// text are one list (`octets_are_read_one_way` of `dns_lexer`). If the text splits, the tokens'
/// octets are its entries.
pub fn calls_report_all()
    ensures entries { CallsReportEntries }
    ensures tokens { CallsReportTokens }
    ensures opened { CallsReportOpener }
{}

/// States that calls for the next piece, one after another from a text's start until the text is
/// done, return exactly the pieces of the text, and its syntax error. If the text splits, the octets
/// of its words and quoted texts, cut where entries end, are its entries.
pub fn piece_calls_report_all()
    ensures pieces { PieceCallsReportPieces }
    ensures tokens { PieceCallsReportTokens }
{}

/// States that calls for the next record, one after another from a text's start until nothing is
/// left, each with a buffer that is large enough, return exactly the records, files and errors that
/// one [`RecordReader`](zone_reader::RecordReader) returns for the whole text, in order, and then
/// nothing. None of them rejects the zone.
pub fn record_calls_return_all()
    ensures { RecordCallsReturnAll }
{}

/// States of each call that fills a buffer: its status is [`NoRoom`](crate::outcome::Refusal::NoRoom)
/// only if its result is longer than the buffer, and then the buffer is unchanged. If it is called
/// again with the same input, and with a buffer as long as the outcome's length or longer, its status
/// is another one. Only the call for the next entry writes to the buffer in that case: the first tokens.
pub fn calls_report_enough_room()
    ensures { CallsReportEnoughRoom }
{}
