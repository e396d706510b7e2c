//! Zone files: their entries, pieces, records and positions.
ghost use Rattle.c_calls.specs.Entries.{NextEntry};
ghost use Rattle.c_calls.specs.Generates.{GeneratesEntry};
ghost use Rattle.std.specs.Prelude.{◌≡◌, ◌≤◌, length};
ghost use Rattle.c_calls.specs.Kept.{SetsOrigin, first_zone};
ghost use Rattle.c_calls.specs.Pieces.{NextPiece};
ghost use Rattle.c_calls.specs.Places.{MovesPosition, ReportsPosition};
ghost use Rattle.c_calls.specs.RecordPrinting.{PrintsRecord};
ghost use Rattle.c_calls.specs.Records.{NextRecord, memory};
ghost use Rattle.c_calls.specs.WholeEntries.{EndsWhole};

use c_calls::generate::generate_entry;
use c_calls::kept::{Zone, zone_init, zone_origin};
use c_calls::outcome::Outcome;
use c_calls::pieces::{CursorState, Piece, tokens_next};
use c_calls::position::{Position, line_and_column, position_move};
use c_calls::record_printing::record_print;
use c_calls::records::{Record, record_next};
use c_calls::tokens::{Cursor, Token, entry_next};
use c_calls::whole_entries::entries_len;

/// Returns the tokens of the next entry: [`entry_next`].
#[unsafe(no_mangle)]
pub extern "C" fn dnstext_entry_next(
    text: &[u8],
    cursor: &mut Cursor,
    tokens: &mut [Token],
    outcome: &mut Outcome,
) -> u32
    ensures { NextEntry text.now cursor.old cursor.new tokens.old tokens.new result outcome.new }
{
    entry_next(text, cursor, tokens, outcome)
}

/// Returns the next piece: [`tokens_next`].
#[unsafe(no_mangle)]
pub extern "C" fn dnstext_tokens_next(
    text: &[u8],
    standing: &mut CursorState,
    piece: &mut Piece,
    outcome: &mut Outcome,
) -> u32
    ensures { NextPiece text.now standing.old standing.new piece.old piece.new result outcome.new }
{
    tokens_next(text, standing, piece, outcome)
}

/// Sets a zone to the state at the start of a text: [`zone_init`].
#[unsafe(no_mangle)]
pub extern "C" fn dnstext_zone_init(zone: &mut Zone) -> u32
    ensures { (result ≡ 0) × (zone.new ≡ first_zone) }
{
    zone_init(zone)
}

/// Sets the origin of a zone: [`zone_origin`].
#[unsafe(no_mangle)]
pub extern "C" fn dnstext_zone_origin(zone: &mut Zone, name: &[u8], outcome: &mut Outcome) -> u32
    ensures { SetsOrigin name.now zone.old zone.new result outcome.new }
{
    zone_origin(zone, name, outcome)
}

/// Returns the next record: [`record_next`].
#[unsafe(no_mangle)]
pub extern "C" fn dnstext_record_next(
    text: &[u8],
    zone: &mut Zone,
    found: &mut Record,
    octets: &mut [u8],
    outcome: &mut Outcome,
) -> u32
    ensures { NextRecord text.now (record {
      before = memory zone.old found.old octets.old;
      after = memory zone.new found.new octets.new;
      status = result;
      outcome = outcome.new;
    }) }
{
    record_next(text, zone, found, octets, outcome)
}

/// Prints a record: [`record_print`].
#[unsafe(no_mangle)]
pub extern "C" fn dnstext_record_print(
    found: &Record,
    octets: &[u8],
    text: &mut [u8],
    outcome: &mut Outcome,
) -> u32
    ensures { PrintsRecord found.now octets.now text.old result text.new outcome.new }
{
    record_print(found, octets, text, outcome)
}

/// Returns how many octets are whole entries: [`entries_len`].
#[unsafe(no_mangle)]
pub extern "C" fn dnstext_entries_len(text: &[u8], whole: &mut usize) -> u32
    ensures status { result ≡ 0 }
    ensures whole { EndsWhole text.now whole.new }
    ensures within { whole.new ≤ length text.now }
{
    entries_len(text, whole)
}

/// Writes an entry of a `$GENERATE` directive: [`generate_entry`].
#[unsafe(no_mangle)]
pub extern "C" fn dnstext_generate_entry(
    directive: &[u8],
    index: u64,
    number: &mut u32,
    text: &mut [u8],
    outcome: &mut Outcome,
) -> u32
    ensures { GeneratesEntry directive.now index (record {
      old_number = number.old;
      number = number.new;
      old = text.old;
      text = text.new;
      status = result;
      outcome = outcome.new;
    }) }
{
    generate_entry(directive, index, number, text, outcome)
}

/// Returns the line and the column of an offset: [`line_and_column`].
#[unsafe(no_mangle)]
pub extern "C" fn dnstext_position(
    text: &[u8],
    place: usize,
    line: &mut usize,
    column: &mut usize,
) -> u32
    ensures { ReportsPosition text.now place result (line.old, column.old) (line.new, column.new) }
{
    line_and_column(text, place, line, column)
}

/// Moves a position to another offset: [`position_move`].
#[unsafe(no_mangle)]
pub extern "C" fn dnstext_position_move(text: &[u8], position: &mut Position, offset: usize) -> u32
    ensures { MovesPosition text.now offset result position.old position.new }
{
    position_move(text, position, offset)
}
