//! The serial after another.
ghost use Rattle.std.specs.Prelude.{◌≡◌, ◌+◌, ◌-◌, ◌^◌, ◌<◌, IfOk};
ghost use Rattle.rdata_values.specs.Time.{date_at};
ghost use Rattle.zone_serial.specs.SerialArithmetic.{IsSerialAfter, serial_sum};
ghost use Rattle.zone_serial.specs.NextSerials.{IsNextFor, IsNextSerial, IsSetTo, day_serial};

use crate::arithmetic::{FARTHEST, after, is_after};
use crate::mode::SerialMode;
use rdata_values::Date;

/// The next serial.
#[derive(Clone, Copy)]
pub struct NextSerial {
    pub serial: u32,
    /// Whether the old serial was increased by 1, since it is ahead of the date or the time.
    pub is_ahead: bool,
}

/// The error of a number that can't be the next serial.
#[derive(Clone, Copy, PartialEq, Eq)]
pub enum SerialError {
    /// The number is the old serial.
    Same,
    /// The number is less than the old serial (RFC 1982 section 3.2).
    Less,
    /// The number is 2^31 from the old serial, so that neither is less.
    Undefined,
}

/// The greatest number of a day, as it is in serials, less the first.
const MORE: u32 = 98;

/// Returns the first serial of a day: YYYYMMDD01.
#[tactic(auto, using(crate::proofs::Days::year_at_most))]
fn serial_of_day(now: u32) -> u32
    ensures first { result ≡ day_serial (date_at now) }
    ensures last { result + 98 < 2 ^ 32 }
{
    let date = Date::from_seconds(now);
    let year = u32::from(date.year) * 1_000_000;
    let month = u32::from(date.month) * 10_000;
    year + month + 100 * u32::from(date.day) + 1
}

/// Returns a number if it is greater than the serial and not 0, and otherwise the serial plus 1, and
/// whether that is not from the number up to `last`.
fn next_for(old: u32, number: u32, last: u32) -> NextSerial
    ensures next { IsNextFor old number last result }
    ensures rises { IsSerialAfter 32 old result.serial }
{
    if number != 0 && is_after(old, number) {
        return NextSerial {
            serial: number,
            is_ahead: false,
        };
    }
    let serial = after(old);
    NextSerial {
        serial,
        is_ahead: serial < number || last < serial,
    }
}

/// Returns the next serial by the date of a second.
fn next_on_day(old: u32, now: u32) -> NextSerial
    ensures next { IsNextFor old (day_serial (date_at now)) (day_serial (date_at now) + 98) result }
    ensures rises { IsSerialAfter 32 old result.serial }
{
    let first = serial_of_day(now);
    next_for(old, first, first + MORE)
}

/// Returns a number if it is greater than the serial.
fn set_to(old: u32, number: u32) -> Result<NextSerial, SerialError>
    ensures set { IsSetTo old number result }
    ensures rises { IfOk result (λ next. IsSerialAfter 32 old next.serial) }
{
    if number == old {
        Err(SerialError::Same)
    } else if is_after(old, number) {
        Ok(NextSerial {
            serial: number,
            is_ahead: false,
        })
    } else if is_after(number, old) {
        Err(SerialError::Less)
    } else {
        Err(SerialError::Undefined)
    }
}

/// Returns the next serial after another. It is greater (RFC 1982), and is 0 only if it is set to 0.
///
/// A number that is set and isn't greater fails with `Same`, `Less` or `Undefined`. There is no other
/// error.
pub fn next_serial(old: u32, mode: SerialMode) -> Result<NextSerial, SerialError>
    ensures next { IsNextSerial old mode result }
    ensures rises { IfOk result (λ next. IsSerialAfter 32 old next.serial) }
{
    match mode {
        SerialMode::Dated(now) => Ok(next_on_day(old, now)),
        SerialMode::UnixTime(now) => Ok(next_for(old, now, now)),
        SerialMode::Increment => Ok(NextSerial {
            serial: after(old),
            is_ahead: false,
        }),
        SerialMode::Set(number) => set_to(old, number),
    }
}

/// Returns the farthest serial that is greater than another: 2^31 - 1 after it.
pub fn farthest_serial(old: u32) -> u32
    ensures { result ≡ serial_sum 32 old (2 ^ 31 - 1) }
{
    old.wrapping_add(FARTHEST)
}
