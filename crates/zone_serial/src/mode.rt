//! How the next serial is determined.
ghost use Rattle.std.specs.Prelude.{◌≡◌, ◌+◌, ◌↔◌, IsTrue};
ghost use Rattle.rdata_values.specs.Time.{date_at};
ghost use Rattle.zone_serial.specs.NextSerials.{IsDatedUpTo};
ghost use Rattle.zone_serial.specs.declared.mode.SerialMode.TheVariants.{Dated, Increment};

use rdata_values::Date;

/// How the next serial is determined.
#[derive(Clone, Copy)]
pub enum SerialMode {
    /// The date of a second, counted from the beginning of 1970, and 01: YYYYMMDD01.
    Dated(u32),
    /// The seconds from the beginning of 1970.
    UnixTime(u32),
    /// The serial plus 1, where 1 is after the greatest serial.
    Increment,
    /// A number.
    Set(u32),
}

/// Returns whether a serial is YYYYMMDDnn, for a day from 1980 up to the end of a year.
fn is_dated(serial: u32, last: u16) -> bool
    ensures { IsTrue result ↔ IsDatedUpTo last serial }
{
    let year = serial / 1_000_000;
    let date = Date {
        year: year as u16,
        month: (serial / 10_000 % 100) as u8,
        day: (serial / 100 % 100) as u8,
        hour: 0,
        minute: 0,
        second: 0,
    };
    year >= 1980 && year <= u32::from(last) && date.is_valid()
}

/// Returns the mode for a serial if none is chosen: by the date if the serial is YYYYMMDDnn for a day
/// from 1980 up to the end of next year, and otherwise the serial plus 1. `now` is the time in
/// seconds, from the beginning of 1970.
pub fn usual_mode(old: u32, now: u32) -> SerialMode
    ensures dated { IsDatedUpTo ((date_at now).year + 1) old → result ≡ Dated now }
    ensures other { (IsDatedUpTo ((date_at now).year + 1) old → ⊥) → result ≡ Increment }
{
    if is_dated(old, Date::from_seconds(now).year + 1) {
        SerialMode::Dated(now)
    } else {
        SerialMode::Increment
    }
}
