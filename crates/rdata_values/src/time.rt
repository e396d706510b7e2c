//! Times of signatures, as dates and as seconds since 1970 began (RFC 4034 section 3.2).
ghost use Rattle.std.specs.Prelude.{◌≡◌, ◌<◌, ◌≤◌, ◌+◌, ◌-◌, ◌*◌, ◌/◌, ◌%◌, ◌^◌, ◌↔◌, length, IsTrue, Some, SomeIff};
ghost use Rattle.std.specs.Str.Parse.{AllDigits, digits_value};
ghost use Rattle.rdata_values.specs.Kind.{ReadsKind};
ghost use Rattle.rdata_values.specs.Time.{is_leap, month_days, year_days, days_before_year, days_before_month, IsDate, seconds_at, field_at, date_of, IsDateText, date_text, FindsSeconds, SpellsDate, date_at, SecondsHaveDates, DatesAreKind};
ghost use Rattle.rdata_values.specs.declared.error.ErrorKind.TheVariants.{ExpectedTime};

use crate::error::ErrorKind;
use crate::numbers::{are_digits, number_from_text};
use std::fmt;

/// A second of the Gregorian calendar, in UTC. It prints as YYYYMMDDHHmmSS.
#[derive(Clone, Copy)]
pub struct Date {
    pub year: u16,
    pub month: u8,
    pub day: u8,
    pub hour: u8,
    pub minute: u8,
    pub second: u8,
}

fn is_leap_year(year: u16) -> bool
    ensures { result ≡ is_leap year }
{
    year % 4 == 0 && (year % 100 != 0 || year % 400 == 0)
}

fn days_in_month(year: u16, month: u8) -> u32
    requires from { 1 ≤ month }
    requires to { month ≤ 12 }
    ensures value { result ≡ month_days year month }
    ensures few { result ≤ 31 }
{
    match month {
        2 if is_leap_year(year) => 29,
        2 => 28,
        4 | 6 | 9 | 11 => 30,
        _ => 31,
    }
}

fn days_to_year(year: u16) -> u32
    requires { 1970 ≤ year }
    ensures { result ≡ days_before_year year }
{
    let last = u32::from(year) - 1;
    (last - 1969) * 365 + last / 4 + last / 400 - last / 100 - 477
}

fn days_to_month(year: u16, month: u8) -> u32
    requires from { 1 ≤ month }
    requires to { month ≤ 12 }
    ensures { result ≡ days_before_month year month }
{
    let mut days = 0;
    for earlier in 1..month {
        days += days_in_month(year, earlier);
    }
    days
}

/// Returns the year of a day, and the number of days of that year before it. `days` counts the days
/// from the beginning of 1970.
fn year_of(days: u32) -> (u16, u32)
    requires { days < 50000 }
    ensures from { 1970 ≤ result.0 }
    ensures to { result.0 < 10000 }
    ensures same { days_before_year result.0 + result.1 ≡ days }
    ensures within { result.1 < year_days result.0 }
{
    let mut year = 1970 + (days / 366) as u16;
    while days_to_year(year + 1) <= days {
        year += 1;
    }
    (year, days - days_to_year(year))
}

/// Returns the month of a day, and its day of that month. `days` counts the days of its year before
/// it.
fn month_of(year: u16, days: u32) -> (u8, u8)
    requires { days < year_days year }
    ensures from { 1 ≤ result.0 }
    ensures to { result.0 ≤ 12 }
    ensures first { 1 ≤ result.1 }
    ensures last { result.1 ≤ month_days year result.0 }
    ensures same { days_before_month year result.0 + (result.1 - 1) ≡ days }
{
    let mut month = 1;
    let mut rest = days;
    while rest >= days_in_month(year, month) {
        rest -= days_in_month(year, month);
        month += 1;
    }
    (month, rest as u8 + 1)
}

/// Returns the first of the two decimal digits of a number.
fn tens(number: u8) -> u8
    ensures { result ≡ 48 + number / 10 }
{
    b'0' + number / 10
}

/// Returns the second of the two decimal digits of a number.
fn units(number: u8) -> u8
    ensures { result ≡ 48 + number % 10 }
{
    b'0' + number % 10
}

impl Date {
    /// Returns the date of a second, counted from the beginning of 1970.
    pub fn from_seconds(seconds: u32) -> Self
        ensures valid { IsDate result }
        ensures same { seconds_at result ≡ seconds }
        ensures date { result ≡ date_at seconds }
    {
        let (year, day_of_year) = year_of(seconds / 86400);
        let (month, day) = month_of(year, day_of_year);
        let rest = seconds % 86400;
        Date {
            year,
            month,
            day,
            hour: (rest / 3600) as u8,
            minute: (rest / 60 % 60) as u8,
            second: (rest % 60) as u8,
        }
    }

    /// Parses a time: fourteen digits of a date from 1970 on, or at most ten digits of the seconds
    /// themselves. The seconds of a date are then modulo 2^32 (RFC 4034 section 3.1.5). Fails with
    /// `ExpectedTime` for any other text.
    pub fn from_text(text: &[u8]) -> Result<Date, ErrorKind>
        ensures { ReadsKind SpellsDate ExpectedTime text.now result }
    {
        match seconds_from_text(text) {
            Some(seconds) => Ok(Date::from_seconds(seconds)),
            None => Err(ErrorKind::ExpectedTime),
        }
    }

    /// Returns whether this is a date from 1970 on, and a time of that day.
    pub fn is_valid(&self) -> bool
        ensures { IsTrue result ↔ IsDate self.now }
    {
        self.year >= 1970
            && self.year < 10000
            && self.month >= 1
            && self.month <= 12
            && self.day >= 1
            && u32::from(self.day) <= days_in_month(self.year, self.month)
            && self.hour < 24
            && self.minute < 60
            && self.second < 60
    }

    /// Returns the seconds from the beginning of 1970, modulo 2^32.
    pub fn seconds(&self) -> u32
        requires { IsDate self.now }
        ensures { result ≡ seconds_at self.now % 2 ^ 32 }
    {
        let days = days_to_year(self.year)
            + days_to_month(self.year, self.month)
            + (u32::from(self.day) - 1);
        let hours = u64::from(days) * 24 + u64::from(self.hour);
        let minutes = hours * 60 + u64::from(self.minute);
        let seconds = minutes * 60 + u64::from(self.second);
        (seconds % (1 << 32)) as u32
    }

    /// Returns the date as YYYYMMDDHHmmSS.
    fn text(&self) -> [u8; 14]
        ensures { result ≡ date_text self.now }
    {
        let century = self.year / 100;
        let year = (self.year % 100) as u8;
        [
            b'0' + (century / 10) as u8,
            b'0' + (century % 10) as u8,
            tens(year),
            units(year),
            tens(self.month),
            units(self.month),
            tens(self.day),
            units(self.day),
            tens(self.hour),
            units(self.hour),
            tens(self.minute),
            units(self.minute),
            tens(self.second),
            units(self.second),
        ]
    }
}

impl fmt::Display for Date {
    ghost output = { λ d. Some (date_text d) };

    fn fmt<W: fmt::Write>(&self, f: &mut fmt::Formatter<W>) -> fmt::Result {
        let text = self.text();
        f.write_str(str::from_utf8(&text).map_err(|_| fmt::Error)?)
    }
}

/// Returns the number that at most four digits write.
#[tactic(auto, using(crate::proofs::NumberLemmas::digit_more))]
fn number_of(digits: &[u8]) -> u16
    requires digits { AllDigits 10 digits.now }
    requires few { length digits.now ≤ 4 }
    ensures value { result ≡ digits_value 10 digits.now }
    ensures small { result < 10 ^ length digits.now }
{
    let mut number = 0;
    for digit in digits {
        number = number * 10 + u16::from(*digit - b'0');
    }
    number
}

/// Returns the number that two digits of a text write.
#[tactic(auto, using(crate::proofs::NumberLemmas::digits_drop, crate::proofs::NumberLemmas::digits_take))]
fn two_at(text: &[u8], from: usize) -> u8
    requires digits { AllDigits 10 text.now }
    requires within { from + 2 ≤ length text.now }
    ensures { result ≡ field_at text.now from (from + 2) }
{
    number_of(&text[from..from + 2]) as u8
}

/// Parses a date of fourteen digits.
fn date_from_text(text: &[u8]) -> Option<Date>
    ensures { SomeIff result (IsDateText text.now) (date_of text.now) }
{
    if text.len() != 14 || !are_digits(text) {
        return None;
    }
    let date = Date {
        year: number_of(&text[..4]),
        month: two_at(text, 4),
        day: two_at(text, 6),
        hour: two_at(text, 8),
        minute: two_at(text, 10),
        second: two_at(text, 12),
    };
    if date.is_valid() { Some(date) } else { None }
}

/// Parses a time as seconds: those of a date of fourteen digits, or the number in at most ten
/// digits.
fn seconds_from_text(text: &[u8]) -> Option<u32>
    ensures { FindsSeconds text.now result }
{
    if text.len() <= 10 {
        return number_from_text(text);
    }
    match date_from_text(text) {
        Some(date) => Some(date.seconds()),
        None => None,
    }
}

/// States that a time that is printed and parsed is the same time. Does nothing.
pub fn times_are_read_back()
    ensures { DatesAreKind }
{}

/// States that each second has a date, and each date its second. Does nothing.
pub fn seconds_have_dates()
    ensures { SecondsHaveDates }
{}
