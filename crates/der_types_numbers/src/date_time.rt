//! Dates and times in UTC.

ghost use Rattle.std.specs.Prelude.{◌≡◌, ◌↔◌, ◌*◌, ◌/◌, ◌≤◌, ◌<◌, true, IsTrue, IsOk, IfOk, IfErr};
ghost use Rattle.std.specs.Prelude.{pos, ◌+◌, ◌≤ℤ◌};
ghost use Rattle.std.specs.Duration.{as_nanos};
ghost use Rattle.der_core.specs.Dates.{Civil, days_in_month, is_civil};
ghost use Rattle.der_types_numbers.specs.Seconds.{unix_days, unix_seconds, last_second};
ghost use Rattle.jiff_core.specs.Date.{epoch_day};

use crate::date_text::{date_of_text, text_of_date};
use der_core::{Error, ErrorKind};
use jiff_core::civil::Date;
use std::fmt;
use std::marker::Model;
use std::str::FromStr;
use std::time::Duration;

/// The last second of the year 9999, counted from 1970-01-01T00:00:00Z.
const LAST_SECOND: u64 = 253_402_300_799;

/// A date and a time in UTC, to the second, from 1970-01-01T00:00:00Z to 9999-12-31T23:59:59Z.
///
/// In contracts, its value is the year, month, day, hour, minute and second. Values are ordered by
/// time. The encoding of a `DateTime` is a GeneralizedTime (X.690 11.7).
#[derive(Clone, Copy, Debug, PartialEq, Eq, PartialOrd, Ord, Hash)]
pub struct DateTime {
    year: u16,
    month: u8,
    day: u8,
    hour: u8,
    minutes: u8,
    seconds: u8,
}

impl Model for DateTime {
    ghost use Rattle.der_core.specs.Dates.{Civil};

    ghost Value = { Civil };

    ghost use Rattle.der_types_numbers.specs.DateTimes.{civil_of, IsDate, inside_of};

    ghost view = { civil_of };

    ghost invariant = { IsDate };

    ghost inverse = { inside_of };
}

/// Returns the number of days of a month. January is 1.
fn month_length(year: u16, month: u8) -> u8
    ensures { result ≡ days_in_month year month }
{
    match month {
        2 if year % 4 == 0 && (year % 100 != 0 || year % 400 == 0) => 29,
        2 => 28,
        4 | 6 | 9 | 11 => 30,
        _ => 31,
    }
}

/// Returns the year of a day of the calendar from 1970 on.
fn unsigned_year(date: Date) -> u16
    requires { pos 0 ≤ℤ epoch_day date }
    ensures { pos result ≡ date.year }
{
    date.year as u16
}

impl DateTime {
    /// 9999-12-31T23:59:59Z, the last date, which RFC 5280 4.1.2.5 uses for a certificate without
    /// an expiration date.
    pub const INFINITY: DateTime = DateTime {
        year: 9999,
        month: 12,
        day: 31,
        hour: 23,
        minutes: 59,
        seconds: 59,
    };

    /// Returns the date with this day, from 1970 to 9999, and this time.
    ///
    /// # Errors
    ///
    /// - `DateTime`: there is no such date or time, or the year is before 1970 or after 9999. Leap
    ///   seconds, such as second 60, are rejected.
    pub fn new(
        year: u16,
        month: u8,
        day: u8,
        hour: u8,
        minutes: u8,
        seconds: u8,
    ) -> Result<DateTime, Error>
        ensures dates { IsOk result
            ↔
            (is_civil
            (record {
              year = year;
              month = month;
              day = day;
              hour = hour;
              minute = minutes;
              second = seconds;
            }) ≡ true) }
        ensures ok { IfOk result
            (λ d. d ≡ record {
              year = year;
              month = month;
              day = day;
              hour = hour;
              minute = minutes;
              second = seconds;
            }) }
        ensures err { IfErr result (λ e. e.kind ≡ ErrorKind.DateTime) }
    {
        let in_range = (1970..=9999).contains(&year) && (1..=12).contains(&month);
        if in_range
            && 1 <= day
            && day <= month_length(year, month)
            && hour < 24
            && minutes < 60
            && seconds < 60
        {
            Ok(DateTime {
                year,
                month,
                day,
                hour,
                minutes,
                seconds,
            })
        } else {
            Err(Error::from(ErrorKind::DateTime))
        }
    }

    /// Returns the year, from 1970 to 9999.
    pub fn year(&self) -> u16
        ensures value { result ≡ self.now.year }
        ensures bound { result ≤ 9999 }
    {
        self.year
    }

    /// Returns the month, from 1 for January to 12.
    pub fn month(&self) -> u8
        ensures value { result ≡ self.now.month }
        ensures bound { result ≤ 12 }
    {
        self.month
    }

    /// Returns the day of the month. The first is 1.
    pub fn day(&self) -> u8
        ensures value { result ≡ self.now.day }
        ensures bound { result ≤ 31 }
    {
        self.day
    }

    /// Returns the hour, from 0 to 23.
    pub fn hour(&self) -> u8
        ensures value { result ≡ self.now.hour }
        ensures bound { result ≤ 23 }
    {
        self.hour
    }

    /// Returns the minute, from 0 to 59.
    pub fn minutes(&self) -> u8
        ensures value { result ≡ self.now.minute }
        ensures bound { result ≤ 59 }
    {
        self.minutes
    }

    /// Returns the second, from 0 to 59.
    pub fn seconds(&self) -> u8
        ensures value { result ≡ self.now.second }
        ensures bound { result ≤ 59 }
    {
        self.seconds
    }

    /// Returns the day of the calendar.
    fn date(&self) -> Date
        ensures { epoch_day result ≡ pos (unix_days self.now) }
    {
        Date {
            year: self.year as i16,
            month: self.month,
            day: self.day,
        }
    }

    /// Returns whether UTCTime can represent the date, which holds through 2049.
    pub(crate) fn is_before_2050(&self) -> bool
        ensures year { IsTrue result ↔ (self.now.year ≤ 2049) }
        ensures seconds { IsTrue result ↔ (unix_seconds self.now < 2_524_608_000) }
    {
        self.year < 2050
    }

    /// Returns the number of seconds since 1970-01-01T00:00:00Z, without leap seconds, from 0 to
    /// 253402300799.
    #[tactic(auto, unfolding(crate::specs::Seconds::unix_seconds))]
    pub fn unix_seconds(&self) -> u64
        ensures value { result ≡ unix_seconds self.now }
        ensures bound { result ≤ last_second }
    {
        let days = self.date().to_unix_epoch_day() as u64;
        86400 * days
            + 3600 * u64::from(self.hour)
            + 60 * u64::from(self.minutes)
            + u64::from(self.seconds)
    }

    /// Returns the time since 1970-01-01T00:00:00Z, without leap seconds.
    pub fn unix_duration(&self) -> Duration
        ensures { as_nanos result ≡ unix_seconds self.now * 1_000_000_000 }
    {
        Duration::from_secs(self.unix_seconds())
    }

    /// Returns the date this many seconds after 1970-01-01T00:00:00Z, without leap seconds.
    ///
    /// # Errors
    ///
    /// - `DateTime`: there are more than 253402300799 seconds, so the date is after
    ///   9999-12-31T23:59:59Z.
    pub fn from_unix_seconds(seconds: u64) -> Result<DateTime, Error>
        ensures range { IsOk result ↔ (seconds ≤ last_second) }
        ensures ok { IfOk result (λ d. unix_seconds d ≡ seconds) }
        ensures err { IfErr result (λ e. e.kind ≡ ErrorKind.DateTime) }
    {
        if seconds > LAST_SECOND {
            return Err(Error::from(ErrorKind::DateTime));
        }
        let Ok(date) = Date::from_unix_epoch_day((seconds / 86400) as i64) else {
            return Err(Error::from(ErrorKind::DateTime));
        };
        let second = seconds % 86400;
        DateTime::new(
            unsigned_year(date),
            date.month,
            date.day,
            (second / 3600) as u8,
            (second / 60 % 60) as u8,
            (second % 60) as u8,
        )
    }

    /// Returns the date this long after 1970-01-01T00:00:00Z, without leap seconds. A fraction of a
    /// second is dropped.
    ///
    /// # Errors
    ///
    /// - `DateTime`: the date is after 9999-12-31T23:59:59Z.
    pub fn from_unix_duration(duration: Duration) -> Result<DateTime, Error>
        ensures range { IsOk result ↔ (as_nanos duration < (last_second + 1) * 1_000_000_000) }
        ensures ok { IfOk result (λ d. unix_seconds d ≡ as_nanos duration / 1_000_000_000) }
        ensures err { IfErr result (λ e. e.kind ≡ ErrorKind.DateTime) }
    {
        DateTime::from_unix_seconds(duration.as_secs())
    }
}

/// Parses a text of exactly the form `YYYY-MM-DDTHH:MM:SSZ` (RFC 3339 5.6, without fractions and
/// other time zones).
impl FromStr for DateTime {
    ghost use Rattle.der_types_numbers.specs.DateTexts.{ReadsDate};

    type Err = Error;

    ghost from_str_gives = { ReadsDate };

    fn from_str(text: &str) -> Result<DateTime, Error> {
        match date_of_text(text.as_bytes()) {
            Some(date) => Ok(date),
            None => Err(Error::from(ErrorKind::DateTime)),
        }
    }
}

/// Prints the text `YYYY-MM-DDTHH:MM:SSZ`.
impl fmt::Display for DateTime {
    ghost use Rattle.std.specs.Prelude.{Some};
    ghost use Rattle.der_types_numbers.specs.DateTexts.{date_text};

    ghost output = { λ date. Some (date_text date) };

    fn fmt<W: fmt::Write>(&self, f: &mut fmt::Formatter<W>) -> fmt::Result {
        let octets = text_of_date(*self);
        match str::from_utf8(&octets) {
            Ok(text) => f.write_str(text),
            Err(_) => Err(fmt::Error),
        }
    }
}
