//! UTCTime.

ghost use Rattle.std.specs.Prelude.{◌≡◌, ◌+◌, ◌*◌, ◌/◌, ◌<◌, ◌≤◌, ◌↔◌, Ok, IsOk, IfOk, IfErr};
ghost use Rattle.std.specs.Prelude.{OnErr, false};
ghost use Rattle.std.specs.Duration.{as_nanos};
ghost use Rattle.der_core.specs.Dates.{IsUtc, utc_octets};
ghost use Rattle.der_core.specs.TagTypes.Tag.TheVariants.{UtcTime as UtcTimeTag};
ghost use Rattle.der_core.specs.Leaves.{utc_time, leaf_read};
ghost use Rattle.der_core.specs.Reading.{GivesNow};
ghost use Rattle.der_types_numbers.specs.Seconds.{unix_seconds, last_second};

use crate::date_text::{date_of, two, two_digits};
use crate::date_time::DateTime;
use der_core::describing::{AsLeaf, Described, EncodeLeaf, Primitive};
use der_core::{Error, ErrorKind, FixedTag, Leaf, Length, Tag, ValueOrd, Writer};
use std::alloc::Global;
use std::cmp::Ordering;
use std::marker::Model;
use std::time::Duration;

/// UTCTime (X.690 11.8, RFC 5280 4.1.2.5.1): `YYMMDDHHMMSSZ`, from 1970 to 2049.
///
/// The years 00 to 49 mean 2000 to 2049, and 70 to 99 mean 1970 to 1999. The years 50 to 69, which
/// would mean 1950 to 1969, are rejected.
///
/// Values are ordered by time. Their contents are ordered otherwise, because `00` for 2000 is less
/// than `99` for 1999.
#[derive(Clone, Copy, Debug, PartialEq, Eq, PartialOrd, Ord, Hash)]
pub struct UtcTime {
    date_time: DateTime,
}

impl Model for UtcTime {
    ghost use Rattle.der_core.specs.Dates.{Civil};

    ghost Value = { Civil };

    ghost use Rattle.der_types_numbers.specs.Times.{utc_civil, IsUtcTime, utc_of};

    ghost view = { utc_civil };

    ghost invariant = { IsUtcTime };

    ghost inverse = { utc_of };
}

impl UtcTime {
    /// The number of content bytes.
    pub const LENGTH: usize = 13;

    /// The last year of UTCTime.
    pub const MAX_YEAR: u16 = 2049;

    /// Returns the time of a date.
    ///
    /// # Errors
    ///
    /// - `Value`: the year is after 2049.
    pub fn from_date_time(date_time: DateTime) -> Result<UtcTime, Error>
        ensures years { IsOk result ↔ (date_time.year ≤ 2049) }
        ensures seconds { IsOk result ↔ (unix_seconds date_time < 2_524_608_000) }
        ensures ok { IfOk result (λ t. t ≡ date_time) }
        ensures err { IfErr result (λ e. e.kind ≡ ErrorKind.Value Tag.UtcTime) }
    {
        if !date_time.is_before_2050() {
            return Err(Error::from(ErrorKind::Value { tag: Tag::UtcTime }));
        }
        Ok(UtcTime { date_time })
    }

    /// Returns the date.
    pub fn to_date_time(&self) -> DateTime
        ensures date { result ≡ self.now }
        ensures years { result.year ≤ 2049 }
    {
        self.date_time
    }

    /// Returns the time this long after 1970-01-01T00:00:00Z. A fraction of a second is dropped.
    ///
    /// # Errors
    ///
    /// - `DateTime`: the time is after 9999-12-31T23:59:59Z.
    /// - `Value`: the year is from 2050 to 9999.
    pub fn from_unix_duration(duration: Duration) -> Result<UtcTime, Error>
        ensures range { IsOk result ↔ (as_nanos duration < 2_524_608_000_000_000_000) }
        ensures ok { IfOk result (λ t. unix_seconds t ≡ as_nanos duration / 1_000_000_000) }
        ensures late { as_nanos duration < (last_second + 1) * 1_000_000_000
            → IfErr result (λ e. e.kind ≡ ErrorKind.Value Tag.UtcTime) }
        ensures no_date { (last_second + 1) * 1_000_000_000 ≤ as_nanos duration
            → IfErr result (λ e. e.kind ≡ ErrorKind.DateTime) }
    {
        let date_time = DateTime::from_unix_duration(duration)?;
        UtcTime::from_date_time(date_time)
    }

    /// Returns the time since 1970-01-01T00:00:00Z, without leap seconds.
    pub fn to_unix_duration(&self) -> Duration
        ensures { as_nanos result ≡ unix_seconds self.now * 1_000_000_000 }
    {
        self.date_time.unix_duration()
    }

    /// Decodes the content of a time, after its tag.
    ///
    /// # Errors
    ///
    /// - `Value`: the bytes aren't a date.
    #[tactic(auto, unfolding(crate::specs::Opened::utc_read))]
    pub fn of_content(tag: Tag, octets: &[u8]) -> Result<UtcTime, Error>
        ensures { GivesNow (λ t. t) result (leaf_read utc_time tag octets.now) }
    {
        let Some((year, rest)) = two(octets) else {
            return Err(Error::from(ErrorKind::Value { tag }));
        };
        let century = if year < 50 { 2000 } else { 1900 };
        let Some(date_time) = date_of(century + u16::from(year), rest) else {
            return Err(Error::from(ErrorKind::Value { tag }));
        };
        Ok(UtcTime { date_time })
    }

    /// Returns the content bytes.
    #[tactic(auto, unfolding(crate::specs::Opened::utc_octets))]
    pub(crate) fn to_content(&self) -> [u8; 13]
        ensures { result ≡ utc_octets self.now }
    {
        let date = self.date_time;
        let [y1, y2] = two_digits((date.year() % 100) as u8);
        let [m1, m2] = two_digits(date.month());
        let [d1, d2] = two_digits(date.day());
        let [h1, h2] = two_digits(date.hour());
        let [n1, n2] = two_digits(date.minutes());
        let [s1, s2] = two_digits(date.seconds());
        [y1, y2, m1, m2, d1, d2, h1, h2, n1, n2, s1, s2, b'Z']
    }
}

impl FixedTag for UtcTime {
    ghost fixed_tag = { UtcTimeTag };

    fn tag() -> Tag {
        Tag::UtcTime
    }
}

impl Described for UtcTime {
    type By = AsLeaf;
}

impl Primitive for UtcTime {
    ghost kind = { utc_time };

    ghost leaf_plain = { λ x. x };
}

/// The content is `YYMMDDHHMMSSZ`.
impl<'a> Leaf<'a> for UtcTime {
    ghost takes_memory = { false };

    fn from_content(_alloc: Global, tag: Tag, octets: &'a [u8]) -> Result<UtcTime, Error> {
        Ok(UtcTime::of_content(tag, octets)?)
    }
}

impl EncodeLeaf for UtcTime {
    #[tactic(auto, unfolding(crate::specs::Opened::utc_octets))]
    fn leaf_len(&self) -> Result<Length, Error> {
        Ok(Length { value: 13 })
    }

    #[tactic(auto, using(crate::proofs::Cited::write_adds), unfolding(crate::specs::Opened::contents))]
    fn encode_leaf<W: Writer>(&self, writer: &mut W) -> Result<(), Error> {
        writer.write(&self.to_content())
    }
}

impl TryFrom<DateTime> for UtcTime {
    ghost use Rattle.der_types_numbers.specs.Times.{MakesUtcTime};

    type Error = Error;

    ghost try_from_gives = { MakesUtcTime };

    fn try_from(date_time: DateTime) -> Result<UtcTime, Error> {
        UtcTime::from_date_time(date_time)
    }
}

impl TryFrom<&DateTime> for UtcTime {
    ghost use Rattle.der_types_numbers.specs.Times.{MakesUtcTime};

    type Error = Error;

    ghost try_from_gives = { λ date_time r. MakesUtcTime date_time.now r };

    fn try_from(date_time: &DateTime) -> Result<UtcTime, Error> {
        UtcTime::from_date_time(*date_time)
    }
}

impl From<&UtcTime> for UtcTime {
    ghost from_gives = { λ s t. t ≡ s.now };

    fn from(time: &UtcTime) -> UtcTime {
        *time
    }
}

impl From<UtcTime> for DateTime {
    ghost from_gives = { λ t date_time. date_time ≡ t };

    fn from(time: UtcTime) -> DateTime {
        time.date_time
    }
}

impl From<&UtcTime> for DateTime {
    ghost from_gives = { λ t date_time. date_time ≡ t.now };

    fn from(time: &UtcTime) -> DateTime {
        time.date_time
    }
}

/// Compares the contents, `YYMMDDHHMMSSZ`, as lists of bytes. This isn't the order of time: the
/// years from 2000 on come before those from 1970 to 1999.
impl ValueOrd for UtcTime {
    #[tactic(auto, using(der_core::proofs::OrderLaws::leaf_contents))]
    fn value_cmp(&self, other: &Self) -> Result<Ordering, Error> {
        let octets = self.to_content();
        let other_octets = other.to_content();
        Ok(octets.as_slice().cmp(other_octets.as_slice()))
    }
}
