//! GeneralizedTime.

ghost use Rattle.std.specs.Prelude.{◌≡◌, ◌+◌, ◌*◌, ◌/◌, ◌<◌, ◌↔◌, IsOk, IfOk, IfErr, false};
ghost use Rattle.std.specs.Duration.{as_nanos};
ghost use Rattle.der_core.specs.Dates.{generalized_octets};
ghost use Rattle.der_core.specs.TagTypes.Tag.TheVariants.{GeneralizedTime as GeneralizedTimeTag};
ghost use Rattle.der_core.specs.Leaves.{generalized_time, leaf_read};
ghost use Rattle.der_core.specs.Reading.{GivesNow};
ghost use Rattle.der_types_numbers.specs.DateOrders.{generalized_order};
ghost use Rattle.der_types_numbers.specs.Seconds.{unix_seconds, last_second};

use crate::date_text::{date_of, two, two_digits};
use crate::date_time::DateTime;
use der_core::describing::{AsLeaf, Described, EncodeLeaf, Primitive};
use der_core::{
    EncodeValue, Error, ErrorKind, FixedTag, Leaf, Length, OrdIsValueOrd, Tag, ValueOrd, Writer,
};
use std::alloc::Global;
use std::cmp::Ordering;
use std::marker::Model;
use std::time::Duration;

/// GeneralizedTime (X.690 11.7, RFC 5280 4.1.2.5.2): `YYYYMMDDHHMMSSZ`, from 1970 to 9999.
///
/// Values are ordered by time.
#[derive(Clone, Copy, Debug, PartialEq, Eq, PartialOrd, Ord, Hash)]
pub struct GeneralizedTime {
    date_time: DateTime,
}

impl Model for GeneralizedTime {
    ghost use Rattle.der_core.specs.Dates.{Civil};

    ghost Value = { Civil };

    ghost use Rattle.der_types_numbers.specs.Times.{generalized_civil, generalized_of};

    ghost view = { generalized_civil };

    ghost inverse = { generalized_of };
}

impl GeneralizedTime {
    /// The number of content bytes.
    pub const LENGTH: usize = 15;

    /// 9999-12-31T23:59:59Z, the last time, which RFC 5280 4.1.2.5 uses for a certificate without
    /// an expiration date.
    pub const INFINITY: GeneralizedTime = GeneralizedTime {
        date_time: DateTime::INFINITY,
    };

    /// Returns the time of a date.
    pub fn from_date_time(date_time: DateTime) -> GeneralizedTime
        ensures { result ≡ date_time }
    {
        GeneralizedTime { date_time }
    }

    /// Returns the date.
    pub fn to_date_time(&self) -> DateTime
        ensures { result ≡ self.now }
    {
        self.date_time
    }

    /// Returns the time this long after 1970-01-01T00:00:00Z. A fraction of a second is dropped.
    ///
    /// # Errors
    ///
    /// - `DateTime`: the time is after 9999-12-31T23:59:59Z.
    pub fn from_unix_duration(duration: Duration) -> Result<GeneralizedTime, Error>
        ensures range { IsOk result ↔ (as_nanos duration < (last_second + 1) * 1_000_000_000) }
        ensures ok { IfOk result (λ t. unix_seconds t ≡ as_nanos duration / 1_000_000_000) }
        ensures err { IfErr result (λ e. e.kind ≡ ErrorKind.DateTime) }
    {
        let date_time = DateTime::from_unix_duration(duration)?;
        Ok(GeneralizedTime { date_time })
    }

    /// Returns the time since 1970-01-01T00:00:00Z, without leap seconds.
    pub fn to_unix_duration(&self) -> Duration
        ensures { as_nanos result ≡ unix_seconds self.now * 1_000_000_000 }
    {
        self.date_time.unix_duration()
    }

    /// Decodes the content of a time, after its tag.
    ///
    /// # Errors
    ///
    /// - `Value`: the bytes aren't a date.
    #[tactic(auto, unfolding(crate::specs::Opened::generalized_read))]
    pub fn of_content(tag: Tag, octets: &[u8]) -> Result<GeneralizedTime, Error>
        ensures { GivesNow (λ t. t) result (leaf_read generalized_time tag octets.now) }
    {
        let Some((century, rest)) = two(octets) else {
            return Err(Error::from(ErrorKind::Value { tag }));
        };
        let Some((year, rest)) = two(rest) else {
            return Err(Error::from(ErrorKind::Value { tag }));
        };
        let Some(date_time) = date_of(100 * u16::from(century) + u16::from(year), rest) else {
            return Err(Error::from(ErrorKind::Value { tag }));
        };
        Ok(GeneralizedTime { date_time })
    }

    /// Returns the content bytes.
    #[tactic(auto, unfolding(crate::specs::Opened::generalized_octets))]
    pub(crate) fn to_content(&self) -> [u8; 15]
        ensures { result ≡ generalized_octets self.now }
    {
        let date = self.date_time;
        let [c1, c2] = two_digits((date.year() / 100) as u8);
        let [y1, y2] = two_digits((date.year() % 100) as u8);
        let [m1, m2] = two_digits(date.month());
        let [d1, d2] = two_digits(date.day());
        let [h1, h2] = two_digits(date.hour());
        let [n1, n2] = two_digits(date.minutes());
        let [s1, s2] = two_digits(date.seconds());
        [c1, c2, y1, y2, m1, m2, d1, d2, h1, h2, n1, n2, s1, s2, b'Z']
    }
}

impl FixedTag for GeneralizedTime {
    ghost fixed_tag = { GeneralizedTimeTag };

    fn tag() -> Tag {
        Tag::GeneralizedTime
    }
}

impl Described for GeneralizedTime {
    type By = AsLeaf;
}

impl Primitive for GeneralizedTime {
    ghost kind = { generalized_time };

    ghost leaf_plain = { λ x. x };
}

/// The content is `YYYYMMDDHHMMSSZ`.
impl<'a> Leaf<'a> for GeneralizedTime {
    ghost takes_memory = { false };

    fn from_content(_alloc: Global, tag: Tag, octets: &'a [u8]) -> Result<GeneralizedTime, Error> {
        Ok(GeneralizedTime::of_content(tag, octets)?)
    }
}

impl EncodeLeaf for GeneralizedTime {
    #[tactic(auto, unfolding(crate::specs::Opened::generalized_octets))]
    fn leaf_len(&self) -> Result<Length, Error> {
        Ok(Length { value: 15 })
    }

    #[tactic(auto, using(crate::proofs::Cited::write_adds), unfolding(crate::specs::Opened::contents))]
    fn encode_leaf<W: Writer>(&self, writer: &mut W) -> Result<(), Error> {
        writer.write(&self.to_content())
    }
}

impl From<DateTime> for GeneralizedTime {
    ghost from_gives = { λ date_time t. t ≡ date_time };

    fn from(date_time: DateTime) -> GeneralizedTime {
        GeneralizedTime { date_time }
    }
}

impl From<&DateTime> for GeneralizedTime {
    ghost from_gives = { λ date_time t. t ≡ date_time.now };

    fn from(date_time: &DateTime) -> GeneralizedTime {
        GeneralizedTime::from_date_time(*date_time)
    }
}

impl From<&GeneralizedTime> for GeneralizedTime {
    ghost from_gives = { λ s t. t ≡ s.now };

    fn from(time: &GeneralizedTime) -> GeneralizedTime {
        *time
    }
}

impl From<GeneralizedTime> for DateTime {
    ghost from_gives = { λ t date_time. date_time ≡ t };

    fn from(time: GeneralizedTime) -> DateTime {
        time.date_time
    }
}

impl From<&GeneralizedTime> for DateTime {
    ghost from_gives = { λ t date_time. date_time ≡ t.now };

    fn from(time: &GeneralizedTime) -> DateTime {
        time.date_time
    }
}

/// Compares the contents, `YYYYMMDDHHMMSSZ`, which are ordered by time.
impl ValueOrd for GeneralizedTime {
    #[tactic(auto, using(der_core::proofs::OrderLaws::leaf_contents))]
    fn value_cmp(&self, other: &Self) -> Result<Ordering, Error> {
        let octets = self.to_content();
        let other_octets = other.to_content();
        Ok(octets.as_slice().cmp(other_octets.as_slice()))
    }
}

impl OrdIsValueOrd for GeneralizedTime {
    ghost order = { generalized_order };
}

/// The encoding of a `DateTime` is a GeneralizedTime.
impl FixedTag for DateTime {
    ghost fixed_tag = { GeneralizedTimeTag };

    fn tag() -> Tag {
        Tag::GeneralizedTime
    }
}

impl Described for DateTime {
    type By = AsLeaf;
}

impl Primitive for DateTime {
    ghost kind = { generalized_time };

    ghost leaf_plain = { λ x. x };
}

/// The content is `YYYYMMDDHHMMSSZ`.
impl<'a> Leaf<'a> for DateTime {
    ghost takes_memory = { false };

    fn from_content(alloc: Global, tag: Tag, octets: &'a [u8]) -> Result<DateTime, Error> {
        let time = GeneralizedTime::from_content(alloc, tag, octets)?;
        Ok(time.date_time)
    }
}

impl EncodeLeaf for DateTime {
    fn leaf_len(&self) -> Result<Length, Error> {
        GeneralizedTime::from_date_time(*self).value_len()
    }

    fn encode_leaf<W: Writer>(&self, writer: &mut W) -> Result<(), Error> {
        GeneralizedTime::from_date_time(*self).encode_value(writer)
    }
}

/// Compares the contents, `YYYYMMDDHHMMSSZ`, which are ordered by time.
impl ValueOrd for DateTime {
    fn value_cmp(&self, other: &Self) -> Result<Ordering, Error> {
        GeneralizedTime::from_date_time(*self).value_cmp(&GeneralizedTime::from_date_time(*other))
    }
}

impl OrdIsValueOrd for DateTime {
    ghost order = { generalized_order };
}
