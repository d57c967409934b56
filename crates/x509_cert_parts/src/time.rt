ghost use Rattle.std.specs.Prelude.{◌≡◌, ◌*◌, Some, refl};
ghost use Rattle.std.proofs.Common.{inl, inr};
ghost use Rattle.std.specs.Duration.{as_nanos};
ghost use Rattle.der_types.specs.DateTexts.{date_text};
ghost use Rattle.der_types.specs.Seconds.{unix_seconds};
ghost use Rattle.x509_cert_parts.specs.Grammar.{time};
ghost use Rattle.x509_cert_parts.specs.Times.{ReadsTime, time_of};
ghost use Rattle.x509_cert_parts.specs.Views.{time_value, time_date};

use der_core::{
    AsRead, Choice, Decode, DerOrd, Element, Encode, Error, FirstTag, Length, Member, OneOf2,
    Reader, Shaped, Tag, Writer,
};
use der_types::{DateTime, GeneralizedTime, UtcTime};
use std::alloc::Global;
use std::cmp::Ordering;
use std::fmt;
use std::str::FromStr;
use std::time::Duration;

/// A date and time in one of two encodings (RFC 5280 4.1.2.5).
///
/// ```text
/// Time ::= CHOICE { utcTime UTCTime, generalTime GeneralizedTime }
/// ```
#[derive(Clone, Copy, Debug, PartialEq, Eq)]
pub enum Time {
    /// A UTCTime, from 1970 through 2049.
    UtcTime(UtcTime),
    /// A GeneralizedTime, from 1970 through 9999.
    GeneralTime(GeneralizedTime),
}

type Cases = OneOf2<UtcTime, GeneralizedTime>;

impl Time {
    /// 9999-12-31T23:59:59Z, the notAfter of a certificate without an expiration date (RFC 5280
    /// 4.1.2.5).
    pub const INFINITY: Time = Time::GeneralTime(GeneralizedTime::INFINITY);

    /// Returns the date and time.
    pub fn to_date_time(&self) -> DateTime
        ensures { result ≡ time_date self.now }
    {
        match self {
            Time::UtcTime(time) => time.to_date_time(),
            Time::GeneralTime(time) => time.to_date_time(),
        }
    }

    /// Returns the duration since 1970-01-01T00:00:00Z, without leap seconds.
    pub fn to_unix_duration(self) -> Duration
        ensures { as_nanos result ≡ unix_seconds (time_date self) * 1_000_000_000 }
    {
        self.to_date_time().unix_duration()
    }

    /// Returns the value as a choice, which has the encoding and ordering of a CHOICE.
    fn cases(&self) -> Cases
        ensures { ⟦<Cases as Shaped>⟧.written result ≡ time_value self.now }
    {
        match self {
            Time::UtcTime(time) => OneOf2::First(*time),
            Time::GeneralTime(time) => OneOf2::Second(*time),
        }
    }
}

impl Shaped for Time {
    ghost shape = { time };

    ghost plain = { time_value };

    ghost written = { time_value };
}

impl Choice for Time {
    fn can_decode(tag: Tag) -> bool {
        Cases::can_decode(tag)
    }
}

impl<'a, R: Reader<'a>> Decode<'a, R> for Time {
    fn decode(alloc: Global, reader: &mut R) -> Result<Time, Error> {
        match Cases::decode(alloc, reader)? {
            OneOf2::First(time) => Ok(Time::UtcTime(time)),
            OneOf2::Second(time) => Ok(Time::GeneralTime(time)),
        }
    }
}

impl Encode for Time {
    // Inlined, so that the result isn't moved.
    #[inline(always)]
    fn encoded_len(&self) -> Result<Length, Error> {
        match self {
            Time::UtcTime(time) => time.encoded_len(),
            Time::GeneralTime(time) => time.encoded_len(),
        }
    }

    // Inlined, so that the result isn't moved.
    #[inline(always)]
    #[tactic(auto, unfolding(crate::specs::Opened::octets_of))]
    fn encode<W: Writer>(&self, writer: &mut W) -> Result<(), Error> {
        match self {
            Time::UtcTime(time) => time.encode(writer),
            Time::GeneralTime(time) => time.encode(writer),
        }
    }
}

impl Element for Time {
    ghost element = { refl };
}

impl Member for Time {
    ghost apart = { refl };
}

impl AsRead for Time {
    ghost as_read = { λ _. refl };
}

/// Compares the tags first, then the contents. This isn't the order of time.
impl DerOrd for Time {
    fn der_cmp(&self, other: &Self) -> Result<Ordering, Error> {
        self.cases().der_cmp(&other.cases())
    }
}

impl FirstTag for Time {
    fn first_tag(&self) -> Option<Tag> {
        self.cases().first_tag()
    }
}

/// Writes the date and time as `YYYY-MM-DDTHH:MM:SSZ`.
impl fmt::Display for Time {
    ghost output = { λ t. Some (date_text (time_date t)) };

    fn fmt<W: fmt::Write>(&self, f: &mut fmt::Formatter<W>) -> fmt::Result {
        self.to_date_time().fmt(f)
    }
}

/// Parses a date and time of the form `YYYY-MM-DDTHH:MM:SSZ`. Before 2050 the value is a UTCTime,
/// and from 2050 on a GeneralizedTime.
///
/// # Errors
///
/// - `DateTime`: the text isn't a date and time in this form.
impl FromStr for Time {
    type Err = Error;

    ghost from_str_gives = { ReadsTime };

    fn from_str(text: &str) -> Result<Time, Error> {
        Ok(Time::from(DateTime::from_str(text)?))
    }
}

impl From<UtcTime> for Time {
    ghost from_gives = { λ d t. time_value t ≡ inl d };

    fn from(time: UtcTime) -> Time {
        Time::UtcTime(time)
    }
}

impl From<GeneralizedTime> for Time {
    ghost from_gives = { λ d t. time_value t ≡ inr d };

    fn from(time: GeneralizedTime) -> Time {
        Time::GeneralTime(time)
    }
}

/// Returns a UTCTime before 2050 and a GeneralizedTime from 2050 on.
impl From<DateTime> for Time {
    ghost from_gives = { λ d t. time_value t ≡ time_of d };

    fn from(date_time: DateTime) -> Time {
        match UtcTime::from_date_time(date_time) {
            Ok(time) => Time::UtcTime(time),
            Err(_) => Time::GeneralTime(GeneralizedTime::from_date_time(date_time)),
        }
    }
}
