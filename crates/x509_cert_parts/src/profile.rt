//! Profiles: `Rfc5280` and `Raw`.

ghost use Rattle.std.specs.Prelude.{◌≡◌, ℕ, Option, Some, None, Bool, true, false, IsOkAnd};
ghost use Rattle.der_core.specs.Integers.{checked};
ghost use Rattle.der_core.specs.Reading.{GivesNow};
ghost use Rattle.x509_cert_parts.specs.Grammar.{numbers_within};
ghost use Rattle.x509_cert_parts.specs.Respelling.{spelled_by};
ghost use Rattle.x509_cert_parts.specs.SerialNumbers.{serial_octets_max};
ghost use Rattle.x509_cert_parts.specs.Views.{time_value};

use crate::serial_number::SerialNumber;
use crate::time::Time;
use der_core::{Error, ErrorKind, Tag};
use der_types::UtcTime;

// The greatest length of a serial number under `Rfc5280`, in content bytes.
const MAX_SERIAL_OCTETS: usize = 21;

/// A profile determines which serial numbers are accepted, and how the dates of a validity are
/// encoded.
pub trait Profile {
    /// The greatest length of a serial number in content bytes, if it is limited.
    ghost serial_limit: { Option ℕ };

    /// True if dates before 2050 are encoded as UTCTime. Otherwise each date keeps its encoding.
    ghost respells: { Bool };

    /// Checks a serial number that was decoded.
    ///
    /// # Errors
    ///
    /// - `Value`: it has more content bytes than are accepted.
    fn check_serial_number(serial: &SerialNumber<Self>) -> Result<(), Error>
        ensures { GivesNow (λ _. serial.now) result
            (checked (numbers_within serial_limit) Tag.Integer serial.now) };

    /// Returns the date as the profile encodes it in a validity. The call always succeeds.
    fn time_encoding(time: Time) -> Result<Time, Error>
        ensures { IsOkAnd result (λ t. time_value t ≡ spelled_by respells (time_value time)) };
}

/// The profile of RFC 5280: serial numbers have at most 21 content bytes, and dates are encoded as
/// UTCTime before 2050 and as GeneralizedTime from 2050 on (4.1.2.2, 4.1.2.5).
///
/// RFC 5280 allows at most 20 bytes. Some software counts them before it adds a byte for the sign,
/// so 21 are accepted.
#[derive(Clone, Copy, Debug, Default, PartialEq, Eq, PartialOrd, Ord)]
pub struct Rfc5280;

impl Profile for Rfc5280 {
    ghost serial_limit = { Some serial_octets_max };

    ghost respells = { true };

    fn check_serial_number(serial: &SerialNumber<Rfc5280>) -> Result<(), Error> {
        if serial.as_bytes().len() > MAX_SERIAL_OCTETS {
            return Err(Error::from(ErrorKind::Value { tag: Tag::Integer }));
        }
        Ok(())
    }

    fn time_encoding(time: Time) -> Result<Time, Error> {
        if let Time::GeneralTime(general) = time {
            let date_time = general.to_date_time();
            if date_time.year() <= UtcTime::MAX_YEAR {
                return Ok(Time::UtcTime(UtcTime::from_date_time(date_time)?));
            }
        }
        Ok(time)
    }
}

/// The profile for certificates as they are: serial numbers of any length are accepted, and dates
/// are encoded as they were decoded.
#[derive(Clone, Copy, Debug, Default, PartialEq, Eq, PartialOrd, Ord)]
pub struct Raw;

impl Profile for Raw {
    ghost serial_limit = { None };

    ghost respells = { false };

    fn check_serial_number(_serial: &SerialNumber<Raw>) -> Result<(), Error> {
        Ok(())
    }

    fn time_encoding(time: Time) -> Result<Time, Error> {
        Ok(time)
    }
}
