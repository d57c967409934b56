//! A user-defined profile of certificates that are decoded.

ghost use Rattle.std.specs.Prelude.{Some, false};

use der_core::{Error, ErrorKind, Tag};
use x509_cert::certificate::Profile;
use x509_cert::{SerialNumber, Time};

/// Accepts serial numbers of at most 20 content bytes (RFC 5280 4.1.2.2), and encodes dates in the
/// form in which they were decoded.
#[derive(Clone, Copy, Debug)]
pub struct ShortSerials;

impl Profile for ShortSerials {
    ghost serial_limit = { Some 20 };

    ghost respells = { false };

    fn check_serial_number(serial: &SerialNumber<ShortSerials>) -> Result<(), Error> {
        if serial.as_bytes().len() > 20 {
            return Err(Error::from(ErrorKind::Value { tag: Tag::Integer }));
        }
        Ok(())
    }

    fn time_encoding(time: Time) -> Result<Time, Error> {
        Ok(time)
    }
}
