ghost use Rattle.std.specs.Prelude.{◌≡◌, refl};
ghost use Rattle.x509_cert_policies.specs.Numbers.{version_number, version_numbers};

use der_core::describing::Numbered;

/// The version of a timestamp (RFC 6962 3.2).
///
/// ```text
/// enum { v1(0), (255) } Version;
/// ```
#[derive(Clone, Copy, Debug, PartialEq)]
pub enum Version {
    /// Version 1, the only one (RFC 6962 3.2).
    V1,
}

impl Numbered for Version {
    ghost known_numbers = { version_numbers };

    ghost known_number = { version_number };

    fn from_number(number: u8) -> Option<Version> {
        match number {
            0 => Some(Version::V1),
            _ => None,
        }
    }

    fn to_number(&self) -> u8 {
        *self as u8
    }

    ghost few = { refl };
}
