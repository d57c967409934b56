ghost use Rattle.std.specs.Prelude.{◌≡◌, refl};
ghost use Rattle.x509_cert_lists.specs.ListGrammar.{request_numbers};
ghost use Rattle.x509_cert_lists.specs.ListViews.{request_number};

use der_core::describing::{AsNumbered, Described, Numbered, Ordered};

/// The version of a CSR (RFC 2986 4.1).
///
/// ```text
/// Version ::= INTEGER { v1(0) }
/// ```
#[derive(Clone, Copy, Debug, Default, PartialEq, Eq)]
pub enum Version {
    /// Version 1, the only one.
    #[default]
    V1,
}

impl Described for Version {
    type By = AsNumbered;
}

/// Decoding rejects any other number with `Value`.
impl Numbered for Version {
    ghost known_numbers = { request_numbers };

    ghost known_number = { request_number };

    fn from_number(number: u8) -> Option<Version> {
        match number {
            0 => Some(Version::V1),
            _ => None,
        }
    }

    fn to_number(&self) -> u8 {
        *self as u8
    }

    ghost few = { refl };
}

impl Ordered for Version {}
