//! The error of decoding or building a list of timestamps.

ghost use Rattle.std.specs.Prelude.{◌≡◌};
ghost use Rattle.x509_cert_policies.specs.declared.timestamp_error.Error.TheVariants.{Der, Tls};

use crate::tls_error::TlsError;

/// The error of decoding or building a list of timestamps, or a timestamp in it.
#[derive(Debug, PartialEq, Drop)]
pub enum Error {
    /// The DER encoding of the extension is invalid, or memory runs out.
    Der(der_core::Error),
    /// The bytes inside the extension are invalid, a vector is too long, or memory runs out.
    Tls(TlsError),
}

impl From<der_core::Error> for Error {
    ghost from_gives = { λ e r. r ≡ Der e };

    fn from(error: der_core::Error) -> Error {
        Error::Der(error)
    }
}

impl From<TlsError> for Error {
    ghost from_gives = { λ e r. r ≡ Tls e };

    fn from(error: TlsError) -> Error {
        Error::Tls(error)
    }
}
