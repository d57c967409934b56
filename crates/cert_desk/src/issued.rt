//! Issued chains.

ghost use Rattle.std.specs.Prelude.{◌≡◌, ◌-◌, ◌^◌};
ghost use Rattle.cert_desk_listing.specs.Oid.Bound.{Bound};
ghost use Rattle.cert_desk_listing.specs.Der.Limits.{length_max};
ghost use Rattle.cert_desk_listing.specs.Der.Grammar.{plain_list};
ghost use Rattle.cert_desk_listing.specs.CertCertificates.Views.{certificate_plain};
ghost use Rattle.cert_desk_checking.specs.DeskBundle.Chains.{Chain};
ghost use Rattle.x509_cert_builders.specs.States.{as_written};

use cert_desk_listing::cert_certificates::Certificate;
use std::marker::Model;

/// An issued chain: its certificates, beginning with the root, and the concatenation of their
/// encodings.
#[derive(Drop)]
pub struct Issued {
    pub(crate) certificates: Vec<Certificate>,
    pub(crate) stream: Vec<u8>,
}

impl Model for Issued {
    ghost use Rattle.cert_desk.specs.Making.{PlainIssued, issued_plain, IsJoined};

    ghost Value = { PlainIssued };

    ghost view = { issued_plain };

    ghost invariant = { IsJoined };
}

impl Issued {
    /// Returns the certificates, beginning with the root.
    pub fn certificates(&self) -> &[Certificate]
        ensures { plain_list (λ c. as_written (certificate_plain c)) result.now
            ≡ self.now.certificates }
    {
        self.certificates.as_slice()
    }

    /// Returns the concatenation of the certificates' encodings.
    pub fn stream(&self) -> &[u8]
        ensures octets { result.now ≡ self.now.stream }
        ensures chain { Chain Bound length_max self.now.certificates self.now.stream }
    {
        self.stream.as_slice()
    }
}
