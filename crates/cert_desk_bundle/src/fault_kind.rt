//! The kinds of errors of an input that should be a certificate chain.
ghost use Rattle.std.specs.Prelude.{Some};
ghost use Rattle.cert_desk_bundle.specs.FaultNames.{kind_name};

use std::fmt;

/// Why no certificate begins where the next one should. If several kinds apply, the first of them
/// is reported.
#[derive(Clone, Copy, Debug, PartialEq, Eq)]
pub enum FaultKind {
    /// The first byte isn't the tag of a SEQUENCE.
    NoCertificate,
    /// The length is indefinite.
    Indefinite,
    /// The length has more than four bytes.
    LengthTooWide,
    /// The header is complete, and its length doesn't have the fewest bytes (X.690 10.1).
    LengthNotShortest,
    /// The header is complete, and the certificate would exceed the size limit, or would end after
    /// 2^64 - 1 bytes.
    TooLarge,
    /// The bytes of the certificate are complete, and aren't the DER encoding of a certificate.
    Malformed,
    /// The input ends inside a certificate.
    Truncated,
}

impl fmt::Display for FaultKind {
    ghost output = { λ kind. Some (kind_name kind) };

    fn fmt<W: fmt::Write>(&self, f: &mut fmt::Formatter<W>) -> fmt::Result {
        let name = match self {
            FaultKind::NoCertificate => "NoCertificate",
            FaultKind::Indefinite => "Indefinite",
            FaultKind::LengthTooWide => "LengthTooWide",
            FaultKind::LengthNotShortest => "LengthNotShortest",
            FaultKind::TooLarge => "TooLarge",
            FaultKind::Malformed => "Malformed",
            FaultKind::Truncated => "Truncated",
        };
        f.write_str(name)
    }
}
