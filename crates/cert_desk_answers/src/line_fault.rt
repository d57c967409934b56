//! The errors of a line of answers.
ghost use Rattle.std.specs.Prelude.{Some};
ghost use Rattle.cert_desk_answers.specs.FaultTexts.{line_fault_text};

use std::fmt;

/// Why a line isn't an answer. If several reasons apply, the first of them is reported.
#[derive(Clone, Copy, Debug, PartialEq, Eq)]
pub enum LineFault {
    /// The line doesn't consist of six words with one space between them.
    NotSixWords,
    /// The first word, the index of the certificate, doesn't consist of decimal digits.
    NoPlace,
    /// The second word, the index of the trust anchor, is neither decimal digits nor `-`.
    NoAnchor,
    /// The third word, the key, isn't in base 16.
    KeyNotBase16,
    /// The bytes of the key aren't the encoding of a SubjectPublicKeyInfo (RFC 5280 4.1.2.7).
    NoKey,
    /// The fourth word, the algorithm, isn't in base 16.
    AlgorithmNotBase16,
    /// The bytes of the algorithm aren't the encoding of an AlgorithmIdentifier (RFC 5280 4.1.1.2).
    NoAlgorithm,
    /// The fifth word, the signed bytes, isn't in base 16.
    SignedNotBase16,
    /// The sixth word, the signature, isn't in base 16.
    BitsNotBase16,
    /// The bytes of the signature aren't the encoding of a BIT STRING (X.690 8.6, 11.2).
    NoBits,
}

impl fmt::Display for LineFault {
    ghost output = { λ fault. Some (line_fault_text fault) };

    fn fmt<W: fmt::Write>(&self, f: &mut fmt::Formatter<W>) -> fmt::Result {
        let text = match self {
            LineFault::NotSixWords => "not six words with one blank between them",
            LineFault::NoPlace => "PLACE isn't decimal digits",
            LineFault::NoAnchor => "ANCHOR is neither decimal digits nor -",
            LineFault::KeyNotBase16 => "KEY isn't in base 16",
            LineFault::NoKey => "KEY is no SubjectPublicKeyInfo in DER",
            LineFault::AlgorithmNotBase16 => "ALGORITHM isn't in base 16",
            LineFault::NoAlgorithm => "ALGORITHM is no AlgorithmIdentifier in DER",
            LineFault::SignedNotBase16 => "SIGNED isn't in base 16",
            LineFault::BitsNotBase16 => "BITS isn't in base 16",
            LineFault::NoBits => "BITS is no BIT STRING in DER",
        };
        f.write_str(text)
    }
}
