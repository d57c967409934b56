ghost use Rattle.std.specs.Prelude.{◌≡◌, refl};
ghost use Rattle.x509_cert_policies.specs.Numbers.{signature_number, signature_numbers};

use der_core::describing::Numbered;

/// The signature algorithm of a signature (RFC 5246 7.4.1.4.1; RFC 8422 5.1.3).
///
/// ```text
/// enum { anonymous(0), rsa(1), dsa(2), ecdsa(3), ed25519(7), ed448(8), (255) } SignatureAlgorithm;
/// ```
#[derive(Clone, Copy, Debug, PartialEq)]
pub enum SignatureAlgorithm {
    /// No signature.
    Anonymous,
    /// RSA.
    Rsa,
    /// DSA.
    Dsa,
    /// ECDSA.
    Ecdsa,
    /// Ed25519.
    Ed25519 = 7,
    /// Ed448.
    Ed448,
}

impl Numbered for SignatureAlgorithm {
    ghost known_numbers = { signature_numbers };

    ghost known_number = { signature_number };

    fn from_number(number: u8) -> Option<SignatureAlgorithm> {
        match number {
            0 => Some(SignatureAlgorithm::Anonymous),
            1 => Some(SignatureAlgorithm::Rsa),
            2 => Some(SignatureAlgorithm::Dsa),
            3 => Some(SignatureAlgorithm::Ecdsa),
            7 => Some(SignatureAlgorithm::Ed25519),
            8 => Some(SignatureAlgorithm::Ed448),
            _ => None,
        }
    }

    fn to_number(&self) -> u8 {
        *self as u8
    }

    ghost few = { refl };
}
