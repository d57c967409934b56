ghost use Rattle.std.specs.Prelude.{◌≡◌, refl};
ghost use Rattle.x509_cert_policies.specs.Numbers.{hash_number, hash_numbers};

use der_core::describing::Numbered;

/// The hash algorithm of a signature (RFC 5246 7.4.1.4.1; RFC 8422 5.1.3).
///
/// ```text
/// enum {
///     none(0), md5(1), sha1(2), sha224(3), sha256(4), sha384(5), sha512(6), Intrinsic(8), (255)
/// } HashAlgorithm;
/// ```
#[derive(Clone, Copy, Debug, PartialEq)]
pub enum HashAlgorithm {
    /// No hash algorithm.
    None,
    /// MD5.
    Md5,
    /// SHA-1.
    Sha1,
    /// SHA-224.
    Sha224,
    /// SHA-256.
    Sha256,
    /// SHA-384.
    Sha384,
    /// SHA-512.
    Sha512,
    /// The signature algorithm includes the hash algorithm.
    Intrinsic = 8,
}

impl Numbered for HashAlgorithm {
    ghost known_numbers = { hash_numbers };

    ghost known_number = { hash_number };

    fn from_number(number: u8) -> Option<HashAlgorithm> {
        match number {
            0 => Some(HashAlgorithm::None),
            1 => Some(HashAlgorithm::Md5),
            2 => Some(HashAlgorithm::Sha1),
            3 => Some(HashAlgorithm::Sha224),
            4 => Some(HashAlgorithm::Sha256),
            5 => Some(HashAlgorithm::Sha384),
            6 => Some(HashAlgorithm::Sha512),
            8 => Some(HashAlgorithm::Intrinsic),
            _ => None,
        }
    }

    fn to_number(&self) -> u8 {
        *self as u8
    }

    ghost few = { refl };
}
