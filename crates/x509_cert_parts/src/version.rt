ghost use Rattle.std.specs.Prelude.{◌≡◌, [], ◌∷◌, refl};
ghost use Rattle.x509_cert_parts.specs.Views.{version_number};

use der_core::DefaultContent;
use der_core::describing::{AsNumbered, Described, Numbered, Ordered};
use der_core::making::is_zero;

/// The version of a certificate (RFC 5280 4.1.2.1).
///
/// ```text
/// Version ::= INTEGER { v1(0), v2(1), v3(2) }
/// ```
#[derive(Clone, Copy, Debug, Default, PartialEq, Eq)]
pub enum Version {
    /// Version 1: only the basic fields.
    #[default]
    V1,
    /// Version 2: also unique identifiers.
    V2,
    /// Version 3: also extensions.
    V3,
}

impl Described for Version {
    type By = AsNumbered;
}

/// Decoding rejects any other number with `Value`.
impl Numbered for Version {
    ghost known_numbers = { 0 ∷ 1 ∷ 2 ∷ [] };

    ghost known_number = { version_number };

    fn from_number(number: u8) -> Option<Version> {
        match number {
            0 => Some(Version::V1),
            1 => Some(Version::V2),
            2 => Some(Version::V3),
            _ => None,
        }
    }

    fn to_number(&self) -> u8 {
        *self as u8
    }

    ghost few = { refl };
}

/// Orders versions by their numbers.
impl Ordered for Version {}

/// The default is `V1` (RFC 5280 4.1).
impl DefaultContent for Version {
    ghost content_octets = { 0 ∷ [] };

    ghost few = { refl };

    ghost enough = { λ _. refl };

    #[tactic(auto, unfolding(crate::specs::Opened::contents, crate::specs::Opened::IsContent))]
    fn default_content() -> Version {
        let version = Version::V1;
        let _zero = is_zero(&version.to_number());
        version
    }

    #[tactic(auto, unfolding(crate::specs::Opened::contents, crate::specs::Opened::IsContent))]
    fn is_default_content(&self) -> bool {
        is_zero(&self.to_number())
    }
}
