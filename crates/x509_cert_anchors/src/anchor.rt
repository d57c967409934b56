ghost use Rattle.std.specs.Prelude.{◌≡◌, refl};
ghost use Rattle.x509_cert_anchors.specs.Anchors.{anchor_numbers, first_anchor_version_octets};
ghost use Rattle.x509_cert_anchors.specs.AnchorViews.{anchor_number};

use der_core::DefaultValue;
use der_core::describing::{AsNumbered, Described, Numbered, Ordered};

/// The version of a trust anchor (RFC 5914 2.1). The encoding omits `V1`.
///
/// ```text
/// TrustAnchorInfoVersion ::= INTEGER { v1(1) }
/// ```
#[derive(Clone, Copy, Debug, Default, PartialEq, Eq)]
pub enum Version {
    /// Version 1, the only one.
    #[default]
    V1 = 1,
}

impl Described for Version {
    type By = AsNumbered;
}

/// Decoding rejects any other number with `Value`.
impl Numbered for Version {
    ghost known_numbers = { anchor_numbers };

    ghost known_number = { anchor_number };

    fn from_number(number: u8) -> Option<Version> {
        match number {
            1 => Some(Version::V1),
            _ => None,
        }
    }

    fn to_number(&self) -> u8 {
        *self as u8
    }

    ghost few = { refl };
}

impl Ordered for Version {}

/// The default is `V1`.
impl DefaultValue for Version {
    ghost default_octets = { first_anchor_version_octets };

    #[tactic(auto, unfolding(crate::specs::Opened::tlv_at, crate::specs::Opened::head_at, crate::specs::Opened::tag_at, crate::specs::Opened::universal_tag, crate::specs::Opened::length_at, crate::specs::Opened::value_at, crate::specs::Opened::shortest_integer, crate::specs::Opened::integer_of))]
    fn default_value() -> Version {
        Version::V1
    }

    fn is_default(&self) -> bool {
        true
    }
}
