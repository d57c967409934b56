//! CmsVersion.

ghost use Rattle.std.specs.Prelude.{[], ◌∷◌, refl};
ghost use Rattle.pki_cms.specs.declared.cms_version.CmsVersion.TheVariants as cases;

use der_core::describing::{AsNumbered, Described, Numbered, Ordered};

/// Any other number is rejected as `Value`.
///
/// ```text
/// CMSVersion ::= INTEGER  { v0(0), v1(1), v2(2), v3(3), v4(4), v5(5) }
/// ```
#[derive(Clone, Copy, Debug, PartialEq, Eq)]
pub enum CmsVersion {
    V0,
    V1,
    V2,
    V3,
    V4,
    V5,
}

impl Described for CmsVersion {
    type By = AsNumbered;
}

impl Numbered for CmsVersion {
    ghost known_numbers = { 0 ∷ 1 ∷ 2 ∷ 3 ∷ 4 ∷ 5 ∷ [] };

    ghost known_number = { λ v. elim v [
      | cases.V0 ↦ 0
      | cases.V1 ↦ 1
      | cases.V2 ↦ 2
      | cases.V3 ↦ 3
      | cases.V4 ↦ 4
      | cases.V5 ↦ 5
    ] };

    fn from_number(number: u8) -> Option<CmsVersion> {
        match number {
            0 => Some(CmsVersion::V0),
            1 => Some(CmsVersion::V1),
            2 => Some(CmsVersion::V2),
            3 => Some(CmsVersion::V3),
            4 => Some(CmsVersion::V4),
            5 => Some(CmsVersion::V5),
            _ => None,
        }
    }

    fn to_number(&self) -> u8 {
        *self as u8
    }

    ghost few = { refl };
}

/// Orders the values by their numbers.
impl Ordered for CmsVersion {}
