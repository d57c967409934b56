//! BOOLEAN DEFAULT TRUE.

ghost use Rattle.std.specs.Prelude.{[], ◌∷◌, refl};

use der_core::DefaultContent;
use der_core::describing::{AsField, Described, Ordered, Wraps};

/// A BOOLEAN in a field whose default is TRUE (`WithDefault<OrTrue>`). The default of a `bool` is
/// FALSE.
#[derive(Clone, Copy, Debug, PartialEq, Eq)]
pub struct OrTrue(pub bool);

impl Described for OrTrue {
    type By = AsField<bool>;
}

impl From<bool> for OrTrue {
    ghost use Rattle.std.specs.Prelude.{◌≡◌};

    ghost from_gives = { λ value field. field.0 ≡ value };

    fn from(value: bool) -> OrTrue {
        OrTrue(value)
    }
}

impl Wraps<bool> for OrTrue {
    ghost inner = { λ field. field.0 };

    fn inner(&self) -> &bool {
        &self.0
    }

    ghost made = { λ _ _ e. e };
}

/// Compares the values.
impl Ordered for OrTrue {}

/// The default is true.
impl DefaultContent for OrTrue {
    ghost content_octets = { 255 ∷ [] };

    ghost few = { refl };

    ghost enough = { λ _. refl };

    #[tactic(auto, unfolding(crate::specs::Opened::contents, crate::specs::Opened::IsContent))]
    fn default_content() -> OrTrue {
        OrTrue(true)
    }

    #[tactic(auto, unfolding(crate::specs::Opened::contents, crate::specs::Opened::IsContent))]
    fn is_default_content(&self) -> bool {
        self.0
    }
}
