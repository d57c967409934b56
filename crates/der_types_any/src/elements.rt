//! Impls that state that a value of any type has one encoding, which begins with a header, and is
//! encoded as it is decoded.

ghost use Rattle.std.specs.Prelude.{refl};

use crate::any::Any;
use crate::any_ref::AnyRef;
use der_types_text::der::{AsRead, Element, Member};

impl Member for Any {
    ghost apart = { refl };
}

impl Element for Any {
    ghost element = { refl };
}

impl AsRead for Any {
    ghost as_read = { λ _. refl };
}

impl<'a> Member for AnyRef<'a> {
    ghost apart = { refl };
}

impl<'a> Element for AnyRef<'a> {
    ghost element = { refl };
}

impl<'a> AsRead for AnyRef<'a> {
    ghost as_read = { λ _. refl };
}
