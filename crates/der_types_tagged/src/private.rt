//! Fields with a tag of the private class.

use crate::class_field::ClassField;
use crate::class_field_ref::ClassFieldRef;
use der_core::CLASS_PRIVATE;

/// A value with a tag of the private class, `[PRIVATE n]` (X.680 31, X.690 8.1.2.2, 8.14).
pub type Private<T> = ClassField<T, CLASS_PRIVATE>;

/// A borrowed value with a tag of the private class.
pub type PrivateRef<'a, T> = ClassFieldRef<'a, T, CLASS_PRIVATE>;
