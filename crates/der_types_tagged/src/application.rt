//! Fields with a tag of the application class.

use crate::class_field::ClassField;
use crate::class_field_ref::ClassFieldRef;
use der_core::CLASS_APPLICATION;

/// A value with a tag of the application class, `[APPLICATION n]` (X.680 31, X.690 8.1.2.2, 8.14).
pub type Application<T> = ClassField<T, CLASS_APPLICATION>;

/// A borrowed value with a tag of the application class.
pub type ApplicationRef<'a, T> = ClassFieldRef<'a, T, CLASS_APPLICATION>;
