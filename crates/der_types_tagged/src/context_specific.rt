//! Fields with a context-specific tag.

use crate::class_field::ClassField;
use crate::class_field_ref::ClassFieldRef;
use der_core::CLASS_CONTEXT_SPECIFIC;

/// A value with a context-specific tag, `[n]` (X.680 31, X.690 8.1.2.2, 8.14).
pub type ContextSpecific<T> = ClassField<T, CLASS_CONTEXT_SPECIFIC>;

/// A borrowed value with a context-specific tag.
pub type ContextSpecificRef<'a, T> = ClassFieldRef<'a, T, CLASS_CONTEXT_SPECIFIC>;
