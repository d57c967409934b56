//! Values with tags of the application, context-specific and private classes (X.690 8.14). Users
//! import the items of this crate from `der_types`.
#![tactic(auto)]

mod application;
mod class_field;
mod class_field_ref;
mod context_specific;
mod fields;
pub mod laws;
mod private;

pub use application::{Application, ApplicationRef};
pub use class_field::ClassField;
pub use class_field_ref::ClassFieldRef;
pub use context_specific::{ContextSpecific, ContextSpecificRef};
pub use private::{Private, PrivateRef};

/// The names of `der_core` that the crates above use.
pub mod der {
    pub use der_core::{Shaped, StrictSetOf};
}

/// The names of `const_oid` that the crates above use.
pub mod oid {
    pub use der_core::oid::ObjectIdentifier;
}
