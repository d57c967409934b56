//! Types that have an object identifier.

use crate::ObjectIdentifier;

/// A type that has an object identifier.
pub trait AssociatedOid {
    ghost use Rattle.std.specs.Prelude.{◌≡◌, ℕ, List};

    // The arcs of the type's identifier.
    ghost oid_arcs: { List ℕ };

    /// Returns the type's identifier.
    fn associated_oid() -> ObjectIdentifier<39>
        ensures { result ≡ oid_arcs };
}

/// A value that has an object identifier, for callers that don't know its type.
pub trait DynAssociatedOid {
    ghost use Rattle.std.specs.Prelude.{◌≡◌, ℕ, List};

    // The arcs of the value's identifier.
    ghost dyn_oid_arcs: { Self → List ℕ };

    /// Returns the value's identifier.
    fn oid(&self) -> ObjectIdentifier<39>
        ensures { result ≡ dyn_oid_arcs self.now };
}

impl<T: AssociatedOid> DynAssociatedOid for T {
    ghost dyn_oid_arcs = { λ _. T.oid_arcs };

    fn oid(&self) -> ObjectIdentifier<39> {
        T::associated_oid()
    }
}
