//! The attribute types of a name, while its rules are checked.

ghost use Rattle.std.specs.Prelude.{◌≡◌, ◌<◌, ◌≤◌, ℕ, List, [], ◌∷◌, ◌++◌, IfOk, length, Ok, Err};
ghost use Rattle.std.specs.List.{list_all, position_or_len};
ghost use Rattle.x509_cert_certificates.specs.Oid.Comparing.{owned_eq};
ghost use Rattle.x509_cert_certificates.specs.CertNames.Pairs.{relative_plain};
ghost use Rattle.x509_cert_builders.specs.Naming.{ordered_types, is_among, may_follow, type_behind};
ghost use Rattle.x509_cert_builders.specs.TypeSets.{HasTypes, IsLeastRank};

use crate::attribute_types::ordered_types;
use crate::build_error::Error;
use std::alloc::{AllocError, Global};
use std::collections::BTreeSet;
use std::marker::Model;
use x509_cert_certificates::cert_names::RelativeDistinguishedName;
use x509_cert_certificates::oid::ObjectIdentifier;

/// Returns the index of the OID in the list, or the length of the list if the OID isn't in it.
fn rank_among(types: &[ObjectIdentifier<39>], oid: &ObjectIdentifier<39>) -> usize
    ensures { result ≡ position_or_len (λ u. owned_eq u oid.now) types.now }
{
    for place in 0..types.len() {
        if types[place] == *oid {
            return place;
        }
    }
    types.len()
}

/// Returns the smallest rank that a type may have after the earlier types and this one. `least` is
/// the smallest rank after the earlier types.
fn least_behind(ordered: &[ObjectIdentifier<39>], oid: &ObjectIdentifier<39>, least: usize) -> usize
    ensures { ordered.now ≡ ordered_types → (types : List (List ℕ)) → IsLeastRank types least
        → IsLeastRank (types ++ oid.now ∷ []) result }
{
    let rank = rank_among(ordered, oid);
    if least <= rank && rank < ordered.len() {
        return rank + 1;
    }
    least
}

/// The attribute types of the RDNs that were checked so far.
///
/// In contracts, its value is the list of the types.
#[derive(Drop)]
pub(crate) struct TypesBefore {
    // The types, in the order of the name.
    types: Vec<ObjectIdentifier<39>>,
    // A set of these types, for lookups.
    seen: BTreeSet<ObjectIdentifier<39>, Global>,
    // The attribute types whose order is fixed.
    ordered: [ObjectIdentifier<39>; 11],
    // The smallest rank in that order that the next type may have.
    least: usize,
}

impl Model for TypesBefore {
    ghost Value = { List (List ℕ) };

    ghost view = { λ t. t.types.items };

    ghost invariant = { λ t. (t.ordered ≡ ordered_types) × HasTypes t.types.items t.seen
        × IsLeastRank t.types.items t.least };
}

impl TypesBefore {
    /// Returns the empty list of types.
    pub(crate) fn new(alloc: Global) -> TypesBefore
        ensures { result ≡ [] }
    {
        TypesBefore {
            types: Vec::new(alloc),
            seen: BTreeSet::new(alloc),
            ordered: ordered_types(),
            least: 0,
        }
    }

    /// Returns whether the type is in the list.
    fn has(&self, oid: &ObjectIdentifier<39>) -> bool
        ensures { result ≡ is_among self.now oid.now }
    {
        self.seen.contains(oid)
    }

    /// Returns whether the type may come after all types in the list.
    fn may_be_followed_by(&self, oid: &ObjectIdentifier<39>) -> bool
        ensures { result ≡ list_all (may_follow oid.now) self.now }
    {
        self.least <= rank_among(&self.ordered, oid)
    }

    /// Returns the attribute type of the next RDN, if the RDN is allowed after these types.
    ///
    /// # Errors
    ///
    /// - `NonUniqueRdn`: the RDN doesn't have exactly one attribute.
    /// - `NonUniqueATV`: the attribute type is in the list, and `multiple_allowed` is false.
    /// - `InvalidAttribute` with the attribute type: it isn't allowed after those before it.
    pub(crate) fn type_behind(
        &self,
        relative: &RelativeDistinguishedName,
        multiple_allowed: bool,
    ) -> Result<ObjectIdentifier<39>, Error>
        ensures { result ≡ type_behind multiple_allowed self.now (relative_plain relative.now) }
    {
        let [attribute] = relative.as_slice() else {
            return Err(Error::NonUniqueRdn);
        };
        let oid = attribute.oid;
        if !multiple_allowed && self.has(&oid) {
            return Err(Error::NonUniqueATV);
        }
        if !self.may_be_followed_by(&oid) {
            return Err(Error::InvalidAttribute { oid });
        }
        Ok(oid)
    }

    /// Returns the list with another type at its end.
    ///
    /// # Errors
    ///
    /// - `AllocError`: memory runs out.
    pub(crate) fn and(self, oid: ObjectIdentifier<39>) -> Result<TypesBefore, AllocError>
        ensures { IfOk result (λ t. t ≡ self ++ oid ∷ []) }
    {
        let TypesBefore {
            mut types,
            mut seen,
            ordered,
            least,
        } = self;
        let least = least_behind(&ordered, &oid, least);
        seen.insert(oid)?;
        types.push(oid)?;
        Ok(TypesBefore {
            types,
            seen,
            ordered,
            least,
        })
    }

    /// Converts the value to the list of types.
    pub(crate) fn into_types(self) -> Vec<ObjectIdentifier<39>>
        ensures { result.items ≡ self }
    {
        self.types
    }
}
