//! The set of attributes in an RDN. A single attribute is stored inline, without an allocation.

ghost use Rattle.std.specs.Prelude.{◌≡◌, ◌≤◌, [], ◌∷◌, length, IfOk, OnOk, OnErr, insert};
ghost use Rattle.der_core.specs.Oid.Bound.{Bound};
ghost use Rattle.der_core.specs.Shapes.{nested, rising};
ghost use Rattle.x509_cert_names.specs.Names.{type_and_value};
ghost use Rattle.x509_cert_names.specs.Pairs.{relative_plain};

use crate::attribute_type_and_value::AttributeTypeAndValue;
use crate::members::copy_of;
use der_core::making::elements_cmp;
use der_core::{
    EncodeValue, Error, InRange, InRangeValue, Length, ShapedValue, StrictSetOf, ValueOrd, Writer,
};
use std::alloc::{AllocError, Global};
use std::cmp::Ordering;
use std::fmt;
use std::marker::Model;

/// The attributes of an RDN (RFC 5280 4.1.2.4). A single attribute is stored inline. The set has an
/// encoding only if the encodings of its attributes ascend (X.690 11.6).
///
/// In contracts, its value is the list of the attributes.
#[derive(Drop)]
pub struct AttributeSet {
    store: Store,
    alloc: Global,
}

/// The storage: a single attribute inline, or any number of attributes in a list.
#[derive(Drop)]
enum Store {
    One(AttributeTypeAndValue),
    Many(StrictSetOf<AttributeTypeAndValue>),
}

impl Model for AttributeSet {
    ghost use Rattle.std.specs.Prelude.{List};
    ghost use Rattle.x509_cert_names.specs.declared.attribute_type_and_value.AttributeTypeAndValue.{AttributeTypeAndValue};
    ghost use Rattle.x509_cert_names.specs.Stored.{stored};

    ghost Value = { List AttributeTypeAndValue };

    ghost view = { λ s. stored s.store };
}

impl AttributeSet {
    /// Returns the set with the attributes of this list, in the same order. It reuses the list's
    /// memory.
    pub(crate) fn of(values: Vec<AttributeTypeAndValue>) -> AttributeSet
        ensures { result ≡ values.items }
    {
        AttributeSet {
            alloc: *values.allocator(),
            store: Store::Many(StrictSetOf { values }),
        }
    }

    /// Returns the set with a single attribute. It doesn't allocate.
    pub(crate) fn one(alloc: Global, attribute: AttributeTypeAndValue) -> AttributeSet
        ensures { result ≡ attribute ∷ [] }
    {
        AttributeSet {
            store: Store::One(attribute),
            alloc,
        }
    }

    /// Returns the attributes as a slice.
    #[inline]
    pub fn as_slice(&self) -> &[AttributeTypeAndValue]
        ensures { result.now ≡ self.now }
    {
        match &self.store {
            Store::One(one) => std::slice::from_ref(one),
            Store::Many(many) => many.values.as_slice(),
        }
    }

    /// Returns the allocator that copies are made with.
    pub(crate) fn allocator(&self) -> &Global {
        &self.alloc
    }

    /// Inserts an attribute at an index.
    ///
    /// # Errors
    ///
    /// - `AllocError`: memory runs out. The set is unchanged.
    pub(crate) fn insert(
        &mut self,
        place: usize,
        item: AttributeTypeAndValue,
    ) -> Result<(), AllocError>
        requires { place ≤ length self.old }
        ensures ok { OnOk result (self.new ≡ insert self.old place item) }
        ensures err { OnErr result (self.new ≡ self.old) }
    {
        if let Store::Many(many) = &mut self.store {
            many.values.insert(place, item)?;
            return Ok(());
        }
        let mut values = copy_of(self.alloc, self.as_slice())?;
        values.insert(place, item)?;
        self.store = Store::Many(StrictSetOf { values });
        Ok(())
    }

    /// Returns the attributes as a list. It allocates only for a single attribute, which is stored
    /// inline.
    ///
    /// # Errors
    ///
    /// - `AllocError`: memory runs out.
    pub fn into_vec(self) -> Result<Vec<AttributeTypeAndValue>, AllocError>
        ensures { IfOk result (λ v. v.items ≡ self) }
    {
        let AttributeSet { store, alloc } = self;
        match store {
            Store::One(one) => {
                let mut values = Vec::with_capacity(alloc, 1)?;
                values.push(one)?;
                Ok(values)
            }
            Store::Many(many) => Ok(many.values),
        }
    }
}

impl ShapedValue for AttributeSet {
    ghost content = { nested (rising (type_and_value Bound)) };

    ghost value_plain = { relative_plain };

    ghost value_written = { relative_plain };
}

impl EncodeValue for AttributeSet {
    fn value_len(&self) -> Result<Length, Error> {
        match &self.store {
            Store::One(one) => one.octet_count(),
            Store::Many(many) => many.value_len(),
        }
    }

    #[tactic(auto, using(crate::proofs::Cited::first_added), unfolding(crate::specs::Opened::contents))]
    fn encode_value<W: Writer>(&self, writer: &mut W) -> Result<(), Error> {
        match &self.store {
            Store::One(one) => one.write_octets(writer),
            Store::Many(many) => many.encode_value(writer),
        }
    }
}

impl InRangeValue for AttributeSet {
    fn value_in_range(&self) {
        match &self.store {
            Store::One(one) => one.in_range(),
            Store::Many(many) => many.value_in_range(),
        }
    }
}

/// Compares the encodings of the attributes, one after another.
impl ValueOrd for AttributeSet {
    #[tactic(auto, unfolding(crate::specs::Opened::contents, crate::specs::Opened::IsContent, crate::specs::Opened::body_octets, crate::specs::Opened::IsBody))]
    fn value_cmp(&self, other: &Self) -> Result<Ordering, Error> {
        elements_cmp(self.as_slice(), other.as_slice())
    }
}

/// Formats the attributes as a slice.
impl fmt::Debug for AttributeSet {
    fn fmt<W: fmt::Write>(&self, f: &mut fmt::Formatter<W>) -> fmt::Result {
        fmt::Debug::fmt(self.as_slice(), f)
    }
}
