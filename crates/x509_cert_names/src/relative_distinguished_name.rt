ghost use Rattle.std.specs.Prelude.{◌≡◌, ◌∷◌, ◌==◌, true, [], length, IfOk, IfErr, OnOk, OnErr};
ghost use Rattle.std.specs.Prelude.{Some, IfSome, IsTrue, ◌↔◌, ◌⊎◌, ◌≢◌, refl, IsPermutation};
ghost use Rattle.std.specs.Cmp.Lexicographic.{pointwise, lists_per, lists_equiv};
ghost use Rattle.std.specs.Fmt.{WritesOnOk};
ghost use Rattle.std.specs.Hash as fed;
ghost use Rattle.std.specs.Hash.{items_Alike};
ghost use Rattle.std.specs.List.{IsDistinct, flat_map, list_any};
ghost use Rattle.std.specs.Slice.Iter.{iter_rest};
ghost use Rattle.der_core.specs.Oid.Bound.{Bound};
ghost use Rattle.der_core.specs.TagTypes.Tag.TheVariants.{Set};
ghost use Rattle.der_core.specs.Shapes.{nested, rising};
ghost use Rattle.der_core.specs.Placed.{AllValid};
ghost use Rattle.der_types.specs.Sets.{Ascends, IsRefusal, TooLong};
ghost use Rattle.x509_cert_name_texts.specs.Answers.{GivesBy};
ghost use Rattle.x509_cert_names.specs.NameTexts.{ReadsRelative, relative_printed, printed_behind};
ghost use Rattle.x509_cert_names.specs.ValueTexts.{attribute_printed};
ghost use Rattle.x509_cert_names.specs.Names.{type_and_value};
ghost use Rattle.x509_cert_names.specs.Ordered.{DifferInTurn, IsOrdered};
ghost use Rattle.x509_cert_names.specs.Pairs.{pair_plain, same_pair, same_pair_equiv};
ghost use Rattle.x509_cert_names.specs.Pairs.{pair_fed, pair_fed_alike};
ghost use Rattle.std.specs.Cmp.{partial_equiv_from_equiv};
ghost use Rattle.x509_cert_names.specs.Pairs.{relative_plain};
ghost use Rattle.x509_cert_names.specs.Alone.{StandsAlone};

use crate::attribute_set::AttributeSet;
use crate::attribute_type_and_value::{AttributeTypeAndValue, plain_attribute};
use crate::members::{arrange, copy_of, decode_members};
use der_core::{
    ApartValue, AsReadValue, DecodeValue, Encode, EncodeValue, Error, ErrorKind, FixedTag, FromDer,
    Header, InRange, InRangeValue, Length, Reader, ShapedValue, Tag, ValueOrd, Writer,
};
use der_types::SetOfIter;
use der_types::making::place_of;
use std::alloc::{AllocError, Global};
use std::cmp::Ordering;
use std::convert::AsSlice;
use std::fmt;
use std::hash::{Hash, Hasher};
use std::marker::Model;
use x509_cert_name_texts::{FromText, read_pieces};

/// An RDN (RFC 5280 4.1.2.4): a set of different attributes, in ascending order of their encodings.
/// Unlike in RFC 5280, the set may be empty.
///
/// In contracts, its value is the list of the attributes.
///
/// ```text
/// RelativeDistinguishedName ::= SET OF AttributeTypeAndValue
/// ```
#[derive(Debug, Drop)]
pub struct RelativeDistinguishedName {
    attributes: AttributeSet,
}

impl Model for RelativeDistinguishedName {
    ghost use Rattle.std.specs.Prelude.{List};
    ghost use Rattle.der_core.specs.Oid.Bound.{Bound};
    ghost use Rattle.x509_cert_names.specs.declared.attribute_type_and_value.AttributeTypeAndValue.{AttributeTypeAndValue};
    ghost use Rattle.std.specs.List.{IsDistinct};
    ghost use Rattle.der_types.specs.Sets.{Ascends};
    ghost use Rattle.x509_cert_names.specs.Names.{type_and_value};
    ghost use Rattle.x509_cert_names.specs.Pairs.{pair_plain, same_pair};

    ghost Value = { List AttributeTypeAndValue };

    ghost view = { λ r. r.attributes };

    ghost invariant = { λ r. IsDistinct same_pair r.attributes
        × Ascends (type_and_value Bound) pair_plain r.attributes };
}

/// Checks that each attribute has an encoding.
///
/// # Errors
///
/// - `Overflow`: an attribute has no encoding, for example because its length exceeds 2^32 - 1.
fn have_encodings(attributes: &[AttributeTypeAndValue]) -> Result<(), Error>
    ensures ok { IfOk result (λ _. AllValid (type_and_value Bound) pair_plain attributes.now) }
    ensures refused { IfErr result (TooLong (type_and_value Bound) pair_plain attributes.now) }
{
    for attribute in attributes {
        attribute.in_range();
        attribute.encoded_len()?;
    }
    Ok(())
}

/// Returns whether each attribute differs from the next one.
fn are_apart(attributes: &[AttributeTypeAndValue]) -> bool
    ensures { IsTrue result ↔ DifferInTurn attributes.now }
{
    for place in 1..attributes.len() {
        if attributes[place - 1] == attributes[place] {
            return false;
        }
    }
    true
}

impl RelativeDistinguishedName {
    /// Parses an RDN in its string form (RFC 4514 2.2, 3): different attributes, separated by `+`.
    ///
    /// # Errors
    ///
    /// - The error of the first attribute that is rejected (`AttributeTypeAndValue::from_str`).
    /// - `SetDuplicate`: an attribute occurs twice.
    /// - `Overflow`: an attribute has no encoding, for example because its length exceeds 2^32 - 1.
    /// - `OutOfMemory`: memory runs out.
    pub fn from_str(alloc: Global, text: &str) -> Result<RelativeDistinguishedName, Error>
        ensures { GivesBy (λ r. r) result (ReadsRelative Bound text.now) }
    {
        let attributes = read_pieces(alloc, text, b'+')?;
        let relative = RelativeDistinguishedName::try_from_vec(attributes)?;
        Ok(relative)
    }

    /// Returns a copy.
    ///
    /// # Errors
    ///
    /// - `AllocError`: memory runs out.
    pub fn clone(&self, alloc: Global) -> Result<RelativeDistinguishedName, AllocError>
        ensures { IfOk result (λ r. r ≡ self.now) }
    {
        let values = copy_of(alloc, self.as_slice())?;
        Ok(RelativeDistinguishedName {
            attributes: AttributeSet::of(values),
        })
    }

    /// Returns the empty RDN.
    pub fn default(alloc: Global) -> RelativeDistinguishedName
        ensures { result ≡ [] }
    {
        RelativeDistinguishedName {
            attributes: AttributeSet::of(Vec::new(alloc)),
        }
    }

    /// Returns the RDN with these attributes, which may be in any order. The call doesn't allocate.
    ///
    /// # Errors
    ///
    /// - `SetDuplicate`: an attribute occurs twice.
    /// - `Overflow`: an attribute has no encoding, for example because its length exceeds 2^32 - 1.
    pub fn try_from_vec(attributes: Vec<AttributeTypeAndValue>) -> Result<Self, Error>
        ensures ok { IfOk result (IsPermutation attributes.items) }
        ensures ordered { IfOk result (IsOrdered Bound) }
        ensures valid { IfOk result (AllValid (type_and_value Bound) pair_plain) }
        ensures refused { IfErr result
            (λ e. (e.kind ≡ ErrorKind.SetDuplicate × (IsDistinct same_pair attributes.items → ⊥))
            ⊎ TooLong (type_and_value Bound) pair_plain attributes.items e) }
    {
        let values = arrange(attributes)?;
        have_encodings(values.as_slice())?;
        if !are_apart(values.as_slice()) {
            return Err(Error::from(ErrorKind::SetDuplicate));
        }
        Ok(RelativeDistinguishedName {
            attributes: AttributeSet::of(values),
        })
    }

    /// Inserts an attribute at the position that its encoding requires.
    ///
    /// If the call fails, the RDN is unchanged.
    ///
    /// # Errors
    ///
    /// - `SetDuplicate`: the RDN already contains the attribute.
    /// - `Overflow`: an attribute has no encoding, for example because its length exceeds 2^32 - 1.
    /// - `OutOfMemory`: memory runs out.
    pub fn insert(&mut self, item: AttributeTypeAndValue) -> Result<(), Error>
        ensures ok { OnOk result (IsPermutation (item ∷ self.old) self.new) }
        ensures err { OnErr result (self.new ≡ self.old) }
        ensures refused { IfErr result
            (λ e. (e.kind ≡ ErrorKind.SetDuplicate × list_any (λ a. same_pair a item) self.old
            ≡ true) ⊎ IsRefusal (type_and_value Bound) pair_plain (item ∷ self.old) e) }
    {
        if self.as_slice().contains(&item) {
            return Err(Error::from(ErrorKind::SetDuplicate));
        }
        let place = place_of(self.as_slice(), &item)?;
        self.attributes.insert(place, item)?;
        Ok(())
    }

    /// Returns whether the RDN has no attributes.
    pub fn is_empty(&self) -> bool
        ensures { result ≡ (length self.now == 0) }
    {
        self.attributes.as_slice().is_empty()
    }

    /// Returns the number of attributes.
    pub fn len(&self) -> usize
        ensures { result ≡ length self.now }
    {
        self.attributes.as_slice().len()
    }

    /// Returns an iterator over the attributes, in ascending order of their encodings.
    pub fn iter(&self) -> SetOfIter<'_, AttributeTypeAndValue>
        ensures { iter_rest result ≡ self.now }
    {
        self.as_slice().iter()
    }

    /// Returns the attributes as a slice, in ascending order of their encodings.
    pub fn as_slice(&self) -> &[AttributeTypeAndValue]
        ensures attributes { result.now ≡ self.now }
        ensures ascend { Ascends (type_and_value Bound) pair_plain result.now }
        ensures distinct { IsDistinct same_pair result.now }
    {
        self.attributes.as_slice()
    }
}

/// Decodes the single attribute that the next `len` bytes of a reader contain, if the reader allows
/// two more levels of nesting: one for the set and one for the attribute. Returns `None` if this
/// fast path doesn't apply; the general decoder then decides.
fn one_attribute<'a, R: Reader<'a>>(
    alloc: Global,
    reader: &R,
    len: usize,
) -> Option<AttributeTypeAndValue>
    ensures { IfSome result (StandsAlone Bound (R.state reader.now) len) }
{
    let rest = reader.remaining();
    if reader.is_failed() || reader.levels_left() < 2 || rest.len() < len {
        return None;
    }
    if let Some(one) = plain_attribute(alloc, &rest[..len]) {
        return Some(one);
    }
    match AttributeTypeAndValue::from_der(alloc, &rest[..len]) {
        Ok(one) => Some(one),
        Err(_) => None,
    }
}

impl FixedTag for RelativeDistinguishedName {
    ghost fixed_tag = { Set };

    fn tag() -> Tag {
        Tag::Set
    }
}

impl ShapedValue for RelativeDistinguishedName {
    ghost content = { nested (rising (type_and_value Bound)) };

    ghost value_plain = { relative_plain };

    ghost value_written = { relative_plain };
}

impl<'a, R: Reader<'a>> DecodeValue<'a, R> for RelativeDistinguishedName {
    fn decode_value(alloc: Global, reader: &mut R, header: Header) -> Result<Self, Error> {
        let len = header.length.value as usize;
        if let Some(one) = one_attribute(alloc, reader, len) {
            reader.skip(len);
            return Ok(RelativeDistinguishedName {
                attributes: AttributeSet::one(alloc, one),
            });
        }
        let values = decode_members(alloc, reader, header)?;
        Ok(RelativeDistinguishedName {
            attributes: AttributeSet::of(values),
        })
    }
}

impl EncodeValue for RelativeDistinguishedName {
    fn value_len(&self) -> Result<Length, Error> {
        self.attributes.value_len()
    }

    fn encode_value<W: Writer>(&self, writer: &mut W) -> Result<(), Error> {
        self.attributes.encode_value(writer)
    }
}

impl ApartValue for RelativeDistinguishedName {
    ghost apart_value = { refl };
}

impl AsReadValue for RelativeDistinguishedName {
    ghost as_read_value = { λ _. refl };
}

impl InRangeValue for RelativeDistinguishedName {
    fn value_in_range(&self) {
        self.attributes.value_in_range();
    }
}

/// Compares the encodings of the attributes, one after another.
impl ValueOrd for RelativeDistinguishedName {
    fn value_cmp(&self, other: &Self) -> Result<Ordering, Error> {
        self.attributes.value_cmp(&other.attributes)
    }
}

/// Returns the attributes as a slice, in ascending order of their encodings.
impl AsSlice<AttributeTypeAndValue> for RelativeDistinguishedName {
    ghost items = { λ r. r };

    fn as_slice(&self) -> &[AttributeTypeAndValue] {
        self.attributes.as_slice()
    }
}

/// Parses a text as `from_str` does.
impl FromText for RelativeDistinguishedName {
    ghost reads_text = { ReadsRelative Bound };

    fn from_text(alloc: Global, text: &str) -> Result<RelativeDistinguishedName, Error> {
        Ok(RelativeDistinguishedName::from_str(alloc, text)?)
    }
}

/// Writes the attributes with `+` between them, in ascending order of their encodings (RFC 4514
/// 2.2).
impl fmt::Display for RelativeDistinguishedName {
    ghost output = { λ r. Some (relative_printed r) };

    fn fmt<W: fmt::Write>(&self, f: &mut fmt::Formatter<W>) -> fmt::Result {
        write_attributes(self.as_slice(), f)
    }
}

/// Writes attributes with `+` between them.
fn write_attributes<W: fmt::Write>(
    attributes: &[AttributeTypeAndValue],
    f: &mut fmt::Formatter<W>,
) -> fmt::Result
    ensures { WritesOnOk W.write_str_gives f.old result (relative_printed attributes.now) f.new }
{
    let Some((first, later)) = attributes.split_first() else {
        return Ok(());
    };
    fmt::Display::fmt(first, f)?;
    write_later(later, f)
}

/// Writes `+` and an attribute.
fn write_next<W: fmt::Write>(
    attribute: &AttributeTypeAndValue,
    f: &mut fmt::Formatter<W>,
) -> fmt::Result
    ensures { WritesOnOk W.write_str_gives f.old result
        (printed_behind 43 attribute_printed attribute.now)
        f.new }
{
    write!(f, "+{attribute}")
}

/// Writes `+` before each attribute.
fn write_later<W: fmt::Write>(
    attributes: &[AttributeTypeAndValue],
    f: &mut fmt::Formatter<W>,
) -> fmt::Result
    ensures { WritesOnOk W.write_str_gives f.old result
        (flat_map (printed_behind 43 attribute_printed) attributes.now) f.new }
{
    for attribute in attributes {
        write_next(attribute, f)?;
    }
    Ok(())
}

/// Copies the value with its own allocator.
impl Clone for RelativeDistinguishedName {
    ghost is_clone = { λ x y. y ≡ x };

    fn clone(&self) -> Result<RelativeDistinguishedName, AllocError> {
        let values = copy_of(*self.attributes.allocator(), self.as_slice())?;
        Ok(RelativeDistinguishedName {
            attributes: AttributeSet::of(values),
        })
    }
}

/// Compares the attributes, one after another.
impl PartialEq for RelativeDistinguishedName {
    ghost eq = { pointwise same_pair };

    ghost laws = { lists_per (partial_equiv_from_equiv same_pair_equiv) };

    fn eq(&self, other: &Self) -> bool {
        match (self.attributes.as_slice(), other.attributes.as_slice()) {
            ([one], [other]) => one == other,
            (these, others) => these == others,
        }
    }
}

impl Eq for RelativeDistinguishedName {
    ghost laws = { lists_equiv same_pair_equiv };
}

/// Hashes the number of attributes, and each of them.
impl Hash for RelativeDistinguishedName {
    ghost hash_input = { fed.slice pair_fed };

    ghost respects_eq = { (items_Alike (record { fed = pair_fed_alike })).fed };

    fn hash<H: Hasher>(&self, state: &mut H) {
        self.attributes.as_slice().hash(state);
    }
}

/// Returns the set of attributes.
impl AsRef<AttributeSet> for RelativeDistinguishedName {
    fn as_ref(&self) -> &AttributeSet
        ensures { result.now ≡ self.now }
    {
        &self.attributes
    }
}

/// Converts the RDN to its set of attributes.
impl From<RelativeDistinguishedName> for AttributeSet {
    ghost from_gives = { λ name attributes. attributes ≡ name };

    fn from(name: RelativeDistinguishedName) -> AttributeSet {
        name.attributes
    }
}
