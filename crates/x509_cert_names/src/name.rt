//! The type `Name`, its getters, and the comparison of names by encoding.

ghost use Rattle.std.specs.Prelude.{◌≡◌, ◌==◌, [], length, refl, IfErr, option_copied, true};
ghost use Rattle.std.specs.Prelude.{IsTrue};
ghost use Rattle.std.specs.Slice.Iter.{iter_rest};
ghost use Rattle.std.specs.List.{AllByRecursion};
ghost use Rattle.der_core.specs.Oid.Bound.{Bound};
ghost use Rattle.der_core.specs.TagTypes.Tag.TheVariants.{Sequence};
ghost use Rattle.der_core.specs.Shapes.{nested, many, IsValid};
ghost use Rattle.der_core.specs.Grammar.{plain_list};
ghost use Rattle.der_core.specs.Leaves.{text};
ghost use Rattle.der_core.specs.Reading.{Gives, GivesNow};
ghost use Rattle.der_core.specs.Texts.{printable, ascii};
ghost use Rattle.der_core.specs.Copies.{IsCopy};
ghost use Rattle.der_types.specs.Contents.{leaf_as};
ghost use Rattle.x509_cert_name_texts.specs.Keys.{x520, email_address};
ghost use Rattle.x509_cert_name_texts.specs.Answers.{GivesBy};
ghost use Rattle.x509_cert_names.specs.NameTexts.{ReadsName};
ghost use Rattle.x509_cert_names.specs.AttributeTypes.{first_value, FirstGives};
ghost use Rattle.x509_cert_names.specs.DirectoryStrings.{directory_plain, directory_from};
ghost use Rattle.x509_cert_names.specs.Names.{relative_name, all_of, name, name_octets};
ghost use Rattle.x509_cert_names.specs.Pairs.{pair_plain, relative_plain};
ghost use Rattle.x509_cert_names.specs.Views.{attributes_left, name_plain, sequence_plain};
ghost use Rattle.x509_cert_names.specs.Ordered.{IsOrdered};

use crate::attribute_type_and_value::AttributeValue;
use crate::attribute_types as types;
use crate::directory_string::DirectoryString;
use crate::from_any::FromAny;
use crate::name_iter::{NameIter, RdnSequenceIter};
use crate::rdn_sequence::RdnSequence;
use crate::relative_distinguished_name::RelativeDistinguishedName;
use der_core::oid::ObjectIdentifier;
use der_core::{
    ApartValue, AsReadValue, DecodeValue, EncodeValue, Error, FixedTag, Header, InRange,
    InRangeValue, Length, Reader, ShapedValue, Tag, ValueOrd, Writer,
};
use der_types::{AsciiStringRef, AsciiType, Ia5StringRef, PrintableStringRef};
use std::alloc::{AllocError, Global};
use std::cmp::Ordering;
use std::fmt;

/// A name (RFC 5280 4.1.2.4).
///
/// ```text
/// Name ::= CHOICE { rdnSequence RDNSequence }
/// ```
#[derive(Debug, Drop, PartialEq, Eq, Hash)]
pub struct Name {
    rdn_sequence: RdnSequence,
}

impl Name {
    /// Parses a name in its string form (RFC 4514), as `RdnSequence::from_str` does.
    ///
    /// # Examples
    ///
    /// From `crates/example_build_certificates/src/main.rt`:
    ///
    /// ```rust
    /// let subject = Name::from_str(alloc, "CN=Example Root,O=Example,C=US")?;
    /// ```
    ///
    /// # Errors
    ///
    /// - The errors of `RdnSequence::from_str`.
    pub fn from_str(alloc: Global, text: &str) -> Result<Name, Error>
        ensures { GivesBy (λ n. n.rdn_sequence.relative_names.items) result
            (ReadsName Bound text.now) }
    {
        let rdn_sequence = RdnSequence::from_str(alloc, text)?;
        Ok(Name { rdn_sequence })
    }

    /// Returns a copy.
    ///
    /// # Errors
    ///
    /// - `AllocError`: memory runs out.
    pub fn clone(&self, alloc: Global) -> Result<Name, AllocError>
        ensures { IsCopy self.now result name_plain }
    {
        Ok(Name {
            rdn_sequence: self.rdn_sequence.clone(alloc)?,
        })
    }

    /// Returns the empty name, which has no RDNs.
    pub fn default(alloc: Global) -> Name
        ensures { name_plain result ≡ [] }
    {
        Name {
            rdn_sequence: RdnSequence::default(alloc),
        }
    }

    /// Returns the name with these RDNs. The call doesn't check that the string types of their
    /// values are those that RFC 5280 4.1.2.4 requires.
    pub fn hazmat_from_rdn_sequence(value: RdnSequence) -> Name
        ensures { name_plain result ≡ sequence_plain value }
    {
        Name {
            rdn_sequence: value,
        }
    }

    /// Returns whether the name has no RDNs.
    pub fn is_empty(&self) -> bool
        ensures { result ≡ (length self.now.rdn_sequence.relative_names.items == 0) }
    {
        self.rdn_sequence.is_empty()
    }

    /// Returns the number of RDNs.
    pub fn len(&self) -> usize
        ensures { result ≡ length self.now.rdn_sequence.relative_names.items }
    {
        self.rdn_sequence.len()
    }

    /// Returns an iterator over the attributes, beginning with the first RDN.
    pub fn iter(&self) -> NameIter<'_>
        ensures { plain_list pair_plain (attributes_left result) ≡ all_of (name_plain self.now) }
    {
        NameIter {
            attributes: &[],
            left: self.rdn_sequence.iter().as_slice(),
        }
    }

    /// Returns an iterator over the RDNs, the most general first.
    pub fn iter_rdn(&self) -> RdnSequenceIter<'_>
        ensures { plain_list relative_plain (iter_rest result) ≡ name_plain self.now }
    {
        self.rdn_sequence.iter()
    }

    /// Returns the value of the first attribute of a type, in the order of the name, or `None` if
    /// there is no such attribute. `iter` yields the others.
    ///
    /// # Errors
    ///
    /// - `TagUnexpected`: the value has the tag of another type than `T`.
    /// - The first error of its content.
    /// - `OutOfMemory`: memory runs out.
    pub fn by_oid<'a, T: FromAny<'a>>(
        &'a self,
        alloc: Global,
        oid: ObjectIdentifier<39>,
    ) -> Result<Option<T>, Error>
        ensures { FirstGives T.any_gives (first_value oid (all_of (name_plain self.now))) result }
    {
        match self.first_value(&oid) {
            Some(value) => match T::from_any(alloc, value) {
                Ok(value) => Ok(Some(value)),
                Err(error) => Err(error),
            },
            None => Ok(None),
        }
    }

    /// Returns the value of the first attribute of a type, in the order of the name, if any.
    fn first_value(&self, oid: &ObjectIdentifier<39>) -> Option<&AttributeValue>
        ensures { option_copied result ≡ first_value oid.now (all_of (name_plain self.now)) }
    {
        for attribute in self.iter() {
            if attribute.oid == *oid {
                return Some(&attribute.value);
            }
        }
        None
    }

    /// Returns the value of the first attribute of a type as a borrowed text, if there is such an
    /// attribute.
    ///
    /// # Errors
    ///
    /// - `TagUnexpected`: the value has the tag of another type.
    /// - The first error of its content.
    fn first_text<T: AsciiType>(
        &self,
        oid: &ObjectIdentifier<39>,
    ) -> Result<Option<AsciiStringRef<'_, T>>, Error>
        ensures { FirstGives
            (λ a r. GivesNow (λ t. t.text.now) r (leaf_as T.string_tag (text T.repertoire) a))
            (first_value oid.now (all_of (name_plain self.now))) result }
    {
        match self.first_value(oid) {
            Some(value) => match AsciiStringRef::try_from(value) {
                Ok(text) => Ok(Some(text)),
                Err(error) => Err(error),
            },
            None => Ok(None),
        }
    }

    /// Returns the first common name (2.5.4.3), or `None` if there is none.
    ///
    /// # Errors
    ///
    /// - `TagUnexpected`: the value isn't a DirectoryString.
    /// - The first error of its content.
    /// - `OutOfMemory`: memory runs out.
    pub fn common_name(&self, alloc: Global) -> Result<Option<DirectoryString>, Error>
        ensures { FirstGives (λ a r. Gives directory_plain r (directory_from a))
            (first_value (x520 3) (all_of (name_plain self.now))) result }
    {
        self.by_oid(alloc, types::common_name())
    }

    /// Returns the first country (2.5.4.6), or `None` if there is none.
    ///
    /// # Errors
    ///
    /// - `TagUnexpected`: the value isn't a PrintableString.
    /// - The first error of its content.
    pub fn country(&self) -> Result<Option<PrintableStringRef<'_>>, Error>
        ensures { FirstGives
            (λ a r. GivesNow (λ t. t.text.now) r (leaf_as Tag.PrintableString (text printable) a))
            (first_value (x520 6) (all_of (name_plain self.now))) result }
    {
        self.first_text(&types::country())
    }

    /// Returns the first state or province (2.5.4.8), or `None` if there is none.
    ///
    /// # Errors
    ///
    /// - `TagUnexpected`: the value isn't a DirectoryString.
    /// - The first error of its content.
    /// - `OutOfMemory`: memory runs out.
    pub fn state_or_province(&self, alloc: Global) -> Result<Option<DirectoryString>, Error>
        ensures { FirstGives (λ a r. Gives directory_plain r (directory_from a))
            (first_value (x520 8) (all_of (name_plain self.now))) result }
    {
        self.by_oid(alloc, types::state_or_province())
    }

    /// Returns the first locality (2.5.4.7), or `None` if there is none.
    ///
    /// # Errors
    ///
    /// - `TagUnexpected`: the value isn't a DirectoryString.
    /// - The first error of its content.
    /// - `OutOfMemory`: memory runs out.
    pub fn locality(&self, alloc: Global) -> Result<Option<DirectoryString>, Error>
        ensures { FirstGives (λ a r. Gives directory_plain r (directory_from a))
            (first_value (x520 7) (all_of (name_plain self.now))) result }
    {
        self.by_oid(alloc, types::locality())
    }

    /// Returns the first organization (2.5.4.10), or `None` if there is none.
    ///
    /// # Errors
    ///
    /// - `TagUnexpected`: the value isn't a DirectoryString.
    /// - The first error of its content.
    /// - `OutOfMemory`: memory runs out.
    pub fn organization(&self, alloc: Global) -> Result<Option<DirectoryString>, Error>
        ensures { FirstGives (λ a r. Gives directory_plain r (directory_from a))
            (first_value (x520 10) (all_of (name_plain self.now))) result }
    {
        self.by_oid(alloc, types::organization())
    }

    /// Returns the first organizational unit (2.5.4.11), or `None` if there is none.
    ///
    /// # Errors
    ///
    /// - `TagUnexpected`: the value isn't a DirectoryString.
    /// - The first error of its content.
    /// - `OutOfMemory`: memory runs out.
    pub fn organization_unit(&self, alloc: Global) -> Result<Option<DirectoryString>, Error>
        ensures { FirstGives (λ a r. Gives directory_plain r (directory_from a))
            (first_value (x520 11) (all_of (name_plain self.now))) result }
    {
        self.by_oid(alloc, types::organization_unit())
    }

    /// Returns the first e-mail address (1.2.840.113549.1.9.1), or `None` if there is none.
    ///
    /// # Errors
    ///
    /// - `TagUnexpected`: the value isn't an IA5String.
    /// - The first error of its content.
    pub fn email_address(&self) -> Result<Option<Ia5StringRef<'_>>, Error>
        ensures { FirstGives
            (λ a r. GivesNow (λ t. t.text.now) r (leaf_as Tag.Ia5String (text ascii) a))
            (first_value email_address (all_of (name_plain self.now))) result }
    {
        self.first_text(&types::email_address())
    }
}

/// Returns the RDNs.
impl AsRef<RdnSequence> for Name {
    fn as_ref(&self) -> &RdnSequence
        ensures { sequence_plain result.now ≡ name_plain self.now }
    {
        &self.rdn_sequence
    }
}

/// Converts a name to its RDNs.
impl From<Name> for RdnSequence {
    ghost from_gives = { λ name sequence. sequence_plain sequence ≡ name_plain name };

    fn from(name: Name) -> RdnSequence {
        name.rdn_sequence
    }
}

impl FixedTag for Name {
    ghost fixed_tag = { Sequence };

    fn tag() -> Tag {
        Tag::Sequence
    }
}

impl ShapedValue for Name {
    ghost content = { nested (many (relative_name Bound)) };

    ghost value_plain = { name_plain };

    ghost value_written = { name_plain };
}

impl<'a, R: Reader<'a>> DecodeValue<'a, R> for Name {
    fn decode_value(alloc: Global, reader: &mut R, header: Header) -> Result<Name, Error> {
        let rdn_sequence = RdnSequence::decode_value(alloc, reader, header)?;
        Ok(Name { rdn_sequence })
    }
}

impl EncodeValue for Name {
    fn value_len(&self) -> Result<Length, Error> {
        self.rdn_sequence.value_len()
    }

    fn encode_value<W: Writer>(&self, writer: &mut W) -> Result<(), Error> {
        self.rdn_sequence.encode_value(writer)
    }
}

impl ApartValue for Name {
    ghost apart_value = { refl };
}

impl AsReadValue for Name {
    ghost as_read_value = { λ _. refl };
}

impl InRangeValue for Name {
    fn value_in_range(&self) {
        self.rdn_sequence.value_in_range();
    }
}

/// Compares the encodings of the RDNs, one after another.
impl ValueOrd for Name {
    fn value_cmp(&self, other: &Self) -> Result<Ordering, Error> {
        self.rdn_sequence.value_cmp(&other.rdn_sequence)
    }
}

/// Writes the RDNs with commas between them, the last RDN first (RFC 4514 2.1).
impl fmt::Display for Name {
    ghost use Rattle.std.specs.Prelude.{Some};
    ghost use Rattle.x509_cert_names.specs.NameTexts.{name_printed};

    ghost output = { λ n. Some (name_printed n.rdn_sequence.relative_names.items) };

    fn fmt<W: fmt::Write>(&self, f: &mut fmt::Formatter<W>) -> fmt::Result {
        self.rdn_sequence.fmt(f)
    }
}

/// Copies the value with its own allocator.
impl Clone for Name {
    ghost is_clone = { λ x y. name_plain y ≡ name_plain x };

    fn clone(&self) -> Result<Name, AllocError> {
        Ok(Name {
            rdn_sequence: <RdnSequence as Clone>::clone(&self.rdn_sequence)?,
        })
    }
}

impl Name {
    /// Returns whether both names have the same encoding, as the issuer of a certificate and the
    /// subject of its issuer must (RFC 5280 6.1.3). The comparison doesn't encode the names.
    ///
    /// If the name itself has no encoding, `false` says nothing.
    pub fn has_octets_of(&self, other: &Name) -> bool
        ensures same { IsTrue result → name_octets Bound (name_plain self.now)
            ≡ name_octets Bound (name_plain other.now) }
        // The other direction holds if the name has an encoding.
        ensures differ { IsValid (name Bound) (name_plain self.now)
            → name_octets Bound (name_plain self.now) ≡ name_octets Bound (name_plain other.now)
            → result ≡ true }
    {
        if self == other {
            return true;
        }
        other.in_range();
        in_order(other.iter_rdn().as_slice());
        false
    }
}

/// States that the attributes of each RDN are in ascending order.
fn in_order(relative_names: &[RelativeDistinguishedName])
    ensures { AllByRecursion (IsOrdered Bound) relative_names.now }
{
    for relative_name in relative_names {
        let _attributes = relative_name.as_slice();
    }
}
