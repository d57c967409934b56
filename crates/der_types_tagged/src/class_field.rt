//! Values with a tag of a class.

ghost use Rattle.std.specs.Prelude.{◌≡◌, ◌↔◌, ◌/◌, [], Ok, None, false, true, IsTrue, IfOk, IfSome};
ghost use Rattle.std.specs.Prelude.{IfErr};
ghost use Rattle.der_core.specs.Classes.{tag_class};
ghost use Rattle.der_core.specs.Shapes.{nested, only, optional, tagged, IsContent, IsValid};
ghost use Rattle.der_core.specs.Shapes.{contents, octets_of};
ghost use Rattle.der_core.specs.Spelling.{is_content_apart};
ghost use Rattle.der_core.specs.Grammar.{plain_option};
ghost use Rattle.der_core.specs.Reading.{Gives, GivesNow, Reads, read_at};
ghost use Rattle.der_core.specs.Writing.{Writes, size, size_content, write, write_content};
ghost use Rattle.der_core.specs.Orders.{contents_cmp, octets_cmp, Overflows};
ghost use Rattle.der_types_tagged.specs.Fields.{field_tag, explicit_field, implicit_field};
ghost use Rattle.der_types_tagged.specs.Fields.{numbered_at, IsClass};
ghost use Rattle.der_core.specs.Outputs.{AddsFront, Continues};

use crate::class_field_ref::ClassFieldRef;
use crate::fields::{
    der_cmp_of_fields, der_of_field, encode_field, encode_value_of_field, len_of_field,
    tag_of_field, value_cmp_of_fields, value_len_of_field,
};
use der_core::making::{
    is_constructed, leading_octet_of, optional_explicit, optional_implicit, read_explicit,
    tag_of_class,
};
use der_core::{
    Decode, DecodeValue, EncodeValue, Error, FixedTag, Length, Reader, Tag, TagMode, TagNumber,
    Tagged, ValueOrd, Writer,
};
use std::alloc::{AllocError, Global};
use std::cmp::Ordering;

/// A value with a tag of a class. `CLASS` is the class bits of the first byte of a tag (X.690
/// 8.1.2.2): `CLASS_APPLICATION`, `CLASS_CONTEXT_SPECIFIC` or `CLASS_PRIVATE`.
///
/// The tag is either before the value's own tag or in its place (X.680 31, X.690 8.14).
#[derive(Debug, Drop, PartialEq, Eq)]
pub struct ClassField<T, const CLASS: u8> {
    /// The number of the tag.
    pub tag_number: TagNumber,
    /// The mode of the tag: explicit or implicit.
    pub tag_mode: TagMode,
    /// The value.
    pub value: T,
    ghost class: { IsClass CLASS },
}

/// Clones the value.
impl<T: Clone, const CLASS: u8> Clone for ClassField<T, CLASS> {
    ghost is_clone = { λ x y. (y.tag_number ≡ x.tag_number)
        × ((y.tag_mode ≡ x.tag_mode) × T.is_clone x.value y.value) };

    ghost is_infallible = { λ x. T.is_infallible x.value };

    fn clone(&self) -> Result<ClassField<T, CLASS>, AllocError> {
        let value = self.value.clone()?;
        let tag_number = self.tag_number;
        Ok(ClassField {
            tag_number,
            tag_mode: self.tag_mode,
            value,
        })
    }
}

impl<T, const CLASS: u8> ClassField<T, CLASS> {
    /// Decodes a value with an explicit tag with this number, if that tag is next (X.690 8.14.2).
    /// If another tag or the end is next, it returns `None` and consumes nothing.
    ///
    /// # Errors
    ///
    /// - The first error that decoding meets.
    /// - `OutOfMemory`: memory runs out.
    /// - `Failed`: the reader failed before.
    pub fn decode_explicit<'a, R: Reader<'a>>(
        alloc: Global,
        reader: &mut R,
        tag_number: TagNumber,
    ) -> Result<Option<ClassField<T, CLASS>>, Error>
    where
        T: Decode<'a, R>,
        requires { IsClass CLASS }
        ensures reads { Reads (plain_option (λ f. T.plain f.value)) (R.state reader.old)
            (R.state reader.new)
            result
            (read_at (R.state reader.old)
            (optional (explicit_field CLASS tag_number.value T.shape))) }
        ensures tag { IfOk result
            (λ o. IfSome o (λ f. (f.tag_number ≡ tag_number) × (f.tag_mode ≡ TagMode.Explicit))) }
    {
        let tag_mode = TagMode::Explicit;
        let tag = tag_of_class(CLASS / 64, true, tag_number.value);
        let Some(value) = optional_explicit(alloc, reader, tag)? else {
            return Ok(None);
        };
        Ok(Some(ClassField {
            tag_number,
            tag_mode,
            value,
        }))
    }

    /// Decodes a value with an implicit tag with this number, if that tag is next in the form of
    /// the value's own tag (X.690 8.14.3). If another tag or the end is next, it returns `None` and
    /// consumes nothing.
    ///
    /// # Errors
    ///
    /// - The first error that decoding meets.
    /// - `OutOfMemory`: memory runs out.
    /// - `Failed`: the reader failed before.
    pub fn decode_implicit<'a, R: Reader<'a>>(
        alloc: Global,
        reader: &mut R,
        tag_number: TagNumber,
    ) -> Result<Option<ClassField<T, CLASS>>, Error>
    where
        T: DecodeValue<'a, R> + FixedTag,
        requires { IsClass CLASS }
        ensures reads { Reads (plain_option (λ f. T.value_plain f.value)) (R.state reader.old)
            (R.state reader.new) result
            (read_at (R.state reader.old)
            (optional (implicit_field CLASS tag_number.value T.fixed_tag T.content))) }
        ensures tag { IfOk result
            (λ o. IfSome o (λ f. (f.tag_number ≡ tag_number) × (f.tag_mode ≡ TagMode.Implicit))) }
    {
        let tag_mode = TagMode::Implicit;
        let tag = tag_of_class(CLASS / 64, is_constructed(T::tag()), tag_number.value);
        let Some(value) = optional_implicit(alloc, reader, tag)? else {
            return Ok(None);
        };
        Ok(Some(ClassField {
            tag_number,
            tag_mode,
            value,
        }))
    }

    /// Decodes a value with an explicit tag of the class, whatever its number is (X.690 8.14.2).
    ///
    /// # Errors
    ///
    /// - `TagUnexpected`: the next tag is of another class, or primitive.
    /// - The first error that decoding meets.
    /// - `OutOfMemory`: memory runs out.
    /// - `Failed`: the reader failed before.
    #[tactic(auto, unfolding(crate::specs::Fields::numbered_at))]
    pub fn decode<'a, R: Reader<'a>>(
        alloc: Global,
        reader: &mut R,
    ) -> Result<ClassField<T, CLASS>, Error>
    where
        T: Decode<'a, R>,
        requires { IsClass CLASS }
        ensures reads { Reads (λ f. (f.tag_number.value, T.plain f.value)) (R.state reader.old)
            (R.state reader.new) result
            (numbered_at (R.state reader.old).source.encoding CLASS T.shape
            (R.state reader.old).room) }
        ensures mode { IfOk result (λ f. f.tag_mode ≡ TagMode.Explicit) }
    {
        let tag_mode = TagMode::Explicit;
        let header = match reader.peek_header() {
            Ok(header) => header,
            Err(error) => {
                reader.fail();
                return Err(error);
            }
        };
        let tag_number = header.tag.number();
        let tag = tag_of_class(CLASS / 64, true, tag_number.value);
        let value = read_explicit(alloc, reader, tag)?;
        Ok(ClassField {
            tag_number,
            tag_mode,
            value,
        })
    }

    /// Returns whether a tag is of the class.
    pub fn can_decode(tag: Tag) -> bool
        requires { IsClass CLASS }
        ensures { IsTrue result ↔ (tag_class tag ≡ CLASS / 64) }
    {
        leading_octet_of(tag) / 64 == CLASS / 64
    }

    /// Returns the borrowed form of the field.
    pub fn owned_to_ref(&self) -> ClassFieldRef<'_, T, CLASS>
        ensures number { result.tag_number ≡ self.now.tag_number }
        ensures mode { result.tag_mode ≡ self.now.tag_mode }
        ensures value { result.value.now ≡ self.now.value }
    {
        ClassFieldRef {
            tag_number: self.tag_number,
            tag_mode: self.tag_mode,
            value: &self.value,
        }
    }
}

/// The tag is of the class, in the form that the mode requires.
impl<T: Tagged, const CLASS: u8> Tagged for ClassField<T, CLASS> {
    ghost own_tag = { λ f. field_tag CLASS f.tag_mode f.tag_number.value (T.own_tag f.value) };

    fn tag(&self) -> Tag {
        tag_of_field(CLASS, self.tag_mode, self.tag_number, self.value.tag())
    }
}

impl<T: EncodeValue + FixedTag, const CLASS: u8> ClassField<T, CLASS> {
    /// Returns the length of the content.
    ///
    /// # Errors
    ///
    /// - `Overflow`: the length is 2^32 or more.
    pub fn value_len(&self) -> Result<Length, Error>
        ensures explicit { self.now.tag_mode ≡ TagMode.Explicit
            → GivesNow (λ l. l.value) result
            (size_content (nested (only (tagged T.fixed_tag T.content)))
            (T.value_written self.now.value)) }
        ensures implicit { self.now.tag_mode ≡ TagMode.Implicit
            → GivesNow (λ l. l.value) result
            (size_content T.content (T.value_written self.now.value)) }
    {
        value_len_of_field(self.tag_mode, &self.value)
    }

    /// Encodes the content.
    ///
    /// # Errors
    ///
    /// - `Overflow`: a length exceeds 2^32 - 1.
    /// - The errors of the writer.
    pub fn encode_value<W: Writer>(&self, writer: &mut W) -> Result<(), Error>
        ensures explicit { self.now.tag_mode ≡ TagMode.Explicit
            → Writes W.takes_memory (W.out writer.old) (W.out writer.new) result
            (write_content (nested (only (tagged T.fixed_tag T.content)))
            (T.value_written self.now.value)) }
        ensures implicit { self.now.tag_mode ≡ TagMode.Implicit
            → Writes W.takes_memory (W.out writer.old) (W.out writer.new) result
            (write_content T.content (T.value_written self.now.value)) }
        ensures kept { Continues (W.out writer.old) (W.out writer.new) }
        ensures front_explicit { self.now.tag_mode ≡ TagMode.Explicit → AddsFront
            (contents (nested (only (tagged T.fixed_tag T.content)))
            (T.value_written self.now.value))
            (W.out writer.old) (W.out writer.new) }
        ensures front_implicit { self.now.tag_mode ≡ TagMode.Implicit → AddsFront
            (contents T.content (T.value_written self.now.value))
            (W.out writer.old) (W.out writer.new) }
    {
        encode_value_of_field(writer, self.tag_mode, &self.value)
    }

    /// Returns the length of the encoding, which is the header and the content.
    ///
    /// # Errors
    ///
    /// - `Overflow`: the length is 2^32 or more.
    pub fn encoded_len(&self) -> Result<Length, Error>
        ensures explicit { self.now.tag_mode ≡ TagMode.Explicit
            → GivesNow (λ l. l.value) result
            (size (explicit_field CLASS self.now.tag_number.value (tagged T.fixed_tag T.content))
            (T.value_written self.now.value)) }
        ensures implicit { self.now.tag_mode ≡ TagMode.Implicit
            → GivesNow (λ l. l.value) result
            (size (implicit_field CLASS self.now.tag_number.value T.fixed_tag T.content)
            (T.value_written self.now.value)) }
    {
        len_of_field(CLASS, self.tag_mode, self.tag_number, &self.value)
    }

    /// Encodes the header and the content.
    ///
    /// # Errors
    ///
    /// - `Overflow`: a length exceeds 2^32 - 1.
    /// - The errors of the writer.
    pub fn encode<W: Writer>(&self, writer: &mut W) -> Result<(), Error>
        ensures explicit { self.now.tag_mode ≡ TagMode.Explicit
            → Writes W.takes_memory (W.out writer.old) (W.out writer.new) result
            (write (explicit_field CLASS self.now.tag_number.value (tagged T.fixed_tag T.content))
            (T.value_written self.now.value)) }
        ensures implicit { self.now.tag_mode ≡ TagMode.Implicit
            → Writes W.takes_memory (W.out writer.old) (W.out writer.new) result
            (write (implicit_field CLASS self.now.tag_number.value T.fixed_tag T.content)
            (T.value_written self.now.value)) }
        ensures kept { Continues (W.out writer.old) (W.out writer.new) }
        ensures front_explicit { self.now.tag_mode ≡ TagMode.Explicit → AddsFront
            (octets_of (explicit_field CLASS self.now.tag_number.value
            (tagged T.fixed_tag T.content)) (T.value_written self.now.value))
            (W.out writer.old) (W.out writer.new) }
        ensures front_implicit { self.now.tag_mode ≡ TagMode.Implicit → AddsFront
            (octets_of (implicit_field CLASS self.now.tag_number.value T.fixed_tag T.content)
            (T.value_written self.now.value)) (W.out writer.old) (W.out writer.new) }
    {
        encode_field(writer, CLASS, self.tag_mode, self.tag_number, &self.value)
    }

    /// Returns the encoding, which is the header and the content.
    ///
    /// # Errors
    ///
    /// - `Overflow`: a length exceeds 2^32 - 1.
    /// - `OutOfMemory`: memory runs out.
    pub fn to_der(&self, alloc: Global) -> Result<Vec<u8>, Error>
        // A valid value is encoded, unless memory runs out.
        ensures explicit { self.now.tag_mode ≡ TagMode.Explicit
            → IsValid
            (explicit_field CLASS self.now.tag_number.value (tagged T.fixed_tag T.content))
            (T.value_written self.now.value)
            → Gives (λ v. v.items) result
            (Ok
            (octets_of
            (explicit_field CLASS self.now.tag_number.value (tagged T.fixed_tag T.content))
            (T.value_written self.now.value))) }
        ensures implicit { self.now.tag_mode ≡ TagMode.Implicit
            → IsValid (implicit_field CLASS self.now.tag_number.value T.fixed_tag T.content)
            (T.value_written self.now.value)
            → Gives (λ v. v.items) result
            (Ok
            (octets_of (implicit_field CLASS self.now.tag_number.value T.fixed_tag T.content)
            (T.value_written self.now.value))) }
        // The result is that of the definition, including the kind of the error.
        ensures exact_explicit { self.now.tag_mode ≡ TagMode.Explicit
            → Gives (λ v. record { written = v.items; room = None; failed = false }) result
            (write (explicit_field CLASS self.now.tag_number.value (tagged T.fixed_tag T.content))
            (T.value_written self.now.value)
            (record { written = []; room = None; failed = false })) }
        ensures exact_implicit { self.now.tag_mode ≡ TagMode.Implicit
            → Gives (λ v. record { written = v.items; room = None; failed = false }) result
            (write (implicit_field CLASS self.now.tag_number.value T.fixed_tag T.content)
            (T.value_written self.now.value)
            (record { written = []; room = None; failed = false })) }
    {
        der_of_field(alloc, CLASS, self.tag_mode, self.tag_number, &self.value)
    }
}

/// Only fields with the same mode are compared, because the contents of fields with different modes
/// differ in kind.
impl<T: ValueOrd + EncodeValue + FixedTag, const CLASS: u8> ClassField<T, CLASS> {
    /// Compares the contents of two fields with the same mode, as lists of bytes, whatever their
    /// lengths are.
    ///
    /// # Errors
    ///
    /// - `Overflow`: the content of one of the two has 2^32 bytes or more.
    pub fn value_cmp(&self, other: &ClassField<T, CLASS>) -> Result<Ordering, Error>
        requires { self.now.tag_mode ≡ other.now.tag_mode }
        // If both contents are valid, there is a result.
        ensures explicit { self.now.tag_mode ≡ TagMode.Explicit → is_content_apart T.content ≡ true
            → IsContent (nested (only (tagged T.fixed_tag T.content)))
            (T.value_written self.now.value)
            → IsContent (nested (only (tagged T.fixed_tag T.content)))
            (T.value_written other.now.value)
            → result
            ≡ Ok
            (contents_cmp (nested (only (tagged T.fixed_tag T.content)))
            (T.value_written self.now.value) (T.value_written other.now.value)) }
        ensures implicit { self.now.tag_mode ≡ TagMode.Implicit → is_content_apart T.content ≡ true
            → IsContent T.content (T.value_written self.now.value)
            → IsContent T.content (T.value_written other.now.value)
            → result
            ≡ Ok
            (contents_cmp T.content (T.value_written self.now.value)
            (T.value_written other.now.value)) }
        ensures refused_explicit { self.now.tag_mode ≡ TagMode.Explicit
            → IfErr result
            (λ e. Overflows e (size_content (nested (only (tagged T.fixed_tag T.content)))
            (T.value_written self.now.value))
            (size_content (nested (only (tagged T.fixed_tag T.content)))
            (T.value_written other.now.value))) }
        ensures refused_implicit { self.now.tag_mode ≡ TagMode.Implicit
            → IfErr result
            (λ e. Overflows e (size_content T.content (T.value_written self.now.value))
            (size_content T.content (T.value_written other.now.value))) }
    {
        value_cmp_of_fields(self.tag_mode, &self.value, &other.value)
    }

    /// Compares the encodings of two fields with the same mode, as lists of bytes: first the tags,
    /// then the lengths, and then the contents (X.690 11.6). It doesn't allocate.
    ///
    /// # Errors
    ///
    /// - `Overflow`: the encoding of one of the two has 2^32 bytes or more.
    pub fn der_cmp(&self, other: &ClassField<T, CLASS>) -> Result<Ordering, Error>
        requires { self.now.tag_mode ≡ other.now.tag_mode }
        // If both values are valid, there is a result.
        ensures explicit { self.now.tag_mode ≡ TagMode.Explicit → is_content_apart T.content ≡ true
            → IsValid
            (explicit_field CLASS self.now.tag_number.value (tagged T.fixed_tag T.content))
            (T.value_written self.now.value)
            → IsValid
            (explicit_field CLASS other.now.tag_number.value (tagged T.fixed_tag T.content))
            (T.value_written other.now.value)
            → result
            ≡ Ok
            (octets_cmp
            (octets_of
            (explicit_field CLASS self.now.tag_number.value (tagged T.fixed_tag T.content))
            (T.value_written self.now.value))
            (octets_of
            (explicit_field CLASS other.now.tag_number.value (tagged T.fixed_tag T.content))
            (T.value_written other.now.value))) }
        ensures implicit { self.now.tag_mode ≡ TagMode.Implicit → is_content_apart T.content ≡ true
            → IsValid (implicit_field CLASS self.now.tag_number.value T.fixed_tag T.content)
            (T.value_written self.now.value)
            → IsValid (implicit_field CLASS other.now.tag_number.value T.fixed_tag T.content)
            (T.value_written other.now.value)
            → result
            ≡ Ok
            (octets_cmp
            (octets_of (implicit_field CLASS self.now.tag_number.value T.fixed_tag T.content)
            (T.value_written self.now.value))
            (octets_of (implicit_field CLASS other.now.tag_number.value T.fixed_tag T.content)
            (T.value_written other.now.value))) }
        ensures refused_explicit { self.now.tag_mode ≡ TagMode.Explicit
            → IfErr result
            (λ e. Overflows e
            (size (explicit_field CLASS self.now.tag_number.value (tagged T.fixed_tag T.content))
            (T.value_written self.now.value))
            (size (explicit_field CLASS other.now.tag_number.value (tagged T.fixed_tag T.content))
            (T.value_written other.now.value))) }
        ensures refused_implicit { self.now.tag_mode ≡ TagMode.Implicit
            → IfErr result
            (λ e. Overflows e
            (size (implicit_field CLASS self.now.tag_number.value T.fixed_tag T.content)
            (T.value_written self.now.value))
            (size (implicit_field CLASS other.now.tag_number.value T.fixed_tag T.content)
            (T.value_written other.now.value))) }
    {
        der_cmp_of_fields(
            CLASS,
            self.tag_mode,
            self.tag_number,
            &self.value,
            other.tag_number,
            &other.value,
        )
    }
}
