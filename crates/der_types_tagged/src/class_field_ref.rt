//! Borrowed values with a tag of a class.

ghost use Rattle.std.specs.Prelude.{◌≡◌, [], Ok, None, false, IsOk, IfOk, ⊤};
ghost use Rattle.der_core.specs.Shapes.{nested, only, tagged, IsValid, contents, octets_of};
ghost use Rattle.der_core.specs.Reading.{Gives, GivesNow};
ghost use Rattle.der_core.specs.Writing.{Writes, size, size_content, write, write_content};
ghost use Rattle.der_types_tagged.specs.Fields.{field_tag, explicit_field, implicit_field, IsClass};
ghost use Rattle.der_core.specs.Outputs.{AddsFront, Continues};

use crate::class_field::ClassField;
use crate::fields::{
    der_of_field, encode_field, encode_value_of_field, len_of_field, tag_of_field,
    value_len_of_field,
};
use der_core::{EncodeValue, Error, FixedTag, Length, Tag, TagMode, TagNumber, Tagged, Writer};
use std::alloc::{AllocError, Global};

/// A borrowed value with a tag of a class. `CLASS` is the class bits of the first byte of a tag
/// (X.690 8.1.2.2): `CLASS_APPLICATION`, `CLASS_CONTEXT_SPECIFIC` or `CLASS_PRIVATE`.
///
/// The tag is either before the value's own tag or in its place (X.680 31, X.690 8.14).
#[derive(Debug, PartialEq, Eq)]
pub struct ClassFieldRef<'a, T, const CLASS: u8> {
    /// The number of the tag.
    pub tag_number: TagNumber,
    /// The mode of the tag: explicit or implicit.
    pub tag_mode: TagMode,
    /// The value.
    pub value: &'a T,
    ghost class: { IsClass CLASS },
}

impl<'a, T, const CLASS: u8> Clone for ClassFieldRef<'a, T, CLASS> {
    ghost is_clone = { λ s r. r ≡ s };

    ghost is_infallible = { λ _. ⊤ };

    fn clone(&self) -> Result<ClassFieldRef<'a, T, CLASS>, AllocError> {
        Ok(*self)
    }
}

impl<'a, T, const CLASS: u8> Copy for ClassFieldRef<'a, T, CLASS> {}

/// The tag is of the class, in the form that the mode requires.
impl<'a, T: Tagged, const CLASS: u8> Tagged for ClassFieldRef<'a, T, CLASS> {
    ghost own_tag = { λ f. field_tag CLASS f.tag_mode f.tag_number.value (T.own_tag f.value.now) };

    fn tag(&self) -> Tag {
        tag_of_field(CLASS, self.tag_mode, self.tag_number, self.value.tag())
    }
}

impl<'a, T: Clone, const CLASS: u8> ClassFieldRef<'a, T, CLASS> {
    /// Returns an owned field with a clone of the value.
    ///
    /// # Errors
    ///
    /// - `AllocError`: memory runs out when the value is cloned.
    pub fn ref_to_owned(&self) -> Result<ClassField<T, CLASS>, AllocError>
        ensures number { IfOk result (λ f. f.tag_number ≡ self.now.tag_number) }
        ensures mode { IfOk result (λ f. f.tag_mode ≡ self.now.tag_mode) }
        ensures value { IfOk result (λ f. T.is_clone self.now.value.now f.value) }
        ensures succeeds { T.is_infallible self.now.value.now → IsOk result }
    {
        let value = self.value.clone()?;
        Ok(ClassField {
            tag_number: self.tag_number,
            tag_mode: self.tag_mode,
            value,
        })
    }
}

impl<'a, T: EncodeValue + FixedTag, const CLASS: u8> ClassFieldRef<'a, T, CLASS> {
    /// Returns the length of the content.
    ///
    /// # Errors
    ///
    /// - `Overflow`: the length is 2^32 or more.
    pub fn value_len(&self) -> Result<Length, Error>
        ensures explicit { self.now.tag_mode ≡ TagMode.Explicit
            → GivesNow (λ l. l.value) result
            (size_content (nested (only (tagged T.fixed_tag T.content)))
            (T.value_written self.now.value.now)) }
        ensures implicit { self.now.tag_mode ≡ TagMode.Implicit
            → GivesNow (λ l. l.value) result
            (size_content T.content (T.value_written self.now.value.now)) }
    {
        value_len_of_field(self.tag_mode, self.value)
    }

    /// Encodes the content.
    ///
    /// # Errors
    ///
    /// - `Overflow`: a length exceeds 2^32 - 1.
    /// - The errors of the writer.
    pub fn encode_value<W: Writer>(&self, writer: &mut W) -> Result<(), Error>
        ensures explicit { self.now.tag_mode ≡ TagMode.Explicit
            → Writes W.takes_memory (W.out writer.old) (W.out writer.new) result
            (write_content (nested (only (tagged T.fixed_tag T.content)))
            (T.value_written self.now.value.now)) }
        ensures implicit { self.now.tag_mode ≡ TagMode.Implicit
            → Writes W.takes_memory (W.out writer.old) (W.out writer.new) result
            (write_content T.content (T.value_written self.now.value.now)) }
        ensures kept { Continues (W.out writer.old) (W.out writer.new) }
        ensures front_explicit { self.now.tag_mode ≡ TagMode.Explicit → AddsFront
            (contents (nested (only (tagged T.fixed_tag T.content)))
            (T.value_written self.now.value.now))
            (W.out writer.old) (W.out writer.new) }
        ensures front_implicit { self.now.tag_mode ≡ TagMode.Implicit → AddsFront
            (contents T.content (T.value_written self.now.value.now))
            (W.out writer.old) (W.out writer.new) }
    {
        encode_value_of_field(writer, self.tag_mode, self.value)
    }

    /// Returns the length of the encoding, which is the header and the content.
    ///
    /// # Errors
    ///
    /// - `Overflow`: the length is 2^32 or more.
    pub fn encoded_len(&self) -> Result<Length, Error>
        ensures explicit { self.now.tag_mode ≡ TagMode.Explicit
            → GivesNow (λ l. l.value) result
            (size (explicit_field CLASS self.now.tag_number.value (tagged T.fixed_tag T.content))
            (T.value_written self.now.value.now)) }
        ensures implicit { self.now.tag_mode ≡ TagMode.Implicit
            → GivesNow (λ l. l.value) result
            (size (implicit_field CLASS self.now.tag_number.value T.fixed_tag T.content)
            (T.value_written self.now.value.now)) }
    {
        len_of_field(CLASS, self.tag_mode, self.tag_number, self.value)
    }

    /// Encodes the header and the content.
    ///
    /// # Errors
    ///
    /// - `Overflow`: a length exceeds 2^32 - 1.
    /// - The errors of the writer.
    pub fn encode<W: Writer>(&self, writer: &mut W) -> Result<(), Error>
        ensures explicit { self.now.tag_mode ≡ TagMode.Explicit
            → Writes W.takes_memory (W.out writer.old) (W.out writer.new) result
            (write (explicit_field CLASS self.now.tag_number.value (tagged T.fixed_tag T.content))
            (T.value_written self.now.value.now)) }
        ensures implicit { self.now.tag_mode ≡ TagMode.Implicit
            → Writes W.takes_memory (W.out writer.old) (W.out writer.new) result
            (write (implicit_field CLASS self.now.tag_number.value T.fixed_tag T.content)
            (T.value_written self.now.value.now)) }
        ensures kept { Continues (W.out writer.old) (W.out writer.new) }
        ensures front_explicit { self.now.tag_mode ≡ TagMode.Explicit → AddsFront
            (octets_of (explicit_field CLASS self.now.tag_number.value
            (tagged T.fixed_tag T.content)) (T.value_written self.now.value.now))
            (W.out writer.old) (W.out writer.new) }
        ensures front_implicit { self.now.tag_mode ≡ TagMode.Implicit → AddsFront
            (octets_of (implicit_field CLASS self.now.tag_number.value T.fixed_tag T.content)
            (T.value_written self.now.value.now)) (W.out writer.old) (W.out writer.new) }
    {
        encode_field(writer, CLASS, self.tag_mode, self.tag_number, self.value)
    }

    /// Returns the encoding, which is the header and the content.
    ///
    /// # Errors
    ///
    /// - `Overflow`: a length exceeds 2^32 - 1.
    /// - `OutOfMemory`: memory runs out.
    pub fn to_der(&self, alloc: Global) -> Result<Vec<u8>, Error>
        // A valid value is encoded, unless memory runs out.
        ensures explicit { self.now.tag_mode ≡ TagMode.Explicit
            → IsValid
            (explicit_field CLASS self.now.tag_number.value (tagged T.fixed_tag T.content))
            (T.value_written self.now.value.now)
            → Gives (λ v. v.items) result
            (Ok
            (octets_of
            (explicit_field CLASS self.now.tag_number.value (tagged T.fixed_tag T.content))
            (T.value_written self.now.value.now))) }
        ensures implicit { self.now.tag_mode ≡ TagMode.Implicit
            → IsValid (implicit_field CLASS self.now.tag_number.value T.fixed_tag T.content)
            (T.value_written self.now.value.now)
            → Gives (λ v. v.items) result
            (Ok
            (octets_of (implicit_field CLASS self.now.tag_number.value T.fixed_tag T.content)
            (T.value_written self.now.value.now))) }
        // The result is that of the definition, including the kind of the error.
        ensures exact_explicit { self.now.tag_mode ≡ TagMode.Explicit
            → Gives (λ v. record { written = v.items; room = None; failed = false }) result
            (write (explicit_field CLASS self.now.tag_number.value (tagged T.fixed_tag T.content))
            (T.value_written self.now.value.now)
            (record { written = []; room = None; failed = false })) }
        ensures exact_implicit { self.now.tag_mode ≡ TagMode.Implicit
            → Gives (λ v. record { written = v.items; room = None; failed = false }) result
            (write (implicit_field CLASS self.now.tag_number.value T.fixed_tag T.content)
            (T.value_written self.now.value.now)
            (record { written = []; room = None; failed = false })) }
    {
        der_of_field(alloc, CLASS, self.tag_mode, self.tag_number, self.value)
    }
}
