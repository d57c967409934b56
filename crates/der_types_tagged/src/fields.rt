//! Fields with a tag of a class, by mode.

ghost use Rattle.std.specs.Prelude.{◌≡◌, [], Ok, None, false, true, IfErr};
ghost use Rattle.der_core.specs.Shapes.{nested, only, tagged, IsContent, IsValid, contents};
ghost use Rattle.der_core.specs.Shapes.{octets_of};
ghost use Rattle.der_core.specs.Spelling.{is_content_apart};
ghost use Rattle.der_core.specs.Reading.{Gives, GivesNow};
ghost use Rattle.der_core.specs.Writing.{Writes, size, size_content, write, write_content};
ghost use Rattle.der_core.specs.Orders.{contents_cmp, octets_cmp, Overflows};
ghost use Rattle.der_types_tagged.specs.Fields.{field_tag, explicit_field, implicit_field};
ghost use Rattle.der_core.specs.Outputs.{AddsFront, Continues};

use der_core::making::{cmp_behind, encode_tagged, is_constructed, tag_of_class};
use der_core::{
    DerOrd, Encode, EncodeValue, Error, FixedTag, Length, Shaped, ShapedValue, Tag, TagMode,
    TagNumber, ValueOrd, Writer,
};
use std::alloc::Global;
use std::cmp::Ordering;

/// Returns the tag of a field, given the value's own tag.
pub fn tag_of_field(class: u8, mode: TagMode, number: TagNumber, own: Tag) -> Tag
    ensures { result ≡ field_tag class mode number.value own }
{
    match mode {
        TagMode::Explicit => tag_of_class(class / 64, true, number.value),
        TagMode::Implicit => tag_of_class(class / 64, is_constructed(own), number.value),
    }
}

/// Returns the length of a field's content.
pub fn value_len_of_field<T: EncodeValue + FixedTag>(
    mode: TagMode,
    value: &T,
) -> Result<Length, Error>
    ensures explicit { mode ≡ TagMode.Explicit
        → GivesNow (λ l. l.value) result
        (size_content (nested (only (tagged T.fixed_tag T.content))) (T.value_written value.now)) }
    ensures implicit { mode ≡ TagMode.Implicit
        → GivesNow (λ l. l.value) result (size_content T.content (T.value_written value.now)) }
{
    match mode {
        TagMode::Explicit => value.encoded_len(),
        TagMode::Implicit => value.value_len(),
    }
}

/// Encodes a field's content.
#[tactic(auto, unfolding(crate::specs::Opened::contents))]
pub fn encode_value_of_field<W: Writer, T: EncodeValue + FixedTag>(
    writer: &mut W,
    mode: TagMode,
    value: &T,
) -> Result<(), Error>
    ensures explicit { mode ≡ TagMode.Explicit
        → Writes W.takes_memory (W.out writer.old) (W.out writer.new) result
        (write_content (nested (only (tagged T.fixed_tag T.content))) (T.value_written value.now)) }
    ensures implicit { mode ≡ TagMode.Implicit
        → Writes W.takes_memory (W.out writer.old) (W.out writer.new) result
        (write_content T.content (T.value_written value.now)) }
    ensures kept { Continues (W.out writer.old) (W.out writer.new) }
    ensures front_explicit { mode ≡ TagMode.Explicit → AddsFront
        (contents (nested (only (tagged T.fixed_tag T.content))) (T.value_written value.now))
        (W.out writer.old) (W.out writer.new) }
    ensures front_implicit { mode ≡ TagMode.Implicit → AddsFront
        (contents T.content (T.value_written value.now)) (W.out writer.old) (W.out writer.new) }
{
    match mode {
        TagMode::Explicit => value.encode(writer),
        TagMode::Implicit => value.encode_value(writer),
    }
}

/// Returns the length of a field's encoding.
pub fn len_of_field<T: EncodeValue + FixedTag>(
    class: u8,
    mode: TagMode,
    number: TagNumber,
    value: &T,
) -> Result<Length, Error>
    ensures explicit { mode ≡ TagMode.Explicit
        → GivesNow (λ l. l.value) result
        (size (explicit_field class number.value (tagged T.fixed_tag T.content))
        (T.value_written value.now)) }
    ensures implicit { mode ≡ TagMode.Implicit
        → GivesNow (λ l. l.value) result
        (size (implicit_field class number.value T.fixed_tag T.content)
        (T.value_written value.now)) }
{
    let tag = tag_of_field(class, mode, number, T::tag());
    match mode {
        TagMode::Explicit => len_behind(tag, &Whole(value)),
        TagMode::Implicit => len_behind(tag, value),
    }
}

/// Encodes a field.
pub fn encode_field<W: Writer, T: EncodeValue + FixedTag>(
    writer: &mut W,
    class: u8,
    mode: TagMode,
    number: TagNumber,
    value: &T,
) -> Result<(), Error>
    ensures explicit { mode ≡ TagMode.Explicit
        → Writes W.takes_memory (W.out writer.old) (W.out writer.new) result
        (write (explicit_field class number.value (tagged T.fixed_tag T.content))
        (T.value_written value.now)) }
    ensures implicit { mode ≡ TagMode.Implicit
        → Writes W.takes_memory (W.out writer.old) (W.out writer.new) result
        (write (implicit_field class number.value T.fixed_tag T.content)
        (T.value_written value.now)) }
    ensures kept { Continues (W.out writer.old) (W.out writer.new) }
    ensures front_explicit { mode ≡ TagMode.Explicit → AddsFront
        (octets_of (explicit_field class number.value (tagged T.fixed_tag T.content))
        (T.value_written value.now)) (W.out writer.old) (W.out writer.new) }
    ensures front_implicit { mode ≡ TagMode.Implicit → AddsFront
        (octets_of (implicit_field class number.value T.fixed_tag T.content)
        (T.value_written value.now)) (W.out writer.old) (W.out writer.new) }
{
    let tag = tag_of_field(class, mode, number, T::tag());
    match mode {
        TagMode::Explicit => encode_tagged(writer, tag, &Whole(value)),
        TagMode::Implicit => encode_tagged(writer, tag, value),
    }
}

/// Returns the encoding of a field.
pub fn der_of_field<T: EncodeValue + FixedTag>(
    alloc: Global,
    class: u8,
    mode: TagMode,
    number: TagNumber,
    value: &T,
) -> Result<Vec<u8>, Error>
    ensures explicit { mode ≡ TagMode.Explicit
        → IsValid (explicit_field class number.value (tagged T.fixed_tag T.content))
        (T.value_written value.now)
        → Gives (λ v. v.items) result
        (Ok (octets_of (explicit_field class number.value (tagged T.fixed_tag T.content))
        (T.value_written value.now))) }
    ensures implicit { mode ≡ TagMode.Implicit
        → IsValid (implicit_field class number.value T.fixed_tag T.content)
        (T.value_written value.now)
        → Gives (λ v. v.items) result
        (Ok (octets_of (implicit_field class number.value T.fixed_tag T.content)
        (T.value_written value.now))) }
    ensures exact_explicit { mode ≡ TagMode.Explicit
        → Gives (λ v. record { written = v.items; room = None; failed = false }) result
        (write (explicit_field class number.value (tagged T.fixed_tag T.content))
        (T.value_written value.now) (record { written = []; room = None; failed = false })) }
    ensures exact_implicit { mode ≡ TagMode.Implicit
        → Gives (λ v. record { written = v.items; room = None; failed = false }) result
        (write (implicit_field class number.value T.fixed_tag T.content) (T.value_written value.now)
        (record { written = []; room = None; failed = false })) }
{
    let tag = tag_of_field(class, mode, number, T::tag());
    match mode {
        TagMode::Explicit => der_behind(alloc, tag, &Whole(value)),
        TagMode::Implicit => der_behind(alloc, tag, value),
    }
}

/// Compares the contents of two fields with the same mode.
pub fn value_cmp_of_fields<T: ValueOrd + EncodeValue + FixedTag>(
    mode: TagMode,
    value: &T,
    other: &T,
) -> Result<Ordering, Error>
    ensures explicit { mode ≡ TagMode.Explicit → is_content_apart T.content ≡ true
        → IsContent (nested (only (tagged T.fixed_tag T.content))) (T.value_written value.now)
        → IsContent (nested (only (tagged T.fixed_tag T.content))) (T.value_written other.now)
        → result
        ≡ Ok
        (contents_cmp (nested (only (tagged T.fixed_tag T.content))) (T.value_written value.now)
        (T.value_written other.now)) }
    ensures implicit { mode ≡ TagMode.Implicit → is_content_apart T.content ≡ true
        → IsContent T.content (T.value_written value.now)
        → IsContent T.content (T.value_written other.now)
        → result
        ≡ Ok (contents_cmp T.content (T.value_written value.now) (T.value_written other.now)) }
    ensures refused_explicit { mode ≡ TagMode.Explicit → IfErr result (λ e. Overflows e
        (size_content (nested (only (tagged T.fixed_tag T.content))) (T.value_written value.now))
        (size_content (nested (only (tagged T.fixed_tag T.content)))
        (T.value_written other.now))) }
    ensures refused_implicit { mode ≡ TagMode.Implicit
        → IfErr result (λ e. Overflows e (size_content T.content (T.value_written value.now))
        (size_content T.content (T.value_written other.now))) }
{
    match mode {
        TagMode::Explicit => Whole(value).value_cmp(&Whole(other)),
        TagMode::Implicit => value.value_cmp(other),
    }
}

/// Compares two fields with the same class and mode.
pub fn der_cmp_of_fields<T: ValueOrd + EncodeValue + FixedTag>(
    class: u8,
    mode: TagMode,
    number: TagNumber,
    value: &T,
    other_number: TagNumber,
    other: &T,
) -> Result<Ordering, Error>
    ensures explicit { mode ≡ TagMode.Explicit → is_content_apart T.content ≡ true
        → IsValid (explicit_field class number.value (tagged T.fixed_tag T.content))
        (T.value_written value.now)
        → IsValid (explicit_field class other_number.value (tagged T.fixed_tag T.content))
        (T.value_written other.now)
        → result
        ≡ Ok
        (octets_cmp
        (octets_of (explicit_field class number.value (tagged T.fixed_tag T.content))
        (T.value_written value.now))
        (octets_of (explicit_field class other_number.value (tagged T.fixed_tag T.content))
        (T.value_written other.now))) }
    ensures implicit { mode ≡ TagMode.Implicit → is_content_apart T.content ≡ true
        → IsValid (implicit_field class number.value T.fixed_tag T.content)
        (T.value_written value.now)
        → IsValid (implicit_field class other_number.value T.fixed_tag T.content)
        (T.value_written other.now)
        → result
        ≡ Ok
        (octets_cmp (octets_of (implicit_field class number.value T.fixed_tag T.content)
        (T.value_written value.now))
        (octets_of (implicit_field class other_number.value T.fixed_tag T.content)
        (T.value_written other.now))) }
    ensures refused_explicit { mode ≡ TagMode.Explicit
        → IfErr result
        (λ e. Overflows e (size (explicit_field class number.value (tagged T.fixed_tag T.content))
        (T.value_written value.now))
        (size (explicit_field class other_number.value (tagged T.fixed_tag T.content))
        (T.value_written other.now))) }
    ensures refused_implicit { mode ≡ TagMode.Implicit
        → IfErr result
        (λ e. Overflows e
        (size (implicit_field class number.value T.fixed_tag T.content) (T.value_written value.now))
        (size (implicit_field class other_number.value T.fixed_tag T.content)
        (T.value_written other.now))) }
{
    let tag = tag_of_field(class, mode, number, T::tag());
    let other_tag = tag_of_field(class, mode, other_number, T::tag());
    match mode {
        TagMode::Explicit => cmp_behind(tag, &Whole(value), other_tag, &Whole(other)),
        TagMode::Implicit => cmp_behind(tag, value, other_tag, other),
    }
}

/// A value whose encoding is the content of an explicit tag (X.690 8.14.2).
#[derive(Drop)]
pub struct Whole<'a, T>(pub &'a T);

impl<'a, T: Shaped> ShapedValue for Whole<'a, T> {
    ghost content = { nested (only T.shape) };

    ghost value_plain = { λ w. T.plain w.0.now };

    ghost value_written = { λ w. T.written w.0.now };
}

impl<'a, T: Encode> EncodeValue for Whole<'a, T> {
    fn value_len(&self) -> Result<Length, Error> {
        self.0.encoded_len()
    }

    #[tactic(auto, unfolding(crate::specs::Opened::contents))]
    fn encode_value<W: Writer>(&self, writer: &mut W) -> Result<(), Error> {
        self.0.encode(writer)
    }
}

impl<'a, T: DerOrd> ValueOrd for Whole<'a, T> {
    #[tactic(auto, unfolding(crate::specs::Opened::contents, crate::specs::Opened::IsContent, crate::specs::Opened::body_octets, crate::specs::Opened::IsBody))]
    fn value_cmp(&self, other: &Self) -> Result<Ordering, Error> {
        self.0.der_cmp(other.0)
    }
}

/// Returns the length of a content and its header.
#[tactic(auto, unfolding(crate::specs::Opened::tlv_len, crate::specs::Opened::head_len))]
pub fn len_behind<T: EncodeValue>(tag: Tag, value: &T) -> Result<Length, Error>
    ensures { GivesNow (λ l. l.value) result
        (size (tagged tag T.content) (T.value_written value.now)) }
{
    let len = value.value_len()?;
    len.for_tlv(tag)
}

/// Returns the bytes of a header and a content, which are written to an empty vector.
fn written_behind<T: EncodeValue>(alloc: Global, tag: Tag, value: &T) -> Result<Vec<u8>, Error>
    ensures { Gives (λ v. record { written = v.items; room = None; failed = false }) result
        (write (tagged tag T.content) (T.value_written value.now)
        (record { written = []; room = None; failed = false })) }
{
    let mut out = Vec::new(alloc);
    encode_tagged(&mut out, tag, value)?;
    Ok(out)
}

/// Returns the encoding of a content with a header.
pub fn der_behind<T: EncodeValue>(alloc: Global, tag: Tag, value: &T) -> Result<Vec<u8>, Error>
    ensures spelled { IsValid (tagged tag T.content) (T.value_written value.now)
        → Gives (λ v. v.items) result
        (Ok (octets_of (tagged tag T.content) (T.value_written value.now))) }
    ensures exact { Gives (λ v. record { written = v.items; room = None; failed = false }) result
        (write (tagged tag T.content) (T.value_written value.now)
        (record { written = []; room = None; failed = false })) }
{
    written_behind(alloc, tag, value)
}
