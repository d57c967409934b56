//! ANY, borrowed.

ghost use Rattle.std.specs.Prelude.{◌≡◌, ◌<◌, ◌↔◌, [], length, nat_eq, true, false, Some, Ok};
ghost use Rattle.std.specs.Prelude.{IsTrue, IfOk, IfErr, IsErrAnd, refl};
ghost use Rattle.std.specs.Cmp.{po, partial_equiv_from_equiv, on_equiv, on_per, on_total};
ghost use Rattle.std.specs.Cmp.Lexicographic.{pointwise, nat_list_eq_equiv};
ghost use Rattle.der_types_text.specs.Der.Limits.{length_max, levels_max};
ghost use Rattle.der_types_text.specs.Der.Heads.{Fits};
ghost use Rattle.der_types_text.specs.Der.Shapes.{any, tagged, nested, Body, BodyValue};
ghost use Rattle.der_types_text.specs.Der.Shapes.{ContentValue};
ghost use Rattle.der_types_text.specs.Der.Shapes.{IsValid, Spells, octets_of};
ghost use Rattle.der_types_text.specs.Der.Spelling.{is_apart, are_enough};
ghost use Rattle.der_types_text.specs.Der.Tags.{same_tag};
ghost use Rattle.der_types_text.specs.Der.Reading.{Gives, ClosureReads, HandsBack, unread};
ghost use Rattle.der_types_text.specs.Der.Nesting.{Answered, RefusesNested};
ghost use Rattle.der_types_text.specs.Der.Orders.{octets_cmp};
ghost use Rattle.der_types_any.specs.AnyOrders.{any_cmp, any_cmp_total, any_cmp_ties, any_fed};
ghost use Rattle.der_types_any.specs.AnyOrders.{any_fed_alike};
ghost use Rattle.der_types_any.specs.Contents.{content_as, content_by};

use crate::any::Any;
use der_types_text::der::making::{
    cmp_behind, encode_header, header_len, is_same_tag, leading_octet_of, number_of, slice_len,
};
use der_types_text::der::{
    Choice, Decode, DecodeValue, DerOrd, Encode, EncodingRules, Error, ErrorKind, FirstTag,
    FixedTag, Header, Length, Reader, Shaped, SliceReader, Tag, Writer,
};
use der_types_values::OctetStringRef;
use std::alloc::{AllocError, Global};
use std::cmp::Ordering;
use std::hash::{Hash, Hasher};

/// A borrowed value of any type (X.680 3.8.1): its tag, and its content of fewer than 2^32 bytes,
/// which isn't decoded.
#[derive(Clone, Copy, Debug)]
pub struct AnyRef<'a> {
    tag: Tag,
    bytes: &'a [u8],
    ghost short: { Fits bytes.now },
}

impl<'a> AnyRef<'a> {
    ghost use Rattle.der_types_any.specs.Anys.{any_lent};

    /// NULL.
    pub const NULL: AnyRef<'static> = AnyRef {
        tag: Tag::Null,
        bytes: &[],
    };

    /// Returns the value with this tag and this content.
    ///
    /// # Errors
    ///
    /// - `Overflow`: the content has 2^32 bytes or more.
    pub fn new(tag: Tag, bytes: &'a [u8]) -> Result<AnyRef<'a>, Error>
        ensures ok { IfOk result
            (λ a. Fits bytes.now × (any_lent a ≡ record { tag = tag; contents = bytes.now })) }
        ensures err { IfErr result (λ e. (length_max < length bytes.now)
            × (e.kind ≡ ErrorKind.Overflow)) }
    {
        if bytes.len() > Length::MAX.value as usize {
            return Err(Error::from(ErrorKind::Overflow));
        }
        Ok(AnyRef { tag, bytes })
    }

    /// Wraps a content that is known to have fewer than 2^32 bytes, with this tag.
    pub(crate) fn trusted(tag: Tag, bytes: &'a [u8]) -> AnyRef<'a>
        requires { Fits bytes.now }
        ensures { any_lent result ≡ record { tag = tag; contents = bytes.now } }
    {
        AnyRef { tag, bytes }
    }

    /// Returns the tag.
    pub fn tag(&self) -> Tag
        ensures { result ≡ (any_lent self.now).tag }
    {
        self.tag
    }

    /// Returns the content bytes.
    pub fn value(&self) -> &'a [u8]
        ensures contents { result.now ≡ (any_lent self.now).contents }
        ensures short { Fits result.now }
    {
        self.bytes
    }

    /// Returns the header.
    pub fn header(&self) -> Header
        ensures tag { result.tag ≡ (any_lent self.now).tag }
        ensures length { result.length.value ≡ length (any_lent self.now).contents }
    {
        Header {
            tag: self.tag,
            length: Length::new(self.bytes.len() as u32),
        }
    }

    /// Returns whether the value is NULL.
    pub fn is_null(&self) -> bool
        ensures { IsTrue result ↔ (any_lent self.now ≡ record { tag = Tag.Null; contents = [] }) }
    {
        matches!(self.tag, Tag::Null) && self.bytes.is_empty()
    }

    /// Decodes the content as a value of a type that has this tag.
    ///
    /// # Errors
    ///
    /// - `TagUnexpected`: the tag isn't that of the type.
    /// - The first error of the content.
    /// - `OutOfMemory`: memory runs out.
    pub fn decode_as<T: DecodeValue<'a, SliceReader<'a>> + FixedTag>(
        &self,
        alloc: Global,
    ) -> Result<T, Error>
        // If the value is valid, its encoding is that of the result.
        ensures spelled { IsValid any (any_lent self.now) → is_apart (tagged T.fixed_tag T.content)
            ≡ true
            → IfOk result
            (λ v. Spells (tagged T.fixed_tag T.content) (T.value_plain v)
            (octets_of any (any_lent self.now))) }
        // If the encoding is that of a value of the type, it is decoded, unless memory runs out.
        ensures only { (v : ContentValue T.content) → IsValid any (any_lent self.now)
            → is_apart (tagged T.fixed_tag T.content) ≡ true
            → are_enough (tagged T.fixed_tag T.content) levels_max ≡ true
            → Spells (tagged T.fixed_tag T.content) v (octets_of any (any_lent self.now))
            → Gives T.value_plain result (Ok v) }
        // The result is that of the definition, including the kind of the error.
        ensures exact { Gives T.value_plain result
            (content_as T.fixed_tag T.content (any_lent self.now)) }
    {
        self.decode_as_encoding(alloc, EncodingRules::Der)
    }

    /// Decodes the content as a value of a type that has this tag, under these encoding rules.
    ///
    /// # Errors
    ///
    /// - `TagUnexpected`: the tag isn't that of the type.
    /// - The first error of the content.
    /// - `OutOfMemory`: memory runs out.
    #[tactic(auto, unfolding(crate::specs::Contents::content_by))]
    pub fn decode_as_encoding<T: DecodeValue<'a, SliceReader<'a>> + FixedTag>(
        &self,
        alloc: Global,
        encoding_rules: EncodingRules,
    ) -> Result<T, Error>
        ensures { Gives T.value_plain result
            (content_by encoding_rules T.fixed_tag T.content (any_lent self.now)) }
    {
        if !is_same_tag(self.tag, T::tag()) {
            return Err(Error::from(ErrorKind::TagUnexpected));
        }
        let mut reader = SliceReader::new_with_encoding_rules(self.bytes, encoding_rules)?;
        let value = T::decode_value(alloc, &mut reader, self.header())?;
        Ok(value)
    }

    /// Calls `f` on a reader of the content of this SEQUENCE. `f` must read all of it.
    ///
    /// # Errors
    ///
    /// - `TagUnexpected`: the value isn't a SEQUENCE.
    /// - The error of `f`.
    /// - `TrailingData`: `f` left bytes unread.
    pub fn sequence<T: Drop, F: FnOnce(&mut SliceReader<'a>) -> Result<T, Error>>(
        &self,
        f: F,
    ) -> Result<T, Error>
        requires callable { F.IsAlwaysCallable f }
        // The closure must leave the reader with the same end, at the same or a later position.
        requires hands_back { HandsBack (λ s. s) F.FnOnce f }
        // The result is that of the closure, which read all of the content.
        ensures ran { IfOk result
            (λ x. Answered (λ s. s) F.FnOnce f (length (any_lent self.now).contents)
            (unread EncodingRules.Der (any_lent self.now).contents) x) }
        ensures tag { same_tag (any_lent self.now).tag Tag.Sequence ≡ false
            → IsErrAnd result (λ e. e.kind ≡ ErrorKind.TagUnexpected) }
        // For a SEQUENCE, the error is that of the closure, or the closure left bytes unread.
        ensures refused { same_tag (any_lent self.now).tag Tag.Sequence ≡ true
            → IfErr result
            (RefusesNested (λ s. s) F.FnOnce f (length (any_lent self.now).contents)
            (unread EncodingRules.Der (any_lent self.now).contents)) }
        // If the closure decodes a body, this call decodes the content.
        ensures reads { (b : Body) (view : T → BodyValue b)
            → ClosureReads (λ s. s) F.FnOnce f b view
            → Gives view result (content_as Tag.Sequence (nested b) (any_lent self.now)) }
    {
        if !is_same_tag(self.tag, Tag::Sequence) {
            return Err(Error::from(ErrorKind::TagUnexpected));
        }
        let mut reader = SliceReader::new(self.bytes)?;
        let value = reader.read_value(self.header(), f)?;
        Ok(value)
    }

    /// Compares two contents as lists of bytes, whatever the tags are. It always succeeds.
    pub fn value_cmp(&self, other: &AnyRef<'_>) -> Result<Ordering, Error>
        ensures { result
            ≡ Ok (octets_cmp (any_lent self.now).contents (any_lent other.now).contents) }
    {
        let order = self.bytes.cmp(other.bytes);
        Ok(order)
    }

    /// Returns an owned copy of the value.
    ///
    /// # Errors
    ///
    /// - `AllocError`: memory runs out.
    // Inlined, so that the value is made where the caller stores it.
    #[inline(always)]
    pub fn ref_to_owned(&self, alloc: Global) -> Result<Any, AllocError>
        ensures { IfOk result (λ a. a ≡ any_lent self.now) }
    {
        Any::copy_of(alloc, self)
    }
}

/// Borrows the value.
impl<'a> From<&'a Any> for AnyRef<'a> {
    ghost use Rattle.der_types_any.specs.Anys.{any_lent};

    ghost from_gives = { λ a lent. any_lent lent ≡ a.now };

    fn from(any: &'a Any) -> AnyRef<'a> {
        any.to_ref()
    }
}

/// Compares the tags and the contents.
impl<'a> PartialEq for AnyRef<'a> {
    ghost use Rattle.der_types_any.specs.Anys.{key_lent};

    ghost eq = { λ a b. pointwise nat_eq (key_lent a) (key_lent b) };

    ghost laws = { on_per key_lent (partial_equiv_from_equiv nat_list_eq_equiv) };

    fn eq(&self, other: &Self) -> bool {
        is_same_tag(self.tag, other.tag) && self.bytes == other.bytes
    }
}

impl<'a> Eq for AnyRef<'a> {
    ghost use Rattle.der_types_any.specs.Anys.{key_lent};

    ghost laws = { on_equiv key_lent nat_list_eq_equiv };
}

/// Compares the first bytes of the tags, then their numbers, and then the contents.
impl<'a> PartialOrd for AnyRef<'a> {
    ghost use Rattle.der_types_any.specs.Anys.{any_lent};

    ghost partial_cmp = { λ a b. Some (any_cmp (any_lent a) (any_lent b)) };

    ghost laws = { po (on_total any_lent any_cmp_total)
        (λ a b. any_cmp_ties (any_lent a) (any_lent b)) };

    fn partial_cmp(&self, other: &Self) -> Option<Ordering> {
        Some(self.cmp(other))
    }
}

impl<'a> Ord for AnyRef<'a> {
    ghost use Rattle.der_types_any.specs.Anys.{any_lent};

    ghost cmp = { λ a b. any_cmp (any_lent a) (any_lent b) };

    ghost total = { on_total any_lent any_cmp_total };

    ghost matches_partial_cmp = { λ a b. refl };

    ghost matches_eq = { λ a b. any_cmp_ties (any_lent a) (any_lent b) };

    fn cmp(&self, other: &Self) -> Ordering {
        let leading = leading_octet_of(self.tag).cmp(&leading_octet_of(other.tag));
        let number = number_of(self.tag).cmp(&number_of(other.tag));
        leading.then(number.then(self.bytes.cmp(other.bytes)))
    }
}

/// Hashes the first byte of the tag, its number, and the content.
impl<'a> Hash for AnyRef<'a> {
    ghost use Rattle.der_types_any.specs.Anys.{any_lent};

    ghost hash_input = { λ a. any_fed (any_lent a) };

    ghost respects_eq = { λ a b e. any_fed_alike (any_lent a) (any_lent b) e };

    fn hash<H: Hasher>(&self, state: &mut H) {
        leading_octet_of(self.tag).hash(state);
        number_of(self.tag).hash(state);
        self.bytes.hash(state);
    }
}

impl<'a> Shaped for AnyRef<'a> {
    ghost use Rattle.der_types_any.specs.Anys.{any_lent};

    ghost shape = { any };

    ghost plain = { any_lent };

    ghost written = { any_lent };
}

impl<'a> Choice for AnyRef<'a> {
    fn can_decode(_tag: Tag) -> bool
        ensures { result ≡ true }
    {
        true
    }
}

impl<'a, R: Reader<'a>> Decode<'a, R> for AnyRef<'a> {
    // Inlined, so that the result isn't moved.
    #[inline(always)]
    #[tactic(auto, unfolding(crate::specs::Opened::any_at))]
    fn decode(_alloc: Global, reader: &mut R) -> Result<AnyRef<'a>, Error> {
        let header = reader.read_header()?;
        let bytes = reader.read_slice(header.length)?;
        Ok(AnyRef {
            tag: header.tag,
            bytes,
        })
    }
}

impl<'a> Encode for AnyRef<'a> {
    // Inlined, so that the result isn't moved.
    #[inline(always)]
    #[tactic(auto, unfolding(crate::specs::Opened::tlv_len, crate::specs::Opened::head_len))]
    fn encoded_len(&self) -> Result<Length, Error> {
        let len = slice_len(self.bytes)?;
        header_len(self.tag, len) + len
    }

    // Inlined, so that the result isn't moved.
    #[inline(always)]
    #[tactic(auto, using(crate::proofs::Cited::none_added), unfolding(crate::specs::Opened::write_tlv))]
    fn encode<W: Writer>(&self, writer: &mut W) -> Result<(), Error> {
        let len = slice_len(self.bytes)?;
        encode_header(writer, self.tag, len)?;
        writer.write(self.bytes)
    }
}

/// Compares the tags, then the lengths, and then the contents.
impl<'a> DerOrd for AnyRef<'a> {
    fn der_cmp(&self, other: &Self) -> Result<Ordering, Error> {
        let content = OctetStringRef::of_content(self.bytes);
        let other_content = OctetStringRef::of_content(other.bytes);
        cmp_behind(self.tag, &content, other.tag, &other_content)
    }
}

impl<'a> FirstTag for AnyRef<'a> {
    fn first_tag(&self) -> Option<Tag> {
        // Only for the proof: `number_of` returns a `u32`, so the tag number fits 32 bits.
        let _number = number_of(self.tag);
        Some(self.tag)
    }
}
