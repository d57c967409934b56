//! ANY: a value of any type.

ghost use Rattle.std.specs.Prelude.{◌≡◌, ◌<◌, ◌↔◌, [], length, vec_len, nat_eq, true, false, Some};
ghost use Rattle.std.specs.Prelude.{None, Ok, IsTrue, IfOk, IfErr, IsErrAnd, refl};
ghost use Rattle.std.specs.Cmp.{po, partial_equiv_from_equiv, on_equiv, on_per};
ghost use Rattle.std.specs.Cmp.Lexicographic.{pointwise, nat_list_eq_equiv};
ghost use Rattle.der_types_text.specs.Der.Limits.{IsLength, length_max, levels_max};
ghost use Rattle.der_types_text.specs.Der.Shapes.{any, tagged, nested, Body, BodyValue};
ghost use Rattle.der_types_text.specs.Der.Shapes.{ContentValue};
ghost use Rattle.der_types_text.specs.Der.Shapes.{IsValid, Spells, octets_of};
ghost use Rattle.der_types_text.specs.Der.Spelling.{is_apart, are_enough};
ghost use Rattle.der_types_text.specs.Der.Tags.{same_tag};
ghost use Rattle.der_types_text.specs.Der.Reading.{Gives, ClosureReads, HandsBack, unread};
ghost use Rattle.der_types_text.specs.Der.Nesting.{Answered, RefusesNested};
ghost use Rattle.der_types_text.specs.Der.Writing.{write_content};
ghost use Rattle.der_types_any.specs.AnyOrders.{any_cmp, any_cmp_total, any_cmp_ties, any_fed};
ghost use Rattle.der_types_any.specs.AnyOrders.{any_fed_alike};
ghost use Rattle.der_types_any.specs.Anys.{any_lent};
ghost use Rattle.der_types_text.specs.Der.Orders.{octets_cmp};
ghost use Rattle.der_types_any.specs.Contents.{content_as, content_by, written_as};

use crate::any_ref::AnyRef;
use der_types_numbers::KeptOctets;
use der_types_text::der::making::is_same_tag;
use der_types_text::der::{
    Choice, Decode, DecodeValue, DerOrd, Encode, EncodeValue, EncodingRules, Error, ErrorKind,
    FirstTag, FixedTag, Header, Length, Reader, Shaped, SliceReader, Tag, Writer,
};
use std::alloc::{AllocError, Global};
use std::cmp::Ordering;
use std::hash::{Hash, Hasher};
use std::marker::Model;

/// A value of any type (X.680 3.8.1): its tag, and its content of fewer than 2^32 bytes, which
/// isn't decoded.
///
/// In contracts, its value is the tag and the content bytes.
#[derive(Debug, Drop)]
pub struct Any {
    tag: Tag,
    bytes: KeptOctets,
}

impl Model for Any {
    ghost use Rattle.der_types_text.specs.Der.Shapes.{AnyValue};

    ghost Value = { AnyValue };

    ghost use Rattle.der_types_any.specs.Anys.{any_kept, IsAny};

    ghost view = { any_kept };

    ghost invariant = { IsAny };
}

/// Returns the encoded content of a value.
fn content_octets<T: EncodeValue>(alloc: Global, value: &T) -> Result<Vec<u8>, Error>
    ensures { Gives (λ v. record { written = v.items; room = None; failed = false }) result
        (write_content T.content (T.value_written value.now)
        (record { written = []; room = None; failed = false })) }
{
    let mut out = Vec::new(alloc);
    value.encode_value(&mut out)?;
    Ok(out)
}

impl Any {
    /// Returns the value with this tag and this content.
    ///
    /// # Errors
    ///
    /// - `Overflow`: the content has 2^32 bytes or more.
    pub fn new(tag: Tag, bytes: Vec<u8>) -> Result<Any, Error>
        ensures ok { IfOk result (λ a. IsLength (vec_len bytes)
            × (a ≡ record { tag = tag; contents = bytes.items })) }
        ensures err { IfErr result (λ e. (length_max < vec_len bytes)
            × (e.kind ≡ ErrorKind.Overflow)) }
    {
        if bytes.len() > Length::MAX.value as usize {
            return Err(Error::from(ErrorKind::Overflow));
        }
        let bytes = KeptOctets::of(bytes);
        Ok(Any { tag, bytes })
    }

    /// Returns NULL.
    pub fn null(alloc: Global) -> Any
        ensures { result ≡ record { tag = Tag.Null; contents = [] } }
    {
        Any {
            tag: Tag::Null,
            bytes: KeptOctets::of(Vec::new(alloc)),
        }
    }

    /// Encodes a value, and returns its tag and its content.
    ///
    /// # Errors
    ///
    /// - `Overflow`: a length exceeds 2^32 - 1.
    /// - `OutOfMemory`: memory runs out.
    #[tactic(auto, unfolding(crate::specs::Contents::written_as, der_types_numbers::specs::Numbers::if_countable))]
    pub fn encode_from<T: EncodeValue + FixedTag>(alloc: Global, value: &T) -> Result<Any, Error>
        ensures { Gives (λ a. a) result
            (written_as T.fixed_tag T.content (T.value_written value.now)) }
    {
        let bytes = content_octets(alloc, value)?;
        Ok(Any::new(T::tag(), bytes)?)
    }

    /// Returns an owned copy of a borrowed value.
    // Inlined, so that the value is made where the caller stores it.
    #[inline(always)]
    pub(crate) fn copy_of(alloc: Global, lent: &AnyRef<'_>) -> Result<Any, AllocError>
        ensures { IfOk result (λ a. a ≡ any_lent lent.now) }
    {
        let bytes = KeptOctets::copy_of(alloc, lent.value())?;
        Ok(Any {
            tag: lent.tag(),
            bytes,
        })
    }

    /// Returns a copy.
    ///
    /// # Errors
    ///
    /// - `AllocError`: memory runs out.
    pub fn clone(&self, alloc: Global) -> Result<Any, AllocError>
        ensures { IfOk result (λ a. a ≡ self.now) }
    {
        Any::copy_of(alloc, &self.to_ref())
    }

    /// Returns the tag.
    pub fn tag(&self) -> Tag
        ensures { result ≡ self.now.tag }
    {
        self.tag
    }

    /// Returns the content bytes.
    pub fn value(&self) -> &[u8]
        ensures { result.now ≡ self.now.contents }
    {
        self.bytes.as_slice()
    }

    /// Returns the header.
    pub fn header(&self) -> Header
        ensures tag { result.tag ≡ self.now.tag }
        ensures length { result.length.value ≡ length self.now.contents }
    {
        self.to_ref().header()
    }

    /// Returns whether the value is NULL.
    pub fn is_null(&self) -> bool
        ensures { IsTrue result ↔ (self.now ≡ record { tag = Tag.Null; contents = [] }) }
    {
        self.to_ref().is_null()
    }

    /// Decodes the content as a value of a type that has this tag.
    ///
    /// # Errors
    ///
    /// - `TagUnexpected`: the tag isn't that of the type.
    /// - The first error of the content.
    /// - `OutOfMemory`: memory runs out.
    pub fn decode_as<'a, T: DecodeValue<'a, SliceReader<'a>> + FixedTag>(
        &'a self,
        alloc: Global,
    ) -> Result<T, Error>
        // If the value is valid, its encoding is that of the result.
        ensures spelled { IsValid any self.now → is_apart (tagged T.fixed_tag T.content) ≡ true
            → IfOk result
            (λ v. Spells (tagged T.fixed_tag T.content) (T.value_plain v)
            (octets_of any self.now)) }
        // If the encoding is that of a value of the type, it is decoded, unless memory runs out.
        ensures only { (v : ContentValue T.content) → IsValid any self.now
            → is_apart (tagged T.fixed_tag T.content) ≡ true
            → are_enough (tagged T.fixed_tag T.content) levels_max ≡ true
            → Spells (tagged T.fixed_tag T.content) v (octets_of any self.now)
            → Gives T.value_plain result (Ok v) }
        // The result is that of the definition, including the kind of the error.
        ensures exact { Gives T.value_plain result (content_as T.fixed_tag T.content self.now) }
    {
        Ok(self.to_ref().decode_as(alloc)?)
    }

    /// Decodes the content as a value of a type that has this tag, under these encoding rules.
    ///
    /// # Errors
    ///
    /// - `TagUnexpected`: the tag isn't that of the type.
    /// - The first error of the content.
    /// - `OutOfMemory`: memory runs out.
    pub fn decode_as_encoding<'a, T: DecodeValue<'a, SliceReader<'a>> + FixedTag>(
        &'a self,
        alloc: Global,
        encoding_rules: EncodingRules,
    ) -> Result<T, Error>
        ensures { Gives T.value_plain result
            (content_by encoding_rules T.fixed_tag T.content self.now) }
    {
        Ok(self.to_ref().decode_as_encoding(alloc, encoding_rules)?)
    }

    /// Calls `f` on a reader of the content of this SEQUENCE. `f` must read all of it.
    ///
    /// # Errors
    ///
    /// - `TagUnexpected`: the value isn't a SEQUENCE.
    /// - The error of `f`.
    /// - `TrailingData`: `f` left bytes unread.
    pub fn sequence<'a, T: Drop, F: FnOnce(&mut SliceReader<'a>) -> Result<T, Error>>(
        &'a self,
        f: F,
    ) -> Result<T, Error>
        requires callable { F.IsAlwaysCallable f }
        // The closure must leave the reader with the same end, at the same or a later position.
        requires hands_back { HandsBack (λ s. s) F.FnOnce f }
        // The result is that of the closure, which read all of the content.
        ensures ran { IfOk result
            (λ x. Answered (λ s. s) F.FnOnce f (length self.now.contents)
            (unread EncodingRules.Der self.now.contents) x) }
        ensures tag { same_tag self.now.tag Tag.Sequence ≡ false
            → IsErrAnd result (λ e. e.kind ≡ ErrorKind.TagUnexpected) }
        // For a SEQUENCE, the error is that of the closure, or the closure left bytes unread.
        ensures refused { same_tag self.now.tag Tag.Sequence ≡ true
            → IfErr result
            (RefusesNested (λ s. s) F.FnOnce f (length self.now.contents)
            (unread EncodingRules.Der self.now.contents)) }
        // If the closure decodes a body, this call decodes the content.
        ensures reads { (b : Body) (view : T → BodyValue b)
            → ClosureReads (λ s. s) F.FnOnce f b view
            → Gives view result (content_as Tag.Sequence (nested b) self.now) }
    {
        let value = self.to_ref().sequence(f)?;
        Ok(value)
    }

    /// Compares two contents as lists of bytes, whatever the tags are. It always succeeds.
    pub fn value_cmp(&self, other: &Any) -> Result<Ordering, Error>
        ensures { result ≡ Ok (octets_cmp self.now.contents other.now.contents) }
    {
        self.to_ref().value_cmp(&other.to_ref())
    }

    /// Returns the borrowed form of the value.
    pub fn to_ref(&self) -> AnyRef<'_>
        ensures { any_lent result ≡ self.now }
    {
        AnyRef::trusted(self.tag, self.bytes.as_slice())
    }

    /// Returns the borrowed form of the value.
    pub fn owned_to_ref(&self) -> AnyRef<'_>
        ensures { any_lent result ≡ self.now }
    {
        self.to_ref()
    }
}

/// Copies the value with its own allocator.
impl Clone for Any {
    ghost is_clone = { λ x y. y ≡ x };

    fn clone(&self) -> Result<Any, AllocError> {
        Any::copy_of(*self.bytes.allocator(), &self.to_ref())
    }
}

/// Compares the tags and the contents.
impl PartialEq for Any {
    ghost use Rattle.der_types_any.specs.AnyOrders.{any_key};

    ghost eq = { λ a b. pointwise nat_eq (any_key a) (any_key b) };

    ghost laws = { on_per any_key (partial_equiv_from_equiv nat_list_eq_equiv) };

    fn eq(&self, other: &Self) -> bool {
        match (self.tag, other.tag) {
            // Most attribute values of names have this tag.
            (Tag::Utf8String, Tag::Utf8String) => self.bytes == other.bytes,
            (Tag::PrintableString, Tag::PrintableString) => self.bytes == other.bytes,
            _ => is_same_tag(self.tag, other.tag) && self.bytes == other.bytes,
        }
    }
}

impl Eq for Any {
    ghost use Rattle.der_types_any.specs.AnyOrders.{any_key};

    ghost laws = { on_equiv any_key nat_list_eq_equiv };
}

/// Compares the first bytes of the tags, then their numbers, and then the contents.
impl PartialOrd for Any {
    ghost partial_cmp = { λ a b. Some (any_cmp a b) };

    ghost laws = { po any_cmp_total any_cmp_ties };

    fn partial_cmp(&self, other: &Self) -> Option<Ordering> {
        Some(self.cmp(other))
    }
}

impl Ord for Any {
    ghost cmp = { any_cmp };

    ghost total = { any_cmp_total };

    ghost matches_partial_cmp = { λ a b. refl };

    ghost matches_eq = { any_cmp_ties };

    fn cmp(&self, other: &Self) -> Ordering {
        self.to_ref().cmp(&other.to_ref())
    }
}

/// Hashes the first byte of the tag, its number, and the content.
impl Hash for Any {
    ghost hash_input = { any_fed };

    ghost respects_eq = { any_fed_alike };

    fn hash<H: Hasher>(&self, state: &mut H) {
        self.to_ref().hash(state);
    }
}

impl Shaped for Any {
    ghost shape = { any };

    ghost plain = { λ a. a };

    ghost written = { λ a. a };
}

impl Choice for Any {
    fn can_decode(_tag: Tag) -> bool {
        true
    }
}

impl<'a, R: Reader<'a>> Decode<'a, R> for Any {
    // Inlined, so that the value is moved less often.
    #[inline(always)]
    fn decode(alloc: Global, reader: &mut R) -> Result<Any, Error> {
        let lent = AnyRef::decode(alloc, reader)?;
        match Any::copy_of(alloc, &lent) {
            Ok(any) => Ok(any),
            Err(error) => {
                reader.fail();
                Err(Error::from(error))
            }
        }
    }
}

impl Encode for Any {
    // Inlined, so that the result isn't moved.
    #[inline(always)]
    fn encoded_len(&self) -> Result<Length, Error> {
        self.to_ref().encoded_len()
    }

    // Inlined, so that the result isn't moved.
    #[inline(always)]
    fn encode<W: Writer>(&self, writer: &mut W) -> Result<(), Error> {
        self.to_ref().encode(writer)
    }
}

/// Compares the tags, then the lengths, and then the contents.
impl DerOrd for Any {
    fn der_cmp(&self, other: &Self) -> Result<Ordering, Error> {
        self.to_ref().der_cmp(&other.to_ref())
    }
}

impl FirstTag for Any {
    fn first_tag(&self) -> Option<Tag> {
        self.to_ref().first_tag()
    }
}
