//! SET OF, borrowed.

ghost use Rattle.std.specs.Prelude.{⊤, ◌≡◌, ◌⊎◌, ◌==◌, List, length, true, false, slice_get, IfOk};
ghost use Rattle.std.specs.Prelude.{IfErr, Ok, MatchResult};
ghost use Rattle.der_core.specs.TagTypes.Tag.TheVariants.{Set};
ghost use Rattle.der_core.specs.Shapes.{Value, tagged, nested, many, ascending, IsContent};
ghost use Rattle.der_core.specs.Shapes.{IsValid};
ghost use Rattle.der_core.specs.Spelling.{is_apart, is_body_apart, is_element, are_enough};
ghost use Rattle.der_core.specs.Grammar.{plain_list, plain_option, read_body};
ghost use Rattle.der_core.specs.Reading.{Gives, GivesNow, Reads, read_body_at};
ghost use Rattle.der_core.specs.Writing.{size, size_body};
ghost use Rattle.der_core.specs.Orders.{contents_cmp, encodings_cmp, Overflows};
ghost use Rattle.der_types_sets.specs.Sets.{Ascends, IsOutOfOrder, TooLong};
ghost use Rattle.der_types_sets.specs.Ascending.{JoinsAscending};
ghost use Rattle.der_types_sets.specs.Lent.{members_lent, IsWantOfMemory, AreLentApart};
ghost use Rattle.der_types_sets.specs.Lent.{IsUncompared};

use crate::ascending::count_ascending;
use crate::joined::joined_cmp;
use crate::places::check_ascending;
use crate::set_of_ref_iter::SetOfRefIter;
use crate::set_of_vec::SetOfVec;
use der_core::making::{elements_cmp, encode_members, list_in_range, members_len, read_fields};
use der_core::{
    ApartValue, AsRead, AsReadValue, Decode, DecodeFields, DecodeValue, DerOrd, Element, Encode,
    EncodeValue, Error, ErrorKind, Fields, FixedTag, Header, InRange, InRangeValue, Length, Member,
    Reader, Shaped, ShapedValue, SliceReader, Tag, Writer, length_cmp,
};
use std::alloc::{AllocError, Global};
use std::cmp::Ordering;
use std::marker::Model;

/// A borrowed SET OF (X.690 8.12), which borrows its members either as values or as the bytes of a
/// content. No encoding is less than the one before it (X.690 11.6), and equal members are allowed.
///
/// In contracts, its value is the values, the bytes, and the number of members in the bytes.
#[derive(Debug, Drop)]
pub struct SetOfRef<'a, T: Shaped> {
    values: &'a [T],
    octets: &'a [u8],
    count: usize,
}

impl<'a, T: Shaped> Model for SetOfRef<'a, T> {
    ghost use Rattle.der_types_sets.specs.Lent.{Lent, IsLent, lent_code};

    ghost Value = { Lent T };

    ghost coded = { lent_code T.code };

    ghost view = { λ s. record { values = s.values.now; octets = s.octets.now; count = s.count } };

    ghost invariant = { λ s. IsLent T.shape T.written
        (record { values = s.values.now; octets = s.octets.now; count = s.count }) };
}

impl<'a, T: Shaped> SetOfRef<'a, T> {
    /// Returns the set of values that are in ascending order.
    pub(crate) fn of_values(values: &'a [T]) -> SetOfRef<'a, T>
        requires { Ascends T.shape T.written values.now }
        ensures members { members_lent T.shape T.plain result ≡ plain_list T.plain values.now }
        ensures written { members_lent T.shape T.written result ≡ plain_list T.written values.now }
    {
        SetOfRef {
            values,
            octets: &[],
            count: 0,
        }
    }

    /// Returns an iterator over the members, which are decoded from the bytes or cloned.
    pub fn iter(&self, alloc: Global) -> SetOfRefIter<'a, T>
        ensures { result ≡ self.now }
    {
        SetOfRefIter::of(alloc, self.values, self.octets, self.count)
    }

    /// Returns whether there are no members.
    pub fn is_empty(&self) -> bool
        ensures { result ≡ (length (members_lent T.shape T.plain self.now) == 0) }
    {
        self.len() == 0
    }

    /// Returns the number of members.
    pub fn len(&self) -> usize
        ensures { result ≡ length (members_lent T.shape T.plain self.now) }
    {
        if self.count == 0 {
            self.values.len()
        } else {
            self.count
        }
    }
}

/// Returns an error of bytes that begin at a position of the input. The position of the error is
/// counted from there.
pub(crate) fn further_on(error: Error, place: Length) -> Error
    ensures { result.kind ≡ error.kind }
{
    let Some(position) = error.position else {
        return error.found_at(place);
    };
    let value = place.value.saturating_add(position.value);
    error.kind.at(Length { value })
}

impl<'a, T: Decode<'a, SliceReader<'a>> + Member> SetOfRef<'a, T> {
    /// Decodes the members up to the end of the reader. No encoding may be less than the one before
    /// it.
    ///
    /// The bytes are kept, so they are decoded under DER, even if the reader's encoding rules are
    /// BER. The members may open as many levels as the reader may.
    ///
    /// # Errors
    ///
    /// - The first error of a member.
    /// - `SetOrdering`: an encoding is less than the one before it.
    /// - `OutOfMemory`: memory runs out.
    /// - `Failed`: the reader failed before.
    pub fn decode_members<R: Reader<'a>>(
        alloc: Global,
        reader: &mut R,
    ) -> Result<SetOfRef<'a, T>, Error>
        ensures reads { Reads (members_lent T.shape T.plain) (R.state reader.old)
            (R.state reader.new) result
            (read_body_at (R.state reader.old) (ascending T.shape)) }
        // Accepted bytes are the concatenated encodings of the members.
        ensures spelled { IfOk result
            (λ set. JoinsAscending T.shape (members_lent T.shape T.plain set)
            (R.state reader.old).rest) }
        // An encoding is accepted, unless memory runs out.
        ensures only { (v : List (Value T.shape)) → is_element T.shape ≡ true → is_apart T.shape
            ≡ true → are_enough T.shape (R.state reader.old).room ≡ true
            → (R.state reader.old).failed ≡ false
            → JoinsAscending T.shape v (R.state reader.old).rest
            → Gives (members_lent T.shape T.plain) result (Ok v) }
    {
        if reader.is_failed() {
            return Err(Error::from(ErrorKind::Failed));
        }
        let place = reader.position();
        // Only for the proof: slices consist of bytes, so members that decode are valid.
        let octets = reader.remaining();
        let _octets = &octets[..];
        match count_ascending::<T>(alloc, octets, reader.levels_left()) {
            Ok(count) => {
                reader.skip(octets.len());
                Ok(SetOfRef {
                    values: &[],
                    octets,
                    count,
                })
            }
            Err(error) => {
                reader.fail();
                Err(further_on(error, place))
            }
        }
    }
}

impl<'a, T: Decode<'a, SliceReader<'a>> + Member + Clone> SetOfRef<'a, T> {
    /// Returns the member at an index, decoded or cloned, or `None` if there are fewer members. The
    /// caller proves that clones have the same abstract value. No member before it is cloned.
    ///
    /// # Errors
    ///
    /// - `OutOfMemory`: memory runs out.
    pub fn get(&self, alloc: Global, index: usize) -> Result<Option<T>, Error>
        requires { (x y : T) → T.is_clone x y → T.plain y ≡ T.plain x }
        ensures ok { IfOk result (λ member. plain_option T.plain member
            ≡ slice_get (members_lent T.shape T.plain self.now) index) }
        ensures refused { IfErr result IsWantOfMemory }
    {
        if self.count == 0 {
            let Some(value) = self.values.get(index) else {
                return Ok(None);
            };
            let value = value.clone()?;
            return Ok(Some(value));
        }
        let mut left = self.iter(alloc);
        for _ in 0..index {
            let Some(member) = left.next() else {
                return Ok(None);
            };
            let _passed = member?;
        }
        let Some(member) = left.next() else {
            return Ok(None);
        };
        let member = member?;
        Ok(Some(member))
    }

    /// Returns an owned set of the same members, decoded or cloned. The caller proves that clones
    /// have the same abstract value.
    ///
    /// # Errors
    ///
    /// - `OutOfMemory`: memory runs out.
    pub fn ref_to_owned(&self, alloc: Global) -> Result<SetOfVec<T>, Error>
    where
        T: AsRead,
        requires { (x y : T) → T.is_clone x y → T.plain y ≡ T.plain x }
        ensures ok { IfOk result
            (λ set. plain_list T.plain set ≡ members_lent T.shape T.plain self.now) }
        ensures refused { IfErr result IsWantOfMemory }
    {
        let mut members = Vec::with_capacity(alloc, self.len())?;
        let lent = SetOfRefIter::of(alloc, self.values, self.octets, self.count);
        for member in lent {
            members.push(member?)?;
        }
        Ok(SetOfVec::of_members(members))
    }
}

/// Copies the references. It doesn't allocate.
impl<'a, T: Shaped> Clone for SetOfRef<'a, T> {
    ghost is_clone = { λ x y. y ≡ x };

    ghost is_infallible = { λ _. ⊤ };

    fn clone(&self) -> Result<SetOfRef<'a, T>, AllocError> {
        Ok(SetOfRef::from(self))
    }
}

/// Copies the references.
impl<'a, 'b, T: Shaped> From<&'b SetOfRef<'a, T>> for SetOfRef<'a, T> {
    ghost from_gives = { λ set same. same ≡ set.now };

    fn from(set: &'b SetOfRef<'a, T>) -> SetOfRef<'a, T> {
        SetOfRef {
            values: set.values,
            octets: set.octets,
            count: set.count,
        }
    }
}

/// Borrows values that are in ascending order. Equal values are allowed. It doesn't allocate.
///
/// # Errors
///
/// - `SetOrdering`: a value is less than the one before it.
/// - `Overflow`: a member has no encoding, for example because its length exceeds 2^32 - 1.
impl<'a, T: DerOrd + Member> TryFrom<&'a [T]> for SetOfRef<'a, T> {
    type Error = Error;

    ghost try_from_gives = { λ values r. MatchResult r
        (λ set. (members_lent T.shape T.plain set ≡ plain_list T.plain values.now)
        × (members_lent T.shape T.written set ≡ plain_list T.written values.now)
        × Ascends T.shape T.written values.now) (λ e. IsOutOfOrder T.shape T.written values.now e
        ⊎ TooLong T.shape T.written values.now e) };

    fn try_from(values: &'a [T]) -> Result<SetOfRef<'a, T>, Error> {
        check_ascending(values)?;
        Ok(SetOfRef::of_values(values))
    }
}

impl<'a, T: Shaped> FixedTag for SetOfRef<'a, T> {
    ghost fixed_tag = { Set };

    fn tag() -> Tag {
        Tag::Set
    }
}

/// The content is the encodings of the members, none of which is less than the one before it.
impl<'a, T: Shaped> ShapedValue for SetOfRef<'a, T> {
    ghost content = { nested (ascending T.shape) };

    ghost value_plain = { members_lent T.shape T.plain };

    ghost value_written = { members_lent T.shape T.written };
}

impl<'a, T: Shaped> Fields for SetOfRef<'a, T> {
    ghost fields = { ascending T.shape };

    ghost fields_plain = { members_lent T.shape T.plain };

    ghost fields_written = { members_lent T.shape T.written };
}

impl<'a, R: Reader<'a>, T: Decode<'a, SliceReader<'a>> + Member> DecodeFields<'a, R>
    for SetOfRef<'a, T> {
    fn decode_fields(alloc: Global, reader: &mut R) -> Result<SetOfRef<'a, T>, Error> {
        Ok(SetOfRef::decode_members(alloc, reader)?)
    }
}

/// The content opens one of the 64 levels.
impl<'a, R: Reader<'a>, T: Decode<'a, SliceReader<'a>> + Member> DecodeValue<'a, R>
    for SetOfRef<'a, T> {
    fn decode_value(
        alloc: Global,
        reader: &mut R,
        header: Header,
    ) -> Result<SetOfRef<'a, T>, Error> {
        read_fields(alloc, reader, header)
    }
}

impl<'a, T: Element + Member> ApartValue for SetOfRef<'a, T> {
    ghost use Rattle.der_core.specs.Both.{both_true};

    ghost apart_value = { both_true T.element T.apart };
}

impl<'a, T: AsRead> AsReadValue for SetOfRef<'a, T> {
    ghost use Rattle.der_types_sets.specs.Lent.{same_lent};

    ghost as_read_value = { same_lent T.shape T.as_read };
}

impl<'a, T: Encode> SetOfRef<'a, T> {
    /// Returns the number of bytes of the content.
    ///
    /// # Errors
    ///
    /// - `Overflow`: the length is 2^32 or more.
    fn content_len(&self) -> Result<Length, Error>
        ensures { GivesNow (λ l. l.value) result
            (size_body (many T.shape) (members_lent T.shape T.written self.now)) }
    {
        if self.octets.is_empty() {
            return members_len(self.values);
        }
        Ok(Length {
            value: self.octets.len() as u32,
        })
    }
}

/// Bytes are written as they are.
///
/// The order of values was checked when the set was made, so it isn't checked again.
impl<'a, T: Encode + InRange> EncodeValue for SetOfRef<'a, T> {
    fn value_len(&self) -> Result<Length, Error> {
        self.content_len()
    }

    #[tactic(auto, unfolding(crate::specs::Opened::contents))]
    fn encode_value<W: Writer>(&self, writer: &mut W) -> Result<(), Error> {
        if self.octets.is_empty() {
            list_in_range(self.values);
            return encode_members(self.values, writer);
        }
        writer.write(self.octets)
    }
}

impl<'a, T: InRange> InRangeValue for SetOfRef<'a, T> {
    fn value_in_range(&self) {
        list_in_range(self.values);
    }
}

impl<'a, T: DerOrd + Encode> SetOfRef<'a, T> {
    /// Compares the contents of two sets, as lists of bytes, whatever their lengths are. It
    /// allocates only if one set borrows values and the other bytes.
    ///
    /// # Errors
    ///
    /// - `Overflow`: the content of one of the two has 2^32 bytes or more.
    /// - `SetOrdering`, `SetDuplicate`: a strict set in a value isn't in ascending order.
    /// - `OutOfMemory`: memory runs out.
    pub fn value_cmp(&self, alloc: Global, other: &SetOfRef<'a, T>) -> Result<Ordering, Error>
        // If both contents are valid, there is a result, unless memory runs out.
        ensures order { is_body_apart (many T.shape) ≡ true
            → IsContent (nested (many T.shape)) (members_lent T.shape T.written self.now)
            → IsContent (nested (many T.shape)) (members_lent T.shape T.written other.now)
            → Gives (λ o. o) result
            (Ok (contents_cmp (nested (many T.shape)) (members_lent T.shape T.written self.now)
            (members_lent T.shape T.written other.now))) }
        // If both sets borrow values, or both borrow bytes, the only error is that of a length.
        ensures refused { IfErr result
            (λ e. (AreLentApart self.now other.now
            × IsUncompared T.shape (members_lent T.shape T.written self.now)
            (members_lent T.shape T.written other.now) e)
            ⊎ Overflows e (size_body (many T.shape) (members_lent T.shape T.written self.now))
            (size_body (many T.shape) (members_lent T.shape T.written other.now))) }
    {
        if self.octets.is_empty() {
            if other.octets.is_empty() {
                return elements_cmp(self.values, other.values);
            }
            return joined_cmp(alloc, self.values, other.octets);
        }
        if other.octets.is_empty() {
            let order = joined_cmp(alloc, other.values, self.octets)?;
            return Ok(order.reverse());
        }
        Ok(self.octets.cmp(other.octets))
    }

    /// Compares the encodings of two sets, as lists of bytes: first the lengths, and then the
    /// contents (X.690 11.6). It allocates only if one set borrows values and the other bytes.
    ///
    /// # Errors
    ///
    /// - `Overflow`: the encoding of one of the two has 2^32 bytes or more.
    /// - `SetOrdering`, `SetDuplicate`: a strict set in a value isn't in ascending order.
    /// - `OutOfMemory`: memory runs out.
    pub fn der_cmp(&self, alloc: Global, other: &SetOfRef<'a, T>) -> Result<Ordering, Error>
        // If both values are valid, there is a result, unless memory runs out.
        ensures order { is_body_apart (many T.shape) ≡ true
            → IsValid (tagged Set (nested (many T.shape))) (members_lent T.shape T.written self.now)
            → IsValid (tagged Set (nested (many T.shape)))
            (members_lent T.shape T.written other.now)
            → Gives (λ o. o) result
            (Ok
            (encodings_cmp (tagged Set (nested (many T.shape)))
            (members_lent T.shape T.written self.now)
            (members_lent T.shape T.written other.now))) }
        // If both sets borrow values, or both borrow bytes, the only error is that of a length.
        ensures refused { IfErr result
            (λ e. (AreLentApart self.now other.now
            × IsUncompared T.shape (members_lent T.shape T.written self.now)
            (members_lent T.shape T.written other.now) e)
            ⊎ Overflows e
            (size (tagged Set (nested (many T.shape))) (members_lent T.shape T.written self.now))
            (size (tagged Set (nested (many T.shape)))
            (members_lent T.shape T.written other.now))) }
    {
        let len = self.content_len()?;
        let other_len = other.content_len()?;
        let lengths = length_cmp(len, other_len);
        if lengths.is_ne() {
            return Ok(lengths);
        }
        self.value_cmp(alloc, other)
    }
}
