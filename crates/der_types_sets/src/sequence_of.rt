//! SEQUENCE OF with a fixed capacity.

ghost use Rattle.std.specs.Prelude.{ℕ, ◌≡◌, ◌==◌, ◌↔◌, ◌<◌, [], ◌∷◌, ◌++◌, length, slice_get};
ghost use Rattle.std.specs.Prelude.{slice_index_or, IsOk, OnOk, OnErr, IfErr, option_copied};
ghost use Rattle.std.specs.List.{AllZip};
ghost use Rattle.std.specs.Cmp.Lexicographic.{pointwise, lists_per, lists_equiv};
ghost use Rattle.std.specs.Hash as fed;
ghost use Rattle.std.specs.Hash.{items_Alike};
ghost use Rattle.std.specs.Slice.Iter.{iter_rest};
ghost use Rattle.der_core.specs.TagTypes.Tag.TheVariants.{Sequence};
ghost use Rattle.der_core.specs.Shapes.{nested, few};
ghost use Rattle.der_core.specs.Grammar.{plain_list};

use crate::iter::SequenceOfIter;
use arrayvec::ArrayVec;
use der_core::making::{elements_cmp, encode_members, list_in_range, members_len, read_fields};
use der_core::{
    ApartValue, AsRead, AsReadValue, Decode, DecodeFields, DecodeValue, DerOrd, Element, Encode,
    EncodeValue, Error, ErrorKind, Fields, FixedTag, Header, InRange, InRangeValue, Length, Member,
    Reader, Shaped, ShapedValue, Tag, ValueOrd, Writer,
};
use std::alloc::{AllocError, Global};
use std::cmp::Ordering;
use std::convert::AsSlice;
use std::hash::{Hash, Hasher};
use std::marker::Model;

/// SEQUENCE OF (X.690 8.10) with at most `N` members, which are stored inline.
///
/// In contracts, its value is the list of the members.
#[derive(Debug, Drop)]
pub struct SequenceOf<T, const N: usize> {
    pub(crate) members: ArrayVec<T, N>,
}

impl<T, const N: usize> Model for SequenceOf<T, N> {
    ghost use Rattle.std.specs.Prelude.{List};
    ghost use Rattle.std.specs.Coded.{coded_list};

    ghost Value = { List T };

    ghost coded = { coded_list T.code };

    ghost view = { λ s. s.members.items };
}

impl<T: Default, const N: usize> SequenceOf<T, N> {
    /// Returns the empty list.
    pub fn new() -> SequenceOf<T, N>
        ensures { result ≡ [] }
    {
        SequenceOf {
            members: ArrayVec::new(),
        }
    }
}

impl<T, const N: usize> SequenceOf<T, N> {
    ghost use Rattle.std.specs.Borrow.{sem};
    ghost use Rattle.der_types_sets.specs.Lends.{lends_members};

    /// Returns the members as a mutable slice.
    pub fn as_mut_slice(&mut self) -> &mut [T]
        ensures* writes_back { sem 𝓛 (lends_members T.row N.row self.entry result) }
        ensures members { result.now ≡ self.old }
    {
        self.members.as_mut_slice()
    }

    /// Returns the members.
    pub fn as_slice(&self) -> &[T]
        ensures { result.now ≡ self.now }
    {
        self.members.as_slice()
    }

    /// Returns the member at an index, or `None` if there are fewer members.
    pub fn get(&self, index: usize) -> Option<&T>
        ensures { option_copied result ≡ slice_get self.now index }
    {
        self.members.as_slice().get(index)
    }

    /// Returns the members, and consumes the value.
    pub fn into_inner(self) -> ArrayVec<T, N>
        ensures { result.items ≡ self }
    {
        let SequenceOf { members } = self;
        members
    }

    /// Returns an iterator over the members.
    pub fn iter(&self) -> SequenceOfIter<'_, T>
        ensures { iter_rest result ≡ self.now }
    {
        self.members.as_slice().iter()
    }

    /// Returns whether there are no members.
    pub fn is_empty(&self) -> bool
        ensures { result ≡ (length self.now == 0) }
    {
        self.members.is_empty()
    }

    /// Returns the number of members.
    pub fn len(&self) -> usize
        ensures { result ≡ length self.now }
    {
        self.members.len()
    }
}

impl<T: Drop, const N: usize> SequenceOf<T, N> {
    /// Appends an item. After an error the list is unchanged.
    ///
    /// # Errors
    ///
    /// - `Overlength`: there are already `N` members.
    pub fn add(&mut self, item: T) -> Result<(), Error>
        ensures room { IsOk result ↔ (length self.old < N) }
        ensures ok { OnOk result (self.new ≡ self.old ++ item ∷ []) }
        ensures err { OnErr result (self.new ≡ self.old) }
        ensures full { IfErr result (λ e. e.kind ≡ ErrorKind.Overlength) }
    {
        if self.members.is_full() {
            return Err(Error::from(ErrorKind::Overlength));
        }
        self.members.push(item);
        Ok(())
    }
}

impl<T, const N: usize> FixedTag for SequenceOf<T, N> {
    ghost fixed_tag = { Sequence };

    fn tag() -> Tag {
        Tag::Sequence
    }
}

impl<T: Shaped, const N: usize> Fields for SequenceOf<T, N> {
    ghost fields = { few N T.shape };

    ghost fields_plain = { plain_list T.plain };

    ghost fields_written = { plain_list T.written };
}

impl<T: Shaped, const N: usize> ShapedValue for SequenceOf<T, N> {
    ghost content = { nested (few N T.shape) };

    ghost value_plain = { plain_list T.plain };

    ghost value_written = { plain_list T.written };
}

/// The content is at most `N` values.
impl<'a, R: Reader<'a>, T: Decode<'a, R> + Default, const N: usize> DecodeFields<'a, R>
    for SequenceOf<T, N> {
    /// # Errors
    ///
    /// - `Overlength`: there are more than `N` values. The next one isn't decoded.
    fn decode_fields(alloc: Global, reader: &mut R) -> Result<SequenceOf<T, N>, Error> {
        if reader.is_failed() {
            return Err(Error::from(ErrorKind::Failed));
        }
        let mut members = ArrayVec::new();
        for _ in 0..N {
            if reader.is_finished() {
                break;
            }
            let member = T::decode(alloc, reader)?;
            members.push(member);
        }
        if reader.is_finished() {
            Ok(SequenceOf { members })
        } else {
            let place = reader.position();
            reader.fail();
            Err(ErrorKind::Overlength.at(place))
        }
    }
}

impl<'a, R: Reader<'a>, T: Decode<'a, R> + Default, const N: usize> DecodeValue<'a, R>
    for SequenceOf<T, N> {
    fn decode_value(
        alloc: Global,
        reader: &mut R,
        header: Header,
    ) -> Result<SequenceOf<T, N>, Error> {
        read_fields(alloc, reader, header)
    }
}

impl<T: Element + Member, const N: usize> ApartValue for SequenceOf<T, N> {
    ghost use Rattle.der_core.specs.Both.{both_true};

    ghost apart_value = { both_true T.element T.apart };
}

impl<T: AsRead, const N: usize> AsReadValue for SequenceOf<T, N> {
    ghost use Rattle.der_core.specs.Same.{same_list};

    ghost as_read_value = { same_list T.as_read };
}

impl<T: InRange, const N: usize> InRangeValue for SequenceOf<T, N> {
    #[tactic(auto, using(crate::proofs::AscendingSteps::length_plain_list))]
    fn value_in_range(&self) {
        list_in_range(self.members.as_slice());
    }
}

impl<T: Encode, const N: usize> EncodeValue for SequenceOf<T, N> {
    fn value_len(&self) -> Result<Length, Error> {
        members_len(self.members.as_slice())
    }

    #[tactic(auto, unfolding(crate::specs::Opened::contents))]
    fn encode_value<W: Writer>(&self, writer: &mut W) -> Result<(), Error> {
        encode_members(self.members.as_slice(), writer)
    }
}

/// Compares the concatenated encodings of the members.
impl<T: DerOrd, const N: usize> ValueOrd for SequenceOf<T, N> {
    #[tactic(auto, unfolding(crate::specs::Opened::contents, crate::specs::Opened::IsContent, crate::specs::Opened::body_octets, crate::specs::Opened::IsBody))]
    fn value_cmp(&self, other: &Self) -> Result<Ordering, Error> {
        elements_cmp(self.members.as_slice(), other.members.as_slice())
    }
}

/// The default is the empty list.
impl<T: Default, const N: usize> Default for SequenceOf<T, N> {
    ghost is_default = { λ s. s ≡ [] };

    fn default() -> SequenceOf<T, N> {
        SequenceOf::new()
    }
}

impl<T, const N: usize> AsSlice<T> for SequenceOf<T, N> {
    ghost items = { λ s. s };

    fn as_slice(&self) -> &[T] {
        self.members.as_slice()
    }
}

/// Clones each member.
impl<T: Clone + Default, const N: usize> Clone for SequenceOf<T, N> {
    ghost is_clone = { AllZip T.is_clone };

    ghost is_infallible = { λ v. (i : ℕ) (d : T) → i < length v
        → T.is_infallible (slice_index_or v i d) };

    fn clone(&self) -> Result<SequenceOf<T, N>, AllocError> {
        let members = self.members.clone()?;
        Ok(SequenceOf { members })
    }
}

/// Compares the members, one after another.
impl<T: PartialEq, const N: usize> PartialEq for SequenceOf<T, N> {
    ghost eq = { pointwise T.eq };

    ghost laws = { lists_per T.laws };

    fn eq(&self, other: &Self) -> bool {
        self.members == other.members
    }
}

impl<T: Eq, const N: usize> Eq for SequenceOf<T, N> {
    ghost laws = { lists_equiv T.Eq.laws };
}

/// Hashes the number of members, and then each member.
impl<T: Hash, const N: usize> Hash for SequenceOf<T, N> {
    ghost hash_input = { fed.slice T.hash_input };

    ghost respects_eq = { (items_Alike (record { fed = T.respects_eq })).fed };

    fn hash<H: Hasher>(&self, state: &mut H) {
        self.members.hash(state);
    }
}
