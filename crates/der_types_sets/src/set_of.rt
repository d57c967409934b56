//! SET OF with a fixed capacity.

ghost use Rattle.std.specs.Prelude.{◌≡◌, ◌⊎◌, ◌≤◌, List, take, true, false, Ok, MatchResult, ◌==◌};
ghost use Rattle.std.specs.Prelude.{[], ◌∷◌, ◌++◌, length, slice_get, IfOk, OnOk, OnErr, IfErr};
ghost use Rattle.std.specs.Prelude.{option_copied, IsPermutation};
ghost use Rattle.der_core.specs.TagTypes.Tag.TheVariants.{Set};
ghost use Rattle.der_core.specs.Limits.{levels_max};
ghost use Rattle.der_core.specs.Shapes.{Value, tagged, nested, few};
ghost use Rattle.der_core.specs.Spelling.{is_element, are_enough, are_content_enough};
ghost use Rattle.der_core.specs.Grammar.{plain_list, value_at, read_whole};
ghost use Rattle.der_core.specs.Reading.{Gives, Fails, IsDer, read_content_at};
ghost use Rattle.std.specs.Cmp.Lexicographic.{pointwise, slice_cmp, slice_partial_cmp, lists_per};
ghost use Rattle.std.specs.Cmp.Lexicographic.{lists_equiv, lists_po, lists_total, lists_agrees};
ghost use Rattle.std.specs.Cmp.Lexicographic.{lists_ties};
ghost use Rattle.std.specs.Hash as fed;
ghost use Rattle.std.specs.Hash.{items_Alike};
ghost use Rattle.std.specs.Slice.Iter.{iter_rest};
ghost use Rattle.der_types_sets.specs.Lent.{members_lent};
ghost use Rattle.der_types_sets.specs.Sets.{Ascends, Loose, ReadsArranged, SpellsLoosely, TooLong};
ghost use Rattle.der_types_sets.specs.Sets.{IsBelowLast, IsPutAtPlace};

use crate::any_order::AnyOrder;
use crate::iter::SetOfIter;
use crate::places::{arrange, check_last, place_of};
use crate::sequence_of::SequenceOf;
use crate::set_of_ref::SetOfRef;
use arrayvec::ArrayVec;
use der_core::making::{elements_cmp, encode_members, members_len};
use der_core::{
    AsRead, Decode, DecodeValue, DerOrd, Encode, EncodeValue, Error, ErrorKind, FixedTag, FromDer,
    Header, Length, Member, Reader, Shaped, ShapedValue, SliceReader, Tag, ValueOrd, Writer,
};
use std::alloc::{AllocError, Global};
use std::cmp::Ordering;
use std::convert::AsSlice;
use std::hash::{Hash, Hasher};
use std::marker::Model;

/// SET OF (X.690 8.12) with at most `N` members, which are stored inline in ascending order of
/// their encodings. Equal members are allowed.
///
/// In contracts, its value is the list of the members.
#[derive(Debug, Drop)]
pub struct SetOf<T: Shaped, const N: usize> {
    pub(crate) members: ArrayVec<T, N>,
}

impl<T: Shaped, const N: usize> Model for SetOf<T, N> {
    ghost use Rattle.std.specs.Prelude.{List};
    ghost use Rattle.std.specs.Coded.{coded_list};
    ghost use Rattle.der_types_sets.specs.Sets.{Ascends};

    ghost Value = { List T };

    ghost coded = { coded_list T.code };

    ghost view = { λ s. s.members.items };

    ghost invariant = { λ s. Ascends T.shape T.written s.members.items };
}

impl<T: Shaped + Default, const N: usize> SetOf<T, N> {
    /// Returns the empty set.
    pub fn new() -> SetOf<T, N>
        ensures { result ≡ [] }
    {
        SetOf {
            members: ArrayVec::new(),
        }
    }
}

impl<T: Shaped, const N: usize> SetOf<T, N> {
    /// Returns the members, in ascending order of their encodings.
    pub fn as_slice(&self) -> &[T]
        ensures members { result.now ≡ self.now }
        ensures ascend { Ascends T.shape T.written result.now }
    {
        self.members.as_slice()
    }

    /// Returns the member at an index, or `None` if there are fewer members.
    pub fn get(&self, index: usize) -> Option<&T>
        ensures { option_copied result ≡ slice_get self.now index }
    {
        self.members.as_slice().get(index)
    }

    /// Returns the members, in ascending order of their encodings, and consumes the value.
    pub fn into_inner(self) -> ArrayVec<T, N>
        ensures members { result.items ≡ self }
        ensures ascend { Ascends T.shape T.written result.items }
    {
        let SetOf { members } = self;
        members
    }

    /// Returns an iterator over the members.
    pub fn iter(&self) -> SetOfIter<'_, T>
        ensures { iter_rest result ≡ self.now }
    {
        self.members.as_slice().iter()
    }

    /// Returns the borrowed form of the set.
    pub fn owned_to_ref(&self) -> SetOfRef<'_, T>
        ensures members { members_lent T.shape T.plain result ≡ plain_list T.plain self.now }
        ensures written { members_lent T.shape T.written result ≡ plain_list T.written self.now }
    {
        SetOfRef::of_values(self.members.as_slice())
    }

    /// Returns whether there are no members.
    pub fn is_empty(&self) -> bool
        ensures { result ≡ (length self.now == 0) }
    {
        self.members.is_empty()
    }

    /// Returns the number of members.
    pub fn len(&self) -> usize
        ensures { result ≡ length self.now }
    {
        self.members.len()
    }
}

impl<T: Shaped + Clone + Drop + Default, const N: usize> SetOf<T, N> {
    /// Returns a copy. The caller proves that copies of members equal them. The set itself doesn't
    /// allocate, but copying a member may.
    ///
    /// # Errors
    ///
    /// - `AllocError`: memory runs out.
    #[tactic(auto, using(crate::proofs::SetSteps::same_copies))]
    pub fn clone(&self) -> Result<SetOf<T, N>, AllocError>
        requires { (x y : T) → T.is_clone x y → y ≡ x }
        ensures { IfOk result (λ set. set ≡ self.now) }
    {
        let members = self.members.clone()?;
        Ok(SetOf { members })
    }
}

impl<T: DerOrd + Member + Drop, const N: usize> SetOf<T, N> {
    /// Inserts an item in order, after the members that equal it. After an error the set is
    /// unchanged.
    ///
    /// # Errors
    ///
    /// - `Overlength`: there are already `N` members.
    /// - `Overflow`: a member has no encoding, for example because its length exceeds 2^32 - 1.
    #[tactic(auto, using(crate::proofs::SetSteps::put_ascends, crate::proofs::SetSteps::put_same))]
    pub fn insert(&mut self, item: T) -> Result<(), Error>
        ensures ok { OnOk result (IsPermutation (item ∷ self.old) self.new) }
        ensures place { OnOk result (IsPutAtPlace T.shape T.written self.old item self.new) }
        ensures ascend { Ascends T.shape T.written self.new }
        ensures err { OnErr result (self.new ≡ self.old) }
        ensures refused { IfErr result
            (λ e. ((e.kind ≡ ErrorKind.Overlength) × (length self.old ≡ N))
            ⊎ TooLong T.shape T.written (item ∷ self.old) e) }
    {
        if self.members.is_full() {
            return Err(Error::from(ErrorKind::Overlength));
        }
        let place = place_of(self.members.as_slice(), &item)?;
        self.members.insert(place, item);
        Ok(())
    }

    /// Appends an item, which must not be less than the last member. After an error the set is
    /// unchanged.
    ///
    /// # Errors
    ///
    /// - `Overlength`: there are already `N` members.
    /// - `SetOrdering`: the item is less than the last member.
    /// - `Overflow`: a member has no encoding, for example because its length exceeds 2^32 - 1.
    #[tactic(auto, using(crate::proofs::SetSteps::last_ascends))]
    pub fn insert_ordered(&mut self, item: T) -> Result<(), Error>
        ensures ok { OnOk result (self.new ≡ self.old ++ item ∷ []) }
        ensures ascend { Ascends T.shape T.written self.new }
        ensures err { OnErr result (self.new ≡ self.old) }
        ensures refused { IfErr result
            (λ e. ((e.kind ≡ ErrorKind.Overlength) × (length self.old ≡ N))
            ⊎ ((e.kind ≡ ErrorKind.SetOrdering × IsBelowLast T.shape T.written self.old item)
            ⊎ TooLong T.shape T.written (item ∷ self.old) e)) }
    {
        if self.members.is_full() {
            return Err(Error::from(ErrorKind::Overlength));
        }
        check_last(self.members.as_slice(), &item)?;
        self.members.push(item);
        Ok(())
    }
}

impl<T: DerOrd + Member + Default + Drop, const N: usize> SetOf<T, N> {
    /// Decodes the members of a content, which may be in any order. Members after the first `N`
    /// aren't decoded.
    ///
    /// # Errors
    ///
    /// - The first error of a member.
    /// - `Overlength`: there are more than `N` members.
    /// - `Overflow`: under BER, a member has no encoding, for example because its length exceeds
    ///   2^32 - 1.
    /// - `OutOfMemory`: memory runs out.
    /// - `Failed`: the reader failed before.
    pub fn decode_value<'a, R: Reader<'a>>(
        alloc: Global,
        reader: &mut R,
        header: Header,
    ) -> Result<SetOf<T, N>, Error>
    where
        T: Decode<'a, R> + AsRead,
        // The decoded members, in the order of the input, are those of the set.
        ensures reads { (read : List T)
            × ReadsArranged T.shape T.plain T.written (R.state reader.old)
            (R.state reader.new) result
            (value_at (read_content_at (R.state reader.old) (nested (few N T.shape)) header.tag)
            header.length.value) read }
        // The content is the encodings of the members, in any order.
        ensures spelled { is_element T.shape ≡ true → IsDer (R.state reader.old)
            → IfOk result
            (λ set. Loose T.shape (plain_list T.plain set)
            (take header.length.value (R.state reader.old).rest)) }
        // The encodings of at most `N` members are accepted in any order, unless memory runs out.
        ensures only { (v : List (Value T.shape)) → is_element T.shape ≡ true
            → are_content_enough (nested (few N T.shape)) (R.state reader.old).room ≡ true
            → IsDer (R.state reader.old) → (R.state reader.old).failed ≡ false
            → header.length.value ≤ length (R.state reader.old).rest
            → Loose T.shape v (take header.length.value (R.state reader.old).rest) → length v ≤ N
            → Gives (plain_list T.plain) result (Ok v) }
    {
        // Only for the proof: slices consist of bytes, so members that decode under DER are valid.
        let before = reader.remaining();
        let _octets = &before[..];
        let read = SequenceOf::<T, N>::decode_value(alloc, reader, header)?;
        match SetOf::arranged(read) {
            Ok(set) => Ok(set),
            Err(error) => {
                reader.fail();
                Err(error)
            }
        }
    }

    /// Decodes a set from all bytes, under DER except that its members may be in any order. Members
    /// after the first `N` aren't decoded.
    ///
    /// # Errors
    ///
    /// - `Overflow`: there are 2^32 bytes or more.
    /// - The first error that decoding meets. This is `Overlength` if there are more than `N`
    ///   members.
    /// - `TrailingData`: bytes are left after the set.
    /// - `OutOfMemory`: memory runs out.
    pub fn from_der<'a>(alloc: Global, bytes: &'a [u8]) -> Result<SetOf<T, N>, Error>
    where
        T: Decode<'a, SliceReader<'a>> + AsRead,
        // Accepted bytes are an encoding of the set, with its members in any order.
        ensures spelled { is_element T.shape ≡ true
            → IfOk result (λ set. SpellsLoosely T.shape (plain_list T.plain set) bytes.now) }
        // An encoding of at most `N` members in any order is accepted, unless memory runs out.
        ensures only { (v : List (Value T.shape)) → is_element T.shape ≡ true
            → are_enough (tagged Set (nested (few N T.shape))) levels_max ≡ true
            → SpellsLoosely T.shape v bytes.now → length v ≤ N
            → Gives (plain_list T.plain) result (Ok v) }
        // The error is that of decoding a list of at most `N` members.
        ensures refused { is_element T.shape ≡ true
            → IfErr result
            (λ e. Fails e.kind (read_whole (tagged Set (nested (few N T.shape))) bytes.now)) }
    {
        let AnyOrder { list } = AnyOrder::<SequenceOf<T, N>>::from_der(alloc, bytes)?;
        let set = SetOf::arranged(list)?;
        Ok(set)
    }

    /// Brings the members of a list into order. It doesn't allocate.
    ///
    /// # Errors
    ///
    /// - `Overflow`: a member has no encoding, for example because its length exceeds 2^32 - 1.
    fn arranged(list: SequenceOf<T, N>) -> Result<SetOf<T, N>, Error>
        ensures ok { IfOk result (IsPermutation list) }
        ensures ascend { IfOk result (Ascends T.shape T.written) }
        ensures refused { IfErr result (TooLong T.shape T.written list) }
    {
        let mut members = list.into_inner();
        arrange(members.as_mut_slice())?;
        Ok(SetOf { members })
    }
}

impl<T: Shaped, const N: usize> FixedTag for SetOf<T, N> {
    ghost fixed_tag = { Set };

    fn tag() -> Tag {
        Tag::Set
    }
}

/// The content is the encodings of the members, in ascending order.
impl<T: Shaped, const N: usize> ShapedValue for SetOf<T, N> {
    ghost content = { nested (few N T.shape) };

    ghost value_plain = { plain_list T.plain };

    ghost value_written = { plain_list T.written };
}

impl<T: Encode, const N: usize> EncodeValue for SetOf<T, N> {
    fn value_len(&self) -> Result<Length, Error> {
        members_len(self.members.as_slice())
    }

    #[tactic(auto, unfolding(crate::specs::Opened::contents))]
    fn encode_value<W: Writer>(&self, writer: &mut W) -> Result<(), Error> {
        encode_members(self.members.as_slice(), writer)
    }
}

/// Compares the concatenated encodings of the members.
impl<T: DerOrd, const N: usize> ValueOrd for SetOf<T, N> {
    #[tactic(auto, unfolding(crate::specs::Opened::contents, crate::specs::Opened::IsContent, crate::specs::Opened::body_octets, crate::specs::Opened::IsBody))]
    fn value_cmp(&self, other: &Self) -> Result<Ordering, Error> {
        elements_cmp(self.members.as_slice(), other.members.as_slice())
    }
}

/// The default is the empty set.
impl<T: Shaped + Default, const N: usize> Default for SetOf<T, N> {
    ghost is_default = { λ s. s ≡ [] };

    fn default() -> SetOf<T, N> {
        SetOf::new()
    }
}

impl<T: Shaped, const N: usize> AsSlice<T> for SetOf<T, N> {
    ghost items = { λ s. s };

    fn as_slice(&self) -> &[T] {
        self.members.as_slice()
    }
}

/// Compares the members, one after another.
impl<T: Shaped + PartialEq, const N: usize> PartialEq for SetOf<T, N> {
    ghost eq = { pointwise T.eq };

    ghost laws = { lists_per T.laws };

    fn eq(&self, other: &Self) -> bool {
        self.members == other.members
    }
}

impl<T: Shaped + Eq, const N: usize> Eq for SetOf<T, N> {
    ghost laws = { lists_equiv T.Eq.laws };
}

/// Compares the members by their own order. The first members that differ decide, and then the
/// numbers of members.
impl<T: Shaped + PartialOrd, const N: usize> PartialOrd for SetOf<T, N> {
    ghost partial_cmp = { slice_partial_cmp T.partial_cmp };

    ghost laws = { lists_po T.PartialOrd.laws };

    fn partial_cmp(&self, other: &Self) -> Option<Ordering> {
        self.members.partial_cmp(&other.members)
    }
}

impl<T: Shaped + Ord, const N: usize> Ord for SetOf<T, N> {
    ghost cmp = { slice_cmp T.cmp };

    ghost total = { lists_total T.total };

    ghost matches_partial_cmp = { lists_agrees T.matches_partial_cmp };

    ghost matches_eq = { lists_ties T.cmp T.matches_eq };

    fn cmp(&self, other: &Self) -> Ordering {
        self.members.cmp(&other.members)
    }
}

/// Hashes the number of members, and then each member.
impl<T: Shaped + Hash, const N: usize> Hash for SetOf<T, N> {
    ghost hash_input = { fed.slice T.hash_input };

    ghost respects_eq = { (items_Alike (record { fed = T.respects_eq })).fed };

    fn hash<H: Hasher>(&self, state: &mut H) {
        self.members.hash(state);
    }
}

/// Brings these members into ascending order. It doesn't allocate.
///
/// # Errors
///
/// - `Overflow`: a member has no encoding, for example because its length exceeds 2^32 - 1.
impl<T: DerOrd + Member + Drop, const N: usize> TryFrom<[T; N]> for SetOf<T, N> {
    type Error = Error;

    ghost try_from_gives = { λ members r. MatchResult r (λ set. IsPermutation members set
        × Ascends T.shape T.written set) (TooLong T.shape T.written members) };

    fn try_from(members: [T; N]) -> Result<SetOf<T, N>, Error> {
        let mut members = ArrayVec::from(members);
        arrange(members.as_mut_slice())?;
        Ok(SetOf { members })
    }
}
