//! SET OF with any number of members.

ghost use Rattle.std.specs.Prelude.{◌≡◌, ◌⊎◌, ◌≤◌, MatchResult, List, take, true, false, Ok, Err};
ghost use Rattle.std.specs.Prelude.{◌==◌, [], ◌∷◌, ◌++◌, length, slice_get, IfOk, OnOk, OnErr};
ghost use Rattle.std.specs.Prelude.{IfErr, IsErrAnd, option_copied, IsPermutation};
ghost use Rattle.der_core.specs.TagTypes.Tag.TheVariants.{Set};
ghost use Rattle.der_core.specs.Limits.{levels_max};
ghost use Rattle.der_core.specs.Shapes.{Value, tagged, nested, many, rising, octets_of};
ghost use Rattle.der_core.specs.Shapes.{AllRising};
ghost use Rattle.der_core.specs.Spelling.{is_element, are_enough, are_content_enough};
ghost use Rattle.der_core.specs.Grammar.{plain_list, value_at, read_whole};
ghost use Rattle.der_core.specs.Reading.{Reads, Gives, Fails, IsDer, read_content_at};
ghost use Rattle.std.specs.Cmp.Lexicographic.{pointwise, slice_cmp, slice_partial_cmp, lists_per};
ghost use Rattle.std.specs.Cmp.Lexicographic.{lists_equiv, lists_po, lists_total, lists_agrees};
ghost use Rattle.std.specs.Cmp.Lexicographic.{lists_ties};
ghost use Rattle.std.specs.Hash as fed;
ghost use Rattle.std.specs.Hash.{items_Alike};
ghost use Rattle.der_types_sets.specs.Lent.{members_lent};
ghost use Rattle.der_types_sets.specs.Sets.{Ascends, Loose, ReadsArranged, SpellsLoosely};
ghost use Rattle.der_types_sets.specs.Sets.{IsRefusal, TooLong, IsBelowLast, IsPutAtPlace};
ghost use Rattle.der_core.specs.Placed.{AllValid};
ghost use Rattle.der_types_sets.specs.Sets.{KeepsEquals, Gains, StopsAt, StopsIn};
ghost use Rattle.std.specs.Iterator.{IsFinite, ExtendsWithItems, Drains};
ghost use Rattle.std.specs.Slice.Iter.{iter_rest};

use crate::any_order::AnyOrder;
use crate::iter::SetOfIter;
use crate::places::{check_last, place_of};
use crate::set_of_ref::SetOfRef;
use crate::sorting::arrange_behind_first;
use der_core::making::elements_cmp;
use der_core::{
    AsRead, Decode, DecodeValue, DerOrd, Encode, EncodeValue, Error, ErrorKind, FixedTag, FromDer,
    Header, Length, Member, Reader, Shaped, ShapedValue, SliceReader, StrictSetOf as StrictSet,
    Tag, ValueOrd, Writer,
};
use std::alloc::{AllocError, Global};
use std::cmp::Ordering;
use std::convert::AsSlice;
use std::hash::{Hash, Hasher};
use std::marker::Model;

/// SET OF (X.690 8.12), with its members in ascending order of their encodings. Equal members are
/// allowed.
///
/// In contracts, its value is the list of the members.
#[derive(Debug, Drop)]
pub struct SetOfVec<T: Shaped> {
    members: Vec<T>,
}

impl<T: Shaped> Model for SetOfVec<T> {
    ghost use Rattle.std.specs.Prelude.{List};
    ghost use Rattle.std.specs.Coded.{coded_list};
    ghost use Rattle.der_types_sets.specs.Sets.{Ascends};

    ghost Value = { List T };

    ghost coded = { coded_list T.code };

    ghost view = { λ s. s.members.items };

    ghost invariant = { λ s. Ascends T.shape T.written s.members.items };
}

impl<T: Shaped> SetOfVec<T> {
    /// Returns the set of members that are in ascending order.
    pub(crate) fn of_members(members: Vec<T>) -> SetOfVec<T>
        requires { Ascends T.shape T.written members.items }
        ensures { result ≡ members.items }
    {
        SetOfVec { members }
    }

    /// Returns the empty set.
    pub fn new(alloc: Global) -> SetOfVec<T>
        ensures { result ≡ [] }
    {
        SetOfVec {
            members: Vec::new(alloc),
        }
    }

    /// Returns the members, in ascending order of their encodings.
    pub fn as_slice(&self) -> &[T]
        ensures members { result.now ≡ self.now }
        ensures ascend { Ascends T.shape T.written result.now }
    {
        self.members.as_slice()
    }

    /// Returns the member at an index, or `None` if there are fewer members.
    pub fn get(&self, index: usize) -> Option<&T>
        ensures { option_copied result ≡ slice_get self.now index }
    {
        self.members.as_slice().get(index)
    }

    /// Returns the members, in ascending order of their encodings, and consumes the value.
    pub fn into_vec(self) -> Vec<T>
        ensures members { result.items ≡ self }
        ensures ascend { Ascends T.shape T.written result.items }
    {
        let SetOfVec { members } = self;
        members
    }

    /// Returns an iterator over the members.
    pub fn iter(&self) -> SetOfIter<'_, T>
        ensures { iter_rest result ≡ self.now }
    {
        self.members.as_slice().iter()
    }

    /// Returns the borrowed form of the set.
    pub fn owned_to_ref(&self) -> SetOfRef<'_, T>
        ensures members { members_lent T.shape T.plain result ≡ plain_list T.plain self.now }
        ensures written { members_lent T.shape T.written result ≡ plain_list T.written self.now }
    {
        SetOfRef::of_values(self.members.as_slice())
    }

    /// Returns the empty set, as [`SetOfVec::new`] does.
    pub fn default(alloc: Global) -> SetOfVec<T>
        ensures { result ≡ [] }
    {
        SetOfVec::new(alloc)
    }

    /// Returns whether there are no members.
    pub fn is_empty(&self) -> bool
        ensures { result ≡ (length self.now == 0) }
    {
        self.members.is_empty()
    }

    /// Returns the number of members.
    pub fn len(&self) -> usize
        ensures { result ≡ length self.now }
    {
        self.members.len()
    }
}

impl<T: Shaped + Clone + Drop> SetOfVec<T> {
    /// Returns a copy. The caller proves that copies of members equal them.
    ///
    /// # Errors
    ///
    /// - `AllocError`: memory runs out.
    pub fn clone(&self, alloc: Global) -> Result<SetOfVec<T>, AllocError>
        requires { (x y : T) → T.is_clone x y → y ≡ x }
        ensures { IfOk result (λ set. set ≡ self.now) }
    {
        let members = Vec::from_clones(alloc, self.members.as_slice())?;
        Ok(SetOfVec { members })
    }
}

impl<T: DerOrd + Member + Drop> SetOfVec<T> {
    /// Inserts an item in order, after the members that equal it. After an error the set is
    /// unchanged.
    ///
    /// # Errors
    ///
    /// - `Overflow`: a member has no encoding, for example because its length exceeds 2^32 - 1.
    /// - `OutOfMemory`: memory runs out.
    #[tactic(auto, using(crate::proofs::SetSteps::put_ascends, crate::proofs::SetSteps::put_same))]
    pub fn insert(&mut self, item: T) -> Result<(), Error>
        ensures ok { OnOk result (IsPermutation (item ∷ self.old) self.new) }
        ensures place { OnOk result (IsPutAtPlace T.shape T.written self.old item self.new) }
        ensures ascend { Ascends T.shape T.written self.new }
        ensures err { OnErr result (self.new ≡ self.old) }
        ensures refused { IfErr result (IsRefusal T.shape T.written (item ∷ self.old)) }
    {
        let place = place_of(self.members.as_slice(), &item)?;
        self.members.insert(place, item)?;
        Ok(())
    }

    /// Appends an item, which must not be less than the last member. After an error the set is
    /// unchanged.
    ///
    /// # Errors
    ///
    /// - `SetOrdering`: the item is less than the last member.
    /// - `Overflow`: a member has no encoding, for example because its length exceeds 2^32 - 1.
    /// - `OutOfMemory`: memory runs out.
    #[tactic(auto, using(crate::proofs::SetSteps::last_ascends))]
    pub fn insert_ordered(&mut self, item: T) -> Result<(), Error>
        ensures ok { OnOk result (self.new ≡ self.old ++ item ∷ []) }
        ensures ascend { Ascends T.shape T.written self.new }
        ensures err { OnErr result (self.new ≡ self.old) }
        ensures refused { IfErr result
            (λ e. (e.kind ≡ ErrorKind.SetOrdering × IsBelowLast T.shape T.written self.old item)
            ⊎ IsRefusal T.shape T.written (item ∷ self.old) e) }
    {
        check_last(self.members.as_slice(), &item)?;
        self.members.push(item)?;
        Ok(())
    }

    /// Returns the set of these members. Equal members keep their order.
    ///
    /// It makes O(n log n) comparisons. If there is memory for a sort, it also makes O(n log n)
    /// moves, and otherwise O(n²). (This is measured, and not proved.)
    ///
    /// # Errors
    ///
    /// - `Overflow`: a member has no encoding, for example because its length exceeds 2^32 - 1.
    ///
    /// It never returns `OutOfMemory`.
    pub fn from_vec(members: Vec<T>) -> Result<SetOfVec<T>, Error>
        ensures ok { IfOk result (IsPermutation members.items) }
        ensures equals { IfOk result (λ set. AllValid T.shape T.written members.items
            → KeepsEquals T.shape T.written members.items set) }
        ensures ascend { IfOk result (Ascends T.shape T.written) }
        ensures refused { IfErr result (TooLong T.shape T.written members.items) }
    {
        let mut members = members;
        arrange_behind_first(&mut members, 0)?;
        Ok(SetOfVec { members })
    }

    /// Inserts each of the items in order, after the members that equal it.
    ///
    /// It makes as many comparisons and moves as [`SetOfVec::from_vec`].
    ///
    /// After an error, the items before the rejected one have been inserted, and no others.
    ///
    /// # Errors
    ///
    /// - `Overflow`: an item or a member has no encoding, for example because its length exceeds
    ///   2^32 - 1.
    /// - `OutOfMemory`: memory runs out.
    pub fn extend<I: IntoIterator<Item = T>>(&mut self, items: I) -> Result<(), Error>
        requires { (it : I.IntoIter) → I.into_iter_gives items it → I.IntoIter.can_next it
            × IsFinite (I.IntoIter.remaining it) }
        ensures ran { ExtendsWithItems I.into_iter_gives I.IntoIter.next_gives
            (Gains T.shape T.written)
            items self.old self.new result }
        ensures refused { IfErr result
            (StopsAt T.shape T.written I.into_iter_gives I.IntoIter.next_gives items
            self.old self.new) }
    {
        let alloc = *self.members.allocator();
        let mut came = Vec::new(alloc);
        for item in items {
            match came.push(item) {
                Ok(()) => {}
                Err(error) => {
                    self.gain(came)?;
                    return Err(Error::from(error));
                }
            }
        }
        self.gain(came)
    }

    // Inserts each of these items in order, after the members that equal it. Its errors are those
    // of `extend`.
    fn gain(&mut self, items: Vec<T>) -> Result<(), Error>
        ensures ok { OnOk result (Gains T.shape T.written self.old items.items self.new) }
        ensures refused { IfErr result (StopsIn T.shape T.written self.old items.items self.new) }
    {
        let first = self.members.len();
        let mut items = items;
        self.members.append(&mut items)?;
        arrange_behind_first(&mut self.members, first)
    }

    /// Returns the set of the items. Equal items keep their order.
    ///
    /// # Errors
    ///
    /// - `Overflow`: a member has no encoding, for example because its length exceeds 2^32 - 1.
    /// - `OutOfMemory`: memory runs out.
    pub fn from_iter<I: IntoIterator<Item = T>>(
        alloc: Global,
        items: I,
    ) -> Result<SetOfVec<T>, Error>
        requires { (it : I.IntoIter) → I.into_iter_gives items it → I.IntoIter.can_next it
            × IsFinite (I.IntoIter.remaining it) }
        ensures ran { IfOk result (λ set. (it : I.IntoIter) × (xs : List T)
            × I.into_iter_gives items it
            × Drains I.IntoIter.next_gives it xs × Gains T.shape T.written [] xs set) }
        ensures refused { IfErr result
            (λ e. (set : List T) × StopsAt T.shape T.written I.into_iter_gives
            I.IntoIter.next_gives items [] set e) }
    {
        let mut set = SetOfVec::new(alloc);
        set.extend(items)?;
        Ok(set)
    }

    /// Decodes the members of a content, which may be in any order.
    ///
    /// # Errors
    ///
    /// - The first error of a member.
    /// - `Overflow`: under BER, a member has no encoding and so can't be compared, for example
    ///   because its length exceeds 2^32 - 1.
    /// - `OutOfMemory`: memory runs out.
    /// - `Failed`: the reader failed before.
    pub fn decode_value<'a, R: Reader<'a>>(
        alloc: Global,
        reader: &mut R,
        header: Header,
    ) -> Result<SetOfVec<T>, Error>
    where
        T: Decode<'a, R> + AsRead,
        // The decoded members, in the order of the input, are those of the set.
        ensures reads { (read : List T)
            × ReadsArranged T.shape T.plain T.written (R.state reader.old)
            (R.state reader.new) result
            (value_at (read_content_at (R.state reader.old) (nested (many T.shape)) header.tag)
            header.length.value) read }
        // The content is the encodings of the members, in any order.
        ensures spelled { is_element T.shape ≡ true → IsDer (R.state reader.old)
            → IfOk result
            (λ set. Loose T.shape (plain_list T.plain set)
            (take header.length.value (R.state reader.old).rest)) }
        // The encodings of members are accepted in any order, unless memory runs out.
        ensures only { (v : List (Value T.shape)) → is_element T.shape ≡ true
            → are_content_enough (nested (many T.shape)) (R.state reader.old).room ≡ true
            → IsDer (R.state reader.old) → (R.state reader.old).failed ≡ false
            → header.length.value ≤ length (R.state reader.old).rest
            → Loose T.shape v (take header.length.value (R.state reader.old).rest)
            → Gives (plain_list T.plain) result (Ok v) }
    {
        // Only for the proof: slices consist of bytes, so members that decode under DER are valid.
        let before = reader.remaining();
        let _octets = &before[..];
        let members = Vec::<T>::decode_value(alloc, reader, header)?;
        match SetOfVec::from_vec(members) {
            Ok(set) => Ok(set),
            Err(error) => {
                reader.fail();
                Err(error)
            }
        }
    }

    /// Decodes a set from all bytes, under DER except that its members may be in any order.
    ///
    /// # Errors
    ///
    /// - `Overflow`: there are 2^32 bytes or more.
    /// - The first error that decoding meets.
    /// - `TrailingData`: bytes are left after the set.
    /// - `OutOfMemory`: memory runs out.
    pub fn from_der<'a>(alloc: Global, bytes: &'a [u8]) -> Result<SetOfVec<T>, Error>
    where
        T: Decode<'a, SliceReader<'a>> + AsRead,
        // Accepted bytes are an encoding of the set, with its members in any order.
        ensures spelled { is_element T.shape ≡ true
            → IfOk result (λ set. SpellsLoosely T.shape (plain_list T.plain set) bytes.now) }
        // An encoding of members in any order is accepted, unless memory runs out.
        ensures only { (v : List (Value T.shape)) → is_element T.shape ≡ true
            → are_enough (tagged Set (nested (many T.shape))) levels_max ≡ true
            → SpellsLoosely T.shape v bytes.now → Gives (plain_list T.plain) result (Ok v) }
        // The error is that of decoding a list of members.
        ensures refused { is_element T.shape ≡ true
            → IfErr result
            (λ e. Fails e.kind (read_whole (tagged Set (nested (many T.shape))) bytes.now)) }
    {
        let AnyOrder { list } = AnyOrder::<Vec<T>>::from_der(alloc, bytes)?;
        let set = SetOfVec::from_vec(list)?;
        Ok(set)
    }

    /// Decodes the members of a content in which each encoding is greater than the one before it
    /// (X.690 11.6).
    ///
    /// The order is a rule of DER, so the members are decoded under DER, whatever the reader's
    /// encoding rules are.
    ///
    /// # Errors
    ///
    /// - The first error of a member.
    /// - `SetDuplicate`, `SetOrdering`: an encoding isn't greater than the one before it.
    /// - `OutOfMemory`: memory runs out.
    /// - `Failed`: the reader failed before.
    pub fn decode_value_strict<'a, R: Reader<'a>>(
        alloc: Global,
        reader: &mut R,
        header: Header,
    ) -> Result<SetOfVec<T>, Error>
    where
        T: Decode<'a, R> + AsRead,
        ensures reads { Reads (plain_list T.plain) (R.state reader.old) (R.state reader.new) result
            (value_at (read_content_at (R.state reader.old) (nested (rising T.shape)) header.tag)
            header.length.value) }
        ensures rising { IfOk result
            (λ set. AllRising (octets_of T.shape) (plain_list T.plain set)) }
    {
        let rising = StrictSet::<T>::decode_value(alloc, reader, header)?;
        let StrictSet { values } = rising;
        Ok(SetOfVec { members: values })
    }
}

impl<T: Shaped> FixedTag for SetOfVec<T> {
    ghost fixed_tag = { Set };

    fn tag() -> Tag {
        Tag::Set
    }
}

/// The content is the encodings of the members, in ascending order.
impl<T: Shaped> ShapedValue for SetOfVec<T> {
    ghost content = { nested (many T.shape) };

    ghost value_plain = { plain_list T.plain };

    ghost value_written = { plain_list T.written };
}

impl<T: Encode> EncodeValue for SetOfVec<T> {
    fn value_len(&self) -> Result<Length, Error> {
        self.members.value_len()
    }

    #[tactic(auto, unfolding(crate::specs::Opened::contents))]
    fn encode_value<W: Writer>(&self, writer: &mut W) -> Result<(), Error> {
        self.members.encode_value(writer)
    }
}

/// Compares the concatenated encodings of the members.
impl<T: DerOrd> ValueOrd for SetOfVec<T> {
    #[tactic(auto, unfolding(crate::specs::Opened::contents, crate::specs::Opened::IsContent))]
    fn value_cmp(&self, other: &Self) -> Result<Ordering, Error> {
        elements_cmp(self.members.as_slice(), other.members.as_slice())
    }
}

impl<T: Shaped> AsSlice<T> for SetOfVec<T> {
    ghost items = { λ s. s };

    fn as_slice(&self) -> &[T] {
        self.members.as_slice()
    }
}

/// Compares the members, one after another.
impl<T: Shaped + PartialEq> PartialEq for SetOfVec<T> {
    ghost eq = { pointwise T.eq };

    ghost laws = { lists_per T.laws };

    fn eq(&self, other: &Self) -> bool {
        self.members == other.members
    }
}

impl<T: Shaped + Eq> Eq for SetOfVec<T> {
    ghost laws = { lists_equiv T.Eq.laws };
}

/// Compares the members by their own order. The first members that differ decide, and then the
/// numbers of members.
impl<T: Shaped + PartialOrd> PartialOrd for SetOfVec<T> {
    ghost partial_cmp = { slice_partial_cmp T.partial_cmp };

    ghost laws = { lists_po T.PartialOrd.laws };

    fn partial_cmp(&self, other: &Self) -> Option<Ordering> {
        self.members.partial_cmp(&other.members)
    }
}

impl<T: Shaped + Ord> Ord for SetOfVec<T> {
    ghost cmp = { slice_cmp T.cmp };

    ghost total = { lists_total T.total };

    ghost matches_partial_cmp = { lists_agrees T.matches_partial_cmp };

    ghost matches_eq = { lists_ties T.cmp T.matches_eq };

    fn cmp(&self, other: &Self) -> Ordering {
        self.members.cmp(&other.members)
    }
}

/// Hashes the number of members, and then each member.
impl<T: Shaped + Hash> Hash for SetOfVec<T> {
    ghost hash_input = { fed.slice T.hash_input };

    ghost respects_eq = { (items_Alike (record { fed = T.respects_eq })).fed };

    fn hash<H: Hasher>(&self, state: &mut H) {
        self.members.hash(state);
    }
}

/// Brings these members into ascending order, as `from_vec` does.
///
/// # Errors
///
/// - `Overflow`: a member has no encoding, for example because its length exceeds 2^32 - 1.
impl<T: DerOrd + Member + Drop> TryFrom<Vec<T>> for SetOfVec<T> {
    type Error = Error;

    ghost try_from_gives = { λ members r. MatchResult r (λ set. IsPermutation members.items set
        × Ascends T.shape T.written set) (TooLong T.shape T.written members.items) };

    fn try_from(members: Vec<T>) -> Result<SetOfVec<T>, Error> {
        SetOfVec::from_vec(members)
    }
}

/// Returns the members, in ascending order of their encodings.
impl<T: Shaped> From<SetOfVec<T>> for Vec<T> {
    ghost from_gives = { λ set members. members.items ≡ set };

    fn from(set: SetOfVec<T>) -> Vec<T> {
        set.into_vec()
    }
}
