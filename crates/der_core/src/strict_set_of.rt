//! SET OF whose members are in ascending order (X.690 8.12, 11.6), and the positions of values
//! among such members.

ghost use Rattle.std.specs.Prelude.{◌≡◌, ◌==◌, None, IfSome, IfErr, OnOk, OnErr, false, length};
ghost use Rattle.std.specs.Prelude.{◌∷◌, slice_get, IsPermutation, option_copied, ◌≤◌, IfOk, IsOk};
ghost use Rattle.std.specs.Prelude.{insert};
ghost use Rattle.std.specs.List.{AllByRecursion};
ghost use Rattle.std.specs.Slice.Iter.{iter_rest};
ghost use Rattle.der_core_coding.specs.CoreHead.declared.tag.Tag.TheVariants.{Set};
ghost use Rattle.der_core_coding.specs.CoreHead.Shapes.{nested, rising, octets_of};
ghost use Rattle.der_core_coding.specs.CoreHead.Shapes.{AllRising, IsValid};
ghost use Rattle.der_core_coding.specs.CoreHead.Heads.{Fits};
ghost use Rattle.der_core_coding.specs.CoreHead.Grammar.{plain_list, plain_option, follows_last};
ghost use Rattle.der_core_coding.specs.CoreHead.Reading.{GivesNow};
ghost use Rattle.der_core_coding.specs.CoreHead.Writing.{all_follow};
ghost use Rattle.der_core_coding.specs.Steps.{step_of};
ghost use Rattle.der_core.specs.Placed.{AllValid, IsNotPlaced, placed, stands_among};

use crate::order::DerOrd;
use der_core_coding::core_head::{Error, ErrorKind, Length, Tag};
use der_core_coding::core_octets::{Header, Reader, Writer};
use der_core_coding::core_values::{
    ApartValue, AsRead, AsReadValue, Decode, DecodeFields, DecodeValue, Element, Encode,
    EncodeValue, Fields, FixedTag, InRange, InRangeValue, Member, Shaped, ShapedValue, read_fields,
};
use der_core_coding::read_rising;
use std::alloc::Global;
use std::cmp::Ordering;
use std::slice::Iter;

/// Checks that a value may follow the one before it in a set. `equal` says whether equal members
/// are allowed.
///
/// # Errors
///
/// - `SetDuplicate`: the encodings are the same, and equal members aren't allowed.
/// - `SetOrdering`: the encoding is less than the one before it.
fn check_follows<T: DerOrd + Member>(last: Option<&T>, value: &T, equal: bool) -> Result<(), Error>
    requires before { IfSome (plain_option (λ r. T.written r.now) last)
        (λ v. Fits (octets_of T.shape v)) }
    requires fits { Fits (octets_of T.shape (T.written value.now)) }
    ensures { GivesNow (λ x. x) result
        (follows_last (step_of equal)
        (plain_option (octets_of T.shape) (plain_option (λ r. T.written r.now) last.entry))
        (octets_of T.shape (T.written value.now))) }
{
    let Some(last) = last else {
        return Ok(());
    };
    match last.der_cmp(value)? {
        Ordering::Less => Ok(()),
        Ordering::Equal => {
            if equal {
                Ok(())
            } else {
                Err(Error::from(ErrorKind::SetDuplicate))
            }
        }
        Ordering::Greater => Err(Error::from(ErrorKind::SetOrdering)),
    }
}

/// Checks that the encodings of values are in the order of a set. The caller proves that each has
/// fewer than 2^32 bytes. `equal` says whether equal members are allowed.
///
/// # Errors
///
/// - `SetDuplicate`: an encoding is the same as the one before it, and equal members aren't
///   allowed.
/// - `SetOrdering`: an encoding is less than the one before it.
pub fn check_in_order<T: DerOrd + Member>(values: &[T], equal: bool) -> Result<(), Error>
    requires { AllByRecursion (λ x. Fits (octets_of T.shape x)) (plain_list T.written values.now) }
    ensures { GivesNow (λ x. x) result
        (all_follow (step_of equal) (octets_of T.shape) None (plain_list T.written values.now)) }
{
    let mut last = None;
    for value in values {
        check_follows(last, value, equal)?;
        last = Some(value);
    }
    Ok(())
}

/// SET OF without equal members. It is encoded only if the encodings of its members are in
/// ascending order.
#[derive(Clone, Debug, Drop, PartialEq, Eq)]
pub struct StrictSetOf<T> {
    /// The members. Encoding fails if their encodings aren't in ascending order.
    pub values: Vec<T>,
}

impl<T> StrictSetOf<T> {
    /// Returns the members in their order.
    pub fn as_slice(&self) -> &[T]
        ensures { result.now ≡ self.now.values.items }
    {
        self.values.as_slice()
    }

    /// Returns the member at an index, or `None` if there are fewer members.
    pub fn get(&self, index: usize) -> Option<&T>
        ensures { option_copied result ≡ slice_get self.now.values.items index }
    {
        self.values.as_slice().get(index)
    }

    /// Returns an iterator over the members.
    pub fn iter(&self) -> Iter<'_, T>
        ensures { iter_rest result ≡ self.now.values.items }
    {
        self.values.as_slice().iter()
    }

    /// Returns whether the set has no members.
    pub fn is_empty(&self) -> bool
        ensures { result ≡ (length self.now.values.items == 0) }
    {
        self.values.is_empty()
    }

    /// Returns the number of members.
    pub fn len(&self) -> usize
        ensures { result ≡ length self.now.values.items }
    {
        self.values.len()
    }
}

impl<T: DerOrd + Member + Drop> StrictSetOf<T> {
    /// Inserts a member before the first one whose encoding is greater than its own. After an error
    /// the set is unchanged.
    ///
    /// # Errors
    ///
    /// - `SetDuplicate`: a member has the same encoding.
    /// - `Overflow`: a member has no encoding, for example because its length exceeds 2^32 - 1.
    /// - `OutOfMemory`: memory runs out.
    pub fn insert(&mut self, item: T) -> Result<(), Error>
        ensures gained { OnOk result
            (IsPermutation (item ∷ self.old.values.items) self.new.values.items) }
        // If all values are valid, this is the position of the member.
        ensures placed { AllValid T.shape T.written self.old.values.items
            → IsValid T.shape (T.written item)
            → OnOk result (plain_list T.written self.new.values.items
            ≡ placed T.shape (T.written item) (plain_list T.written self.old.values.items)) }
        ensures once { AllValid T.shape T.written self.old.values.items
            → IsValid T.shape (T.written item)
            → OnOk result (stands_among T.shape (T.written item)
            (plain_list T.written self.old.values.items) ≡ false) }
        // So a set in ascending order stays in that order.
        ensures rises { AllValid T.shape T.written self.old.values.items
            → IsValid T.shape (T.written item)
            → AllRising (octets_of T.shape) (plain_list T.written self.old.values.items)
            → OnOk result (AllRising (octets_of T.shape)
            (plain_list T.written self.new.values.items)) }
        ensures kept { OnErr result (self.new.values.items ≡ self.old.values.items) }
        ensures refused { IfErr result
            (IsNotPlaced T.shape T.written item self.old.values.items) }
    {
        if stands_among(self.values.as_slice(), &item)? {
            return Err(Error::from(ErrorKind::SetDuplicate));
        }
        let place = place_of(self.values.as_slice(), &item)?;
        self.values.insert(place, item)?;
        Ok(())
    }
}

impl<T> FixedTag for StrictSetOf<T> {
    ghost fixed_tag = { Set };

    fn tag() -> Tag {
        Tag::Set
    }
}

impl<T: Shaped> Fields for StrictSetOf<T> {
    ghost fields = { rising T.shape };

    ghost fields_plain = { λ v. plain_list T.plain v.values.items };

    ghost fields_written = { λ v. plain_list T.written v.values.items };
}

impl<T: Shaped> ShapedValue for StrictSetOf<T> {
    ghost content = { nested (rising T.shape) };

    ghost value_plain = { λ v. plain_list T.plain v.values.items };

    ghost value_written = { λ v. plain_list T.written v.values.items };
}

impl<'a, R: Reader<'a>, T: Decode<'a, R> + Member> DecodeFields<'a, R> for StrictSetOf<T> {
    fn decode_fields(alloc: Global, reader: &mut R) -> Result<StrictSetOf<T>, Error> {
        let values = read_rising(alloc, reader)?;
        Ok(StrictSetOf { values })
    }
}

impl<'a, R: Reader<'a>, T: Decode<'a, R> + Member> DecodeValue<'a, R> for StrictSetOf<T> {
    fn decode_value(
        alloc: Global,
        reader: &mut R,
        header: Header,
    ) -> Result<StrictSetOf<T>, Error> {
        read_fields(alloc, reader, header)
    }
}

/// The content is the members, whose encodings must be in ascending order.
///
/// The members are encoded before their order is checked, because then their lengths are known to
/// be valid.
impl<T: Encode + DerOrd + Member> EncodeValue for StrictSetOf<T> {
    fn value_len(&self) -> Result<Length, Error> {
        self.values.value_len()
    }

    /// # Errors
    ///
    /// - The errors of the members and of the writer.
    /// - `SetDuplicate`: a member has the same encoding as the one before it.
    /// - `SetOrdering`: the encoding of a member is less than the one before it (X.690 11.6).
    #[tactic(auto, unfolding(crate::specs::Opened::contents))]
    fn encode_value<W: Writer>(&self, writer: &mut W) -> Result<(), Error> {
        self.values.encode_value(writer)?;
        check_in_order(self.values.as_slice(), false)
    }
}

impl<T: Element + Member> ApartValue for StrictSetOf<T> {
    ghost use Rattle.der_core_coding.specs.CoreValues.Both.{both_true};

    ghost apart_value = { both_true T.element T.apart };
}

impl<T: AsRead> AsReadValue for StrictSetOf<T> {
    ghost use Rattle.der_core_coding.specs.CoreValues.Same.{same_list};

    ghost as_read_value = { λ v. same_list T.as_read v.values.items };
}

impl<T: InRange> InRangeValue for StrictSetOf<T> {
    fn value_in_range(&self) {
        self.values.value_in_range();
    }
}

/// Returns the position at which a value would be inserted among others: before the first one whose
/// encoding is greater than its own (X.690 11.6).
///
/// # Errors
///
/// - `Overflow`: a member has no encoding, for example because its length exceeds 2^32 - 1.
pub fn place_of<T: DerOrd + Member>(values: &[T], item: &T) -> Result<usize, Error>
    ensures within { IfOk result (λ i. i ≤ length values.now) }
    ensures place { AllValid T.shape T.written values.now → IsValid T.shape (T.written item.now)
        → IfOk result (λ i. plain_list T.written (insert values.now i item.now)
        ≡ placed T.shape (T.written item.now) (plain_list T.written values.now)) }
    // If all values are valid, there is a result.
    ensures answered { AllValid T.shape T.written values.now
        → IsValid T.shape (T.written item.now) → IsOk result }
    ensures refused { IfErr result (λ e. e.kind ≡ ErrorKind.Overflow) }
{
    for place in 0..values.len() {
        match item.der_cmp(&values[place])? {
            Ordering::Less => return Ok(place),
            Ordering::Equal | Ordering::Greater => {}
        }
    }
    Ok(values.len())
}

/// Returns whether one of the values has the same encoding as `item`.
///
/// # Errors
///
/// - `Overflow`: a member has no encoding, for example because its length exceeds 2^32 - 1.
pub fn stands_among<T: DerOrd + Member>(values: &[T], item: &T) -> Result<bool, Error>
    ensures found { AllValid T.shape T.written values.now → IsValid T.shape (T.written item.now)
        → IfOk result
        (λ b. b ≡ stands_among T.shape (T.written item.now) (plain_list T.written values.now)) }
    // If all values are valid, there is a result.
    ensures answered { AllValid T.shape T.written values.now
        → IsValid T.shape (T.written item.now) → IsOk result }
    ensures refused { IfErr result (λ e. e.kind ≡ ErrorKind.Overflow) }
{
    for place in 0..values.len() {
        match item.der_cmp(&values[place])? {
            Ordering::Equal => return Ok(true),
            Ordering::Less | Ordering::Greater => {}
        }
    }
    Ok(false)
}
