//! Lists and sets.

use crate::key_usages::KeyUsages;
use crate::questions::{Asked, Question, answer_of_value, answer_with_contents, compared};
use crate::refusals::Refusal;
use crate::shown::{named, written, written_in};
use crate::small::Small;
use crate::{fields, record};
use der_core::{
    ApartValue, AsRead, AsReadValue, Decode, DecodeValue, DerOrd, Element, Encode, EncodeValue,
    EncodingRules, Error, FixedTag, FromDer, Header, InRange, Member, Reader, SliceReader, Tag,
    ValueOrd,
};
use der_types::{FlagSet, OctetStringRef, SequenceOf, SetOf, SetOfRef, SetOfVec};
use std::alloc::Global;
use std::hash::Hash;

/// Returns the answer for a type that this module names, or that a later module names.
pub fn answer(alloc: Global, kind: &str, question: &Question<'_>) -> Result<String, Refusal> {
    match kind {
        "Small" => answer_with_contents::<Small>(alloc, question),
        "SetOfVec<u16>" => answer_of_members_read::<SetOfVec<u16>>(alloc, question),
        "SetOf<Small,2>" => answer_of_set::<SetOf<Small, 2>>(alloc, question),
        "SequenceOf<Small,2>" => answer_with_contents::<SequenceOf<Small, 2>>(alloc, question),
        "SequenceOf<Small,0>" => answer_of_value::<SequenceOf<Small, 0>>(alloc, question),
        "SequenceOf<SequenceOf<Small,1>,2>" => answer_of_value::<
            SequenceOf<SequenceOf<Small, 1>, 2>,
        >(alloc, question),
        "FewFields" => record::answer_of_three::<
            SequenceOf<Small, 2>,
            Option<SequenceOf<Small, 1>>,
            Small,
        >(alloc, question),
        "SetOfRef<Small>" if !question.is_of_any() => answer_of_lent(alloc, question),
        _ => answer_around::<Small>(alloc, kind, question),
    }
}

/// Returns the answer for a set or for borrowed sets, or for a type of a later module. It is
/// generic, so that the requirements on members are checked once, at the call, and not for each set
/// of them.
fn answer_around<
    'a,
    T: AsRead
        + Decode<'a, SliceReader<'a>>
        + DerOrd
        + Element
        + Encode
        + Hash
        + InRange
        + Member
        + Ord
        + 'a,
>(alloc: Global, kind: &str, question: &Question<'a>) -> Result<String, Refusal> {
    match kind {
        "SetOfVec<Small>" => answer_of_set::<SetOfVec<T>>(alloc, question),
        "SetOfRef<Small>" => answer_of_value::<SetOfRef<T>>(alloc, question),
        "Vec<SetOfRef<Small>>" => answer_of_value::<Vec<SetOfRef<T>>>(alloc, question),
        "SetOfRef<SetOfRef<Small>>" => answer_of_lent_members::<SetOfRef<T>>(alloc, question),
        "LentFields" => record::answer_of_three::<SetOfRef<T>, Option<SetOfRef<T>>, T>(
            alloc, question,
        ),
        _ => fields::answer(alloc, kind, question),
    }
}

/// A set or a list with its own decoding functions.
trait Members<'a>: Sized {
    /// Decodes the value by these rules from all of the bytes.
    fn read(alloc: Global, octets: &'a [u8], rules: EncodingRules) -> Result<Self, Error>;
}

impl<'a, T: AsRead + Decode<'a, SliceReader<'a>> + DerOrd + Member + Drop> Members<'a>
    for SetOfVec<T> {
    fn read(alloc: Global, octets: &'a [u8], rules: EncodingRules) -> Result<SetOfVec<T>, Error> {
        if rules.is_der() {
            return SetOfVec::from_der(alloc, octets);
        }
        loose(alloc, octets, rules)
    }
}

impl<
    'a,
    T: AsRead + Decode<'a, SliceReader<'a>> + Default + DerOrd + Member + Drop,
    const N: usize,
> Members<'a> for SetOf<T, N> {
    fn read(alloc: Global, octets: &'a [u8], rules: EncodingRules) -> Result<SetOf<T, N>, Error> {
        if rules.is_der() {
            return SetOf::from_der(alloc, octets);
        }
        let (mut reader, header) = opened(octets, rules, Tag::Set)?;
        let set = SetOf::decode_value(alloc, &mut reader, header)?;
        reader.finish()?;
        Ok(set)
    }
}

/// Returns a reader after the header of a value with this tag, and that header.
fn opened(
    octets: &[u8],
    rules: EncodingRules,
    tag: Tag,
) -> Result<(SliceReader<'_>, Header), Error> {
    let mut reader = SliceReader::new_with_encoding_rules(octets, rules)?;
    let header = reader.read_header()?;
    header.tag.assert_eq(tag)?;
    Ok((reader, header))
}

/// Returns the answer for a set or a list that is decoded and encoded.
fn answer_of_members_read<'a, T: Members<'a> + Encode + Drop>(
    alloc: Global,
    question: &Question<'a>,
) -> Result<String, Refusal> {
    let rules = match question.asked {
        Asked::Der => EncodingRules::Der,
        Asked::Ber => EncodingRules::Ber,
        _ => return Err(Refusal::Unread),
    };
    written_in(alloc, T::read(alloc, question.first, rules))
}

/// Returns the answer for a set that is also compared and has an order of its own.
fn answer_of_set<'a, T: Members<'a> + EncodeValue + FixedTag + Hash + Ord + ValueOrd + Drop>(
    alloc: Global,
    question: &Question<'a>,
) -> Result<String, Refusal> {
    match question.asked {
        Asked::Order | Asked::Contents | Asked::Compare => {
            let first = T::read(alloc, question.first, EncodingRules::Der)?;
            let second = T::read(alloc, question.second, EncodingRules::Der)?;
            order_of_sets(alloc, question.asked, &first, &second)
        }
        _ => answer_of_members_read::<T>(alloc, question),
    }
}

/// Returns the order of two sets.
fn order_of_sets<T: EncodeValue + FixedTag + Hash + Ord + ValueOrd>(
    alloc: Global,
    asked: Asked<'_>,
    first: &T,
    second: &T,
) -> Result<String, Refusal> {
    match asked {
        Asked::Order => named(alloc, first.der_cmp(second)),
        Asked::Contents => named(alloc, first.value_cmp(second)),
        Asked::Compare => compared(alloc, first, second),
        _ => Err(Refusal::Unread),
    }
}

/// Returns the answer for a borrowed set of members of a type. A function that names a borrowed set
/// of borrowed sets can't be proved, so this one is generic in the members.
fn answer_of_lent_members<'a, T: Decode<'a, SliceReader<'a>> + Encode + InRange + Member + 'a>(
    alloc: Global,
    question: &Question<'a>,
) -> Result<String, Refusal> {
    answer_of_value::<SetOfRef<T>>(alloc, question)
}

/// Returns the answer for a borrowed set, of the bytes of a SET OF or of the values of a SEQUENCE
/// OF.
fn answer_of_lent(alloc: Global, question: &Question<'_>) -> Result<String, Refusal> {
    let first_values = values_of(alloc, question.first)?;
    let second_values = values_of(alloc, question.second)?;
    let rules = match question.asked {
        Asked::Ber => EncodingRules::Ber,
        _ => EncodingRules::Der,
    };
    let first = lent(alloc, question.first, first_values.as_slice(), rules)?;
    match question.asked {
        Asked::Der | Asked::Ber => written(alloc, &first),
        _ => {
            let second = lent(alloc, question.second, second_values.as_slice(), rules)?;
            order_of_lent(alloc, question.asked, &first, &second)
        }
    }
}

/// Returns the order of two borrowed sets.
fn order_of_lent(
    alloc: Global,
    asked: Asked<'_>,
    first: &SetOfRef<'_, Small>,
    second: &SetOfRef<'_, Small>,
) -> Result<String, Refusal> {
    match asked {
        Asked::Order => named(alloc, first.der_cmp(alloc, second)),
        Asked::Contents => named(alloc, first.value_cmp(alloc, second)),
        _ => Err(Refusal::Unread),
    }
}

/// Decodes the values of a SEQUENCE OF, or returns none if the bytes begin with another tag.
fn values_of(alloc: Global, octets: &[u8]) -> Result<Vec<Small>, Error> {
    if octets.starts_with(b"\x30") {
        list_of(alloc, octets)
    } else {
        Ok(Vec::new(alloc))
    }
}

/// Decodes the values of a list. It is generic, as `answer_around` is.
pub fn list_of<'a, T: Decode<'a, SliceReader<'a>>>(
    alloc: Global,
    octets: &'a [u8],
) -> Result<Vec<T>, Error> {
    Vec::from_der(alloc, octets)
}

/// Returns the borrowed set of these bytes, or of their values if they are a SEQUENCE OF.
fn lent<'a>(
    alloc: Global,
    octets: &'a [u8],
    values: &'a [Small],
    rules: EncodingRules,
) -> Result<SetOfRef<'a, Small>, Error> {
    if octets.starts_with(b"\x30") {
        return SetOfRef::try_from(values);
    }
    read_lent(alloc, octets, rules)
}

/// Decodes a borrowed set by these rules.
pub fn read_lent<'a, T: Decode<'a, SliceReader<'a>> + Member>(
    alloc: Global,
    octets: &'a [u8],
    rules: EncodingRules,
) -> Result<SetOfRef<'a, T>, Error> {
    if rules.is_der() {
        return SetOfRef::from_der(alloc, octets);
    }
    SetOfRef::from_ber(alloc, octets)
}

/// Answers a question about members of a set that are decoded or added.
pub fn answer_of_members(
    alloc: Global,
    word: &str,
    kind: &str,
    octets: &[u8],
) -> Result<String, Refusal> {
    match kind {
        "Small" => written_set::<Small>(alloc, word, octets),
        "u16" => written_set::<u16>(alloc, word, octets),
        "KeyUsages" => written_set::<FlagSet<KeyUsages>>(alloc, word, octets),
        "OctetStringRef" => written_set::<OctetStringRef>(alloc, word, octets),
        _ => Err(Refusal::Unread),
    }
}

/// Returns the encoding of the set of members with one tag, or of the list that it is converted to.
fn written_set<
    'a,
    T: DecodeValue<'a, SliceReader<'a>>
        + ApartValue
        + AsReadValue
        + EncodeValue
        + FixedTag
        + ValueOrd,
>(alloc: Global, word: &str, octets: &'a [u8]) -> Result<String, Refusal> {
    match word {
        "set-into" => listed(alloc, SetOfVec::<T>::from_der(alloc, octets)),
        "set-loose" => written_in(alloc, loose::<T>(alloc, octets, EncodingRules::Der)),
        "set-strict" => written_in(alloc, strict::<T>(alloc, octets, EncodingRules::Der)),
        "set-strict-ber" => written_in(alloc, strict::<T>(alloc, octets, EncodingRules::Ber)),
        "set-from" | "set-insert" | "set-append" => {
            written_in(
                alloc,
                gathered::<T>(alloc, word, FromDer::from_der(alloc, octets)?),
            )
        }
        _ => Err(Refusal::Unread),
    }
}

/// Returns the encoding of the list that a set is converted to.
fn listed<T: Encode + Member + Drop>(
    alloc: Global,
    outcome: Result<SetOfVec<T>, Error>,
) -> Result<String, Refusal> {
    written(alloc, &Vec::from(outcome?))
}

/// Returns the set that is filled as the word says.
fn gathered<T: DerOrd + Member + Drop>(
    alloc: Global,
    word: &str,
    members: Vec<T>,
) -> Result<SetOfVec<T>, Error> {
    match word {
        "set-from" => SetOfVec::try_from(members),
        "set-insert" => inserted(alloc, members),
        _ => appended(alloc, members),
    }
}

/// Decodes a set whose members may be in any order.
fn loose<'a, T: AsRead + Decode<'a, SliceReader<'a>> + DerOrd + Member + Drop>(
    alloc: Global,
    octets: &'a [u8],
    rules: EncodingRules,
) -> Result<SetOfVec<T>, Error> {
    let (mut reader, header) = opened(octets, rules, Tag::Set)?;
    let set = SetOfVec::decode_value(alloc, &mut reader, header)?;
    reader.finish()?;
    Ok(set)
}

/// Decodes a set whose members have to be in ascending order.
fn strict<'a, T: AsRead + Decode<'a, SliceReader<'a>> + DerOrd + Member + Drop>(
    alloc: Global,
    octets: &'a [u8],
    rules: EncodingRules,
) -> Result<SetOfVec<T>, Error> {
    let (mut reader, header) = opened(octets, rules, Tag::Set)?;
    let set = SetOfVec::decode_value_strict(alloc, &mut reader, header)?;
    reader.finish()?;
    Ok(set)
}

/// Returns the set into which the members are inserted, one after another.
fn inserted<T: DerOrd + Member + Drop>(
    alloc: Global,
    members: Vec<T>,
) -> Result<SetOfVec<T>, Error> {
    let mut set = SetOfVec::new(alloc);
    for member in members {
        set.insert(member)?;
    }
    Ok(set)
}

/// Returns the set to which the members are appended, one after another.
fn appended<T: DerOrd + Member + Drop>(
    alloc: Global,
    members: Vec<T>,
) -> Result<SetOfVec<T>, Error> {
    let mut set = SetOfVec::new(alloc);
    for member in members {
        set.insert_ordered(member)?;
    }
    Ok(set)
}
