//! Questions about the values of a type.

use crate::any_values::{Conversion, converted};
use crate::refusals::Refusal;
use crate::shown::{
    debugged, hex_of, joined, name_of, named, or_refusal, printed, read, written, written_in,
};
use der_core::describing::{DecodeWay, OrderWay, Ordered};
use der_core::{
    Decode, DecodeValue, DerOrd, Encode, EncodeValue, EncodingRules, Error, FixedTag, FromDer,
    SliceReader, ValueOrd,
};
use der_types::{Any, AnyRef};
use std::alloc::Global;
use std::fmt::{Debug, Display};
use std::hash::{DefaultHasher, Hash, Hasher};

/// A question about values.
#[derive(Clone, Copy)]
pub enum Asked<'a> {
    /// The encoding of the value that is decoded by DER.
    Der,
    /// The encoding of the value that is decoded by BER.
    Ber,
    /// The order of two values by their encodings.
    Order,
    /// The order of two values by their contents.
    Contents,
    /// The order of two values by their type's `Ord`, and their hashes.
    Compare,
    /// The text that a value prints.
    Text,
    /// The encoding of the value with which the bytes begin, and the bytes after it.
    Front,
    /// The results of two calls of one reader.
    Twice,
    /// The encoding of the value with the tag and content of a value of any type, decoded by these
    /// rules.
    As(&'a Any, EncodingRules),
    /// The encoding of the value that a value of any type is converted to, with this call.
    Converted(&'a Any, Conversion),
}

/// A question about encoded values. `second` is empty if the question is about one value. Both are
/// empty if it is about a value of any type.
#[derive(Clone, Copy)]
pub struct Question<'a> {
    pub asked: Asked<'a>,
    pub first: &'a [u8],
    pub second: &'a [u8],
}

impl Question<'_> {
    /// Returns whether the question is about a value of any type, and not about bytes.
    pub fn is_of_any(&self) -> bool {
        matches!(self.asked, Asked::As(_, _) | Asked::Converted(_, _))
    }
}

/// Returns the question for a word.
pub fn asked_by(word: &str) -> Result<Asked<'_>, Refusal> {
    match word {
        "der" => Ok(Asked::Der),
        "ber" => Ok(Asked::Ber),
        "order" => Ok(Asked::Order),
        "contents" => Ok(Asked::Contents),
        "compare" => Ok(Asked::Compare),
        "text" => Ok(Asked::Text),
        "front" => Ok(Asked::Front),
        "twice" => Ok(Asked::Twice),
        _ => Err(Refusal::Unread),
    }
}

/// Decodes the two values of a question by DER.
fn values_of<'a, T: Decode<'a, SliceReader<'a>> + Drop>(
    alloc: Global,
    question: &Question<'a>,
) -> Result<(T, T), Error> {
    let first = T::from_der(alloc, question.first)?;
    let second = T::from_der(alloc, question.second)?;
    Ok((first, second))
}

/// Returns the answer for a type that is decoded and encoded.
pub fn answer_of<'a, T: Decode<'a, SliceReader<'a>> + Encode>(
    alloc: Global,
    question: &Question<'a>,
) -> Result<String, Refusal> {
    match question.asked {
        Asked::Der => written_in(alloc, T::from_der(alloc, question.first)),
        Asked::Ber => written_in(alloc, T::from_ber(alloc, question.first)),
        Asked::Front => front_written(alloc, T::from_der_partial(alloc, question.first)),
        Asked::Twice => read_twice::<T>(alloc, question.first),
        _ => Err(Refusal::Unread),
    }
}

/// Returns the encoding of the value with which the bytes begin, and the bytes after it.
fn front_written<T: Encode + Drop>(
    alloc: Global,
    front: Result<(T, &[u8]), Error>,
) -> Result<String, Refusal> {
    let (value, behind) = front?;
    joined(written(alloc, &value), " ", hex_of(alloc, behind))
}

/// Returns the encodings of the two values that one reader reads, or why it reads none.
fn read_twice<'a, T: Decode<'a, SliceReader<'a>> + Encode + Drop>(
    alloc: Global,
    octets: &'a [u8],
) -> Result<String, Refusal> {
    let mut reader = SliceReader::new(octets)?;
    let first = or_refusal(alloc, written_in(alloc, T::decode(alloc, &mut reader)));
    let second = or_refusal(alloc, written_in(alloc, T::decode(alloc, &mut reader)));
    joined(first, "; ", second)
}

/// Returns the answer for a type that is also compared.
pub fn answer_as<'a, T: Decode<'a, SliceReader<'a>> + DerOrd + Encode>(
    alloc: Global,
    question: &Question<'a>,
) -> Result<String, Refusal> {
    match question.asked {
        Asked::Order => {
            let (first, second) = values_of::<T>(alloc, question)?;
            named(alloc, first.der_cmp(&second))
        }
        _ => answer_of::<T>(alloc, question),
    }
}

/// Returns the answer for a type that is compared and has `Debug` output.
pub fn answer_as_with_debug<'a, T: Decode<'a, SliceReader<'a>> + DerOrd + Encode + Debug>(
    alloc: Global,
    question: &Question<'a>,
) -> Result<String, Refusal> {
    match question.asked {
        Asked::Text => debugged(alloc, T::from_der(alloc, question.first)),
        _ => answer_as::<T>(alloc, question),
    }
}

/// Returns the answer for a type with one tag. It only requires the traits of the contents, because
/// each required trait costs the check of every type that is named.
pub fn answer_of_value<'a, T: DecodeValue<'a, SliceReader<'a>> + EncodeValue + FixedTag>(
    alloc: Global,
    question: &Question<'a>,
) -> Result<String, Refusal> {
    match question.asked {
        Asked::As(any, EncodingRules::Der) => written_in(alloc, any.decode_as::<T>(alloc)),
        Asked::As(any, rules) => written_in(alloc, any.decode_as_encoding::<T>(alloc, rules)),
        _ => answer_of::<T>(alloc, question),
    }
}

/// Returns the answer for a type with one tag that also has `Debug` output.
pub fn answer_with_debug<'a, T: DecodeValue<'a, SliceReader<'a>> + EncodeValue + FixedTag + Debug>(
    alloc: Global,
    question: &Question<'a>,
) -> Result<String, Refusal> {
    match question.asked {
        Asked::Text => debugged(alloc, T::from_der(alloc, question.first)),
        _ => answer_of_value::<T>(alloc, question),
    }
}

/// Returns the answer for a type with one tag whose contents are also compared.
pub fn answer_with_contents<
    'a,
    T: DecodeValue<'a, SliceReader<'a>> + EncodeValue + FixedTag + ValueOrd,
>(alloc: Global, question: &Question<'a>) -> Result<String, Refusal> {
    match question.asked {
        Asked::Contents => {
            let (first, second) = values_of::<T>(alloc, question)?;
            named(alloc, first.value_cmp(&second))
        }
        Asked::Order => answer_as::<T>(alloc, question),
        _ => answer_of_value::<T>(alloc, question),
    }
}

/// Returns the answer for a type with one tag that is compared and has `Debug` output.
pub fn answer_of_plain<
    'a,
    T: DecodeValue<'a, SliceReader<'a>> + EncodeValue + FixedTag + ValueOrd + Debug,
>(alloc: Global, question: &Question<'a>) -> Result<String, Refusal> {
    match question.asked {
        Asked::Text => debugged(alloc, T::from_der(alloc, question.first)),
        _ => answer_with_contents::<T>(alloc, question),
    }
}

/// Returns the answer for such a type that values of any type can be converted to.
pub fn answer_of_converted<
    'a,
    T: DecodeValue<'a, SliceReader<'a>>
        + EncodeValue
        + FixedTag
        + ValueOrd
        + Debug
        + TryFrom<&'a Any, Error = Error>
        + TryFrom<AnyRef<'a>, Error = Error>,
>(alloc: Global, question: &Question<'a>) -> Result<String, Refusal> {
    match question.asked {
        Asked::Converted(any, conversion) => converted::<T>(alloc, any, conversion),
        _ => answer_of_plain::<T>(alloc, question),
    }
}

/// Returns the answer for such a type that is `Described`. The bounds are on the way (`T::By`) in
/// which it is encoded, so that everything that follows from them is checked once, and not for each
/// type.
pub fn answer_of_number<
    'a,
    T: Ordered
        + FixedTag
        + Debug
        + TryFrom<&'a Any, Error = Error>
        + TryFrom<AnyRef<'a>, Error = Error>
        + Drop,
>(alloc: Global, question: &Question<'a>) -> Result<String, Refusal>
where
    T::By: DecodeWay<'a, SliceReader<'a>, T> + OrderWay<T>,
{
    answer_of_converted::<T>(alloc, question)
}

/// Returns the answer for a type with one tag that also has an order of its own.
pub fn answer_with_order<
    'a,
    T: DecodeValue<'a, SliceReader<'a>> + EncodeValue + FixedTag + Hash + Ord + ValueOrd,
>(alloc: Global, question: &Question<'a>) -> Result<String, Refusal> {
    match question.asked {
        Asked::Compare => {
            let (first, second) = values_of::<T>(alloc, question)?;
            compared(alloc, &first, &second)
        }
        _ => answer_with_contents::<T>(alloc, question),
    }
}

/// Returns the answer for such a type that values of any type can be converted to.
pub fn answer_of_lent<
    'a,
    T: DecodeValue<'a, SliceReader<'a>>
        + EncodeValue
        + FixedTag
        + Hash
        + Ord
        + ValueOrd
        + TryFrom<&'a Any, Error = Error>
        + TryFrom<AnyRef<'a>, Error = Error>,
>(alloc: Global, question: &Question<'a>) -> Result<String, Refusal> {
    match question.asked {
        Asked::Converted(any, conversion) => converted::<T>(alloc, any, conversion),
        _ => answer_with_order::<T>(alloc, question),
    }
}

/// Returns the answer for a `Described` type with an order of its own.
pub fn answer_of_ordered<'a, T: Ordered + FixedTag + Hash + Ord + Drop>(
    alloc: Global,
    question: &Question<'a>,
) -> Result<String, Refusal>
where
    T::By: DecodeWay<'a, SliceReader<'a>, T> + OrderWay<T>,
{
    answer_with_order::<T>(alloc, question)
}

/// Returns the answer for such a type that values of any type can be converted to.
pub fn answer_of_ordered_lent<
    'a,
    T: Ordered
        + FixedTag
        + Hash
        + Ord
        + TryFrom<&'a Any, Error = Error>
        + TryFrom<AnyRef<'a>, Error = Error>
        + Drop,
>(alloc: Global, question: &Question<'a>) -> Result<String, Refusal>
where
    T::By: DecodeWay<'a, SliceReader<'a>, T> + OrderWay<T>,
{
    answer_of_lent::<T>(alloc, question)
}

/// Returns the answer for such a type that also prints a text.
pub fn answer_with_text<'a, T: Ordered + FixedTag + Hash + Ord + Display + Drop>(
    alloc: Global,
    question: &Question<'a>,
) -> Result<String, Refusal>
where
    T::By: DecodeWay<'a, SliceReader<'a>, T> + OrderWay<T>,
{
    match question.asked {
        Asked::Text => printed(alloc, read::<T>(alloc, question.first)),
        _ => answer_of_ordered::<T>(alloc, question),
    }
}

/// Returns the answer for such a type that values of any type can be converted to.
pub fn answer_of_lent_text<
    'a,
    T: Ordered
        + FixedTag
        + Hash
        + Ord
        + Display
        + TryFrom<&'a Any, Error = Error>
        + TryFrom<AnyRef<'a>, Error = Error>
        + Drop,
>(alloc: Global, question: &Question<'a>) -> Result<String, Refusal>
where
    T::By: DecodeWay<'a, SliceReader<'a>, T> + OrderWay<T>,
{
    match question.asked {
        Asked::Converted(any, conversion) => converted::<T>(alloc, any, conversion),
        _ => answer_with_text::<T>(alloc, question),
    }
}

/// Returns the order of two values by their type's `Ord`, and whether their hashes are equal.
pub fn compared<T: Hash + Ord>(alloc: Global, first: &T, second: &T) -> Result<String, Refusal> {
    let order = name_of(first.cmp(second));
    let hashes = if hash_of(first) == hash_of(second) {
        "same"
    } else {
        "apart"
    };
    Ok(format!(in alloc; "{order} {hashes}")?)
}

/// Returns the hash of a value.
fn hash_of<T: Hash>(value: &T) -> u64 {
    let mut state = DefaultHasher::new();
    value.hash(&mut state);
    state.finish()
}
