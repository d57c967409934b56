//! Questions about the values of a type.
//!
//! Decoding and encoding a type costs the check more than all other questions about it, at each
//! place that names the type. So one place answers all questions about a type.

use crate::copies::{copied, exchanged};
use crate::distinguished_names::name_in;
use crate::refusals::Refusal;
use crate::shown::{hex_of, joined, or_refusal, read, written, written_in};
use crate::whole_extensions::got;
use const_oid::AssociatedOid;
use der_core::describing::{DecodeWay, Described, OrderWay, Ordered, TagWay};
use der_core::{
    Decode, DecodeValue, DerOrd, Encode, EncodeValue, Error, FixedTag, FromDer, SliceReader,
    ValueOrd,
};
use std::alloc::{AllocError, Global};
use std::cmp::Ordering;
use std::fmt::Debug;
use x509_cert::{Criticality, Name, Raw, TbsCertificateInner, ToExtension};

/// A question about values.
#[derive(Clone, Copy)]
pub enum Asked<'a> {
    /// The encoding of the value that is decoded by DER.
    Der,
    /// The encoding of the value with which the bytes begin, and the bytes after it.
    Front,
    /// The results of two calls of one reader.
    Twice,
    /// The order of two values.
    Order,
    /// The value as `{:?}` prints it.
    Debug,
    /// The encoding of a copy of a value, if the copy is equal to the value.
    Copy,
    /// The encodings of two values after their fields were exchanged.
    Exchange,
    /// The encoding of the type's default value.
    Default,
    /// The extension that the second value gives the certificate of the subject with the first as
    /// its name.
    Extension,
    /// The single value of the type among the extensions of a certificate.
    Get(&'a TbsCertificateInner<Raw>),
}

/// A question about encoded values. `second` is empty if the question is about one value. Both are
/// empty if it is about none.
#[derive(Clone, Copy)]
pub struct Question<'a> {
    pub asked: Asked<'a>,
    pub first: &'a [u8],
    pub second: &'a [u8],
}

/// Returns the question for a word.
pub fn asked_by(word: &str) -> Result<Asked<'_>, Refusal> {
    match word {
        "der" => Ok(Asked::Der),
        "front" => Ok(Asked::Front),
        "twice" => Ok(Asked::Twice),
        "order" => Ok(Asked::Order),
        "debug" => Ok(Asked::Debug),
        "copy" => Ok(Asked::Copy),
        "exchange" => Ok(Asked::Exchange),
        "default" => Ok(Asked::Default),
        "extension" => Ok(Asked::Extension),
        _ => Err(Refusal::Unread),
    }
}

/// Returns the answer for a type that is decoded and encoded.
pub fn answer_of<'a, T: Decode<'a, SliceReader<'a>> + Encode>(
    alloc: Global,
    question: &Question<'a>,
) -> Result<String, Refusal> {
    match question.asked {
        Asked::Der => written_in(alloc, T::from_der(alloc, question.first)),
        Asked::Front => front_written(alloc, T::from_der_partial(alloc, question.first)),
        Asked::Twice => read_twice::<T>(alloc, question.first),
        _ => Err(Refusal::Unread),
    }
}

/// Returns the encoding of the value with which the bytes begin, and the bytes after it.
fn front_written<T: Encode + Drop>(
    alloc: Global,
    front: Result<(T, &[u8]), Error>,
) -> Result<String, Refusal> {
    let (value, behind) = front?;
    joined(written(alloc, &value), " ", hex_of(alloc, behind))
}

/// Returns the encodings of the two values that one reader reads, or why it reads none.
fn read_twice<'a, T: Decode<'a, SliceReader<'a>> + Encode + Drop>(
    alloc: Global,
    octets: &'a [u8],
) -> Result<String, Refusal> {
    let mut reader = SliceReader::new(octets)?;
    let first = or_refusal(alloc, written_in(alloc, T::decode(alloc, &mut reader)));
    let second = or_refusal(alloc, written_in(alloc, T::decode(alloc, &mut reader)));
    joined(first, "; ", second)
}

/// Returns the answer for a type that is also compared.
pub fn answer_with_order<'a, T: Decode<'a, SliceReader<'a>> + DerOrd + Encode>(
    alloc: Global,
    question: &Question<'a>,
) -> Result<String, Refusal> {
    match question.asked {
        Asked::Order => order_of::<T>(alloc, question),
        _ => answer_of::<T>(alloc, question),
    }
}

/// Returns the answer for a type that is also copied.
pub fn answer_with_copy<
    'a,
    T: Decode<'a, SliceReader<'a>> + Encode + PartialEq,
    C: FnOnce(&T, Global) -> Result<T, AllocError>,
>(alloc: Global, question: &Question<'a>, copy: C) -> Result<String, Refusal>
    requires { C.IsAlwaysCallable copy }
{
    match question.asked {
        Asked::Copy => copied(alloc, T::from_der(alloc, question.first), copy),
        _ => answer_of::<T>(alloc, question),
    }
}

/// Returns the answer for a type that is also compared and copied.
pub fn answer_with_order_and_copy<
    'a,
    T: Decode<'a, SliceReader<'a>> + DerOrd + Encode + PartialEq,
    C: FnOnce(&T, Global) -> Result<T, AllocError>,
>(alloc: Global, question: &Question<'a>, copy: C) -> Result<String, Refusal>
    requires { C.IsAlwaysCallable copy }
{
    match question.asked {
        Asked::Order => order_of::<T>(alloc, question),
        _ => answer_with_copy(alloc, question, copy),
    }
}

/// Returns the answer for a type with one tag. It only requires the traits of the contents, because
/// each required trait costs the check of every type that is named.
pub fn answer_of_value<'a, T: DecodeValue<'a, SliceReader<'a>> + EncodeValue + FixedTag>(
    alloc: Global,
    question: &Question<'a>,
) -> Result<String, Refusal> {
    answer_of::<T>(alloc, question)
}

/// Returns the answer for such a type that is also compared.
pub fn answer_of_value_with_order<
    'a,
    T: DecodeValue<'a, SliceReader<'a>> + EncodeValue + FixedTag + ValueOrd,
>(alloc: Global, question: &Question<'a>) -> Result<String, Refusal> {
    answer_with_order::<T>(alloc, question)
}

/// Returns the answer for a `Described` type. The bounds are on the way (`T::By`) in which it is
/// encoded, because that costs the check less.
pub fn answer_of_described<'a, T: Described + Drop>(
    alloc: Global,
    question: &Question<'a>,
) -> Result<String, Refusal>
where
    T::By: DecodeWay<'a, SliceReader<'a>, T> + TagWay<T>,
{
    answer_of_tagged::<T>(alloc, question)
}

/// Returns the answer for such a type that states its tag itself.
pub fn answer_of_tagged<'a, T: Described + FixedTag + Drop>(
    alloc: Global,
    question: &Question<'a>,
) -> Result<String, Refusal>
where
    T::By: DecodeWay<'a, SliceReader<'a>, T>,
{
    answer_of_value::<T>(alloc, question)
}

/// Returns the answer for a list of values of such a type. This function is generic, so that its
/// bounds are checked once, and not for each list.
pub fn answer_of_members<'a, T: Described + FixedTag + Drop>(
    alloc: Global,
    question: &Question<'a>,
) -> Result<String, Refusal>
where
    T::By: DecodeWay<'a, SliceReader<'a>, T>,
{
    answer_of_value::<Vec<T>>(alloc, question)
}

/// Returns the answer for such a type that is also compared.
pub fn answer_of_ordered<'a, T: Ordered + FixedTag + Drop>(
    alloc: Global,
    question: &Question<'a>,
) -> Result<String, Refusal>
where
    T::By: DecodeWay<'a, SliceReader<'a>, T> + OrderWay<T>,
{
    answer_of_value_with_order::<T>(alloc, question)
}

/// Returns the answer for such a type that is also copied.
pub fn answer_of_copied<
    'a,
    T: Described + PartialEq + Drop,
    C: FnOnce(&T, Global) -> Result<T, AllocError>,
>(alloc: Global, question: &Question<'a>, copy: C) -> Result<String, Refusal>
where
    T::By: DecodeWay<'a, SliceReader<'a>, T> + TagWay<T>,
    requires { C.IsAlwaysCallable copy }
{
    match question.asked {
        Asked::Copy => copied(alloc, read::<T>(alloc, question.first), copy),
        _ => answer_of_described::<T>(alloc, question),
    }
}

/// Returns the answer for such a type that is also compared and copied.
pub fn answer_of_ordered_and_copied<
    'a,
    T: Ordered + FixedTag + PartialEq + Drop,
    C: FnOnce(&T, Global) -> Result<T, AllocError>,
>(alloc: Global, question: &Question<'a>, copy: C) -> Result<String, Refusal>
where
    T::By: DecodeWay<'a, SliceReader<'a>, T> + OrderWay<T>,
    requires { C.IsAlwaysCallable copy }
{
    match question.asked {
        Asked::Copy => copied(alloc, read::<T>(alloc, question.first), copy),
        _ => answer_of_ordered::<T>(alloc, question),
    }
}

/// Returns the answer for a type with one tag and one field, which is also copied.
pub fn answer_of_field<
    'a,
    T: Described + PartialEq + AsMut<F> + Drop,
    F,
    C: FnOnce(&T, Global) -> Result<T, AllocError>,
>(alloc: Global, question: &Question<'a>, copy: C) -> Result<String, Refusal>
where
    T::By: DecodeWay<'a, SliceReader<'a>, T> + TagWay<T>,
    requires { C.IsAlwaysCallable copy }
{
    match question.asked {
        Asked::Exchange => exchange_of::<T, F>(alloc, question),
        _ => answer_of_copied(alloc, question, copy),
    }
}

/// Returns the answer for such a type that is also compared, and whose default is an empty list.
pub fn answer_of_ordered_list<
    'a,
    T: Ordered + PartialEq + AsMut<Vec<M>> + Drop,
    M,
    C: FnOnce(&T, Global) -> Result<T, AllocError>,
>(alloc: Global, question: &Question<'a>, copy: C, none: T) -> Result<String, Refusal>
where
    T::By: DecodeWay<'a, SliceReader<'a>, T> + OrderWay<T> + TagWay<T>,
    requires { C.IsAlwaysCallable copy }
{
    match question.asked {
        Asked::Default => written_of(alloc, none),
        Asked::Order => answer_of_ordered::<T>(alloc, question),
        _ => answer_of_field::<T, Vec<M>, C>(alloc, question, copy),
    }
}

/// Returns the answer for a type that is the content of an extension.
pub fn answer_of_content<'a, T: Described + FixedTag + AssociatedOid + Criticality + Drop>(
    alloc: Global,
    question: &Question<'a>,
) -> Result<String, Refusal>
where
    T::By: DecodeWay<'a, SliceReader<'a>, T>,
{
    match question.asked {
        Asked::Extension => {
            let subject = name_in(alloc, question.first)?;
            given(alloc, &subject, &read::<T>(alloc, question.second)?)
        }
        Asked::Get(certificate) => got::<T>(alloc, certificate),
        _ => answer_of_tagged::<T>(alloc, question),
    }
}

/// Returns the answer for such a type with one field.
pub fn answer_with_field<'a, T: Described + AssociatedOid + Criticality + AsMut<F> + Drop, F>(
    alloc: Global,
    question: &Question<'a>,
) -> Result<String, Refusal>
where
    T::By: DecodeWay<'a, SliceReader<'a>, T> + TagWay<T>,
{
    match question.asked {
        Asked::Exchange => exchange_of::<T, F>(alloc, question),
        _ => answer_of_content::<T>(alloc, question),
    }
}

/// Returns the answer for such a type with one field that is also copied.
pub fn answer_with_field_and_copy<
    'a,
    T: Described + PartialEq + AssociatedOid + Criticality + AsMut<F> + Drop,
    F,
    C: FnOnce(&T, Global) -> Result<T, AllocError>,
>(alloc: Global, question: &Question<'a>, copy: C) -> Result<String, Refusal>
where
    T::By: DecodeWay<'a, SliceReader<'a>, T> + TagWay<T>,
    requires { C.IsAlwaysCallable copy }
{
    match question.asked {
        Asked::Copy => copied(alloc, read::<T>(alloc, question.first), copy),
        _ => answer_with_field::<T, F>(alloc, question),
    }
}

/// Returns the answer for such a type whose field is a list, and whose default is an empty list.
pub fn answer_of_list<
    'a,
    T: Described + PartialEq + AssociatedOid + Criticality + AsMut<Vec<M>> + Drop,
    M,
    C: FnOnce(&T, Global) -> Result<T, AllocError>,
>(alloc: Global, question: &Question<'a>, copy: C, none: T) -> Result<String, Refusal>
where
    T::By: DecodeWay<'a, SliceReader<'a>, T> + TagWay<T>,
    requires { C.IsAlwaysCallable copy }
{
    match question.asked {
        Asked::Default => written_of(alloc, none),
        _ => answer_with_field_and_copy::<T, Vec<M>, C>(alloc, question, copy),
    }
}

/// Returns the answer for such a type that also has `Debug` output.
pub fn answer_with_debug<'a, T: Described + FixedTag + AssociatedOid + Criticality + Debug + Drop>(
    alloc: Global,
    question: &Question<'a>,
) -> Result<String, Refusal>
where
    T::By: DecodeWay<'a, SliceReader<'a>, T>,
{
    match question.asked {
        Asked::Debug => {
            let value = read::<T>(alloc, question.first)?;
            Ok(format!(in alloc; "{value:?}")?)
        }
        _ => answer_of_content::<T>(alloc, question),
    }
}

/// Returns the answer for such a type that is also compared and has `Debug` output.
pub fn answer_with_both<'a, T: Ordered + FixedTag + AssociatedOid + Criticality + Debug + Drop>(
    alloc: Global,
    question: &Question<'a>,
) -> Result<String, Refusal>
where
    T::By: DecodeWay<'a, SliceReader<'a>, T> + OrderWay<T>,
{
    match question.asked {
        Asked::Order => answer_of_ordered::<T>(alloc, question),
        _ => answer_with_debug::<T>(alloc, question),
    }
}

/// Returns the answer for such a type that also has `Debug` output and is copied.
pub fn answer_with_debug_and_copy<
    'a,
    T: Described + PartialEq + AssociatedOid + Criticality + Debug + Drop,
    C: FnOnce(&T, Global) -> Result<T, AllocError>,
>(alloc: Global, question: &Question<'a>, copy: C) -> Result<String, Refusal>
where
    T::By: DecodeWay<'a, SliceReader<'a>, T> + TagWay<T>,
    requires { C.IsAlwaysCallable copy }
{
    match question.asked {
        Asked::Copy => copied(alloc, read::<T>(alloc, question.first), copy),
        _ => answer_with_debug::<T>(alloc, question),
    }
}

/// Returns the answer for such a type that also has a default value.
pub fn answer_with_default_and_copy<
    'a,
    T: Described + Default + PartialEq + AssociatedOid + Criticality + Debug + Drop,
    C: FnOnce(&T, Global) -> Result<T, AllocError>,
>(alloc: Global, question: &Question<'a>, copy: C) -> Result<String, Refusal>
where
    T::By: DecodeWay<'a, SliceReader<'a>, T> + TagWay<T>,
    requires { C.IsAlwaysCallable copy }
{
    match question.asked {
        Asked::Default => written_of(alloc, T::default()),
        _ => answer_with_debug_and_copy(alloc, question, copy),
    }
}

/// Returns the encoding of a value.
fn written_of<T: Encode + Drop>(alloc: Global, value: T) -> Result<String, Refusal> {
    written(alloc, &value)
}

/// Exchanges the fields of two values and returns their encodings.
fn exchange_of<'a, T: Described + FixedTag + AsMut<F> + Drop, F>(
    alloc: Global,
    question: &Question<'a>,
) -> Result<String, Refusal>
where
    T::By: DecodeWay<'a, SliceReader<'a>, T>,
{
    let first = read::<T>(alloc, question.first)?;
    exchanged(alloc, first, read::<T>(alloc, question.second)?)
}

/// Returns the extension with a value.
fn given<T: Encode + AssociatedOid + Criticality>(
    alloc: Global,
    subject: &Name,
    value: &T,
) -> Result<String, Refusal> {
    written_in(alloc, value.to_extension(alloc, subject, &[]))
}

/// Returns the order of two values.
fn order_of<'a, T: Decode<'a, SliceReader<'a>> + DerOrd + Drop>(
    alloc: Global,
    question: &Question<'a>,
) -> Result<String, Refusal> {
    let first = T::from_der(alloc, question.first)?;
    let second = T::from_der(alloc, question.second)?;
    name_of(alloc, first.der_cmp(&second))
}

/// Returns the name of the order in a result.
fn name_of(alloc: Global, outcome: Result<Ordering, Error>) -> Result<String, Refusal> {
    let order = outcome?;
    Ok(format!(in alloc; "{order:?}")?)
}
