//! Copies of values, by each call that makes one.

use crate::key_usages::KeyUsages;
use crate::lists::read_lent;
use crate::refusals::Refusal;
use crate::shown::{joined, shown, written, written_in};
use crate::small::Small;
use crate::{contents, fields};
use der_core::describing::{DecodeWay, Described};
use der_core::{Decode, Encode, EncodingRules, FixedTag, FromDer, SliceReader};
use der_types::{
    Any, AnyRef, BitString, BitStringRef, BmpString, FlagSet, Int, IntRef, OctetString,
    OctetStringRef, PrintableString, PrintableStringRef, SequenceOf, SetOf, SetOfRef, SetOfVec,
    TeletexString, TeletexStringRef, Uint, UintRef, Utf8StringRef,
};
use std::alloc::{AllocError, Global};

/// A value that can be copied into one that owns its bytes.
trait Copied<O> {
    /// Returns the copy.
    fn copied(&self, alloc: Global) -> Result<O, AllocError>;
}

impl Copied<Any> for Any {
    fn copied(&self, alloc: Global) -> Result<Any, AllocError> {
        self.clone(alloc)
    }
}

impl<'a> Copied<Any> for AnyRef<'a> {
    fn copied(&self, alloc: Global) -> Result<Any, AllocError> {
        self.ref_to_owned(alloc)
    }
}

impl Copied<Int> for Int {
    fn copied(&self, alloc: Global) -> Result<Int, AllocError> {
        self.clone(alloc)
    }
}

impl<'a> Copied<Int> for IntRef<'a> {
    fn copied(&self, alloc: Global) -> Result<Int, AllocError> {
        self.ref_to_owned(alloc)
    }
}

impl Copied<Uint> for Uint {
    fn copied(&self, alloc: Global) -> Result<Uint, AllocError> {
        self.clone(alloc)
    }
}

impl<'a> Copied<Uint> for UintRef<'a> {
    fn copied(&self, alloc: Global) -> Result<Uint, AllocError> {
        self.ref_to_owned(alloc)
    }
}

impl Copied<BitString> for BitString {
    fn copied(&self, alloc: Global) -> Result<BitString, AllocError> {
        self.clone(alloc)
    }
}

impl<'a> Copied<BitString> for BitStringRef<'a> {
    fn copied(&self, alloc: Global) -> Result<BitString, AllocError> {
        self.ref_to_owned(alloc)
    }
}

impl Copied<FlagSet<KeyUsages>> for FlagSet<KeyUsages> {
    fn copied(&self, _alloc: Global) -> Result<FlagSet<KeyUsages>, AllocError> {
        Ok(*self)
    }
}

impl Copied<OctetString> for OctetString {
    fn copied(&self, alloc: Global) -> Result<OctetString, AllocError> {
        self.clone(alloc)
    }
}

impl<'a> Copied<OctetString> for OctetStringRef<'a> {
    fn copied(&self, alloc: Global) -> Result<OctetString, AllocError> {
        self.ref_to_owned(alloc)
    }
}

impl Copied<PrintableString> for PrintableString {
    fn copied(&self, alloc: Global) -> Result<PrintableString, AllocError> {
        self.clone(alloc)
    }
}

impl<'a> Copied<PrintableString> for PrintableStringRef<'a> {
    fn copied(&self, alloc: Global) -> Result<PrintableString, AllocError> {
        self.ref_to_owned(alloc)
    }
}

impl<'a> Copied<TeletexString> for TeletexStringRef<'a> {
    fn copied(&self, alloc: Global) -> Result<TeletexString, AllocError> {
        let again = Clone::clone(self)?;
        again.ref_to_owned(alloc)
    }
}

impl<'a> Copied<String> for Utf8StringRef<'a> {
    fn copied(&self, alloc: Global) -> Result<String, AllocError> {
        self.ref_to_owned(alloc)
    }
}

impl Copied<BmpString> for BmpString {
    fn copied(&self, alloc: Global) -> Result<BmpString, AllocError> {
        self.clone(alloc)
    }
}

impl Copied<SequenceOf<Small, 2>> for SequenceOf<Small, 2> {
    fn copied(&self, _alloc: Global) -> Result<SequenceOf<Small, 2>, AllocError> {
        Clone::clone(self)
    }
}

/// Decodes a value by DER, and returns the encodings of its copies.
pub fn answer(alloc: Global, kind: &str, octets: &[u8]) -> Result<String, Refusal> {
    match kind {
        "Any" => copies::<Any, Any>(alloc, octets),
        "AnyRef" => copies::<AnyRef, Any>(alloc, octets),
        "Int" => copies_of_leaf::<Int, Int>(alloc, octets),
        "IntRef" => copies_of_leaf::<IntRef, Int>(alloc, octets),
        "Uint" => copies_of_leaf::<Uint, Uint>(alloc, octets),
        "UintRef" => copies_of_leaf::<UintRef, Uint>(alloc, octets),
        "BitString" => copies_of_leaf::<BitString, BitString>(alloc, octets),
        "BitStringRef" => copies_of_leaf::<BitStringRef, BitString>(alloc, octets),
        "KeyUsages" => copies_of_leaf::<FlagSet<KeyUsages>, FlagSet<KeyUsages>>(alloc, octets),
        "OctetString" => copies_of_leaf::<OctetString, OctetString>(alloc, octets),
        "OctetStringRef" => copies_of_leaf::<OctetStringRef, OctetString>(alloc, octets),
        _ => answer_of_texts(alloc, kind, octets),
    }
}

/// Returns the copies of a text, a list, a set, or a field.
fn answer_of_texts(alloc: Global, kind: &str, octets: &[u8]) -> Result<String, Refusal> {
    match kind {
        "PrintableString" => copies_of_leaf::<PrintableString, PrintableString>(alloc, octets),
        "PrintableStringRef" => copies_of_leaf::<PrintableStringRef, PrintableString>(
            alloc, octets,
        ),
        "TeletexStringRef" => copies_of_leaf::<TeletexStringRef, TeletexString>(alloc, octets),
        "Utf8StringRef" => copies_of_leaf::<Utf8StringRef, String>(alloc, octets),
        "BmpString" => copies_of_leaf::<BmpString, BmpString>(alloc, octets),
        "SequenceOf<Small,2>" => copies::<SequenceOf<Small, 2>, SequenceOf<Small, 2>>(
            alloc, octets,
        ),
        "SetOfVec<Small>" => copies_of_set(alloc, octets),
        "SetOf<Small,2>" => copies_of_few(alloc, octets),
        "SetOfRef<Small>" => copies_of_lent(alloc, octets),
        "ContextSpecific<BitString>" => fields::copies_of(alloc, octets),
        "ContextSpecificRef<u8>" => fields::copy_of(alloc, octets),
        "BytesOwned" => contents::copy_of_octets(alloc, octets),
        "StringOwned" => contents::copy_of_text(alloc, octets),
        _ => Err(Refusal::Unread),
    }
}

/// Returns the encodings of a copy of a value of a `Described` type, and of a copy of that copy.
fn copies_of_leaf<
    'a,
    T: Described + FixedTag + Copied<O> + Drop,
    O: Clone + Described + FixedTag + Drop,
>(alloc: Global, octets: &'a [u8]) -> Result<String, Refusal>
where
    T::By: DecodeWay<'a, SliceReader<'a>, T>,
{
    copies::<T, O>(alloc, octets)
}

/// Returns the encodings of a copy of a value, and of a copy of that copy.
fn copies<'a, T: Decode<'a, SliceReader<'a>> + Copied<O>, O: Clone + Encode + Drop>(
    alloc: Global,
    octets: &'a [u8],
) -> Result<String, Refusal> {
    let value = T::from_der(alloc, octets)?;
    both_written(alloc, value.copied(alloc))
}

/// Returns the encodings of a copy, and of a copy of it.
fn both_written<O: Clone + Encode + Drop>(
    alloc: Global,
    copy: Result<O, AllocError>,
) -> Result<String, Refusal> {
    let copy = copy?;
    joined(
        written(alloc, &copy),
        " ",
        copy_written(alloc, copy.clone()),
    )
}

/// Returns the encoding of a copy.
fn copy_written<T: Encode + Drop>(
    alloc: Global,
    copy: Result<T, AllocError>,
) -> Result<String, Refusal> {
    written(alloc, &copy?)
}

/// Returns the encodings of a copy of a set, and of the set of its members.
fn copies_of_set(alloc: Global, octets: &[u8]) -> Result<String, Refusal> {
    let set = SetOfVec::<Small>::from_der(alloc, octets)?;
    let first = copy_written(alloc, set.clone(alloc));
    joined(
        first,
        " ",
        written_in(alloc, SetOfVec::from_iter(alloc, set.into_vec())),
    )
}

/// Returns the encoding of a copy of a set with bounded capacity.
fn copies_of_few(alloc: Global, octets: &[u8]) -> Result<String, Refusal> {
    let set = SetOf::<Small, 2>::from_der(alloc, octets)?;
    copy_written(alloc, set.clone())
}

/// Returns the encodings of a copy of a borrowed set, and of the set of its members.
fn copies_of_lent(alloc: Global, octets: &[u8]) -> Result<String, Refusal> {
    let set: SetOfRef<Small> = read_lent(alloc, octets, EncodingRules::Der)?;
    let first = copy_written(alloc, set.clone());
    joined(first, " ", written_in(alloc, set.ref_to_owned(alloc)))
}

/// Returns the member of a borrowed set at an index.
pub fn answer_of_member(alloc: Global, place: &str, octets: &[u8]) -> Result<String, Refusal> {
    let place = usize::from(place.parse::<u8>()?);
    let set: SetOfRef<Small> = read_lent(alloc, octets, EncodingRules::Der)?;
    match set.get(alloc, place)? {
        Some(member) => written(alloc, &member),
        None => shown(alloc, "none"),
    }
}
