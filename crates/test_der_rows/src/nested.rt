//! Lists, arrays, sets, options, tags and fields of the coding core.

use crate::questions::{
    Question, answer_as_with_debug, answer_of, answer_of_value, answer_with_contents,
    answer_with_debug,
};
use crate::refusals::Refusal;
use crate::{lists, record, ten_fields};
use const_oid::ObjectIdentifier;
use der_core::{
    ApartValue, DecodeValue, EncodeValue, Explicit, FixedTag, Implicit, InRangeValue, SliceReader,
    StrictSetOf, ValueOrd, WithDefault,
};
use der_types::OctetStringRef;
use std::alloc::Global;
use std::marker::PhantomData;

/// A row of a number, an optional flag, and a text.
type Flagged<'a> = (u8, (Option<bool>, (&'a str, ())));

/// Returns the answer for a type that this module names, or that a later module names.
pub fn answer(alloc: Global, kind: &str, question: &Question<'_>) -> Result<String, Refusal> {
    match kind {
        "Option<bool>" => answer_as_with_debug::<Option<bool>>(alloc, question),
        "WithDefault<bool>" => answer_as_with_debug::<WithDefault<bool>>(alloc, question),
        "PhantomData<u8>" => answer_of::<PhantomData<u8>>(alloc, question),
        "Explicit<bool,3>" => answer_of_value::<Explicit<bool, 3>>(alloc, question),
        "Explicit<u8,0>" => answer_with_contents::<Explicit<u8, 0>>(alloc, question),
        "Implicit<u8,0>" => answer_with_contents::<Implicit<u8, 0>>(alloc, question),
        "Flagged" => record::answer_and_order::<Flagged>(alloc, question),
        "NumberOrText" => ten_fields::answer_of_choice(alloc, question),
        "TenFields" => ten_fields::answer(alloc, question),
        _ => answer_of_lists(alloc, kind, question),
    }
}

/// Returns the answer for a list or an array.
fn answer_of_lists(alloc: Global, kind: &str, question: &Question<'_>) -> Result<String, Refusal> {
    match kind {
        "Vec<bool>" => answer_of_value::<Vec<bool>>(alloc, question),
        "Vec<u8>" => answer_with_contents::<Vec<u8>>(alloc, question),
        "Vec<OctetStringRef>" => answer_of_value::<Vec<OctetStringRef>>(alloc, question),
        "[bool;0]" => answer_of_value::<[bool; 0]>(alloc, question),
        "[u8;2]" => answer_with_debug::<[u8; 2]>(alloc, question),
        "[[bool;1];1]" => answer_of_value::<[[bool; 1]; 1]>(alloc, question),
        _ => answer_of_sets(alloc, kind, question),
    }
}

/// Returns the answer for a set whose members are in order, by the name of its members.
fn answer_of_sets(alloc: Global, kind: &str, question: &Question<'_>) -> Result<String, Refusal> {
    match kind {
        "StrictSetOf<()>" => answer_of_set::<()>(alloc, question),
        "StrictSetOf<bool>" => answer_of_set::<bool>(alloc, question),
        "StrictSetOf<u8>" => answer_of_set::<u8>(alloc, question),
        "StrictSetOf<i128>" => answer_of_set::<i128>(alloc, question),
        "StrictSetOf<Box<u64>>" => answer_of_set::<Box<u64>>(alloc, question),
        "StrictSetOf<str>" => answer_of_set::<&str>(alloc, question),
        "StrictSetOf<String>" => answer_of_set::<String>(alloc, question),
        "StrictSetOf<ObjectIdentifier>" => answer_of_set::<ObjectIdentifier<39>>(alloc, question),
        "StrictSetOf<Vec<bool>>" => answer_of_set::<Vec<bool>>(alloc, question),
        "StrictSetOf<[u8;1]>" => answer_of_set::<[u8; 1]>(alloc, question),
        "StrictSetOf<Implicit<bool,0>>" => answer_of_set::<Implicit<bool, 0>>(alloc, question),
        "StrictSetOf<Explicit<StrictSetOf<u8>,2>>" => {
            answer_of_set::<Explicit<StrictSetOf<u8>, 2>>(alloc, question)
        }
        _ => lists::answer(alloc, kind, question),
    }
}

/// Returns the answer for a set whose members have one tag and are in order.
fn answer_of_set<
    'a,
    T: DecodeValue<'a, SliceReader<'a>>
        + ApartValue
        + EncodeValue
        + FixedTag
        + InRangeValue
        + ValueOrd,
>(alloc: Global, question: &Question<'a>) -> Result<String, Refusal> {
    answer_with_contents::<StrictSetOf<T>>(alloc, question)
}
