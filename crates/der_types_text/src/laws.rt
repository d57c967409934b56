//! Laws about texts: a borrowed text and the owned one with the same bytes agree. The owned form of
//! a `Utf8StringRef` is a `String`.
//!
//! Each law is the contract of a function that does nothing. The functions that both forms have are
//! documented in the same words.

ghost use Rattle.std.specs.Prelude.{◌≡◌, string_bytes, ℕ, List, Ok, encode_utf8_all, chars, IsUtf8};
ghost use Rattle.der_core.specs.Shapes.{contents, octets_of};
ghost use Rattle.der_core.specs.Orders.{contents_cmp, encodings_cmp, octets_cmp};
ghost use Rattle.std.specs.Cmp.Lexicographic.{slice_cmp};
ghost use Rattle.std.specs.Ordering.{nat_cmp};
ghost use Rattle.der_core.specs.BmpStrings.{IsBmp, bmp_octets};
ghost use Rattle.der_types_text.specs.BmpStrings.{bmp_from};

use crate::ascii_string::AsciiString;
use crate::ascii_string_ref::AsciiStringRef;
use crate::ascii_type::AsciiType;
use crate::utf8_string::Utf8StringRef;
use der_core::{Shaped, ShapedValue};
use std::cmp::{Ord, PartialEq, PartialOrd};
use std::convert::{AsSlice, AsStr};
use std::fmt::Display;
use std::hash::Hash;

/// Both forms decode from the same bytes, because they have the same shape.
pub fn forms_read_alike<T: AsciiType>()
    ensures { ⟦<AsciiStringRef<'static, T> as Shaped>⟧.shape ≡ ⟦<AsciiString<T> as Shaped>⟧.shape }
{}

/// Both forms have the same content and the same encoding, print alike, and return the same bytes
/// and the same text.
pub fn forms_answer_alike<T: AsciiType>(borrowed: &AsciiStringRef<'_, T>, owned: &AsciiString<T>)
    requires { borrowed.now.text.now ≡ owned.now }
    ensures contents { contents ⟦<AsciiStringRef<'static, T> as ShapedValue>⟧.content
        (⟦<AsciiStringRef<'static, T> as ShapedValue>⟧.value_plain borrowed.now)
        ≡ contents ⟦<AsciiString<T> as ShapedValue>⟧.content
        (⟦<AsciiString<T> as ShapedValue>⟧.value_plain owned.now) }
    ensures encoding { octets_of ⟦<AsciiStringRef<'static, T> as Shaped>⟧.shape
        (⟦<AsciiStringRef<'static, T> as Shaped>⟧.plain borrowed.now)
        ≡ octets_of ⟦<AsciiString<T> as Shaped>⟧.shape
        (⟦<AsciiString<T> as Shaped>⟧.plain owned.now) }
    ensures printed { ⟦<AsciiStringRef<'static, T> as Display>⟧.output borrowed.now
        ≡ ⟦<AsciiString<T> as Display>⟧.output owned.now }
    ensures octets { ⟦<AsciiStringRef<'static, T> as AsSlice<u8>>⟧.items borrowed.now
        ≡ ⟦<AsciiString<T> as AsSlice<u8>>⟧.items owned.now }
    ensures text { ⟦<AsciiStringRef<'static, T> as AsStr>⟧.text borrowed.now
        ≡ ⟦<AsciiString<T> as AsStr>⟧.text owned.now }
{}

/// Two texts are equal, are hashed, and are ordered alike in both forms, by `cmp`, `partial_cmp`,
/// `value_cmp` and `der_cmp`.
pub fn forms_compare_alike<T: AsciiType>(
    a: &AsciiStringRef<'_, T>,
    b: &AsciiStringRef<'_, T>,
    owned_a: &AsciiString<T>,
    owned_b: &AsciiString<T>,
)
    requires first { a.now.text.now ≡ owned_a.now }
    requires second { b.now.text.now ≡ owned_b.now }
    ensures equality { ⟦<AsciiStringRef<'static, T> as PartialEq>⟧.eq a.now b.now
        ≡ ⟦<AsciiString<T> as PartialEq>⟧.eq owned_a.now owned_b.now }
    ensures hash { ⟦<AsciiStringRef<'static, T> as Hash>⟧.hash_input a.now
        ≡ ⟦<AsciiString<T> as Hash>⟧.hash_input owned_a.now }
    ensures order { ⟦<AsciiStringRef<'static, T> as Ord>⟧.cmp a.now b.now
        ≡ ⟦<AsciiString<T> as Ord>⟧.cmp owned_a.now owned_b.now }
    ensures partial_order { ⟦<AsciiStringRef<'static, T> as PartialOrd>⟧.partial_cmp a.now b.now
        ≡ ⟦<AsciiString<T> as PartialOrd>⟧.partial_cmp owned_a.now owned_b.now }
    ensures contents { contents_cmp ⟦<AsciiStringRef<'static, T> as ShapedValue>⟧.content
        (⟦<AsciiStringRef<'static, T> as ShapedValue>⟧.value_plain a.now)
        (⟦<AsciiStringRef<'static, T> as ShapedValue>⟧.value_plain b.now)
        ≡ contents_cmp ⟦<AsciiString<T> as ShapedValue>⟧.content
        (⟦<AsciiString<T> as ShapedValue>⟧.value_plain owned_a.now)
        (⟦<AsciiString<T> as ShapedValue>⟧.value_plain owned_b.now) }
    ensures encodings { encodings_cmp ⟦<AsciiStringRef<'static, T> as Shaped>⟧.shape
        (⟦<AsciiStringRef<'static, T> as Shaped>⟧.plain a.now)
        (⟦<AsciiStringRef<'static, T> as Shaped>⟧.plain b.now)
        ≡ encodings_cmp ⟦<AsciiString<T> as Shaped>⟧.shape
        (⟦<AsciiString<T> as Shaped>⟧.plain owned_a.now)
        (⟦<AsciiString<T> as Shaped>⟧.plain owned_b.now) }
{}

/// `Utf8StringRef` and `String` decode from the same bytes.
pub fn utf8_forms_read_alike()
    ensures { ⟦<Utf8StringRef<'static> as Shaped>⟧.shape ≡ ⟦<String as Shaped>⟧.shape }
{}

/// A `Utf8StringRef` and its `String` have the same content and the same encoding, print alike, and
/// return the same text.
pub fn utf8_forms_answer_alike(borrowed: &Utf8StringRef<'_>, owned: &String)
    requires { borrowed.now.text.now ≡ string_bytes owned.now }
    ensures contents { contents ⟦<Utf8StringRef<'static> as ShapedValue>⟧.content
        (⟦<Utf8StringRef<'static> as ShapedValue>⟧.value_plain borrowed.now)
        ≡ contents ⟦<String as ShapedValue>⟧.content
        (⟦<String as ShapedValue>⟧.value_plain owned.now) }
    ensures encoding { octets_of ⟦<Utf8StringRef<'static> as Shaped>⟧.shape
        (⟦<Utf8StringRef<'static> as Shaped>⟧.plain borrowed.now)
        ≡ octets_of ⟦<String as Shaped>⟧.shape (⟦<String as Shaped>⟧.plain owned.now) }
    ensures printed { ⟦<Utf8StringRef<'static> as Display>⟧.output borrowed.now
        ≡ ⟦<String as Display>⟧.output owned.now }
    ensures text { ⟦<Utf8StringRef<'static> as AsStr>⟧.text borrowed.now
        ≡ ⟦<String as AsStr>⟧.text owned.now }
{}

/// Two `Utf8StringRef` values are equal, are hashed, and are ordered as their `String` values are.
pub fn utf8_forms_compare_alike(
    a: &Utf8StringRef<'_>,
    b: &Utf8StringRef<'_>,
    owned_a: &String,
    owned_b: &String,
)
    requires first { a.now.text.now ≡ string_bytes owned_a.now }
    requires second { b.now.text.now ≡ string_bytes owned_b.now }
    ensures equality { ⟦<Utf8StringRef<'static> as PartialEq>⟧.eq a.now b.now
        ≡ ⟦<String as PartialEq>⟧.eq owned_a.now owned_b.now }
    ensures hash { ⟦<Utf8StringRef<'static> as Hash>⟧.hash_input a.now
        ≡ ⟦<String as Hash>⟧.hash_input owned_a.now }
    ensures order { ⟦<Utf8StringRef<'static> as Ord>⟧.cmp a.now b.now
        ≡ ⟦<String as Ord>⟧.cmp owned_a.now owned_b.now }
    ensures partial_order { ⟦<Utf8StringRef<'static> as PartialOrd>⟧.partial_cmp a.now b.now
        ≡ ⟦<String as PartialOrd>⟧.partial_cmp owned_a.now owned_b.now }
    ensures contents { contents_cmp ⟦<Utf8StringRef<'static> as ShapedValue>⟧.content
        (⟦<Utf8StringRef<'static> as ShapedValue>⟧.value_plain a.now)
        (⟦<Utf8StringRef<'static> as ShapedValue>⟧.value_plain b.now)
        ≡ contents_cmp ⟦<String as ShapedValue>⟧.content
        (⟦<String as ShapedValue>⟧.value_plain owned_a.now)
        (⟦<String as ShapedValue>⟧.value_plain owned_b.now) }
    ensures encodings { encodings_cmp ⟦<Utf8StringRef<'static> as Shaped>⟧.shape
        (⟦<Utf8StringRef<'static> as Shaped>⟧.plain a.now)
        (⟦<Utf8StringRef<'static> as Shaped>⟧.plain b.now)
        ≡ encodings_cmp ⟦<String as Shaped>⟧.shape (⟦<String as Shaped>⟧.plain owned_a.now)
        (⟦<String as Shaped>⟧.plain owned_b.now) }
{}

/// Strings with the same bytes have the same characters.
#[tactic(auto, using(crate::proofs::BmpTexts::one_string))]
pub fn octets_identify()
    ensures { (us vs : List ℕ) → bmp_octets us ≡ bmp_octets vs → us ≡ vs }
{}

/// BMPStrings are ordered by their characters, which are ordered as their bytes are.
#[tactic(auto, using(crate::specs::BmpOrders::bmp_octets_cmp))]
pub fn order_is_that_of_octets()
    ensures { (us vs : List ℕ) → slice_cmp nat_cmp us vs
        ≡ octets_cmp (bmp_octets us) (bmp_octets vs) }
{}

/// `from_utf8` of the text that a BMPString prints gives the same string, and a string that
/// `from_utf8` made from a text prints that text.
#[tactic(auto, using(crate::proofs::BmpTexts::printed_read, crate::proofs::BmpTexts::read_printed))]
pub fn printed_strings_are_read_back()
    ensures read { (us : List ℕ) → IsBmp us → bmp_from (chars (encode_utf8_all us)) ≡ Ok us }
    ensures printed { (text us : List ℕ) → IsUtf8 text → bmp_from (chars text) ≡ Ok us
        → encode_utf8_all us ≡ text }
{}
