//! A law about values of any type: a borrowed value and the owned one with the same tag and content
//! agree.
//!
//! The law is the contract of a function that does nothing. The functions that both forms have are
//! documented in the same words.

ghost use Rattle.std.specs.Prelude.{◌≡◌};
ghost use Rattle.der_types_text.specs.Der.Shapes.{octets_of};
ghost use Rattle.der_types_text.specs.Der.Orders.{encodings_cmp};
ghost use Rattle.der_types_any.specs.Anys.{any_lent};

use crate::any::Any;
use crate::any_ref::AnyRef;
use der_types_text::der::Shaped;
use std::cmp::{Ord, PartialEq};
use std::hash::Hash;

/// Both forms decode from the same bytes, because they have the same shape. They have the same
/// encoding, are equal to the same values, are hashed alike, and are ordered alike, by their own
/// order and by that of encodings.
pub fn any_forms_agree()
    ensures read { ⟦<AnyRef<'static> as Shaped>⟧.shape ≡ ⟦<Any as Shaped>⟧.shape }
    ensures encoding { (a : AnyRef) → octets_of ⟦<AnyRef<'static> as Shaped>⟧.shape
        (⟦<AnyRef<'static> as Shaped>⟧.plain a)
        ≡ octets_of ⟦<Any as Shaped>⟧.shape (⟦<Any as Shaped>⟧.plain (any_lent a)) }
    ensures equality { (a b : AnyRef) → ⟦<AnyRef<'static> as PartialEq>⟧.eq a b
        ≡ ⟦<Any as PartialEq>⟧.eq (any_lent a) (any_lent b) }
    ensures hash { (a : AnyRef) → ⟦<AnyRef<'static> as Hash>⟧.hash_input a
        ≡ ⟦<Any as Hash>⟧.hash_input (any_lent a) }
    ensures order { (a b : AnyRef) → ⟦<AnyRef<'static> as Ord>⟧.cmp a b
        ≡ ⟦<Any as Ord>⟧.cmp (any_lent a) (any_lent b) }
    ensures encodings { (a b : AnyRef) → encodings_cmp ⟦<AnyRef<'static> as Shaped>⟧.shape
        (⟦<AnyRef<'static> as Shaped>⟧.plain a) (⟦<AnyRef<'static> as Shaped>⟧.plain b)
        ≡ encodings_cmp ⟦<Any as Shaped>⟧.shape (⟦<Any as Shaped>⟧.plain (any_lent a))
        (⟦<Any as Shaped>⟧.plain (any_lent b)) }
{}
