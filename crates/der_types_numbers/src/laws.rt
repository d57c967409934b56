//! Laws about integers: a borrowed integer and its owned form agree.
//!
//! The functions that both forms have are documented in the same words.

ghost use Rattle.std.specs.Prelude.{◌≡◌};
ghost use Rattle.der_core.specs.Shapes.{contents};
ghost use Rattle.der_types_numbers.specs.Ints.{integer_lent, natural_lent};

use crate::int::Int;
use crate::int_ref::IntRef;
use crate::uint::Uint;
use crate::uint_ref::UintRef;
use der_core::ShapedValue;
use std::hash::Hash;

/// A borrowed integer and its owned form have the same content, are equal to the same integers, are
/// in the same order and are hashed alike. The function does nothing.
pub fn integer_forms_agree()
    ensures contents { (n : IntRef) → contents ⟦<IntRef<'static> as ShapedValue>⟧.content
        (⟦<IntRef<'static> as ShapedValue>⟧.value_plain n)
        ≡ contents ⟦<Int as ShapedValue>⟧.content
        (⟦<Int as ShapedValue>⟧.value_plain (integer_lent n)) }
    ensures equality { (m n : IntRef) → ⟦<IntRef<'static> as PartialEq>⟧.eq m n
        ≡ ⟦<Int as PartialEq>⟧.eq (integer_lent m) (integer_lent n) }
    ensures order { (m n : IntRef) → ⟦<IntRef<'static> as Ord>⟧.cmp m n
        ≡ ⟦<Int as Ord>⟧.cmp (integer_lent m) (integer_lent n) }
    ensures hash { (n : IntRef) → ⟦<IntRef<'static> as Hash>⟧.hash_input n
        ≡ ⟦<Int as Hash>⟧.hash_input (integer_lent n) }
{}

/// A borrowed integer that isn't negative and its owned form have the same content, are equal to
/// the same integers, are in the same order and are hashed alike. The function does nothing.
pub fn natural_forms_agree()
    ensures contents { (n : UintRef) → contents ⟦<UintRef<'static> as ShapedValue>⟧.content
        (⟦<UintRef<'static> as ShapedValue>⟧.value_plain n)
        ≡ contents ⟦<Uint as ShapedValue>⟧.content
        (⟦<Uint as ShapedValue>⟧.value_plain (natural_lent n)) }
    ensures equality { (m n : UintRef) → ⟦<UintRef<'static> as PartialEq>⟧.eq m n
        ≡ ⟦<Uint as PartialEq>⟧.eq (natural_lent m) (natural_lent n) }
    ensures order { (m n : UintRef) → ⟦<UintRef<'static> as Ord>⟧.cmp m n
        ≡ ⟦<Uint as Ord>⟧.cmp (natural_lent m) (natural_lent n) }
    ensures hash { (n : UintRef) → ⟦<UintRef<'static> as Hash>⟧.hash_input n
        ≡ ⟦<Uint as Hash>⟧.hash_input (natural_lent n) }
{}
