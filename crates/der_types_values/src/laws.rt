//! Laws about octet strings and bit strings: a borrowed value and its owned form agree.
//!
//! The functions that both forms have are documented in the same words.

ghost use Rattle.std.specs.Prelude.{◌≡◌};
ghost use Rattle.der_core.specs.Shapes.{contents};
ghost use Rattle.der_types_values.specs.BitStrings.{bits_lent};
ghost use Rattle.der_types_values.specs.OctetStrings.{octets_lent};

use crate::bit_string::BitString;
use crate::bit_string_ref::BitStringRef;
use crate::octet_string::OctetString;
use crate::octet_string_ref::OctetStringRef;
use der_core::ShapedValue;
use std::hash::Hash;

/// A borrowed octet string and its owned form have the same content, are equal to the same octet
/// strings, are in the same order and are hashed alike. The function does nothing.
pub fn octet_forms_agree()
    ensures contents { (o : OctetStringRef)
        → contents ⟦<OctetStringRef<'static> as ShapedValue>⟧.content
        (⟦<OctetStringRef<'static> as ShapedValue>⟧.value_plain o)
        ≡ contents ⟦<OctetString as ShapedValue>⟧.content
        (⟦<OctetString as ShapedValue>⟧.value_plain (octets_lent o)) }
    ensures equality { (a b : OctetStringRef) → ⟦<OctetStringRef<'static> as PartialEq>⟧.eq a b
        ≡ ⟦<OctetString as PartialEq>⟧.eq (octets_lent a) (octets_lent b) }
    ensures order { (a b : OctetStringRef) → ⟦<OctetStringRef<'static> as Ord>⟧.cmp a b
        ≡ ⟦<OctetString as Ord>⟧.cmp (octets_lent a) (octets_lent b) }
    ensures hash { (o : OctetStringRef) → ⟦<OctetStringRef<'static> as Hash>⟧.hash_input o
        ≡ ⟦<OctetString as Hash>⟧.hash_input (octets_lent o) }
{}

/// A borrowed bit string and its owned form have the same content, are equal to the same bit
/// strings, are in the same order and are hashed alike. The function does nothing.
pub fn bit_forms_agree()
    ensures contents { (b : BitStringRef)
        → contents ⟦<BitStringRef<'static> as ShapedValue>⟧.content
        (⟦<BitStringRef<'static> as ShapedValue>⟧.value_plain b)
        ≡ contents ⟦<BitString as ShapedValue>⟧.content
        (⟦<BitString as ShapedValue>⟧.value_plain (bits_lent b)) }
    ensures equality { (a b : BitStringRef) → ⟦<BitStringRef<'static> as PartialEq>⟧.eq a b
        ≡ ⟦<BitString as PartialEq>⟧.eq (bits_lent a) (bits_lent b) }
    ensures order { (a b : BitStringRef) → ⟦<BitStringRef<'static> as Ord>⟧.cmp a b
        ≡ ⟦<BitString as Ord>⟧.cmp (bits_lent a) (bits_lent b) }
    ensures hash { (b : BitStringRef) → ⟦<BitStringRef<'static> as Hash>⟧.hash_input b
        ≡ ⟦<BitString as Hash>⟧.hash_input (bits_lent b) }
{}
