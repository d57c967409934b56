//! Laws about shapes, bodies of indefinite length and the order of encodings, for every shape; and
//! laws about encoding, for every type whose values are in range.
//!
//! Each law is the contract of a function that does nothing.

ghost use Rattle.std.specs.Prelude.{◌≡◌, ◌↔◌, ℕ, List, [], ◌++◌, true, Ok};
ghost use Rattle.std.specs.Ordering.{nat_cmp, ordering_then, ordering_reverse};
ghost use Rattle.std.specs.declared.cmp.Ordering.{Ordering};
ghost use Rattle.std.specs.declared.cmp.Ordering.TheVariants.{Less, Equal};
ghost use Rattle.der_core_coding.specs.CoreHead.Heads.{length_octets};
ghost use Rattle.der_core_coding.specs.CoreHead.Grammar.{read};
ghost use Rattle.der_core_coding.specs.CoreHead.Shapes.{Shape, Value, IsValid, octets_of};
ghost use Rattle.der_core_coding.specs.CoreHead.Spelling.{is_apart, is_element, are_enough};
ghost use Rattle.der_core_coding.specs.CoreHead.Writing.{Out, write};
ghost use Rattle.der_core.specs.Equality.{IsOfValues};
ghost use Rattle.der_core.specs.Orders.{octets_cmp, encodings_cmp};

pub use der_core_coding::core_head::laws::{
    apart_is_lawful, ber_headers_are_spelled, bodies_end_themselves, bounds_are_those_of_shapes,
    headers_are_spelled, headers_stay, more_levels_read_alike, new_values_hold_large_arcs,
    read_is_spelled, spelled_is_read, valid_is_written, values_begin_as_stated,
    wider_bounds_keep_encodings, written_is_read, written_is_spelled,
};
pub use der_core_coding::core_octets::laws::scanned_in_one_way;
use der_core_coding::core_values::{Element, InRange, Member};

/// If a value whose type is in range was encoded, it is valid, and the bytes decode to it.
///
/// So the results of `to_der`, `encode_to_slice` and `encode_to_vec` are the encoding of the value.
pub fn in_range_is_spelled<T: InRange + Element + Member>(value: &T)
    ensures valid { (o z : Out) → write T.shape (T.written value.now) o ≡ Ok z
        → IsValid T.shape (T.written value.now) }
    ensures read { (room : ℕ) (o z : Out) (r : List ℕ) → are_enough T.shape room ≡ true
        → o.written ≡ []
        → write T.shape (T.written value.now) o ≡ Ok z → read T.shape room (z.written ++ r)
        ≡ Ok (T.written value.now, r) }
{
    value.in_range();
    written_is_spelled();
    written_is_read();
}

/// The order of encodings is total: it is `Equal` exactly if the bytes are the same, it is
/// antisymmetric, and it is transitive.
pub fn order_is_total()
    ensures equal { (a b : List ℕ) → (octets_cmp a b ≡ Equal) ↔ (a ≡ b) }
    ensures reversed { (a b : List ℕ) → octets_cmp a b ≡ ordering_reverse (octets_cmp b a) }
    ensures goes_on { (a b c : List ℕ) → octets_cmp a b ≡ Less → octets_cmp b c ≡ Less
        → octets_cmp a c ≡ Less }
    ensures same { (a b c : List ℕ) → octets_cmp a b ≡ Equal → octets_cmp a c ≡ octets_cmp b c }
{}

/// The encodings of lengths are ordered as the lengths are (X.690 8.1.3).
pub fn lengths_in_order()
    ensures { (m n : ℕ) → octets_cmp (length_octets m) (length_octets n) ≡ nat_cmp m n }
{}

/// No encoding is a proper prefix of another, so what follows two encodings matters only if they
/// are the same.
pub fn first_encoding_decides()
    ensures { (s : Shape) (v w : Value s) (r t : List ℕ) → is_element s ≡ true → IsValid s v
        → IsValid s w
        → octets_cmp (octets_of s v ++ r) (octets_of s w ++ t) ≡ ordering_then (encodings_cmp s v w)
        (octets_cmp r t) }
{}

/// The order of two valid values of a shape is `Equal` exactly if the values are equal.
pub fn equal_values_alone()
    ensures { (s : Shape) (v w : Value s) → is_element s ≡ true → is_apart s ≡ true
        → IsValid s v → IsValid s w → (encodings_cmp s v w ≡ Equal) ↔ (v ≡ w) }
{}

/// If `==` of a type compares abstract values, two valid values are equal exactly if their abstract
/// values are.
pub fn equality_of_values<T: Element + Member + PartialEq>()
    ensures { IsOfValues T.eq T.plain (octets_of T.shape)
        → (x y : T) → IsValid T.shape (T.plain x) → IsValid T.shape (T.plain y)
        → (T.eq x y ≡ true) ↔ (T.plain x ≡ T.plain y) }
{}
