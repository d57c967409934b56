//! Laws about sets.
//!
//! Each law is the contract of a function that does nothing.

ghost use Rattle.std.specs.Prelude.{◌≡◌, ℕ, ◌<◌, List, length, slice_get, IsPermutation};
ghost use Rattle.der_core.specs.Shapes.{Shape, Value, nested, many, body_octets};
ghost use Rattle.der_core.specs.Grammar.{plain_list, plain_option};
ghost use Rattle.der_core.specs.Orders.{contents_cmp};
ghost use Rattle.der_types_sets.specs.Lent.{Lent, IsLent, members_lent};
ghost use Rattle.der_core.specs.Placed.{AllValid};
ghost use Rattle.der_types_sets.specs.Sets.{Ascends};

use der_core::Shaped;

/// The encoding of a set doesn't depend on the order in which its members were inserted: two lists
/// in ascending order with the same members have the same concatenated encodings (X.690 11.6).
#[tactic(auto, using(crate::proofs::Arranged::one_arrangement), unfolding(crate::specs::Opened::body_octets))]
pub fn order_of_insertions()
    ensures { (s : Shape) (v w : List (Value s)) → AllValid s (λ x. x) v → AllValid s (λ x. x) w
        → Ascends s (λ x. x) v → Ascends s (λ x. x) w → IsPermutation v w
        → body_octets (many s) v ≡ body_octets (many s) w }
{}

/// A borrowed set and an owned one with the same members have the same content and order, and
/// return the same members. These are the members that `owned_to_ref` and `ref_to_owned` keep.
#[tactic(auto, using(crate::proofs::LentOrders::lent_content, crate::proofs::LentOrders::same_number, crate::proofs::LentOrders::same_member))]
pub fn borrowed_and_owned_agree<T: Shaped>()
    // If the set borrows bytes, they are the content of the owned set.
    ensures contents { (lent : Lent T) (set : List T) → IsLent T.shape T.written lent
        → members_lent T.shape T.written lent ≡ plain_list T.written set
        → 0 < length lent.octets → lent.octets
        ≡ body_octets (many T.shape) (plain_list T.written set) }
    ensures order { (lent other : Lent T) (set rest : List T) → members_lent T.shape T.written lent
        ≡ plain_list T.written set → members_lent T.shape T.written other
        ≡ plain_list T.written rest
        → contents_cmp (nested (many T.shape)) (members_lent T.shape T.written lent)
        (members_lent T.shape T.written other) ≡ contents_cmp (nested (many T.shape))
        (plain_list T.written set) (plain_list T.written rest) }
    ensures number { (lent : Lent T) (set : List T) → members_lent T.shape T.plain lent
        ≡ plain_list T.plain set → length (members_lent T.shape T.plain lent) ≡ length set }
    ensures member { (lent : Lent T) (set : List T) (i : ℕ) → members_lent T.shape T.plain lent
        ≡ plain_list T.plain set → slice_get (members_lent T.shape T.plain lent) i
        ≡ plain_option T.plain (slice_get set i) }
{}
