//! Laws about object identifiers. Each function does nothing, and its contract is the law.

ghost use Rattle.std.specs.Prelude.{◌≡◌, ◌≢◌, ◌↔◌, ℕ, ◌+◌, ◌*◌, ◌<◌, ◌≤◌, ◌++◌, ◌∷◌, [], List};
ghost use Rattle.std.specs.Prelude.{length, slice_index, count_by, nat_lt, IsTrue, Option, Some};
ghost use Rattle.std.specs.Prelude.{Result, Ok, Err};
ghost use Rattle.const_oid.specs.declared.error.Error.{Error};
ghost use Rattle.const_oid.specs.declared.error.Error.TheVariants as errors;
ghost use Rattle.const_oid.specs.Bound.{Bound};
ghost use Rattle.const_oid.specs.IdentifierOctets.{identifier_octets, IsIdentifier};
ghost use Rattle.const_oid.specs.IdentifierOctets.{read_identifier};
ghost use Rattle.const_oid.specs.OctetFaults.{IsOctetsFault};
ghost use Rattle.const_oid.specs.ArcLists.{gather};
ghost use Rattle.const_oid.specs.TextReading.{read_text};
ghost use Rattle.const_oid.specs.DottedText.{dotted};
ghost use Rattle.const_oid.specs.Family.{child_of, parent_of};
ghost use Rattle.const_oid.specs.Orders.{owned_cmp};
ghost use Rattle.const_oid.specs.Comparing.{owned_eq, borrowed_cmp, IsAtMost};
ghost use Rattle.std.specs.declared.cmp.Ordering.TheVariants.{Less, Equal};
ghost use Rattle.std.specs.Ordering.{nat_cmp};
ghost use Rattle.std.specs.Hash as fed;
ghost use Rattle.const_oid.specs.References.{reference_arcs};
ghost use Rattle.const_oid.specs.ArcFaults.{IsArcsFault};
ghost use Rattle.const_oid.specs.TextFaults.{IsDottedText, IsTextFault};
ghost use Rattle.std.specs.List.{AllByRecursion};

use crate::ObjectIdentifierRef;
use std::cmp::Ordering;

/// Accepted bytes are the encoding of an identifier within the bound and the capacity.
pub fn read_octets_are_spelled()
    ensures { (bound capacity : ℕ) (w arcs : List ℕ) → ((i : ℕ) → slice_index w i < 256)
        → read_identifier bound capacity w ≡ Ok arcs
        → IsIdentifier bound arcs × (length w ≤ capacity) × (w ≡ identifier_octets arcs) }
{}

/// The encoding of an identifier within the capacity decodes to that identifier.
#[tactic(auto, using(crate::proofs::IdentifierLaws::identifier_again))]
pub fn spelled_octets_are_read()
    ensures { (bound capacity : ℕ) (arcs : List ℕ) → IsIdentifier bound arcs
        → length (identifier_octets arcs) ≤ capacity
        → read_identifier bound capacity (identifier_octets arcs) ≡ Ok arcs }
{}

/// If bytes are rejected, they have the error that is returned.
#[tactic(auto, using(crate::proofs::IdentifierLaws::fault_found))]
pub fn answered_faults_are_there()
    ensures { (bound capacity : ℕ) (w : List ℕ) (e : Error) → ((i : ℕ) → slice_index w i < 256)
        → read_identifier bound capacity w ≡ Err e
        → IsOctetsFault bound capacity w e }
{}

/// If bytes have an error, they are rejected with that error.
#[tactic(auto, using(crate::proofs::OctetFaultLaws::fault_answered))]
pub fn faults_are_answered()
    ensures { (bound capacity : ℕ) (w : List ℕ) (e : Error) → IsOctetsFault bound capacity w e
        → read_identifier bound capacity w ≡ Err e }
{}

/// Two identifiers with the same encoding have the same arcs.
#[tactic(auto, using(crate::proofs::PrefixLaws::same_octets))]
pub fn octets_identify()
    ensures { (bound : ℕ) (a b : List ℕ) → IsIdentifier bound a → IsIdentifier bound b
        → identifier_octets a ≡ identifier_octets b → a ≡ b }
{}

/// If the encoding of one identifier begins with that of another, its arcs begin with the other's
/// arcs.
#[tactic(auto, using(crate::proofs::PrefixLaws::octets_prefix))]
pub fn octets_tell_prefixes()
    ensures { (bound : ℕ) (a b r : List ℕ) → IsIdentifier bound a → IsIdentifier bound b
        → identifier_octets a ≡ identifier_octets b ++ r
        → (rest : List ℕ) × (a ≡ b ++ rest) }
{}

/// Every second arc is below the bound of arcs, as the laws about texts require.
#[tactic(auto, unfolding(crate::specs::Bound::Bound))]
pub fn second_arcs_are_below_the_bound()
    ensures { 40 ≤ Bound }
{}

/// The dotted text of an identifier within the capacity parses to that identifier.
#[tactic(auto, using(crate::proofs::TextFaultLaws::dotted_read))]
pub fn printed_texts_are_read()
    ensures { (bound capacity : ℕ) (arcs : List ℕ) → 40 ≤ bound → IsIdentifier bound arcs
        → length (identifier_octets arcs) ≤ capacity
        → read_text bound capacity (dotted arcs) ≡ Ok arcs }
{}

/// Parsing the dotted text of some arcs gives the same result as collecting the arcs one after
/// another.
#[tactic(auto, using(crate::proofs::TextFaultLaws::dotted_gathered))]
pub fn texts_are_judged_as_arcs()
    ensures { (bound capacity : ℕ) (arcs : List ℕ) → AllByRecursion (λ n. n < bound) arcs
        → 0 < length arcs
        → read_text bound capacity (dotted arcs) ≡ gather capacity [] arcs }
{}

/// Two identifiers with the same dotted text have the same arcs.
#[tactic(auto, using(crate::proofs::TextFaultLaws::same_text))]
pub fn texts_identify()
    ensures { (bound : ℕ) (a b : List ℕ) → 40 ≤ bound → IsIdentifier bound a → IsIdentifier bound b
        → dotted a ≡ dotted b → a ≡ b }
{}

/// Bytes that are accepted under one bound of arcs mean the same arcs under a larger one.
#[tactic(auto, using(crate::proofs::BoundedLaws::wider_read))]
pub fn wider_bounds_read_the_same()
    ensures { (small large capacity : ℕ) (w arcs : List ℕ) → small ≤ large
        → ((i : ℕ) → slice_index w i < 256) → read_identifier small capacity w ≡ Ok arcs
        → read_identifier large capacity w ≡ Ok arcs }
{}

/// The dotted text of an identifier has at most four bytes for each byte of its encoding.
#[tactic(auto, using(crate::proofs::PrintLengthLaws::dotted_short))]
pub fn identifiers_print_in_few_octets()
    ensures { (bound : ℕ) (arcs : List ℕ) → IsIdentifier bound arcs
        → length (dotted arcs) ≤ 4 * length (identifier_octets arcs) }
{}

/// The parent of a child of an identifier is the identifier.
#[tactic(auto, using(crate::proofs::FamilyLaws::parent_of_child))]
pub fn parents_undo_children()
    ensures { (bound capacity : ℕ) (arcs child : List ℕ) (a : ℕ) → IsIdentifier bound arcs
        → child_of capacity arcs a ≡ Ok child → parent_of child ≡ Some arcs }
{}

/// Appending the last arc of an identifier to its parent gives the identifier.
#[tactic(auto, using(crate::proofs::FamilyLaws::child_of_parent))]
pub fn children_undo_parents()
    ensures { (capacity : ℕ) (arcs front : List ℕ) → length (identifier_octets arcs) ≤ capacity
        → parent_of arcs ≡ Some front
        → (last : ℕ) × (arcs ≡ front ++ last ∷ []) × (child_of capacity front last ≡ Ok arcs) }
{}

/// Two identifiers are equal exactly if their encodings are equal.
#[tactic(auto, using(crate::proofs::OrderLaws::equal_octets))]
pub fn equal_where_octets_are()
    ensures { (a b : List ℕ) → IsTrue (owned_eq a b) ↔ (identifier_octets a ≡ identifier_octets b) }
{}

/// Two identifiers are equal exactly if their arcs are equal.
#[tactic(auto, using(crate::proofs::OrderLaws::equal_arcs))]
pub fn equal_where_arcs_are()
    ensures { (bound : ℕ) (a b : List ℕ) → IsIdentifier bound a → IsIdentifier bound b
        → (IsTrue (owned_eq a b) ↔ (a ≡ b)) }
{}

/// Two identifiers are equal exactly if their dotted texts are equal.
#[tactic(auto, using(crate::proofs::OrderLaws::equal_texts))]
pub fn equal_where_texts_are()
    ensures { (bound : ℕ) (a b : List ℕ) → 40 ≤ bound → IsIdentifier bound a → IsIdentifier bound b
        → (IsTrue (owned_eq a b) ↔ (dotted a ≡ dotted b)) }
{}

/// The owned order is `Equal` exactly if the identifiers are equal.
#[tactic(auto, using(crate::proofs::OrderLaws::owned_ties))]
pub fn owned_order_ties_equals()
    ensures { (a b : List ℕ) → (owned_cmp a b ≡ Equal) ↔ IsTrue (owned_eq a b) }
{}

/// The borrowed order is `Equal` exactly if the identifiers are equal.
#[tactic(auto, using(crate::proofs::OrderLaws::borrowed_ties))]
pub fn borrowed_order_ties_equals()
    ensures { (a b : List ℕ) → (borrowed_cmp a b ≡ Equal) ↔ IsTrue (owned_eq a b) }
{}

/// Equal identifiers feed the same bytes to a hasher.
#[tactic(auto, using(crate::proofs::OrderLaws::equal_hashes))]
pub fn equal_identifiers_hash_equally()
    ensures { (a b : List ℕ) → IsTrue (owned_eq a b)
        → fed.slice fed.u8 (identifier_octets a) ≡ fed.slice fed.u8 (identifier_octets b) }
{}

/// In the borrowed order, an identifier between two that begin with the same arcs begins with these
/// arcs, too.
#[tactic(auto, using(crate::proofs::OrderLaws::unbroken))]
pub fn subtrees_are_unbroken()
    ensures { (bound : ℕ) (front a b c : List ℕ) → IsIdentifier bound front → IsIdentifier bound b
        → IsAtMost borrowed_cmp (front ++ a) b → IsAtMost borrowed_cmp b (front ++ c)
        → (rest : List ℕ) × (b ≡ front ++ rest) }
{}

/// In the owned order, an identifier comes before every other one that begins with its arcs.
#[tactic(auto, using(crate::proofs::OrderLaws::ancestor_first))]
pub fn ancestors_stand_first()
    ensures { (bound : ℕ) (arcs : List ℕ) (a : ℕ) (rest : List ℕ) → IsIdentifier bound arcs
        → owned_cmp arcs (arcs ++ a ∷ rest) ≡ Less }
{}

/// In the owned order, the children of one identifier are ordered by their last arc.
#[tactic(auto, using(crate::proofs::OrderLaws::children_by_arc))]
pub fn siblings_stand_by_their_last_arc()
    ensures { (bound : ℕ) (front : List ℕ) (m n : ℕ) → IsIdentifier bound front
        → owned_cmp (front ++ m ∷ []) (front ++ n ∷ []) ≡ nat_cmp m n }
{}

/// The number of arcs is one more than the number of bytes below `0x80`.
#[tactic(auto, using(crate::proofs::OrderLaws::arcs_counted))]
pub fn octets_without_a_mark_count_arcs()
    ensures { (bound : ℕ) (arcs : List ℕ) → IsIdentifier bound arcs
        → length arcs ≡ count_by (λ o. nat_lt o 128) (identifier_octets arcs) + 1 }
{}

/// An identifier begins with its own arcs. If one begins with the arcs of another, it begins with
/// everything that the other begins with.
#[tactic(auto, using(crate::proofs::BoundedLaws::begins_itself, crate::proofs::BoundedLaws::begins_chained))]
pub fn beginnings_chain()
    ensures itself { (a : List ℕ) → (rest : List ℕ) × (a ≡ a ++ rest) }
    ensures chained { (a b c : List ℕ) → (rest : List ℕ) × (a ≡ b ++ rest)
        → (rest : List ℕ) × (b ≡ c ++ rest) → (rest : List ℕ) × (a ≡ c ++ rest) }
{}

/// Bytes that are accepted only under the larger bound contain an arc that isn't below the smaller
/// bound.
#[tactic(auto, using(crate::proofs::BoundedLaws::newly_read))]
pub fn newly_read_octets_hold_a_large_arc()
    ensures { (small large capacity : ℕ) (w arcs : List ℕ) (e : Error)
        → ((i : ℕ) → slice_index w i < 256) → read_identifier large capacity w ≡ Ok arcs
        → read_identifier small capacity w ≡ Err e
        → (i : ℕ) × (i < length arcs) × (small ≤ slice_index arcs i) }
{}

/// A text that is accepted under one bound of arcs means the same arcs under a larger one. A text
/// that is accepted only under the larger bound has an arc that isn't below the smaller bound. Both
/// bounds allow every second arc.
#[tactic(auto, using(crate::proofs::BoundedLaws::wider_text, crate::proofs::BoundedLaws::newly_read_text))]
pub fn wider_bounds_read_texts_alike()
    ensures same { (small large capacity : ℕ) (w arcs : List ℕ) → 40 ≤ large → small ≤ large
        → read_text small capacity w ≡ Ok arcs
        → read_text large capacity w ≡ Ok arcs }
    ensures new { (small large capacity : ℕ) (w arcs : List ℕ) (e : Error) → 40 ≤ small
        → read_text large capacity w ≡ Ok arcs
        → read_text small capacity w ≡ Err e
        → (i : ℕ) × (i < length arcs) × (small ≤ slice_index arcs i) }
{}

/// Compares two borrowed identifiers by their bytes, as lists.
pub fn compare_borrowed(a: &ObjectIdentifierRef<'_>, b: &ObjectIdentifierRef<'_>) -> Ordering
    ensures { result ≡ borrowed_cmp (reference_arcs a.now) (reference_arcs b.now) }
{
    a.cmp(b)
}

/// Returns whether two borrowed identifiers have the same arcs.
pub fn are_equal_borrowed(a: &ObjectIdentifierRef<'_>, b: &ObjectIdentifierRef<'_>) -> bool
    ensures { IsTrue result ↔ (reference_arcs a.now ≡ reference_arcs b.now) }
{
    a == b
}

/// A text that is accepted is a dotted text of the result, which is an identifier within the bound
/// and the capacity.
pub fn read_texts_are_spelled()
    ensures { (bound capacity : ℕ) (w arcs : List ℕ) → read_text bound capacity w ≡ Ok arcs
        → IsDottedText arcs w × IsIdentifier bound arcs
        × (length (identifier_octets arcs) ≤ capacity) }
{}

/// A dotted text of an identifier within the capacity parses to that identifier. The bound allows
/// every second arc.
pub fn spelled_texts_are_read()
    ensures { (bound capacity : ℕ) (w arcs : List ℕ) → 40 ≤ bound → IsDottedText arcs w
        → IsIdentifier bound arcs → length (identifier_octets arcs) ≤ capacity
        → read_text bound capacity w ≡ Ok arcs }
{}

/// The dotted text of some arcs is a dotted text of these arcs.
#[tactic(auto, using(crate::proofs::TextFaultLaws::dotted_text))]
pub fn printed_texts_spell_their_arcs()
    ensures { (arcs : List ℕ) → IsDottedText arcs (dotted arcs) }
{}

/// Parsing a dotted text of arcs below the bound gives the same result as collecting the arcs one
/// after another.
#[tactic(auto, using(crate::proofs::TextFaultLaws::text_gathered))]
pub fn spelled_texts_are_judged_as_arcs()
    ensures { (bound capacity : ℕ) (w arcs : List ℕ) → IsDottedText arcs w
        → AllByRecursion (λ n. n < bound) arcs → 0 < length arcs
        → read_text bound capacity w ≡ gather capacity [] arcs }
{}

/// If a text is rejected, it has the error that is returned.
#[tactic(auto, using(crate::proofs::TextFaultLaws::text_fault_found))]
pub fn answered_text_faults_are_there()
    ensures { (bound capacity : ℕ) (w : List ℕ) (e : Error) → read_text bound capacity w ≡ Err e
        → IsTextFault bound capacity w e }
{}

/// If a text has an error, it is rejected with that error.
#[tactic(auto, using(crate::proofs::TextFaultLaws::text_fault_answered))]
pub fn text_faults_are_answered()
    ensures { (bound capacity : ℕ) (w : List ℕ) (e : Error) → IsTextFault bound capacity w e
        → read_text bound capacity w ≡ Err e }
{}

/// Collecting arcs below the bound gives these arcs, which are an identifier within the capacity.
pub fn gathered_arcs_are_identifiers()
    ensures { (bound capacity : ℕ) (arcs oid : List ℕ) → AllByRecursion (λ n. n < bound) arcs
        → gather capacity [] arcs ≡ Ok oid
        → (oid ≡ arcs) × IsIdentifier bound arcs × (length (identifier_octets arcs) ≤ capacity) }
{}

/// Collecting the arcs of an identifier within the capacity gives the identifier.
#[tactic(auto, using(crate::proofs::ArcFaultLaws::identifier_gathered))]
pub fn identifiers_are_gathered()
    ensures { (bound capacity : ℕ) (arcs : List ℕ) → IsIdentifier bound arcs
        → length (identifier_octets arcs) ≤ capacity → gather capacity [] arcs ≡ Ok arcs }
{}

/// If arcs are rejected, they have the error that is returned.
#[tactic(auto, using(crate::proofs::ArcFaultLaws::arc_fault_found))]
pub fn answered_arc_faults_are_there()
    ensures { (capacity : ℕ) (arcs : List ℕ) (e : Error) → gather capacity [] arcs ≡ Err e
        → IsArcsFault capacity arcs e }
{}

/// If arcs have an error, they are rejected with that error.
#[tactic(auto, using(crate::proofs::ArcFaultLaws::arc_fault_answered))]
pub fn arc_faults_are_answered()
    ensures { (capacity : ℕ) (arcs : List ℕ) (e : Error) → IsArcsFault capacity arcs e
        → gather capacity [] arcs ≡ Err e }
{}

/// `Overflow` is never returned.
#[tactic(auto, using(crate::proofs::OverflowLaws::octets_not_overflow, crate::proofs::OverflowLaws::text_not_overflow, crate::proofs::OverflowLaws::arcs_not_overflow))]
pub fn overflow_is_never_answered()
    ensures octets { (bound capacity : ℕ) (w : List ℕ)
        → read_identifier bound capacity w ≢ Err errors.Overflow }
    ensures text { (bound capacity : ℕ) (w : List ℕ)
        → read_text bound capacity w ≢ Err errors.Overflow }
    ensures arcs { (capacity : ℕ) (arcs : List ℕ) → gather capacity [] arcs ≢ Err errors.Overflow }
{}
