//! Laws about names and their string form, for every bound on the arcs of OIDs.
//!
//! Each law is the contract of a function that does nothing.

ghost use Rattle.std.specs.Prelude.{◌≡◌, ◌≤◌, ◌<◌, ◌↔◌, ℕ, List, [], Ok, Err, map};
ghost use Rattle.std.specs.Prelude.{IsUtf8, chars};
ghost use Rattle.der_core.specs.Oid.Bound.{Bound};
ghost use Rattle.der_core.specs.Bounds.{AreBelow, HoldsLarge};
ghost use Rattle.der_core.specs.ErrorTypes.ErrorKind.{ErrorKind};
ghost use Rattle.der_core.specs.Grammar.{read_whole};
ghost use Rattle.der_core.specs.Octets.{IsOctets};
ghost use Rattle.der_core.specs.Shapes.{IsValid, Spells};
ghost use Rattle.der_core.specs.Equality.{IsOfValues};
ghost use Rattle.x509_cert_names.specs.Names.{PlainName, all_of, name, name_octets, type_of};
ghost use Rattle.x509_cert_name_texts.specs.Escapes.{IsString, StandsFor, escaped};
ghost use Rattle.x509_cert_names.specs.NameTexts.{ReadsName};
ghost use Rattle.x509_cert_names.specs.PlainTexts.{SpellsName, name_text, IsAsRead, IsReadBack};
ghost use Rattle.x509_cert_names.specs.Views.{name_plain};

use crate::name::Name;
use std::cmp::PartialEq;

/// The encoding of a name under one bound on arcs is its encoding under a smaller bound exactly if
/// the arcs of its attribute types are below the smaller bound. Under a larger bound it decodes to
/// the same name.
pub fn wider_bounds_keep_names()
    ensures exact { (small large : ℕ) (n : PlainName) (w : List ℕ) → 40 ≤ small → small ≤ large
        → Spells (name small) n w
        ↔ (Spells (name large) n w × AreBelow small (map type_of (all_of n))) }
    ensures whole { (small large : ℕ) (n : PlainName) (w : List ℕ) → small ≤ large → IsOctets w
        → read_whole (name small) w ≡ Ok (n, []) → read_whole (name large) w ≡ Ok (n, []) }
{}

/// A text that parses to a name under one bound on arcs parses to the same name under a larger
/// bound. The name has an encoding under both bounds or under neither.
///
/// The smaller bound must exceed 19200300, which is the greatest arc in the OIDs of the types that
/// have a name.
pub fn wider_bounds_read_name_texts_alike()
    ensures same { (small large : ℕ) (text : List ℕ) (n : PlainName) → 19200300 < small
        → small ≤ large → SpellsName small text n → SpellsName large text n }
    ensures valid { (small large : ℕ) (text : List ℕ) (n : PlainName) → 19200300 < small
        → small ≤ large → SpellsName small text n
        → (IsValid (name small) n ↔ IsValid (name large) n) }
{}

/// A text that parses to a name under a larger bound on arcs parses to it under a smaller bound
/// exactly if the arcs of its attribute types are below the smaller bound.
///
/// So a text that is accepted only under the larger bound contains a type with an arc that isn't
/// below the smaller one.
pub fn newly_read_name_texts_hold_a_large_arc()
    ensures exact { (small large : ℕ) (text : List ℕ) (n : PlainName) → 19200300 < small
        → small ≤ large → SpellsName small text n
        ↔ (SpellsName large text n × AreBelow small (map type_of (all_of n))) }
    ensures new { (small large : ℕ) (text : List ℕ) (n : PlainName) → 40 ≤ small → small ≤ large
        → SpellsName large text n → (SpellsName small text n → ⊥)
        → HoldsLarge small (map type_of (all_of n)) }
{}

/// A text parses to at most one name, and a text that parses to a name isn't rejected.
pub fn texts_are_read_as_one_name()
    ensures one { (bound : ℕ) (text : List ℕ) (n m : PlainName) → SpellsName bound text n
        → SpellsName bound text m → n ≡ m }
    ensures not_refused { (bound : ℕ) (text : List ℕ) (n : PlainName) (e : ErrorKind)
        → SpellsName bound text n → ReadsName bound text (Err e) → ⊥ }
{}

/// The string form of a value represents the bytes of at most one value. The string form that is
/// printed for a text represents that text, and keeps the restrictions of `string` in RFC 4514 3.
pub fn printed_values_are_strings()
    ensures one { (text v w : List ℕ) → StandsFor text v → StandsFor text w → v ≡ w }
    ensures stands { (w : List ℕ) → IsUtf8 w → StandsFor (escaped (chars w)) w }
    ensures string { (w : List ℕ) → IsString (escaped (chars w)) }
{}

/// The printed form of a name parses again.
///
/// An attribute that is printed as a text parses to that text with the tag for its type, and any
/// other attribute parses to itself. So a name whose attributes are as the parser builds them
/// parses to itself.
///
/// The law doesn't cover names with an empty RDN, because an empty RDN isn't printed.
pub fn printed_names_are_read()
    ensures alike { (bound : ℕ) (n m : PlainName) → 40 ≤ bound → IsValid (name bound) m
        → IsReadBack n m → SpellsName bound (name_text n) m }
    ensures itself { (bound : ℕ) (n : PlainName) → 40 ≤ bound → IsValid (name bound) n
        → IsAsRead n → SpellsName bound (name_text n) n }
{}

/// If the attributes of two names are as parsing makes them, the names are equal if their texts
/// are.
pub fn texts_identify_names()
    ensures { (bound : ℕ) (n m : PlainName) → 40 ≤ bound → IsValid (name bound) n
        → IsValid (name bound) m → IsAsRead n → IsAsRead m → name_text n ≡ name_text m → n ≡ m }
{}

/// `==` of names is of their abstract values.
#[tactic(auto, using(der_core::proofs::ValueEquality::all_alike, crate::proofs::SameOctets::names))]
pub fn equality_of_names_is_of_values()
    ensures { IsOfValues ⟦<Name as PartialEq>⟧.eq name_plain (name_octets Bound) }
{}
