//! Owned object identifiers.

ghost use Rattle.std.specs.Prelude.{◌≡◌, ℕ, ◌+◌, ◌-◌, ◌<◌, ◌≤◌, ◌↔◌, IsTrue, is_ok, true, nat_eq};
ghost use Rattle.std.specs.Prelude.{refl, Some, None, IsNone, IfSome, [], ◌∷◌, ◌++◌, nat_lt};
ghost use Rattle.std.specs.Prelude.{if◌then◌else◌, Err, length, slice_get, Result, Ok, IfOk, IfErr};
ghost use Rattle.std.specs.Prelude.{MatchResult, List};
ghost use Rattle.std.specs.Cmp.{po, on_equiv, on_per, partial_equiv_from_equiv};
ghost use Rattle.std.specs.Cmp.Lexicographic.{pointwise, nat_list_eq_equiv};
ghost use Rattle.const_oid.specs.Orders.{owned_cmp, owned_cmp_total, owned_cmp_ties};
ghost use Rattle.const_oid.specs.Comparing.{owned_eq};
ghost use Rattle.std.specs.Cmp.Rules.{hashing};
ghost use Rattle.std.specs.Hash as fed;
ghost use Rattle.std.proofs.Common.{rules};
ghost use Rattle.const_oid.specs.declared.error.Error.TheVariants as errors;
ghost use Rattle.const_oid.specs.Bound.{Bound, max_size};
ghost use Rattle.const_oid.specs.Digits.{digits};
ghost use Rattle.const_oid.specs.IdentifierOctets.{identifier_octets, IsIdentifier};
ghost use Rattle.const_oid.specs.IdentifierOctets.{read_identifier};
ghost use Rattle.const_oid.specs.Arcs.{arcs_of, SpellsIdentifier};
ghost use Rattle.const_oid.specs.OctetFaults.{IsOctetsFault};
ghost use Rattle.const_oid.specs.Family.{child_of, parent_of};

use crate::arcs::{self, Arcs};
use crate::encoder::Encoder;
use crate::error::{Arc, Error, Result};
use crate::object_identifier_ref::ObjectIdentifierRef;
use crate::packed::Packed;
use crate::{octets, text};
use std::cmp::Ordering;
use std::convert::AsSlice;
use std::hash::{Hash, Hasher};
use std::marker::Model;
use std::str::FromStr;

/// An object identifier (X.660) whose encoding has at most `MAX_SIZE` bytes, stored inline.
///
/// In contracts, its value is the list of its arcs.
#[derive(Clone, Copy)]
pub struct ObjectIdentifier<const MAX_SIZE: usize> {
    octets: Packed<MAX_SIZE>,
    // The number of arcs.
    arc_count: usize,
    // The position of the last arc, or 0 if there are two arcs.
    last_start: usize,
}

impl<const MAX_SIZE: usize> Model for ObjectIdentifier<MAX_SIZE> {
    ghost use Rattle.std.specs.Prelude.{ℕ, List, length};
    ghost use Rattle.std.proofs.Common.{sym};
    ghost use Rattle.const_oid.specs.Bound.{Bound, max_size};
    ghost use Rattle.const_oid.specs.IdentifierOctets.{identifier_octets};
    ghost use Rattle.const_oid.specs.Arcs.{arcs_of, SpellsIdentifier};
    ghost use Rattle.const_oid.specs.LastArcs.{place_of_last, KnowsLast};

    ghost Value = { List ℕ };

    ghost view = { λ oid. arcs_of oid.octets };

    ghost invariant = { λ oid. SpellsIdentifier Bound MAX_SIZE oid.octets
        × KnowsLast (arcs_of oid.octets) oid.arc_count oid.last_start };

    ghost inverse = { λ arcs. record {
      octets = identifier_octets arcs;
      arc_count = length arcs;
      last_start = place_of_last arcs;
    } };

    ghost inverse_ok = { λ oid h i. record {
      octets = sym h.0.spelled i;
      arc_count = sym h.1.counted i;
      last_start = sym h.1.placed i;
    } };
}

impl<const MAX_SIZE: usize> ObjectIdentifier<MAX_SIZE> {
    ghost use Rattle.std.specs.Prelude.{◌≢◌};
    ghost use Rattle.const_oid.specs.References.{reference_octets, reference_arcs, remaining_arcs};

    /// Decodes an object identifier from its content bytes, without tag and length (X.690 8.19).
    ///
    /// # Errors
    ///
    /// The first of these that applies:
    ///
    /// - `Empty`: there are no bytes.
    /// - `Length`: there are more than `MAX_SIZE` bytes.
    /// - `ArcInvalid`: the first byte is above 119, so the first arc would be above 2.
    /// - `Base128`: an arc begins with the byte `0x80`, or its last byte is missing.
    /// - `ArcTooBig`: an arc is 2^128 or more.
    ///
    /// If several arcs are wrong, the error is that of the first one.
    #[inline(always)]
    pub fn from_bytes_sized(ber_bytes: &[u8]) -> Result<Self>
        ensures read { result ≡ read_identifier Bound MAX_SIZE ber_bytes.now }
        ensures ok { IfOk result
            (λ arcs. IsIdentifier Bound arcs × (length ber_bytes.now ≤ MAX_SIZE)
            × (ber_bytes.now ≡ identifier_octets arcs)) }
        ensures spelled { (arcs : List ℕ) → ber_bytes.now ≡ identifier_octets arcs
            → IsIdentifier Bound arcs → length ber_bytes.now ≤ MAX_SIZE
            → result ≡ Ok arcs }
        ensures fault { IfErr result (λ e. IsOctetsFault Bound MAX_SIZE ber_bytes.now e) }
        ensures never_overflow { result ≢ Err errors.Overflow }
    {
        Self::read_octets(ber_bytes)
    }

    // Inlined, so that the identifier is moved less often.
    #[inline(always)]
    fn read_octets(ber_bytes: &[u8]) -> Result<Self>
        ensures read { result ≡ read_identifier Bound MAX_SIZE ber_bytes.now }
    {
        if ber_bytes.len() > MAX_SIZE {
            return Err(Error::Length);
        }
        let found = octets::find(ber_bytes)?;
        Ok(ObjectIdentifier {
            octets: Packed::from_slice(ber_bytes),
            arc_count: found.arc_count,
            last_start: found.last_start,
        })
    }

    /// Returns the identifier with one more arc.
    ///
    /// # Errors
    ///
    /// - `Length`: the encoding exceeds the capacity.
    pub fn push_arc(mut self, arc: Arc) -> Result<Self>
        ensures { result ≡ child_of MAX_SIZE self.entry arc }
    {
        self.push(arc)?;
        Ok(self)
    }

    /// Appends an arc. After an error the identifier is unchanged.
    ///
    /// # Errors
    ///
    /// - `Length`: the encoding exceeds the capacity.
    pub(crate) fn push(&mut self, arc: Arc) -> Result<()>
        ensures { MatchResult result
            (λ _. child_of MAX_SIZE self.old arc ≡ Ok self.new)
            (λ e. (child_of MAX_SIZE self.old arc ≡ Err e) × (self.new ≡ self.old)) }
    {
        let last_start = self.octets.push_arc(arc)?;
        self.last_start = last_start;
        self.arc_count += 1;
        Ok(())
    }

    /// Returns the identifier without its last arc, or `None` if there are only two arcs.
    pub fn parent(&self) -> Option<Self>
        ensures none { IsNone result ↔ (length self.now ≡ 2) }
        ensures some { IfSome result (λ front. (last : ℕ) × (self.now ≡ front ++ last ∷ [])) }
        ensures answer { result ≡ parent_of self.now }
    {
        self.parent_counted().0
    }

    /// Returns the parent as `parent` does, and the number of bytes whose high bit was tested to
    /// find it. That number is at most one more than the length of the longest arc.
    pub fn parent_counted(&self) -> (Option<Self>, u32)
        ensures none { IsNone result.0 ↔ (length self.now ≡ 2) }
        ensures some { IfSome result.0 (λ front. (last : ℕ) × (self.now ≡ front ++ last ∷ [])) }
        ensures answer { result.0 ≡ parent_of self.now }
        ensures tests { result.1 ≤ length (digits 128 (Bound - 1)) + 1 }
    {
        if self.last_start == 0 {
            return (None, 0);
        }
        let octets = self.octets.front(self.last_start);
        let (last_start, tests) = arcs::last_start(octets);
        let parent = ObjectIdentifier {
            octets: Packed::from_slice(octets),
            arc_count: self.arc_count - 1,
            last_start,
        };
        (Some(parent), tests)
    }

    /// Returns whether the arcs begin with those of `other`.
    pub fn starts_with<const SIZE: usize>(&self, other: ObjectIdentifier<SIZE>) -> bool
        ensures { IsTrue result ↔ ((rest : List ℕ) × (self.now ≡ other.entry ++ rest)) }
    {
        let (mine, others) = (self.as_bytes(), other.as_bytes());
        let last = others.len() - 1;
        if mine.len() <= last {
            return false;
        }
        // Most identifiers share their first arcs, so this byte is the likeliest to differ.
        if mine[last] != others[last] {
            return false;
        }
        mine.starts_with(others)
    }

    /// Returns the encoding (X.690 8.19).
    #[inline]
    pub fn as_bytes(&self) -> &[u8]
        ensures octets { result.now ≡ identifier_octets self.now }
        ensures identifier { IsIdentifier Bound self.now }
        ensures fits { length (identifier_octets self.now) ≤ MAX_SIZE }
    {
        self.octets.as_bytes()
    }

    /// Returns the borrowed form of the identifier.
    #[inline]
    pub fn as_oid_ref(&self) -> ObjectIdentifierRef<'_>
        ensures octets { reference_octets result ≡ identifier_octets self.now }
        ensures arcs { reference_arcs result ≡ self.now }
    {
        ObjectIdentifierRef::trusted(self.as_bytes())
    }

    /// Returns an iterator over the arcs, in their order.
    #[inline]
    pub fn arcs(&self) -> Arcs<'_>
        ensures { remaining_arcs result ≡ self.now }
    {
        self.as_oid_ref().arcs()
    }

    /// Returns the arc at this index, or `None` if there are fewer arcs.
    pub fn arc(&self, index: usize) -> Option<Arc>
        ensures { result ≡ slice_get self.now index }
    {
        self.as_oid_ref().arc(index)
    }

    /// Returns the number of arcs.
    pub fn len(&self) -> usize
        ensures { result ≡ length self.now }
    {
        self.arc_count
    }
}

impl<const MAX_SIZE: usize> PartialEq for ObjectIdentifier<MAX_SIZE> {
    ghost eq = { owned_eq };

    ghost laws = { on_per identifier_octets (partial_equiv_from_equiv nat_list_eq_equiv) };

    fn eq(&self, other: &Self) -> bool {
        self.octets == other.octets
    }
}

impl<const MAX_SIZE: usize> Eq for ObjectIdentifier<MAX_SIZE> {
    ghost laws = { on_equiv identifier_octets nat_list_eq_equiv };
}

/// Compares the lengths of the encodings, then the encodings. An identifier comes before each one
/// that begins with it, and identifiers that differ only in their last arc are ordered by that arc.
impl<const MAX_SIZE: usize> PartialOrd for ObjectIdentifier<MAX_SIZE> {
    ghost partial_cmp = { λ a b. Some (owned_cmp a b) };

    ghost laws = { po owned_cmp_total owned_cmp_ties };

    fn partial_cmp(&self, other: &Self) -> Option<Ordering> {
        Some(self.cmp(other))
    }
}

impl<const MAX_SIZE: usize> Ord for ObjectIdentifier<MAX_SIZE> {
    ghost cmp = { owned_cmp };

    ghost total = { owned_cmp_total };

    ghost matches_partial_cmp = { λ a b. refl };

    ghost matches_eq = { owned_cmp_ties };

    fn cmp(&self, other: &Self) -> Ordering {
        let (mine, others) = (self.as_bytes(), other.as_bytes());
        match mine.len().cmp(&others.len()) {
            Ordering::Equal => mine.cmp(&others),
            by_length => by_length,
        }
    }
}

impl<const MAX_SIZE: usize> AsSlice<u8> for ObjectIdentifier<MAX_SIZE> {
    ghost items = { identifier_octets };

    fn as_slice(&self) -> &[u8] {
        self.as_bytes()
    }
}

impl<const MAX_SIZE: usize> Hash for ObjectIdentifier<MAX_SIZE> {
    ghost hash_input = { λ oid. fed.slice fed.u8 (identifier_octets oid) };

    ghost respects_eq = { Prim.search (hashing, rules) };

    fn hash<H: Hasher>(&self, state: &mut H) {
        self.as_bytes().hash(state);
    }
}

impl ObjectIdentifier<39> {
    ghost use Rattle.std.specs.Prelude.{◌≢◌, ◌^◌};
    ghost use Rattle.const_oid.specs.TextReading.{read_text};
    ghost use Rattle.const_oid.specs.TextFaults.{IsDottedText, IsTextFault};

    /// The greatest length of an encoding.
    pub const MAX_SIZE: usize = 39;

    /// Parses a dotted text such as `2.5.4.3`. Arcs may have leading zeros.
    ///
    /// # Errors
    ///
    /// The first of these from the left:
    ///
    /// - `Empty`: the text is empty, or has only one arc.
    /// - `DigitExpected`: a byte is neither a digit nor a dot, or the text begins with a dot.
    /// - `RepeatedDot`: a dot follows a dot.
    /// - `TrailingDot`: the text ends with a dot.
    /// - `ArcTooBig`: an arc is 2^128 or more.
    /// - `ArcInvalid`: the first arc is above 2, or the second above 39.
    /// - `Length`: the encoding has more than 39 bytes.
    pub fn new(s: &str) -> Result<Self>
        ensures read { result ≡ read_text Bound max_size s.now }
        ensures ok { IfOk result (λ arcs. IsDottedText arcs s.now × IsIdentifier Bound arcs
            × (length (identifier_octets arcs) ≤ max_size)) }
        ensures spelled { (arcs : List ℕ) → IsDottedText arcs s.now → IsIdentifier Bound arcs
            → length (identifier_octets arcs) ≤ max_size
            → result ≡ Ok arcs }
        ensures fault { IfErr result (λ e. IsTextFault Bound max_size s.now e) }
        ensures never_overflow { result ≢ Err errors.Overflow }
    {
        text::read(s.as_bytes())
    }

    /// Parses a dotted text that the caller proves to be valid.
    pub fn new_unwrap(s: &str) -> Self
        requires { is_ok (read_text Bound max_size s.now) ≡ true }
        ensures { Ok result ≡ read_text Bound max_size s.now }
    {
        match Self::new(s) {
            Ok(oid) => oid,
            Err(_) => unreachable!(),
        }
    }

    /// Decodes content bytes (X.690 8.19) that the caller proves to be valid, with arcs below 2^64.
    ///
    /// Use it for constants, such as `&[0x55, 0x1d, 0x0f]` for 2.5.29.15. The checker proves a
    /// literal by computation.
    pub fn from_bytes_unwrap(ber_bytes: &[u8]) -> Self
        requires { is_ok (read_identifier (2 ^ 64) max_size ber_bytes.now) ≡ true }
        ensures { Ok result ≡ read_identifier (2 ^ 64) max_size ber_bytes.now }
    {
        match Self::from_bytes(ber_bytes) {
            Ok(oid) => oid,
            Err(_) => unreachable!(),
        }
    }

    /// Decodes an object identifier from at most 39 content bytes, without tag and length (X.690
    /// 8.19).
    ///
    /// # Errors
    ///
    /// The errors of `from_bytes_sized`.
    pub fn from_bytes(ber_bytes: &[u8]) -> Result<Self>
        ensures read { result ≡ read_identifier Bound max_size ber_bytes.now }
        ensures ok { IfOk result
            (λ arcs. IsIdentifier Bound arcs × (length ber_bytes.now ≤ max_size)
            × (ber_bytes.now ≡ identifier_octets arcs)) }
        ensures spelled { (arcs : List ℕ) → ber_bytes.now ≡ identifier_octets arcs
            → IsIdentifier Bound arcs → length ber_bytes.now ≤ max_size
            → result ≡ Ok arcs }
        ensures fault { IfErr result (λ e. IsOctetsFault Bound max_size ber_bytes.now e) }
        ensures never_overflow { result ≢ Err errors.Overflow }
    {
        Self::from_bytes_sized(ber_bytes)
    }
}

impl ObjectIdentifier<39> {
    ghost use Rattle.std.specs.Iterator.{IsFiniteIterable, DrainsIf};
    ghost use Rattle.std.specs.Prelude.{IsOk, ⊤, ◌≢◌};
    ghost use Rattle.const_oid.specs.ArcLists.{gather};
    ghost use Rattle.const_oid.specs.ArcFaults.{IsArcsFault, EndsAtFault};

    /// Returns the identifier of these arcs. It takes the items up to the first error, or all of
    /// them if there is none.
    ///
    /// # Errors
    ///
    /// The first of these that applies:
    ///
    /// - `ArcInvalid`: the first arc is above 2, or the second above 39.
    /// - `Length`: the encoding of the arcs so far has more than 39 bytes.
    /// - `Empty`: all items were taken, and there are fewer than two.
    pub fn from_arcs<I: IntoIterator<Item = Arc>>(arcs: I) -> Result<Self>
        requires { IsFiniteIterable I.into_iter_gives I.IntoIter.can_next
            I.IntoIter.remaining arcs }
        ensures gathered { (it : I.IntoIter) × (xs : List ℕ) × I.into_iter_gives arcs it
            × DrainsIf I.IntoIter.next_gives (IsOk result) it xs
            × (result ≡ gather max_size [] xs) }

        // The arcs of the identifier are all items.
        ensures ok { IfOk result
            (λ oid. (it : I.IntoIter) × I.into_iter_gives arcs it
            × DrainsIf I.IntoIter.next_gives ⊤ it oid
            × IsIdentifier Bound oid × (length (identifier_octets oid) ≤ max_size)) }

        // The error is that of the items that were taken, and the items before the last one have
        // none. For `Empty`, all items were taken.
        ensures fault { IfErr result
            (λ e. (it : I.IntoIter) × (xs : List ℕ) × I.into_iter_gives arcs it
            × DrainsIf I.IntoIter.next_gives (e ≡ errors.Empty) it xs × IsArcsFault max_size xs e
            × EndsAtFault max_size xs) }
        ensures never_overflow { result ≢ Err errors.Overflow }
    {
        let mut so_far = Encoder::<39>::new();
        let mut rest = arcs.into_iter();
        while let Some(arc) = rest.next() {
            so_far.add(arc)?;
        }
        so_far.finish()
    }
}

/// Parses a dotted text, as `new` does.
impl FromStr for ObjectIdentifier<39> {
    ghost use Rattle.std.specs.Prelude.{◌≡◌, ◌≢◌};
    ghost use Rattle.const_oid.specs.Bound.{Bound, max_size};
    ghost use Rattle.const_oid.specs.TextReading.{read_text};
    ghost use Rattle.const_oid.specs.TextFaults.{IsDottedText, IsTextFault};

    type Err = Error;

    ghost from_str_gives = { λ text r. r ≡ read_text Bound max_size text };

    fn from_str(s: &str) -> Result<Self>
        ensures read { result ≡ read_text Bound max_size s.now }
        ensures ok { IfOk result (λ arcs. IsDottedText arcs s.now × IsIdentifier Bound arcs
            × (length (identifier_octets arcs) ≤ max_size)) }
        ensures spelled { (arcs : List ℕ) → IsDottedText arcs s.now → IsIdentifier Bound arcs
            → length (identifier_octets arcs) ≤ max_size
            → result ≡ Ok arcs }
        ensures fault { IfErr result (λ e. IsTextFault Bound max_size s.now e) }
        ensures never_overflow { result ≢ Err errors.Overflow }
    {
        Self::new(s)
    }
}

/// Decodes bytes, as `from_bytes` does.
impl<'a> TryFrom<&'a [u8]> for ObjectIdentifier<39> {
    ghost use Rattle.std.specs.Prelude.{◌≡◌};
    ghost use Rattle.const_oid.specs.Bound.{Bound, max_size};
    ghost use Rattle.const_oid.specs.IdentifierOctets.{read_identifier};

    type Error = Error;

    ghost try_from_gives = { λ octets r. r ≡ read_identifier Bound max_size octets.now };

    fn try_from(octets: &'a [u8]) -> Result<Self> {
        Self::from_bytes(octets)
    }
}

/// Copies a borrowed identifier. The error is `Length` if its encoding exceeds the capacity.
impl<'a, const MAX_SIZE: usize> TryFrom<ObjectIdentifierRef<'a>> for ObjectIdentifier<MAX_SIZE> {
    ghost use Rattle.std.specs.Prelude.{◌≡◌};
    ghost use Rattle.const_oid.specs.Bound.{Bound, max_size};
    ghost use Rattle.const_oid.specs.IdentifierOctets.{read_identifier};
    ghost use Rattle.const_oid.specs.References.{reference_octets};

    type Error = Error;

    ghost try_from_gives = { λ oid r. r ≡ read_identifier Bound MAX_SIZE (reference_octets oid) };

    fn try_from(oid: ObjectIdentifierRef<'a>) -> Result<Self> {
        Self::from_bytes_sized(oid.as_bytes())
    }
}
