//! BMPString.

ghost use Rattle.std.specs.Prelude.{◌≡◌, ◌++◌, true, false, nat_eq, Some, IfOk, IsTrue, OnOk};
ghost use Rattle.std.specs.Prelude.{MatchOption, encode_utf8_all, chars};
ghost use Rattle.std.proofs.Common.{refl, ap};
ghost use Rattle.std.specs.Cmp.{partial_equiv_from_equiv};
ghost use Rattle.std.specs.Cmp.Lexicographic.{pointwise, slice_cmp, bytes_decides, texts_po};
ghost use Rattle.std.specs.Cmp.Lexicographic.{nat_list_eq_equiv, nat_list_cmp_total, texts_ties};
ghost use Rattle.std.specs.Hash as fed;
ghost use Rattle.std.specs.Ordering.{nat_cmp};
ghost use Rattle.std.specs.List.{list_all};
ghost use Rattle.der_core.specs.BmpStrings.{IsBmp, is_unit, unit_octets, bmp_octets, bmp_read};
ghost use Rattle.der_core.specs.BmpStrings.{units};
ghost use Rattle.der_core.specs.TagTypes.Tag.TheVariants.{BmpString as BmpStringTag};
ghost use Rattle.der_core.specs.Leaves.{bmp};
ghost use Rattle.der_core.specs.Reading.{Gives, GivesNow};
ghost use Rattle.der_types_text.specs.BmpStrings.{are_bmp, bmp_from, ucs2_from};
ghost use Rattle.der_types_text.specs.BmpOrders.{bmp_order};

use crate::bmp_chars::{BmpChars, BmpCodepoints};
use der_core::describing::{AsOctets, Described, Octets, Ordered, Primitive};
use der_core::{Error, ErrorKind, FixedTag, Leaf, Length, OrdIsValueOrd, Tag};
use std::alloc::{AllocError, Global};
use std::cmp::Ordering;
use std::convert::AsSlice;
use std::fmt;
use std::hash::{Hash, Hasher};
use std::marker::Model;

/// An owned BMPString (X.680 41, X.690 8.23.8): characters below U+10000, in two bytes each, the
/// more significant byte first. None is a surrogate.
///
/// In contracts, its value is the list of its characters.
#[derive(Drop)]
pub struct BmpString {
    bytes: Vec<u8>,
}

impl Model for BmpString {
    ghost use Rattle.std.specs.Prelude.{List, ℕ};

    ghost Value = { List ℕ };

    ghost use Rattle.der_types_text.specs.BmpStrings.{characters_of, IsBmpString};

    ghost view = { characters_of };

    ghost invariant = { IsBmpString };
}

/// Returns whether no pair of bytes is half of a surrogate pair (D800 to DFFF).
fn has_no_half(octets: &[u8]) -> bool
    ensures { result ≡ list_all is_unit (units octets.now) }
{
    for unit in BmpCodepoints::of(octets) {
        if matches!(unit, 0xd800..=0xdfff) {
            return false;
        }
    }
    true
}

/// Returns whether the bytes are pairs, each of which is a character.
#[tactic(auto, using(crate::proofs::BmpTexts::pairs))]
fn are_characters(octets: &[u8]) -> bool
    ensures exact { result ≡ are_bmp octets.now }
    ensures spelled { IsTrue result → octets.now ≡ bmp_octets (units octets.now) }
    ensures characters { IsTrue result → IsBmp (units octets.now) }
{
    octets.len() % 2 == 0 && has_no_half(octets)
}

/// Returns the number of a character, or `None` if it doesn't fit two bytes.
fn unit_of(character: char) -> Option<u16>
    ensures { MatchOption result (is_unit character ≡ false) (λ unit. (unit ≡ character)
        × (is_unit character ≡ true)) }
{
    u16::try_from(u32::from(character)).ok()
}

/// Appends the bytes of a character.
fn push_unit(octets: &mut Vec<u8>, unit: u16) -> Result<(), AllocError>
    ensures { OnOk result (octets.new.items ≡ octets.old.items ++ unit_octets unit) }
{
    octets.extend_from_slice(&[(unit / 256) as u8, (unit % 256) as u8])?;
    Ok(())
}

/// Returns the bytes of the characters of a text.
///
/// # Errors
///
/// - `Value`: a character is U+10000 or above.
/// - `OutOfMemory`: memory runs out.
fn octets_of(alloc: Global, text: &str) -> Result<Vec<u8>, Error>
    ensures ok { IfOk result (λ v. v.items ≡ bmp_octets (chars text.now)) }
    ensures exact { Gives (λ v. units v.items) result (bmp_from (chars text.now)) }
{
    let mut octets = Vec::new(alloc);
    for character in text.chars() {
        let Some(unit) = unit_of(character) else {
            return Err(Error::from(ErrorKind::Value {
                tag: Tag::BmpString,
            }));
        };
        push_unit(&mut octets, unit)?;
    }
    Ok(octets)
}

impl BmpString {
    /// Returns the string with these bytes.
    ///
    /// # Errors
    ///
    /// - `Overflow`: there are 2^32 bytes or more.
    /// - `Value`: the number of bytes is odd, or a pair is a surrogate.
    #[tactic(auto, unfolding(crate::specs::Opened::bmp_read))]
    pub fn from_ucs2(bytes: Vec<u8>) -> Result<BmpString, Error>
        ensures { GivesNow (λ s. s) result (ucs2_from bytes.items) }
    {
        if bytes.len() > Length::MAX.value as usize {
            return Err(Error::from(ErrorKind::Overflow));
        }
        if are_characters(bytes.as_slice()) {
            Ok(BmpString { bytes })
        } else {
            Err(Error::from(ErrorKind::Value {
                tag: Tag::BmpString,
            }))
        }
    }

    /// Returns the string with the characters of a text.
    ///
    /// # Errors
    ///
    /// - `Value`: a character is U+10000 or above.
    /// - `OutOfMemory`: memory runs out.
    pub fn from_utf8(alloc: Global, text: &str) -> Result<BmpString, Error>
        ensures { Gives (λ s. s) result (bmp_from (chars text.now)) }
    {
        let bytes = octets_of(alloc, text)?;
        Ok(BmpString { bytes })
    }

    /// Returns the string with the characters of a text, as `from_utf8` does.
    ///
    /// # Errors
    ///
    /// - `Value`: a character is U+10000 or above.
    /// - `OutOfMemory`: memory runs out.
    pub fn from_str(alloc: Global, text: &str) -> Result<BmpString, Error>
        ensures { Gives (λ s. s) result (bmp_from (chars text.now)) }
    {
        BmpString::from_utf8(alloc, text)
    }

    /// Returns a copy.
    ///
    /// # Errors
    ///
    /// - `AllocError`: memory runs out.
    pub fn clone(&self, alloc: Global) -> Result<BmpString, AllocError>
        ensures { IfOk result (λ s. s ≡ self.now) }
    {
        let bytes = self.bytes.as_slice().to_vec(alloc)?;
        Ok(BmpString { bytes })
    }

    /// Returns the content bytes, two for each character, the more significant one first.
    pub fn as_bytes(&self) -> &[u8]
        ensures { result.now ≡ bmp_octets self.now }
    {
        self.bytes.as_slice()
    }

    /// Returns the content bytes, and consumes the value.
    pub fn into_bytes(self) -> Vec<u8>
        ensures { result.items ≡ bmp_octets self }
    {
        self.bytes
    }

    /// Returns an iterator over the characters, in order.
    pub fn chars(&self) -> BmpChars<'_>
        ensures { result ≡ self.now }
    {
        BmpChars::of(self.bytes.as_slice())
    }

    /// Returns an iterator over the characters as numbers, in order.
    pub fn codepoints(&self) -> BmpCodepoints<'_>
        ensures { result ≡ self.now }
    {
        BmpCodepoints::of(self.bytes.as_slice())
    }
}

impl AsSlice<u8> for BmpString {
    ghost items = { bmp_octets };

    fn as_slice(&self) -> &[u8] {
        self.as_bytes()
    }
}

impl FixedTag for BmpString {
    ghost fixed_tag = { BmpStringTag };

    fn tag() -> Tag {
        Tag::BmpString
    }
}

impl Described for BmpString {
    type By = AsOctets;
}

impl Primitive for BmpString {
    ghost kind = { bmp };

    ghost leaf_plain = { λ s. s };
}

/// The content is the characters, two bytes each.
impl<'a> Leaf<'a> for BmpString {
    #[tactic(auto, unfolding(crate::specs::Opened::bmp_read))]
    fn from_content(alloc: Global, tag: Tag, octets: &'a [u8]) -> Result<BmpString, Error> {
        if !are_characters(octets) {
            return Err(Error::from(ErrorKind::Value { tag }));
        }
        let bytes = octets.to_vec(alloc)?;
        Ok(BmpString { bytes })
    }
}

impl Octets for BmpString {
    fn content(&self) -> &[u8] {
        // Only for the proof: `BmpChars` only has characters that BMPString has.
        let _characters = self.chars();
        self.as_bytes()
    }
}

/// Compares the bytes of the characters (X.690 8.23.8).
impl Ordered for BmpString {}

/// Copies the value with its own allocator.
impl Clone for BmpString {
    ghost is_clone = { λ x y. y ≡ x };

    fn clone(&self) -> Result<BmpString, AllocError> {
        let bytes = self.bytes.as_slice().to_vec(*self.bytes.allocator())?;
        Ok(BmpString { bytes })
    }
}

/// Compares the characters.
impl PartialEq for BmpString {
    ghost eq = { pointwise nat_eq };

    ghost laws = { partial_equiv_from_equiv nat_list_eq_equiv };

    fn eq(&self, other: &Self) -> bool {
        self.as_bytes() == other.as_bytes()
    }
}

impl Eq for BmpString {
    ghost laws = { nat_list_eq_equiv };
}

/// Compares the characters, which are ordered as their bytes are.
impl PartialOrd for BmpString {
    ghost partial_cmp = { λ a b. Some (slice_cmp nat_cmp a b) };

    ghost laws = { texts_po };

    fn partial_cmp(&self, other: &Self) -> Option<Ordering> {
        Some(self.cmp(other))
    }
}

impl Ord for BmpString {
    ghost cmp = { slice_cmp nat_cmp };

    ghost total = { nat_list_cmp_total };

    ghost matches_partial_cmp = { λ a b. refl };

    ghost matches_eq = { texts_ties };

    #[tactic(auto, using(crate::specs::BmpOrders::bmp_octets_cmp))]
    fn cmp(&self, other: &Self) -> Ordering {
        self.as_bytes().cmp(other.as_bytes())
    }
}

impl Hash for BmpString {
    ghost hash_input = { λ s. fed.slice fed.u8 (bmp_octets s) };

    ghost respects_eq = { λ a b e. ap (λ s. fed.slice fed.u8 (bmp_octets s))
        ((bytes_decides a b).0 e) };

    fn hash<H: Hasher>(&self, state: &mut H) {
        self.as_bytes().hash(state);
    }
}

impl OrdIsValueOrd for BmpString {
    ghost order = { bmp_order };
}

/// Prints the characters.
impl fmt::Display for BmpString {
    ghost output = { λ s. Some (encode_utf8_all s) };

    fn fmt<W: fmt::Write>(&self, f: &mut fmt::Formatter<W>) -> fmt::Result {
        let mut characters = self.chars();
        while let Some(character) = characters.next() {
            f.write_char(character)?;
        }
        Ok(())
    }
}

impl fmt::Debug for BmpString {
    fn fmt<W: fmt::Write>(&self, f: &mut fmt::Formatter<W>) -> fmt::Result {
        write!(f, "BmpString(\"{self}\")")
    }
}
