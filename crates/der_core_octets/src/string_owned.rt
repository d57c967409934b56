//! Owned text of at most 2^32 - 1 bytes.

ghost use Rattle.std.specs.Prelude.{◌≡◌, ◌↔◌, ◌<◌, [], length, nat_eq, IsTrue, IfOk, Some, true};
ghost use Rattle.std.proofs.Common.{refl, rules};
ghost use Rattle.std.specs.Cmp.{partial_equiv_from_equiv};
ghost use Rattle.std.specs.Cmp.Lexicographic.{pointwise, slice_cmp, nat_list_eq_equiv};
ghost use Rattle.std.specs.Cmp.Lexicographic.{nat_list_cmp_total, texts_po, texts_ties};
ghost use Rattle.std.specs.Cmp.Rules.{hashing};
ghost use Rattle.std.specs.Hash as fed;
ghost use Rattle.std.specs.Ordering.{nat_cmp};
ghost use Rattle.std.specs.String.{string_bytes};
ghost use Rattle.std.specs.Str.{is_utf8};
ghost use Rattle.der_core_head.specs.Heads.{Fits};
ghost use Rattle.der_core_head.specs.Lengths.{counted, counted_text};
ghost use Rattle.der_core_head.specs.Reading.{Gives, GivesNow};

use crate::string_ref::StringRef;
use der_core_head::{Error, ErrorKind, Length};
use std::alloc::{AllocError, Global};
use std::cmp::Ordering;
use std::convert::AsStr;
use std::hash::{Hash, Hasher};
use std::marker::Model;

/// Owned text, at most `Length::MAX` bytes of UTF-8.
///
/// In contracts, its value is these bytes.
#[derive(Debug, Drop)]
pub struct StringOwned {
    text: String,
}

impl Model for StringOwned {
    ghost use Rattle.std.specs.Prelude.{ℕ, List};
    ghost use Rattle.der_core_head.specs.Heads.{Fits};
    ghost use Rattle.std.specs.String.{string_bytes};

    ghost Value = { List ℕ };

    ghost view = { λ s. string_bytes s.text };

    ghost invariant = { λ s. Fits (string_bytes s.text) };
}

impl StringOwned {
    /// Wraps this text.
    ///
    /// # Errors
    ///
    /// - `Overflow`: the text has 2^32 bytes or more.
    pub fn new(text: String) -> Result<StringOwned, Error>
        ensures { GivesNow (λ s. s) result (counted (string_bytes text)) }
    {
        if text.as_bytes().len() > Length::MAX.value as usize {
            return Err(Error::from(ErrorKind::Overflow));
        }
        Ok(StringOwned { text })
    }

    /// Copies the text of these bytes.
    ///
    /// # Errors
    ///
    /// - `Utf8`: the bytes aren't UTF-8.
    /// - `Overflow`: there are 2^32 bytes or more.
    /// - `OutOfMemory`: memory runs out.
    pub fn from_bytes(alloc: Global, bytes: &[u8]) -> Result<StringOwned, Error>
        ensures { Gives (λ s. s) result (counted_text bytes.now) }
    {
        let held = match StringRef::from_bytes(bytes) {
            Ok(held) => held,
            Err(error) => return Err(error),
        };
        let text = String::from_str(alloc, held.as_str())?;
        Ok(StringOwned { text })
    }

    /// Returns a copy of a text that the caller proves to have at most 2^32 - 1 bytes.
    ///
    /// # Errors
    ///
    /// - `AllocError`: memory runs out.
    pub fn copy_of(alloc: Global, text: &str) -> Result<StringOwned, AllocError>
        requires { Fits text.now }
        ensures { IfOk result (λ copy. copy ≡ text.now) }
    {
        let text = String::from_str(alloc, text)?;
        Ok(StringOwned { text })
    }

    /// Returns a copy.
    ///
    /// # Errors
    ///
    /// - `AllocError`: memory runs out.
    pub fn clone(&self, alloc: Global) -> Result<StringOwned, AllocError>
        ensures { IfOk result (λ copy. copy ≡ self.now) }
    {
        StringOwned::copy_of(alloc, self.as_str())
    }

    /// Returns the text, and consumes the value.
    pub fn into_string(self) -> String
        ensures { string_bytes result ≡ self }
    {
        self.text
    }

    /// Returns the text.
    pub fn as_str(&self) -> &str
        ensures text { result.now ≡ self.now }
        ensures short { Fits result.now }
    {
        self.text.as_str()
    }

    /// Returns the bytes.
    #[tactic(auto, using(der_core_head::proofs::TextLaws::utf8_reads))]
    pub fn as_bytes(&self) -> &[u8]
        ensures octets { result.now ≡ self.now }
        ensures utf8 { is_utf8 result.now ≡ true }
        ensures short { Fits result.now }
    {
        self.text.as_str().as_bytes()
    }

    /// Returns the number of bytes.
    pub fn len(&self) -> Length
        ensures { result.value ≡ length self.now }
    {
        Length::new(self.text.as_bytes().len() as u32)
    }

    /// Returns whether the text is empty.
    pub fn is_empty(&self) -> bool
        ensures { IsTrue result ↔ (self.now ≡ []) }
    {
        self.text.as_bytes().is_empty()
    }
}

/// Copies the value with its own allocator.
impl Clone for StringOwned {
    ghost is_clone = { λ x y. y ≡ x };

    fn clone(&self) -> Result<StringOwned, AllocError> {
        StringOwned::copy_of(*self.text.allocator(), self.as_str())
    }
}

impl AsStr for StringOwned {
    ghost text = { λ octets. octets };

    fn as_str(&self) -> &str {
        self.text.as_str()
    }
}

/// Compares the bytes.
impl PartialEq for StringOwned {
    ghost eq = { pointwise nat_eq };

    ghost laws = { partial_equiv_from_equiv nat_list_eq_equiv };

    fn eq(&self, other: &Self) -> bool {
        self.as_bytes() == other.as_bytes()
    }
}

impl Eq for StringOwned {
    ghost laws = { nat_list_eq_equiv };
}

/// Orders texts by their bytes.
impl PartialOrd for StringOwned {
    ghost partial_cmp = { λ a b. Some (slice_cmp nat_cmp a b) };

    ghost laws = { texts_po };

    fn partial_cmp(&self, other: &Self) -> Option<Ordering> {
        Some(self.cmp(other))
    }
}

impl Ord for StringOwned {
    ghost cmp = { slice_cmp nat_cmp };

    ghost total = { nat_list_cmp_total };

    ghost matches_partial_cmp = { λ a b. refl };

    ghost matches_eq = { texts_ties };

    fn cmp(&self, other: &Self) -> Ordering {
        self.as_bytes().cmp(other.as_bytes())
    }
}

impl Hash for StringOwned {
    ghost hash_input = { fed.str };

    ghost respects_eq = { Prim.search (hashing, rules) };

    fn hash<H: Hasher>(&self, state: &mut H) {
        self.as_str().hash(state);
    }
}
