//! UTF8String (X.690 8.23.10).

ghost use Rattle.std.specs.Prelude.{◌≡◌, false, string_bytes};
ghost use Rattle.der_core_octets.specs.CoreHead.declared.tag.Tag.TheVariants.{Utf8String};
ghost use Rattle.der_core_octets.specs.Held.{held_text};
ghost use Rattle.der_core_octets.specs.CoreHead.Leaves.{utf8};

use crate::decode::FixedTag;
use crate::in_range::text_in_range;
use crate::leaf_ways::{AsOctets, Octets};
use crate::leaves::{Leaf, Primitive};
use crate::ways::Described;
use der_core_octets::core_head::{Error, Tag};
use der_core_octets::{StringOwned, StringRef};
use std::alloc::Global;
use std::str;

impl<'a> FixedTag for &'a str {
    ghost fixed_tag = { Utf8String };

    fn tag() -> Tag
        ensures { result ≡ Utf8String }
    {
        Tag::Utf8String
    }
}

impl<'a> Described for &'a str {
    type By = AsOctets;
}

impl<'a> Primitive for &'a str {
    ghost kind = { utf8 };

    ghost leaf_plain = { λ text. text.now };
}

/// The content is the bytes of the text. Bytes that aren't UTF-8 give the error `Utf8`.
impl<'a> Leaf<'a> for &'a str {
    ghost takes_memory = { false };

    #[tactic(auto, using(crate::proofs::Cited::utf8_reads))]
    fn from_content(_alloc: Global, _tag: Tag, octets: &'a [u8]) -> Result<&'a str, Error> {
        Ok(str::from_utf8(octets)?)
    }
}

impl<'a> Octets for &'a str {
    fn content(&self) -> &[u8] {
        text_in_range(self);
        self.as_bytes()
    }
}

impl FixedTag for String {
    ghost fixed_tag = { Utf8String };

    fn tag() -> Tag {
        Tag::Utf8String
    }
}

impl Described for String {
    type By = AsOctets;
}

impl Primitive for String {
    ghost kind = { utf8 };

    ghost leaf_plain = { string_bytes };
}

/// The content is the bytes of the text, which are copied. Bytes that aren't UTF-8 give the error
/// `Utf8`.
impl<'a> Leaf<'a> for String {
    #[tactic(auto, using(crate::proofs::Cited::utf8_reads))]
    fn from_content(alloc: Global, _tag: Tag, octets: &'a [u8]) -> Result<String, Error> {
        let text = str::from_utf8(octets)?;
        Ok(String::from_str(alloc, text)?)
    }
}

impl Octets for String {
    fn content(&self) -> &[u8] {
        text_in_range(self.as_str());
        self.as_bytes()
    }
}

impl<'a> Described for StringRef<'a> {
    type By = AsOctets;
}

impl<'a> Primitive for StringRef<'a> {
    ghost kind = { utf8 };

    ghost leaf_plain = { held_text };
}

/// The content is the bytes of the text. Bytes that aren't UTF-8 give the error `Utf8`.
impl<'a> Leaf<'a> for StringRef<'a> {
    ghost takes_memory = { false };

    #[tactic(auto, using(crate::proofs::Cited::utf8_reads))]
    fn from_content(_alloc: Global, _tag: Tag, octets: &'a [u8]) -> Result<StringRef<'a>, Error> {
        let text = str::from_utf8(octets)?;
        StringRef::new(text)
    }
}

impl<'a> Octets for StringRef<'a> {
    fn content(&self) -> &[u8] {
        text_in_range(self.as_str());
        self.as_bytes()
    }
}

impl Described for StringOwned {
    type By = AsOctets;
}

impl Primitive for StringOwned {
    ghost kind = { utf8 };

    ghost leaf_plain = { λ text. text };
}

/// The content is the bytes of the text, which are copied. Bytes that aren't UTF-8 give the error
/// `Utf8`.
impl<'a> Leaf<'a> for StringOwned {
    #[tactic(auto, using(crate::proofs::Cited::utf8_reads))]
    fn from_content(alloc: Global, _tag: Tag, octets: &'a [u8]) -> Result<StringOwned, Error> {
        let text = str::from_utf8(octets)?;
        let text = String::from_str(alloc, text)?;
        StringOwned::new(text)
    }
}

impl Octets for StringOwned {
    fn content(&self) -> &[u8] {
        text_in_range(self.as_str());
        self.as_bytes()
    }
}
