//! Tags.

ghost use Rattle.std.specs.Fmt.{WritesOnOk};
ghost use Rattle.std.specs.Prelude.{◌≡◌, ◌≢◌, ◌<◌, ◌↔◌, IsTrue, IfOk, IfErr, Some};
ghost use Rattle.der_core_head.specs.Classes.{class_number, tag_class};
ghost use Rattle.der_core_head.specs.TagNames.{numbered_name, tag_name};
ghost use Rattle.der_core_head.specs.declared.encoding_rules.EncodingRules.TheVariants.{Der};
ghost use Rattle.der_core_head.specs.Fronts.{alone, matches_at};
ghost use Rattle.der_core_head.specs.Grammar.{peek_at};
ghost use Rattle.der_core_head.specs.Reading.{GivesNow};
ghost use Rattle.der_core_head.specs.Tags.{tag_at, leading, low_bits, leading_octet, number_of};
ghost use Rattle.der_core_head.specs.Tags.{is_constructed, same_tag};

use crate::class::Class;
use crate::error::{Error, ErrorKind};
use crate::tag_number::TagNumber;
use crate::tag_octets::tag_of;
use std::fmt;

/// A tag: its class, whether the value is constructed, and its number (X.690 8.1.2).
#[derive(Clone, Copy, Debug, PartialEq, Eq, PartialOrd, Ord, Hash)]
pub enum Tag {
    /// UNIVERSAL 1 (X.680 8.6).
    Boolean,
    /// UNIVERSAL 2 (X.680 8.6).
    Integer,
    /// UNIVERSAL 3 (X.680 8.6).
    BitString,
    /// UNIVERSAL 4 (X.680 8.6).
    OctetString,
    /// UNIVERSAL 5 (X.680 8.6).
    Null,
    /// UNIVERSAL 6 (X.680 8.6).
    ObjectIdentifier,
    /// UNIVERSAL 9.
    Real,
    /// UNIVERSAL 10.
    Enumerated,
    /// UNIVERSAL 12.
    Utf8String,
    /// UNIVERSAL 13.
    RelativeOid,
    /// UNIVERSAL 16.
    Sequence,
    /// UNIVERSAL 17.
    Set,
    /// UNIVERSAL 18.
    NumericString,
    /// UNIVERSAL 19.
    PrintableString,
    /// UNIVERSAL 20.
    TeletexString,
    /// UNIVERSAL 21.
    VideotexString,
    /// UNIVERSAL 22.
    Ia5String,
    /// UNIVERSAL 23.
    UtcTime,
    /// UNIVERSAL 24.
    GeneralizedTime,
    /// UNIVERSAL 26.
    VisibleString,
    /// UNIVERSAL 27.
    GeneralString,
    /// UNIVERSAL 30.
    BmpString,
    /// An application tag.
    Application {
        constructed: bool,
        number: TagNumber,
    },
    /// A context-specific tag.
    ContextSpecific {
        constructed: bool,
        number: TagNumber,
    },
    /// A private tag.
    Private {
        constructed: bool,
        number: TagNumber,
    },
}

impl Tag {
    /// Returns the tag with which the bytes begin, under DER (X.690 8.1.2).
    ///
    /// # Errors
    ///
    /// - `Incomplete`: the bytes end too early.
    /// - `TagUnknown`: the tag is of the universal class, and isn't supported.
    /// - `TagNumberInvalid`: a number of 31 or more isn't in its shortest form, or exceeds 32 bits.
    pub fn peek(octets: &[u8]) -> Result<Tag, Error>
        ensures { GivesNow (λ t. t) result (alone (tag_at octets.now)) }
    {
        let (tag, _count) = tag_of(octets)?;
        Ok(tag)
    }

    /// Returns whether the tag with which the bytes begin, under DER, has this class and this
    /// number. If there are no bytes, it doesn't.
    ///
    /// # Errors
    ///
    /// - The errors of `peek`.
    pub fn peek_matches(octets: &[u8], class: Class, number: TagNumber) -> Result<bool, Error>
        ensures { GivesNow (λ b. b) result
            (matches_at class number.value (peek_at Der octets.now)) }
    {
        if octets.is_empty() {
            return Ok(false);
        }
        let tag = Tag::peek(octets)?;
        Ok(tag.class() == class && tag.number().value == number.value)
    }

    /// Returns the class of the tag.
    pub fn class(self) -> Class
        ensures { class_number result ≡ tag_class self }
    {
        Class::from_bits(leading_octet_of(self))
    }

    /// Returns the number of the tag. For the universal class, this is the number of the type.
    pub fn number(self) -> TagNumber
        ensures { result.value ≡ number_of self }
    {
        TagNumber {
            value: number_of(self),
        }
    }

    /// Returns whether the value is constructed (X.690 8.1.2.5).
    pub fn is_constructed(self) -> bool
        ensures { result ≡ is_constructed self }
    {
        is_constructed(self)
    }

    /// Returns whether the tag is of the universal class.
    pub fn is_universal(self) -> bool
        ensures { IsTrue result ↔ (tag_class self ≡ 0) }
    {
        matches!(self.class(), Class::Universal)
    }

    /// Returns whether the tag is of the application class.
    pub fn is_application(self) -> bool
        ensures { IsTrue result ↔ (tag_class self ≡ 1) }
    {
        matches!(self.class(), Class::Application)
    }

    /// Returns whether the tag is context-specific.
    pub fn is_context_specific(self) -> bool
        ensures { IsTrue result ↔ (tag_class self ≡ 2) }
    {
        matches!(self.class(), Class::ContextSpecific)
    }

    /// Returns whether the tag is private.
    pub fn is_private(self) -> bool
        ensures { IsTrue result ↔ (tag_class self ≡ 3) }
    {
        matches!(self.class(), Class::Private)
    }

    /// Returns the tag, if it is the expected one.
    ///
    /// # Errors
    ///
    /// - `TagUnexpected`: it is another tag.
    #[tactic(auto, using(crate::proofs::TagLaws::tag_equality))]
    pub fn assert_eq(self, expected: Tag) -> Result<Tag, Error>
        ensures ok { IfOk result (λ t. (t ≡ self) × (self ≡ expected)) }
        ensures err { IfErr result (λ e. (self ≢ expected) × (e.kind ≡ ErrorKind.TagUnexpected)) }
    {
        if is_same_tag(self, expected) {
            Ok(self)
        } else {
            Err(Error::from(ErrorKind::TagUnexpected))
        }
    }

    /// Returns the error for a length that a value with this tag can't have.
    pub fn length_error(self) -> ErrorKind
        ensures { result ≡ ErrorKind.Length self }
    {
        ErrorKind::Length { tag: self }
    }

    /// Returns the error for a value with this tag that isn't in the form that DER requires.
    pub fn non_canonical_error(self) -> ErrorKind
        ensures { result ≡ ErrorKind.Noncanonical self }
    {
        ErrorKind::Noncanonical { tag: self }
    }

    /// Returns the error for this tag where another one is expected.
    pub fn unexpected_error(self, _expected: Option<Tag>) -> ErrorKind
        ensures { result ≡ ErrorKind.TagUnexpected }
    {
        ErrorKind::TagUnexpected
    }

    /// Returns the error for a value that the type of this tag doesn't have.
    pub fn value_error(self) -> ErrorKind
        ensures { result ≡ ErrorKind.Value self }
    {
        ErrorKind::Value { tag: self }
    }
}

/// Returns the first byte of a tag: its class, whether it is constructed, and five bits for its
/// number, which are all set if the number is 31 or more (8.1.2.2, 8.1.2.4.1).
pub fn leading_octet_of(tag: Tag) -> u8
    ensures { result ≡ leading_octet tag }
{
    let (class, constructed, number) = match tag {
        Tag::Boolean => return 0x01,
        Tag::Integer => return 0x02,
        Tag::BitString => return 0x03,
        Tag::OctetString => return 0x04,
        Tag::Null => return 0x05,
        Tag::ObjectIdentifier => return 0x06,
        Tag::Real => return 0x09,
        Tag::Enumerated => return 0x0a,
        Tag::Utf8String => return 0x0c,
        Tag::RelativeOid => return 0x0d,
        Tag::Sequence => return 0x30,
        Tag::Set => return 0x31,
        Tag::NumericString => return 0x12,
        Tag::PrintableString => return 0x13,
        Tag::TeletexString => return 0x14,
        Tag::VideotexString => return 0x15,
        Tag::Ia5String => return 0x16,
        Tag::UtcTime => return 0x17,
        Tag::GeneralizedTime => return 0x18,
        Tag::VisibleString => return 0x1a,
        Tag::GeneralString => return 0x1b,
        Tag::BmpString => return 0x1e,
        Tag::Application {
            constructed,
            number,
        } => (1, constructed, number),
        Tag::ContextSpecific {
            constructed,
            number,
        } => (2, constructed, number),
        Tag::Private {
            constructed,
            number,
        } => (3, constructed, number),
    };
    class_octet(class, constructed, number)
}

/// Returns the first byte of a tag that isn't of the universal class.
fn class_octet(class: u8, constructed: bool, number: TagNumber) -> u8
    requires { class < 4 }
    ensures { result ≡ leading class constructed (low_bits number.value) }
{
    let low = if number.value < 31 {
        number.value as u8
    } else {
        31
    };
    64 * class + if constructed { 32 } else { 0 } + low
}

/// Returns the number of a tag. It is inlined, so that the number of a known tag is a constant.
#[inline(always)]
pub fn number_of(tag: Tag) -> u32
    ensures { result ≡ number_of tag }
{
    match tag {
        Tag::Application { number, .. }
        | Tag::ContextSpecific { number, .. }
        | Tag::Private { number, .. } => number.value,
        _ => u32::from(leading_octet_of(tag) % 32),
    }
}

/// Returns whether the tag is that of a constructed value (8.1.2.5).
pub fn is_constructed(tag: Tag) -> bool
    ensures { result ≡ is_constructed tag }
{
    match tag {
        Tag::Sequence | Tag::Set => true,
        Tag::Application { constructed, .. }
        | Tag::ContextSpecific { constructed, .. }
        | Tag::Private { constructed, .. } => constructed,
        _ => false,
    }
}

/// Returns whether two tags have the same encoding. It is inlined, so that a comparison with a
/// known tag is one instruction.
#[inline(always)]
pub fn is_same_tag(a: Tag, b: Tag) -> bool
    ensures { result ≡ same_tag a b }
{
    let first = leading_octet_of(a);
    first == leading_octet_of(b) && (first % 32 < 31 || number_of(a) == number_of(b))
}

/// Writes the name of a tag that isn't of the universal class.
fn write_numbered<W: fmt::Write>(
    class: Class,
    number: TagNumber,
    constructed: bool,
    f: &mut fmt::Formatter<W>,
) -> fmt::Result
    ensures { WritesOnOk W.write_str_gives f.old result
        (numbered_name class number.value constructed) f.new }
{
    if constructed {
        write!(f, "{class} [{number}] (constructed)")
    } else {
        write!(f, "{class} [{number}] (primitive)")
    }
}

/// Prints the name of the type (X.680), or the class, the number and whether the value is
/// constructed.
impl fmt::Display for Tag {
    ghost output = { λ tag. Some (tag_name tag) };

    fn fmt<W: fmt::Write>(&self, f: &mut fmt::Formatter<W>) -> fmt::Result {
        match *self {
            Tag::Boolean => f.write_str("BOOLEAN"),
            Tag::Integer => f.write_str("INTEGER"),
            Tag::BitString => f.write_str("BIT STRING"),
            Tag::OctetString => f.write_str("OCTET STRING"),
            Tag::Null => f.write_str("NULL"),
            Tag::ObjectIdentifier => f.write_str("OBJECT IDENTIFIER"),
            Tag::Real => f.write_str("REAL"),
            Tag::Enumerated => f.write_str("ENUMERATED"),
            Tag::Utf8String => f.write_str("UTF8String"),
            Tag::RelativeOid => f.write_str("RELATIVE OID"),
            Tag::Sequence => f.write_str("SEQUENCE"),
            Tag::Set => f.write_str("SET"),
            Tag::NumericString => f.write_str("NumericString"),
            Tag::PrintableString => f.write_str("PrintableString"),
            Tag::TeletexString => f.write_str("TeletexString"),
            Tag::VideotexString => f.write_str("VideotexString"),
            Tag::Ia5String => f.write_str("IA5String"),
            Tag::UtcTime => f.write_str("UTCTime"),
            Tag::GeneralizedTime => f.write_str("GeneralizedTime"),
            Tag::VisibleString => f.write_str("VisibleString"),
            Tag::GeneralString => f.write_str("GeneralString"),
            Tag::BmpString => f.write_str("BMPString"),
            Tag::Application {
                constructed,
                number,
            } => write_numbered(Class::Application, number, constructed, f),
            Tag::ContextSpecific {
                constructed,
                number,
            } => write_numbered(Class::ContextSpecific, number, constructed, f),
            Tag::Private {
                constructed,
                number,
            } => write_numbered(Class::Private, number, constructed, f),
        }
    }
}
