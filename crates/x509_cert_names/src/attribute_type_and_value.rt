//! The type `AttributeTypeAndValue`, its string form, and a fast path for attributes whose headers
//! have two bytes each.

ghost use Rattle.std.specs.Prelude.{◌≡◌, ◌∷◌, ◌++◌, refl, Ok, IfOk, chars, IfSome};
ghost use Rattle.std.specs.Fmt.{WritesOnOk};
ghost use Rattle.der_core.specs.Oid.Bound.{Bound};
ghost use Rattle.der_core.specs.Oid.DottedText.{dotted};
ghost use Rattle.der_core.specs.Reading.{GivesNow};
ghost use Rattle.der_core.specs.Shapes.{Spells, octets_of};
ghost use Rattle.der_core.specs.Writing.{size, write, Writes};
ghost use Rattle.der_core.specs.Outputs.{AddsFront, Continues};
ghost use Rattle.x509_cert_name_texts.specs.Answers.{GivesBy};
ghost use Rattle.x509_cert_name_texts.specs.Escapes.{escaped, in_hex};
ghost use Rattle.x509_cert_names.specs.NameTexts.{ReadsAttribute, ReadsEncoding};
ghost use Rattle.x509_cert_names.specs.ValueTexts.{encoding_of};
ghost use Rattle.x509_cert_names.specs.Names.{type_and_value, type_and_value_fields};
ghost use Rattle.x509_cert_names.specs.Pairs.{pair_plain};
ghost use Rattle.x509_cert_names.specs.PlainParts.{IsPlain, put_in_turn};

use crate::value_texts::{text_of, value_of, write_encoding};
use der_core::describing::{AsRecord, Described, FieldsView, RowUser, Rows};
use der_core::making::{leading_octet_of, number_of, octets_in_range};
use der_core::oid::ObjectIdentifier;
use der_core::{
    DecodeFields, Encode, Error, ErrorKind, InRange, InRangeValue, Length, Reader, Tag, ToDer,
    Writer, lend, read_row, short_tag_of,
};
use der_types::{Any, AnyRef};
use std::alloc::{AllocError, Global};
use std::fmt;
use x509_cert_name_texts::{FromText, key_of, split_member, type_of_key, write_escaped};

/// The type of an attribute (RFC 5280 appendix A.1).
///
/// ```text
/// AttributeType ::= OBJECT IDENTIFIER
/// ```
pub type AttributeType = ObjectIdentifier<39>;

/// The value of an attribute (RFC 5280 appendix A.1).
///
/// ```text
/// AttributeValue ::= ANY
/// ```
pub type AttributeValue = Any;

/// An attribute with one value (RFC 5280 appendix A.1). Attributes are ordered by their types
/// first.
///
/// ```text
/// AttributeTypeAndValue ::= SEQUENCE { type AttributeType, value AttributeValue }
/// ```
#[derive(Debug, Drop, PartialEq, Eq, PartialOrd, Ord, Hash)]
pub struct AttributeTypeAndValue {
    /// The type of the attribute.
    pub oid: AttributeType,
    /// The value, undecoded: its tag and content.
    pub value: AttributeValue,
}

impl FieldsView for AttributeTypeAndValue {
    ghost body = { type_and_value_fields Bound };

    ghost view = { pair_plain };
}

impl<'a, R: Reader<'a>> DecodeFields<'a, R> for AttributeTypeAndValue {
    fn decode_fields(alloc: Global, reader: &mut R) -> Result<AttributeTypeAndValue, Error> {
        read_row!(alloc, reader; AttributeTypeAndValue { oid, value })
    }
}

impl Described for AttributeTypeAndValue {
    type By = AsRecord;
}

impl Rows for AttributeTypeAndValue {
    fn with_rows<U: RowUser>(&self, other: &Self, user: &mut U) -> U::Answer {
        lend!(self, other, user; oid, value)
    }

    ghost apart = { refl };
}

impl InRangeValue for AttributeTypeAndValue {
    fn value_in_range(&self) {
        self.oid.in_range();
        self.value.in_range();
    }
}

impl AttributeTypeAndValue {
    /// Parses an attribute in the string form of RFC 4514 2.3 and 3: a key, the first `=`, and a
    /// value.
    ///
    /// The key is the name of a type, in either case, or an OID in dotted form.
    ///
    /// The value is `#` and the hexadecimal digits of an encoding, or a text with escapes. Such a
    /// text becomes the content of a PrintableString for a country or a serial number, of an
    /// IA5String for a domain component or an e-mail address, and of a UTF8String for any other
    /// type. The call doesn't check that the characters belong to the string type.
    ///
    /// # Errors
    ///
    /// - `Failed`: there is no `=`, or an escape or the hexadecimal digits are invalid.
    /// - `OidMalformed`: the key is neither a name nor an OID.
    /// - The errors of `from_der` for the encoding after `#`.
    /// - `Overflow`: the content has 2^32 bytes or more.
    /// - `OutOfMemory`: memory runs out.
    pub fn from_str(alloc: Global, text: &str) -> Result<AttributeTypeAndValue, Error>
        ensures { GivesBy (λ a. a) result (ReadsAttribute Bound text.now) }
    {
        match split_member(text) {
            None => Err(Error::from(ErrorKind::Failed)),
            Some((key, value)) => {
                let oid = type_of_key(key)?;
                let value = value_of(alloc, &oid, value)?;
                Ok(AttributeTypeAndValue { oid, value })
            }
        }
    }

    /// Parses an attribute as `from_str` does and returns its encoding.
    ///
    /// # Errors
    ///
    /// - The errors of `from_str` and of `to_der`.
    pub fn encode_from_string(alloc: Global, text: &str) -> Result<Vec<u8>, Error>
        ensures { GivesBy (λ octets. octets.items) result
            (ReadsEncoding (type_and_value Bound) pair_plain (ReadsAttribute Bound text.now)) }
    {
        let attribute = AttributeTypeAndValue::from_str(alloc, text)?;
        let octets = attribute.to_der(alloc)?;
        Ok(octets)
    }

    /// Returns a copy.
    ///
    /// # Errors
    ///
    /// - `AllocError`: memory runs out.
    pub fn clone(&self, alloc: Global) -> Result<AttributeTypeAndValue, AllocError>
        ensures { IfOk result (λ a. a ≡ self.now) }
    {
        Ok(AttributeTypeAndValue {
            oid: self.oid,
            value: self.value.clone(alloc)?,
        })
    }

    /// Returns the length of the encoding. If each of its four headers has two bytes, the length is
    /// computed without encoding them.
    ///
    /// # Errors
    ///
    /// - `Overflow`: the length is 2^32 or more.
    pub(crate) fn octet_count(&self) -> Result<Length, Error>
        ensures { GivesNow (λ l. l.value) result
            (size (type_and_value Bound) (pair_plain self.now)) }
    {
        let value = self.value.value();
        octets_in_range(value);
        let inside = self.oid.as_bytes().len() + value.len() + 4;
        if inside >= 128 || number_of(self.value.tag()) >= 31 {
            return self.encoded_len();
        }
        Ok(Length::new(inside as u32 + 2))
    }

    /// Encodes the attribute. If each of its four headers has two bytes, they are written without
    /// the general encoder.
    ///
    /// # Errors
    ///
    /// - The errors of `encode`.
    pub(crate) fn write_octets<W: Writer>(&self, writer: &mut W) -> Result<(), Error>
        ensures exact { Writes W.takes_memory (W.out writer.old) (W.out writer.new) result
            (write (type_and_value Bound) (pair_plain self.now)) }
        ensures kept { Continues (W.out writer.old) (W.out writer.new) }
        ensures front { AddsFront (octets_of (type_and_value Bound) (pair_plain self.now))
            (W.out writer.old) (W.out writer.new) }
    {
        let identifier = self.oid.as_bytes();
        let value = self.value.value();
        octets_in_range(value);
        let inside = identifier.len() + value.len() + 4;
        if inside >= 128 || number_of(self.value.tag()) >= 31 {
            return self.encode(writer);
        }
        let outer = [0x30, inside as u8, 0x06, identifier.len() as u8];
        let inner = [leading_octet_of(self.value.tag()), value.len() as u8];
        write_four(writer, &outer, identifier, &inner, value)
    }
}

/// Writes four slices, one after another.
///
/// # Errors
///
/// - The errors of the writer.
// Inlined, so that slices of known length are copied without a call.
#[inline(always)]
#[tactic(auto, using(crate::proofs::Cited::refused_adds))]
fn write_four<W: Writer>(
    writer: &mut W,
    first: &[u8],
    second: &[u8],
    third: &[u8],
    fourth: &[u8],
) -> Result<(), Error>
    ensures exact { Writes W.takes_memory (W.out writer.old) (W.out writer.new) result
        (put_in_turn first.now second.now third.now fourth.now) }
    ensures kept { Continues (W.out writer.old) (W.out writer.new) }
    ensures front { AddsFront (first.now ++ (second.now ++ (third.now ++ fourth.now)))
        (W.out writer.old) (W.out writer.new) }
{
    writer.write(first)?;
    writer.write(second)?;
    writer.write(third)?;
    writer.write(fourth)
}

/// Parses a text as `from_str` does.
impl FromText for AttributeTypeAndValue {
    ghost reads_text = { ReadsAttribute Bound };

    fn from_text(alloc: Global, text: &str) -> Result<AttributeTypeAndValue, Error> {
        Ok(AttributeTypeAndValue::from_str(alloc, text)?)
    }
}

/// Writes the attribute in the string form of RFC 4514 2.3 and 2.4.
///
/// If the type has a name and the value is a text, this is the shortest name in capitals, `=`, and
/// the text with escapes. Otherwise it is the dotted OID, `=#`, and the encoding of the value in
/// hexadecimal.
impl fmt::Display for AttributeTypeAndValue {
    ghost use Rattle.std.specs.Prelude.{Some};
    ghost use Rattle.x509_cert_names.specs.ValueTexts.{attribute_printed};

    ghost output = { λ a. Some (attribute_printed a) };

    fn fmt<W: fmt::Write>(&self, f: &mut fmt::Formatter<W>) -> fmt::Result {
        match (key_of(&self.oid), text_of(&self.value)) {
            (Some(key), Some(text)) => write_text(key, text, f),
            _ => write_hex_value(&self.oid, &self.value, f),
        }
    }
}

/// Writes a name of a type, `=`, and a text with escapes.
fn write_text<W: fmt::Write>(key: &str, text: &str, f: &mut fmt::Formatter<W>) -> fmt::Result
    ensures { WritesOnOk W.write_str_gives f.old result (key.now ++ 61 ∷ escaped (chars text.now))
        f.new }
{
    write!(f, "{key}=")?;
    write_escaped(text, f)
}

/// Writes a dotted OID, `=#`, and the encoding of a value in hexadecimal.
fn write_hex_value<W: fmt::Write>(
    oid: &AttributeType,
    value: &AttributeValue,
    f: &mut fmt::Formatter<W>,
) -> fmt::Result
    ensures { WritesOnOk W.write_str_gives f.old result
        (dotted oid.now ++ 61 ∷ 35 ∷ in_hex (encoding_of value.now)) f.new }
{
    write!(f, "{oid}=#")?;
    write_encoding(value, f)
}

/// Copies the value with its own allocator.
impl Clone for AttributeTypeAndValue {
    ghost is_clone = { λ x y. y ≡ x };

    fn clone(&self) -> Result<AttributeTypeAndValue, AllocError> {
        Ok(AttributeTypeAndValue {
            oid: self.oid,
            value: <Any as Clone>::clone(&self.value)?,
        })
    }
}

/// Decodes an attribute whose four headers have two bytes each. Returns `None` if a header is
/// longer or memory runs out; the general decoder then decides.
// Inlined, so that the attribute is built at its final address.
#[inline(always)]
pub(crate) fn plain_attribute(alloc: Global, octets: &[u8]) -> Option<AttributeTypeAndValue>
    ensures { IfSome result (λ a. Spells (type_and_value Bound) (pair_plain a) octets.now) }
{
    let parts = plain_parts(octets)?;
    let (identifier, tag, value) = parts;
    let Ok(oid) = ObjectIdentifier::from_bytes_sized(identifier) else {
        return None;
    };
    let Ok(lent) = AnyRef::new(tag, value) else {
        return None;
    };
    match lent.ref_to_owned(alloc) {
        Ok(value) => Some(AttributeTypeAndValue { oid, value }),
        Err(_) => None,
    }
}

/// Returns the content of an attribute's type, and the tag and the content of its value, if each of
/// the headers has two bytes.
// Inlined, so that the parts aren't passed through memory.
#[inline(always)]
fn plain_parts(octets: &[u8]) -> Option<(&[u8], Tag, &[u8])>
    ensures { IfSome result (λ p. IsPlain p.0.now p.1 p.2.now octets.now) }
{
    let [first, inner, second, len, rest @ ..] = octets else {
        return None;
    };
    if *first != 0x30 || *second != 0x06 || *inner >= 128 || *inner as usize != rest.len() + 2 {
        return None;
    }
    let len = *len as usize;
    if rest.len() < len {
        return None;
    }
    let (identifier, behind) = rest.split_at(len);
    let [third, value_len, value @ ..] = behind else {
        return None;
    };
    if *value_len as usize != value.len() {
        return None;
    }
    octets_in_range(value);
    let tag = short_tag_of(*third)?;
    Some((identifier, tag, value))
}
