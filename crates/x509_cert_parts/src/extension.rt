//! The types `Extension` and `Extensions`.

ghost use Rattle.std.specs.Prelude.{◌≡◌, refl, IfSome};
ghost use Rattle.der_core.specs.Oid.Bound.{Bound};
ghost use Rattle.der_core.specs.Shapes.{IsBody, body_octets};
ghost use Rattle.der_core.specs.Copies.{IsCopy};
ghost use Rattle.x509_cert_parts.specs.Grammar.{extension_fields};
ghost use Rattle.x509_cert_parts.specs.Views.{extension_plain};

use crate::fronts::{identifier_front, reads_der, true_front};
use der_core::describing::{AsRecord, Described, FieldsView, RowUser, Rows};
use der_core::making::octets_in_range;
use der_core::oid::ObjectIdentifier;
use der_core::{DecodeFields, Error, Reader, lend, read_row};
use der_types::OctetString;
use std::alloc::{AllocError, Global};

/// An extension (RFC 5280 4.1, 4.2), whose content isn't decoded.
///
/// ```text
/// Extension ::= SEQUENCE {
///     extnID     OBJECT IDENTIFIER,
///     critical   BOOLEAN DEFAULT FALSE,
///     extnValue  OCTET STRING }
/// ```
#[derive(Debug, PartialEq, Eq, Drop)]
pub struct Extension {
    /// The OID of the extension.
    pub extn_id: ObjectIdentifier<39>,
    /// True if the extension is critical. Software that doesn't know a critical extension must
    /// reject the certificate (RFC 5280 4.2).
    pub critical: bool,
    /// The encoding of the extension's value.
    pub extn_value: OctetString,
}

/// The extensions of a certificate (RFC 5280 4.1.2.9), in their order. The list may be empty, and
/// may contain two extensions with the same OID.
///
/// ```text
/// Extensions ::= SEQUENCE SIZE (1..MAX) OF Extension
/// ```
pub type Extensions = Vec<Extension>;

impl Extension {
    /// Returns a copy.
    ///
    /// # Errors
    ///
    /// - `AllocError`: memory runs out.
    pub fn clone(&self, alloc: Global) -> Result<Extension, AllocError>
        ensures { IsCopy self.now result extension_plain }
    {
        Ok(Extension {
            extn_id: self.extn_id,
            critical: self.critical,
            extn_value: self.extn_value.clone(alloc)?,
        })
    }
}

impl FieldsView for Extension {
    ghost body = { extension_fields Bound };

    ghost view = { extension_plain };
}

/// Decodes the fields of an extension whose headers have two bytes each. Returns `None` if a header
/// is longer or memory runs out; the general decoder then decides.
#[inline(always)]
fn plain_fields(alloc: Global, octets: &[u8]) -> Option<Extension>
    ensures { IfSome result (λ e. IsBody (extension_fields Bound) (extension_plain e)
        × (body_octets (extension_fields Bound) (extension_plain e) ≡ octets.now)) }
{
    let Some((identifier, behind)) = identifier_front(octets) else {
        return None;
    };
    let (critical, behind) = true_front(behind);
    let [first, len, value @ ..] = behind else {
        return None;
    };
    if *first != 0x04 || *len >= 128 || *len as usize != value.len() {
        return None;
    }
    octets_in_range(value);
    let Ok(extn_id) = ObjectIdentifier::from_bytes_sized(identifier) else {
        return None;
    };
    let Ok(bytes) = Vec::from_slice(alloc, value) else {
        return None;
    };
    let Ok(extn_value) = OctetString::new(bytes) else {
        return None;
    };
    Some(Extension {
        extn_id,
        critical,
        extn_value,
    })
}

impl<'a, R: Reader<'a>> DecodeFields<'a, R> for Extension {
    // Not inlined, so that the fields are moved into place only once.
    #[inline(never)]
    fn decode_fields(alloc: Global, reader: &mut R) -> Result<Extension, Error> {
        if reads_der(reader) {
            let octets = reader.remaining();
            if let Some(extension) = plain_fields(alloc, octets) {
                reader.skip(octets.len());
                return Ok(extension);
            }
        }
        read_row!(alloc, reader; Extension { extn_id, critical: default, extn_value })
    }
}

impl Described for Extension {
    type By = AsRecord;
}

impl Rows for Extension {
    fn with_rows<U: RowUser>(&self, other: &Self, user: &mut U) -> U::Answer {
        lend!(self, other, user; extn_id, critical: default, extn_value)
    }

    ghost apart = { refl };
}
