ghost use Rattle.std.specs.Prelude.{◌≡◌, [], ◌∷◌};
ghost use Rattle.der_core.specs.Oid.Bound.{Bound};
ghost use Rattle.der_core.specs.Reading.{Gives};
ghost use Rattle.x509_cert_names.specs.Views.{attribute_plain};
ghost use Rattle.x509_cert_parts.specs.Views.{extensions_plain};
ghost use Rattle.x509_cert_lists.specs.ListGrammar.{extension_req_arcs, extension_req_attribute};

use der_core::describing::{AsField, Described, Ordered, Wraps};
use der_core::oid::{AssociatedOid, ObjectIdentifier};
use der_core::{Error, StrictSetOf};
use std::alloc::Global;
use x509_cert_names::Attribute;
use x509_cert_parts::Extension;
use x509_cert_parts::types::Any;

/// The extensions that the certificate should have, as the value of an attribute in a CSR (RFC 2985
/// 5.4.2). The list may be empty.
///
/// ```text
/// ExtensionRequest ::= Extensions
/// ```
#[derive(Debug, Drop, PartialEq, Eq)]
pub struct ExtensionReq(pub Vec<Extension>);

impl ExtensionReq {
    /// Returns the value without extensions.
    pub fn default(alloc: Global) -> ExtensionReq
        ensures { result.0.items ≡ [] }
    {
        ExtensionReq(Vec::new(alloc))
    }
}

/// The OID `extensionRequest`, 1.2.840.113549.1.9.14.
impl AssociatedOid for ExtensionReq {
    ghost oid_arcs = { extension_req_arcs };

    fn associated_oid() -> ObjectIdentifier<39> {
        ObjectIdentifier::from_bytes_unwrap(&[0x2a, 0x86, 0x48, 0x86, 0xf7, 0x0d, 1, 9, 0x0e])
    }
}

impl Described for ExtensionReq {
    type By = AsField<Vec<Extension>>;
}

impl Wraps<Vec<Extension>> for ExtensionReq {
    ghost inner = { λ x. x.0 };

    fn inner(&self) -> &Vec<Extension> {
        &self.0
    }

    ghost made = { λ _ _ e. e };
}

impl Ordered for ExtensionReq {}

impl From<Vec<Extension>> for ExtensionReq {
    ghost from_gives = { λ v x. x.0 ≡ v };

    fn from(value: Vec<Extension>) -> ExtensionReq {
        ExtensionReq(value)
    }
}

impl From<ExtensionReq> for Vec<Extension> {
    ghost from_gives = { λ x v. v ≡ x.0 };

    fn from(value: ExtensionReq) -> Vec<Extension> {
        value.0
    }
}

impl AsRef<Vec<Extension>> for ExtensionReq {
    fn as_ref(&self) -> &Vec<Extension>
        ensures { result.now ≡ self.now.0 }
    {
        &self.0
    }
}

impl AsMut<Vec<Extension>> for ExtensionReq {
    ghost use Rattle.std.specs.Borrow.{sem, Lends};
    ghost use Rattle.der_core.specs.Rows.{list_row};
    ghost use Rattle.x509_cert_parts.specs.contracts.extension.Extension.{the_row as member_row};
    ghost use Rattle.x509_cert_lists.specs.contracts.extension_req.ExtensionReq.{the_row};

    fn as_mut(&mut self) -> &mut Vec<Extension>
        ensures* writes_back { sem 𝓛 (Lends the_row (list_row member_row) self.entry result
            (λ w. record { 0 = w })) }
        ensures value { result.now ≡ self.old.0 }
    {
        &mut self.0
    }
}

/// A type that can be made from the extensions that a CSR asks for.
pub trait TryFromExtensionReq: Sized {
    /// Converts the extensions that a CSR asks for.
    ///
    /// # Errors
    ///
    /// - The errors of the type.
    /// - `OutOfMemory`: memory runs out.
    fn try_from_extension_req(alloc: Global, request: ExtensionReq) -> Result<Self, Error>;
}

impl TryFromExtensionReq for Attribute {
    /// Returns the attribute `extensionRequest` whose only value is the list of the extensions.
    ///
    /// # Errors
    ///
    /// - `Overflow`: the encoding of the list has 2^32 bytes or more.
    /// - `OutOfMemory`: memory runs out.
    fn try_from_extension_req(alloc: Global, request: ExtensionReq) -> Result<Attribute, Error>
        ensures { Gives attribute_plain result
            (extension_req_attribute Bound (extensions_plain request.0.items)) }
    {
        let value = Any::encode_from(alloc, &request)?;
        let mut values = Vec::new(alloc);
        values.push(value)?;
        Ok(Attribute {
            oid: ExtensionReq::associated_oid(),
            values: StrictSetOf { values },
        })
    }
}
