//! SignerInfo.

ghost use Rattle.std.specs.Prelude.{[], refl};
ghost use Rattle.der_types_more.specs.OptionalSets.{value_or};

use crate::aliases::{
    DigestAlgorithmIdentifier, SignatureAlgorithmIdentifier, SignatureValue, SignedAttributes,
    UnsignedAttributes,
};
use crate::cms_version::CmsVersion;
use crate::signer_identifier::SignerIdentifier;
use der_core::describing::{
    AsRecord, Described, FieldRow, FieldsView, ReadRow, RowUser, Rows, Whole,
};
use der_core::{DecodeFields, EncodeRef, Error, Reader, Shaped, ShapedValue, WithDefault};
use der_types_more::{OptionalSet, members_of};
use std::alloc::Global;
use x509_cert_reading::Attribute;

/// ```text
/// SignerInfo ::= SEQUENCE {
///     version CMSVersion,
///     sid SignerIdentifier,
///     digestAlgorithm DigestAlgorithmIdentifier,
///     signedAttrs [0] IMPLICIT SignedAttributes OPTIONAL,
///     signatureAlgorithm SignatureAlgorithmIdentifier,
///     signature SignatureValue,
///     unsignedAttrs [1] IMPLICIT UnsignedAttributes OPTIONAL }
/// ```
#[derive(Debug, Drop, PartialEq, Eq)]
pub struct SignerInfo {
    pub version: CmsVersion,
    pub sid: SignerIdentifier,
    pub digest_algorithm: DigestAlgorithmIdentifier,
    pub signed_attrs: Option<SignedAttributes>,
    pub signature_algorithm: SignatureAlgorithmIdentifier,
    pub signature: SignatureValue,
    pub unsigned_attrs: Option<UnsignedAttributes>,
}

type Row = (
    Whole<CmsVersion>,
    (
        Whole<SignerIdentifier>,
        (
            Whole<DigestAlgorithmIdentifier>,
            (
                WithDefault<OptionalSet<Attribute, 0>>,
                (
                    Whole<SignatureAlgorithmIdentifier>,
                    (
                        Whole<SignatureValue>,
                        (WithDefault<OptionalSet<Attribute, 1>>, ()),
                    ),
                ),
            ),
        ),
    ),
);

impl Described for SignerInfo {
    type By = AsRecord;
}

impl FieldsView for SignerInfo {
    ghost body = { ⟦<Row as FieldRow>⟧.fields };

    ghost view = { λ r. (
      ⟦<CmsVersion as Shaped>⟧.plain r.version,
      (
        ⟦<SignerIdentifier as Shaped>⟧.plain r.sid,
        (
          ⟦<DigestAlgorithmIdentifier as Shaped>⟧.plain r.digest_algorithm,
          (
            value_or [] ⟦<SignedAttributes as ShapedValue>⟧.value_plain r.signed_attrs,
            (
              ⟦<SignatureAlgorithmIdentifier as Shaped>⟧.plain r.signature_algorithm,
              (
                ⟦<SignatureValue as Shaped>⟧.plain r.signature,
                (
                  value_or [] ⟦<UnsignedAttributes as ShapedValue>⟧.value_plain r.unsigned_attrs,
                  tt,
                ),
              ),
            ),
          ),
        ),
      ),
    ) };
}

impl<'a, R: Reader<'a>> DecodeFields<'a, R> for SignerInfo {
    fn decode_fields(alloc: Global, reader: &mut R) -> Result<SignerInfo, Error> {
        let (
            version,
            (
                sid,
                (
                    digest_algorithm,
                    (signed_attrs, (signature_algorithm, (signature, (unsigned_attrs, ())))),
                ),
            ),
        ) = Row::read_row(alloc, reader)?;
        Ok(SignerInfo {
            version: version.0,
            sid: sid.0,
            digest_algorithm: digest_algorithm.0,
            signed_attrs: signed_attrs.value.0,
            signature_algorithm: signature_algorithm.0,
            signature: signature.0,
            unsigned_attrs: unsigned_attrs.value.0,
        })
    }
}

impl Rows for SignerInfo {
    fn with_rows<U: RowUser>(&self, other: &Self, user: &mut U) -> U::Answer {
        user.take_lent(
            &(
                EncodeRef(&self.version),
                (
                    EncodeRef(&self.sid),
                    (
                        EncodeRef(&self.digest_algorithm),
                        (
                            WithDefault {
                                value: members_of::<_, 0>(&self.signed_attrs),
                            },
                            (
                                EncodeRef(&self.signature_algorithm),
                                (
                                    EncodeRef(&self.signature),
                                    (
                                        WithDefault {
                                            value: members_of::<_, 1>(&self.unsigned_attrs),
                                        },
                                        (),
                                    ),
                                ),
                            ),
                        ),
                    ),
                ),
            ),
            &(
                EncodeRef(&other.version),
                (
                    EncodeRef(&other.sid),
                    (
                        EncodeRef(&other.digest_algorithm),
                        (
                            WithDefault {
                                value: members_of::<_, 0>(&other.signed_attrs),
                            },
                            (
                                EncodeRef(&other.signature_algorithm),
                                (
                                    EncodeRef(&other.signature),
                                    (
                                        WithDefault {
                                            value: members_of::<_, 1>(&other.unsigned_attrs),
                                        },
                                        (),
                                    ),
                                ),
                            ),
                        ),
                    ),
                ),
            ),
        )
    }

    ghost apart = { refl };
}
