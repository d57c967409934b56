ghost use Rattle.std.specs.Prelude.{◌≡◌, refl};
ghost use Rattle.der_core.specs.Oid.Bound.{Bound};
ghost use Rattle.x509_cert_anchors.specs.Anchors.{trust_anchor_info_fields, trust_anchor_info_by};
ghost use Rattle.x509_cert_anchors.specs.AnchorViews.{trust_anchor_info_plain};

use crate::anchor::Version;
use crate::cert_path_controls::CertPathControls;
use der_core::describing::{AsRecord, Described, RowUser, Rows};
use der_core::{DecodeFields, Error, Fields, Reader, lend, read_row};
use std::alloc::Global;
use x509_cert_policies::cert_parts::{Extensions, Profile, Rfc5280, SubjectPublicKeyInfo};
use x509_cert_policies::types::OctetString;

/// A trust anchor given by its key (RFC 5914 2).
///
/// ```text
/// TrustAnchorInfo ::= SEQUENCE {
///     version         INTEGER { v1(1) } DEFAULT v1,
///     pubKey          SubjectPublicKeyInfo,
///     keyId           OCTET STRING,
///     taTitle         UTF8String OPTIONAL,
///     certPath        CertPathControls OPTIONAL,
///     exts            [1] EXPLICIT Extensions OPTIONAL,
///     taTitleLangTag  [2] UTF8String OPTIONAL }
/// ```
#[derive(Drop)]
#[derive_where(Debug, PartialEq, Eq)]
pub struct TrustAnchorInfo<P = Rfc5280> {
    /// The version.
    pub version: Version,
    /// The public key.
    pub pub_key: SubjectPublicKeyInfo,
    /// The key identifier of the key.
    pub key_id: OctetString,
    /// A title of the trust anchor, for display.
    pub ta_title: Option<String>,
    /// The name of the trust anchor, and the constraints on certificate chains from it. If absent,
    /// no chain can be validated with this anchor.
    pub cert_path: Option<CertPathControls<P>>,
    /// The extensions of the trust anchor, in their order.
    pub extensions: Option<Extensions>,
    /// The language of the title.
    pub ta_title_lang_tag: Option<String>,
}

impl<P: Profile> Fields for TrustAnchorInfo<P> {
    ghost fields = { trust_anchor_info_fields Bound P.serial_limit };

    ghost fields_plain = { trust_anchor_info_plain };

    ghost fields_written = { λ x. trust_anchor_info_by P.respells (trust_anchor_info_plain x) };
}

impl<'a, R: Reader<'a>, P: Profile> DecodeFields<'a, R> for TrustAnchorInfo<P> {
    fn decode_fields(alloc: Global, reader: &mut R) -> Result<TrustAnchorInfo<P>, Error> {
        read_row!(alloc, reader; TrustAnchorInfo {
            version: default, pub_key, key_id, ta_title, cert_path, extensions: explicit 1 optional,
            ta_title_lang_tag: implicit 2 optional,
        })
    }
}

impl<P: Profile> Described for TrustAnchorInfo<P> {
    type By = AsRecord;
}

impl<P: Profile> Rows for TrustAnchorInfo<P> {
    fn with_rows<U: RowUser>(&self, other: &Self, user: &mut U) -> U::Answer {
        lend!(self, other, user;
            version: default, pub_key, key_id, ta_title, cert_path, extensions: explicit 1 optional,
            ta_title_lang_tag: implicit 2 optional)
    }

    ghost apart = { refl };
}
