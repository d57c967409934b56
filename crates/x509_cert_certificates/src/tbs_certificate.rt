//! The signed part of certificates (RFC 5280 4.1.2).

ghost use Rattle.std.specs.Prelude.{◌≡◌, pos, refl};
ghost use Rattle.der_core.specs.Oid.Bound.{Bound};
ghost use Rattle.der_core.specs.Shapes.{BodyValue};
ghost use Rattle.der_core.specs.Grammar.{plain_option};
ghost use Rattle.x509_cert_names.specs.Views.{name_plain};
ghost use Rattle.x509_cert_parts.specs.Views.{version_number, validity_plain, algorithm_plain};
ghost use Rattle.x509_cert_parts.specs.Views.{key_plain, extensions_plain};
ghost use Rattle.der_core.specs.Reading.{Gives};
ghost use Rattle.x509_cert_parts.specs.ExtensionSearch.{only_value, extensions_in_field};
ghost use Rattle.x509_cert_certificates.specs.Certificates.{tbs_fields, from_validity, tbs_by};
ghost use Rattle.x509_cert_certificates.specs.Certificates.{tbs_version, tbs_from_validity};
ghost use Rattle.x509_cert_certificates.specs.Certificates.{tbs_serial, tbs_inner_algorithm};
ghost use Rattle.x509_cert_certificates.specs.Certificates.{tbs_issuer, tbs_validity, tbs_subject};
ghost use Rattle.x509_cert_certificates.specs.Certificates.{tbs_public_key, tbs_issuer_unique_id};
ghost use Rattle.x509_cert_certificates.specs.Certificates.{tbs_subject_unique_id, tbs_extensions};
ghost use Rattle.x509_cert_certificates.specs.Views.{tbs_plain};

use der_core::describing::{AsRecord, DecodeRow, Described, LentRow, RowUser, Rows};
use der_core::making::{explicit_of, explicit_ref, implicit_of, implicit_ref};
use der_core::oid::AssociatedOid;
use der_core::{
    Decode, DecodeFields, EncodeRef, Error, Explicit, Fields, Implicit, ImplicitRef, Length,
    Reader, SliceReader, Tag, WithDefault, Writer,
};
use std::alloc::Global;
use std::cmp::Ordering;
use x509_cert_names::Name;
use x509_cert_parts::types::BitString;
use x509_cert_parts::{
    AlgorithmIdentifier, Extensions, ExtensionsOf, Profile, Rfc5280, SerialNumber,
    SubjectPublicKeyInfo, Validity, Version, filter_extensions, get_extension,
};

/// A TBSCertificate, the part of a certificate that is signed (RFC 5280 4.1.2). Decoding doesn't
/// compare the version with the fields that are present, and accepts an empty list of extensions.
///
/// ```text
/// TBSCertificate ::= SEQUENCE {
///     version               [0] EXPLICIT Version DEFAULT v1,
///     serialNumber          CertificateSerialNumber,
///     signature             AlgorithmIdentifier,
///     issuer                Name,
///     validity              Validity,
///     subject               Name,
///     subjectPublicKeyInfo  SubjectPublicKeyInfo,
///     issuerUniqueID        [1] IMPLICIT UniqueIdentifier OPTIONAL,
///     subjectUniqueID       [2] IMPLICIT UniqueIdentifier OPTIONAL,
///     extensions            [3] EXPLICIT Extensions OPTIONAL }
/// ```
#[derive(Drop)]
#[derive_where(Debug, PartialEq, Eq)]
pub struct TbsCertificateInner<P = Rfc5280> {
    /// The version.
    pub(crate) version: Version,
    /// The serial number, which is unique for each issuer (RFC 5280 4.1.2.2).
    pub(crate) serial_number: SerialNumber<P>,
    /// The signature algorithm. RFC 5280 4.1.2.3 requires it to be the one beside the signature;
    /// decoding doesn't compare the two.
    pub(crate) signature: AlgorithmIdentifier,
    /// The name of the issuer, who signs the certificate.
    pub(crate) issuer: Name,
    /// The period for which the certificate is valid.
    pub(crate) validity: Validity<P>,
    /// The name of the subject, to whom the key belongs.
    pub(crate) subject: Name,
    /// The public key of the subject.
    pub(crate) subject_public_key_info: SubjectPublicKeyInfo,
    /// Bits that distinguish the issuer from others with the same name (RFC 5280 4.1.2.8).
    pub(crate) issuer_unique_id: Option<BitString>,
    /// Bits that distinguish the subject from others with the same name (RFC 5280 4.1.2.8).
    pub(crate) subject_unique_id: Option<BitString>,
    /// The extensions.
    pub(crate) extensions: Option<Extensions>,
}

/// A TBSCertificate under the profile of RFC 5280.
pub type TbsCertificate = TbsCertificateInner<Rfc5280>;

/// The version in its explicit tag.
type Numbered = WithDefault<Explicit<Version, 0>>;

type Row<P> = (
    Numbered,
    (SerialNumber<P>, (AlgorithmIdentifier, (Name, Behind<P>))),
);

/// The fields from the validity on.
type Behind<P> = (Validity<P>, (Name, (SubjectPublicKeyInfo, Last)));

/// The optional fields at the end.
type Last = (
    Option<Implicit<BitString, 1>>,
    (
        Option<Implicit<BitString, 2>>,
        (Option<Explicit<Extensions, 3>>, ()),
    ),
);

type RowRef<'a, P> = (
    Numbered,
    (
        EncodeRef<'a, SerialNumber<P>>,
        (
            EncodeRef<'a, AlgorithmIdentifier>,
            (EncodeRef<'a, Name>, BehindRef<'a, P>),
        ),
    ),
);

type BehindRow<'a, P> = (
    EncodeRef<'a, Validity<P>>,
    (
        EncodeRef<'a, Name>,
        (EncodeRef<'a, SubjectPublicKeyInfo>, LastRef<'a>),
    ),
);

type LastRef<'a> = (
    Option<ImplicitRef<'a, BitString, 1>>,
    (
        Option<ImplicitRef<'a, BitString, 2>>,
        (Option<Explicit<EncodeRef<'a, Extensions>, 3>>, ()),
    ),
);

/// The fields from the validity on, borrowed. They are a type of their own, since a contract can't
/// describe a tuple of ten fields.
#[derive(Drop)]
struct BehindRef<'a, P>(&'a TbsCertificateInner<P>);

impl<P: Profile> TbsCertificateInner<P> {
    /// Returns the fields in their order, borrowed.
    fn row<'a>(&'a self) -> RowRef<'a, P>
        ensures { ⟦<RowRef<'a, P> as LentRow>⟧.fields_written result
            ≡ tbs_by P.respells (tbs_plain self.now) }
    {
        let version = WithDefault {
            value: Explicit {
                value: self.version,
            },
        };
        (
            version,
            (
                EncodeRef(&self.serial_number),
                (
                    EncodeRef(&self.signature),
                    (EncodeRef(&self.issuer), BehindRef(self)),
                ),
            ),
        )
    }

    /// Returns the fields from the validity on in their order, borrowed.
    fn behind<'a>(&'a self) -> BehindRow<'a, P>
        ensures { ◌≡◌ {A = BodyValue (from_validity Bound)}
            (⟦<BehindRow<'a, P> as LentRow>⟧.fields_written result)
            (tbs_from_validity (tbs_by P.respells (tbs_plain self.now))) }
    {
        let last = (
            implicit_ref(&self.issuer_unique_id),
            (
                implicit_ref(&self.subject_unique_id),
                (explicit_ref(&self.extensions), ()),
            ),
        );
        (
            EncodeRef(&self.validity),
            (
                EncodeRef(&self.subject),
                (EncodeRef(&self.subject_public_key_info), last),
            ),
        )
    }
}

impl<'a, P: Profile> LentRow for BehindRef<'a, P> {
    ghost fields = { from_validity Bound };

    ghost fields_written = { λ b. tbs_from_validity (tbs_by P.respells (tbs_plain b.0.now)) };

    fn row_len(&self) -> Result<Length, Error> {
        self.0.behind().row_len()
    }

    fn encode_row<W: Writer>(&self, writer: &mut W) -> Result<(), Error> {
        self.0.behind().encode_row(writer)
    }

    fn row_cmp(&self, other: &Self) -> Result<Ordering, Error> {
        self.0.behind().row_cmp(&other.0.behind())
    }

    fn row_tag(&self) -> Option<Tag> {
        self.0.behind().row_tag()
    }
}

impl<P: Profile> Fields for TbsCertificateInner<P> {
    ghost fields = { tbs_fields Bound P.serial_limit };

    ghost fields_plain = { tbs_plain };

    ghost fields_written = { λ t. tbs_by P.respells (tbs_plain t) };
}

impl<'a, R: Reader<'a>, P: Profile> DecodeFields<'a, R> for TbsCertificateInner<P> {
    // Not inlined, so that the fields are moved into place only once.
    #[inline(never)]
    fn decode_fields(alloc: Global, reader: &mut R) -> Result<TbsCertificateInner<P>, Error> {
        let (version, (serial_number, (signature, (issuer, behind)))) = <Row<P>>::decode_row(
            alloc, reader,
        )?;
        let (validity, (subject, (subject_public_key_info, last))) = behind;
        let (issuer_unique_id, (subject_unique_id, (extensions, ()))) = last;
        Ok(TbsCertificateInner {
            version: version.value.value,
            serial_number,
            signature,
            issuer,
            validity,
            subject,
            subject_public_key_info,
            issuer_unique_id: implicit_of(issuer_unique_id),
            subject_unique_id: implicit_of(subject_unique_id),
            extensions: explicit_of(extensions),
        })
    }
}

impl<P: Profile> Described for TbsCertificateInner<P> {
    type By = AsRecord;
}

impl<P: Profile> Rows for TbsCertificateInner<P> {
    fn with_rows<U: RowUser>(&self, other: &Self, user: &mut U) -> U::Answer {
        user.take_lent(&self.row(), &other.row())
    }

    ghost apart = { refl };
}

impl<P> TbsCertificateInner<P> {
    /// Returns the version.
    pub fn version(&self) -> Version
        ensures { pos (version_number result) ≡ tbs_version (tbs_plain self.now) }
    {
        self.version
    }

    /// Returns the serial number.
    pub fn serial_number(&self) -> &SerialNumber<P>
        ensures { result.now ≡ tbs_serial (tbs_plain self.now) }
    {
        &self.serial_number
    }

    /// Returns the signature algorithm in the TBSCertificate.
    pub fn signature(&self) -> &AlgorithmIdentifier
        ensures { algorithm_plain result.now ≡ tbs_inner_algorithm (tbs_plain self.now) }
    {
        &self.signature
    }

    /// Returns the issuer, who signed the certificate.
    pub fn issuer(&self) -> &Name
        ensures { name_plain result.now ≡ tbs_issuer (tbs_plain self.now) }
    {
        &self.issuer
    }

    /// Returns the period for which the certificate is valid.
    pub fn validity(&self) -> &Validity<P>
        ensures { validity_plain result.now ≡ tbs_validity (tbs_plain self.now) }
    {
        &self.validity
    }

    /// Returns the subject, to whom the key belongs.
    pub fn subject(&self) -> &Name
        ensures { name_plain result.now ≡ tbs_subject (tbs_plain self.now) }
    {
        &self.subject
    }

    /// Returns the public key of the subject.
    pub fn subject_public_key_info(&self) -> &SubjectPublicKeyInfo
        ensures { key_plain result.now ≡ tbs_public_key (tbs_plain self.now) }
    {
        &self.subject_public_key_info
    }

    /// Returns the bits that distinguish issuers with the same name (RFC 5280 4.1.2.8).
    pub fn issuer_unique_id(&self) -> &Option<BitString>
        ensures { result.now ≡ tbs_issuer_unique_id (tbs_plain self.now) }
    {
        &self.issuer_unique_id
    }

    /// Returns the bits that distinguish subjects with the same name (RFC 5280 4.1.2.8).
    pub fn subject_unique_id(&self) -> &Option<BitString>
        ensures { result.now ≡ tbs_subject_unique_id (tbs_plain self.now) }
    {
        &self.subject_unique_id
    }

    /// Returns the extensions in their order (RFC 5280 4.2), or `None` if the field is absent.
    pub fn extensions(&self) -> Option<&Extensions>
        ensures { plain_option (λ r. extensions_plain r.now.items) result
            ≡ tbs_extensions (tbs_plain self.now) }
    {
        self.extensions.as_ref()
    }

    /// Finds the only extension with the OID of `T`, and decodes its content. Returns whether the
    /// extension is critical and its value, or `None` if there is no such extension.
    ///
    /// # Examples
    ///
    /// From `crates/example_extensions_of_certificate/src/main.rt`:
    ///
    /// ```rust
    /// let usage = certificate.get_extension::<KeyUsage>(alloc)?;
    /// Ok(usage.map_or(true, |(_, usage)| usage.key_cert_sign()))
    /// ```
    ///
    /// # Errors
    ///
    /// - `Failed`: there are two such extensions, which RFC 5280 4.2 forbids.
    /// - The errors of decoding the content of the extension as a `T`.
    /// - `OutOfMemory`: memory runs out.
    pub fn get_extension<'a, T: AssociatedOid + Decode<'a, SliceReader<'a>>>(
        &'a self,
        alloc: Global,
    ) -> Result<Option<(bool, T)>, Error>
        ensures { Gives (plain_option (λ x. (x.0, T.plain x.1))) result
            (only_value T.shape T.oid_arcs
            (extensions_in_field (tbs_extensions (tbs_plain self.now)))) }
    {
        match &self.extensions {
            Some(extensions) => get_extension(alloc, extensions.as_slice()),
            None => Ok(None),
        }
    }

    /// Returns an iterator over the extensions with the OID of `T`, in their order. Each item is
    /// whether the extension is critical and its value, or the error of decoding it.
    pub fn filter_extensions<'a, T: AssociatedOid>(&'a self, alloc: Global) -> ExtensionsOf<'a, T>
        ensures { extensions_plain result.left.now
            ≡ extensions_in_field (tbs_extensions (tbs_plain self.now)) }
    {
        match &self.extensions {
            Some(extensions) => filter_extensions(alloc, extensions.as_slice()),
            None => filter_extensions(alloc, &[]),
        }
    }
}
