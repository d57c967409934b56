ghost use Rattle.std.specs.Prelude.{◌≡◌, ◌⊎◌, ◌++◌, ◌∷◌, [], false, Ok, Some, None, IfOk, IfErr};
ghost use Rattle.std.specs.Prelude.{OnOk, OnErr, IsOk};
ghost use Rattle.x509_cert_anchors.specs.Oid.Bound.{Bound};
ghost use Rattle.x509_cert_anchors.specs.Der.Placed.{placed, stands_among};
ghost use Rattle.x509_cert_anchors.specs.Der.Shapes.{IsValid};
ghost use Rattle.x509_cert_lists.specs.Attributes.{any_of, attribute_of};
ghost use Rattle.x509_cert_lists.specs.ListGrammar.{extension_req_attribute};
ghost use Rattle.x509_cert_lists.specs.CertNames.Names.{PlainAttribute, attribute};
ghost use Rattle.x509_cert_lists.specs.CertParts.Views.{algorithm_plain, extensions_plain};
ghost use Rattle.x509_cert_lists.specs.CertParts.Views.{key_plain};
ghost use Rattle.x509_cert_lists.specs.CertNames.Views.{attribute_plain, name_plain};
ghost use Rattle.x509_cert_lists.specs.ListViews.{cert_req_info_plain, cert_req_plain};
ghost use Rattle.x509_cert_builders.specs.Refusals.{IsUnwritten, IsWantOfMemory, IsWantOfMemoryAs};
ghost use Rattle.x509_cert.specs.Requests.{HasNoAttribute, IsNotAdded, IsRequested};
ghost use Rattle.x509_cert.specs.Requests.{request_of, request_part};
ghost use Rattle.x509_cert.specs.Signed.{octets_in_place};

use crate::list_laws::signed_part_stands_in_place;
use crate::list_writing::written;
use std::alloc::Global;
use std::marker::Model;
use x509_cert_anchors::der::making::{copies_of, place_of};
use x509_cert_anchors::der::{ErrorKind, InRange, StrictSetOf, ToDer};
use x509_cert_builders::cert_extensions::ToExtension;
use x509_cert_builders::{Builder, Error, Signer};
use x509_cert_lists::cert_names::{Attribute, Name};
use x509_cert_lists::cert_parts::{Extension, Extensions, SubjectPublicKeyInfo};
use x509_cert_lists::request::Version;
use x509_cert_lists::types::BitString;
use x509_cert_lists::{AsAttribute, CertReq, CertReqInfo, ExtensionReq, TryFromExtensionReq};

/// A builder of CSRs (RFC 2986). The extensions that the CSR asks for are in one attribute, which
/// each `finalize` builds.
///
/// In contracts, its value is a `RequestState`: the subject, the extensions that the CSR asks for,
/// the other attributes, and the part of the last `finalize`.
#[derive(Drop)]
pub struct RequestBuilder {
    subject: Name,
    extensions: ExtensionReq,
    attributes: StrictSetOf<Attribute>,
    finalized: Option<CertReqInfo>,
}

impl Model for RequestBuilder {
    ghost use Rattle.x509_cert_anchors.specs.Oid.Bound.{Bound};
    ghost use Rattle.x509_cert_anchors.specs.Der.Placed.{AllValid};
    ghost use Rattle.x509_cert_lists.specs.CertNames.Names.{attribute};
    ghost use Rattle.x509_cert_lists.specs.CertNames.Views.{attribute_plain};
    ghost use Rattle.x509_cert.specs.States.{RequestState, request_state};

    ghost Value = { RequestState };

    ghost view = { request_state };

    ghost invariant = { λ b. AllValid (attribute Bound) attribute_plain b.attributes.values.items };
}

/// Returns the attribute that asks for these extensions (RFC 2985 5.4.2), if it has an encoding.
///
/// # Errors
///
/// - `Asn1` with the error of encoding the attribute: it has no encoding.
/// - `Asn1` with `OutOfMemory`: memory runs out.
fn attribute_for(alloc: Global, extensions: Extensions) -> Result<Attribute, Error>
    ensures made { IfOk result
        (λ a. extension_req_attribute Bound (extensions_plain extensions.items)
        ≡ Ok (attribute_plain a)) }
    ensures valid { IfOk result (λ a. IsValid (attribute Bound) (attribute_plain a)) }
    ensures refused { IfErr result (λ e. IsWantOfMemory e
        ⊎ HasNoAttribute (extension_req_attribute Bound (extensions_plain extensions.items)) e) }
{
    let request = Attribute::try_from_extension_req(alloc, ExtensionReq(extensions))?;
    let _octets = written(alloc, &request)?;
    Ok(request)
}

impl RequestBuilder {
    /// Returns a builder of a CSR of this subject, without extensions and other attributes. The
    /// call always succeeds.
    pub fn new(alloc: Global, subject: Name) -> Result<RequestBuilder, Error>
        ensures made { IfOk result (λ b. b ≡ record {
          subject = name_plain subject;
          extensions = [];
          attributes = [];
          finalized = None;
        }) }
        ensures never_refused { IsOk result }
    {
        Ok(RequestBuilder {
            subject,
            extensions: ExtensionReq::default(alloc),
            attributes: StrictSetOf {
                values: Vec::new(alloc),
            },
            finalized: None,
        })
    }

    /// Adds an extension to those that the CSR asks for.
    ///
    /// If the call fails, the builder is unchanged.
    ///
    /// # Errors
    ///
    /// - The errors of `ToExtension::to_extension`.
    /// - `OutOfMemory`, converted to `E::Error`: memory runs out.
    pub fn add_extension<E: ToExtension>(
        &mut self,
        alloc: Global,
        extension: E,
    ) -> Result<(), E::Error>
        ensures added { OnOk result
            (self.new
            ≡ record self.old {
              extensions = self.old.extensions
                  ++ E.made extension self.old.subject self.old.extensions ∷ [];
            }) }
        ensures kept { OnErr result (self.new ≡ self.old) }
        ensures refused { IfErr result (λ e. E.refused extension e
            ⊎ IsWantOfMemoryAs E.Error.from_gives e) }
    {
        let made = extension.to_extension(alloc, &self.subject, self.extensions.0.as_slice())?;
        match self.extensions.0.push(made) {
            Ok(()) => Ok(()),
            Err(error) => Err(E::Error::from(x509_cert_anchors::der::Error::from(error))),
        }
    }

    /// Adds an attribute at the position that its encoding requires.
    ///
    /// If the call fails, the builder is unchanged.
    ///
    /// # Errors
    ///
    /// - `Asn1` with `SetDuplicate`: the CSR already contains the attribute.
    /// - `Asn1` with an error of `AsAttribute::to_attribute`, or of encoding the attribute: for
    ///   example `Overflow` if the encoding has 2^32 bytes or more.
    /// - `Asn1` with `OutOfMemory`: memory runs out.
    pub fn add_attribute<A: AsAttribute>(&mut self, alloc: Global, value: &A) -> Result<(), Error>
        ensures added { OnOk result
            ((a : PlainAttribute)
            × (attribute_of A.oid_arcs (any_of A.shape (A.written value.now)) ≡ Ok a)
            × (self.new
            ≡ record self.old { attributes = placed (attribute Bound) a self.old.attributes })) }
        ensures once { OnOk result
            ((a : PlainAttribute) → attribute_of A.oid_arcs (any_of A.shape (A.written value.now))
            ≡ Ok a → stands_among (attribute Bound) a self.old.attributes ≡ false) }
        ensures kept { OnErr result (self.new ≡ self.old) }
        ensures refused { IfErr result (λ e. IsWantOfMemory e
            ⊎ IsNotAdded (attribute_of A.oid_arcs (any_of A.shape (A.written value.now)))
            self.old.attributes e) }
    {
        let made = value.to_attribute(alloc)?;
        made.in_range();
        let _octets = made.to_der(alloc)?;
        self.attributes.insert(made)?;
        Ok(())
    }

    /// Returns the part that a signer with this key signs.
    ///
    /// # Errors
    ///
    /// - `Asn1` with the error of encoding the attribute for the extensions: it has no encoding.
    /// - `Asn1` with `OutOfMemory`: memory runs out.
    fn part_for(&self, alloc: Global, key: &SubjectPublicKeyInfo) -> Result<CertReqInfo, Error>
        ensures made { IfOk result (λ i. cert_req_info_plain i
            ≡ request_of self.now.subject self.now.extensions self.now.attributes
            (key_plain key.now)) }
        ensures asked { IfOk result
            (λ _. IsOk (extension_req_attribute Bound self.now.extensions)) }
        ensures refused { IfErr result (λ e. IsWantOfMemory e
            ⊎ HasNoAttribute (extension_req_attribute Bound self.now.extensions) e) }
    {
        let extensions = copies_of(alloc, self.extensions.0.as_slice(), Extension::clone)?;
        let request = attribute_for(alloc, extensions)?;
        let mut values = copies_of(alloc, self.attributes.as_slice(), Attribute::clone)?;
        let place = place_of(values.as_slice(), &request)?;
        values.insert(place, request)?;
        let subject = self.subject.clone(alloc)?;
        let public_key = key.clone(alloc)?;
        Ok(CertReqInfo {
            version: Version::V1,
            subject,
            public_key,
            attributes: StrictSetOf { values },
        })
    }
}

impl Builder for RequestBuilder {
    type Output = CertReq;

    ghost part_shape = { request_part };

    ghost to_sign = { λ b key _. request_of b.subject b.extensions b.attributes key };

    ghost is_valid = { λ b key _. IsRequested b.subject b.extensions b.attributes key };

    // The attribute that asks for the extensions has no encoding, or the signed part has none.
    ghost faults = { λ b key _ e. HasNoAttribute (extension_req_attribute Bound b.extensions) e
        ⊎ IsUnwritten request_part (request_of b.subject b.extensions b.attributes key) e };

    ghost finalized = { λ b. b.finalized };

    ghost is_same_otherwise = { λ b c. c ≡ record b { finalized = c.finalized } };

    // The signed part of a CSR contains no algorithm (RFC 2986 4.1), so the signature algorithm of
    // the CSR is that of its signer.
    ghost algorithm_for = { λ _ signer. signer };

    ghost signed_part = { λ r. cert_req_info_plain r.info };

    ghost signed_octets = { λ r. octets_in_place request_part (cert_req_plain r) };

    ghost outer_algorithm = { λ r. algorithm_plain r.algorithm };

    ghost bits = { λ r. r.signature };

    fn finalize<S: Signer>(&mut self, alloc: Global, signer: &S) -> Result<Vec<u8>, Error> {
        let part = self.part_for(alloc, signer.key_info())?;
        let octets = written(alloc, &part)?;
        self.finalized = Some(part);
        Ok(octets)
    }

    fn assemble<S: Signer>(
        self,
        alloc: Global,
        signature: BitString,
        signer: &S,
    ) -> Result<CertReq, Error> {
        let RequestBuilder { finalized, .. } = self;
        let Some(info) = finalized else {
            return Err(Error::Asn1(x509_cert_anchors::der::Error::from(ErrorKind::Failed)));
        };
        let algorithm = signer.algorithm().clone(alloc)?;
        signed_part_stands_in_place();
        Ok(CertReq {
            info,
            algorithm,
            signature,
        })
    }
}
