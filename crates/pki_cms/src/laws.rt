//! Laws about the types. Each law is the contract of a function that does nothing.

ghost use Rattle.std.specs.Prelude.{◌≡◌, true};
ghost use Rattle.der_core.specs.Limits.{levels_max};
ghost use Rattle.der_core.specs.Spelling.{are_enough};

use crate::*;
use der_core::Shaped;

/// No value of these types has more levels of nesting than a reader allows, so decoding accepts all
/// of their encodings.
pub fn types_are_within_levels()
    ensures certificate_choices { are_enough
        ⟦<CertificateChoices as Shaped>⟧.shape levels_max ≡ true }
    ensures certificate_set { are_enough ⟦<CertificateSet as Shaped>⟧.shape levels_max ≡ true }
    ensures cms_version { are_enough ⟦<CmsVersion as Shaped>⟧.shape levels_max ≡ true }
    ensures content_info { are_enough ⟦<ContentInfo as Shaped>⟧.shape levels_max ≡ true }
    ensures digest_algorithm_identifiers { are_enough
        ⟦<DigestAlgorithmIdentifiers as Shaped>⟧.shape levels_max ≡ true }
    ensures digested_data { are_enough ⟦<DigestedData as Shaped>⟧.shape levels_max ≡ true }
    ensures encapsulated_content_info { are_enough
        ⟦<EncapsulatedContentInfo as Shaped>⟧.shape levels_max ≡ true }
    ensures encrypted_content_info { are_enough
        ⟦<EncryptedContentInfo as Shaped>⟧.shape levels_max ≡ true }
    ensures encrypted_data { are_enough ⟦<EncryptedData as Shaped>⟧.shape levels_max ≡ true }
    ensures issuer_and_serial_number { are_enough
        ⟦<IssuerAndSerialNumber as Shaped>⟧.shape levels_max ≡ true }
    ensures other_certificate_format { are_enough
        ⟦<OtherCertificateFormat as Shaped>⟧.shape levels_max ≡ true }
    ensures other_revocation_info_format { are_enough
        ⟦<OtherRevocationInfoFormat as Shaped>⟧.shape levels_max ≡ true }
    ensures revocation_info_choice { are_enough
        ⟦<RevocationInfoChoice as Shaped>⟧.shape levels_max ≡ true }
    ensures revocation_info_choices { are_enough
        ⟦<RevocationInfoChoices as Shaped>⟧.shape levels_max ≡ true }
    ensures signed_attributes { are_enough ⟦<SignedAttributes as Shaped>⟧.shape levels_max ≡ true }
    ensures signed_data { are_enough ⟦<SignedData as Shaped>⟧.shape levels_max ≡ true }
    ensures signer_identifier { are_enough ⟦<SignerIdentifier as Shaped>⟧.shape levels_max ≡ true }
    ensures signer_info { are_enough ⟦<SignerInfo as Shaped>⟧.shape levels_max ≡ true }
    ensures signer_infos { are_enough ⟦<SignerInfos as Shaped>⟧.shape levels_max ≡ true }
    ensures unprotected_attributes { are_enough
        ⟦<UnprotectedAttributes as Shaped>⟧.shape levels_max ≡ true }
    ensures unsigned_attributes { are_enough
        ⟦<UnsignedAttributes as Shaped>⟧.shape levels_max ≡ true }
{}

/// Values of these types are encoded as they are decoded. So the encoding of a value decodes to
/// this value, if its parts are in range.
pub fn values_are_encoded_as_decoded()
    ensures certificate_choices { ⟦<CertificateChoices as Shaped>⟧.written
        ≡ ⟦<CertificateChoices as Shaped>⟧.plain }
    ensures certificate_set { ⟦<CertificateSet as Shaped>⟧.written
        ≡ ⟦<CertificateSet as Shaped>⟧.plain }
    ensures cms_version { ⟦<CmsVersion as Shaped>⟧.written ≡ ⟦<CmsVersion as Shaped>⟧.plain }
    ensures content_info { ⟦<ContentInfo as Shaped>⟧.written ≡ ⟦<ContentInfo as Shaped>⟧.plain }
    ensures digest_algorithm_identifiers { ⟦<DigestAlgorithmIdentifiers as Shaped>⟧.written
        ≡ ⟦<DigestAlgorithmIdentifiers as Shaped>⟧.plain }
    ensures digested_data { ⟦<DigestedData as Shaped>⟧.written ≡ ⟦<DigestedData as Shaped>⟧.plain }
    ensures encapsulated_content_info { ⟦<EncapsulatedContentInfo as Shaped>⟧.written
        ≡ ⟦<EncapsulatedContentInfo as Shaped>⟧.plain }
    ensures encrypted_content_info { ⟦<EncryptedContentInfo as Shaped>⟧.written
        ≡ ⟦<EncryptedContentInfo as Shaped>⟧.plain }
    ensures encrypted_data { ⟦<EncryptedData as Shaped>⟧.written
        ≡ ⟦<EncryptedData as Shaped>⟧.plain }
    ensures issuer_and_serial_number { ⟦<IssuerAndSerialNumber as Shaped>⟧.written
        ≡ ⟦<IssuerAndSerialNumber as Shaped>⟧.plain }
    ensures other_certificate_format { ⟦<OtherCertificateFormat as Shaped>⟧.written
        ≡ ⟦<OtherCertificateFormat as Shaped>⟧.plain }
    ensures other_revocation_info_format { ⟦<OtherRevocationInfoFormat as Shaped>⟧.written
        ≡ ⟦<OtherRevocationInfoFormat as Shaped>⟧.plain }
    ensures revocation_info_choice { ⟦<RevocationInfoChoice as Shaped>⟧.written
        ≡ ⟦<RevocationInfoChoice as Shaped>⟧.plain }
    ensures revocation_info_choices { ⟦<RevocationInfoChoices as Shaped>⟧.written
        ≡ ⟦<RevocationInfoChoices as Shaped>⟧.plain }
    ensures signed_attributes { ⟦<SignedAttributes as Shaped>⟧.written
        ≡ ⟦<SignedAttributes as Shaped>⟧.plain }
    ensures signed_data { ⟦<SignedData as Shaped>⟧.written ≡ ⟦<SignedData as Shaped>⟧.plain }
    ensures signer_identifier { ⟦<SignerIdentifier as Shaped>⟧.written
        ≡ ⟦<SignerIdentifier as Shaped>⟧.plain }
    ensures signer_info { ⟦<SignerInfo as Shaped>⟧.written ≡ ⟦<SignerInfo as Shaped>⟧.plain }
    ensures signer_infos { ⟦<SignerInfos as Shaped>⟧.written ≡ ⟦<SignerInfos as Shaped>⟧.plain }
    ensures unprotected_attributes { ⟦<UnprotectedAttributes as Shaped>⟧.written
        ≡ ⟦<UnprotectedAttributes as Shaped>⟧.plain }
    ensures unsigned_attributes { ⟦<UnsignedAttributes as Shaped>⟧.written
        ≡ ⟦<UnsignedAttributes as Shaped>⟧.plain }
{}
