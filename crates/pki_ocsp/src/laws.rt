//! Laws about the types. Each law is the contract of a function that does nothing.

ghost use Rattle.std.specs.Prelude.{◌≡◌, true};
ghost use Rattle.der_core.specs.Limits.{levels_max};
ghost use Rattle.der_core.specs.Spelling.{are_enough};

use crate::*;
use der_core::Shaped;

/// No value of these types has more levels of nesting than a reader allows, so decoding accepts all
/// of their encodings.
pub fn types_are_within_levels()
    ensures acceptable_responses { are_enough
        ⟦<AcceptableResponses as Shaped>⟧.shape levels_max ≡ true }
    ensures basic_ocsp_response { are_enough
        ⟦<BasicOcspResponse as Shaped>⟧.shape levels_max ≡ true }
    ensures cert_id { are_enough ⟦<CertId as Shaped>⟧.shape levels_max ≡ true }
    ensures cert_status { are_enough ⟦<CertStatus as Shaped>⟧.shape levels_max ≡ true }
    ensures crl_id { are_enough ⟦<CrlId as Shaped>⟧.shape levels_max ≡ true }
    ensures ocsp_request { are_enough ⟦<OcspRequest as Shaped>⟧.shape levels_max ≡ true }
    ensures ocsp_response { are_enough ⟦<OcspResponse as Shaped>⟧.shape levels_max ≡ true }
    ensures ocsp_response_status { are_enough
        ⟦<OcspResponseStatus as Shaped>⟧.shape levels_max ≡ true }
    ensures preferred_signature_algorithm { are_enough
        ⟦<PreferredSignatureAlgorithm as Shaped>⟧.shape levels_max ≡ true }
    ensures preferred_signature_algorithms { are_enough
        ⟦<PreferredSignatureAlgorithms as Shaped>⟧.shape levels_max ≡ true }
    ensures request { are_enough ⟦<Request as Shaped>⟧.shape levels_max ≡ true }
    ensures responder_id { are_enough ⟦<ResponderId as Shaped>⟧.shape levels_max ≡ true }
    ensures response_bytes { are_enough ⟦<ResponseBytes as Shaped>⟧.shape levels_max ≡ true }
    ensures response_data { are_enough ⟦<ResponseData as Shaped>⟧.shape levels_max ≡ true }
    ensures revoked_info { are_enough ⟦<RevokedInfo as Shaped>⟧.shape levels_max ≡ true }
    ensures service_locator { are_enough ⟦<ServiceLocator as Shaped>⟧.shape levels_max ≡ true }
    ensures signature { are_enough ⟦<Signature as Shaped>⟧.shape levels_max ≡ true }
    ensures single_response { are_enough ⟦<SingleResponse as Shaped>⟧.shape levels_max ≡ true }
    ensures tbs_request { are_enough ⟦<TbsRequest as Shaped>⟧.shape levels_max ≡ true }
    ensures version { are_enough ⟦<Version as Shaped>⟧.shape levels_max ≡ true }
{}

/// Values of these types are encoded as they are decoded. So the encoding of a value decodes to
/// this value, if its parts are in range.
pub fn values_are_encoded_as_decoded()
    ensures acceptable_responses { ⟦<AcceptableResponses as Shaped>⟧.written
        ≡ ⟦<AcceptableResponses as Shaped>⟧.plain }
    ensures basic_ocsp_response { ⟦<BasicOcspResponse as Shaped>⟧.written
        ≡ ⟦<BasicOcspResponse as Shaped>⟧.plain }
    ensures cert_id { ⟦<CertId as Shaped>⟧.written ≡ ⟦<CertId as Shaped>⟧.plain }
    ensures cert_status { ⟦<CertStatus as Shaped>⟧.written ≡ ⟦<CertStatus as Shaped>⟧.plain }
    ensures crl_id { ⟦<CrlId as Shaped>⟧.written ≡ ⟦<CrlId as Shaped>⟧.plain }
    ensures ocsp_request { ⟦<OcspRequest as Shaped>⟧.written ≡ ⟦<OcspRequest as Shaped>⟧.plain }
    ensures ocsp_response { ⟦<OcspResponse as Shaped>⟧.written ≡ ⟦<OcspResponse as Shaped>⟧.plain }
    ensures ocsp_response_status { ⟦<OcspResponseStatus as Shaped>⟧.written
        ≡ ⟦<OcspResponseStatus as Shaped>⟧.plain }
    ensures preferred_signature_algorithm { ⟦<PreferredSignatureAlgorithm as Shaped>⟧.written
        ≡ ⟦<PreferredSignatureAlgorithm as Shaped>⟧.plain }
    ensures preferred_signature_algorithms { ⟦<PreferredSignatureAlgorithms as Shaped>⟧.written
        ≡ ⟦<PreferredSignatureAlgorithms as Shaped>⟧.plain }
    ensures request { ⟦<Request as Shaped>⟧.written ≡ ⟦<Request as Shaped>⟧.plain }
    ensures responder_id { ⟦<ResponderId as Shaped>⟧.written ≡ ⟦<ResponderId as Shaped>⟧.plain }
    ensures response_bytes { ⟦<ResponseBytes as Shaped>⟧.written
        ≡ ⟦<ResponseBytes as Shaped>⟧.plain }
    ensures response_data { ⟦<ResponseData as Shaped>⟧.written ≡ ⟦<ResponseData as Shaped>⟧.plain }
    ensures revoked_info { ⟦<RevokedInfo as Shaped>⟧.written ≡ ⟦<RevokedInfo as Shaped>⟧.plain }
    ensures service_locator { ⟦<ServiceLocator as Shaped>⟧.written
        ≡ ⟦<ServiceLocator as Shaped>⟧.plain }
    ensures signature { ⟦<Signature as Shaped>⟧.written ≡ ⟦<Signature as Shaped>⟧.plain }
    ensures single_response { ⟦<SingleResponse as Shaped>⟧.written
        ≡ ⟦<SingleResponse as Shaped>⟧.plain }
    ensures tbs_request { ⟦<TbsRequest as Shaped>⟧.written ≡ ⟦<TbsRequest as Shaped>⟧.plain }
    ensures version { ⟦<Version as Shaped>⟧.written ≡ ⟦<Version as Shaped>⟧.plain }
{}
