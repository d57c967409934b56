//! Laws about CRLs and CSRs.
//!
//! Each law is the contract of a function that does nothing.

ghost use Rattle.std.specs.Prelude.{◌≡◌, ℕ, Option};
ghost use Rattle.der_core.specs.Oid.Bound.{Bound};
ghost use Rattle.der_core.specs.Equality.{IsOfValues};
ghost use Rattle.der_core.specs.Shapes.{octets_of, sequence};
ghost use Rattle.x509_cert_lists.specs.Attributes.{challenge_password_arcs};
ghost use Rattle.x509_cert_lists.specs.ListGrammar as grammar;
ghost use Rattle.x509_cert_parts.specs.Grammar.{extensions};
ghost use Rattle.x509_cert_parts.specs.Views.{extensions_plain};
ghost use Rattle.x509_cert_lists.specs.ListViews as views;

use crate::{
    CertReq, CertReqInfo, CertificateList, ChallengePassword, ExtensionReq, RevokedCert,
    TbsCertList,
};
use der_core::oid::AssociatedOid;
use std::cmp::PartialEq;

/// `==` of CRLs, of CSRs and of their parts compares their abstract values, under every profile.
pub fn equality_of_lists_is_of_values<P>()
    ensures entries { (limit : Option ℕ) → IsOfValues ⟦<RevokedCert<P> as PartialEq>⟧.eq
        views.revoked_cert_plain (octets_of (sequence (grammar.revoked_cert_fields Bound limit))) }
    ensures signed { (limit : Option ℕ) → IsOfValues ⟦<TbsCertList<P> as PartialEq>⟧.eq
        views.tbs_cert_list_plain
        (octets_of (sequence (grammar.tbs_cert_list_fields Bound limit))) }
    ensures whole { (limit : Option ℕ) → IsOfValues ⟦<CertificateList<P> as PartialEq>⟧.eq
        views.certificate_list_plain
        (octets_of (sequence (grammar.certificate_list_fields Bound limit))) }
    ensures asked { IsOfValues ⟦<CertReqInfo as PartialEq>⟧.eq views.cert_req_info_plain
        (octets_of (sequence (grammar.cert_req_info_fields Bound))) }
    ensures requests { IsOfValues ⟦<CertReq as PartialEq>⟧.eq views.cert_req_plain
        (octets_of (grammar.cert_req Bound)) }
    ensures asked_extensions { IsOfValues ⟦<ExtensionReq as PartialEq>⟧.eq
        (λ x. extensions_plain x.0.items) (octets_of (extensions Bound)) }
{}

/// The attributes of CSRs have the OIDs that RFC 2985 5.4 assigns to them.
pub fn attributes_are_of_their_types()
    ensures extension_req { ⟦<ExtensionReq as AssociatedOid>⟧.oid_arcs
        ≡ grammar.extension_req_arcs }
    ensures challenge_password { ⟦<ChallengePassword as AssociatedOid>⟧.oid_arcs
        ≡ challenge_password_arcs }
{}
