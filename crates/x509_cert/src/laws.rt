//! Laws about certificates, their parts, names and their string form, CRLs, CSRs and trust anchors,
//! for every bound on the arcs of OIDs and every profile, and about signed certificate timestamps.
//!
//! Each law is the contract of a function that does nothing.

ghost use Rattle.std.specs.Prelude.{◌≤◌, ◌↔◌, ℕ, List, Option, None, pos};
ghost use Rattle.x509_cert_anchors.specs.Oid.Bound.{Bound};
ghost use Rattle.x509_cert_anchors.specs.Der.Bounds.{identifiers_of, AreBelow};
ghost use Rattle.x509_cert_anchors.specs.Der.Grammar.{plain_list};
ghost use Rattle.x509_cert_anchors.specs.Der.Integers.{among, natural};
ghost use Rattle.x509_cert_anchors.specs.Der.Leaves.{integer, named};
ghost use Rattle.x509_cert_anchors.specs.Der.Shapes.{BodyValue, Value, Spells, leaf, sequence};
ghost use Rattle.x509_cert_anchors.specs.Der.Shapes.{sequence_of};
ghost use Rattle.x509_cert_anchors.specs.Der.Shapes.{tagged};
ghost use Rattle.x509_cert.specs.Equality.{IsByValue, TellsValues};
ghost use Rattle.x509_cert.specs.Levels.{IsApartWithinLevels};
ghost use Rattle.x509_cert_anchors.specs.Anchors as grammar;
ghost use Rattle.x509_cert_anchors.specs.Anchors.{trust_anchor_choice};
ghost use Rattle.x509_cert_anchors.specs.AnchorViews as anchor_views;
ghost use Rattle.x509_cert_builders.specs.CertExtensions.Reasons.{reason_number, reason_numbers};
ghost use Rattle.x509_cert_anchors.specs.CertGeneralNames.GeneralNames as names;
ghost use Rattle.x509_cert_anchors.specs.CertGeneralNames.GeneralNameViews as views;
ghost use Rattle.x509_cert_lists.specs.ListGrammar.{certificate_list_fields, cert_req};
ghost use Rattle.x509_cert.specs.Parts as parts;
ghost use Rattle.x509_cert_anchors.specs.PolicyTypes.Policies as policies;
ghost use Rattle.x509_cert_anchors.specs.PolicyTypes.PolicyViews.{policy_information_plain};
ghost use Rattle.x509_cert_anchors.specs.PolicyTypes.PolicyViews.{policy_mapping_plain};

use crate::anchor::Version as AnchorVersion;
pub use crate::list_laws::signed_part_stands_in_place as list_parts_stand_in_place;
use crate::request::Version as RequestVersion;
use crate::timestamps::SignedCertificateTimestampList;
use crate::*;
use std::cmp::PartialEq;
use x509_cert_anchors::der::{Shaped, Tag};
pub use x509_cert_anchors::laws::respelled_anchors_are_spelled;
pub use x509_cert_anchors::policy_types::timestamps::laws::{
    lists_are_read as timestamp_lists_are_read, spellings_are_read as timestamps_are_read,
};
pub use x509_cert_builders::cert_certificates::laws::{
    certificates_are_apart, equality_of_certificates_is_of_values, identifiers_stand_in_turn,
    newly_read_certificates_hold_a_large_arc, respelled_certificates_are_spelled,
    signed_part_stands_in_place, wider_bounds_keep_certificates, wider_bounds_keep_chains,
    wider_bounds_read_certificates_alike,
};
pub use x509_cert_builders::cert_extensions::laws::extensions_are_of_their_types;
pub use x509_cert_lists::cert_names::laws::{
    equality_of_names_is_of_values, newly_read_name_texts_hold_a_large_arc, printed_names_are_read,
    printed_values_are_strings, texts_are_read_as_one_name, texts_identify_names,
    wider_bounds_keep_names, wider_bounds_read_name_texts_alike,
};
pub use x509_cert_lists::cert_parts::laws::{
    dates_by_profile, equality_of_parts_is_of_values, parts_are_apart, respelled_dates_are_spelled,
    serial_numbers_by_profile,
};
pub use x509_cert_lists::laws::{attributes_are_of_their_types, equality_of_lists_is_of_values};

/// Bytes encode a CRL, a CSR or a trust anchor under a smaller bound on arcs exactly if they encode
/// it under a larger bound and each arc of its OIDs is below the smaller bound.
pub fn wider_bounds_keep_types()
    ensures lists { (small large : ℕ) (limit : Option ℕ)
        (l : BodyValue (certificate_list_fields 0 None)) (w : List ℕ) → 40 ≤ small
        → small ≤ large → Spells (sequence (certificate_list_fields small limit)) l w
        ↔ (Spells (sequence (certificate_list_fields large limit)) l w
        × AreBelow small (identifiers_of (sequence (certificate_list_fields 0 None)) l)) }
    ensures requests { (small large : ℕ) (r : Value (cert_req 0)) (w : List ℕ) → 40 ≤ small
        → small ≤ large → Spells (cert_req small) r w
        ↔ (Spells (cert_req large) r w × AreBelow small (identifiers_of (cert_req 0) r)) }
    ensures anchors { (small large : ℕ) (limit : Option ℕ) (a : Value (trust_anchor_choice 0 None))
        (w : List ℕ) → 40 ≤ small → small ≤ large → Spells (trust_anchor_choice small limit) a w
        ↔ (Spells (trust_anchor_choice large limit) a w
        × AreBelow small (identifiers_of (trust_anchor_choice 0 None) a)) }
{}

/// `==` of the contents of extensions compares their abstract values.
pub fn equality_of_extensions_is_of_values()
    ensures general_names { IsByValue ⟦<GeneralName as PartialEq>⟧ ⟦<GeneralName as Shaped>⟧
        × IsByValue ⟦<OtherName as PartialEq>⟧ ⟦<OtherName as Shaped>⟧
        × IsByValue ⟦<EdiPartyName as PartialEq>⟧ ⟦<EdiPartyName as Shaped>⟧
        × IsByValue ⟦<HardwareModuleName as PartialEq>⟧ ⟦<HardwareModuleName as Shaped>⟧
        × IsByValue ⟦<AccessDescription as PartialEq>⟧ ⟦<AccessDescription as Shaped>⟧
        × IsByValue ⟦<AuthorityKeyIdentifier as PartialEq>⟧ ⟦<AuthorityKeyIdentifier as Shaped>⟧
        × IsByValue ⟦<GeneralSubtree as PartialEq>⟧ ⟦<GeneralSubtree as Shaped>⟧
        × IsByValue ⟦<DistributionPoint as PartialEq>⟧ ⟦<DistributionPoint as Shaped>⟧
        × IsByValue ⟦<DistributionPointName as PartialEq>⟧ ⟦<DistributionPointName as Shaped>⟧
        × IsByValue ⟦<IssuingDistributionPoint as PartialEq>⟧
        ⟦<IssuingDistributionPoint as Shaped>⟧ }
    ensures constraints { IsByValue ⟦<NameConstraints as PartialEq>⟧ ⟦<NameConstraints as Shaped>⟧
        × IsByValue ⟦<BasicConstraints as PartialEq>⟧ ⟦<BasicConstraints as Shaped>⟧
        × IsByValue ⟦<PolicyConstraints as PartialEq>⟧ ⟦<PolicyConstraints as Shaped>⟧
        × IsByValue ⟦<InhibitAnyPolicy as PartialEq>⟧ ⟦<InhibitAnyPolicy as Shaped>⟧
        × IsByValue ⟦<PrivateKeyUsagePeriod as PartialEq>⟧ ⟦<PrivateKeyUsagePeriod as Shaped>⟧ }
    ensures notices { IsByValue ⟦<DisplayText as PartialEq>⟧ ⟦<DisplayText as Shaped>⟧
        × IsByValue ⟦<NoticeReference as PartialEq>⟧ ⟦<NoticeReference as Shaped>⟧
        × IsByValue ⟦<PolicyQualifierInfo as PartialEq>⟧ ⟦<PolicyQualifierInfo as Shaped>⟧
        × IsByValue ⟦<PolicyMapping as PartialEq>⟧ ⟦<PolicyMapping as Shaped>⟧ }
    ensures policies { IsByValue ⟦<UserNotice as PartialEq>⟧ ⟦<UserNotice as Shaped>⟧
        × IsByValue ⟦<PolicyInformation as PartialEq>⟧ ⟦<PolicyInformation as Shaped>⟧ }
    ensures lists { TellsValues (names.general_names Bound) ⟦<SubjectAltName as PartialEq>⟧.eq
        (λ x. plain_list views.general_name_plain x.0.items)
        × TellsValues (names.general_names Bound) ⟦<IssuerAltName as PartialEq>⟧.eq
        (λ x. plain_list views.general_name_plain x.0.items)
        × TellsValues (sequence_of (sequence (names.access_description_fields Bound)))
        ⟦<AuthorityInfoAccessSyntax as PartialEq>⟧.eq
        (λ x. plain_list views.access_description_plain x.0.items)
        × TellsValues (sequence_of (sequence (names.access_description_fields Bound)))
        ⟦<SubjectInfoAccessSyntax as PartialEq>⟧.eq
        (λ x. plain_list views.access_description_plain x.0.items)
        × TellsValues (sequence_of (sequence (names.distribution_point_fields Bound)))
        ⟦<CrlDistributionPoints as PartialEq>⟧.eq
        (λ x. plain_list views.distribution_point_plain x.0.items)
        × TellsValues (sequence_of (sequence (names.distribution_point_fields Bound)))
        ⟦<FreshestCrl as PartialEq>⟧.eq (λ x. plain_list views.distribution_point_plain x.0.items)
        × TellsValues (sequence_of (sequence (policies.policy_information_fields Bound)))
        ⟦<CertificatePolicies as PartialEq>⟧.eq
        (λ x. plain_list policy_information_plain x.0.items)
        × TellsValues (sequence_of (sequence (policies.policy_mapping_fields Bound)))
        ⟦<PolicyMappings as PartialEq>⟧.eq (λ x. plain_list policy_mapping_plain x.0.items)
        × TellsValues (sequence_of (parts.object_identifier Bound))
        ⟦<ExtendedKeyUsage as PartialEq>⟧.eq (λ x. plain_list (λ v. v) x.0.items)
        × TellsValues (sequence_of (parts.attribute Bound))
        ⟦<SubjectDirectoryAttributes as PartialEq>⟧.eq
        (λ x. plain_list parts.attribute_plain x.0.items) }
    ensures leaves { TellsValues parts.octet_string ⟦<SubjectKeyIdentifier as PartialEq>⟧.eq
        (λ x. x.0)
        × TellsValues (tagged Tag.BitString (leaf (named 9))) ⟦<KeyUsage as PartialEq>⟧.eq
        (λ x. x.0.flags.0)
        × TellsValues (tagged Tag.Enumerated (leaf (integer (among reason_numbers))))
        ⟦<CrlReason as PartialEq>⟧.eq (λ x. pos (reason_number x))
        × TellsValues (tagged Tag.Integer (leaf (integer natural))) ⟦<CrlNumber as PartialEq>⟧.eq
        (λ x. pos x.0)
        × TellsValues (tagged Tag.Integer (leaf (integer natural)))
        ⟦<BaseCrlNumber as PartialEq>⟧.eq (λ x. pos x.0) }
{}

/// `==` of trust anchors and of their parts compares their abstract values, under every profile.
pub fn equality_of_anchors_is_of_values<P>()
    ensures versions { TellsValues grammar.anchor_version ⟦<AnchorVersion as PartialEq>⟧.eq
        (λ v. pos (anchor_views.anchor_number v)) }
    ensures controls { (limit : Option ℕ)
        → TellsValues (sequence (grammar.cert_path_controls_fields Bound limit))
        ⟦<CertPathControls<P> as PartialEq>⟧.eq anchor_views.cert_path_controls_plain }
    ensures infos { (limit : Option ℕ)
        → TellsValues (sequence (grammar.trust_anchor_info_fields Bound limit))
        ⟦<TrustAnchorInfo<P> as PartialEq>⟧.eq anchor_views.trust_anchor_info_plain }
    ensures choices { (limit : Option ℕ) → TellsValues (trust_anchor_choice Bound limit)
        ⟦<TrustAnchorChoice<P> as PartialEq>⟧.eq anchor_views.trust_anchor_plain }
{
    equality_of_certificates_is_of_values::<P>();
    equality_of_extensions_is_of_values();
}

/// The tags of the fields of each type determine which field comes next, and each type has at most
/// the 64 levels of nesting that a reader allows, under every profile.
pub fn types_are_apart_within_levels<P: Profile>()
    ensures parts { IsApartWithinLevels ⟦<AlgorithmIdentifier as Shaped>⟧.shape
        × IsApartWithinLevels ⟦<AlgorithmIdentifierRef<'static> as Shaped>⟧.shape
        × IsApartWithinLevels ⟦<Extension as Shaped>⟧.shape
        × IsApartWithinLevels ⟦<Extensions as Shaped>⟧.shape
        × IsApartWithinLevels ⟦<SerialNumber<P> as Shaped>⟧.shape
        × IsApartWithinLevels ⟦<SubjectPublicKeyInfo as Shaped>⟧.shape
        × IsApartWithinLevels ⟦<SubjectPublicKeyInfoRef<'static> as Shaped>⟧.shape
        × IsApartWithinLevels ⟦<Time as Shaped>⟧.shape
        × IsApartWithinLevels ⟦<Validity<P> as Shaped>⟧.shape
        × IsApartWithinLevels ⟦<Version as Shaped>⟧.shape }
    ensures names { IsApartWithinLevels ⟦<Attribute as Shaped>⟧.shape
        × IsApartWithinLevels ⟦<Attributes as Shaped>⟧.shape
        × IsApartWithinLevels ⟦<AttributeTypeAndValue as Shaped>⟧.shape
        × IsApartWithinLevels ⟦<DirectoryString as Shaped>⟧.shape
        × IsApartWithinLevels ⟦<Name as Shaped>⟧.shape
        × IsApartWithinLevels ⟦<RelativeDistinguishedName as Shaped>⟧.shape }
    ensures certificates { IsApartWithinLevels ⟦<CertificateInner<P> as Shaped>⟧.shape
        × IsApartWithinLevels ⟦<TbsCertificateInner<P> as Shaped>⟧.shape
        × IsApartWithinLevels ⟦<PkiPath as Shaped>⟧.shape }
    ensures lists { IsApartWithinLevels ⟦<CertificateList<P> as Shaped>⟧.shape
        × IsApartWithinLevels ⟦<TbsCertList<P> as Shaped>⟧.shape
        × IsApartWithinLevels ⟦<RevokedCert<P> as Shaped>⟧.shape }
    ensures requests { IsApartWithinLevels ⟦<CertReq as Shaped>⟧.shape
        × IsApartWithinLevels ⟦<CertReqInfo as Shaped>⟧.shape
        × IsApartWithinLevels ⟦<ChallengePassword as Shaped>⟧.shape
        × IsApartWithinLevels ⟦<RequestVersion as Shaped>⟧.shape }
    ensures anchors { IsApartWithinLevels ⟦<TrustAnchorChoice<P> as Shaped>⟧.shape
        × IsApartWithinLevels ⟦<TrustAnchorInfo<P> as Shaped>⟧.shape
        × IsApartWithinLevels ⟦<CertPathControls<P> as Shaped>⟧.shape
        × IsApartWithinLevels ⟦<CertPolicyFlags as Shaped>⟧.shape
        × IsApartWithinLevels ⟦<AnchorVersion as Shaped>⟧.shape }
    ensures general_names { IsApartWithinLevels ⟦<GeneralName as Shaped>⟧.shape
        × IsApartWithinLevels ⟦<GeneralNames as Shaped>⟧.shape
        × IsApartWithinLevels ⟦<OtherName as Shaped>⟧.shape
        × IsApartWithinLevels ⟦<EdiPartyName as Shaped>⟧.shape
        × IsApartWithinLevels ⟦<HardwareModuleName as Shaped>⟧.shape
        × IsApartWithinLevels ⟦<AccessDescription as Shaped>⟧.shape
        × IsApartWithinLevels ⟦<AuthorityKeyIdentifier as Shaped>⟧.shape
        × IsApartWithinLevels ⟦<GeneralSubtree as Shaped>⟧.shape
        × IsApartWithinLevels ⟦<DistributionPoint as Shaped>⟧.shape
        × IsApartWithinLevels ⟦<DistributionPointName as Shaped>⟧.shape
        × IsApartWithinLevels ⟦<IssuingDistributionPoint as Shaped>⟧.shape
        × IsApartWithinLevels ⟦<ReasonFlags as Shaped>⟧.shape }
    ensures policies { IsApartWithinLevels ⟦<PolicyInformation as Shaped>⟧.shape
        × IsApartWithinLevels ⟦<PolicyQualifierInfo as Shaped>⟧.shape
        × IsApartWithinLevels ⟦<UserNotice as Shaped>⟧.shape
        × IsApartWithinLevels ⟦<NoticeReference as Shaped>⟧.shape
        × IsApartWithinLevels ⟦<DisplayText as Shaped>⟧.shape
        × IsApartWithinLevels ⟦<PolicyMapping as Shaped>⟧.shape }
    ensures constraints { IsApartWithinLevels ⟦<BasicConstraints as Shaped>⟧.shape
        × IsApartWithinLevels ⟦<NameConstraints as Shaped>⟧.shape
        × IsApartWithinLevels ⟦<PolicyConstraints as Shaped>⟧.shape
        × IsApartWithinLevels ⟦<InhibitAnyPolicy as Shaped>⟧.shape
        × IsApartWithinLevels ⟦<PrivateKeyUsagePeriod as Shaped>⟧.shape }
    // The types of extensions that contain a list, bytes, bits or a number, by their shapes.
    ensures extensions { IsApartWithinLevels
        (sequence_of (sequence (names.access_description_fields Bound)))
        × IsApartWithinLevels (sequence_of (sequence (names.distribution_point_fields Bound)))
        × IsApartWithinLevels (sequence_of (sequence (policies.policy_information_fields Bound)))
        × IsApartWithinLevels (sequence_of (sequence (policies.policy_mapping_fields Bound)))
        × IsApartWithinLevels (sequence_of (parts.object_identifier Bound))
        × IsApartWithinLevels (sequence_of (parts.attribute Bound))
        × IsApartWithinLevels parts.octet_string
        × IsApartWithinLevels (tagged Tag.BitString (leaf (named 9)))
        × IsApartWithinLevels (tagged Tag.Enumerated (leaf (integer (among reason_numbers))))
        × IsApartWithinLevels (tagged Tag.Integer (leaf (integer natural))) }
{}
