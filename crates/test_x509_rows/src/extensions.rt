//! Answers questions about the contents of extensions, and their parts.

use crate::questions::{
    Asked, Question, answer_of_content, answer_of_copied, answer_of_described, answer_of_list,
    answer_of_ordered, answer_of_value_with_order, answer_with_both, answer_with_copy,
    answer_with_debug, answer_with_debug_and_copy, answer_with_default_and_copy, answer_with_field,
    answer_with_field_and_copy, answer_with_order, answer_with_order_and_copy,
};
use crate::refusals::Refusal;
use crate::requests_and_names;
use crate::shown::described;
use const_oid::ObjectIdentifier;
use std::alloc::Global;
use x509_cert::timestamps::SignedCertificateTimestampList;
use x509_cert::{
    AccessDescription, AuthorityInfoAccessSyntax, AuthorityKeyIdentifier, BaseCrlNumber,
    BasicConstraints, CertificatePolicies, CpsUri, CrlDistributionPoints, CrlNumber, CrlReason,
    DirectoryString, DisplayText, DistributionPoint, DistributionPointName, EdiPartyName,
    ExtendedKeyUsage, FlagSet, FreshestCrl, GeneralName, GeneralSubtree, HardwareModuleName,
    InhibitAnyPolicy, IssuerAltName, IssuingDistributionPoint, KeyUsage, KeyUsages,
    NameConstraints, NoticeReference, OctetString, OtherName, PolicyConstraints, PolicyInformation,
    PolicyMapping, PolicyMappings, PolicyQualifierInfo, PrivateKeyUsagePeriod, ReasonFlags,
    SubjectAltName, SubjectDirectoryAttributes, SubjectInfoAccessSyntax, SubjectKeyIdentifier,
    Uint, UserNotice,
};

/// Returns the answer for the content of an extension that is a list, or for a later type.
pub fn answer(alloc: Global, kind: &str, question: &Question<'_>) -> Result<String, Refusal> {
    match kind {
        "SubjectDirectoryAttributes" => answer_of_list(
            alloc,
            question,
            SubjectDirectoryAttributes::clone,
            SubjectDirectoryAttributes::default(alloc),
        ),
        "SubjectAltName" => answer_of_list(
            alloc,
            question,
            SubjectAltName::clone,
            SubjectAltName::default(alloc),
        ),
        "IssuerAltName" => answer_of_list(
            alloc,
            question,
            IssuerAltName::clone,
            IssuerAltName::default(alloc),
        ),
        "CrlDistributionPoints" => answer_of_list(
            alloc,
            question,
            CrlDistributionPoints::clone,
            CrlDistributionPoints::default(alloc),
        ),
        "FreshestCrl" => answer_of_list(
            alloc,
            question,
            FreshestCrl::clone,
            FreshestCrl::default(alloc),
        ),
        "AuthorityInfoAccessSyntax" => answer_of_list(
            alloc,
            question,
            AuthorityInfoAccessSyntax::clone,
            AuthorityInfoAccessSyntax::default(alloc),
        ),
        "SubjectInfoAccessSyntax" => answer_of_list(
            alloc,
            question,
            SubjectInfoAccessSyntax::clone,
            SubjectInfoAccessSyntax::default(alloc),
        ),
        _ => answer_of_fields(alloc, kind, question),
    }
}

/// Returns the answer for the content of an extension that has one field, or for a later type.
fn answer_of_fields(alloc: Global, kind: &str, question: &Question<'_>) -> Result<String, Refusal> {
    match kind {
        "SubjectKeyIdentifier" => answer_with_field_and_copy::<_, OctetString, _>(
            alloc,
            question,
            SubjectKeyIdentifier::clone,
        ),
        "CrlNumber" => answer_with_field_and_copy::<_, Uint, _>(alloc, question, CrlNumber::clone),
        "BaseCrlNumber" => answer_with_field_and_copy::<_, Uint, _>(
            alloc,
            question,
            BaseCrlNumber::clone,
        ),
        "CertificatePolicies" => answer_with_field_and_copy::<_, Vec<PolicyInformation>, _>(
            alloc,
            question,
            CertificatePolicies::clone,
        ),
        "PolicyMappings" => answer_with_field_and_copy::<_, Vec<PolicyMapping>, _>(
            alloc,
            question,
            PolicyMappings::clone,
        ),
        "ExtendedKeyUsage" => answer_with_field_and_copy::<_, Vec<ObjectIdentifier<39>>, _>(
            alloc,
            question,
            ExtendedKeyUsage::clone,
        ),
        "KeyUsage" => answer_with_field::<KeyUsage, FlagSet<KeyUsages>>(alloc, question),
        "InhibitAnyPolicy" => answer_of_inhibition(alloc, question),
        "SignedCertificateTimestampList" => {
            answer_with_field::<SignedCertificateTimestampList, OctetString>(alloc, question)
        }
        _ => answer_of_records(alloc, kind, question),
    }
}

/// Returns the answer for the content of an extension that is a record or a number, or for a part
/// of a content.
fn answer_of_records(
    alloc: Global,
    kind: &str,
    question: &Question<'_>,
) -> Result<String, Refusal> {
    match kind {
        "AuthorityKeyIdentifier" => answer_with_default_and_copy(
            alloc,
            question,
            AuthorityKeyIdentifier::clone,
        ),
        "IssuingDistributionPoint" => answer_with_debug_and_copy(
            alloc,
            question,
            IssuingDistributionPoint::clone,
        ),
        "BasicConstraints" => answer_with_both::<BasicConstraints>(alloc, question),
        "CrlReason" => answer_with_both::<CrlReason>(alloc, question),
        "PolicyConstraints" => answer_with_debug::<PolicyConstraints>(alloc, question),
        "PrivateKeyUsagePeriod" => answer_of_content::<PrivateKeyUsagePeriod>(alloc, question),
        "NameConstraints" => answer_of_content::<NameConstraints>(alloc, question),
        _ => answer_of_parts(alloc, kind, question),
    }
}

/// Returns the answer for the number of certificates that may follow (inhibitAnyPolicy), whose
/// default is 0.
fn answer_of_inhibition(alloc: Global, question: &Question<'_>) -> Result<String, Refusal> {
    match question.asked {
        Asked::Default => described(alloc, &InhibitAnyPolicy::default()),
        _ => answer_with_field::<InhibitAnyPolicy, u32>(alloc, question),
    }
}

/// Returns the answer for a part of a content.
fn answer_of_parts(alloc: Global, kind: &str, question: &Question<'_>) -> Result<String, Refusal> {
    match kind {
        "GeneralName" => answer_with_order::<GeneralName>(alloc, question),
        "OtherName" => answer_of_described::<OtherName>(alloc, question),
        "HardwareModuleName" => answer_of_copied(alloc, question, HardwareModuleName::clone),
        "EdiPartyName" => answer_of_described::<EdiPartyName>(alloc, question),
        "DirectoryString" => answer_with_order_and_copy(alloc, question, DirectoryString::clone),
        "GeneralSubtree" => answer_of_ordered::<GeneralSubtree>(alloc, question),
        "DistributionPoint" => answer_of_described::<DistributionPoint>(alloc, question),
        "DistributionPointName" => answer_with_order::<DistributionPointName>(alloc, question),
        "ReasonFlags" => answer_of_value_with_order::<ReasonFlags>(alloc, question),
        "AccessDescription" => answer_of_described::<AccessDescription>(alloc, question),
        "PolicyInformation" => answer_of_described::<PolicyInformation>(alloc, question),
        "PolicyQualifierInfo" => answer_of_described::<PolicyQualifierInfo>(alloc, question),
        "PolicyMapping" => answer_of_described::<PolicyMapping>(alloc, question),
        "CpsUri" => answer_with_copy(alloc, question, CpsUri::clone),
        "UserNotice" => answer_of_copied(alloc, question, UserNotice::clone),
        "NoticeReference" => answer_of_described::<NoticeReference>(alloc, question),
        "DisplayText" => answer_with_order::<DisplayText>(alloc, question),
        _ => requests_and_names::answer(alloc, kind, question),
    }
}
