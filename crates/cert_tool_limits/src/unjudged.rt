//! The JSON text of what no rule of path validation, and no strict limit, checks.

ghost use Rattle.std.specs.Prelude.{◌≡◌, [], IfOk, OnOk, string_bytes, map, true};
ghost use Rattle.std.specs.Option.{option_map};
ghost use Rattle.x509_cert_anchors.specs.AnchorViews.{trust_anchor_plain};
ghost use Rattle.x509_cert_anchors.specs.CertCertificates.Certificates.{raw_certificate};
ghost use Rattle.x509_cert_anchors.specs.CertCertificates.Views.{certificate_plain};
ghost use Rattle.x509_cert_anchors.specs.CertNames.Views.{name_plain};
ghost use Rattle.x509_cert_anchors.specs.CertParts.Views.{extension_plain, extensions_plain};
ghost use Rattle.x509_cert_anchors.specs.Der.Heads.{Fits};
ghost use Rattle.x509_cert_anchors.specs.Der.Shapes.{IsValid};
ghost use Rattle.x509_cert_anchors.specs.Oid.Bound.{Bound};
ghost use Rattle.cert_tool_limits.specs.Unjudged.{IsUnjudgedText, and_anchors, and_certificates};
ghost use Rattle.cert_tool_limits.specs.Unjudged.{and_item, and_names, anchor_name, has_name_of};
ghost use Rattle.cert_tool_limits.specs.Unjudged.{never_judged, quoted, unjudged_in, unjudged_name};
ghost use Rattle.cert_tool_limits.specs.Unjudged.{anchors_text, policies_name, role_in};
ghost use Rattle.cert_tool_limits.specs.Unjudged.{unjudged_in_anchor, unjudged_member};

use crate::anchor_rules::{extensions_of as anchor_extensions, signed_of};
use crate::choices::choices_in;
use crate::key_uses::{is_ce, needs_use};
use cert_desk_bundle::Bundle;
use cert_desk_bundle::cert_certificates::CertificateInner;
use cert_desk_bundle::cert_parts::{Extension, Raw};
use cert_desk_bundle::oid::ObjectIdentifier;
use cert_desk_checking::is_issued_by;
use cert_desk_rules::extensions_of;
use std::alloc::{AllocError, Global};
use x509_cert_anchors::TrustAnchorChoice;
use x509_cert_anchors::cert_names::Name;

// The role of a certificate in path validation. `Strict` is any role under the strict limits,
// except that of an end entity whose keyUsage they don't check, which is `StrictEndEntity`.
#[derive(Clone, Copy)]
enum Role {
    Strict,
    StrictEndEntity,
    TrustAnchor,
    Issuer,
    EndEntity,
}

// Returns the name of an extension on policies, which nothing checks.
fn policies_name(extension: &Extension) -> Option<&'static str>
    ensures { option_map (λ name. name.now) result ≡ policies_name (extension_plain extension.now) }
{
    if is_ce(extension, 32) {
        return Some("certificatePolicies");
    }
    if is_ce(extension, 33) {
        return Some("policyMappings");
    }
    if is_ce(extension, 36) {
        return Some("policyConstraints");
    }
    if is_ce(extension, 54) {
        return Some("inhibitAnyPolicy");
    }
    None
}

// Returns the name of an extension that no rule checks in any certificate.
fn never_judged(extension: &Extension) -> Option<&'static str>
    ensures { option_map (λ name. name.now) result ≡ never_judged (extension_plain extension.now) }
{
    if is_ce(extension, 30) {
        return Some("nameConstraints");
    }
    policies_name(extension)
}

// Returns the name of an extension that isn't checked in a certificate with this role.
fn unjudged_name(extension: &Extension, role: Role) -> Option<&'static str>
    ensures { option_map (λ name. name.now) result
        ≡ unjudged_name role (extension_plain extension.now) }
{
    match role {
        Role::Strict => return policies_name(extension),
        Role::StrictEndEntity => {
            if is_ce(extension, 15) {
                return Some("keyUsage");
            }
            return policies_name(extension);
        }
        Role::Issuer => {}
        Role::EndEntity => {
            if is_ce(extension, 15) {
                return Some("keyUsage");
            }
        }
        Role::TrustAnchor => {
            if is_ce(extension, 15) {
                return Some("keyUsage");
            }
            if is_ce(extension, 19) {
                return Some("basicConstraints");
            }
            if is_ce(extension, 37) {
                return Some("extKeyUsage");
            }
        }
    }
    never_judged(extension)
}

// Adds an element to the elements of a JSON array.
fn add_item(items: &mut String, item: &str) -> Result<(), AllocError>
    ensures { OnOk result (string_bytes items.new ≡ and_item (string_bytes items.old) item.now) }
{
    if !items.is_empty() {
        items.push_str(",")?;
    }
    items.push_str(item)?;
    Ok(())
}

// Adds a name, as a JSON string.
fn add_name(alloc: Global, items: &mut String, name: &str) -> Result<(), AllocError>
    ensures { OnOk result (string_bytes items.new
        ≡ and_item (string_bytes items.old) (quoted name.now)) }
{
    let item = format!(in alloc; "\"{name}\"")?;
    add_item(items, item.as_str())
}

// Adds the names of those of the extensions that aren't checked.
fn add_names(
    alloc: Global,
    items: &mut String,
    extensions: &[Extension],
    role: Role,
) -> Result<(), AllocError>
    ensures { OnOk result (string_bytes items.new
        ≡ and_names role (string_bytes items.old) (extensions_plain extensions.now)) }
{
    for extension in extensions {
        if let Some(name) = unjudged_name(extension, role) {
            add_name(alloc, items, name)?;
        }
    }
    Ok(())
}

// Returns the role of a certificate of a chain.
fn role_in(is_strict: bool, purpose: &ObjectIdentifier<39>, is_last: bool) -> Role
    ensures { result ≡ role_in is_strict purpose.now is_last }
{
    if is_strict && is_last && !needs_use(purpose) {
        return Role::StrictEndEntity;
    }
    if is_strict {
        return Role::Strict;
    }
    if is_last {
        return Role::EndEntity;
    }
    Role::Issuer
}

// Returns what isn't checked in a certificate of a chain, as a JSON array.
fn unjudged_in(
    alloc: Global,
    certificate: &CertificateInner<Raw>,
    is_strict: bool,
    purpose: &ObjectIdentifier<39>,
    is_last: bool,
) -> Result<String, AllocError>
    ensures { IfOk result (λ text. string_bytes text
        ≡ unjudged_in is_strict purpose.now is_last (certificate_plain certificate.now)) }
{
    let role = role_in(is_strict, purpose, is_last);
    let mut items = String::new(alloc);
    add_names(alloc, &mut items, extensions_of(certificate), role)?;
    let items = items.as_str();
    format!(in alloc; "[{items}]")
}

// Returns the arrays of the certificates of a chain.
fn certificates_text(
    alloc: Global,
    bundle: &Bundle,
    is_strict: bool,
    purpose: &ObjectIdentifier<39>,
) -> Result<String, AllocError>
    ensures { IfOk result (λ text. string_bytes text
        ≡ and_certificates is_strict purpose.now [] bundle.now.certificates) }
{
    let len = bundle.len();
    let mut items = String::new(alloc);
    for place in 0..len {
        let entry = bundle.get(place).unwrap();
        let is_last = place + 1 == len;
        let item = unjudged_in(alloc, entry.certificate, is_strict, purpose, is_last)?;
        add_item(&mut items, item.as_str())?;
    }
    Ok(items)
}

// Returns what the strict limits leave unchecked in a trust anchor, as a JSON array.
fn strict_in_anchor(alloc: Global, anchor: &TrustAnchorChoice<Raw>) -> Result<String, AllocError>
    ensures { IfOk result (λ text. string_bytes text
        ≡ unjudged_in_anchor true (trust_anchor_plain anchor.now)) }
{
    let mut items = String::new(alloc);
    add_names(alloc, &mut items, anchor_extensions(anchor), Role::Strict)?;
    let items = items.as_str();
    format!(in alloc; "[{items}]")
}

// Returns what isn't checked in a trust anchor, as a JSON array.
fn unjudged_in_anchor(
    alloc: Global,
    anchor: &TrustAnchorChoice<Raw>,
    is_strict: bool,
) -> Result<String, AllocError>
    ensures { IfOk result (λ text. string_bytes text
        ≡ unjudged_in_anchor is_strict (trust_anchor_plain anchor.now)) }
{
    if is_strict {
        return strict_in_anchor(alloc, anchor);
    }
    let mut items = String::new(alloc);
    if signed_of(anchor).is_some() {
        add_name(alloc, &mut items, "validity")?;
    }
    add_names(
        alloc,
        &mut items,
        anchor_extensions(anchor),
        Role::TrustAnchor,
    )?;
    let items = items.as_str();
    format!(in alloc; "[{items}]")
}

// Returns the name of a trust anchor, if it has one.
fn anchor_name(anchor: &TrustAnchorChoice<Raw>) -> Option<&Name>
    ensures { option_map (λ name. name_plain name.now) result
        ≡ anchor_name (trust_anchor_plain anchor.now) }
{
    match anchor {
        TrustAnchorChoice::Certificate(root) => Some(root.tbs_certificate().subject()),
        TrustAnchorChoice::TbsCertificate(signed) => Some(signed.subject()),
        TrustAnchorChoice::TaInfo(info) => match &info.cert_path {
            Some(controls) => Some(&controls.ta_name),
            None => None,
        },
    }
}

// Returns whether a trust anchor has the name of a certificate's issuer.
fn has_name_of(certificate: &CertificateInner<Raw>, anchor: &TrustAnchorChoice<Raw>) -> bool
    requires { IsValid (raw_certificate Bound) (certificate_plain certificate.now) }
    ensures { result ≡ has_name_of (certificate_plain certificate.now)
        (trust_anchor_plain anchor.now) }
{
    match anchor_name(anchor) {
        Some(name) => is_issued_by(certificate, name),
        None => false,
    }
}

// Returns the arrays of the trust anchors that have the name of a certificate's issuer.
fn anchors_text(
    alloc: Global,
    certificate: &CertificateInner<Raw>,
    anchors: &[TrustAnchorChoice<Raw>],
    is_strict: bool,
) -> Result<String, AllocError>
    requires { IsValid (raw_certificate Bound) (certificate_plain certificate.now) }
    ensures { IfOk result (λ text. string_bytes text
        ≡ and_anchors is_strict (certificate_plain certificate.now) []
        (map trust_anchor_plain anchors.now)) }
{
    let mut items = String::new(alloc);
    for anchor in anchors {
        if has_name_of(certificate, anchor) {
            let item = unjudged_in_anchor(alloc, anchor, is_strict)?;
            add_item(&mut items, item.as_str())?;
        }
    }
    Ok(items)
}

// Returns the arrays of the trust anchors that have the name of the first certificate's issuer.
fn first_anchors_text(
    alloc: Global,
    bundle: &Bundle,
    anchors: &[TrustAnchorChoice<Raw>],
    is_strict: bool,
) -> Result<String, AllocError>
    ensures { IfOk result (λ text. string_bytes text
        ≡ anchors_text is_strict bundle.now.certificates (map trust_anchor_plain anchors.now)) }
{
    match bundle.get(0) {
        Some(first) => anchors_text(alloc, first.certificate, anchors, is_strict),
        None => Ok(String::new(alloc)),
    }
}

// Returns the member `unjudged` of a JSON object, with the elements of its two arrays.
fn unjudged_member(alloc: Global, certificates: &str, anchors: &str) -> Result<String, AllocError>
    ensures { IfOk result (λ text. string_bytes text
        ≡ unjudged_member certificates.now anchors.now) }
{
    format!(in alloc; ",\"unjudged\":{{\"certificates\":[{certificates}],\"anchors\":[{anchors}]}}")
}

/// Returns the member `unjudged` of a JSON object: what isn't checked in each certificate of a
/// chain, and in each trust anchor of a file that has the name of the first certificate's issuer.
/// `octets` is the file of the trust anchors under which the chain was validated. If `is_strict`,
/// the strict limits check the chain, too, for this key purpose.
///
/// # Errors
///
/// - `AllocError`: memory runs out.
pub fn unjudged_text(
    alloc: Global,
    octets: &[u8],
    bundle: &Bundle,
    is_strict: bool,
    purpose: &ObjectIdentifier<39>,
) -> Result<String, AllocError>
    requires { Fits octets.now }
    ensures { IfOk result (λ text. IsUnjudgedText is_strict purpose.now octets.now
        bundle.now.certificates (string_bytes text)) }
{
    // The bytes were decoded before, so the only possible error is that memory runs out.
    let Ok(anchors) = choices_in(alloc, octets) else {
        return Err(AllocError);
    };
    let certificates = certificates_text(alloc, bundle, is_strict, purpose)?;
    let named = first_anchors_text(alloc, bundle, anchors.as_slice(), is_strict)?;
    let (of_certificates, of_anchors) = (certificates.as_str(), named.as_str());
    let text = unjudged_member(alloc, of_certificates, of_anchors)?;
    Ok(text)
}
