//! Extensions of the certificates of a chain that no rule checks.

use crate::chain_entry::ChainEntry;
use cert_tool_describe::cert_kinds::ExtensionKind as Kind;
use cert_tool_describe::cert_parts::Extension;
use cert_tool_describe::tool_lines::Lines;

// Returns whether an extension is about policies (RFC 5280 4.2.1.4, 4.2.1.5, 4.2.1.11, 4.2.1.14),
// which neither the rules nor `--strict` check.
pub(crate) fn is_of_policies(extension: &Extension) -> bool {
    matches!(
        Kind::of(&extension.extn_id),
        Some(
            Kind::CertificatePolicies
                | Kind::PolicyMappings
                | Kind::PolicyConstraints
                | Kind::InhibitAnyPolicy
        )
    )
}

// Returns whether an extension isn't checked. `--strict` checks name constraints (RFC 5280
// 4.2.1.10) and, for some key purposes, the key usage of the end entity.
fn is_unchecked(
    extension: &Extension,
    is_last: bool,
    is_strict: bool,
    checks_key_usage: bool,
) -> bool {
    match Kind::of(&extension.extn_id) {
        Some(Kind::NameConstraints) => !is_strict,
        Some(Kind::KeyUsage) => is_last && !checks_key_usage,
        _ => is_of_policies(extension),
    }
}

// Adds which extensions of a certificate aren't checked, if there are any.
pub(crate) fn add_unchecked_extensions(
    lines: &mut Lines,
    place: &ChainEntry<'_>,
    is_strict: bool,
    checks_key_usage: bool,
) {
    let is_last = place.number.saturating_add(1) == place.bundle.len();
    let mut before = "";
    for extension in place.extensions() {
        if is_unchecked(extension, is_last, is_strict, checks_key_usage) {
            if before.is_empty() {
                lines.entry("not judged:");
                lines.key("unjudged");
                lines.begin();
            }
            lines.identifier(before, &extension.extn_id, "");
            before = ", ";
        }
    }
    if !before.is_empty() {
        lines.end();
        lines.close();
    }
}
