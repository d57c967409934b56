//! Finds nameConstraints, which no rule checks.

ghost use Rattle.std.specs.Prelude.{◌≡◌, true, IfSome};
ghost use Rattle.std.specs.List.{list_any};
ghost use Rattle.std.specs.Option.{is_some};
ghost use Rattle.x509_cert_anchors.specs.CertCertificates.Certificates.{extensions_of};
ghost use Rattle.x509_cert_anchors.specs.CertParts.Views.{extensions_plain};
ghost use Rattle.cert_tool_limits.specs.Limits.{constrains_names, of_place};

use crate::key_uses::is_ce;
use cert_desk_bundle::Bundle;
use cert_desk_bundle::cert_parts::Extension;
use cert_desk_rules::extensions_of;

// Returns whether one of the extensions is nameConstraints.
pub(crate) fn constrains_names(extensions: &[Extension]) -> bool
    ensures { result ≡ constrains_names (extensions_plain extensions.now) }
{
    extensions.iter().any(|extension| is_ce(extension, 30))
}

/// Returns the index of the first certificate that has nameConstraints (RFC 5280 4.2.1.10), if
/// there is one.
pub fn first_constraints(bundle: &Bundle) -> Option<usize>
    ensures some { is_some result
        ≡ list_any (λ c. constrains_names (extensions_of c)) bundle.now.certificates }
    ensures place { IfSome result (λ place. of_place (λ c. constrains_names (extensions_of c))
        bundle.now.certificates place ≡ true) }
{
    for place in 0..bundle.len() {
        let entry = bundle.get(place).unwrap();
        if constrains_names(extensions_of(entry.certificate)) {
            return Some(place);
        }
    }
    None
}
