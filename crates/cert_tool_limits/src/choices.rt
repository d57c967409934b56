//! Decodes a file of trust anchors, with all fields of each.

ghost use Rattle.std.specs.Prelude.{map, IfOk, IfErr};
ghost use Rattle.x509_cert_anchors.specs.AnchorViews.{trust_anchor_plain};
ghost use Rattle.x509_cert_anchors.specs.Der.Heads.{Fits};
ghost use Rattle.cert_tool_limits.specs.Choices.{AreChoices, IsNoChoice};

use cert_desk_bundle::cert_parts::Raw;
use cert_desk_checking::{AnchorsError, choice_at};
use std::alloc::Global;
use x509_cert_anchors::TrustAnchorChoice;

/// Decodes a file of trust anchors (RFC 5914 2), one after another.
///
/// # Errors
///
/// - `BadAnchors`: the bytes at this offset aren't the encoding of a trust anchor.
/// - `OutOfMemory`: an allocation fails.
pub fn choices_in(alloc: Global, octets: &[u8]) -> Result<Vec<TrustAnchorChoice<Raw>>, AnchorsError>
    requires { Fits octets.now }
    ensures read { IfOk result (λ choices.
        AreChoices octets.now (map trust_anchor_plain choices.items)) }
    ensures refused { IfErr result (IsNoChoice octets.now) }
{
    let mut choices = Vec::new(alloc);
    let mut start = 0;
    while start < octets.len() {
        let (choice, end) = choice_at(alloc, octets, start)?;
        if choices.push(choice).is_err() {
            return Err(AnchorsError::OutOfMemory);
        }
        start = end;
    }
    Ok(choices)
}
