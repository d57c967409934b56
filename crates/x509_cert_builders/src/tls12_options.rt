//! Additional key usages for TLS 1.2.

/// The additional key usages that TLS 1.2 requires if keys are exchanged without ephemeral
/// Diffie-Hellman (RFC 5246 7.4.2). TLS 1.3 requires none of them.
#[derive(Default, Drop)]
pub struct Tls12Options {
    /// True if an RSA key may encrypt keys.
    pub enable_key_encipherment: bool,
    /// True if an elliptic-curve key may be used for key agreement.
    pub enable_key_agreement: bool,
}
