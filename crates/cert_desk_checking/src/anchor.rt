//! Trust anchors.
ghost use Rattle.std.specs.Prelude.{◌≡◌, ◌≢◌, Ok, Err, IfOk, IfErr};
ghost use Rattle.x509_cert_anchors.specs.CertNames.Views.{name_plain};
ghost use Rattle.x509_cert_anchors.specs.CertParts.Views.{key_plain};
ghost use Rattle.x509_cert_anchors.specs.AnchorViews.{cert_path_controls_plain, trust_anchor_plain};
ghost use Rattle.cert_desk_checking.specs.Anchors.{anchor_plain, has_only_name, given_by};

use crate::anchor_error::AnchorError;
use std::alloc::Global;
use x509_cert_anchors::cert_names::Name;
use x509_cert_anchors::cert_parts::{Raw, SubjectPublicKeyInfo};
use x509_cert_anchors::{CertPathControls, TrustAnchorChoice};

/// A trust anchor for certificate chains: a name and a key that are trusted without a certificate.
#[derive(Debug, Drop)]
pub struct Anchor {
    name: Name,
    key: SubjectPublicKeyInfo,
}

#[tactic(auto, unfolding(crate::specs::Anchors::anchor_plain))]
impl Anchor {
    /// Returns a trust anchor with this name and this key.
    pub fn new(name: Name, key: SubjectPublicKeyInfo) -> Anchor
        ensures name { (anchor_plain result).name ≡ name_plain name }
        ensures key { (anchor_plain result).key ≡ key_plain key }
    {
        Anchor { name, key }
    }

    /// Returns the name and the key of a trust anchor (RFC 5914 2). They are the subject and the
    /// key of a certificate or of a TBSCertificate, or a key with its name. Nothing else in the
    /// trust anchor is used.
    ///
    /// # Errors
    ///
    /// - `NoName`: the trust anchor is a key without a name.
    /// - `PathControls`: the trust anchor is a key with other conditions on certification paths.
    /// - `OutOfMemory`: memory runs out for the copies of the name and the key.
    pub fn from_choice(
        alloc: Global,
        choice: &TrustAnchorChoice<Raw>,
    ) -> Result<Anchor, AnchorError>
        ensures given { IfOk result (λ anchor. given_by (trust_anchor_plain choice.now)
            ≡ Ok (anchor_plain anchor)) }
        ensures refused { IfErr result (λ error. error ≢ AnchorError.OutOfMemory
            → given_by (trust_anchor_plain choice.now) ≡ Err error) }
    {
        match choice {
            TrustAnchorChoice::Certificate(certificate) => {
                let signed = certificate.tbs_certificate();
                copied(alloc, signed.subject(), signed.subject_public_key_info())
            }
            TrustAnchorChoice::TbsCertificate(signed) => {
                copied(alloc, signed.subject(), signed.subject_public_key_info())
            }
            TrustAnchorChoice::TaInfo(info) => {
                let Some(controls) = &info.cert_path else {
                    return Err(AnchorError::NoName);
                };
                if !has_only_name(controls) {
                    return Err(AnchorError::PathControls);
                }
                copied(alloc, &controls.ta_name, &info.pub_key)
            }
        }
    }

    /// Returns the name, which is the issuer of the first certificate of a chain.
    pub fn name(&self) -> &Name
        ensures { name_plain result.now ≡ (anchor_plain self.now).name }
    {
        &self.name
    }

    /// Returns the key, which signed the first certificate of a chain.
    pub fn key(&self) -> &SubjectPublicKeyInfo
        ensures { key_plain result.now ≡ (anchor_plain self.now).key }
    {
        &self.key
    }
}

// Returns whether the path controls contain only the name (RFC 5914 2.5).
fn has_only_name(controls: &CertPathControls<Raw>) -> bool
    ensures { result ≡ has_only_name (cert_path_controls_plain controls.now) }
{
    controls.certificate.is_none()
        && controls.policy_set.is_none()
        && controls.policy_flags.is_none()
        && controls.name_constr.is_none()
        && controls.path_len_constraint.is_none()
}

// Returns a trust anchor with copies of the name and of the key.
#[tactic(auto, unfolding(crate::specs::Anchors::anchor_plain))]
fn copied(alloc: Global, name: &Name, key: &SubjectPublicKeyInfo) -> Result<Anchor, AnchorError>
    ensures copied { IfOk result
        (λ anchor. anchor_plain anchor
        ≡ record { name = name_plain name.now; key = key_plain key.now }) }
    ensures refused { IfErr result (λ error. error ≡ AnchorError.OutOfMemory) }
{
    let name = name.clone(alloc)?;
    let key = key.clone(alloc)?;
    Ok(Anchor::new(name, key))
}
