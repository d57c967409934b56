//! Laws about issued chains. Each function does nothing: its contract is the law.
//!
//! A chain fulfils orders if each certificate is the one that is ordered at its index.
ghost use Rattle.cert_desk.specs.Issuable.{IssuableIsIssued, ShorterBitsFit};
ghost use Rattle.cert_desk.specs.Laws.{HeldIsTrusted, TrustedIsPermitted, HeldIsRefusedFor};
ghost use Rattle.cert_desk.specs.Laws.{IssuedIsTrusted, SignedIsSliced, SaysAsOrdered};

use x509_cert_builders::Signer;

/// If the orders are accepted, no signer may refuse to sign, and all lengths fit, no reason to
/// reject the orders applies: only memory can run out.
pub fn issuable_is_issued<S: Signer>()
    ensures { IssuableIsIssued S.public_key S.signs_by S.signs S.may_refuse }
{}

/// A certificate that has an encoding with some signature has one with any signature of at most as
/// many bytes. So if a signer may return any signature of at most a number of bytes, and the
/// lengths fit with one signature of that many bytes, they fit with all of them.
#[tactic(auto, using(crate::proofs::ShortBits::shorter_bits_fit))]
pub fn shorter_bits_fit()
    ensures { ShorterBitsFit }
{}

/// A chain that fulfils orders is trusted under its own root if the validation time is within all
/// dates, the orders allow the key purpose, their path lengths are large enough, each certificate
/// is within the size limit, and the verifier accepts each signature under the ordered key.
#[tactic(auto, using(crate::proofs::Trusting::held_is_trusted))]
pub fn held_is_trusted()
    ensures { HeldIsTrusted }
{}

/// A chain that fulfils orders is trusted under its own root only if the conditions of
/// [`held_is_trusted`] are met.
pub fn trusted_is_permitted()
    ensures { TrustedIsPermitted }
{}

/// A chain that fulfils orders is rejected under its own root only for one of these reasons, at the
/// index that is reported: the validation time, the key purpose, a path length, or the verifier's
/// answer. No other rule is broken.
pub fn held_is_refused_for()
    ensures { HeldIsRefusedFor }
{}

/// An issued chain is trusted under its own root if the verifier accepts every signature that the
/// signers may return, and the other conditions of [`held_is_trusted`] are met.
pub fn issued_is_trusted<S: Signer>()
    ensures { IssuedIsTrusted S.public_key S.signs_by S.signs }
{}

/// The bytes of the chain that a verifier gets, at any index, are the encoding of the
/// TBSCertificate there, for which the signer may return the signature.
#[tactic(auto, using(crate::proofs::Trusting::signed_is_sliced))]
pub fn signed_is_sliced()
    ensures { SignedIsSliced }
{}

/// Each extension has the ordered content: the key usage, the names, whether the subject is a CA
/// and with which path length, and the key purposes. It is critical if the standard requires it.
#[tactic(auto, using(crate::proofs::Trusting::says_as_ordered))]
pub fn says_as_ordered()
    ensures { SaysAsOrdered }
{}
