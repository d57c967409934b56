//! The answer of an OCSP response for a certificate (RFC 6960 4.1.1, 4.2.1).
//!
//! A response may have answers about several certificates. Each names its certificate by a CertID:
//! hashes of the issuer's name and key, and the serial number. [`find_answer`] returns the answer
//! for a certificate, and [`cert_id_of`] makes the CertID for a request.
//!
//! What a response says holds only if its signature is verified: `pki_signers` returns the signed
//! bytes and the chain of the signer.
#![tactic(auto)]

mod answers;
mod cert_ids;
mod hash_function;

pub use answers::find_answer;
pub use cert_ids::{cert_id_of, identifies};
pub use hash_function::HashFunction;
