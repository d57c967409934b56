//! Issuing certificates for programs in C. The statuses, and the way in which texts are written,
//! are those of `cert_desk_c`. The calls keep nothing between them, so several threads may call at
//! the same time.
#![tactic(auto)]

mod auditing;
mod given_signer;
mod issuing;
pub mod laws;
mod reasons;
mod willing_judge;
