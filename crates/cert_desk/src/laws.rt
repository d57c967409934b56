//! Laws about chains, files of trust anchors, and issued chains. Each function does nothing: its
//! contract is the law.

pub use crate::issuing_laws::{
    held_is_refused_for, held_is_trusted, issuable_is_issued, issued_is_trusted, says_as_ordered,
    shorter_bits_fit, signed_is_sliced, trusted_is_permitted,
};
pub use cert_desk_checking::laws::{
    fault_stays, few_questions, first_breach_is_the_verdict, fronts_are_trusted, judged_alike,
    no_chain_with_a_fault, nothing_is_outside, one_anchor_file, one_chain, one_fault, one_series,
    one_series_fault, one_stream, one_verdict, questions_are_listed, rests_are_trusted,
    strangers_are_ignored, wider_bounds_keep_chains, wider_bounds_keep_faults,
    wider_bounds_keep_trust, wider_bounds_keep_verdicts,
};
