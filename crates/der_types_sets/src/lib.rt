//! SEQUENCE OF with a fixed capacity, and SET OF. Users import the items of this crate from
//! `der_types`.
#![tactic(auto)]

mod any_order;
mod ascending;
mod iter;
mod joined;
pub mod laws;
pub mod making;
mod places;
mod sequence_of;
mod set_of;
mod set_of_ref;
mod set_of_ref_iter;
mod set_of_vec;
mod sets_in_range;
mod sorting;

pub use iter::{SequenceOfIter, SetOfIter};
pub use sequence_of::SequenceOf;
pub use set_of::SetOf;
pub use set_of_ref::SetOfRef;
pub use set_of_ref_iter::SetOfRefIter;
pub use set_of_vec::SetOfVec;
