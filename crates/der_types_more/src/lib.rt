//! More types of ASN.1 modules: VisibleString and NumericString, owned and borrowed, an owned
//! GeneralString, an owned SEQUENCE whose content isn't decoded, SET OF that may have equal
//! members, SEQUENCE OF and OPTIONAL SET OF with at least one member, and BOOLEAN DEFAULT TRUE.
#![tactic(auto)]

mod ascending_set_of;
mod general_string;
pub mod laws;
mod numeric_string;
mod one_or_more;
mod optional_set;
mod or_true;
mod sequence_owned;
mod visible_string;

pub use ascending_set_of::AscendingSetOf;
pub use general_string::GeneralString;
pub use numeric_string::{Numeric, NumericString, NumericStringRef};
pub use one_or_more::OneOrMore;
pub use optional_set::{OptionalSet, SetMembers, members_of};
pub use or_true::OrTrue;
pub use sequence_owned::SequenceOwned;
pub use visible_string::{Visible, VisibleString, VisibleStringRef};
