//! The ways in which types can be described.

pub use crate::integers::AsInteger;
pub use crate::leaf_ways::{AsLeaf, AsOctets, EncodeLeaf, Octets};
pub use crate::leaves::Primitive;
pub use crate::numbered::{AsEnumerated, AsNumbered, Numbered};
pub use crate::ways::{AsReadWay, DecodeWay, Described, RangeWay, TagWay, Way};
pub use crate::wraps::{AsField, Wraps};
