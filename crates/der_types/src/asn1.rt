//! The types of ASN.1 (X.680) by the names that the Rust crate `der` has for them.

pub use der_types_any::types_numbers::{
    AsIntRef, AsUintRef, GeneralizedTime, Int, IntRef, Uint, UintRef, UtcTime,
};
pub use der_types_any::types_text::{
    BmpString, GeneralStringRef, Ia5String, Ia5StringRef, PrintableString, PrintableStringRef,
    TeletexString, TeletexStringRef, Utf8StringRef, VideotexStringRef,
};
pub use der_types_any::types_values::{
    AsBitStringRef, BitString, BitStringIter, BitStringRef, Null, OctetString, OctetStringRef,
    Sequence, SequenceRef,
};
pub use der_types_any::{Any, AnyRef};
pub use der_types_sets::{
    SequenceOf, SequenceOfIter, SetOf, SetOfIter, SetOfRef, SetOfRefIter, SetOfVec,
};
pub use der_types_tagged::oid::ObjectIdentifier;
pub use der_types_tagged::{
    Application, ApplicationRef, ContextSpecific, ContextSpecificRef, Private, PrivateRef,
};
