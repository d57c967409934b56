//! Character strings.

use crate::questions::{Question, answer_of_lent_text, answer_of_ordered_lent, answer_with_text};
use crate::refusals::Refusal;
use crate::times;
use der_types::{
    BmpString, GeneralStringRef, Ia5String, Ia5StringRef, PrintableString, PrintableStringRef,
    TeletexString, TeletexStringRef, Utf8StringRef, VideotexStringRef,
};
use std::alloc::Global;

/// Returns the answer for a type that this module names, or that a later module names.
pub fn answer(alloc: Global, kind: &str, question: &Question<'_>) -> Result<String, Refusal> {
    match kind {
        "PrintableString" => answer_with_text::<PrintableString>(alloc, question),
        "PrintableStringRef" => answer_of_lent_text::<PrintableStringRef>(alloc, question),
        "Ia5String" => answer_with_text::<Ia5String>(alloc, question),
        "Ia5StringRef" => answer_of_lent_text::<Ia5StringRef>(alloc, question),
        "TeletexString" => answer_with_text::<TeletexString>(alloc, question),
        "TeletexStringRef" => answer_of_lent_text::<TeletexStringRef>(alloc, question),
        "VideotexStringRef" => answer_of_lent_text::<VideotexStringRef>(alloc, question),
        "Utf8StringRef" => answer_of_lent_text::<Utf8StringRef>(alloc, question),
        "GeneralStringRef" => answer_of_ordered_lent::<GeneralStringRef>(alloc, question),
        "BmpString" => answer_with_text::<BmpString>(alloc, question),
        _ => times::answer(alloc, kind, question),
    }
}
