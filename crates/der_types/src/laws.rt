//! Laws about the types: a borrowed value and its owned form agree, dates are ordered by their
//! seconds, the encoding of a set doesn't depend on the order of insertions, and the encoding of a
//! tagged field decodes to it.
//!
//! Each law is the contract of a function that does nothing.

ghost use Rattle.std.specs.Prelude.{ℕ};
ghost use Rattle.der_types_tagged.specs.Fields.{explicit_field};
ghost use Rattle.der_types.specs.Levels.{NeedsNone, NeedsOneMore};

use crate::*;
pub use der_types_any::laws::any_forms_agree;
pub use der_types_any::types_numbers::laws::{integer_forms_agree, natural_forms_agree};
pub use der_types_any::types_numbers::time_laws::{one_date, order_is_that_of_seconds};
pub use der_types_any::types_text::laws::{
    forms_answer_alike, forms_compare_alike, forms_read_alike, octets_identify,
    order_is_that_of_octets, printed_strings_are_read_back, utf8_forms_answer_alike,
    utf8_forms_compare_alike, utf8_forms_read_alike,
};
pub use der_types_any::types_values::laws::{bit_forms_agree, octet_forms_agree};
pub use der_types_sets::laws::{borrowed_and_owned_agree, order_of_insertions};
use der_types_tagged::der::{Shaped, StrictSetOf};
pub use der_types_tagged::laws::{others_are_absent, written_is_read_back};

/// The numbers of nested levels that the types need. A type without members needs none, and a type
/// with members needs one more than they do. So such a type can be decoded if its members need
/// fewer levels than the reader may open.
pub fn levels_of_types<'a, T: Shaped + 'a, F: NamedBits, const N: usize>()
    ensures numbers { NeedsNone ⟦<bool as Shaped>⟧.shape
        × NeedsNone ⟦<u8 as Shaped>⟧.shape
        × NeedsNone ⟦<u16 as Shaped>⟧.shape
        × NeedsNone ⟦<u32 as Shaped>⟧.shape
        × NeedsNone ⟦<u64 as Shaped>⟧.shape
        × NeedsNone ⟦<u128 as Shaped>⟧.shape
        × NeedsNone ⟦<i8 as Shaped>⟧.shape
        × NeedsNone ⟦<i16 as Shaped>⟧.shape
        × NeedsNone ⟦<i32 as Shaped>⟧.shape
        × NeedsNone ⟦<i64 as Shaped>⟧.shape
        × NeedsNone ⟦<i128 as Shaped>⟧.shape
        × NeedsNone ⟦<Int as Shaped>⟧.shape
        × NeedsNone ⟦<IntRef<'static> as Shaped>⟧.shape
        × NeedsNone ⟦<Uint as Shaped>⟧.shape
        × NeedsNone ⟦<UintRef<'static> as Shaped>⟧.shape }
    ensures strings { NeedsNone ⟦<BitString as Shaped>⟧.shape
        × NeedsNone ⟦<BitStringRef<'static> as Shaped>⟧.shape
        × NeedsNone ⟦<OctetString as Shaped>⟧.shape
        × NeedsNone ⟦<OctetStringRef<'static> as Shaped>⟧.shape
        × NeedsNone ⟦<BmpString as Shaped>⟧.shape
        × NeedsNone ⟦<GeneralStringRef<'static> as Shaped>⟧.shape
        × NeedsNone ⟦<Ia5String as Shaped>⟧.shape
        × NeedsNone ⟦<Ia5StringRef<'static> as Shaped>⟧.shape
        × NeedsNone ⟦<PrintableString as Shaped>⟧.shape
        × NeedsNone ⟦<PrintableStringRef<'static> as Shaped>⟧.shape
        × NeedsNone ⟦<TeletexString as Shaped>⟧.shape
        × NeedsNone ⟦<TeletexStringRef<'static> as Shaped>⟧.shape
        × NeedsNone ⟦<Utf8StringRef<'static> as Shaped>⟧.shape
        × NeedsNone ⟦<VideotexStringRef<'static> as Shaped>⟧.shape
        × NeedsNone ⟦<String as Shaped>⟧.shape
        × NeedsNone ⟦<&'static str as Shaped>⟧.shape }
    ensures others { NeedsNone ⟦<Any as Shaped>⟧.shape
        × NeedsNone ⟦<AnyRef<'static> as Shaped>⟧.shape
        × NeedsNone ⟦<Null as Shaped>⟧.shape
        × NeedsNone ⟦<SequenceRef<'static> as Shaped>⟧.shape
        × NeedsNone ⟦<DateTime as Shaped>⟧.shape
        × NeedsNone ⟦<GeneralizedTime as Shaped>⟧.shape
        × NeedsNone ⟦<UtcTime as Shaped>⟧.shape
        × NeedsNone ⟦<FlagSet<F> as Shaped>⟧.shape }
    ensures lists { NeedsOneMore ⟦<Vec<T> as Shaped>⟧.shape T.shape
        × NeedsOneMore ⟦<[T; N] as Shaped>⟧.shape T.shape
        × NeedsOneMore ⟦<SequenceOf<T, N> as Shaped>⟧.shape T.shape }
    ensures sets { NeedsOneMore ⟦<SetOf<T, N> as Shaped>⟧.shape T.shape
        × NeedsOneMore ⟦<SetOfRef<'a, T> as Shaped>⟧.shape T.shape
        × NeedsOneMore ⟦<SetOfVec<T> as Shaped>⟧.shape T.shape
        × NeedsOneMore ⟦<StrictSetOf<T> as Shaped>⟧.shape T.shape }
    ensures tagged { (class n : ℕ) → NeedsOneMore (explicit_field class n T.shape) T.shape }
{}
