//! A law about the types. It is the contract of a function that does nothing.

ghost use Rattle.der_types.specs.Levels.{NeedsNone, NeedsOneMore};

use crate::*;
use der_core::{DerOrd, Element, Encode, FirstTag, Member, Shaped};

/// The numbers of nested levels that the types need, as in `der_types::laws::levels_of_types`.
pub fn levels_of_types<'a, T: Encode + DerOrd + FirstTag + Element + Member + 'a, const N: u32>()
    ensures others { NeedsNone ⟦<GeneralString as Shaped>⟧.shape
        × NeedsNone ⟦<NumericString as Shaped>⟧.shape
        × NeedsNone ⟦<NumericStringRef<'static> as Shaped>⟧.shape
        × NeedsNone ⟦<VisibleString as Shaped>⟧.shape
        × NeedsNone ⟦<VisibleStringRef<'static> as Shaped>⟧.shape
        × NeedsNone ⟦<SequenceOwned as Shaped>⟧.shape
        × NeedsNone ⟦<OrTrue as Shaped>⟧.shape }
    ensures lists { NeedsOneMore ⟦<AscendingSetOf<T> as Shaped>⟧.shape T.shape
        × NeedsOneMore ⟦<OptionalSet<T, N> as Shaped>⟧.shape T.shape
        × NeedsOneMore ⟦<SetMembers<'a, T, N> as Shaped>⟧.shape T.shape
        × NeedsOneMore ⟦<OneOrMore<T> as Shaped>⟧.shape T.shape }
{}
