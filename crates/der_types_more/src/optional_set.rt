//! OPTIONAL SETs OF with at least one member.

ghost use Rattle.std.specs.Prelude.{◌≡◌, []};
ghost use Rattle.der_core.specs.Defaults.{short_tlv};
ghost use Rattle.der_core.specs.Grammar.{plain_list};
ghost use Rattle.der_core.specs.Shapes.{nested, rising};
ghost use Rattle.der_core.specs.TagTypes.Tag.TheVariants.{Set};
ghost use Rattle.der_core.specs.Tags.{implicit_tag};
ghost use Rattle.der_types_more.specs.OptionalSets.{value_or};

use der_core::making::{check_in_order, elements_cmp, encode_members, members_len, number_of};
use der_core::{
    AsRead, AsReadValue, Decode, DecodeValue, DefaultValue, DerOrd, Element, Encode, EncodeValue,
    Error, FixedTag, Header, Implicit, Length, Member, Reader, Shaped, ShapedValue, StrictSetOf,
    Tag, ValueOrd, Writer,
};
use std::alloc::Global;
use std::cmp::Ordering;

/// A SET OF with the implicit tag `N`, whose members are in ascending order and differ (X.690 8.12,
/// 11.6). A field of type `WithDefault<OptionalSet<T, N>>` is optional, and has a member if it is
/// present: `SIZE (1..MAX)`. Decoding the field returns `None` if it is absent, and the error
/// `Noncanonical` for a set without members, which is encoded as an absent field. `OptionalSet`
/// alone accepts a set without members.
///
/// In contracts, `None` and a set without members are one value, the empty list. So no contract
/// states that an absent field is `None`, and not `Some` of a set without members.
#[derive(Debug, Drop)]
pub struct OptionalSet<T, const N: u32>(pub Option<StrictSetOf<T>>);

impl<T, const N: u32> FixedTag for OptionalSet<T, N> {
    ghost fixed_tag = { implicit_tag N Set };

    fn tag() -> Tag {
        Implicit::<StrictSetOf<T>, N>::tag()
    }
}

impl<T: Shaped, const N: u32> ShapedValue for OptionalSet<T, N> {
    ghost content = { nested (rising T.shape) };

    ghost value_plain = { λ x. value_or [] (λ s. plain_list T.plain s.values.items) x.0 };

    ghost value_written = { λ x. value_or [] (λ s. plain_list T.written s.values.items) x.0 };
}

impl<T: AsRead, const N: u32> AsReadValue for OptionalSet<T, N> {
    ghost use Rattle.der_core.specs.Same.{same_list};
    ghost use Rattle.der_types_more.specs.OptionalSets.{same_value};

    ghost as_read_value = { λ x. same_value [] (λ s. same_list T.as_read s.values.items) x.0 };
}

impl<'a, R: Reader<'a>, T: Decode<'a, R> + Member, const N: u32> DecodeValue<'a, R>
    for OptionalSet<T, N> {
    fn decode_value(
        alloc: Global,
        reader: &mut R,
        header: Header,
    ) -> Result<OptionalSet<T, N>, Error> {
        let set = StrictSetOf::<T>::decode_value(alloc, reader, header)?;
        Ok(OptionalSet(Some(set)))
    }
}

/// The default is `None`.
impl<T: Element + AsRead, const N: u32> DefaultValue for OptionalSet<T, N> {
    ghost default_octets = { short_tlv (implicit_tag N Set) [] };

    fn default_value() -> OptionalSet<T, N> {
        // Only for the proof: `number_of` returns a `u32`, so the tag number fits 32 bits.
        let _number = number_of(OptionalSet::<T, N>::tag());
        OptionalSet(None)
    }

    fn is_default(&self) -> bool {
        members_of::<T, N>(&self.0).is_default()
    }
}

/// The members of a SET OF with the implicit tag `N` in an OPTIONAL field. There are none if the
/// field is absent. In a borrowed row of fields, its type is `WithDefault<SetMembers<'a, T, N>>`.
#[derive(Drop)]
pub struct SetMembers<'a, T, const N: u32>(pub &'a [T]);

/// Returns members with the same abstract values: those of the set, or none for `None`.
pub fn members_of<'a, T: Shaped, const N: u32>(
    set: &'a Option<StrictSetOf<T>>,
) -> SetMembers<'a, T, N>
    ensures { plain_list T.plain result.0.now
        ≡ value_or [] (λ s. plain_list T.plain s.values.items) set.now }
{
    match set {
        Some(set) => SetMembers(set.as_slice()),
        None => SetMembers(&[]),
    }
}

impl<'a, T, const N: u32> FixedTag for SetMembers<'a, T, N> {
    ghost fixed_tag = { implicit_tag N Set };

    fn tag() -> Tag {
        Implicit::<StrictSetOf<T>, N>::tag()
    }
}

impl<'a, T: Shaped, const N: u32> ShapedValue for SetMembers<'a, T, N> {
    ghost content = { nested (rising T.shape) };

    ghost value_plain = { λ r. plain_list T.plain r.0.now };

    ghost value_written = { λ r. plain_list T.written r.0.now };
}

impl<'a, T: AsRead, const N: u32> AsReadValue for SetMembers<'a, T, N> {
    ghost use Rattle.der_core.specs.Same.{same_list};

    ghost as_read_value = { λ r. same_list T.as_read r.0.now };
}

/// The default has no members.
impl<'a, T: Element + AsRead, const N: u32> DefaultValue for SetMembers<'a, T, N> {
    ghost default_octets = { short_tlv (implicit_tag N Set) [] };

    fn default_value() -> SetMembers<'a, T, N> {
        // Only for the proof, as above.
        let _number = number_of(SetMembers::<'a, T, N>::tag());
        SetMembers(&[])
    }

    fn is_default(&self) -> bool {
        // Only for the proof, as above.
        let _number = number_of(SetMembers::<'a, T, N>::tag());
        self.0.is_empty()
    }
}

/// The members are encoded before their order is checked, as those of `StrictSetOf`.
impl<'a, T: Encode + DerOrd + Member, const N: u32> EncodeValue for SetMembers<'a, T, N> {
    fn value_len(&self) -> Result<Length, Error> {
        members_len(self.0)
    }

    #[tactic(auto, unfolding(crate::specs::Opened::contents))]
    fn encode_value<W: Writer>(&self, writer: &mut W) -> Result<(), Error> {
        encode_members(self.0, writer)?;
        check_in_order(self.0, false)
    }
}

/// Compares the concatenated encodings of the members.
impl<'a, T: DerOrd, const N: u32> ValueOrd for SetMembers<'a, T, N> {
    #[tactic(auto, unfolding(crate::specs::Opened::contents, crate::specs::Opened::IsContent, crate::specs::Opened::body_octets, crate::specs::Opened::IsBody))]
    fn value_cmp(&self, other: &Self) -> Result<Ordering, Error> {
        elements_cmp(self.0, other.0)
    }
}
