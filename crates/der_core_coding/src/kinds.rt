//! Types with a default value.

ghost use Rattle.std.specs.Prelude.{◌≡◌, List, ℕ, [], ◌∷◌, Ok, true, bytes_eq, nat_lt, length};
ghost use Rattle.std.specs.Prelude.{◌<◌, pos, refl};
ghost use Rattle.der_core_values.specs.CoreHead.Grammar.{read};
ghost use Rattle.der_core_values.specs.CoreHead.Leaves.{integer};
ghost use Rattle.der_core_values.specs.CoreHead.Limits.{levels_max};
ghost use Rattle.der_core_values.specs.CoreHead.Shapes.{leaf, octets_of, contents, IsValid};
ghost use Rattle.der_core_values.specs.CoreHead.Shapes.{IsContent};
ghost use Rattle.der_core_values.specs.CoreHead.Spelling.{are_content_enough};
ghost use Rattle.der_core_values.specs.CoreHead.Tags.{context};
ghost use Rattle.der_core_coding.specs.Defaults.{short_tlv};

use crate::explicit::Explicit;
use crate::implicit::Implicit;
use der_core_values::core_head::number_of;
use der_core_values::describing::{AsNumbered, AsReadWay, Described, Numbered};
use der_core_values::{ApartValue, AsRead, AsReadValue, FixedTag, Integer, Shaped, ShapedValue};

/// A type with a default value, which is never encoded (X.690 11.5). Its other values are encoded
/// as they are decoded.
pub trait DefaultValue: Shaped + AsRead {
    /// The encoding of the default.
    ghost default_octets: { List ℕ };

    /// Returns the default.
    fn default_value() -> Self
        ensures { read Self.shape levels_max default_octets ≡ Ok (Self.plain result, []) };

    /// Returns whether a value is the default.
    fn is_default(&self) -> bool
        ensures value { result
            ≡ bytes_eq (octets_of Self.shape (Self.plain self.now)) default_octets }
        // If the value is the default, it is valid.
        ensures valid { result ≡ true → IsValid Self.shape (Self.plain self.now) };
}

/// A type with a default value, which is never encoded in a field (X.690 11.5). Its content has
/// fewer than 100 bytes and needs no level of nesting.
///
/// Such a type can be in `WithDefault`, and so can an implicit or explicit tag around it.
pub trait DefaultContent: ShapedValue + ApartValue + AsReadValue {
    /// The content of the default.
    ghost content_octets: { List ℕ };

    /// Returns the default, which has the content that the type states.
    fn default_content() -> Self
        ensures octets { contents Self.content (Self.value_plain result) ≡ content_octets }
        ensures valid { IsContent Self.content (Self.value_plain result) };

    /// Returns whether a value is the default.
    fn is_default_content(&self) -> bool
        ensures value { result
            ≡ bytes_eq (contents Self.content (Self.value_plain self.now)) content_octets }
        ensures valid { result ≡ true → IsContent Self.content (Self.value_plain self.now) };

    /// The content of the default has fewer than 100 bytes.
    ghost few: { nat_lt (length content_octets) 100 ≡ true };

    /// The content needs no level of nesting.
    ghost enough: { (room : ℕ) → are_content_enough Self.content room ≡ true };
}

/// The encoding of the default is the tag of the type and the content of the default.
impl<T: DefaultContent + FixedTag> DefaultValue for T {
    ghost default_octets = { short_tlv T.fixed_tag T.content_octets };

    fn default_value() -> T {
        // Only for the proof: `number_of` returns a `u32`, so the tag number fits 32 bits.
        let _number = number_of(T::tag());
        T::default_content()
    }

    fn is_default(&self) -> bool {
        // Only for the proof, as above.
        let _number = number_of(T::tag());
        self.is_default_content()
    }
}

/// The encoding of the default is both tags and the content of the default.
impl<T: DefaultContent + FixedTag, const N: u32> DefaultValue for Explicit<T, N> {
    ghost default_octets = { short_tlv (context true N) (short_tlv T.fixed_tag T.content_octets) };

    fn default_value() -> Explicit<T, N> {
        // Only for the proof, as above.
        let _outer = number_of(Explicit::<T, N>::tag());
        let _number = number_of(T::tag());
        Explicit {
            value: T::default_content(),
        }
    }

    fn is_default(&self) -> bool {
        // Only for the proof, as above.
        let _outer = number_of(Explicit::<T, N>::tag());
        let _number = number_of(T::tag());
        self.value.is_default_content()
    }
}

/// The default is that of the type.
impl<T: DefaultContent, const N: u32> DefaultContent for Implicit<T, N> {
    ghost content_octets = { T.content_octets };

    ghost few = { T.few };

    ghost enough = { T.enough };

    fn default_content() -> Implicit<T, N> {
        Implicit {
            value: T::default_content(),
        }
    }

    fn is_default_content(&self) -> bool {
        self.value.is_default_content()
    }
}

/// The default is false.
impl DefaultContent for bool {
    ghost content_octets = { 0 ∷ [] };

    ghost few = { refl };

    ghost enough = { λ _. refl };

    #[tactic(auto, unfolding(crate::specs::Opened::contents, crate::specs::Opened::IsContent))]
    fn default_content() -> bool {
        false
    }

    #[tactic(auto, unfolding(crate::specs::Opened::contents, crate::specs::Opened::IsContent))]
    fn is_default_content(&self) -> bool {
        !*self
    }
}

/// A description of types with a default, whose content has fewer than 100 bytes.
pub trait DefaultWay<T>: AsReadWay<T> {
    /// The content of the default.
    ghost octets_by: { List ℕ };

    /// Returns the default, as `DefaultContent::default_content` does.
    fn default_by() -> T
        ensures octets { contents Self.content_by (Self.plain_by result) ≡ octets_by }
        ensures valid { IsContent Self.content_by (Self.plain_by result) };

    /// Returns whether a value is the default, as `DefaultContent::is_default_content` does.
    fn is_default_by(value: &T) -> bool
        ensures value { result
            ≡ bytes_eq (contents Self.content_by (Self.plain_by value.now)) octets_by }
        ensures valid { result ≡ true → IsContent Self.content_by (Self.plain_by value.now) };

    /// The content of the default has fewer than 100 bytes.
    ghost few_by: { nat_lt (length octets_by) 100 ≡ true };

    /// The content needs no level of nesting.
    ghost enough_by: { (room : ℕ) → are_content_enough Self.content_by room ≡ true };
}

/// A type that names the number of its default. Such a type implements `DefaultContent`.
pub trait DefaultNumber: Numbered {
    /// The number of the default.
    ghost default_number: { ℕ };

    /// Returns the default.
    fn default_named() -> Self
        ensures { Self.known_number result ≡ default_number };

    /// The number is below 128, so it is encoded in one byte.
    ghost small: { nat_lt default_number 128 ≡ true };
}

impl<T: DefaultNumber, K> DefaultWay<T> for AsNumbered<K> {
    ghost octets_by = { T.default_number ∷ [] };

    ghost few_by = { refl };

    ghost enough_by = { λ _. refl };

    #[tactic(auto, using(crate::proofs::Cited::listed), unfolding(crate::specs::Opened::contents, crate::specs::Opened::IsContent))]
    fn default_by() -> T {
        let value = T::default_named();
        let number = value.to_number();
        // Only for the proof: `is_small` states the content of the number.
        let _small = is_small(&number, number);
        value
    }

    #[tactic(auto, using(crate::proofs::Cited::listed), unfolding(crate::specs::Opened::contents, crate::specs::Opened::IsContent))]
    fn is_default_by(value: &T) -> bool {
        let default = T::default_named().to_number();
        is_small(&value.to_number(), default)
    }
}

impl<T: DefaultNumber + Described> DefaultContent for T
where
    T::By: DefaultWay<T>,
{
    ghost content_octets = { T.By.octets_by };

    ghost few = { T.By.few_by };

    ghost enough = { T.By.enough_by };

    fn default_content() -> T {
        <T::By as DefaultWay<T>>::default_by()
    }

    fn is_default_content(&self) -> bool {
        <T::By as DefaultWay<T>>::is_default_by(self)
    }
}

/// Returns whether a number is `small`, which is below 128.
#[tactic(auto, unfolding(crate::specs::Opened::contents, crate::specs::Opened::IsContent))]
pub fn is_small<T: Integer>(value: &T, small: u8) -> bool
    requires { small < 128 }
    ensures octets { result
        ≡ bytes_eq (contents (leaf (integer T.numbers)) (T.number value.now)) (small ∷ []) }
    // The content of `small` has one byte.
    ensures small { T.number value.now ≡ pos small
        → contents (leaf (integer T.numbers)) (T.number value.now) ≡ small ∷ [] }
    ensures valid { IsContent (leaf (integer T.numbers)) (T.number value.now) }
{
    let (negative, number) = value.sign_and_bits();
    !negative && number == u128::from(small)
}

/// Returns whether a number is 0.
pub fn is_zero<T: Integer>(value: &T) -> bool
    ensures octets { result
        ≡ bytes_eq (contents (leaf (integer T.numbers)) (T.number value.now)) (0 ∷ []) }
    // The content of 0 has one byte.
    ensures zero { T.number value.now ≡ pos 0
        → contents (leaf (integer T.numbers)) (T.number value.now) ≡ 0 ∷ [] }
    ensures valid { IsContent (leaf (integer T.numbers)) (T.number value.now) }
{
    is_small(value, 0)
}

/// The default is 0.
impl DefaultContent for u32 {
    ghost content_octets = { 0 ∷ [] };

    ghost few = { refl };

    ghost enough = { λ _. refl };

    fn default_content() -> u32 {
        let number = 0;
        // Only for the proof: `is_zero` states the content of 0.
        let _zero = is_zero(&number);
        number
    }

    fn is_default_content(&self) -> bool {
        is_zero(self)
    }
}
