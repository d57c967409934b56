//! Iterating over the members of a borrowed set.

ghost use Rattle.std.specs.Prelude.{◌≡◌, ◌<◌, ◌-◌, [], ◌∷◌, IfOk, IfErr};
ghost use Rattle.der_core.specs.Limits.{levels_max};
ghost use Rattle.der_core.specs.Grammar.{read};
ghost use Rattle.der_types_sets.specs.Ascending.{values_at};
ghost use Rattle.der_types_sets.specs.Lent.{Lent, HasMembers, IsSpelled, IsWantOfMemory};

use der_core::{Decode, Error, FromDer, Member, Shaped, SliceReader};
use std::alloc::Global;
use std::fmt;
use std::marker::Model;

/// An iterator over the members of a `SetOfRef`, in order. If memory runs out for a member, the
/// error is the last item.
#[derive(Drop)]
pub struct SetOfRefIter<'a, T: Shaped> {
    alloc: Global,
    values: &'a [T],
    octets: &'a [u8],
    count: usize,
}

impl<'a, T: Shaped> Model for SetOfRefIter<'a, T> {
    ghost use Rattle.der_types_sets.specs.Lent.{Lent, HasMembers, lent_code};

    ghost Value = { Lent T };

    ghost coded = { lent_code T.code };

    ghost view = { λ s. record { values = s.values.now; octets = s.octets.now; count = s.count } };

    ghost invariant = { λ s. HasMembers T.shape
        (record { values = s.values.now; octets = s.octets.now; count = s.count }) };
}

impl<'a, T: Shaped> SetOfRefIter<'a, T> {
    /// Returns an iterator over values, and then over this many members that are decoded from
    /// bytes.
    pub(crate) fn of(
        alloc: Global,
        values: &'a [T],
        octets: &'a [u8],
        count: usize,
    ) -> SetOfRefIter<'a, T>
        requires { HasMembers T.shape
            (record { values = values.now; octets = octets.now; count = count }) }
        ensures { result ≡ record { values = values.now; octets = octets.now; count = count } }
    {
        SetOfRefIter {
            alloc,
            values,
            octets,
            count,
        }
    }

    /// Drops all remaining members.
    fn stop(&mut self)
        ensures { self.new ≡ record { values = []; octets = []; count = 0 } }
    {
        self.values = &[];
        self.octets = &[];
        self.count = 0;
    }
}

/// Decodes the first of this many members, and returns it with the bytes after it.
///
/// # Errors
///
/// - `OutOfMemory`: memory runs out.
fn first_member<'a, T: Decode<'a, SliceReader<'a>> + Member>(
    alloc: Global,
    octets: &'a [u8],
    count: usize,
) -> Result<(T, &'a [u8]), Error>
    requires some { 0 < count }
    requires spelled { IsSpelled T.shape count octets.now }
    ensures first { IfOk result (λ x. values_at (read T.shape levels_max) count octets.now
        ≡ T.plain x.0
        ∷ values_at (read T.shape levels_max) (count - 1) x.1.now) }
    ensures left { IfOk result (λ x. IsSpelled T.shape (count - 1) x.1.now) }
    ensures refused { IfErr result IsWantOfMemory }
{
    let (value, behind) = T::from_der_partial(alloc, octets)?;
    Ok((value, behind))
}

impl<'a, T: Decode<'a, SliceReader<'a>> + Member + Clone> Iterator for SetOfRefIter<'a, T> {
    ghost use Rattle.std.specs.Prelude.{◌≡◌, length, IfSome};
    ghost use Rattle.std.specs.Iterator.{at_most, UpTo};
    ghost use Rattle.std.specs.Iterator.SizeHint.{IsExactHint, IsWithinCount};
    ghost use Rattle.der_types_sets.specs.Lent.{members_lent, YieldsMember};

    type Item = Result<T, Error>;

    // Clones must have the same abstract value.
    ghost can_next = { λ _. (x y : T) → T.is_clone x y → T.plain y ≡ T.plain x };

    ghost next_gives = { YieldsMember T.shape T.plain };

    ghost remaining = { λ it. at_most (length (members_lent T.shape T.plain it)) };

    fn next(&mut self) -> Option<Result<T, Error>> {
        if let [first, values @ ..] = self.values {
            self.values = values;
            return match first.clone() {
                Ok(value) => Some(Ok(value)),
                Err(error) => {
                    self.stop();
                    Some(Err(Error::from(error)))
                }
            };
        }
        if self.count == 0 {
            return None;
        }
        match first_member::<T>(self.alloc, self.octets, self.count) {
            Ok((value, octets)) => {
                self.octets = octets;
                self.count -= 1;
                Some(Ok(value))
            }
            Err(error) => {
                self.stop();
                Some(Err(error))
            }
        }
    }

    fn size_hint(&self) -> (usize, Option<usize>)
        ensures lower { IsWithinCount result.0
            (at_most (length (members_lent T.shape T.plain self.now))) }
        ensures upper { IfSome result.1
            (UpTo (at_most (length (members_lent T.shape T.plain self.now)))) }
        ensures exact { IsExactHint result (length (members_lent T.shape T.plain self.now)) }
    {
        let len = self.len();
        (len, Some(len))
    }
}

impl<'a, T: Decode<'a, SliceReader<'a>> + Member + Clone> ExactSizeIterator
    for SetOfRefIter<'a, T> {
    /// Returns the number of remaining members, which are all returned if memory doesn't run out.
    fn len(&self) -> usize {
        if self.count == 0 {
            self.values.len()
        } else {
            self.count
        }
    }
}

/// Prints the values, the bytes and the number of members that are left.
impl<'a, T: Shaped + fmt::Debug> fmt::Debug for SetOfRefIter<'a, T> {
    fn fmt<W: fmt::Write>(&self, f: &mut fmt::Formatter<W>) -> fmt::Result {
        f.debug_struct("SetOfRefIter")
            .field("values", &self.values)
            .field("octets", &self.octets)
            .field("count", &self.count)
            .finish()
    }
}
