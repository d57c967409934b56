//! Decoding, sorting and copying the members of a SET OF.

ghost use Rattle.std.specs.Prelude.{◌≡◌, IfOk, IfErr, IsPermutation};
ghost use Rattle.der_core.specs.Grammar.{plain_list, value_at};
ghost use Rattle.der_core.specs.Reading.{Reads, read_content_at};
ghost use Rattle.der_core.specs.Shapes.{nested, rising, octets_of, AllRising};
ghost use Rattle.der_types.specs.Sets.{Ascends, TooLong};

use der_core::{AsRead, Decode, DerOrd, Error, Header, Member, Reader};
use der_types::SetOfVec;
use std::alloc::{AllocError, Global};

/// Decodes the members of a SET OF from its content. Their encodings must ascend (X.690 11.6).
///
/// # Errors
///
/// - The errors of `SetOfVec::decode_value_strict`.
pub(crate) fn decode_members<'a, R: Reader<'a>, T: Decode<'a, R> + DerOrd + Member + AsRead + Drop>(
    alloc: Global,
    reader: &mut R,
    header: Header,
) -> Result<Vec<T>, Error>
    ensures reads { Reads (λ v. plain_list T.plain v.items) (R.state reader.old)
        (R.state reader.new) result
        (value_at (read_content_at (R.state reader.old) (nested (rising T.shape)) header.tag)
        header.length.value) }
    ensures ascend { IfOk result (λ v. Ascends T.shape T.written v.items) }
    ensures rising { IfOk result (λ v. AllRising (octets_of T.shape) (plain_list T.plain v.items)) }
{
    let set = SetOfVec::<T>::decode_value_strict(alloc, reader, header)?;
    Ok(set.into_vec())
}

/// Sorts the members in ascending order of their encodings, without an allocation.
///
/// # Errors
///
/// - `Overflow`: a member has no encoding, for example because its length exceeds 2^32 - 1.
pub(crate) fn arrange<T: DerOrd + Member + Drop>(members: Vec<T>) -> Result<Vec<T>, Error>
    ensures same { IfOk result (λ v. IsPermutation members.items v.items) }
    ensures ascend { IfOk result (λ v. Ascends T.shape T.written v.items) }
    ensures refused { IfErr result (TooLong T.shape T.written members.items) }
{
    let set = SetOfVec::from_vec(members)?;
    Ok(set.into_vec())
}

/// Returns a copy of a list whose members equal their clones.
///
/// # Errors
///
/// - `AllocError`: memory runs out.
pub(crate) fn copy_of<T: Clone + Drop>(alloc: Global, members: &[T]) -> Result<Vec<T>, AllocError>
    requires { (x y : T) → T.is_clone x y → y ≡ x }
    ensures { IfOk result (λ v. v.items ≡ members.now) }
{
    Ok(Vec::from_clones(alloc, members)?)
}
