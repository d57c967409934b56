//! Encoding values with tags that are only known at run time.

ghost use Rattle.std.specs.Prelude.{◌≡◌, true};
ghost use Rattle.der_core_values.specs.CoreHead.Tags.{context, implicit_tag};
ghost use Rattle.der_core_values.specs.CoreHead.Shapes.{nested, octets_of, only, tagged};
ghost use Rattle.der_core_values.specs.CoreHead.Writing.{Writes, write};
ghost use Rattle.der_core_values.specs.CoreOctets.Outputs.{AddsFront, Continues};

use crate::encode_ref::EncodeRef;
use crate::explicit::Explicit;
use der_core_values::core_head::{Error, Tag, TagNumber, is_constructed};
use der_core_values::core_octets::{Writer, encode_header};
use der_core_values::{Encode, EncodeValue, FixedTag};

/// Encodes a content after a header with this tag.
///
/// # Errors
///
/// - `Overflow`: a length exceeds 2^32 - 1.
/// - The errors of the writer.
#[tactic(auto, using(crate::proofs::Cited::none_added, crate::proofs::Cited::header_adds, crate::proofs::Cited::content_adds), unfolding(crate::specs::Opened::write_tlv))]
pub fn encode_tagged<W: Writer, T: EncodeValue>(
    writer: &mut W,
    tag: Tag,
    value: &T,
) -> Result<(), Error>
    ensures exact { Writes W.takes_memory (W.out writer.old) (W.out writer.new) result
        (write (tagged tag T.content) (T.value_written value.now)) }
    ensures kept { Continues (W.out writer.old) (W.out writer.new) }
    ensures front { AddsFront (octets_of (tagged tag T.content) (T.value_written value.now))
        (W.out writer.old) (W.out writer.new) }
{
    let len = value.value_len()?;
    encode_header(writer, tag, len)?;
    value.encode_value(writer)
}

/// Encodes a value with an explicit context-specific tag before its own (X.690 8.14.2).
///
/// # Errors
///
/// - `Overflow`: a length exceeds 2^32 - 1.
/// - The errors of the writer.
pub fn encode_explicit<W: Writer, T: Encode>(
    writer: &mut W,
    number: TagNumber,
    value: &T,
) -> Result<(), Error>
    ensures exact { Writes W.takes_memory (W.out writer.old) (W.out writer.new) result
        (write (tagged (context true number.value) (nested (only T.shape))) (T.written value.now)) }
    ensures kept { Continues (W.out writer.old) (W.out writer.new) }
    ensures front { AddsFront
        (octets_of (tagged (context true number.value) (nested (only T.shape)))
        (T.written value.now)) (W.out writer.old) (W.out writer.new) }
{
    let constructed = true;
    let tag = Tag::ContextSpecific {
        constructed,
        number,
    };
    // The number in this type isn't used. The tag is the one above.
    let field: Explicit<EncodeRef<'_, T>, 0> = Explicit {
        value: EncodeRef(value),
    };
    encode_tagged(writer, tag, &field)
}

/// Encodes a value whose own tag is replaced by a context-specific one (X.690 8.14.3).
///
/// # Errors
///
/// - `Overflow`: a length exceeds 2^32 - 1.
/// - The errors of the writer.
pub fn encode_implicit<W: Writer, T: EncodeValue + FixedTag>(
    writer: &mut W,
    number: TagNumber,
    value: &T,
) -> Result<(), Error>
    ensures exact { Writes W.takes_memory (W.out writer.old) (W.out writer.new) result
        (write (tagged (implicit_tag number.value T.fixed_tag) T.content)
        (T.value_written value.now)) }
    ensures kept { Continues (W.out writer.old) (W.out writer.new) }
    ensures front { AddsFront
        (octets_of (tagged (implicit_tag number.value T.fixed_tag) T.content)
        (T.value_written value.now)) (W.out writer.old) (W.out writer.new) }
{
    let constructed = is_constructed(T::tag());
    let tag = Tag::ContextSpecific {
        constructed,
        number,
    };
    encode_tagged(writer, tag, value)
}
