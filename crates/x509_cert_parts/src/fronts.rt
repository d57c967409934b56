//! Decoding fields whose headers have two bytes.

ghost use Rattle.std.specs.Prelude.{◌≡◌, ◌∷◌, ◌++◌, length, false, IfSome, IsTrue};
ghost use Rattle.der_core.specs.Reading.{IsDer};
ghost use Rattle.der_core.specs.Shapes.{octets_of};
ghost use Rattle.x509_cert_parts.specs.Grammar.{false_by_default};

use der_core::Reader;

/// Returns `true` only if the reader hasn't failed and decodes headers by DER.
#[inline(always)]
pub(crate) fn reads_der<'a, R: Reader<'a>>(reader: &R) -> bool
    ensures ready { IsTrue result → (R.state reader.now).failed ≡ false }
    ensures der { IsTrue result → IsDer (R.state reader.now) }
{
    !reader.is_failed() && reader.encoding_rules().is_der()
}

/// Splits off the content of an OBJECT IDENTIFIER whose header has two bytes. Returns the content
/// and the bytes after it, or `None` if the bytes don't begin with one.
#[inline(always)]
pub(crate) fn identifier_front(octets: &[u8]) -> Option<(&[u8], &[u8])>
    ensures { IfSome result (λ p. octets.now ≡ 0x06 ∷ length p.0.now ∷ (p.0.now ++ p.1.now)) }
{
    let [first, len, rest @ ..] = octets else {
        return None;
    };
    if *first != 0x06 {
        return None;
    }
    let len = *len as usize;
    if rest.len() < len {
        return None;
    }
    Some(rest.split_at(len))
}

/// Decodes a BOOLEAN DEFAULT FALSE: returns whether the bytes begin with TRUE, and the bytes after
/// it.
#[inline(always)]
#[tactic(auto, using(crate::proofs::PlainFields::false_first))]
pub(crate) fn true_front(octets: &[u8]) -> (bool, &[u8])
    ensures { octets.now ≡ octets_of false_by_default result.0 ++ result.1.now }
{
    let [first, second, third, behind @ ..] = octets else {
        return (false, octets);
    };
    if *first != 0x01 || *second != 0x01 || *third != 0xff {
        return (false, octets);
    }
    (true, behind)
}
