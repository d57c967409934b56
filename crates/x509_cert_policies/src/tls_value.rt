//! The trait for values in the presentation language of TLS (RFC 5246 4), and its implementation
//! for enumerations.

ghost use Rattle.x509_cert_policies.specs.Forms.{named};

use crate::tls_error::TlsError;
use der_core::describing::Numbered;
use std::alloc::Global;

/// A type of the presentation language of TLS (RFC 5246 4). Each value has exactly one encoding, or
/// none if a vector in it is too long.
pub trait TlsValue: Drop {
    ghost use Rattle.std.specs.Prelude.{◌≡◌, ◌-◌, ◌^◌, min, length, IfOk, IfErr, OnOk, OnErr};
    ghost use Rattle.x509_cert_policies.specs.Forms.{Form, Plain, Spells, FailsOn, Appends};
    ghost use Rattle.x509_cert_policies.specs.Forms.{CannotWrite, IsValue, StillBegins, octets};

    // The form of the type's encodings.
    ghost form: { Form };

    // The abstract value that a value of the type represents.
    ghost plain: { Self → Plain form };

    /// Decodes the value that the bytes begin with, and returns it with the bytes after it.
    ///
    /// # Errors
    ///
    /// - `EndOfStream`: the bytes end within the value.
    /// - `UnknownValue`: a number isn't a value of its enumeration. The first such number is
    ///   reported.
    /// - `OutOfMemory`: memory runs out.
    fn tls_deserialize_bytes(alloc: Global, input: &[u8]) -> Result<(Self, &[u8]), TlsError>
        ensures ok { IfOk result (λ p. Spells form (plain p.0) input.now p.1.now) }
        ensures err { IfErr result (λ e. FailsOn form input.now e) };

    /// Appends the encoding of the value to `output`.
    ///
    /// # Errors
    ///
    /// If the call fails, `output` still begins with its old content, but a part of the encoding
    /// may follow.
    ///
    /// - `InvalidVectorLength`: a vector has more than 65535 bytes.
    /// - `OutOfMemory`: memory runs out.
    fn append_to(&self, output: &mut Vec<u8>) -> Result<(), TlsError>
        ensures ok { OnOk result (Appends form (plain self.now) output.old.items output.new.items) }
        ensures err { IfErr result (λ e. CannotWrite form (plain self.now) e) }
        ensures kept { OnErr result (StillBegins output.old.items output.new.items) };

    /// Returns the length of the encoding in bytes, or `usize::MAX` if it is greater.
    fn tls_serialized_len(&self) -> usize
        ensures { result ≡ min (length (octets form (plain self.now))) (2 ^ 64 - 1) };

    /// Encodes the value.
    ///
    /// # Errors
    ///
    /// - `InvalidVectorLength`: a vector has more than 65535 bytes.
    /// - `OutOfMemory`: memory runs out.
    fn tls_serialize(&self, alloc: Global) -> Result<Vec<u8>, TlsError>
        ensures value { OnOk result (IsValue form (plain self.now)) }
        ensures ok { IfOk result (λ v. v.items ≡ octets form (plain self.now)) }
        ensures err { IfErr result (λ e. CannotWrite form (plain self.now) e) }
    {
        let mut output = Vec::new(alloc);
        self.append_to(&mut output)?;
        Ok(output)
    }
}

impl<T: Numbered> TlsValue for T {
    ghost form = { named T.known_numbers };

    ghost plain = { T.known_number };

    fn tls_deserialize_bytes(_alloc: Global, input: &[u8]) -> Result<(T, &[u8]), TlsError> {
        let Some((octet, rest)) = input.split_first() else {
            return Err(TlsError::EndOfStream);
        };
        let Some(member) = T::from_number(*octet) else {
            return Err(TlsError::UnknownValue(u64::from(*octet)));
        };
        Ok((member, rest))
    }

    #[tactic(auto, using(crate::proofs::Readings::fronts))]
    fn append_to(&self, output: &mut Vec<u8>) -> Result<(), TlsError> {
        output.push(self.to_number())?;
        Ok(())
    }

    fn tls_serialized_len(&self) -> usize {
        1
    }
}
