ghost use Rattle.std.specs.Prelude.{◌≡◌, ◌+◌, ◌/◌, ◌≤◌, ◌↔◌, refl, IsOk, IfOk, IfErr, IsOkAnd};
ghost use Rattle.std.specs.Duration.{as_nanos};
ghost use Rattle.der_core.specs.TagTypes.Tag.TheVariants.{Sequence};
ghost use Rattle.der_core.specs.Shapes.{nested};
ghost use Rattle.der_types.specs.Seconds.{last_second, unix_seconds};
ghost use Rattle.x509_cert_parts.specs.Grammar.{validity_fields};
ghost use Rattle.x509_cert_parts.specs.Respelling.{validity_by};
ghost use Rattle.x509_cert_parts.specs.Times.{time_of, without_end};
ghost use Rattle.x509_cert_parts.specs.Views.{time_value, time_date, validity_plain};

use crate::profile::{Profile, Rfc5280};
use crate::time::Time;
use der_core::describing::{DecodeRow, FieldRow};
use der_core::making::read_fields;
use der_core::{
    ApartValue, DecodeFields, DecodeValue, EncodeFields, EncodeValue, Error, ErrorKind, Fields,
    FieldsOrd, FixedTag, Header, Length, Reader, ShapedValue, Tag, ValueOrd, Writer,
};
use der_types::DateTime;
use std::alloc::Global;
use std::cmp::Ordering;
use std::marker::PhantomData;
use std::time::Duration;

/// The period for which a certificate is valid, including both dates (RFC 5280 4.1.2.5). The
/// profile determines how the dates are encoded.
///
/// ```text
/// Validity ::= SEQUENCE { notBefore Time, notAfter Time }
/// ```
#[derive_where(Clone, Copy, Debug, PartialEq, Eq)]
pub struct Validity<P = Rfc5280> {
    /// The date on which the period begins (`notBefore`).
    pub not_before: Time,
    /// The date on which the period ends (`notAfter`).
    pub not_after: Time,
    profile: PhantomData<P>,
}

type Row = (Time, (Time, ()));

impl<P> Validity<P> {
    /// Returns the validity from the first date through the second.
    pub fn new(not_before: Time, not_after: Time) -> Validity<P>
        ensures before { result.not_before ≡ not_before }
        ensures after { result.not_after ≡ not_after }
    {
        Validity {
            not_before,
            not_after,
            profile: PhantomData,
        }
    }

    /// Returns the validity from `now` for a duration, whose fraction of a second is dropped.
    ///
    /// # Errors
    ///
    /// - `DateTime`: the end is after 9999-12-31T23:59:59Z.
    pub fn from_now(now: DateTime, duration: Duration) -> Result<Validity<P>, Error>
        ensures range { IsOk result
            ↔ (unix_seconds now + as_nanos duration / 1_000_000_000 ≤ last_second) }
        ensures before { IfOk result (λ v. time_value v.not_before ≡ time_of now) }
        ensures after { IfOk result
            (λ v. time_value v.not_after ≡ time_of (time_date v.not_after)) }
        ensures seconds { IfOk result (λ v. unix_seconds (time_date v.not_after)
            ≡ unix_seconds now + as_nanos duration / 1_000_000_000) }
        ensures err { IfErr result (λ e. e.kind ≡ ErrorKind.DateTime) }
    {
        let Some(seconds) = now.unix_seconds().checked_add(duration.as_secs()) else {
            return Err(Error::from(ErrorKind::DateTime));
        };
        let then = DateTime::from_unix_seconds(seconds)?;
        Ok(Validity::new(Time::from(now), Time::from(then)))
    }

    /// Returns the validity from `now` without an expiration date (`Time::INFINITY`).
    pub fn infinity(now: DateTime) -> Validity<P>
        ensures before { time_value result.not_before ≡ time_of now }
        ensures after { time_value result.not_after ≡ without_end }
    {
        Validity::new(Time::from(now), Time::INFINITY)
    }
}

impl<P: Profile> Validity<P> {
    /// Returns the dates as the profile encodes them. The call always succeeds.
    fn spelled(&self) -> Result<Row, Error>
        ensures { IsOkAnd result (λ row. ⟦<Row as FieldRow>⟧.fields_written row
            ≡ validity_by P.respells (validity_plain self.now)) }
    {
        let not_before = P::time_encoding(self.not_before)?;
        let not_after = P::time_encoding(self.not_after)?;
        Ok((not_before, (not_after, ())))
    }
}

impl<P> FixedTag for Validity<P> {
    ghost fixed_tag = { Sequence };

    fn tag() -> Tag {
        Tag::Sequence
    }
}

impl<P: Profile> Fields for Validity<P> {
    ghost fields = { validity_fields };

    ghost fields_plain = { validity_plain };

    ghost fields_written = { λ v. validity_by P.respells (validity_plain v) };
}

impl<'a, R: Reader<'a>, P: Profile> DecodeFields<'a, R> for Validity<P> {
    fn decode_fields(alloc: Global, reader: &mut R) -> Result<Validity<P>, Error> {
        let (not_before, (not_after, ())) = Row::decode_row(alloc, reader)?;
        Ok(Validity::new(not_before, not_after))
    }
}

impl<P: Profile> ShapedValue for Validity<P> {
    ghost content = { nested validity_fields };

    ghost value_plain = { validity_plain };

    ghost value_written = { λ v. validity_by P.respells (validity_plain v) };
}

impl<'a, R: Reader<'a>, P: Profile> DecodeValue<'a, R> for Validity<P> {
    fn decode_value(alloc: Global, reader: &mut R, header: Header) -> Result<Validity<P>, Error> {
        read_fields(alloc, reader, header)
    }
}

impl<P: Profile> EncodeValue for Validity<P> {
    fn value_len(&self) -> Result<Length, Error> {
        self.spelled()?.fields_len()
    }

    #[tactic(auto, using(crate::proofs::Cited::none_added), unfolding(crate::specs::Opened::contents))]
    fn encode_value<W: Writer>(&self, writer: &mut W) -> Result<(), Error> {
        self.spelled()?.encode_fields(writer)
    }
}

impl<P: Profile> ApartValue for Validity<P> {
    ghost apart_value = { refl };
}

/// Compares the dates one after another, as the profile encodes them.
impl<P: Profile> ValueOrd for Validity<P> {
    #[tactic(auto, unfolding(crate::specs::Opened::contents, crate::specs::Opened::IsContent))]
    fn value_cmp(&self, other: &Self) -> Result<Ordering, Error> {
        self.spelled()?.fields_cmp(&other.spelled()?)
    }
}
