//! Conversions from `AnyRef` and `Any` to times. An `Any` is converted as its borrowed form is.

ghost use Rattle.der_types_text.specs.Der.TagTypes.Tag.TheVariants as tags;
ghost use Rattle.der_types_text.specs.Der.Leaves.{utc_time, generalized_time};
ghost use Rattle.der_types_text.specs.Der.Reading.{GivesNow};
ghost use Rattle.der_types_any.specs.Anys.{any_lent};
ghost use Rattle.der_types_any.specs.Contents.{leaf_as};

use crate::any::Any;
use crate::any_ref::AnyRef;
use crate::conversions::check_tag;
use der_types_numbers::{DateTime, GeneralizedTime, UtcTime};
use der_types_text::der::{Error, Tag};

/// Converts a UTCTime.
impl<'a> TryFrom<AnyRef<'a>> for UtcTime {
    type Error = Error;

    ghost try_from_gives = { λ a r. GivesNow (λ t. t) r
        (leaf_as tags.UtcTime utc_time (any_lent a)) };

    #[tactic(auto, unfolding(crate::specs::Contents::leaf_as))]
    fn try_from(any: AnyRef<'a>) -> Result<UtcTime, Error> {
        check_tag(any.tag(), Tag::UtcTime)?;
        Ok(UtcTime::of_content(any.tag(), any.value())?)
    }
}

impl<'a> TryFrom<&'a Any> for UtcTime {
    type Error = Error;

    ghost try_from_gives = { λ a r. GivesNow (λ t. t) r (leaf_as tags.UtcTime utc_time a.now) };

    fn try_from(any: &'a Any) -> Result<UtcTime, Error> {
        UtcTime::try_from(any.to_ref())
    }
}

/// Converts a GeneralizedTime.
impl<'a> TryFrom<AnyRef<'a>> for GeneralizedTime {
    type Error = Error;

    ghost try_from_gives = { λ a r. GivesNow (λ t. t) r
        (leaf_as tags.GeneralizedTime generalized_time (any_lent a)) };

    #[tactic(auto, unfolding(crate::specs::Contents::leaf_as))]
    fn try_from(any: AnyRef<'a>) -> Result<GeneralizedTime, Error> {
        check_tag(any.tag(), Tag::GeneralizedTime)?;
        Ok(GeneralizedTime::of_content(any.tag(), any.value())?)
    }
}

impl<'a> TryFrom<&'a Any> for GeneralizedTime {
    type Error = Error;

    ghost try_from_gives = { λ a r. GivesNow (λ t. t) r
        (leaf_as tags.GeneralizedTime generalized_time a.now) };

    fn try_from(any: &'a Any) -> Result<GeneralizedTime, Error> {
        GeneralizedTime::try_from(any.to_ref())
    }
}

/// Converts a GeneralizedTime.
impl<'a> TryFrom<AnyRef<'a>> for DateTime {
    type Error = Error;

    ghost try_from_gives = { λ a r. GivesNow (λ d. d) r
        (leaf_as tags.GeneralizedTime generalized_time (any_lent a)) };

    fn try_from(any: AnyRef<'a>) -> Result<DateTime, Error> {
        let time = GeneralizedTime::try_from(any)?;
        Ok(time.to_date_time())
    }
}

impl<'a> TryFrom<&'a Any> for DateTime {
    type Error = Error;

    ghost try_from_gives = { λ a r. GivesNow (λ d. d) r
        (leaf_as tags.GeneralizedTime generalized_time a.now) };

    fn try_from(any: &'a Any) -> Result<DateTime, Error> {
        DateTime::try_from(any.to_ref())
    }
}
