//! Character strings and dates: their forms, and the texts that they print.

use der_core::Error;
use der_types::{
    BmpString, DateTime, GeneralStringRef, GeneralizedTime, Ia5String, Ia5StringRef, UtcTime,
    Utf8StringRef, const_contains_u8,
};
use std::alloc::{AllocError, Global};
use std::convert::{AsSlice, AsStr};
use std::test::Fail;
use std::time::Duration;

/// Returns the length of a text in bytes.
fn text_len(text: &impl AsStr) -> usize {
    text.as_str().len()
}

/// Returns whether both forms of a text of seven characters agree.
fn are_alike(alloc: Global, lent: Ia5StringRef<'_>, owned: &Ia5String) -> Result<bool, Error> {
    let copy = owned.clone(alloc)?;
    let same = Ia5StringRef::from(owned) == lent && Ia5StringRef::from(&lent) == lent;
    let lens = lent.len() == 7 && owned.len() == 7 && !owned.is_empty() && !lent.is_empty();
    let texts = text_len(&lent) == 7 && text_len(owned) == 7;
    let octets = lent.as_slice() == owned.as_slice() && <&[u8]>::from(lent) == lent.as_slice();
    Ok(copy == *owned && same && lens && texts && octets)
}

#[test]
fn ascii_forms(rt: HostRuntime) -> Result<(), Fail> {
    let alloc = rt.alloc();
    let lent = Ia5StringRef::new(b"a@b \"c\"")?;
    let owned = lent.ref_to_owned(alloc)?;
    assert!(rt; owned.as_slice() == b"a@b \"c\"".as_slice());
    assert!(rt; are_alike(alloc, lent, &owned)?);
    let again = Ia5String::try_from(owned.into_string())?;
    assert!(rt; again.as_str() == lent.as_str());
    Ok(())
}

/// Returns whether a text borrows the text of which another one is a copy.
fn lends(lent: Utf8StringRef<'_>, owned: &String) -> Result<bool, Error> {
    let same = Utf8StringRef::try_from(owned)? == lent && Utf8StringRef::from(&lent) == lent;
    let lens = lent.len() == 7 && text_len(&lent) == 7 && !lent.is_empty();
    Ok(same && lens && lent.as_slice() == owned.as_bytes())
}

#[test]
fn utf8_forms(rt: HostRuntime) -> Result<(), Fail> {
    let lent = Utf8StringRef::try_from("Grüße")?;
    let owned = lent.ref_to_owned(rt.alloc())?;
    assert!(rt; lends(lent, &owned)?);
    Ok(())
}

#[test]
fn general_forms(rt: HostRuntime) -> Result<(), Fail> {
    let general = GeneralStringRef::new(b"Jones\xff")?;
    assert!(rt; GeneralStringRef::from(&general) == general);
    assert!(rt; general.len() == 6 && !general.is_empty());
    assert!(rt; general.as_slice() == b"Jones\xff".as_slice());
    Ok(())
}

/// Returns whether a text has these code points, and equals its copy.
fn has_codepoints(alloc: Global, text: &BmpString, expected: &[u16]) -> Result<bool, Error> {
    let codepoints = text.codepoints().collect::<Vec<u16>>(alloc)?;
    Ok(codepoints.as_slice() == expected && text.clone(alloc)? == *text)
}

/// The characters `A`, `é`, `€` and U+FFFF.
#[test]
fn characters(rt: HostRuntime) -> Result<(), Fail> {
    let alloc = rt.alloc();
    let text = BmpString::from_utf8(alloc, "Aé€\u{ffff}")?;
    assert!(rt; has_codepoints(alloc, &text, &[0x41, 0xe9, 0x20ac, 0xffff])?);
    let octets = [0, 0x41, 0, 0xe9, 0x20, 0xac, 0xff, 0xff];
    assert!(rt; text.as_slice() == octets.as_slice());
    assert!(rt; text.into_bytes().as_slice() == octets.as_slice());
    Ok(())
}

/// Returns the texts that both forms print.
fn ascii_printed(
    alloc: Global,
    lent: Ia5StringRef<'_>,
    owned: &Ia5String,
) -> Result<String, AllocError> {
    format!(in alloc; "{lent:>4} {owned:>4} {lent:?} {owned:?}")
}

/// Returns the `Debug` output of two texts.
fn texts_printed(
    alloc: Global,
    utf8: Utf8StringRef<'_>,
    bmp: &BmpString,
) -> Result<String, AllocError> {
    format!(in alloc; "{utf8:?} {bmp:?}")
}

/// `Display` can be padded, and `Debug` names the type.
#[test]
fn printed(rt: HostRuntime) -> Result<(), Fail> {
    let alloc = rt.alloc();
    let lent = Ia5StringRef::new(b"a\"b")?;
    let text = ascii_printed(alloc, lent, &lent.ref_to_owned(alloc)?)?;
    let expected = " a\"b  a\"b Ia5String(\"a\\\"b\") Ia5String(\"a\\\"b\")";
    assert!(rt; text.as_str() == expected);
    let utf8 = Utf8StringRef::try_from("ü")?;
    let text = texts_printed(alloc, utf8, &BmpString::from_str(alloc, "€")?)?;
    assert!(rt; text.as_str() == "Utf8String(\"ü\") BmpString(\"€\")");
    Ok(())
}

/// A date from six numbers, and one from a duration, whose fraction of a second is dropped.
#[test]
fn dates(rt: HostRuntime) -> Result<(), Fail> {
    let date = DateTime::new(2000, 2, 29, 23, 59, 58)?;
    assert!(rt; date.year() == 2000 && date.month() == 2 && date.day() == 29);
    assert!(rt; date.hour() == 23 && date.minutes() == 59 && date.seconds() == 58);
    let duration = Duration::new(951_868_798, 999_999_999);
    assert!(rt; DateTime::from_unix_duration(duration)? == date);
    assert!(rt; date.unix_duration() == Duration::from_secs(951_868_798));
    assert!(rt; DateTime::INFINITY.unix_seconds() == 253_402_300_799);
    assert!(rt; DateTime::new(10_000, 1, 1, 0, 0, 0).is_err());
    Ok(())
}

#[test]
fn forms_of_times(rt: HostRuntime) -> Result<(), Fail> {
    let date: DateTime = "2024-02-29T12:00:00Z".parse()?;
    let (utc, general) = (UtcTime::try_from(date)?, GeneralizedTime::from(date));
    assert!(rt; UtcTime::try_from(&date)? == utc && GeneralizedTime::from(&date) == general);
    assert!(rt; DateTime::from(utc) == date && DateTime::from(&utc) == date);
    assert!(rt; DateTime::from(general) == date && DateTime::from(&general) == date);
    assert!(rt; UtcTime::from(&utc) == utc && GeneralizedTime::from(&general) == general);
    assert!(rt; utc.to_unix_duration().as_secs() == 1_709_208_000);
    assert!(rt; general.to_unix_duration().as_secs() == 1_709_208_000);
    Ok(())
}

#[test]
fn bounds_of_times(rt: HostRuntime) {
    assert!(rt; UtcTime::LENGTH == 13 && GeneralizedTime::LENGTH == 15);
    assert!(rt; UtcTime::MAX_YEAR == 2049);
    assert!(rt; const_contains_u8(1..=3, 1) && const_contains_u8(1..=3, 3));
    assert!(rt; !const_contains_u8(1..=3, 0) && !const_contains_u8(1..=3, 4));
}
