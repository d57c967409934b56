//! Dates in the encodings of UTCTime and GeneralizedTime (X.690 11.7, 11.8).

/// Returns the number that the two digits at an index encode.
pub fn two(octets: &[u8], place: usize) -> Option<u8> {
    match (octets.get(place), octets.get(place.saturating_add(1))) {
        (Some(tens @ b'0'..=b'9'), Some(ones @ b'0'..=b'9')) => {
            let tens = tens.wrapping_sub(b'0').wrapping_mul(10);
            Some(tens.wrapping_add(ones.wrapping_sub(b'0')))
        }
        _ => None,
    }
}

/// Returns whether the two digits at an index encode a number in a range.
pub fn encodes(octets: &[u8], place: usize, least: u8, most: u8) -> bool {
    match two(octets, place) {
        Some(number) => least <= number && number <= most,
        None => false,
    }
}

// Returns the number of days of a month in the Gregorian calendar.
fn days_of(month: u8, year: u32) -> u8 {
    match month {
        2 if year % 4 == 0 && (year % 100 != 0 || year % 400 == 0) => 29,
        2 => 28,
        4 | 6 | 9 | 11 => 30,
        _ => 31,
    }
}

// Returns whether bytes begin with month, day, hour, minute and second of a year, two digits each.
fn begins_in(octets: &[u8], year: u32) -> bool {
    let Some(month) = two(octets, 0) else {
        return false;
    };
    encodes(octets, 0, 1, 12)
        && encodes(octets, 2, 1, days_of(month, year))
        && encodes(octets, 4, 0, 23)
        && encodes(octets, 6, 0, 59)
        && encodes(octets, 8, 0, 59)
}

// Returns whether bytes are month, day, hour, minute and second of a year, two digits each, and Z.
fn is_moment(octets: &[u8], year: u32) -> bool {
    begins_in(octets, year) && octets.len() == 11 && octets.last() == Some(&b'Z')
}

// Returns the year at the beginning of the content of a GeneralizedTime, and the bytes after it.
fn year_of(content: &[u8]) -> Option<(u32, &[u8])> {
    match (content, two(content, 0), two(content, 2)) {
        ([_, _, _, _, rest @ ..], Some(century), Some(year)) => {
            Some((u32::from(century) * 100 + u32::from(year), rest))
        }
        _ => None,
    }
}

// Returns whether bytes are digits.
fn are_digits(octets: &[u8]) -> bool {
    for octet in octets {
        if !octet.is_ascii_digit() {
            return false;
        }
    }
    true
}

/// Returns whether the content of a GeneralizedTime is a date from 1970 on with a fraction of a
/// second, without trailing zeros (X.690 11.7).
pub fn has_fraction(content: &[u8]) -> bool {
    match (year_of(content), content.get(14..)) {
        (Some((year, rest)), Some([b'.', digits @ .., b'1'..=b'9', b'Z'])) => {
            year >= 1970 && begins_in(rest, year) && are_digits(digits)
        }
        _ => false,
    }
}

/// Returns whether the content of a UTCTime is a date from 1950 to 1969 (RFC 5280 4.1.2.5.1).
pub fn is_early_utc(content: &[u8]) -> bool {
    match (content, two(content, 0)) {
        ([_, _, rest @ ..], Some(year @ 50..=69)) => is_moment(rest, 1900 + u32::from(year)),
        _ => false,
    }
}

/// Returns whether the content of a GeneralizedTime is a date before 1970.
pub fn is_early_generalized(content: &[u8]) -> bool {
    match year_of(content) {
        Some((year, rest)) => year < 1970 && is_moment(rest, year),
        None => false,
    }
}
