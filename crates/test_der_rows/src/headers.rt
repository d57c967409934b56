//! Tags, lengths and headers.

use crate::readers::add;
use crate::refusals::Refusal;
use crate::shown::{front_of, hex_of, name_of, octets_of, printed, shown};
use der_core::making::encode_header;
use der_core::{
    Class, EncodingRules, Error, Header, Length, Reader, SliceReader, Tag, TagMode, TagNumber,
    encode_length, encode_tag, header_cmp, length_cmp, lone_length_of, tag_cmp, tag_of,
};
use std::alloc::Global;

/// Answers a question with one of these words.
pub fn answer(alloc: Global, word: &str, rest: &str) -> Result<String, Refusal> {
    let (first, second) = front_of(rest);
    match word {
        "length-written" => of_length(alloc, first),
        "tags" => of_number(alloc, first),
        "mode" => of_mode(alloc, first),
        "rules" => of_rules(alloc, first),
        "sum" | "difference" | "length-order" | "saturating-sum" | "saturating-difference" => {
            of_lengths(alloc, word, first, second)
        }
        _ => {
            let octets = octets_of(alloc, first)?;
            answer_of_octets(alloc, word, octets.as_slice(), second)
        }
    }
}

/// Answers a question about the beginning of bytes, and of a second byte string.
fn answer_of_octets(
    alloc: Global,
    word: &str,
    octets: &[u8],
    second: &str,
) -> Result<String, Refusal> {
    match word {
        "header" => of_header(alloc, EncodingRules::Der, octets),
        "header-ber" => of_header(alloc, EncodingRules::Ber, octets),
        "header-order" => order_of_headers(alloc, octets, second),
        "scan" => of_fronts(alloc, octets),
        "lone-length" => of_lone_length(alloc, octets),
        "lone-tag" => of_lone_tag(alloc, octets),
        "private-4" => matches_private_4(alloc, octets),
        "class" => of_class(alloc, octets),
        "tag" | "tag-order" | "tag-expected" | "tag-errors" | "tlv" | "header-written" => {
            answer_of_tag(alloc, word, Tag::peek(octets)?, second)
        }
        _ => Err(Refusal::Unread),
    }
}

/// Answers a question about a tag, and another tag or a length.
fn answer_of_tag(alloc: Global, word: &str, tag: Tag, second: &str) -> Result<String, Refusal> {
    match word {
        "tag" => of_tag(alloc, tag),
        "tag-errors" => of_errors(alloc, tag),
        "tlv" => of_encoding(alloc, tag, second),
        "header-written" => front_written(alloc, tag, second),
        _ => of_tags(alloc, word, tag, second),
    }
}

/// Returns the order of two tags, or whether one matches the expected one.
fn of_tags(alloc: Global, word: &str, tag: Tag, second: &str) -> Result<String, Refusal> {
    let other = tag_in(alloc, second)?;
    match word {
        "tag-order" => shown(alloc, name_of(tag_cmp(tag, other))),
        _ => printed(alloc, tag.assert_eq(other)),
    }
}

/// Returns the length of an encoding with a tag and that many bytes of content.
fn of_encoding(alloc: Global, tag: Tag, text: &str) -> Result<String, Refusal> {
    printed(alloc, length_in(text)?.for_tlv(tag))
}

/// Returns the header that is decoded by these rules, and its encoding.
fn of_header(alloc: Global, rules: EncodingRules, octets: &[u8]) -> Result<String, Refusal> {
    let (header, position) = header_by(rules, octets)?;
    let Header { tag, length } = header;
    let written = header_written(alloc, header)?;
    Ok(format!(in alloc; "{position} {length} {written} {tag}")?)
}

/// Decodes the header with which the bytes begin, and returns it with its length. Fails if peeking
/// at it returns another header.
fn header_by(rules: EncodingRules, octets: &[u8]) -> Result<(Header, Length), Refusal> {
    let mut reader = SliceReader::new_with_encoding_rules(octets, rules)?;
    let peeked = reader.peek_header();
    let read = reader.read_header();
    if peeked != read {
        return Err(Refusal::Unread);
    }
    Ok((read?, reader.position()))
}

/// Returns the encoding of a header.
fn header_written(alloc: Global, header: Header) -> Result<String, Refusal> {
    let mut out = Vec::new(alloc);
    encode_tag(&mut out, header.tag)?;
    encode_length(&mut out, header.length)?;
    hex_of(alloc, out.as_slice())
}

/// Returns the encoding of the header for that many bytes of content, with this tag.
fn front_written(alloc: Global, tag: Tag, text: &str) -> Result<String, Refusal> {
    let mut out = Vec::new(alloc);
    encode_header(&mut out, tag, length_in(text)?)?;
    hex_of(alloc, out.as_slice())
}

/// Returns the result of the scan of each prefix of the bytes, the shortest first.
fn of_fronts(alloc: Global, octets: &[u8]) -> Result<String, Refusal> {
    let mut answers = String::new(alloc);
    for count in 0..octets.len() + 1 {
        add(&mut answers, scanned(alloc, Header::scan(&octets[..count])))?;
    }
    Ok(answers)
}

/// Returns the result of a scan: the length, the content length and the tag of the header, that it
/// is incomplete, or why it is rejected.
fn scanned(
    alloc: Global,
    outcome: Result<Option<(Header, usize)>, Error>,
) -> Result<String, Refusal> {
    match outcome {
        Ok(Some((Header { tag, length }, count))) => {
            Ok(format!(in alloc; "{count} {length} {tag}")?)
        }
        Ok(None) => shown(alloc, "none"),
        Err(error) => shown(alloc, Refusal::from(error)),
    }
}

/// Returns the length with which the bytes begin, without a tag, its own length, and its encoding.
fn of_lone_length(alloc: Global, octets: &[u8]) -> Result<String, Refusal> {
    let (length, count) = lone_length_of(octets)?;
    let written = length_written(alloc, length)?;
    Ok(format!(in alloc; "{count} {length} {written}")?)
}

/// Returns the encoding of a length, without a tag before it.
fn of_length(alloc: Global, text: &str) -> Result<String, Refusal> {
    length_written(alloc, length_in(text)?)
}

/// Returns the encoding of a length.
fn length_written(alloc: Global, length: Length) -> Result<String, Refusal> {
    let mut out = Vec::new(alloc);
    encode_length(&mut out, length)?;
    hex_of(alloc, out.as_slice())
}

/// Returns the tag with which the bytes begin, its length, and its encoding.
fn of_lone_tag(alloc: Global, octets: &[u8]) -> Result<String, Refusal> {
    let (tag, count) = tag_of(octets)?;
    let written = tag_written(alloc, tag)?;
    Ok(format!(in alloc; "{count} {written} {tag}")?)
}

/// Returns the encoding of a tag.
fn tag_written(alloc: Global, tag: Tag) -> Result<String, Refusal> {
    let mut out = Vec::new(alloc);
    encode_tag(&mut out, tag)?;
    hex_of(alloc, out.as_slice())
}

/// Returns whether the bytes begin with the private tag with the number 4.
fn matches_private_4(alloc: Global, octets: &[u8]) -> Result<String, Refusal> {
    let number = TagNumber::new(4);
    printed(alloc, Tag::peek_matches(octets, Class::Private, number))
}

/// Returns the order of two headers.
fn order_of_headers(alloc: Global, octets: &[u8], second: &str) -> Result<String, Refusal> {
    let order = header_cmp(Header::peek(octets)?, header_in(alloc, second)?);
    shown(alloc, name_of(order))
}

/// Decodes the header with which the bytes begin.
fn header_in(alloc: Global, digits: &str) -> Result<Header, Refusal> {
    let octets = octets_of(alloc, digits)?;
    Ok(Header::peek(octets.as_slice())?)
}

/// Decodes the tag with which the bytes begin.
fn tag_in(alloc: Global, digits: &str) -> Result<Tag, Refusal> {
    let octets = octets_of(alloc, digits)?;
    Ok(Tag::peek(octets.as_slice())?)
}

/// Parses a length.
fn length_in(text: &str) -> Result<Length, Refusal> {
    Ok(Length::try_from(text.parse::<usize>()?)?)
}

/// Returns the class, the number and the form of a tag, and its text.
fn of_tag(alloc: Global, tag: Tag) -> Result<String, Refusal> {
    let class = tag.class();
    let number = tag.number();
    let form = if tag.is_constructed() {
        "constructed"
    } else {
        "primitive"
    };
    Ok(format!(in alloc; "{class} {number} {form} {tag}")?)
}

/// Returns the errors for values of a tag.
fn of_errors(alloc: Global, tag: Tag) -> Result<String, Refusal> {
    let (length, form, value) = (
        tag.length_error(),
        tag.non_canonical_error(),
        tag.value_error(),
    );
    let unexpected = tag.unexpected_error(None);
    Ok(format!(in alloc; "{length:?}; {form:?}; {value:?}; {unexpected:?}")?)
}

/// Returns the tags with a number in the classes that have all numbers, each with the result of the
/// test for its class.
fn of_number(alloc: Global, text: &str) -> Result<String, Refusal> {
    let number = TagNumber::from(text.parse::<u32>()?);
    let tags = [
        number.application(true),
        number.context_specific(true),
        number.private(false),
    ];
    let [application, context, private] = tags;
    let is_application = application.is_application();
    let is_context = context.is_context_specific();
    let is_private = private.is_private();
    Ok(format!(in alloc;
        "{application} {is_application}; {context} {is_context}; {private} {is_private}"
    )?)
}

/// Returns the class of a tag with that first byte, and the bits of the class.
fn of_class(alloc: Global, octets: &[u8]) -> Result<String, Refusal> {
    let [octet] = octets else {
        return Err(Refusal::Unread);
    };
    let class = Class::from(*octet);
    let bits = class.bits();
    Ok(format!(in alloc; "{class} {bits:02x}")?)
}

/// Returns the text of a tagging mode, and whether it is the default.
fn of_mode(alloc: Global, text: &str) -> Result<String, Refusal> {
    let mode = text.parse::<TagMode>()?;
    let is_default = mode == TagMode::default();
    Ok(format!(in alloc; "{mode} {is_default}")?)
}

/// Returns the text of encoding rules, and whether they are the default.
fn of_rules(alloc: Global, text: &str) -> Result<String, Refusal> {
    let rules = text.parse::<EncodingRules>()?;
    let is_default = rules == EncodingRules::default();
    Ok(format!(in alloc; "{rules} {is_default}")?)
}

/// Answers a question about two lengths.
fn of_lengths(alloc: Global, word: &str, first: &str, second: &str) -> Result<String, Refusal> {
    let first = length_in(first)?;
    match word {
        "sum" => printed(alloc, sum(first, second.parse()?)),
        "difference" => printed(alloc, difference(first, second.parse()?)),
        "length-order" | "saturating-sum" | "saturating-difference" => {
            of_both_lengths(alloc, word, first, length_in(second)?)
        }
        _ => Err(Refusal::Unread),
    }
}

/// Returns the order of two lengths, or their saturating sum or difference.
fn of_both_lengths(
    alloc: Global,
    word: &str,
    first: Length,
    second: Length,
) -> Result<String, Refusal> {
    match word {
        "length-order" => shown(alloc, name_of(length_cmp(first, second))),
        "saturating-sum" => shown(alloc, first.saturating_add(second)),
        _ => shown(alloc, first.saturating_sub(second)),
    }
}

/// Returns the sum of a length and a number, in the smallest type that holds the number.
fn sum(length: Length, number: usize) -> Result<Length, Error> {
    if let Ok(number) = u8::try_from(number) {
        length + number
    } else if let Ok(number) = u16::try_from(number) {
        length + number
    } else if let Ok(number) = u32::try_from(number) {
        length + number
    } else {
        length + number
    }
}

/// Returns the difference of a length and a number, in the smallest type that holds the number.
fn difference(length: Length, number: usize) -> Result<Length, Error> {
    if let Ok(number) = u8::try_from(number) {
        length - number
    } else if let Ok(number) = u16::try_from(number) {
        length - number
    } else if let Ok(number) = u32::try_from(number) {
        length - number
    } else {
        length - number
    }
}
