//! The texts that the kinds of errors print.

use der_core::{ErrorKind, Tag};
use std::test::Fail;

#[test]
fn texts_of_kinds(rt: HostRuntime) -> Result<(), Fail> {
    for (kind, text) in [
        (ErrorKind::DateTime, "not a date from 1970 to 9999"),
        (ErrorKind::EncodingRules, "unknown encoding rules"),
        (
            ErrorKind::Failed,
            "the reader or writer failed in an earlier call",
        ),
        (ErrorKind::Incomplete, "the bytes end too early"),
        (
            ErrorKind::IndefiniteLength,
            "an indefinite length is not allowed here",
        ),
        (
            ErrorKind::Length { tag: Tag::Integer },
            "wrong length of INTEGER",
        ),
        (ErrorKind::NestingDepth, "too many levels of nesting"),
        (
            ErrorKind::Noncanonical { tag: Tag::Set },
            "SET is not in the form that DER allows",
        ),
        (ErrorKind::OidMalformed, "malformed object identifier"),
        (ErrorKind::OidUnknown, "unknown object identifier"),
        (ErrorKind::OutOfMemory, "out of memory"),
        (ErrorKind::Overflow, "a length is not from 0 to 4294967295"),
        (
            ErrorKind::Overlength,
            "a length is too large or has too many bytes",
        ),
        (
            ErrorKind::Reader,
            "the reader does not support this operation",
        ),
        (ErrorKind::SetDuplicate, "a set contains a member twice"),
        (
            ErrorKind::SetOrdering,
            "the members of a set are out of order",
        ),
        (ErrorKind::TagModeUnknown, "unknown tag mode"),
        (ErrorKind::TagNumberInvalid, "invalid tag number"),
        (ErrorKind::TagUnexpected, "unexpected tag"),
        (ErrorKind::TagUnknown, "unknown tag"),
        (ErrorKind::TrailingData, "there are bytes after the value"),
        (ErrorKind::Utf8, "the text is not UTF-8"),
        (ErrorKind::Value { tag: Tag::Null }, "wrong value of NULL"),
    ] {
        let printed = kind.to_string(rt.alloc())?;
        assert!(rt; printed.as_str() == text);
    }
    Ok(())
}
