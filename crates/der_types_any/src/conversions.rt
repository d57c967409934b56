//! A function that the conversions of `AnyRef` share.

ghost use Rattle.std.specs.Prelude.{◌≡◌, ◌↔◌, true, IsOk, IfErr, OnOk};
ghost use Rattle.der_types_text.specs.Der.Tags.{same_tag};

use der_types_text::der::making::is_same_tag;
use der_types_text::der::{Error, ErrorKind, Tag};

/// Checks that a tag is the expected one.
///
/// # Errors
///
/// - `TagUnexpected`: it is another tag.
#[tactic(auto, using(crate::proofs::Cited::same_tags))]
pub fn check_tag(actual: Tag, expected: Tag) -> Result<(), Error>
    ensures same { IsOk result ↔ (same_tag actual expected ≡ true) }
    ensures equal { OnOk result (actual ≡ expected) }
    ensures other { IfErr result (λ e. e.kind ≡ ErrorKind.TagUnexpected) }
{
    if is_same_tag(actual, expected) {
        Ok(())
    } else {
        Err(Error::from(ErrorKind::TagUnexpected))
    }
}
