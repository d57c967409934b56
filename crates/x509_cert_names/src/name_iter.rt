//! Iterators over the RDNs and the attributes of a name.

use crate::attribute_type_and_value::AttributeTypeAndValue;
use crate::relative_distinguished_name::RelativeDistinguishedName;
use std::slice::Iter;

/// An iterator over the RDNs of a name, in their order.
pub type RdnSequenceIter<'a> = Iter<'a, RelativeDistinguishedName>;

/// An iterator over the attributes of a name, beginning with the first RDN.
#[derive(Debug, Drop)]
pub struct NameIter<'a> {
    pub(crate) attributes: &'a [AttributeTypeAndValue],
    pub(crate) left: &'a [RelativeDistinguishedName],
}

impl<'a> Iterator for NameIter<'a> {
    ghost use Rattle.std.specs.Iterator.{YieldsFirstRef, item_count};
    ghost use Rattle.x509_cert_names.specs.Views.{attributes_left};

    type Item = &'a AttributeTypeAndValue;

    ghost next_gives = { YieldsFirstRef attributes_left };

    ghost remaining = { item_count attributes_left };

    fn next(&mut self) -> Option<&'a AttributeTypeAndValue> {
        while self.attributes.is_empty() {
            let [relative, left @ ..] = self.left else {
                return None;
            };
            self.attributes = relative.as_slice();
            self.left = left;
        }
        let [first, attributes @ ..] = self.attributes else {
            return None;
        };
        self.attributes = attributes;
        Some(first)
    }
}
