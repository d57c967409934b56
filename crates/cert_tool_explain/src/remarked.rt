//! The values that a file contains, and the remarks on them.

use crate::certificate_remarks::add_lone_remarks;
use crate::list_remarks::add_list_remarks;
use cert_tool_describe::cert_certificates::CertificateInner;
use cert_tool_describe::cert_lists::CertificateList;
use cert_tool_describe::cert_parts::Raw;
use cert_tool_describe::der::Error;
use cert_tool_describe::tool_lines::Lines;
use cert_tool_describe::{ContentError, DescribeFile};
use std::alloc::Global;

/// A value that a file contains and that can have remarks.
pub trait Remarked {
    // Adds the remarks on the value that these bytes encode.
    fn add_remarks<'a>(&'a self, lines: &mut Lines, octets: &'a [u8]);
}

impl Remarked for CertificateInner<Raw> {
    fn add_remarks<'a>(&'a self, lines: &mut Lines, octets: &'a [u8]) {
        add_lone_remarks(lines, octets, self);
    }
}

impl Remarked for CertificateList<Raw> {
    fn add_remarks<'a>(&'a self, lines: &mut Lines, octets: &'a [u8]) {
        add_list_remarks(lines, octets, self);
    }
}

/// A value of a type that has no remarks.
#[derive(Drop)]
pub struct WithoutRemarks<T>(T);

impl<T: DescribeFile + Drop> DescribeFile for WithoutRemarks<T> {
    ghost is_spelled = { T.is_spelled };

    fn read_file(alloc: Global, octets: &[u8]) -> Result<WithoutRemarks<T>, Error> {
        match T::read_file(alloc, octets) {
            Ok(value) => Ok(WithoutRemarks(value)),
            Err(error) => Err(error),
        }
    }

    fn describe_file(&self, lines: &mut Lines, octets: &[u8]) {
        self.0.describe_file(lines, octets);
    }

    fn content_error(&self, alloc: Global, octets: &[u8]) -> Option<ContentError> {
        self.0.content_error(alloc, octets)
    }
}

impl<T> Remarked for WithoutRemarks<T> {
    fn add_remarks<'a>(&'a self, _lines: &mut Lines, _octets: &'a [u8]) {}
}
