//! A certificate of a chain, with its index and its offset.

use cert_desk_checking::desk_bundle::Bundle;
use cert_tool_describe::cert_certificates::{CertificateInner, TbsCertificateInner};
use cert_tool_describe::cert_names::Name;
use cert_tool_describe::cert_parts::{Extension, Raw};

// A certificate of a chain, with its index and its offset.
#[derive(Clone, Copy)]
pub(crate) struct ChainEntry<'a> {
    pub(crate) bundle: &'a Bundle,
    // The index, counted from 0.
    pub(crate) number: usize,
    pub(crate) certificate: &'a CertificateInner<Raw>,
    // The offset in the stream, the encoding of the certificate, and that of its signed part.
    pub(crate) offset: u64,
    pub(crate) octets: &'a [u8],
    pub(crate) signed: &'a [u8],
}

impl<'a> ChainEntry<'a> {
    // Returns the certificate at this index, if there is one.
    pub(crate) fn at(bundle: &'a Bundle, number: usize) -> Option<ChainEntry<'a>> {
        let Some(entry) = bundle.get(number) else {
            return None;
        };
        Some(ChainEntry {
            bundle,
            number,
            certificate: entry.certificate,
            offset: entry.offset,
            octets: entry.octets,
            signed: entry.signed,
        })
    }

    // Returns the issuer.
    pub(crate) fn issuer(&self) -> &'a Name {
        self.certificate.tbs_certificate().issuer()
    }

    // Returns the extensions, in order.
    pub(crate) fn extensions(&self) -> &'a [Extension] {
        match self.certificate.tbs_certificate().extensions() {
            Some(extensions) => extensions.as_slice(),
            None => &[],
        }
    }

    // Returns the signed part of the certificate before, if there is one.
    pub(crate) fn before(&self) -> Option<&'a TbsCertificateInner<Raw>> {
        if self.number == 0 {
            return None;
        }
        match ChainEntry::at(self.bundle, self.number - 1) {
            Some(before) => Some(before.certificate.tbs_certificate()),
            None => None,
        }
    }
}
