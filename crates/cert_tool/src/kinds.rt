//! The kinds of files.

ghost use Rattle.std.specs.Prelude.{◌≡◌};
ghost use Rattle.cert_tool.specs.Kinds.{wanted_of_kind};

use cert_tool_explain::FileKind;
use cert_tool_explain::tool_describe::Node;
use cert_tool_messages::key_node;
use cert_tool_pem::Wanted;

/// The kind of value that a file contains.
#[derive(Clone, Copy)]
pub enum Kind {
    /// A certificate.
    Certificate,
    /// A CRL.
    List,
    /// A CSR.
    Request,
    /// An OCSP request.
    OcspRequest,
    /// An OCSP response.
    OcspResponse,
    /// A CMS message.
    Message,
    /// A private key, which may be encrypted.
    Key,
    /// A timestamp response.
    Timestamp,
}

impl Kind {
    // Returns what a file of this kind must contain.
    pub(crate) fn wanted(self) -> Wanted
        ensures { result ≡ wanted_of_kind self }
    {
        match self {
            Kind::Certificate => Wanted::Certificates,
            Kind::List => Wanted::List,
            Kind::Request => Wanted::Request,
            Kind::OcspRequest => Wanted::OcspRequest,
            Kind::OcspResponse => Wanted::OcspResponse,
            Kind::Message => Wanted::Message,
            Kind::Key => Wanted::Key,
            Kind::Timestamp => Wanted::Timestamp,
        }
    }

    // Returns how reports name a file of this kind with these bytes.
    pub(crate) fn named(self, octets: &[u8]) -> FileKind {
        let (node, valid) = match self {
            Kind::Certificate => (Node::Certificate, "no error: the file is a certificate"),
            Kind::List => (Node::List, "no error: the file is a CRL"),
            Kind::Request => (Node::Request, "no error: the file is a CSR"),
            Kind::OcspRequest => (Node::OcspRequest, "no error: the file is an OCSP request"),
            Kind::OcspResponse => (Node::OcspResponse, "no error: the file is an OCSP response"),
            Kind::Message => (Node::Message, "no error: the file is a CMS message"),
            Kind::Key => (key_node(octets), "no error: the file is a private key"),
            Kind::Timestamp => (
                Node::Timestamp,
                "no error: the file is a timestamp response",
            ),
        };
        FileKind { node, valid }
    }
}
