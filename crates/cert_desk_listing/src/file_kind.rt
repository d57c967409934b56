//! The kinds of files.
ghost use Rattle.std.specs.Prelude.{◌≡◌, ◌≢◌, IfSome, IfNone};
ghost use Rattle.cert_desk_listing.specs.declared.file_kind.FileKind.{FileKind};
ghost use Rattle.cert_desk_listing.specs.Kinds.{kind_word};

/// The type of value that a file encodes.
#[derive(Clone, Copy, Debug, PartialEq, Eq)]
pub enum FileKind {
    /// A certificate.
    Certificate,
    /// A CRL.
    List,
    /// A CSR.
    Request,
}

impl FileKind {
    /// Returns the kind with this name: `certificate`, `list` or `request`.
    pub fn named(word: &str) -> Option<FileKind>
        ensures read { IfSome result (λ kind. word.now ≡ kind_word kind) }
        ensures refused { IfNone result ((kind : FileKind) → word.now ≢ kind_word kind) }
    {
        match word {
            "certificate" => Some(FileKind::Certificate),
            "list" => Some(FileKind::List),
            "request" => Some(FileKind::Request),
            _ => None,
        }
    }
}
