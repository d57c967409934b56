//! Error messages for PEM files, one line each.

use cert_tool_pem::{PemFault, Wanted, label_at};
use std::alloc::{AllocError, Global};
use std::str;

// Returns the name of what the file must contain.
fn wanted_text(wanted: Wanted) -> &'static str {
    match wanted {
        Wanted::Certificates | Wanted::LeafFirst | Wanted::Anchors => "a certificate is wanted",
        Wanted::List => "a CRL is wanted",
        Wanted::Request => "a CSR is wanted",
        Wanted::OcspRequest => "an OCSP request is wanted",
        Wanted::OcspResponse => "an OCSP response is wanted",
        Wanted::Message => "a CMS message is wanted",
        Wanted::Key => "a private key is wanted",
        Wanted::Timestamp => "a timestamp response is wanted, and only in DER",
        Wanted::Lines => "lines of text are wanted",
    }
}

// Returns the article before a label, which depends on how its first letter is pronounced.
fn article_of(label: &str) -> &'static str {
    match label.as_bytes().first() {
        Some(b'A' | b'E' | b'I' | b'O' | b'R' | b'S' | b'X') => "an",
        _ => "a",
    }
}

// The maximum number of characters of a label that is printed.
const MOST_PRINTED: usize = 64;

// Returns the label of an unexpected block, if it is short and printable.
fn printed_label(text: &[u8], number: u64) -> Option<&str> {
    let label = label_at(text, number)?;
    if label.is_empty() || label.len() > MOST_PRINTED {
        return None;
    }
    if !label.iter().all(|octet| (b' '..=b'~').contains(octet)) {
        return None;
    }
    str::from_utf8(label).ok()
}

// Returns whether the BEGIN line with this number has other boundaries, too. A label has no five
// dashes.
fn has_lost_ends(text: &[u8], number: u64) -> bool {
    let Some(label) = label_at(text, number) else {
        return false;
    };
    match str::from_utf8(label) {
        Ok(label) => label.contains("-----"),
        Err(_) => false,
    }
}

// Returns whether a text has this line, or this end of a line, of PEM.
fn has_line(text: &[u8], line: &str) -> bool {
    match str::from_utf8(text) {
        Ok(text) => text.contains(line),
        Err(_) => false,
    }
}

// Returns what to do with a file that has a block with this label.
fn step_for(label: &str, wanted: Wanted, text: &[u8]) -> &'static str {
    if matches!(wanted, Wanted::Key) && has_line(text, "PRIVATE KEY-----") {
        return " (`openssl pkey -in FILE` writes its private key)";
    }
    match label {
        "CERTIFICATE" | "X509 CERTIFICATE" => " (`cert_tool describe certificate FILE`)",
        "X509 CRL" => " (`cert_tool describe list FILE`)",
        "CERTIFICATE REQUEST" | "NEW CERTIFICATE REQUEST" => {
            " (`cert_tool describe request FILE`)"
        }
        "OCSP REQUEST" => " (`cert_tool describe ocsp-request FILE`)",
        "OCSP RESPONSE" => " (`cert_tool describe ocsp-response FILE`)",
        "CMS" => " (`cert_tool describe message FILE`)",
        "PKCS7" => " (`openssl pkcs7 -in FILE -print_certs` writes its certificates)",
        "TRUSTED CERTIFICATE" => " (`openssl x509 -in FILE` writes its certificate)",
        _ if has_line(text, "-----BEGIN CERTIFICATE-----") => {
            " (`openssl x509 -in FILE` writes its certificate)"
        }
        "PRIVATE KEY" | "ENCRYPTED PRIVATE KEY" => " (`cert_tool describe key FILE`)",
        _ => "",
    }
}

// Returns the message for a file with an unexpected block.
fn other_line(
    alloc: Global,
    name: &str,
    wanted: Wanted,
    text: &[u8],
    number: u64,
) -> Result<String, AllocError> {
    if has_lost_ends(text, number) {
        return format!(in alloc;
            "{name:?}, line {number}: the BEGIN line has more than a label; put line ends back"
        );
    }
    let what = wanted_text(wanted);
    match printed_label(text, number) {
        Some(label) => {
            let (article, step) = (article_of(label), step_for(label, wanted, text));
            format!(in alloc;
                "{name:?}, line {number}: the file has {article} {label}; {what}{step}"
            )
        }
        None => format!(in alloc;
            "{name:?}, line {number}: the file has a block of another kind; {what}"
        ),
    }
}

// Returns the message for a file that is neither DER nor a short text.
pub(crate) fn too_much_line(alloc: Global, name: &str) -> Result<String, AllocError> {
    format!(in alloc; "{name:?} isn't DER, and has more than 67108864 bytes")
}

// Returns the message for `--leaf-first` with a file in DER.
pub(crate) fn not_text_line(alloc: Global, name: &str) -> Result<String, AllocError> {
    format!(in alloc; "--leaf-first: {name:?} isn't PEM; `cert_tool reverse` reverses it")
}

// Returns the message for an error in the blocks of a file.
pub(crate) fn refused_line(
    alloc: Global,
    name: &str,
    wanted: Wanted,
    text: &[u8],
    number: u64,
    fault: PemFault,
) -> Result<String, AllocError> {
    let what = match fault {
        PemFault::OtherKind => return other_line(alloc, name, wanted, text, number),
        PemFault::NoEnd => "the PEM block that begins here has no END line",
        PemFault::NoBegin => "this END line follows no BEGIN line",
        PemFault::OtherEnd => "this END line has another label than the BEGIN line before it",
        PemFault::NotBase64 => "the PEM block that begins here isn't base64",
    };
    format!(in alloc; "{name:?}, line {number}: {what}")
}
