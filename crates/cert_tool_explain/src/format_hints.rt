//! Hints at the format of a file that isn't DER of the expected kind.

use cert_tool_describe::content_at;

// The maximum number of bytes that are searched for the first line of PEM.
const MOST_TEXT: usize = 65536;

// The beginning of a line of PEM.
const PEM_MARK: &[u8] = b"-----BEGIN ";

// The identifier of signedData (RFC 5652 5.1), with which a file of PKCS #7 begins.
const SIGNED_DATA: &[u8] = &[6, 9, 0x2a, 0x86, 0x48, 0x86, 0xf7, 0x0d, 1, 7, 2];

// The beginning of the identifiers of PKCS #7, with one of which the second field of a PKCS #12
// file begins (RFC 7292 4).
const PKCS7: &[u8] = &[6, 9, 0x2a, 0x86, 0x48, 0x86, 0xf7, 0x0d, 1, 7];

// Returns whether a text may contain this byte.
fn is_of_text(octet: u8) -> bool {
    octet >= b' ' || octet == b'\t' || octet == b'\n' || octet == b'\r'
}

// Returns whether bytes have the beginning of a BEGIN line (RFC 7468), and only text before it. A
// file in PEM has already been decoded when this is called, unless its first byte is that of DER or
// the line isn't complete.
fn has_begin_line(octets: &[u8]) -> bool {
    let mut rest = octets;
    let mut begins_line = true;
    for _ in 0..MOST_TEXT {
        if begins_line && rest.starts_with(PEM_MARK) {
            return true;
        }
        match rest {
            [octet, behind @ ..] if is_of_text(*octet) => {
                begins_line = *octet == b'\n' || *octet == b'\r';
                rest = behind;
            }
            _ => return false,
        }
    }
    false
}

/// Returns whether bytes begin as a message with SignedData does.
pub fn is_signed_data(octets: &[u8]) -> bool {
    content_at(octets, 0).starts_with(SIGNED_DATA)
}

// Returns the content of the SEQUENCE at the beginning of the bytes, and what follows it. The
// length may be indefinite, as some programs write it.
fn in_sequence(octets: &[u8]) -> &[u8] {
    match octets {
        [0x30, 0..=0x80, rest @ ..] => rest,
        [0x30, 0x81, _, rest @ ..] => rest,
        [0x30, 0x82, _, _, rest @ ..] => rest,
        [0x30, 0x83, _, _, _, rest @ ..] => rest,
        [0x30, 0x84, _, _, _, _, rest @ ..] => rest,
        _ => &[],
    }
}

// Returns whether bytes begin as a PKCS #12 file does: with the version 3, and a ContentInfo (RFC
// 7292 4).
fn is_pkcs12(octets: &[u8]) -> bool {
    match in_sequence(octets) {
        [2, 1, 3, rest @ ..] => in_sequence(rest).starts_with(PKCS7),
        _ => false,
    }
}

/// Returns a hint at the format of a file that isn't DER of the expected kind, or an empty text.
pub fn format_hint(octets: &[u8]) -> &'static str {
    match octets {
        [b'M', b'I', ..] =>
            "(this looks like base64 without BEGIN and END lines; `base64 -d FILE` decodes it)",
        [0xff, 0xfe, ..] | [0xfe, 0xff, ..] => {
            "(this looks like UTF-16; `iconv -f UTF-16 -t UTF-8 FILE` converts it)"
        }
        [b'0', ..] if has_begin_line(octets) => {
            "(the file begins with the character 0, so it was read as DER, but it contains PEM: \
            remove the text before the first BEGIN line)"
        }
        _ if has_begin_line(octets) => {
            "(this looks like PEM, but its BEGIN line doesn't end with five dashes)"
        }
        _ if is_signed_data(octets) => {
            "(PKCS #7 or CMS; `cert_tool describe message FILE` describes it, and \
            `openssl pkcs7 -inform DER -in FILE -print_certs` prints its certificates)"
        }
        _ if is_pkcs12(octets) => {
            "(PKCS #12; `openssl pkcs12 -in FILE -nodes -out OUT` writes its certificates and its \
            private keys, unencrypted, in PEM)"
        }
        _ => "",
    }
}
