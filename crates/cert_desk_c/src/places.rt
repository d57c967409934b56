//! The positions of the parts of a certificate in its bytes, found by the headers before them.
ghost use Rattle.std.specs.Prelude.{◌≡◌, ◌≤◌, ◌<◌, ◌^◌, ◌++◌, ℕ, List, length, true, false};
ghost use Rattle.cert_tool_describe.specs.Oid.Bound.{Bound};
ghost use Rattle.cert_tool_describe.specs.Der.TagTypes.Tag.{Tag};
ghost use Rattle.cert_tool_describe.specs.Der.Heads.{head_octets};
ghost use Rattle.cert_tool_describe.specs.Der.Limits.{IsLength};
ghost use Rattle.cert_tool_describe.specs.Der.Shapes.{Spells};
ghost use Rattle.cert_tool_describe.specs.Der.Tags.{IsTag};
ghost use Rattle.cert_tool_describe.specs.CertCertificates.Certificates.{PlainCertificate};
ghost use Rattle.cert_tool_describe.specs.CertCertificates.Certificates.{raw_certificate};
ghost use Rattle.cert_desk_c.specs.Places.{ArePlaced, Enters, IsBehindKey, Passes, PassesVersion};
ghost use Rattle.cert_desk_c.specs.Places.{IsRest, StandsAt};

use cert_tool_describe::der::header_of;

/// The position of bytes within those of the caller.
#[repr(C)]
#[derive(Clone, Copy)]
pub struct WdSpan {
    /// The offset of the first byte.
    pub start: usize,
    /// The number of bytes.
    pub size: usize,
}

/// The positions of the parts of a certificate in its bytes (RFC 5280 4.1).
#[repr(C)]
#[derive(Clone, Copy)]
pub struct WdSpans {
    /// The TBSCertificate.
    pub signed_part: WdSpan,
    /// The content bytes of the serial number, the most significant first, in two's complement.
    pub serial_number: WdSpan,
    /// The issuer's name.
    pub issuer: WdSpan,
    /// The subject's name.
    pub subject: WdSpan,
    /// The SubjectPublicKeyInfo.
    pub public_key: WdSpan,
}

// Returns the length of the header with which the bytes begin, and the length of its content.
fn lengths(octets: &[u8]) -> (usize, usize)
    ensures within { result.0 ≤ length octets.now }
    ensures small { result.1 < 2 ^ 32 }
    ensures header { (t : Tag) (n : ℕ) (w : List ℕ) → IsTag t → IsLength n
        → octets.now ≡ head_octets t n ++ w
        → (result.0 ≡ length (head_octets t n)) × (result.1 ≡ n) }
{
    match header_of(octets) {
        Ok((header, count)) => (count, header.length.value as usize),
        Err(_) => (0, 0),
    }
}

/// Returns the bytes after the header with which these begin.
pub(crate) fn inside(octets: &[u8]) -> &[u8]
    ensures { Enters octets.now result.now }
{
    let (header, _) = lengths(octets);
    &octets[header..]
}

/// Returns the bytes after the value with which these begin.
pub(crate) fn behind(octets: &[u8]) -> &[u8]
    ensures { Passes octets.now result.now }
{
    let (header, content) = lengths(octets);
    let all = header + content;
    if all > octets.len() {
        return octets;
    }
    &octets[all..]
}

/// Returns the bytes after the value with which these begin, if `is_there`.
pub(crate) fn behind_where(octets: &[u8], is_there: bool) -> &[u8]
    ensures rest { IsRest octets.now result.now }
    ensures there { is_there ≡ true → Passes octets.now result.now }
    ensures absent { is_there ≡ false → result.now ≡ octets.now }
{
    if is_there {
        return behind(octets);
    }
    octets
}

// Returns the bytes after the version with which these may begin. A version of v1 is the default
// and isn't encoded (RFC 5280 4.1.2.1, X.690 11.5).
fn behind_version(octets: &[u8]) -> &[u8]
    ensures { PassesVersion octets.now result.now }
{
    let [first, ..] = octets else {
        return octets;
    };
    if *first == 0xa0 {
        return behind(octets);
    }
    octets
}

/// Returns the position of the bytes between `from` and `to`, which are both suffixes of `octets`.
pub(crate) fn part(octets: &[u8], from: &[u8], to: &[u8]) -> WdSpan
    ensures { (before these : List ℕ) → octets.now ≡ before ++ from.now
        → from.now ≡ these ++ to.now → StandsAt octets.now result these }
{
    WdSpan {
        start: octets.len().saturating_sub(from.len()),
        size: from.len().saturating_sub(to.len()),
    }
}

/// Returns the positions of the parts of a certificate, and the bytes after the last of them, its
/// public key.
pub(crate) fn parts_in(octets: &[u8]) -> (WdSpans, &[u8])
    ensures parts { (c : PlainCertificate) → Spells (raw_certificate Bound) c octets.now
        → ArePlaced octets.now c result.0 }
    ensures rest { (c : PlainCertificate) → Spells (raw_certificate Bound) c octets.now
        → IsBehindKey octets.now c result.1.now }
{
    let signed = inside(octets);
    let fields = inside(signed);
    let serial_number = behind_version(fields);
    let number = inside(serial_number);
    let algorithm = behind(serial_number);
    let issuer = behind(algorithm);
    let validity = behind(issuer);
    let subject = behind(validity);
    let key = behind(subject);
    let rest = behind(key);
    let outer = behind(signed);
    let spans = WdSpans {
        signed_part: part(octets, signed, outer),
        serial_number: part(octets, number, algorithm),
        issuer: part(octets, issuer, validity),
        subject: part(octets, subject, key),
        public_key: part(octets, key, rest),
    };
    (spans, rest)
}
