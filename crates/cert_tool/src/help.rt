//! The help texts and the version.

ghost use Rattle.std.specs.Prelude.{◌≡◌, map, option_map};
ghost use Rattle.cert_tool.specs.Help.{help_for, help_of};

// The output of `--version`.
pub(crate) const VERSION: &str = "cert_tool 2.0.0\n";

// The help for the program as a whole.
const USAGE: &str = "usage: cert_tool COMMAND OPTIONS FILE, where COMMAND is one of
  questions           writes the signatures that a verifier has to verify
  verify              validates a certificate chain with the verifier's answers
  explain chain       prints which rules a chain breaks, and why
  explain stream      prints why a file isn't a sequence of certificates, and where
  explain anchors     prints why trust anchors are rejected, and what isn't checked of them
  explain KIND        prints why a file is rejected and where, or which requirements of RFC 5280
                      it doesn't meet
  describe KIND       prints what a file contains
  describe stream     prints what each certificate of a stream of any length contains
  split               prints where each certificate of a stream is, or extracts one
  reverse             writes the certificates of a stream in reverse order
  serve               answers requests that arrive in frames on standard input
KIND is certificate, list (a CRL), request (a CSR), ocsp-request, ocsp-response, message (CMS),
key (a private key) or timestamp (a response).
`cert_tool COMMAND --help` (or `-h`) explains a command. `cert_tool --version` prints the version.
`cert_tool_verify_pem ROOTS CHAIN --host NAME` validates a chain in PEM, including its signatures.
";

// The help for `questions`.
const QUESTIONS: &str =
    "usage: cert_tool questions --anchors FILE [--leaf-first] [--limit BYTES] STREAM
Writes a line for each signature that validating the chain may need. Each line is
PLACE ANCHOR KEY ALGORITHM SIGNED BITS: the index of the certificate in the chain, that of the
trust anchor or `-`, and four values in hex.
A verifier, such as cert_tool_answer, keeps the lines whose signature is valid. The lines that it
keeps are the answers for `verify`.
--anchors  a file of trust anchors: certificates in DER or PEM, one after another
STREAM     certificates in DER or PEM, one after another; the first is the one that an anchor signed
--leaf-first  STREAM is PEM, and its first certificate is the end entity's, as a TLS server sends it
--limit    the most bytes that a certificate of STREAM may have: 6 to 4294967295 (default 65536)
";

// The help for `verify`.
const VERIFY: &str = "usage: cert_tool verify --anchors FILE --answers FILE
       [--at TIME] [--purpose PURPOSE] [--host NAME] [--strict] [--warn-days DAYS]
       [--leaf-first] [--limit BYTES] [--json] STREAM
Validates the certificate chain in STREAM. A signature counts as valid if the answers contain its
line. Revocation isn't checked. Policies and name constraints are ignored, or, if they are critical,
the chain is rejected. Host names are checked only with --host.
Prints `trusted calls=N \"NAME\"` (status 0), `refused PLACE RULE calls=N` (1), `empty` (3), or
`fault PLACE OFFSET FAULT` (2). NAME is the subject of the last certificate, the end entity's.
PLACE is the index of a certificate: 0 is the one that an anchor signed (with --leaf-first, the last
one of the file). N is the number of signatures that were looked up.
With --host or --strict, RULE can be the name of a stricter check. `explain chain`, with the same
options except --warn-days, prints why a chain is rejected.
--anchors  a file of trust anchors: certificates in DER or PEM, one after another
--answers  a file of the lines of `questions` that a verifier kept
--at       validation time: now (the default), YYYY-MM-DDTHH:MM:SSZ, or seconds since 1970
--purpose  key purpose: serverAuth (the default), clientAuth, codeSigning, emailProtection,
           timeStamping, OCSPSigning, anyExtendedKeyUsage, or an OID
--host     rejects a chain whose end entity isn't valid for this DNS name or IP address, such as
           desk.example, 192.0.2.1 or [2001:db8::1] (status 1)
--strict   also rejects name constraints, a key usage of the end entity that doesn't fit the key
           purpose, and a trust anchor that breaks a rule for certificates (status 1)
--warn-days  also prints `ends PLACE DATE` or `ends anchor` if a trusted chain ends within this
           number of days (status 7)
STREAM     certificates in DER or PEM, one after another; the first is the one that an anchor signed
--leaf-first  STREAM is PEM, and its first certificate is the end entity's, as a TLS server sends it
--limit    the most bytes that a certificate of STREAM may have: 6 to 4294967295 (default 65536)
--json     prints a document of JSON instead of lines
For a chain in PEM, as a TLS server sends it:
  cert_tool questions --leaf-first --anchors ROOTS CHAIN | cert_tool_answer >ANSWERS
  cert_tool verify --leaf-first --anchors ROOTS --answers ANSWERS --host NAME CHAIN
`cert_tool_verify_pem ROOTS CHAIN --host NAME` does both.
";

// The help for `split`.
const SPLIT: &str = "usage: cert_tool split [--limit BYTES] [--place PLACE | --json] STREAM
Prints PLACE OFFSET LENGTH for each certificate of STREAM, or writes the bytes of the certificate
at index PLACE. The first certificate has index 0.
STREAM     certificates in DER or PEM, one after another
--limit    the most bytes that a certificate of STREAM may have: 6 to 4294967295 (default 65536)
--json     prints a document of JSON instead of lines
";

// The help for `reverse`.
const REVERSE: &str = "usage: cert_tool reverse [--limit BYTES] STREAM
Writes the certificates of STREAM in reverse order, in DER. A TLS server sends its own certificate
first. `verify` expects that certificate last, and the one that a trust anchor signed first.
STREAM     certificates in DER or PEM, one after another
--limit    the most bytes that a certificate of STREAM may have: 6 to 4294967295 (default 65536)
";

// The help for `serve`.
const SERVE: &str = "usage: cert_tool serve
Answers requests that arrive on standard input, until it ends. A request is the words of a command
and the files that they name, and its answer is the status, the output and the error output, each
preceded by its length. CLI.md, in share/doc/wurstdrape of the prefix, describes both.
";

// The help for `describe`.
const DESCRIBE: &str = "usage: cert_tool describe KIND [--digests] [--json] FILE...
       cert_tool describe stream [--limit BYTES] [--digests] [--json] STREAM...
Prints what each FILE contains, a line for each part. `describe stream` prints each certificate of
STREAM as soon as it is read; with --json it prints one document per line.
KIND       certificate, list (a CRL), request (a CSR), ocsp-request, ocsp-response, message (CMS),
           key (a private key, whose secret bytes aren't printed) or timestamp (a response)
--digests  also prints SHA-1 and SHA-256 of the encoding and of the key, and the pin of the key
           (RFC 7469); not for KIND key
FILE       a file in DER or, except for timestamp, in PEM with blocks of this kind only
STREAM     certificates in DER or PEM, one after another
--limit    the most bytes that a certificate of STREAM may have: 6 to 4294967295 (default 65536)
--json     prints a document of JSON instead of lines
";

// The help for `explain`.
const EXPLAIN: &str = "usage: cert_tool explain KIND [--fail-on-remark] [--json] FILE
       cert_tool explain anchors [--json] FILE
       cert_tool explain stream [--limit BYTES] [--json] STREAM
       cert_tool explain chain --anchors FILE --answers FILE
       [--at TIME] [--purpose PURPOSE] [--host NAME] [--strict] [--leaf-first]
       [--fail-on-remark] [--limit BYTES] [--json] STREAM
Prints the first error in FILE, the byte at which it is, and the parts around that byte. If a
certificate or a CRL can be decoded, prints remarks: requirements of RFC 5280 that it doesn't meet.
`explain chain` prints which rules each certificate breaks, and why, and the remarks. It takes the
options of `verify`, except --warn-days; with `--answers /dev/null`, every signature counts as
invalid. If STREAM can't be decoded or is empty, the status is that of `verify`. It is 1 if a check
of --host or --strict fails or, with --strict, if no trust anchor issued the chain.
Without --fail-on-remark the status is 0 even if FILE has an error or the chain breaks a rule.
KIND       certificate, list (a CRL), request (a CSR), ocsp-request, ocsp-response, message (CMS),
           key (a private key) or timestamp (a response)
--fail-on-remark  the exit status is 1, and not 0, if there is a remark, a broken rule or, for
           `explain KIND`, an error of DER
FILE       a file in DER or, except for timestamp, in PEM with blocks of this kind only (for
           anchors: certificates)
STREAM     certificates in DER or PEM, one after another; the first is the one that an anchor signed
--limit    the most bytes that a certificate of STREAM may have: 6 to 4294967295 (default 65536)
--json     prints a document of JSON instead of lines
`cert_tool verify --help` explains the other options.
";

// The end of each help text.
pub(crate) const ARGUMENTS: &str =
    "An option's value may also follow `=`, as in --limit=4096. The file `-` is standard input.
After `--` there are no options, so a file may have any name: cert_tool split -- --odd.der
Exit status:
  0  everything was written and, for verify, the chain is trusted
  1  verify rejects the chain, explain chain finds that a check of --host or --strict fails, or
     --fail-on-remark found something
  2  the input is malformed (explain KIND and explain stream: only if its PEM can't be used)
  3  the stream is empty (explain stream returns 0)
  4  arguments, trust anchors or answers are wrong (explain anchors: arguments, or PEM that can't
     be used)
  5  an I/O error
  6  memory ran out
  7  a trusted chain ends soon (--warn-days)
";

// Returns the help for the command that begins with this word.
fn help_for(word: &str) -> Option<&'static str>
    ensures { option_map (λ text. text.now) result ≡ help_for word.now }
{
    match word {
        "questions" => Some(QUESTIONS),
        "verify" => Some(VERIFY),
        "split" => Some(SPLIT),
        "reverse" => Some(REVERSE),
        "describe" => Some(DESCRIBE),
        "explain" => Some(EXPLAIN),
        "serve" => Some(SERVE),
        _ => None,
    }
}

// Returns the first word that names a command, or `COMMAND`.
pub(crate) fn command_in<'a>(words: &[&'a str]) -> &'a str {
    for word in words {
        if help_for(word).is_some() {
            return word;
        }
    }
    "COMMAND"
}

// Returns the help for the first word that names a command, or for the whole program.
pub(crate) fn help_of(words: &[&str]) -> &'static str
    ensures { result.now ≡ help_of (map (λ word. word.now) words.now) }
{
    let [word, rest @ ..] = words else {
        return USAGE;
    };
    match help_for(word) {
        Some(text) => text,
        None => help_of(rest),
    }
}
