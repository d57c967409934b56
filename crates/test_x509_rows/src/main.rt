//! Answers questions about certificates, names, timestamps and their parts, and about builders.
//! Each line of standard input is a question, and each line of standard output is its answer.
//!
//! | Question | Answer |
//! |---|---|
//! | `der TYPE HEX` | `ok HEX`: the encoding of the value that the bytes encode |
//! | `front TYPE HEX` | `ok HEX HEX`: the encoding of the value with which the bytes begin, and the bytes after it |
//! | `twice TYPE HEX` | `ok ANSWER; ANSWER`: the encodings of the values that two calls of one reader return, or their errors |
//! | `order TYPE HEX HEX` | `ok Less`, `ok Equal` or `ok Greater`: the order of two encodings |
//! | `text TYPE HEX` | `ok TEXT`: the text that the value prints |
//! | `from TYPE TEXT` | `ok HEX`: the encoding of the value that the type makes of a text, of the bytes of a number, or of another encoded value; or `none` |
//! | `from SerialNumber/u64 NUMBER` | `ok HEX`: the serial number with a number below 2^64 |
//! | `from Validity DATE NUMBER` | `ok HEX`: the validity period from the date on with that many milliseconds, or without an end if there is no number |
//! | `default TYPE` | `ok HEX`: the encoding of the type's default value |
//! | `names TYPE HEX` | `ok` and the usages of a `KeyUsage`, or the names of a `SubjectAltName` |
//! | `debug TYPE HEX` | `ok TEXT`: the value as `{:?}` prints it |
//! | `copy TYPE HEX` | `ok HEX`: the encoding of a copy of the value, if the copy is equal to the value. For a borrowed value, that of the owned value that it is converted to |
//! | `exchange TYPE HEX HEX` | `ok HEX HEX`: the encodings of two values of a type with one field, after the fields were exchanged |
//! | `values INDEX HEX` | `ok N HEX ..; HEX`: the number of values of an attribute, the encoding of each, and that of the one at the index, or `none` |
//! | `insert HEX HEX` | `ok HEX`: the encoding of the second attribute after the first value was added to it |
//! | `extension TYPE HEX HEX` | `ok HEX`: the extension that a value gives the certificate of a subject. The bytes are the subject's name and the value |
//! | `get TYPE HEX` | `ok HEX`: the content of a certificate's single extension of the type, after `critical ` if it is critical, or `none` |
//! | `sha1 TYPE HEX` | `ok HEX`: the digest of a certificate |
//! | `generate words HEX` | `ok HEX`: the serial number of a generator whose words of 32 bits are each the next of these bytes, four times, and then 0 |
//! | `generate chacha20 HEX` | `ok HEX`: the serial number that ChaCha20 generates with this seed |
//! | `draw HEX COUNT HEX` | `ok HEX`: the serial number with a prefix (`-` for none) and that many bytes of such a generator of words |
//! | `usages HEX` | `ok` and the result of `get` for each key usage of a certificate, also if there are several |
//! | `attributes HEX` | `ok` and, for each attribute of the name, its type and the bytes of its value |
//! | `first WHICH HEX` | `ok TEXT`: the name's first value of a kind: `common-name`, `country`, `state`, `locality`, `organization`, `unit` or `email`; or `ok none` |
//! | `by-oid TYPE OID HEX` | `ok HEX`: the encoding of the name's first value with that OID, decoded as the type, or `ok none` |
//! | `relative-members HEX` | `ok` and the number of attributes of the RDN, and the encoding of each |
//! | `relative-list HEX` | the same for the list that the RDN is converted to |
//! | `turned HEX` | `ok HEX`: the encoding of the sequence of RDNs in reverse order |
//! | `relative HEX HEX ..` | `ok HEX`: the RDN into which these attributes are inserted one at a time |
//! | `relative-of HEX HEX ..` | the same for the RDN that is made of all of them at once |
//! | `again HEX HEX ..` | the same as `relative`. If memory runs out in an insertion, the name has to be as before, and the insertion is repeated. Otherwise the answer is `changed` |
//! | `again push HEX HEX ..` | `ok HEX`: the sequence to which these RDNs are pushed, with pushes that are repeated in the same way |
//! | `name TEXT` | `ok TEXT`: the text that the name with a text prints |
//! | `tls TYPE HEX` | `ok HEX HEX`: the encoding of the value with which the bytes begin, and the bytes after it |
//! | `members HEX` | `ok` and the bytes of each timestamp of an encoded list |
//! | `list HEX ..` | `ok HEX`: the encoding of the list of timestamps with these bytes |
//! | `list-read HEX ..` | the same for these timestamps, each of which is decoded and encoded again |
//! | `long NUMBER`, `long-list NUMBER` | `ok NUMBER`: the length of the encoding of a timestamp of that many bytes, or of the list of that one |
//! | `stamp HEX` | `ok` and the version, log, milliseconds, date, extensions, hash, algorithm and signature of the timestamp with these bytes |
//! | `date NUMBER` | `ok DATE`: the date of a timestamp with that many milliseconds |
//! | `names NAME` | `ok` if a name keeps the rules for all names, and no type occurs twice |
//! | `repeats NAME` | the same, but types may occur twice |
//! | `authority NAME` | `ok` if a name is allowed for a CA |
//! | `key KEY` | `ok HEX HEX`: the identifier of a key, and the encoding of the authority key identifier |
//! | `HOW PROFILE` | the result of `HOW` for the certificate with this profile |
//! | `list HOW SIGNER ISSUER NUMBER THIS NEXT ENTRIES` | the result of `HOW` for the CRL of this issuer |
//! | `request HOW SIGNER EXTENSIONS PASSWORDS NAME` | the result of `HOW` for the CSR with this name |
//! | an empty line, or one that begins with `#` | the same line |
//! | any other line, also one with an unknown type | `?` |
//!
//! A type that a profile changes is decoded with `Raw` or, after `/Rfc5280`, with that profile. For
//! timestamps, a dash means no bytes. The answer is `refused KIND` if the question fails with an
//! error, with a number after it that has no meaning in TLS, and `memory` if memory runs out. It is
//! `length` if a value of TLS reports another length than that of its encoding.
//!
//! | `HOW` | |
//! |---|---|
//! | `part`, `signed` | the signed part, built twice; `changed` if the two differ |
//! | `between` | the signed part, if the builder is also finalized before the change |
//! | `whole` | the complete value, whose signature is the digest of the signer's key and the signed bytes |
//! | `drawn` | the same, built with random bytes, of which the signer uses none |
//! | `unready` | the same, assembled before anything is finalized |
//! | `late` | assembled after the builder was finalized and then changed, with a signature over no bytes |
//! | `later` | assembled after the builder was changed, finalized and changed once more |
//! | `other` | assembled with a signer of another algorithm than that of the signed part |
//! | `again` | the signed part after the change. If memory runs out in a call, the builder has to be as before, and the call is repeated. Otherwise the answer is `changed` |
//!
//! A change adds the extension to a certificate, the entries to a CRL, or the extensions, or the
//! password after `password:`, to a CSR.
//!
//! | `PROFILE` | |
//! |---|---|
//! | `root FLAGS SETTLED SUBJECT` | a root |
//! | `subordinate FLAGS PATH SETTLED ISSUER\|SUBJECT` | a CA below another one, with a path length or a dash |
//! | `subscriber FLAGS KIND SETTLED ISSUER\|SUBJECT` | a server; its kind is `domain`, `individual`, `organization` or `extended` |
//! | `device FLAGS NAMES SETTLED ISSUER\|SUBJECT` | a device; the encoding of its alternative names in base 16, or a dash |
//! | `module FLAGS VERSION OCTETS SETTLED ISSUER\|SUBJECT` | a device with a module of version `1.2` or `2.0`, or with this OID, and with this serial number |
//!
//! `FLAGS` are letters, or a dash. With `o`, OCSP responses are signed; with `c`, clients are
//! certified; with `d`, data are enciphered; with `k`, keys are enciphered; with `a`, keys are
//! agreed upon. `SETTLED` is `SERIAL FROM UNTIL KEY SIGNER ADDED`: bytes, two dates, the certified
//! key, the signer's key, and an extension that is added, or a dash. A date after `general:` is a
//! GeneralizedTime. A signer after `refuses:` rejects what it has to sign.
//!
//! Keys, issuers, entries, extensions and passwords are encodings in base 16, of
//! `SubjectPublicKeyInfo`, `Certificate`, `RevokedCert`, `Extension` and `DirectoryString`. Several
//! of them are joined by commas. A dash means none, and `empty` for an empty list of entries.
#![tactic(auto)]

mod answers;
mod building;
mod copies;
mod distinguished_names;
mod drawn;
mod extensions;
mod given_words;
mod made;
mod name_texts;
mod names;
mod profiles;
mod questions;
mod refusals;
mod relative_names;
mod requests_and_names;
mod shown;
mod timestamp_lists;
mod timestamps;
mod tls_values;
mod validities;
mod whole_extensions;

use answers::answer;
use std::io;
use std::io::{BufWriter, Write};

fn main(rt: HostRuntime) -> io::Result<()> {
    let alloc = rt.alloc();
    let mut out = BufWriter::new(alloc, io::writer(&rt))?;
    for line in rt.lines(alloc) {
        answer(alloc, line?.as_str(), &mut out)?;
    }
    out.flush()
}
