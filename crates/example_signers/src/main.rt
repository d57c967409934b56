//! Signers: validates the certification path of a signer among the certificates of a signed message
//! or of an OCSP response.
//!
//! Each line of standard input is about one signer. Its five words are
//!
//! - the validation time, in seconds since 1970-01-01T00:00:00Z;
//! - a certificate that is trusted. For a response, it is that of the CA whose certificates the
//!   response is about;
//! - the certificates of the message or the response, one after another;
//! - the SignerIdentifier of the message, or the ResponderID of the response, in DER;
//! - the lines of an earlier answer whose signatures a verifier accepted, or `-`.
//!
//! All but the first are in hex. The program prints the subjects of the path, the certificate that
//! the trust anchor issued first, and then the verdict. If a signature isn't accepted yet, the
//! verifier's lines follow. An empty line ends the answer.
//!
//! The CA must have issued the certificate of a responder itself, and the certificate must have the
//! key purpose id-kp-OCSPSigning (RFC 6960 4.2.2.2).
#![tactic(auto)]

ghost use Rattle.std.specs.Prelude.{◌≡◌, ◌≤◌};

mod question;
mod signer;

use cert_desk_checking::desk_bundle::{Bundle, Standing};
use cert_desk_checking::desk_rules::{Rule, Verdict};
use cert_desk_checking::{chain_lines, check};
use der_core::{Error, ErrorKind, Result};
use pki_signers::{chain_of, path_to};
use question::Question;
use signer::Signer;
use std::alloc::Global;
use std::io;
use x509_cert_extensions::ExtendedKeyUsage;

/// The largest certificate that is accepted.
const LIMIT: u32 = 0x10_0000;

fn main(rt: HostRuntime) -> io::Result<()> {
    for line in rt.lines(rt.alloc()) {
        match answer(rt.alloc(), line?.as_str()) {
            Ok(text) => println!(rt; "{text}")?,
            Err(error) => println!(rt; "rejected {:?}\n", error.kind)?,
        }
    }
    Ok(())
}

/// Returns the answer to a line.
fn answer(alloc: Global, line: &str) -> Result<String> {
    let question = Question::read(alloc, line)?;
    verdict_on(alloc, &question)
}

/// Returns the path of the signer and the verdict on it.
fn verdict_on(alloc: Global, question: &Question) -> Result<String> {
    let mut certificates = Bundle::new(alloc, LIMIT);
    match certificates.feed(question.certificates.as_slice()) {
        Ok(()) => text_of_signer(alloc, question, &certificates),
        Err(_) => Err(Error::from(ErrorKind::Failed)),
    }
}

/// Returns the path of the signer among these certificates and the verdict on it.
fn text_of_signer(alloc: Global, question: &Question, certificates: &Bundle) -> Result<String>
    requires { 6 ≤ certificates.now.limit }
{
    let Some(place) = question.signer.find(certificates) else {
        return Ok(format!(in alloc; "no certificate of the signer\n")?);
    };
    let path = path_to(alloc, certificates, place, question.anchors.as_slice())?;
    match chain_of(alloc, certificates, path.as_slice()) {
        Ok(chain) => text_of_authorized(alloc, question, &chain),
        Err(_) => Err(Error::from(ErrorKind::Failed)),
    }
}

/// Returns the text of a chain, or that the signer of a response isn't authorized.
fn text_of_authorized(alloc: Global, question: &Question, chain: &Bundle) -> Result<String>
    requires { chain.now.standing ≡ Standing.Ended }
{
    if let Signer::OfResponse(_) = question.signer {
        if chain.len() != 1 || !has_purposes(alloc, chain)? {
            return Ok(format!(in alloc; "no authorized responder\n")?);
        }
    }
    text_of_chain(alloc, question, chain)
}

/// Returns whether the first certificate of a chain has an extKeyUsage, which `check` compares with
/// the key purpose.
fn has_purposes(alloc: Global, chain: &Bundle) -> Result<bool> {
    let Some(entry) = chain.get(0) else {
        return Ok(false);
    };
    let signed = entry.certificate.tbs_certificate();
    let purposes = signed.get_extension::<ExtendedKeyUsage>(alloc)?;
    Ok(purposes.is_some())
}

/// Returns the subjects of a chain, the verdict on it, and the lines for the verifier.
fn text_of_chain(alloc: Global, question: &Question, chain: &Bundle) -> Result<String>
    requires { chain.now.standing ≡ Standing.Ended }
{
    let mut text = subjects_of(alloc, chain)?;
    let verdict = verdict_of(alloc, question, chain)?;
    writeln!(text, "{verdict:?}")?;
    if let Verdict::Refused {
        rule: Rule::WrongSignature,
        ..
    } = verdict
    {
        let lines = chain_lines(alloc, question.anchors.as_slice(), chain)?;
        text.push_str(lines.as_str())?;
    }
    Ok(text)
}

/// Returns the verdict on a chain, with the verifier's answers of the question.
fn verdict_of(alloc: Global, question: &Question, chain: &Bundle) -> Result<Verdict>
    requires { chain.now.standing ≡ Standing.Ended }
{
    let purpose = question.signer.purpose();
    let mut judge = question.judge(alloc)?;
    let anchors = question.anchors.as_slice();
    match check(alloc, chain, anchors, question.moment, &purpose, &mut judge) {
        Ok(checked) => Ok(checked.verdict),
        Err(_) => Err(Error::from(ErrorKind::Failed)),
    }
}

/// Returns the subjects of a chain, each on a line.
fn subjects_of(alloc: Global, chain: &Bundle) -> Result<String> {
    let mut text = String::new(alloc);
    for place in 0..chain.len() {
        if let Some(entry) = chain.get(place) {
            let subject = entry.certificate.tbs_certificate().subject();
            writeln!(text, "{subject}")?;
        }
    }
    Ok(text)
}
