//! Questions about a signer.

use crate::signer::Signer;
use cert_desk_answers::answers_in;
use cert_desk_checking::Anchor;
use cert_desk_checking::desk_rules::AnswersJudge;
use der_core::{Error, ErrorKind, FromDer, Result};
use std::alloc::Global;
use x509_cert_certificates::CertificateInner;
use x509_cert_certificates::cert_parts::Raw;

/// A question about a signer.
#[derive(Drop)]
pub struct Question {
    /// The validation time.
    pub moment: u64,
    pub anchors: Vec<Anchor>,
    /// The certificates of the message or the response, one after another.
    pub certificates: Vec<u8>,
    pub signer: Signer,
    // The lines whose signatures a verifier accepted.
    answers: Vec<u8>,
}

impl Question {
    /// Returns the question of a line.
    pub fn read(alloc: Global, line: &str) -> Result<Question> {
        let mut words = line.split_whitespace();
        let Ok(moment) = words.next().unwrap_or("").parse::<u64>() else {
            return Err(Error::from(ErrorKind::Failed));
        };
        let anchor = octets_of(alloc, words.next().unwrap_or(""))?;
        let certificates = octets_of(alloc, words.next().unwrap_or(""))?;
        let signer = octets_of(alloc, words.next().unwrap_or(""))?;
        let answers = octets_of(alloc, words.next().unwrap_or(""))?;
        let mut anchors = Vec::new(alloc);
        anchors.push(anchor_of(alloc, anchor.as_slice())?)?;
        Ok(Question {
            moment,
            anchors,
            certificates,
            signer: Signer::read(alloc, signer.as_slice())?,
            answers,
        })
    }

    /// Returns a verifier that accepts what the answers list.
    pub fn judge(&self, alloc: Global) -> Result<AnswersJudge> {
        match answers_in(alloc, self.answers.as_slice()) {
            Ok(answers) => Ok(AnswersJudge::new(answers)),
            Err(_) => Err(Error::from(ErrorKind::Failed)),
        }
    }
}

/// Returns the subject and the key of a certificate as a trust anchor.
fn anchor_of(alloc: Global, octets: &[u8]) -> Result<Anchor> {
    let certificate = CertificateInner::<Raw>::from_der(alloc, octets)?;
    anchor_from(alloc, &certificate)
}

fn anchor_from(alloc: Global, certificate: &CertificateInner<Raw>) -> Result<Anchor> {
    let signed = certificate.tbs_certificate();
    let name = signed.subject().clone(alloc)?;
    let key = signed.subject_public_key_info().clone(alloc)?;
    Ok(Anchor::new(name, key))
}

/// Returns the bytes of a word in hex. The word `-` has none.
fn octets_of(alloc: Global, word: &str) -> Result<Vec<u8>> {
    if word == "-" {
        return Ok(Vec::new(alloc));
    }
    match hex::decode(alloc, word) {
        Ok(octets) => Ok(octets),
        Err(_) => Err(Error::from(ErrorKind::Failed)),
    }
}
