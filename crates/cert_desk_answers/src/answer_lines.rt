//! Files of a signature verifier's answers.
ghost use Rattle.std.specs.Prelude.{◌≡◌, ◌≤◌, ◌∷◌, length, map, IfOk, IfErr, OnOk, Some, Ok};
ghost use Rattle.std.specs.List.{list_all};
ghost use Rattle.cert_desk_checking.specs.Der.Grammar.{read_whole};
ghost use Rattle.cert_desk_checking.specs.CertParts.Views.{algorithm_plain, key_plain};
ghost use Rattle.cert_desk_checking.specs.DeskRules.Answers.{answer_plain};
ghost use Rattle.cert_desk_answers.specs.AnswerLines.{algorithm_in, bits_in, file_says, is_anchor};
ghost use Rattle.cert_desk_answers.specs.AnswerLines.{is_digit, is_number, is_skipped, key_in};
ghost use Rattle.cert_desk_answers.specs.AnswerLines.{line_says, octets_in, parts, question_in};
ghost use Rattle.cert_desk_answers.specs.AnswerLines.{said, six_say, value_or, words_say};
ghost use Rattle.cert_desk_answers.specs.AnswerReading.{FailsBy, IsNoFile, IsNoLine, added_by};
ghost use Rattle.cert_desk_answers.specs.AnswerReading.{parts_left, six_or_none, size_left};

use crate::line_fault::LineFault;
use crate::no_answers::NoAnswers;
use cert_desk_checking::cert_parts::{AlgorithmIdentifier, SubjectPublicKeyInfo};
use cert_desk_checking::der::making::read_whole;
use cert_desk_checking::der::{Decode, ErrorKind, SliceReader};
use cert_desk_checking::desk_rules::Answer;
use cert_desk_checking::types::BitString;
use hex::FromHexError;
use memchr::memchr;
use std::alloc::Global;

// Why a line can't be parsed.
#[derive(Clone, Copy)]
enum LineError {
    Fault(LineFault),
    OutOfMemory,
}

// Decodes a text in base 16. Returns `fault` if it isn't one.
fn octets_of(alloc: Global, text: &[u8], fault: LineFault) -> Result<Vec<u8>, LineError>
    ensures read { IfOk result (λ octets. octets_in fault text.now ≡ Ok octets.items) }
    ensures refused { IfErr result (FailsBy (octets_in fault text.now)) }
{
    match hex::decode(alloc, text) {
        Ok(octets) => Ok(octets),
        Err(FromHexError::OutOfMemory) => Err(LineError::OutOfMemory),
        Err(_) => Err(LineError::Fault(fault)),
    }
}

// Decodes a value from all of the bytes. Returns `fault` if they don't encode one.
fn value_of<'a, T: Decode<'a, SliceReader<'a>>>(
    alloc: Global,
    octets: &'a [u8],
    fault: LineFault,
) -> Result<T, LineError>
    ensures read { IfOk result (λ value. value_or fault (read_whole T.shape octets.now)
        ≡ Ok (T.plain value)) }
    ensures refused { IfErr result (FailsBy (value_or fault (read_whole T.shape octets.now))) }
{
    match read_whole::<T>(alloc, octets) {
        Ok(value) => Ok(value),
        Err(error) => match error.kind {
            ErrorKind::OutOfMemory => Err(LineError::OutOfMemory),
            _ => Err(LineError::Fault(fault)),
        },
    }
}

// Decodes a public key from its encoding in base 16.
fn key_of(alloc: Global, text: &[u8]) -> Result<SubjectPublicKeyInfo, LineError>
    ensures read { IfOk result (λ key. key_in text.now ≡ Ok (key_plain key)) }
    ensures refused { IfErr result (FailsBy (key_in text.now)) }
{
    let octets = octets_of(alloc, text, LineFault::KeyNotBase16)?;
    let key = value_of::<SubjectPublicKeyInfo>(alloc, octets.as_slice(), LineFault::NoKey)?;
    Ok(key)
}

// Decodes a signature algorithm from its encoding in base 16.
fn algorithm_of(alloc: Global, text: &[u8]) -> Result<AlgorithmIdentifier, LineError>
    ensures read { IfOk result (λ algorithm. algorithm_in text.now
        ≡ Ok (algorithm_plain algorithm)) }
    ensures refused { IfErr result (FailsBy (algorithm_in text.now)) }
{
    let octets = octets_of(alloc, text, LineFault::AlgorithmNotBase16)?;
    let fault = LineFault::NoAlgorithm;
    let algorithm = value_of::<AlgorithmIdentifier>(alloc, octets.as_slice(), fault)?;
    Ok(algorithm)
}

// Decodes the bits of a signature from their encoding in base 16.
fn bits_of(alloc: Global, text: &[u8]) -> Result<BitString, LineError>
    ensures read { IfOk result (λ bits. bits_in text.now ≡ Ok bits) }
    ensures refused { IfErr result (FailsBy (bits_in text.now)) }
{
    let octets = octets_of(alloc, text, LineFault::BitsNotBase16)?;
    let bits = value_of::<BitString>(alloc, octets.as_slice(), LineFault::NoBits)?;
    Ok(bits)
}

// Returns whether a byte is a decimal digit.
fn is_digit(octet: u8) -> bool
    ensures { result ≡ is_digit octet }
{
    octet >= b'0' && octet <= b'9'
}

// Returns whether each byte is a decimal digit.
fn are_digits(text: &[u8]) -> bool
    ensures { result ≡ list_all is_digit text.now }
{
    text.iter().all(|octet| is_digit(*octet))
}

// Returns whether the text consists of one or more decimal digits.
fn is_number(text: &[u8]) -> bool
    ensures { result ≡ is_number text.now }
{
    if text.is_empty() {
        return false;
    }
    are_digits(text)
}

// Returns whether the text is the index of a trust anchor, or `-`.
fn is_anchor(text: &[u8]) -> bool
    ensures { result ≡ is_anchor text.now }
{
    is_number(text) || text == b"-".as_slice()
}

// Returns the answer with these words.
fn answer_of(
    alloc: Global,
    key: &[u8],
    algorithm: &[u8],
    signed: &[u8],
    bits: &[u8],
) -> Result<Answer, LineError>
    ensures read { IfOk result (λ answer.
        question_in key.now algorithm.now signed.now bits.now ≡ Ok (answer_plain answer)) }
    ensures refused { IfErr result
        (FailsBy (question_in key.now algorithm.now signed.now bits.now)) }
{
    let key = key_of(alloc, key)?;
    let algorithm = algorithm_of(alloc, algorithm)?;
    let signed = octets_of(alloc, signed, LineFault::SignedNotBase16)?;
    let bits = bits_of(alloc, bits)?;
    Ok(Answer {
        key,
        algorithm,
        signed,
        bits,
    })
}

// Returns the part of a text before the first separator, and the text after this separator.
fn cut(text: &[u8], separator: u8) -> (&[u8], Option<&[u8]>)
    ensures parts { parts separator text.now ≡ result.0.now ∷ parts_left separator result.1 }
    ensures shorter { size_left result.1 ≤ length text.now }
{
    match memchr(separator, text) {
        None => (text, None),
        Some(at) => (&text[..at], Some(&text[at + 1..])),
    }
}

// The six words of a line.
#[derive(Clone, Copy)]
struct Words<'a> {
    place: &'a [u8],
    anchor: &'a [u8],
    key: &'a [u8],
    algorithm: &'a [u8],
    signed: &'a [u8],
    bits: &'a [u8],
}

// Returns the words of a line, if there are six.
fn six_words(line: &[u8]) -> Option<Words<'_>>
    ensures { words_say (parts 32 line.now) ≡ six_or_none result }
{
    let (place, Some(rest)) = cut(line, b' ') else {
        return None;
    };
    let (anchor, Some(rest)) = cut(rest, b' ') else {
        return None;
    };
    let (key, Some(rest)) = cut(rest, b' ') else {
        return None;
    };
    let (algorithm, Some(rest)) = cut(rest, b' ') else {
        return None;
    };
    let (signed, Some(rest)) = cut(rest, b' ') else {
        return None;
    };
    match cut(rest, b' ') {
        (_, Some(_)) => None,
        (bits, None) => Some(Words {
            place,
            anchor,
            key,
            algorithm,
            signed,
            bits,
        }),
    }
}

// Returns whether a line is skipped: it is empty, or begins with `#`.
fn is_skipped(line: &[u8]) -> bool
    ensures { result ≡ is_skipped line.now }
{
    match line.first() {
        None => true,
        Some(first) => *first == b'#',
    }
}

// Parses the six words of a line and appends its answer.
fn add_by_six(
    alloc: Global,
    place: &[u8],
    anchor: &[u8],
    key: &[u8],
    algorithm: &[u8],
    signed: &[u8],
    bits: &[u8],
    answers: &mut Vec<Answer>,
) -> Result<(), LineError>
    ensures read { OnOk result (added_by (said (six_say place.now anchor.now key.now algorithm.now
        signed.now bits.now)) (map answer_plain answers.old.items)
        ≡ Some (map answer_plain answers.new.items)) }
    ensures refused { IfErr result (FailsBy (six_say place.now anchor.now key.now algorithm.now
        signed.now bits.now)) }
{
    if !is_number(place) {
        return Err(LineError::Fault(LineFault::NoPlace));
    }
    if !is_anchor(anchor) {
        return Err(LineError::Fault(LineFault::NoAnchor));
    }
    let answer = answer_of(alloc, key, algorithm, signed, bits)?;
    if answers.push(answer).is_err() {
        return Err(LineError::OutOfMemory);
    }
    Ok(())
}

// Parses the words of a line and appends its answer.
fn add_by_words(alloc: Global, line: &[u8], answers: &mut Vec<Answer>) -> Result<(), LineError>
    ensures read { OnOk result (added_by (said (words_say (parts 32 line.now)))
        (map answer_plain answers.old.items) ≡ Some (map answer_plain answers.new.items)) }
    ensures refused { IfErr result (FailsBy (words_say (parts 32 line.now))) }
{
    let Some(words) = six_words(line) else {
        return Err(LineError::Fault(LineFault::NotSixWords));
    };
    add_by_six(
        alloc,
        words.place,
        words.anchor,
        words.key,
        words.algorithm,
        words.signed,
        words.bits,
        answers,
    )?;
    Ok(())
}

// Parses one line and appends its answer, unless the line is skipped.
#[tactic(auto, unfolding(crate::specs::AnswerLines::line_says))]
fn add_line(alloc: Global, line: &[u8], answers: &mut Vec<Answer>) -> Result<(), LineError>
    ensures read { OnOk result (added_by (line_says line.now) (map answer_plain answers.old.items)
        ≡ Some (map answer_plain answers.new.items)) }
    ensures refused { IfErr result (FailsBy (line_says line.now)) }
{
    if is_skipped(line) {
        return Ok(());
    }
    add_by_words(alloc, line, answers)?;
    Ok(())
}

// Parses the line with this number and appends its answer, unless the line is skipped.
fn read_line(
    alloc: Global,
    number: u64,
    line: &[u8],
    answers: &mut Vec<Answer>,
) -> Result<(), NoAnswers>
    ensures read { OnOk result (added_by (line_says line.now) (map answer_plain answers.old.items)
        ≡ Some (map answer_plain answers.new.items)) }
    ensures refused { IfErr result (IsNoLine line.now number) }
{
    match add_line(alloc, line, answers) {
        Ok(()) => Ok(()),
        Err(LineError::Fault(fault)) => Err(NoAnswers::Line { number, fault }),
        Err(LineError::OutOfMemory) => Err(NoAnswers::OutOfMemory),
    }
}

/// Parses a file of answers. Each line is `PLACE ANCHOR KEY ALGORITHM SIGNED BITS`, with one space
/// between the words, and ends with LF or the file.
///
/// `PLACE` consists of decimal digits, and so does `ANCHOR`, or it is `-`; neither is interpreted.
/// The other words are in base 16, in either case: the encoding of a SubjectPublicKeyInfo (RFC 5280
/// 4.1.2.7), that of an AlgorithmIdentifier (RFC 5280 4.1.1.2), the signed bytes, and the encoding
/// of a BIT STRING. Empty lines and lines that begin with `#` are skipped.
///
/// # Errors
///
/// - `Line`: a line isn't an answer. The first such line is reported, with the first reason.
/// - `OutOfMemory`: memory runs out.
pub fn answers_in(alloc: Global, octets: &[u8]) -> Result<Vec<Answer>, NoAnswers>
    ensures read { IfOk result (λ answers. file_says octets.now
        ≡ Ok (map answer_plain answers.items)) }
    ensures refused { IfErr result (IsNoFile octets.now) }
{
    let mut answers = Vec::new(alloc);
    let mut number = 0u64;
    let mut rest = Some(octets);
    'lines: while let Some(text) = rest {
        let (line, more) = cut(text, b'\n');
        number = number.saturating_add(1);
        if let Err(fault) = read_line(alloc, number, line, &mut answers) {
            return Err(fault);
        }
        rest = more;
    }
    Ok(answers)
}
