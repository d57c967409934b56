//! Runs of `check` over inputs and outputs in memory.

ghost use Rattle.std.specs.Prelude.{◌≤◌};

use crate::cuts;
use crate::judges::{FixedJudge, KeyJudge, OctetsJudge};
use crate::refusal::Refusal;
use crate::schedules::{Devices, Schedule};
use crate::words::{list_of, octets_of, told};
use cert_desk::{Arguments, DigestJudge, ExitStatus, SignatureJudge, USAGE, run_check};
use const_oid::ObjectIdentifier;
use std::alloc::Global;

/// The arguments of a run, with bytes in place of the files.
#[derive(Clone, Copy)]
pub struct Asked<'a> {
    pub anchors: &'a [u8],
    pub stream: &'a [u8],
    pub moment: u64,
    pub purpose: &'a ObjectIdentifier<39>,
    pub limit: u32,
}

/// The way in which a chain is read.
#[derive(Clone, Copy)]
pub enum How<'a> {
    /// Two inputs and two outputs move bytes by these schedules.
    Moved(&'a str),
    /// The chain is cut at each position, one after another, and byte by byte.
    Cut,
}

/// Returns the output of a run whose two inputs and two outputs move bytes by these schedules.
pub fn run<J: SignatureJudge>(
    alloc: Global,
    schedules: &str,
    asked: &Asked<'_>,
    judge: &mut J,
) -> Result<String, Refusal>
    requires { 6 ≤ asked.now.limit }
{
    let (anchors, rest) = schedules.split_once('/').ok_or(Refusal::Unread)?;
    let anchors = Schedule::parse(alloc, anchors)?;
    let Devices {
        input,
        output,
        errors,
    } = Devices::parse(alloc, rest)?;
    let mut out_room = [0; 64];
    let mut err_room = [0; 64];
    let mut out = output.output(&mut out_room);
    let mut err = errors.output(&mut err_room);
    let status = run_check(
        alloc,
        &mut anchors.input(asked.anchors),
        &mut input.input(asked.stream),
        &mut out,
        &mut err,
        asked.moment,
        asked.purpose,
        asked.limit,
        judge,
    );
    told(alloc, status.code(), out.written(), err.written())
}

/// Answers the words of a line. The first, in place of the program's name, names the verifier. For
/// a verifier of this crate, the number of questions follows the answer.
pub fn answer(alloc: Global, schedules: &str, line: &str) -> Result<String, Refusal> {
    let (name, _) = line.split_once(' ').ok_or(Refusal::Unread)?;
    let words: Vec<String> = line
        .split(' ')
        .map(|word| word.to_string(alloc))
        .try_collect(alloc)?;
    let Some(arguments) = Arguments::parse(words.as_slice()) else {
        return told(alloc, ExitStatus::Arguments.code(), b"", USAGE.as_bytes());
    };
    let anchors = octets_of(alloc, arguments.anchors)?;
    let stream = octets_of(alloc, arguments.stream)?;
    let asked = Asked {
        anchors: anchors.as_slice(),
        stream: stream.as_slice(),
        moment: arguments.moment,
        purpose: &arguments.purpose,
        limit: arguments.limit,
    };
    judged(alloc, How::Moved(schedules), name, &asked)
}

/// Returns the result for a chain that is read in this way.
fn told_of<J: SignatureJudge>(
    alloc: Global,
    how: How<'_>,
    asked: &Asked<'_>,
    judge: &mut J,
) -> Result<String, Refusal>
    requires { 6 ≤ asked.now.limit }
{
    match how {
        How::Moved(schedules) => run(alloc, schedules, asked, judge),
        How::Cut => cuts::told(alloc, asked, judge),
    }
}

/// Returns the answer with a verifier.
pub fn judged(alloc: Global, how: How<'_>, name: &str, asked: &Asked<'_>) -> Result<String, Refusal>
    requires { 6 ≤ asked.now.limit }
{
    let (judge, octets) = name.split_once(':').unwrap_or((name, "-"));
    match judge {
        "digest" => told_of(alloc, how, asked, &mut DigestJudge::new()),
        "yes" | "no" => {
            let mut judge = FixedJudge {
                answer: judge == "yes",
                questions: 0,
            };
            let text = told_of(alloc, how, asked, &mut judge);
            counted(alloc, text, judge.questions)
        }
        "octets" => {
            let list = list_of(alloc, octets)?;
            let mut judge = OctetsJudge {
                list: list.as_slice(),
                questions: 0,
            };
            let text = told_of(alloc, how, asked, &mut judge);
            counted(alloc, text, judge.questions)
        }
        "key" => {
            let octets = octets_of(alloc, octets)?;
            let mut judge = KeyJudge {
                octets: octets.as_slice(),
                questions: 0,
            };
            let text = told_of(alloc, how, asked, &mut judge);
            counted(alloc, text, judge.questions)
        }
        _ => Err(Refusal::Unread),
    }
}

/// Returns the result, and the number of questions to the verifier.
fn counted(
    alloc: Global,
    text: Result<String, Refusal>,
    questions: u64,
) -> Result<String, Refusal> {
    let text = text?;
    Ok(format!(in alloc; "{text} asked={questions}")?)
}
