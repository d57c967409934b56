//! The program `cert_desk`:
//!
//! - `cert_desk check ANCHORS STREAM MOMENT PURPOSE LIMIT` validates a certificate chain.
//! - `cert_desk show KIND FILE` prints the contents of a certificate, a CRL or a CSR.
//! - `cert_desk issue ORDERS` issues the chain that an orders file asks for.
#![tactic(auto)]

use cert_desk::{DigestJudge, ExitStatus, HostFiles, ToWrite, USAGE, obey_with_reasons, words_of};
use std::io;
use std::process::ExitCode;

fn main(rt: HostRuntime) -> ExitCode {
    ExitCode::from(run(&rt).code())
}

/// Runs the command that the arguments name, and returns the exit status.
fn run(rt: &HostRuntime) -> ExitStatus {
    let mut err = ToWrite::new(rt.stderr());
    let words = match words_of(rt, &mut err, USAGE.as_bytes()) {
        Ok(words) => words,
        Err(status) => return status,
    };
    obey_with_reasons(
        rt.alloc(),
        &HostFiles::new(rt, None),
        words.as_slice(),
        &mut ToWrite::new(io::writer(rt)),
        &mut err,
        &mut DigestJudge::new(),
    )
}
