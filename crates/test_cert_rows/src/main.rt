//! Answers questions about certificates, chains, listings and issued chains. Each line of standard
//! input is a question, and each line of standard output is its answer.
//!
//! | Question | Answer |
//! |---|---|
//! | `certificate HEX` | `ok` and the parts of the certificate that the bytes encode |
//! | `sha256 HEX` | the digest of the certificate that the bytes encode, in base 16 |
//! | `JUDGE check ANCHORS STREAM MOMENT PURPOSE LIMIT` | `STATUS OUTPUT ERRORS`: the output of the program with these arguments, with bytes in place of the files |
//! | `pieces SCHEDULE/SCHEDULE/SCHEDULE/SCHEDULE JUDGE check ..` | the same, where the trust anchors, the chain, the output and the error output move bytes by these schedules |
//! | `bundle LIMIT SCHEDULE HEX CALL ..` | the result of each call of a bundle, and the state of it and of its input. `HEX` is a piece, `end` ends the input, `read` reads the input, `check` validates with the program's verifier, `unfinished` is the number of bytes kept of an incomplete certificate, and `reasons` is why each certificate breaks each rule for servers, for rules that can be broken in several ways |
//! | `split LIMIT HEX` | the number of certificates with which the bytes begin, and of their bytes, found by the plain split and by a bundle |
//! | `cuts LIMIT JUDGE HEX` | `N: VERDICT cuts=M`: the number of certificates and the verdict on a chain of M bytes in one piece, if it gives the same certificates and the same verdict when it is cut in two at each position, and byte by byte. Otherwise the first cut that doesn't |
//! | `fronts LIMIT HEX` | the end of each prefix of the chain. Consecutive prefixes with the same end are combined |
//! | `again LIMIT HEX` | the state of a bundle that has read the chain, and the verdict with the program's verifier. If memory runs out for the bundle, it has to keep the certificates that it had read and to reject all calls, and another one reads the chain. Otherwise the answer is `changed`. If memory runs out for the verdict, the chain is validated again |
//! | `input SCHEDULE HEX` | the bytes that each of six reads of an input gives into a buffer of 4 bytes, and the number of failed reads |
//! | `output SCHEDULE HEX ..` | whether an output with a capacity of 64 bytes accepts each text, the bytes that it accepted, and the number of failed writes |
//! | `errors` | the text of each error: of a bundle, of reading, of a check, of inputs and outputs, of trust anchors, and of reading a whole input |
//! | `listing show KIND HEX` | `STATUS OUTPUT ERRORS`: the output of a run of `show`, with bytes in place of the file |
//! | `listing pieces SCHEDULE/SCHEDULE/SCHEDULE KIND HEX` | the same, where the input, the output and the error output move bytes by these schedules |
//! | `listing call SCHEDULE KIND HEX` | the result of the call for one value, and the content of an output that moves bytes by this schedule |
//! | `issue read FILE` | `ok N`: the number of orders of a file, and each of them; or the error |
//! | `issue run FILE` | `STATUS OUTPUT ERRORS`: the output of a run of `issue`, in base 16 |
//! | `issue pieces SCHEDULE/SCHEDULE/SCHEDULE FILE` | the same, where the input, the output and the error output move bytes by these schedules |
//! | `issue why SCHEDULE/SCHEDULE/SCHEDULE FILE` | the same for a run that says why it issues nothing |
//! | `issue call SCHEDULE/SCHEDULE FILE` | the same for the call for the orders of a file, where the output and the error output move bytes by these schedules |
//! | `issue digest KEY HEX` | the signature of a signer of digests with this key over these bytes; `changed` if it signs differently with random bytes |
//! | `issue audit SIGNERS LIMIT MOMENT PURPOSE FILE` | the verdict on the chain that is issued for the file's orders, with the digest verifier, or why none is issued |
//! | `issue again SIGNERS FILE` | the bytes of the issued chain. If memory runs out, it is issued again |
//! | `issue check LIMIT MOMENT PURPOSE FILE` | `STATUS OUTPUT ERRORS`: the output of a run of `check` over the chain that a run of `issue` wrote, under its first certificate |
//! | `issue show PLACE FILE` | `STATUS OUTPUT ERRORS`: the output of a run of `show` over the certificate at an index of that chain |
//! | an empty line, or one that begins with `#` | the same line |
//! | any other line | `?` |
//!
//! `HEX`, `KEY`, `ANCHORS` and `STREAM` are bytes in base 16, with `-` for none, and `HEX*N` is N
//! times `HEX`. A `KIND` is `certificate`, `list` or `request`. A `FILE` is the lines of an orders
//! file with `|` between them, or `0x` and its bytes in base 16. A `SCHEDULE` is the sizes of the
//! first pieces, separated by commas, with `-` for none, and `!N` after them if the Nth call fails.
//!
//! A `JUDGE` is one of these signature verifiers. The number of questions follows the answer with
//! the last four:
//!
//! - `digest`: the verifier of the program.
//! - `yes`, `no`: one that accepts every signature, or none.
//! - `octets:HEX,HEX..`: one that accepts signatures over these bytes only.
//! - `key:HEX`: one that accepts signatures under keys with these bytes only.
//!
//! `cuts`, and `check` of a bundle, validate for servers at 2002-01-01T12:01:00Z, under a trust
//! anchor with an empty name and a key of one byte 00.
//!
//! `SIGNERS` are one of these:
//!
//! - `digest`: signers of digests with the orders' keys.
//! - `refuses:HEX`, `memory:HEX`: signers that reject everything that contains these bytes, or run
//!   out of memory for it.
//! - `empty`: signers whose signatures are empty.
//! - `stranger:N`: the signer at index N has another key.
//! - `count:N`: there are N signers.
//!
//! The answer is `refused KIND` if the question fails with an error, and `memory` if memory runs
//! out.
#![tactic(auto)]

mod audits;
mod bundles;
mod certificates;
mod chains;
mod checks;
mod cuts;
mod devices;
mod digests;
mod errors;
mod files;
mod issues;
mod judges;
mod lines;
mod listings;
mod odd_signer;
mod plain_split;
mod readings;
mod refusal;
mod schedules;
mod splits;
mod words;

use lines::answer;
use std::io;
use std::io::{BufWriter, Write};

fn main(rt: HostRuntime) -> io::Result<()> {
    let alloc = rt.alloc();
    let mut out = BufWriter::new(alloc, io::writer(&rt))?;
    for line in rt.lines(alloc) {
        answer(alloc, line?.as_str(), &mut out)?;
    }
    out.flush()
}
