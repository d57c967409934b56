//! Runs commands over named inputs.
ghost use Rattle.std.specs.Prelude.{◌≤◌, map, string_bytes};
ghost use Rattle.cert_desk_listing.specs.DeskIo.Devices.{sink};
ghost use Rattle.cert_desk_listing.specs.DeskIo.NamedInputs.{inputs};
ghost use Rattle.cert_desk_checking.specs.Runs.{judging};
ghost use Rattle.cert_desk.specs.Commands.{HasLimit};
ghost use Rattle.cert_desk.specs.Explaining.{IsCommandExplained, IsNameExplained};
ghost use Rattle.cert_desk.specs.Running.{IsChecked, IsShown, IsIssued, IsRun, IsObeyed};

use crate::command::{Arguments, Command, USAGE, chain_asked};
use crate::order_runs::{add, run_orders, run_orders_with_reasons};
use cert_desk_checking::desk_rules::SignatureJudge;
use cert_desk_checking::run_check;
use cert_desk_listing::desk_io::{
    ExitStatus, Input, NamedInputs, OpenError, Output, complain, tell_device, tell_memory,
    tell_unopened,
};
use cert_desk_listing::{FileKind, run_show};
use std::alloc::Global;

// Opens the inputs of a check and runs it.
fn check<I: Input + Drop, F: NamedInputs<I>, O: Output, E: Output, J: SignatureJudge>(
    alloc: Global,
    files: &F,
    arguments: &Arguments<'_>,
    out: &mut O,
    err: &mut E,
    judge: &mut J,
) -> ExitStatus
    requires { 6 ≤ arguments.now.limit }
    ensures told { IsChecked (inputs I.takes I.is_ended I.failures (F.is_opened files.now)
        (F.is_unopened files.now))
        (judging J.answers J.questions judge.old judge.new)
        (sink O.gives O.failures out.old out.new) (sink E.gives E.failures err.old err.new)
        arguments.now result }
{
    let mut anchors = match files.open(arguments.anchors) {
        Ok(anchors) => anchors,
        Err(error) => return tell_unopened(err, error),
    };
    let mut stream = match files.open(arguments.stream) {
        Ok(stream) => stream,
        Err(error) => return tell_unopened(err, error),
    };
    run_check(
        alloc,
        &mut anchors,
        &mut stream,
        out,
        err,
        arguments.moment,
        &arguments.purpose,
        arguments.limit,
        judge,
    )
}

// Opens an input and prints its contents.
fn show<I: Input + Drop, F: NamedInputs<I>, O: Output, E: Output>(
    alloc: Global,
    files: &F,
    kind: FileKind,
    file: &str,
    out: &mut O,
    err: &mut E,
) -> ExitStatus
    ensures told { IsShown (inputs I.takes I.is_ended I.failures (F.is_opened files.now)
        (F.is_unopened files.now))
        (sink O.gives O.failures out.old out.new) (sink E.gives E.failures err.old err.new)
        kind file.now result }
{
    let mut input = match files.open(file) {
        Ok(input) => input,
        Err(error) => return tell_unopened(err, error),
    };
    run_show(alloc, &mut input, out, err, kind)
}

// Opens an orders file and issues the chain that it asks for.
fn issue<I: Input + Drop, F: NamedInputs<I>, O: Output, E: Output>(
    alloc: Global,
    files: &F,
    orders: &str,
    out: &mut O,
    err: &mut E,
) -> ExitStatus
    ensures told { IsIssued (inputs I.takes I.is_ended I.failures (F.is_opened files.now)
        (F.is_unopened files.now))
        (sink O.gives O.failures out.old out.new) (sink E.gives E.failures err.old err.new)
        orders.now result }
{
    let mut input = match files.open(orders) {
        Ok(input) => input,
        Err(error) => return tell_unopened(err, error),
    };
    run_orders(alloc, &mut input, out, err)
}

// Opens an orders file, issues the chain that it asks for, and says why if it can't.
fn issue_with_reasons<I: Input + Drop, F: NamedInputs<I>, O: Output, E: Output>(
    alloc: Global,
    files: &F,
    orders: &str,
    out: &mut O,
    err: &mut E,
) -> ExitStatus
    ensures { (told : E)
        × IsIssued (inputs I.takes I.is_ended I.failures (F.is_opened files.now)
        (F.is_unopened files.now))
        (sink O.gives O.failures out.old out.new) (sink E.gives E.failures err.old told)
        orders.now result
        × IsNameExplained (inputs I.takes I.is_ended I.failures (F.is_opened files.now)
        (F.is_unopened files.now))
        (sink O.gives O.failures out.old out.new) (sink E.gives E.failures err.old told)
        (sink E.gives E.failures told err.new) orders.now result }
{
    match files.open(orders) {
        Ok(mut input) => run_orders_with_reasons(alloc, &mut input, out, err),
        Err(OpenError::Device) => {
            let status = tell_device(err);
            add(err, b"orders: the file can't be opened\n");
            status
        }
        Err(OpenError::OutOfMemory) => tell_memory(err),
    }
}

// Runs a command.
fn run<I: Input + Drop, F: NamedInputs<I>, O: Output, E: Output, J: SignatureJudge>(
    alloc: Global,
    files: &F,
    command: &Command<'_>,
    out: &mut O,
    err: &mut E,
    judge: &mut J,
) -> ExitStatus
    requires { HasLimit command.now }
    ensures told { IsRun (inputs I.takes I.is_ended I.failures (F.is_opened files.now)
        (F.is_unopened files.now))
        (judging J.answers J.questions judge.old judge.new)
        (sink O.gives O.failures out.old out.new) (sink E.gives E.failures err.old err.new)
        command.now result }
{
    match command {
        Command::Check(arguments) => check(alloc, files, arguments, out, err, judge),
        Command::Show { kind, file } => show(alloc, files, *kind, *file, out, err),
        Command::Issue { orders } => issue(alloc, files, *orders, out, err),
    }
}

/// Parses the words of a command line, the first of which is the program's name, and runs the
/// command on the inputs that it names. Returns the exit status. `Command::parse` has the commands.
/// If there is no command, `USAGE` is written to `err`.
pub fn obey<I: Input + Drop, F: NamedInputs<I>, O: Output, E: Output, J: SignatureJudge>(
    alloc: Global,
    files: &F,
    words: &[String],
    out: &mut O,
    err: &mut E,
    judge: &mut J,
) -> ExitStatus
    ensures obeyed { IsObeyed (inputs I.takes I.is_ended I.failures (F.is_opened files.now)
        (F.is_unopened files.now))
        (judging J.answers J.questions judge.old judge.new)
        (sink O.gives O.failures out.old out.new) (sink E.gives E.failures err.old err.new)
        (map string_bytes words.now) result }
{
    match Command::parse(words) {
        Some(command) => run(alloc, files, &command, out, err, judge),
        None => complain(err, USAGE.as_bytes(), ExitStatus::Arguments),
    }
}

/// Runs the command that the words of a command line ask for, as `obey` does. If that is `issue`,
/// and no chain is issued, `err` gets one more line, which says why, as for
/// `run_orders_with_reasons`, or that the file can't be opened.
pub fn obey_with_reasons<
    I: Input + Drop,
    F: NamedInputs<I>,
    O: Output,
    E: Output,
    J: SignatureJudge,
>(alloc: Global, files: &F, words: &[String], out: &mut O, err: &mut E, judge: &mut J) -> ExitStatus
    // The command is obeyed as by `obey`, and then the reason is added.
    ensures { (told : E)
        × IsObeyed (inputs I.takes I.is_ended I.failures (F.is_opened files.now)
        (F.is_unopened files.now))
        (judging J.answers J.questions judge.old judge.new)
        (sink O.gives O.failures out.old out.new) (sink E.gives E.failures err.old told)
        (map string_bytes words.now) result
        × IsCommandExplained (inputs I.takes I.is_ended I.failures (F.is_opened files.now)
        (F.is_unopened files.now))
        (sink O.gives O.failures out.old out.new) (sink E.gives E.failures err.old told)
        (sink E.gives E.failures told err.new) (map string_bytes words.now) result }
{
    match chain_asked(words) {
        Some(orders) => issue_with_reasons(alloc, files, orders, out, err),
        None => obey(alloc, files, words, out, err, judge),
    }
}
