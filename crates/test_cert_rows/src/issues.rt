//! Runs of `issue` over inputs and outputs in memory.

use crate::files::file_of;
use crate::refusal::Refusal;
use crate::schedules::{Devices, Schedule};
use cert_desk::{Order, orders_in, run_issue, run_orders, run_orders_with_reasons};
use std::alloc::Global;
use std::str;

/// The output of a run.
#[derive(Drop)]
pub struct Told {
    pub status: u8,
    pub out: Vec<u8>,
    pub err: Vec<u8>,
}

/// Returns the output of a run on this file, whose input and two outputs move bytes by these
/// schedules. The run may say why it issues nothing.
pub fn run(alloc: Global, schedules: &str, says: bool, file: &[u8]) -> Result<Told, Refusal> {
    let Devices {
        input,
        output,
        errors,
    } = Devices::parse(alloc, schedules)?;
    let mut out_room = [0; 4096];
    let mut err_room = [0; 192];
    let mut out = output.output(&mut out_room);
    let mut err = errors.output(&mut err_room);
    let mut input = input.input(file);
    let status = if says {
        run_orders_with_reasons(alloc, &mut input, &mut out, &mut err)
    } else {
        run_orders(alloc, &mut input, &mut out, &mut err)
    };
    let status = status.code();
    let out = out.written().to_vec(alloc)?;
    let err = err.written().to_vec(alloc)?;
    Ok(Told { status, out, err })
}

/// Returns the output of the call for the orders of a file, in base 16. The two outputs move bytes
/// by these schedules.
pub fn answer_of_call(alloc: Global, schedules: &str, file: &str) -> Result<String, Refusal> {
    let (output, errors) = schedules.split_once('/').ok_or(Refusal::Unread)?;
    let output = Schedule::parse(alloc, output)?;
    let errors = Schedule::parse(alloc, errors)?;
    called(alloc, file, &output, &errors)
}

/// Returns the output of the call for the orders of a file.
fn called(
    alloc: Global,
    file: &str,
    output: &Schedule,
    errors: &Schedule,
) -> Result<String, Refusal> {
    let file = file_of(alloc, file)?;
    let orders = orders_in(alloc, file.as_slice())?;
    issued(alloc, orders.as_slice(), output, errors)
}

/// Returns the output of the call for these orders.
fn issued(
    alloc: Global,
    orders: &[Order],
    output: &Schedule,
    errors: &Schedule,
) -> Result<String, Refusal> {
    let mut out_room = [0; 4096];
    let mut err_room = [0; 64];
    let mut out = output.output(&mut out_room);
    let mut err = errors.output(&mut err_room);
    let status = run_issue(alloc, orders, &mut out, &mut err).code();
    outputs_told(alloc, status, out.written(), err.written())
}

/// Returns the status, the output in base 16, and the text on the error output.
fn outputs_told(alloc: Global, status: u8, out: &[u8], err: &[u8]) -> Result<String, Refusal> {
    let issued = hex::encode(alloc, out)?;
    let complained = str::from_utf8(err)?;
    Ok(format!(in alloc; "{status} {issued:?} {complained:?}")?)
}

/// Returns the output of a run, in base 16. The run may say why it issues nothing.
pub fn answer(alloc: Global, schedules: &str, says: bool, file: &str) -> Result<String, Refusal> {
    let file = file_of(alloc, file)?;
    let Told { status, out, err } = run(alloc, schedules, says, file.as_slice())?;
    outputs_told(alloc, status, out.as_slice(), err.as_slice())
}
