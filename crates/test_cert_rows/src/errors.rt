//! The texts of errors.

use crate::refusal::Refusal;
use cert_desk::{
    AnchorError, BundleError, CheckError, DeviceError, FaultKind, ReadAllError, ReadError,
};
use std::alloc::{AllocError, Global};
use std::fmt::Write;

/// Returns the text of each error: of a bundle, of reading, of a check, of inputs and outputs, of
/// trust anchors, and of reading a whole input.
pub fn answer(alloc: Global) -> Result<String, Refusal> {
    let mut text = String::new(alloc);
    write_bundles(&mut text)?;
    write_checks(&mut text)?;
    write_inputs(&mut text)?;
    Ok(text)
}

fn write_bundles(text: &mut String) -> Result<(), AllocError> {
    let fault = BundleError::Fault {
        place: 1,
        offset: 68,
        kind: FaultKind::Malformed,
    };
    let [memory, failed] = [BundleError::OutOfMemory, BundleError::Failed];
    write!(text, "{fault}; {memory}; {failed} | ")?;
    let [device, fault] = [ReadError::Device, ReadError::Bundle(fault)];
    write!(text, "{device}; {fault}")
}

fn write_checks(text: &mut String) -> Result<(), AllocError> {
    let [memory, device] = [CheckError::OutOfMemory, CheckError::Device];
    write!(text, " | {memory}; {device} | {DeviceError}")
}

fn write_inputs(text: &mut String) -> Result<(), AllocError> {
    let [name, controls, memory] = [
        AnchorError::NoName,
        AnchorError::PathControls,
        AnchorError::OutOfMemory,
    ];
    write!(text, " | {name}; {controls}; {memory}")?;
    let [much, device, memory] = [
        ReadAllError::TooMuch,
        ReadAllError::Device,
        ReadAllError::OutOfMemory,
    ];
    write!(text, " | {much}; {device}; {memory}")
}
