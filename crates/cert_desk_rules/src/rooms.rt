//! Texts in the caller's buffers.
ghost use Rattle.std.specs.Prelude.{◌≡◌, ◌≤◌, ◌<◌, ◌⊎◌, length, take};
ghost use Rattle.cert_desk_bundle.specs.DeskIo.declared.exit_status.ExitStatus.TheVariants.{Done};
ghost use Rattle.cert_desk_bundle.specs.DeskIo.declared.exit_status.ExitStatus.TheVariants.{Device};
ghost use Rattle.cert_desk_bundle.specs.DeskIo.Statuses.{code_of};
ghost use Rattle.cert_desk_rules.specs.Rooms.{ChangesFront};

use cert_desk_bundle::desk_io::ExitStatus;

/// Returns the number of a status.
pub fn code(status: ExitStatus) -> u32
    ensures { result ≡ code_of status }
{
    u32::from(status.code())
}

/// Copies the bytes to the beginning of a buffer and stores their number in `size`. If the buffer
/// is too small, only stores the number and returns the code of `Device`.
pub fn give(octets: &[u8], out: &mut [u8], size: &mut usize) -> u32
    ensures number { size.new ≡ length octets.now }
    ensures status { (result ≡ code_of Done) ⊎ (result ≡ code_of Device) }
    ensures done { result ≡ code_of Done → take size.new out.new ≡ octets.now }
    ensures fits { result ≡ code_of Done → length octets.now ≤ length out.old }
    ensures front { result ≡ code_of Done → ChangesFront size.new out.old out.new }
    ensures no_room { result ≡ code_of Device → length out.old < length octets.now }
    ensures untouched { result ≡ code_of Device → out.new ≡ out.old }
{
    *size = octets.len();
    if octets.len() > out.len() {
        return code(ExitStatus::Device);
    }
    out[..octets.len()].copy_from_slice(octets);
    code(ExitStatus::Done)
}
