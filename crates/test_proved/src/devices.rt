//! Tests of readers and writers that fail, of inputs that are read to their end, and of outputs
//! into borrowed memory.
ghost use Rattle.std.specs.Prelude.{◌≡◌, take, IfSome};

use cert_desk_io::{
    DeviceError, FromRead, Input, MemoryInput, MemoryOutput, ReadAllError, ToWrite, read_all,
    write_all,
};
use std::alloc::Global;
use std::io;
use std::io::{Cursor, ErrorKind, Read, Write};
use std::test::Fail;

/// A reader or writer whose second call is interrupted and whose third call moves no bytes. It
/// writes at most 4 bytes at a time.
#[derive(Drop)]
struct Faulty<T> {
    inner: T,
    calls: u64,
}

impl<R: Read> Read for Faulty<R> {
    fn read(&mut self, buf: &mut [u8]) -> io::Result<usize> {
        self.calls = self.calls.saturating_add(1);
        match self.calls {
            2 => Err(io::Error::new(ErrorKind::Interrupted, "interrupted")),
            3 => Ok(0),
            _ => self.inner.read(buf),
        }
    }
}

impl<W: Write> Write for Faulty<W> {
    fn write(&mut self, buf: &[u8]) -> io::Result<usize> {
        self.calls = self.calls.saturating_add(1);
        match self.calls {
            2 => Err(io::Error::new(ErrorKind::Interrupted, "interrupted")),
            3 => Ok(0),
            _ => self.inner.write(&buf[..buf.len().min(4)]),
        }
    }

    fn flush(&mut self) -> io::Result<()> {
        self.inner.flush()
    }
}

/// Returns whether a read into a buffer of 4 bytes gives these bytes, or fails.
fn gives<I: Input>(input: &mut I, octets: Result<&str, DeviceError>) -> bool {
    let mut buffer = [0; 4];
    match (input.read(&mut buffer), octets) {
        (Ok(count), Ok(text)) => &buffer[..count] == text.as_bytes(),
        (Err(DeviceError), Err(DeviceError)) => true,
        _ => false,
    }
}

/// A failed read isn't tried again, and the next read after an error or the end continues.
#[test]
fn counts_the_errors_of_a_reader(rt: HostRuntime) {
    let inner = Cursor::new(b"certificate".as_slice());
    let mut input = FromRead::new(Faulty { inner, calls: 0 });
    let mut lent = &mut input;
    for octets in [
        Ok("cert"),
        Err(DeviceError),
        Ok(""),
        Ok("ific"),
        Ok("ate"),
        Ok(""),
    ] {
        assert!(rt; gives(&mut lent, octets));
    }
    assert_eq!(rt; input.failures(), 1);
    let reader = input.into_inner();
    assert_eq!(rt; reader.inner.position(), 11);
    assert_eq!(rt; reader.calls, 6);
}

/// A write of no bytes is an error, too, and the bytes written before an error stay.
#[test]
fn counts_the_errors_of_a_writer(rt: HostRuntime) -> Result<(), Fail> {
    let inner = Vec::new(rt.alloc());
    let mut output = ToWrite::new(Faulty { inner, calls: 0 });
    assert_eq!(rt; write_all(&mut output, b"certificate"), Err(DeviceError));
    assert_eq!(rt; output.failures(), 1);
    assert_eq!(rt; write_all(&mut output, b"ificate"), Err(DeviceError));
    assert_eq!(rt; output.failures(), 2);
    let mut lent = &mut output;
    write_all(&mut lent, b"ificate")?;
    assert_eq!(rt; output.failures(), 2);
    let writer = output.into_inner();
    assert_eq!(rt; writer.inner.as_slice(), b"certificate".as_slice());
    assert_eq!(rt; writer.calls, 5);
    Ok(())
}

/// Returns why an input can't be read to its end.
fn refusal_of(alloc: Global, input: &mut MemoryInput<'_>, most: u32) -> Option<ReadAllError> {
    match read_all(alloc, input, most) {
        Ok(_) => None,
        Err(error) => Some(error),
    }
}

/// Reading stops at the first error, and an input with more bytes than the limit is rejected.
#[test]
fn inputs_that_are_not_read_to_their_end(rt: HostRuntime) {
    let alloc = rt.alloc();
    let mut failing = MemoryInput::new(b"serial", &[], Some(1));
    assert_eq!(rt;
        refusal_of(alloc, &mut failing, 6),
        Some(ReadAllError::Device)
    );
    assert_eq!(rt; failing.left(), b"serial".as_slice());
    let mut longer = MemoryInput::new(b"serial", &[], None);
    assert_eq!(rt;
        refusal_of(alloc, &mut longer, 5),
        Some(ReadAllError::TooMuch)
    );
}

// Writes a text into a slice. Returns the number of bytes written, which are at the beginning of
// the slice, or `None` if it is too small.
fn put_into(room: &mut [u8], text: &[u8]) -> Option<usize>
    ensures { IfSome result (λ count. take count room.new ≡ text.now) }
{
    let mut output = MemoryOutput::new(room, &[], None);
    if write_all(&mut output, text).is_err() {
        return None;
    }
    Some(output.written().len())
}

#[test]
fn lent_room_comes_back_with_what_went_out(rt: HostRuntime) {
    let mut room = [b'.'; 8];
    assert_eq!(rt; put_into(&mut room, b"serial"), Some(6));
    assert_eq!(rt; room.as_slice(), b"serial..".as_slice());
    assert_eq!(rt; put_into(&mut room, b"certificate"), None);
}
