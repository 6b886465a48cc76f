//! A watch's calls succeed, reach its device as often as its contracts say, with the same bytes, and answer
//! what the device answers.

ghost use Rattle.std.specs.Prelude.{◌≡◌, IfOk};

use roster_devices::{AtEnd, CallCounter, ShortWriter};
use roster_text::{TextFault, Watch, WriteFault, read_all, write_bytes};
use std::io;
use std::io::{ErrorKind, Read, Write};
use std::test::Fail;

/// A device that records the length of the last buffer that it was passed, and takes or gives all of it, or
/// fails with an error.
#[derive(Drop)]
struct Witness {
    passed: usize,
    fault: Option<ErrorKind>,
}

impl Witness {
    fn answer(&mut self, passed: usize) -> io::Result<usize>
        ensures { IfOk result (λ count. count ≡ passed) }
    {
        self.passed = passed;
        match self.fault {
            Some(kind) => Err(kind.into()),
            None => Ok(passed),
        }
    }
}

impl Read for Witness {
    fn read(&mut self, buf: &mut [u8]) -> io::Result<usize> {
        self.answer(buf.len())
    }
}

impl Write for Witness {
    fn write(&mut self, buf: &[u8]) -> io::Result<usize> {
        self.answer(buf.len())
    }

    fn flush(&mut self) -> io::Result<()> {
        self.answer(0)?;
        Ok(())
    }
}

const FAULTS: [ErrorKind; 4] = [
    ErrorKind::Interrupted,
    ErrorKind::WouldBlock,
    ErrorKind::PermissionDenied,
    ErrorKind::Other,
];

/// Whether a call failed with this error.
fn fails_so<T: Drop>(answer: io::Result<T>, kind: ErrorKind) -> bool {
    matches!(answer, Err(fault) if fault.kind() == kind)
}

#[test]
fn a_fault_is_that_of_the_device(rt: HostRuntime) {
    for index in 0..FAULTS.len() {
        let kind = FAULTS[index];
        let mut device = Watch::new(Witness {
            passed: 0,
            fault: Some(kind),
        });
        assert!(rt; fails_so(device.read(&mut [0; 3]), kind));
        assert!(rt; fails_so(device.write(b"one"), kind));
        assert!(rt; fails_so(device.flush(), kind));
    }
}

#[test]
fn a_call_passes_the_device_all_bytes(rt: HostRuntime) -> Result<(), Fail> {
    let mut bytes = Vec::new(rt.alloc());
    bytes.resize(70_000, 0)?;
    for length in [0, 1, 8, 9, 4_097, 8_193, 65_536, 65_537, 70_000] {
        let mut device = Watch::new(Witness {
            passed: 70_001,
            fault: None,
        });
        assert!(rt; matches!(device.write(&bytes[..length]), Ok(taken) if taken == length));
        assert_eq!(rt; device.into_inner().passed, length);
        let mut device = Watch::new(Witness {
            passed: 70_001,
            fault: None,
        });
        assert!(rt; matches!(device.read(&mut bytes[..length]), Ok(given) if given == length));
        assert_eq!(rt; device.into_inner().passed, length);
    }
    Ok(())
}

#[test]
fn a_failed_write_is_not_tried_again(rt: HostRuntime) {
    let mut out = Watch::new(CallCounter::new(Vec::new(rt.alloc()), 1));
    let answer = write_bytes(&mut out, b"one");
    assert_eq!(rt; answer, Err(WriteFault::WriteFailed { sent: 0 }));
    assert!(rt; out.failed());
    assert_eq!(rt; out.into_inner().calls, 1);
}

#[test]
fn a_failed_read_is_not_tried_again(rt: HostRuntime) {
    let mut input = Watch::new(CallCounter::new(b"one".as_slice(), 1));
    let answer = read_all(rt.alloc(), &mut input);
    assert!(rt; matches!(answer, Err(TextFault::ReadFailed)));
    assert!(rt; input.failed());
    assert_eq!(rt; input.into_inner().calls, 1);
}

#[test]
fn a_write_after_a_failure_reaches_the_device(rt: HostRuntime) {
    let mut out = Watch::new(CallCounter::new(Vec::new(rt.alloc()), 1));
    assert!(rt; out.write(b"one").is_err());
    assert!(rt; write_bytes(&mut out, b"two").is_ok());
    assert!(rt; out.failed());
    assert_eq!(rt; out.into_inner().calls, 2);
}

#[test]
fn a_read_after_a_failure_reaches_the_device(rt: HostRuntime) {
    let mut input = Watch::new(CallCounter::new(b"one".as_slice(), 1));
    assert!(rt; input.read(&mut [0; 8]).is_err());
    assert!(rt; read_all(rt.alloc(), &mut input).is_ok());
    assert!(rt; input.failed());
    assert_eq!(rt; input.into_inner().calls, 3);
}

#[test]
fn a_read_is_one_of_the_device(rt: HostRuntime) {
    let mut input = Watch::new(CallCounter::new(b"one".as_slice(), 0));
    let mut buffer = [0; 2];
    assert!(rt; matches!(input.read(&mut buffer), Ok(2)));
    assert!(rt; !input.failed());
    assert_eq!(rt; input.into_inner().calls, 1);
}

#[test]
fn a_write_of_nothing_is_one_of_the_device(rt: HostRuntime) {
    let mut out = Watch::new(CallCounter::new(Vec::new(rt.alloc()), 0));
    assert!(rt; matches!(out.write(b""), Ok(0)));
    assert!(rt; !out.failed());
    assert_eq!(rt; out.into_inner().calls, 1);
}

#[test]
fn a_write_that_takes_nothing_is_not_tried_again(rt: HostRuntime) {
    let mut buffer = [0; 2];
    let short = ShortWriter::new(&mut buffer, AtEnd::TakeNothing);
    let mut out = Watch::new(CallCounter::new(short, 0));
    let answer = write_bytes(&mut out, b"one");
    assert_eq!(rt; answer, Err(WriteFault::WriteFailed { sent: 2 }));
    assert!(rt; out.failed());
    assert_eq!(rt; out.into_inner().calls, 2);
}

#[test]
fn a_flush_is_passed_on_with_its_failure_which_is_none_of_a_write(rt: HostRuntime) {
    let mut out = Watch::new(CallCounter::new(Vec::new(rt.alloc()), 1));
    assert!(rt; out.flush().is_err());
    assert!(rt; !out.failed());
    assert!(rt; out.flush().is_ok());
    assert!(rt; !out.failed());
    assert_eq!(rt; out.into_inner().calls, 2);
}
