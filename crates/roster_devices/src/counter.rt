//! A device that counts its calls.

ghost use Rattle.std.specs.Prelude.{◌≡◌, ◌+◌, ◌-◌, ◌^◌, ◌<◌, ◌↔◌, IsErr, min};
ghost use Rattle.std.specs.Io.{ReadsAtMost, WritesAtMost};
ghost use Rattle.std.specs.Io.KnownBytes.{Keeps, ReadConsumes, WriteAppends};

use std::io;
use std::io::{ErrorKind, Read, Write};

/// Counts the reads, writes and flushes of a device, and makes the first of them fail.
#[derive(Drop)]
pub struct CallCounter<T> {
    pub device: T,
    pub calls: u64,
    /// How many of the next calls fail. A call that fails doesn't reach the device.
    pub failing: u64,
}

impl<T> CallCounter<T> {
    /// A counter over a device. The first `failing` calls fail.
    pub fn new(device: T, failing: u64) -> CallCounter<T>
        ensures device { result.device ≡ device }
        ensures calls { result.calls ≡ 0 }
        ensures failing { result.failing ≡ failing }
    {
        CallCounter {
            device,
            calls: 0,
            failing,
        }
    }

    fn count_call(&mut self) -> io::Result<()>
        ensures device { self.new.device ≡ self.old.device }
        ensures calls { self.new.calls ≡ min (self.old.calls + 1) (2 ^ 64 - 1) }
        ensures failing { self.new.failing ≡ self.old.failing - 1 }
        ensures fails { IsErr result ↔ (0 < self.old.failing) }
    {
        self.calls = self.calls.saturating_add(1);
        if self.failing == 0 {
            return Ok(());
        }
        self.failing -= 1;
        Err(ErrorKind::Other.into())
    }
}

impl<R: Read> Read for CallCounter<R> {
    ghost remaining = { λ c. R.remaining c.device };

    fn read(&mut self, buf: &mut [u8]) -> io::Result<usize>
        ensures bound { ReadsAtMost result buf.new }
        ensures bytes { ReadConsumes (R.remaining self.old.device) (R.remaining self.new.device)
            result buf.new }
        ensures calls { self.new.calls ≡ min (self.old.calls + 1) (2 ^ 64 - 1) }
        ensures failing { self.new.failing ≡ self.old.failing - 1 }
        ensures fails { 0 < self.old.failing → IsErr result }
    {
        self.count_call()?;
        self.device.read(buf)
    }
}

impl<W: Write> Write for CallCounter<W> {
    ghost contents = { λ c. W.contents c.device };

    fn write(&mut self, buf: &[u8]) -> io::Result<usize>
        ensures bound { WritesAtMost result buf.now }
        ensures bytes { WriteAppends (W.contents self.old.device) (W.contents self.new.device)
            result buf.now }
        ensures calls { self.new.calls ≡ min (self.old.calls + 1) (2 ^ 64 - 1) }
        ensures failing { self.new.failing ≡ self.old.failing - 1 }
        ensures fails { 0 < self.old.failing → IsErr result }
    {
        self.count_call()?;
        self.device.write(buf)
    }

    fn flush(&mut self) -> io::Result<()>
        ensures bytes { Keeps (W.contents self.old.device) (W.contents self.new.device) }
        ensures calls { self.new.calls ≡ min (self.old.calls + 1) (2 ^ 64 - 1) }
        ensures failing { self.new.failing ≡ self.old.failing - 1 }
        ensures fails { 0 < self.old.failing → IsErr result }
    {
        self.count_call()?;
        self.device.flush()
    }
}
