//! A writer over a buffer that was made beforehand.

ghost use Rattle.std.specs.Prelude.{◌≡◌, ◌≤◌, ◌-◌, ◌↔◌, Some, IsOk, IsErr, IfOk, length, take, min};
ghost use Rattle.std.specs.Io.{WritesAtMost};
ghost use Rattle.std.specs.Io.KnownBytes.{Keeps, WriteAppends};

use std::io;
use std::io::{ErrorKind, Write};

/// What a write answers once the buffer is full.
#[derive(Clone, Copy, Debug, PartialEq, Eq)]
pub enum AtEnd {
    Fail,
    TakeNothing,
}

/// Takes as many bytes as its buffer holds, and then fails or takes nothing. The first `len` bytes of the
/// buffer are those that it has taken.
#[derive(Drop)]
pub struct ShortWriter<'a> {
    pub buffer: &'a mut [u8],
    pub len: usize,
    pub at_end: AtEnd,
    pub ghost within: { len ≤ length buffer.now },
}

impl<'a> ShortWriter<'a> {
    /// A writer that has taken nothing yet.
    pub fn new(buffer: &'a mut [u8], at_end: AtEnd) -> ShortWriter<'a>
        ensures empty { result.len ≡ 0 }
        ensures at_end { result.at_end ≡ at_end }
        ensures buffer { result.buffer.now ≡ buffer.entry.now }
    {
        ShortWriter {
            buffer,
            len: 0,
            at_end,
        }
    }

    /// The bytes that were taken.
    pub fn written(&self) -> &[u8]
        ensures { result.now ≡ take self.now.len self.now.buffer.now }
    {
        &self.buffer[..self.len]
    }
}

impl Write for ShortWriter<'_> {
    ghost contents = { λ w. Some (take w.len w.buffer.now) };

    fn write(&mut self, buf: &[u8]) -> io::Result<usize>
        ensures bound { WritesAtMost result buf.now }
        ensures bytes { WriteAppends (Some (take self.old.len self.old.buffer.now))
            (Some (take self.new.len self.new.buffer.now)) result buf.now }
        ensures count { IfOk result
            (λ n. n ≡ min (length buf.now) (length self.old.buffer.now - self.old.len)) }
        ensures fails { IsErr result
            ↔ ((self.old.len ≡ length self.old.buffer.now) × (self.old.at_end ≡ AtEnd.Fail)) }
    {
        let left = self.buffer.len() - self.len;
        if left == 0 && self.at_end == AtEnd::Fail {
            return Err(ErrorKind::Other.into());
        }
        let n = buf.len().min(left);
        let end = self.len + n;
        self.buffer[self.len..end].copy_from_slice(&buf[..n]);
        self.len = end;
        Ok(n)
    }

    fn flush(&mut self) -> io::Result<()>
        ensures bytes { Keeps (Some (take self.old.len self.old.buffer.now))
            (Some (take self.new.len self.new.buffer.now)) }
        ensures ok { IsOk result }
    {
        Ok(())
    }
}
