//! Readers over a slice, and one that never ends.

ghost use Rattle.std.specs.Prelude.{◌≡◌, ◌↔◌, Some, None, Ok, IsErr, OnOk, length, replicate, min, ◌-◌};
ghost use Rattle.std.specs.Io.{ReadsAtMost};
ghost use Rattle.std.specs.Io.KnownBytes.{ReadConsumes};

use std::io;
use std::io::{ErrorKind, Read};

/// Gives the bytes of a slice, one per read.
#[derive(Drop)]
pub struct OneByteReader<'a> {
    pub rest: &'a [u8],
}

impl Read for OneByteReader<'_> {
    ghost remaining = { λ r. Some r.rest.now };

    fn read(&mut self, buf: &mut [u8]) -> io::Result<usize>
        ensures bound { ReadsAtMost result buf.new }
        ensures bytes { ReadConsumes (Some self.old.rest.now) (Some self.new.rest.now) result
            buf.new }
        ensures count { result ≡ Ok (min (length self.old.rest.now) (min (length buf.old) 1)) }
    {
        let most = buf.len().min(1);
        self.rest.read(&mut buf[..most])
    }
}

/// Gives the bytes of a slice, but one read fails: the one that is `fails_in` reads ahead, counted from 1. At
/// 0 no read fails any more. After the failure the reads go on from where those before it ended.
#[derive(Drop)]
pub struct FailingReader<'a> {
    pub rest: &'a [u8],
    pub fails_in: usize,
    pub kind: ErrorKind,
}

impl Read for FailingReader<'_> {
    ghost remaining = { λ r. Some r.rest.now };

    fn read(&mut self, buf: &mut [u8]) -> io::Result<usize>
        ensures bound { ReadsAtMost result buf.new }
        ensures bytes { ReadConsumes (Some self.old.rest.now) (Some self.new.rest.now) result
            buf.new }
        ensures fails { IsErr result ↔ (self.old.fails_in ≡ 1) }
        ensures count { OnOk result (result ≡ Ok (min (length self.old.rest.now)
            (length buf.old))) }
        ensures nearer { self.new.fails_in ≡ self.old.fails_in - 1 }
    {
        let fails = self.fails_in == 1;
        self.fails_in = self.fails_in.saturating_sub(1);
        if fails {
            return Err(self.kind.into());
        }
        self.rest.read(buf)
    }
}

/// Gives one byte forever.
#[derive(Drop)]
pub struct EndlessReader {
    pub byte: u8,
}

impl Read for EndlessReader {
    fn read(&mut self, buf: &mut [u8]) -> io::Result<usize>
        ensures bound { ReadsAtMost result buf.new }
        ensures bytes { ReadConsumes None None result buf.new }
        ensures count { result ≡ Ok (length buf.old) }
        ensures filled { buf.new ≡ replicate (length buf.old) self.old.byte }
        ensures same { self.new ≡ self.old }
    {
        buf.fill(self.byte);
        Ok(buf.len())
    }
}
