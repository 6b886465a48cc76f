//! Reading and writing under watch. Each call is passed to the device with the same bytes, and returns the
//! device's result. Only calls of the device raise the counts.

ghost use Rattle.std.specs.Prelude.{◌≡◌, is_err};
ghost use Rattle.std.specs.Io.{ReadsAtMost, WritesAtMost};
ghost use Rattle.std.specs.Io.KnownBytes.{ReadConsumes, WriteAppends, Keeps};
ghost use Rattle.roster_text.specs.Io.{counted, is_refused, one_flush, one_more};

use crate::watch::Watch;
use std::io;
use std::io::{Read, Write};

impl<R: Read> Read for Watch<R> {
    ghost remaining = { λ w. R.remaining w.inner };

    fn read(&mut self, buf: &mut [u8]) -> io::Result<usize>
        ensures bound { ReadsAtMost result buf.new }
        ensures bytes { ReadConsumes (R.remaining self.old.inner) (R.remaining self.new.inner)
            result buf.new }
        ensures calls { self.new.calls ≡ one_more self.old.calls }
        ensures flushes { self.new.flushes ≡ self.old.flushes }
        ensures failures { self.new.failures ≡ counted self.old.failures (is_err result) }
    {
        self.read_once(buf, R::read)
    }
}

impl<W: Write> Write for Watch<W> {
    ghost contents = { λ w. W.contents w.inner };

    fn write(&mut self, buf: &[u8]) -> io::Result<usize>
        ensures bound { WritesAtMost result buf.now }
        ensures bytes { WriteAppends (W.contents self.old.inner) (W.contents self.new.inner)
            result buf.now }
        ensures calls { self.new.calls ≡ one_more self.old.calls }
        ensures flushes { self.new.flushes ≡ self.old.flushes }
        ensures failures { self.new.failures ≡ counted self.old.failures
            (is_refused result buf.now) }
    {
        self.write_once(buf, W::write)
    }

    fn flush(&mut self) -> io::Result<()>
        ensures bytes { Keeps (W.contents self.old.inner) (W.contents self.new.inner) }
        ensures calls { self.new.calls ≡ self.old.calls }
        ensures flushes { self.new.flushes ≡ one_flush self.old.flushes (is_err result) }
        ensures failures { self.new.failures ≡ self.old.failures }
    {
        self.flush_once(W::flush)
    }
}
