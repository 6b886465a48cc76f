//! `Read` for several readers joined into one.

ghost use Rattle.std.specs.Prelude.{◌≡◌, OnErr, is_err};
ghost use Rattle.std.specs.Io.KnownBytes.{ReadConsumes};
ghost use Rattle.std.specs.Io.{ReadsAtMost};
ghost use Rattle.roster_text.specs.Io.{counted};
ghost use Rattle.roster_input.specs.JoinedBytes.{KeepsLater, joined_bytes};

use crate::readers::Joined;
use std::io;
use std::io::Read;

impl<R: Read> Read for Joined<R> {
    ghost remaining = { λ j. joined_bytes R.remaining j.readers };

    fn read(&mut self, buf: &mut [u8]) -> io::Result<usize>
        ensures bound { ReadsAtMost result buf.new }
        ensures bytes { ReadConsumes (joined_bytes R.remaining self.old.readers)
            (joined_bytes R.remaining self.new.readers) result buf.new }
        ensures failures { self.new.failures ≡ counted self.old.failures (is_err result) }
        ensures stays { OnErr result (KeepsLater self.old.readers self.new.readers) }
    {
        if self.is_over() || buf.is_empty() {
            return Ok(0);
        }
        let taken = self.read_first(buf, R::read)?;
        if taken > 0 {
            return Ok(taken);
        }
        self.leave_first();
        buf[0] = b'\n';
        Ok(1)
    }
}
