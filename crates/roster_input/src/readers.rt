//! Several readers, of which the first that is left is read. The `Read` implementation has a module of its
//! own (`joined`), from which the readers and the count of failures can be reached only through the functions
//! here.

ghost use Rattle.std.specs.Prelude.{◌≡◌, ◌<◌, ◌↔◌, IsTrue, drop, is_err, length};
ghost use Rattle.roster_text.specs.Io.{counted};
ghost use Rattle.roster_input.specs.JoinedBytes.{ReadsFirst};

use std::io;
use std::marker::Model;

/// A reader that gives the bytes of its readers one after another, each followed by one LF. Without readers
/// it is at its end. A reader's fault is passed on, and the next read goes to the same reader.
#[derive(Drop)]
pub struct Joined<R> {
    readers: Vec<R>,
    // The number of readers that have come to their end.
    done: usize,
    failures: u64,
}

// The readers that have not come to their end, and the number of reads that have failed.
impl<R> Model for Joined<R> {
    ghost use Rattle.std.specs.Prelude.{◌≤◌, drop, length};
    ghost use Rattle.roster_input.specs.JoinedBytes.{Left};

    ghost Value = { Left R };

    ghost view = { λ j. record { readers = drop j.done j.readers.items; failures = j.failures } };

    ghost invariant = { λ j. j.done ≤ length j.readers.items };
}

impl<R> Joined<R> {
    /// Joins the readers in their order.
    pub fn new(readers: Vec<R>) -> Self
        ensures { result ≡ record { readers = readers.items; failures = 0 } }
    {
        Joined {
            readers,
            done: 0,
            failures: 0,
        }
    }

    /// Whether each reader has come to its end.
    pub(crate) fn is_over(&self) -> bool
        ensures { IsTrue result ↔ (length self.now.readers ≡ 0) }
    {
        self.done == self.readers.len()
    }

    // It takes the reader's call as an argument, so that its contract can say that the result is that of one
    // call.
    pub(crate) fn read_first<F: FnOnce(&mut R, &mut [u8]) -> io::Result<usize>>(
        &mut self,
        buf: &mut [u8],
        read: F,
    ) -> io::Result<usize>
        requires left { 0 < length self.old.readers }
        requires callable { F.IsAlwaysCallable read }
        ensures called { ReadsFirst F.FnOnce read self.old.readers buf.old result self.new.readers
            buf.new }
        ensures failures { self.new.failures ≡ counted self.old.failures (is_err result) }
    {
        let result = read(&mut self.readers[self.done], buf);
        self.failures = count_failure(self.failures, result.is_err());
        result
    }

    /// Goes on to the reader after the first.
    pub(crate) fn leave_first(&mut self)
        requires left { 0 < length self.old.readers }
        ensures readers { self.new.readers ≡ drop 1 self.old.readers }
        ensures failures { self.new.failures ≡ self.old.failures }
    {
        self.done += 1;
    }
}

fn count_failure(failures: u64, has_failed: bool) -> u64
    ensures { result ≡ counted failures has_failed }
{
    if has_failed {
        failures.saturating_add(1)
    } else {
        failures
    }
}
