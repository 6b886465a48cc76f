//! A reader or a writer that counts its calls, and those of them that failed. The `Read` and `Write`
//! implementations have a module of their own (`watching`), which can reach the device and the counts only
//! through the functions here.

ghost use Rattle.std.specs.Prelude.{◌≡◌, ◌<◌, ◌↔◌, IsTrue, is_err};
ghost use Rattle.std.specs.Fn.{FnOnceReturnsAtMut};
ghost use Rattle.roster_text.specs.Io.{IsOneRead, IsOneWrite, counted, is_refused, one_flush, one_more};

use std::io;
use std::marker::Model;

/// A reader or a writer that counts its reads and writes, and those of them that failed. It counts its
/// flushes, and those of them that failed, separately.
///
/// A write that takes none of at least one byte counts as failed.
#[derive(Drop)]
pub struct Watch<T> {
    inner: T,
    calls: u64,
    failures: u64,
    flushes: u64,
    failed_flushes: u64,
}

impl<T> Model for Watch<T> {
    ghost use Rattle.roster_text.specs.Io.{Watched};

    ghost Value = { Watched T };

    ghost view = { λ w. record {
      inner = w.inner;
      calls = w.calls;
      failures = w.failures;
      flushes = record { made = w.flushes; failed = w.failed_flushes };
    } };
}

impl<T> Watch<T> {
    /// Puts a reader or a writer under watch, before its first call.
    pub fn new(inner: T) -> Watch<T>
        ensures { result ≡ record {
          inner = inner;
          calls = 0;
          failures = 0;
          flushes = record { made = 0; failed = 0 };
        } }
    {
        Watch {
            inner,
            calls: 0,
            failures: 0,
            flushes: 0,
            failed_flushes: 0,
        }
    }

    /// Whether a read or a write has failed so far. A flush that failed doesn't count.
    pub fn failed(&self) -> bool
        ensures { IsTrue result ↔ (0 < self.now.failures) }
    {
        self.failures > 0
    }

    /// The reader or writer itself.
    pub fn into_inner(self) -> T
        ensures { result ≡ self.inner }
    {
        let Watch { inner, .. } = self;
        inner
    }

    // These three take the device's call as an argument, so that their contracts can say that the result is
    // that of one call, and what the device is after it.

    pub(crate) fn read_once<F: FnOnce(&mut T, &mut [u8]) -> io::Result<usize>>(
        &mut self,
        buf: &mut [u8],
        read: F,
    ) -> io::Result<usize>
        requires { F.IsAlwaysCallable read }
        ensures called { IsOneRead F.FnOnce read self.old.inner buf.old result self.new.inner
            buf.new }
        ensures calls { self.new.calls ≡ one_more self.old.calls }
        ensures flushes { self.new.flushes ≡ self.old.flushes }
        ensures failures { self.new.failures ≡ counted self.old.failures (is_err result) }
    {
        let result = read(&mut self.inner, buf);
        self.calls = self.calls.saturating_add(1);
        self.count_failure(result.is_err());
        result
    }

    pub(crate) fn write_once<F: FnOnce(&mut T, &[u8]) -> io::Result<usize>>(
        &mut self,
        buf: &[u8],
        write: F,
    ) -> io::Result<usize>
        requires { F.IsAlwaysCallable write }
        ensures called { IsOneWrite F.FnOnce write self.old.inner buf.now result self.new.inner }
        ensures calls { self.new.calls ≡ one_more self.old.calls }
        ensures flushes { self.new.flushes ≡ self.old.flushes }
        ensures failures { self.new.failures ≡ counted self.old.failures
            (is_refused result buf.now) }
    {
        let result = write(&mut self.inner, buf);
        self.calls = self.calls.saturating_add(1);
        let is_refused = match &result {
            Ok(taken) => *taken == 0 && !buf.is_empty(),
            Err(_) => true,
        };
        self.count_failure(is_refused);
        result
    }

    pub(crate) fn flush_once<F: FnOnce(&mut T) -> io::Result<()>>(
        &mut self,
        flush: F,
    ) -> io::Result<()>
        requires { F.IsAlwaysCallable flush }
        ensures called { FnOnceReturnsAtMut F.FnOnce flush self.old.inner result self.new.inner }
        ensures calls { self.new.calls ≡ self.old.calls }
        ensures flushes { self.new.flushes ≡ one_flush self.old.flushes (is_err result) }
        ensures failures { self.new.failures ≡ self.old.failures }
    {
        let result = flush(&mut self.inner);
        self.count_flush(result.is_err());
        result
    }

    fn count_failure(&mut self, has_failed: bool)
        ensures { self.new ≡ record {
          inner = self.old.inner;
          calls = self.old.calls;
          failures = counted self.old.failures has_failed;
          flushes = self.old.flushes;
        } }
    {
        if has_failed {
            self.failures = self.failures.saturating_add(1);
        }
    }

    fn count_flush(&mut self, has_failed: bool)
        ensures { self.new ≡ record {
          inner = self.old.inner;
          calls = self.old.calls;
          failures = self.old.failures;
          flushes = one_flush self.old.flushes has_failed;
        } }
    {
        self.flushes = self.flushes.saturating_add(1);
        if has_failed {
            self.failed_flushes = self.failed_flushes.saturating_add(1);
        }
    }
}
