//! Reading an input to its end.

ghost use Rattle.std.specs.Prelude.{◌≡◌, ◌≤◌, ◌<◌, IfOk, OnOk, IfErr, IfSome, IsErrOf, length, vec_len};
ghost use Rattle.std.specs.Io.KnownBytes.{IsAtEnd};
ghost use Rattle.roster_text.specs.Io.{TakesFront, IsReadFault, counted, is_read_failure};
ghost use Rattle.roster_bundle.specs.Limits.{most_bytes};

use crate::fault::TextFault;
use crate::watch::Watch;
use std::alloc::Global;
use std::io::Read;

/// The most bytes that an input may have.
pub const MAX_INPUT: usize = 16_777_216;

/// The most bytes that one read is asked for.
const CHUNK: usize = 65_536;

/// All bytes up to the reader's end. Any fault of a read ends it, even one after which the read could be
/// tried again.
pub fn read_all<R: Read>(alloc: Global, input: &mut Watch<R>) -> Result<Vec<u8>, TextFault>
    ensures all { IfOk result
        (λ bytes. IfSome (R.remaining input.old.inner) (λ given. bytes.items ≡ given)) }
    ensures end { OnOk result (IsAtEnd (R.remaining input.new.inner)) }
    ensures kept { IfOk result (λ bytes. vec_len bytes ≤ most_bytes) }

    ensures too_long { IsErrOf result TextFault.TooLong
        → IfSome (R.remaining input.old.inner) (λ given. most_bytes < length given) }
    ensures no_other_error { IfErr result IsReadFault }

    ensures failed { input.new.failures ≡ counted input.old.failures (is_read_failure result) }
    ensures taken { TakesFront (R.remaining input.old.inner) (R.remaining input.new.inner) }
{
    let mut bytes = Vec::new(alloc);
    let mut chunk = [0; CHUNK];
    'reading: loop {
        let Ok(taken) = input.read(&mut chunk) else {
            return Err(TextFault::ReadFailed);
        };
        if taken == 0 {
            return Ok(bytes);
        }
        if MAX_INPUT - bytes.len() < taken {
            return Err(TextFault::TooLong);
        }
        bytes.extend_from_slice(&chunk[..taken])?;
    }
}
