//! Why a log stops.

use roster_text::WriteFault;
use thiserror::Error;

/// Why a run stopped before its end.
#[derive(Clone, Copy, Debug, PartialEq, Eq, Error)]
pub enum LogFault {
    /// The log took exactly its first `sent` bytes, and then failed.
    #[error("log failed after {sent} bytes")]
    LogFailed { sent: usize },
}

impl From<WriteFault> for LogFault {
    ghost use Rattle.std.specs.Prelude.{◌≡◌};
    ghost use Rattle.roster_text.specs.Io.{sent_of};
    ghost use Rattle.roster_reports.specs.declared.log_fault.LogFault.TheVariants.{LogFailed};

    ghost from_gives = { λ fault e. e ≡ LogFailed (sent_of fault) };

    fn from(fault: WriteFault) -> LogFault {
        let WriteFault::WriteFailed { sent } = fault;
        LogFault::LogFailed { sent }
    }
}
