//! Readers and writers for tests: they give or take little at a time, fail when a test wants it, count their
//! calls, or never end. And a clock whose time passes by being read.
#![tactic(auto)]

mod clock;
mod counter;
mod readers;
mod writers;

pub use clock::StepClock;
pub use counter::CallCounter;
pub use readers::{EndlessReader, FailingReader, OneByteReader};
pub use writers::{AtEnd, ShortWriter};
