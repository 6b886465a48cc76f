//! A file that is replaced as a whole: what it is to hold is written to a temporary file next to it, which is
//! flushed to the disk and renamed onto it.
//!
//! `specs/Places.antt` defines the names and what it takes to replace a file. `Place::put` promises that a
//! file is renamed onto the other only once it is flushed to the disk. `LateFile` is a writer that makes the
//! temporary file at its first write, and `make_temporary` promises under which name. `put_last` promises
//! that the file in its place is the one that such a writer wrote. `SystemDisk` is the
//! disk of the system, of which no clause can say anything.
#![tactic(auto)]

mod disk;
mod late;
mod place;
mod system;

pub use disk::Disk;
pub use late::{LateFile, late_writer, put_last, remove_last};
pub use place::{Place, temporary_name};
pub use system::{Flushed, OutFile, SystemDisk};
