//! What replacing a file takes of a disk.

ghost use Rattle.std.specs.Prelude.{◌≡◌, ℕ, IfOk, List, OnOk, Option};

use std::io;
use std::io::Write;

/// The calls by which a file is replaced. Each path is a name of a file.
pub trait Disk {
    type File: Write + Drop;

    /// What stands for a file that is closed and flushed to the disk.
    type Flushed: Drop;

    /// The bytes of a file that has just been made, if they are known.
    ghost fresh: { Option (List ℕ) };

    /// A file is made under the first name, with the rights of what has the other, if anything has it.
    ghost Makes: { Self → List ℕ → List ℕ → Self.File → Type 0 };

    /// A file is flushed to the disk, with the bytes that it has.
    ghost Flushes: { Self → Self.File → Self.Flushed → Type 0 };

    /// A flushed file, which had the first name, gets the other.
    ghost Renames: { Self → Self.Flushed → List ℕ → List ℕ → Type 0 };

    /// Makes a file of a name that nothing has.
    fn make(&self, name: &str, like: &str) -> io::Result<Self::File>
        ensures made { IfOk result (λ file. Makes self.now name.now like.now file) }
        ensures fresh { IfOk result (λ file. Self.File.contents file ≡ fresh) };

    /// Flushes a file to the disk, and closes it.
    fn flush(&self, file: Self::File) -> io::Result<Self::Flushed>
        ensures { IfOk result (λ flushed. Flushes self.now file flushed) };

    /// Gives a flushed file another name. What has that name is replaced.
    fn rename(&self, flushed: Self::Flushed, name: &str, to: &str) -> io::Result<()>
        ensures { OnOk result (Renames self.now flushed name.now to.now) };

    /// Removes a file, if there is one.
    fn remove(&self, name: &str);

    /// Whether a file of this name can be replaced: nothing has the name, or a file.
    fn is_file_or_free(&self, name: &str) -> bool;

    /// Whether the two names are those of one file.
    fn is_one(&self, name: &str, other: &str) -> bool;
}
