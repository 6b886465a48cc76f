//! The place of a file that is to be replaced.

ghost use Rattle.std.specs.Prelude.{◌≡◌, IfOk, OnOk, string_bytes};
ghost use Rattle.roster_out.specs.Places.{IsPut, temporary_name};

use crate::disk::Disk;
use itoa::Buffer;
use std::alloc::{AllocError, Global};
use std::io;

/// The name of a temporary file next to the one of this path, with this number in it.
pub fn temporary_name(alloc: Global, path: &str, number: u64) -> Result<String, AllocError>
    ensures { IfOk result (λ name. string_bytes name ≡ temporary_name path.now number) }
{
    let mut digits = Buffer::new();
    let mut name = String::from_str(alloc, path)?;
    name.push_str(".")?;
    name.push_str(digits.format(number))?;
    name.push_str(".part")?;
    Ok(name)
}

/// A path, and the name of the temporary file next to it, which is to get this path.
#[derive(Clone, Copy)]
pub struct Place<'a, D> {
    pub disk: D,
    pub temporary: &'a str,
    pub path: &'a str,
}

impl<'a, D: Disk> Place<'a, D> {
    /// Makes the temporary file, with the rights of what has the path.
    pub fn make_temporary(&self) -> io::Result<D::File>
        ensures made { IfOk result (λ file. D.Makes self.now.disk self.now.temporary.now
            self.now.path.now file) }
        ensures fresh { IfOk result (λ file. D.File.contents file ≡ D.fresh) }
    {
        self.disk.make(self.temporary, self.path)
    }

    /// Whether the file can be made, and the path can be its own. No file is left.
    pub fn is_open(&self) -> bool {
        if self.path.is_empty() || !self.disk.is_file_or_free(self.path) {
            return false;
        }
        match self.make_temporary() {
            Ok(file) => {
                drop(file);
                self.clear();
                true
            }
            Err(_) => false,
        }
    }

    /// Puts the file, once it is flushed to the disk, in its place.
    pub fn put(&self, file: D::File) -> io::Result<()>
        ensures { OnOk result (IsPut D.Flushes D.Renames self.now.disk file
            self.now.temporary.now self.now.path.now) }
    {
        let flushed = self.disk.flush(file)?;
        self.disk.rename(flushed, self.temporary, self.path)
    }

    /// Removes the temporary file, if there is one.
    pub fn clear(&self) {
        self.disk.remove(self.temporary);
    }
}
