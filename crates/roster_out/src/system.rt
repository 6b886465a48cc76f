//! The disk of the system.

ghost use Rattle.std.specs.Prelude.{None};

use crate::disk::Disk;
use std::fs::{OpenFile, OpenOptions, Permissions};
use std::io::{ErrorKind, Write};
use std::os::unix::fs::{MetadataExt, OpenOptionsExt};
use std::rt::Files;
use std::{fs, io};

/// The files of the system.
#[derive(Clone, Copy)]
pub struct SystemDisk<R> {
    pub files: R,
}

/// A file of the system, whose bytes no clause knows.
#[derive(Drop)]
pub struct OutFile<F>(F);

/// A file of the system that is closed and flushed to the disk.
#[derive(Drop)]
pub struct Flushed;

impl<F: Write> Write for OutFile<F> {
    ghost contents = { λ file. None };

    fn write(&mut self, buf: &[u8]) -> io::Result<usize> {
        self.0.write(buf)
    }

    fn flush(&mut self) -> io::Result<()> {
        self.0.flush()
    }
}

impl<R: Files> Disk for SystemDisk<R> {
    type File = OutFile<R::File>;

    type Flushed = Flushed;

    ghost fresh = { None };

    ghost Makes = { λ disk name like file. Unit {0} };

    ghost Flushes = { λ disk file flushed. Unit {0} };

    ghost Renames = { λ disk flushed name to. Unit {0} };

    fn make(&self, name: &str, like: &str) -> io::Result<OutFile<R::File>> {
        let mut options = OpenOptions::new();
        options.write(true).create_new(true);
        let Some(rights) = rights_of(&self.files, like)? else {
            return Ok(OutFile(options.open(&self.files, name)?));
        };
        options.mode(RIGHTS_AT_FIRST);
        let file = options.open(&self.files, name)?;
        if let Err(error) = file.set_permissions(rights) {
            drop(file);
            self.remove(name);
            return Err(error);
        }
        Ok(OutFile(file))
    }

    fn flush(&self, file: OutFile<R::File>) -> io::Result<Flushed> {
        let OutFile(file) = file;
        file.sync_all()?;
        Ok(Flushed)
    }

    fn rename(&self, _flushed: Flushed, name: &str, to: &str) -> io::Result<()> {
        fs::rename(&self.files, name, to)?;
        // The file has its name now, even if the folder can't be flushed.
        if let Ok(folder) = fs::open(&self.files, folder_of(to)) {
            let _ = folder.sync_all();
        }
        Ok(())
    }

    fn remove(&self, name: &str) {
        let _ = fs::remove_file(&self.files, name);
    }

    fn is_file_or_free(&self, name: &str) -> bool {
        match fs::metadata(&self.files, name) {
            Ok(metadata) => metadata.is_file(),
            Err(error) => error.kind() == ErrorKind::NotFound,
        }
    }

    fn is_one(&self, name: &str, other: &str) -> bool {
        match (
            fs::metadata(&self.files, name),
            fs::metadata(&self.files, other),
        ) {
            (Ok(one), Ok(other)) => one.dev() == other.dev() && one.ino() == other.ino(),
            _ => false,
        }
    }
}

/// The rights of what has this name, if anything has it.
fn rights_of<R: Files>(files: &R, name: &str) -> io::Result<Option<Permissions>> {
    match fs::metadata(files, name) {
        Ok(metadata) => Ok(Some(metadata.permissions())),
        Err(error) if error.kind() == ErrorKind::NotFound => Ok(None),
        Err(error) => Err(error),
    }
}

/// Until it has the rights of the other, a file is for its owner alone.
const RIGHTS_AT_FIRST: u32 = 0o600;

/// The folder in which this path has its last name.
fn folder_of(path: &str) -> &str {
    match path.rsplit_once('/') {
        Some(("", _)) => "/",
        Some((folder, _)) => folder,
        None => ".",
    }
}
