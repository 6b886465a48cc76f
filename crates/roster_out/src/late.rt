//! A writer whose file is made late.

ghost use Rattle.std.specs.Prelude.{◌≡◌, IfOk, true};
ghost use Rattle.roster_out.specs.Places.{IsPut, late_contents};
ghost use Rattle.roster_out.specs.Writers.{IsLastPut, IsUnwritten};

use crate::disk::Disk;
use crate::place::Place;
use std::alloc::Global;
use std::io;
use std::io::{BufWriter, Write};

/// A writer that makes the temporary file of a path at its first write, so that none is there until then.
#[derive(Drop)]
pub struct LateFile<'a, D, F> {
    pub place: Place<'a, D>,
    pub file: Option<F>,
}

impl<'a, D: Disk + Copy> Write for LateFile<'a, D, D::File> {
    ghost contents = { λ late. late_contents D.fresh D.File.contents late.file };

    fn write(&mut self, buf: &[u8]) -> io::Result<usize> {
        let mut file = match self.file.take() {
            Some(file) => file,
            None => self.place.make_temporary()?,
        };
        let taken = file.write(buf);
        self.file = Some(file);
        taken
    }

    fn flush(&mut self) -> io::Result<()> {
        match &mut self.file {
            Some(file) => file.flush(),
            None => Ok(()),
        }
    }
}

/// The size of the buffer of a writer, in bytes.
const BUFFER: usize = 65_536;

/// A writer to the temporary file of a path, before the first write.
pub fn late_writer<'a, D: Disk + Copy>(
    alloc: Global,
    place: &Place<'a, D>,
) -> io::Result<BufWriter<LateFile<'a, D, D::File>>>
    ensures { IfOk result (IsUnwritten place.now.temporary.now) }
{
    let place = Place {
        disk: place.disk,
        temporary: place.temporary,
        path: place.path,
    };
    BufWriter::with_capacity(alloc, BUFFER, LateFile { place, file: None })
}

/// Puts the file of a writer that holds nothing back in its place. If that fails, no temporary file is left.
pub fn put_last<D: Disk + Copy>(
    place: &Place<'_, D>,
    writer: BufWriter<LateFile<'_, D, D::File>>,
) -> bool
    ensures { result ≡ true → IsLastPut
        (λ file name. IsPut D.Flushes D.Renames place.now.disk file name place.now.path.now)
        place.now.temporary.now writer.entry }
{
    let (late, _held) = writer.into_parts();
    let LateFile { file, .. } = late;
    let Some(file) = file else {
        return false;
    };
    let is_put = place.put(file).is_ok();
    if !is_put {
        place.clear();
    }
    is_put
}

/// Removes the file of a writer, if it has made one. What the writer holds back isn't sent on, as it is if a
/// writer is dropped.
pub fn remove_last<D: Disk + Copy>(
    place: &Place<'_, D>,
    writer: BufWriter<LateFile<'_, D, D::File>>,
) {
    let (late, _held) = writer.into_parts();
    let LateFile { file, .. } = late;
    if let Some(file) = file {
        drop(file);
        place.clear();
    }
}
