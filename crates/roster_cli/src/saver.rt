//! A file that has the roster of a run while it goes on.

ghost use Rattle.std.specs.Prelude.{◌≡◌, ◌⊎◌, [], None, OnSome, true};
ghost use Rattle.std.specs.Io.Buffered.{writer_buffer};
ghost use Rattle.roster_cli.specs.Saving.{HasWeeks, IsSaved};

use roster_answers::show_weeks;
use roster_case::Held;
use roster_out::{Disk, LateFile, Place};
use roster_polish::Saves;
use roster_text::Watch;
use std::io;
use std::io::{BufWriter, Write};
use std::time::{Clock, Duration};

/// Puts rosters that it is shown in a place, at most one in a second: the first, and then one that is cheaper
/// than the last that was put there, once the second is over. After one that can't be put there it puts none.
/// Without a roster to put there it reads no clock.
#[derive(Drop)]
pub(crate) struct FileSaver<'a, K, D: Disk + Copy> {
    clock: K,
    place: Place<'a, D>,
    /// None once a roster couldn't be put in the place.
    writer: Option<BufWriter<LateFile<'a, D, D::File>>>,
    last: Option<Saved>,
}

/// A roster that was put in the place: its penalty, and the reading of the clock after that, in microseconds.
#[derive(Clone, Copy)]
struct Saved {
    total: u64,
    micros: u64,
}

impl<'a, K: Clock, D: Disk + Copy> FileSaver<'a, K, D> {
    /// One that has put no roster in this place, with a writer that nothing was written to.
    pub(crate) fn new(
        clock: K,
        place: &Place<'a, D>,
        writer: BufWriter<LateFile<'a, D, D::File>>,
    ) -> FileSaver<'a, K, D>
        ensures place { result.place ≡ place.now }
        ensures none { result.last ≡ None }
    {
        let place = Place {
            disk: place.disk,
            temporary: place.temporary,
            path: place.path,
        };
        FileSaver {
            clock,
            place,
            writer: Some(writer),
            last: None,
        }
    }

    /// Whether a roster with this penalty is to be put in the place now.
    fn is_due(&self, total: u64) -> bool {
        match self.last {
            None => true,
            Some(last) => {
                total < last.total
                    && micros_of(self.clock.monotonic()).saturating_sub(last.micros) >= SECOND
            }
        }
    }
}

impl<'a, K: Clock, D: Disk + Copy> Saves for FileSaver<'a, K, D> {
    // It stays in its place. If it says that it has put another roster there, it has put this one there.
    ghost Saw = { λ saver c r after. (after.place ≡ saver.place) × ((after.last ≡ saver.last)
        ⊎ IsSaved D.fresh D.File.contents D.Flushes D.Renames saver.place c r) };

    fn show(&mut self, held: &Held) {
        let total = held.total();
        if !self.is_due(total) {
            return;
        }
        let Some(writer) = self.writer.take() else {
            return;
        };
        self.writer = put_roster(&self.place, writer, held);
        if self.writer.is_some() {
            let micros = micros_of(self.clock.monotonic());
            self.last = Some(Saved { total, micros });
        }
    }
}

const SECOND: u64 = 1_000_000;

/// Puts a roster in a place, and returns the writer. If that fails, no temporary file is left.
fn put_roster<'a, D: Disk + Copy>(
    place: &Place<'_, D>,
    writer: BufWriter<LateFile<'a, D, D::File>>,
    held: &Held,
) -> Option<BufWriter<LateFile<'a, D, D::File>>>
    ensures { OnSome result (IsSaved D.fresh D.File.contents D.Flushes D.Renames place.now
        held.now.case held.now.roster) }
{
    let (is_written, mut writer) = write_roster(writer, held);
    if is_written {
        if let Some(file) = writer.get_mut().file.take() {
            if place.put(file).is_ok() {
                return Some(writer);
            }
        }
    }
    // Taken apart, a writer sends nothing on.
    let (late, _held) = writer.into_parts();
    drop(late);
    place.clear();
    None
}

/// Writes a roster to the file of a writer. Returns the writer, and whether its file has the roster alone.
fn write_roster<'a, D: Disk + Copy>(
    writer: BufWriter<LateFile<'a, D, D::File>>,
    held: &Held,
) -> (bool, BufWriter<LateFile<'a, D, D::File>>)
    ensures { result.0 ≡ true → HasWeeks D.fresh D.File.contents result.1 held.now.case
        held.now.roster }
{
    if !is_unwritten(&writer) {
        return (false, writer);
    }
    let mut output = Watch::new(writer);
    let Ok(()) = show_weeks(held.case(), held.roster(), &mut output) else {
        return (false, output.into_inner());
    };
    let mut writer = output.into_inner();
    let Ok(()) = writer.flush() else {
        return (false, writer);
    };
    (true, writer)
}

/// Whether a writer has no file, and holds nothing back.
fn is_unwritten<D: Disk + Copy>(writer: &BufWriter<LateFile<'_, D, D::File>>) -> bool
    ensures { result ≡ true → (writer.now.inner.file ≡ None) × (writer_buffer writer.now ≡ []) }
{
    writer.get_ref().file.is_none() && writer.buffer().is_empty()
}

/// The microseconds of a reading of a clock, and 0 if there is none.
pub(crate) fn micros_of(reading: io::Result<Duration>) -> u64 {
    match reading {
        Ok(time) => time
            .as_secs()
            .saturating_mul(1_000_000)
            .saturating_add(time.subsec_micros() as u64),
        Err(_) => 0,
    }
}
