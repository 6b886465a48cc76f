//! The completion bounds of a day.

ghost use Rattle.std.specs.Prelude.{◌≡◌, ◌+◌, ◌*◌, ◌<◌, ◌≤◌, length};
ghost use Rattle.roster_bundle.specs.Limits.{greatest_u64};
ghost use Rattle.roster_completion.specs.Lines.{AreOnward, AreSet, UnderDay, UnderLines, extensions_of};

use crate::completion_day::CompletionDay;
use crate::off::set_after_off;
use crate::shift::set_after_shift;
use crate::ways::{Onward, onwards};
use roster_instance::Shift;
use roster_offers::MOST_OFFERS;
use roster_state::Meter;

/// Sets the completion bounds of a day from those of the next day.
pub(crate) fn set_day(day: &CompletionDay<'_, '_>, here: &mut [u32], meter: &mut Meter)
    requires capacity { length here.old ≡ day.now.lasts * (day.now.runs * day.now.shift_runs) }
    requires extensions { meter.old + extensions_of day.now here.old ≤ greatest_u64 }
    ensures under { UnderDay day.now here.new }
    ensures set { AreSet day.now here.old here.new meter.old meter.new }
{
    let onwards = onwards(day);
    let state_box = day.runs * day.shift_runs;
    for digit in 0..day.lasts {
        let first = digit * state_box;
        set_after(
            day,
            &onwards,
            digit,
            &mut here[first..first + state_box],
            meter,
        );
    }
}

/// Sets the completion bounds after the last shift with this number, which is 0 if the last day is off.
fn set_after(
    day: &CompletionDay<'_, '_>,
    onwards: &[Onward; MOST_OFFERS],
    digit: usize,
    here: &mut [u32],
    meter: &mut Meter,
)
    requires onwards { AreOnward day.now onwards.now }
    requires digit { digit < day.now.lasts }
    requires capacity { length here.old ≡ day.now.runs * day.now.shift_runs }
    requires extensions { meter.old + extensions_of day.now here.old ≤ greatest_u64 }
    ensures under { UnderLines day.now digit here.new }
    ensures set { AreSet day.now here.old here.new meter.old meter.new }
{
    if digit == 0 {
        set_after_off(day, here, meter);
        return;
    }
    set_after_shift(day, onwards, Shift((digit - 1) as u8), here, meter);
}
