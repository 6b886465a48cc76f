//! Whether a last shift forbids the next one.

ghost use Rattle.std.specs.Prelude.{◌≡◌, ◌+◌, ◌<◌, if◌then◌else◌};
ghost use Rattle.roster_bundle.specs.Limits.{greatest_u64};
ghost use Rattle.roster_instance.specs.Meaning.{forbids};

use crate::meter::Meter;
use crate::state::State;
use roster_instance::{Case, Shift};

/// Whether the last shift of a state forbids a shift, or a day off, on the next day. If it does, the meter
/// counts one, as it does if `extend` returns none.
#[inline(always)]
pub fn is_forbidden(case: &Case, state: State, shift: Option<Shift>, meter: &mut Meter) -> bool
    requires { meter.old < greatest_u64 }
    ensures forbidden { result ≡ forbids case.now.successions state.last shift }
    ensures counted { meter.new ≡ meter.old + (if result then 1 else 0) }
{
    let forbidden = case.forbids_next(state.last, shift);
    if forbidden {
        meter.add_one();
    }
    forbidden
}
