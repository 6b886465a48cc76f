//! What a roster that is kept costs on a day.

ghost use Rattle.std.specs.Prelude.{◌≡◌, ◌≤◌};
ghost use Rattle.roster_instance.specs.Limits.{most_keep};
ghost use Rattle.roster_rules.specs.Penalties.{is_kept, keep_cost_on};

use roster_instance::{Case, Shift};

/// S9. The points for a day of a nurse with this shift, or with none: 0 if the roster that is kept has the
/// same shift.
#[tactic(auto, using(crate::proofs::KeptLemmas::free_at_no_points))]
pub fn keep_cost_on(case: &Case, nurse: usize, day: u16, shift: Option<Shift>) -> u32
    ensures cost { result ≡ keep_cost_on case.now nurse day shift }
    ensures within { result ≤ most_keep }
{
    let keep = case.keep();
    if keep == 0 {
        return 0;
    }
    if is_kept(case, nurse, day, shift) {
        return 0;
    }
    keep as u32
}

/// Whether a day of a nurse with this shift, or with none, is as in the roster that is kept.
fn is_kept(case: &Case, nurse: usize, day: u16, shift: Option<Shift>) -> bool
    ensures { result ≡ is_kept case.now nurse day shift }
{
    match (case.kept_shift(nurse, day), shift) {
        (None, None) => true,
        (Some(kept), Some(shift)) => kept.0 == shift.0,
        _ => false,
    }
}
