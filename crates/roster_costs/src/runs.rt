//! The runs of a row: how far they are outside what a contract or a shift asks for.

ghost use Rattle.std.specs.Prelude.{◌≡◌, ◌+◌, ◌*◌, ◌<◌, ◌≤◌, if◌then◌else◌, length};
ghost use Rattle.roster_instance.specs.Choices.{days_of};
ghost use Rattle.roster_instance.specs.Days.{shift_on};
ghost use Rattle.roster_instance.specs.Limits.{most_days};
ghost use Rattle.roster_costs.specs.Kinds.{is_of};
ghost use Rattle.roster_costs.specs.Sums.{most_of_part};
ghost use Rattle.roster_rules.specs.Penalties.{free_before, free_run_cost, shift_run_before, shift_run_cost, run_cost_of_shift, worked_before, working_run_cost};
ghost use Rattle.roster_rules.specs.Runs.{run_violations};
ghost use Rattle.roster_rules.specs.Weights.{shift_run_weight};

use roster_instance::{Border, Case, Choice, Limits, Shift};
use roster_rules::weights::{FREE_RUN, SHIFT_RUN, WORKING_RUN};

/// A kind of days that runs are made of.
#[derive(Clone, Copy)]
pub(crate) enum Kind {
    Working,
    Free,
    Of(Shift),
}

/// S2. The points for each missing or extra day of a run of working days.
pub(crate) fn working_run_cost(case: &Case, nurse: usize, row: &[Choice]) -> u64
    requires { length row.now ≤ most_days }
    ensures cost { result ≡ working_run_cost case.now nurse (days_of row.now) }
    ensures within { result ≤ most_of_part }
{
    let before = worked_before(case.past(nurse).border);
    let limits = case.contract_rules(nurse).working;
    WORKING_RUN as u64 * run_violations(limits, before, row, Kind::Working)
}

/// S3. The points for each missing or extra day of a run of days off.
pub(crate) fn free_run_cost(case: &Case, nurse: usize, row: &[Choice]) -> u64
    requires { length row.now ≤ most_days }
    ensures cost { result ≡ free_run_cost case.now nurse (days_of row.now) }
    ensures within { result ≤ most_of_part }
{
    let before = free_before(case.past(nurse).border);
    let limits = case.contract_rules(nurse).free;
    FREE_RUN as u64 * run_violations(limits, before, row, Kind::Free)
}

/// S2. The same for the runs of all shifts.
#[tactic(auto, using(roster_rules::proofs::CountLemmas::sum_more))]
pub(crate) fn shift_run_cost(case: &Case, nurse: usize, row: &[Choice]) -> u64
    requires { length row.now ≤ most_days }
    ensures cost { result ≡ shift_run_cost case.now nurse (days_of row.now) }
    ensures within { result ≤ most_of_part }
{
    let mut cost = 0;
    for shift in 0..case.shifts() {
        cost += run_cost_of_shift(case, nurse, row, Shift(shift));
    }
    cost
}

/// The points for each missing or extra day of a run of one shift.
fn run_cost_of_shift(case: &Case, nurse: usize, row: &[Choice], shift: Shift) -> u64
    requires { length row.now ≤ most_days }
    ensures cost { result ≡ run_cost_of_shift case.now nurse (days_of row.now) shift.0 }
    ensures within { result ≤ shift_run_weight * 65536 * most_days }
{
    let before = shift_run_before(shift, case.past(nurse).border);
    let limits = case.run_of_shift(shift);
    SHIFT_RUN as u64 * run_violations(limits, before, row, Kind::Of(shift))
}

// ---- how many days of a kind come right before the first Monday

fn worked_before(border: Border) -> u16
    ensures { result ≡ worked_before border }
{
    match border {
        Border::Free(_) => 0,
        Border::Working { working_run, .. } => working_run,
    }
}

fn free_before(border: Border) -> u16
    ensures { result ≡ free_before border }
{
    match border {
        Border::Free(days) => days,
        Border::Working { .. } => 0,
    }
}

fn shift_run_before(shift: Shift, border: Border) -> u16
    ensures { result ≡ shift_run_before shift.0 border }
{
    match border {
        Border::Working {
            shift: last,
            shift_run,
            ..
        } if last.0 == shift.0 => shift_run,
        _ => 0,
    }
}

// ---- runs of a kind

/// The missing and the extra days of all runs of a kind. It goes through the row once, with the length of the
/// open run; `before` is the length of the run before the first Monday.
fn run_violations(limits: Limits, before: u16, row: &[Choice], kind: Kind) -> u64
    requires { length row.now ≤ most_days }
    ensures violations { result ≡ run_violations limits before
        (λ d. is_of kind (shift_on (days_of row.now) d)) (length (days_of row.now)) }
    ensures within { result ≤ 65536 * length row.now }
{
    let mut run = before as u32;
    let mut violations = 0;
    for choice in row {
        let of_kind = is_of(kind, choice.shift());
        violations += limits.day_violations(run, of_kind) as u64;
        run = next_run(run, of_kind);
    }
    violations
}

fn is_of(kind: Kind, shift: Option<Shift>) -> bool
    ensures { result ≡ is_of kind shift }
{
    match (kind, shift) {
        (Kind::Working, shift) => shift.is_some(),
        (Kind::Free, shift) => shift.is_none(),
        (Kind::Of(shift), Some(worked)) => worked.0 == shift.0,
        (Kind::Of(_), None) => false,
    }
}

fn next_run(run: u32, of_kind: bool) -> u32
    requires { run ≤ 131072 }
    ensures run { result ≡ (if of_kind then run + 1 else 0) }
    ensures within { result ≤ run + 1 }
{
    if of_kind { run + 1 } else { 0 }
}
