//! Rounds of steps.

ghost use Rattle.std.specs.Prelude.{◌≡◌, ◌+◌, ◌*◌, ◌<◌, ◌≤◌, true, IfErr, IfOk};
ghost use Rattle.roster_bundle.specs.Limits.{greatest_u64};
ghost use Rattle.roster_instance.specs.Meaning.{nurse_count};
ghost use Rattle.roster_rules.specs.AllowedRows.{best_row};
ghost use Rattle.roster_rules.specs.Improver.{round_log};
ghost use Rattle.roster_laws.specs.FrozenDays.{FrozenDaysStay};
ghost use Rattle.roster_laws.specs.Greatest.{extensions_in, greatest_extension_count};
ghost use Rattle.roster_offers.specs.Workspaces.{SameCapacity};
ghost use Rattle.roster_rounds.specs.RunLogs.{BreaksAmong, LogStops, Ran, RoundMade};

use crate::outcome::Outcome;
use crate::steps::Steps;
use roster_case::Held;
use roster_reports::{LogFault, log_change, log_round, log_start, log_word};
use roster_state::Meter;
use roster_text::{Watch, WriteFault};
use std::io::Write;

/// Makes rounds until one changes nothing, or until the given number is made. A round is a step for each
/// nurse, in the order of the case. The frozen days stay as they are: those of the weeks before week `from`,
/// and fixed ones. Each line of the log goes out as soon as it is made.
///
/// With a `Workspace` each step is a search. A `RunSpace` takes less time: a nurse isn't searched for again
/// if the last search for her in the run shows that no row is cheaper.
///
/// # Errors
///
/// The log failed. The roster is the one of the first line that didn't go out completely.
pub fn improve<W: Write, S: Steps>(
    held: &mut Held,
    rounds: u16,
    from: u16,
    workspace: &mut S,
    meter: &mut Meter,
    log: &mut Watch<W>,
) -> Result<Outcome, LogFault>
    requires fits { S.fits held.old.case workspace.old ≡ true }
    requires room { meter.old + extensions_in held.old.case rounds ≤ greatest_u64 }
    ensures case { held.new.case ≡ held.old.case }
    ensures ok { IfOk result (Ran W.contents held.old.case (best_row held.old.case from) rounds
        held.old.roster held.new.roster log.old log.new) }
    ensures err { IfErr result (LogStops W.contents held.old.case (best_row held.old.case from)
        rounds held.old.roster held.new.roster log.old log.new) }
    ensures frozen { FrozenDaysStay held.old.case from held.old.roster held.new.roster }
    ensures counted { meter.new ≤ meter.old + extensions_in held.old.case rounds }
    ensures same_capacity { SameCapacity (S.space workspace.old) (S.space workspace.new) }
    ensures same_last { S.known_capacity workspace.new ≡ S.known_capacity workspace.old }
    ensures fits { S.fits held.old.case workspace.new ≡ true }
{
    workspace.begin();
    make_rounds(held, rounds, from, workspace, meter, log)
}

/// A run with `Steps` that are ready.
fn make_rounds<W: Write, S: Steps>(
    held: &mut Held,
    rounds: u16,
    from: u16,
    steps: &mut S,
    meter: &mut Meter,
    log: &mut Watch<W>,
) -> Result<Outcome, LogFault>
    requires ready { S.IsReady held.old.case steps.old }
    requires room { meter.old + extensions_in held.old.case rounds ≤ greatest_u64 }
    ensures case { held.new.case ≡ held.old.case }
    ensures ok { IfOk result (Ran W.contents held.old.case (best_row held.old.case from) rounds
        held.old.roster held.new.roster log.old log.new) }
    ensures err { IfErr result (LogStops W.contents held.old.case (best_row held.old.case from)
        rounds held.old.roster held.new.roster log.old log.new) }
    ensures frozen { FrozenDaysStay held.old.case from held.old.roster held.new.roster }
    ensures counted { meter.new ≤ meter.old + extensions_in held.old.case rounds }
    ensures same_capacity { SameCapacity (S.space steps.old) (S.space steps.new) }
    ensures same_last { S.known_capacity steps.new ≡ S.known_capacity steps.old }
    ensures ready { S.IsReady held.old.case steps.new }
{
    let mut sent = log_start(log, 0, held.case(), held.total())?;
    let mut changes = 0;
    for rounds_before in 0..rounds {
        let plan = RoundPlan {
            round: rounds_before + 1,
            from,
        };
        let made = make_round(held, plan, steps, meter, log, sent)?;
        sent = made.sent;
        changes += made.changes;
        if made.changes == 0 {
            let total = held.total();
            log_word(log, sent, b"settled", total)?;
            return Ok(Outcome {
                settled: true,
                rounds: rounds_before + 1,
                changes,
                total,
            });
        }
    }
    let total = held.total();
    log_word(log, sent, b"stopped", total)?;
    Ok(Outcome {
        settled: false,
        rounds,
        changes,
        total,
    })
}

/// A round to be made: its number, from 1, and the first week that may change.
#[derive(Clone, Copy)]
struct RoundPlan {
    round: u16,
    from: u16,
}

/// A round that was made: how many bytes of the log are sent, and how many steps changed the roster.
#[derive(Clone, Copy)]
struct Round {
    sent: usize,
    changes: u32,
}

/// A step for each nurse, a line for each that changed the roster, and the line of the round.
fn make_round<W: Write, S: Steps>(
    held: &mut Held,
    plan: RoundPlan,
    steps: &mut S,
    meter: &mut Meter,
    log: &mut Watch<W>,
    mut sent: usize,
) -> Result<Round, WriteFault>
    requires ready { S.IsReady held.old.case steps.old }
    requires room { meter.old + nurse_count held.old.case * greatest_extension_count
        held.old.case ≤ greatest_u64 }
    ensures case { held.new.case ≡ held.old.case }
    ensures ok { IfOk result (λ made. RoundMade W.contents held.old.case
        (best_row held.old.case plan.from) plan.round held.old.roster held.new.roster log.old
        log.new sent made.sent made.changes) }
    ensures err { IfErr result (BreaksAmong W.contents held.old.case
        (round_log held.old.case (best_row held.old.case plan.from) plan.round held.old.roster)
        held.new.roster log.old log.new sent) }
    ensures frozen { FrozenDaysStay held.old.case plan.from held.old.roster held.new.roster }
    ensures counted { meter.new ≤ meter.old + nurse_count held.old.case * greatest_extension_count
        held.old.case }
    ensures same_capacity { SameCapacity (S.space steps.old) (S.space steps.new) }
    ensures same_last { S.known_capacity steps.new ≡ S.known_capacity steps.old }
    ensures ready { S.IsReady held.old.case steps.new }
{
    let mut changes = 0;
    for nurse in 0..held.case().nurses() {
        let step = steps.step(held, nurse, plan.from, meter);
        if !step.changed {
            continue;
        }
        changes += 1;
        sent = log_change(
            log,
            sent,
            plan.round,
            held.case().nurse_name(nurse),
            step.after,
        )?;
    }
    sent = log_round(log, sent, plan.round as u64, held.total())?;
    Ok(Round { sent, changes })
}
