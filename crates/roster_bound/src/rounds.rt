//! Rounds that raise a lower bound.

ghost use Rattle.std.specs.Prelude.{◌≡◌, ◌+◌, ◌-◌, ◌*◌, ◌<◌, ◌≤◌, IfErr, IfOk, false, if◌then◌else◌, max, nat_lt};
ghost use Rattle.roster_bundle.specs.Limits.{greatest_u64};
ghost use Rattle.roster_instance.specs.Meaning.{nurse_count};
ghost use Rattle.roster_rules.specs.Penalties.{penalty};
ghost use Rattle.roster_laws.specs.Greatest.{extensions_in, greatest_extension_count};
ghost use Rattle.roster_bound.specs.BoundLogs.{rounds_alone, rounds_of};
ghost use Rattle.roster_bound.specs.BoundRuns.{BoundLogStops, HasReached, IsMadeOf, RaisesBound};
ghost use Rattle.roster_bound.specs.Branchings.{EndsBranching};
ghost use Rattle.roster_timer.specs.Deadlines.{is_up, time_of};
ghost use Rattle.roster_bound.specs.NodeCapacity.{nodes_capacity};
ghost use Rattle.roster_bound.specs.Rounds.{most_barren, sum_by};
ghost use Rattle.roster_slots.specs.Tables.{slot_prices};
ghost use Rattle.roster_slots.specs.Slots.{AreDualPrices};
ghost use Rattle.roster_prices.specs.Workspaces.{CountsRound, FitsBound};
ghost use Rattle.roster_prices.specs.LowerBounds.{IsLowerBound, bound_by};

use crate::bounds::{bound_of_sum, sum_in};
use crate::effort::{Effort, Raised, Reached, ReachedByRounds, Task};
use crate::tree::{BoundSpace, branch_least};
use crate::upper::UpperBound;
use roster_case::Held;
use roster_offers::SearchesRows;
use roster_prices::{Base, BoundWorkspace, Terms, prepare_next};
use roster_reports::{LogFault, log_round, log_start};
use roster_state::Meter;
use roster_text::Watch;
use roster_timer::Deadline;
use std::io::Write;
use std::time::Clock;

/// Raises a lower bound on the penalty of every roster of a case that keeps the hard rules and has the held
/// one's frozen days, if the weeks before `from` are frozen. It makes the number of rounds that is asked for,
/// each by other dual prices, and then of branchings, or fewer if the lower bound comes to be what the held
/// roster costs, since none is greater. It makes fewer rounds, too, if thirty in a row are barren: each of
/// these raises what slots and nurses cost at least together by less than a quarter of a point above the
/// greatest sum before; and fewer of both if the time is up. The log gets the penalty of the held roster, and
/// then each round in which the lower bound rose, as it comes; branchings are numbered as rounds after these.
/// Returns the last of these lower bounds, or 0 if there was none: it is no less than the first round's. It
/// takes no memory.
///
/// # Errors
///
/// The log failed.
pub fn raise_bound<W: Write, T: SearchesRows, K: Clock + Copy>(
    held: &Held,
    task: &mut Task<K>,
    space: &mut BoundSpace<T>,
    meter: &mut Meter,
    log: &mut Watch<W>,
) -> Result<Raised, LogFault>
    requires fits { FitsBound held.now.case space.old.bounds }
    requires room { meter.old + extensions_in held.now.case (rounds_of task.old.effort)
        ≤ greatest_u64 }
    // A round is left out only if the lower bound is what the roster costs, if the last thirty rounds were
    // barren, or if the time is up; the log shows these rounds, and the branchings after them, alone.
    ensures ok { IfOk result (λ raised. RaisesBound W.contents held.now.case task.old.from
        held.now.roster raised.effort meter.old meter.new log.old log.new raised.bound) }
    ensures made { IfOk result (λ raised. IsMadeOf task.old.effort task.new.deadline
        raised.effort) }
    ensures branched { IfOk result (EndsBranching W.contents held.now.case task.old.from
        held.now.roster task.new.deadline space.new meter.old meter.new log.old log.new) }
    ensures err { IfErr result (BoundLogStops W.contents held.now.case task.old.from
        held.now.roster task.old.effort log.old log.new) }
    ensures below { IfOk result (λ raised. IsLowerBound held.now.case task.old.from
        held.now.roster raised.bound) }
    ensures within { IfOk result (λ raised. raised.bound ≤ penalty held.now.case
        held.now.roster) }
    ensures task { task.new ≡ record task.old { deadline = task.new.deadline } }
    ensures ends { task.new.deadline.ends ≡ task.old.deadline.ends }
    ensures counted { meter.new ≤ meter.old + extensions_in held.now.case
        (rounds_of task.old.effort) }
    ensures same_nodes { nodes_capacity space.new.nodes ≡ nodes_capacity space.old.nodes }
    ensures fits { FitsBound held.now.case space.new.bounds }
{
    held.keeps_rules();
    let base = Base::of(held, task.from);
    let upper = UpperBound {
        base: &base,
        total: held.total(),
    };
    raise_below(&upper, task.effort, &mut task.deadline, space, meter, log)
}

/// The same for a roster that keeps the hard rules.
fn raise_below<W: Write, T: SearchesRows, K: Clock + Copy>(
    top: &UpperBound<'_>,
    effort: Effort,
    deadline: &mut Deadline<K>,
    space: &mut BoundSpace<T>,
    meter: &mut Meter,
    log: &mut Watch<W>,
) -> Result<Raised, LogFault>
    requires fits { FitsBound top.now.base.now.case.now space.old.bounds }
    requires room { meter.old + extensions_in top.now.base.now.case.now (rounds_of effort)
        ≤ greatest_u64 }
    ensures made { IfOk result (λ raised. IsMadeOf effort deadline.new raised.effort) }
    ensures branched { IfOk result (EndsBranching W.contents top.now.base.now.case.now
        top.now.base.now.from top.now.base.now.given.now deadline.new space.new meter.old
        meter.new log.old log.new) }
    ensures err { IfErr result (BoundLogStops W.contents top.now.base.now.case.now
        top.now.base.now.from top.now.base.now.given.now effort log.old log.new) }
    ensures below { IfOk result (λ raised. IsLowerBound top.now.base.now.case.now
        top.now.base.now.from top.now.base.now.given.now raised.bound) }
    ensures within { IfOk result (λ raised. raised.bound ≤ top.now.total) }
    ensures ends { deadline.new.ends ≡ deadline.old.ends }
    ensures counted { meter.new ≤ meter.old + extensions_in top.now.base.now.case.now
        (rounds_of effort) }
    ensures same_nodes { nodes_capacity space.new.nodes ≡ nodes_capacity space.old.nodes }
    ensures fits { FitsBound top.now.base.now.case.now space.new.bounds }
{
    let rounds = make_rounds(top, effort.rounds, deadline, &mut space.bounds, meter, log)?;
    let mut reached = rounds.reached;
    if rounds.rounds < effort.rounds {
        return Ok(raised_by(reached, rounds.rounds, 0));
    }
    if !space.nodes.begin(reached.bound) {
        return Ok(raised_by(reached, effort.rounds, effort.nodes));
    }
    for branched in 0..effort.nodes {
        if reached.bound >= top.total {
            return Ok(raised_by(reached, effort.rounds, effort.nodes));
        }
        if deadline.left() == 0 {
            return Ok(raised_by(reached, effort.rounds, branched));
        }
        let is_branched = branch_least(top, deadline, space, meter);
        if !is_branched {
            return Ok(raised_by(reached, effort.rounds, effort.nodes));
        }
        let bound = space.nodes.bound();
        if bound <= reached.bound {
            continue;
        }
        let round = effort.rounds as u64 + branched as u64 + 1;
        let sent = log_round(log, reached.sent, round, bound)?;
        reached = Reached { bound, sent };
    }
    Ok(raised_by(reached, effort.rounds, effort.nodes))
}

/// What was reached by this many rounds and branchings.
fn raised_by(reached: Reached, rounds: u16, nodes: u16) -> Raised
    ensures bound { result.bound ≡ reached.bound }
    ensures effort { result.effort ≡ record { rounds = rounds; nodes = nodes } }
{
    Raised {
        bound: reached.bound,
        effort: Effort { rounds, nodes },
    }
}

/// The rounds alone.
fn make_rounds<W: Write, T: SearchesRows, K: Clock + Copy>(
    top: &UpperBound<'_>,
    rounds: u16,
    deadline: &mut Deadline<K>,
    workspace: &mut BoundWorkspace<T>,
    meter: &mut Meter,
    log: &mut Watch<W>,
) -> Result<ReachedByRounds, LogFault>
    requires fits { FitsBound top.now.base.now.case.now workspace.old }
    requires room { meter.old + extensions_in top.now.base.now.case.now rounds ≤ greatest_u64 }
    ensures ok { IfOk result (λ x. HasReached W.contents top.now.base.now.case.now
        top.now.base.now.from top.now.base.now.given.now (rounds_alone x.rounds) meter.old
        meter.new log.old log.new x.reached) }
    ensures few { IfOk result (λ x. x.rounds ≤ rounds) }
    ensures all { IfOk result (λ x. is_up (time_of deadline.new) ≡ false → x.rounds ≡ rounds) }
    ensures err { IfErr result (BoundLogStops W.contents top.now.base.now.case.now
        top.now.base.now.from top.now.base.now.given.now (rounds_alone rounds) log.old
        log.new) }
    ensures below { IfOk result (λ x. IsLowerBound top.now.base.now.case.now
        top.now.base.now.from top.now.base.now.given.now x.reached.bound) }
    ensures ends { deadline.new.ends ≡ deadline.old.ends }
    ensures counted { meter.new ≤ meter.old + extensions_in top.now.base.now.case.now rounds }
    ensures fits { FitsBound top.now.base.now.case.now workspace.new }
{
    let base = top.base;
    workspace.begin(base.case);
    let mut best = 0;
    let mut gains = Gains { top: 0, barren: 0 };
    let mut sent = log_start(log, 0, base.case, top.total)?;
    deadline.left();
    for rounds_before in 0..rounds {
        if best >= top.total {
            return Ok(reached_by(best, sent, rounds));
        }
        if gains.barren >= MOST_BARREN {
            return Ok(reached_by(best, sent, rounds));
        }
        if deadline.left_after_step() == 0 {
            return Ok(reached_by(best, sent, rounds_before));
        }
        let round = make_round(base, workspace, meter);
        prepare_next(base.case, rounds_before, Some(top.total), workspace);
        gains = gains.after(round.sum, base.scale);
        if round.bound <= best {
            continue;
        }
        best = round.bound;
        sent = log_round(log, sent, rounds_before as u64 + 1, best)?;
    }
    Ok(reached_by(best, sent, rounds))
}

/// A lower bound that was reached by this many rounds.
fn reached_by(bound: u64, sent: usize, rounds: u16) -> ReachedByRounds
    ensures reached { result.reached ≡ record { bound = bound; sent = sent } }
    ensures rounds { result.rounds ≡ rounds }
{
    ReachedByRounds {
        reached: Reached { bound, sent },
        rounds,
    }
}

/// After this many barren rounds in a row, no more are made.
const MOST_BARREN: u16 = 30;

/// The greatest sum of the rounds so far, and how many rounds in a row, up to the last one, were barren.
#[derive(Clone, Copy)]
struct Gains {
    top: u64,
    barren: u16,
}

impl Gains {
    /// The same after a round with this sum, in parts of a point. It is barren if it raised the greatest sum
    /// by less than a quarter of a point.
    fn after(self, sum: u64, scale: u32) -> Gains
        requires { self.barren < most_barren }
        ensures top { result.top ≡ max sum self.top }
        ensures barren { result.barren ≡ (if nat_lt (4 * (sum - self.top)) scale
            then self.barren + 1 else 0) }
    {
        let gain = sum.saturating_sub(self.top);
        let barren = if gain.saturating_mul(4) < scale as u64 {
            self.barren + 1
        } else {
            0
        };
        Gains {
            top: sum.max(self.top),
            barren,
        }
    }
}

/// What a round found: what slots and nurses cost at least together, as `sum_in` gives it, and the lower
/// bound that this gives.
#[derive(Clone, Copy)]
struct RoundBound {
    sum: u64,
    bound: u64,
}

/// The lower bound by the dual prices. The cover counts each nurse's cheapest row, and the pool keeps it.
fn make_round<T: SearchesRows>(
    base: &Base<'_>,
    workspace: &mut BoundWorkspace<T>,
    meter: &mut Meter,
) -> RoundBound
    requires fits { FitsBound base.now.case.now workspace.old }
    requires room { meter.old + nurse_count base.now.case.now * greatest_extension_count
        base.now.case.now ≤ greatest_u64 }
    ensures below { IsLowerBound base.now.case.now base.now.from base.now.given.now result.bound }
    ensures dual_prices { AreDualPrices base.now.scale
        (slot_prices base.now.scale workspace.old.dual_prices) }
    ensures sum { result.sum ≡ sum_by base.now.case.now base.now.from base.now.given.now
        base.now.scale (slot_prices base.now.scale workspace.old.dual_prices) }
    ensures bound { result.bound ≡ bound_by base.now.case.now base.now.from base.now.given.now
        base.now.scale (slot_prices base.now.scale workspace.old.dual_prices) }
    ensures counted { CountsRound base.now.case.now meter.old meter.new }
    ensures fits { FitsBound base.now.case.now workspace.new }
{
    workspace.dual_prices.keep_most();
    let terms = Terms {
        case: base.case,
        dual_prices: &workspace.dual_prices,
        given: base.given,
        from: base.from,
        scale: base.scale,
    };
    let sum = sum_in(&terms, &[], &mut workspace.rows, &mut workspace.pool, meter);
    RoundBound {
        sum,
        bound: bound_of_sum(base.case, base.scale, sum),
    }
}
