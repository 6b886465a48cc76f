//! Dual ascent: rounds of searches at the prices, and steps over the rows at hand between them.

ghost use Rattle.std.specs.Prelude.{◌≡◌};
ghost use Rattle.roster_instance.specs.Meaning.{day_count};
ghost use Rattle.roster_near.specs.Spending.{CanGoOn, HasGoneOn};

use crate::space::NearSpace;
use crate::spend::search_one;
use crate::task::{Task, Turn};
use crate::work::Budget;
use roster_instance::Choice;
use roster_offers::SearchesRows;
use roster_prices::{BoundWorkspace, WindowTerms};
use roster_slots::{DualPrices, FINE_PER_POINT, unreduced_cost};
use roster_state::Meter;

/// How many rounds of searches are made at most.
const MOST_ROUNDS: u32 = 40;

/// After this many rounds in succession that gained little it ends.
const MOST_POOR: u32 = 6;

/// How many steps over the rows at hand follow a round at most.
const MOST_STEPS: u32 = 150;

/// A gain of less than a quarter of a point is little.
const LITTLE: i64 = FINE_PER_POINT as i64 / 4;

/// After this many steps in succession without a gain the pace falls.
pub(crate) const MOST_STALE: u32 = 10;

/// The greatest and the least pace of steps: 1024 for a whole step of Polyak's length.
pub(crate) const FULL_PACE: u32 = 1024;

const LEAST_PACE: u32 = 64;

/// In how many 256ths the next prices are those of the best value so far.
const FULL_SHARE: u32 = 64;

/// How far an ascent has come: its best value so far, how many rounds in succession gained little, the pace
/// of its steps, and the share of the best prices in the next ones.
#[derive(Clone, Copy)]
pub(crate) struct Ascent {
    pub(crate) best: i64,
    poor: u32,
    pace: u32,
    share: u32,
}

/// What a round of searches found: the value of its prices, and how many rows were new.
#[derive(Clone, Copy, Default)]
pub(crate) struct Round {
    value: i64,
    news: u32,
}

impl Ascent {
    /// Before the first round.
    fn begin() -> Ascent {
        Ascent {
            best: i64::MIN,
            poor: 0,
            pace: FULL_PACE,
            share: FULL_SHARE,
        }
    }

    /// Records a round. Returns whether its value is the best so far.
    fn record(&mut self, round: Round) -> bool {
        let rose = round.value > self.best;
        if rose && round.value.saturating_sub(self.best) >= LITTLE {
            self.poor = 0;
        } else {
            self.poor = self.poor.saturating_add(1);
        }
        if rose {
            self.best = round.value;
        }
        self.share = if round.news == 0 {
            self.share / 2
        } else {
            FULL_SHARE
        };
        rose
    }

    /// Whether no further round is made, after a first one or a later one.
    fn is_done(&self, round: Round, is_first: bool) -> bool {
        self.poor >= MOST_POOR || (round.news == 0 && !is_first && self.poor > 1)
    }
}

/// Improves the prices, from those at hand on, until their value is above the target or gains little. The
/// best prices are then kept. Returns the best value, or `None` if no search is left.
pub(crate) fn ascend<T: SearchesRows>(
    task: &Task<'_>,
    near: &mut NearSpace,
    bounds: &mut BoundWorkspace<T>,
    prices: &mut DualPrices,
    budget: &mut Budget,
    meter: &mut Meter,
) -> Option<i64>
    requires able { CanGoOn task.now.base.now.case.now bounds.old meter.old budget.old.left }
    requires days { prices.old.days ≡ day_count task.now.base.now.case.now }
    ensures gone { HasGoneOn task.now.base.now.case.now bounds.new meter.old budget.old.left
        meter.new budget.new.left }
    ensures days { prices.new.days ≡ day_count task.now.base.now.case.now }
{
    let mut reached = Ascent::begin();
    'rounds: for rounds_before in 0..MOST_ROUNDS {
        let Some(round) = search_round(task, near, bounds, prices, budget, meter) else {
            return None;
        };
        if reached.record(round) {
            near.prices.keep_best();
        }
        let is_proved = reached.best > near.found.target();
        if is_proved || reached.is_done(round, rounds_before == 0) {
            return Some(reached.best);
        }
        near.step_over_hand(&mut reached);
    }
    Some(reached.best)
}

/// Searches each free nurse's cheapest row by the prices at hand, and considers these rows together. Returns
/// `None` if no search is left.
fn search_round<T: SearchesRows>(
    task: &Task<'_>,
    near: &mut NearSpace,
    bounds: &mut BoundWorkspace<T>,
    prices: &mut DualPrices,
    budget: &mut Budget,
    meter: &mut Meter,
) -> Option<Round>
    requires able { CanGoOn task.now.base.now.case.now bounds.old meter.old budget.old.left }
    requires days { prices.old.days ≡ day_count task.now.base.now.case.now }
    ensures gone { HasGoneOn task.now.base.now.case.now bounds.new meter.old budget.old.left
        meter.new budget.new.left }
    ensures days { prices.new.days ≡ day_count task.now.base.now.case.now }
{
    near.set_prices(task, prices);
    near.prices.uncover();
    let mut round = Round {
        value: near.prices.slots_value(&near.problem),
        news: 0,
    };
    for free in 0..near.problem.free {
        let turn = Turn { task: &*task, free };
        let Some(found) = search_nurse(&turn, near, bounds, prices, budget, meter) else {
            return None;
        };
        round.value = round.value.saturating_add(found.value);
        round.news = round.news.saturating_add(found.news);
    }
    near.consider_hand();
    Some(round)
}

/// Searches a free nurse's cheapest row, which joins her pooled rows and those at hand. Returns its value,
/// and whether it is new, or `None` if no search is left.
fn search_nurse<T: SearchesRows>(
    turn: &Turn<'_>,
    near: &mut NearSpace,
    bounds: &mut BoundWorkspace<T>,
    prices: &DualPrices,
    budget: &mut Budget,
    meter: &mut Meter,
) -> Option<Round>
    requires able { CanGoOn turn.now.task.now.base.now.case.now bounds.old meter.old
        budget.old.left }
    requires days { prices.now.days ≡ day_count turn.now.task.now.base.now.case.now }
    ensures gone { HasGoneOn turn.now.task.now.base.now.case.now bounds.new meter.old
        budget.old.left meter.new budget.new.left }
{
    let nurse = near.problem.nurse(turn.free);
    let terms = WindowTerms {
        base: turn.task.base,
        dual_prices: prices,
        window: near.problem.window,
        node: turn.task.node,
    };
    let Some(cost) = search_one(&terms, nurse, &mut bounds.rows, budget, meter) else {
        return None;
    };
    let row = bounds.rows.workspace.row();
    let own = unreduced_cost(row, cost, turn.task.base.scale, prices);
    bounds.pool.keep(turn.task.base.case, nurse, row, own);
    Some(near.take_found(turn.free, row, own))
}

impl NearSpace {
    /// Sets the dual prices of all slots of the case to those at hand, rounded to what searches distinguish.
    pub(crate) fn set_prices(&mut self, task: &Task<'_>, prices: &mut DualPrices)
        requires { prices.old.days ≡ day_count task.now.base.now.case.now }
        ensures days { prices.new.days ≡ day_count task.now.base.now.case.now }
    {
        self.prices.round_to(task.base.scale);
        self.prices.set_earned(&self.problem);
        self.prices.put_into(task.base.case, &self.problem, prices);
    }

    /// Takes a row that a search found among those at hand, picks it, and counts it in the cover.
    fn take_found(&mut self, free: usize, row: &[Choice], own: u32) -> Round {
        self.problem.write_numbers(row, &mut self.numbers);
        let value = self.value_of_numbers(own);
        let before = self.hand.span(free).count;
        if let Some(at) = self.take_numbers(free, own) {
            self.set_pick(free, at);
        }
        let days = self.problem.days().min(self.numbers.len());
        self.problem
            .count_numbers(&self.numbers[..days], &mut self.prices.cover);
        let is_new = self.hand.span(free).count > before;
        Round {
            value,
            news: if is_new { 1 } else { 0 },
        }
    }

    /// Makes steps from the best prices over the rows at hand. The prices at hand are then between the best
    /// ones and those of the best value of these steps.
    fn step_over_hand(&mut self, reached: &mut Ascent) {
        self.prices.take_best();
        self.prices.set_earned(&self.problem);
        self.prices.begin_steps();
        let mut pace = Pace::begin(reached.pace);
        for _step in 0..MOST_STEPS {
            self.work.make_step();
            let value = self.value_hand();
            if pace.record(value) {
                self.prices.keep_top();
            }
            let goal = self.found.target().saturating_add(FINE_PER_POINT as i64);
            if value > goal || !self.step_towards(goal, value, pace.pace) {
                break;
            }
        }
        self.prices.take_top();
        reached.pace = pace.quicker();
        self.prices.take_between(reached.share);
    }

    /// Makes a step that is to raise the value to a point above the goal. Returns false if no price moves.
    pub(crate) fn step_towards(&mut self, goal: i64, value: i64, pace: u32) -> bool {
        let short = goal
            .saturating_add(FINE_PER_POINT as i64)
            .saturating_sub(value)
            .max(0)
            .unsigned_abs();
        let moves = self.prices.step(&self.problem, short, pace);
        self.prices.set_earned(&self.problem);
        moves
    }
}

/// The pace of steps: it falls by a quarter after ten steps without a better value.
#[derive(Clone, Copy)]
pub(crate) struct Pace {
    pub(crate) pace: u32,
    top: i64,
    stale: u32,
}

impl Pace {
    /// Before the first step.
    pub(crate) fn begin(pace: u32) -> Pace {
        Pace {
            pace,
            top: i64::MIN,
            stale: 0,
        }
    }

    /// Records a value. Returns whether it is the best of these steps.
    pub(crate) fn record(&mut self, value: i64) -> bool {
        if value > self.top {
            self.top = value;
            self.stale = 0;
            return true;
        }
        self.stale = self.stale.saturating_add(1);
        if self.stale >= MOST_STALE {
            self.pace = (self.pace.saturating_mul(3) / 4).max(LEAST_PACE);
            self.stale = 0;
        }
        false
    }

    /// The pace of the next steps, after a round of searches: a quarter more.
    pub(crate) fn quicker(&self) -> u32 {
        (self.pace.saturating_mul(5) / 4).min(FULL_PACE)
    }
}
