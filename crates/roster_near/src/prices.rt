//! The dual prices of a subproblem's slots, and steps by which they move.

ghost use Rattle.std.specs.Prelude.{◌≡◌};
ghost use Rattle.roster_instance.specs.Meaning.{day_count};

use crate::choices::NUMBERS;
use crate::problem::{FINE_STAFFING, MOST_SLOTS, Problem, Slot};
use roster_instance::Case;
use roster_slots::{DualPrices, FINE_PER_POINT};
use std::alloc::{AllocError, Global};

/// The greatest dual price, in fine units: 1,000 points.
const MOST_PRICE: u32 = 1000 * FINE_PER_POINT;

/// A direction is at most this, in 16ths of a nurse.
const MOST_DIRECTION: i64 = 1 << 16;

/// Shares are in 256ths.
const WHOLE: i64 = 256;

/// Dual prices in fine units: those at hand, those of the best value, and those of the best value of some
/// steps; the subgradient and the direction of the last step, in 16ths of a nurse, with the direction's
/// square; what each cell pays by the prices at hand; and the cover of the slots by the rows that are
/// cheapest by them. That is 90,112 bytes, and 260 for each day.
pub(crate) struct Prices {
    pub(crate) at_hand: Vec<u32>,
    pub(crate) best: Vec<u32>,
    pub(crate) top: Vec<u32>,
    subgradient: Vec<i32>,
    direction: Vec<i32>,
    square: u64,
    pub(crate) earned: Vec<u32>,
    pub(crate) cover: Vec<u16>,
}

// Written by hand, so that a function that drops it has one call to prove.
impl Drop for Prices {
    fn drop(self) {
        let Prices {
            at_hand: _,
            best: _,
            top: _,
            subgradient: _,
            direction: _,
            square: _,
            earned: _,
            cover: _,
        } = self;
    }
}

impl Prices {
    /// The memory for the subproblems of a case, by seven allocations.
    ///
    /// # Errors
    ///
    /// An allocation was refused.
    pub(crate) fn for_case(alloc: Global, case: &Case) -> Result<Prices, AllocError> {
        Ok(Prices {
            at_hand: vec![in alloc; 0; MOST_SLOTS]?,
            best: vec![in alloc; 0; MOST_SLOTS]?,
            top: vec![in alloc; 0; MOST_SLOTS]?,
            subgradient: vec![in alloc; 0; MOST_SLOTS]?,
            direction: vec![in alloc; 0; MOST_SLOTS]?,
            square: 0,
            earned: vec![in alloc; 0; NUMBERS * case.days() as usize]?,
            cover: vec![in alloc; 0; MOST_SLOTS]?,
        })
    }

    /// Begins with the dual prices of all slots of the case.
    pub(crate) fn begin(&mut self, case: &Case, problem: &Problem, ward: &DualPrices)
        requires { ward.now.days ≡ day_count case.now }
    {
        self.earned.fill(0);
        for at in 0..problem.slot_count.min(self.at_hand.len()) {
            let index = problem.slot(at).index as usize;
            if index < 64 * case.days() as usize {
                self.at_hand[at] = ward.fine_at(index).min(MOST_PRICE);
            }
        }
    }

    /// Rounds the prices at hand down to whole parts of a point, as a search at this scale counts.
    pub(crate) fn round_to(&mut self, scale: u32) {
        let part = (FINE_PER_POINT / scale.max(1)).max(1);
        for at in 0..self.at_hand.len() {
            self.at_hand[at] = self.at_hand[at] / part * part;
        }
    }

    /// Sets what each cell pays by the prices at hand.
    pub(crate) fn set_earned(&mut self, problem: &Problem) {
        for at in 0..problem.slot_count.min(self.at_hand.len()) {
            let cell = problem.slot(at).cell as usize;
            if cell < self.earned.len() {
                self.earned[cell] = self.at_hand[at];
            }
        }
    }

    /// Sets the prices at hand in the dual prices of all slots of the case.
    pub(crate) fn put_into(&self, case: &Case, problem: &Problem, prices: &mut DualPrices)
        requires { prices.old.days ≡ day_count case.now }
        ensures { prices.new.days ≡ day_count case.now }
    {
        for at in 0..problem.slot_count.min(self.at_hand.len()) {
            let index = problem.slot(at).index as usize;
            if index < 64 * case.days() as usize {
                prices.put_fine(index, self.at_hand[at]);
            }
        }
    }

    /// What the slots cost at least by the prices at hand, in fine units.
    pub(crate) fn slots_value(&self, problem: &Problem) -> i64 {
        let mut value: i64 = 0;
        for at in 0..problem.slot_count.min(self.at_hand.len()) {
            value = value.saturating_add(slot_value(problem.slot(at), self.at_hand[at]));
        }
        value
    }

    /// Forgets the cover.
    pub(crate) fn uncover(&mut self) {
        self.cover.fill(0);
    }

    /// Keeps the prices at hand as those of the best value.
    pub(crate) fn keep_best(&mut self) {
        copy_prices(&self.at_hand, &mut self.best);
    }

    /// Takes the prices of the best value.
    pub(crate) fn take_best(&mut self) {
        copy_prices(&self.best, &mut self.at_hand);
    }

    /// Keeps the prices at hand as those of the best value of some steps.
    pub(crate) fn keep_top(&mut self) {
        copy_prices(&self.at_hand, &mut self.top);
    }

    /// Takes those prices.
    pub(crate) fn take_top(&mut self) {
        copy_prices(&self.top, &mut self.at_hand);
    }

    /// Takes prices between those of the best value and those of the best value of the last steps: `share`
    /// 256ths of the former.
    pub(crate) fn take_between(&mut self, share: u32) {
        let share = share.min(256) as u64;
        for at in 0..self.at_hand.len().min(self.best.len()).min(self.top.len()) {
            let best = share.saturating_mul(self.best[at] as u64);
            let top = (256 - share).saturating_mul(self.top[at] as u64);
            let between = best.saturating_add(top).saturating_add(128) / 256;
            self.at_hand[at] = between.min(MOST_PRICE as u64) as u32;
        }
    }

    /// Forgets the direction of the last step.
    pub(crate) fn begin_steps(&mut self) {
        self.direction.fill(0);
        self.square = 0;
    }

    /// Makes a step by the cover, which is to raise the value by `short` if `pace` is 1024. Returns false if
    /// no price would move.
    pub(crate) fn step(&mut self, problem: &Problem, short: u64, pace: u32) -> bool {
        let along = self.set_subgradient(problem);
        self.turn(problem, kept_share(along, self.square));
        if self.square == 0 {
            return false;
        }
        for at in 0..problem
            .slot_count
            .min(self.at_hand.len())
            .min(self.direction.len())
        {
            self.at_hand[at] = moved(
                self.at_hand[at],
                self.direction[at],
                short.saturating_mul(pace as u64),
                self.square,
            );
        }
        true
    }

    /// Sets the subgradient, and returns its product with the direction of the last step.
    fn set_subgradient(&mut self, problem: &Problem) -> i64 {
        let slots = problem
            .slot_count
            .min(self.at_hand.len())
            .min(self.cover.len())
            .min(self.direction.len())
            .min(self.subgradient.len());
        let mut along: i64 = 0;
        for at in 0..slots {
            let short = shortage(problem.slot(at), self.at_hand[at], self.cover[at]);
            self.subgradient[at] = short;
            let product = (short as i64).saturating_mul(self.direction[at] as i64);
            along = along.saturating_add(product);
        }
        along
    }

    /// Turns the direction to the subgradient, with a share of the one before. A price of 0 doesn't fall.
    fn turn(&mut self, problem: &Problem, share: i64) {
        let slots = problem
            .slot_count
            .min(self.at_hand.len())
            .min(self.direction.len())
            .min(self.subgradient.len());
        let mut square: u64 = 0;
        for at in 0..slots {
            let towards = turned(
                self.direction[at],
                self.subgradient[at],
                share,
                self.at_hand[at],
            );
            self.direction[at] = towards;
            let long = towards.unsigned_abs() as u64;
            square = square.saturating_add(long.saturating_mul(long));
        }
        self.square = square;
    }
}

/// What a slot costs at least at a dual price, in fine units: the price of each nurse whom it wants, less
/// what it spares if some stay lacking at a price above what a missing nurse costs.
fn slot_value(slot: Slot, price: u32) -> i64 {
    let full = (price as i64).saturating_mul(slot.want as i64);
    let above = (price.saturating_sub(FINE_STAFFING) as i64).saturating_mul(slot.pay as i64);
    full.saturating_sub(above)
}

/// By how many 16ths of a nurse a slot is short of those whom it wants at its price: all of them up to what a
/// missing nurse costs, and beyond that those who may not stay lacking. At just that price any cover between
/// is right. At price 0 a slot isn't above its cover.
fn shortage(slot: Slot, price: u32, nurses: u16) -> i32 {
    let least = slot.want.saturating_sub(slot.pay);
    let wanted = if price > FINE_STAFFING {
        least
    } else {
        slot.want
    };
    if price == FINE_STAFFING && least <= nurses && nurses <= slot.want {
        return 0;
    }
    if price == 0 && wanted <= nurses {
        return 0;
    }
    16 * (wanted as i32 - nurses as i32)
}

/// Which share of the direction is kept, in 256ths: one and a half times as much as leaves it no longer
/// opposed to the subgradient, but at most the whole.
fn kept_share(along: i64, square: u64) -> i64 {
    if along >= 0 {
        return 0;
    }
    let share = along.unsigned_abs().saturating_mul(384) / square.max(1);
    share.min(256) as i64
}

/// A direction after a turn to the subgradient: a share of the one before is kept, in 256ths. A price of 0
/// doesn't fall.
fn turned(before: i32, subgradient: i32, share: i64, price: u32) -> i32 {
    let kept = (before as i64).saturating_mul(share) / WHOLE;
    let towards = kept
        .saturating_add(subgradient as i64)
        .clamp(-MOST_DIRECTION, MOST_DIRECTION) as i32;
    if towards < 0 && price == 0 {
        0
    } else {
        towards
    }
}

/// A price after a move in a direction, by `long / 1024` if that has the square of a nurse.
fn moved(price: u32, towards: i32, long: u64, square: u64) -> u32 {
    let twice = long.saturating_mul(towards.unsigned_abs() as u64)
        / square.saturating_mul(32).max(1);
    let by = (twice.saturating_add(1) / 2).min(MOST_PRICE as u64) as u32;
    if towards > 0 {
        price.saturating_add(by).min(MOST_PRICE)
    } else if towards < 0 {
        price.saturating_sub(by)
    } else {
        price
    }
}

/// Copies prices.
fn copy_prices(from: &[u32], to: &mut [u32]) {
    for at in 0..from.len().min(to.len()) {
        to[at] = from[at];
    }
}
