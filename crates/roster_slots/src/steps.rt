//! Subgradient steps: how dual prices move after a round of searches. The dual price of a slot that is short
//! of nurses rises, that of a slot with too many falls, by deflected steps of Polyak's length towards a
//! target that follows the run.

ghost use Rattle.std.specs.Prelude.{◌≡◌, ◌*◌, ◌<◌, ◌≤◌, length};
ghost use Rattle.roster_instance.specs.Meaning.{day_count};

use crate::dual_prices::{DualPrices, FINE_PER_POINT, MOST_FINE};
use crate::slots::need_at;
use roster_instance::{Case, Choice, Need};
use roster_rules::weights::STAFFING;

/// Towards which value the steps after a round go: one that is above the greatest value with which steps have
/// begun so far, by a margin. A value is what slots and pooled rows cost at least by dual prices. Both are in
/// fine units.
#[derive(Clone, Copy)]
pub struct Target {
    margin: u64,
    top: Option<u64>,
}

/// The margin is at most this many fine units,
const MOST_MARGIN: u64 = 1 << 40;

/// and at least half a point.
const LEAST_MARGIN: u64 = FINE_PER_POINT as u64 / 2;

impl Target {
    /// Before the first steps, which go beyond the first value by this margin.
    pub fn with_margin(margin: u64) -> Target {
        Target { margin, top: None }
    }

    /// The target of the steps that begin at this value; it is at most the cap. The margin grows if the value
    /// is above the greatest one by an eighth of it, and else it shrinks.
    pub fn begin_at(&mut self, value: u64, cap: u64) -> u64
        ensures { result ≤ cap }
    {
        let (rose, top) = match self.top {
            Some(top) => (value >= top.saturating_add(self.margin / 8), top.max(value)),
            None => (true, value),
        };
        self.margin = if rose {
            (self.margin.saturating_mul(5) / 4).min(MOST_MARGIN)
        } else {
            (self.margin.saturating_mul(59) / 64).max(LEAST_MARGIN)
        };
        self.top = Some(top);
        top.saturating_add(self.margin).min(cap)
    }
}

/// The greatest target below a roster with this penalty: a unit less, and a point more. No value has to be
/// greater, since this one shows already that no roster is cheaper. If there is no roster, any target will
/// do. As in what pooled rows cost, the greatest dual price is in it once for each nurse and day.
pub fn target_cap(case: &Case, penalty: Option<u64>) -> u64 {
    let Some(penalty) = penalty else {
        return u64::MAX;
    };
    let point = FINE_PER_POINT as u64;
    let unit = if case.keep() % 5 == 0 {
        5 * point
    } else {
        point
    };
    let most = (case.days() as u64 * MOST_FINE as u64).saturating_mul(case.nurses() as u64);
    let above = point.saturating_mul(penalty.saturating_add(1));
    most.saturating_add(above).saturating_sub(unit)
}

/// What all slots cost at least by the dual prices, in fine units.
pub fn fine_slots_cost(case: &Case, dual_prices: &DualPrices) -> u64
    requires { dual_prices.now.days ≡ day_count case.now }
{
    let mut cost: u64 = 0;
    for slot in 0..64 * case.days() as usize {
        let fine = dual_prices.fine_at(slot);
        // A slot that pays nothing costs nothing at its optimum.
        if fine > 0 {
            cost = cost.saturating_add(fine_slot_cost(need_at(case, slot), fine));
        }
    }
    cost
}

/// The least that a slot with this need costs at a dual price, in fine units.
fn fine_slot_cost(need: Need, fine: u32) -> u64 {
    let fine = fine as u64;
    let missing = need.optimum.saturating_sub(need.minimum) as u64;
    let at_minimum = FINE_PER_POINT as u64 * (STAFFING as u64 * missing)
        + fine * need.minimum as u64;
    let at_optimum = fine * need.minimum.max(need.optimum) as u64;
    at_minimum.min(at_optimum)
}

/// For each slot the subgradient, by how many nurses it is short of those that it wants, and the direction in
/// which its dual price moves. Both are in 16ths of a nurse, and below 0 for a slot with too many nurses.
pub struct Directions {
    pub subgradient: Vec<i32>,
    pub direction: Vec<i32>,
}

// Written by hand, so that a function that drops it has one call to prove.
impl Drop for Directions {
    fn drop(self) {
        let Directions {
            subgradient: _,
            direction: _,
        } = self;
    }
}

/// Into how many parts a nurse is divided.
pub(crate) const NURSE_PARTS: u32 = 16;

/// A direction is at most this, in these parts: that is 4096 nurses.
const MOST_DIRECTION: i64 = 1 << 16;

/// Shares of a direction are in 256ths.
const WHOLE_SHARE: u64 = 256;

impl Directions {
    /// Forgets the direction of the step before.
    pub fn forget(&mut self)
        ensures subgradient { self.new.subgradient ≡ self.old.subgradient }
        ensures direction { length self.new.direction.items ≡ length self.old.direction.items }
    {
        self.direction.fill(0);
    }

    /// Sets the subgradient at dual prices, by the cover of the cheapest rows.
    pub fn set_subgradient(&mut self, case: &Case, dual_prices: &DualPrices, cover: &[u16])
        requires subgradient { length self.old.subgradient.items ≡ 64 * day_count case.now }
        requires dual_prices { dual_prices.now.days ≡ day_count case.now }
        requires cover { length cover.now ≡ 64 * day_count case.now }
        ensures subgradient { length self.new.subgradient.items
            ≡ length self.old.subgradient.items }
        ensures direction { self.new.direction ≡ self.old.direction }
    {
        for slot in 0..self.subgradient.len() {
            if has_slot(case, slot) {
                let need = need_at(case, slot);
                self.subgradient[slot] = shortage(need, dual_prices.fine_at(slot), cover[slot]);
            }
        }
    }

    /// Turns the direction to the subgradient, and returns the square of the new one. A share of the one
    /// before is kept if the two are opposed.
    pub fn turn(&mut self) -> u64
        requires { length self.old.direction.items ≡ length self.old.subgradient.items }
        ensures subgradient { self.new.subgradient ≡ self.old.subgradient }
        ensures direction { length self.new.direction.items ≡ length self.old.direction.items }
    {
        let share = self.kept_share() as i64;
        for slot in 0..self.direction.len() {
            let kept = (self.direction[slot] as i64).wrapping_mul(share) / 256;
            let turned = kept.saturating_add(self.subgradient[slot] as i64);
            self.direction[slot] = turned.clamp(-MOST_DIRECTION, MOST_DIRECTION) as i32;
        }
        dot(&self.direction, &self.direction).unsigned_abs()
    }

    /// Which share of the direction is kept: as much as leaves it no longer opposed to the subgradient, but
    /// at most the whole.
    fn kept_share(&self) -> u32
        ensures { result ≤ 256 }
    {
        let along = dot(&self.subgradient, &self.direction);
        if along >= 0 {
            return 0;
        }
        let square = dot(&self.direction, &self.direction).unsigned_abs();
        let share = along.unsigned_abs().saturating_mul(WHOLE_SHARE) / square.max(1);
        share.min(WHOLE_SHARE) as u32
    }
}

/// Whether the case has the shift and the skill of a slot. Nobody is asked for in another one.
fn has_slot(case: &Case, slot: usize) -> bool {
    slot % 64 / 8 < case.shifts() as usize && slot % 8 < case.skills() as usize
}

/// By how many 16ths of a nurse a slot is short of those that it wants at its dual price: the optimum as long
/// as that is at most what a missing nurse costs, and else the minimum. A slot that asks for no nurse is
/// never short.
fn shortage(need: Need, fine: u32, nurses: u16) -> i32 {
    let most = need.minimum.max(need.optimum);
    if most == 0 {
        return 0;
    }
    let wanted = if fine <= FINE_PER_POINT * STAFFING {
        most
    } else {
        need.minimum
    };
    NURSE_PARTS as i32 * (wanted as i32 - nurses as i32)
}

/// The sum of the products of two lists. By the limits of a case it is far below the greatest number.
fn dot(a: &[i32], b: &[i32]) -> i64 {
    let mut sum: i64 = 0;
    for at in 0..a.len().min(b.len()) {
        sum = sum.wrapping_add((a[at] as i64).wrapping_mul(b[at] as i64));
    }
    sum
}

/// Counts a row in the cover of its slots.
pub fn count_row(row: &[Choice], cover: &mut [u16])
    ensures { length cover.new ≡ length cover.old }
{
    for day in 0..row.len() {
        if let Choice::Work(shift, skill) = row[day] {
            let slot = 8 * shift.0 as usize + skill.0 as usize;
            let at = day.saturating_mul(64).saturating_add(slot);
            if at < cover.len() {
                cover[at] = cover[at].saturating_add(1);
            }
        }
    }
}
