//! The dual price of each slot: what it pays to a nurse who works there.

ghost use Rattle.std.specs.Prelude.{◌≡◌, ◌≢◌, ℕ, ◌+◌, ◌-◌, ◌*◌, ◌/◌, ◌%◌, ◌<◌, ◌≤◌, IfOk, false, length, min, replicate, slice_index_or, true};
ghost use Rattle.roster_instance.specs.Meaning.{day_count};
ghost use Rattle.roster_offers.specs.Lists.{most_scale};
ghost use Rattle.roster_slots.specs.Tables.{most_fine, fine_per_point, rounded, slot_prices};
ghost use Rattle.roster_slots.specs.Slots.{AreDualPrices, SameDualPrices, asks_for_nurses, even_dual_prices, most_dual_price};

use crate::slots::need_at;
use crate::steps::NURSE_PARTS;
use roster_instance::{Case, Shift, Skill};
use std::alloc::{AllocError, Global};
use std::marker::Model;

/// The greatest dual price, in points. It is more than another choice on one day can make a row dearer: by
/// 45,200 on each of three days, and by the totals.
pub const MOST_DUAL_PRICE: u32 = 200_000;

/// How many fine units make a point. Dual prices are held in fine units.
pub const FINE_PER_POINT: u32 = 16_384;

/// The dual price of each slot (a day, a shift and a skill): what it pays to a nurse who works there. They
/// are held in fine units, 64 for each day, and rounded for use to the nearest part of a point.
pub struct DualPrices {
    pub(crate) days: u16,
    pub(crate) fine: Vec<u32>,
}

// Written by hand, so that a function that drops it has one call to prove.
impl Drop for DualPrices {
    fn drop(self) {
        let DualPrices { days: _, fine: _ } = self;
    }
}

impl Model for DualPrices {
    ghost use Rattle.roster_slots.specs.Tables.{AreHeld, PriceTable};

    ghost Value = { PriceTable };

    ghost view = { λ w. record { days = w.days; fine = w.fine.items } };

    ghost invariant = { λ w. AreHeld w.days w.fine.items };
}

impl DualPrices {
    /// The same dual price for each slot of a case, by one allocation.
    ///
    /// # Errors
    ///
    /// The allocation was refused.
    pub fn even(alloc: Global, case: &Case, dual_price: u32) -> Result<DualPrices, AllocError>
        requires { dual_price ≤ most_dual_price }
        ensures days { IfOk result (λ dual_prices. dual_prices.days ≡ day_count case.now) }
        ensures fine { IfOk result (λ dual_prices. dual_prices.fine ≡ replicate
            (64 * day_count case.now) (fine_per_point * dual_price)) }
    {
        let days = case.days();
        Ok(DualPrices {
            days,
            fine: vec![in alloc; FINE_PER_POINT * dual_price; 64 * days as usize]?,
        })
    }

    /// The dual price of a slot at a scale, in parts of a point.
    pub fn at(&self, scale: u32, day: u16, shift: Shift, skill: Skill) -> u32
        requires scale { scale ≤ most_scale }
        requires day { day < self.now.days }
        requires shift { shift.0 < 8 }
        requires skill { skill.0 < 8 }
        ensures dual_price { result ≡ slot_prices scale self.now day shift.0 skill.0 }
        ensures within { result ≤ scale * most_dual_price }
    {
        let slot = 64 * day as usize + 8 * shift.0 as usize + skill.0 as usize;
        rounded(scale, self.fine[slot])
    }

    /// The same for a slot by its index; 0 beyond the slots of all days.
    pub(crate) fn at_or_none(&self, scale: u32, slot: usize) -> u32
        requires { scale ≤ most_scale }
        ensures { result ≤ scale * most_dual_price }
    {
        if slot < self.fine.len() {
            rounded(scale, self.fine[slot])
        } else {
            0
        }
    }

    /// The sum of the dual prices of these slots, in fine units. Those beyond the slots of all days count 0.
    pub(crate) fn fine_of(&self, slots: &[u16]) -> u64 {
        let fine = self.fine.as_slice();
        let Some(last) = fine.len().checked_sub(1) else {
            return 0;
        };
        let mut paid: u64 = 0;
        for slot in slots {
            let slot = *slot as usize;
            // It is read in any case, so that the loop needs no branch.
            let pay = fine[slot.min(last)] as u64;
            paid = paid.wrapping_add(if slot <= last { pay } else { 0 });
        }
        paid
    }

    /// Gives each slot that asks for nurses the same dual price, in points, and the others 0. At each scale
    /// that is a whole number of parts.
    pub fn set_all(&mut self, case: &Case, dual_price: u32)
        requires dual_price { dual_price ≤ most_dual_price }
        requires days { self.old.days ≡ day_count case.now }
        ensures days { self.new.days ≡ self.old.days }
        ensures even { (scale : ℕ) → SameDualPrices case.now (slot_prices scale self.new)
            (even_dual_prices case.now (scale * dual_price)) }
    {
        case.keeps_limits();
        for slot in 0..self.fine.len() {
            self.fine[slot] = even_dual_price(case, slot, dual_price);
        }
    }

    /// Copies another's dual prices.
    pub fn copy(&mut self, other: &DualPrices)
        requires { other.now.days ≡ self.old.days }
        ensures { self.new.days ≡ self.old.days }
    {
        self.fine.copy_from_slice(&other.fine);
    }

    /// Makes a subgradient step along these directions, of which `square` is the square. The step is as long
    /// as would raise the value by `short` fine units if it went on rising as it does at the dual prices
    /// (Polyak's step length).
    pub fn step_along(&mut self, direction: &[i32], short: u64, square: u64)
        requires direction { length direction.now ≡ 64 * self.old.days }
        requires square { 0 < square }
        ensures { self.new.days ≡ self.old.days }
    {
        for slot in 0..self.fine.len() {
            let towards = direction[slot];
            if towards == 0 {
                continue;
            }
            let by = move_size(towards.unsigned_abs(), short, square);
            self.fine[slot] = moved(self.fine[slot], towards > 0, by);
        }
    }

    /// The dual price of a slot, in fine units.
    pub fn fine_at(&self, slot: usize) -> u32
        requires { slot < 64 * self.now.days }
        ensures fine { result ≡ slice_index_or self.now.fine slot 0 }
        ensures within { result ≤ most_fine }
    {
        self.fine[slot]
    }

    /// Sets the dual price of a slot to this many fine units, or to the greatest if that is less.
    pub fn put_fine(&mut self, slot: usize, fine: u32)
        requires { slot < 64 * self.old.days }
        ensures days { self.new.days ≡ self.old.days }
        ensures fine { slice_index_or self.new.fine slot 0 ≡ min fine most_fine }
        ensures others { (other : ℕ) → other ≢ slot → slice_index_or self.new.fine other 0
            ≡ slice_index_or self.old.fine other 0 }
    {
        self.fine[slot] = fine.min(MOST_FINE);
    }

    /// A law: at no scale is a dual price above the greatest.
    pub fn keep_most(&self)
        ensures { (scale : ℕ) → AreDualPrices scale (slot_prices scale self.now) }
    {
        let _ = &self.fine;
    }
}

/// Fine units, rounded to the nearest part of a point.
fn rounded(scale: u32, fine: u32) -> u32
    requires scale { scale ≤ most_scale }
    requires fine { fine ≤ most_fine }
    ensures rounded { result ≡ rounded scale fine }
    ensures within { result ≤ scale * most_dual_price }
{
    let unit = FINE_PER_POINT as u64;
    ((scale as u64 * fine as u64 + unit / 2) / unit) as u32
}

/// This dual price in fine units if the slot asks for nurses, else 0.
fn even_dual_price(case: &Case, slot: usize, dual_price: u32) -> u32
    requires slot { slot < 64 * day_count case.now }
    requires dual_price { dual_price ≤ most_dual_price }
    ensures fine { result ≡ fine_per_point * even_dual_prices case.now dual_price (slot / 64)
        (slot % 64 / 8) (slot % 8) }
    ensures within { result ≤ most_fine }
{
    if asks_for_nurses(case, slot) {
        return FINE_PER_POINT * dual_price;
    }
    0
}

/// Whether the minimum or the optimum of a slot is above 0.
fn asks_for_nurses(case: &Case, slot: usize) -> bool
    requires { slot < 64 * day_count case.now }
    ensures { result ≡ asks_for_nurses case.now (slot / 64) (slot % 64 / 8) (slot % 8) }
{
    let need = need_at(case, slot);
    need.minimum > 0 || need.optimum > 0
}

/// By how many fine units a dual price moves in a step, if its direction has this size.
fn move_size(size: u32, short: u64, square: u64) -> u32
    requires { 0 < square }
    ensures { result ≤ most_fine }
{
    let by = short
        .saturating_mul(NURSE_PARTS as u64)
        .saturating_mul(size as u64)
        / square;
    by.min(MOST_FINE as u64) as u32
}

/// A dual price in fine units after its move, up or down.
fn moved(fine: u32, rises: bool, by: u32) -> u32
    requires { fine ≤ most_fine }
    ensures up { rises ≡ true → result ≡ min (fine + by) most_fine }
    ensures down { rises ≡ false → result ≡ fine - by }
    ensures within { result ≤ most_fine }
{
    if rises {
        fine.saturating_add(by).min(MOST_FINE)
    } else {
        fine.saturating_sub(by)
    }
}

/// The greatest dual price, in fine units.
pub const MOST_FINE: u32 = 3_276_800_000;
