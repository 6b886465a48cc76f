//! The subproblem: which nurses are free, which days are open, and which slots are then uncovered.

ghost use Rattle.std.specs.Prelude.{◌≡◌, slice_index_or};
ghost use Rattle.roster_bundle.specs.Limits.{greatest_u64};
ghost use Rattle.roster_near.specs.Drawn.{free_nurses};

use crate::choices::{NUMBERS, cell_of, number_of};
use roster_instance::{Case, Choice, Shift, Skill, choice_on};
use roster_prices::{NearBase, Window};
use roster_rules::is_able;
use roster_rules::weights::STAFFING;
use roster_slots::{FINE_PER_POINT, count_row};
use std::alloc::{AllocError, Global};

/// How many nurses are free at most.
pub(crate) const MOST_FREE: usize = 64;

/// How many slots a subproblem has at most. One with more isn't searched.
pub(crate) const MOST_SLOTS: usize = 4096;

/// What stands for no slot in a cell.
pub(crate) const NO_SLOT: u16 = u16::MAX;

/// A slot that one of the free nurses may cover and that the others leave below its optimum or its minimum:
/// its index among all slots, its cell, how many nurses are lacking there, and how many of these may stay
/// lacking, each for a price. If more did, the minimum would be broken.
#[derive(Clone, Copy, Debug, Default)]
pub(crate) struct Slot {
    pub(crate) index: u32,
    pub(crate) cell: u32,
    pub(crate) want: u16,
    pub(crate) pay: u16,
}

/// A subproblem. Its memory is 49,280 bytes, and 258 for each day.
pub(crate) struct Problem {
    /// The free nurses, and how many there are.
    pub(crate) nurses: Vec<u16>,
    pub(crate) free: usize,
    pub(crate) window: Window,
    /// The slots, and how many there are.
    pub(crate) slots: Vec<Slot>,
    pub(crate) slot_count: usize,
    /// For each cell the index of its slot among these.
    pub(crate) slot_at: Vec<u16>,
    /// How many of the other nurses work in each slot of the case.
    pub(crate) cover: Vec<u16>,
}

// Written by hand, so that a function that drops it has one call to prove.
impl Drop for Problem {
    fn drop(self) {
        let Problem {
            nurses: _,
            free: _,
            window: _,
            slots: _,
            slot_count: _,
            slot_at: _,
            cover: _,
        } = self;
    }
}

impl Problem {
    /// The memory for the subproblems of a case, by four allocations.
    ///
    /// # Errors
    ///
    /// An allocation was refused.
    pub(crate) fn for_case(alloc: Global, case: &Case) -> Result<Problem, AllocError> {
        let days = case.days() as usize;
        Ok(Problem {
            nurses: vec![in alloc; 0; MOST_FREE]?,
            free: 0,
            window: Window::default(),
            slots: vec![in alloc; Slot::default(); MOST_SLOTS]?,
            slot_count: 0,
            slot_at: vec![in alloc; NO_SLOT; NUMBERS * days]?,
            cover: vec![in alloc; 0; 64 * days]?,
        })
    }

    /// Begins a subproblem in which no nurse is free.
    pub(crate) fn begin(&mut self, window: Window) {
        self.free = 0;
        self.window = window;
    }

    /// Frees one more nurse.
    pub(crate) fn free_one(&mut self, nurse: usize) {
        if self.free < self.nurses.len() && self.free < MOST_FREE {
            self.nurses[self.free] = nurse.min(u16::MAX as usize) as u16;
            self.free += 1;
        }
    }

    /// The free nurse with this index; a nurse that no case has if there is none.
    pub(crate) fn nurse(&self, free: usize) -> usize
        ensures { result ≡ slice_index_or (free_nurses self.now) free greatest_u64 }
    {
        if free < self.free && free < self.nurses.len() {
            self.nurses[free] as usize
        } else {
            usize::MAX
        }
    }

    /// Whether a nurse is free.
    pub(crate) fn is_free(&self, nurse: usize) -> bool {
        for free in 0..self.free {
            if self.nurse(free) == nurse {
                return true;
            }
        }
        false
    }

    /// How many days are open.
    pub(crate) fn days(&self) -> usize {
        self.window.end.saturating_sub(self.window.first) as usize
    }

    /// The day of the case that an open day is.
    pub(crate) fn day(&self, offset: usize) -> usize {
        offset.saturating_add(self.window.first as usize)
    }

    /// Sets the slots, once the nurses are free. Returns false if there are too many.
    pub(crate) fn set_slots(&mut self, base: &NearBase<'_>) -> bool {
        self.count_others(base);
        self.slot_at.fill(NO_SLOT);
        self.slot_count = 0;
        for offset in 0..self.days() {
            if !self.set_slots_on(base.case, offset) {
                return false;
            }
        }
        true
    }

    /// Sets the cover to that of the nurses who aren't free.
    pub(crate) fn count_others(&mut self, base: &NearBase<'_>) {
        self.cover.fill(0);
        for nurse in 0..base.case.nurses() {
            if !self.is_free(nurse) {
                count_row(base.given.row(nurse), &mut self.cover);
            }
        }
    }

    /// Sets the slots of an open day.
    fn set_slots_on(&mut self, case: &Case, offset: usize) -> bool {
        for shift in 0..case.shifts() {
            for skill in 0..case.skills() {
                if self.has_skill(case, Skill(skill))
                    && !self.set_slot(case, offset, Shift(shift), Skill(skill))
                {
                    return false;
                }
            }
        }
        true
    }

    /// Whether one of the free nurses has a skill.
    fn has_skill(&self, case: &Case, skill: Skill) -> bool {
        for free in 0..self.free {
            if is_able(
                case.skills_of(self.nurse(free)),
                Choice::Work(Shift(0), skill),
            ) {
                return true;
            }
        }
        false
    }

    /// Adds a slot if the others leave it uncovered. Returns false if there are too many slots.
    fn set_slot(&mut self, case: &Case, offset: usize, shift: Shift, skill: Skill) -> bool {
        let day = self.day(offset).min(u16::MAX as usize) as u16;
        let need = case.need(day, shift, skill);
        let index = slot_index(day, shift, skill);
        let nurses = self.cover_of(index);
        let want = need.minimum.max(need.optimum).saturating_sub(nurses);
        if want == 0 {
            return true;
        }
        let at = self.slot_count;
        let cell = cell_of(offset, number_of(Choice::Work(shift, skill)));
        if at >= self.slots.len() || at >= MOST_SLOTS || cell >= self.slot_at.len() {
            return false;
        }
        self.slots[at] = Slot {
            index,
            cell: cell.min(u32::MAX as usize) as u32,
            want,
            pay: want.saturating_sub(need.minimum.saturating_sub(nurses)),
        };
        self.slot_at[cell] = at as u16;
        self.slot_count = at + 1;
        true
    }

    /// How many of the other nurses work in a slot.
    fn cover_of(&self, index: u32) -> u16 {
        let index = index as usize;
        if index < self.cover.len() {
            self.cover[index]
        } else {
            0
        }
    }

    /// The slot with this index.
    pub(crate) fn slot(&self, at: usize) -> Slot {
        if at < self.slot_count && at < self.slots.len() {
            self.slots[at]
        } else {
            Slot::default()
        }
    }

    /// The index of the slot of a choice, by its cell, or `NO_SLOT`.
    pub(crate) fn slot_of(&self, cell: usize) -> u16 {
        if cell < self.slot_at.len() {
            self.slot_at[cell]
        } else {
            NO_SLOT
        }
    }

    /// Adds the choices of a row, given as numbers, to the cover of the slots.
    pub(crate) fn count_numbers(&self, numbers: &[u8], cover: &mut [u16]) {
        for offset in 0..numbers.len() {
            let at = self.slot_of(cell_of(offset, numbers[offset])) as usize;
            if at < cover.len() {
                cover[at] = cover[at].saturating_add(1);
            }
        }
    }

    /// Writes the numbers of a row's choices on the open days.
    pub(crate) fn write_numbers(&self, row: &[Choice], numbers: &mut [u8]) {
        for offset in 0..numbers.len().min(self.days()) {
            let day = self.day(offset).min(u16::MAX as usize) as u16;
            numbers[offset] = number_of(choice_on(row, day));
        }
    }

    /// What rows cost together with what the slots lack, in points, by what their nurses pay and by the cover
    /// of the slots. None if a minimum is broken.
    pub(crate) fn cost(&self, own: u64, cover: &[u16]) -> Option<u64> {
        let mut cost = own;
        for at in 0..self.slot_count.min(cover.len()) {
            let slot = self.slot(at);
            let lacking = slot.want.saturating_sub(cover[at]);
            if lacking > slot.pay {
                return None;
            }
            cost = cost.saturating_add(STAFFING as u64 * lacking as u64);
        }
        Some(cost)
    }
}

/// The index of a slot among all slots of the case.
fn slot_index(day: u16, shift: Shift, skill: Skill) -> u32 {
    64 * day as u32 + 8 * shift.0 as u32 + skill.0 as u32
}

/// What a missing nurse costs, in fine units.
pub(crate) const FINE_STAFFING: u32 = FINE_PER_POINT * STAFFING;
