//! By which choice a node of the tree is branched.

use crate::choices::{NUMBERS, cell_of};
use crate::live::Branching;
use crate::problem::MOST_FREE;
use crate::space::NearSpace;
use roster_instance::Case;
use std::alloc::{AllocError, Global};

/// How often each choice of each free nurse was in a cheapest row of a node, and how many times such rows
/// were counted. That takes 8,320 bytes for each day.
pub(crate) struct Uses {
    cells: usize,
    counts: Vec<u16>,
    rounds: u16,
}

// Written by hand, so that a function that drops it has one call to prove.
impl Drop for Uses {
    fn drop(self) {
        let Uses {
            cells: _,
            counts: _,
            rounds: _,
        } = self;
    }
}

/// A day off counts five quarters of a shift.
const OFF_WEIGHT: u32 = 5;

const WORK_WEIGHT: u32 = 4;

impl Uses {
    /// The memory for the subproblems of a case, by one allocation.
    ///
    /// # Errors
    ///
    /// The allocation was refused.
    pub(crate) fn for_case(alloc: Global, case: &Case) -> Result<Uses, AllocError> {
        let cells = NUMBERS * case.days() as usize;
        Ok(Uses {
            cells,
            counts: vec![in alloc; 0; MOST_FREE * cells]?,
            rounds: 0,
        })
    }

    /// Forgets all uses.
    pub(crate) fn forget(&mut self) {
        self.counts.fill(0);
        self.rounds = 0;
    }

    /// Counts the choices of a nurse's row.
    pub(crate) fn count(&mut self, free: usize, numbers: &[u8]) {
        let first = free.saturating_mul(self.cells);
        for offset in 0..numbers.len() {
            let at = first.saturating_add(cell_of(offset, numbers[offset]));
            if at < self.counts.len() {
                self.counts[at] = self.counts[at].saturating_add(1);
            }
        }
    }

    /// Ends a round, in which a row of each nurse was counted.
    pub(crate) fn end_round(&mut self) {
        self.rounds = self.rounds.saturating_add(1);
    }

    /// How often a choice was counted.
    fn of(&self, free: usize, offset: usize, number: u8) -> u16 {
        let at = free
            .saturating_mul(self.cells)
            .saturating_add(cell_of(offset, number));
        if at < self.counts.len() {
            self.counts[at]
        } else {
            0
        }
    }

    /// How much the cheapest rows differ in a choice.
    fn difference(&self, free: usize, offset: usize, number: u8) -> u32 {
        let uses = self.of(free, offset, number);
        let less = uses.min(self.rounds.saturating_sub(uses)) as u32;
        if number == 0 {
            OFF_WEIGHT * less
        } else {
            WORK_WEIGHT * less
        }
    }
}

impl NearSpace {
    /// The branching by the choice in which the cheapest rows differ most, of those that split a nurse's live
    /// rows: the first if there are several.
    pub(crate) fn by_uses(&self) -> Option<Branching> {
        let mut most = 0;
        let mut branching = None;
        for free in 0..self.problem.free {
            if self.live.count(free) < 2 {
                continue;
            }
            for offset in 0..self.problem.days() {
                for number in 0..NUMBERS as u8 {
                    let difference = self.uses.difference(free, offset, number);
                    if difference > most && self.splits(free, offset, number) {
                        most = difference;
                        branching = Some(self.branching(free, offset, number));
                    }
                }
            }
        }
        branching
    }

    /// A branching, of which the side is visited first that has more of the cheapest rows.
    fn branching(&self, free: usize, offset: usize, number: u8) -> Branching {
        let uses = self.uses.of(free, offset, number) as u32;
        Branching {
            free,
            offset,
            number,
            with_first: 2 * uses >= self.uses.rounds as u32,
        }
    }

    /// Whether some of a nurse's live rows have a choice, and some don't.
    fn splits(&self, free: usize, offset: usize, number: u8) -> bool {
        let having = self.count_with(free, offset, number);
        having > 0 && having < self.live.count(free)
    }

    /// How many of a nurse's live rows have a choice.
    fn count_with(&self, free: usize, offset: usize, number: u8) -> usize {
        let first = self.lists.span(free).first;
        let mut having: usize = 0;
        for index in 0..self.live.count(free) {
            let row = self.live.row(first.saturating_add(index));
            if self.lists.number(row, offset) == number {
                having = having.saturating_add(1);
            }
        }
        having
    }

    /// The branching that comes nearest to halving the longest list.
    pub(crate) fn by_length(&self) -> Option<Branching> {
        let mut longest: usize = 0;
        for free in 1..self.problem.free {
            if self.live.count(free) > self.live.count(longest) {
                longest = free;
            }
        }
        let count = self.live.count(longest);
        let mut least = usize::MAX;
        let mut branching = None;
        for offset in 0..self.problem.days() {
            for number in 0..NUMBERS as u8 {
                let having = self.count_with(longest, offset, number);
                let apart = having.saturating_mul(2).abs_diff(count);
                if having > 0 && having < count && apart < least {
                    least = apart;
                    branching = Some(self.branching(longest, offset, number));
                }
            }
        }
        branching
    }
}
