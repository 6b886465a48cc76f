//! Which nurses are free, which days are open, and how the sizes of neighbourhoods adapt.

ghost use Rattle.std.specs.Prelude.{◌≡◌, ◌<◌, ◌≤◌, length};

use crate::dice::Dice;
use crate::problem::MOST_FREE;
use crate::space::NearSpace;
use crate::task::Forbidden;
use roster_instance::{Case, Choice, choice_on};
use roster_prices::{NearBase, Window};
use roster_rules::is_frozen;
use roster_slots::FINE_PER_POINT;
use std::alloc::{AllocError, Global};

/// How many kinds of windows there are: all days, one week, two weeks, and half the weeks.
const KINDS: usize = 4;

/// The size of each kind at first, in 256ths of a nurse.
const FIRST_SIZES: [u32; KINDS] = [5 * 256, 12 * 256, 8 * 256, 6 * 256];

/// From this number of open weeks on half the weeks are a kind of their own.
const WEEKS_TO_HALVE: u16 = 6;

/// By how much a size grows, in 256ths of a nurse, and the 256ths of it that are left if it shrinks.
const GROWS_BY: u32 = 38;

const SHRINKS_TO: u32 = 238;

/// The least and the greatest size, in 256ths of a nurse.
const LEAST_SIZE: u32 = 3 * 256;

const GREATEST_SIZE: u32 = 60 * 256;

/// A size grows only if a try took the work of fewer searches than this.
const CLOSED_WITHIN: u64 = 1000;

/// What a nurse weighs besides her excess, when nurses are drawn by it, in fine units: ten points.
const FLAT_WEIGHT: u64 = 10 * FINE_PER_POINT as u64;

/// An excess is at most this, in fine units.
const MOST_EXCESS: u64 = 1 << 40;

/// What neighbourhoods are drawn by: random numbers; the size of each kind, in 256ths of a nurse, and the
/// work that its tries took; how many tries there were; for each nurse her excess, which skills she has, one
/// bit for each, and whether she is drawn. That takes 10 bytes for each nurse.
pub(crate) struct Draws {
    pub(crate) dice: Dice,
    sizes: [u32; KINDS],
    spent: [u64; KINDS],
    pub(crate) tries: u64,
    pub(crate) excess: Vec<u64>,
    skills: Vec<u8>,
    drawn: Vec<bool>,
}

// Written by hand, so that a function that drops it has one call to prove.
impl Drop for Draws {
    fn drop(self) {
        let Draws {
            dice: _,
            sizes: _,
            spent: _,
            tries: _,
            excess: _,
            skills: _,
            drawn: _,
        } = self;
    }
}

/// A neighbourhood that was drawn: its kind, how many nurses were to be free, and what is forbidden.
#[derive(Clone, Copy)]
pub(crate) struct Drawn {
    kind: usize,
    size: usize,
    pub(crate) forbidden: Forbidden,
}

impl Draws {
    /// The memory for the nurses of a case, by three allocations.
    ///
    /// # Errors
    ///
    /// An allocation was refused.
    pub(crate) fn for_case(alloc: Global, case: &Case) -> Result<Draws, AllocError> {
        let nurses = case.nurses();
        Ok(Draws {
            dice: Dice::of_seed(0),
            sizes: FIRST_SIZES,
            spent: [0; KINDS],
            tries: 0,
            excess: vec![in alloc; 0; nurses]?,
            skills: vec![in alloc; 0; nurses]?,
            drawn: vec![in alloc; false; nurses]?,
        })
    }

    /// Begins a run from a seed.
    pub(crate) fn begin(&mut self, case: &Case, seed: u64) {
        self.dice = Dice::of_seed(seed);
        self.sizes = FIRST_SIZES;
        self.spent = [0; KINDS];
        self.tries = 0;
        self.excess.fill(0);
        for nurse in 0..self.skills.len() {
            self.skills[nurse] = skill_bits(case, nurse);
        }
    }

    /// The kind whose tries took the least work so far, of the first ones: the first if there are several.
    fn next_kind(&self, kinds: usize) -> usize
        ensures { result < 4 }
    {
        let mut next = 0;
        for kind in 1..kinds.min(KINDS) {
            if self.spent[kind] < self.spent[next] {
                next = kind;
            }
        }
        next
    }

    /// How many nurses are to be free in a try of a kind: half its size to all of it, two at least.
    fn draw_size(&mut self, kind: usize, nurses: usize) -> usize
        requires { kind < 4 }
    {
        let share = 128 + self.dice.below(129);
        let size = (self.sizes[kind] as u64).saturating_mul(share) / 256;
        let size = size.saturating_add(128) / 256;
        (size.min(MOST_FREE as u64) as usize).max(2).min(nurses)
    }

    /// Draws a window of a kind, in the weeks from week `from` on; `weeks` is above it.
    fn draw_window(&mut self, kind: usize, from: u16, weeks: u16) -> Window
        requires some { from < weeks }
        requires few { weeks ≤ 52 }
    {
        let all = weeks - from;
        if kind == 0 {
            return Window {
                first: 7 * from,
                end: 7 * weeks,
            };
        }
        let length = length_of(kind, all);
        let first = from + self.dice.below((all - length) as u64 + 1) as u16;
        let more = self.dice.below(5) as u16;
        Window {
            first: (7 * first).saturating_sub(more).max(7 * from),
            end: (7 * (first + length) + more).min(7 * weeks),
        }
    }

    /// How much a nurse weighs in a draw.
    fn weight(&self, nurse: usize, guided: bool) -> u64 {
        if guided && nurse < self.excess.len() {
            self.excess[nurse]
                .min(MOST_EXCESS)
                .saturating_add(FLAT_WEIGHT)
        } else {
            1
        }
    }

    /// Whether a nurse can be drawn: she isn't yet, and shares one of these skills.
    fn can_draw(&self, nurse: usize, skills: u8) -> bool {
        nurse < self.skills.len()
            && nurse < self.drawn.len()
            && !self.drawn[nurse]
            && self.skills[nurse] & skills != 0
    }

    /// Draws a nurse who shares one of these skills and wasn't drawn yet.
    fn draw_nurse(&mut self, skills: u8, guided: bool) -> Option<usize> {
        let mut total: u64 = 0;
        for nurse in 0..self.skills.len() {
            if self.can_draw(nurse, skills) {
                total = total.saturating_add(self.weight(nurse, guided));
            }
        }
        if total == 0 {
            return None;
        }
        let mut rest = self.dice.below(total);
        for nurse in 0..self.skills.len() {
            if self.can_draw(nurse, skills) {
                let weight = self.weight(nurse, guided);
                if rest < weight {
                    return Some(nurse);
                }
                rest -= weight;
            }
        }
        None
    }

    /// Marks a nurse as drawn, and returns her skills.
    fn mark(&mut self, nurse: usize) -> u8 {
        if nurse < self.drawn.len() {
            self.drawn[nurse] = true;
        }
        if nurse < self.skills.len() {
            self.skills[nurse]
        } else {
            0
        }
    }

    /// Records a try: its work, in searches, and whether the neighbourhood was closed, that is searched to
    /// its end. The size of its kind grows if it was closed soon and was about full, and shrinks if it wasn't
    /// closed soon.
    pub(crate) fn record(&mut self, drawn: Drawn, closed: bool, free: usize, work: u64) {
        self.tries = self.tries.saturating_add(1);
        let kind = drawn.kind.min(KINDS - 1);
        self.spent[kind] = self.spent[kind].saturating_add(work.max(1));
        let size = self.sizes[kind];
        if !closed || work >= CLOSED_WITHIN {
            self.sizes[kind] = (size.saturating_mul(SHRINKS_TO) / 256).max(LEAST_SIZE);
            return;
        }
        let full = (free as u64).saturating_mul(2560);
        let is_full = full > size as u64 * 7 && free >= drawn.size;
        if is_full {
            self.sizes[kind] = size.saturating_add(GROWS_BY).min(GREATEST_SIZE);
        }
    }
}

impl NearSpace {
    /// Draws the next neighbourhood. `None` if no day is open.
    pub(crate) fn draw(&mut self, base: &NearBase<'_>) -> Option<Drawn> {
        let case = base.case;
        let (weeks, nurses) = (case.weeks(), case.nurses());
        if base.from >= weeks {
            return None;
        }
        let kind = self.draws.next_kind(kinds_of(weeks - base.from));
        let window = self.draws.draw_window(kind, base.from, weeks);
        let size = self.draws.draw_size(kind, nurses);
        self.problem.begin(window);
        self.draw_nurses(size);
        Some(Drawn {
            kind,
            size,
            forbidden: self.draw_forbidden(base),
        })
    }

    /// Draws the free nurses: one, and others who share a skill with her.
    fn draw_nurses(&mut self, size: usize) {
        self.draws.drawn.fill(false);
        let guided = self.draws.dice.below(2) == 0;
        let mut skills = u8::MAX;
        for drawn_before in 0..size {
            let Some(nurse) = self.draws.draw_nurse(skills, guided) else {
                return;
            };
            let own = self.draws.mark(nurse);
            if drawn_before == 0 {
                skills = own;
            }
            self.problem.free_one(nurse);
        }
    }

    /// In a quarter of the tries draws a shift of a free nurse that is forbidden; nothing if she is off, or
    /// if the day is frozen.
    fn draw_forbidden(&mut self, base: &NearBase<'_>) -> Forbidden {
        let (free, days) = (self.problem.free, self.problem.days());
        if free == 0 || days == 0 || self.draws.dice.below(4) > 0 {
            return Forbidden::nothing();
        }
        let drawn = self.draws.dice.below(free as u64) as usize;
        let offset = self.draws.dice.below(days as u64) as usize;
        let nurse = self.problem.nurse(drawn);
        let day = self.problem.day(offset).min(u16::MAX as usize) as u16;
        if nurse >= base.case.nurses() || is_frozen(base.case, base.from, nurse, day) {
            return Forbidden::nothing();
        }
        match choice_on(base.given.row(nurse), day) {
            Choice::Off => Forbidden::nothing(),
            Choice::Work(shift, _) => Forbidden::shift(base.case, nurse, day, shift),
        }
    }
}

/// How many weeks a window of a kind has, of this number of open ones.
fn length_of(kind: usize, weeks: u16) -> u16
    requires { 0 < weeks }
    ensures some { 0 < result }
    ensures few { result ≤ weeks }
{
    match kind {
        1 => 1,
        2 => weeks.min(2),
        _ => (weeks / 2).max(1),
    }
}

/// How many kinds of windows there are with this number of open weeks.
fn kinds_of(weeks: u16) -> usize {
    match weeks {
        0 | 1 => 1,
        2 => 2,
        _ if weeks < WEEKS_TO_HALVE => 3,
        _ => KINDS,
    }
}

/// The skills of a nurse, one bit for each.
fn skill_bits(case: &Case, nurse: usize) -> u8 {
    let mut bits: u8 = 0;
    for skill in case.skills_of(nurse) {
        if skill.0 < 8 {
            bits |= 1u8 << skill.0 as u32;
        }
    }
    bits
}
