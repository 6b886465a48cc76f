//! Which limits a search by partial rows tries, one after another.

ghost use Rattle.std.specs.Prelude.{◌≤◌};
ghost use Rattle.roster_offers.specs.Lists.{most_scale};

use crate::rates::{BestBounds, Guess};

/// By how many points the first limit is above the lower bound if the nurse wasn't searched yet. It is less
/// than the smallest difference between the true penalties of two rows.
const FIRST_GAP: u32 = 4;

/// By how many points it rises then at first, and by how many more each time.
const FIRST_RISE: u32 = 10;

const MORE_RISE: u32 = 5;

/// By how many points it rises at first if the nurse was searched before.
const NEXT_RISE: u32 = 2;

/// How often a limit is lowered at most, after more partial rows than there is capacity for were within it.
const MOST_LOWERED: u32 = 5;

/// Which limits are tried, in parts of a point. The first is a little above the lower bound of the best row's
/// cost. It rises as long as each row is dearer, each time by half as much again and `plus`. If it admits too
/// many partial rows, the next one is half as far above the highest limit to which each row was dearer.
#[derive(Clone, Copy)]
pub(crate) struct Limits {
    /// The one to try next, at most the upper bound.
    pub(crate) next: u32,
    rise: u32,
    plus: u32,
    /// Each row is dearer than this limit, or at least as dear as the lower bound.
    dearer: u32,
    /// The least limit that admitted too many partial rows, or the upper bound.
    most: u32,
    is_lowered: bool,
    lowers: u32,
    /// Limits that are no more than this apart count as one: an eighth of a point.
    apart: u32,
}

impl Limits {
    /// The limits of a search with these bounds. By dual prices the best rows of a nurse come one close above
    /// the other from search to search, and a limit a little too high lets in many partial rows, so the gap
    /// of her last search is taken nearly as it was, and limits rise slowly. None is lowered.
    pub(crate) fn above(best: &BestBounds, guess: Option<Guess>, scale: u32) -> Limits
        requires { scale ≤ most_scale }
    {
        let (first, rise, plus) = match guess {
            Some(guess) if guess.is_own => {
                (guess.gap.saturating_add(scale / 2), scale * NEXT_RISE, 0)
            }
            _ => (scale * FIRST_GAP, scale * FIRST_RISE, scale * MORE_RISE),
        };
        Limits {
            next: best.low.saturating_add(first).min(best.high),
            rise,
            plus,
            dearer: best.low,
            most: best.high,
            is_lowered: false,
            lowers: 0,
            apart: scale / 8,
        }
    }

    /// The same limits once more, after closer bounds were set. Now they may be lowered.
    pub(crate) fn again(&self, closer: &BestBounds) -> Limits {
        let next = self.next.max(closer.low.saturating_add(self.apart));
        Limits {
            next: next.min(closer.high),
            dearer: closer.low,
            most: closer.high,
            lowers: MOST_LOWERED,
            ..*self
        }
    }

    /// Goes on after each row was dearer. Returns whether there is another limit to try.
    pub(crate) fn raise(&mut self) -> bool {
        self.dearer = self.next;
        if self.is_lowered {
            return self.halve();
        }
        self.next = self.next.saturating_add(self.rise).min(self.most);
        self.rise = self
            .rise
            .saturating_add(self.rise / 2)
            .saturating_add(self.plus);
        true
    }

    /// Goes on after too many partial rows were within the limit: at first with the lower bound itself, which
    /// many best rows cost. Returns whether there is another limit to try.
    pub(crate) fn lower(&mut self) -> bool {
        if self.lowers == 0 || self.next <= self.dearer {
            return false;
        }
        self.lowers -= 1;
        self.most = self.next;
        if !self.is_lowered {
            self.is_lowered = true;
            self.next = self.dearer;
            return true;
        }
        self.halve()
    }

    /// The next limit is halfway between those to which each row was dearer and those that admitted too many
    /// partial rows. Returns false if these are close together.
    fn halve(&mut self) -> bool {
        let gap = self.most.saturating_sub(self.dearer);
        self.next = self.dearer.saturating_add(gap / 2);
        gap > self.apart
    }
}
