//! What earlier searches suggest for the next one.
//!
//! Only the time depends on it: whichever rates and limits a search begins with, it finds the same row.

use crate::rates::{BestBounds, Guess, scale_byte};
use roster_instance::{MAX_CONTRACTS, MAX_NURSES};
use roster_offers::SearchInput;

/// For each nurse a guess by her last search, and for each contract a guess by the last search for a nurse
/// who has it; nothing before the first search.
pub(crate) struct Guesses {
    nurses: [Option<Guess>; MAX_NURSES],
    contracts: [Option<Guess>; MAX_CONTRACTS],
}

// Written by hand, so that code that drops the guesses has one call to prove.
impl Drop for Guesses {
    fn drop(self) {
        let Guesses {
            nurses: _,
            contracts: _,
        } = self;
    }
}

impl Guesses {
    /// Before the first search.
    pub(crate) fn none() -> Guesses {
        Guesses {
            nurses: [None; MAX_NURSES],
            contracts: [None; MAX_CONTRACTS],
        }
    }

    /// The guess for a search, at its scale: by the nurse's last one, else by the last one for a nurse with
    /// the same contract.
    pub(crate) fn of(&self, search: &SearchInput<'_>) -> Option<Guess> {
        let guess = match self.nurses.get(search.nurse) {
            Some(Some(guess)) => Some(*guess),
            _ => match self.contracts.get(search.case.contract(search.nurse)) {
                Some(guess) => *guess,
                None => None,
            },
        };
        match guess {
            Some(guess) => Some(guess.at(search.scale)),
            None => None,
        }
    }

    /// Records a search that had these completion bounds and found a row at this cost. If its spread is
    /// larger than that of the nurse's last search, the recorded one grows by only a point, so it takes
    /// several searches until a larger spread counts as good enough.
    pub(crate) fn learn(&mut self, search: &SearchInput<'_>, best: &BestBounds, cost: u32) {
        let spread = best.high.saturating_sub(best.low);
        let spread = match self.nurses.get(search.nurse) {
            Some(Some(before)) => {
                let before = before.at(search.scale);
                spread.min(before.spread.saturating_add(search.scale))
            }
            _ => spread,
        };
        let guess = Guess {
            rates: best.rates,
            spread,
            gap: cost.saturating_sub(best.low),
            is_own: true,
            scale: scale_byte(search.scale),
        };
        if let Some(nurse) = self.nurses.get_mut(search.nurse) {
            *nurse = Some(guess);
        }
        if let Some(contract) = self.contracts.get_mut(search.case.contract(search.nurse)) {
            *contract = Some(Guess {
                is_own: false,
                ..guess
            });
        }
    }
}
