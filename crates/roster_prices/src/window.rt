//! A window of days, and what rows within it are priced by.

ghost use Rattle.std.specs.Prelude.{◌≡◌, true};
ghost use Rattle.roster_instance.specs.Meaning.{day_count};
ghost use Rattle.roster_instance.specs.Rosters.{fits_case};
ghost use Rattle.roster_offers.specs.Lists.{IsScaleOf};
ghost use Rattle.roster_rules.specs.HardRules.{keeps_hard};

use crate::decisions::Decision;
use roster_case::Held;
use roster_instance::{Case, Roster};
use roster_offers::greatest_scale;
use roster_slots::DualPrices;

/// The days that are open: from `first` on, before `end`.
#[derive(Clone, Copy, Debug, Default, PartialEq, Eq)]
pub struct Window {
    pub first: u16,
    pub end: u16,
}

/// A case, and a roster of it that keeps the hard rules, of which the days before week `from` and the fixed
/// days stay. Rows are searched at the scale.
#[derive(Clone, Copy)]
pub struct NearBase<'a> {
    pub case: &'a Case,
    pub given: &'a Roster,
    pub from: u16,
    pub scale: u32,
    pub ghost fits: { fits_case case.now given.now ≡ true },
    pub ghost keeps: { keeps_hard case.now given.now ≡ true },
    pub ghost in_scale: { IsScaleOf case.now scale },
}

impl<'a> NearBase<'a> {
    /// The base of a held roster. Its scale is the greatest power of two that the case allows.
    pub fn of(held: &'a Held, from: u16) -> NearBase<'a>
        ensures case { result.case.now ≡ held.now.case }
        ensures given { result.given.now ≡ held.now.roster }
        ensures from { result.from ≡ from }
    {
        held.keeps_rules();
        let (case, given) = (held.case(), held.roster());
        NearBase {
            case,
            given,
            from,
            scale: greatest_scale(case),
        }
    }
}

/// What a nurse's rows within a window are priced by. In a node, a choice that goes against a branching
/// decision costs more.
#[derive(Clone, Copy)]
pub struct WindowTerms<'a> {
    pub base: &'a NearBase<'a>,
    pub dual_prices: &'a DualPrices,
    pub window: Window,
    pub node: &'a [Decision],
    pub ghost days: { dual_prices.now.days ≡ day_count base.now.case.now },
}
