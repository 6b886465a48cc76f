//! A day whose completion bounds are to be set.

ghost use Rattle.std.specs.Prelude.{◌≡◌, ◌*◌, ◌≤◌, All, false, length, true};
ghost use Rattle.roster_instance.specs.Meaning.{contract_of};
ghost use Rattle.roster_instance.specs.RunLaw.{day_violations};
ghost use Rattle.roster_offers.specs.Lists.{IsOfferAt, most_scale};
ghost use Rattle.roster_state.specs.Codes.{sizes_of};
ghost use Rattle.roster_state.specs.CompletionLines.{AreLow};
ghost use Rattle.roster_completion.specs.CompletionBounds.{AreSmallRates};
ghost use Rattle.roster_completion.specs.Once.{AreSmallRates-prop, OfCase-prop};

use crate::rates::Rates;
use roster_instance::{Case, ContractRules, Limits};
use roster_offers::Offer;

/// What it takes to set a day's completion bounds from those of the next day: the nurse and the nurse's
/// rules, the scale, the day's offers, and how many values the last shift and the runs have. Prices, rates
/// and completion bounds are in the parts of a point of the scale.
#[derive(Clone, Copy)]
pub(crate) struct CompletionDay<'a, 'b> {
    pub(crate) case: &'a Case,
    pub(crate) nurse: usize,
    pub(crate) scale: u32,
    pub(crate) day: u16,
    pub(crate) rules: ContractRules,
    pub(crate) rates: Rates,
    pub(crate) offers: &'a [Offer],
    pub(crate) lasts: usize,
    pub(crate) runs: usize,
    pub(crate) shift_runs: usize,
    pub(crate) next: &'b [u32],
    ghost rules_are: { rules ≡ contract_of case.now nurse },
    ghost few_parts: { scale ≤ most_scale },
    ghost small: { AreSmallRates scale rates } by { AreSmallRates-prop scale rates },
    ghost of_case: { All (IsOfferAt case.now scale) offers.now } by { OfCase-prop case.now scale
        offers.now },
    ghost few: { length offers.now ≤ 9 },
    ghost lasts_are: { lasts ≡ (sizes_of case.now nurse).last },
    ghost runs_are: { runs ≡ (sizes_of case.now nurse).run },
    ghost shift_runs_are: { shift_runs ≡ (sizes_of case.now nurse).shift_run },
    ghost few_lasts: { lasts ≤ 9 },
    ghost few_runs: { runs ≤ 1000 },
    ghost few_shift_runs: { shift_runs ≤ 1000 },
    ghost all_next: { length next.now ≡ lasts * (runs * shift_runs) },
    ghost low_next: { AreLow next.now },
}

impl CompletionDay<'_, '_> {
    /// A number of points, in the parts of a point of the day's scale.
    #[inline(always)]
    pub(crate) fn parts(&self, points: u32) -> u32
        requires { points ≤ 2000000 }
        ensures value { result ≡ self.now.scale * points }
        ensures within { result ≤ 128 * points }
    {
        self.scale * points
    }

    /// What one more day of a run costs, in parts of a point, if each extra day costs this number of points.
    #[inline(always)]
    pub(crate) fn goes_on(&self, weight: u32, limits: Limits, run: u32) -> u32
        requires { weight ≤ 30 }
        ensures cost { result ≡ self.now.scale * (weight * day_violations limits run true) }
        ensures within { result ≤ 3840 }
    {
        let points = weight * limits.day_violations(run, true);
        self.parts(points)
    }

    /// What a run costs that ends, in parts of a point, if each missing day costs this number of points.
    #[inline(always)]
    pub(crate) fn ends(&self, weight: u32, limits: Limits, run: u32) -> u32
        requires { weight ≤ 30 }
        ensures cost { result ≡ self.now.scale * (weight * day_violations limits run false) }
        ensures within { result ≤ 251658240 }
    {
        let points = weight * limits.day_violations(run, false);
        self.parts(points)
    }
}
