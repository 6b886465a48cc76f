//! What a nurse is offered on a day by dual prices.

ghost use Rattle.std.specs.Prelude.{◌≡◌, ◌+◌, ◌-◌, ◌*◌, ◌<◌, ◌≤◌, true};
ghost use Rattle.roster_instance.specs.Meaning.{day_count};
ghost use Rattle.roster_instance.specs.Rosters.{fits_case, is_choice_of};
ghost use Rattle.roster_rules.specs.Weights.{most_request};
ghost use Rattle.roster_offers.specs.Lists.{IsScaleOf, most_row_points, most_scale, no_row};
ghost use Rattle.roster_slots.specs.Tables.{slot_prices};
ghost use Rattle.roster_slots.specs.Slots.{choice_dual_price, most_dual_price};
ghost use Rattle.roster_prices.specs.LowerBounds.{HaveRows};

use crate::decisions::{Decision, against_price, is_against};
use crate::laws::rows_exist;
use roster_case::Held;
use roster_instance::{Case, Choice, Roster, Shift, Skill, choice_on};
use roster_offers::{NurseDay, Offer, Offering, greatest_scale};
use roster_slots::{DualPrices, MOST_DUAL_PRICE};

/// What a nurse's lower bound is computed by: a case, dual prices, and a roster of which the days before week
/// `from` and the fixed days stay. Each nurse has a row that agrees with these days. Costs are in parts of a
/// point, as many to a point as the scale says.
#[derive(Clone, Copy)]
pub struct Terms<'a> {
    pub case: &'a Case,
    pub dual_prices: &'a DualPrices,
    pub given: &'a Roster,
    pub from: u16,
    pub scale: u32,
    pub ghost days: { dual_prices.now.days ≡ day_count case.now },
    pub ghost in_scale: { IsScaleOf case.now scale },
    pub ghost rows: { ∥ HaveRows case.now from given.now ∥₁ },
}

/// A case, and a roster that fits it, of which the days before week `from` and the fixed days stay. Each
/// nurse has a row that agrees with these days. Lower bounds are searched at the scale.
#[derive(Clone, Copy)]
pub struct Base<'a> {
    pub case: &'a Case,
    pub given: &'a Roster,
    pub from: u16,
    pub scale: u32,
    pub ghost fits: { fits_case case.now given.now ≡ true },
    pub ghost in_scale: { IsScaleOf case.now scale },
    pub ghost rows: { ∥ HaveRows case.now from given.now ∥₁ },
}

impl<'a> Base<'a> {
    /// The base of a held roster, in which each nurse has such a row: the present one. Its scale is the
    /// greatest power of two that the case allows.
    pub fn of(held: &'a Held, from: u16) -> Base<'a>
        ensures case { result.case.now ≡ held.now.case }
        ensures given { result.given.now ≡ held.now.roster }
        ensures from { result.from ≡ from }
        ensures greatest { 2 * result.scale ≤ most_scale →
            no_row ≤ 2 * result.scale * most_row_points held.now.case }
    {
        held.keeps_rules();
        let (case, given) = (held.case(), held.roster());
        rows_exist(case, given, from);
        Base {
            case,
            given,
            from,
            scale: greatest_scale(case),
        }
    }
}

/// Offers a nurse the choices of a day that a frozen day doesn't forbid, each at the greatest dual price less
/// what she earns, plus what the requests cost. In a node, a choice that goes against a branching decision
/// costs more.
#[derive(Clone, Copy)]
pub(crate) struct DayTerms<'a> {
    pub(crate) terms: &'a Terms<'a>,
    pub(crate) node: &'a [Decision],
    pub(crate) frozen: bool,
}

impl Offering for DayTerms<'_> {
    ghost use Rattle.std.specs.Prelude.{◌≡◌};
    ghost use Rattle.roster_rules.specs.AllowedRows.{is_frozen, keeps_frozen_day};
    ghost use Rattle.roster_prices.specs.Nodes.{price_in};
    ghost use Rattle.roster_slots.specs.Tables.{slot_prices};

    ghost Serves = { λ o c n d. (o.terms.now.case.now ≡ c)
        × (o.frozen ≡ is_frozen c o.terms.now.from n d) };

    ghost is_open = { λ o n d choice. keeps_frozen_day o.terms.now.case.now o.terms.now.from
        o.terms.now.given.now n d choice };

    ghost price = { λ o n d choice. price_in o.terms.now.case.now o.terms.now.scale
        (slot_prices o.terms.now.scale o.terms.now.dual_prices.now) o.node.now n d choice };

    fn offer(&self, at: &NurseDay<'_>, choice: Choice, asked: u32) -> Option<Offer> {
        let given = choice_on(self.terms.given.row(at.nurse), at.day);
        if self.frozen && choice != given {
            return None;
        }
        let price = price_with(self.terms, at.day, choice, asked);
        let price = if is_against(self.node, at.nurse, at.day, choice) {
            against_price(self.terms.scale) + price
        } else {
            price
        };
        Some(Offer { choice, price })
    }
}

/// The price of a choice on a day: the greatest dual price less what the nurse earns, plus what her requests
/// cost, which is `asked` in points.
pub(crate) fn price_with(terms: &Terms<'_>, day: u16, choice: Choice, asked: u32) -> u32
    requires day { day < day_count terms.now.case.now }
    requires choice { is_choice_of terms.now.case.now choice ≡ true }
    requires asked { asked ≤ most_request }
    ensures price { result ≡ (terms.now.scale * most_dual_price - choice_dual_price
        (slot_prices terms.now.scale terms.now.dual_prices.now) day choice)
        + terms.now.scale * asked }
    ensures within { result ≤ terms.now.scale * (most_dual_price + most_request) }
{
    let scale = terms.scale;
    scale * MOST_DUAL_PRICE - choice_dual_price(terms, day, choice) + scale * asked
}

/// What a nurse earns on a day.
fn choice_dual_price(terms: &Terms<'_>, day: u16, choice: Choice) -> u32
    requires day { day < day_count terms.now.case.now }
    requires choice { is_choice_of terms.now.case.now choice ≡ true }
    ensures pay { result ≡ choice_dual_price
        (slot_prices terms.now.scale terms.now.dual_prices.now) day choice }
    ensures within { result ≤ terms.now.scale * most_dual_price }
{
    terms.case.keeps_limits();
    match choice {
        Choice::Off => 0,
        Choice::Work(shift, skill) => terms.dual_prices.at(terms.scale, day, shift, skill),
    }
}
