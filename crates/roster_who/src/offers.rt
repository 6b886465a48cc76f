//! What a nurse is offered on each day.

ghost use Rattle.std.specs.Prelude.{◌≡◌, ◌+◌, ◌<◌, ◌≤◌, true};
ghost use Rattle.roster_instance.specs.Choices.{shift_of};
ghost use Rattle.roster_instance.specs.Meaning.{day_count, nurse_count, shift_count, skill_count};
ghost use Rattle.roster_instance.specs.Rosters.{cover, is_choice_of};
ghost use Rattle.roster_laws.specs.OneRow.{others};
ghost use Rattle.roster_rules.specs.AllowedRows.{is_frozen};
ghost use Rattle.roster_rules.specs.Penalties.{request_cost_on};
ghost use Rattle.roster_rules.specs.Weights.{most_request};
ghost use Rattle.roster_offers.specs.Workspaces.{SameCapacity, fits_space};
ghost use Rattle.roster_who.specs.Offers.{AreTakingOffers, fills, gain_at, gain_of, is_needed, keeps_slots, most_gain, offer_if_filling};

use crate::asked::{Asking, is_asked};
use arrayvec::ArrayVec;
use roster_costs::slot;
use roster_instance::{Choice, Shift, Skill, choice_on};
use roster_offers::{
    MOST_OFFERS, NurseDay, Offer, Offering, OffersDays, SearchesRows, Workspace, offers_by_shift,
    put_offers,
};
use roster_rules::is_frozen;
use roster_rules::weights::STAFFING;

/// What each nurse short of a minimum adds to the cost of a row, in points.
const MISSED: u32 = 1_000_000;

/// The greatest gain of one more nurse.
const MOST_GAIN: u32 = MISSED + STAFFING;

/// Puts the offers of each day, one for each shift, into a workspace, and replaces those that were there.
pub(crate) fn offers_of_days<T: SearchesRows>(
    asking: &Asking<'_>,
    nurse: usize,
    workspace: &mut Workspace<T>,
)
    requires nurse { nurse < nurse_count asking.now.case.now }
    requires fits { fits_space asking.now.case.now workspace.old ≡ true }
    ensures offers { AreTakingOffers asking.now.case.now asking.now.from asking.now.roster.now
        asking.now.asked nurse workspace.new.offers }
    ensures same_capacity { SameCapacity workspace.old workspace.new }
    ensures fits { fits_space asking.now.case.now workspace.new ≡ true }
{
    put_offers(asking.case, nurse, &TakingDays { asking }, workspace)
}

/// Offers on each day to be off, and for each shift the cheapest; among equally cheap ones the first.
#[derive(Clone, Copy)]
struct TakingDays<'a> {
    asking: &'a Asking<'a>,
}

impl OffersDays for TakingDays<'_> {
    ghost use Rattle.std.specs.Prelude.{◌<◌};
    ghost use Rattle.roster_instance.specs.Meaning.{day_count, nurse_count};
    ghost use Rattle.roster_who.specs.Offers.{shift_taking_offers};

    ghost Serves = { λ o n d. (n < nurse_count o.asking.now.case.now)
        × (d < day_count o.asking.now.case.now) };

    ghost offers = { λ o n d. shift_taking_offers o.asking.now.case.now o.asking.now.from
        o.asking.now.roster.now o.asking.now.asked n d };

    fn offers_of_day(&self, nurse: usize, day: u16) -> ArrayVec<Offer, MOST_OFFERS> {
        let asking = self.asking;
        let case = asking.case;
        let frozen = is_frozen(case, asking.from, nurse, day);
        offers_by_shift(&NurseDay { case, nurse, day }, &Taking { asking, frozen })
    }
}

/// Offers the choices of a day that a row with the assignment may have, each with its price.
#[derive(Clone, Copy)]
struct Taking<'a> {
    asking: &'a Asking<'a>,
    frozen: bool,
}

impl Offering for Taking<'_> {
    ghost use Rattle.std.specs.Prelude.{◌≡◌};
    ghost use Rattle.roster_rules.specs.AllowedRows.{is_frozen};
    ghost use Rattle.roster_who.specs.Offers.{is_open_for, taking_price};

    ghost Serves = { λ o c n d. (o.asking.now.case.now ≡ c)
        × (o.frozen ≡ is_frozen c o.asking.now.from n d) };

    ghost is_open = { λ o n d choice. is_open_for o.asking.now.case.now o.asking.now.from
        o.asking.now.roster.now o.asking.now.asked n d choice };

    ghost price = { λ o n d choice. taking_price o.asking.now.case.now o.asking.now.roster.now
        n d choice };

    fn offer(&self, at: &NurseDay<'_>, choice: Choice, asked: u32) -> Option<Offer> {
        let present = choice_on(self.asking.roster.row(at.nurse), at.day);
        if self.frozen && choice != present {
            return None;
        }
        offered(self.asking, at.nurse, at.day, choice, asked)
    }
}

/// The choice with its price, if a row with the assignment may have it; `requests` is what the nurse's
/// requests cost with it.
fn offered(
    asking: &Asking<'_>,
    nurse: usize,
    day: u16,
    choice: Choice,
    requests: u32,
) -> Option<Offer>
    requires nurse { nurse < nurse_count asking.now.case.now }
    requires day { day < day_count asking.now.case.now }
    requires choice { is_choice_of asking.now.case.now choice ≡ true }
    requires requests { requests ≡ request_cost_on asking.now.case.now nurse day
        (shift_of choice) }
    requires within { requests ≤ most_request }
    ensures { result ≡ offer_if_filling asking.now.case.now asking.now.roster.now asking.now.asked
        nurse day choice }
{
    let price = MOST_GAIN - gain_of(asking, nurse, day, choice) + requests;
    if fills(asking, nurse, day, choice) {
        return Some(Offer { choice, price });
    }
    None
}

// ---- which choices are offered

/// Whether with the choice no slot of the day is short by more, and whether on the day of the assignment it
/// is the assignment.
fn fills(asking: &Asking<'_>, nurse: usize, day: u16, choice: Choice) -> bool
    requires nurse { nurse < nurse_count asking.now.case.now }
    requires day { day < day_count asking.now.case.now }
    ensures { result ≡ fills asking.now.case.now asking.now.roster.now asking.now.asked nurse day
        choice }
{
    keeps_slots(asking, nurse, day, choice)
        && (day != asking.asked.day || is_asked(asking.asked, choice))
}

/// Whether with the choice no slot of the day is short by more: a nurse who is needed where she works stays
/// there.
fn keeps_slots(asking: &Asking<'_>, nurse: usize, day: u16, choice: Choice) -> bool
    requires nurse { nurse < nurse_count asking.now.case.now }
    requires day { day < day_count asking.now.case.now }
    ensures { result ≡ keeps_slots asking.now.case.now asking.now.roster.now nurse day choice }
{
    let present = choice_on(asking.roster.row(nurse), day);
    !is_needed(asking, day, present) || choice == present
}

/// Whether the slot of a choice has no more nurses than its minimum.
fn is_needed(asking: &Asking<'_>, day: u16, choice: Choice) -> bool
    requires day { day < day_count asking.now.case.now }
    requires choice { is_choice_of asking.now.case.now choice ≡ true }
    ensures { result ≡ is_needed asking.now.case.now asking.now.roster.now day choice }
{
    match choice {
        Choice::Off => false,
        Choice::Work(shift, skill) => {
            let need = asking.case.need(day, shift, skill);
            cover(asking, day, shift, skill) <= need.minimum
        }
    }
}

// ---- their prices

/// The nurse's gain with a choice, in points.
fn gain_of(asking: &Asking<'_>, nurse: usize, day: u16, choice: Choice) -> u32
    requires nurse { nurse < nurse_count asking.now.case.now }
    requires day { day < day_count asking.now.case.now }
    requires choice { is_choice_of asking.now.case.now choice ≡ true }
    ensures gain { result ≡ gain_of asking.now.case.now asking.now.roster.now nurse day choice }
    ensures within { result ≤ most_gain }
{
    match choice {
        Choice::Off => 0,
        Choice::Work(shift, skill) => {
            let have = others(asking, nurse, day, shift, skill);
            gain_at(asking, day, shift, skill, have)
        }
    }
}

/// The gain of one more nurse in a slot with this cover.
fn gain_at(asking: &Asking<'_>, day: u16, shift: Shift, skill: Skill, have: u16) -> u32
    ensures gain { result ≡ gain_at asking.now.case.now day shift.0 skill.0 have }
    ensures within { result ≤ most_gain }
{
    let need = asking.case.need(day, shift, skill);
    MISSED * (have < need.minimum) as u32 + STAFFING * (have < need.optimum) as u32
}

/// How many of the other nurses work in a slot.
fn others(asking: &Asking<'_>, nurse: usize, day: u16, shift: Shift, skill: Skill) -> u16
    requires nurse { nurse < nurse_count asking.now.case.now }
    requires day { day < day_count asking.now.case.now }
    requires shift { shift.0 < shift_count asking.now.case.now }
    requires skill { skill.0 < skill_count asking.now.case.now }
    ensures { result ≡ others asking.now.roster.now nurse day shift.0 skill.0 }
{
    let own = choice_on(asking.roster.row(nurse), day) == Choice::Work(shift, skill);
    cover(asking, day, shift, skill) - own as u16
}

/// How many nurses work in a slot.
fn cover(asking: &Asking<'_>, day: u16, shift: Shift, skill: Skill) -> u16
    requires day { day < day_count asking.now.case.now }
    requires shift { shift.0 < shift_count asking.now.case.now }
    requires skill { skill.0 < skill_count asking.now.case.now }
    ensures { result ≡ cover asking.now.roster.now day shift.0 skill.0 }
{
    asking.case.keeps_limits();
    asking.covers[day as usize][slot(shift, skill)]
}
