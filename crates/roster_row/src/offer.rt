//! What a nurse may do on a day, with its price.

ghost use Rattle.std.specs.Prelude.{◌≡◌, ◌+◌, ◌-◌, ◌*◌, ◌<◌, ◌≤◌, ◌==◌, if◌then◌else◌, [], ◌∷◌, length, nat_lt, true, Option, Some, None};
ghost use Rattle.roster_instance.specs.declared.choice.Choice.TheVariants.{Off, Work};
ghost use Rattle.roster_instance.specs.declared.choice.Shift.{Shift};
ghost use Rattle.roster_instance.specs.Choices.{shift_of};
ghost use Rattle.roster_instance.specs.Counting.{one_if};
ghost use Rattle.roster_instance.specs.Limits.{most_shifts, most_skills, most_small};
ghost use Rattle.roster_instance.specs.Meaning.{day_count, minimum, nurse_count, optimum, shift_count, skill_count};
ghost use Rattle.roster_instance.specs.Rosters.{choice_on, is_choice_of, row_of};
ghost use Rattle.roster_rules.specs.AllowedRows.{is_frozen};
ghost use Rattle.roster_rules.specs.Penalties.{request_cost_on};
ghost use Rattle.roster_rules.specs.Weights.{most_request};
ghost use Rattle.roster_laws.specs.OneRow.{is_open, others};
ghost use Rattle.roster_laws.specs.Staffing.{shortfall, meets, with_choice};
ghost use Rattle.roster_offers.specs.Offers.{offer_of, offers_of, shift_offers};

use arrayvec::ArrayVec;
use roster_case::Held;
use roster_instance::{Choice, Shift, Skill};
use roster_offers::{
    MOST_CHOICES, MOST_OFFERS, NurseDay, Offer, Offering, offers_by_shift, offers_of_choices,
    request_cost,
};
use roster_rules::is_frozen;
use roster_rules::weights::STAFFING;

/// By how many nurses a day is short of its minimums and of its optimums, over all shifts and skills.
#[derive(Clone, Copy)]
struct Shortfall {
    minimum: u32,
    optimum: u32,
}

/// What a nurse may do on a day while the others' rows stay, in the order of the choices: be off, or, unless
/// absent, work a shift with one of the nurse's skills. Only choices with which the day is short of no
/// minimum are offered. The price is that of the day's staffing with this choice, of an off request against
/// it, and of a wish to work that it doesn't meet. The days of the weeks before week `from` are frozen, and
/// so are the nurse's fixed days: on these only the roster's own choice is offered. Every `from` is allowed.
pub fn choices(held: &Held, nurse: usize, day: u16, from: u16) -> ArrayVec<Offer, MOST_CHOICES>
    requires nurse { nurse < nurse_count held.now.case }
    requires day { day < day_count held.now.case }
    ensures offers { result.items ≡ offers_of held.now.case from held.now.roster nurse day }
    ensures frozen { is_frozen held.now.case from nurse day ≡ true →
        result.items ≡ offer_of held.now.case held.now.roster nurse day
        (choice_on (row_of held.now.roster nurse) day) ∷ [] }
    ensures few { length result.items ≤ 1 + most_shifts * most_skills }
{
    // The roster keeps the hard rules, so the present choice is open.
    held.keeps_rules();
    if is_frozen(held.case(), from, nurse, day) {
        return present_choice(held, nurse, day);
    }
    let without = shortfall_without(held, nurse, day);
    let case = held.case();
    offers_of_choices(&NurseDay { case, nurse, day }, &NextTo { held, without })
}

/// The offers of a day that a search goes over: a day off, and for each shift the cheapest offer, of equally
/// cheap ones the first.
pub(crate) fn choices_by_shift(
    held: &Held,
    nurse: usize,
    day: u16,
    from: u16,
) -> ArrayVec<Offer, MOST_OFFERS>
    requires nurse { nurse < nurse_count held.now.case }
    requires day { day < day_count held.now.case }
    ensures offers { result.items ≡ shift_offers held.now.case from held.now.roster nurse day }
    ensures few { length result.items ≤ 1 + most_shifts }
{
    // As in `choices`.
    held.keeps_rules();
    if !is_frozen(held.case(), from, nurse, day) {
        let without = shortfall_without(held, nurse, day);
        let case = held.case();
        return offers_by_shift(&NurseDay { case, nurse, day }, &NextTo { held, without });
    }
    present_choice(held, nurse, day)
}

/// The roster's own choice for the nurse's day, as the only offer.
fn present_choice<const N: usize>(held: &Held, nurse: usize, day: u16) -> ArrayVec<Offer, N>
    requires capacity { 0 < N }
    requires nurse { nurse < nurse_count held.now.case }
    requires day { day < day_count held.now.case }
    ensures offer { result.items ≡ offer_of held.now.case held.now.roster nurse day
        (choice_on (row_of held.now.roster nurse) day) ∷ [] }
{
    held.keeps_rules();
    let without = shortfall_without(held, nurse, day);
    let choice = held.row(nurse)[day as usize];
    let asked = request_cost(held.case(), nurse, day, choice.shift());
    let lack = shortfall_by(held, nurse, day, choice, without);
    let price = STAFFING * lack.optimum + asked;
    let mut offers = ArrayVec::new();
    offers.push(Offer { choice, price });
    offers
}

/// Offers a nurse those choices of a day with which the day is short of no minimum while the others' rows
/// stay. `without` is what the day is short of without her.
#[derive(Clone, Copy)]
struct NextTo<'a> {
    held: &'a Held,
    without: Shortfall,
}

impl Offering for NextTo<'_> {
    ghost use Rattle.std.specs.Prelude.{◌≡◌};
    ghost use Rattle.roster_laws.specs.OneRow.{others, price as price_of};
    ghost use Rattle.roster_laws.specs.Staffing.{meets, with_choice};
    ghost use Rattle.roster_row.specs.Offers.{LacksWithout};

    ghost Serves = { λ o c n d. (o.held.now.case ≡ c)
        × LacksWithout c o.held.now.roster n d o.without.minimum o.without.optimum };

    ghost is_open = { λ o n d choice. meets o.held.now.case d (with_choice
        (others o.held.now.roster n d) choice) };

    ghost price = { λ o n d choice. price_of o.held.now.case o.held.now.roster n d choice };

    fn offer(&self, at: &NurseDay<'_>, choice: Choice, asked: u32) -> Option<Offer> {
        offered(self.held, at.nurse, at.day, choice, self.without, asked)
    }
}

/// A choice with its price, if the day is short of no minimum with it, by what the day is short of without
/// the nurse and what her requests cost.
fn offered(
    held: &Held,
    nurse: usize,
    day: u16,
    choice: Choice,
    without: Shortfall,
    asked: u32,
) -> Option<Offer>
    requires nurse { nurse < nurse_count held.now.case }
    requires day { day < day_count held.now.case }
    requires choice { is_choice_of held.now.case choice ≡ true }
    requires minimum { without.minimum ≡ shortfall held.now.case (minimum held.now.case day)
        (others held.now.roster nurse day) }
    requires optimum { without.optimum ≡ shortfall held.now.case (optimum held.now.case day)
        (others held.now.roster nurse day) }
    requires within { without.optimum ≤ 1 + most_shifts * most_skills * most_small }
    requires asked { asked ≡ request_cost_on held.now.case nurse day (shift_of choice) }
    requires asked_within { asked ≤ most_request }
    ensures { result ≡ (if meets held.now.case day (with_choice (others held.now.roster nurse day)
        choice) then Some (offer_of held.now.case held.now.roster nurse day choice) else None) }
{
    let lack = shortfall_by(held, nurse, day, choice, without);
    offer_if(lack.minimum, choice, STAFFING * lack.optimum + asked)
}

fn offer_if(shortfall: u32, choice: Choice, price: u32) -> Option<Offer>
    ensures { result ≡ (if shortfall == 0 then Some (record { choice = choice; price = price }) else
        None) }
{
    if shortfall == 0 {
        return Some(Offer { choice, price });
    }
    None
}

// ---- what a day is short of

/// S1. What a day is short of without the nurse. What it is short of with all nurses is at hand, so only the
/// nurse's own slot is looked at.
fn shortfall_without(held: &Held, nurse: usize, day: u16) -> Shortfall
    requires nurse { nurse < nurse_count held.now.case }
    requires day { day < day_count held.now.case }
    ensures minimum { result.minimum ≡ shortfall held.now.case (minimum held.now.case day)
        (others held.now.roster nurse day) }
    ensures optimum { result.optimum ≡ shortfall held.now.case (optimum held.now.case day)
        (others held.now.roster nurse day) }
    ensures within { result.optimum ≤ 1 + most_shifts * most_skills * most_small }
{
    held.keeps_rules();
    let own = held.row(nurse)[day as usize];
    shortfall_without_choice(held, nurse, day, own)
}

/// The same by the nurse's own choice. The roster keeps the hard rules, so with all nurses the day is short
/// of no minimum, and without this nurse at most by one, in the nurse's slot.
fn shortfall_without_choice(held: &Held, nurse: usize, day: u16, own: Choice) -> Shortfall
    requires nurse { nurse < nurse_count held.now.case }
    requires day { day < day_count held.now.case }
    requires choice { is_choice_of held.now.case own ≡ true }
    requires own { own ≡ choice_on (row_of held.now.roster nurse) day }
    ensures minimum { result.minimum ≡ shortfall held.now.case (minimum held.now.case day)
        (others held.now.roster nurse day) }
    ensures optimum { result.optimum ≡ shortfall held.now.case (optimum held.now.case day)
        (others held.now.roster nurse day) }
    ensures within { result.optimum ≤ 1 + most_shifts * most_skills * most_small }
{
    held.keeps_rules();
    let all = held.shortfall(day);
    match own {
        Choice::Off => Shortfall {
            minimum: 0,
            optimum: all,
        },
        Choice::Work(shift, skill) => {
            let need = held.case().need(day, shift, skill);
            let others = held.others(nurse, day, shift, skill);
            let minimum = one_where_fewer(others, need.minimum);
            let optimum = all + one_where_fewer(others, need.optimum);
            Shortfall { minimum, optimum }
        }
    }
}

fn one_where_fewer(have: u16, want: u16) -> u32
    ensures one { result ≡ one_if (nat_lt have want) }
    ensures within { result ≤ 1 }
{
    (have < want) as u32
}

/// What the day is short of with a choice of the nurse.
#[tactic(auto, using(crate::proofs::OfferLemmas::shortfall_unchanged))]
fn shortfall_by(
    held: &Held,
    nurse: usize,
    day: u16,
    choice: Choice,
    without: Shortfall,
) -> Shortfall
    requires nurse { nurse < nurse_count held.now.case }
    requires day { day < day_count held.now.case }
    requires choice { is_choice_of held.now.case choice ≡ true }
    requires minimum { without.minimum ≡ shortfall held.now.case (minimum held.now.case day)
        (others held.now.roster nurse day) }
    requires optimum { without.optimum ≡ shortfall held.now.case (optimum held.now.case day)
        (others held.now.roster nurse day) }
    ensures minimum { result.minimum ≡ shortfall held.now.case (minimum held.now.case day)
        (with_choice (others held.now.roster nurse day) choice) }
    ensures optimum { result.optimum ≡ shortfall held.now.case (optimum held.now.case day)
        (with_choice (others held.now.roster nurse day) choice) }
    ensures within { result.optimum ≤ without.optimum }
{
    match choice {
        Choice::Off => without,
        Choice::Work(shift, skill) => shortfall_with(held, nurse, day, shift, skill, without),
    }
}

/// What the day is short of with the nurse at work: one nurse less, if the others don't reach the number.
fn shortfall_with(
    held: &Held,
    nurse: usize,
    day: u16,
    shift: Shift,
    skill: Skill,
    without: Shortfall,
) -> Shortfall
    requires nurse { nurse < nurse_count held.now.case }
    requires day { day < day_count held.now.case }
    requires shift { shift.0 < shift_count held.now.case }
    requires skill { skill.0 < skill_count held.now.case }
    requires minimum { without.minimum ≡ shortfall held.now.case (minimum held.now.case day)
        (others held.now.roster nurse day) }
    requires optimum { without.optimum ≡ shortfall held.now.case (optimum held.now.case day)
        (others held.now.roster nurse day) }
    ensures minimum { result.minimum ≡ shortfall held.now.case (minimum held.now.case day)
        (with_choice (others held.now.roster nurse day) (Work shift skill)) }
    ensures optimum { result.optimum ≡ shortfall held.now.case (optimum held.now.case day)
        (with_choice (others held.now.roster nurse day) (Work shift skill)) }
    ensures within { result.optimum ≤ without.optimum }
{
    let need = held.case().need(day, shift, skill);
    let others = held.others(nurse, day, shift, skill);
    let minimum = with_one_more(without.minimum, others, need.minimum);
    let optimum = with_one_more(without.optimum, others, need.optimum);
    Shortfall { minimum, optimum }
}

fn with_one_more(shortfall: u32, have: u16, want: u16) -> u32
    ensures { result ≡ shortfall - one_if (nat_lt have want) }
{
    shortfall.saturating_sub(one_where_fewer(have, want))
}
