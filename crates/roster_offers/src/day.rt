//! The offers of a day, choice by choice.

ghost use Rattle.std.specs.Prelude.{◌≡◌, ◌+◌, ◌*◌, ◌<◌, ◌≤◌, ◌++◌, Bool, ℕ, if◌then◌else◌, length, true, Some, None};
ghost use Rattle.std.specs.Option.{option_to_list};
ghost use Rattle.roster_instance.specs.declared.choice.Choice.{Choice};
ghost use Rattle.roster_instance.specs.Choices.{shift_of};
ghost use Rattle.roster_instance.specs.Limits.{most_shifts, most_skills};
ghost use Rattle.roster_instance.specs.Meaning.{Meaning, day_count, nurse_count, shift_at, shift_count};
ghost use Rattle.roster_instance.specs.Rosters.{is_choice_of};
ghost use Rattle.roster_rules.specs.HardRules.{may_take};
ghost use Rattle.roster_rules.specs.Penalties.{request_cost_on};
ghost use Rattle.roster_rules.specs.Weights.{most_request};
ghost use Rattle.roster_offers.specs.Offers.{SaysWhichSkills, cheaper_offer, cheapest_by_shift, cheapest_with, offer_at, offers_open};

use crate::offer::{MOST_CHOICES, MOST_OFFERS, Offer};
use crate::requests::{can_cost_more, cost_of_requests};
use arrayvec::ArrayVec;
use roster_instance::{Case, Choice, Shift, Skill};
use roster_rules::is_able;

/// A day of a nurse.
#[derive(Clone, Copy)]
pub struct NurseDay<'a> {
    pub case: &'a Case,
    pub nurse: usize,
    pub day: u16,
    pub ghost of_case: { nurse < nurse_count case.now },
    pub ghost within: { day < day_count case.now },
}

/// What decides which choices a nurse is offered on a day, and at which prices. It offers those of the
/// choices that she may take which are open.
pub trait Offering {
    /// It offers choices on this day of this nurse.
    ghost Serves: { Self → Meaning → (nurse day : ℕ) → Type 0 };

    ghost is_open: { Self → (nurse day : ℕ) → Choice → Bool };

    ghost price: { Self → (nurse day : ℕ) → Choice → ℕ };

    /// The choice with its price if it is open. The nurse may take it, and `asked` is what her requests cost
    /// with it.
    fn offer(&self, at: &NurseDay<'_>, choice: Choice, asked: u32) -> Option<Offer>
        requires serves { Serves self.now at.now.case.now at.now.nurse at.now.day }
        requires choice { is_choice_of at.now.case.now choice ≡ true }
        requires able { may_take at.now.case.now at.now.nurse at.now.day choice ≡ true }
        requires asked { asked ≡ request_cost_on at.now.case.now at.now.nurse at.now.day
            (shift_of choice) }
        requires within { asked ≤ most_request }
        ensures { result ≡ (if is_open self.now at.now.nurse at.now.day choice then Some
            (offer_at (price self.now at.now.nurse) at.now.day choice) else None) };
}

/// All that a nurse is offered on a day, in the order of the choices. Her skills and absences are looked up
/// once for the day, and what her requests cost is computed once for each shift.
pub fn offers_of_choices<O: Offering>(at: &NurseDay<'_>, by: &O) -> ArrayVec<Offer, MOST_CHOICES>
    requires serves { O.Serves by.now at.now.case.now at.now.nurse at.now.day }
    ensures offers { result.items ≡ offers_open at.now.case.now at.now.nurse
        (O.is_open by.now at.now.nurse) (O.price by.now at.now.nurse) at.now.day }
    ensures few { length result.items ≤ 1 + most_shifts * most_skills }
{
    let case = at.case;
    case.keeps_limits();
    let able = able_by_skill(case, at.nurse, at.day);
    let more = can_cost_more(case, at.nurse, at.day);
    let asked = cost_of_requests(case, at.nurse, at.day, None, more);
    let mut offers = ArrayVec::new();
    push_some(&mut offers, by.offer(at, Choice::Off, asked));
    for shift in 0..case.shifts() {
        let asked = cost_of_requests(case, at.nurse, at.day, Some(Shift(shift)), more);
        for skill in 0..case.skills() {
            if able[skill as usize] {
                let choice = Choice::Work(Shift(shift), Skill(skill));
                push_some(&mut offers, by.offer(at, choice, asked));
            }
        }
    }
    offers
}

/// What a nurse is offered on a day for each shift: a day off, and the cheapest offer of each shift, of
/// equally cheap ones the first.
pub fn offers_by_shift<O: Offering>(at: &NurseDay<'_>, by: &O) -> ArrayVec<Offer, MOST_OFFERS>
    requires serves { O.Serves by.now at.now.case.now at.now.nurse at.now.day }
    ensures offers { result.items ≡ cheapest_by_shift (offers_open at.now.case.now at.now.nurse
        (O.is_open by.now at.now.nurse) (O.price by.now at.now.nurse) at.now.day) }
    ensures few { length result.items ≤ 1 + most_shifts }
{
    let case = at.case;
    case.keeps_limits();
    let able = able_by_skill(case, at.nurse, at.day);
    let more = can_cost_more(case, at.nurse, at.day);
    let asked = cost_of_requests(case, at.nurse, at.day, None, more);
    let mut offers = ArrayVec::new();
    push_some(&mut offers, by.offer(at, Choice::Off, asked));
    for shift in 0..case.shifts() {
        let asked = cost_of_requests(case, at.nurse, at.day, Some(Shift(shift)), more);
        push_some(&mut offers, cheapest_work(at, shift, &able, asked, by));
    }
    offers
}

/// The cheapest offer of a shift, of equally cheap ones the first, among the skills that the nurse may work
/// with.
fn cheapest_work<O: Offering>(
    at: &NurseDay<'_>,
    shift: u8,
    able: &[bool; 8],
    asked: u32,
    by: &O,
) -> Option<Offer>
    requires serves { O.Serves by.now at.now.case.now at.now.nurse at.now.day }
    requires shift { shift < shift_count at.now.case.now }
    requires able { SaysWhichSkills at.now.case.now at.now.nurse at.now.day able.now }
    requires asked { asked
        ≡ request_cost_on at.now.case.now at.now.nurse at.now.day (Some (shift_at shift)) }
    requires within { asked ≤ most_request }
    ensures { option_to_list result ≡ cheapest_with at.now.case.now at.now.nurse
        (O.is_open by.now at.now.nurse) (O.price by.now at.now.nurse) at.now.day shift }
{
    let case = at.case;
    case.keeps_limits();
    let mut cheapest = None;
    for skill in 0..case.skills() {
        if able[skill as usize] {
            let choice = Choice::Work(Shift(shift), Skill(skill));
            cheapest = cheaper_offer(cheapest, by.offer(at, choice, asked));
        }
    }
    cheapest
}

/// The cheaper of two offers, and the first if they are equally cheap.
fn cheaper_offer(one: Option<Offer>, other: Option<Offer>) -> Option<Offer>
    ensures { result ≡ cheaper_offer one other }
{
    let Some(first) = one else {
        return other;
    };
    let Some(second) = other else {
        return one;
    };
    if second.price < first.price {
        Some(second)
    } else {
        Some(first)
    }
}

fn push_some<const N: usize>(offers: &mut ArrayVec<Offer, N>, offer: Option<Offer>)
    requires { length offers.old.items < N }
    ensures items { offers.new.items ≡ offers.old.items ++ option_to_list offer }
    ensures few { length offers.new.items ≤ length offers.old.items + 1 }
{
    if let Some(offer) = offer {
        offers.push(offer);
    }
}

/// For each skill of the case whether the nurse has it and isn't absent on the day.
fn able_by_skill(case: &Case, nurse: usize, day: u16) -> [bool; 8]
    requires { nurse < nurse_count case.now }
    ensures { SaysWhichSkills case.now nurse day result }
{
    case.keeps_limits();
    let mut able = [false; 8];
    if case.is_absent(nurse, day) {
        return able;
    }
    for skill in 0..case.skills() {
        able[skill as usize] = is_able(case.skills_of(nurse), Choice::Work(Shift(0), Skill(skill)));
    }
    able
}
