//! An assignment that is asked for by names: a day, a shift and perhaps a skill of the case.

ghost use Rattle.std.specs.Prelude.{◌≡◌, ◌<◌, IfErr, IfOk, IfSome, None, OnOk, Some, bytes_eq, option_map};
ghost use Rattle.roster_instance.specs.Meaning.{day_count, shift_at, skill_at};
ghost use Rattle.roster_instance.specs.Names.{find_name};
ghost use Rattle.roster_answers.specs.Answer.{asked_by, day_name, day_names, names_in, unknown_asked};

use crate::fault::Thing;
use arrayvec::ArrayVec;
use itoa::Buffer;
use roster_instance::{Case, Shift, Skill};
use roster_text::weekday_text;
use roster_who::Asked;

/// An assignment as it is asked for: by the names of its day, of its shift, and of its skill if one is asked
/// for. With it goes the first week that may change.
#[derive(Clone, Copy)]
pub struct Asking<'a> {
    pub day: &'a [u8],
    pub shift: &'a [u8],
    pub skill: Option<&'a [u8]>,
    pub from: u16,
}

/// A kind of thing and a name that the case doesn't have.
#[derive(Clone, Copy)]
pub struct Unknown<'a> {
    pub thing: Thing,
    pub name: &'a [u8],
}

/// The assignment of these names, or the first of them that the case doesn't have.
pub fn asked_by<'a>(case: &Case, asking: Asking<'a>) -> Result<Asked, Unknown<'a>>
    ensures asked { IfOk result (λ asked. asked ≡ asked_by case.now (names_in asking.entry)) }
    ensures day { IfOk result (λ asked. asked.day < day_count case.now) }
    ensures known { OnOk result (unknown_asked case.now (names_in asking.entry) ≡ None) }
    ensures unknown { IfErr result (λ unknown. unknown_asked case.now (names_in asking.entry) ≡ Some
        (unknown.thing, unknown.name.now)) }
{
    let Some(day) = find_day(case, asking.day) else {
        return Err(Unknown {
            thing: Thing::Day,
            name: asking.day,
        });
    };
    let Some(shift) = find_shift(case, asking.shift) else {
        return Err(Unknown {
            thing: Thing::Shift,
            name: asking.shift,
        });
    };
    let Some(name) = asking.skill else {
        return Ok(Asked {
            day,
            shift,
            skill: None,
        });
    };
    match find_skill(case, name) {
        Some(skill) => Ok(Asked {
            day,
            shift,
            skill: Some(skill),
        }),
        None => Err(Unknown {
            thing: Thing::Skill,
            name,
        }),
    }
}

/// The day of this name.
fn find_day(case: &Case, name: &[u8]) -> Option<u16>
    ensures found { result ≡ find_name (day_names case.now) name.now }
    ensures within { IfSome result (λ day. day < day_count case.now) }
{
    for day in 0..case.days() {
        if is_day(name, day) {
            return Some(day);
        }
    }
    None
}

/// Whether a day has this name: its week and its weekday.
fn is_day(name: &[u8], day: u16) -> bool
    ensures { result ≡ bytes_eq name.now (day_name day) }
{
    let mut buffer = Buffer::new();
    let mut own = ArrayVec::<u8, 44>::new();
    let _ = own.try_extend_from_slice(buffer.format(day / 7).as_bytes());
    let _ = own.try_extend_from_slice(b":");
    let _ = own.try_extend_from_slice(&weekday_text(day % 7));
    name == own.as_slice()
}

/// The shift of this name.
fn find_shift(case: &Case, name: &[u8]) -> Option<Shift>
    ensures { result ≡ option_map shift_at (find_name case.now.shift_names name.now) }
{
    for number in 0..case.shifts() {
        if name == case.shift_name(Shift(number)) {
            return Some(Shift(number));
        }
    }
    None
}

/// The skill of this name.
fn find_skill(case: &Case, name: &[u8]) -> Option<Skill>
    ensures { result ≡ option_map skill_at (find_name case.now.skill_names name.now) }
{
    for number in 0..case.skills() {
        if name == case.skill_name(Skill(number)) {
            return Some(Skill(number));
        }
    }
    None
}
