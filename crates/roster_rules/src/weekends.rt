//! What a day adds to the weekends of a row.

ghost use Rattle.std.specs.Prelude.{◌≡◌, ◌≤◌};
ghost use Rattle.roster_rules.specs.DayLaw.{splits_more, weekends_more};

/// How many worked weekends a day adds: one if it is a worked Saturday, or a worked Sunday after a free
/// Saturday. `before` says whether the day before is worked, and `now` whether the day is.
#[inline(always)]
pub fn weekends_more(day: u16, before: bool, now: bool) -> u32
    ensures more { result ≡ weekends_more day before now }
    ensures within { result ≤ 1 }
{
    match day % 7 {
        5 => now as u32,
        6 => (!before && now) as u32,
        _ => 0,
    }
}

/// How many split weekends a day adds: one if it is a Sunday and only one of the weekend's days is worked.
#[inline(always)]
pub fn splits_more(day: u16, before: bool, now: bool) -> u32
    ensures more { result ≡ splits_more day before now }
    ensures within { result ≤ 1 }
{
    (day % 7 == 6 && before != now) as u32
}
