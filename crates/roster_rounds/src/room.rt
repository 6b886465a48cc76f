//! The most that a run counts on its meter.

ghost use Rattle.std.specs.Prelude.{◌≡◌, ◌+◌, ◌*◌, ◌<◌, ◌≤◌};
ghost use Rattle.roster_bundle.specs.Limits.{greatest_u64};
ghost use Rattle.roster_instance.specs.Limits.{most_days, most_shifts, most_skills, most_states};
ghost use Rattle.roster_instance.specs.Meaning.{nurse_count};
ghost use Rattle.roster_laws.specs.Greatest.{extension_count, extensions_in, greatest_extension_count};

use roster_instance::Case;
use roster_offers::most_search_extensions;

/// The most extensions in a run of at most this number of rounds. A new meter can count them:
/// `rounds_have_room`.
pub fn most_extensions(case: &Case, rounds: u16) -> u64
    ensures { result ≡ extensions_in case.now rounds }
{
    rounds as u64 * (case.nurses() as u64 * greatest_extensions(case))
}

/// The most extensions in the search for one nurse.
pub fn greatest_extensions(case: &Case) -> u64
    ensures greatest { result ≡ greatest_extension_count case.now }
    ensures within { result ≤ most_states * most_days * (1 + most_shifts * most_skills) }
{
    let mut greatest: u64 = 0;
    for nurse in 0..case.nurses() {
        greatest = greatest.max(most_search_extensions(case, nurse));
    }
    greatest
}

// ---- laws, which do nothing

/// A law: the limits bound the extensions in a search of a case.
pub fn extensions_are_few(case: &Case)
    ensures { greatest_extension_count case.now ≤ most_states * most_days
        * (1 + most_shifts * most_skills) }
{
    case.keeps_limits();
    case.keeps_sizes();
    case.nurses();
}

/// A law: a new meter can count the search for a nurse.
pub fn search_has_room(case: &Case, nurse: usize)
    requires { nurse < nurse_count case.now }
    ensures { extension_count case.now nurse ≤ greatest_u64 }
{
    extensions_are_few(case);
}

/// A law: a new meter can count a run of this number of rounds.
pub fn rounds_have_room(case: &Case, rounds: u16)
    ensures { extensions_in case.now rounds ≤ greatest_u64 }
{
    case.keeps_limits();
    extensions_are_few(case);
}
