//! The names that fault lines print: those of a case, and, before there is a case, those of the texts.

ghost use Rattle.std.specs.Prelude.{◌≡◌, [], slice_index_or};
ghost use Rattle.roster_instance.specs.Meaning.{nurse_name};
ghost use Rattle.roster_instance.specs.Names.{nurse_names};
ghost use Rattle.roster_reports.specs.Lines.{nurse_of, shift_name, skill_name};

use roster_bundle::Bundle;
use roster_instance::{Case, CaseFault, Shift, Skill};

/// The name of the nurse that a fault is about, empty if it is about none.
pub fn nurse_of<'a>(source: &'a [u8], bundle: &Bundle, fault: CaseFault) -> &'a [u8]
    ensures { result.now ≡ nurse_of source.now bundle.now fault }
{
    match fault {
        CaseFault::TooManyStates { name, .. } => name.text(source),
        CaseFault::H1 { nurse, .. } => listed_nurse(source, bundle, nurse),
        _ => &[],
    }
}

/// The name that the scenario's text has for a nurse, empty for a number that it doesn't have.
fn listed_nurse<'a>(source: &'a [u8], bundle: &Bundle, nurse: usize) -> &'a [u8]
    ensures { result.now ≡ slice_index_or (nurse_names source.now bundle.now) nurse [] }
{
    match bundle.scenario.nurses.items.as_slice().get(nurse) {
        Some(line) => line.name.text(source),
        None => &[],
    }
}

/// The name of a nurse, empty for a number that the case doesn't have.
pub(crate) fn nurse_name(case: &Case, nurse: usize) -> &[u8]
    ensures { result.now ≡ nurse_name case.now nurse }
{
    if nurse < case.nurses() {
        case.nurse_name(nurse)
    } else {
        &[]
    }
}

/// The name of a shift, empty for a number that the case doesn't have.
pub(crate) fn shift_name(case: &Case, shift: Shift) -> &[u8]
    ensures { result.now ≡ shift_name case.now shift.0 }
{
    if shift.0 < case.shifts() {
        case.shift_name(shift)
    } else {
        &[]
    }
}

/// The name of a skill, empty for a number that the case doesn't have.
pub(crate) fn skill_name(case: &Case, skill: Skill) -> &[u8]
    ensures { result.now ≡ skill_name case.now skill.0 }
{
    if skill.0 < case.skills() {
        case.skill_name(skill)
    } else {
        &[]
    }
}
