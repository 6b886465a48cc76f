//! The history: what each nurse did before the first Monday.

ghost use Rattle.std.specs.Prelude.{◌≡◌, ◌≤◌, [], IfOk, IfErr, OnOk, codes, length};
ghost use Rattle.roster_instance.specs.Bundles.{border_meant, past_meant};
ghost use Rattle.roster_instance.specs.Checking.{IsFirst};
ghost use Rattle.roster_instance.specs.Limits.{most_shifts};
ghost use Rattle.roster_instance.specs.CaseParts.{known_of};
ghost use Rattle.roster_instance.specs.Refusals.{Known, history_faults, history_line_faults, instance_fault, unknown_unless};

use crate::choice::Shift;
use crate::fault::CaseFault;
use crate::names::Names;
use crate::rules::{Border, Past};
use crate::scenario::Scenario;
use crate::section::{Section, add_all};
use crate::table::Table;
use roster_bundle::{History, NurseHistory, Token};
use std::alloc::Global;

#[derive(Drop)]
struct HistorySection<'a> {
    source: &'a [u8],
    scenario: &'a Scenario,
    past: Table<Past>,
    // The nurse of the line before.
    near: usize,
}

impl<'a> Section<NurseHistory> for HistorySection<'a> {
    ghost About = { Known };

    ghost about = { λ s. known_of s.source.now s.scenario.now };

    ghost faults = { λ k. history_line_faults k.source k.nurses k.shifts };

    ghost built = { λ s earlier.
        s.past ≡ past_meant s.source.now s.scenario.now.nurses s.scenario.now.shifts earlier };

    fn add(&mut self, line: &NurseHistory) -> Result<(), CaseFault> {
        let nurse = self
            .scenario
            .nurses
            .number_near(self.source, line.nurse, self.near)?;
        self.near = nurse;
        if self.past.get(nurse).is_some() {
            return Err(CaseFault::HistoryNurses {
                line: line.nurse.line,
            });
        }
        let past = Past {
            border: border_of(self.source, &self.scenario.shifts, line)?,
            assignments: line.assignments,
            weekends: line.weekends,
        };
        self.past.set(nurse, past);
        Ok(())
    }
}

/// The run before the first Monday.
fn border_of(source: &[u8], shifts: &Names, line: &NurseHistory) -> Result<Border, CaseFault>
    requires { length shifts.now ≤ most_shifts }
    ensures border { IfOk result (λ border. border ≡ border_meant source.now shifts.now line.now) }
    ensures none { OnOk result (unknown_unless source.now (codes "None") shifts.now
        line.now.last_shift ≡ []) }
    ensures first { IfErr result (IsFirst (unknown_unless source.now (codes "None") shifts.now
        line.now.last_shift)) }
{
    if line.last_shift.text(source) == b"None".as_slice() {
        return Ok(Border::Free(line.free_run));
    }
    let shift = shifts.number(source, line.last_shift)?;
    Ok(Border::Working {
        shift: Shift(shift as u8),
        shift_run: line.shift_run,
        working_run: line.working_run,
    })
}

/// Checks that a section names the scenario that it belongs to.
pub(crate) fn check_instance(source: &[u8], name: &[u8], token: Token) -> Result<(), CaseFault>
    ensures none { OnOk result (instance_fault source.now name.now token ≡ []) }
    ensures first { IfErr result (IsFirst (instance_fault source.now name.now token)) }
{
    if token.text(source) != name {
        return Err(CaseFault::OtherInstance { line: token.line });
    }
    Ok(())
}

pub(crate) fn past_of(
    alloc: Global,
    source: &[u8],
    scenario: &Scenario,
    history: &History,
) -> Result<Table<Past>, CaseFault>
    ensures meant { IfOk result (λ past. past ≡ past_meant source.now scenario.now.nurses
        scenario.now.shifts history.now.nurses) }
    ensures none { OnOk result (history_faults (known_of source.now scenario.now)
        history.now ≡ []) }
    ensures first { IfErr result (IsFirst (history_faults (known_of source.now scenario.now)
        history.now)) }
{
    if history.week.value > 0 {
        return Err(CaseFault::HistoryWeek {
            line: history.week.token.line,
        });
    }
    check_instance(source, &scenario.name, history.scenario)?;
    let mut section = HistorySection {
        source,
        scenario,
        past: Table::new(alloc, scenario.nurses.len())?,
        near: 0,
    };
    add_all(&mut section, history.nurses.as_slice())?;
    Ok(section.past)
}
