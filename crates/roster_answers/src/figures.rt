//! The commands `cost` and `sizes`.

ghost use Rattle.std.specs.Prelude.{OnOk, IfErr};
ghost use Rattle.roster_text.specs.Io.{Writes};
ghost use Rattle.roster_answers.specs.Answer.{Ends, StopsOutput, cost_report, outcome_of, output_of};
ghost use Rattle.roster_reports.specs.Lines.{sizes_text};
ghost use Rattle.roster_json.specs.Reports.{json_cost, json_sizes};

use crate::fault::Fault;
use crate::held::hold;
use crate::instance::Instance;
use roster_instance::Case;
use roster_json::{write_json_cost, write_json_sizes};
use roster_reports::{write_costs, write_sizes};
use roster_text::Watch;
use std::alloc::Global;
use std::io::Write;

/// Writes what each soft rule costs in the roster of an instance.
pub fn report_cost<'a, Out: Write>(
    alloc: Global,
    instance: Instance,
    output: &mut Watch<Out>,
) -> Result<(), Fault<'a>>
    ensures ends { Ends (output_of Out.contents output.old output.new)
        (cost_report instance.case instance.roster) instance.case (outcome_of result) }
{
    let held = hold(alloc, instance)?;
    Ok(write_costs(output, held.costs())?)
}

/// Writes all breaches of the hard rules as JSON, and what each soft rule costs, whatever roster it is.
pub fn report_json_cost<'a, Out: Write>(
    instance: &Instance,
    output: &mut Watch<Out>,
) -> Result<(), Fault<'a>>
    ensures ok { OnOk result (Writes Out.contents output.old output.new
        (json_cost instance.now.case instance.now.roster)) }
    ensures err { IfErr result (StopsOutput Out.contents output.old output.new
        (json_cost instance.now.case instance.now.roster)) }
{
    Ok(write_json_cost(output, &instance.case, &instance.roster)?)
}

/// Writes how much memory and time each nurse's search takes at most.
pub fn report_sizes<'a, Out: Write>(case: &Case, output: &mut Watch<Out>) -> Result<(), Fault<'a>>
    ensures ok { OnOk result (Writes Out.contents output.old output.new (sizes_text case.now)) }
    ensures err { IfErr result (StopsOutput Out.contents output.old output.new
        (sizes_text case.now)) }
{
    Ok(write_sizes(output, case)?)
}

/// The same as JSON.
pub fn report_json_sizes<'a, Out: Write>(
    case: &Case,
    output: &mut Watch<Out>,
) -> Result<(), Fault<'a>>
    ensures ok { OnOk result (Writes Out.contents output.old output.new (json_sizes case.now)) }
    ensures err { IfErr result (StopsOutput Out.contents output.old output.new
        (json_sizes case.now)) }
{
    Ok(write_json_sizes(output, case)?)
}
