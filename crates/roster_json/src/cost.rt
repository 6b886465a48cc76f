//! The report of `cost` as JSON.

ghost use Rattle.std.specs.Prelude.{◌≡◌, ◌<◌, OnErr, OnOk, true};
ghost use Rattle.roster_text.specs.Io.{Stops, Writes};
ghost use Rattle.roster_instance.specs.Rosters.{fits_case};
ghost use Rattle.roster_rules.specs.HardRules.{keeps_hard};
ghost use Rattle.roster_rules.specs.Penalties.{total_cost};
ghost use Rattle.roster_rules.specs.PenaltyBounds.{penalty_limit};
ghost use Rattle.roster_json.specs.Reports.{costs_line, json_cost};

use crate::breaches::write_breaches;
use crate::object::{Field, write_object};
use crate::pieces::NotWritten;
use roster_costs::{costs, first_hard};
use roster_instance::{Case, Roster};
use roster_rules::Costs;
use roster_text::Watch;
use std::io::Write;

/// Writes a line for each breach of the hard rules, and one for what the roster costs. It may break the hard
/// rules.
pub fn write_json_cost<W: Write>(
    out: &mut Watch<W>,
    case: &Case,
    roster: &Roster,
) -> Result<(), NotWritten>
    requires { fits_case case.now roster.now ≡ true }
    ensures ok { OnOk result (Writes W.contents out.old out.new (json_cost case.now roster.now)) }
    ensures err { OnErr result (Stops W.contents out.old out.new (json_cost case.now roster.now)) }
{
    write_breaches(out, case, roster)?;
    write_costs(out, is_allowed(case, roster), costs(case, roster))
}

/// Whether a roster keeps the hard rules.
fn is_allowed(case: &Case, roster: &Roster) -> bool
    requires { fits_case case.now roster.now ≡ true }
    ensures { result ≡ keeps_hard case.now roster.now }
{
    match first_hard(case, roster) {
        None => true,
        Some(_) => false,
    }
}

/// Writes the line of the costs.
fn write_costs<W: Write>(out: &mut Watch<W>, allowed: bool, costs: Costs) -> Result<(), NotWritten>
    requires { total_cost costs < penalty_limit }
    ensures ok { OnOk result (Writes W.contents out.old out.new (costs_line allowed costs)) }
    ensures err { OnErr result (Stops W.contents out.old out.new (costs_line allowed costs)) }
{
    write_object(
        out,
        "costs",
        &[
            Field::Truth("allowed", allowed),
            Field::Number("S1", costs.s1),
            Field::Number("S2", costs.s2),
            Field::Number("S3", costs.s3),
            Field::Number("S4", costs.s4),
            Field::Number("S5", costs.s5),
            Field::Number("S6", costs.s6),
            Field::Number("S7", costs.s7),
            Field::Number("S8", costs.s8),
            Field::Number("total", costs.total()),
        ],
    )
}
