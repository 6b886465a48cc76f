//! From the bytes of an input to the bundle that they spell, and to the case and the roster that it means.

ghost use Rattle.std.specs.Prelude.{◌≡◌, ◌≢◌, ◌≤◌, true, [], Some, OnOk, IfOk, IfErr};
ghost use Rattle.roster_instance.specs.Bundles.{meaning_of, rows_of};
ghost use Rattle.roster_instance.specs.Faults.{first_fault};
ghost use Rattle.roster_instance.specs.Limits.{most_keep};
ghost use Rattle.roster_instance.specs.Refusals.{all_faults};
ghost use Rattle.roster_instance.specs.Rosters.{fits_case};
ghost use Rattle.roster_answers.specs.Answer.{HasFault, IsKeptAt, SpellsBundle, SpellsInstance, StopsReading};

use crate::fault::Fault;
use crate::instance::Instance;
use roster_bundle::Bundle;
use roster_instance::{Case, CaseFault, Roster};
use roster_reports::nurse_of;
use roster_text::{TextFault, parse_bundle, tokens};
use std::alloc::{AllocError, Global};

/// What the bytes of an input mean, or why they are refused.
pub fn read_instance<'a>(alloc: Global, source: &'a [u8]) -> Result<Instance, Fault<'a>>
    ensures says { IfOk result (SpellsInstance source.now) }
    ensures refused { IfErr result (StopsReading source.now) }
{
    let bundle = match bundle_of(alloc, source) {
        Ok(bundle) => bundle,
        Err(fault) => return Err(Fault::Text(fault)),
    };
    match roster_of(alloc, source, &bundle) {
        Ok((case, roster)) => Ok(Instance { case, roster }),
        Err(fault) => Err(Fault::Case(fault, nurse_of(source, &bundle, fault))),
    }
}

/// The instance, with this number of points for each day that changes from its roster. The error is want of
/// memory for a copy of the roster.
pub fn keep_roster(alloc: Global, instance: Instance, keep: u16) -> Result<Instance, AllocError>
    requires { keep ≤ most_keep }
    ensures { IfOk result (IsKeptAt instance keep) }
{
    let (case, roster) = instance.into_parts();
    let case = case.keeping(alloc, &roster, keep)?;
    Ok(Instance { case, roster })
}

/// The bundle that the bytes spell.
fn bundle_of(alloc: Global, source: &[u8]) -> Result<Bundle, TextFault>
    ensures spelled { IfOk result (SpellsBundle source.now) }
    ensures refused { IfErr result (HasFault source.now) }
{
    let tokens = tokens(alloc, source)?;
    parse_bundle(alloc, source, &tokens)
}

/// The case and the roster of a bundle.
fn roster_of(alloc: Global, source: &[u8], bundle: &Bundle) -> Result<(Case, Roster), CaseFault>
    requires { SpellsBundle source.now bundle.now }
    ensures case { IfOk result (λ r. r.0 ≡ meaning_of source.now bundle.now) }
    ensures roster { IfOk result (λ r. r.1 ≡ rows_of source.now r.0 bundle.now) }
    ensures fitting { IfOk result (λ r. fits_case r.0 r.1 ≡ true) }
    ensures taken { OnOk result (all_faults source.now bundle.now ≡ []) }
    ensures refused { IfErr result (λ f. f ≢ CaseFault.Memory →
        first_fault (all_faults source.now bundle.now) ≡ Some f) }
{
    let case = Case::from_bundle(alloc, bundle, source)?;
    let roster = Roster::from_bundle(alloc, &case, bundle, source)?;
    Ok((case, roster))
}
