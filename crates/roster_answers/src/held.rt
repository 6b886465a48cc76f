//! A roster that keeps the hard rules, held for a command.

ghost use Rattle.std.specs.Prelude.{◌≡◌, [], IfOk, IfErr, OnOk};
ghost use Rattle.roster_rules.specs.HardRules.{hard_faults};
ghost use Rattle.roster_answers.specs.Answer.{IsUnheld};

use crate::fault::Fault;
use crate::instance::Instance;
use roster_case::{Held, HeldFault};
use std::alloc::Global;

/// Holds the roster of an instance. The fault is the first breach of the hard rules, with the case, or else
/// want of memory.
pub fn hold<'a>(alloc: Global, instance: Instance) -> Result<Held, Fault<'a>>
    ensures held { IfOk result (λ held. held ≡ record
        { case = instance.case; roster = instance.roster }) }
    ensures kept { OnOk result (hard_faults instance.case instance.roster ≡ []) }
    ensures unheld { IfErr result (IsUnheld instance.case
        (hard_faults instance.case instance.roster)) }
{
    let (case, roster) = instance.into_parts();
    match Held::new(alloc, case, roster) {
        Ok(held) => Ok(held),
        Err(HeldFault::Hard(fault, case, _)) => Err(Fault::Hard(fault, case)),
        Err(HeldFault::Memory(..)) => Err(Fault::Memory),
    }
}
