//! Runs of the program `roster` over bundles in memory.

ghost use Rattle.std.specs.Prelude.{ℕ, ◌≡◌, false, true};
ghost use Rattle.roster_request.specs.declared.request.Command.TheVariants as command;
ghost use Rattle.roster_wards.specs.declared.plan.Work.TheVariants as work;

use roster_cli::run;
use roster_request::{Command, Request};
use roster_text::Watch;
use roster_wards::{Digest, Plan, Work};
use std::alloc::{AllocError, Global};

/// What runs wrote: a digest of all outputs, logs and statuses, the number of bundles, the number of bytes of
/// output, and the last status.
#[derive(Clone, Copy)]
pub struct Tally {
    pub digest: Digest,
    pub bundles: u32,
    pub bytes: usize,
    pub status: u8,
}

/// Makes the bundles of a plan, and answers each.
pub fn run_plan(alloc: Global, plan: &Plan) -> Result<Tally, AllocError> {
    let request = Request {
        command: command_of(plan),
        files: Vec::new(alloc),
        out: None,
    };
    let mut tally = Tally {
        digest: Digest::new(),
        bundles: plan.work.bundles(),
        bytes: 0,
        status: 0,
    };
    for number in 0..tally.bundles {
        let bundle = plan.size.bundle(alloc, number)?;
        tally.answer(alloc, &request, &bundle);
    }
    Ok(tally)
}

/// The command that answers a plan's bundles. It has the plan's amount, and no week is frozen.
fn command_of(plan: &Plan) -> Command
    ensures show { (number : ℕ) → plan.now.work ≡ work.Show number → result ≡ command.Show }
    ensures cost { (bundles : ℕ) → plan.now.work ≡ work.Cost bundles →
        result ≡ command.Cost false }
    ensures improve { (rounds : ℕ) → plan.now.work ≡ work.Improve rounds →
        result ≡ command.Improve rounds 0 0 }
    ensures bound { (rounds : ℕ) → plan.now.work ≡ work.Bound rounds →
        result ≡ command.Bound rounds 0 None 0 0 }
    ensures polish { (searches : ℕ) → plan.now.work ≡ work.Polish searches →
        result ≡ command.Polish (Some searches) None plan.now.size.seed 0 true 0 }
{
    match plan.work {
        Work::Show { .. } => Command::Show,
        Work::Cost { .. } => Command::Cost { json: false },
        Work::Improve { rounds } => Command::Improve {
            rounds,
            from: 0,
            keep: 0,
        },
        Work::Bound { rounds } => Command::Bound {
            rounds,
            nodes: 0,
            seconds: None,
            from: 0,
            keep: 0,
        },
        Work::Polish { searches } => Command::Polish {
            searches: Some(searches),
            seconds: None,
            seed: plan.size.seed,
            from: 0,
            kicks_alone: true,
            keep: 0,
        },
    }
}

impl Tally {
    /// Answers a bundle, and records what was written.
    fn answer(&mut self, alloc: Global, request: &Request, bundle: &[u8]) {
        let mut input = Watch::new(bundle);
        let mut output = Watch::new(Vec::new(alloc));
        let mut log = Watch::new(Vec::new(alloc));
        self.status = run(alloc, request, &mut input, &mut output, &mut log);
        let output = output.into_inner();
        self.digest.add(&output);
        self.digest.add(&log.into_inner());
        self.digest.add(&[self.status]);
        self.bytes = self.bytes.saturating_add(output.len());
    }
}
