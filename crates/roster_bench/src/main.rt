//! The program `roster_bench`: makes bundles of a given size, lets the program `roster` answer them in
//! memory, and prints a digest of what it wrote. It measures no times; `bench/run` does.
#![tactic(auto)]

mod runs;

use crate::runs::run_plan;
use roster_wards::{Plan, Work};
use std::io::Write;
use std::process::ExitCode;
use std::rt::Env;
use std::{env, io};

const USAGE: &str = "roster_bench COMMAND KIND NURSES WEEKS AMOUNT SEED
COMMAND  what is done with AMOUNT: improve (rounds, up to 1000), bound (rounds, up to 1000), polish (searches, up to 10000000),
         cost (different bundles, 1 and more), show (writes the bundle of this number)
KIND     ward, empty (no assignments; both up to 19 weeks), year, wide (eight shifts and skills; both up to 52 weeks)
NURSES   1 to 400
SEED     0 to 4294967295
";

fn main(rt: HostRuntime) -> io::Result<ExitCode> {
    let words = words_of(&rt)?;
    let Some(plan) = Plan::of_words(&words) else {
        rt.eprint(USAGE)?;
        return Ok(ExitCode::from(2));
    };
    if let Work::Show { number } = plan.work {
        let bundle = plan.size.bundle(rt.alloc(), number)?;
        rt.stdout().write_all(&bundle)?;
        return Ok(ExitCode::from(0));
    }
    let tally = run_plan(rt.alloc(), &plan)?;
    let (digest, bundles, bytes, status) = (
        tally.digest.value(),
        tally.bundles,
        tally.bytes,
        tally.status,
    );
    println!(rt; "{digest:016x} {bundles} bundles, {bytes} bytes, status {status}")?;
    Ok(ExitCode::from(status))
}

/// The words of the command line.
fn words_of(rt: &(impl Env + AllocGlobal)) -> io::Result<Vec<String>> {
    let given = env::args(rt)?;
    let mut words = Vec::with_capacity(rt.alloc(), given.len())?;
    words.extend(given)?;
    Ok(words)
}
