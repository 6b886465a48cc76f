//! An example program: it reads a bundle, improves its roster, and prints what each rule costs then.
#![tactic(auto)]

use roster_case::{Case, Held, Roster};
use roster_partial::RowSearcher;
use roster_reports::write_costs;
use roster_rounds::{RunSpace, improve, rounds_have_room};
use roster_state::Meter;
use roster_text::{Watch, parse_bundle, read_all, tokens};
use roster_use::Stop;
use std::alloc::Global;
use std::io::{Read, Write};
use std::process::ExitCode;

const ROUNDS: u16 = 100;

fn main(rt: HostRuntime) -> ExitCode {
    let (mut input, mut output) = (Watch::new(rt.stdin()), Watch::new(rt.stdout()));
    let mut log = Watch::new(rt.stderr());
    match print_costs(rt.alloc(), &mut input, &mut output, &mut log) {
        Ok(()) => ExitCode::from(0),
        Err(_) => ExitCode::from(1),
    }
}

/// Prints what each soft rule costs in the roster of a bundle, once it is improved.
fn print_costs<In: Read, Out: Write, Log: Write>(
    alloc: Global,
    input: &mut Watch<In>,
    output: &mut Watch<Out>,
    log: &mut Watch<Log>,
) -> Result<(), Stop> {
    let source = read_all(alloc, input)?;
    let tokens = tokens(alloc, &source)?;
    let bundle = parse_bundle(alloc, &source, &tokens)?;
    let mut case = Case::from_bundle(alloc, &bundle, &source)?;
    let roster = Roster::from_bundle(alloc, &case, &bundle, &source)?;
    let mut meter = Meter::new(&mut case);
    let mut held = Held::new(alloc, case, roster)?;
    let mut space = RunSpace::<RowSearcher>::for_case(alloc, held.case())?;
    rounds_have_room(held.case(), ROUNDS);
    improve(&mut held, ROUNDS, 0, &mut space, &mut meter, log)?;
    Ok(write_costs(output, held.costs())?)
}
