//! The instance big, and the case and the roster of a text.

ghost use Rattle.std.specs.Prelude.{◌≡◌, true, IfOk};
ghost use Rattle.roster_instance.specs.Rosters.{fits_case};

use roster_case::{Case, Roster};
use roster_text::{parse_bundle, tokens};
use std::alloc::{AllocError, Global};
use std::test::Fail;

// The instance big up to its nurses.
const BIG_SCENARIO: &str = "SCENARIO = big

WEEKS = 8

SKILLS = 4
K0
K1
K2
K3

SHIFT_TYPES = 4
S0 (2,5)
S1 (2,5)
S2 (2,5)
S3 (2,5)

FORBIDDEN_SHIFT_TYPES_SUCCESSIONS
S0 0
S1 0
S2 0
S3 2 S0 S1

CONTRACTS = 1
Full (30,44) (3,5) (2,3) 4 1

NURSES = 30
";

/// The instance big: eight weeks, thirty nurses with one of four skills each, and in each slot an optimum of
/// one nurse. All solutions are empty.
pub(crate) fn big(alloc: Global) -> Result<String, AllocError> {
    let mut text = String::from_str(alloc, BIG_SCENARIO)?;
    for nurse in 0..30_u8 {
        let line = format!(in alloc; "N{nurse} Full 1 K{}\n", nurse % 4)?;
        text.push_str(line.as_str())?;
    }
    text.push_str("\nHISTORY\n0 big\n\nNURSE_HISTORY\n")?;
    for nurse in 0..30_u8 {
        let line = format!(in alloc; "N{nurse} 0 0 None 0 0 2\n")?;
        text.push_str(line.as_str())?;
    }
    for _ in 0..8_u8 {
        push_big_week(alloc, &mut text)?;
    }
    for week in 0..8_u8 {
        let solution = format!(in alloc; "\nSOLUTION\n{week} big\n\nASSIGNMENTS = 0\n")?;
        text.push_str(solution.as_str())?;
    }
    Ok(text)
}

fn push_big_week(alloc: Global, text: &mut String) -> Result<(), AllocError> {
    text.push_str("\nWEEK_DATA\nbig\n\nREQUIREMENTS\n")?;
    for shift in 0..4_u8 {
        for skill in 0..4_u8 {
            let pair = format!(in alloc; "S{shift} K{skill}")?;
            text.push_str(pair.as_str())?;
            text.push_str(" (0,1) (0,1) (0,1) (0,1) (0,1) (0,1) (0,1)\n")?;
        }
    }
    text.push_str("\nSHIFT_OFF_REQUESTS = 0\n")
}

/// The case and the roster of a text.
pub(crate) fn read(alloc: Global, source: &[u8]) -> Result<(Case, Roster), Fail>
    ensures { IfOk result (λ r. fits_case r.0 r.1 ≡ true) }
{
    let tokens = tokens(alloc, source)?;
    let bundle = parse_bundle(alloc, source, &tokens)?;
    let case = Case::from_bundle(alloc, &bundle, source)?;
    let roster = Roster::from_bundle(alloc, &case, &bundle, source)?;
    Ok((case, roster))
}
