//! From tokens to the bundle that they spell.

ghost use Rattle.std.specs.Prelude.{◌≡◌, ◌≢◌, ℕ, List, IfOk, IfErr, MatchResult, length};
ghost use Rattle.roster_text.specs.FirstFault.{IsFirstFault};
ghost use Rattle.roster_text.specs.Grammar.{Spells};
ghost use Rattle.roster_text.specs.Reading.{GivesUnlessMemory, bundle_at, whole_of, fault_of};
ghost use Rattle.roster_bundle.specs.SmallNumbers.{SaysSmallNumbers};
ghost use Rattle.roster_bundle.specs.Token.{Seen, all_seen, line_at_end, tokens_of};

use crate::fault::TextFault;
use crate::parser::{Parse, Parser, Refusal, Stop};
use crate::token::line_at_end;
use roster_bundle::{Bundle, Token};
use std::alloc::Global;

/// The bundle that the tokens of a source spell: a scenario, a history, as many weeks of data as the scenario
/// says, as many solutions, and nothing after them. Names stay tokens of the source.
pub fn parse_bundle(alloc: Global, source: &[u8], tokens: &[Token]) -> Result<Bundle, TextFault>
    requires { tokens.now ≡ tokens_of source.now }

    // What is read is spelled.
    ensures spelled { IfOk result (Spells (all_seen source.now tokens.now)) }

    // What the crates above need to know of such a bundle.
    ensures small { IfOk result SaysSmallNumbers }
    ensures weeks { IfOk result (λ b. length b.week_data ≡ b.scenario.weeks.value) }
    ensures solutions { IfOk result (λ b. length b.solutions ≡ b.scenario.weeks.value) }

    // What is spelled is read, unless memory runs out.
    ensures accepted { (b : Bundle) → Spells (all_seen source.now tokens.now) b →
        MatchResult result (λ c. c ≡ b) (λ f. f ≡ TextFault.Memory) }

    // Any other result is the first fault.
    ensures refused { IfErr result (λ f. f ≢ TextFault.Memory →
        IsFirstFault (line_at_end source.now) (all_seen source.now tokens.now) f) }
{
    bundle_of(alloc, source, tokens)
}

/// A list of tokens spells at most one bundle.
pub fn one_bundle()
    ensures { (ts : List Seen) (b c : Bundle) → Spells ts b → Spells ts c → b ≡ c }
{}

/// The numbers of a bundle that is spelled are from 0 to 999: those of the pairs, the contracts and the
/// history lines.
pub fn numbers_are_small()
    ensures { (ts : List Seen) (b : Bundle) → Spells ts b → SaysSmallNumbers b }
{}

/// A list of tokens has at most one first fault: one position, and one word for what is expected there.
pub fn one_first_fault()
    ensures { (end : ℕ) (ts : List Seen) (f g : TextFault) → IsFirstFault end ts f →
        IsFirstFault end ts g → f ≡ g }
{}

/// Reads from left to right, and says where and why it stops.
fn bundle_of(alloc: Global, source: &[u8], tokens: &[Token]) -> Result<Bundle, TextFault>
    requires { tokens.now ≡ tokens_of source.now }
    ensures { GivesUnlessMemory result (whole_of (line_at_end source.now)
        (bundle_at (all_seen source.now tokens.now))) }
{
    let mut parser = Parser::new(alloc, source, tokens);
    match Bundle::parse(&mut parser) {
        Ok(bundle) => match parser.line() {
            None => Ok(bundle),
            Some(line) => Err(TextFault::AfterEnd { line }),
        },
        Err(Stop::Memory) => Err(TextFault::Memory),
        Err(Stop::Refused(refusal)) => {
            let line = match parser.line() {
                None => line_at_end(source),
                Some(line) => line,
            };
            Err(fault_of(refusal, line))
        }
    }
}

fn fault_of(refusal: Refusal, line: usize) -> TextFault
    ensures { result ≡ fault_of refusal line }
{
    match refusal {
        Refusal::Due(what) => TextFault::Expected { line, what },
        Refusal::OutOfRange => TextFault::NumberRange { line },
    }
}
