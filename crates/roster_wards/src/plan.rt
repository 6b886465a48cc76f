//! What the words of the command line ask for.

ghost use Rattle.std.specs.Prelude.{◌≤◌, IfSome};

use crate::bundle::Size;
use crate::kind::Kind;

/// What the program is to do.
#[derive(Clone, Copy)]
pub enum Work {
    /// Writes the bundle of this number.
    Show { number: u32 },
    Cost { bundles: u32 },
    Improve { rounds: u16 },
    Bound { rounds: u16 },
    Polish { searches: u32 },
}

/// What the program is to do, and with bundles of which size.
#[derive(Clone, Copy)]
pub struct Plan {
    pub work: Work,
    pub size: Size,
}

impl Work {
    fn of_words(command: &str, amount: &str) -> Option<Work> {
        let work = match command {
            "show" => Work::Show {
                number: number_in(amount, 0, u32::MAX)?,
            },
            "cost" => Work::Cost {
                bundles: number_in(amount, 1, u32::MAX)?,
            },
            "improve" => Work::Improve {
                rounds: rounds_in(amount)?,
            },
            "bound" => Work::Bound {
                rounds: rounds_in(amount)?,
            },
            "polish" => Work::Polish {
                searches: number_in(amount, 0, 10_000_000)?,
            },
            _ => return None,
        };
        Some(work)
    }

    /// How many bundles there are.
    pub fn bundles(self) -> u32 {
        match self {
            Work::Cost { bundles } => bundles,
            _ => 1,
        }
    }
}

impl Plan {
    /// What these words ask for. The program's name is the first of them.
    pub fn of_words(words: &[String]) -> Option<Plan> {
        let [_, command, kind, nurses, weeks, amount, seed] = words else {
            return None;
        };
        let kind = Kind::of_word(kind.as_str())?;
        Some(Plan {
            work: Work::of_words(command.as_str(), amount.as_str())?,
            size: Size {
                kind,
                nurses: number_in(nurses.as_str(), 1, 400)?,
                weeks: number_in(weeks.as_str(), 1, kind.most_weeks())?,
                seed: number_in(seed.as_str(), 0, u32::MAX)?,
            },
        })
    }
}

fn rounds_in(word: &str) -> Option<u16> {
    u16::try_from(number_in(word, 0, 1000)?).ok()
}

/// The number that a word spells, if it is from `least` to `most`.
fn number_in(word: &str, least: u32, most: u32) -> Option<u32>
    ensures { IfSome result (λ number. (least ≤ number) × (number ≤ most)) }
{
    let number = word.parse::<u32>().ok()?;
    if number < least || number > most {
        return None;
    }
    Some(number)
}
