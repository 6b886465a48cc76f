//! What a run shows of its rosters while it goes on, so that they can be saved.

ghost use Rattle.std.specs.Prelude.{◌≡◌, true, false};
ghost use Rattle.roster_instance.specs.Meaning.{Meaning};
ghost use Rattle.roster_instance.specs.Rosters.{Rows};
ghost use Rattle.roster_rounds.specs.PutIn.{IsAccepted};
ghost use Rattle.roster_polish.specs.Shown.{IsShownIf};

use roster_case::Held;

/// Saves rosters. A run shows it the given roster once the first line of the log has gone out, and from the
/// next line on the roster that it holds, before each change that it tries. So it is shown the same roster
/// again and again, and saves it when it likes.
pub trait Saves {
    /// It was shown this roster of the case, and is the other after that.
    ghost Saw: { Self → Meaning → Rows → Self → Type 0 };

    /// Is shown a roster.
    fn show(&mut self, held: &Held)
        ensures { Saw self.old held.now.case held.now.roster self.new };
}

/// Saves nothing.
#[derive(Clone, Copy, Debug, Default, PartialEq, Eq)]
pub struct NoSaves;

impl Saves for NoSaves {
    ghost Saw = { λ saver c r after. after ≡ saver };

    fn show(&mut self, _held: &Held) {}
}

/// What a run reports besides the later lines of its log: the number in the first of them, and its rosters.
#[derive(Drop)]
pub struct Reporting<S> {
    pub start: u64,
    pub saver: S,
}

/// Shows a held roster, if the log has reported it.
pub(crate) fn show_if<S: Saves>(is_reported: bool, held: &Held, saver: &mut S)
    ensures shown { IsShownIf S.Saw held.now.case held.now.roster is_reported saver.old saver.new }
    ensures accepted { IsAccepted held.now.case held.now.roster }
{
    held.keeps_rules();
    if is_reported {
        saver.show(held);
    }
}
