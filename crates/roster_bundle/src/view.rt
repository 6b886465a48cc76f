//! What is needed of a solution to write it.

ghost use Rattle.std.specs.Prelude.{◌≡◌, ◌<◌, option_map};
ghost use Rattle.roster_bundle.specs.Canonical.{Shown};

/// One week's solution, by the numbers of its nurses and of the weekdays; 0 is Monday.
pub trait SolutionView {
    // Everything that the methods below return.
    ghost shown: { Self → Shown };

    /// The week's number, from 0.
    fn week(&self) -> u16
        ensures { result ≡ (shown self.now).week };

    /// The name of the scenario.
    fn name(&self) -> &[u8]
        ensures { result.now ≡ (shown self.now).name };

    /// The number of nurses.
    fn nurses(&self) -> usize
        ensures { result ≡ (shown self.now).nurses };

    /// The name of a nurse.
    fn nurse(&self, nurse: usize) -> &[u8]
        requires { nurse < (shown self.now).nurses }
        ensures { result.now ≡ (shown self.now).nurse nurse };

    /// The names of the shift and the skill that a nurse works on a weekday, if any.
    fn on(&self, nurse: usize, weekday: u16) -> Option<(&[u8], &[u8])>
        requires nurse { nurse < (shown self.now).nurses }
        requires weekday { weekday < 7 }
        ensures { option_map (λ work. (work.0.now, work.1.now)) result
            ≡ (shown self.now).on nurse weekday };
}
