//! A law about runs. The function does nothing; its clause is the law.

ghost use Rattle.std.specs.Prelude.{ℕ, Bool, List};
ghost use Rattle.roster_instance.specs.Meaning.{Meaning};
ghost use Rattle.roster_instance.specs.Rosters.{Rows};
ghost use Rattle.roster_polish.specs.Polished.{EndsCheapest, IsPolishing};

/// A run ends with the cheapest of the rosters at which its log has a line. The first of these is the given
/// one, and the last line is about the end.
pub fn end_is_cheapest()
    ensures { (c : Meaning) (from start kicks : ℕ) (given last : Rows) (alone settled : Bool)
        (text : List ℕ) → (run : IsPolishing c from given start kicks alone settled last text) →
        EndsCheapest run }
{}
