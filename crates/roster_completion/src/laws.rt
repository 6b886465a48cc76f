//! The law that makes completion bounds lower bounds. The function here does nothing: its clauses state the
//! law.

ghost use Rattle.std.specs.Prelude.{ℕ, List};
ghost use Rattle.roster_instance.specs.Meaning.{Meaning};
ghost use Rattle.roster_offers.specs.declared.offer.Offer.{Offer};
ghost use Rattle.roster_completion.specs.Later.{HaveRestAbove};
ghost use Rattle.roster_completion.specs.declared.rates.Rates.{Rates};

/// From each state that fits, on each day, the completion bound and what assignments and worked weekends cost
/// later are together no more than the cost of the best row from there on and what the days of that row pay
/// at the rates, in the parts of a point of the scale. The offers are those of a case.
pub fn completion_bounds_lie_under_the_rest()
    ensures { (c : Meaning) (n scale : ℕ) (rates : Rates) (offers : ℕ → List Offer)
        (completion_bounds : List ℕ) → HaveRestAbove c n scale rates offers completion_bounds }
{}
