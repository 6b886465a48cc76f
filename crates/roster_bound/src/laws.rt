//! Laws: no roster costs less than the lower bounds. The functions do nothing; their clauses are the laws.

ghost use Rattle.std.specs.Prelude.{◌≡◌, ◌*◌, ◌%◌, ◌<◌, ◌⊎◌, ◌++◌, [], ◌∷◌, List, ℕ, true};
ghost use Rattle.roster_instance.specs.Meaning.{Meaning};
ghost use Rattle.roster_instance.specs.Rosters.{Rows};
ghost use Rattle.roster_rules.specs.Penalties.{penalty};
ghost use Rattle.roster_prices.specs.declared.decisions.Decision.{Decision};
ghost use Rattle.roster_prices.specs.Nodes.{IsLowerBoundIn, IsLowerBoundInBoth, is_in_node, other_way};
ghost use Rattle.roster_slots.specs.Slots.{AreDualPrices, SlotPrices};
ghost use Rattle.roster_prices.specs.LowerBounds.{IsLeast, IsLowerBound, bound_by, first_bound, first_dual_prices, rounded_up};

/// Whatever the scale and the dual prices, what slots and nurses cost at least, rounded up to whole points,
/// and to a multiple of 5 if each penalty is one, is a lower bound on the penalty of each roster that fits
/// the case, keeps the hard rules and agrees with the given one on the frozen days.
pub fn no_roster_is_below_the_bound()
    ensures { (c : Meaning) (from : ℕ) (given : Rows) (scale : ℕ) (w : SlotPrices) → 0 < scale →
        AreDualPrices scale w → IsLowerBound c from given (bound_by c from given scale w) }
{}

/// Dual prices of whole points have the same bound at each scale. So what the first round promises doesn't
/// depend on the scale.
pub fn whole_points_have_one_bound()
    ensures points { (c : Meaning) (from : ℕ) (given : Rows) (scale : ℕ) (w : SlotPrices) →
        0 < scale → bound_by c from given scale (λ d s k. scale * w d s k)
        ≡ bound_by c from given 1 w }
    ensures first { (c : Meaning) (from : ℕ) (given : Rows) (scale : ℕ) → 0 < scale →
        bound_by c from given scale (first_dual_prices c scale) ≡ first_bound c from given }
{}

/// If a lower bound is what a roster costs, then none costs less of those that fit the case, keep the hard
/// rules and agree with the given one on the frozen days.
pub fn met_bound_is_least()
    ensures { (c : Meaning) (from : ℕ) (given : Rows) (bound : ℕ) (r : Rows) →
        IsLowerBound c from given bound → bound ≡ penalty c r → IsLeast c from given r }
{}

/// A bound may be rounded up to the next multiple of 5 if each penalty is one. That holds unless a roster is
/// kept at a number of points that isn't.
pub fn bounds_are_rounded_up()
    ensures fives { (c : Meaning) (r : Rows) → c.keep % 5 ≡ 0 → penalty c r % 5 ≡ 0 }
    ensures bounds { (c : Meaning) (from : ℕ) (given : Rows) (bound : ℕ) →
        IsLowerBound c from given bound →
        IsLowerBound c from given (rounded_up c bound) }
{}

/// Each roster of a node is in one of its two children: in the one a decision is kept, in the other it is
/// kept the other way round. So a lower bound for both children is one for the node. The node without
/// decisions has all rosters.
pub fn nodes_cover_all()
    ensures one_of_two { (node : List Decision) (x : Decision) (r : Rows) →
        is_in_node node r ≡ true → (is_in_node (node ++ x ∷ []) r ≡ true)
        ⊎ (is_in_node (node ++ other_way x ∷ []) r ≡ true) }
    ensures both { (c : Meaning) (from : ℕ) (given : Rows) (node : List Decision) (x : Decision)
        (bound : ℕ) → IsLowerBoundInBoth c from given node x bound →
        IsLowerBoundIn c from given node bound }
    ensures all { (c : Meaning) (from : ℕ) (given : Rows) (bound : ℕ) →
        IsLowerBoundIn c from given [] bound → IsLowerBound c from given bound }
{}
