//! Laws of labels that are written twice. No contract says how often a cell is written; these say that a
//! second time makes no difference. The functions do nothing: each is a law, stated by its clauses.

ghost use Rattle.std.specs.Prelude.{ℕ, List};
ghost use Rattle.roster_lanes.specs.Lanes.{LabelsLowered, LabelsSet, PointersSet, SameInside};

/// Labels that were lowered by some other ones, and are once more, stay as they are, and so do their
/// pointers.
pub fn lowering_again_changes_nothing()
    ensures labels { (first end more : ℕ) (others old new again : List ℕ)
        → LabelsLowered first end others more old new
        → LabelsLowered first end others more new again → SameInside first end new again }
    ensures pointers { (i j more p : ℕ) (others old new numbers again : List ℕ)
        → LabelsLowered i j others more old new → PointersSet i j others more p new numbers again
        → SameInside i j numbers again }
{}

/// Labels that were set to some other ones, and are once more, stay as they are.
pub fn setting_again_changes_nothing()
    ensures { (first end more most : ℕ) (others new again : List ℕ)
        → LabelsSet first end others more most new → LabelsSet first end others more most again
        → SameInside first end new again }
{}
