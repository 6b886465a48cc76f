//! The best of a list of rows.

ghost use Rattle.std.specs.Prelude.{◌≡◌, ℕ, List};
ghost use Rattle.roster_instance.specs.Rosters.{Row};
ghost use Rattle.roster_rules.specs.AllowedRows.{IsFirstLeast, first_least};

/// A list has at most one first of its least rows, and `first_least` returns it.
pub fn one_first_least_row()
    ensures found { (cost : Row → ℕ) (rows : List Row) (row : Row) →
        first_least cost rows ≡ Some row → IsFirstLeast cost rows row }
    ensures only { (cost : Row → ℕ) (rows : List Row) (row : Row) → IsFirstLeast cost rows row →
        first_least cost rows ≡ Some row }
{}
