//! Laws of the definitions: one row replaced, best rows, runs of the improver and their logs. The functions
//! here do nothing: each is a law, and its clauses say it.
//!
//! `specs/OneRow.antt` defines what a row costs, and whether it keeps the hard rules in the place of a
//! nurse's, by the shortfall of a day's staffing (`specs/Staffing.antt`); `specs/Logs.antt` what the log of a
//! run says; `specs/FrozenDays.antt` that frozen days stay; `specs/Greatest.antt` the greatest sizes of a
//! case; `specs/RowOrder.antt` the order of rows; `specs/Absences.antt` and `specs/FixedDays.antt` bundles
//! without absences and without fixed days; and `specs/Kept.antt` on how many days a roster differs from one
//! that is kept.
#![tactic(auto)]

mod absences;
mod bounds;
mod fixed_days;
mod improver;
mod keeping;
mod replaced;
mod rows;
mod sizes;

pub use absences::absences_are_none;
pub use bounds::penalties_are_low;
pub use fixed_days::fixed_days_are_none;
pub use improver::{
    changes_are_few, frozen_days_stay, frozen_weeks_stay, last_round_decides,
    log_ends_with_the_run, penalty_never_rises, runs_keep_the_hard_rules, same_rows_are_equal,
    settled_stays, steps_put_the_best_row_in,
};
pub use keeping::kept_roster_costs_its_changes;
pub use replaced::{
    hard_rules_by_parts, one_row_replaced, penalty_by_parts, staffing_by_shortfall,
};
pub use rows::{all_rows_are_the_rows_of_the_case, allowed_rows_keep_the_hard_rules};
pub use sizes::greatest_sizes;
