//! What the four texts of an instance say, item by item, and the view of a solution that is written.
#![tactic(auto)]

mod bundle;
mod token;
mod view;

pub use bundle::{
    Assignment, Bundle, Contract, Day, History, Items, Listed, Number, Nurse, NurseDay,
    NurseHistory, Pair, Request, Requirement, Scenario, ShiftType, Solution, Succession, WeekData,
    WeekPairs,
};
pub use token::Token;
pub use view::SolutionView;
