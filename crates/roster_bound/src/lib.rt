//! A lower bound on the penalty of every roster of a case that keeps the hard rules.
//!
//! The lower bound by any dual prices is defined in `specs/LowerBounds.antt` of `roster_prices`, and the log
//! of a run in `specs/BoundLogs.antt`. `no_roster_is_below_the_bound` promises that it is a lower bound.
//! `lower_bound` promises to return it, and `raise_bound` that each lower bound that its rounds report is
//! that of some dual prices, and no less than the first round's, and that each one that its branchings report
//! is the least of such bounds over nodes that contain all rosters. `specs/Rounds.antt` says when a round is
//! left out, `specs/BoundRuns.antt` what a run leaves, and `specs/Branchings.antt` when it makes no more
//! branchings.
//!
//! The lower bound for the rosters of a node is defined in `specs/Nodes.antt` there, and nodes that contain
//! all rosters in `specs/Branching.antt`. `choosing` takes the next branching decision, by how dual prices
//! move in a node (`pooled`), and `branch_least` (`tree`) promises that the nodes still contain all rosters,
//! each with a lower bound for its own (`AreNodesOf`).
#![tactic(auto)]

mod bounds;
mod choosing;
mod effort;
mod laws;
mod nodes;
mod pooled;
mod rounds;
mod tree;
mod upper;

pub use bounds::lower_bound;
pub use effort::{Effort, Raised, Reached, Task};
pub use laws::{
    bounds_are_rounded_up, met_bound_is_least, no_roster_is_below_the_bound, nodes_cover_all,
    whole_points_have_one_bound,
};
pub use rounds::raise_bound;
pub use tree::BoundSpace;
