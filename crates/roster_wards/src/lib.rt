//! Made-up bundles of a given size for the program `roster_bench`: what its words ask for, the bundles, and a
//! digest of what the runs wrote.
#![tactic(auto)]

mod bundle;
mod digest;
mod kind;
mod plan;
mod random;
mod text;
mod ward;

pub use bundle::Size;
pub use digest::Digest;
pub use kind::Kind;
pub use plan::{Plan, Work};
