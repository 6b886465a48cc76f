//! The dual prices of slots, how they move, and the column pool: the rows that searches found.
//!
//! Dual prices, and the least that slots cost by them, are defined in `specs/Slots.antt`, how dual prices are
//! held in `specs/Tables.antt`, and the capacity of the column pool in `specs/ColumnPool.antt`. `dual_prices`
//! has the dual prices, `slots` the least that slots cost, `pool` the column pool, and `steps` subgradient
//! steps. Of how dual prices move, only their ranges are proved.
#![tactic(auto)]

mod dual_prices;
mod pool;
mod slots;
mod steps;

pub use dual_prices::{DualPrices, FINE_PER_POINT, MOST_DUAL_PRICE, MOST_FINE};
pub use pool::{ColumnPool, OFF_SLOT, PoolEntry, ROWS_PER_NURSE, slot_on, unreduced_cost};
pub use slots::{need_at, slots_bound};
pub use steps::{Directions, Target, count_row, fine_slots_cost, target_cap};
