//! A day of a search.

ghost use Rattle.roster_tables.specs.Days.{IsReady};

use crate::days::SearchDays;
use roster_offers::Offer;
use roster_state::{BOXES, StateBox};

/// A day whose labels and pointers are still to be set: the boxes of its reachable states, its offers, the
/// labels of the day after it, and the index of its first pointer.
#[derive(Clone, Copy)]
pub struct OpenDay<'a, 'b> {
    pub days: SearchDays<'a>,
    pub day: u16,
    pub boxes: &'a [StateBox; BOXES],
    pub offers: &'a [Offer],
    pub later: &'b [u32],
    pub first: u32,
    pub ghost ready: { IsReady days day boxes.now offers.now later.now },
}
