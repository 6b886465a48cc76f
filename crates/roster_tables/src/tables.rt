//! The tables of a search.

ghost use Rattle.std.specs.Prelude.{◌≡◌, ◌*◌, ◌≤◌, IfOk};
ghost use Rattle.roster_bundle.specs.Limits.{greatest_u64};

use crate::labels::SpanBuffer;
use crate::pointers::Pointers;
use std::alloc::{AllocError, Global};
use std::marker::Model;

/// What a search writes into: two tables of labels, which the days take by turns, one for the day at hand and
/// one for the next, a pointer for each state and day, and a buffer for a span. The same tables serve one
/// search after another, and no search reads what they held before: between searches the labels may serve
/// something else.
pub struct Tables {
    pub labels: Vec<u32>,
    pub later: Vec<u32>,
    pub(crate) pointers: Pointers,
    pub(crate) buffer: SpanBuffer,
}

// Written by hand, so that code that drops the tables has one call to prove.
impl Drop for Tables {
    fn drop(self) {
        let Tables {
            labels: _,
            later: _,
            pointers: _,
            buffer: _,
        } = self;
    }
}

impl Model for Tables {
    ghost use Rattle.std.specs.Prelude.{◌≡◌, ◌+◌, length, vec_capacity};
    ghost use Rattle.roster_tables.specs.Search.{TableCapacity};

    ghost Value = { TableCapacity };

    ghost view = { λ t. record {
      labels = length t.labels.items + length t.later.items;
      pointers = length t.pointers;
      label_capacity = vec_capacity t.labels;
      later_capacity = vec_capacity t.later;
    } };

    ghost invariant = { λ t. length t.labels.items ≡ length t.later.items };
}

impl Tables {
    /// Tables for that many states on that many days, by three allocations.
    ///
    /// # Errors
    ///
    /// An allocation was refused.
    pub fn new(alloc: Global, states: usize, days: usize) -> Result<Tables, AllocError>
        requires within { states * days ≤ greatest_u64 }
        ensures labels { IfOk result (λ tables. tables.labels ≡ 2 * states) }
        ensures pointers { IfOk result (λ tables. tables.pointers ≡ states * days) }
    {
        Ok(Tables {
            labels: vec![in alloc; 0; states]?,
            later: vec![in alloc; 0; states]?,
            pointers: Pointers::new(alloc, states * days)?,
            buffer: SpanBuffer::new(),
        })
    }

    /// The number of labels of the two tables together.
    pub fn labels(&self) -> usize
        ensures { result ≡ self.now.labels }
    {
        self.labels.len() + self.later.len()
    }

    /// The number of pointers.
    pub fn pointers(&self) -> usize
        ensures { result ≡ self.now.pointers }
    {
        self.pointers.len()
    }
}
