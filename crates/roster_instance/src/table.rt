//! Tables with a cell for each index, which is filled at most once.

ghost use Rattle.std.specs.Prelude.{◌≡◌, ◌<◌, IfOk, None, Some, replicate, slice_index_or, slice_set};

use std::alloc::{AllocError, Global};
use std::marker::Model;

/// A cell for each index, from 0.
pub(crate) struct Table<V> {
    cells: Vec<Option<V>>,
}

// Written by hand, so that a function that drops a table has one call to prove.
impl<V: Drop> Drop for Table<V> {
    fn drop(self) {
        let Table { cells: _ } = self;
    }
}

impl<V> Model for Table<V> {
    ghost use Rattle.std.specs.Prelude.{List, Option};

    ghost Value = { List (Option V) };

    ghost view = { λ t. t.cells.items };
}

impl<V: Copy> Table<V> {
    /// A table of empty cells.
    pub(crate) fn new(alloc: Global, places: usize) -> Result<Table<V>, AllocError>
        ensures { IfOk result (λ table. table ≡ replicate places None) }
    {
        Ok(Table {
            cells: vec![in alloc; None; places]?,
        })
    }

    /// The value in a cell, if it is filled; past the end there is none.
    pub(crate) fn get(&self, index: usize) -> Option<V>
        ensures { result ≡ slice_index_or self.now index None }
    {
        match self.cells.get(index) {
            Some(cell) => *cell,
            None => None,
        }
    }

    /// Fills a cell. Past the end nothing changes.
    pub(crate) fn set(&mut self, index: usize, value: V)
        ensures { self.new ≡ slice_set self.old index (Some value) }
    {
        if let Some(cell) = self.cells.get_mut(index) {
            *cell = Some(value);
        }
    }
}
