//! Rows of the free nurses over the open days.

use crate::choices::{NUMBERS, cell_of};
use crate::problem::MOST_FREE;
use roster_slots::FINE_PER_POINT;
use std::alloc::{AllocError, Global};

/// Where the rows of a nurse begin, and how many there are.
#[derive(Clone, Copy, Debug, Default)]
pub(crate) struct Span {
    pub(crate) first: usize,
    pub(crate) count: usize,
}

/// Rows, those of one free nurse after another. Of each it is known what it costs its nurse without dual
/// prices, in points, and the number of her choice on each open day. Its value is its reduced cost by the
/// dual prices at hand, in fine units.
pub(crate) struct Rows {
    /// How many days are open.
    pub(crate) days: usize,
    pub(crate) spans: Vec<Span>,
    pub(crate) own: Vec<u32>,
    pub(crate) numbers: Vec<u8>,
    pub(crate) values: Vec<i64>,
}

// Written by hand, so that a function that drops it has one call to prove.
impl Drop for Rows {
    fn drop(self) {
        let Rows {
            days: _,
            spans: _,
            own: _,
            numbers: _,
            values: _,
        } = self;
    }
}

/// The cheapest of some rows by dual prices: its index and its value.
#[derive(Clone, Copy, Debug, PartialEq, Eq)]
pub(crate) struct Cheapest {
    pub(crate) row: usize,
    pub(crate) value: i64,
}

/// How many days a case has at most.
const MOST_DAYS: usize = 364;

impl Rows {
    /// The memory for this many rows with this many choices, by four allocations.
    ///
    /// # Errors
    ///
    /// An allocation was refused.
    pub(crate) fn with_capacity(
        alloc: Global,
        rows: usize,
        choices: usize,
    ) -> Result<Rows, AllocError> {
        Ok(Rows {
            days: 0,
            spans: vec![in alloc; Span::default(); MOST_FREE]?,
            own: vec![in alloc; 0; rows]?,
            numbers: vec![in alloc; 0; choices]?,
            values: vec![in alloc; 0; rows]?,
        })
    }

    /// Forgets all rows. Each nurse's rows then begin this many after those of the one before.
    pub(crate) fn begin(&mut self, days: usize, apart: usize) {
        self.days = days;
        for free in 0..self.spans.len() {
            self.spans[free] = Span {
                first: free.saturating_mul(apart),
                count: 0,
            };
        }
    }

    /// Forgets the rows of a nurse. They then begin where those of the nurse before end.
    pub(crate) fn begin_after(&mut self, free: usize) {
        let first = match free.checked_sub(1) {
            Some(before) => {
                let before = self.span(before);
                before.first.saturating_add(before.count)
            }
            None => 0,
        };
        if free < self.spans.len() {
            self.spans[free] = Span { first, count: 0 };
        }
    }

    /// Where the rows of a nurse are.
    pub(crate) fn span(&self, free: usize) -> Span {
        if free < self.spans.len() {
            self.spans[free]
        } else {
            Span::default()
        }
    }

    /// What a row costs its nurse, in points.
    pub(crate) fn own(&self, row: usize) -> u32 {
        if row < self.own.len() {
            self.own[row]
        } else {
            0
        }
    }

    /// The value that was set for a row.
    pub(crate) fn value(&self, row: usize) -> i64 {
        if row < self.values.len() {
            self.values[row]
        } else {
            0
        }
    }

    /// Sets the value of a row.
    pub(crate) fn set_value(&mut self, row: usize, value: i64) {
        if row < self.values.len() {
            self.values[row] = value;
        }
    }

    /// The numbers of a row's choices.
    pub(crate) fn numbers(&self, row: usize) -> &[u8] {
        let first = row.saturating_mul(self.days);
        let end = first.saturating_add(self.days);
        if first <= end && end <= self.numbers.len() {
            &self.numbers[first..end]
        } else {
            &[]
        }
    }

    /// The number of a row's choice on an open day.
    pub(crate) fn number(&self, row: usize, offset: usize) -> u8 {
        let at = row.saturating_mul(self.days).saturating_add(offset);
        if at < self.numbers.len() {
            self.numbers[at]
        } else {
            0
        }
    }

    /// The row of a nurse with these choices.
    pub(crate) fn find(&self, free: usize, numbers: &[u8]) -> Option<usize> {
        let span = self.span(free);
        for row in span.first..span.first.saturating_add(span.count) {
            if self.numbers(row) == numbers {
                return Some(row);
            }
        }
        None
    }

    /// Adds a row to those of a nurse, if she has fewer than `most`. Returns false if there is no capacity.
    pub(crate) fn push(&mut self, free: usize, most: usize, own: u32, numbers: &[u8]) -> bool {
        let span = self.span(free);
        let row = span.first.saturating_add(span.count);
        let first = row.saturating_mul(self.days);
        if span.count >= most || row >= self.own.len() || free >= self.spans.len() {
            return false;
        }
        if first.saturating_add(self.days) > self.numbers.len() {
            return false;
        }
        self.own[row] = own;
        self.spans[free] = Span {
            first: span.first,
            count: span.count.saturating_add(1),
        };
        self.write(first, numbers);
        true
    }

    /// Writes choices from an index on.
    fn write(&mut self, first: usize, numbers: &[u8]) {
        for offset in 0..numbers.len().min(self.days) {
            let at = first.saturating_add(offset);
            if at < self.numbers.len() {
                self.numbers[at] = numbers[offset];
            }
        }
    }

    /// Adds a row that differs from another one of the same nurse on one day, with this value.
    pub(crate) fn push_changed(
        &mut self,
        free: usize,
        most: usize,
        row: usize,
        changed: Changed,
    ) -> bool {
        let span = self.span(free);
        let next = span.first.saturating_add(span.count);
        let own = self.own(row);
        if !self.push(free, most, own, &[]) {
            return false;
        }
        for offset in 0..self.days {
            let number = self.number(row, offset);
            self.set_number(next, offset, number);
        }
        self.set_number(next, changed.offset, changed.number);
        self.set_value(next, changed.value);
        true
    }

    /// Sets the number of a row's choice on an open day.
    fn set_number(&mut self, row: usize, offset: usize, number: u8) {
        let at = row.saturating_mul(self.days).saturating_add(offset);
        if at < self.numbers.len() {
            self.numbers[at] = number;
        }
    }

    /// What a row's reduced cost is, in fine units, if each cell pays this much.
    pub(crate) fn reduced(&self, row: usize, earned: &[u32]) -> i64 {
        let numbers = self.numbers(row);
        let mut paid: i64 = 0;
        for offset in 0..numbers.len().min(MOST_DAYS) {
            let cell = NUMBERS * offset + numbers[offset] as usize;
            if cell < earned.len() {
                paid = paid.saturating_add(earned[cell] as i64);
            }
        }
        (FINE_PER_POINT as i64 * self.own(row) as i64).saturating_sub(paid)
    }

    /// The cheapest row of a nurse: the first if there are several.
    pub(crate) fn cheapest(&self, free: usize, earned: &[u32]) -> Option<Cheapest> {
        let span = self.span(free);
        let mut cheapest: Option<Cheapest> = None;
        for row in span.first..span.first.saturating_add(span.count) {
            cheapest = cheaper(cheapest, row, self.reduced(row, earned));
        }
        cheapest
    }
}

/// On which open day a row differs from another one, by which choice, and its value.
#[derive(Clone, Copy, Debug)]
pub(crate) struct Changed {
    pub(crate) offset: usize,
    pub(crate) number: u8,
    pub(crate) value: i64,
}

/// A row with this value if it is cheaper than the cheapest so far, and else that one.
pub(crate) fn cheaper(cheapest: Option<Cheapest>, row: usize, value: i64) -> Option<Cheapest> {
    match cheapest {
        Some(before) if before.value <= value => cheapest,
        _ => Some(Cheapest { row, value }),
    }
}

/// What a row's choices earn together, if each cell pays this much.
pub(crate) fn earned_by(numbers: &[u8], earned: &[u32]) -> i64 {
    let mut paid: i64 = 0;
    for offset in 0..numbers.len() {
        let cell = cell_of(offset, numbers[offset]);
        if cell < earned.len() {
            paid = paid.saturating_add(earned[cell] as i64);
        }
    }
    paid
}
