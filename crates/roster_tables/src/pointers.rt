//! Pointers: the best offer of each state.
//!
//! A pointer takes half a byte. Of all pointers the first half are in the low halves of the bytes, the second
//! half in the high ones. So consecutive pointers are in one or two runs of bytes, and are set by whole
//! vectors.

ghost use Rattle.std.specs.Prelude.{◌≡◌, ◌+◌, ◌<◌, ◌≤◌, ℕ, IfOk, length, map, slice_index_or};
ghost use Rattle.roster_tables.specs.Halves.{IsWritten, halves, high, low};
ghost use Rattle.roster_lanes.specs.Lanes.{SameOutside};

use std::alloc::{AllocError, Global};
use std::marker::Model;

/// For each state a pointer: the index of an offer among those of its day, at most 15.
pub struct Pointers {
    count: usize,
    bytes: Vec<u8>,
}

// Written by hand, so that code that drops the pointers has one call to prove.
impl Drop for Pointers {
    fn drop(self) {
        let Pointers { count: _, bytes: _ } = self;
    }
}

impl Model for Pointers {
    ghost use Rattle.std.specs.Prelude.{◌≡◌, ℕ, List, length, vec_capacity};
    ghost use Rattle.roster_tables.specs.Halves.{bytes_for, pointers_in};

    ghost Value = { List ℕ };

    ghost view = { λ p. pointers_in p.count p.bytes.items };

    // The bytes fill their list, so with the number of pointers its capacity stays too.
    ghost invariant = { λ p. (length p.bytes.items ≡ bytes_for p.count)
        × (vec_capacity p.bytes ≡ length p.bytes.items) };
}

impl Pointers {
    /// That many pointers, by one allocation.
    ///
    /// # Errors
    ///
    /// The allocation was refused.
    pub fn new(alloc: Global, count: usize) -> Result<Pointers, AllocError>
        ensures { IfOk result (λ pointers. length pointers ≡ count) }
    {
        let needed = count / 2 + count % 2;
        let mut bytes = Vec::with_capacity(alloc, needed)?;
        for _ in 0..needed {
            bytes.push_reserved(0);
        }
        Ok(Pointers { count, bytes })
    }

    /// The number of pointers.
    pub fn len(&self) -> usize
        ensures { result ≡ length self.now }
    {
        self.count
    }

    /// The pointer at an index.
    pub fn get(&self, place: usize) -> u8
        requires { place < length self.now }
        ensures value { result ≡ slice_index_or self.now place 0 }
        ensures small { result < 16 }
    {
        let half = self.bytes.len();
        if place < half {
            self.bytes[place] % 16
        } else {
            self.bytes[place - half] / 16
        }
    }

    /// Sets consecutive pointers, each below 16; the others stay.
    pub fn set_cells(&mut self, first: usize, run: &[u8])
        requires within { first + length run.now ≤ length self.old }
        requires small { (i : ℕ) → i < length run.now → slice_index_or run.now i 0 < 16 }
        ensures inside { (i : ℕ) → i < length run.now →
            slice_index_or self.new (first + i) 0 ≡ slice_index_or run.now i 0 }
        ensures others { SameOutside first (first + length run.now) self.old self.new }
        ensures length { length self.new ≡ length self.old }
    {
        set_halves(&mut self.bytes, first, run);
    }
}

/// Sets consecutive pointers in the halves of bytes: they may begin in the low ones and end in the high ones.
fn set_halves(bytes: &mut [u8], first: usize, run: &[u8])
    requires within { first + length run.now ≤ length (halves bytes.old) }
    requires small { (i : ℕ) → i < length run.now → slice_index_or run.now i 0 < 16 }
    ensures { IsWritten first run.now (halves bytes.old) (halves bytes.new) }
{
    let half = bytes.len();
    let end = first + run.len();
    if end <= half {
        set_low_at(bytes, first, run);
    } else if half <= first {
        set_high_at(bytes, first - half, run);
    } else {
        let (front, back) = run.split_at(half - first);
        set_low_at(bytes, first, front);
        set_high_at(bytes, 0, back);
    }
}

/// Sets the low halves of consecutive bytes.
fn set_low_at(bytes: &mut [u8], first: usize, run: &[u8])
    requires within { first + length run.now ≤ length bytes.old }
    requires small { (i : ℕ) → i < length run.now → slice_index_or run.now i 0 < 16 }
    ensures { IsWritten first run.now (halves bytes.old) (halves bytes.new) }
{
    set_low(&mut bytes[first..first + run.len()], run);
}

/// Sets the high halves of consecutive bytes.
fn set_high_at(bytes: &mut [u8], first: usize, run: &[u8])
    requires within { first + length run.now ≤ length bytes.old }
    requires small { (i : ℕ) → i < length run.now → slice_index_or run.now i 0 < 16 }
    ensures { IsWritten (length bytes.old + first) run.now (halves bytes.old) (halves bytes.new) }
{
    set_high(&mut bytes[first..first + run.len()], run);
}

/// Sets the low halves of bytes; the high ones stay.
fn set_low(bytes: &mut [u8], run: &[u8])
    requires length { length run.now ≡ length bytes.old }
    requires small { (i : ℕ) → i < length run.now → slice_index_or run.now i 0 < 16 }
    ensures low { map low bytes.new ≡ run.now }
    ensures high { map high bytes.new ≡ map high bytes.old }
{
    for i in 0..run.len() {
        bytes[i] = bytes[i] / 16 * 16 + run[i];
    }
}

/// Sets the high halves of bytes; the low ones stay.
fn set_high(bytes: &mut [u8], run: &[u8])
    requires length { length run.now ≡ length bytes.old }
    requires small { (i : ℕ) → i < length run.now → slice_index_or run.now i 0 < 16 }
    ensures high { map high bytes.new ≡ run.now }
    ensures low { map low bytes.new ≡ map low bytes.old }
{
    for i in 0..run.len() {
        bytes[i] = run[i] * 16 + bytes[i] % 16;
    }
}
