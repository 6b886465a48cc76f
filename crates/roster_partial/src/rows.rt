//! A list of partial rows, kept in the cells of a label table.
//!
//! The first cell holds the number of partial rows. Each of them takes four cells: what its days cost; the
//! two runs of its state; its assignments and worked weekends; and the index of the partial row that it
//! extends, the index of the offer, and the last shift.

ghost use Rattle.std.specs.Prelude.{◌≡◌, [], ◌∷◌, ◌++◌, ◌+◌, ◌*◌, ◌/◌, ◌%◌, ◌<◌, ◌≤◌, All, length, slice_set, true, false};
ghost use Rattle.roster_offers.specs.Lists.{no_row};
ghost use Rattle.roster_state.specs.Codes.{shift_digit};
ghost use Rattle.roster_partial.specs.Rows.{AreKept, AreMadeFor, Days, HaveSameBest, IsEntryOf, count_in, day_in, earlier_in, entry_numbered, most_rows, rows_in};

use roster_state::{Block, State};
use roster_tables::NO_ROW;

/// How many partial rows a list holds at most, those of all days together.
pub const MOST_ROWS: usize = 262_144;

/// How many cells a partial row takes.
pub const ROW_CELLS: usize = 4;

/// A cell holds two numbers, one of them multiplied by this.
const HALF: u32 = 65_536;

/// More than the greatest number of a last shift, and than the greatest index of an offer among those of a
/// day.
const SMALL: u32 = 16;

/// A partial row: the state to which it leads, what its days cost, and which partial row of the day before it
/// extends by which offer. If its cost is that of no row, it was dominated.
#[derive(Clone, Copy, Default)]
pub struct Entry {
    pub state: State,
    /// The index in the list of the partial row of the day before that it extends.
    pub before: u32,
    pub cost: u32,
    /// The index of the offer among those of that day.
    pub offer: u8,
}

/// How a partial row extends one of the day before: the index of that one in the list, and the index of the
/// offer among those of the day.
#[derive(Clone, Copy)]
pub struct Link {
    pub before: usize,
    pub offer: usize,
}

/// How many remainders of state codes are distinguished.
pub const REMAINDERS: usize = 8192;

/// For each remainder of a state's code, the index among its day's partial rows of the last one that was
/// appended with it. That one may be of another state, or of another day. Of a greater index it has the last
/// two bytes, which may be the index of any.
pub type RecentRows = [u16; REMAINDERS];

/// How many indices two bytes distinguish.
pub const INDICES: usize = 65_536;

/// Begins an empty list.
pub fn clear_rows(cells: &mut [u32])
    requires { 0 < length cells.old }
    ensures count { count_in cells.new ≡ 0 }
    ensures rows { rows_in cells.new ≡ [] }
{
    cells[0] = 0;
}

/// How many partial rows there are.
#[inline(always)]
pub fn row_count(cells: &[u32]) -> usize
    requires { 0 < length cells.now }
    ensures { result ≡ count_in cells.now }
{
    cells[0] as usize
}

/// What the days of a partial row cost.
#[inline(always)]
pub fn cost_at(cells: &[u32], index: usize) -> u32
    requires kept { AreKept cells.now }
    requires inside { index < count_in cells.now }
    ensures { result ≡ (entry_numbered (rows_in cells.now) index).cost }
{
    cells[ROW_CELLS * index + 1]
}

/// How a partial row extends one of the day before.
#[inline(always)]
pub fn link_at(cells: &[u32], index: usize) -> Link
    requires kept { AreKept cells.now }
    requires inside { index < count_in cells.now }
    ensures before { result.before ≡ (entry_numbered (rows_in cells.now) index).before }
    ensures offer { result.offer ≡ (entry_numbered (rows_in cells.now) index).offer }
{
    let link = cells[ROW_CELLS * index + 4] / SMALL;
    Link {
        before: (link / SMALL) as usize,
        offer: (link % SMALL) as usize,
    }
}

/// The state to which a partial row leads.
#[inline(always)]
pub fn row_state(cells: &[u32], index: usize) -> State
    requires kept { AreKept cells.now }
    requires inside { index < count_in cells.now }
    ensures { result ≡ (entry_numbered (rows_in cells.now) index).state }
{
    let first = ROW_CELLS * index;
    let (runs, counts) = (cells[first + 2], cells[first + 3]);
    let last = cells[first + 4] % SMALL;
    Block::of_runs(last, (runs / HALF) as u16, (runs % HALF) as u16)
        .with_weekends((counts % HALF) as u16)
        .state((counts / HALF) as u16)
}

/// Whether a partial row leads to a state.
#[inline(always)]
fn leads_to(cells: &[u32], index: usize, state: &State) -> bool
    requires kept { AreKept cells.now }
    requires inside { index < count_in cells.now }
    requires last { shift_digit state.now.last < 16 }
    ensures { result ≡ true → (entry_numbered (rows_in cells.now) index).state ≡ state.now }
{
    let first = ROW_CELLS * index;
    if cells[first + 2] != runs_cell(state) {
        return false;
    }
    if cells[first + 3] != counts_cell(state) {
        return false;
    }
    cells[first + 4] % SMALL == state.last_number()
}

/// The cell with the two runs of a state.
#[inline(always)]
fn runs_cell(state: &State) -> u32
    ensures run { result / 65536 ≡ state.now.run }
    ensures shift_run { result % 65536 ≡ state.now.shift_run }
{
    state.run() as u32 * HALF + state.shift_run() as u32
}

/// The cell with the assignments and the worked weekends of a state.
#[inline(always)]
fn counts_cell(state: &State) -> u32
    ensures assignments { result / 65536 ≡ state.now.assignments }
    ensures weekends { result % 65536 ≡ state.now.weekends }
{
    state.assignments() as u32 * HALF + state.weekends() as u32
}

/// Marks a partial row as dominated: its cost becomes that of no row.
#[inline(always)]
fn mark_dominated(cells: &mut [u32], index: usize)
    requires kept { AreKept cells.old }
    requires inside { index < count_in cells.old }
    ensures count { count_in cells.new ≡ count_in cells.old }
    ensures rows { rows_in cells.new ≡ slice_set (rows_in cells.old) index
        (record (entry_numbered (rows_in cells.old) index) { cost = no_row }) }
{
    cells[ROW_CELLS * index + 1] = NO_ROW;
}

/// Appends a partial row to the list.
#[inline(always)]
pub fn push_row(cells: &mut [u32], more: &Entry)
    requires cells { 5 + 4 * count_in cells.old ≤ length cells.old }
    requires few { count_in cells.old < most_rows }
    requires before { more.now.before < most_rows }
    requires offer { more.now.offer < 16 }
    requires last { shift_digit more.now.state.last < 16 }
    ensures count { count_in cells.new ≡ count_in cells.old + 1 }
    ensures rows { rows_in cells.new ≡ rows_in cells.old ++ more.now ∷ [] }
{
    let index = cells[0] as usize;
    let first = ROW_CELLS * index;
    let link = more.before * SMALL + more.offer as u32;
    cells[first + 1] = more.cost;
    cells[first + 2] = runs_cell(&more.state);
    cells[first + 3] = counts_cell(&more.state);
    cells[first + 4] = link * SMALL + more.state.last_number();
    cells[0] = index as u32 + 1;
}

/// Compares a new partial row with one of its day, given by its index among those of the day, which begin at
/// `first`. If both lead to the same state, the dearer one is dominated, and the later one if they are
/// equally dear. Returns whether that is the new one. The index need not be that of a partial row.
#[inline(always)]
pub fn drop_dominated(cells: &mut [u32], first: usize, index: usize, more: &Entry) -> bool
    requires kept { AreKept cells.old }
    requires first { first ≤ count_in cells.old }
    requires last { shift_digit more.now.state.last < 16 }

    // Whatever the list is made for, the best row stays the best.
    ensures stays { result ≡ false → (days : Days) → AreMadeFor days cells.old first →
        HaveSameBest days (day_in cells.new first ++ more.now ∷ [])
        (day_in cells.old first ++ more.now ∷ []) }
    ensures dominated { result ≡ true → (days : Days) → AreMadeFor days cells.old first →
        HaveSameBest days (day_in cells.new first) (day_in cells.old first ++ more.now ∷ []) }
    ensures entries { (days : Days) → AreMadeFor days cells.old first →
        All (IsEntryOf days) (day_in cells.new first) }
    ensures front { earlier_in cells.new first ≡ earlier_in cells.old first }
    ensures count { count_in cells.new ≡ count_in cells.old }
{
    if index >= row_count(cells) - first {
        return false;
    }
    let other = first + index;
    if !leads_to(cells, other, &more.state) {
        return false;
    }
    if cost_at(cells, other) <= more.cost {
        return true;
    }
    mark_dominated(cells, other);
    false
}
