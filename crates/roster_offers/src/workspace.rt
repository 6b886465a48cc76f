//! What a row search promises, and the memory that it works in.

ghost use Rattle.std.specs.Prelude.{◌≡◌, ℕ, ◌+◌, ◌*◌, ◌/◌, ◌<◌, ◌≤◌, List, [], ◌∷◌, ◌++◌, true, IfOk, IsSome, length, take};
ghost use Rattle.roster_bundle.specs.Limits.{greatest_u64};
ghost use Rattle.roster_instance.specs.Limits.{most_days, most_shifts, most_skills, most_states};
ghost use Rattle.roster_instance.specs.Meaning.{Meaning, day_count, nurse_count};
ghost use Rattle.roster_laws.specs.Greatest.{extension_count, greatest_state_count};
ghost use Rattle.roster_offers.specs.declared.offer.Offer.{Offer};
ghost use Rattle.roster_offers.specs.Listed.{KeepsList};
ghost use Rattle.roster_offers.specs.Lists.{AreOffers, AreOffersAt, IsFound, IsScaleOf, best_over, best_over_at, no_row, offers_on};
ghost use Rattle.roster_offers.specs.Workspaces.{HasTables, SameCapacity, TableCapacity, fits_space};

use crate::listed::{ListLimits, RowList};
use crate::lists::{DayOffers, SearchInput};
use crate::offer::{MOST_OFFERS, Offer};
use arrayvec::ArrayVec;
use roster_instance::{Case, Choice};
use roster_state::Meter;
use std::alloc::{AllocError, Global};
use std::marker::Model;
use thiserror::Error;

/// A search for the best row over a table of offers.
///
/// This trait is the seam between the improver and the search: the crates that improve a roster by best rows
/// are generic over it and proved against these contracts alone. They know what a row search promises, which
/// is the best row, its cost and a limit for the extensions that it counts, but not how it works. So either
/// side can be changed and proved without the other. The program has one implementation, `RowSearcher` of
/// `roster_partial`: whoever follows `main` down to the search goes on there.
pub trait SearchesRows: Drop {
    /// How many labels and pointers it has, and for how many labels it has capacity without an allocation.
    ghost capacity: { Self → TableCapacity };

    /// Says for what the meter counted, from one number to another, in a search over these offers by tables
    /// that have two labels for each of that many states.
    ghost IsCounted: { ℕ → Meaning → ℕ → (ℕ → List Offer) → ℕ → ℕ → Type 0 };

    /// A search for cases with at most this number of states and of days, by three allocations.
    ///
    /// # Errors
    ///
    /// An allocation was refused.
    fn for_states(alloc: Global, states: usize, days: usize) -> Result<Self, AllocError>
        requires within { states * days ≤ greatest_u64 }
        ensures labels { IfOk result (λ tables. (capacity tables).labels ≡ 2 * states) }
        ensures pointers { IfOk result (λ tables. (capacity tables).pointers ≡ states * days) };

    /// How many labels its tables have together.
    fn labels(&self) -> usize
        ensures { result ≡ (capacity self.now).labels };

    /// How many pointers it has.
    fn pointers(&self) -> usize
        ensures { result ≡ (capacity self.now).pointers };

    /// Searches the best row over a table of offers, wherever these come from. `row` then begins with its
    /// choices, one for each day, and the result is its cost: its prices, and what the nurse's own rules cost
    /// along it, without what the start owes, in the parts of a point of the search's scale. The search takes
    /// no memory.
    fn search(&mut self, search: &SearchInput<'_>, row: &mut [Choice], meter: &mut Meter) -> u32
        requires some { IsSome (best_over_at search.now.case.now search.now.nurse search.now.scale
            (offers_on search.now.offers.now)) }
        requires tables { HasTables search.now.case.now search.now.nurse (capacity self.old) }
        requires row_capacity { day_count search.now.case.now ≤ length row.old }
        requires room { meter.old + extension_count search.now.case.now
            search.now.nurse ≤ greatest_u64 }

        // The row, and its cost.
        ensures best { IsFound (best_over_at search.now.case.now search.now.nurse
            search.now.scale (offers_on search.now.offers.now)) result
            (take (day_count search.now.case.now) row.new) }
        ensures below { result < no_row }
        ensures length { length row.new ≡ length row.old }

        // What it takes.
        ensures each_day { meter.old + day_count search.now.case.now ≤ meter.new }
        ensures counted { meter.new ≤ meter.old + extension_count search.now.case.now
            search.now.nurse }
        ensures are_reachable { IsCounted ((capacity self.old).labels / 2) search.now.case.now
            search.now.nurse (offers_on search.now.offers.now) meter.old meter.new }
        ensures tables { capacity self.new ≡ capacity self.old };

    /// Lists rows over a table of offers that cost at most a limit, in the order of rows, as long as the list
    /// has capacity and extensions are left. Returns whether it came to its end before either ran out. No
    /// contract says that all rows within the limit are then listed. It takes no memory.
    fn list(
        &mut self,
        search: &SearchInput<'_>,
        limits: ListLimits,
        list: &mut RowList,
        meter: &mut Meter,
    ) -> bool
        requires tables { HasTables search.now.case.now search.now.nurse (capacity self.old) }
        requires room { meter.old + limits.extensions ≤ greatest_u64 }

        // The list.
        ensures kept { KeepsList list.old list.new }
        ensures few { list.new.held ≤ length list.new.costs.items }

        // What it takes.
        ensures counted { (meter.old ≤ meter.new) × (meter.new ≤ meter.old + limits.extensions) }
        ensures tables { capacity self.new ≡ capacity self.old };

    /// What is counted depends on each day's offers alone.
    ghost counted_same: { (states : ℕ) (c : Meaning) (n : ℕ) (f g : ℕ → List Offer) →
        ((day : ℕ) → day < day_count c → f day ≡ g day) → (before after : ℕ) →
        IsCounted states c n f before after → IsCounted states c n g before after };
}

/// What a search for a best row writes into. The search's tables and one row grow with the case; the offers
/// of a nurse take 29 kB for each case. One workspace serves all nurses of a case, one after another.
pub struct Workspace<T: SearchesRows> {
    offers: DayOffers,
    tables: T,
    choices: Vec<Choice>,
    /// How many of the choices are those of the last best row: none before the first search.
    filled: usize,
}

// Written by hand, so that code that drops a workspace has one call to prove.
impl<T: SearchesRows> Drop for Workspace<T> {
    fn drop(self) {
        let Workspace {
            offers: _,
            tables: _,
            choices: _,
            filled: _,
        } = self;
    }
}

impl<T: SearchesRows> Model for Workspace<T> {
    ghost use Rattle.std.specs.Prelude.{◌≤◌, length, take, vec_capacity};
    ghost use Rattle.roster_offers.specs.Workspaces.{Space};

    ghost Value = { Space };

    ghost view = { λ w. record {
      labels = (T.capacity w.tables).labels;
      pointers = (T.capacity w.tables).pointers;
      choices = length w.choices.items;
      label_capacity = (T.capacity w.tables).label_capacity;
      later_capacity = (T.capacity w.tables).later_capacity;
      row_capacity = vec_capacity w.choices;
      row = take w.filled w.choices.items;
      offers = w.offers.items;
    } };

    ghost invariant = { λ w. w.filled ≤ length w.choices.items };
}

/// A nurse of a case, and the scale at which her rows are listed.
#[derive(Clone, Copy)]
pub struct ListInput<'a> {
    pub case: &'a Case,
    pub nurse: usize,
    pub scale: u32,
}

/// Why there is no workspace.
#[derive(Clone, Copy, Debug, PartialEq, Eq, Error)]
pub enum BestFault {
    /// An allocation was refused.
    #[error("no memory")]
    Memory,
}

impl From<AllocError> for BestFault {
    ghost use Rattle.roster_offers.specs.declared.workspace.BestFault.TheVariants.{Memory};

    ghost from_gives = { λ _ e. e ≡ Memory };

    fn from(_e: AllocError) -> BestFault {
        BestFault::Memory
    }
}

impl<T: SearchesRows> Workspace<T> {
    /// A workspace for the nurses of a case, by at most four allocations: two label tables, the pointers, and
    /// a row. Its row is empty. It serves any case that it fits.
    ///
    /// # Errors
    ///
    /// An allocation was refused.
    pub fn for_case(alloc: Global, case: &Case) -> Result<Workspace<T>, BestFault>
        ensures labels { IfOk result (λ workspace. workspace.labels ≡ 2 * greatest_state_count
            case.now) }
        ensures pointers { IfOk result (λ workspace. workspace.pointers ≡ greatest_state_count
            case.now * day_count case.now) }
        ensures row { IfOk result (λ workspace. workspace.row ≡ []) }
        ensures fits { IfOk result (λ workspace. fits_space case.now workspace ≡ true) }
    {
        let states = greatest_states(case) as usize;
        let days = case.days() as usize;
        Ok(Workspace {
            offers: ArrayVec::new(),
            tables: T::for_states(alloc, states, days)?,
            choices: vec![in alloc; Choice::Off; days]?,
            filled: 0,
        })
    }

    /// How many labels the two tables have together: twice the number of states of the nurse who has the
    /// most.
    pub fn labels(&self) -> usize
        ensures { result ≡ self.now.labels }
    {
        self.tables.labels()
    }

    /// How many pointers there are: one for each of these states and each day.
    pub fn pointers(&self) -> usize
        ensures { result ≡ self.now.pointers }
    {
        self.tables.pointers()
    }

    /// Whether the numbers of labels and pointers are those of the case, and the capacity of the row is
    /// enough.
    pub fn fits(&self, case: &Case) -> bool
        ensures { result ≡ fits_space case.now self.now }
    {
        let states = greatest_states(case) as usize;
        let days = case.days() as usize;
        self.labels() == 2 * states
            && self.pointers() == states * days
            && days <= self.choices.len()
    }

    /// Takes out the offers that were put in.
    pub(crate) fn clear_offers(&mut self)
        ensures { self.new ≡ record self.old { offers = [] } }
    {
        self.offers.clear();
    }

    /// Puts in a day's offers, after those of the days before it.
    pub(crate) fn push_offers(&mut self, offers: ArrayVec<Offer, MOST_OFFERS>)
        requires { length self.old.offers < most_days }
        ensures { self.new ≡ record self.old { offers = self.old.offers ++ offers ∷ [] } }
    {
        self.offers.push(offers);
    }

    /// The offers that were put in, for each day.
    pub fn offers(&self) -> &[ArrayVec<Offer, MOST_OFFERS>]
        ensures { result.now ≡ self.now.offers }
    {
        self.offers.as_slice()
    }

    /// Searches the best row over the offers that were put in. `row` shows it afterwards, and the result is
    /// its cost: its prices, and what the nurse's own rules cost along it, without what the start owes. The
    /// search takes no memory.
    pub fn search_offers(&mut self, case: &Case, nurse: usize, meter: &mut Meter) -> u32
        requires nurse { nurse < nurse_count case.now }
        requires offers { AreOffers case.now nurse self.old.offers }
        requires some { IsSome (best_over case.now nurse (offers_on self.old.offers)) }
        requires fits { fits_space case.now self.old ≡ true }
        requires room { meter.old + extension_count case.now nurse ≤ greatest_u64 }

        // The row, and its cost.
        ensures best { IsFound (best_over case.now nurse (offers_on self.old.offers)) result
            self.new.row }
        ensures below { result < no_row }

        // What it takes.
        ensures each_day { meter.old + day_count case.now ≤ meter.new }
        ensures counted { meter.new ≤ meter.old + extension_count case.now nurse }
        ensures are_reachable { T.IsCounted (greatest_state_count case.now) case.now nurse
            (offers_on self.old.offers) meter.old meter.new }
        ensures same_capacity { SameCapacity self.old self.new }
        ensures fits { fits_space case.now self.new ≡ true }
        ensures offers { self.new.offers ≡ self.old.offers }
    {
        case.keeps_limits();
        self.search_at(case, nurse, 1, meter)
    }

    /// The same at a scale: the prices that were put in, and the result, are in parts of a point, and a point
    /// has as many parts as the scale says.
    pub fn search_at(&mut self, case: &Case, nurse: usize, scale: u32, meter: &mut Meter) -> u32
        requires nurse { nurse < nurse_count case.now }
        requires scale { IsScaleOf case.now scale }
        requires offers { AreOffersAt case.now nurse scale self.old.offers }
        requires some { IsSome (best_over_at case.now nurse scale (offers_on self.old.offers)) }
        requires fits { fits_space case.now self.old ≡ true }
        requires room { meter.old + extension_count case.now nurse ≤ greatest_u64 }

        // The row, and its cost.
        ensures best { IsFound (best_over_at case.now nurse scale (offers_on self.old.offers))
            result self.new.row }
        ensures below { result < no_row }

        // What it takes.
        ensures each_day { meter.old + day_count case.now ≤ meter.new }
        ensures counted { meter.new ≤ meter.old + extension_count case.now nurse }
        ensures are_reachable { T.IsCounted (greatest_state_count case.now) case.now nurse
            (offers_on self.old.offers) meter.old meter.new }
        ensures same_capacity { SameCapacity self.old self.new }
        ensures fits { fits_space case.now self.new ≡ true }
        ensures offers { self.new.offers ≡ self.old.offers }
    {
        let search = SearchInput {
            case,
            nurse,
            scale,
            offers: self.offers.as_slice(),
        };
        let cost = self.tables.search(&search, &mut self.choices, meter);
        self.filled = case.days() as usize;
        cost
    }

    /// Lists rows over the offers that were put in which cost at most a limit, as `SearchesRows::list` does.
    pub fn list_at(
        &mut self,
        input: &ListInput<'_>,
        limits: ListLimits,
        list: &mut RowList,
        meter: &mut Meter,
    ) -> bool
        requires nurse { input.now.nurse < nurse_count input.now.case.now }
        requires scale { IsScaleOf input.now.case.now input.now.scale }
        requires offers { AreOffersAt input.now.case.now input.now.nurse input.now.scale
            self.old.offers }
        requires fits { fits_space input.now.case.now self.old ≡ true }
        requires room { meter.old + limits.extensions ≤ greatest_u64 }
        ensures kept { KeepsList list.old list.new }
        ensures few { list.new.held ≤ length list.new.costs.items }
        ensures counted { (meter.old ≤ meter.new) × (meter.new ≤ meter.old + limits.extensions) }
        ensures same_capacity { SameCapacity self.old self.new }
        ensures fits { fits_space input.now.case.now self.new ≡ true }
        ensures offers { self.new.offers ≡ self.old.offers }
        ensures row { self.new.row ≡ self.old.row }
    {
        let search = SearchInput {
            case: input.case,
            nurse: input.nurse,
            scale: input.scale,
            offers: self.offers.as_slice(),
        };
        self.tables.list(&search, limits, list, meter)
    }

    /// The row of the last search, with a choice for each day; empty before the first.
    pub fn row(&self) -> &[Choice]
        ensures { result.now ≡ self.now.row }
    {
        &self.choices[..self.filled]
    }
}

/// The number of states of the nurse who has the most.
pub fn greatest_states(case: &Case) -> u32
    ensures greatest { result ≡ greatest_state_count case.now }
    ensures within { result ≤ most_states }
{
    let mut greatest: u32 = 0;
    for nurse in 0..case.nurses() {
        greatest = greatest.max(case.states(nurse));
    }
    greatest
}

/// How many extensions a search for a nurse's best row counts at most: one for each state of the nurse, each
/// day and each choice.
#[tactic(auto, unfolding(roster_laws::specs::Greatest::extension_count))]
pub fn most_search_extensions(case: &Case, nurse: usize) -> u64
    requires { nurse < nurse_count case.now }
    ensures count { result ≡ extension_count case.now nurse }
    ensures within { result ≤ most_states * most_days * (1 + most_shifts * most_skills) }
{
    case.states(nurse) as u64 * case.days() as u64 * case.choice_count(nurse) as u64
}
