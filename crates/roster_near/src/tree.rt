//! The tree over the lists: a node is visited, and then cut or branched, depth first.

use crate::ascent::{FULL_PACE, Pace};
use crate::live::{Branching, MOST_LEVELS};
use crate::rows::cheaper;
use crate::space::NearSpace;
use roster_slots::FINE_PER_POINT;

/// How many nodes are visited at most, and how many rows are valued.
const MOST_NODES: u32 = 1000;

const MOST_VALUED: u64 = 4_000_000;

/// How many scans over the live rows a node gets at most; the root gets twice as many.
const MOST_SCANS: u32 = 6;

/// How many steps over the active rows follow a scan at most.
const MOST_STEPS: u32 = 40;

/// After this many scans in succession without a better value a node is branched.
const MOST_POOR: u32 = 3;

/// What a scan over the live rows found: the value of the prices, and how many rows became active.
#[derive(Clone, Copy)]
struct Scan {
    value: i64,
    news: u32,
}

/// What comes of a node.
#[derive(Clone, Copy, PartialEq, Eq)]
enum Visit {
    /// Nothing cheaper is in it, or what is was found.
    Cut,
    Branch(Branching),
    /// It can't be branched.
    Stuck,
}

impl NearSpace {
    /// Searches the tree over the lists. Returns whether it came to its end: then nothing in the lists is
    /// cheaper than what was found.
    pub(crate) fn search_tree(&mut self, gap: u64) -> bool {
        self.live.begin(&self.problem, &self.lists);
        self.activate_cheapest(gap);
        let most = self.work.valued.saturating_add(MOST_VALUED);
        let mut depth: usize = 0;
        let mut closed = true;
        'nodes: for nodes_before in 0..MOST_NODES {
            if self.work.valued > most {
                return false;
            }
            let visit = self.visit(nodes_before == 0);
            if let Visit::Branch(branching) = visit
                && depth < MOST_LEVELS
            {
                self.live.save(depth, branching, &self.prices.best);
                self.keep_side(branching, branching.with_first);
                depth += 1;
                continue;
            }
            closed = closed && visit == Visit::Cut;
            let Some((level, branching)) = self.live.go_back(depth, &mut self.prices.at_hand) else {
                return closed;
            };
            self.keep_side(branching, !branching.with_first);
            depth = level.saturating_add(1).min(MOST_LEVELS);
        }
        false
    }

    /// Makes those rows active whose value is within an eighth of the gap of their nurse's least, a third of
    /// as many as may be at most.
    fn activate_cheapest(&mut self, gap: u64) {
        let within = (gap / 8).min(MOST_WITHIN) as i64;
        for free in 0..self.problem.free {
            let span = self.lists.span(free);
            let end = span.first.saturating_add(span.count);
            let mut least = i64::MAX;
            for row in span.first..end {
                least = least.min(self.lists.value(row));
            }
            let mut made: u32 = 0;
            for row in span.first..end {
                let above = self.lists.value(row).saturating_sub(least);
                if above <= within && made < MOST_FIRST_ACTIVE {
                    self.live.activate(free, row);
                    made += 1;
                }
            }
        }
    }

    /// Keeps the live rows of one side of a branching alone.
    fn keep_side(&mut self, branching: Branching, having: bool) {
        let Branching {
            free,
            offset,
            number,
            ..
        } = branching;
        let first = self.lists.span(free).first;
        for index in (0..self.live.count(free)).rev() {
            let place = first.saturating_add(index);
            let row = self.live.row(place);
            if (self.lists.number(row, offset) == number) != having {
                self.live.drop_at(free, first, place);
            }
        }
    }

    /// Visits a node: improves its prices by scans over the live rows, with steps over the active ones
    /// between them, and drops rows that are too dear.
    fn visit(&mut self, is_root: bool) -> Visit {
        self.begin_visit();
        let scans = if is_root { 2 * MOST_SCANS } else { MOST_SCANS };
        let mut best = i64::MIN;
        let mut poor: u32 = 0;
        let mut pace = FULL_PACE;
        'scans: for scans_before in 0..scans {
            let Some(scan) = self.scan() else {
                return Visit::Cut;
            };
            if !self.drop_dear(scan.value) || self.is_single() {
                return Visit::Cut;
            }
            if scan.value > best {
                best = scan.value;
                self.prices.keep_best();
                poor = 0;
            } else {
                poor = poor.saturating_add(1);
            }
            let is_still = scan.news == 0 && scans_before > 1;
            if is_still || poor >= MOST_POOR || scans_before + 1 == scans {
                break;
            }
            pace = self.step_over_active(pace);
        }
        self.branch()
    }

    /// Begins a visit at the prices at hand: nothing was counted in it yet.
    fn begin_visit(&mut self) {
        self.prices.keep_best();
        self.prices.set_earned(&self.problem);
        self.uses.forget();
    }

    /// Values all live rows by the prices at hand, picks the cheapest of each nurse, and considers them
    /// together. `None` if a nurse has no live row.
    fn scan(&mut self) -> Option<Scan> {
        self.prices.uncover();
        let mut scan = Scan {
            value: self.prices.slots_value(&self.problem),
            news: 0,
        };
        for free in 0..self.problem.free {
            let value = self.scan_nurse(free)?;
            scan.value = scan.value.saturating_add(value.value);
            scan.news = scan.news.saturating_add(value.news);
        }
        self.uses.end_round();
        self.consider_listed();
        Some(scan)
    }

    /// Values a nurse's live rows.
    fn scan_nurse(&mut self, free: usize) -> Option<Scan> {
        let first = self.lists.span(free).first;
        let count = self.live.count(free);
        self.work.value_rows(count);
        let mut cheapest = None;
        for index in 0..count {
            let row = self.live.row(first.saturating_add(index));
            let value = self.lists.reduced(row, &self.prices.earned);
            self.lists.set_value(row, value);
            cheapest = cheaper(cheapest, row, value);
        }
        let least = cheapest?;
        self.pick_listed(free, least.row);
        let is_new = self.live.activate(free, least.row);
        Some(Scan {
            value: least.value,
            news: if is_new { 1 } else { 0 },
        })
    }

    /// Picks a listed row for a nurse, and counts it in the cover and in the uses.
    fn pick_listed(&mut self, free: usize, row: usize) {
        self.set_pick(free, row);
        let numbers = self.lists.numbers(row);
        self.problem.count_numbers(numbers, &mut self.prices.cover);
        self.uses.count(free, numbers);
    }

    /// Considers the picked rows of the lists together.
    fn consider_listed(&mut self) {
        self.found.consider(&self.problem, &self.lists, &self.picks, &self.prices.cover);
    }

    /// Drops the live rows that are above their nurse's least by more than the value is below the target.
    /// Returns false if the value is above it.
    fn drop_dear(&mut self, value: i64) -> bool {
        let gap = self.found.target().saturating_sub(value);
        if gap < 0 {
            return false;
        }
        for free in 0..self.problem.free {
            let picked = self.picked(free);
            let least = self.lists.value(picked);
            let first = self.lists.span(free).first;
            for index in (0..self.live.count(free)).rev() {
                let place = first.saturating_add(index);
                let row = self.live.row(place);
                let above = self.lists.value(row).saturating_sub(least);
                if above > gap {
                    self.live.drop_at(free, first, place);
                }
            }
        }
        true
    }

    /// Whether each nurse has one live row. These rows are then considered together.
    fn is_single(&mut self) -> bool {
        for free in 0..self.problem.free {
            if self.live.count(free) != 1 {
                return false;
            }
        }
        self.prices.uncover();
        for free in 0..self.problem.free {
            let row = self.live.row(self.lists.span(free).first);
            self.pick_listed(free, row);
        }
        self.consider_listed();
        true
    }

    /// Makes steps from the best prices over the active rows, and returns the pace of the next ones. The
    /// prices at hand are then those of the best value of these steps.
    fn step_over_active(&mut self, pace: u32) -> u32 {
        self.prices.take_best();
        self.prices.keep_top();
        self.prices.set_earned(&self.problem);
        self.prices.begin_steps();
        let mut pace = Pace::begin(pace);
        for _step in 0..MOST_STEPS {
            self.work.make_step();
            let Some(value) = self.value_active() else {
                break;
            };
            if pace.record(value) {
                self.prices.keep_top();
            }
            let goal = self.found.target().saturating_add(FINE_PER_POINT as i64);
            if value > goal || !self.step_towards(goal, value, pace.pace) {
                break;
            }
        }
        self.prices.take_top();
        self.prices.set_earned(&self.problem);
        pace.quicker()
    }

    /// What slots and active rows cost at least by the prices at hand. The cover is that of these rows, and
    /// they are considered together. `None` if a nurse has no active row that is live.
    fn value_active(&mut self) -> Option<i64> {
        self.prices.uncover();
        let mut value = self.prices.slots_value(&self.problem);
        for free in 0..self.problem.free {
            let own = self.value_active_of(free)?;
            value = value.saturating_add(own);
        }
        self.uses.end_round();
        self.consider_listed();
        Some(value)
    }

    /// The value of a nurse's cheapest active row, which is picked.
    fn value_active_of(&mut self, free: usize) -> Option<i64> {
        let first = self.lists.span(free).first;
        let count = self.live.active_count(free);
        self.work.value_rows(count);
        let mut cheapest = None;
        for index in 0..count {
            if let Some(row) = self.live.active(free, first, index) {
                let value = self.lists.reduced(row, &self.prices.earned);
                cheapest = cheaper(cheapest, row, value);
            }
        }
        let least = cheapest?;
        self.pick_listed(free, least.row);
        Some(least.value)
    }

    /// The branching of a node: by the choice in which the cheapest rows differ most, or else by one that
    /// halves the longest list. The prices at hand are then the node's best.
    fn branch(&mut self) -> Visit {
        self.prices.take_best();
        if let Some(branching) = self.by_uses() {
            return Visit::Branch(branching);
        }
        match self.by_length() {
            Some(branching) => Visit::Branch(branching),
            None => Visit::Stuck,
        }
    }
}

/// How many active rows a nurse has at first, at most.
const MOST_FIRST_ACTIVE: u32 = 24;

/// No gap is above this many fine units.
const MOST_WITHIN: u64 = 1 << 60;
