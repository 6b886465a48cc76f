//! A lower bound for all rosters as the least over the nodes of a branching tree.

ghost use Rattle.std.specs.Prelude.{◌≡◌, ◌+◌, ◌*◌, ◌<◌, ◌≤◌, ◌⊎◌, IfNone, IfOk, IfSome, false, length, true, vec_capacity, vec_len};
ghost use Rattle.roster_bundle.specs.Limits.{greatest_u64};
ghost use Rattle.roster_instance.specs.Meaning.{nurse_count};
ghost use Rattle.roster_laws.specs.Greatest.{extensions_in, greatest_extension_count};
ghost use Rattle.roster_bound.specs.BoundLogs.{node_rounds};
ghost use Rattle.roster_bound.specs.NodeCapacity.{nodes_capacity};
ghost use Rattle.roster_bound.specs.Branching.{AreNodesOf, IsBoundByPrices, IsPriced};
ghost use Rattle.roster_bound.specs.Branchings.{HasSearched, IsBelowAt, IsLeastBelow};
ghost use Rattle.roster_bound.specs.PooledUses.{IsStuck, IsUndecidedAt};
ghost use Rattle.roster_prices.specs.Nodes.{IsLowerBoundIn};
ghost use Rattle.roster_prices.specs.Workspaces.{CountsRound, FitsBound};
ghost use Rattle.roster_timer.specs.Deadlines.{IsLater, time_of};

use crate::bounds::lower_bound_in;
use crate::choosing::choose;
use crate::nodes::{Node, Nodes};
use crate::pooled::move_in_node;
use crate::upper::UpperBound;
use roster_instance::Case;
use roster_offers::{BestFault, SearchesRows};
use roster_prices::{Base, BoundWorkspace, Decision, Terms, move_by_pooled_rows};
use roster_slots::target_cap;
use roster_state::Meter;
use roster_timer::Deadline;
use std::alloc::Global;
use std::time::Clock;

/// The memory of a run that raises a lower bound.
pub struct BoundSpace<T: SearchesRows> {
    pub bounds: BoundWorkspace<T>,
    pub(crate) nodes: Nodes,
}

// Written by hand, so that a function that drops it has one call to prove.
impl<T: SearchesRows> Drop for BoundSpace<T> {
    fn drop(self) {
        let BoundSpace {
            bounds: _,
            nodes: _,
        } = self;
    }
}

impl<T: SearchesRows> BoundSpace<T> {
    /// The memory for a run over a case with this many branchings, by at most thirteen allocations.
    ///
    /// # Errors
    ///
    /// An allocation was refused.
    pub fn for_case(alloc: Global, case: &Case, nodes: u16) -> Result<BoundSpace<T>, BestFault>
        ensures fits { IfOk result (λ space. FitsBound case.now space.bounds) }
        ensures nodes { IfOk result (λ space. 0 < nodes → nodes < vec_capacity
            space.nodes.items) }
    {
        Ok(BoundSpace {
            bounds: BoundWorkspace::for_case(alloc, case)?,
            nodes: Nodes::for_nodes(alloc, case, nodes)?,
        })
    }
}

/// How many rounds of searches are made in each child of a branching at most.
const NODE_ROUNDS: u16 = 12;

/// For how many rounds subgradient steps by pooled rows precede these.
const ROUNDS_BEFORE: u16 = 6;

/// Branches the node with the least lower bound. If its pooled rows give no decision, as before the second
/// round, half of the searches are made in the node itself first. Returns false only if there is no capacity
/// for the children, or if these searches gave neither a decision nor a higher bound.
pub(crate) fn branch_least<T: SearchesRows, K: Clock + Copy>(
    upper: &UpperBound<'_>,
    deadline: &mut Deadline<K>,
    space: &mut BoundSpace<T>,
    meter: &mut Meter,
) -> bool
    requires fits { FitsBound upper.now.base.now.case.now space.old.bounds }
    requires nodes { AreNodesOf upper.now.base.now.case.now upper.now.base.now.from
        upper.now.base.now.given.now space.old.nodes.items.items }
    requires below { IsLeastBelow space.old.nodes.items.items upper.now.total }
    requires room { meter.old + extensions_in upper.now.base.now.case.now (2 * node_rounds)
        ≤ greatest_u64 }
    ensures nodes { AreNodesOf upper.now.base.now.case.now upper.now.base.now.from
        upper.now.base.now.given.now space.new.nodes.items.items }
    ensures useless { result ≡ false → (vec_capacity space.old.nodes.items ≤ vec_len
        space.old.nodes.items) ⊎ IsStuck upper.now.base.now.case.now space.old.nodes
        space.new.nodes space.new.bounds.pool }
    ensures searched { result ≡ true → HasSearched upper.now.base.now.case.now
        (time_of deadline.new) meter.old meter.new }
    ensures few { length space.new.nodes.items.items
        ≤ length space.old.nodes.items.items + 1 }
    ensures same_nodes { nodes_capacity space.new.nodes ≡ nodes_capacity space.old.nodes }
    ensures later { IsLater (time_of deadline.old) (time_of deadline.new) }
    ensures fits { FitsBound upper.now.base.now.case.now space.new.bounds }
    ensures grows { meter.old ≤ meter.new }
    ensures counted { meter.new ≤ meter.old + extensions_in upper.now.base.now.case.now
        (2 * node_rounds) }
{
    let at = space.nodes.least();
    if let Some(is_branched) = branch_at(upper, at, NODE_ROUNDS, deadline, space, meter) {
        return is_branched;
    }
    let rose = raise_at(upper, at, deadline, space, meter);
    match branch_at(upper, at, NODE_ROUNDS / 2, deadline, space, meter) {
        Some(is_branched) => is_branched,
        None => rose,
    }
}

/// Branches the node at an index, and makes this many rounds of searches in each child. Returns false if
/// there is no capacity for the children. If the pooled rows give no decision, and only then, it makes no
/// search and returns none.
fn branch_at<T: SearchesRows, K: Clock + Copy>(
    upper: &UpperBound<'_>,
    at: usize,
    rounds: u16,
    deadline: &mut Deadline<K>,
    space: &mut BoundSpace<T>,
    meter: &mut Meter,
) -> Option<bool>
    requires at { at < length space.old.nodes.items.items }
    requires some { 0 < rounds }
    requires rounds { rounds ≤ node_rounds }
    requires fits { FitsBound upper.now.base.now.case.now space.old.bounds }
    requires nodes { AreNodesOf upper.now.base.now.case.now upper.now.base.now.from
        upper.now.base.now.given.now space.old.nodes.items.items }
    requires room { meter.old + extensions_in upper.now.base.now.case.now (2 * rounds)
        ≤ greatest_u64 }
    ensures nodes { AreNodesOf upper.now.base.now.case.now upper.now.base.now.from
        upper.now.base.now.given.now space.new.nodes.items.items }
    ensures none { IfNone result (meter.new ≡ meter.old) }
    ensures same { IfNone result (space.new.nodes.items ≡ space.old.nodes.items) }
    ensures undecided { IfNone result (IsUndecidedAt upper.now.base.now.case.now space.new.nodes
        space.new.bounds.pool at) }
    ensures full { result ≡ Some false → vec_capacity space.old.nodes.items ≤ vec_len
        space.old.nodes.items }
    ensures searched { IsBelowAt space.old.nodes.items.items at upper.now.total → IfSome result
        (λ done. HasSearched upper.now.base.now.case.now (time_of deadline.new) meter.old
        meter.new) }
    ensures few { length space.new.nodes.items.items
        ≤ length space.old.nodes.items.items + 1 }
    ensures same_nodes { nodes_capacity space.new.nodes ≡ nodes_capacity space.old.nodes }
    ensures later { IsLater (time_of deadline.old) (time_of deadline.new) }
    ensures fits { FitsBound upper.now.base.now.case.now space.new.bounds }
    ensures grows { meter.old ≤ meter.new }
    ensures counted { meter.new ≤ meter.old + extensions_in upper.now.base.now.case.now
        (2 * rounds) }
{
    let case = upper.base.case;
    let cap = target_cap(case, Some(upper.total));
    let BoundSpace { bounds, nodes } = space;
    let uses = &mut nodes.uses;
    let mut two = choose(case, &nodes.items[at], cap, deadline, bounds, uses)?;
    raise_node(upper, &mut two.with, rounds, deadline, bounds, meter);
    raise_node(upper, &mut two.without, rounds, deadline, bounds, meter);
    Some(nodes.put_children(at, two))
}

/// Raises the lower bound of the node at an index. Returns whether it rose; if not, no node has changed.
fn raise_at<T: SearchesRows, K: Clock + Copy>(
    upper: &UpperBound<'_>,
    at: usize,
    deadline: &mut Deadline<K>,
    space: &mut BoundSpace<T>,
    meter: &mut Meter,
) -> bool
    requires at { at < length space.old.nodes.items.items }
    requires fits { FitsBound upper.now.base.now.case.now space.old.bounds }
    requires nodes { AreNodesOf upper.now.base.now.case.now upper.now.base.now.from
        upper.now.base.now.given.now space.old.nodes.items.items }
    requires below { IsBelowAt space.old.nodes.items.items at upper.now.total }
    requires room { meter.old + extensions_in upper.now.base.now.case.now node_rounds
        ≤ greatest_u64 }
    ensures nodes { AreNodesOf upper.now.base.now.case.now upper.now.base.now.from
        upper.now.base.now.given.now space.new.nodes.items.items }
    ensures count { length space.new.nodes.items.items ≡ length space.old.nodes.items.items }
    ensures same { result ≡ false → space.new.nodes.items.items ≡ space.old.nodes.items.items }
    ensures searched { HasSearched upper.now.base.now.case.now (time_of deadline.new) meter.old
        meter.new }
    ensures same_nodes { nodes_capacity space.new.nodes ≡ nodes_capacity space.old.nodes }
    ensures later { IsLater (time_of deadline.old) (time_of deadline.new) }
    ensures fits { FitsBound upper.now.base.now.case.now space.new.bounds }
    ensures grows { meter.old ≤ meter.new }
    ensures counted { meter.new ≤ meter.old + extensions_in upper.now.base.now.case.now
        node_rounds }
{
    let BoundSpace { bounds, nodes } = space;
    let node = &mut nodes.items[at];
    let before = node.bound;
    raise_node(upper, node, NODE_ROUNDS, deadline, bounds, meter);
    node.bound > before
}

/// Raises the lower bound of a node by at most this many rounds of searches, as long as there is time.
#[tactic(auto, using(crate::proofs::NodeLaws::raised_priced))]
fn raise_node<T: SearchesRows, K: Clock + Copy>(
    upper: &UpperBound<'_>,
    node: &mut Node,
    rounds: u16,
    deadline: &mut Deadline<K>,
    bounds: &mut BoundWorkspace<T>,
    meter: &mut Meter,
)
    requires fits { FitsBound upper.now.base.now.case.now bounds.old }
    requires below { IsLowerBoundIn upper.now.base.now.case.now upper.now.base.now.from
        upper.now.base.now.given.now node.old.decisions.items node.old.bound }
    requires priced { IsPriced upper.now.base.now.case.now upper.now.base.now.from
        upper.now.base.now.given.now node.old }
    requires room { meter.old + extensions_in upper.now.base.now.case.now rounds ≤ greatest_u64 }
    ensures decisions { node.new.decisions ≡ node.old.decisions }
    ensures below { IsLowerBoundIn upper.now.base.now.case.now upper.now.base.now.from
        upper.now.base.now.given.now node.new.decisions.items node.new.bound }
    ensures priced { IsPriced upper.now.base.now.case.now upper.now.base.now.from
        upper.now.base.now.given.now node.new }
    ensures rises { node.old.bound ≤ node.new.bound }
    ensures searched { 0 < rounds → node.old.bound < upper.now.total → HasSearched
        upper.now.base.now.case.now (time_of deadline.new) meter.old meter.new }
    ensures later { IsLater (time_of deadline.old) (time_of deadline.new) }
    ensures fits { FitsBound upper.now.base.now.case.now bounds.new }
    ensures grows { meter.old ≤ meter.new }
    ensures counted { meter.new ≤ meter.old + extensions_in upper.now.base.now.case.now rounds }
{
    let case = upper.base.case;
    let cap = target_cap(case, Some(upper.total));
    if deadline.left_after_step() == 0 {
        return;
    }
    move_in_node(
        case,
        node.decisions.as_slice(),
        cap,
        ROUNDS_BEFORE,
        bounds,
        &mut [],
    );
    for made in 0..rounds {
        if node.bound >= upper.total {
            return;
        }
        if deadline.left_after_step() == 0 {
            return;
        }
        let bound = round_in_node(upper.base, node.decisions.as_slice(), bounds, meter);
        node.bound = node.bound.max(bound);
        move_by_pooled_rows(case, node.decisions.as_slice(), cap, bounds, &mut []);
    }
}

/// The lower bound by the dual prices for the rosters of a node. The cover counts each nurse's cheapest row,
/// and the pool keeps it.
fn round_in_node<T: SearchesRows>(
    base: &Base<'_>,
    node: &[Decision],
    workspace: &mut BoundWorkspace<T>,
    meter: &mut Meter,
) -> u64
    requires fits { FitsBound base.now.case.now workspace.old }
    requires room { meter.old + nurse_count base.now.case.now * greatest_extension_count
        base.now.case.now ≤ greatest_u64 }
    ensures below { IsLowerBoundIn base.now.case.now base.now.from base.now.given.now node.now
        result }
    ensures by_prices { IsBoundByPrices base.now.case.now base.now.from base.now.given.now node.now
        result }
    ensures counted { CountsRound base.now.case.now meter.old meter.new }
    ensures fits { FitsBound base.now.case.now workspace.new }
{
    workspace.dual_prices.keep_most();
    let terms = Terms {
        case: base.case,
        dual_prices: &workspace.dual_prices,
        given: base.given,
        from: base.from,
        scale: base.scale,
    };
    lower_bound_in(
        &terms,
        node,
        &mut workspace.rows,
        &mut workspace.pool,
        meter,
    )
}
