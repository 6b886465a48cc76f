//! Nodes that together contain all rosters, each with a lower bound.

ghost use Rattle.std.specs.Prelude.{◌≡◌, ◌<◌, ◌≤◌, ◌↔◌, ◌++◌, [], ◌∷◌, IfNone, IfOk, IfSome, IsTrue, false, if◌then◌else◌, length, set, true, vec_capacity, vec_len};
ghost use Rattle.roster_bound.specs.Branching.{AreChildrenOf, IsFirstLeastAt, IsLeastOf, IsRoot};
ghost use Rattle.roster_bound.specs.PooledUses.{most_decisions};

use arrayvec::ArrayVec;
use roster_instance::Case;
use roster_prices::Decision;
use roster_slots::ROWS_PER_NURSE;
use std::alloc::{AllocError, Global};

/// How many decisions a node has at most. A node with this many isn't branched again.
pub(crate) const MOST_DECISIONS: usize = 64;

/// A node of the branching tree: the rosters that keep some decisions, and a lower bound for them.
#[derive(Drop)]
pub struct Node {
    pub(crate) decisions: ArrayVec<Decision, MOST_DECISIONS>,
    pub(crate) bound: u64,
}

/// Nodes that together contain all rosters, and how often each pooled row was the cheapest of its nurse.
pub struct Nodes {
    pub(crate) items: Vec<Node>,
    pub(crate) uses: Vec<u32>,
}

// Written by hand, so that a function that drops it has one call to prove.
impl Drop for Nodes {
    fn drop(self) {
        let Nodes { items: _, uses: _ } = self;
    }
}

/// The two children of a node.
#[derive(Drop)]
pub(crate) struct Children {
    pub(crate) with: Node,
    pub(crate) without: Node,
}

impl Node {
    /// The child that keeps one more decision, with the same lower bound; none if the node can take no more.
    fn with(&self, decision: Decision) -> Option<Node>
        ensures decisions { IfSome result (λ node. node.decisions.items
            ≡ self.now.decisions.items ++ decision ∷ []) }
        ensures bound { IfSome result (λ node. node.bound ≡ self.now.bound) }
        ensures none { IfNone result (most_decisions ≤ length self.now.decisions.items) }
    {
        let mut decisions = ArrayVec::new();
        let Ok(()) = decisions.try_extend_from_slice(self.decisions.as_slice()) else {
            return None;
        };
        let Ok(()) = decisions.try_push(decision) else {
            return None;
        };
        Some(Node {
            decisions,
            bound: self.bound,
        })
    }

    /// The two children by a decision; none if the node can take no more.
    pub(crate) fn branched_by(&self, decision: Decision) -> Option<Children>
        ensures two { IfSome result (λ two. AreChildrenOf self.now two.with two.without) }
        ensures none { IfNone result (most_decisions ≤ length self.now.decisions.items) }
    {
        let with = self.with(decision)?;
        let without = self.with(decision.other_way())?;
        Some(Children { with, without })
    }
}

impl Nodes {
    ghost use Rattle.roster_bound.specs.NodeCapacity.{nodes_capacity};

    /// Capacity for the nodes that this many branchings make, by two allocations if there are any: 528 bytes
    /// for each node, and 256 for each nurse.
    ///
    /// # Errors
    ///
    /// An allocation was refused.
    pub(crate) fn for_nodes(alloc: Global, case: &Case, nodes: u16) -> Result<Nodes, AllocError>
        ensures { IfOk result (λ made. 0 < nodes → nodes < vec_capacity made.items) }
    {
        case.keeps_limits();
        if nodes == 0 {
            return Ok(Nodes {
                items: Vec::new(alloc),
                uses: Vec::new(alloc),
            });
        }
        Ok(Nodes {
            items: Vec::with_capacity(alloc, nodes as usize + 1)?,
            uses: vec![in alloc; 0; ROWS_PER_NURSE * case.nurses()]?,
        })
    }

    /// Begins with one node, which has all rosters and this lower bound. Returns false if there is no
    /// capacity for it.
    pub(crate) fn begin(&mut self, bound: u64) -> bool
        ensures root { result ≡ true → IsRoot bound self.new.items.items }
        ensures full { result ≡ false → vec_capacity self.old.items ≡ 0 }
        ensures same_capacity { nodes_capacity self.new ≡ nodes_capacity self.old }
    {
        self.items.clear();
        if !self.has_capacity() {
            return false;
        }
        self.items.push_reserved(Node {
            decisions: ArrayVec::new(),
            bound,
        });
        true
    }

    /// Whether there is capacity for another node.
    fn has_capacity(&self) -> bool
        ensures { IsTrue result ↔ (vec_len self.now.items < vec_capacity self.now.items) }
    {
        self.items.len() < self.items.capacity()
    }

    /// The least of the lower bounds.
    pub(crate) fn bound(&self) -> u64
        requires { 0 < length self.now.items.items }
        ensures { IsLeastOf result self.now.items.items }
    {
        self.items[self.least()].bound
    }

    /// The first node with the least lower bound.
    pub(crate) fn least(&self) -> usize
        requires { 0 < length self.now.items.items }
        ensures { IsFirstLeastAt self.now.items.items result }
    {
        let mut least = 0;
        for at in 1..self.items.len() {
            if self.items[at].bound < self.items[least].bound {
                least = at;
            }
        }
        least
    }

    /// Replaces a node by its two children. If there is no capacity for them, it changes nothing and returns
    /// false.
    pub(crate) fn put_children(&mut self, at: usize, two: Children) -> bool
        requires { at < length self.old.items.items }
        ensures put { self.new.items.items ≡ (if result then set (self.old.items.items ++ two.without
            ∷ []) at two.with else self.old.items.items) }
        ensures full { result ≡ false → vec_capacity self.old.items ≤ vec_len self.old.items }
        ensures same_capacity { nodes_capacity self.new ≡ nodes_capacity self.old }
    {
        let Children { with, without } = two;
        if !self.has_capacity() {
            return false;
        }
        self.items.push_reserved(without);
        self.items[at] = with;
        true
    }
}
