//! Branching decisions, which make a node of the tree.

ghost use Rattle.std.specs.Prelude.{◌≡◌, ◌+◌, ◌≤◌};
ghost use Rattle.roster_offers.specs.Lists.{most_price_at, most_scale};
ghost use Rattle.roster_prices.specs.Nodes.{against_price, is_against, is_as_decided, other_way};

use roster_instance::Choice;

/// A branching decision: that a nurse does a choice on a day, or that she does another one.
#[derive(Clone, Copy, Debug, Default, PartialEq, Eq)]
pub struct Decision {
    pub nurse: u16,
    pub day: u16,
    pub choice: Choice,
    pub does: bool,
}

/// The greatest price of an offer in whole points, and in points where prices are finer.
const MOST_PRICE: u32 = 1_918_200;

const MOST_POINTS: u32 = 200_500;

/// The greatest price by dual prices: the greatest dual price and a nurse's requests.
const MOST_BY_DUAL_PRICES: u32 = 200_120;

/// By how many parts of a point a choice that goes against a decision is dearer: as many as a price by dual
/// prices leaves. That is 1,718,080 points at scale 1, 39,655 at scale 8 and 380 at scale 128. However few
/// they are, a row that keeps the decisions doesn't pay them, so the bound holds in the node. Such a choice
/// is offered so that a nurse who can't do as decided has a row.
pub(crate) fn against_price(scale: u32) -> u32
    requires { scale ≤ most_scale }
    ensures { result ≡ against_price scale }
{
    MOST_PRICE.max(scale * MOST_POINTS) - scale * MOST_BY_DUAL_PRICES
}

impl Decision {
    /// The decision the other way round.
    pub fn other_way(self) -> Decision
        ensures { result ≡ other_way self }
    {
        Decision {
            does: !self.does,
            ..self
        }
    }

    /// Whether a choice is as decided.
    fn allows(&self, choice: Choice) -> bool
        ensures { result ≡ is_as_decided self.now choice }
    {
        if self.does {
            choice == self.choice
        } else {
            choice != self.choice
        }
    }
}

/// Whether a choice of a nurse on a day goes against one of the decisions.
pub(crate) fn is_against(node: &[Decision], nurse: usize, day: u16, choice: Choice) -> bool
    ensures { result ≡ is_against node.now nurse day choice }
{
    for decision in node {
        if decision.nurse as usize == nurse && decision.day == day && !decision.allows(choice) {
            return true;
        }
    }
    false
}
