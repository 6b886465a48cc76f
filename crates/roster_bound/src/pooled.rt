//! How dual prices move in a node, by its pooled rows alone.

ghost use Rattle.roster_prices.specs.Workspaces.{FitsBound};

use roster_instance::Case;
use roster_offers::SearchesRows;
use roster_prices::{BoundWorkspace, Decision, move_by_pooled_rows};

/// Begins the steps in a node, makes those of this many rounds, without the searches, and counts how often
/// each row was the cheapest of its nurse in the second half of them. Returns the greatest value of the
/// pooled rows, which is no lower bound.
pub(crate) fn move_in_node<T: SearchesRows>(
    case: &Case,
    node: &[Decision],
    cap: u64,
    rounds: u16,
    bounds: &mut BoundWorkspace<T>,
    uses: &mut [u32],
) -> u64
    requires { FitsBound case.now bounds.old }
    ensures { FitsBound case.now bounds.new }
{
    bounds.begin_node(case);
    let mut most = 0;
    for made in 0..rounds {
        if made == rounds / 2 {
            uses.fill(0);
        }
        most = most.max(move_by_pooled_rows(case, node, cap, bounds, uses));
    }
    most
}
