//! Searches a neighbourhood of a roster exactly: a few nurses are free, on all days or within a window of
//! days, and all else stays.
//!
//! # The method
//!
//! **The subproblem.** Some nurses are free on the open days. On the other days they keep their choices. The
//! slots are those of the open days that one of the free nurses may cover and that the other nurses leave
//! below the optimum or the minimum. `want` of a slot is how many nurses are lacking there, and `pay` how
//! many of these may stay lacking, at 30 points each: more would break the minimum. What has to be undercut
//! is what the present rows of the free nurses cost together with what they leave lacking. Penalties are
//! multiples of 5, unless a roster is kept at another number of points. So the *target* is 5 points, or one,
//! below that (`problem`, `found`).
//!
//! Let a slot pay its dual price p to each nurse who works there. Whatever the prices are, no rows of the
//! free nurses cost less together than
//!
//!     L(p) = Σ p · want + Σ min(0, 30 - p) · pay + Σ over the free nurses of the least reduced cost of a row
//!
//! So if L(p) is above the target, there is nothing cheaper. Prices are held in 16,384ths of a point, from 0
//! to 1,000 points, and searches get them at the scale of the case.
//!
//! **Dual ascent** (`ascent`), from the dual prices of the whole roster, in at most 40 rounds:
//!
//! 1. The rows at hand are the present ones, and of each nurse the 25 pooled rows of least reduced cost that
//!    are in the neighbourhood (`hand`).
//! 2. A round searches each free nurse's cheapest row. These rows join the pool and the rows at hand, and
//!    together they are considered as a cheaper roster. The best L and its prices are kept.
//! 3. At most 150 steps follow over the rows at hand alone, from the best prices. Let v be what L would be if
//!    there were no other rows. The subgradient of a slot is want, less pay above 30 points, less its cover
//!    by the cheapest rows at hand. A step goes along a deflected direction: of the direction before it keeps
//!    one and a half times the share that would leave the two no longer opposed. Its length is that of
//!    Polyak, towards two points above the target, times a pace. The pace falls by a quarter after ten steps
//!    without a better v, and grows by a quarter after a round. The cheapest rows of each step are considered
//!    together.
//! 4. The next prices are a quarter of the best ones and three quarters of those of the best v. That quarter
//!    is halved in a round that found no new row.
//! 5. It ends if L is above the target, or after six rounds in succession that gained less than a quarter of
//!    a point, or after two of these in succession if no row of the last one was new.
//!
//! **Lists** (`lists`). What is left between L and the target is the *gap*. A row whose reduced cost is above
//! its nurse's least by more than the gap is in no cheaper roster. All others are listed, depth first, by the
//! completion bounds of a search. Skills that cover no slot count as one. If a nurse has more than 5,000 such
//! rows, or all nurses together have more than there is capacity for, the limit is halved, the next nurse's
//! is half as much again, and the rows at hand join the list. The neighbourhood then can't be closed any
//! more.
//!
//! **Tree** (`tree`, `live`, `branching`). A node has live rows, a few active ones, and prices. It gets up to
//! 6 scans over the live rows, the root 12, with at most 40 steps as above over the active rows between them.
//! If a value is above the target, the node is cut. A row that is above its nurse's least by more than the
//! target is above the value is no longer live. Then the node is branched, by the choice of a nurse on a day
//! in which the cheapest rows of its scans and steps differ most: the least of how many have it and how many
//! don't, a day off counting five quarters. If they differ in none, the longest list is halved. The tree is
//! searched depth first, the side first that has more of the cheapest rows, up to 1,000 nodes and 4 million
//! valued rows.
//!
//! **Work** is counted in searches: a search is 1, a listed row 1/40, a step 1/160, and a row that is
//! valued 1/4,000 (`work`). So a budget is one number, whatever the machine.
//!
//! **Which nurses** (`draws`). There are four kinds of neighbourhoods: all days, one week, two weeks, and,
//! from 6 open weeks on, half the weeks. A window has 0 to 4 days more on each side. The next try is of the
//! kind whose tries took the least work so far. It frees half the size of its kind to all of it. Sizes begin
//! with 5, 12, 8 and 6 nurses. A size grows by 0.15 if a try was closed within the work of 1,000 searches and
//! was about as large as its size. If it wasn't closed within that work, it shrinks to 0.93 of itself, but
//! not below 3. The first nurse is drawn among all, and the others among those who share a skill with her. In
//! half of the tries they are drawn by weight: ten points, and the nurse's excess, which is by how much the
//! reduced cost of her present row is above the least, plus the prices of its slots that have too many nurses
//! (`excess`, anew every 50 tries). In a quarter of the tries one present shift of a free nurse is forbidden,
//! and rows that are as dear are accepted.
//!
//! # What is promised
//!
//! `search_near` promises that it makes no more searches than are left, that the meter counts no more than
//! these may (`specs/Spending.antt`), and that the memory serves further ones. `NearSpace` promises which
//! nurses are free, and that the row that it writes for one of them is the given one on the days that aren't
//! open, and the one that was found on the others (`specs/Drawn.antt`). No contract says that the rows that
//! are found are allowed or cheaper: the caller checks the roster with them as any other.
#![tactic(auto)]

mod ascent;
mod branching;
mod choices;
mod dice;
mod draws;
mod excess;
mod found;
mod hand;
mod lists;
mod live;
mod prices;
mod problem;
mod rows;
mod search;
mod space;
mod spend;
mod task;
mod tree;
mod work;

pub use search::{Tried, search_near};
pub use space::NearSpace;
