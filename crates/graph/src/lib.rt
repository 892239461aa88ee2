// Contraction: the rows of the shortcut graph, written straight into lent room, for each position from 0 upward.
// The row of p is the arc neighbours of p above it together with the rows of p's children less p, so that the whole takes little more than E steps.
#![tactic(auto)]

ghost use Rattle.std.specs.Prelude.{ℕ, suc, ◌+◌, ◌-◌, ◌≤◌, ◌<◌, ◌≡◌, Bool, [], length, get_or, Some, IfSome};
ghost use Rattle.rules.specs.Net.{net, rank_list};
ghost use Rattle.rules.specs.Graph.{graph};
ghost use Rattle.theory.specs.Accepted.{Buildable};
ghost use Rattle.gather.specs.NextMembers.{Holds};
ghost use Rattle.graph.specs.Grown.{Writes, Laid, roads, Ready, Grows, Fills};
ghost use Rattle.graph.specs.Contracted.{left, contracted};

use gather::{ArcThreads, ChildThreads, NextMembers};
use lists::fill;
use rules::{Graph, Position};

// Writes the members of the set of p, in ascending order, from place `at` of row_heads on, where there is a place for every position above p.
// Not a `for`, here and below: the next member is read from the set, and how many there are is known at the end.
fn write_fitting(
    row_heads: &mut [u32],
    set: &NextMembers,
    n: usize,
    p: Position,
    at: usize,
) -> usize
    requires { (p.0 < n) × (n ≤ 4096) × (at + (n - p.0) ≤ length row_heads.old) }
    ensures { (S : ℕ → Bool) → Holds S n p.0 set.now.after → Writes S n p.0 at row_heads.old row_heads.new (Some result) }
{
    let mut k = at;
    let mut member = set.after[p.0 as usize] as usize;
    // k is counted beside the walk along the set: no range or iterator gives the members.
    while member < n {
        row_heads[k] = member as u32;
        k += 1;
        member = set.after[member] as usize;
    }
    k
}

// Writes the members of the set of p, in ascending order, from place `at` of row_heads on, and answers the next free place; none if the room is
// full. It watches for the end of the room only where that is near: one loop for all rows would test for it at every entry.
fn write_row(
    row_heads: &mut [u32],
    set: &NextMembers,
    n: usize,
    p: Position,
    at: usize,
) -> Option<usize>
    requires { (p.0 < n) × (n ≤ 4096) × (at ≤ length row_heads.old) }
    ensures { (S : ℕ → Bool) → Holds S n p.0 set.now.after → Writes S n p.0 at row_heads.old row_heads.new result }
{
    let x = p.0 as usize;
    if n - x <= row_heads.len() - at {
        return Some(write_fitting(row_heads, set, n, p, at));
    }
    let mut k = at;
    let mut next = set.after[x] as usize;
    // k is counted beside the walk, as above.
    while next < n {
        if row_heads.len() <= k {
            return None;
        }
        row_heads[k] = next as u32;
        k += 1;
        next = set.after[next] as usize;
    }
    Some(k)
}

// Writes the row of p behind the rows below p, threads p by its parent, and answers where the row ends; none if the room is full.
// `first` and `row_heads` stay two parameters: of a struct that is made of two `&mut`, its maker learns nothing once it was written.
fn add_row<const N: usize>(
    order: &[u32],
    first: &mut [u32],
    row_heads: &mut [u32],
    arcs: &ArcThreads<N>,
    children: &mut ChildThreads,
    set: &mut NextMembers,
    p: Position,
) -> Option<usize>
    requires { Ready order.now (graph first.old row_heads.old) arcs.now children.old p.0 }
    ensures end { IfSome result (λ e. get_or first.new (p.0 + 1) 0 ≡ e) }
    ensures rows { (R : Ready order.now (graph first.old row_heads.old) arcs.now children.old p.0) → Grows (roads R.laid) (graph first.new row_heads.new) children.new p.0 (length row_heads.old) result }
{
    let n = order.len();
    let x = p.0 as usize;
    let rows = Graph {
        first: &*first,
        heads: &*row_heads,
    };
    set.gather_row(&rows, arcs, children, n, p);
    let end = write_row(row_heads, set, n, p, first[x] as usize)?;
    first[x + 1] = end as u32;
    children.add(n, p, Position(set.after[x]));
    Some(end)
}

// Writes all rows, for each position from 0 upward, and answers where the last ends; none if one does not fit.
fn add_rows<const N: usize>(
    order: &[u32],
    first: &mut [u32],
    row_heads: &mut [u32],
    arcs: &ArcThreads<N>,
) -> Option<usize>
    requires { Laid order.now arcs.now × (length first.old ≡ suc (length order.now)) }
    ensures { (L : Laid order.now arcs.now) → Fills (roads L) (graph first.new row_heads.new) (length row_heads.old) result }
{
    let mut children = ChildThreads::new();
    let mut set = NextMembers::new();
    first[0] = 0;
    let mut end = 0;
    for p in 0..order.len() {
        end = add_row(
            order,
            first,
            row_heads,
            arcs,
            &mut children,
            &mut set,
            Position(p as u32),
        )?;
    }
    Some(end)
}

// The contraction itself, with room for the threads of N arcs: never inlined, so that a build that is refused has no such room on its stack.
// Lists one by one, as build gets them: there are no costs for a Net, and first and row_heads are written.
#[inline(never)]
fn contract_in<const N: usize>(
    tails: &[u32],
    heads: &[u32],
    order: &[u32],
    rank: &[u32],
    first: &mut [u32],
    row_heads: &mut [u32],
) -> Option<usize>
    requires { Buildable tails.now heads.now order.now rank.now first.old × (rank.now ≡ rank_list order.now) × (length tails.now ≤ N) × (N ≤ 16384) }
    ensures { left result (graph first.new row_heads.new) ≡ contracted (net tails.now heads.now [] order.now) (length row_heads.old) }
{
    let mut arcs = ArcThreads::<N>::new();
    arcs.lay(tails, heads, rank);
    let Some(edges) = add_rows(order, first, row_heads, &arcs) else {
        fill(first, 0, 0);
        fill(row_heads, 0, 0);
        return None;
    };
    fill(row_heads, edges, 0);
    Some(edges)
}

// The rows of the shortcut graph, written into first and row_heads, and their number of entries; none, and all 0, if there is not room for them.
// The room for the threads of arcs goes by their number, so that few arcs do not pay for the clearing of much room.
pub fn contract(
    tails: &[u32],
    heads: &[u32],
    order: &[u32],
    rank: &[u32],
    first: &mut [u32],
    row_heads: &mut [u32],
) -> Option<usize>
    requires { Buildable tails.now heads.now order.now rank.now first.old × (rank.now ≡ rank_list order.now) }
    ensures { left result (graph first.new row_heads.new) ≡ contracted (net tails.now heads.now [] order.now) (length row_heads.old) }
{
    if tails.len() <= 2048 {
        return contract_in::<2048>(tails, heads, order, rank, first, row_heads);
    }
    contract_in::<16384>(tails, heads, order, rank, first, row_heads)
}
