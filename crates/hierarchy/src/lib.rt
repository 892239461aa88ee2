// The check of a hierarchy's lists: the order and its rank list, and the rows. It answers the paper's verdict on its lists.
#![tactic(auto)]

ghost use Rattle.std.specs.Prelude.{suc, ◌+◌, ◌≤◌, ◌<◌, ◌≡◌, ◌&&◌, [], ◌∷◌, ltb, length};
ghost use Rattle.std.proofs.Math.Seq.{slice};
ghost use Rattle.rules.specs.Lent.{lent_graph};
ghost use Rattle.rules.specs.Refusals.{first_failure, check4, check7};
ghost use Rattle.lists.specs.Lent.{verdict};
ghost use Rattle.hierarchy.specs.Tests.{seats_agree, rows_hold, in_order, row_holds, RowsFrom};

use lists::check_order;
use rules::{Graph, Position, Refusal};

// The rank list is as long as the order and gives back every position: then the order is one, too.
fn ranks_order(order: &[u32], rank: &[u32]) -> bool
    requires { length order.now ≤ 4096 }
    ensures { result ≡ seats_agree order.now rank.now }
{
    if rank.len() != order.len() {
        return false;
    }
    for (p, &j) in order.iter().enumerate() {
        if order.len() <= j as usize || rank[j as usize] as usize != p {
            return false;
        }
    }
    true
}

// The eight entries from k on are those that stand `gap` places behind them: it goes through all in any case, so that they are compared at once.
fn eight_same(row_heads: &[u32], k: usize, gap: usize) -> bool
    requires { k + 8 + gap ≤ length row_heads.now }
    ensures { result ≡ in_order (slice k (k + 8) row_heads.now) (slice (k + gap) (k + 8 + gap) row_heads.now) }
{
    let mut same = true;
    for i in 0..8 {
        let at = k + i;
        if row_heads[at + gap] != row_heads[at] {
            same = false;
        }
    }
    same
}

// The entries from k to end, eight or more, are those that stand `gap` places behind them: eight at a turn, for speed, of which the last go
// back over entries of those before, so that none are left over.
fn same_entries(row_heads: &[u32], k: usize, end: usize, gap: usize) -> bool
    requires { (k + 8 ≤ end) × (end + gap ≤ length row_heads.now) }
    ensures { result ≡ in_order (slice k end row_heads.now) (slice (k + gap) (end + gap) row_heads.now) }
{
    let last = end - 8;
    let mut at = k;
    while at < last {
        if !eight_same(row_heads, at, gap) {
            return false;
        }
        at += 8;
    }
    eight_same(row_heads, last, gap)
}

// The entries from k to end are met in order from j to stop: two places at a turn, with the entry that is wanted at hand, for speed. The end
// of the entries is asked for once in a turn, so what is wanted may come to stand behind them.
fn met_in(row_heads: &[u32], k: usize, end: usize, j: usize, stop: usize) -> bool
    requires { (k < end) × (end ≤ j) × (j ≤ stop) × (stop ≤ length row_heads.now) }
    ensures { result ≡ in_order (slice k end row_heads.now) (slice j stop row_heads.now) }
{
    let mut at = k;
    let mut want = row_heads[k];
    let mut next = j;
    while next + 1 < stop {
        if row_heads[next] == want {
            at += 1;
            want = row_heads[at];
            if row_heads[next + 1] == want {
                at += 1;
                want = row_heads[at];
            }
            if end <= at {
                return true;
            }
        } else if row_heads[next + 1] == want {
            at += 1;
            want = row_heads[at];
            if end <= at {
                return true;
            }
        }
        next += 2;
    }
    next < stop && row_heads[next] == want && at + 1 == end
}

// The entries from k to end come in order among those from j to stop, which stand behind them: where there are as many, all are the same,
// and eight or more are soonest compared by eights.
fn comes_in(row_heads: &[u32], k: usize, end: usize, j: usize, stop: usize) -> bool
    requires { (k < end) × (end ≤ j) × (j ≤ stop) × (stop ≤ length row_heads.now) }
    ensures { result ≡ in_order (slice k end row_heads.now) (slice j stop row_heads.now) }
{
    let many = end - k;
    if stop - j == many && 8 <= many {
        return same_entries(row_heads, k, end, j - k);
    }
    met_in(row_heads, k, end, j, stop)
}

// A parent is above p and below n: it has a row, and one that is known to hold.
fn is_above(n: usize, p: Position, parent: Position) -> bool
    ensures { result ≡ (ltb p.0 parent.0 && ltb parent.0 n) }
{
    p < parent && (parent.0 as usize) < n
}

// The row of p: empty, or the parent is above p and below n and the rest comes in order in the parent's row. A row with no rest is done with
// first, so that the others need not ask for one.
fn row_holds(n: usize, graph: &Graph, p: Position) -> bool
    requires { (p.0 < n) × (length graph.now.first.now ≡ suc n) × (RowsFrom n (lent_graph graph.now) (p.0 + 1)) }
    ensures { result ≡ row_holds n (lent_graph graph.now) p.0 }
{
    // Not by `graph.places`, which does not tell that a start leaves room for one more: the test for a rest came second then, and was slower.
    let row = p.0 as usize;
    let from = graph.first[row] as usize;
    let to = graph.first[row + 1] as usize;
    let rest = from + 1;
    if to <= rest {
        if to <= from {
            return from == to;
        }
        return is_above(n, p, Position(graph.heads[from]));
    }
    let parent = Position(graph.heads[from]);
    if !is_above(n, p, parent) {
        return false;
    }
    let above = graph.places(parent.0 as usize);
    comes_in(graph.heads, rest, to, above.start, above.end)
}

// The graph's lists are the rows of a hierarchy of n positions: from the last row down, so that a parent's row is known to hold.
fn rows_hold(n: usize, graph: &Graph) -> bool
    requires { n ≤ 4096 }
    ensures { result ≡ rows_hold n (lent_graph graph.now) }
{
    let first = graph.first;
    if first.len() != n + 1 || first[0] != 0 || graph.heads.len() < first[n] as usize {
        return false;
    }
    for p in (0..n).rev() {
        if !row_holds(n, graph, Position(p as u32)) {
            return false;
        }
    }
    true
}

// 4 and 7 together: where the rank list gives back every position both the order and the rank list are right; only else is 4
// looked for.
#[tactic(auto, using(crate::proofs::IsHierarchy::decided))]
pub fn check_graph(order: &[u32], rank: &[u32], graph: &Graph) -> Result<(), Refusal>
    requires { length order.now ≤ 4096 }
    ensures { verdict result ≡ first_failure (check4 order.now ∷ check7 order.now rank.now (lent_graph graph.now) ∷ []) }
{
    if !ranks_order(order, rank) {
        check_order(order)?;
        return Err(Refusal::NotAHierarchy);
    }
    if !rows_hold(order.len(), graph) {
        return Err(Refusal::NotAHierarchy);
    }
    Ok(())
}
