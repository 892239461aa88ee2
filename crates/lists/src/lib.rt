// The checks on what is lent, and the smallest steps over lent lists. Each check answers the paper's verdict on its lists.
#![tactic(auto)]

ghost use Rattle.std.specs.Prelude.{ℕ, ◌≤◌, ◌<◌, ◌≡◌, Bool, cond, not, eqb, length, get_or, map, Option};
ghost use Rattle.rules.specs.Costs.{closed};
ghost use Rattle.std.specs.List.{list_any};
ghost use Rattle.rules.specs.Net.{rank_list};
ghost use Rattle.rules.specs.Hierarchy.{edge_costs};
ghost use Rattle.rules.specs.Lent.{chosen, lent_graph, lent_costs};
ghost use Rattle.rules.specs.Replies.{refusal_number, refusal_place};
ghost use Rattle.rules.specs.Refusals.{check1, check2, check3, check4, check5, unlawful, check9, check10, check11, check15, check17, check_new_cost, fails, passes};
ghost use Rattle.theory.specs.Orders.{Ordered};
ghost use Rattle.theory.specs.Rows.{InRow, Rows, count};
ghost use Rattle.lists.specs.Lent.{verdict, found_in, edge_found, part, filled};

use rules::{Cost, Direction, EdgeCosts, Graph, Junction, Position, Refusal};

// A check of a whole: the lists are refused if they are at fault.
fn refuse_if(faulty: bool, refusal: Refusal) -> Result<(), Refusal>
    ensures { verdict result ≡ cond faulty (fails (refusal_number refusal) (refusal_place refusal)) passes }
{
    if faulty {
        return Err(refusal);
    }
    Ok(())
}

// 1: there are from 1 to 4,096 junctions.
#[tactic(auto, unfolding(rules::specs::Refusals::check1))]
pub fn check_junctions(n: usize) -> Result<(), Refusal>
    ensures { verdict result ≡ check1 n }
{
    refuse_if(n == 0 || 4096 < n, Refusal::JunctionCount)
}

// One of the lists is not m long.
fn differ(m: usize, lengths: &[usize]) -> bool
    ensures { result ≡ list_any (λ k. not (eqb k m)) lengths.now }
{
    lengths.iter().any(|&k| k != m)
}

// 2: of the lists of arcs one is m long and the others as long as `lengths` says: all are equally long, and at most 16,384 long.
#[tactic(auto, using(crate::proofs::Refusals::differ_any), unfolding(rules::specs::Refusals::check2))]
pub fn check_arc_lists(m: usize, lengths: &[usize]) -> Result<(), Refusal>
    ensures { verdict result ≡ check2 m lengths.now }
{
    refuse_if(differ(m, lengths) || 16384 < m, Refusal::ArcLists)
}

// 3: no arc has an end that is n or more.
pub fn check_ends(n: usize, tails: &[u32], heads: &[u32]) -> Result<(), Refusal>
    requires { length heads.now ≡ length tails.now }
    ensures { verdict result ≡ check3 n tails.now heads.now }
{
    for (i, &tail) in tails.iter().enumerate() {
        if n <= tail as usize || n <= heads[i] as usize {
            return Err(Refusal::ArcEnd(i));
        }
    }
    Ok(())
}

// 4: every order entry is below n and stands once.
pub fn check_order(order: &[u32]) -> Result<(), Refusal>
    requires { length order.now ≤ 4096 }
    ensures { verdict result ≡ check4 order.now }
{
    let mut seen = [false; 4096];
    for (p, &j) in order.iter().enumerate() {
        if order.len() <= j as usize || seen[j as usize] {
            return Err(Refusal::OrderEntry(p));
        }
        seen[j as usize] = true;
    }
    Ok(())
}

// The inverse of an order, written into the rank list.
pub fn fill_rank(order: &[u32], rank: &mut [u32])
    requires { Ordered order.now × (length order.now ≤ 4096) × (length rank.old ≡ length order.now) }
    ensures { rank.new ≡ rank_list order.now }
{
    for (p, &j) in order.iter().enumerate() {
        rank[j as usize] = p as u32;
    }
}

// 5: the rank room is n long and the room of first n + 1.
#[tactic(auto, unfolding(rules::specs::Refusals::check5))]
pub fn check_rooms(n: usize, rank: &[u32], first: &[u32]) -> Result<(), Refusal>
    requires { n ≤ 4096 }
    ensures { verdict result ≡ check5 n rank.now first.now }
{
    refuse_if(
        rank.len() != n || first.len() != n + 1,
        Refusal::RankOrFirstRoom,
    )
}

// A cost that is neither CLOSED nor from 1 to the greatest.
fn is_unlawful(cost: Cost) -> bool
    ensures { result ≡ unlawful cost.0 }
{
    cost == Cost::ZERO || Cost::GREATEST < cost && cost != Cost::CLOSED
}

// 9: every arc cost is CLOSED, or from 1 to the greatest.
pub fn check_costs(costs: &[u32]) -> Result<(), Refusal>
    ensures { verdict result ≡ check9 costs.now }
{
    for (i, &cost) in costs.iter().enumerate() {
        if is_unlawful(Cost(cost)) {
            return Err(Refusal::ArcCost(i));
        }
    }
    Ok(())
}

// 10: the up and the down list have a place for each of the e edges.
#[tactic(auto, unfolding(rules::specs::Refusals::check10))]
pub fn check_cost_lists(e: usize, costs: &EdgeCosts) -> Result<(), Refusal>
    ensures { verdict result ≡ check10 e (lent_costs costs.now) }
{
    refuse_if(
        costs.up.len() < e || costs.down.len() < e,
        Refusal::CostLists,
    )
}

// 11: start and target are junctions of the net.
#[tactic(auto, unfolding(rules::specs::Refusals::check11))]
pub fn check_question(n: usize, from: Junction, to: Junction) -> Result<(), Refusal>
    ensures { verdict result ≡ check11 n from.0 to.0 }
{
    refuse_if(
        n <= from.0 as usize || n <= to.0 as usize,
        Refusal::StartOrTarget,
    )
}

// 15: the list of distances is n long.
#[tactic(auto, unfolding(rules::specs::Refusals::check15))]
pub fn check_distances(n: usize, distances: &[u32]) -> Result<(), Refusal>
    ensures { verdict result ≡ check15 n distances.now }
{
    refuse_if(distances.len() != n, Refusal::DistanceRoom)
}

// 17: the arc is one of the m listed.
#[tactic(auto, unfolding(rules::specs::Refusals::check17))]
pub fn check_arc_number(m: usize, arc: usize) -> Result<(), Refusal>
    ensures { verdict result ≡ check17 m arc }
{
    refuse_if(m <= arc, Refusal::ArcNumber)
}

// 9 for the cost of one arc: it is CLOSED, or from 1 to the greatest.
#[tactic(auto, unfolding(rules::specs::Refusals::check_new_cost))]
pub fn check_new_cost(arc: usize, cost: Cost) -> Result<(), Refusal>
    ensures { verdict result ≡ check_new_cost arc cost.0 }
{
    refuse_if(is_unlawful(cost), Refusal::ArcCost(arc))
}

// The position at which a junction stands, by the rank list.
pub fn position_of(rank: &[u32], j: Junction) -> Position
    requires { j.0 < length rank.now }
    ensures { result.0 ≡ get_or rank.now j.0 0 }
{
    Position(rank[j.0 as usize])
}

// The junction that stands at a position, by the order list.
pub fn junction_at(order: &[u32], p: Position) -> Junction
    requires { p.0 < length order.now }
    ensures { result.0 ≡ get_or order.now p.0 0 }
{
    Junction(order[p.0 as usize])
}

// The place of the edge to y among the places from `from` up to `to` of the rows, or none: it does not stop at a greater entry.
// Not binary_search: nothing is asked of the order of the row, and of several places it is the first.
fn find_in_row(row_heads: &[u32], from: usize, to: usize, y: Position) -> Option<usize>
    requires { (from ≤ to) × (to ≤ length row_heads.now) }
    ensures { result ≡ found_in row_heads.now from to y.0 }
{
    for k in from..to {
        if row_heads[k] == y.0 {
            return Some(k);
        }
    }
    None
}

// The place of the edge between two positions, the lower first, or none.
pub fn find_edge(graph: &Graph, x: Position, y: Position) -> Option<usize>
    requires { Rows (count graph.now.first.now) (lent_graph graph.now) × (x.0 < count graph.now.first.now) }
    ensures { result ≡ edge_found (lent_graph graph.now) x.0 y.0 }
{
    let row = graph.places(x.0 as usize);
    find_in_row(graph.heads, row.start, row.end, y)
}

// The same for a second entry of the row: the search goes on from the place of the first, which is not above it. It is no case of the other,
// which reads the row's start itself: each caller there would have to give it.
pub fn find_edge_from(graph: &Graph, x: Position, y: Position, at: usize) -> Option<usize>
    requires { Rows (count graph.now.first.now) (lent_graph graph.now) × (x.0 < count graph.now.first.now) × InRow (lent_graph graph.now) x.0 at × (get_or graph.now.heads.now at 0 ≤ y.0) }
    ensures { result ≡ edge_found (lent_graph graph.now) x.0 y.0 }
{
    let row = graph.places(x.0 as usize);
    find_in_row(graph.heads, at, row.end, y)
}

// A row's costs: a part of the up list or of the down list, by direction, and no copy of either.
// The lists come one by one, as nothing is known of lists inside a struct: here no cost of either is over CLOSED, as all are 32-bit numbers.
pub fn row_costs<'a>(
    up: &'a [u32],
    down: &'a [u32],
    d: Direction,
    from: usize,
    to: usize,
) -> &'a [u32]
    requires { (from ≤ to) × (to ≤ length up.now) × (to ≤ length down.now) }
    ensures part { result.now ≡ part from to (chosen d (edge_costs up.now down.now)) }
    ensures small_up { (k : ℕ) → get_or up.now k 0 ≤ closed }
    ensures small_down { (k : ℕ) → get_or down.now k 0 ≤ closed }
{
    &EdgeCosts { up, down }.along(d)[from..to]
}

// One value at every place of a list from `from` on.
// A name for what `filled` says, for callers whose definitions speak of it.
pub fn fill(list: &mut [u32], from: usize, value: u32)
    requires { from ≤ length list.old }
    ensures { list.new ≡ filled list.old from value }
{
    list[from..].fill(value);
}
