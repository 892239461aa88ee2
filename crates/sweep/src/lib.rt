// The sweep: labels upward from one position, then every position from the highest down, and each junction's distance into the lent list.
#![tactic(auto)]

ghost use Rattle.std.specs.Prelude.{◌≤◌, ◌<◌, min, ◌≡◌, false, length, get_or};
ghost use Rattle.rules.specs.Words.{least};
ghost use Rattle.rules.specs.Costs.{label_over};
ghost use Rattle.rules.specs.Hierarchy.{along};
ghost use Rattle.rules.specs.Lent.{lent_graph, lent_costs};
ghost use Rattle.rules.specs.Refusals.{too_far};
ghost use Rattle.rules.specs.Replies.{fill_reply};
ghost use Rattle.rules.specs.Calls.{or_closed, sweep_left, swept_leaves, distance_between};
ghost use Rattle.theory.specs.Rows.{count, Lists};
ghost use Rattle.sweep.specs.Swept.{far, cap, uncap, step_of, RowDown, place_gives, Labelled, SweptDown, Places, AllCapped};

use distance::climb;
use lists::{position_of, row_costs};
use rules::{Cost, Direction, EdgeCosts, Graph, Junction, NONE, Refusal};

// What stands for none while costs are added: no sum of costs comes near it, and it does not wrap round when it is added to itself.
// It is a plain number, as Options would take twice the memory of the stack and a branch at each edge.
const FAR: u64 = 4611686018427387903;

// A cost as what a step adds: FAR for CLOSED, which gives nothing.
fn step(cost: Cost) -> u64
    ensures { result ≡ step_of cost.0 }
{
    if cost == Cost::CLOSED {
        return FAR;
    }
    cost.0 as u64
}

// The lesser of the best so far and what is known of a higher neighbour with its edge's cost added: no branch, as which is less cannot be
// foretold.
fn lesser(best: u64, known: u64, cost: Cost) -> u64
    requires { (best ≤ far) × (known ≤ far) }
    ensures { result ≡ min best (cap (label_over known cost.0)) }
{
    best.min(known + step(cost))
}

// What is known after place i of a row: the lesser of the best so far and of what the place hands down.
fn after_place(row: &[u32], costs: &[u32], reach: &[u64; 4096], i: usize, best: u64) -> u64
    requires { RowDown row.now costs.now reach.now × (i < length row.now) × (best ≤ far) }
    ensures { result ≡ min best (place_gives row.now costs.now reach.now i) }
{
    lesser(best, reach[row[i] as usize], Cost(costs[i]))
}

// The least of a position's label and of what its higher neighbours hand on, given its row and the costs down the row's edges: two places at a
// turn, so that the end is asked for half as often.
fn least_over(row: &[u32], costs: &[u32], reach: &[u64; 4096], label: u64) -> u64
    requires { RowDown row.now costs.now reach.now }
    ensures { result ≡ least (place_gives row.now costs.now reach.now) (cap label) (length row.now) }
{
    let mut best = label.min(FAR);
    let mut i = 0;
    while i + 1 < row.len() {
        best = after_place(row, costs, reach, i, best);
        best = after_place(row, costs, reach, i + 1, best);
        i += 2;
    }
    if i < row.len() {
        return after_place(row, costs, reach, i, best);
    }
    best
}

// All positions from the highest down, each taking the least over its higher neighbours: labels become distances, in their places.
fn sweep_down(graph: &Graph, costs: &EdgeCosts, d: Direction, reach: &mut [u64; 4096])
    requires { Lists (lent_graph graph.now) (lent_costs costs.now) × Labelled (lent_graph graph.now) (lent_costs costs.now) d reach.old }
    ensures { SweptDown (lent_graph graph.now) (lent_costs costs.now) d 0 reach.old reach.new }
{
    for p in (0..graph.first.len() - 1).rev() {
        let places = graph.places(p);
        let row = &graph.heads[places.start..places.end];
        let listed = row_costs(costs.up, costs.down, d.opposite(), places.start, places.end);
        let label = reach[p];
        reach[p] = least_over(row, listed, reach, label);
    }
}

// A distance that is CLOSED or more, and so does not fit the list: none is no distance.
fn is_too_far(known: u64) -> bool
    requires { known ≤ far }
    ensures { result ≡ too_far (uncap known) }
{
    Cost::CLOSED.0 as u64 <= known && known < FAR
}

// A distance as it stands in the list: CLOSED for none.
// No TryFrom, which was tried and takes two instructions more for each junction: as a 32-bit number FAR is CLOSED, so here nothing is compared.
fn or_closed(known: u64) -> u32
    requires { (known ≤ far) × (too_far (uncap known) ≡ false) }
    ensures { result ≡ or_closed (uncap known) }
{
    if known == FAR {
        return Cost::CLOSED.0;
    }
    known as u32
}

// Each junction's distance into the list; at the lowest junction that is too far the list becomes all CLOSED, and the refusal names it.
fn tell(rank: &[u32], reach: &[u64; 4096], distances: &mut [u32]) -> Result<(), Refusal>
    requires { Places rank.now distances.old × AllCapped rank.now reach.now }
    ensures { sweep_left distances.new (fill_reply result) ≡ swept_leaves (length rank.now) (λ j. uncap (get_or reach.now (get_or rank.now j 0) 0)) }
{
    for (j, &p) in rank.iter().enumerate() {
        let known = reach[p as usize];
        if is_too_far(known) {
            distances.fill(Cost::CLOSED.0);
            return Err(Refusal::TooFar(j));
        }
        distances[j] = or_closed(known);
    }
    Ok(())
}

// The distance from a junction to each, or, for the other direction, from each to it, whatever the cost lists hold. Nobody asks where a label
// came from: what is only written here is left out by the compiler.
// Rank list, graph and costs stay apart, as not every call gets all of them.
pub fn sweep_by(
    rank: &[u32],
    graph: &Graph,
    costs: &EdgeCosts,
    d: Direction,
    j: Junction,
    distances: &mut [u32],
) -> Result<(), Refusal>
    requires { Lists (lent_graph graph.now) (lent_costs costs.now) × Places rank.now distances.old × (length rank.now ≡ count graph.now.first.now) × (j.0 < length rank.now) }
    ensures { sweep_left distances.new (fill_reply result) ≡ swept_leaves (count graph.now.first.now) (along d (distance_between (count graph.now.first.now) rank.now (lent_graph graph.now) (lent_costs costs.now)) j.0) }
{
    let s = position_of(rank, j);
    let mut reach = [NONE; 4096];
    let mut came = [0u16; 4096];
    climb(graph, costs, d, s, &mut reach, &mut came);
    sweep_down(graph, costs, d, &mut reach);
    tell(rank, &reach, distances)
}
