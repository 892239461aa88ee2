// All the checks of each call, in the paper's order, and the check of the arcs' edges. Each answers the paper's verdict on its lists.
// Rank list, net, graph and costs stay apart: distance and sweeps get no net, build no costs, and customise writes the costs.
#![tactic(auto)]

ghost use Rattle.std.specs.Prelude.{ℕ, ◌<◌, ◌≡◌, not, ◌&&◌, eqb, List, ◌∷◌, [], length, get_or};
ghost use Rattle.rules.specs.Lent.{lent_net, lent_graph, lent_costs};
ghost use Rattle.rules.specs.Hierarchy.{linked};
ghost use Rattle.rules.specs.Refusals.{first_failure, check1, check2, check3, check8};
ghost use Rattle.rules.specs.Calls.{build_checks, customise_checks, change_checks, distance_checks, sweep_checks, route_checks};
ghost use Rattle.lists.specs.Lent.{verdict};
ghost use Rattle.checks.specs.Edges.{Arcs, Seated};

use hierarchy::check_graph;
use lists::{
    check_arc_lists, check_arc_number, check_cost_lists, check_costs, check_distances, check_ends,
    check_junctions, check_new_cost, check_order, check_question, check_rooms, find_edge,
    position_of,
};
use rules::{Cost, EdgeCosts, Graph, Junction, Net, Refusal};

// An arc has unequal ends, and no edge joins the positions at which they stand: the row of the lower lacks the higher.
fn lacks_edge(rank: &[u32], graph: &Graph, tail: Junction, head: Junction) -> bool
    requires { Seated rank.now (lent_graph graph.now) × (tail.0 < length rank.now) × (head.0 < length rank.now) }
    ensures { result ≡ (not (eqb tail.0 head.0) && not (linked (lent_graph graph.now) (get_or rank.now tail.0 0) (get_or rank.now head.0 0))) }
{
    let a = position_of(rank, tail);
    let b = position_of(rank, head);
    tail != head && find_edge(graph, a.min(b), a.max(b)).is_none()
}

// 8: every arc with unequal ends has an edge.
fn check_edges(net: &Net, rank: &[u32], graph: &Graph) -> Result<(), Refusal>
    requires { Arcs (lent_net net.now) rank.now (lent_graph graph.now) }
    ensures { verdict result ≡ check8 net.now.tails.now net.now.heads.now rank.now (lent_graph graph.now) }
{
    for (i, &tail) in net.tails.iter().enumerate() {
        if lacks_edge(rank, graph, Junction(tail), Junction(net.heads[i])) {
            return Err(Refusal::ArcWithoutEdge(i));
        }
    }
    Ok(())
}

// 1, 2 and 3, the checks of arcs: `lengths` has the length of heads, and of the costs where there are some.
#[tactic(auto, using(crate::proofs::Arcs::same_long))]
fn check_arcs(n: usize, tails: &[u32], heads: &[u32], lengths: &[usize]) -> Result<(), Refusal>
    requires { (costs : List ℕ) × (lengths.now ≡ length heads.now ∷ costs) }
    ensures { verdict result ≡ first_failure (check1 n ∷ check2 (length tails.now) lengths.now ∷ check3 n tails.now heads.now ∷ []) }
{
    check_junctions(n)?;
    check_arc_lists(tails.len(), lengths)?;
    check_ends(n, tails, heads)
}

// All of build's checks but 6, in the paper's order. The lists come one by one and not as a net, as build gets no costs.
#[tactic(auto, unfolding(rules::specs::Calls::build_checks))]
pub fn check_build(
    tails: &[u32],
    heads: &[u32],
    order: &[u32],
    rank: &[u32],
    first: &[u32],
) -> Result<(), Refusal>
    ensures { verdict result ≡ build_checks tails.now heads.now order.now rank.now first.now }
{
    let n = order.len();
    check_arcs(n, tails, heads, &[heads.len()])?;
    check_order(order)?;
    check_rooms(n, rank, first)
}

// All of customise's checks, in the paper's order.
#[tactic(auto, using(crate::proofs::Arcs::few, theory::proofs::CheckGroups::customise_groups, hierarchy::proofs::IsHierarchy::graph_long))]
pub fn check_customise(
    net: &Net,
    rank: &[u32],
    graph: &Graph,
    costs: &EdgeCosts,
) -> Result<(), Refusal>
    ensures { verdict result ≡ customise_checks (lent_net net.now) rank.now (lent_graph graph.now) (lent_costs costs.now) }
{
    let n = net.order.len();
    check_arcs(n, net.tails, net.heads, &[net.heads.len(), net.costs.len()])?;
    check_graph(net.order, rank, graph)?;
    check_edges(net, rank, graph)?;
    check_costs(net.costs)?;
    check_cost_lists(graph.first[n] as usize, costs)
}

// All of change's checks: customise's, and then those of the arc's number and of its new cost.
#[tactic(auto, unfolding(rules::specs::Calls::change_checks))]
pub fn check_change(
    net: &Net,
    rank: &[u32],
    graph: &Graph,
    costs: &EdgeCosts,
    arc: usize,
    cost: Cost,
) -> Result<(), Refusal>
    ensures { verdict result ≡ change_checks (lent_net net.now) rank.now (lent_graph graph.now) (lent_costs costs.now) arc cost.0 }
{
    check_customise(net, rank, graph, costs)?;
    check_arc_number(net.tails.len(), arc)?;
    check_new_cost(arc, cost)
}

// All of distance's checks, in the paper's order. Order and rank stay two lists: elsewhere the order is the net's, and build writes the rank.
#[tactic(auto, using(hierarchy::proofs::IsHierarchy::graph_long), unfolding(rules::specs::Calls::distance_checks))]
pub fn check_distance(
    order: &[u32],
    rank: &[u32],
    graph: &Graph,
    costs: &EdgeCosts,
    from: Junction,
    to: Junction,
) -> Result<(), Refusal>
    ensures { verdict result ≡ distance_checks order.now rank.now (lent_graph graph.now) (lent_costs costs.now) from.0 to.0 }
{
    let n = order.len();
    check_junctions(n)?;
    check_graph(order, rank, graph)?;
    check_cost_lists(graph.first[n] as usize, costs)?;
    check_question(n, from, to)
}

// All of a sweep's checks but 16: distance's, of the one junction, and then 15.
#[tactic(auto, unfolding(rules::specs::Calls::sweep_checks))]
pub fn check_sweep(
    order: &[u32],
    rank: &[u32],
    graph: &Graph,
    costs: &EdgeCosts,
    j: Junction,
    distances: &[u32],
) -> Result<(), Refusal>
    ensures { verdict result ≡ sweep_checks order.now rank.now (lent_graph graph.now) (lent_costs costs.now) j.0 distances.now }
{
    check_distance(order, rank, graph, costs, j, j)?;
    check_distances(order.len(), distances)
}

// All of route's checks but 12 and 13: customise's, and then 11.
#[tactic(auto, unfolding(rules::specs::Calls::route_checks))]
pub fn check_route(
    net: &Net,
    rank: &[u32],
    graph: &Graph,
    costs: &EdgeCosts,
    from: Junction,
    to: Junction,
) -> Result<(), Refusal>
    ensures { verdict result ≡ route_checks (lent_net net.now) rank.now (lent_graph graph.now) (lent_costs costs.now) from.0 to.0 }
{
    check_customise(net, rank, graph, costs)?;
    check_question(net.order.len(), from, to)
}
