// The public calls. Any lists may come in: each call checks what it gets, in the paper's order, and then does the work.
// Each promise is one equation: what the call leaves, reply and every lent list, is the definition at what it got.
// Each list is a parameter of its own, and each sweep a call of its own, as C lends and calls them; inside they go together as Net, Graph, EdgeCosts.
#![tactic(auto)]

ghost use Rattle.std.specs.Prelude.{◌≡◌};
ghost use Rattle.rules.specs.Net.{net};
ghost use Rattle.rules.specs.Replies.{build_reply, fill_reply, change_reply, distance_reply, route_reply};
ghost use Rattle.rules.specs.Calls.{build_left, build_leaves, customise_left, customise_leaves, change_left, change_leaves, distance_left, distance_leaves, sweep_left, sweep_leaves, route_left, route_leaves};
ghost use Rattle.rules.specs.Graph.{graph};
ghost use Rattle.rules.specs.Hierarchy.{edge_costs};
ghost use Rattle.rules.specs.declared.Direction.TheVariants.{Up, Down};

use change::change_costs;
use checks::{
    check_build, check_change, check_customise, check_distance, check_route, check_sweep,
};
use customise::customise_costs;
use distance::ask;
use drive::route_between;
use graph::contract;
use lists::{fill, fill_rank, position_of};
use rules::{Cost, Direction, Drive, EdgeCosts, Graph, Junction, NONE, Net, Refusal};
use sweep::sweep_by;

// Roads and order to the shortcut graph: rank, first and row_heads are filled, and E is told.
pub fn build(
    tails: &[u32],
    heads: &[u32],
    order: &[u32],
    rank: &mut [u32],
    first: &mut [u32],
    row_heads: &mut [u32],
) -> Result<usize, Refusal>
    ensures { build_left rank.new (graph first.new row_heads.new) (build_reply result) ≡ build_leaves tails.now heads.now order.now rank.old (graph first.old row_heads.old) }
{
    check_build(tails, heads, order, rank, first)?;
    fill_rank(order, rank);
    let Some(e) = contract(tails, heads, order, rank, first, row_heads) else {
        fill(rank, 0, 0);
        return Err(Refusal::HeadsRoom);
    };
    Ok(e)
}

// Costs to shortcut costs: up and down are filled, each to its own end.
pub fn customise(
    tails: &[u32],
    heads: &[u32],
    costs: &[u32],
    order: &[u32],
    rank: &[u32],
    first: &[u32],
    row_heads: &[u32],
    up: &mut [u32],
    down: &mut [u32],
) -> Result<(), Refusal>
    ensures { customise_left (edge_costs up.new down.new) (fill_reply result) ≡ customise_leaves (net tails.now heads.now costs.now order.now) rank.now (graph first.now row_heads.now) (edge_costs up.old down.old) }
{
    let net = Net {
        tails,
        heads,
        costs,
        order,
    };
    let graph = Graph {
        first,
        heads: row_heads,
    };
    check_customise(
        &net,
        rank,
        &graph,
        &EdgeCosts {
            up: &*up,
            down: &*down,
        },
    )?;
    customise_costs(&net, rank, &graph, up, down);
    Ok(())
}

// A new cost of one arc: the cost list and the shortcut costs change together or not at all. How many lower triangles were looked at is told.
pub fn change(
    tails: &[u32],
    heads: &[u32],
    costs: &mut [u32],
    order: &[u32],
    rank: &[u32],
    first: &[u32],
    row_heads: &[u32],
    up: &mut [u32],
    down: &mut [u32],
    arc: usize,
    cost: Cost,
) -> Result<u64, Refusal>
    ensures { change_left costs.new (edge_costs up.new down.new) (change_reply result) ≡ change_leaves (net tails.now heads.now costs.old order.now) rank.now (graph first.now row_heads.now) (edge_costs up.old down.old) arc cost.0 }
{
    let graph = Graph {
        first,
        heads: row_heads,
    };
    check_change(
        &Net {
            tails,
            heads,
            costs: &*costs,
            order,
        },
        rank,
        &graph,
        &EdgeCosts {
            up: &*up,
            down: &*down,
        },
        arc,
        cost,
    )?;
    Ok(change_costs(
        tails, heads, costs, order, rank, &graph, up, down, arc, cost,
    ))
}

// The distance between two junctions, by the lists as they are.
pub fn distance<'a>(
    order: &[u32],
    rank: &[u32],
    first: &[u32],
    row_heads: &[u32],
    up: &'a [u32],
    down: &'a [u32],
    from: Junction,
    to: Junction,
) -> Result<Option<u64>, Refusal>
    ensures { distance_left (distance_reply result) ≡ distance_leaves order.now rank.now (graph first.now row_heads.now) (edge_costs up.now down.now) from.0 to.0 }
{
    let graph = Graph {
        first,
        heads: row_heads,
    };
    let costs = EdgeCosts { up, down };
    check_distance(order, rank, &graph, &costs, from, to)?;
    let s = position_of(rank, from);
    let t = position_of(rank, to);
    let d = ask(&graph, &costs, s, t);
    if d == NONE {
        return Ok(None);
    }
    Ok(Some(d))
}

// Both sweeps: the distances from a junction, or, for the other direction, to it, by the lists as they are.
fn sweep<'a>(
    order: &[u32],
    rank: &[u32],
    first: &[u32],
    row_heads: &[u32],
    up: &'a [u32],
    down: &'a [u32],
    d: Direction,
    j: Junction,
    distances: &mut [u32],
) -> Result<(), Refusal>
    ensures { sweep_left distances.new (fill_reply result) ≡ sweep_leaves order.now rank.now (graph first.now row_heads.now) (edge_costs up.now down.now) d j.0 distances.old }
{
    let graph = Graph {
        first,
        heads: row_heads,
    };
    let costs = EdgeCosts { up, down };
    check_sweep(order, rank, &graph, &costs, j, distances)?;
    sweep_by(rank, &graph, &costs, d, j, distances)
}

// The distance from one junction to every junction, written into the list: from the dairy to every farm.
pub fn sweep_from<'a>(
    order: &[u32],
    rank: &[u32],
    first: &[u32],
    row_heads: &[u32],
    up: &'a [u32],
    down: &'a [u32],
    from: Junction,
    distances: &mut [u32],
) -> Result<(), Refusal>
    ensures { sweep_left distances.new (fill_reply result) ≡ sweep_leaves order.now rank.now (graph first.now row_heads.now) (edge_costs up.now down.now) Up from.0 distances.old }
{
    sweep(
        order,
        rank,
        first,
        row_heads,
        up,
        down,
        Direction::Up,
        from,
        distances,
    )
}

// The distance from every junction to one, written into the list: from every farm to the dairy.
pub fn sweep_to<'a>(
    order: &[u32],
    rank: &[u32],
    first: &[u32],
    row_heads: &[u32],
    up: &'a [u32],
    down: &'a [u32],
    to: Junction,
    distances: &mut [u32],
) -> Result<(), Refusal>
    ensures { sweep_left distances.new (fill_reply result) ≡ sweep_leaves order.now rank.now (graph first.now row_heads.now) (edge_costs up.now down.now) Down to.0 distances.old }
{
    sweep(
        order,
        rank,
        first,
        row_heads,
        up,
        down,
        Direction::Down,
        to,
        distances,
    )
}

// The distance between two junctions, and the arcs of the route in driving order, written into the list.
pub fn route<'a>(
    tails: &[u32],
    heads: &[u32],
    costs: &[u32],
    order: &[u32],
    rank: &[u32],
    first: &[u32],
    row_heads: &[u32],
    up: &'a [u32],
    down: &'a [u32],
    from: Junction,
    to: Junction,
    list: &mut [u32],
) -> Result<Option<Drive>, Refusal>
    ensures { route_left list.new (route_reply result) ≡ route_leaves (net tails.now heads.now costs.now order.now) rank.now (graph first.now row_heads.now) (edge_costs up.now down.now) from.0 to.0 list.old }
{
    let net = Net {
        tails,
        heads,
        costs,
        order,
    };
    let graph = Graph {
        first,
        heads: row_heads,
    };
    let edge_costs = EdgeCosts { up, down };
    check_route(&net, rank, &graph, &edge_costs, from, to)?;
    route_between(&net, rank, &graph, &edge_costs, from, to, list)
}
