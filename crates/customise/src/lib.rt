// Arc costs onto the shortcut graph, then lower triangles, for any hierarchy that the checks accept.
#![tactic(auto)]

ghost use Rattle.std.specs.Prelude.{◌+◌, ◌<◌, ◌≡◌, length, get_or};
ghost use Rattle.rules.specs.Hierarchy.{edge_costs};
ghost use Rattle.rules.specs.Lent.{lent_net, lent_graph, lent_costs};
ghost use Rattle.rules.specs.Calls.{customised_costs};
ghost use Rattle.theory.specs.Accepted.{Accepted};
ghost use Rattle.theory.specs.Rows.{Lists, count};
ghost use Rattle.turns.specs.Edges.{at_most};
ghost use Rattle.turns.specs.Waiting.{Turn, SameBelow, Waiting, PassedBelow};
ghost use Rattle.customise.specs.Edges.{Edge, laid_on, ArcFits, laid};
ghost use Rattle.customise.specs.Turns.{Within, across, lowered, Beside, Crossed, Spread, Turned};

use lists::{find_edge, position_of};
use rules::{Cost, EdgeCosts, Graph, Junction, Net, Position};
use turns::Waits;

// The cost from x to y into the list of one direction, at the place of their edge, where x is below y.
fn lay_cost(graph: &Graph, list: &mut [u32], x: Position, y: Position, cost: Cost)
    requires { Edge (lent_graph graph.now) (length list.old) x.0 y.0 }
    ensures { list.new ≡ laid_on (lent_graph graph.now) list.old x.0 y.0 cost.0 }
{
    if y <= x {
        return;
    }
    let Some(k) = find_edge(graph, x, y) else {
        return;
    };
    list[k] = cost.0;
}

// The cost of an arc onto its edge, in the arc's direction: what an earlier arc between the same ends left there is replaced.
// The two lists of costs are passed side by side: a struct of both, made of two borrows here, would tell nothing of them afterwards.
fn lay_arc(
    rank: &[u32],
    graph: &Graph,
    up: &mut [u32],
    down: &mut [u32],
    tail: Junction,
    head: Junction,
    cost: Cost,
)
    requires { Lists (lent_graph graph.now) (edge_costs up.old down.old) × ArcFits rank.now (lent_graph graph.now) tail.0 head.0 }
    ensures { edge_costs up.new down.new ≡ laid rank.now (lent_graph graph.now) tail.0 head.0 cost.0 (edge_costs up.old down.old) }
{
    let x = position_of(rank, tail);
    let y = position_of(rank, head);
    lay_cost(graph, up, x, y, cost);
    lay_cost(graph, down, y, x, cost);
}

// The row of x spread out: at each position that it holds, the place of the edge there; what stands at lower positions stays.
fn spread_row(graph: &Graph, places: &mut [u32; 4096], x: usize)
    requires { Turn (lent_graph graph.now) x }
    ensures { Spread (lent_graph graph.now) x places.new × SameBelow x places.old places.new }
{
    for k in graph.places(x) {
        let y = graph.heads[k] as usize;
        places[y] = k as u32;
    }
}

// The cost of the way from the neighbour at place a of a row over the row's position to the neighbour at place b.
fn across(costs: &EdgeCosts, a: usize, b: usize) -> Cost
    requires { (a < length costs.now.down.now) × (b < length costs.now.up.now) }
    ensures { result.0 ≡ across (lent_costs costs.now) a b }
{
    Cost::sum(Cost(costs.down[a]), Cost(costs.up[b]))
}

// The cost at place k becomes no more than that of a way.
fn lower_cost(list: &mut [u32], k: usize, way: Cost)
    requires { k < length list.old }
    ensures { list.new ≡ at_most list.old k way.0 }
{
    list[k] = Cost::least(Cost(list[k]), way).0;
}

// One lower triangle: the edge at place k, between the neighbours at places i and j of a row, costs no more than the way over the row's position.
fn lower_edge(up: &mut [u32], down: &mut [u32], i: usize, j: usize, k: usize)
    requires { Within (edge_costs up.old down.old) i × Within (edge_costs up.old down.old) j × Within (edge_costs up.old down.old) k }
    ensures { edge_costs up.new down.new ≡ lowered i j k (edge_costs up.old down.old) }
{
    let costs = EdgeCosts {
        up: &*up,
        down: &*down,
    };
    let rising = across(&costs, i, j);
    let falling = across(&costs, j, i);
    lower_cost(up, k, rising);
    lower_cost(down, k, falling);
}

// The triangles of z with its neighbour x at place i and each higher one: the row of x is spread out, so no edge is looked for.
fn lower_over(
    graph: &Graph,
    up: &mut [u32],
    down: &mut [u32],
    places: &[u32; 4096],
    z: usize,
    i: usize,
)
    requires { Beside (lent_graph graph.now) (edge_costs up.old down.old) z i × Spread (lent_graph graph.now) (get_or graph.now.heads.now i 0) places.now }
    ensures { Crossed (lent_graph graph.now) i (get_or graph.now.first.now (z + 1) 0) (edge_costs up.old down.old) (edge_costs up.new down.new) }
{
    let end = graph.first[z + 1] as usize;
    for j in i + 1..end {
        let y = graph.heads[j] as usize;
        lower_edge(up, down, i, j, places[y] as usize);
    }
}

// The turn of x: each lower row that waits for x goes on to wait for its next entry, and its triangles with x are taken.
fn lower_row(graph: &Graph, up: &mut [u32], down: &mut [u32], waits: &mut Waits, x: usize)
    requires lists { Lists (lent_graph graph.now) (edge_costs up.old down.old) }
    requires within { x < count graph.now.first.now }
    requires spread { Spread (lent_graph graph.now) x waits.old.places }
    requires waits { Waiting (lent_graph graph.now) x (get_or waits.old.links x 0) waits.old.links waits.old.places }
    requires passed { PassedBelow (lent_graph graph.now) x x waits.old.places }
    ensures turned { Turned (lent_graph graph.now) x (edge_costs up.old down.old) (x + 1) (edge_costs up.new down.new) }
    ensures waits { Waiting (lent_graph graph.now) x 0 waits.new.links waits.new.places }
    ensures passed { PassedBelow (lent_graph graph.now) x (x + 1) waits.new.places }
{
    // A walk: each place tells the next, nothing is counted.
    let mut k = waits.links[x] as usize;
    while 0 < k {
        let z = k - 1;
        let i = waits.places[z] as usize;
        k = waits.links[z] as usize;
        waits.queue_row(graph, z, i + 1);
        lower_over(graph, up, down, &waits.places, z, i);
    }
}

// The turns of all positions, from the lowest up: the costs of all lower rows are final then.
// In the turn of x the places have, above x, the place of the edge from x: no row that waits has its own there.
fn lower_all(n: usize, graph: &Graph, up: &mut [u32], down: &mut [u32])
    requires { Lists (lent_graph graph.now) (edge_costs up.old down.old) × (n ≡ count graph.now.first.now) }
    ensures { Turned (lent_graph graph.now) 0 (edge_costs up.old down.old) n (edge_costs up.new down.new) }
{
    let mut waits = Waits::new();
    for x in 0..n {
        spread_row(graph, &mut waits.places, x);
        lower_row(graph, up, down, &mut waits, x);
        waits.queue_row(graph, x, graph.first[x] as usize);
    }
}

// The customised costs, written into up and down: arcs onto their edges, then each position's lower triangles, from the lowest position up.
pub fn customise_costs(net: &Net, rank: &[u32], graph: &Graph, up: &mut [u32], down: &mut [u32])
    requires { Accepted (lent_net net.now) rank.now (lent_graph graph.now) (edge_costs up.old down.old) }
    ensures { edge_costs up.new down.new ≡ customised_costs (lent_net net.now) (lent_graph graph.now) (edge_costs up.old down.old) }
{
    up.fill(Cost::CLOSED.0);
    down.fill(Cost::CLOSED.0);
    for (m, &tail) in net.tails.iter().enumerate() {
        lay_arc(
            rank,
            graph,
            up,
            down,
            Junction(tail),
            Junction(net.heads[m]),
            Cost(net.costs[m]),
        );
    }
    lower_all(net.order.len(), graph, up, down);
}
