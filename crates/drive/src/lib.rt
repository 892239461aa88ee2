// Route after its checks: the labels of both ends are followed back from where they meet, and each edge on the way is opened into its arcs.
#![tactic(auto)]

ghost use Rattle.std.specs.Prelude.{ℕ, List, ◌-◌, ◌≤◌, ◌<◌, ◌≡◌, Ok, T, length, get_or};
ghost use Rattle.rules.specs.Replies.{route_reply};
ghost use Rattle.rules.specs.Lent.{lent_net, lent_graph, lent_costs};
ghost use Rattle.rules.specs.Refusals.{passes};
ghost use Rattle.rules.specs.Calls.{route_left, route_checks, route_leaves};
ghost use Rattle.rules.specs.Hierarchy.{linked};
ghost use Rattle.roads.specs.Roads.{ByTail, with_tails};
ghost use Rattle.unpack.specs.Opening.{ran, put, way_along, IsReady};
ghost use Rattle.drive.specs.Driving.{Given, Leads, way_place, Beside, Traced, steps, Walkable, way_over, left_after};

use distance::find_meeting;
use lists::{fill, find_edge, position_of};
use roads::Roads;
use rules::{Cost, Direction, Drive, EdgeCosts, Graph, Junction, NONE, Net, Position, Refusal};
use unpack::{Opener, Stuck, find_lows};

// The place on the way of the i-th position back from the meeting position, which has the middle place.
fn way_place(d: Direction, i: usize) -> usize
    requires { i ≤ 4095 }
    ensures { result ≡ way_place d i }
{
    match d {
        Direction::Up => 4095 - i,
        Direction::Down => 4095 + i,
    }
}

// Follows the labels back from the meeting position m to where they began, writes the positions down from the middle of the way on, toward
// its front or its back by direction, and tells the last place. Not a `for`: the next position is read, and how far it goes is known at the end.
fn trace(
    came: &[u16; 4096],
    d: Direction,
    end: Position,
    m: Position,
    way: &mut [u16; 8192],
) -> usize
    requires { (m.0 < 4096) × Leads came.now end.0 m.0 × (length way.old ≡ 8192) }
    ensures { Traced came.now d end.0 m.0 result way.new × ((j : ℕ) → Beside d j → get_or way.new j 0 ≡ get_or way.old j 0) × (length way.new ≡ 8192) }
{
    let mut p = m.0 as u16;
    let mut i = 0;
    way[4095] = p;
    while p as u32 != end.0 {
        p = came[p as usize];
        i += 1;
        way[way_place(d, i)] = p;
    }
    way_place(d, i)
}

// Drives the piece between two joined positions, from a to b.
fn drive_piece(
    opener: &Opener,
    a: Position,
    b: Position,
    at: usize,
    route: &mut [u32],
) -> Result<usize, Stuck>
    requires { IsReady opener.now × T (linked (lent_graph opener.now.graph) a.0 b.0) }
    ensures { (tails : List ℕ) → ByTail tails opener.now.net.heads.now opener.now.roads.now → ran result route.new ≡ put (way_along (with_tails (lent_net opener.now.net) tails) (lent_graph opener.now.graph) (lent_costs opener.now.costs) a.0 b.0) at route.old }
{
    let (d, low, high) = if a < b {
        (Direction::Up, a, b)
    } else {
        (Direction::Down, b, a)
    };
    let Some(k) = find_edge(&opener.graph, low, high) else {
        return Err(Stuck::Misfit);
    };
    opener.open(d, low, k, at, route)
}

// Drives the way from one place to another, piece by piece: its arcs are written from the start of the route list on. The whole way and both
// places are passed: what was traced speaks of places of the whole, and a part of it would count them anew.
fn drive_way(
    net: &Net,
    graph: &Graph,
    costs: &EdgeCosts,
    way: &[u16; 8192],
    from: usize,
    to: usize,
    route: &mut [u32],
) -> Result<usize, Stuck>
    requires { Given (lent_net net.now) (lent_graph graph.now) (lent_costs costs.now) × Walkable (lent_graph graph.now) way.now from to }
    ensures { ran result route.new ≡ put (way_over (lent_net net.now) (lent_graph graph.now) (lent_costs costs.now) (steps way.now from (to - from))) 0 route.old }
{
    let mut roads = Roads {
        at: [0; 4096],
        next: [0; 16384],
    };
    roads.thread(net.tails);
    let mut low = [4096u32; 4096];
    find_lows(graph, &mut low);
    let opener = Opener {
        net: *net,
        graph: *graph,
        costs: *costs,
        roads: &roads,
        low: &low,
    };
    let mut at = 0;
    for i in from..to {
        let a = Position(way[i] as u32);
        let b = Position(way[i + 1] as u32);
        at = drive_piece(&opener, a, b, at, route)?;
    }
    Ok(at)
}

// What route answers once a way of this distance has been driven: all other places of the route list are filled.
fn finish(
    told: Result<usize, Stuck>,
    distance: u64,
    route: &mut [u32],
) -> Result<Option<Drive>, Refusal>
    requires { (k : ℕ) → told ≡ Ok k → k ≤ length route.old }
    ensures { route_left route.new (route_reply result) ≡ left_after told distance route.old }
{
    match told {
        Ok(arcs) => {
            fill(route, arcs, Cost::CLOSED.0);
            Ok(Some(Drive { distance, arcs }))
        }
        Err(stuck) => {
            fill(route, 0, Cost::CLOSED.0);
            Err(stuck.into())
        }
    }
}

// Route over lists and a question that its checks accept: the arcs from one junction to the other in the route list, and what route answers.
pub fn route_between(
    net: &Net,
    rank: &[u32],
    graph: &Graph,
    costs: &EdgeCosts,
    from: Junction,
    to: Junction,
    route: &mut [u32],
) -> Result<Option<Drive>, Refusal>
    requires { route_checks (lent_net net.now) rank.now (lent_graph graph.now) (lent_costs costs.now) from.0 to.0 ≡ passes }
    ensures { route_left route.new (route_reply result) ≡ route_leaves (lent_net net.now) rank.now (lent_graph graph.now) (lent_costs costs.now) from.0 to.0 route.old }
{
    let s = position_of(rank, from);
    let t = position_of(rank, to);
    let mut came_up = [0u16; 4096];
    let mut came_down = [0u16; 4096];
    let met = find_meeting(graph, costs, s, t, &mut came_up, &mut came_down);
    if met.sum == NONE {
        fill(route, 0, Cost::CLOSED.0);
        return Ok(None);
    }
    let mut way = [0u16; 8192];
    let start = trace(&came_up, Direction::Up, s, met.at, &mut way);
    let end = trace(&came_down, Direction::Down, t, met.at, &mut way);
    let told = drive_way(net, graph, costs, &way, start, end, route);
    finish(told, met.sum, route)
}
