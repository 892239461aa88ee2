// A change of one arc's cost, carried up the shortcut graph: only rows from which the arc's lower end can be felt are looked at.
#![tactic(auto)]

ghost use Rattle.std.specs.Prelude.{◌+◌, ◌*◌, ◌≤◌, ◌<◌, ◌≡◌, T, length, set, replicate};
ghost use Rattle.rules.specs.Net.{net};
ghost use Rattle.rules.specs.Lent.{lent_net, lent_graph};
ghost use Rattle.rules.specs.Hierarchy.{edge_costs};
ghost use Rattle.rules.specs.Calls.{changed_costs, triangles_looked_at};
ghost use Rattle.theory.specs.Accepted.{Accepted, LawfulCost};
ghost use Rattle.theory.specs.Rows.{Lists, count};
ghost use Rattle.turns.specs.Edges.{edges_of};
ghost use Rattle.turns.specs.Waiting.{Turn};
ghost use Rattle.roads.specs.Roads.{RoadsOf};
ghost use Rattle.reconsider.specs.RowsMet.{RowsMet, AllRowsMet};
ghost use Rattle.reconsider.specs.Marks.{says};
ghost use Rattle.reconsider.specs.Reaches.{Reaches};
ghost use Rattle.look.specs.Looking.{gathered, Seats};
ghost use Rattle.change.specs.Turning.{Listed, LaidRow, Spot, SettledAt, Settled, Cleared, Noted, Stepped, ShiftIn, ScratchReady};
ghost use Rattle.change.specs.Carrying.{ShiftCarried};

use lists::position_of;
use look::{Row, look_row};
use reconsider::{begin_row, flag, mark_chain, mark_own, mark_row, reach_from};
use roads::Roads;
use rules::{Cost, EdgeCosts, Graph, Junction, Net, Position};
use turns::{Met, Waits, wait_at};

// A road that has changed, between position `lo` and the higher `hi`, in the net with its new cost, whose arcs are threaded, and its graph.
#[derive(Clone, Copy)]
struct Shift<'a> {
    net: Net<'a>,
    roads: &'a Roads,
    graph: Graph<'a>,
    lo: usize,
    hi: usize,
}

// The marked edges of one row, by their places: the first `count` of the list.
#[derive(Drop)]
struct Todo {
    places: [u32; 4096],
    count: usize,
}

impl Todo {
    // One more edge.
    fn note(&mut self, k: usize)
        requires { (self.old.count < 4096) × (k < 4294967296) }
        ensures places { self.new.places ≡ set self.old.places self.old.count k }
        ensures count { self.new.count ≡ self.old.count + 1 }
    {
        self.places[self.count] = k as u32;
        self.count += 1;
    }
}

// What the turns write beside the lists and the flags: which rows have a flagged edge, and of the row whose turn it is which edges are marked,
// by their higher ends, what is gathered for them, and which they are.
#[derive(Drop)]
struct Scratch {
    dirty: [bool; 4096],
    marks: [bool; 4096],
    row: Row,
    todo: Todo,
}

// The roads of the marked edges of the row of x, each at its edge's higher end; which edges those are is listed.
fn lay_row(shift: &Shift, marks: &[bool; 4096], row: &mut Row, todo: &mut Todo, x: usize)
    requires { Turn (lent_graph shift.now.graph) x × (length shift.now.net.order.now ≡ count shift.now.graph.first.now) × RoadsOf (lent_net shift.now.net) shift.now.roads.now × Seats (gathered row.old) × (length todo.old.places ≡ 4096) }
    ensures { LaidRow (lent_net shift.now.net) (lent_graph shift.now.graph) marks.now x (gathered row.new) todo.new.places todo.new.count }
{
    let low = Position(x as u32);
    let from = shift.graph.first[x] as usize;
    let end = shift.graph.first[x + 1] as usize;
    todo.count = 0;
    for k in from..end {
        let y = shift.graph.heads[k] as usize;
        if marks[y] {
            let high = Position(y as u32);
            row.ups[y] = shift.roads.road_cost(&shift.net, low, high).0;
            row.downs[y] = shift.roads.road_cost(&shift.net, high, low).0;
            todo.note(k);
        }
    }
}

// The edge at place k of the row of x, to y, gets the costs that stand at y, and is flagged where one differs. It is then marked no more. The
// costs stay two lists here and wherever they are written: a struct made of two `&mut` tells its maker nothing of them afterwards.
fn settle_edge(
    up: &mut [u32],
    down: &mut [u32],
    flags: &mut [u64],
    dirty: &mut [bool; 4096],
    marks: &mut [bool; 4096],
    row: &Row,
    x: usize,
    k: usize,
    y: usize,
)
    requires { Spot (edge_costs up.old down.old) (length flags.old) k y × (x < 4096) }
    ensures { SettledAt (gathered row.now) x k y (edge_costs up.old down.old) flags.old dirty.old marks.old (edge_costs up.new down.new) flags.new dirty.new marks.new }
{
    marks[y] = false;
    if up[k] != row.ups[y] || down[k] != row.downs[y] {
        up[k] = row.ups[y];
        down[k] = row.downs[y];
        flag(flags, k);
        dirty[x] = true;
    }
}

// The listed edges of the row of x, which are its marked ones, get their new costs, and are marked no more.
fn settle_row(
    graph: &Graph,
    up: &mut [u32],
    down: &mut [u32],
    flags: &mut [u64],
    dirty: &mut [bool; 4096],
    marks: &mut [bool; 4096],
    row: &Row,
    todo: &Todo,
    x: usize,
)
    requires { Lists (lent_graph graph.now) (edge_costs up.old down.old) × (x < count graph.now.first.now) × (edges_of (lent_graph graph.now) ≤ length flags.old * 64) × Listed (lent_graph graph.now) marks.old x todo.now.places todo.now.count }
    ensures settled { Settled (lent_graph graph.now) marks.old (gathered row.now) x (edge_costs up.old down.old) flags.old (edge_costs up.new down.new) flags.new }
    ensures cleared { Cleared (lent_graph graph.now) x marks.old marks.new }
    ensures noted { Noted (lent_graph graph.now) x flags.old flags.new dirty.old dirty.new }
{
    for t in 0..todo.count {
        let k = todo.places[t] as usize;
        let y = graph.heads[k] as usize;
        settle_edge(up, down, flags, dirty, marks, row, x, k, y);
    }
}

// The turn of x, in which its lower rows were met: if the change can reach it, its reconsidered edges are marked, looked at and settled. How
// many lower triangles they have, and `so_far`, is told.
fn turn(
    shift: &Shift,
    up: &mut [u32],
    down: &mut [u32],
    flags: &mut [u64],
    on: &[bool; 4096],
    met: &Met,
    scratch: &mut Scratch,
    x: usize,
    so_far: u64,
) -> u64
    requires { ShiftIn shift.now (edge_costs up.old down.old) (length flags.old) × (x < count shift.now.graph.first.now) × Reaches (lent_graph shift.now.graph) shift.now.lo on.now × RowsMet (lent_graph shift.now.graph) x met.now × (T (says on.now x) → AllRowsMet (lent_graph shift.now.graph) x met.now) × ScratchReady (lent_graph shift.now.graph) flags.old scratch.old × (so_far + 16777216 < 18446744073709551616) }
    ensures stepped { Stepped (lent_net shift.now.net) (lent_graph shift.now.graph) shift.now.lo shift.now.hi x (edge_costs up.old down.old) flags.old scratch.old.dirty (edge_costs up.new down.new) flags.new scratch.new.dirty so_far result }
    ensures ready { ScratchReady (lent_graph shift.now.graph) flags.new scratch.new }
{
    if !on[x] {
        return so_far;
    }
    let graph = &shift.graph;
    let Scratch {
        dirty,
        marks,
        row,
        todo,
    } = scratch;
    mark_own(marks, x, shift.lo, shift.hi);
    mark_row(graph, flags, dirty, met, marks, x);
    lay_row(shift, marks, row, todo, x);
    if todo.count == 0 {
        return so_far;
    }
    let costs = EdgeCosts {
        up: &*up,
        down: &*down,
    };
    let seen = look_row(graph, &costs, met, marks, row, x, so_far);
    settle_row(graph, up, down, flags, dirty, marks, row, todo, x);
    seen
}

// The change carried from the lowest position up to the highest that it can reach: how many lower triangles of reconsidered edges there are.
fn carry(shift: &Shift, up: &mut [u32], down: &mut [u32], flags: &mut [u64]) -> u64
    requires { ShiftIn shift.now (edge_costs up.old down.old) (length flags.old) × (flags.old ≡ replicate (length flags.old) 0) }
    ensures { ShiftCarried shift.now (edge_costs up.old down.old) (edge_costs up.new down.new) result }
{
    // A copy of its own, whose lists' places the compiler keeps at hand; behind the reference it reads them again at each use.
    let own = *shift;
    let graph = &own.graph;
    let mut waits = Waits::new();
    let mut met = Met::new();
    let mut on = [false; 4096];
    let mut scratch = Scratch {
        dirty: [false; 4096],
        marks: [false; 4096],
        row: Row {
            ups: [0; 4096],
            downs: [0; 4096],
        },
        todo: Todo {
            places: [0; 4096],
            count: 0,
        },
    };
    mark_chain(graph, &mut on, shift.lo);
    let mut reach = shift.lo;
    let mut seen = 0;
    let mut x = 0;
    // Not a `for`: each turn may move the end.
    while x <= reach {
        waits.gather_row(graph, &mut met, x);
        seen = turn(&own, up, down, flags, &on, &met, &mut scratch, x, seen);
        reach = reach_from(graph, &scratch.dirty, reach, x);
        let i = wait_at(graph, x, begin_row(graph, &on, x));
        waits.queue_row(graph, x, i);
        x += 1;
    }
    seen
}

// The same with W words of flags, each for 64 edges: never inlined, so that only a call that needs many has many on its stack.
#[inline(never)]
fn carry_sized<const W: usize>(shift: &Shift, up: &mut [u32], down: &mut [u32]) -> u64
    requires { ShiftIn shift.now (edge_costs up.old down.old) W × (W ≤ 131072) }
    ensures { ShiftCarried shift.now (edge_costs up.old down.old) (edge_costs up.new down.new) result }
{
    let mut flags = [0u64; W];
    carry(shift, up, down, &mut flags)
}

// The same with as many flags as the edges need: 65,536 of them, or those of any graph of at most 4,096 positions.
fn carry_all(shift: &Shift, up: &mut [u32], down: &mut [u32]) -> u64
    requires { ShiftIn shift.now (edge_costs up.old down.old) 131072 }
    ensures { ShiftCarried shift.now (edge_costs up.old down.old) (edge_costs up.new down.new) result }
{
    if shift.graph.first[shift.net.order.len()] <= 65536 {
        return carry_sized::<1024>(shift, up, down);
    }
    carry_sized::<131072>(shift, up, down)
}

// A new cost of an arc, written into the cost list, and the shortcut costs with it: how many lower triangles were looked at.
pub fn change_costs(
    tails: &[u32],
    heads: &[u32],
    costs: &mut [u32],
    order: &[u32],
    rank: &[u32],
    graph: &Graph,
    up: &mut [u32],
    down: &mut [u32],
    arc: usize,
    cost: Cost,
) -> u64
    requires { Accepted (net tails.now heads.now costs.old order.now) rank.now (lent_graph graph.now) (edge_costs up.old down.old) × (arc < length tails.now) × LawfulCost cost.0 }
    ensures listed { costs.new ≡ set costs.old arc cost.0 }
    ensures changed { edge_costs up.new down.new ≡ changed_costs (net tails.now heads.now costs.old order.now) (lent_graph graph.now) (edge_costs up.old down.old) arc cost.0 }
    ensures counted { result ≡ triangles_looked_at (net tails.now heads.now costs.old order.now) (lent_graph graph.now) (edge_costs up.old down.old) arc cost.0 }
{
    let a = position_of(rank, Junction(tails[arc]));
    let b = position_of(rank, Junction(heads[arc]));
    if a == b {
        costs[arc] = cost.0;
        return 0;
    }
    let mut roads = Roads {
        at: [0; 4096],
        next: [0; 16384],
    };
    roads.thread(tails);
    let was = Net {
        tails,
        heads,
        costs: &*costs,
        order,
    };
    let before = roads.road_cost(&was, a, b);
    costs[arc] = cost.0;
    let is = Net {
        tails,
        heads,
        costs: &*costs,
        order,
    };
    let after = roads.road_cost(&is, a, b);
    if before == after {
        return 0;
    }
    let shift = Shift {
        net: is,
        roads: &roads,
        graph: *graph,
        lo: a.0.min(b.0) as usize,
        hi: a.0.max(b.0) as usize,
    };
    carry_all(&shift, up, down)
}
