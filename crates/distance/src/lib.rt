// Labels along the chains of parents above a start and a target, and where they meet.
#![tactic(auto)]

ghost use Rattle.std.specs.Prelude.{ℕ, ◌≤◌, ◌+◌, ◌<◌, ◌≡◌, length, get_or, replicate};
ghost use Rattle.rules.specs.Costs.{closed, none, label_over};
ghost use Rattle.rules.specs.Hierarchy.{linked, held, along};
ghost use Rattle.rules.specs.Lent.{lent_graph, lent_costs};
ghost use Rattle.rules.specs.Calls.{listed_distance};
ghost use Rattle.theory.specs.Rows.{count, Lists};
ghost use Rattle.distance.specs.Labelled.{Climbed, OfferedTo, RowOf, HandedOn, Offered, sums_at, Chained, Met, MetBetween};

use lists::row_costs;
use rules::{Cost, Direction, EdgeCosts, Graph, NONE, Position};

// The distance, or the number for none, and the meeting position. The sum is no Option: while labels are compared, none is the greatest number.
#[derive(Clone, Copy)]
pub struct Meeting {
    pub sum: u64,
    pub at: Position,
}

// Offers position p the label of position q with an edge's cost added: only a smaller one is taken, and CLOSED gives none.
// Labels are plain numbers with NONE for none, as Options would take twice the memory of the stack.
// Labels and where they came from are two lists, as the compiler leaves out a list that nobody reads, but no such part of a struct.
fn offer(
    labels: &mut [u64; 4096],
    came: &mut [u16; 4096],
    q: Position,
    mine: u64,
    p: Position,
    cost: Cost,
)
    requires { (q.0 < 4096) × (p.0 < 4096) × (mine + closed < none) }
    ensures { OfferedTo p.0 q.0 (label_over mine cost.0) labels.old came.old labels.new came.new }
{
    let to = p.0 as usize;
    let sum = cost.over_label(mine);
    if sum < labels[to] {
        labels[to] = sum;
        came[to] = q.0 as u16;
    }
}

// Hands the label of position q on along the edges of its row, given the row and its costs: without a label there is nothing to hand on.
fn hand_on(
    row: &[u32],
    costs: &[u32],
    q: Position,
    labels: &mut [u64; 4096],
    came: &mut [u16; 4096],
)
    requires { RowOf q.0 row.now costs.now labels.old }
    ensures { HandedOn q.0 (get_or labels.old q.0 0) row.now costs.now (length row.now) labels.old came.old labels.new came.new }
{
    let mine = labels[q.0 as usize];
    if mine == NONE {
        return;
    }
    for (i, &p) in row.iter().enumerate() {
        offer(labels, came, q, mine, Position(p), Cost(costs[i]));
    }
}

// The labels from s along its chain of parents, with up costs or with down costs, and for each the lowest position that it came from.
// A `loop`: the chain of parents is walked along, each row tells the next, and nothing is counted.
pub fn climb(
    graph: &Graph,
    costs: &EdgeCosts,
    d: Direction,
    s: Position,
    labels: &mut [u64; 4096],
    came: &mut [u16; 4096],
)
    requires { Lists (lent_graph graph.now) (lent_costs costs.now) × (s.0 < count graph.now.first.now) × (labels.old ≡ replicate 4096 none) }
    ensures { Climbed (count graph.now.first.now) (linked (lent_graph graph.now)) (along d (held (lent_graph graph.now) (lent_costs costs.now))) s.0 labels.new came.new }
{
    labels[s.0 as usize] = 0;
    let mut q = s;
    'chain: loop {
        let places = graph.places(q.0 as usize);
        let row = &graph.heads[places.start..places.end];
        let listed = row_costs(costs.up, costs.down, d, places.start, places.end);
        let Some(&parent) = row.first() else {
            return;
        };
        hand_on(row, listed, q, labels, came);
        q = Position(parent);
    }
}

// Looks at position p: a smaller sum of both labels than the best so far is taken, and there is none if p lacks one of them.
fn look(a: &[u64; 4096], b: &[u64; 4096], p: Position, best: Meeting) -> Meeting
    requires { p.0 < 4096 }
    ensures { Offered p.0 (sums_at a.now b.now p.0) best.sum best.at.0 result.sum result.at.0 }
{
    let i = p.0 as usize;
    let sum = a[i].saturating_add(b[i]);
    if sum < best.sum {
        return Meeting { sum, at: p };
    }
    best
}

// The least sum of both labels at one position, and the lowest position that has it: only the chain of parents above the target is looked at.
// A `loop`, as in `climb`.
fn meet(graph: &Graph, a: &[u64; 4096], b: &[u64; 4096], t: Position) -> Meeting
    requires { Chained (lent_graph graph.now) t.0 b.now }
    ensures { Met (count graph.now.first.now) a.now b.now result.sum result.at.0 }
{
    let mut p = t;
    let mut best = Meeting { sum: NONE, at: t };
    'chain: loop {
        best = look(a, b, p, best);
        let places = graph.places(p.0 as usize);
        let Some(&parent) = graph.heads[places.start..places.end].first() else {
            return best;
        };
        p = Position(parent);
    }
}

// Where the labels from s and from t meet, whatever the cost lists hold, and where each label came from: up from both ends. Only where it is
// put in place of its calls does the compiler see that nobody reads the lists that `ask` lends it, and leaves them out.
#[inline(always)]
pub fn find_meeting(
    graph: &Graph,
    costs: &EdgeCosts,
    s: Position,
    t: Position,
    came_up: &mut [u16; 4096],
    came_down: &mut [u16; 4096],
) -> Meeting
    requires { Lists (lent_graph graph.now) (lent_costs costs.now) × (s.0 < count graph.now.first.now) × (t.0 < count graph.now.first.now) × (length came_up.old ≡ 4096) × (length came_down.old ≡ 4096) }
    ensures { MetBetween (lent_graph graph.now) (lent_costs costs.now) s.0 t.0 result.sum result.at.0 came_up.new came_down.new }
{
    let mut from_start = [NONE; 4096];
    let mut from_target = [NONE; 4096];
    climb(graph, costs, Direction::Up, s, &mut from_start, came_up);
    climb(
        graph,
        costs,
        Direction::Down,
        t,
        &mut from_target,
        came_down,
    );
    meet(graph, &from_start, &from_target, t)
}

// The distance between two positions, whatever the cost lists hold: as above, but nobody asks where a label came from.
// NONE for none, as the definition listed_distance has it: the public call turns it into an Option.
pub fn ask(graph: &Graph, costs: &EdgeCosts, s: Position, t: Position) -> u64
    requires { Lists (lent_graph graph.now) (lent_costs costs.now) × (s.0 < count graph.now.first.now) × (t.0 < count graph.now.first.now) }
    ensures { result ≡ listed_distance (count graph.now.first.now) (lent_graph graph.now) (lent_costs costs.now) s.0 t.0 }
{
    let mut came_up = [0u16; 4096];
    let mut came_down = [0u16; 4096];
    find_meeting(graph, costs, s, t, &mut came_up, &mut came_down).sum
}
