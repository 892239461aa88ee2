// The lower triangles of the edges of one row that are reconsidered: each is looked at once, and counted.
#![tactic(auto)]

ghost use Rattle.std.specs.Prelude.{◌+◌, ◌≤◌, ◌<◌, ◌≡◌, length, get_or};
ghost use Rattle.rules.specs.Lent.{lent_graph, lent_costs};
ghost use Rattle.rules.specs.Costs.{sum_of, least_of};
ghost use Rattle.theory.specs.Rows.{InRow, Lists, count};
ghost use Rattle.turns.specs.Edges.{Stretch};
ghost use Rattle.reconsider.specs.RowsMet.{RowsMet, AllRowsMet};
ghost use Rattle.look.specs.Looking.{gathered, Seats, Costed, taken, Looked, LookedRow};

use rules::{Cost, EdgeCosts, Graph};
use turns::Met;

// What is gathered for the edges of one row: of each at its higher end, what it costs up, and down: two lists, as EdgeCosts has them.
#[derive(Drop)]
pub struct Row {
    pub ups: [u32; 4096],
    pub downs: [u32; 4096],
}

// What the edge costs over which the triangles go from a lower row: up from the row's position, and down to it.
#[derive(Clone, Copy)]
struct Leg {
    rise: Cost,
    fall: Cost,
}

// The lesser of a cost that stands and the sum of two: as 64-bit numbers, so that no sum wraps round, in place of the sum that is CLOSED at
// most, which takes a comparison more. What stands is CLOSED at most, and so is the lesser.
fn lesser_sum(standing: Cost, a: Cost, b: Cost) -> Cost
    ensures { result ≡ least_of standing (sum_of a b) }
{
    let sum = a.0 as u64 + b.0 as u64;
    if sum < standing.0 as u64 {
        return Cost(sum as u32);
    }
    standing
}

// The lower triangle of the edge from x to y over the position in whose row x stands, by the edge to it that is read already, and y at place j.
fn look_at(costs: &EdgeCosts, row: &mut Row, leg: Leg, j: usize, y: usize)
    requires { (j < length costs.now.up.now) × (j < length costs.now.down.now) × (y < 4096) }
    ensures { gathered row.new ≡ taken (lent_costs costs.now) leg.rise.0 leg.fall.0 j y (gathered row.old) }
{
    row.ups[y] = lesser_sum(Cost(row.ups[y]), leg.fall, Cost(costs.up[j])).0;
    row.downs[y] = lesser_sum(Cost(row.downs[y]), Cost(costs.down[j]), leg.rise).0;
}

// The same for whatever stands at place j, if the edge to it is marked: how many were looked at by then.
// The lists stay parameters from here to `look_over`: all but `row` are only read, and a struct of them would be made at each place.
fn look_if(
    row_heads: &[u32],
    costs: &EdgeCosts,
    marks: &[bool; 4096],
    row: &mut Row,
    leg: Leg,
    j: usize,
    so_far: u64,
) -> u64
    requires { Stretch row_heads.now j (j + 1) × Costed (lent_costs costs.now) (j + 1) × Seats (gathered row.old) × (so_far + 1 < 18446744073709551616) }
    ensures { Looked row_heads.now (lent_costs costs.now) marks.now leg.rise.0 leg.fall.0 j (j + 1) (gathered row.old) (gathered row.new) so_far result }
{
    let y = row_heads[j] as usize;
    if !marks[y] {
        return so_far;
    }
    look_at(costs, row, leg, j, y);
    so_far + 1
}

// The same for places j and j + 1.
fn look_two(
    row_heads: &[u32],
    costs: &EdgeCosts,
    marks: &[bool; 4096],
    row: &mut Row,
    leg: Leg,
    j: usize,
    seen: u64,
) -> u64
    requires { Stretch row_heads.now j (j + 2) × Costed (lent_costs costs.now) (j + 2) × Seats (gathered row.old) × (seen + 4096 < 18446744073709551616) }
    ensures { Looked row_heads.now (lent_costs costs.now) marks.now leg.rise.0 leg.fall.0 j (j + 2) (gathered row.old) (gathered row.new) seen result }
{
    let more = look_if(row_heads, costs, marks, row, leg, j, seen);
    look_if(row_heads, costs, marks, row, leg, j + 1, more)
}

// The same for the places from `from` up to `end`.
fn look_rest(
    row_heads: &[u32],
    costs: &EdgeCosts,
    marks: &[bool; 4096],
    row: &mut Row,
    leg: Leg,
    from: usize,
    end: usize,
    so_far: u64,
) -> u64
    requires { (from ≤ end) × Stretch row_heads.now from end × Costed (lent_costs costs.now) end × Seats (gathered row.old) × (so_far + 4096 < 18446744073709551616) }
    ensures { Looked row_heads.now (lent_costs costs.now) marks.now leg.rise.0 leg.fall.0 from end (gathered row.old) (gathered row.new) so_far result }
{
    let mut seen = so_far;
    for j in from..end {
        seen = look_if(row_heads, costs, marks, row, leg, j, seen);
    }
    seen
}

// The lower triangles over z of the marked edges of the row of z's entry at place i, four places in each step of the loop, which is what makes
// the walk past unmarked ones short: how many there are by then.
fn look_over(
    graph: &Graph,
    costs: &EdgeCosts,
    marks: &[bool; 4096],
    row: &mut Row,
    z: usize,
    i: usize,
    so_far: u64,
) -> u64
    requires { Lists (lent_graph graph.now) (lent_costs costs.now) × (z < count graph.now.first.now) × InRow (lent_graph graph.now) z i × Seats (gathered row.old) × (so_far + 8192 < 18446744073709551616) }
    ensures { Looked graph.now.heads.now (lent_costs costs.now) marks.now (get_or costs.now.up.now i 0) (get_or costs.now.down.now i 0) (i + 1) (get_or graph.now.first.now (z + 1) 0) (gathered row.old) (gathered row.new) so_far result }
{
    let end = graph.first[z + 1] as usize;
    let leg = Leg {
        rise: Cost(costs.up[i]),
        fall: Cost(costs.down[i]),
    };
    let mut seen = so_far;
    let mut j = i + 1;
    while j + 3 < end {
        seen = look_two(graph.heads, costs, marks, row, leg, j, seen);
        j += 2;
        seen = look_two(graph.heads, costs, marks, row, leg, j, seen);
        j += 2;
    }
    look_rest(graph.heads, costs, marks, row, leg, j, end, seen)
}

// All lower triangles of the marked edges of the row of x, over the rows met in the turn of x: how many there are, and `so_far`.
pub fn look_row(
    graph: &Graph,
    costs: &EdgeCosts,
    met: &Met,
    marks: &[bool; 4096],
    row: &mut Row,
    x: usize,
    so_far: u64,
) -> u64
    requires { Lists (lent_graph graph.now) (lent_costs costs.now) × (x < count graph.now.first.now) × RowsMet (lent_graph graph.now) x met.now × AllRowsMet (lent_graph graph.now) x met.now × Seats (gathered row.old) × (so_far + 16777216 < 18446744073709551616) }
    ensures { LookedRow (lent_graph graph.now) (lent_costs costs.now) marks.now x (gathered row.old) (gathered row.new) so_far result }
{
    let mut seen = so_far;
    for t in 0..met.count {
        let z = met.rows[t] as usize;
        let i = met.places[t] as usize;
        seen = look_over(graph, costs, marks, row, z, i, seen);
    }
    seen
}
