// Pieces opened into arcs. An edge is driven as the arc in force between its ends, if that costs as much; else as its two parts over
// the lowest position that fits: down to it, then up from it. What is met goes straight into the lent route list.
#![tactic(auto)]

ghost use Rattle.std.specs.Prelude.{ℕ, List, ◌≤◌, ◌<◌, min, ◌≡◌, ◌≢◌, cond, Option, Some, None, [], ◌∷◌, T, length, get_or};
ghost use Rattle.rules.specs.Costs.{add_up};
ghost use Rattle.rules.specs.Net.{size};
ghost use Rattle.rules.specs.Hierarchy.{linked, held, along};
ghost use Rattle.rules.specs.Lent.{lent_net, lent_graph, lent_costs};
ghost use Rattle.rules.specs.Route.{drives};
ghost use Rattle.theory.specs.Rows.{InRow, Rows, count};
ghost use Rattle.roads.specs.Roads.{ByTail, Within, with_tails};
ghost use Rattle.unpack.specs.Opening.{ran, put, told_as, low_turn, Lows, way_along, over_z, middle_in, arc_of, choice, Openable, IsReady};

mod opener;

use lists::{find_edge, find_edge_from, junction_at};
pub use opener::Opener;
use rules::{Cost, Direction, Graph, Position, Refusal};

// Why a way is not driven to its end: an arc has no place left, or a piece fits nothing.
#[derive(Clone, Copy)]
pub enum Stuck {
    Full,
    Misfit,
}

impl From<Stuck> for Refusal {
    ghost from_gives = { λ stuck refusal. refusal ≡ told_as stuck };

    fn from(stuck: Stuck) -> Refusal {
        match stuck {
            Stuck::Full => Refusal::RouteRoom,
            Stuck::Misfit => Refusal::PieceFitsNothing,
        }
    }
}

// The two parts of a piece: over z, along the edge at one place down to it and the edge at another up from it.
#[derive(Clone, Copy)]
pub struct Parts {
    pub z: Position,
    pub down: usize,
    pub up: usize,
}

// How a piece is opened: as an arc, or as its two parts.
#[derive(Clone, Copy)]
pub enum Choice {
    Arc(usize),
    Over(Parts),
}

// Hands what leads up to position p, or p itself, on to its parent.
fn hand_low(graph: &Graph, low: &mut [u32; 4096], p: usize)
    requires { Rows (count graph.now.first.now) (lent_graph graph.now) × (count graph.now.first.now ≤ 4096) × (p < count graph.now.first.now) × (length low.old ≡ 4096) }
    ensures { low.new ≡ low_turn (lent_graph graph.now) p low.old }
{
    let row = graph.places(p);
    let mine = low[p].min(p as u32);
    low[p] = mine;
    if row.start < row.end {
        let parent = graph.heads[row.start] as usize;
        low[parent] = low[parent].min(mine);
    }
}

// For each position the lowest from which parents lead up to it: nothing lower is joined to it.
pub fn find_lows(graph: &Graph, low: &mut [u32; 4096])
    requires { Rows (count graph.now.first.now) (lent_graph graph.now) × (count graph.now.first.now ≤ 4096) × (length low.old ≡ 4096) }
    ensures { Lows (lent_graph graph.now) low.new }
{
    for p in 0..graph.first.len() - 1 {
        hand_low(graph, low, p);
    }
}

// Writes an arc at the next free place, and tells the next.
fn write_arc(arc: usize, at: usize, route: &mut [u32]) -> Result<usize, Stuck>
    requires { arc < 16384 }
    ensures { ran result route.new ≡ put (drives arc ∷ []) at route.old }
{
    if route.len() <= at {
        return Err(Stuck::Full);
    }
    route[at] = arc as u32;
    Ok(at + 1)
}

impl<'a> Opener<'a> {
    // The arc in force between the junctions at a and b, if its cost is w.
    fn fitting_arc(&self, a: Position, b: Position, w: Cost) -> Option<usize>
        requires { (a.0 < size (lent_net self.now.net)) × (b.0 < size (lent_net self.now.net)) × (a.0 ≢ b.0) }
        ensures within { Within (length self.now.net.heads.now) result }
        ensures fits { (tails : List ℕ) → ByTail tails self.now.net.heads.now self.now.roads.now → result ≡ arc_of (with_tails (lent_net self.now.net) tails) a.0 b.0 w.0 }
    {
        let u = junction_at(self.net.order, a);
        let v = junction_at(self.net.order, b);
        let arc = self.roads.last_arc(self.net.heads, u, v)?;
        if w == Cost::CLOSED || self.net.costs[arc] != w.0 {
            return None;
        }
        Some(arc)
    }

    // The parts over z, by the edges at two places of its row, if what they cost, down to z and up from it, is finite and adds up to w.
    fn over_if(&self, w: Cost, z: Position, down: usize, up: usize) -> Option<Parts>
        requires { (down < length self.now.costs.down.now) × (up < length self.now.costs.up.now) }
        ensures { result ≡ cond (add_up (get_or self.now.costs.down.now down 0) (get_or self.now.costs.up.now up 0) w.0) (Some (record { z = z; down = down; up = up })) None }
    {
        if Cost::add_up(Cost(self.costs.down[down]), Cost(self.costs.up[up]), w) {
            return Some(Parts { z, down, up });
        }
        None
    }

    // The parts over z of a piece from a to b of cost w, if z is joined to both and what the edges cost adds up to w. The lower end is searched for
    // first, and then on from there.
    fn over(&self, a: Position, b: Position, w: Cost, z: Position) -> Option<Parts>
        requires { IsReady self.now × (z.0 < count self.now.graph.first.now) × (z.0 < a.0) × (z.0 < b.0) × (w.0 ≡ held (lent_graph self.now.graph) (lent_costs self.now.costs) a.0 b.0) }
        ensures { result ≡ over_z (lent_graph self.now.graph) (lent_costs self.now.costs) a.0 b.0 z.0 }
    {
        let i = find_edge(&self.graph, z, a.min(b))?;
        let j = find_edge_from(&self.graph, z, a.max(b), i)?;
        if a < b {
            return self.over_if(w, z, i, j);
        }
        self.over_if(w, z, j, i)
    }

    // The parts over the lowest position from `from` up to `to` over which a piece from a to b of cost w goes.
    fn find_middle(
        &self,
        from: Position,
        to: Position,
        a: Position,
        b: Position,
        w: Cost,
    ) -> Option<Parts>
        requires { IsReady self.now × (from.0 ≤ to.0) × (to.0 ≤ a.0) × (to.0 ≤ b.0) × (to.0 ≤ count self.now.graph.first.now) × (w.0 ≡ held (lent_graph self.now.graph) (lent_costs self.now.costs) a.0 b.0) }
        ensures { result ≡ middle_in (lent_graph self.now.graph) (lent_costs self.now.costs) a.0 b.0 from.0 to.0 }
    {
        for z in from.0..to.0 {
            if let Some(parts) = self.over(a, b, w, Position(z)) {
                return Some(parts);
            }
        }
        None
    }

    // How a piece from a to b of cost w is opened: the search for a position over which it goes starts at the lowest that leads up to its low
    // end, since nothing lower is joined to that.
    fn choose(&self, a: Position, b: Position, w: Cost) -> Option<Choice>
        requires { IsReady self.now × T (linked (lent_graph self.now.graph) a.0 b.0) × (w.0 ≡ held (lent_graph self.now.graph) (lent_costs self.now.costs) a.0 b.0) }
        ensures safe { Openable (length self.now.net.heads.now) (lent_graph self.now.graph) (min a.0 b.0) result }
        ensures chosen { (tails : List ℕ) → ByTail tails self.now.net.heads.now self.now.roads.now → result ≡ choice (with_tails (lent_net self.now.net) tails) (lent_graph self.now.graph) (lent_costs self.now.costs) a.0 b.0 }
    {
        if let Some(arc) = self.fitting_arc(a, b, w) {
            return Some(Choice::Arc(arc));
        }
        let to = a.min(b);
        let from = Position(self.low[to.0 as usize]);
        let parts = self.find_middle(from, to, a, b, w)?;
        Some(Choice::Over(parts))
    }

    // The same for the piece between x and the higher y, in the direction: up to y, or down to x.
    fn choose_along(&self, d: Direction, x: Position, y: Position, w: Cost) -> Option<Choice>
        requires { IsReady self.now × (x.0 < y.0) × T (linked (lent_graph self.now.graph) x.0 y.0) × (w.0 ≡ along d (held (lent_graph self.now.graph) (lent_costs self.now.costs)) x.0 y.0) }
        ensures safe { Openable (length self.now.net.heads.now) (lent_graph self.now.graph) x.0 result }
        ensures chosen { (tails : List ℕ) → ByTail tails self.now.net.heads.now self.now.roads.now → result ≡ along d (choice (with_tails (lent_net self.now.net) tails) (lent_graph self.now.graph) (lent_costs self.now.costs)) x.0 y.0 }
    {
        match d {
            Direction::Up => self.choose(x, y, w),
            Direction::Down => self.choose(y, x, w),
        }
    }

    // Opens the piece between x and the position that stands at place k of row x, in the direction: up to it, or down to x.
    pub fn open(
        &self,
        d: Direction,
        x: Position,
        k: usize,
        at: usize,
        route: &mut [u32],
    ) -> Result<usize, Stuck>
        requires { IsReady self.now × (x.0 < count self.now.graph.first.now) × InRow (lent_graph self.now.graph) x.0 k }
        ensures { (tails : List ℕ) → ByTail tails self.now.net.heads.now self.now.roads.now → ran result route.new ≡ put (along d (way_along (with_tails (lent_net self.now.net) tails) (lent_graph self.now.graph) (lent_costs self.now.costs)) x.0 (get_or self.now.graph.heads.now k 0)) at route.old }
    {
        let y = Position(self.graph.heads[k]);
        let w = Cost(self.costs.along(d)[k]);
        match self.choose_along(d, x, y, w) {
            Some(Choice::Arc(arc)) => write_arc(arc, at, route),
            Some(Choice::Over(parts)) => {
                let free = self.open(Direction::Down, parts.z, parts.down, at, route)?;
                self.open(Direction::Up, parts.z, parts.up, free, route)
            }
            None => Err(Stuck::Misfit),
        }
    }
}
