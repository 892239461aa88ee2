// The paper's words as types: what a cost, a junction, a position, a direction, a refusal and a route's answer are, and the lists that come in together.
// What each means is defined in specs/, one definition for one sentence of the paper.
#![tactic(auto)]

ghost use Rattle.std.specs.Prelude.{◌+◌, ◌<◌, ◌≡◌, length, get_or};
ghost use Rattle.rules.specs.Costs.{closed, none, sum_of, least_of, add_up, label_over};
ghost use Rattle.rules.specs.Hierarchy.{opposite};
ghost use Rattle.rules.specs.Lent.{lent_costs, chosen};
ghost use Rattle.rules.specs.Replies.{Reply, refusal_number, refusal_place, reply_of, distance_reply, route_reply, number_told, place_told, distance_told, arcs_told};

use std::ops::Range;

// The label of a position that has none, and the distance where no walk leads.
pub const NONE: u64 = 18446744073709551615;

// A cost in tenths of a second, or CLOSED.
#[derive(Clone, Copy, PartialEq, Eq, PartialOrd, Ord)]
pub struct Cost(pub u32);

impl Cost {
    pub const ZERO: Cost = Cost(0);

    pub const GREATEST: Cost = Cost(500000);

    pub const CLOSED: Cost = Cost(4294967295);

    // A sum with CLOSED is CLOSED, and so is a sum of CLOSED or more.
    pub fn sum(a: Cost, b: Cost) -> Cost
        ensures { result ≡ sum_of a b }
    {
        let x = a.0;
        let y = b.0;
        if x < Cost::CLOSED.0 - y {
            return Cost(x + y);
        }
        Cost::CLOSED
    }

    // The lesser of two costs.
    pub fn least(a: Cost, b: Cost) -> Cost
        ensures { result ≡ least_of a b }
    {
        a.min(b)
    }

    // Two costs are finite and add up to a third: as 64-bit numbers, so that no sum wraps round.
    pub fn add_up(a: Cost, b: Cost, w: Cost) -> bool
        ensures { result ≡ add_up a.0 b.0 w.0 }
    {
        a != Cost::CLOSED && b != Cost::CLOSED && a.0 as u64 + b.0 as u64 == w.0 as u64
    }

    // A label with this cost added: CLOSED gives none. A label is far below the number for none: a few thousand costs make one.
    pub fn over_label(self, label: u64) -> u64
        requires { label + closed < none }
        ensures { result ≡ label_over label self.0 }
    {
        if self == Cost::CLOSED {
            return NONE;
        }
        label + self.0 as u64
    }
}

// A junction's number: roads, order entries and questions speak of junctions.
#[derive(Clone, Copy, PartialEq, Eq, PartialOrd, Ord)]
pub struct Junction(pub u32);

// A position in the order: the shortcut graph speaks of positions.
#[derive(Clone, Copy, PartialEq, Eq, PartialOrd, Ord)]
pub struct Position(pub u32);

// Along an edge from its lower end to its higher end, or the other way.
#[derive(Clone, Copy, PartialEq, Eq)]
pub enum Direction {
    Up,
    Down,
}

impl Direction {
    // The other way along the same edge.
    pub fn opposite(self) -> Direction
        ensures { result ≡ opposite self }
    {
        match self {
            Direction::Up => Direction::Down,
            Direction::Down => Direction::Up,
        }
    }
}

// Why a call refuses: a case for each of the papers' numbers 1 to 17, with the place where that is not always 0.
#[derive(Clone, Copy, PartialEq, Eq)]
pub enum Refusal {
    JunctionCount,
    ArcLists,
    ArcEnd(usize),
    OrderEntry(usize),
    RankOrFirstRoom,
    HeadsRoom,
    NotAHierarchy,
    ArcWithoutEdge(usize),
    ArcCost(usize),
    CostLists,
    StartOrTarget,
    RouteRoom,
    PieceFitsNothing,
    Text(usize),
    DistanceRoom,
    TooFar(usize),
    ArcNumber,
}

impl Refusal {
    // The paper's number of a refusal.
    pub fn number(self) -> u32
        ensures { result ≡ refusal_number self }
    {
        match self {
            Refusal::JunctionCount => 1,
            Refusal::ArcLists => 2,
            Refusal::ArcEnd(_) => 3,
            Refusal::OrderEntry(_) => 4,
            Refusal::RankOrFirstRoom => 5,
            Refusal::HeadsRoom => 6,
            Refusal::NotAHierarchy => 7,
            Refusal::ArcWithoutEdge(_) => 8,
            Refusal::ArcCost(_) => 9,
            Refusal::CostLists => 10,
            Refusal::StartOrTarget => 11,
            Refusal::RouteRoom => 12,
            Refusal::PieceFitsNothing => 13,
            Refusal::Text(_) => 14,
            Refusal::DistanceRoom => 15,
            Refusal::TooFar(_) => 16,
            Refusal::ArcNumber => 17,
        }
    }

    // The paper's place of a refusal: an arc, a position, a line, a junction, or 0.
    pub fn place(self) -> usize
        ensures { result ≡ refusal_place self }
    {
        match self {
            Refusal::ArcEnd(arc) | Refusal::ArcWithoutEdge(arc) | Refusal::ArcCost(arc) => arc,
            Refusal::OrderEntry(position) => position,
            Refusal::Text(line) => line,
            Refusal::TooFar(junction) => junction,
            _ => 0,
        }
    }
}

// A net in four lent lists: of each arc its tail, head and cost, and for each position the junction that stands there.
#[derive(Clone, Copy)]
pub struct Net<'a> {
    pub tails: &'a [u32],
    pub heads: &'a [u32],
    pub costs: &'a [u32],
    pub order: &'a [u32],
}

// The shortcut graph in two lent lists: the row of position p occupies the places of `heads` from first[p] up to first[p + 1].
#[derive(Clone, Copy)]
pub struct Graph<'a> {
    pub first: &'a [u32],
    pub heads: &'a [u32],
}

impl<'a> Graph<'a> {
    // The places of the row of p.
    pub fn places(&self, p: usize) -> Range<usize>
        requires { p + 1 < length self.now.first.now }
        ensures start { result.start ≡ get_or self.now.first.now p 0 }
        ensures end { result.end ≡ get_or self.now.first.now (p + 1) 0 }
    {
        self.first[p] as usize..self.first[p + 1] as usize
    }
}

// The shortcut costs in two lent lists: of each edge by its place, up and down.
#[derive(Clone, Copy)]
pub struct EdgeCosts<'a> {
    pub up: &'a [u32],
    pub down: &'a [u32],
}

impl<'a> EdgeCosts<'a> {
    // The list for a direction.
    pub fn along(&self, d: Direction) -> &'a [u32]
        ensures { result.now ≡ chosen d (lent_costs self.now) }
    {
        match d {
            Direction::Up => self.up,
            Direction::Down => self.down,
        }
    }
}

// A route's distance in tenths of a second, and the number of arcs now in the route list.
#[derive(Clone, Copy)]
pub struct Drive {
    pub distance: u64,
    pub arcs: usize,
}

// The paper's number of the refusal, 0 when accepted: of any call, as what an accepted call replies has no number.
pub fn number_told<X>(answer: &Result<X, Refusal>) -> u32
    ensures { (told : X → Reply) → ((x : X) → number_told (told x) ≡ 0) → result ≡ number_told (reply_of told answer.now) }
{
    match answer {
        Ok(_) => 0,
        Err(refusal) => refusal.number(),
    }
}

// The paper's place of the refusal, 0 when accepted: likewise of any call.
pub fn place_told<X>(answer: &Result<X, Refusal>) -> usize
    ensures { (told : X → Reply) → ((x : X) → place_told (told x) ≡ 0) → result ≡ place_told (reply_of told answer.now) }
{
    match answer {
        Ok(_) => 0,
        Err(refusal) => refusal.place(),
    }
}

// The distance, NONE where no walk leads, 0 after a refusal.
pub fn distance_told(answer: &Result<Option<u64>, Refusal>) -> u64
    ensures { result ≡ distance_told (distance_reply answer.now) }
{
    match answer {
        Ok(Some(distance)) => *distance,
        Ok(None) => NONE,
        Err(_) => 0,
    }
}

// The route's distance, NONE where no walk leads, and its number of arcs, 0 then; both 0 after a refusal.
pub fn drive_told(answer: &Result<Option<Drive>, Refusal>) -> Drive
    ensures distance { result.distance ≡ distance_told (route_reply answer.now) }
    ensures arcs { result.arcs ≡ arcs_told (route_reply answer.now) }
{
    match answer {
        Ok(Some(drive)) => *drive,
        Ok(None) => Drive {
            distance: NONE,
            arcs: 0,
        },
        Err(_) => Drive {
            distance: 0,
            arcs: 0,
        },
    }
}
