// Where a text for the program `route` is refused, by which number and why: at the reader's line for 14, else for what build or customise refuses.
#![tactic(auto)]

ghost use Rattle.std.specs.Prelude.{◌≤◌, ◌≡◌, length, Err};
ghost use Rattle.rules.specs.Lent.{lent_net, lent_graph};
ghost use Rattle.rules.specs.Replies.{refusal_number, refusal_place, fill_reply};
ghost use Rattle.rules.specs.Calls.{build_leaves};
ghost use Rattle.rules.specs.Graph.{graph};
ghost use Rattle.text.specs.ReadBack.{line_back};
ghost use Rattle.fault.specs.Faults.{Few, counted, first_junction, is_sought, place_back, place_of, numbered, broken_at, sought_by, seat_cause, end_word, net_fault, told, refused_at, cost_reply, built_reply, net_reply, judged, verdict};

use cause::{Cause, Fault, end_fault, line_fault};
use griezmuld::{build, customise};
use reader::{Lists, Sizes, State, read_text};
use rules::{Graph, Net, Refusal};
use text::{Line, Parts, read_line};

// The line that is looked for: one of a number, that of `p`, that of an arc or of an order entry.
#[derive(Clone, Copy)]
pub enum Sought {
    Line(usize),
    Problem,
    Arc(usize),
    Seat(usize),
}

// A line found: its number, its bytes, whether LF ends it, and what the lines before it say.
// `ended` is a plain flag: a line has its bytes with or without LF, so an enum would say no more.
#[derive(Clone, Copy)]
pub struct Spot<'a> {
    pub number: usize,
    pub bytes: &'a [u8],
    pub ended: bool,
    pub before: State,
}

// What is wrong with a text: the line, the refusal and the cause.
// The line is a number, 0 for too long a text: docs/FORMAT.md counts that line so, and it is printed.
#[derive(Clone, Copy)]
pub struct Wrong {
    pub line: usize,
    pub refusal: Refusal,
    pub fault: Fault,
}

// The first junction that a line names, 0 if it names none.
// 0 and not None: the definition says by 0 what is told of such a line, so None would be turned back at once.
fn first_junction(line: Option<Line>) -> usize
    ensures { result ≡ first_junction (line_back line) }
{
    match line {
        Some(Line::Arc(junction, _, _) | Line::Seat(junction) | Line::Question(junction, _)) => {
            junction.0 as usize
        }
        _ => 0,
    }
}

// A line is the one looked for, after lines that say `before`.
fn is_sought(sought: Sought, before: State, number: usize, line: Option<Line>) -> bool
    ensures { result ≡ is_sought sought before number (line_back line) }
{
    match (sought, line) {
        (Sought::Line(k), _) => number == k,
        (Sought::Problem, Some(Line::Problem(_, _))) => true,
        (Sought::Arc(k), Some(Line::Arc(_, _, _))) => before.listed == k,
        (Sought::Seat(k), Some(Line::Seat(_))) => before.seated == k,
        _ => false,
    }
}

// What the lines up to this one say.
fn count_line(before: State, line: Option<Line>) -> State
    requires { Few before 65536 }
    ensures { result ≡ counted before (line_back line) }
{
    let mut after = before;
    match line {
        Some(Line::Problem(n, m)) => {
            after.sizes = Some(Sizes {
                junctions: n as usize,
                arcs: m as usize,
            })
        }
        Some(Line::Arc(_, _, _)) => after.listed += 1,
        Some(Line::Seat(_)) => after.seated += 1,
        Some(Line::Question(_, _)) => after.asked += 1,
        Some(Line::Comment) | None => {}
    }
    after
}

// The first line that is looked for, or what stands behind the last LF.
// Lines are counted by hand: their iterator tells which line is the last, so no `for` may hold it.
// That the text is short stays a clause: a struct of one lent slice with its bound would be no plainer.
#[tactic(auto, using(crate::proofs::Places::walks_on, crate::proofs::Places::walks_ended))]
fn find_line(input: &[u8], sought: Sought) -> Spot<'_>
    requires { length input.now ≤ 65536 }
    ensures { place_back result ≡ place_of sought input.now }
{
    let mut before = State::new();
    let mut number = 1;
    let mut lines = Parts::new(input, b'\n');
    while let Some(bytes) = lines.next() {
        let ended = lines.rest.is_some();
        let line = read_line(bytes);
        if !ended || is_sought(sought, before, number, line) {
            return Spot {
                number,
                bytes,
                ended,
                before,
            };
        }
        before = count_line(before, line);
        number += 1;
    }
    Spot {
        number,
        bytes: &[],
        ended: false,
        before,
    }
}

// Why a text is refused with 14 at a line.
#[tactic(auto, unfolding(crate::specs::Faults::broken_at))]
fn text_fault(input: &[u8], line: usize) -> Fault
    requires { length input.now ≤ 65536 }
    ensures { result ≡ broken_at (numbered line input.now) }
{
    let spot = find_line(input, Sought::Line(line));
    if spot.ended {
        return line_fault(spot.bytes, spot.before);
    }
    if spot.bytes.is_empty() {
        return end_fault(spot.before);
    }
    Fault::from(Cause::Unended)
}

// The line at which a refusal of build or customise stands.
fn sought_for(refusal: Refusal) -> Sought
    ensures { result ≡ sought_by (refusal_number refusal) (refusal_place refusal) }
{
    match refusal {
        Refusal::JunctionCount => Sought::Problem,
        Refusal::OrderEntry(position) => Sought::Seat(position),
        Refusal::HeadsRoom => Sought::Seat(0),
        _ => Sought::Arc(refusal.place()),
    }
}

// An order entry that was seen earlier, or that is no junction.
fn seat_cause(junction: usize, junctions: usize) -> Cause
    ensures { result ≡ seat_cause junction junctions }
{
    if junction < junctions {
        Cause::SeatTwice
    } else {
        Cause::SeatOver(junctions)
    }
}

// The word of an arc that is no junction: the head if the tail is one.
fn end_word(tail: usize, junctions: usize) -> usize
    ensures { result ≡ end_word tail junctions }
{
    if tail < junctions { 3 } else { 2 }
}

// Why build or customise refuses, by the refusal, the line and how many junctions there are.
fn net_fault(refusal: Refusal, junctions: usize, line: Option<Line>) -> Fault
    ensures { result ≡ net_fault (refusal_number refusal) junctions (line_back line) }
{
    let junction = first_junction(line);
    let (cause, word) = match refusal {
        Refusal::JunctionCount => (Cause::NoJunction, Some(3)),
        Refusal::ArcEnd(_) => {
            let word = end_word(junction, junctions);
            (Cause::EndOver(junctions), Some(word))
        }
        Refusal::OrderEntry(_) => (seat_cause(junction, junctions), Some(2)),
        Refusal::HeadsRoom => (Cause::EdgesOver, None),
        Refusal::ArcCost(_) => (Cause::NotCost, Some(4)),
        _ => (Cause::Elsewhere, None),
    };
    Fault { cause, word }
}

// What is wrong with a text whose net is refused.
fn refused_at(input: &[u8], refusal: Refusal) -> Wrong
    requires { length input.now ≤ 65536 }
    ensures { told (Err result) ≡ refused_at (refusal_number refusal) (place_of (sought_by (refusal_number refusal) (refusal_place refusal)) input.now) }
{
    let spot = find_line(input, sought_for(refusal));
    let line = if spot.ended {
        read_line(spot.bytes)
    } else {
        None
    };
    let junctions = spot.before.sizes.map_or(0, |sizes| sizes.junctions);
    Wrong {
        line: spot.number,
        refusal,
        fault: net_fault(refusal, junctions, line),
    }
}

// What customise answers for a graph that was built, in rooms of noughts.
#[tactic(auto, unfolding(crate::specs::Faults::cost_reply))]
fn judge_costs(net: &Net, rank: &[u32], graph: &Graph) -> Result<(), Refusal>
    ensures { fill_reply result ≡ cost_reply (lent_net net.now) rank.now (lent_graph graph.now) }
{
    let mut up = [0u32; 4096];
    let mut down = [0u32; 4096];
    customise(
        net.tails,
        net.heads,
        net.costs,
        net.order,
        rank,
        graph.first,
        graph.heads,
        &mut up,
        &mut down,
    )
}

// What build refuses, or else what customise does, with rooms for the graph.
fn judge_built(
    net: &Net,
    rank: &mut [u32],
    first: &mut [u32],
    heads: &mut [u32],
) -> Result<(), Refusal>
    ensures { fill_reply result ≡ built_reply (lent_net net.now) (build_leaves net.now.tails.now net.now.heads.now net.now.order.now rank.old (graph first.old heads.old)) }
{
    build(net.tails, net.heads, net.order, rank, first, heads)?;
    judge_costs(net, rank, &Graph { first, heads })
}

// The same with rooms of its own. Rooms made here stand on the stack once; a type that owned them would be cleared and copied where it is returned.
// program has the same rooms: one function that lends them would take the rest as a closure, whose contract is as long as these.
fn judge_net(net: &Net) -> Result<(), Refusal>
    requires { length net.now.order.now ≤ 256 }
    ensures { fill_reply result ≡ net_reply (length net.now.order.now) (lent_net net.now) }
{
    let n = net.order.len();
    let mut rank = [0u32; 256];
    let mut first = [0u32; 257];
    let mut heads = [0u32; 4096];
    judge_built(net, &mut rank[..n], &mut first[..n + 1], &mut heads)
}

// What is wrong with a text that was read.
fn judge_text(input: &[u8], net: &Net) -> Result<(), Wrong>
    requires { (length input.now ≤ 65536) × (length net.now.order.now ≤ 256) }
    ensures { told result ≡ judged input.now (net_reply (length net.now.order.now) (lent_net net.now)) }
{
    judge_net(net).map_err(|refusal| refused_at(input, refusal))
}

// What is wrong with a text.
#[tactic(auto, using(crate::proofs::Judged::verdict_long, crate::proofs::Judged::verdict_breaks))]
pub fn find_fault(input: &[u8]) -> Result<(), Wrong>
    ensures { told result ≡ verdict input.now }
{
    if 65536 < input.len() {
        return Err(Wrong {
            line: 0,
            refusal: Refusal::Text(0),
            fault: Fault::from(Cause::TooLong),
        });
    }
    let mut lists = Lists::new();
    match read_text(input, &mut lists) {
        Ok(counts) => {
            let net = Net {
                tails: &lists.tails[..counts.arcs],
                heads: &lists.heads[..counts.arcs],
                costs: &lists.costs[..counts.arcs],
                order: &lists.order[..counts.junctions],
            };
            judge_text(input, &net)
        }
        Err(breaks) => Err(Wrong {
            line: breaks.line,
            refusal: Refusal::Text(breaks.line),
            fault: text_fault(input, breaks.line),
        }),
    }
}
