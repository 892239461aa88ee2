// The stored nets, run: what each call tells and what then stands in the lent lists, to be compared with what independent programs make of the same nets.
// What is read and what is written is told in ../README.md.
#![tactic(auto)]

use griezmuld::{build, customise, distance, route};
use rules::{EdgeCosts, Graph, Junction, Net, distance_told, drive_told};
use show::{end_line, show, tell, tell_answer};
use std::io::{Read, Stdin};

// The most questions of a net.
const MOST_QUESTIONS: u32 = 64;

// The next byte of the input, or 0 at its end, which is no byte of a text.
// A byte and no Option: a byte 0 at the end of the input has to be taken for the end, as it always was.
fn next_byte(mut input: Stdin) -> u8 {
    let mut one = [0u8; 1];
    if input.read_exact(&mut one).is_err() {
        return 0;
    }
    one[0]
}

// A number with a digit after it, unless the byte is no digit or 32 bits are too few.
fn with_digit(value: u32, byte: u8) -> Option<u32> {
    let digit = char::from(byte).to_digit(10)?;
    value.checked_mul(10)?.checked_add(digit)
}

// The next number of the input: one to ten digits, and the space or line end behind them.
fn next_number(input: Stdin) -> Option<u32> {
    let mut value = with_digit(0, next_byte(input))?;
    for _ in 0..10 {
        let byte = next_byte(input);
        if byte == b' ' || byte == b'\n' {
            return Some(value);
        }
        value = with_digit(value, byte)?;
    }
    None
}

// The part of a list that is as long as the next number of the input tells, unless the list is shorter.
fn next_part(input: Stdin, list: &mut [u32]) -> Option<&mut [u32]> {
    let length = next_number(input)? as usize;
    list.get_mut(..length)
}

// The next numbers of the input put into a list, unless they are not all there.
fn fill(input: Stdin, list: &mut [u32]) -> Option<()> {
    for place in list {
        *place = next_number(input)?;
    }
    Some(())
}

// A word and the numbers of a list, on a line.
fn show_line(rt: &impl Print, word: &[u8], list: &[u32]) {
    show(rt, word, list);
    end_line(rt);
}

// Builds, and shows what is told and left.
fn try_build(rt: &impl Print, net: &Net, rank: &mut [u32], first: &mut [u32], heads: &mut [u32]) {
    let answer = build(net.tails, net.heads, net.order, rank, first, heads);
    tell_answer(rt, b"build", &answer);
    tell(rt, b", edges", answer.unwrap_or(0) as u64);
    end_line(rt);
    show_line(rt, b"rank", rank);
    show_line(rt, b"first", first);
    show_line(rt, b"heads", heads);
}

// Customises, and shows what is told and left.
fn try_customise(
    rt: &impl Print,
    net: &Net,
    rank: &[u32],
    graph: &Graph,
    up: &mut [u32],
    down: &mut [u32],
) {
    let answer = customise(
        net.tails,
        net.heads,
        net.costs,
        net.order,
        rank,
        graph.first,
        graph.heads,
        up,
        down,
    );
    tell_answer(rt, b"customise", &answer);
    end_line(rt);
    show_line(rt, b"up", up);
    show_line(rt, b"down", down);
}

// Asks for a distance, and shows what is told.
fn try_distance(
    rt: &impl Print,
    net: &Net,
    rank: &[u32],
    graph: &Graph,
    costs: &EdgeCosts,
    from: Junction,
    to: Junction,
) {
    let answer = distance(
        net.order,
        rank,
        graph.first,
        graph.heads,
        costs.up,
        costs.down,
        from,
        to,
    );
    tell_answer(rt, b"distance", &answer);
    tell(rt, b":", distance_told(&answer));
    end_line(rt);
}

// Asks for a route, and shows what is told and left.
fn try_route(
    rt: &impl Print,
    net: &Net,
    rank: &[u32],
    graph: &Graph,
    costs: &EdgeCosts,
    from: Junction,
    to: Junction,
    list: &mut [u32],
) {
    let answer = route(
        net.tails,
        net.heads,
        net.costs,
        net.order,
        rank,
        graph.first,
        graph.heads,
        costs.up,
        costs.down,
        from,
        to,
        list,
    );
    let told = drive_told(&answer);
    tell_answer(rt, b"route", &answer);
    tell(rt, b":", told.distance);
    tell(rt, b", arcs", told.arcs as u64);
    show_line(rt, b":", list);
}

// The next question of the input, asked for its distance and its route, with the costs or the later ones; none if it could not be read.
fn ask<'a>(
    rt: &HostRuntime,
    net: &Net<'a>,
    later: &'a [u32],
    rank: &[u32],
    graph: &Graph,
    costs: &EdgeCosts,
) -> Option<()> {
    let input = rt.stdin();
    let is_later = next_number(input)?;
    let from = Junction(next_number(input)?);
    let to = Junction(next_number(input)?);
    let mut room = [9; 256];
    let list = next_part(input, &mut room)?;
    // The text says 0 or 1; any other number is malformed.
    let priced = match is_later {
        0 => *net,
        1 => Net {
            costs: later,
            ..*net
        },
        _ => return None,
    };
    try_distance(rt, net, rank, graph, costs, from, to);
    try_route(rt, &priced, rank, graph, costs, from, to, list);
    Some(())
}

// Every call on a net: built, customised and asked so many questions; none if they could not all be read.
fn run_calls<'a>(
    rt: &HostRuntime,
    net: &Net<'a>,
    later: &'a [u32],
    rank: &mut [u32],
    first: &mut [u32],
    heads: &mut [u32],
    up: &mut [u32],
    down: &mut [u32],
    questions: u32,
) -> Option<()> {
    try_build(rt, net, rank, first, heads);
    let graph = Graph { first, heads };
    try_customise(rt, net, rank, &graph, up, down);
    let costs = EdgeCosts { up, down };
    for _ in 0..questions {
        ask(rt, net, later, rank, &graph, &costs)?;
    }
    Some(())
}

// The next net of the input, with 9 in every place of the lists that are lent; none if it could not be read.
fn run_net(rt: &HostRuntime) -> Option<()> {
    let input = rt.stdin();
    let mut tails_room = [9; 1024];
    let mut heads_room = [9; 1024];
    let mut costs_room = [9; 1024];
    let mut later_room = [9; 1024];
    let mut order_room = [9; 256];
    let mut rank_room = [9; 257];
    let mut first_room = [9; 258];
    let mut row_heads_room = [9; 4096];
    let mut up_room = [9; 4096];
    let mut down_room = [9; 4096];
    let tails = next_part(input, &mut tails_room)?;
    let heads = next_part(input, &mut heads_room)?;
    let costs = next_part(input, &mut costs_room)?;
    let later = next_part(input, &mut later_room)?;
    let order = next_part(input, &mut order_room)?;
    let rank = next_part(input, &mut rank_room)?;
    let first = next_part(input, &mut first_room)?;
    let row_heads = next_part(input, &mut row_heads_room)?;
    let up = next_part(input, &mut up_room)?;
    let down = next_part(input, &mut down_room)?;
    let questions = next_number(input).filter(|&count| count <= MOST_QUESTIONS)?;
    fill(input, tails)?;
    fill(input, heads)?;
    fill(input, costs)?;
    fill(input, later)?;
    fill(input, order)?;
    let net = Net {
        tails,
        heads,
        costs,
        order,
    };
    run_calls(rt, &net, later, rank, first, row_heads, up, down, questions)
}

// So many nets as the first number tells, numbered from 1, and then the end of the input; none if they could not all be read.
fn run_nets(rt: &HostRuntime) -> Option<()> {
    let count = next_number(rt.stdin())?;
    for k in 1..=count {
        tell(rt, b"net", u64::from(k));
        end_line(rt);
        run_net(rt)?;
    }
    (next_byte(rt.stdin()) == 0).then_some(())
}

// Text of another shape ends the run with a line that says so.
fn main(rt: HostRuntime) {
    if run_nets(&rt).is_none() {
        let _ = rt.write_all(b"the input is cut short or malformed\n");
    }
}
