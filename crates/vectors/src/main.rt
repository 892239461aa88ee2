// Document 01's small examples and document 02's rules, run: what each call tells and what then stands in the lent lists, to be compared with the papers.
#![tactic(auto)]

ghost use Rattle.std.specs.Prelude.{◌≤◌};

use griezmuld::{build, change, customise, distance, route, sweep_from, sweep_to};
use rules::{Cost, Junction, Refusal, distance_told, drive_told};
use show::{end_line, show, tell, tell_answer};

// A road that is closed, an edge without a cost.
const SHUT: u32 = 4294967295;

// N4: its roads and their costs, and its order, which is its rank list too.
const TAILS: [u32; 5] = [1, 0, 2, 3, 1];

const ENDS: [u32; 5] = [0, 2, 3, 1, 3];

const COSTS: [u32; 5] = [3, 4, 2, 6, 20];

const ORDER: [u32; 4] = [0, 1, 2, 3];

// N4's graph, and P2's costs of its edges.
const FIRST: [u32; 5] = [0, 2, 4, 5, 5];

const HEADS: [u32; 5] = [1, 2, 2, 3, 3];

const UP: [u32; 5] = [SHUT, 4, 7, 20, 2];

const DOWN: [u32; 5] = [3, SHUT, SHUT, 6, 13];

// Builds into rooms of these lengths, with 9 in every place, and shows on one line what is told and left.
// nets has such functions, too: it writes a line for each list, this one a line for each call.
fn try_build<const R: usize, const F: usize, const H: usize>(
    rt: &impl Print,
    name: &[u8],
    tails: &[u32],
    ends: &[u32],
    order: &[u32],
)
    requires { (R ≤ 9) × (F ≤ 9) × (H ≤ 9) }
{
    let mut rank = [9; R];
    let mut first = [9; F];
    let mut heads = [9; H];
    let answer = build(tails, ends, order, &mut rank, &mut first, &mut heads);
    tell_answer(rt, name, &answer);
    tell(rt, b", edges", answer.unwrap_or(0) as u64);
    show(rt, b", rank", &rank);
    show(rt, b", first", &first);
    show(rt, b", heads", &heads);
    end_line(rt);
}

// "n = 1, no arcs: first 0 0, E = 0, accepted. n = 0: 1. n = 4,097: 1."
fn sizes(rt: &impl Print) {
    try_build::<1, 2, 1>(rt, b"n = 1:", &[], &[], &[0]);
    try_build::<1, 2, 1>(rt, b"n = 0:", &[], &[], &[]);
    try_build::<1, 2, 1>(rt, b"n = 4097:", &[], &[], &[0; 4097]);
}

// N4 built into rooms for six, five and four heads: "Heads room 4 for N4: 6".
fn n4_build(rt: &impl Print) {
    try_build::<4, 5, 6>(rt, b"N4, room 6:", &TAILS, &ENDS, &ORDER);
    try_build::<4, 5, 5>(rt, b"N4, room 5:", &TAILS, &ENDS, &ORDER);
    try_build::<4, 5, 4>(rt, b"N4, room 4:", &TAILS, &ENDS, &ORDER);
}

// P10's star, its centre first and last: E is 6, then 3.
fn star(rt: &impl Print) {
    let tails = [0; 3];
    let ends = [1, 2, 3];
    try_build::<4, 5, 6>(rt, b"star, 0 first:", &tails, &ends, &[0, 1, 2, 3]);
    try_build::<4, 5, 6>(rt, b"star, 0 last:", &tails, &ends, &[1, 2, 3, 0]);
}

// Bad arcs and orders: 2, 3 with its arc, 4 with its position, 5.
fn bad_lists(rt: &impl Print) {
    let order = [1, 0, 1];
    try_build::<3, 4, 3>(rt, b"uneven arcs:", &[0], &[1, 3], &order);
    try_build::<3, 4, 3>(rt, b"arc 1 past n:", &[0, 1], &[1, 3], &order);
    try_build::<3, 4, 3>(rt, b"junction 1 twice:", &[0], &[1], &order);
    try_build::<3, 3, 3>(rt, b"rank room 3 of 2:", &[0], &[1], &[1, 0]);
}

// One line for a customising: its name, the answer, the lists.
fn show_customise(
    rt: &impl Print,
    name: &[u8],
    answer: Result<(), Refusal>,
    up: &[u32],
    down: &[u32],
) {
    tell_answer(rt, name, &answer);
    show(rt, b", up", up);
    show(rt, b", down", down);
    end_line(rt);
}

// Customises one arc, 0 to 1, of a cost, and shows what is left.
fn try_cost(rt: &impl Print, name: &[u8], cost: u32) {
    let mut up = [9; 2];
    let mut down = [9; 1];
    let answer = customise(
        &[0],
        &[1],
        &[cost],
        &[0, 1],
        &[0, 1],
        &[0, 1, 1],
        &[1],
        &mut up,
        &mut down,
    );
    show_customise(rt, name, answer, &up, &down);
}

// "Cost 500,000 accepted, 500,001: 9, 0: 9", and CLOSED accepted.
fn costs(rt: &impl Print) {
    try_cost(rt, b"cost 500001:", 500001);
    try_cost(rt, b"cost 0:", 0);
    try_cost(rt, b"cost 500000:", 500000);
    try_cost(rt, b"cost CLOSED:", SHUT);
}

// N4 customised: P2, and CLOSED past E.
fn n4_costs(rt: &impl Print) {
    let mut up = [9; 6];
    let mut down = [9; 5];
    let answer = customise(
        &TAILS, &ENDS, &COSTS, &ORDER, &ORDER, &FIRST, &HEADS, &mut up, &mut down,
    );
    show_customise(rt, b"N4:", answer, &up, &down);
}

// Asks N4 for a distance, by P2's lists, and shows it on one line.
fn ask_n4(rt: &impl Print, name: &[u8], from: u32, to: u32) {
    let answer = distance(
        &ORDER,
        &ORDER,
        &FIRST,
        &HEADS,
        &UP,
        &DOWN,
        Junction(from),
        Junction(to),
    );
    tell_answer(rt, name, &answer);
    tell(rt, b", distance", distance_told(&answer));
    end_line(rt);
}

// P3 to P6, and an end past n.
fn n4_distances(rt: &impl Print) {
    ask_n4(rt, b"1 to 3:", 1, 3);
    ask_n4(rt, b"0 to 1:", 0, 1);
    ask_n4(rt, b"2 to 0:", 2, 0);
    ask_n4(rt, b"0 to 0:", 0, 0);
    ask_n4(rt, b"0 to 4:", 0, 4);
}

// One line for a sweep: its name, the answer, the list.
fn show_sweep(rt: &impl Print, name: &[u8], answer: Result<(), Refusal>, distances: &[u32]) {
    tell_answer(rt, name, &answer);
    show(rt, b", distances", distances);
    end_line(rt);
}

// Sweeps N4 from a junction and to it into lists of these lengths, with a cost up from 2 to 3, by P2's other lists.
fn sweep_n4<const THERE: usize, const BACK: usize>(
    rt: &impl Print,
    name: &[u8],
    up_2_3: u32,
    j: u32,
)
    requires { (THERE ≤ 9) × (BACK ≤ 9) }
{
    let up = [SHUT, 4, 7, 20, up_2_3];
    let mut there = [9; THERE];
    let out = sweep_from(
        &ORDER,
        &ORDER,
        &FIRST,
        &HEADS,
        &up,
        &DOWN,
        Junction(j),
        &mut there,
    );
    let _ = rt.write_all(name);
    show_sweep(rt, b", from:", out, &there);
    let mut back = [9; BACK];
    let home = sweep_to(
        &ORDER,
        &ORDER,
        &FIRST,
        &HEADS,
        &up,
        &DOWN,
        Junction(j),
        &mut back,
    );
    let _ = rt.write_all(name);
    show_sweep(rt, b", to:", home, &back);
}

// P3 to P7 in the lists of their starts and targets; then 11, and 15 for a list shorter or longer than n.
fn n4_sweeps(rt: &impl Print) {
    sweep_n4::<4, 4>(rt, b"dairy 0", 2, 0);
    sweep_n4::<4, 4>(rt, b"dairy 1", 2, 1);
    sweep_n4::<4, 4>(rt, b"arc 2 CLOSED, dairy 0", SHUT, 0);
    sweep_n4::<4, 4>(rt, b"arc 2 CLOSED, dairy 1", SHUT, 1);
    sweep_n4::<3, 5>(rt, b"dairy 4, lists 3 and 5", 2, 4);
    sweep_n4::<3, 5>(rt, b"lists 3 and 5", 2, 0);
}

// Junctions 2, 0 and 1 in a row, in that order: 1 is too far from 2 once the second edge costs anything, and 16 names junction 1, at position 2.
fn row_sweep<const ROOM: usize>(rt: &impl Print, name: &[u8], second: u32)
    requires { ROOM ≤ 9 }
{
    let order = [2, 0, 1];
    let rank = [1, 2, 0];
    let first = [0, 1, 2, 2];
    let heads = [1, 2];
    let up = [4294967294, second];
    let down = [SHUT; 2];
    let mut list = [9; ROOM];
    let answer = sweep_from(
        &order,
        &rank,
        &first,
        &heads,
        &up,
        &down,
        Junction(2),
        &mut list,
    );
    show_sweep(rt, name, answer, &list);
}

// "16 for the lowest junction whose distance isn't below CLOSED .. after 16 the list is all CLOSED", and 15 before it.
fn far_sweeps(rt: &impl Print) {
    row_sweep::<3>(rt, b"row, second edge 0:", 0);
    row_sweep::<3>(rt, b"row, second edge 1:", 1);
    row_sweep::<3>(rt, b"row, second edge 4294967294:", 4294967294);
    row_sweep::<3>(rt, b"row, second edge CLOSED:", SHUT);
    row_sweep::<4>(rt, b"row, second edge 1, list 4:", 1);
}

// One line for a change: its name, the answer, the lists.
fn show_change(
    rt: &impl Print,
    name: &[u8],
    answer: Result<u64, Refusal>,
    costs: &[u32],
    up: &[u32],
    down: &[u32],
) {
    tell_answer(rt, name, &answer);
    tell(rt, b", triangles", answer.unwrap_or(0));
    show(rt, b", costs", costs);
    show(rt, b", up", up);
    show(rt, b", down", down);
    end_line(rt);
}

// Gives an arc another cost, on N4's graph with these arcs, and shows what is left.
fn try_change(
    rt: &impl Print,
    name: &[u8],
    tails: &[u32],
    ends: &[u32],
    costs: &mut [u32],
    up: &mut [u32],
    down: &mut [u32],
    arc: usize,
    cost: u32,
) {
    let answer = change(
        tails,
        ends,
        costs,
        &ORDER,
        &ORDER,
        &FIRST,
        &HEADS,
        up,
        down,
        arc,
        Cost(cost),
    );
    show_change(rt, name, answer, costs, up, down);
}

// The same with N4's arcs.
fn change_n4(
    rt: &impl Print,
    name: &[u8],
    arc: usize,
    cost: u32,
    costs: &mut [u32],
    up: &mut [u32],
    down: &mut [u32],
) {
    try_change(rt, name, &TAILS, &ENDS, costs, up, down, arc, cost);
}

// "A driver shuts a road": arc 2 closed makes P2's costs P7's, and opened again the other way round; arc 0 is felt up to P2's entry 13. The place
// past E is never touched.
fn n4_changes(rt: &impl Print) {
    let mut costs = COSTS;
    let mut up = [SHUT, 4, 7, 20, 2, 9];
    let mut down = DOWN;
    change_n4(rt, b"arc 2 shut:", 2, SHUT, &mut costs, &mut up, &mut down);
    change_n4(rt, b"arc 2 opened:", 2, 2, &mut costs, &mut up, &mut down);
    change_n4(rt, b"arc 0 at 5:", 0, 5, &mut costs, &mut up, &mut down);
    change_n4(rt, b"arc 0 at 3:", 0, 3, &mut costs, &mut up, &mut down);
}

// A cost that stays; 17, before 9; 9, with its arc: nothing changes.
fn n4_unchanged(rt: &impl Print) {
    let mut costs = COSTS;
    let mut up = UP;
    let mut down = [3, SHUT, SHUT, 6, 13, 9];
    change_n4(rt, b"arc 2 at 2:", 2, 2, &mut costs, &mut up, &mut down);
    change_n4(rt, b"arc 5 at 0:", 5, 0, &mut costs, &mut up, &mut down);
    change_n4(rt, b"arc 2 at 0:", 2, 0, &mut costs, &mut up, &mut down);
    change_n4(
        rt,
        b"arc 3 at 500001:",
        3,
        500001,
        &mut costs,
        &mut up,
        &mut down,
    );
}

// P8's net: arc 5 hides arc 4, so only the cost list changes; and hides it still when it is shut itself.
fn hidden_changes(rt: &impl Print, costs: &mut [u32], up: &mut [u32], down: &mut [u32]) {
    let tails = [1u32, 0, 2, 3, 1, 1];
    let ends = [0u32, 2, 3, 1, 3, 3];
    try_change(rt, b"hidden arc 4:", &tails, &ends, costs, up, down, 4, 25);
    try_change(rt, b"arc 5 shut:", &tails, &ends, costs, up, down, 5, SHUT);
}

// Lists that nobody customised: "both costs by document 01's rule from those then standing, a sum of CLOSED or more being CLOSED; no other edge
// changes".
fn any_change(rt: &impl Print, costs: &mut [u32], up: &mut [u32], down: &mut [u32]) {
    let order = [0u32, 1, 2];
    let answer = change(
        &[1, 0],
        &[0, 1],
        costs,
        &order,
        &order,
        &[0, 2, 3, 3],
        &[1, 2, 2],
        up,
        down,
        0,
        Cost(7),
    );
    show_change(rt, b"not customised:", answer, costs, up, down);
}

// The changes, each with lists of its own.
fn changes(rt: &impl Print) {
    n4_changes(rt);
    n4_unchanged(rt);
    hidden_changes(
        rt,
        &mut [3, 4, SHUT, 6, 20, 30],
        &mut [SHUT, 4, 7, 30, SHUT],
        &mut [3, SHUT, SHUT, 6, 13],
    );
    any_change(
        rt,
        &mut [5, 9],
        &mut [6, 4294967290, 8, 77],
        &mut [5, 1, 2, 78],
    );
}

// Drives on N4 with another cost of arc 2, by P2's lists, into a route list of this length, and shows on one line what is told and left.
fn drive_n4<const ROOM: usize>(rt: &impl Print, name: &[u8], costs: &[u32], from: u32, to: u32)
    requires { ROOM ≤ 9 }
{
    let mut list = [9; ROOM];
    let answer = route(
        &TAILS,
        &ENDS,
        costs,
        &ORDER,
        &ORDER,
        &FIRST,
        &HEADS,
        &UP,
        &DOWN,
        Junction(from),
        Junction(to),
        &mut list,
    );
    let told = drive_told(&answer);
    tell_answer(rt, name, &answer);
    tell(rt, b", distance", told.distance);
    tell(rt, b", arcs", told.arcs as u64);
    show(rt, b", route", &list);
    end_line(rt);
}

// P3 to P6; arc 2's cost set to 3 with nothing redone: "room 3 or 2 gives 13, room 1 gives 12"; "N4 as customised, room 2: 12".
fn n4_routes(rt: &impl Print) {
    let changed = [3, 4, 3, 6, 20];
    drive_n4::<4>(rt, b"drive 1 to 3:", &COSTS, 1, 3);
    drive_n4::<3>(rt, b"drive 0 to 1:", &COSTS, 0, 1);
    drive_n4::<3>(rt, b"drive 2 to 0:", &COSTS, 2, 0);
    drive_n4::<1>(rt, b"drive 0 to 0:", &COSTS, 0, 0);
    drive_n4::<2>(rt, b"room 2:", &COSTS, 1, 3);
    drive_n4::<3>(rt, b"changed, room 3:", &changed, 1, 3);
    drive_n4::<2>(rt, b"changed, room 2:", &changed, 1, 3);
    drive_n4::<1>(rt, b"changed, room 1:", &changed, 1, 3);
}

fn main(rt: HostRuntime) {
    sizes(&rt);
    n4_build(&rt);
    star(&rt);
    bad_lists(&rt);
    costs(&rt);
    n4_costs(&rt);
    n4_distances(&rt);
    n4_sweeps(&rt);
    far_sweeps(&rt);
    changes(&rt);
    n4_routes(&rt);
}
