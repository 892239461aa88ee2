// The calls for C and Rust: every list is a pointer and a length, every answer plain numbers. include/griezmuld.h declares them.
#![tactic(auto)]

ghost use Rattle.std.specs.Prelude.{◌≡◌};
ghost use Rattle.rules.specs.Net.{net};
ghost use Rattle.rules.specs.Calls.{build_leaves, customise_leaves, change_leaves, distance_leaves, sweep_leaves, route_leaves};
ghost use Rattle.rules.specs.Graph.{graph};
ghost use Rattle.rules.specs.Hierarchy.{edge_costs};
ghost use Rattle.rules.specs.declared.Direction.TheVariants.{Up, Down};
ghost use Rattle.tablet.specs.Version.{version};
ghost use Rattle.tablet.specs.Numbers.{build_numbers, build_told, customise_numbers, customise_told, change_numbers, change_told, distance_numbers, distance_told_of, sweep_numbers, sweep_told, route_numbers, route_told};

use griezmuld::{build, change, customise, distance, route, sweep_from, sweep_to};
use rules::{Cost, Junction, drive_told, number_told, place_told};

// The release that this archive is of, as include/griezmuld.h writes it: major * 10000 + minor * 100 + patch.
pub const VERSION: u32 = 10301;

// The release, for a program that compares it with its header's.
#[unsafe(no_mangle)]
pub extern "C" fn griezmuld_version() -> u32
    ensures { result ≡ version }
{
    VERSION
}

// Roads and order to the shortcut graph.
#[unsafe(no_mangle)]
pub extern "C" fn griezmuld_build(
    tails: &[u32],
    heads: &[u32],
    order: &[u32],
    rank: &mut [u32],
    first: &mut [u32],
    row_heads: &mut [u32],
    place: &mut u64,
    edges: &mut u64,
) -> u32
    ensures { build_numbers result place.new edges.new rank.new (graph first.new row_heads.new) ≡ build_told (build_leaves tails.now heads.now order.now rank.old (graph first.old row_heads.old)) }
{
    let built = build(tails, heads, order, rank, first, row_heads);
    *place = place_told(&built) as u64;
    *edges = built.unwrap_or(0) as u64;
    number_told(&built)
}

// Costs to shortcut costs.
#[unsafe(no_mangle)]
pub extern "C" fn griezmuld_customise(
    tails: &[u32],
    heads: &[u32],
    costs: &[u32],
    order: &[u32],
    rank: &[u32],
    first: &[u32],
    row_heads: &[u32],
    up: &mut [u32],
    down: &mut [u32],
    place: &mut u64,
) -> u32
    ensures { customise_numbers result place.new (edge_costs up.new down.new) ≡ customise_told (customise_leaves (net tails.now heads.now costs.now order.now) rank.now (graph first.now row_heads.now) (edge_costs up.old down.old)) }
{
    let customised = customise(tails, heads, costs, order, rank, first, row_heads, up, down);
    *place = place_told(&customised) as u64;
    number_told(&customised)
}

// A new cost of one arc.
#[unsafe(no_mangle)]
pub extern "C" fn griezmuld_change(
    tails: &[u32],
    heads: &[u32],
    costs: &mut [u32],
    order: &[u32],
    rank: &[u32],
    first: &[u32],
    row_heads: &[u32],
    up: &mut [u32],
    down: &mut [u32],
    arc: u32,
    cost: u32,
    place: &mut u64,
    triangles: &mut u64,
) -> u32
    ensures { change_numbers result place.new triangles.new costs.new (edge_costs up.new down.new) ≡ change_told (change_leaves (net tails.now heads.now costs.old order.now) rank.now (graph first.now row_heads.now) (edge_costs up.old down.old) arc cost) }
{
    let changed = change(
        tails,
        heads,
        costs,
        order,
        rank,
        first,
        row_heads,
        up,
        down,
        arc as usize,
        Cost(cost),
    );
    *place = place_told(&changed) as u64;
    *triangles = changed.unwrap_or(0);
    number_told(&changed)
}

// The distance between two junctions.
#[unsafe(no_mangle)]
pub extern "C" fn griezmuld_distance<'a>(
    order: &[u32],
    rank: &[u32],
    first: &[u32],
    row_heads: &[u32],
    up: &'a [u32],
    down: &'a [u32],
    from: u32,
    to: u32,
    place: &mut u64,
    distance_told: &mut u64,
) -> u32
    ensures { distance_numbers result place.new distance_told.new ≡ distance_told_of (distance_leaves order.now rank.now (graph first.now row_heads.now) (edge_costs up.now down.now) from to) }
{
    let found = distance(
        order,
        rank,
        first,
        row_heads,
        up,
        down,
        Junction(from),
        Junction(to),
    );
    *place = place_told(&found) as u64;
    *distance_told = rules::distance_told(&found);
    number_told(&found)
}

// The distance from one junction to every junction.
#[unsafe(no_mangle)]
pub extern "C" fn griezmuld_sweep_from<'a>(
    order: &[u32],
    rank: &[u32],
    first: &[u32],
    row_heads: &[u32],
    up: &'a [u32],
    down: &'a [u32],
    from: u32,
    distances: &mut [u32],
    place: &mut u64,
) -> u32
    ensures { sweep_numbers result place.new distances.new ≡ sweep_told (sweep_leaves order.now rank.now (graph first.now row_heads.now) (edge_costs up.now down.now) Up from distances.old) }
{
    let swept = sweep_from(
        order,
        rank,
        first,
        row_heads,
        up,
        down,
        Junction(from),
        distances,
    );
    *place = place_told(&swept) as u64;
    number_told(&swept)
}

// The distance from every junction to one.
#[unsafe(no_mangle)]
pub extern "C" fn griezmuld_sweep_to<'a>(
    order: &[u32],
    rank: &[u32],
    first: &[u32],
    row_heads: &[u32],
    up: &'a [u32],
    down: &'a [u32],
    to: u32,
    distances: &mut [u32],
    place: &mut u64,
) -> u32
    ensures { sweep_numbers result place.new distances.new ≡ sweep_told (sweep_leaves order.now rank.now (graph first.now row_heads.now) (edge_costs up.now down.now) Down to distances.old) }
{
    let swept = sweep_to(
        order,
        rank,
        first,
        row_heads,
        up,
        down,
        Junction(to),
        distances,
    );
    *place = place_told(&swept) as u64;
    number_told(&swept)
}

// The distance and the route between two junctions.
#[unsafe(no_mangle)]
pub extern "C" fn griezmuld_route<'a>(
    tails: &[u32],
    heads: &[u32],
    costs: &[u32],
    order: &[u32],
    rank: &[u32],
    first: &[u32],
    row_heads: &[u32],
    up: &'a [u32],
    down: &'a [u32],
    from: u32,
    to: u32,
    list: &mut [u32],
    place: &mut u64,
    distance_told: &mut u64,
    arcs_told: &mut u64,
) -> u32
    ensures { route_numbers result place.new distance_told.new arcs_told.new list.new ≡ route_told (route_leaves (net tails.now heads.now costs.now order.now) rank.now (graph first.now row_heads.now) (edge_costs up.now down.now) from to list.old) }
{
    let driven = route(
        tails,
        heads,
        costs,
        order,
        rank,
        first,
        row_heads,
        up,
        down,
        Junction(from),
        Junction(to),
        list,
    );
    let told = drive_told(&driven);
    *place = place_told(&driven) as u64;
    *distance_told = told.distance;
    *arcs_told = told.arcs as u64;
    number_told(&driven)
}
