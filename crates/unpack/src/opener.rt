// What opening reads, as one thing.
ghost use Rattle.rules.specs.Lent.{lent_net};
ghost use Rattle.roads.specs.Roads.{RoadsIn};

use roads::Roads;
use rules::{EdgeCosts, Graph, Net};

// All that opening reads: roads with their arcs threaded, graph and costs, and for each position the lowest that leads up to it.
// That the rows hold is no ghost field, here and in `Graph`: it tells where an edge stands, and a ghost field may tell nothing but that a fact holds.
#[derive(Clone, Copy)]
pub struct Opener<'a> {
    pub net: Net<'a>,
    pub graph: Graph<'a>,
    pub costs: EdgeCosts<'a>,
    pub roads: &'a Roads,
    pub low: &'a [u32; 4096],
    pub ghost readable: { RoadsIn (lent_net net) roads.now },
}
