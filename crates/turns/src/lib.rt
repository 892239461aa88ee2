// Positions have their turns from the lowest up, and rows wait for the turns of their entries: so the lower rows that have a position are found
// without a search.
#![tactic(auto)]

ghost use Rattle.std.specs.Prelude.{◌+◌, ◌≤◌, ◌<◌, ◌≡◌, length, get_or, set, replicate};
ghost use Rattle.rules.specs.Lent.{lent_graph};
ghost use Rattle.turns.specs.Waiting.{Turn, Waiting, wait_at, queued};
ghost use Rattle.turns.specs.Met.{Gathered};

use rules::Graph;

// The rows that wait. In the turn of x `links` has, below x, the next row that waits with this one, and from x on the first row that waits for
// this position, each plus 1; `places` has, below x, where the row waits. A 0 stands for none, as Options would take twice the memory of the stack.
// Two lists and no pairs: customise has places of its own in `places` above x.
#[derive(Drop)]
pub struct Waits {
    pub links: [u32; 4096],
    pub places: [u32; 4096],
}

impl Waits {
    // Before the first turn: no row waits.
    pub fn new() -> Waits
        ensures links { result.links ≡ replicate 4096 0 }
        ensures places { result.places ≡ replicate 4096 0 }
    {
        Waits {
            links: [0; 4096],
            places: [0; 4096],
        }
    }

    // The row of z waits for the turn of its entry at place i, in front of the rows that wait there; past its end it waits no more.
    pub fn queue_row(&mut self, graph: &Graph, z: usize, i: usize)
        requires { Turn (lent_graph graph.now) z × (get_or graph.now.first.now z 0 ≤ i) × (i ≤ get_or graph.now.first.now (z + 1) 0) }
        ensures links { self.new.links ≡ queued (lent_graph graph.now) self.old.links z i }
        ensures places { self.new.places ≡ set self.old.places z i }
    {
        let end = graph.first[z + 1] as usize;
        self.places[z] = i as u32;
        if i < end {
            let y = graph.heads[i] as usize;
            self.links[z] = self.links[y];
            self.links[y] = (z + 1) as u32;
        }
    }

    // The turn of x: each lower row that waits for x goes on to wait for its next entry. Which rows those are, and where they have x, is noted.
    // The number is counted beside the loop: in `met`, where it would be stored for each row, it made the loop an eighth slower.
    pub fn gather_row(&mut self, graph: &Graph, met: &mut Met, x: usize)
        requires { Turn (lent_graph graph.now) x × Waiting (lent_graph graph.now) x (get_or self.old.links x 0) self.old.links self.old.places }
        ensures waits { Waiting (lent_graph graph.now) x 0 self.new.links self.new.places }
        ensures gathered { Gathered (lent_graph graph.now) x self.old.places met.new.count met.new.rows met.new.places self.new.places }
    {
        let mut m = 0;
        // A walk: each place tells the next, nothing is counted.
        let mut k = self.links[x] as usize;
        while 0 < k {
            let z = k - 1;
            let i = self.places[z] as usize;
            k = self.links[z] as usize;
            self.queue_row(graph, z, wait_at(graph, z, i + 1));
            met.rows[m] = z as u16;
            met.places[m] = i as u32;
            m += 1;
        }
        met.count = m;
    }
}

// The rows that are met in the turn of a position, and the places at which they have it: the first `count` of both lists,
// which are fixed lists with a number, as there is no heap.
#[derive(Drop)]
pub struct Met {
    pub rows: [u16; 4096],
    pub places: [u32; 4096],
    pub count: usize,
}

impl Met {
    // No row is met.
    pub fn new() -> Met
        ensures { result.count ≡ 0 }
    {
        Met {
            rows: [0; 4096],
            places: [0; 4096],
            count: 0,
        }
    }
}

// Where the row of z waits if it is not to wait before place i: there, or, with nothing behind it, nowhere, which is its end:
// a place like the others, as `places` has to hold one.
pub fn wait_at(graph: &Graph, z: usize, i: usize) -> usize
    requires { (z + 1 < length graph.now.first.now) × (i ≤ get_or graph.now.first.now (z + 1) 0) }
    ensures { result ≡ wait_at graph.now.first.now z i }
{
    let end = graph.first[z + 1] as usize;
    if i + 1 < end {
        return i;
    }
    end
}
