// What the road from one position to another costs, by the arcs threaded by their tails.
#![tactic(auto)]

ghost use Rattle.std.specs.Prelude.{ℕ, ◌≤◌, ◌<◌, ◌≡◌, ◌≢◌, List, length, get_or, replicate};
ghost use Rattle.rules.specs.Lent.{lent_net};
ghost use Rattle.rules.specs.Net.{road_between};
ghost use Rattle.roads.specs.Roads.{Falls, Laid, ByTail, last_arc, Within, RoadsIn, with_tails};

use lists::junction_at;
use rules::{Cost, Junction, Net, Position};

// The arcs of a net threaded by their tails: `at` has the last arc from each junction, `next` before each arc the one from the same junction,
// each plus 1, and 0 where there is none: Options would take twice the memory of the stack.
#[derive(Drop)]
pub struct Roads {
    pub at: [u16; 4096],
    pub next: [u16; 16384],
}

impl Roads {
    // Threads the arcs by these tails, so that the arcs from one junction are found without a search. It writes in place: threads that are
    // returned stand on the caller's stack twice, as the compiler copies them.
    pub fn thread(&mut self, tails: &[u32])
        requires { ((i : ℕ) → i < length tails.now → get_or tails.now i 0 < 4096) × (length tails.now ≤ 16384) × (self.old.at ≡ replicate 4096 0) × (length self.old.next ≡ 16384) }
        ensures { Laid tails.now (length tails.now) self.new }
    {
        for (i, &tail) in tails.iter().enumerate() {
            let u = tail as usize;
            self.next[i] = self.at[u];
            self.at[u] = (i + 1) as u16;
        }
    }

    // The last arc listed from u to v: a later listing replaces an earlier one.
    pub fn last_arc(&self, heads: &[u32], u: Junction, v: Junction) -> Option<usize>
        requires { Falls (length heads.now) self.now × (u.0 < 4096) × (length heads.now ≤ 16384) }
        ensures within { Within (length heads.now) result }
        ensures last { (tails : List ℕ) → ByTail tails heads.now self.now → result ≡ last_arc tails heads.now u.0 v.0 }
    {
        let mut k = self.at[u.0 as usize] as usize;
        while 0 < k {
            let i = k - 1;
            if heads[i] == v.0 {
                return Some(i);
            }
            k = self.next[i] as usize;
        }
        None
    }

    // What the road from the junction at a to the junction at b costs: what the last arc listed between them does, CLOSED if there is none.
    pub fn road_cost(&self, net: &Net, a: Position, b: Position) -> Cost
        requires { RoadsIn (lent_net net.now) self.now × (a.0 < length net.now.order.now) × (b.0 < length net.now.order.now) × (a.0 ≢ b.0) }
        ensures { (tails : List ℕ) → ByTail tails net.now.heads.now self.now → result.0 ≡ road_between (with_tails (lent_net net.now) tails) a.0 b.0 }
    {
        let u = junction_at(net.order, a);
        let v = junction_at(net.order, b);
        match self.last_arc(net.heads, u, v) {
            Some(i) => Cost(net.costs[i]),
            None => Cost::CLOSED,
        }
    }
}
