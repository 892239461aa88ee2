// The row of one position, brought together as a set of the positions above it.
// The set is held in an array: at the position and at each member stands the next member, and n at the last. Nothing is shifted, marked or
// cleared, and what else stands in the array does not matter. Arcs are found by their lower end, and children by their parent, along threads.
// Threads are of 16-bit numbers, half as much to clear; the set is of 32-bit numbers, which need no widening at each use.
// In threads each number is one more than what it names, and 0 is none: an Option for each place would take twice the memory of the stack.
#![tactic(auto)]

ghost use Rattle.std.specs.Prelude.{ℕ, ◌+◌, ◌≤◌, ◌<◌, ◌≡◌, Bool, length, get_or};
ghost use Rattle.rules.specs.Lent.{lent_graph};
ghost use Rattle.theory.specs.Threads.{Threaded};
ghost use Rattle.gather.specs.NextMembers.{Holds, Rises, PutIn, AllPutIn, AscendingPart};
ghost use Rattle.gather.specs.Arcs.{Arcs, arcs_of, EndsOf, ArcIn, ArcLists, NoArcs, ThreadsOf, with_arcs};
ghost use Rattle.gather.specs.Gathered.{parent_in, with_children, RowsIn, Gatherable, gathered};

use lists::position_of;
use rules::{Graph, Junction, Position};

// The positions of an arc's ends, the lower and the higher.
#[derive(Clone, Copy)]
struct Ends {
    low: Position,
    high: Position,
}

// The lower and the higher of the positions of arc i's ends, by the rank list.
#[tactic(auto, unfolding(crate::specs::Arcs::low_end, crate::specs::Arcs::high_end))]
fn ends_of(tails: &[u32], heads: &[u32], rank: &[u32], i: usize) -> Ends
    requires { ArcIn tails.now heads.now rank.now i }
    ensures { EndsOf tails.now heads.now rank.now i result }
{
    let a = position_of(rank, Junction(tails[i]));
    let b = position_of(rank, Junction(heads[i]));
    Ends {
        low: a.min(b),
        high: a.max(b),
    }
}

// Arcs threaded by their lower ends, so that the arcs of one position are found without a search, with their higher ends, so that no end is looked
// up again. There is room for N arcs.
#[derive(Drop)]
pub struct ArcThreads<const N: usize> {
    pub at: [u16; 4096],
    pub next: [u16; N],
    pub high: [u16; N],
}

impl<const N: usize> ArcThreads<N> {
    // No arc is threaded yet.
    pub fn new() -> ArcThreads<N>
        ensures { NoArcs result }
    {
        ArcThreads {
            at: [0; 4096],
            next: [0; N],
            high: [0; N],
        }
    }

    // Threads all arcs, which are at most N: where they stand, since a value that is returned after it was written to would be copied.
    // The ends come as two lists and not as a net, which has costs too: contraction is given none.
    pub fn lay(&mut self, tails: &[u32], heads: &[u32], rank: &[u32])
        requires { ArcLists tails.now heads.now rank.now (length rank.now) × (length tails.now ≤ N) × NoArcs self.old }
        ensures { ThreadsOf (arcs_of tails.now heads.now rank.now) (length rank.now) self.new }
    {
        for i in 0..tails.len() {
            let ends = ends_of(tails, heads, rank, i);
            let p = ends.low.0 as usize;
            self.next[i] = self.at[p];
            self.high[i] = ends.high.0 as u16;
            self.at[p] = (i + 1) as u16;
        }
    }
}

// Positions threaded by their parents. No type in common with the threads of arcs, here and in `roads`: what they share is two lines, and each has
// its own room and its own lists beside.
#[derive(Drop)]
pub struct ChildThreads {
    pub at: [u16; 4096],
    pub next: [u16; 4096],
}

impl ChildThreads {
    // No position is threaded yet.
    pub fn new() -> ChildThreads
        ensures { (f : ℕ → ℕ) (n : ℕ) → n ≤ 4096 → Threaded f n 4096 0 result.at result.next }
    {
        ChildThreads {
            at: [0u16; 4096],
            next: [0u16; 4096],
        }
    }

    // Threads p by its parent; n for none, as it stands at p in the array of next members: an Option would be made and taken apart again.
    pub fn add(&mut self, n: usize, p: Position, parent: Position)
        requires { (p.0 < n) × (n ≤ 4096) }
        ensures { (f : ℕ → ℕ) → f p.0 ≡ parent.0 → Threaded f n 4096 p.0 self.old.at self.old.next → Threaded f n 4096 (p.0 + 1) self.new.at self.new.next }
    {
        let x = p.0 as usize;
        let q = parent.0 as usize;
        if q < n {
            self.next[x] = self.at[q];
            self.at[q] = (x + 1) as u16;
        }
    }
}

// The array that holds the set of a position by next members. Every place points upward, whatever set it holds: so that every walk along it ends.
#[derive(Drop)]
pub struct NextMembers {
    pub after: [u32; 4096],
    pub ghost rises: { Rises after },
}

impl NextMembers {
    // An array that holds no set yet: one byte over and over, which is quickly stored.
    pub fn new() -> NextMembers {
        NextMembers {
            after: [4294967295; 4096],
        }
    }

    // Puts y into the set, from a place below y that is the set's position or a member, and answers what now stands behind y.
    // What stands behind that place is told, so that it is not read again.
    fn put(&mut self, from: Position, next: Position, y: Position) -> Position
        requires { (from.0 < y.0) × (y.0 < 4096) × (next.0 ≡ get_or self.old.after from.0 0) }
        ensures { PutIn from.0 y.0 self.old.after self.new.after × (result.0 ≡ get_or self.new.after y.0 0) }
    {
        let mut x = from.0 as usize;
        let mut z = next.0;
        // A walk: each place tells the next, nothing is counted.
        while z < y.0 {
            x = z as usize;
            z = self.after[x];
        }
        let place = y.0 as usize;
        if z == y.0 {
            return Position(self.after[place]);
        }
        self.after[place] = z;
        self.after[x] = y.0;
        Position(z)
    }

    // Puts ascending entries behind `base`, behind which there is no member: nothing is looked for.
    fn append_all(&mut self, entries: &[u32], n: usize, base: Position)
        requires { AscendingPart entries.now n base.0 × (get_or self.old.after base.0 0 ≡ n) }
        ensures { AllPutIn entries.now n base.0 self.old.after self.new.after }
    {
        let mut last = base.0 as usize;
        for &y in entries {
            let place = y as usize;
            self.after[place] = n as u32;
            self.after[last] = y;
            last = place;
        }
    }

    // Puts ascending entries into the set of p: each goes on where the last was put, and all that are left go behind the set's last member.
    fn put_all(&mut self, entries: &[u32], n: usize, p: Position)
        requires { AscendingPart entries.now n p.0 }
        ensures { AllPutIn entries.now n p.0 self.old.after self.new.after }
    {
        let mut last = p;
        let mut next = Position(self.after[p.0 as usize]);
        for (k, &entry) in entries.iter().enumerate() {
            if next.0 as usize == n {
                self.append_all(&entries[k..], n, last);
                return;
            }
            let y = Position(entry);
            next = self.put(last, next, y);
            last = y;
        }
    }

    // Puts the higher ends of p's arcs into the set of p.
    fn put_arcs<const N: usize>(&mut self, arcs: &ArcThreads<N>, n: usize, p: Position)
        requires { ((R : Arcs) × ThreadsOf R n arcs.now) × (p.0 < n) × (n ≤ 4096) }
        ensures { (R : Arcs) → ThreadsOf R n arcs.now → ((S : ℕ → Bool) → Holds S n p.0 self.old.after → Holds (with_arcs R p.0 S) n p.0 self.new.after) }
    {
        let x = p.0 as usize;
        // A walk: each place tells the next, nothing is counted.
        let mut k = arcs.at[x] as usize;
        while 0 < k {
            let i = k - 1;
            let y = Position(arcs.high[i] as u32);
            if p < y {
                let next = Position(self.after[x]);
                self.put(p, next, y);
            }
            k = arcs.next[i] as usize;
        }
    }

    // Puts the rows of p's children, but for p itself, into the set of p.
    fn put_children(&mut self, graph: &Graph, children: &ChildThreads, n: usize, p: Position)
        requires { RowsIn (lent_graph graph.now) n p.0 × (p.0 < n) × Threaded (parent_in (lent_graph graph.now) n) n 4096 p.0 children.now.at children.now.next }
        ensures { (S : ℕ → Bool) → Holds S n p.0 self.old.after → Holds (with_children (lent_graph graph.now) n p.0 S) n p.0 self.new.after }
    {
        // A walk: each place tells the next, nothing is counted.
        let mut k = children.at[p.0 as usize] as usize;
        while 0 < k {
            let c = k - 1;
            let row = graph.places(c);
            self.put_all(&graph.heads[row.start + 1..row.end], n, p);
            k = children.next[c] as usize;
        }
    }

    // Brings the row of p together: the higher ends of its arcs, and the rows of its children less p.
    pub fn gather_row<const N: usize>(
        &mut self,
        graph: &Graph,
        arcs: &ArcThreads<N>,
        children: &ChildThreads,
        n: usize,
        p: Position,
    )
        requires { (R : Arcs) × Gatherable R (lent_graph graph.now) arcs.now children.now n p.0 }
        ensures { (R : Arcs) → ThreadsOf R n arcs.now → Holds (gathered R (lent_graph graph.now) n p.0) n p.0 self.new.after }
    {
        self.after[p.0 as usize] = n as u32;
        self.put_arcs(arcs, n, p);
        self.put_children(graph, children, n, p);
    }
}
