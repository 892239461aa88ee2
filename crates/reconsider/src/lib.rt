// Which edges are reconsidered: those whose road changed, and those of which a lower triangle has a changed edge. Changed edges are flagged by
// their places; in the turn of a position the edges of its row that are reconsidered are marked at their higher ends.
#![tactic(auto)]

ghost use Rattle.std.specs.Prelude.{◌+◌, ◌*◌, ◌/◌, ◌≤◌, ◌<◌, min, ◌≡◌, true, ◌||◌, T, eqb, length, get_or};
ghost use Rattle.rules.specs.Lent.{lent_graph};
ghost use Rattle.theory.specs.Rows.{InRow, count};
ghost use Rattle.turns.specs.Edges.{edges_of, Stretch};
ghost use Rattle.turns.specs.Waiting.{Turn};
ghost use Rattle.reconsider.specs.Flags.{flagged, Flagged};
ghost use Rattle.reconsider.specs.RowsMet.{RowsMet, AllRowsMet};
ghost use Rattle.reconsider.specs.Marks.{says, Clear, Dirty, MarkedAt, MarkedOf, MarkedRow};
ghost use Rattle.reconsider.specs.Reaches.{Upward, Reaches, Begins, Top};

use rules::Graph;
use turns::Met;

// Place k is flagged. Flags stay a slice of words: a type that owned the words would make all that reads them generic over how many there are.
#[tactic(auto, unfolding(crate::specs::Flags::flagged))]
fn is_flagged(flags: &[u64], k: usize) -> bool
    requires { k / 64 < length flags.now }
    ensures { result ≡ flagged flags.now k }
{
    (flags[k / 64] >> (k % 64)) % 2 == 1
}

// Flags place k.
pub fn flag(flags: &mut [u64], k: usize)
    requires { k / 64 < length flags.old }
    ensures { Flagged k flags.old flags.new }
{
    flags[k / 64] |= 1 << (k % 64);
}

// Marks what stands at each place from `from` up to `end`.
fn mark_all(row_heads: &[u32], marks: &mut [bool; 4096], from: usize, end: usize)
    requires { (from ≤ end) × Stretch row_heads.now from end }
    ensures { MarkedOf row_heads.now (λ k. true) from end marks.old marks.new }
{
    for &y in &row_heads[from..end] {
        marks[y as usize] = true;
    }
}

// Marks what stands at the flagged places from `from` up to `end`, as far as they share a word: from one bit of it to the next that is set.
fn mark_word(row_heads: &[u32], flags: &[u64], marks: &mut [bool; 4096], from: usize, end: usize)
    requires { (from < end) × (from / 64 < length flags.now) × Stretch row_heads.now from end }
    ensures { MarkedOf row_heads.now (flagged flags.now) from (min end ((from / 64 + 1) * 64)) marks.old marks.new }
{
    let mut rest = flags[from / 64] >> (from % 64);
    // Not a `for`: the next bit is found from what is left of the word.
    while rest != 0 {
        let j = from + rest.trailing_zeros() as usize;
        if end <= j {
            return;
        }
        marks[row_heads[j] as usize] = true;
        rest &= rest - 1;
    }
}

// Marks what stands at the flagged places from `from` up to `end`, word by word.
fn mark_flagged(row_heads: &[u32], flags: &[u64], marks: &mut [bool; 4096], from: usize, end: usize)
    requires { (from ≤ end) × (end ≤ length flags.now * 64) × Stretch row_heads.now from end }
    ensures { MarkedOf row_heads.now (flagged flags.now) from end marks.old marks.new }
{
    let mut j = from;
    // Not a `for`: the first step is shorter than the others, as a row begins anywhere in a word.
    while j < end {
        mark_word(row_heads, flags, marks, j, end);
        j = (j / 64 + 1) * 64;
    }
}

// The row of z has x at place i: marks what it has behind x, as far as an edge of the triangle is flagged. Place i itself is not flagged where
// the flags are gone through, so they may be from there on.
fn mark_over(graph: &Graph, flags: &[u64], marks: &mut [bool; 4096], z: usize, i: usize)
    requires { Turn (lent_graph graph.now) z × InRow (lent_graph graph.now) z i × (edges_of (lent_graph graph.now) ≤ length flags.now * 64) }
    ensures { MarkedOf graph.now.heads.now (λ k. flagged flags.now i || flagged flags.now k) (i + 1) (get_or graph.now.first.now (z + 1) 0) marks.old marks.new }
{
    let end = graph.first[z + 1] as usize;
    if is_flagged(flags, i) {
        mark_all(graph.heads, marks, i + 1, end);
    } else {
        mark_flagged(graph.heads, flags, marks, i, end);
    }
}

// The same, where a row without a flagged edge is passed over: there is nothing to mark.
fn mark_from(
    graph: &Graph,
    flags: &[u64],
    dirty: &[bool; 4096],
    marks: &mut [bool; 4096],
    z: usize,
    i: usize,
)
    requires { Turn (lent_graph graph.now) z × InRow (lent_graph graph.now) z i × (edges_of (lent_graph graph.now) ≤ length flags.now * 64) × Dirty (lent_graph graph.now) flags.now dirty.now }
    ensures { MarkedOf graph.now.heads.now (λ k. flagged flags.now i || flagged flags.now k) (i + 1) (get_or graph.now.first.now (z + 1) 0) marks.old marks.new }
{
    if dirty[z] {
        mark_over(graph, flags, marks, z, i);
    }
}

// Marks the edges of the row of x of which a lower triangle has a flagged edge, over the rows met in the turn of x. What was met stands in the
// clauses and in no type, as it speaks of the graph and of the turn, which `Met` does not hold.
pub fn mark_row(
    graph: &Graph,
    flags: &[u64],
    dirty: &[bool; 4096],
    met: &Met,
    marks: &mut [bool; 4096],
    x: usize,
)
    requires { Turn (lent_graph graph.now) x × (edges_of (lent_graph graph.now) ≤ length flags.now * 64) × Dirty (lent_graph graph.now) flags.now dirty.now × RowsMet (lent_graph graph.now) x met.now × AllRowsMet (lent_graph graph.now) x met.now }
    ensures { MarkedRow (lent_graph graph.now) flags.now (says marks.old) x marks.new }
{
    for t in 0..met.count {
        mark_from(
            graph,
            flags,
            dirty,
            marks,
            met.rows[t] as usize,
            met.places[t] as usize,
        );
    }
}

// Marks the edge whose road changed, in the turn of its lower end.
pub fn mark_own(marks: &mut [bool; 4096], x: usize, lo: usize, hi: usize)
    requires { hi < 4096 }
    ensures { MarkedAt hi (eqb x lo) marks.old marks.new }
{
    if x == lo {
        marks[hi] = true;
    }
}

// The positions that a change at lo can reach: lo and, from parent to parent, all above it. What a row has is on its parents' chain.
pub fn mark_chain(graph: &Graph, on: &mut [bool; 4096], lo: usize)
    requires { Turn (lent_graph graph.now) lo × Clear on.old }
    ensures { Reaches (lent_graph graph.now) lo on.new }
{
    on[lo] = true;
    let mut p = lo;
    // A walk: each place tells the next, nothing is counted.
    while graph.first[p] < graph.first[p + 1] {
        p = graph.heads[graph.first[p] as usize] as usize;
        on[p] = true;
    }
}

// Where the row of z begins to wait: nothing before it can be reached.
pub fn begin_row(graph: &Graph, on: &[bool; 4096], z: usize) -> usize
    requires { Turn (lent_graph graph.now) z × Upward (lent_graph graph.now) on.now }
    ensures { Begins (lent_graph graph.now) on.now z result }
{
    let from = graph.first[z] as usize;
    if on[z] {
        return from;
    }
    for i in (from..graph.first[z + 1] as usize).rev() {
        if !on[graph.heads[i] as usize] {
            return i + 1;
        }
    }
    from
}

// The highest position that can have a reconsidered edge, once the row of x has had its turn: the last entry of a row with a flagged edge.
pub fn reach_from(graph: &Graph, dirty: &[bool; 4096], reach: usize, x: usize) -> usize
    requires { Turn (lent_graph graph.now) x × (reach < count graph.now.first.now) × (T (says dirty.now x) → get_or graph.now.first.now x 0 < get_or graph.now.first.now (x + 1) 0) }
    ensures { Top (lent_graph graph.now) dirty.now x reach result }
{
    if !dirty[x] {
        return reach;
    }
    let end = graph.first[x + 1] as usize;
    reach.max(graph.heads[end - 1] as usize)
}
