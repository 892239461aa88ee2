// The whole text, line by line, into fixed lists.
#![tactic(auto)]

ghost use Rattle.std.specs.Prelude.{◌<◌, ◌≡◌, [], IfOk, length};
ghost use Rattle.text.specs.Program.{arc, problem, question, read_all, read_on, seat};
ghost use Rattle.text.specs.ReadBack.{line_back};
ghost use Rattle.reader.specs.State.{LineFits, CountsWithin};
ghost use Rattle.reader.specs.ReadOn.{step_back, placed_of, so_far, Onwards, reading_of};

pub use lists::{Lists, Sizes, State};
use rules::{Cost, Junction};
use text::{Line, find, read_line};

mod lists;

// How many junctions, arcs and questions the lists now hold.
#[derive(Clone, Copy, PartialEq, Eq)]
pub struct Counts {
    pub junctions: usize,
    pub arcs: usize,
    pub questions: usize,
}

// The line that breaks the text's rules, 0 for too long an input, as docs/FORMAT.md tells it.
#[derive(Clone, Copy, PartialEq, Eq)]
pub struct Breaks {
    pub line: usize,
}

impl Lists {
    // The `p` line comes first.
    #[tactic(auto, unfolding(text::specs::Program::fits, text::specs::Program::with))]
    fn begin(&mut self, junctions: u32, arcs: u32) -> Option<()>
        requires { LineFits (problem junctions arcs) }
        ensures { step_back result self.new ≡ placed_of (so_far self.old) (problem junctions arcs) }
    {
        if self.state.sizes.is_some() {
            return None;
        }
        self.state = State {
            sizes: Some(Sizes {
                junctions: junctions as usize,
                arcs: arcs as usize,
            }),
            listed: 0,
            seated: 0,
            asked: 0,
        };
        Some(())
    }

    // An arc is stored while arcs are missing.
    #[tactic(auto, unfolding(text::specs::Program::fits, text::specs::Program::with))]
    fn store_arc(&mut self, tail: Junction, head: Junction, cost: Cost) -> Option<()>
        ensures { step_back result self.new ≡ placed_of (so_far self.old) (arc tail.0 head.0 cost.0) }
    {
        let sizes = self.state.sizes?;
        let at = self.state.listed;
        if sizes.arcs <= at {
            return None;
        }
        self.tails[at] = tail.0;
        self.heads[at] = head.0;
        self.costs[at] = cost.0;
        self.state.listed = at + 1;
        Some(())
    }

    // An order entry is stored once the arcs are there, while entries are missing.
    #[tactic(auto, unfolding(text::specs::Program::fits, text::specs::Program::with))]
    fn store_seat(&mut self, junction: Junction) -> Option<()>
        ensures { step_back result self.new ≡ placed_of (so_far self.old) (seat junction.0) }
    {
        let sizes = self.state.with_arcs()?;
        let at = self.state.seated;
        if sizes.junctions <= at {
            return None;
        }
        self.order[at] = junction.0;
        self.state.seated = at + 1;
        Some(())
    }

    // A question is stored once the order is there, and while there are fewer than 64.
    #[tactic(auto, unfolding(text::specs::Program::fits, text::specs::Program::with))]
    fn store_question(&mut self, from: Junction, to: Junction) -> Option<()>
        ensures { step_back result self.new ≡ placed_of (so_far self.old) (question from.0 to.0) }
    {
        self.state.with_order()?;
        let at = self.state.asked;
        if 64 <= at {
            return None;
        }
        self.froms[at] = from.0;
        self.tos[at] = to.0;
        self.state.asked = at + 1;
        Some(())
    }

    // One line more: whether it may stand where it does, and what it says put into its list.
    #[tactic(auto, unfolding(text::specs::Program::fits, text::specs::Program::with))]
    fn store(&mut self, line: Line) -> Option<()>
        requires { LineFits (line_back (Some line)) }
        ensures { step_back result self.new ≡ placed_of (so_far self.old) (line_back (Some line)) }
    {
        match line {
            Line::Comment => Some(()),
            Line::Problem(n, m) => self.begin(n, m),
            Line::Arc(tail, head, cost) => self.store_arc(tail, head, cost),
            Line::Seat(junction) => self.store_seat(junction),
            Line::Question(from, to) => self.store_question(from, to),
        }
    }

    // The next line, which has to end with LF, read and stored; what stands behind it is told.
    #[tactic(auto, using(crate::proofs::ReadAll::stops_unended, crate::proofs::ReadAll::stops_unread, crate::proofs::ReadAll::stops_unfit, crate::proofs::ReadAll::goes_behind, crate::proofs::ReadAll::line_room))]
    fn next_line<'a>(&mut self, rest: &'a [u8]) -> Option<&'a [u8]>
        requires { 0 < length rest.now }
        ensures { Onwards rest.now self.old result self.new }
    {
        let end = find(rest, b'\n');
        let behind = rest.get(end + 1..)?;
        self.store(read_line(&rest[..end])?)?;
        Some(behind)
    }

    // The text ends here, before line `line`.
    #[tactic(auto, unfolding(text::specs::Program::read_on, text::specs::Program::whole))]
    fn finish(&self, line: usize) -> Result<Counts, Breaks>
        ensures reading { reading_of result self.now ≡ read_on (so_far self.now) line [] }
        ensures counts { IfOk result CountsWithin }
    {
        let sizes = self.state.with_order().ok_or(Breaks { line })?;
        Ok(Counts {
            junctions: sizes.junctions,
            arcs: sizes.arcs,
            questions: self.state.asked,
        })
    }
}

// The whole text, line by line, into the lists.
// The loop is a `while`: the next line is stored and what stands behind it told by one call, which may refuse.
#[tactic(auto, using(crate::proofs::ReadAll::no_line_left), unfolding(text::specs::Program::read_all))]
pub fn read_text(input: &[u8], lists: &mut Lists) -> Result<Counts, Breaks>
    ensures reading { reading_of result lists.new ≡ read_all input.now }
    ensures counts { IfOk result CountsWithin }
{
    if 65536 < input.len() {
        return Err(Breaks { line: 0 });
    }
    lists.state = State::new();
    let mut line = 1;
    let mut rest = input;
    while !rest.is_empty() {
        rest = lists.next_line(rest).ok_or(Breaks { line })?;
        line += 1;
    }
    lists.finish(line)
}
