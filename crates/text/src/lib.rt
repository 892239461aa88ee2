// The program's text, word by word: what a line says.
#![tactic(auto)]

ghost use Rattle.std.specs.Prelude.{◌≡◌, length};
ghost use Rattle.std.specs.Iterator.{YieldsFirstRef, item_count};
ghost use Rattle.text.specs.Program.{line_of};
ghost use Rattle.text.specs.Bytes.{cut_at, words};
ghost use Rattle.text.specs.ReadBack.{PartEnd, parts_left, letter_said, number_said, junction_said, cost_said, line_back, problem_said, arc_said, seat_said, question_said};

use rules::{Cost, Junction};

// What a line says; junctions are counted from 0.
#[derive(Clone, Copy)]
pub enum Line {
    Comment,
    Problem(u32, u32),
    Arc(Junction, Junction, Cost),
    Seat(Junction),
    Question(Junction, Junction),
}

// The first place at which `mark` stands; the length if there is none: a part ends there either way.
pub fn find(bytes: &[u8], mark: u8) -> usize
    ensures { PartEnd bytes.now mark result }
{
    bytes
        .iter()
        .position(|byte| *byte == mark)
        .unwrap_or(bytes.len())
}

// The parts of some bytes that are still to be read, cut at each `mark`: the bytes from the next part on, or nothing behind the last.
#[derive(Clone, Copy)]
pub struct Parts<'a> {
    pub rest: Option<&'a [u8]>,
    pub mark: u8,
}

impl<'a> Parts<'a> {
    // All parts of some bytes: the lines of a text, the words of a line.
    pub fn new(bytes: &'a [u8], mark: u8) -> Self
        ensures { parts_left result ≡ cut_at mark bytes.now }
    {
        Self {
            rest: Some(bytes),
            mark,
        }
    }
}

impl<'a> Iterator for Parts<'a> {
    type Item = &'a [u8];

    ghost next_gives = { YieldsFirstRef parts_left };

    ghost remaining = { item_count parts_left };

    // The next part, which ends at a mark or at the end of all.
    fn next(&mut self) -> Option<&'a [u8]> {
        let rest = self.rest?;
        let end = find(rest, self.mark);
        self.rest = rest.get(end + 1..);
        Some(&rest[..end])
    }
}

// The one byte of a word.
#[tactic(auto, unfolding(crate::specs::ReadBack::letter_said))]
fn letter(word: &[u8]) -> Option<u8>
    ensures { result ≡ letter_said word.now }
{
    match word {
        [byte] => Some(*byte),
        _ => None,
    }
}

// The number that a word of one to nine digits says.
#[tactic(auto, using(crate::proofs::Cuts::counted_fits, crate::proofs::Cuts::counted_not, crate::proofs::Cuts::counted_all), unfolding(crate::specs::ReadBack::number_said))]
pub fn number(word: &[u8]) -> Option<u32>
    ensures { result ≡ number_said word.now }
{
    if word.is_empty() {
        return None;
    }
    if 9 < word.len() {
        return None;
    }
    let mut value = 0;
    for byte in word {
        if !byte.is_ascii_digit() {
            return None;
        }
        value = value * 10 + u32::from(*byte - b'0');
    }
    Some(value)
}

// A junction's number, written from 1 on and counted from 0 on.
#[tactic(auto, unfolding(crate::specs::ReadBack::number_said, crate::specs::ReadBack::junction_said))]
pub fn junction(word: &[u8]) -> Option<u32>
    ensures { result ≡ junction_said word.now }
{
    number(word)?.checked_sub(1)
}

// A cost: a number, or `-` for CLOSED.
#[tactic(auto, using(crate::proofs::Cuts::same_is), unfolding(crate::specs::ReadBack::number_said, crate::specs::ReadBack::cost_said))]
pub fn cost(word: &[u8]) -> Option<u32>
    ensures { result ≡ cost_said word.now }
{
    if word == b"-".as_slice() {
        return Some(Cost::CLOSED.0);
    }
    number(word)
}

// What follows `p`: the word `sp`, how many junctions and how many arcs.
// Four readers: kinds and number of words differ; what they share is `next()?` and that nothing is left.
#[tactic(auto, using(crate::proofs::Cuts::same_is), unfolding(crate::specs::ReadBack::problem_said, crate::specs::ReadBack::sp_said))]
fn problem_line(mut words: Parts) -> Option<Line>
    ensures { line_back result ≡ problem_said (parts_left words.entry) }
{
    if words.next()? != b"sp".as_slice() {
        return None;
    }
    let junctions = number(words.next()?)?;
    let arcs = number(words.next()?)?;
    if words.next().is_some() {
        return None;
    }
    if 256 < junctions {
        return None;
    }
    if 1024 < arcs {
        return None;
    }
    Some(Line::Problem(junctions, arcs))
}

// What follows `a`: tail, head and cost.
#[tactic(auto, unfolding(crate::specs::ReadBack::arc_said))]
fn arc_line(mut words: Parts) -> Option<Line>
    ensures { line_back result ≡ arc_said (parts_left words.entry) }
{
    let tail = junction(words.next()?)?;
    let head = junction(words.next()?)?;
    let price = cost(words.next()?)?;
    if words.next().is_some() {
        return None;
    }
    Some(Line::Arc(Junction(tail), Junction(head), Cost(price)))
}

// What follows `o`: a junction.
#[tactic(auto, unfolding(crate::specs::ReadBack::seat_said))]
fn seat_line(mut words: Parts) -> Option<Line>
    ensures { line_back result ≡ seat_said (parts_left words.entry) }
{
    let seat = junction(words.next()?)?;
    if words.next().is_some() {
        return None;
    }
    Some(Line::Seat(Junction(seat)))
}

// What follows `q`: two junctions.
#[tactic(auto, unfolding(crate::specs::ReadBack::question_said))]
fn question_line(mut words: Parts) -> Option<Line>
    ensures { line_back result ≡ question_said (parts_left words.entry) }
{
    let from = junction(words.next()?)?;
    let to = junction(words.next()?)?;
    if words.next().is_some() {
        return None;
    }
    Some(Line::Question(Junction(from), Junction(to)))
}

// A line without its LF: the first word, `c`, `p`, `a`, `o` or `q`, says how the others are read; none for any other line.
#[tactic(auto, using(crate::proofs::LineOf::line_none, crate::proofs::LineOf::line_by_p, crate::proofs::LineOf::line_by_a, crate::proofs::LineOf::line_by_o, crate::proofs::LineOf::line_by_q))]
pub fn read_line(line: &[u8]) -> Option<Line>
    ensures { line_back result ≡ line_of (words line.now) }
{
    let mut words = Parts::new(line, b' ');
    // A match and no table: each arm is a reader of its own, called once.
    match letter(words.next()?)? {
        b'c' => Some(Line::Comment),
        b'p' => problem_line(words),
        b'a' => arc_line(words),
        b'o' => seat_line(words),
        b'q' => question_line(words),
        _ => None,
    }
}
