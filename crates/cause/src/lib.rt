// Why a line of a text for the program `route` is refused: its form first, then its words from the left, then its place among the lines.
#![tactic(auto)]

ghost use Rattle.std.specs.Prelude.{◌≡◌};
ghost use Rattle.text.specs.Bytes.{words};
ghost use Rattle.text.specs.ReadBack.{parts_left};
ghost use Rattle.cause.specs.Causes.{whole, is_at_most, meets, wants, not_met, first_off, letter_of, seat_place, question_place, place_fault, words_fault, any_empty, line_fault, end_fault};

use reader::{Sizes, State};
use text::{Parts, cost, junction, number};

// The four forms of a line that isn't a comment.
#[derive(Clone, Copy)]
pub enum Form {
    Problem,
    Arc,
    Seat,
    Question,
}

// What a word behind the letter must be.
#[derive(Clone, Copy)]
pub enum Want {
    Sp,
    Junctions,
    Arcs,
    Junction,
    Cost,
}

// Why a text is refused, with the numbers that its words tell: what `p` says first, then what is here.
// `Elsewhere` is for refusals that build and customise may give of other lists than a text's: the definition has it.
#[derive(Clone, Copy)]
pub enum Cause {
    TooLong,
    NoProblem,
    EndsInArcs(usize, usize),
    EndsInOrder(usize, usize),
    Unended,
    ByteOrderMark,
    CarriageReturn,
    Tab,
    Empty,
    Spaces,
    Letter,
    NotSp,
    NotJunctions,
    NotArcs,
    NotJunction,
    NotCost,
    TooFew(Form),
    TooMany(Form),
    SecondProblem,
    BeforeProblem,
    ArcTooMany(usize),
    ArcsShort(usize, usize),
    SeatTooMany(usize),
    OrderShort(usize, usize),
    QuestionTooMany,
    NoJunction,
    EndOver(usize),
    SeatOver(usize),
    SeatTwice,
    EdgesOver,
    Elsewhere,
}

// A cause, and the word of the line that it speaks of, counted from 1, if it speaks of one.
#[derive(Clone, Copy)]
pub struct Fault {
    pub cause: Cause,
    pub word: Option<usize>,
}

impl From<Cause> for Fault {
    ghost from_gives = { λ cause fault. fault ≡ whole cause };

    // A cause that speaks of no word.
    fn from(cause: Cause) -> Fault {
        Fault { cause, word: None }
    }
}

// A word is a number, and not over `most`.
fn is_at_most(word: &[u8], most: u32) -> bool
    ensures { result ≡ is_at_most most word.now }
{
    number(word).is_some_and(|x| x <= most)
}

// A word is what it must be. A match and no table of functions, here and below: a table handed out may hold none.
#[tactic(auto, using(text::proofs::Cuts::same_is, crate::proofs::LineFault::junction_met, crate::proofs::LineFault::cost_met))]
fn is_wanted(word: &[u8], want: Want) -> bool
    ensures { result ≡ meets want word.now }
{
    match want {
        Want::Sp => word == b"sp".as_slice(),
        Want::Junctions => is_at_most(word, 256),
        Want::Arcs => is_at_most(word, 1024),
        Want::Junction => junction(word).is_some(),
        Want::Cost => cost(word).is_some(),
    }
}

// What the words behind the letter must be: `p sp n m`, `a tail head cost`, `o junction`, `q from to`.
fn wants(form: Form) -> &'static [Want]
    ensures { result.now ≡ wants form }
{
    match form {
        Form::Problem => &[Want::Sp, Want::Junctions, Want::Arcs],
        Form::Arc => &[Want::Junction, Want::Junction, Want::Cost],
        Form::Seat => &[Want::Junction],
        Form::Question => &[Want::Junction, Want::Junction],
    }
}

// Why a word that is not what it must be is refused.
fn not_met(want: Want) -> Cause
    ensures { result ≡ not_met want }
{
    match want {
        Want::Sp => Cause::NotSp,
        Want::Junctions => Cause::NotJunctions,
        Want::Arcs => Cause::NotArcs,
        Want::Junction => Cause::NotJunction,
        Want::Cost => Cause::NotCost,
    }
}

// Looks for the first word behind the letter that is not what the form asks for, that is missing, or that is one too many.
#[tactic(auto, using(crate::proofs::LineFault::off_missing, crate::proofs::LineFault::off_on))]
fn first_off(mut words: Parts, form: Form) -> Result<(), Fault>
    ensures { result ≡ first_off form 0 (parts_left words.entry) }
{
    let wanted = wants(form);
    for (k, want) in wanted.iter().enumerate() {
        let Some(word) = words.next() else {
            return Err(Fault::from(Cause::TooFew(form)));
        };
        if !is_wanted(word, *want) {
            return Err(Fault {
                cause: not_met(*want),
                word: Some(k + 2),
            });
        }
    }
    match words.next() {
        None => Ok(()),
        Some(_) => Err(Fault {
            cause: Cause::TooMany(form),
            word: Some(wanted.len() + 2),
        }),
    }
}

// The form that a line's first word names.
#[tactic(auto, using(crate::proofs::LineFault::no_letter, crate::proofs::LineFault::letter_lem))]
fn letter_of(word: &[u8]) -> Option<Form>
    ensures { result ≡ letter_of word.now }
{
    let [letter] = word else {
        return None;
    };
    match *letter {
        b'p' => Some(Form::Problem),
        b'a' => Some(Form::Arc),
        b'o' => Some(Form::Seat),
        b'q' => Some(Form::Question),
        _ => None,
    }
}

// An order entry that may not stand behind `p` where it does: before the last arc, or behind the last entry.
fn seat_place(state: State, sizes: Sizes) -> Cause
    ensures { result ≡ seat_place state sizes }
{
    if state.listed != sizes.arcs {
        return Cause::ArcsShort(sizes.arcs, state.listed);
    }
    Cause::SeatTooMany(sizes.junctions)
}

// A question likewise: before the last arc, before the last order entry, or behind 64 others.
fn question_place(state: State, sizes: Sizes) -> Cause
    ensures { result ≡ question_place state sizes }
{
    if state.listed != sizes.arcs {
        return Cause::ArcsShort(sizes.arcs, state.listed);
    }
    if state.seated != sizes.junctions {
        return Cause::OrderShort(sizes.junctions, state.seated);
    }
    Cause::QuestionTooMany
}

// Why a line of a right form may not stand where it does: a second `p`, a line before `p`, or what the numbers of `p` refuse.
fn place_fault(form: Form, state: State) -> Fault
    ensures { result ≡ place_fault form state }
{
    Fault::from(match (form, state.sizes) {
        (Form::Problem, _) => Cause::SecondProblem,
        (_, None) => Cause::BeforeProblem,
        (Form::Arc, Some(sizes)) => Cause::ArcTooMany(sizes.arcs),
        (Form::Seat, Some(sizes)) => seat_place(state, sizes),
        (Form::Question, Some(sizes)) => question_place(state, sizes),
    })
}

// Why the words of a line are refused, or its place if they are right.
fn words_fault(line: &[u8], state: State) -> Fault
    ensures { result ≡ words_fault state (words line.now) }
{
    let mut words = Parts::new(line, b' ');
    let Some(form) = words.next().and_then(letter_of) else {
        return Fault {
            cause: Cause::Letter,
            word: Some(1),
        };
    };
    match first_off(words, form) {
        Ok(()) => place_fault(form, state),
        Err(fault) => fault,
    }
}

// Two spaces stand in a row, or one at an end.
fn has_empty_word(line: &[u8]) -> bool
    ensures { result ≡ any_empty (words line.now) }
{
    Parts::new(line, b' ').any(|word| word.is_empty())
}

// Why a line that ends with LF is refused, after lines that say `state`.
#[tactic(auto, using(crate::proofs::LineFault::line_lem))]
pub fn line_fault(line: &[u8], state: State) -> Fault
    ensures { result ≡ line_fault state line.now }
{
    if line.starts_with(b"\xef\xbb\xbf") {
        return Fault::from(Cause::ByteOrderMark);
    }
    if line.ends_with(b"\r") {
        return Fault::from(Cause::CarriageReturn);
    }
    if line.contains(&b'\t') {
        return Fault::from(Cause::Tab);
    }
    if line.is_empty() {
        return Fault::from(Cause::Empty);
    }
    if has_empty_word(line) {
        return Fault::from(Cause::Spaces);
    }
    words_fault(line, state)
}

// Why a text may not end after lines that say `state`: `p`, an arc or an order entry is missing.
pub fn end_fault(state: State) -> Fault
    ensures { result ≡ end_fault state }
{
    let Some(sizes) = state.sizes else {
        return Fault::from(Cause::NoProblem);
    };
    if state.listed != sizes.arcs {
        return Fault::from(Cause::EndsInArcs(sizes.arcs, state.listed));
    }
    Fault::from(Cause::EndsInOrder(sizes.junctions, state.seated))
}
