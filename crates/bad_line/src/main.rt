// Tells what is wrong with a text for the program `route`: the line, the refusal's number, the cause, and the line itself.
#![tactic(auto)]

use cause::{Cause, Form};
use fault::{Wrong, find_fault};
use page::Page;
use std::fmt;
use std::fmt::{Display, Formatter, Write};
use streams::{read_all, tell_unread, write_out};

// The part number k, from 1, of some bytes cut at each `mark`; the last part if there are fewer.
fn nth_part(bytes: &[u8], mark: u8, k: usize) -> &[u8] {
    let parts = bytes.split(|&byte| byte == mark);
    parts.take(k).last().unwrap_or(bytes)
}

// Some bytes of the text, 80 at most: each as it is if it is of plain text, else as \xNN.
#[derive(Clone, Copy)]
struct Shown<'a>(&'a [u8]);

impl Display for Shown<'_> {
    fn fmt<W: Write>(&self, f: &mut Formatter<W>) -> fmt::Result {
        for (k, &byte) in self.0.iter().enumerate() {
            if k == 80 {
                return write!(f, " ..");
            }
            match byte {
                32..=126 => write!(f, "{}", char::from(byte))?,
                _ => write!(f, "\\x{byte:02x}")?,
            }
        }
        Ok(())
    }
}

// How a line of a form is written.
// A function and no Display, here and below: Form and Cause are of another crate, so Display is for `Words`.
fn form_words(form: Form) -> &'static str {
    match form {
        Form::Problem => "p sp n m",
        Form::Arc => "a tail head cost",
        Form::Seat => "o junction",
        Form::Question => "q from to",
    }
}

// Why a net is refused, in words.
fn write_net_cause<W: Write>(f: &mut Formatter<W>, cause: Cause) -> fmt::Result {
    match cause {
        Cause::NoJunction => write!(f, "there must be a junction"),
        Cause::EndOver(n) => write!(f, "an arc ends at junctions 1 to {n}"),
        Cause::SeatOver(n) => write!(f, "the order has junctions 1 to {n}"),
        Cause::SeatTwice => write!(f, "each junction stands in the order once"),
        Cause::EdgesOver => write!(f, "this order makes more than 4096 edges"),
        _ => write!(f, "the lists do not fit together"),
    }
}

// What `p` says of the arcs, and how many there are.
fn write_arcs_short<W: Write>(f: &mut Formatter<W>, says: usize, are: usize) -> fmt::Result {
    write!(f, "p says {says} arcs, here are {are}")
}

// What `p` says of the junctions, and how many stand in the order.
fn write_order_short<W: Write>(f: &mut Formatter<W>, says: usize, are: usize) -> fmt::Result {
    write!(f, "p says {says} junctions, here are {are} lines o")
}

// Why a line may not stand where it does, in words.
fn write_place_cause<W: Write>(f: &mut Formatter<W>, cause: Cause) -> fmt::Result {
    match cause {
        Cause::SecondProblem => write!(f, "there is one line p, and it came before"),
        Cause::BeforeProblem => write!(f, "the line p sp n m must come first"),
        Cause::ArcTooMany(m) => write!(f, "p says {m} arcs; this is one more"),
        Cause::ArcsShort(m, k) => write_arcs_short(f, m, k),
        Cause::SeatTooMany(n) => write!(f, "p says {n} junctions; this is one line o more"),
        Cause::OrderShort(n, k) => write_order_short(f, n, k),
        Cause::QuestionTooMany => write!(f, "there are at most 64 questions"),
        _ => write_net_cause(f, cause),
    }
}

// Why the words of a line are refused, in words.
fn write_word_cause<W: Write>(f: &mut Formatter<W>, cause: Cause) -> fmt::Result {
    match cause {
        Cause::Letter => write!(f, "a line begins with c, p, a, o or q"),
        Cause::NotSp => write!(f, "p is followed by sp"),
        Cause::NotJunctions => write!(f, "there are at most 256 junctions"),
        Cause::NotArcs => write!(f, "there are at most 1024 arcs"),
        Cause::NotJunction => {
            write!(
                f,
                "a junction is a number from 1 on, of at most nine digits"
            )
        }
        Cause::NotCost => write!(f, "a cost is 1 to 500000 or -"),
        Cause::TooFew(form) => {
            write!(f, "the line has too few words; it is {}", form_words(form))
        }
        Cause::TooMany(form) => {
            write!(f, "the line has too many words; it is {}", form_words(form))
        }
        _ => write_place_cause(f, cause),
    }
}

// Why a line's form is refused, in words.
fn write_line_cause<W: Write>(f: &mut Formatter<W>, cause: Cause) -> fmt::Result {
    match cause {
        Cause::Unended => write!(f, "the last line does not end with LF"),
        Cause::ByteOrderMark => write!(f, "the line begins with a byte order mark"),
        Cause::CarriageReturn => { write!(f, "the line ends in CR LF; it must end in LF alone") }
        Cause::Tab => write!(f, "words are parted by one space; here is a tab"),
        Cause::Empty => write!(f, "the line is empty"),
        Cause::Spaces => {
            write!(
                f,
                "words are parted by one space; here are more, or one at an end"
            )
        }
        _ => write_word_cause(f, cause),
    }
}

// Why a text is refused, in words.
#[derive(Clone, Copy)]
struct Words(Cause);

impl Display for Words {
    fn fmt<W: Write>(&self, f: &mut Formatter<W>) -> fmt::Result {
        match self.0 {
            Cause::TooLong => write!(f, "a text has at most 65536 bytes"),
            Cause::NoProblem => write!(f, "the text ends; it has no line p sp n m"),
            Cause::EndsInArcs(m, k) => {
                write!(f, "the text ends; ")?;
                write_arcs_short(f, m, k)
            }
            Cause::EndsInOrder(n, k) => {
                write!(f, "the text ends; ")?;
                write_order_short(f, n, k)
            }
            _ => write_line_cause(f, self.0),
        }
    }
}

// What is told of a text that is refused; line 0 has no text.
fn tell_wrong<W: Write>(told: &mut W, input: &[u8], wrong: Wrong) -> fmt::Result {
    let line = wrong.line;
    let text = if line == 0 {
        &[]
    } else {
        nth_part(input, b'\n', line)
    };
    write!(
        told,
        "line {line}: refused {}: {}",
        wrong.refusal.number(),
        Words(wrong.fault.cause)
    )?;
    if let Some(word) = wrong.fault.word {
        write!(told, "; here {}", Shown(nth_part(text, b' ', word)))?;
    }
    writeln!(told)?;
    if !text.is_empty() {
        writeln!(told, "  {}", Shown(text))?;
    }
    Ok(())
}

// What is told of a text.
fn tell_verdict<W: Write>(told: &mut W, input: &[u8]) -> fmt::Result {
    match find_fault(input) {
        Ok(()) => writeln!(told, "the text keeps the rules"),
        Err(wrong) => tell_wrong(told, input, wrong),
    }
}

// Reads one byte more than a text may have, so that too long a text is seen. What is told has room for 1,024 bytes; a page takes what fits.
// `route` has such a main, too: a shared one would take the answer as a closure over pages of two sizes.
fn main(rt: HostRuntime) {
    let mut input = [0u8; 65537];
    let Ok(got) = read_all(&mut rt.stdin(), &mut input) else {
        tell_unread(rt.stderr(), b"bad_line");
        return;
    };
    let mut told: Page<1024> = Page::new();
    let _ = tell_verdict(&mut told, &input[..got]);
    write_out(rt.stdout(), rt.stderr(), b"bad_line", told.written());
}
