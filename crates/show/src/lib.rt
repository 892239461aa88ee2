// Words, numbers and lists, written to standard output.
#![tactic(auto)]

use rules::{Refusal, number_told, place_told};

// A word, then the numbers of a list, each after a space.
// Word and numbers are written one after the other: types with a Display for such lines would be no shorter.
pub fn show(rt: &impl Print, word: &[u8], list: &[u32]) {
    let _ = rt.write_all(word);
    for &x in list {
        let _ = rt.write_all(b" ");
        let _ = rt.print(u64::from(x));
    }
}

// A word, then a number after a space.
pub fn tell(rt: &impl Print, word: &[u8], number: u64) {
    let _ = rt.write_all(word);
    let _ = rt.write_all(b" ");
    let _ = rt.print(number);
}

// A word, then the number and the place of a call's refusal, 0 and 0 where it accepts.
pub fn tell_answer<X>(rt: &impl Print, word: &[u8], answer: &Result<X, Refusal>) {
    tell(rt, word, u64::from(number_told(answer)));
    tell(rt, b" at", place_told(answer) as u64);
}

// The end of a line.
pub fn end_line(rt: &impl Print) {
    let _ = rt.write_all(b"\n");
}
