// The program: a text with roads, an order and questions on standard input, the answer on standard output, a failure on standard error.
#![tactic(auto)]

use program::{Answer, answer};
use streams::{read_all, tell_unread, write_out};

// Reads one byte more than a text may have, so that too long a text is seen.
// `bad_line` has such a main, too: a shared one would take the answer as a closure over pages of two sizes.
fn main(rt: HostRuntime) {
    let mut input = [0u8; 65537];
    let Ok(got) = read_all(&mut rt.stdin(), &mut input) else {
        tell_unread(rt.stderr(), b"route");
        return;
    };
    let mut page = Answer::new();
    answer(&input[..got], &mut page);
    write_out(rt.stdout(), rt.stderr(), b"route", page.written());
}
