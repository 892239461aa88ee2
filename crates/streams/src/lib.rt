// Bytes read to the end of the input, and bytes written, each failure told on standard error.
#![tactic(auto)]

ghost use Rattle.std.specs.Prelude.{IfOk};
ghost use Rattle.streams.specs.Got.{IsPrefixLen};

use std::io::{Print, Read, Result, Stderr, Stdout};

// Reads until the input ends or buf is full, and tells how many bytes came. A read that fails is not taken for the end of the input.
// A loop of our own: what std has for this, `read_to_end`, needs a heap, and `read_exact` does not tell how many bytes came.
pub fn read_all(input: &mut impl Read, buf: &mut [u8]) -> Result<usize>
    ensures { IfOk result (λ n. IsPrefixLen n buf.new) }
{
    let mut done = 0;
    while done < buf.len() {
        let more = input.read(&mut buf[done..])?;
        if more == 0 {
            return Ok(done);
        }
        done += more;
    }
    Ok(done)
}

// A line on standard error: a program's name, and what failed. Where it cannot be written there is nobody to tell.
fn tell(errors: Stderr, program: &[u8], failure: &[u8]) {
    let _ = errors.write_all(program);
    let _ = errors.write_all(failure);
}

// Tells on standard error that the program could not read its input.
pub fn tell_unread(errors: Stderr, program: &[u8]) {
    tell(errors, program, b": reading failed\n");
}

// Writes all bytes to standard output, or tells on standard error that this failed.
pub fn write_out(output: Stdout, errors: Stderr, program: &[u8], bytes: &[u8]) {
    if output.write_all(bytes).is_err() {
        tell(errors, program, b": writing failed\n");
    }
}
