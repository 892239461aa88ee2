// The program's answer, written on a page: each function goes on behind what stands there.
#![tactic(auto)]

ghost use Rattle.std.specs.Prelude.{suc, ◌+◌, ◌≤◌, ◌<◌, ◌≡◌, [], ◌∷◌, ◌++◌, map, length};
ghost use Rattle.rules.specs.Replies.{route_reply};
ghost use Rattle.rules.specs.Calls.{route_left};
ghost use Rattle.text.specs.Bytes.{decimal};
ghost use Rattle.text.specs.Program.{edges_line, refused_line, spaced, reply_line};
ghost use Rattle.print.specs.Written.{ArcsShort, ReplyShort, drive_written};

use page::Page;
use rules::{Drive, Junction, Refusal};

// The page of an answer, long enough for any.
pub type Answer = Page<98304>;

// A number in digits: what stands before its last digit first.
// Our own: std's way to write a number, `write!`, may fail as far as it promises.
fn put_decimal(page: &mut Answer, x: u64)
    requires { length page.old + 20 ≤ 98304 }
    ensures wrote { page.new ≡ page.old ++ decimal x }
    ensures few { length page.new ≤ length page.old + 20 }
{
    if 10 <= x {
        put_decimal(page, x / 10);
    }
    page.push(b'0' + (x % 10) as u8);
}

// A number behind a space.
#[tactic(auto, using(crate::proofs::Wrote::spaced_parts))]
fn put_spaced(page: &mut Answer, x: u64)
    requires { length page.old + 21 ≤ 98304 }
    ensures wrote { page.new ≡ page.old ++ spaced (x ∷ []) }
    ensures few { length page.new ≤ length page.old + 21 }
{
    page.push(b' ');
    put_decimal(page, x);
}

// `edges E`.
// This and the next are two functions, as each promises a definition of its own.
pub fn put_edges_line(page: &mut Answer, e: usize)
    requires { length page.old + 27 ≤ 98304 }
    ensures wrote { page.new ≡ page.old ++ edges_line e }
    ensures few { length page.new ≤ length page.old + 27 }
{
    page.put(b"edges ");
    put_decimal(page, e as u64);
    page.push(b'\n');
}

// `refused N`.
pub fn put_refused_line(page: &mut Answer, n: u32)
    requires { length page.old + 29 ≤ 98304 }
    ensures wrote { page.new ≡ page.old ++ refused_line n }
    ensures few { length page.new ≤ length page.old + 29 }
{
    page.put(b"refused ");
    put_decimal(page, u64::from(n));
    page.push(b'\n');
}

// The arc numbers of a route, counted from 1.
fn put_arcs(page: &mut Answer, arcs: &[u32])
    requires { (length page.old + 1301 ≤ 98304) × ArcsShort arcs.now }
    ensures wrote { page.new ≡ page.old ++ spaced (map suc arcs.now) }
    ensures few { length page.new ≤ length page.old + 1280 }
{
    for &arc in arcs {
        put_spaced(page, u64::from(arc) + 1);
    }
}

// Distance, number of arcs and the arcs.
#[tactic(auto, using(crate::proofs::Wrote::drive_parts))]
fn put_drive(page: &mut Answer, distance: u64, arcs: &[u32])
    requires { (length page.old + 1350 ≤ 98304) × ArcsShort arcs.now }
    ensures wrote { page.new ≡ page.old ++ drive_written distance arcs.now }
    ensures few { length page.new ≤ length page.old + 1323 }
{
    put_spaced(page, distance);
    put_spaced(page, arcs.len() as u64);
    put_arcs(page, arcs);
    page.push(b'\n');
}

// The line of one question: from, to, and what route answers.
pub fn put_reply(
    page: &mut Answer,
    from: Junction,
    to: Junction,
    answer: Result<Option<Drive>, Refusal>,
    route: &[u32],
)
    requires { (length page.old + 1400 ≤ 98304) × ReplyShort answer route.now }
    ensures wrote { page.new ≡ page.old ++ reply_line from.0 to.0 (route_left route.now (route_reply answer)) }
    ensures few { length page.new ≤ length page.old + 1400 }
{
    put_decimal(page, u64::from(from.0) + 1);
    put_spaced(page, u64::from(to.0) + 1);
    match answer {
        Ok(Some(found)) => put_drive(page, found.distance, &route[..found.arcs]),
        Ok(None) => page.put(b" none\n"),
        Err(refusal) => {
            page.push(b' ');
            put_refused_line(page, refusal.number());
        }
    }
}
