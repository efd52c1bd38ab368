// Prints what `frame`, `ack` and `ecn` answer to packed cases, a line for a case (cases/src/stdio.rt).
#![tactic(auto)]

mod blocks; // blocks.rt: ACK blocks and ECN counts
mod shown; // shown.rt: a frame's text
mod walk; // walk.rt: the frames of a payload

use cases::line::{Answer, Out};
use cases::record::Record;
use cases::{record, stdio};
use coding::{Place, part};

// Puts the answer of an operation to a record's fields.
fn answer(op: u8, rec: &[u8], out: &mut Out) {
    let ns = record::numbers_of(rec);
    let b = record::bytes(rec, 0);
    match op {
        64 => walk::frames(b, out),
        66 => blocks::ackscan(ns, b, out),
        67 => blocks::ackiter(ns.n0, b, out),
        69 => blocks::ecn(ns, out),
        _ => out.say(Ok(Answer::Bad)),
    }
}

// The loop stands here: `stdio::run` is handed the answer as a closure, and has to require that the closure can be called.
fn main(rt: HostRuntime) {
    let mut buf = stdio::room();
    let mut out = Out::new(rt.stdout());
    for count in 0..stdio::MOST {
        match stdio::next(rt.stdin(), &mut buf) {
            Ok(Some(Record { op, len })) => {
                answer(op, part(&buf, Place { start: 0, len }), &mut out);
                out.end_line();
            }
            ended => {
                out.end(ended, count);
                return;
            }
        }
    }
}
