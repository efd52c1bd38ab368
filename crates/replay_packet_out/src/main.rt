// Prints what `packet_out` and `protect` answer to packed cases, a line for a case (cases/src/stdio.rt).
#![tactic(auto)]

mod encoding; // encoding.rt: a record's header, and encode
mod sealing; // sealing.rt: the Length step, the mask step, and all of it

use cases::line::{Answer, Out};
use cases::record::Record;
use cases::stdio;
use coding::{Place, part};

// Puts the answer of an operation to a record's fields.
fn answer(op: u8, rec: &[u8], work: &mut [u8], out: &mut Out) {
    match op {
        36 => encoding::henc(rec, work, out),
        37 | 48 => sealing::lent(op, rec, work, out),
        38 => sealing::whole(rec, work, out),
        _ => out.say(Ok(Answer::Bad)),
    }
}

// The loop stands here: `stdio::run` is handed the answer as a closure, and has to require that the closure can be called.
fn main(rt: HostRuntime) {
    let mut buf = stdio::room();
    let mut work = stdio::room();
    let mut out = Out::new(rt.stdout());
    for count in 0..stdio::MOST {
        match stdio::next(rt.stdin(), &mut buf) {
            Ok(Some(Record { op, len })) => {
                answer(op, part(&buf, Place { start: 0, len }), &mut work, &mut out);
                out.end_line();
            }
            ended => {
                out.end(ended, count);
                return;
            }
        }
    }
}
