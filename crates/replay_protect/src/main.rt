// Prints what `protect`, where it reads, answers to packed cases, a line for a case (cases/src/stdio.rt).
#![tactic(auto)]

mod opening; // opening.rt: the sample's place, and finish

use cases::line::{Answer, Out};
use cases::record::Record;
use cases::stdio;
use coding::{Place, part};

// Puts the answer of an operation to a record's fields.
fn answer(op: u8, rec: &[u8], work: &mut [u8], out: &mut Out) {
    match op {
        34 => opening::finish(rec, work, out),
        47 => out.say(opening::sample(rec)),
        _ => out.say(Ok(Answer::Bad)),
    }
}

// The loop stands here: `stdio::run` is handed the answer as a closure, and has to require that the closure can be called.
fn main(rt: HostRuntime) {
    let mut buf = stdio::room();
    let mut work = stdio::room();
    let mut out = Out::new(rt.stdout());
    for count in 0..stdio::MOST {
        match stdio::next(rt.stdin(), &mut buf) {
            Ok(Some(Record { op, len })) => {
                answer(op, part(&buf, Place { start: 0, len }), &mut work, &mut out);
                out.end_line();
            }
            ended => {
                out.end(ended, count);
                return;
            }
        }
    }
}
