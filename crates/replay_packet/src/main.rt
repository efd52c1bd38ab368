// Prints what `packet` and `dump_text` answer to packed cases, a line for a case (cases/src/stdio.rt).
#![tactic(auto)]

mod header; // header.rt: a header's text
mod reading; // reading.rt: header decode, split, walk, dump

use cases::line::{Answer, Out};
use cases::record::Record;
use cases::stdio;
use coding::{Place, part};

// Puts the answer of an operation to a record's fields.
fn answer(op: u8, rec: &[u8], out: &mut Out) {
    match op {
        32 | 33 | 46 => reading::asked(op, rec, out),
        35 => reading::dump(rec, out),
        _ => out.say(Ok(Answer::Bad)),
    }
}

// The loop stands here: `stdio::run` is handed the answer as a closure, and has to require that the closure can be called.
fn main(rt: HostRuntime) {
    let mut buf = stdio::room();
    let mut out = Out::new(rt.stdout());
    for count in 0..stdio::MOST {
        match stdio::next(rt.stdin(), &mut buf) {
            Ok(Some(Record { op, len })) => {
                answer(op, part(&buf, Place { start: 0, len }), &mut out);
                out.end_line();
            }
            ended => {
                out.end(ended, count);
                return;
            }
        }
    }
}
