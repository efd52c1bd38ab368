// Prints what `number` and `spaces` answer to packed cases, a line for a case (cases/src/stdio.rt).
#![tactic(auto)]

mod numbers; // numbers.rt: packet numbers
mod one_space; // one_space.rt: a run of steps over one space
mod three_spaces; // three_spaces.rt: a run of steps over the record of three

use cases::line::{Answer, Out};
use cases::record::{Numbers, Record};
use cases::{record, stdio};
use coding::{Place, Refusal, part};

// The operations that answer with a word and numbers.
fn said(op: u8, ns: Numbers, b: &[u8]) -> Result<Answer, Refusal> {
    match op {
        39 => numbers::pnnew(ns.n0, ns.n1),
        40 => numbers::pnexp(ns.n0, ns.n1, ns.n2),
        41 => numbers::pndec(ns.n0, b),
        43 => Ok(numbers::pnlen(ns.n0)),
        44 => numbers::pntag(ns.n0, ns.n1),
        _ => Ok(Answer::Bad),
    }
}

// Puts the answer of an operation to a record's fields.
fn answer(op: u8, rec: &[u8], work: &mut [u8], out: &mut Out) {
    let ns = record::numbers_of(rec);
    let b = record::bytes(rec, 0);
    match op {
        42 => numbers::pnenc(ns, b, work, out),
        45 => one_space::ends(b, out),
        49 => three_spaces::spaces(b, out),
        _ => out.say(said(op, ns, b)),
    }
}

// The loop stands here: `stdio::run` is handed the answer as a closure, and has to require that the closure can be called.
fn main(rt: HostRuntime) {
    let mut buf = stdio::room();
    let mut work = stdio::room();
    let mut out = Out::new(rt.stdout());
    for count in 0..stdio::MOST {
        match stdio::next(rt.stdin(), &mut buf) {
            Ok(Some(Record { op, len })) => {
                answer(op, part(&buf, Place { start: 0, len }), &mut work, &mut out);
                out.end_line();
            }
            ended => {
                out.end(ended, count);
                return;
            }
        }
    }
}
