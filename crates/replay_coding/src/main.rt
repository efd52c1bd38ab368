// Prints what `coding` and `shared` answer to packed cases, a line for a case (cases/src/stdio.rt).
#![tactic(auto)]

mod kinds; // kinds.rt: the operations of `shared`
mod leaf; // leaf.rt: the operations of `coding`

use cases::line::{Answer, Out};
use cases::record::{Numbers, Record};
use cases::{record, stdio};
use coding::{Place, Refusal, part};

// The operations that answer with a word and numbers.
fn said(op: u8, ns: Numbers, b: &[u8]) -> Result<Answer, Refusal> {
    match op {
        1 => leaf::vread(ns, b),
        2 => leaf::vfrom(ns.n0),
        3 => leaf::vsize(ns.n0),
        6 => leaf::get(ns, b),
        9 => leaf::take(ns, b),
        15 => Ok(kinds::ecnbits(ns.n0)),
        16 => kinds::sidnew(ns.n0, ns.n1, ns.n2),
        _ => Ok(Answer::Bad),
    }
}

// Puts the answer of an operation to a record's fields.
fn answer(op: u8, rec: &[u8], work: &mut [u8], out: &mut Out) {
    let ns = record::numbers_of(rec);
    let b = record::bytes(rec, 0);
    match op {
        4 | 5 | 7 | 8 | 14 => leaf::write(op, rec, work, out),
        10 => out.hex(leaf::part_at(ns, b)),
        11 | 12 | 13 => kinds::cids(op, ns, b, out),
        17 => kinds::sid(ns.n0, out),
        18 => kinds::ftypes(out),
        _ => out.say(said(op, ns, b)),
    }
}

// The loop stands here: `stdio::run` is handed the answer as a closure, and has to require that the closure can be called.
fn main(rt: HostRuntime) {
    let mut buf = stdio::room();
    let mut work = stdio::room();
    let mut out = Out::new(rt.stdout());
    for count in 0..stdio::MOST {
        match stdio::next(rt.stdin(), &mut buf) {
            Ok(Some(Record { op, len })) => {
                answer(op, part(&buf, Place { start: 0, len }), &mut work, &mut out);
                out.end_line();
            }
            ended => {
                out.end(ended, count);
                return;
            }
        }
    }
}
