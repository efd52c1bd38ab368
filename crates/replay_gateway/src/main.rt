// Prints what the functions of `gateway` answer to packed cases, a line for a case (cases/src/stdio.rt): every field of the record
// in its order, then the bytes at its places and all of a lent buffer.
#![tactic(auto)]

mod frames; // frames.rt: frame_read
mod headers; // headers.rt: header_write and mask
mod numbers; // numbers.rt: number_step
mod packets; // packets.rt: split, sample_place and unmask

use cases::line::{Answer, Out};
use cases::record::Record;
use cases::stdio;
use coding::{Place, part};
use gateway_frame::Span;

// The bytes at a place, after a space.
fn and_bytes(s: &[u8], span: Span, out: &mut Out) {
    let Span { start, len } = span;
    out.and_part(s, Place { start, len });
}

// Puts the answer of an operation to a record's fields.
fn answer(op: u8, rec: &[u8], work: &mut [u8], out: &mut Out) {
    match op {
        96 => packets::split(rec, out),
        97 => packets::sample(rec, out),
        98 => packets::unmask(rec, work, out),
        99 => frames::read(rec, out),
        100 => numbers::step(rec, out),
        101 => headers::write(rec, work, out),
        102 => headers::mask(rec, work, out),
        _ => out.say(Ok(Answer::Bad)),
    }
}

// The loop stands here: `stdio::run` is handed the answer as a closure, and has to require that the closure can be called.
fn main(rt: HostRuntime) {
    let mut buf = stdio::room();
    let mut work = stdio::room();
    let mut out = Out::new(rt.stdout());
    for count in 0..stdio::MOST {
        match stdio::next(rt.stdin(), &mut buf) {
            Ok(Some(Record { op, len })) => {
                answer(op, part(&buf, Place { start: 0, len }), &mut work, &mut out);
                out.end_line();
            }
            ended => {
                out.end(ended, count);
                return;
            }
        }
    }
}
