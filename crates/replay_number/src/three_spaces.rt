// A run of steps over the record of three number spaces, each in the space of a packet's kind.
use crate::numbers::full;
use crate::one_space::{Step, and_ends, kept, numbered, sent, set};
use cases::line::{Answer, Out};
use coding::{Reader, Refusal, UnexpectedEnd};
use protect::Kind;
use shared::{CutNumber, FullNumber};
use spaces::Spaces;

// The kind by its number; what is past 4 is Version Negotiation.
fn kind_of(kind: u8) -> Kind {
    match kind {
        0 => Kind::Initial,
        1 => Kind::ZeroRtt,
        2 => Kind::Handshake,
        3 => Kind::Retry,
        4 => Kind::Short,
        _ => Kind::VersionNegotiate,
    }
}

// A step's number, the kind's, and two numbers, 14 bytes.
fn read_step(bytes: &[u8]) -> Result<(Kind, Step), UnexpectedEnd> {
    let mut r = Reader { bytes, at: 0 };
    let op = r.get::<u8>()?;
    let kind = r.get::<u8>()?;
    Ok((kind_of(kind), numbered(op, &mut r)?))
}

// What a step says that is a call.
fn call(x: &mut Spaces, kind: Kind, step: Step) -> Result<Answer, Refusal> {
    let Step { op, n, v } = step;
    match op {
        0 => sent(x.send(kind)),
        1 => kept(x.acknowledge(kind, FullNumber(n))),
        2 => full(x.read(kind, CutNumber(n as usize, v))),
        3 => kept(x.accept(kind, FullNumber(n))),
        _ => Ok(Answer::Bad),
    }
}

// Sets an end of the kind's space, where it has one.
fn set_in(x: &mut Spaces, kind: Kind, step: Step) {
    if let Some(id) = spaces::space_of(kind) {
        let mut s = x.get(id);
        set(&mut s, step);
        *x = x.put(id, s);
    }
}

fn take_step(x: &mut Spaces, kind: Kind, step: Step, out: &mut Out) {
    match step.op {
        4..=6 => {
            set_in(x, kind, step);
            out.put(b"set");
        }
        _ => out.say(call(x, kind, step)),
    }
}

// A run of steps from a fresh record on: what each says, and the record that it leaves.
pub(crate) fn spaces(steps: &[u8], out: &mut Out) {
    let mut x = Spaces::fresh();
    for bytes in steps.chunks(14) {
        match read_step(bytes) {
            Ok((kind, step)) => take_step(&mut x, kind, step, out),
            Err(_) => out.say(Ok(Answer::Bad)),
        }
        out.put(b" :");
        for s in [x.initial, x.handshake, x.data] {
            and_ends(s, out);
        }
        out.put(b";");
    }
}
