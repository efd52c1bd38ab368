// A run of steps over the two number ends of one space.
use crate::numbers::full;
use cases::line::{Answer, Out};
use coding::{Reader, Refusal, UnexpectedEnd};
use number::Space;
use shared::{CutNumber, FullNumber};

// A step of a run: its number, and two numbers.
#[derive(Clone, Copy)]
pub(crate) struct Step {
    pub(crate) op: u8,
    pub(crate) n: u64,
    pub(crate) v: u32,
}

pub(crate) fn sent(said: Result<(FullNumber, CutNumber), Refusal>) -> Result<Answer, Refusal> {
    let (number, cut) = said?;
    Ok(Answer::Three(number.0, cut.0 as u64, u64::from(cut.1)))
}

pub(crate) fn kept(said: Result<(), Refusal>) -> Result<Answer, Refusal> {
    said?;
    Ok(Answer::Done)
}

// What a step says that is a call.
fn call(s: &mut Space, step: Step) -> Result<Answer, Refusal> {
    let Step { op, n, v } = step;
    match op {
        0 => sent(s.send()),
        1 => kept(s.acknowledge(FullNumber(n))),
        2 => full(s.read(CutNumber(n as usize, v))),
        3 => kept(s.accept(FullNumber(n))),
        _ => Ok(Answer::Bad),
    }
}

// Puts next, or a largest, at n or (v is 0) at nothing: ends that no calls can have made too.
pub(crate) fn set(s: &mut Space, step: Step) {
    let n = FullNumber(step.n);
    let at = if step.v == 0 { None } else { Some(n) };
    match step.op {
        4 => s.next = n,
        5 => s.acked = at,
        _ => s.largest = at,
    }
}

fn take_step(s: &mut Space, step: Step, out: &mut Out) {
    match step.op {
        4..=6 => {
            set(s, step);
            out.put(b"set");
        }
        _ => out.say(call(s, step)),
    }
}

// The ends of a space, after a space.
pub(crate) fn and_ends(s: Space, out: &mut Out) {
    out.and_num(s.next.0);
    out.and_some(s.acked.map(|n| n.0));
    out.and_some(s.largest.map(|n| n.0));
}

// A step with its numbers, which are read next.
pub(crate) fn numbered(op: u8, r: &mut Reader) -> Result<Step, UnexpectedEnd> {
    let n = r.get::<u64>()?;
    let v = r.get::<u32>()?;
    Ok(Step { op, n, v })
}

// A step's number and two numbers, 13 bytes.
fn read_step(bytes: &[u8]) -> Result<Step, UnexpectedEnd> {
    let mut r = Reader { bytes, at: 0 };
    let op = r.get::<u8>()?;
    numbered(op, &mut r)
}

// A run of steps from fresh ends on: what each says, and the ends that it leaves.
pub(crate) fn ends(steps: &[u8], out: &mut Out) {
    let mut s = Space::fresh();
    for bytes in steps.chunks(13) {
        match read_step(bytes) {
            Ok(step) => take_step(&mut s, step, out),
            Err(_) => out.say(Ok(Answer::Bad)),
        }
        out.put(b" :");
        and_ends(s, out);
        out.put(b";");
    }
}
