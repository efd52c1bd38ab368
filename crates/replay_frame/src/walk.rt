// The frames of a payload, one step after the other.
use crate::{blocks, shown};
use cases::line::{Answer, Out};
use coding::part;
use frame::{Frame, FrameRead, InvalidFrame, SizedStep};

// Puts what a step says; and where the next is, where there is one.
fn put_step(payload: &[u8], start: usize, out: &mut Out) -> Option<usize> {
    let SizedStep { step, size } = frame::next_with_size(payload, start);
    let step = step?;
    shown::begun(start, size, step, out);
    match step {
        Ok(FrameRead { frame, next, .. }) => {
            shown::frame(frame, out);
            if let Frame::Ack(x) = frame {
                blocks::ranges(x.largest, part(payload, x.additional), out);
            }
            Some(next)
        }
        Err(InvalidFrame { why, ty, .. }) => {
            shown::refused(why, ty, out);
            None
        }
    }
}

// Each frame until the payload ends or one is refused; each has a byte.
fn each(payload: &[u8], out: &mut Out) {
    let mut start = 0;
    for _ in 0..=payload.len() {
        let Some(next) = put_step(payload, start, out) else {
            return;
        };
        out.spill();
        start = next;
    }
}

// The payload's own refusals are past 12.
pub(crate) fn frames(payload: &[u8], out: &mut Out) {
    let first = frame::next_with_size(payload, 0);
    match first.step {
        Some(Err(InvalidFrame { why, .. })) if 12 < why.number() => out.say(Err(why)),
        _ => {
            out.say(Ok(Answer::Done));
            each(payload, out);
        }
    }
}
