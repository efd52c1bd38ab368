// What a frame says, as a record laid out for C: the frame that `frame::step` reads, by its row in the table of frames.
#![tactic(auto)]

mod records; // records.rt: the records
mod rows; // rows.rt: a frame's name and values

ghost use Rattle.std.specs.Prelude.{◌≡◌};
ghost use Rattle.coding.specs.Refusals.{number_of};
ghost use Rattle.frame.specs.Said.{frame_said, type_seen, step_of};
ghost use Rattle.gateway_frame.specs.Frames.{frame_row_of, found_record, frame_refused, frame_record, frame_for, is_padding, padding_record};

use coding::MAX_DATAGRAM;
use frame::{FrameRead, InvalidFrame};
pub use records::{FrameAnswer, FrameValue, Span};

// A frame that was read.
fn found(start: usize, read: FrameRead) -> FrameAnswer
    ensures { result ≡ found_record start read.ty.0 (frame_row_of (frame_said read.frame)) read.next }
{
    let FrameRead { frame, ty, next } = read;
    let row = rows::row_of(frame);
    let [value0, value1, value2, value3, value4, value5] = row.values;
    FrameAnswer {
        refusal: 0,
        found: 1,
        has_type: 1,
        start,
        next,
        frame_type: ty.0,
        name: row.name,
        value0,
        value1,
        value2,
        value3,
        value4,
        value5,
    }
}

// A refusal, with the frame's start, and its type once read.
fn refused(x: InvalidFrame) -> FrameAnswer
    ensures { result ≡ frame_refused (number_of x.why) x.start (type_seen x.ty) }
{
    let InvalidFrame { why, start, ty } = x;
    let untyped = FrameAnswer {
        refusal: why.number(),
        start,
        ..FrameAnswer::NOTHING
    };
    match ty {
        Some(t) => FrameAnswer {
            has_type: 1,
            frame_type: t.0,
            ..untyped
        },
        None => untyped,
    }
}

// What a step of the walk at a place says; at the end of the payload there is no frame, and no refusal.
#[tactic(auto, unfolding(crate::specs::Frames::frame_record, frame::specs::Said::step_of, frame::specs::Said::said_of))]
fn frame_record(at: usize, step: Option<Result<FrameRead, InvalidFrame>>) -> FrameAnswer
    ensures { result ≡ frame_record at (step_of step) }
{
    match step {
        None => FrameAnswer {
            start: at,
            ..FrameAnswer::NOTHING
        },
        Some(Ok(read)) => found(at, read),
        Some(Err(x)) => refused(x),
    }
}

// The frame at a place of a payload; the next one is at `next`.
#[tactic(auto, unfolding(crate::specs::Frames::frame_for))]
pub fn read(payload: &[u8], at: usize) -> FrameAnswer
    ensures { result ≡ frame_for payload.now at }
{
    frame_record(at, frame::step(payload, at))
}

// PADDING stands at a place of a payload that keeps its rule.
#[tactic(auto, unfolding(crate::specs::Frames::is_padding))]
pub fn is_padding(payload: &[u8], at: usize) -> bool
    ensures { result ≡ is_padding payload.now at }
{
    if MAX_DATAGRAM < payload.len() || payload.len() <= at {
        return false;
    }
    payload[at] == 0
}

// PADDING that was read: all but its places is known.
pub fn padding(start: usize, next: usize) -> FrameAnswer
    ensures { result ≡ padding_record start next }
{
    FrameAnswer {
        start,
        next,
        ..FrameAnswer::PADDING
    }
}
