// Frames: one is read at a place of the payload (frame.rs, reading; RFC 9000, sections 12.4 and 19). Data, reason, token, CID,
// reset token and ACK blocks are places in that payload: `coding::part(payload, place)` hands back each as a part of it.
#![tactic(auto, unfolding(crate::specs::Table::frame_at, crate::specs::Table::outcome, crate::specs::Walk::step_at, crate::specs::Walk::sized, crate::specs::Walk::took, crate::specs::Said::said_of, crate::specs::Said::step_of, crate::specs::Said::sized_step_of, crate::specs::Said::body_of, coding::specs::Words::and_then, coding::specs::Said::found_by))]

mod body; // body.rt: each kind's fields, and the decision over the type's number
mod field; // field.rt: the fields that are more than an integer
mod kinds; // kinds.rt: what a frame is

ghost use Rattle.std.specs.Prelude.{◌≡◌, ◌≤◌, length};
ghost use Rattle.coding.specs.Words.{max_datagram};
ghost use Rattle.frame.specs.Table.{table, frame_at};
ghost use Rattle.frame.specs.Walk.{step_at, sized};
ghost use Rattle.frame.specs.Said.{said_of, step_of, sized_step_of};

use coding::{MAX_DATAGRAM, Reader, Refusal};
pub use kinds::{
    Ack, AckFrequency, ApplicationClose, Close, ConnectionClose, Crypto, Datagram, Frame,
    NewConnectionId, NewToken, ResetStream, StopSending, Stream,
};
use shared::FrameType;

// A frame, its type as it was read, and the place past it.
#[derive(Clone, Copy, PartialEq, Eq)]
pub struct FrameRead {
    pub frame: Frame,
    pub ty: FrameType,
    pub next: usize,
}

// Why a frame is refused, with its start, and its type once read.
#[derive(Clone, Copy, PartialEq, Eq)]
pub struct InvalidFrame {
    pub why: Refusal,
    pub start: usize,
    pub ty: Option<FrameType>,
}

// A step, and how many bytes it took: the frame's encoded size with its type.
#[derive(Clone, Copy, PartialEq, Eq)]
pub struct SizedStep {
    pub step: Option<Result<FrameRead, InvalidFrame>>,
    pub size: usize,
}

// The frame at a place of a payload whose own rule `step` has tested.
pub(crate) fn read_frame(s: &[u8], start: usize) -> Result<FrameRead, InvalidFrame>
    requires { length s.now ≤ max_datagram }
    ensures { said_of result ≡ frame_at table s.now start }
{
    let refused = |why, ty| InvalidFrame { why, start, ty };
    let cut = |_| refused(Refusal::UnexpectedEnd, None);
    let mut r = Reader {
        bytes: s,
        at: start,
    };
    let number = r.get_var().map_err(cut)?;
    let ty = FrameType(number.0);
    let frame = body::read_body(&mut r, ty).map_err(|why| refused(why, Some(ty)))?;
    let next = r.at;
    Ok(FrameRead { frame, ty, next })
}

// One step of the walk over a payload, which the caller repeats from place 0 on: a frame read says where the next one starts,
// after a refusal nothing more is handed out, and the payload's end is none.
pub fn step(payload: &[u8], at: usize) -> Option<Result<FrameRead, InvalidFrame>>
    ensures { step_of result ≡ step_at table payload.now at }
{
    let refused = |why| {
        let ty = None;
        Some(Err(InvalidFrame { why, start: at, ty }))
    };
    if MAX_DATAGRAM < payload.len() {
        return refused(Refusal::Argument);
    }
    if payload.is_empty() {
        return refused(Refusal::NoFrames);
    }
    if payload.len() <= at {
        return None;
    }
    Some(read_frame(payload, at))
}

// A step and its size; a refused frame takes all that is left.
pub fn next_with_size(payload: &[u8], at: usize) -> SizedStep
    ensures { sized_step_of result ≡ sized table payload.now at }
{
    let step = step(payload, at);
    let end = match step {
        None => at,
        Some(Ok(read)) => read.next,
        Some(Err(_)) => payload.len(),
    };
    let size = end.saturating_sub(at);
    SizedStep { step, size }
}
