// A frame's text: its name and its numbers; a place is its start and its length.
use cases::line::Out;
use coding::{Place, Refusal};
use frame::{Ack, Close, Frame, FrameRead, InvalidFrame, NewConnectionId, Stream};
use shared::FrameType;

// A word and numbers, each after a space.
pub(crate) fn word(word: &[u8], ns: &[u64], out: &mut Out) {
    out.put(word);
    out.and_nums(ns);
}

fn and_place(p: Place, out: &mut Out) {
    out.and_nums(&[p.start as u64, p.len as u64]);
}

// A word, numbers and a place.
fn with_place(name: &[u8], ns: &[u64], p: Place, out: &mut Out) {
    word(name, ns, out);
    and_place(p, out);
}

fn ack(x: Ack, out: &mut Out) {
    with_place(b" ack", &[x.largest.0, x.delay], x.additional, out);
    match x.ecn {
        Some(c) => out.and_nums(&[c.ect0, c.ect1, c.ce]),
        None => out.put(b" -"),
    }
}

fn stream(x: Stream, out: &mut Out) {
    word(b" stream", &[x.id.0, x.offset], out);
    out.and_nums(&[u64::from(x.fin), u64::from(x.len)]);
    and_place(x.data, out);
}

fn new_cid(x: NewConnectionId, out: &mut Out) {
    with_place(b" newcid", &[x.sequence, x.retire_prior_to], x.id, out);
    and_place(x.reset_token, out);
}

// A number, a type or `-`, a place.
fn close(x: Close, out: &mut Out) {
    match x {
        Close::Connection(c) => {
            word(b" close", &[c.error_code], out);
            out.and_some(c.frame_type.map(|ty| ty.0));
            and_place(c.reason, out);
        }
        Close::Application(c) => with_place(b" appclose", &[c.error_code], c.reason, out),
    }
}

// The frames that hold places.
pub(crate) fn frame(f: Frame, out: &mut Out) {
    match f {
        Frame::Ack(x) => ack(x, out),
        Frame::Crypto(x) => with_place(b" crypto", &[x.offset], x.data, out),
        Frame::NewToken(x) => with_place(b" token", &[], x.token, out),
        Frame::Stream(x) => stream(x, out),
        Frame::NewConnectionId(x) => new_cid(x, out),
        Frame::Close(x) => close(x, out),
        Frame::Datagram(x) => with_place(b" datagram", &[u64::from(x.len)], x.data, out),
        _ => plain(f, out),
    }
}

// The frames that hold numbers alone.
fn plain(f: Frame, out: &mut Out) {
    match f {
        Frame::Padding => out.put(b" padding"),
        Frame::Ping => out.put(b" ping"),
        Frame::ResetStream(x) => word(b" reset", &[x.id.0, x.error_code, x.final_offset], out),
        Frame::StopSending(x) => word(b" stop", &[x.id.0, x.error_code], out),
        Frame::MaxData(n) => word(b" maxdata", &[n], out),
        Frame::MaxStreamData { id, offset } => word(b" maxstreamdata", &[id.0, offset], out),
        Frame::MaxStreams { dir, count } => word(b" maxstreams", &[u64::from(dir), count], out),
        Frame::DataBlocked { offset } => word(b" datablocked", &[offset], out),
        Frame::StreamDataBlocked { id, offset } => {
            word(b" streamdatablocked", &[id.0, offset], out)
        }
        Frame::StreamsBlocked { dir, limit } => word(
            b" streamsblocked",
            &[u64::from(dir), limit],
            out,
        ),
        Frame::RetireConnectionId { sequence } => word(b" retirecid", &[sequence], out),
        Frame::PathChallenge(n) => word(b" challenge", &[n], out),
        Frame::PathResponse(n) => word(b" response", &[n], out),
        Frame::AckFrequency(x) => {
            word(b" ackfreq", &[x.sequence, x.ack_eliciting_threshold], out);
            out.and_nums(&[x.request_max_ack_delay, x.reordering_threshold]);
        }
        Frame::ImmediateAck => out.put(b" immediateack"),
        _ => out.put(b" done"),
    }
}

// A frame's refusal, with its type once read.
pub(crate) fn refused(why: Refusal, ty: Option<FrameType>, out: &mut Out) {
    word(b" no", &[u64::from(why.number())], out);
    out.and_some(ty.map(|ty| ty.0));
}

// A step's start and its size; of a frame also the type as it was read, the one that stands for the frame, and whether it
// elicits an acknowledgement.
pub(crate) fn begun(
    start: usize,
    size: usize,
    step: Result<FrameRead, InvalidFrame>,
    out: &mut Out,
) {
    word(b" ;", &[start as u64, size as u64], out);
    if let Ok(FrameRead { frame, ty, .. }) = step {
        let elicits = u64::from(frame.is_ack_eliciting());
        out.and_nums(&[ty.0, frame.ty().0, elicits]);
    }
}
