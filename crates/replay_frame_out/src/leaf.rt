// The codecs of a frame type, a stream id and an error code; the sizes and SIZE_BOUNDs.
use cases::line::{Answer, Out, written};
use cases::record::Numbers;
use coding::{Reader, Refusal};
use frame_out::Integer;
use shared::{FrameType, StreamId};

// A value that is one integer, and the place past it.
fn read<T: Integer>(bytes: &[u8], at: usize) -> Result<Answer, Refusal> {
    let mut r = Reader { bytes, at };
    let x = frame_out::decode::<T>(&mut r)?;
    Ok(Answer::Two(x.number(), r.at as u64))
}

pub(crate) fn fdec(ns: Numbers, b: &[u8]) -> Result<Answer, Refusal> {
    let at = ns.n1 as usize;
    match ns.n0 {
        0 => read::<FrameType>(b, at),
        1 => read::<StreamId>(b, at),
        2 => read::<u64>(b, at),
        _ => Ok(Answer::Bad),
    }
}

pub(crate) fn fsize(what: u64, b: &[u8]) -> Result<Answer, Refusal> {
    match what {
        0 => written(frame_out::new_token_size(b)),
        1 => written(frame_out::datagram_size(false, b)),
        2 => written(frame_out::datagram_size(true, b)),
        _ => Ok(Answer::Bad),
    }
}

pub(crate) fn bounds(out: &mut Out) {
    let all = frame_out::size_bounds();
    out.num(all[0] as u64);
    for n in &all[1..] {
        out.and_num(*n as u64);
    }
}
