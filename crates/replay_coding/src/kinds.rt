// The operations of `shared`: connection ids, ECN, stream ids, frame types.
use cases::line::{Answer, Out, written};
use cases::record::Numbers;
use coding::{Reader, Refusal};
use shared::{ConnectionId, Dir, EcnCodepoint, FrameType, Side, StreamId};

// cidnew, cidbuf and ciddec: a CID and, but for cidnew, the place past it.
fn cid_read(op: u8, ns: Numbers, b: &[u8]) -> Result<(ConnectionId, Option<usize>), Refusal> {
    if op == 11 {
        return Ok((ConnectionId::new(b)?, None));
    }
    let mut r = Reader {
        bytes: b,
        at: ns.n0 as usize,
    };
    let id = match op {
        12 => ConnectionId::from_buf(&mut r, ns.n1 as usize)?,
        _ => ConnectionId::decode_long(&mut r)?,
    };
    Ok((id, Some(r.at)))
}

// A CID's length, all its 20 bytes and the place past it; or the refusal.
pub(crate) fn cids(op: u8, ns: Numbers, b: &[u8], out: &mut Out) {
    match cid_read(op, ns, b) {
        Ok((id, next)) => {
            out.say(Ok(Answer::One(u64::from(id.len))));
            out.and_hex(&id.bytes);
            if let Some(next) = next {
                out.and_num(next as u64);
            }
        }
        Err(why) => out.say(Err(why)),
    }
}

// The 20 bytes come by way of a CID of length 20.
pub(crate) fn cidenc(len: u64, bytes: &[u8], buf: &mut [u8]) -> Result<Answer, Refusal> {
    let (20, Ok(len)) = (bytes.len(), u8::try_from(len)) else {
        return Ok(Answer::Bad);
    };
    let ConnectionId { bytes, .. } = ConnectionId::new(bytes)?;
    written(ConnectionId { len, bytes }.encode_long(buf))
}

pub(crate) fn ecnbits(x: u64) -> Answer {
    let Ok(bits) = u8::try_from(x) else {
        return Answer::Bad;
    };
    let Some(c) = EcnCodepoint::from_bits(bits) else {
        return Answer::Nothing;
    };
    let is_ce = u64::from(c.is_ce());
    match c {
        EcnCodepoint::Ect1 => Answer::Two(1, is_ce),
        EcnCodepoint::Ect0 => Answer::Two(2, is_ce),
        EcnCodepoint::Ce => Answer::Two(3, is_ce),
    }
}

pub(crate) fn sidnew(side: u64, dir: u64, index: u64) -> Result<Answer, Refusal> {
    if 1 < side || 1 < dir {
        return Ok(Answer::Bad);
    }
    let from = if side == 0 {
        Side::Client
    } else {
        Side::Server
    };
    let to = if dir == 0 { Dir::Bi } else { Dir::Uni };
    let StreamId(id) = StreamId::new(from, to, index)?;
    Ok(Answer::One(id))
}

pub(crate) fn sid(x: u64, out: &mut Out) {
    let id = StreamId(x);
    out.nums(
        u64::from(id.initiator()),
        &[u64::from(id.dir()), id.index()],
    );
}

// The constants, in the order of frame_types!.
pub(crate) fn ftypes(out: &mut Out) {
    let types = [
        FrameType::PING,
        FrameType::ACK,
        FrameType::ACK_ECN,
        FrameType::RESET_STREAM,
        FrameType::STOP_SENDING,
        FrameType::CRYPTO,
        FrameType::NEW_TOKEN,
        FrameType::MAX_DATA,
        FrameType::MAX_STREAM_DATA,
        FrameType::MAX_STREAMS_BIDI,
        FrameType::MAX_STREAMS_UNI,
        FrameType::DATA_BLOCKED,
        FrameType::STREAM_DATA_BLOCKED,
        FrameType::STREAMS_BLOCKED_BIDI,
        FrameType::STREAMS_BLOCKED_UNI,
        FrameType::NEW_CONNECTION_ID,
        FrameType::RETIRE_CONNECTION_ID,
        FrameType::PATH_CHALLENGE,
        FrameType::PATH_RESPONSE,
        FrameType::CONNECTION_CLOSE,
        FrameType::APPLICATION_CLOSE,
        FrameType::HANDSHAKE_DONE,
        FrameType::ACK_FREQUENCY,
        FrameType::IMMEDIATE_ACK,
    ];
    out.num(FrameType::PADDING.0);
    for ty in types {
        out.and_num(ty.0);
    }
}
