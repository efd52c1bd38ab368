// Frames out: the encoders but ACK's, each into a lent buffer from byte 0 on (frame.rs; RFC 9000, section 19). Data, reason and
// token are slices; a buffer too short or an argument outside its rule leaves every byte as it was.
#![tactic(auto)]

mod closes; // closes.rt: the closes
mod codec; // codec.rt: a frame's type, a stream id, an error code by themselves

ghost use Rattle.std.specs.Prelude.{◌≡◌, ◌++◌, ◌≤◌, length};
ghost use Rattle.coding.specs.Said.{answer_of};
ghost use Rattle.coding.specs.Writing.{length_of, Written};
ghost use Rattle.shared.specs.Cid.{max_cid, long_bytes};
ghost use Rattle.row_out.specs.Limits.{vars_out};
ghost use Rattle.frame_out.specs.Bounds.{size_bounds};
ghost use Rattle.frame_out.specs.Frames.{ecn_out, stream_type, meta_out, crypto_out, new_token_out, reset_stream_out, stop_sending_out, new_cid_out, datagram_out, ack_frequency_out};

pub use closes::{
    APPLICATION_CLOSE_SIZE_BOUND, CONNECTION_CLOSE_SIZE_BOUND, CloseKind, application_close, close,
    connection_close,
};
pub use codec::{Integer, decode, encode};
use coding::{NUMBER_END, Refusal};
use ecn::EcnCounts;
use frame::{AckFrequency, ResetStream, StopSending};
use shared::{ConnectionId, FrameType, MAX_CID_SIZE, StreamId, types};

// The smallest number of bytes that a frame is guaranteed to fit within, besides its data, is its SIZE_BOUND; `size_bounds` has all.
pub const STREAM_SIZE_BOUND: usize = 1 + 8 + 8 + 8;

// A stream frame without its data, which lies from `start` to `end`.
#[derive(Clone, Copy, PartialEq, Eq)]
pub struct StreamMeta {
    pub id: StreamId,
    pub start: u64,
    pub end: u64,
    pub fin: bool,
}

// The ECN counts of an ACK.
pub fn ecn_counts(counts: EcnCounts, out: &mut [u8]) -> Result<usize, Refusal>
    ensures { Written (ecn_out counts.ect0 counts.ect1 counts.ce) out.old (answer_of result) out.new }
{
    let vals = [counts.ect0, counts.ect1, counts.ce];
    row_out::frame_of(&vals, &[], out)
}

// The type of a stream frame.
fn stream_type(start: u64, fin: bool, with_len: bool) -> u64
    ensures { result ≡ stream_type start fin with_len }
{
    types::STREAM_FIRST
        + types::OFF * u64::from(start != 0)
        + types::LEN * u64::from(with_len)
        + types::FIN * u64::from(fin)
}

// A stream frame up to its data; `with_len` says whether the data's length is written.
pub fn stream_meta(meta: StreamMeta, with_len: bool, out: &mut [u8]) -> Result<usize, Refusal>
    ensures { Written (meta_out meta.id.0 meta.start meta.end meta.fin with_len) out.old (answer_of result) out.new }
{
    let StreamMeta {
        id,
        start,
        end,
        fin,
    } = meta;
    if end < start || NUMBER_END <= end {
        return Err(Refusal::Argument);
    }
    let ty = stream_type(start, fin, with_len);
    let len = end - start;
    match (start, with_len) {
        (0, false) => row_out::frame_of(&[ty, id.0], &[], out),
        (0, true) => row_out::frame_of(&[ty, id.0, len], &[], out),
        (_, false) => row_out::frame_of(&[ty, id.0, start], &[], out),
        (_, true) => row_out::frame_of(&[ty, id.0, start, len], &[], out),
    }
}

pub const CRYPTO_SIZE_BOUND: usize = 17;

pub fn crypto(offset: u64, data: &[u8], out: &mut [u8]) -> Result<usize, Refusal>
    ensures { Written (crypto_out offset «data».now) out.old (answer_of result) out.new }
{
    let vals = [FrameType::CRYPTO.0, offset, data.len() as u64];
    row_out::frame_of(&vals, data, out)
}

pub fn new_token(token: &[u8], out: &mut [u8]) -> Result<usize, Refusal>
    ensures { Written (new_token_out token.now) out.old (answer_of result) out.new }
{
    let vals = [FrameType::NEW_TOKEN.0, token.len() as u64];
    row_out::frame_of(&vals, token, out)
}

pub fn new_token_size(token: &[u8]) -> Result<usize, Refusal>
    ensures { answer_of result ≡ length_of (new_token_out token.now) }
{
    let vals = [FrameType::NEW_TOKEN.0, token.len() as u64];
    row_out::frame_size(&vals, token)
}

pub const RESET_STREAM_SIZE_BOUND: usize = 1 + 8 + 8 + 8;

pub fn reset_stream(frame: ResetStream, out: &mut [u8]) -> Result<usize, Refusal>
    ensures { Written (reset_stream_out frame.id.0 frame.error_code frame.final_offset) out.old (answer_of result) out.new }
{
    let vals = [
        FrameType::RESET_STREAM.0,
        frame.id.0,
        frame.error_code,
        frame.final_offset,
    ];
    row_out::frame_of(&vals, &[], out)
}

pub const STOP_SENDING_SIZE_BOUND: usize = 1 + 8 + 8;

pub fn stop_sending(frame: StopSending, out: &mut [u8]) -> Result<usize, Refusal>
    ensures { Written (stop_sending_out frame.id.0 frame.error_code) out.old (answer_of result) out.new }
{
    let vals = [FrameType::STOP_SENDING.0, frame.id.0, frame.error_code];
    row_out::frame_of(&vals, &[], out)
}

pub const NEW_CONNECTION_ID_SIZE_BOUND: usize = 1 + 8 + 8 + 1 + MAX_CID_SIZE + 16;

// Writes integers, a connection id behind its length, and its reset token, from byte 0 of out on.
fn frame_with_id(
    vals: &[u64],
    id: ConnectionId,
    reset_token: &[u8],
    out: &mut [u8],
) -> Result<usize, Refusal>
    requires { (id.len ≤ max_cid) × ((length vals.now ≤ 3) × (length reset_token.now ≡ 16)) }
    ensures { Written (vars_out vals.now (long_bytes id ++ reset_token.now)) out.old (answer_of result) out.new }
{
    let n = row_out::vars_len(vals)?;
    // the length byte, the id, and the token's 16
    if out.len() < n + (17 + usize::from(id.len)) {
        return Err(Refusal::Room);
    }
    let start = row_out::put_vars(out, 0, vals);
    let next = id.put_long(out, start);
    Ok(coding::put_slice(out, next, reset_token))
}

pub fn new_connection_id(
    sequence: u64,
    retire_prior_to: u64,
    id: ConnectionId,
    reset_token: &[u8; 16],
    out: &mut [u8],
) -> Result<usize, Refusal>
    ensures { Written (new_cid_out sequence retire_prior_to id reset_token.now) out.old (answer_of result) out.new }
{
    if sequence < retire_prior_to || id.len == 0 || MAX_CID_SIZE < usize::from(id.len) {
        return Err(Refusal::Argument);
    }
    let vals = [FrameType::NEW_CONNECTION_ID.0, sequence, retire_prior_to];
    frame_with_id(&vals, id, reset_token, out)
}

pub const DATAGRAM_SIZE_BOUND: usize = 1 + 8;

// With a length, or without: then it is the last frame of its payload.
pub fn datagram(with_len: bool, data: &[u8], out: &mut [u8]) -> Result<usize, Refusal>
    ensures { Written (datagram_out with_len «data».now) out.old (answer_of result) out.new }
{
    if with_len {
        return row_out::frame_of(&[types::DATAGRAM_LAST, data.len() as u64], data, out);
    }
    row_out::frame_of(&[types::DATAGRAM_FIRST], data, out)
}

pub fn datagram_size(with_len: bool, data: &[u8]) -> Result<usize, Refusal>
    ensures { answer_of result ≡ length_of (datagram_out with_len «data».now) }
{
    if with_len {
        return row_out::frame_size(&[types::DATAGRAM_LAST, data.len() as u64], data);
    }
    row_out::frame_size(&[types::DATAGRAM_FIRST], data)
}

pub fn ack_frequency(frame: AckFrequency, out: &mut [u8]) -> Result<usize, Refusal>
    ensures { Written (ack_frequency_out frame.sequence frame.ack_eliciting_threshold frame.request_max_ack_delay frame.reordering_threshold) out.old (answer_of result) out.new }
{
    let vals = [
        FrameType::ACK_FREQUENCY.0,
        frame.sequence,
        frame.ack_eliciting_threshold,
        frame.request_max_ack_delay,
        frame.reordering_threshold,
    ];
    row_out::frame_of(&vals, &[], out)
}

// The bounds of the two closes, of STREAM, CRYPTO, RESET_STREAM, STOP_SENDING, NEW_CONNECTION_ID and DATAGRAM.
pub fn size_bounds() -> [usize; 8]
    ensures { result ≡ size_bounds }
{
    [
        CONNECTION_CLOSE_SIZE_BOUND,
        APPLICATION_CLOSE_SIZE_BOUND,
        STREAM_SIZE_BOUND,
        CRYPTO_SIZE_BOUND,
        RESET_STREAM_SIZE_BOUND,
        STOP_SENDING_SIZE_BOUND,
        NEW_CONNECTION_ID_SIZE_BOUND,
        DATAGRAM_SIZE_BOUND,
    ]
}
