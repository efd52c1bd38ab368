// What follows a frame's type: one decision over the type's number, and a function for each kind of more than two fields or of
// more than one type (frame.rs, try_next).
#![tactic(auto, using(crate::proofs::Rules::exit_found, crate::proofs::Rules::exit_body, crate::proofs::Rules::var_if_law, crate::proofs::Rules::data_if_law, ack::proofs::Tries::went, ack::proofs::Tries::left), unfolding(crate::specs::Table::frame_body_at, crate::specs::Table::table, crate::specs::Format::fields_at, crate::specs::Format::field_at, crate::specs::Format::then_read, crate::specs::Format::or_nothing, crate::specs::Said::counts_at, crate::specs::Said::body_of, crate::specs::Said::field_of, coding::specs::Words::and_then, coding::specs::Said::found_by))]

ghost use Rattle.std.specs.Prelude.{◌≡◌, ◌<◌, [], ◌≤◌, length};
ghost use Rattle.coding.specs.Words.{max_datagram};
ghost use Rattle.coding.specs.Said.{found_by};
ghost use Rattle.shared.specs.Said.{dir_bit};
ghost use Rattle.frame.specs.Format.{or_nothing, fields_at, bit};
ghost use Rattle.frame.specs.Table.{table, ack_fields, count_fields, stream_fields, data_fields, frame_body_at};
ghost use Rattle.frame.specs.Said.{body_of, type_value, counts_at};

use crate::field;
use crate::kinds::{
    Ack, AckFrequency, ApplicationClose, Close, ConnectionClose, Crypto, Datagram, Frame,
    NewConnectionId, NewToken, ResetStream, StopSending, Stream,
};
use coding::{Reader, Refusal, UnexpectedEnd};
use ecn::EcnCounts;
use shared::{Dir, FrameType, FullNumber, StreamId, types};

// The frame, or why it is refused.
type Body = Result<Frame, Refusal>;

// The ECN counts that end an ACK.
fn ecn_counts(r: &mut Reader) -> Result<EcnCounts, UnexpectedEnd>
    ensures finds { found_by (λ c. c) result r.new.at ≡ counts_at r.old.bytes.now r.old.at }
    ensures bytes { r.new.bytes ≡ r.old.bytes }
{
    let ect0 = r.get_var()?.0;
    let ect1 = r.get_var()?.0;
    let ce = r.get_var()?.0;
    Ok(EcnCounts { ect0, ect1, ce })
}

fn ack(r: &mut Reader, ecn: bool) -> Body
    requires { length r.old.bytes.now ≤ max_datagram }
    ensures { body_of result r.new.at ≡ fields_at 0x02 (ack_fields ecn) r.old.bytes.now r.old.at [] }
{
    let largest = FullNumber(r.get_var()?.0);
    let delay = r.get_var()?.0;
    let additional = field::ack_blocks(r, largest)?;
    let ecn = if ecn { Some(ecn_counts(r)?) } else { None };
    Ok(Frame::Ack(Ack {
        largest,
        delay,
        additional,
        ecn,
    }))
}

fn reset_stream(r: &mut Reader) -> Body
    ensures { body_of result r.new.at ≡ frame_body_at table 0x04 r.old.bytes.now r.old.at }
{
    Ok(Frame::ResetStream(ResetStream {
        id: StreamId(r.get_var()?.0),
        error_code: r.get_var()?.0,
        final_offset: r.get_var()?.0,
    }))
}

// A bit of the type, in the definition's words: `&` would ask that b is a power of two.
fn has(ty: FrameType, b: u64) -> bool
    requires { 0 < b }
    ensures { result ≡ bit b ty.0 }
{
    ty.0 / b % 2 == 1
}

fn stream(r: &mut Reader, ty: FrameType) -> Body
    ensures { body_of result r.new.at ≡ fields_at 0x08 (stream_fields ty.0) r.old.bytes.now r.old.at [] }
{
    let len = has(ty, types::LEN);
    Ok(Frame::Stream(Stream {
        id: StreamId(r.get_var()?.0),
        offset: field::var_if(r, has(ty, types::OFF))?.0,
        fin: has(ty, types::FIN),
        len,
        data: field::data_if(r, len)?,
    }))
}

fn max_streams(r: &mut Reader, dir: Dir) -> Body
    ensures { body_of result r.new.at ≡ fields_at 0x12 (count_fields (dir_bit dir)) r.old.bytes.now r.old.at [] }
{
    let count = r.get_var()?.0;
    Ok(Frame::MaxStreams { dir, count })
}

// No twin of `max_streams` in one function: the variant, its field and the table's row are others, and a closure would say no less.
fn streams_blocked(r: &mut Reader, dir: Dir) -> Body
    ensures { body_of result r.new.at ≡ fields_at 0x16 (count_fields (dir_bit dir)) r.old.bytes.now r.old.at [] }
{
    let limit = r.get_var()?.0;
    Ok(Frame::StreamsBlocked { dir, limit })
}

fn new_connection_id(r: &mut Reader) -> Body
    ensures { body_of result r.new.at ≡ frame_body_at table 0x18 r.old.bytes.now r.old.at }
{
    let sequence = r.get_var()?.0;
    let retire_prior_to = r.get_var()?.0;
    if sequence < retire_prior_to {
        return Err(Refusal::Malformed);
    }
    let id = field::cid(r)?;
    let reset_token = r.take(16)?;
    Ok(Frame::NewConnectionId(NewConnectionId {
        sequence,
        retire_prior_to,
        id,
        reset_token,
    }))
}

// Type 0 reads as none.
fn type_read(x: u64) -> Option<FrameType>
    ensures { type_value result ≡ or_nothing x }
{
    if x == 0 { None } else { Some(FrameType(x)) }
}

fn connection_close(r: &mut Reader) -> Body
    ensures { body_of result r.new.at ≡ frame_body_at table 0x1c r.old.bytes.now r.old.at }
{
    Ok(Frame::Close(Close::Connection(ConnectionClose {
        error_code: r.get_var()?.0,
        frame_type: type_read(r.get_var()?.0),
        reason: field::take_len(r)?,
    })))
}

fn application_close(r: &mut Reader) -> Body
    ensures { body_of result r.new.at ≡ frame_body_at table 0x1d r.old.bytes.now r.old.at }
{
    Ok(Frame::Close(Close::Application(ApplicationClose {
        error_code: r.get_var()?.0,
        reason: field::take_len(r)?,
    })))
}

fn datagram(r: &mut Reader, ty: FrameType) -> Body
    ensures { body_of result r.new.at ≡ fields_at 0x30 (data_fields ty.0) r.old.bytes.now r.old.at [] }
{
    let len = has(ty, 1);
    let data = field::data_if(r, len)?;
    Ok(Frame::Datagram(Datagram { len, data }))
}

fn ack_frequency(r: &mut Reader) -> Body
    ensures { body_of result r.new.at ≡ frame_body_at table 0xaf r.old.bytes.now r.old.at }
{
    Ok(Frame::AckFrequency(AckFrequency {
        sequence: r.get_var()?.0,
        ack_eliciting_threshold: r.get_var()?.0,
        request_max_ack_delay: r.get_var()?.0,
        reordering_threshold: r.get_var()?.0,
    }))
}

// One decision over the type's number.
pub(crate) fn read_body(r: &mut Reader, ty: FrameType) -> Body
    requires { length r.old.bytes.now ≤ max_datagram }
    ensures { body_of result r.new.at ≡ frame_body_at table ty.0 r.old.bytes.now r.old.at }
{
    let t = ty.0;
    match t {
        types::PADDING => Ok(Frame::Padding),
        types::PING => Ok(Frame::Ping),
        types::ACK => ack(r, false),
        types::ACK_ECN => ack(r, true),
        types::RESET_STREAM => reset_stream(r),
        types::STOP_SENDING => Ok(Frame::StopSending(StopSending {
            id: StreamId(r.get_var()?.0),
            error_code: r.get_var()?.0,
        })),
        types::CRYPTO => Ok(Frame::Crypto(Crypto {
            offset: r.get_var()?.0,
            data: field::take_len(r)?,
        })),
        types::NEW_TOKEN => Ok(Frame::NewToken(NewToken {
            token: field::take_len(r)?,
        })),
        types::STREAM_FIRST..=types::STREAM_LAST => stream(r, ty),
        types::MAX_DATA => Ok(Frame::MaxData(r.get_var()?.0)),
        types::MAX_STREAM_DATA => Ok(Frame::MaxStreamData {
            id: StreamId(r.get_var()?.0),
            offset: r.get_var()?.0,
        }),
        types::MAX_STREAMS_BIDI => max_streams(r, Dir::Bi),
        types::MAX_STREAMS_UNI => max_streams(r, Dir::Uni),
        types::DATA_BLOCKED => Ok(Frame::DataBlocked {
            offset: r.get_var()?.0,
        }),
        types::STREAM_DATA_BLOCKED => Ok(Frame::StreamDataBlocked {
            id: StreamId(r.get_var()?.0),
            offset: r.get_var()?.0,
        }),
        types::STREAMS_BLOCKED_BIDI => streams_blocked(r, Dir::Bi),
        types::STREAMS_BLOCKED_UNI => streams_blocked(r, Dir::Uni),
        types::NEW_CONNECTION_ID => new_connection_id(r),
        types::RETIRE_CONNECTION_ID => Ok(Frame::RetireConnectionId {
            sequence: r.get_var()?.0,
        }),
        types::PATH_CHALLENGE => Ok(Frame::PathChallenge(r.get::<u64>()?)),
        types::PATH_RESPONSE => Ok(Frame::PathResponse(r.get::<u64>()?)),
        types::CONNECTION_CLOSE => connection_close(r),
        types::APPLICATION_CLOSE => application_close(r),
        types::HANDSHAKE_DONE => Ok(Frame::HandshakeDone),
        types::IMMEDIATE_ACK => Ok(Frame::ImmediateAck),
        types::DATAGRAM_FIRST..=types::DATAGRAM_LAST => datagram(r, ty),
        types::ACK_FREQUENCY => ack_frequency(r),
        _ => Err(Refusal::InvalidFrameId),
    }
}
