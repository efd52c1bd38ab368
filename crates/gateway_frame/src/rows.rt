// A frame's name, and its values in the order of its row in the table of frames.
ghost use Rattle.std.specs.Prelude.{◌≡◌, ◌≤◌, length};
ghost use Rattle.frame.specs.Format.{num, place};
ghost use Rattle.frame.specs.Said.{type_value, close_said, frame_said};
ghost use Rattle.gateway_frame.specs.Frames.{value_of, frame_row_with, frame_row_of};

use crate::records::{FrameValue, Span};
use coding::Place;
use frame::{Ack, Close, Frame, NewConnectionId, Stream};
use shared::FrameType;

// The first type of a STREAM frame and of a DATAGRAM frame.
const STREAM: u64 = 0x08;

const DATAGRAM: u64 = 0x30;

// A frame's name and its values; nothing past the last.
#[derive(Clone, Copy)]
pub(crate) struct FrameRow {
    pub(crate) name: u64,
    pub(crate) values: [FrameValue; 6],
}

impl From<u64> for FrameValue {
    ghost from_gives = { λ n v. v ≡ value_of (num n) };

    fn from(n: u64) -> FrameValue {
        FrameValue {
            kind: 1,
            number: n,
            place: Span { start: 0, len: 0 },
        }
    }
}

impl From<Place> for FrameValue {
    ghost from_gives = { λ p v. v ≡ value_of (place p) };

    fn from(p: Place) -> FrameValue {
        let Place { start, len } = p;
        FrameValue {
            kind: 2,
            number: 0,
            place: Span { start, len },
        }
    }
}

impl From<Option<FrameType>> for FrameValue {
    ghost from_gives = { λ ty v. v ≡ value_of (type_value ty) };

    fn from(ty: Option<FrameType>) -> FrameValue {
        match ty {
            Some(t) => t.0.into(),
            None => FrameValue::NOTHING,
        }
    }
}

// A row of up to six values.
fn row(name: u64, values: &[FrameValue]) -> FrameRow
    requires { length values.now ≤ 6 }
    ensures { result ≡ frame_row_with name values.now }
{
    let mut all = [FrameValue::NOTHING; 6];
    all[..values.len()].copy_from_slice(values);
    FrameRow { name, values: all }
}

fn ack_row(x: Ack) -> FrameRow
    ensures { result ≡ frame_row_of (frame_said (Frame.Ack x)) }
{
    let largest = x.largest.0.into();
    let delay = x.delay.into();
    let blocks = x.additional.into();
    match x.ecn {
        None => row(FrameType::ACK.0, &[largest, delay, blocks]),
        Some(n) => row(
            FrameType::ACK.0,
            &[
                largest,
                delay,
                blocks,
                n.ect0.into(),
                n.ect1.into(),
                n.ce.into(),
            ],
        ),
    }
}

fn stream_row(x: Stream) -> FrameRow
    ensures { result ≡ frame_row_of (frame_said (Frame.Stream x)) }
{
    row(
        STREAM,
        &[
            x.id.0.into(),
            x.offset.into(),
            u64::from(x.fin).into(),
            u64::from(x.len).into(),
            x.data.into(),
        ],
    )
}

fn new_cid_row(x: NewConnectionId) -> FrameRow
    ensures { result ≡ frame_row_of (frame_said (Frame.NewConnectionId x)) }
{
    row(
        FrameType::NEW_CONNECTION_ID.0,
        &[
            x.sequence.into(),
            x.retire_prior_to.into(),
            x.id.into(),
            x.reset_token.into(),
        ],
    )
}

fn close_row(x: Close) -> FrameRow
    ensures { result ≡ frame_row_of (close_said x) }
{
    match x {
        Close::Connection(c) => row(
            FrameType::CONNECTION_CLOSE.0,
            &[c.error_code.into(), c.frame_type.into(), c.reason.into()],
        ),
        Close::Application(c) => row(
            FrameType::APPLICATION_CLOSE.0,
            &[c.error_code.into(), c.reason.into()],
        ),
    }
}

// A frame by its row.
pub(crate) fn row_of(frame: Frame) -> FrameRow
    ensures { result ≡ frame_row_of (frame_said frame) }
{
    match frame {
        Frame::Padding => row(FrameType::PADDING.0, &[]),
        Frame::Ping => row(FrameType::PING.0, &[]),
        Frame::Ack(x) => ack_row(x),
        Frame::ResetStream(x) => row(
            FrameType::RESET_STREAM.0,
            &[x.id.0.into(), x.error_code.into(), x.final_offset.into()],
        ),
        Frame::StopSending(x) => row(
            FrameType::STOP_SENDING.0,
            &[x.id.0.into(), x.error_code.into()],
        ),
        Frame::Crypto(x) => row(FrameType::CRYPTO.0, &[x.offset.into(), x.data.into()]),
        Frame::NewToken(x) => row(FrameType::NEW_TOKEN.0, &[x.token.into()]),
        Frame::Stream(x) => stream_row(x),
        Frame::MaxData(n) => row(FrameType::MAX_DATA.0, &[n.into()]),
        Frame::MaxStreamData { id, offset } => row(
            FrameType::MAX_STREAM_DATA.0,
            &[id.0.into(), offset.into()],
        ),
        Frame::MaxStreams { dir, count } => row(
            FrameType::MAX_STREAMS_BIDI.0,
            &[u64::from(dir).into(), count.into()],
        ),
        Frame::DataBlocked { offset } => row(FrameType::DATA_BLOCKED.0, &[offset.into()]),
        Frame::StreamDataBlocked { id, offset } => row(
            FrameType::STREAM_DATA_BLOCKED.0,
            &[id.0.into(), offset.into()],
        ),
        Frame::StreamsBlocked { dir, limit } => row(
            FrameType::STREAMS_BLOCKED_BIDI.0,
            &[u64::from(dir).into(), limit.into()],
        ),
        Frame::NewConnectionId(x) => new_cid_row(x),
        Frame::RetireConnectionId { sequence } => row(
            FrameType::RETIRE_CONNECTION_ID.0,
            &[sequence.into()],
        ),
        Frame::PathChallenge(n) => row(FrameType::PATH_CHALLENGE.0, &[n.into()]),
        Frame::PathResponse(n) => row(FrameType::PATH_RESPONSE.0, &[n.into()]),
        Frame::Close(x) => close_row(x),
        Frame::Datagram(x) => row(DATAGRAM, &[u64::from(x.len).into(), x.data.into()]),
        Frame::AckFrequency(x) => row(
            FrameType::ACK_FREQUENCY.0,
            &[
                x.sequence.into(),
                x.ack_eliciting_threshold.into(),
                x.request_max_ack_delay.into(),
                x.reordering_threshold.into(),
            ],
        ),
        Frame::ImmediateAck => row(FrameType::IMMEDIATE_ACK.0, &[]),
        Frame::HandshakeDone => row(FrameType::HANDSHAKE_DONE.0, &[]),
    }
}
