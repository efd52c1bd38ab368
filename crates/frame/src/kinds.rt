// What a frame is (frame.rs, Frame and its kinds). A part of the payload is a place in it.
ghost use Rattle.std.specs.Prelude.{◌≡◌};
ghost use Rattle.frame.specs.Types.{frame_type_of, ack_eliciting};
ghost use Rattle.frame.specs.Said.{frame_said};

use coding::Place;
use ecn::EcnCounts;
use shared::{Dir, FrameType, FullNumber, StreamId, types};

#[derive(Clone, Copy, PartialEq, Eq)]
pub struct Ack {
    pub largest: FullNumber,
    pub delay: u64,
    pub additional: Place,
    pub ecn: Option<EcnCounts>,
}

#[derive(Clone, Copy, PartialEq, Eq)]
pub struct ResetStream {
    pub id: StreamId,
    pub error_code: u64,
    pub final_offset: u64,
}

#[derive(Clone, Copy, PartialEq, Eq)]
pub struct StopSending {
    pub id: StreamId,
    pub error_code: u64,
}

#[derive(Clone, Copy, PartialEq, Eq)]
pub struct Crypto {
    pub offset: u64,
    pub data: Place,
}

#[derive(Clone, Copy, PartialEq, Eq)]
pub struct NewToken {
    pub token: Place,
}

#[derive(Clone, Copy, PartialEq, Eq)]
pub struct Stream {
    pub id: StreamId,
    pub offset: u64,
    pub fin: bool,
    // whether a length stood before the data
    pub len: bool,
    pub data: Place,
}

#[derive(Clone, Copy, PartialEq, Eq)]
pub struct NewConnectionId {
    pub sequence: u64,
    pub retire_prior_to: u64,
    pub id: Place,
    pub reset_token: Place,
}

// Reason given by the transport for closing the connection.
#[derive(Clone, Copy, PartialEq, Eq)]
pub struct ConnectionClose {
    pub error_code: u64,
    pub frame_type: Option<FrameType>,
    pub reason: Place,
}

// Reason given by an application for closing the connection.
#[derive(Clone, Copy, PartialEq, Eq)]
pub struct ApplicationClose {
    pub error_code: u64,
    pub reason: Place,
}

#[derive(Clone, Copy, PartialEq, Eq)]
pub enum Close {
    Connection(ConnectionClose),
    Application(ApplicationClose),
}

#[derive(Clone, Copy, PartialEq, Eq)]
pub struct Datagram {
    // whether a length stood before the data
    pub len: bool,
    pub data: Place,
}

#[derive(Clone, Copy, PartialEq, Eq)]
pub struct AckFrequency {
    pub sequence: u64,
    pub ack_eliciting_threshold: u64,
    pub request_max_ack_delay: u64,
    pub reordering_threshold: u64,
}

#[derive(Clone, Copy, PartialEq, Eq)]
pub enum Frame {
    Padding,
    Ping,
    Ack(Ack),
    ResetStream(ResetStream),
    StopSending(StopSending),
    Crypto(Crypto),
    NewToken(NewToken),
    Stream(Stream),
    MaxData(u64),
    MaxStreamData { id: StreamId, offset: u64 },
    MaxStreams { dir: Dir, count: u64 },
    DataBlocked { offset: u64 },
    StreamDataBlocked { id: StreamId, offset: u64 },
    StreamsBlocked { dir: Dir, limit: u64 },
    NewConnectionId(NewConnectionId),
    RetireConnectionId { sequence: u64 },
    PathChallenge(u64),
    PathResponse(u64),
    Close(Close),
    Datagram(Datagram),
    AckFrequency(AckFrequency),
    ImmediateAck,
    HandshakeDone,
}

// The type of a stream frame, with no length.
#[tactic(auto, unfolding(crate::specs::Types::frame_type_of))]
fn stream_type(x: Stream) -> FrameType
    ensures { result.0 ≡ frame_type_of (frame_said (Frame.Stream x)) }
{
    let off = if x.offset == 0 { 0 } else { types::OFF };
    let fin = if x.fin { types::FIN } else { 0 };
    FrameType(types::STREAM_FIRST + off + fin)
}

impl Frame {
    // The type that stands for the frame; a stream's says nothing of a length.
    #[tactic(auto, unfolding(crate::specs::Types::frame_type_of))]
    pub fn ty(self) -> FrameType
        ensures { result.0 ≡ frame_type_of (frame_said self) }
    {
        match self {
            Frame::Padding => FrameType::PADDING,
            Frame::ResetStream(_) => FrameType::RESET_STREAM,
            Frame::Close(Close::Connection(_)) => FrameType::CONNECTION_CLOSE,
            Frame::Close(Close::Application(_)) => FrameType::APPLICATION_CLOSE,
            Frame::MaxData(_) => FrameType::MAX_DATA,
            Frame::MaxStreamData { .. } => FrameType::MAX_STREAM_DATA,
            Frame::MaxStreams { dir, .. } => FrameType(types::MAX_STREAMS_BIDI + u64::from(dir)),
            Frame::Ping => FrameType::PING,
            Frame::DataBlocked { .. } => FrameType::DATA_BLOCKED,
            Frame::StreamDataBlocked { .. } => FrameType::STREAM_DATA_BLOCKED,
            Frame::StreamsBlocked { dir, .. } => {
                FrameType(types::STREAMS_BLOCKED_BIDI + u64::from(dir))
            }
            Frame::StopSending(_) => FrameType::STOP_SENDING,
            Frame::RetireConnectionId { .. } => FrameType::RETIRE_CONNECTION_ID,
            Frame::Ack(_) => FrameType::ACK,
            Frame::Stream(x) => stream_type(x),
            Frame::PathChallenge(_) => FrameType::PATH_CHALLENGE,
            Frame::PathResponse(_) => FrameType::PATH_RESPONSE,
            Frame::NewConnectionId(_) => FrameType::NEW_CONNECTION_ID,
            Frame::Crypto(_) => FrameType::CRYPTO,
            Frame::NewToken(_) => FrameType::NEW_TOKEN,
            Frame::Datagram(_) => FrameType(types::DATAGRAM_FIRST),
            Frame::AckFrequency(_) => FrameType::ACK_FREQUENCY,
            Frame::ImmediateAck => FrameType::IMMEDIATE_ACK,
            Frame::HandshakeDone => FrameType::HANDSHAKE_DONE,
        }
    }

    // All but PADDING, ACK and the two closes.
    #[tactic(auto, unfolding(crate::specs::Types::ack_eliciting))]
    pub fn is_ack_eliciting(self) -> bool
        ensures { result ≡ ack_eliciting (frame_said self) }
    {
        !matches!(self, Frame::Padding | Frame::Ack(_) | Frame::Close(_))
    }
}
