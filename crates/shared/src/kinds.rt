// Kinds of number that are not to be taken for each other (lib.rs; frame.rs; packet.rs, PacketNumber).
#![tactic(auto, unfolding(crate::specs::Streams::initiator_of, crate::specs::Streams::dir_of, crate::specs::Streams::index_of, crate::specs::Streams::stream_id, crate::specs::Streams::stream_made, crate::specs::Said::stream_of))]

ghost use Rattle.std.specs.Prelude.{◌≡◌, ◌-◌, ◌≤◌, eqb};
ghost use Rattle.shared.specs.Streams.{initiator_of, dir_of, index_of, stream_made};
ghost use Rattle.shared.specs.Said.{side_bit, dir_bit, stream_of};

use crate::types;
use coding::Refusal;
use std::ops::Not;

// Whether an endpoint was the initiator of a connection.
#[derive(Clone, Copy, PartialEq, Eq)]
pub enum Side {
    Client = 0,
    Server = 1,
}

// Whether a stream communicates data in both directions or only from the initiator; a type of its own beside Side, so that
// neither is taken for the other.
#[derive(Clone, Copy, PartialEq, Eq)]
pub enum Dir {
    Bi = 0,
    Uni = 1,
}

// A stream's index has 60 bits.
const INDEX_END: u64 = 1 << 60;

// Identifier for a stream within a particular connection.
#[derive(Clone, Copy, PartialEq, Eq)]
pub struct StreamId(pub u64);

// A frame's type.
#[derive(Clone, Copy, PartialEq, Eq)]
pub struct FrameType(pub u64);

// A full packet number.
#[derive(Clone, Copy, PartialEq, Eq)]
pub struct FullNumber(pub u64);

// A cut packet number: its length in bytes, 1 to 4, and its value, below 2^(8 length).
#[derive(Clone, Copy, PartialEq, Eq)]
pub struct CutNumber(pub usize, pub u32);

impl Side {
    pub fn is_client(self) -> bool
        ensures { result ≡ eqb (side_bit self) 0 }
    {
        self == Side::Client
    }

    pub fn is_server(self) -> bool
        ensures { result ≡ eqb (side_bit self) 1 }
    {
        self == Side::Server
    }
}

// The other side.
impl Not for Side {
    type Output = Side;

    ghost not_gives = { λ side other. side_bit other ≡ 1 - side_bit side };

    fn not(self) -> Side {
        match self {
            Side::Client => Side::Server,
            Side::Server => Side::Client,
        }
    }
}

// Its bit in a stream id.
impl From<Side> for u64 {
    ghost from_gives = { λ side bit. (bit ≡ side_bit side) × (bit ≤ 1) };

    fn from(side: Side) -> u64 {
        side as u64
    }
}

// 0 both ways, 1 one way.
impl From<Dir> for u64 {
    ghost from_gives = { λ dir bit. (bit ≡ dir_bit dir) × (bit ≤ 1) };

    fn from(dir: Dir) -> u64 {
        dir as u64
    }
}

impl StreamId {
    // Create a new StreamId, of 62 bits.
    pub fn new(initiator: Side, dir: Dir, index: u64) -> Result<StreamId, Refusal>
        ensures { stream_of result ≡ stream_made (side_bit initiator) (dir_bit dir) index }
    {
        if INDEX_END <= index {
            return Err(Refusal::Argument);
        }
        Ok(StreamId(index * 4 + u64::from(dir) * 2 + u64::from(initiator)))
    }

    // Which side of a connection initiated the stream; by name, as the Rust has it and docs/ITEMS.
    pub fn initiator(self) -> Side
        ensures { side_bit result ≡ initiator_of self.0 }
    {
        if self.0 % 2 == 0 {
            Side::Client
        } else {
            Side::Server
        }
    }

    // Which directions data flows in; by name likewise.
    pub fn dir(self) -> Dir
        ensures { dir_bit result ≡ dir_of self.0 }
    {
        if self.0 / 2 % 2 == 0 {
            Dir::Bi
        } else {
            Dir::Uni
        }
    }

    // Distinguishes streams of the same initiator and directionality.
    pub fn index(self) -> u64
        ensures { result ≡ index_of self.0 }
    {
        self.0 >> 2
    }
}

// The frame types (frame_types! of frame.rs), by the names of docs/ITEMS. Their numbers stand in types, since a match that has
// ranges takes numbers.
impl FrameType {
    pub const PADDING: FrameType = FrameType(types::PADDING);

    pub const PING: FrameType = FrameType(types::PING);

    pub const ACK: FrameType = FrameType(types::ACK);

    pub const ACK_ECN: FrameType = FrameType(types::ACK_ECN);

    pub const RESET_STREAM: FrameType = FrameType(types::RESET_STREAM);

    pub const STOP_SENDING: FrameType = FrameType(types::STOP_SENDING);

    pub const CRYPTO: FrameType = FrameType(types::CRYPTO);

    pub const NEW_TOKEN: FrameType = FrameType(types::NEW_TOKEN);

    pub const MAX_DATA: FrameType = FrameType(types::MAX_DATA);

    pub const MAX_STREAM_DATA: FrameType = FrameType(types::MAX_STREAM_DATA);

    pub const MAX_STREAMS_BIDI: FrameType = FrameType(types::MAX_STREAMS_BIDI);

    pub const MAX_STREAMS_UNI: FrameType = FrameType(types::MAX_STREAMS_UNI);

    pub const DATA_BLOCKED: FrameType = FrameType(types::DATA_BLOCKED);

    pub const STREAM_DATA_BLOCKED: FrameType = FrameType(types::STREAM_DATA_BLOCKED);

    pub const STREAMS_BLOCKED_BIDI: FrameType = FrameType(types::STREAMS_BLOCKED_BIDI);

    pub const STREAMS_BLOCKED_UNI: FrameType = FrameType(types::STREAMS_BLOCKED_UNI);

    pub const NEW_CONNECTION_ID: FrameType = FrameType(types::NEW_CONNECTION_ID);

    pub const RETIRE_CONNECTION_ID: FrameType = FrameType(types::RETIRE_CONNECTION_ID);

    pub const PATH_CHALLENGE: FrameType = FrameType(types::PATH_CHALLENGE);

    pub const PATH_RESPONSE: FrameType = FrameType(types::PATH_RESPONSE);

    pub const CONNECTION_CLOSE: FrameType = FrameType(types::CONNECTION_CLOSE);

    pub const APPLICATION_CLOSE: FrameType = FrameType(types::APPLICATION_CLOSE);

    pub const HANDSHAKE_DONE: FrameType = FrameType(types::HANDSHAKE_DONE);

    pub const ACK_FREQUENCY: FrameType = FrameType(types::ACK_FREQUENCY);

    pub const IMMEDIATE_ACK: FrameType = FrameType(types::IMMEDIATE_ACK);
}
