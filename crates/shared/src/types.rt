// The frame types' numbers (frame_types!, STREAM_TYS and DATAGRAM_TYS of frame.rs; RFC 9000, section 19).
pub const PADDING: u64 = 0x00;

pub const PING: u64 = 0x01;

pub const ACK: u64 = 0x02;

pub const ACK_ECN: u64 = 0x03;

pub const RESET_STREAM: u64 = 0x04;

pub const STOP_SENDING: u64 = 0x05;

pub const CRYPTO: u64 = 0x06;

pub const NEW_TOKEN: u64 = 0x07;

// STREAM, and what its bits say: an offset stands, a length stands, the stream ends.
pub const STREAM_FIRST: u64 = 0x08;

pub const STREAM_LAST: u64 = 0x0f;

pub const OFF: u64 = 0x04;

pub const LEN: u64 = 0x02;

pub const FIN: u64 = 0x01;

pub const MAX_DATA: u64 = 0x10;

pub const MAX_STREAM_DATA: u64 = 0x11;

pub const MAX_STREAMS_BIDI: u64 = 0x12;

pub const MAX_STREAMS_UNI: u64 = 0x13;

pub const DATA_BLOCKED: u64 = 0x14;

pub const STREAM_DATA_BLOCKED: u64 = 0x15;

pub const STREAMS_BLOCKED_BIDI: u64 = 0x16;

pub const STREAMS_BLOCKED_UNI: u64 = 0x17;

pub const NEW_CONNECTION_ID: u64 = 0x18;

pub const RETIRE_CONNECTION_ID: u64 = 0x19;

pub const PATH_CHALLENGE: u64 = 0x1a;

pub const PATH_RESPONSE: u64 = 0x1b;

pub const CONNECTION_CLOSE: u64 = 0x1c;

pub const APPLICATION_CLOSE: u64 = 0x1d;

pub const HANDSHAKE_DONE: u64 = 0x1e;

pub const IMMEDIATE_ACK: u64 = 0x1f;

// DATAGRAM, without a length and with one.
pub const DATAGRAM_FIRST: u64 = 0x30;

pub const DATAGRAM_LAST: u64 = 0x31;

pub const ACK_FREQUENCY: u64 = 0xaf;
