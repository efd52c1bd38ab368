// Connection ids, ECN codepoints, the kinds of number that a connection counts with (shared.rs; lib.rs), and the bits of a
// header's first byte (packet.rs). Reads take a Reader, as coding's do, and leave it where it stood on a refusal. Puts take a buffer
// and a place, as coding's do, and answer the next: a caller keeps the one and moves the other.
#![tactic(auto)]

mod bits; // bits.rt: the bits of a header's first byte
mod cid; // cid.rt: connection ids
mod codepoint; // codepoint.rt: explicit congestion notification
mod kinds; // kinds.rt: stream ids, frame types, packet numbers
pub mod types; // types.rt: the frame types' numbers, for a match

pub use bits::{
    FIXED_BIT, KEY_PHASE_BIT, LONG_HEADER_FORM, LONG_RESERVED_BITS, SHORT_RESERVED_BITS, SPIN_BIT,
};
pub use cid::{ConnectionId, MAX_CID_SIZE, long_place};
pub use codepoint::EcnCodepoint;
pub use kinds::{CutNumber, Dir, FrameType, FullNumber, Side, StreamId};
