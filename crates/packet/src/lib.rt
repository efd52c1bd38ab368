// From datagram to packets: header decode, split and walk (packet.rs).
#![tactic(auto)]

mod error; // error.rt: why a header was not read
mod header; // header.rt: what a header says
mod partial; // partial.rt: the first packet and the rest
mod protected; // protected.rt: the header as far as it can be read without keys
mod walk; // walk.rt: one packet after the other

pub use error::PacketDecodeError;
pub use header::{Decoded, LongHeaderType, LongType, ProtectedHeader, SpaceId};
pub use partial::{PartialDecode, split};
pub use protected::{MAX_VERSIONS, decode};
pub use walk::{StepError, Stepped, step};
