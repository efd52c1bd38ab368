// Why a header was not read (packet.rs, PacketDecodeError).
#![tactic(auto, using(crate::proofs::Cases::error_says, crate::proofs::Cases::error_ends))]

ghost use Rattle.std.specs.Prelude.{◌≡◌};
ghost use Rattle.coding.specs.Words.{no};
ghost use Rattle.coding.specs.Refusals.{number_of};
ghost use Rattle.coding.specs.declared.refusal.Refusal.TheVariants as refusal;
ghost use Rattle.packet.specs.declared.error.PacketDecodeError.TheVariants as error;
ghost use Rattle.packet.specs.Header.{length_in, space_in, is_kind, is_long};
ghost use Rattle.packet.specs.Said.{error_of, option_of, space_of};

use crate::SpaceId;
use coding::{Refusal, UnexpectedEnd};
use shared::ConnectionId;

// A version that is not listed comes with both connection ids; another refusal carries nothing.
#[derive(Clone, Copy, PartialEq, Eq)]
pub enum PacketDecodeError {
    UnsupportedVersion {
        dst_cid: ConnectionId,
        src_cid: ConnectionId,
        version: u32,
    },
    Refused(Refusal),
}

impl PacketDecodeError {
    pub fn refusal(self) -> Refusal
        ensures { no (number_of result) ≡ (error_of self).said }
    {
        match self {
            PacketDecodeError::UnsupportedVersion { .. } => Refusal::Version,
            PacketDecodeError::Refused(why) => why,
        }
    }

    // The destination Connection ID of a packet whose version is not listed, else the empty one. It and the source one are two
    // fields: one function for both would have to be told which.
    pub fn dst_cid(self) -> ConnectionId
        ensures { result ≡ (error_of self).dst }
    {
        match self {
            PacketDecodeError::UnsupportedVersion { dst_cid, .. } => dst_cid,
            PacketDecodeError::Refused(_) => ConnectionId::empty(),
        }
    }

    // And the source Connection ID.
    pub fn src_cid(self) -> ConnectionId
        ensures { result ≡ (error_of self).src }
    {
        match self {
            PacketDecodeError::UnsupportedVersion { src_cid, .. } => src_cid,
            PacketDecodeError::Refused(_) => ConnectionId::empty(),
        }
    }

    // The version that is not listed, else 0, as a header that was refused had it.
    pub fn version(self) -> u32
        ensures { result ≡ (error_of self).version }
    {
        match self {
            PacketDecodeError::UnsupportedVersion { version, .. } => version,
            PacketDecodeError::Refused(_) => 0,
        }
    }

    // What else a `Decoded` answers is the same for every header that was refused.
    pub fn payload_len(self) -> Option<u64>
        ensures { option_of result ≡ length_in (error_of self).said }
    {
        None // it has no Length
    }

    pub fn space(self) -> Option<SpaceId>
        ensures { space_of result ≡ space_in (error_of self).said }
    {
        None // and no space
    }

    pub fn is_initial(self) -> bool
        ensures { result ≡ is_kind 0 (error_of self).said }
    {
        false // it is of no kind, so no Initial
    }

    pub fn is_0rtt(self) -> bool
        ensures { result ≡ is_kind 1 (error_of self).said }
    {
        false // and no 0-RTT packet
    }

    pub fn has_long_header(self) -> bool
        ensures { result ≡ is_long (error_of self).said }
    {
        false // and it is not taken for a long one
    }

    pub fn number_offset(self) -> usize
        ensures { result ≡ (error_of self).end }
    {
        0 // and it ends nowhere
    }
}

// A header's field that is cut is by itself 1.
impl From<UnexpectedEnd> for PacketDecodeError {
    ghost from_gives = { λ _ e. e ≡ error.Refused refusal.PacketEnd };

    fn from(_end: UnexpectedEnd) -> PacketDecodeError {
        PacketDecodeError::Refused(Refusal::PacketEnd)
    }
}
