// One packet after the other: a step that the caller repeats (RFC 9000, 12.2).
#![tactic(auto, using(crate::proofs::Cases::error_says, crate::proofs::Cases::from_on), unfolding(crate::specs::Split::no_packet, crate::specs::Split::cut_at, crate::specs::Split::split_on, crate::specs::Split::split_with, crate::specs::Said::ended_of, crate::specs::Said::outcome_of, crate::specs::Walk::met_on, crate::specs::Walk::step_on, crate::specs::Walk::stop_at, crate::specs::Walk::packet_step_at, crate::specs::Said::decoded_of, crate::specs::Said::partial_of, crate::specs::Said::split_of, crate::specs::Said::packet_step_of))]

ghost use Rattle.std.specs.Prelude.{◌≡◌};
ghost use Rattle.packet.specs.Walk.{packet_step_at};
ghost use Rattle.packet.specs.Said.{packet_step_of};

use crate::{Decoded, PacketDecodeError};
use coding::{Place, Refusal};

// A packet that a step meets, with its header, whose places are relative to the packet.
#[derive(Clone, Copy, PartialEq, Eq)]
pub struct Stepped {
    pub packet: Place,
    pub plain_header: Decoded,
}

// Where a step met a refusal, and which.
#[derive(Clone, Copy, PartialEq, Eq)]
pub struct StepError {
    pub start: usize,
    pub why: PacketDecodeError,
}

// The packet at a place, or none at the end of the datagram; the next step is at its end.
pub fn step(
    s: &[u8],
    at: usize,
    local: usize,
    versions: &[u32],
    grease: bool,
) -> Result<Option<Stepped>, StepError>
    ensures { packet_step_of result ≡ packet_step_at s.now at local versions.now grease }
{
    if crate::protected::is_outside(s, local, versions) {
        return Err(StepError {
            start: at,
            why: PacketDecodeError::Refused(Refusal::Argument),
        });
    }
    if s.is_empty() {
        return Err(StepError {
            start: at,
            why: PacketDecodeError::Refused(Refusal::PacketEnd),
        });
    }
    if s.len() <= at {
        return Ok(None);
    }
    let rest = &s[at..];
    match crate::decode(rest, local, versions, grease) {
        Ok(plain_header) => {
            let Some(len) = crate::partial::end_of(&plain_header, rest) else {
                return Err(StepError {
                    start: at,
                    why: PacketDecodeError::Refused(Refusal::Length),
                });
            };
            Ok(Some(Stepped {
                packet: Place { start: at, len },
                plain_header,
            }))
        }
        Err(why) => Err(StepError { start: at, why }),
    }
}
